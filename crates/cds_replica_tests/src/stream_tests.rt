//! Tests of replays whose streams fail, and of one that is driven line by line.

ghost use Rattle.std.specs.Prelude.{None};

use crate::made::{sink, source};
use cds_memory::MemSink;
use cds_outside::{Failed, Sink, Source};
use cds_replay::{ReplayError, replay};
use std::alloc::Global;
use std::cell::Cell;
use std::process::Abort;

/// A script, the reads and the writes that fail, the fault, and the report.
#[derive(Drop)]
struct FaultCase {
    name: &'static str,
    script: &'static str,
    reads: &'static [u32],
    writes: &'static [u32],
    fault: ReplayError,
    report: &'static str,
}

const FAULTS: [FaultCase; 3] = [
    FaultCase {
        name: "the first read",
        script: "ask\n",
        reads: &[1],
        writes: &[],
        fault: ReplayError::ReadFault,
        report: "",
    },
    FaultCase {
        name: "the second read, after a whole line and a part of one",
        script: "ask\nread",
        reads: &[2],
        writes: &[],
        fault: ReplayError::ReadFault,
        report: "behind load\n",
    },
    FaultCase {
        name: "the first write",
        script: "ask\n# w\n",
        reads: &[],
        writes: &[1],
        fault: ReplayError::WriteFault,
        report: "",
    },
];

/// Returns whether the replay of a case into a sink has the fault of the case.
fn has_fault<R: Abort>(rt: &R, alloc: Global, case: &FaultCase, sink: &mut MemSink) -> bool {
    let mut source = source(rt, alloc, case.script.as_bytes(), case.reads);
    replay(alloc, &mut source, sink) == Err(case.fault)
}

/// Checks the fault and the report of a case.
fn check_fault<R: Abort>(rt: &R, alloc: Global, case: &FaultCase) {
    let mut sink = sink(rt, alloc, case.writes);
    assert!(rt;
        has_fault(rt, alloc, case, &mut sink),
        "{}: the fault",
        case.name
    );
    assert!(rt;
        sink.as_slice() == case.report.as_bytes(),
        "{}: the report",
        case.name
    );
}

#[test]
fn reads_and_writes_that_fail(rt: HostRuntime) {
    for case in &FAULTS {
        check_fault(&rt, rt.alloc(), case);
    }
}

/// A piece that is typed, and how many bytes of the report are written before the source is read for it.
#[derive(Drop)]
struct TypedPiece {
    bytes: &'static [u8],
    written: usize,
}

/// A source that gives one piece at a time. It keeps the place of the first piece that was asked for before the answers to the
/// pieces before it were written.
#[derive(Drop)]
struct Typed<'a> {
    pieces: &'a [TypedPiece],
    at: usize,
    moved: u64,
    written: &'a Cell<usize>,
    early: Option<usize>,
}

impl Source for Typed<'_> {
    ghost told = { λ s. record { left = None; moved = s.moved; faults = 0 } };

    fn read(&mut self, into: &mut [u8]) -> Result<usize, Failed> {
        let Some(piece) = self.pieces.get(self.at) else {
            return Ok(0);
        };
        if self.early.is_none() && self.written.get() != piece.written {
            self.early = Some(self.at);
        }
        self.at = self.at.saturating_add(1);
        let count = piece.bytes.len().min(into.len());
        into[..count].copy_from_slice(&piece.bytes[..count]);
        self.moved = self.moved.saturating_add(count as u64);
        Ok(count)
    }
}

/// A sink that says how many bytes it took, and how many at once.
#[derive(Drop)]
struct Heard<'a> {
    written: &'a Cell<usize>,
    at_once: usize,
}

impl Sink for Heard<'_> {
    ghost told = { λ _. record { holds = None; faults = 0 } };

    fn write(&mut self, piece: &[u8]) -> Result<usize, Failed> {
        self.written
            .set(self.written.get().saturating_add(piece.len()));
        self.at_once = self.at_once.max(piece.len());
        Ok(piece.len())
    }
}

/// Lines as they are typed, piece by piece.
const PIECES: [TypedPiece; 8] = [
    TypedPiece {
        bytes: b"ask\n",
        written: 0,
    },
    TypedPiece {
        bytes: b"folder a\n",
        written: 12,
    },
    TypedPiece {
        bytes: b"scan\n",
        written: 12,
    },
    TypedPiece {
        bytes: b"re",
        written: 19,
    },
    TypedPiece {
        bytes: b"ad\n",
        written: 19,
    },
    TypedPiece {
        bytes: b"ask\nask\n\nask\nread\n",
        written: 29,
    },
    TypedPiece {
        bytes: b"ask",
        written: 75,
    },
    TypedPiece {
        bytes: b"",
        written: 75,
    },
];

/// Checks that all pieces are read, each after the lines before it are answered.
fn check_typed<R: Abort>(rt: &R, alloc: Global, written: &Cell<usize>, sink: &mut Heard) {
    let mut source = Typed {
        pieces: &PIECES,
        at: 0,
        moved: 0,
        written,
        early: None,
    };
    replay(alloc, &mut source, sink).expect(rt, "the replay");
    let early = source.early.unwrap_or(8);
    assert!(rt;
        early == 8,
        "piece {early} is read before the lines before it are answered"
    );
    assert!(rt; source.at == 8, "how many pieces are read");
}

/// Checks that the lines are answered in time, and the lines of one piece one by one.
fn check_heard<R: Abort>(rt: &R, alloc: Global, written: &Cell<usize>) {
    let mut sink = Heard {
        written,
        at_once: 0,
    };
    check_typed(rt, alloc, written, &mut sink);
    assert!(rt; written.get() == 87, "how many bytes are written");
    assert!(rt; sink.at_once == 12, "how many bytes are written at once");
}

#[test]
fn a_line_is_answered_before_the_next_is_read(rt: HostRuntime) {
    let written = Cell::new(0);
    check_heard(&rt, rt.alloc(), &written);
}
