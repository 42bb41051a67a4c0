//! Tests of the streams of the system: over a pipe that they make, over a file that cannot be read or written, and over a writer
//! that is full.

use cds_outside::{Failed, Sink, Source};
use cds_system::{Input, Output};
use std::fs;
use std::io::{Read, pipe};
use std::process::Abort;

/// A write: the bytes that are to be written, and how many of them are taken.
#[derive(Drop)]
struct WriteCase {
    name: &'static str,
    bytes: &'static [u8],
    taken: Result<usize, Failed>,
}

/// A read: for how many bytes there is room, at most 8, and the bytes that come.
#[derive(Drop)]
struct ReadCase {
    name: &'static str,
    room: usize,
    bytes: &'static [u8],
}

/// What is written to a pipe.
const PIPED: [WriteCase; 3] = [
    WriteCase {
        name: "three bytes",
        bytes: b"abc",
        taken: Ok(3),
    },
    WriteCase {
        name: "no bytes",
        bytes: b"",
        taken: Ok(0),
    },
    WriteCase {
        name: "two bytes",
        bytes: b"de",
        taken: Ok(2),
    },
];

/// What is then read from it.
const READ: [ReadCase; 6] = [
    ReadCase {
        name: "two bytes of the first piece",
        room: 2,
        bytes: b"ab",
    },
    ReadCase {
        name: "nothing without room",
        room: 0,
        bytes: b"",
    },
    ReadCase {
        name: "two bytes of both pieces",
        room: 2,
        bytes: b"cd",
    },
    ReadCase {
        name: "the last byte, with more room",
        room: 8,
        bytes: b"e",
    },
    ReadCase {
        name: "the end",
        room: 8,
        bytes: b"",
    },
    ReadCase {
        name: "the end once more",
        room: 8,
        bytes: b"",
    },
];

/// Writes once, and checks how many bytes are taken.
fn check_write<R: Abort, S: Sink>(rt: &R, sink: &mut S, case: &WriteCase) {
    assert!(rt; sink.write(case.bytes) == case.taken, "{}", case.name);
}

/// Reads once, and checks which bytes come.
fn check_read<R: Abort, S: Source>(rt: &R, source: &mut S, case: &ReadCase) {
    let mut into = [0u8; 8];
    let room = case.room.min(8);
    let count = source.read(&mut into[..room]).expect(rt, case.name);
    assert!(rt; into.get(..count) == Some(case.bytes), "{}", case.name);
}

#[test]
fn a_pipe_gives_what_was_written(rt: HostRuntime) {
    let (reader, writer) = pipe(&rt).expect(&rt, "no pipe");
    let mut source = Input::new(reader);
    let mut sink = Output::new(writer);
    for case in &PIPED {
        check_write(&rt, &mut sink, case);
    }
    drop(sink);
    for case in &READ {
        check_read(&rt, &mut source, case);
    }
    assert!(rt; source.faults() == 0);
}

/// A file of the system that can always be opened.
const FILE: &str = "/dev/null";

/// Reads twice, and checks that both reads fail and are counted.
fn check_read_faults<R: Abort, T: Read + Drop>(rt: &R, source: &mut Input<T>) {
    let mut into = [0u8; 8];
    assert!(rt; source.read(&mut into) == Err(Failed), "the first read");
    assert!(rt; source.read(&mut into) == Err(Failed), "the second read");
    assert!(rt; source.faults() == 2, "the count of faults");
}

#[test]
fn a_file_that_is_open_for_writing_alone_is_not_read(rt: HostRuntime) {
    let file = fs::create(&rt, FILE).expect(&rt, "no file");
    check_read_faults(&rt, &mut Input::new(file));
}

/// What is written to a file that is open for reading alone.
const UNWRITTEN: [WriteCase; 2] = [
    WriteCase {
        name: "one byte",
        bytes: b"a",
        taken: Err(Failed),
    },
    WriteCase {
        name: "no bytes, which are not tried",
        bytes: b"",
        taken: Ok(0),
    },
];

#[test]
fn a_file_that_is_open_for_reading_alone_is_not_written(rt: HostRuntime) {
    let file = fs::open(&rt, FILE).expect(&rt, "no file");
    let mut sink = Output::new(file);
    for case in &UNWRITTEN {
        check_write(&rt, &mut sink, case);
    }
}

/// What is written to a writer with room for three bytes.
const FILLING: [WriteCase; 3] = [
    WriteCase {
        name: "two bytes with room",
        bytes: b"ab",
        taken: Ok(2),
    },
    WriteCase {
        name: "two bytes with room for one",
        bytes: b"cd",
        taken: Ok(1),
    },
    WriteCase {
        name: "one byte without room",
        bytes: b"d",
        taken: Err(Failed),
    },
];

#[test]
fn a_writer_that_takes_nothing_has_failed(rt: HostRuntime) {
    let mut room = [0u8; 3];
    let mut sink = Output::new(room.as_mut_slice());
    for case in &FILLING {
        check_write(&rt, &mut sink, case);
    }
    drop(sink);
    assert!(rt; room == [b'a', b'b', b'c']);
}
