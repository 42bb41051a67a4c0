//! A test of a replay for which SEQs wrap early: after SEQ 256 comes SEQ 1.

use crate::made::{MEMORY, sink, source};
use cds_memory::MemSink;
use cds_replay::{ReplayError, replay};
use std::alloc::Global;
use std::process::Abort;

/// How the script begins. Note 1 has SEQ 0.
const START: &str =
    "wrap 256\nload\nread\nread\nread\nread\nread\nread\nsubscribe\naccept\ndeliver 1\n";

/// How many notes come after note 1. The last one has SEQ 1 again.
const NOTES: u64 = 257;

/// How the script ends. SEQ 199 is given 59 places later, and SEQ 149 109 places later. A note that was sent 257 places ago may not
/// be delivered: its SEQ would be taken for that of a later note.
const END: &str = "deliver 200\ndeliver 150\ndeliver 2\n";

/// The line that has the fault.
const LAST: u32 = 1_042;

/// How the report ends.
const REPORT: &str =
    "scan 257\nnote 258 seq 1 at 257\ndeliver 258 took\ndeliver 200 repeat\ndeliver 150 unknown\nerror line 1042\n";

/// Writes the lines of a note: one file changes, the note is sent 200 milliseconds later, and it comes.
fn put_note<R: Abort>(rt: &R, alloc: Global, script: &mut Vec<u8>, number: u64) {
    let time = number.saturating_mul(200);
    let note = number.saturating_add(1);
    let lines = format!(in alloc;
        "track a.flac {number} 0 2 16 0\nscan\nat {time}\ndeliver {note}\n"
    ).expect(rt, MEMORY);
    script
        .extend_from_slice(lines.as_bytes())
        .expect(rt, MEMORY);
}

/// Makes the script.
fn script<R: Abort>(rt: &R, alloc: Global) -> Vec<u8> {
    let mut script = Vec::from_slice(alloc, START.as_bytes()).expect(rt, MEMORY);
    for number in 1..NOTES + 1 {
        put_note(rt, alloc, &mut script, number);
    }
    script.extend_from_slice(END.as_bytes()).expect(rt, MEMORY);
    script
}

/// Replays the script into a sink, and returns its fault.
fn answer<R: Abort>(rt: &R, alloc: Global, sink: &mut MemSink) -> Result<(), ReplayError> {
    let bytes = script(rt, alloc);
    let mut source = source(rt, alloc, &bytes, &[]);
    replay(alloc, &mut source, sink)
}

#[test]
fn notes_of_a_script_past_the_wrap(rt: HostRuntime) {
    let mut sink = sink(&rt, rt.alloc(), &[]);
    let answer = answer(&rt, rt.alloc(), &mut sink);
    assert!(rt;
        answer == Err(ReplayError::Line { line: LAST }),
        "the fault"
    );
    assert!(rt;
        sink.as_slice().ends_with(REPORT.as_bytes()),
        "the end of the report"
    );
}
