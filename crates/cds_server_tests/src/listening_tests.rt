//! Tests of connections one after another, some of which fail, and of a subscriber that is told of scans.

use crate::desk::Desk;
use crate::made::{MEMORY, asking, folder, is_good, rows_in, subscribing};
use cds_http::{MessageReader, Side};
use cds_memory::{MemConn, MemLink};
use cds_notify::{Note, read_notify};
use cds_outside::LinkRequest;
use std::alloc::Global;
use std::process::Abort;
use std::sync::Wait;

/// Returns a served connection that asked for the children of the root. One read and one write of it fail.
fn asked<R: Wait + Abort>(rt: &R, alloc: Global, read: u32, write: u32) -> MemConn {
    let mut conn = asking(rt, alloc, read, write);
    let mut desk = Desk::new(rt, alloc, &[], 0);
    desk.serve(rt, alloc, &mut conn);
    conn
}

/// Returns how many rows are shown.
fn rows_shown<R: Wait + Abort>(rt: &R, alloc: Global) -> Option<usize> {
    let conn = asked(rt, alloc, 0, 0);
    rows_in(rt, alloc, conn.written())
}

/// Returns whether nothing is answered if one read and one write of the connection fail.
fn is_given_up<R: Wait + Abort>(rt: &R, alloc: Global, read: u32, write: u32) -> bool {
    let conn = asked(rt, alloc, read, write);
    conn.written().is_empty()
}

#[test]
fn a_connection_is_answered_or_given_up(rt: HostRuntime) {
    assert!(rt; rows_shown(&rt, rt.alloc()) == Some(0), "the rows");
    assert!(rt; is_given_up(&rt, rt.alloc(), 1, 0), "a read");
    assert!(rt; is_given_up(&rt, rt.alloc(), 0, 1), "a write");
}

/// A note that goes out: its SEQ, which is its SystemUpdateID too, and how many changes it tells.
#[derive(Drop)]
struct NoteCase {
    name: &'static str,
    seq: u32,
    changes: usize,
}

const NOTES: [NoteCase; 3] = [
    NoteCase {
        name: "the first note",
        seq: 0,
        changes: 0,
    },
    NoteCase {
        name: "the note of the first scan",
        seq: 1,
        changes: 1,
    },
    NoteCase {
        name: "the note of the second scan",
        seq: 2,
        changes: 1,
    },
];

/// Returns the note that a request carries. The test ends if it carries none.
fn note_in<R: Abort>(rt: &R, alloc: Global, request: &LinkRequest) -> Note {
    let mut reader = MessageReader::new(alloc, Side::Request).expect(rt, MEMORY);
    reader
        .feed(alloc, request.bytes.as_slice())
        .expect(rt, "a message");
    let message = reader.finish().expect(rt, "a whole message");
    read_notify(alloc, &message).expect(rt, "a note")
}

/// Checks what a note says.
fn check_content<R: Abort>(rt: &R, note: &Note, case: &NoteCase) {
    assert!(rt; note.seq == case.seq, "{}: the SEQ", case.name);
    assert!(rt; note.number == case.seq, "{}: the number", case.name);
    assert!(rt;
        note.events.len() == case.changes,
        "{}: the changes",
        case.name
    );
}

/// Checks that a request carries the note of a case.
fn check_note<R: Abort>(rt: &R, alloc: Global, request: &LinkRequest, case: &NoteCase) {
    let url = request.url.as_str();
    assert!(rt;
        url == "http://10.0.0.9/n?x",
        "{}: the address {url}",
        case.name
    );
    assert!(rt;
        request.limit == 16_384,
        "{}: the limit of the reply",
        case.name
    );
    let note = note_in(rt, alloc, request);
    check_content(rt, &note, case);
}

/// Checks that exactly the notes of the cases went out, in their order.
fn check_notes<R: Abort>(rt: &R, alloc: Global, link: &MemLink) {
    for (request, case) in link.requests().iter().zip(&NOTES) {
        check_note(rt, alloc, request, case);
    }
    assert!(rt; link.requests().len() == NOTES.len(), "how many notes");
}

/// Subscribes, and checks that this is accepted.
fn subscribe<R: Wait + Abort>(rt: &R, alloc: Global, desk: &mut Desk) {
    let mut conn = subscribing(rt, alloc);
    desk.serve(rt, alloc, &mut conn);
    assert!(rt; is_good(conn.written()), "the subscription");
}

/// Scans folders of these names and looks. Checks that the server goes on, and that its last moment is this one.
fn scan_and_look<R: Wait + Abort>(rt: &R, alloc: Global, desk: &mut Desk, names: &str, last: u64) {
    let mut folder = folder(rt, alloc, names);
    desk.scan(rt, alloc, &mut folder);
    let is_stopped = desk.look(rt, alloc);
    assert!(rt; !is_stopped, "{names}: the server was stopped");
    assert!(rt; desk.last == last, "{names}: the last moment");
}

/// Checks that a subscriber is told of scans at moments, one of which the clock does not give.
fn check_told<R: Wait + Abort>(rt: &R, alloc: Global, desk: &mut Desk) {
    subscribe(rt, alloc, desk);
    scan_and_look(rt, alloc, desk, "Rock", 200);
    scan_and_look(rt, alloc, desk, "Jazz Rock", 400);
    check_notes(rt, alloc, &desk.link);
}

#[test]
fn a_subscriber_is_told_of_scans(rt: HostRuntime) {
    let mut desk = Desk::new(&rt, rt.alloc(), &[100, 200, 300, 400], 2);
    check_told(&rt, rt.alloc(), &mut desk);
}
