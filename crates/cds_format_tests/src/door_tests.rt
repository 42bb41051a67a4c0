//! Tests of doors in memory, which share their connections under a lock, and of jobs in threads of their own.

use crate::made::{MEMORY, answer, answer_next, numbers, source};
use cds_base::{Bytes, Sequence};
use cds_memory::{MemConn, MemDoor, MemSink, MemSpawner};
use cds_outside::{Door, Failed, Gate, Job, NoGate, Sink, Source, Spawner};
use std::alloc::Global;
use std::marker::Send;
use std::process::Abort;
use std::sync::Wait;

/// What a test says if a door gives no second handle.
const HANDLE: &str = "no handle";

/// Makes a connection that gives these bytes. Its second read and its second write fail.
fn conn<R: Abort>(rt: &R, alloc: Global, text: &str) -> MemConn {
    let source = source(rt, alloc, text.as_bytes(), &[2]);
    let fails = numbers(rt, alloc, &[2]);
    let sink = MemSink::new(Bytes::new(alloc), 64, fails).expect(rt, MEMORY);
    MemConn::new(source, sink)
}

/// Makes a door with a connection for each word, of which these calls fail.
fn door<R: Wait + Clone + Copy + Drop + Abort>(
    rt: R,
    alloc: Global,
    words: &str,
    fails: &[u32],
) -> MemDoor<R> {
    let mut conns = Sequence::new(alloc);
    for word in words.split(' ') {
        conns.push(conn(&rt, alloc, word)).expect(&rt, MEMORY);
    }
    let fails = numbers(&rt, alloc, fails);
    MemDoor::new(rt, alloc, conns, fails).expect(&rt, MEMORY)
}

/// Accepts by a handle, and checks whether a connection comes.
fn check_accept<R: Abort, D: Door>(rt: &R, door: &mut D, comes: bool, call: &str) {
    assert!(rt; door.accept().is_ok() == comes, "{call}");
}

/// Checks that a handle has accepted `connections` connections, and has `faults` faults.
fn check_counts<R: Wait + Clone + Drop + Abort>(
    rt: &R,
    door: &MemDoor<R>,
    connections: u64,
    faults: u64,
    handle: &str,
) {
    assert!(rt;
        door.connections() == connections,
        "{handle}: its connections"
    );
    assert!(rt; door.faults() == faults, "{handle}: its faults");
}

/// Accepts by two handles in turn. Both connections come, the second one at the second try.
fn check_both<R: Abort, D: Door>(rt: &R, first: &mut D, second: &mut D) {
    check_accept(rt, second, true, "the second handle's connection");
    check_accept(rt, first, false, "the call that is to fail");
    check_accept(rt, first, true, "the first handle's connection");
    check_accept(rt, first, false, "the first handle, with nothing left");
    check_accept(rt, second, false, "the second handle, with nothing left");
}

#[test]
fn handles_of_a_door_share_its_connections(rt: HostRuntime) {
    let mut first = door(rt, rt.alloc(), "a bc", &[1, 4]);
    assert!(rt; first.again().is_err());
    let mut second = first.again().expect(&rt, HANDLE);
    check_both(&rt, &mut first, &mut second);
    check_counts(&rt, &first, 1, 3, "the first handle");
    check_counts(&rt, &second, 1, 1, "the second handle");
}

/// Checks that `want` bytes were written at a connection of a door; `None` says that there is no such connection.
fn check_written<R: Wait + Clone + Drop + Abort>(
    rt: &R,
    alloc: Global,
    door: &MemDoor<R>,
    at: usize,
    want: Option<usize>,
) {
    let written = door.written(alloc, at).expect(rt, MEMORY);
    let length = written.map(|bytes| bytes.len());
    assert!(rt; length == want, "what was written at connection {at}");
}

/// Reads and writes at a connection, and checks how many bytes were read and written.
fn check_answer<R: Abort, C: Source + Sink>(
    rt: &R,
    conn: &mut C,
    want: Result<(usize, usize), Failed>,
    call: &str,
) {
    assert!(rt; answer(conn, b"ok") == want, "{call}");
}

#[test]
fn a_door_shows_what_was_written(rt: HostRuntime) {
    let alloc = rt.alloc();
    let mut door = door(rt, alloc, "a bc", &[]);
    let mut first = door.accept().expect(&rt, "no first connection");
    let mut second = door.accept().expect(&rt, "no second connection");
    check_answer(&rt, &mut second, Ok((2, 2)), "the second connection");
    check_answer(&rt, &mut first, Ok((1, 2)), "the first connection");
    check_answer(&rt, &mut first, Err(Failed), "its next read, which fails");
    check_written(&rt, alloc, &door, 0, Some(2));
    check_written(&rt, alloc, &door, 1, Some(2));
    check_written(&rt, alloc, &door, 2, None);
}

/// A job that takes a connection of its door and answers how many bytes it read.
#[derive(Drop)]
struct Reading<R> {
    door: MemDoor<R>,
    gate: NoGate,
}

impl<R: Wait + Clone + Send + Drop + 'static> Job for Reading<R> {
    ghost use Rattle.std.specs.Prelude.{⊤};

    type Out = (MemDoor<R>, usize);

    ghost answers = { λ _ _. ⊤ };

    fn run(self) -> (MemDoor<R>, usize) {
        let Reading { mut door, mut gate } = self;
        gate.pass(1);
        let (read, _) = answer_next(&mut door, b"ok").unwrap_or((0, 0));
        (door, read)
    }
}

/// Makes a job with a handle of the door.
fn job_at<R: Wait + Clone + Drop + Abort>(
    rt: &R,
    alloc: Global,
    door: &mut MemDoor<R>,
) -> Reading<R> {
    let gate = NoGate.again(alloc, 1).expect(rt, MEMORY);
    let door = door.again().expect(rt, HANDLE);
    Reading { door, gate }
}

/// Checks what a job answered: its handle, which accepted one connection, and the two bytes that it read.
fn check_job<R: Wait + Clone + Drop + Abort>(rt: &R, answer: &(MemDoor<R>, usize), job: &str) {
    check_counts(rt, &answer.0, 1, 0, job);
    assert!(rt; answer.1 == 2, "{job}: what it read");
}

#[test]
fn jobs_run_in_threads_of_their_own(rt: HostRuntime) {
    let alloc = rt.alloc();
    let mut door = door(rt, alloc, "ab cd", &[]);
    let mut spawner = MemSpawner::new(numbers(&rt, alloc, &[2]));
    let one = spawner.start(&rt, job_at(&rt, alloc, &mut door));
    let one = one.expect(&rt, "the first job");
    assert!(rt; spawner.start(&rt, job_at(&rt, alloc, &mut door)).is_err());
    let other = spawner.start(&rt, job_at(&rt, alloc, &mut door));
    let other = other.expect(&rt, "the third job");
    assert!(rt; spawner.started() == 2);
    assert!(rt; spawner.faults() == 1);
    check_job(&rt, &one.join(&rt), "the first job");
    check_job(&rt, &other.join(&rt), "the third job");
}
