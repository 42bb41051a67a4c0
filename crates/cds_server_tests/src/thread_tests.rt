//! A test of workers that serve side by side.

use crate::life::{NONE, door, lived, outside_of};
use crate::made::{MEMORY, is_good};
use cds_base::{Bytes, Mem, Numbers};
use cds_memory::{MemDoor, MemSink};
use cds_outside::{Door, Gate};
use std::alloc::Global;
use std::marker::{Send, Sync};
use std::process::Abort;
use std::sync::atomic::{AtomicU64, Ordering};
use std::sync::{Arc, Wait};
use std::thread::{Threads, yield_now};

/// How many times a gate looks at most. That is far more often than it has to.
const LOOKS: u64 = 100_000_000;

/// Holds worker 0 before its reply until worker 1 has written its own.
#[derive(Drop)]
struct Turnstile {
    worker: u32,
    passed: Arc<AtomicU64>,
}

/// Waits until worker 1 has written its reply, and tells that it did.
fn hold(passed: &AtomicU64) {
    for _ in 0..LOOKS {
        if passed.load(Ordering::SeqCst) == 1 {
            passed.store(2, Ordering::SeqCst);
            return;
        }
        yield_now();
    }
}

impl Gate for Turnstile {
    fn pass(&mut self, point: u32) {
        if self.worker == 1 && point == 2 {
            self.passed.store(1, Ordering::SeqCst);
        }
        if self.worker == 0 && point == 1 {
            hold(&self.passed);
        }
    }

    fn again(&mut self, _alloc: Global, worker: u32) -> Result<Self, Mem> {
        Ok(Turnstile {
            worker,
            passed: Arc::try_clone(&self.passed)?,
        })
    }
}

/// Checks that the connection of this number of a door was answered.
fn check_answered<R: Wait + Clone + Drop + Abort>(
    rt: &R,
    alloc: Global,
    door: &MemDoor<R>,
    at: usize,
) {
    let reply = door.written(alloc, at).expect(rt, MEMORY);
    let reply = reply.expect(rt, "no connection");
    assert!(rt; is_good(reply.as_slice()), "the reply at connection {at}");
}

/// Lets a server serve the two connections of this door, and checks that it ends well.
fn serve_both<R: Threads + Wait + Clone + Copy + Drop + Abort + Send + Sync + 'static>(
    rt: R,
    alloc: Global,
    door: MemDoor<R>,
    gate: &mut Turnstile,
) {
    let mut sink = MemSink::new(Bytes::new(alloc), 256, Numbers::new(alloc)).expect(&rt, MEMORY);
    let mut outside = outside_of(&rt, alloc, NONE, door);
    let end = lived(&rt, alloc, 2, &mut outside, &mut sink, gate);
    assert!(rt; end.status == 0);
}

/// Checks that a server that serves two connections answers both of a door.
fn check_both<R: Threads + Wait + Clone + Copy + Drop + Abort + Send + Sync + 'static>(
    rt: R,
    alloc: Global,
    gate: &mut Turnstile,
) {
    let mut shown = door(rt, alloc, NONE);
    let theirs = shown.again().expect(&rt, "another handle of the door");
    serve_both(rt, alloc, theirs, gate);
    check_answered(&rt, alloc, &shown, 0);
    check_answered(&rt, alloc, &shown, 1);
}

/// Checks that both are answered while worker 0 is held.
fn check_side_by_side<R: Threads + Wait + Clone + Copy + Drop + Abort + Send + Sync + 'static>(
    rt: R,
    alloc: Global,
) {
    let passed = Arc::new(alloc, AtomicU64::new(0)).expect(&rt, MEMORY);
    let mut gate = Turnstile {
        worker: 9,
        passed: Arc::try_clone(&passed).expect(&rt, MEMORY),
    };
    check_both(rt, alloc, &mut gate);
    assert!(rt; passed.load(Ordering::SeqCst) == 2, "worker 0 was not held");
}

#[test]
fn workers_serve_side_by_side(rt: HostRuntime) {
    check_side_by_side(rt, rt.alloc());
}
