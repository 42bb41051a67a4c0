//! Datagrams in memory.

ghost use Rattle.std.specs.Prelude.{◌≡◌, ◌==◌, ◌≤◌, ◌||◌, if◌then◌else◌, [], ◌∷◌, ◌++◌, length, Some, is_err, IfOk, OnErr};
ghost use Rattle.cds_outside.specs.Datagrams.{DatagramRose, IsNextDatagram};
ghost use Rattle.cds_outside.specs.Outside.{raised, Rose};
ghost use Rattle.cds_memory.specs.Datagrams.{DatagramsState, fresh_datagrams};
ghost use Rattle.cds_memory.specs.Memory.{next_fails};

use crate::asking::traced;
use crate::streams::is_listed;
use cds_base::{Bytes, Mem, Numbers, Sequence};
use cds_outside::{DatagramFault, DatagramReply, Datagrams, Failed, Trace};
use std::alloc::Global;
use std::marker::Model;

/// Datagrams in memory. They come in the order in which they were given, and all replies are kept. A call fails if its number was
/// told, and `next` also if no datagram is left.
#[derive(Drop)]
pub struct MemDatagrams {
    alloc: Global,
    left: Vec<Bytes>,
    sent: Trace<DatagramReply>,
    replies: Sequence<Bytes>,
    given: u64,
    calls: u64,
    faults: u64,
    fails: Numbers,
}

impl Model for MemDatagrams {
    ghost use Rattle.cds_memory.specs.Datagrams.{DatagramsState};

    ghost Value = { DatagramsState };

    ghost view = { λ s.
        record {
          left = s.left.items;
          sent = s.sent;
          given = s.given;
          calls = s.calls;
          faults = s.faults;
          fails = s.fails;
        } };
}

impl MemDatagrams {
    /// Makes a source of these datagrams. `fails` are the numbers of the calls that are to fail. They are counted from 1 over the
    /// calls of `next` and `send`.
    pub fn new(alloc: Global, datagrams: Sequence<Bytes>, fails: Numbers) -> Self
        ensures { result ≡ record { left = datagrams; sent = []; given = 0; calls = 0; faults = 0; fails = fails } }
    {
        MemDatagrams {
            alloc,
            left: datagrams.into_vec(),
            sent: Trace::new(),
            replies: Sequence::new(alloc),
            given: 0,
            calls: 0,
            faults: 0,
            fails,
        }
    }

    /// Returns the same datagrams before anything was asked of them.
    pub fn afresh(self) -> Self
        ensures { result ≡ fresh_datagrams self }
    {
        MemDatagrams {
            alloc: self.alloc,
            left: self.left,
            sent: Trace::new(),
            replies: Sequence::new(self.alloc),
            given: 0,
            calls: 0,
            faults: 0,
            fails: self.fails,
        }
    }

    /// Returns the replies that were sent, in their order. If memory ran out for one, it is not among them.
    pub fn replies(&self) -> &[Bytes] {
        self.replies.as_slice()
    }

    /// Returns the replies that were sent, as `replies` does.
    pub fn into_replies(self) -> Sequence<Bytes> {
        self.replies
    }

    /// Returns how many datagrams were given.
    pub fn given(&self) -> u64
        ensures { result ≡ self.now.given }
    {
        self.given
    }

    /// Returns how many calls failed.
    pub fn faults(&self) -> u64
        ensures { result ≡ self.now.faults }
    {
        self.faults
    }

    /// Counts a call, and returns whether it is one of those that are to fail.
    fn is_next_listed(&mut self) -> bool
        ensures listed { result ≡ next_fails self.old.fails self.old.calls }
        ensures others { self.new ≡ record (self.old) { calls = raised self.old.calls 1 } }
        ensures faults_stay { self.new.faults ≡ self.old.faults }
    {
        self.calls = self.calls.saturating_add(1);
        is_listed(self.fails.as_slice(), self.calls)
    }

    /// Counts a fault.
    fn count_fault(&mut self)
        ensures others { self.new ≡ record (self.old) { faults = raised self.old.faults 1 } }
        ensures never_falls { self.old.faults ≤ self.new.faults }
    {
        self.faults = self.faults.saturating_add(1);
    }
}

/// Returns a copy of bytes.
fn copied(alloc: Global, bytes: &[u8]) -> Result<Bytes, Mem> {
    let mut copy = Bytes::new(alloc);
    copy.extend(bytes)?;
    Ok(copy)
}

/// Keeps a copy of bytes, if there is memory for it.
fn keep(alloc: Global, kept: &mut Sequence<Bytes>, bytes: &[u8]) {
    if let Ok(copy) = copied(alloc, bytes) {
        let _ = kept.push(copy);
    }
}

impl Datagrams for MemDatagrams {
    ghost use Rattle.cds_memory.specs.Datagrams.{datagrams_told};

    ghost told = { datagrams_told };

    fn next(&mut self, _alloc: Global) -> Result<Vec<u8>, DatagramFault>
        ensures fails { is_err result ≡ ((length self.old.left == 0) || next_fails self.old.fails self.old.calls) }
        ensures calls { self.new.calls ≡ raised self.old.calls 1 }
        ensures same { self.new.fails ≡ self.old.fails }
        ensures datagram { IfOk result (λ datagram. IsNextDatagram datagram.items self.old.left (Some self.new.left)) }
        ensures given { IfOk result (λ _. self.new.given ≡ raised self.old.given 1) }
        ensures sent_stays { self.new.sent ≡ self.old.sent }
        ensures left_stays { OnErr result (self.new.left ≡ self.old.left) }
        ensures given_stays { OnErr result (self.new.given ≡ self.old.given) }
        ensures rose { DatagramRose result self.old.faults self.new.faults }
        ensures never_falls { self.old.faults ≤ self.new.faults }
    {
        let fails = self.is_next_listed();
        if fails || self.left.is_empty() {
            self.count_fault();
            return Err(DatagramFault::Failed);
        }
        self.given = self.given.saturating_add(1);
        Ok(self.left.remove(0).into_vec())
    }

    fn send(&mut self, bytes: &[u8]) -> Result<(), Failed>
        ensures fails { is_err result ≡ next_fails self.old.fails self.old.calls }
        ensures calls { self.new.calls ≡ raised self.old.calls 1 }
        ensures faults { self.new.faults ≡ (if is_err result then raised self.old.faults 1 else self.old.faults) }
        ensures same { self.new.fails ≡ self.old.fails }
        ensures sent { self.new.sent ≡ self.old.sent ++ record { datagram = self.old.given; bytes = bytes.now } ∷ [] }
        ensures left_stays { self.new.left ≡ self.old.left }
        ensures given_stays { self.new.given ≡ self.old.given }
        ensures rose { OnErr result (Rose self.old.faults self.new.faults) }
        ensures never_falls { self.old.faults ≤ self.new.faults }
    {
        let reply = DatagramReply {
            datagram: self.given,
            bytes: traced(bytes),
        };
        drop(self.sent.push(reply));
        if self.is_next_listed() {
            self.count_fault();
            return Err(Failed);
        }
        keep(self.alloc, &mut self.replies, bytes);
        Ok(())
    }
}
