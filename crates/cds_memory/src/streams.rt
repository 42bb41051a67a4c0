//! Sources and sinks in memory.

ghost use Rattle.std.specs.Prelude.{◌≡◌, ℕ, ◌+◌, ◌≤◌, ◌<◌, ◌⊎◌, List, Some, [], ◌++◌, length, take, drop, min, ◌==◌, if◌then◌else◌, is_err, nat_lt, ◌||◌, IfOk, OnErr, IsTrue, IsErr};
ghost use Rattle.std.specs.List.{list_any};
ghost use Rattle.cds_outside.specs.Outside.{raised, Rose};
ghost use Rattle.cds_memory.specs.Memory.{SourceState, SinkState, next_fails};

use cds_base::{Bytes, Mem, Numbers};
use cds_outside::{Failed, Sink, Source};
use std::alloc::Global;
use std::marker::Model;

/// A source in memory. It tells its bytes, and fails at the calls that it was told.
#[derive(Drop, Debug)]
pub struct MemSource {
    contents: Bytes,
    at: usize,
    moved: u64,
    calls: u64,
    faults: u64,
    fails: Numbers,
}

impl Model for MemSource {
    ghost use Rattle.std.specs.Prelude.{◌≤◌, length, drop};
    ghost use Rattle.cds_memory.specs.Memory.{SourceState};

    ghost Value = { SourceState };

    ghost view = { λ s. record { left = drop s.at s.contents; moved = s.moved; calls = s.calls; faults = s.faults; fails = s.fails } };

    ghost invariant = { λ s. s.at ≤ length s.contents };
}

impl MemSource {
    /// Makes a source of these bytes. `fails` are the numbers, counted from 1, of the calls that are to fail.
    pub fn new(contents: Bytes, fails: Numbers) -> Self
        ensures { result ≡ record { left = contents; moved = 0; calls = 0; faults = 0; fails = fails } }
    {
        MemSource {
            contents,
            at: 0,
            moved: 0,
            calls: 0,
            faults: 0,
            fails,
        }
    }

    /// Returns the same source without its first bytes, as many as `count` says.
    pub(crate) fn from_place(mut self, count: u64) -> Self
        ensures { result ≡ record self { left = drop count self.left } }
    {
        self.at = place_after(self.at, count, self.contents.len());
        self
    }

    /// Returns how many calls failed.
    pub fn faults(&self) -> u64
        ensures { result ≡ self.now.faults }
    {
        self.faults
    }
}

/// Returns the place that is `count` bytes after `at`, or the end if that comes first.
fn place_after(at: usize, count: u64, end: usize) -> usize
    requires { at ≤ end }
    ensures { result ≡ min (at + count) end }
{
    let left = (end - at) as u64;
    if count < left {
        at + count as usize
    } else {
        end
    }
}

impl Source for MemSource {
    ghost use Rattle.cds_memory.specs.Memory.{source_told};

    ghost told = { source_told };

    fn read(&mut self, into: &mut [u8]) -> Result<usize, Failed>
        ensures fails { is_err result ≡ next_fails self.old.fails self.old.calls }
        ensures exact { IfOk result (λ n. n ≡ min (length into.old) (length self.old.left)) }
        ensures calls { self.new.calls ≡ raised self.old.calls 1 }
        ensures same { self.new.fails ≡ self.old.fails }
        ensures faults { self.new.faults ≡ (if is_err result then raised self.old.faults 1 else self.old.faults) }
        ensures room { IfOk result (λ n. n ≤ length into.old) }
        ensures count { IfOk result (λ n. self.new.moved ≡ raised self.old.moved n) }
        ensures enough { IfOk result (λ n. n ≤ length self.old.left) }
        ensures content { IfOk result (λ n. take n into.new ≡ take n self.old.left) }
        ensures rest { IfOk result (λ n. self.new.left ≡ drop n self.old.left) }
        ensures end { IfOk result (λ n. n ≡ 0 → (length into.old ≡ 0) ⊎ (self.old.left ≡ [])) }
        ensures rose { OnErr result (Rose self.old.faults self.new.faults) }
        ensures count_stays { OnErr result (self.new.moved ≡ self.old.moved) }
        ensures rest_stays { OnErr result (self.new.left ≡ self.old.left) }
        ensures never_falls { self.old.faults ≤ self.new.faults }
    {
        self.calls = self.calls.saturating_add(1);
        if is_listed(self.fails.as_slice(), self.calls) {
            self.faults = self.faults.saturating_add(1);
            return Err(Failed);
        }
        let count = copy_front(self.contents.as_slice(), self.at, into);
        self.at += count;
        self.moved = self.moved.saturating_add(count as u64);
        Ok(count)
    }
}

/// Returns whether the number stands in the list.
pub fn is_listed(numbers: &[u32], number: u64) -> bool
    ensures { result ≡ list_any (λ x. x == number) numbers.now }
{
    numbers.iter().any(|x| u64::from(*x) == number)
}

/// Copies bytes from the place `at` on to the beginning of `into`, as many as both lists hold, and returns how many.
fn copy_front(bytes: &[u8], at: usize, into: &mut [u8]) -> usize
    requires { at ≤ length bytes.now }
    ensures count { result ≡ min (length into.old) (length (drop at bytes.now)) }
    ensures content { take result into.new ≡ take result (drop at bytes.now) }
{
    let (_, left) = bytes.split_at(at);
    let count = left.len().min(into.len());
    into[..count].copy_from_slice(&left[..count]);
    count
}

/// A sink in memory. It tells what it holds. It fails at the calls that it was told, and if its room is too small for the piece.
#[derive(Drop, Debug)]
pub struct MemSink {
    contents: Vec<u8>,
    room: usize,
    calls: u64,
    faults: u64,
    fails: Numbers,
}

impl Model for MemSink {
    ghost use Rattle.std.specs.Prelude.{◌≤◌, ◌+◌, vec_len, vec_capacity};
    ghost use Rattle.cds_memory.specs.Memory.{SinkState};

    ghost Value = { SinkState };

    ghost view = { λ s. record { holds = s.contents.items; room = s.room; calls = s.calls; faults = s.faults; fails = s.fails } };

    ghost invariant = { λ s. vec_len s.contents + s.room ≤ vec_capacity s.contents };
}

impl MemSink {
    /// Makes a sink that holds these bytes and takes `room` more. The memory for them is taken here. `fails` are the numbers,
    /// counted from 1, of the calls that are to fail.
    pub fn new(contents: Bytes, room: usize, fails: Numbers) -> Result<Self, Mem>
        ensures { IfOk result (λ sink. sink ≡ record { holds = contents; room = room; calls = 0; faults = 0; fails = fails }) }
    {
        let mut contents = contents.into_vec();
        contents.reserve(room)?;
        Ok(MemSink {
            contents,
            room,
            calls: 0,
            faults: 0,
            fails,
        })
    }

    /// Returns the bytes that it holds.
    pub fn as_slice(&self) -> &[u8]
        ensures { result.now ≡ self.now.holds }
    {
        self.contents.as_slice()
    }

    /// Returns how many calls failed.
    pub fn faults(&self) -> u64
        ensures { result ≡ self.now.faults }
    {
        self.faults
    }
}

impl Sink for MemSink {
    ghost use Rattle.cds_memory.specs.Memory.{sink_told};

    ghost told = { sink_told };

    fn write(&mut self, piece: &[u8]) -> Result<usize, Failed>
        ensures fails { is_err result ≡ (next_fails self.old.fails self.old.calls || nat_lt self.old.room (length piece.now)) }
        ensures exact { IfOk result (λ n. n ≡ length piece.now) }
        ensures rooms { IfOk result (λ n. self.new.room + n ≡ self.old.room) }
        ensures room_stays { OnErr result (self.new.room ≡ self.old.room) }
        ensures calls { self.new.calls ≡ raised self.old.calls 1 }
        ensures same { self.new.fails ≡ self.old.fails }
        ensures faults { self.new.faults ≡ (if is_err result then raised self.old.faults 1 else self.old.faults) }
        ensures room { IfOk result (λ n. n ≤ length piece.now) }
        ensures some { IfOk result (λ n. 0 < length piece.now → 0 < n) }
        ensures content { IfOk result (λ n. self.new.holds ≡ self.old.holds ++ take n piece.now) }
        ensures rose { OnErr result (Rose self.old.faults self.new.faults) }
        ensures stays { OnErr result (self.new.holds ≡ self.old.holds) }
        ensures never_falls { self.old.faults ≤ self.new.faults }
    {
        self.calls = self.calls.saturating_add(1);
        if is_listed(self.fails.as_slice(), self.calls) || self.room < piece.len() {
            self.faults = self.faults.saturating_add(1);
            return Err(Failed);
        }
        if self.contents.extend_from_slice(piece).is_err() {
            unreachable!();
        }
        self.room -= piece.len();
        Ok(piece.len())
    }
}
