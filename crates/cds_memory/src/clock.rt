//! Clocks in memory.

ghost use Rattle.std.specs.Prelude.{◌≡◌, ◌≤◌, [], ◌∷◌, ◌++◌, length, drop, Some, if◌then◌else◌, is_err, IfOk, OnOk, OnErr};
ghost use Rattle.cds_memory.specs.Clocks.{ClockState, fresh_clock, moment_after};
ghost use Rattle.cds_memory.specs.Memory.{next_fails};
ghost use Rattle.cds_outside.specs.Outside.{raised, Rose};

use crate::streams::is_listed;
use cds_base::{Moments, Numbers};
use cds_outside::{Clock, Failed, Trace};
use std::marker::Model;
use std::thread::yield_now;

/// A clock in memory. It tells the moments that it gave, and fails at the calls that it was told.
#[derive(Drop)]
pub struct MemClock {
    moments: Moments,
    at: usize,
    last: u64,
    gave: Trace<u64>,
    calls: u64,
    faults: u64,
    fails: Numbers,
}

impl Model for MemClock {
    ghost use Rattle.std.specs.Prelude.{◌≤◌, length, drop};
    ghost use Rattle.cds_memory.specs.Clocks.{ClockState};

    ghost Value = { ClockState };

    ghost view = { λ s.
        record {
          moments = drop s.at s.moments;
          last = s.last;
          gave = s.gave;
          calls = s.calls;
          faults = s.faults;
          fails = s.fails;
        } };

    ghost invariant = { λ s. s.at ≤ length s.moments };
}

impl MemClock {
    /// Makes a clock of these moments. If a moment is below the last one given, or none is left, the last one comes again.
    /// `fails` are the numbers, counted from 1, of the calls of `now` that are to fail.
    pub fn new(moments: Moments, fails: Numbers) -> Self
        ensures { result ≡ record { moments = moments; last = 0; gave = []; calls = 0; faults = 0; fails = fails } }
    {
        MemClock {
            moments,
            at: 0,
            last: 0,
            gave: Trace::new(),
            calls: 0,
            faults: 0,
            fails,
        }
    }

    /// Returns the same clock before anything was asked of it.
    pub fn afresh(self) -> Self
        ensures { result ≡ fresh_clock self }
    {
        MemClock {
            moments: self.moments,
            at: self.at,
            last: 0,
            gave: Trace::new(),
            calls: 0,
            faults: 0,
            fails: self.fails,
        }
    }

    /// Returns how many calls failed.
    pub fn faults(&self) -> u64
        ensures { result ≡ self.now.faults }
    {
        self.faults
    }
}

/// Returns the moment that comes next after `at` of the moments.
fn next_moment(moments: &[u64], at: usize, last: u64) -> u64
    requires { at ≤ length moments.now }
    ensures { result ≡ moment_after (drop at moments.now) last }
{
    let (_, left) = moments.split_at(at);
    match left.split_first() {
        Some((moment, _)) => last.max(*moment),
        None => last,
    }
}

/// Returns the place after the next moment, or the end again.
fn place_behind(moments: &[u64], at: usize) -> usize
    requires { at ≤ length moments.now }
    ensures within { result ≤ length moments.now }
    ensures left { drop result moments.now ≡ drop 1 (drop at moments.now) }
{
    let (_, left) = moments.split_at(at);
    match left.split_first() {
        Some((_, _)) => at + 1,
        None => at,
    }
}

impl Clock for MemClock {
    ghost use Rattle.cds_memory.specs.Clocks.{clock_told};

    ghost told = { clock_told };

    fn now(&mut self) -> Result<u64, Failed>
        ensures fails { is_err result ≡ next_fails self.old.fails self.old.calls }
        ensures exact { IfOk result (λ moment. moment ≡ moment_after self.old.moments self.old.last) }
        ensures next { OnOk result (self.new.moments ≡ drop 1 self.old.moments) }
        ensures next_stays { OnErr result (self.new.moments ≡ self.old.moments) }
        ensures calls { self.new.calls ≡ raised self.old.calls 1 }
        ensures same { self.new.fails ≡ self.old.fails }
        ensures faults { self.new.faults ≡ (if is_err result then raised self.old.faults 1 else self.old.faults) }
        ensures later { IfOk result (λ moment. self.old.last ≤ moment) }
        ensures last { IfOk result (λ moment. self.new.last ≡ moment) }
        ensures gave { IfOk result (λ moment. self.new.gave ≡ self.old.gave ++ moment ∷ []) }
        ensures last_stays { OnErr result (self.new.last ≡ self.old.last) }
        ensures gave_stay { OnErr result (self.new.gave ≡ self.old.gave) }
        ensures rose { OnErr result (Rose self.old.faults self.new.faults) }
        ensures never_falls { self.old.faults ≤ self.new.faults }
    {
        self.calls = self.calls.saturating_add(1);
        if is_listed(self.fails.as_slice(), self.calls) {
            self.faults = self.faults.saturating_add(1);
            return Err(Failed);
        }
        let moment = next_moment(self.moments.as_slice(), self.at, self.last);
        self.at = place_behind(self.moments.as_slice(), self.at);
        self.last = moment;
        self.gave.push(moment);
        Ok(moment)
    }

    /// Lets other threads run. No moment passes.
    fn rest(&mut self, _ms: u32)
        ensures { self.new ≡ self.old }
    {
        yield_now();
    }
}
