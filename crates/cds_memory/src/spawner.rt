//! Spawners in memory.

ghost use Rattle.std.specs.Prelude.{◌≡◌, ◌≤◌, if◌then◌else◌, is_err, IsFalse, OnErr};
ghost use Rattle.cds_memory.specs.Doors.{SpawnerState, fresh_spawner};
ghost use Rattle.cds_memory.specs.Memory.{next_fails};
ghost use Rattle.cds_outside.specs.Outside.{raised, Rose};

use crate::streams::is_listed;
use cds_base::Numbers;
use cds_outside::{Attempt, Failed, Spawner};
use std::marker::Model;

/// A spawner that starts real threads. It fails at the calls that it was told.
#[derive(Drop, Debug)]
pub struct MemSpawner {
    started: u64,
    calls: u64,
    faults: u64,
    fails: Numbers,
}

impl Model for MemSpawner {
    ghost use Rattle.cds_memory.specs.Doors.{SpawnerState};

    ghost Value = { SpawnerState };

    ghost view = { λ s. record { started = s.started; calls = s.calls; faults = s.faults; fails = s.fails } };
}

impl MemSpawner {
    /// Makes a spawner that started nothing yet. `fails` are the numbers, counted from 1, of the calls that are to fail.
    pub fn new(fails: Numbers) -> Self
        ensures { result ≡ record { started = 0; calls = 0; faults = 0; fails = fails } }
    {
        MemSpawner {
            started: 0,
            calls: 0,
            faults: 0,
            fails,
        }
    }

    /// Returns the same spawner before anything was asked of it.
    pub fn afresh(self) -> Self
        ensures { result ≡ fresh_spawner self }
    {
        MemSpawner {
            started: 0,
            calls: 0,
            faults: 0,
            fails: self.fails,
        }
    }

    /// Returns how many jobs it started.
    pub fn started(&self) -> u64
        ensures { result ≡ self.now.started }
    {
        self.started
    }

    /// Returns how many calls failed.
    pub fn faults(&self) -> u64
        ensures { result ≡ self.now.faults }
    {
        self.faults
    }
}

impl Spawner for MemSpawner {
    ghost use Rattle.cds_memory.specs.Doors.{spawner_told};

    ghost told = { spawner_told };

    fn may_start(&mut self) -> Result<(), Failed>
        ensures fails { is_err result ≡ next_fails self.old.fails self.old.calls }
        ensures calls { self.new.calls ≡ raised self.old.calls 1 }
        ensures same { self.new.fails ≡ self.old.fails }
        ensures faults { self.new.faults ≡ (if is_err result then raised self.old.faults 1 else self.old.faults) }
        ensures started_stays { self.new.started ≡ self.old.started }
        ensures rose { OnErr result (Rose self.old.faults self.new.faults) }
        ensures never_falls { self.old.faults ≤ self.new.faults }
    {
        self.calls = self.calls.saturating_add(1);
        if is_listed(self.fails.as_slice(), self.calls) {
            self.faults = self.faults.saturating_add(1);
            return Err(Failed);
        }
        Ok(())
    }

    fn count(&mut self, attempt: Attempt)
        ensures calls_stay { self.new.calls ≡ self.old.calls }
        ensures same { self.new.fails ≡ self.old.fails }
        ensures started { self.new.started ≡ (if attempt then raised self.old.started 1 else self.old.started) }
        ensures faults { self.new.faults ≡ (if attempt then self.old.faults else raised self.old.faults 1) }
        ensures rose { IsFalse attempt → Rose self.old.faults self.new.faults }
        ensures never_falls { self.old.faults ≤ self.new.faults }
    {
        if attempt.is_made() {
            self.started = self.started.saturating_add(1);
        } else {
            self.faults = self.faults.saturating_add(1);
        }
    }
}
