//! The spawner of the system, which starts threads. That a thread runs what it was given is trusted.

ghost use Rattle.std.specs.Prelude.{◌≡◌};

use cds_outside::{Attempt, Failed, Spawner};

/// Starts threads of the system, and counts how often none could be made.
#[derive(Drop)]
pub struct RealSpawner {
    started: u64,
    faults: u64,
}

impl RealSpawner {
    /// Makes a spawner that started nothing yet, and of which no call has failed.
    pub fn new() -> Self
        ensures started { result.started ≡ 0 }
        ensures faults { result.faults ≡ 0 }
    {
        RealSpawner {
            started: 0,
            faults: 0,
        }
    }

    /// Returns how many jobs it started.
    pub fn started(&self) -> u64
        ensures { result ≡ self.now.started }
    {
        self.started
    }

    /// Returns how many calls failed.
    pub fn faults(&self) -> u64
        ensures { result ≡ self.now.faults }
    {
        self.faults
    }
}

impl Spawner for RealSpawner {
    ghost told = { λ s. record { started = s.started; faults = s.faults } };

    fn may_start(&mut self) -> Result<(), Failed> {
        Ok(())
    }

    fn count(&mut self, attempt: Attempt) {
        if attempt.is_made() {
            self.started = self.started.saturating_add(1);
        } else {
            self.faults = self.faults.saturating_add(1);
        }
    }
}
