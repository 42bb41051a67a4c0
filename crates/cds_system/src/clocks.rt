//! The clock of the system. It is proved that its moments never fall. It is trusted that they are the time.

ghost use Rattle.std.specs.Prelude.{◌≡◌};

use cds_outside::{Clock, Failed};
use std::thread::sleep;
use std::time::{Clock as SystemClock, Duration};

/// The system's clock. It goes on by the clock of the system that nobody sets. So a change of the system's time changes no
/// moment.
#[derive(Drop)]
pub struct RealClock<R: SystemClock + Drop> {
    rt: R,
    ahead: u64,
    last: u64,
    faults: u64,
}

impl<R: SystemClock + Drop> RealClock<R> {
    /// Makes a clock that gave no moment yet. Its moments are the milliseconds that the system counts, and `ahead` more.
    pub fn new(rt: R, ahead: u64) -> Self
        ensures last { result.last ≡ 0 }
        ensures faults { result.faults ≡ 0 }
    {
        RealClock {
            rt,
            ahead,
            last: 0,
            faults: 0,
        }
    }
}

impl<R: SystemClock + Drop> Clock for RealClock<R> {
    ghost use Rattle.std.specs.Prelude.{None};

    ghost told = { λ s. record { last = s.last; gave = None; faults = s.faults } };

    fn now(&mut self) -> Result<u64, Failed> {
        match self.rt.monotonic() {
            Ok(time) => {
                let moment = in_milliseconds(time).saturating_add(self.ahead);
                self.last = self.last.max(moment);
                Ok(self.last)
            }
            Err(_) => {
                self.faults = self.faults.saturating_add(1);
                Err(Failed)
            }
        }
    }

    fn rest(&mut self, ms: u32) {
        sleep(&self.rt, Duration::from_millis(u64::from(ms)));
    }
}

/// Returns whole milliseconds, at most the last value of a u64.
fn in_milliseconds(time: Duration) -> u64 {
    u64::try_from(time.as_millis()).unwrap_or(u64::MAX)
}

/// Returns by how many milliseconds the time since 1970 is ahead of what the system's clock counts, or 0 if that cannot be had.
/// So the clocks made with it begin with the time since 1970, and two runs of a program begin with other moments.
pub fn ahead<R: SystemClock>(rt: &R) -> u64 {
    match (rt.since_1970(), rt.monotonic()) {
        (Ok(time), Ok(counted)) => in_milliseconds(time.saturating_sub(counted)),
        _ => 0,
    }
}
