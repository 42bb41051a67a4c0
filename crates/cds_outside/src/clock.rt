//! The clock of the outside.

ghost use Rattle.std.specs.Prelude.{◌≡◌, ◌≤◌, IfOk, OnErr};
ghost use Rattle.cds_outside.specs.Outside.{Rose};
ghost use Rattle.cds_outside.specs.Told.{ClockTold, and_moment};

use crate::Failed;

/// A source of moments in milliseconds, which never fall.
pub trait Clock {
    // What it tells of itself.
    ghost told: { Self → ClockTold };

    /// Returns the moment now. It is not below any moment that the clock gave before. `Failed` comes only if the count of faults
    /// rises.
    fn now(&mut self) -> Result<u64, Failed>
        ensures later { IfOk result (λ moment. (told self.old).last ≤ moment) }
        ensures gave { IfOk result (λ moment. told self.new ≡ record (told self.old) { last = moment; gave = and_moment moment (told self.old).gave; faults = (told self.new).faults }) }
        ensures others_stay { OnErr result (told self.new ≡ record (told self.old) { faults = (told self.new).faults }) }
        ensures rose { OnErr result (Rose (told self.old).faults (told self.new).faults) }
        ensures never_falls { (told self.old).faults ≤ (told self.new).faults };

    /// Waits for about this many milliseconds. Nothing is promised of the time that passes.
    fn rest(&mut self, ms: u32)
        ensures others_stay { told self.new ≡ record (told self.old) { faults = (told self.new).faults } }
        ensures never_falls { (told self.old).faults ≤ (told self.new).faults };
}
