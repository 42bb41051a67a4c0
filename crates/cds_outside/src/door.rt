//! The door of the outside, at which connections come in.

use crate::{Conn, Failed, Sink, Source};

/// Gives the connections that come in. A connection that is dropped is closed.
pub trait Door {
    ghost use Rattle.std.specs.Prelude.{◌≡◌, ◌≤◌, false, IfOk, OnErr};
    ghost use Rattle.cds_outside.specs.Outside.{raised, Rose};
    ghost use Rattle.cds_outside.specs.Told.{DoorTold, IsUntouched, unasked_door};

    type Conn: Conn + Drop;

    // What this handle tells of itself.
    ghost told: { Self → DoorTold };

    /// Returns the next connection; nothing was read from it or written to it yet, and it is not finished. It may wait for one.
    /// `Failed` comes only if the count of faults rises.
    fn accept(&mut self) -> Result<Self::Conn, Failed>
        ensures untouched { IfOk result (λ conn. IsUntouched (Self.Conn.Source.told conn) (Self.Conn.Sink.told conn)) }
        ensures unfinished { IfOk result (λ conn. Self.Conn.finished conn ≡ false) }
        ensures connections { IfOk result (λ _. (told self.new).connections ≡ raised (told self.old).connections 1) }
        ensures connections_stay { OnErr result ((told self.new).connections ≡ (told self.old).connections) }
        ensures rose { OnErr result (Rose (told self.old).faults (told self.new).faults) }
        ensures never_falls { (told self.old).faults ≤ (told self.new).faults };

    /// Returns a second handle of the same door. It has a count of faults and a number of connections of its own, both 0.
    /// `Failed` comes only if the count of faults rises.
    fn again(&mut self) -> Result<Self, Failed>
        ensures unasked { IfOk result (λ door. told door ≡ unasked_door) }
        ensures connections_stay { (told self.new).connections ≡ (told self.old).connections }
        ensures rose { OnErr result (Rose (told self.old).faults (told self.new).faults) }
        ensures never_falls { (told self.old).faults ≤ (told self.new).faults };
}
