//! Datagrams of the outside.

use crate::{Failed, Trace};
use cds_base::Mem;
use std::alloc::Global;
use std::convert::From;
use std::error::Error;
use std::fmt;

/// Why no datagram came.
#[derive(Clone, Copy, Debug, PartialEq, Eq)]
pub enum DatagramFault {
    /// The call failed, and the count of faults says so.
    Failed,
    /// Memory ran out.
    Mem,
}

impl fmt::Display for DatagramFault {
    fn fmt<W: fmt::Write>(&self, f: &mut fmt::Formatter<W>) -> fmt::Result {
        match self {
            DatagramFault::Failed => write!(f, "no datagram could be received"),
            DatagramFault::Mem => write!(f, "out of memory"),
        }
    }
}

impl Error for DatagramFault {}

impl From<Mem> for DatagramFault {
    ghost use Rattle.std.specs.Prelude.{◌≡◌};
    ghost use Rattle.cds_outside.specs.declared.datagrams.DatagramFault.TheVariants.{Mem};

    ghost from_gives = { λ _ e. e ≡ Mem };

    fn from(_e: cds_base::Mem) -> Self {
        DatagramFault::Mem
    }
}

/// What the sender of a datagram was answered: the number of the datagram, counted from 1, and the bytes.
#[derive(Drop)]
pub struct DatagramReply {
    pub datagram: u64,
    pub bytes: Trace<u8>,
}

/// Gives the datagrams that come in, and answers their senders.
pub trait Datagrams {
    ghost use Rattle.std.specs.Prelude.{◌≡◌, ◌≤◌, [], ◌∷◌, ◌++◌, Some, IfOk, OnErr};
    ghost use Rattle.cds_outside.specs.Outside.{raised, Rose, Told};
    ghost use Rattle.cds_outside.specs.Datagrams.{DatagramRose, DatagramsTold, IsNextDatagram};

    // What it tells of itself.
    ghost told: { Self → DatagramsTold };

    /// Returns the next datagram that came in. It may wait for one. `Failed` comes only if the count of faults rises.
    fn next(&mut self, alloc: Global) -> Result<Vec<u8>, DatagramFault>
        ensures datagram { IfOk result (λ datagram. Told (told self.old).left (λ list. IsNextDatagram datagram.items list (told self.new).left)) }
        ensures given { IfOk result (λ _. (told self.new).given ≡ raised (told self.old).given 1) }
        ensures sent_stays { (told self.new).sent ≡ (told self.old).sent }
        ensures others_stay { OnErr result (told self.new ≡ record (told self.old) { faults = (told self.new).faults }) }
        ensures rose { DatagramRose result (told self.old).faults (told self.new).faults }
        ensures never_falls { (told self.old).faults ≤ (told self.new).faults };

    /// Answers the sender of the last datagram that came in. Nothing is promised of a reply on its way. A reply that could not be
    /// sent is lost, and counts as taken. `Failed` comes only if the count of faults rises.
    fn send(&mut self, bytes: &[u8]) -> Result<(), Failed>
        ensures sent { Told (told self.old).sent (λ list. (told self.new).sent ≡ Some (list ++ record { datagram = (told self.old).given; bytes = bytes.now } ∷ [])) }
        ensures others_stay { told self.new ≡ record (told self.old) { sent = (told self.new).sent; faults = (told self.new).faults } }
        ensures rose { OnErr result (Rose (told self.old).faults (told self.new).faults) }
        ensures never_falls { (told self.old).faults ≤ (told self.new).faults };
}
