//! The connection of the outside: a source and a sink in one.

use crate::{Failed, Sink, Source};

/// Why a finished connection may wait for its peer. How long it waits is up to the connection.
#[derive(Clone, Copy, PartialEq, Eq)]
pub enum Linger {
    /// It does not wait: the peer's message was read to its end.
    Never,
    /// The peer may still be sending, as its message was not read to its end. A close over unread bytes is a reset, and the peer
    /// may lose the reply (RFC 9112 on tear-down).
    WhileSending,
    /// Something else goes to the same peer next, and must not overtake the reply.
    UntilRead,
}

/// A connection: a source and a sink; neither changes the other. `Source` and `Sink` speak of one stream alone. A call that reads
/// a request and then writes its reply needs both, and reads and writes by these two. Then it finishes the connection.
pub trait Conn: Source + Sink {
    ghost use Rattle.std.specs.Prelude.{◌≡◌, ◌≤◌, ◌<◌, ◌⊎◌, Bool, true, [], ◌++◌, length, take, drop, Some, IfOk, OnErr};
    ghost use Rattle.cds_outside.specs.Outside.{raised, Rose, Told};

    // Whether it was finished.
    ghost finished: { Self → Bool };

    /// Reads as `Source::read` does. What the connection took stays as it is.
    fn receive(&mut self, into: &mut [u8]) -> Result<usize, Failed>
        ensures room { IfOk result (λ n. n ≤ length into.old) }
        ensures count { IfOk result (λ n. (Self.Source.told self.new).moved ≡ raised (Self.Source.told self.old).moved n) }
        ensures enough { IfOk result (λ n. Told (Self.Source.told self.old).left (λ bytes. n ≤ length bytes)) }
        ensures content { IfOk result (λ n. Told (Self.Source.told self.old).left (λ bytes. take n into.new ≡ take n bytes)) }
        ensures rest { IfOk result (λ n. Told (Self.Source.told self.old).left (λ bytes. (Self.Source.told self.new).left ≡ Some (drop n bytes))) }
        ensures end { IfOk result (λ n. n ≡ 0 → Told (Self.Source.told self.old).left (λ bytes. (length into.old ≡ 0) ⊎ (bytes ≡ []))) }
        ensures rose { OnErr result (Rose (Self.Source.told self.old).faults (Self.Source.told self.new).faults) }
        ensures count_stays { OnErr result ((Self.Source.told self.new).moved ≡ (Self.Source.told self.old).moved) }
        ensures rest_stays { OnErr result (Told (Self.Source.told self.old).left (λ bytes. (Self.Source.told self.new).left ≡ Some bytes)) }
        ensures never_falls { (Self.Source.told self.old).faults ≤ (Self.Source.told self.new).faults }
        ensures sink_stays { Self.Sink.told self.new ≡ Self.Sink.told self.old }
        ensures finished_stays { finished self.new ≡ finished self.old };

    /// Writes as `Sink::write` does. What the connection has left stays as it is.
    fn send(&mut self, piece: &[u8]) -> Result<usize, Failed>
        ensures room { IfOk result (λ n. n ≤ length piece.now) }
        ensures some { IfOk result (λ n. 0 < length piece.now → 0 < n) }
        ensures content { IfOk result (λ n. Told (Self.Sink.told self.old).holds (λ bytes. (Self.Sink.told self.new).holds ≡ Some (bytes ++ take n piece.now))) }
        ensures rose { OnErr result (Rose (Self.Sink.told self.old).faults (Self.Sink.told self.new).faults) }
        ensures stays { OnErr result (Told (Self.Sink.told self.old).holds (λ bytes. (Self.Sink.told self.new).holds ≡ Some bytes)) }
        ensures never_falls { (Self.Sink.told self.old).faults ≤ (Self.Sink.told self.new).faults }
        ensures source_stays { Self.Source.told self.new ≡ Self.Source.told self.old }
        ensures finished_stays { finished self.new ≡ finished self.old };

    /// Finishes the connection: its peer sees the end of what was written, although the connection is not dropped yet. `linger`
    /// says why it may wait for the peer. What comes meanwhile is thrown away. Nothing is promised of the time that passes.
    fn finish(&mut self, linger: Linger)
        ensures ended { finished self.new ≡ true }
        ensures source_stays { Self.Source.told self.new ≡ Self.Source.told self.old }
        ensures sink_stays { Self.Sink.told self.new ≡ Self.Sink.told self.old };
}
