//! Streams that may fail.

ghost use Rattle.std.specs.Prelude.{◌≡◌, ◌<◌, ◌≤◌, ◌⊎◌, Some, [], ◌++◌, length, take, drop, IfOk, OnOk, OnErr};
ghost use Rattle.cds_outside.specs.Outside.{HoldsPart, Rose, SinkTold, SourceTold, Told, raised};

use std::error::Error;
use std::fmt;

/// A call of the outside failed, and the count of faults says so.
#[derive(Clone, Copy, Debug, PartialEq, Eq)]
pub struct Failed;

impl fmt::Display for Failed {
    fn fmt<W: fmt::Write>(&self, f: &mut fmt::Formatter<W>) -> fmt::Result {
        write!(f, "a call of the outside failed")
    }
}

impl Error for Failed {}

/// A stream of bytes that is read from its beginning.
pub trait Source {
    // What it tells of itself.
    ghost told: { Self → SourceTold };

    /// Moves a prefix of the bytes left to the beginning of `into`, and returns its length. If `into` has room and the source
    /// tells its bytes, 0 says that none are left.
    fn read(&mut self, into: &mut [u8]) -> Result<usize, Failed>
        ensures room { IfOk result (λ n. n ≤ length into.old) }
        ensures count { IfOk result (λ n. (told self.new).moved ≡ raised (told self.old).moved n) }
        ensures enough { IfOk result (λ n. Told (told self.old).left (λ bytes. n ≤ length bytes)) }
        ensures content { IfOk result (λ n. Told (told self.old).left (λ bytes. take n into.new ≡ take n bytes)) }
        ensures rest { IfOk result (λ n. Told (told self.old).left (λ bytes. (told self.new).left ≡ Some (drop n bytes))) }
        ensures end { IfOk result (λ n. n ≡ 0 → Told (told self.old).left (λ bytes. (length into.old ≡ 0) ⊎ (bytes ≡ []))) }
        ensures rose { OnErr result (Rose (told self.old).faults (told self.new).faults) }
        ensures count_stays { OnErr result ((told self.new).moved ≡ (told self.old).moved) }
        ensures rest_stays { OnErr result (Told (told self.old).left (λ bytes. (told self.new).left ≡ Some bytes)) }
        ensures never_falls { (told self.old).faults ≤ (told self.new).faults };
}

/// A stream of bytes that is written at its end.
pub trait Sink {
    // What it tells of itself.
    ghost told: { Self → SinkTold };

    /// Takes a prefix of the piece, and returns its length: at least 1 if the piece is not empty.
    fn write(&mut self, piece: &[u8]) -> Result<usize, Failed>
        ensures room { IfOk result (λ n. n ≤ length piece.now) }
        ensures some { IfOk result (λ n. 0 < length piece.now → 0 < n) }
        ensures content { IfOk result (λ n. Told (told self.old).holds (λ bytes. (told self.new).holds ≡ Some (bytes ++ take n piece.now))) }
        ensures rose { OnErr result (Rose (told self.old).faults (told self.new).faults) }
        ensures stays { OnErr result (Told (told self.old).holds (λ bytes. (told self.new).holds ≡ Some bytes)) }
        ensures never_falls { (told self.old).faults ≤ (told self.new).faults };
}

/// Writes the whole piece. After a failure, a prefix of it may have been taken.
pub fn write_all<K: Sink>(sink: &mut K, piece: &[u8]) -> Result<(), Failed>
    ensures content { OnOk result (Told (K.told sink.old).holds (λ bytes. (K.told sink.new).holds ≡ Some (bytes ++ piece.now))) }
    ensures part { OnErr result (Told (K.told sink.old).holds (λ bytes. HoldsPart bytes piece.now (K.told sink.new).holds)) }
    ensures rose { OnErr result (Rose (K.told sink.old).faults (K.told sink.new).faults) }
    ensures never_falls { (K.told sink.old).faults ≤ (K.told sink.new).faults }
{
    let mut at = 0;
    while at < piece.len() {
        let (_, left) = piece.split_at(at);
        at += sink.write(left)?;
    }
    Ok(())
}
