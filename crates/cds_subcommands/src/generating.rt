//! Writes the script of a generated library.

ghost use Rattle.std.specs.Prelude.{◌≡◌, ◌⊎◌, ◌≤◌};
ghost use Rattle.cds_outside.specs.Outside.{HoldsPart, Rose, Told};
ghost use Rattle.cds_generate.specs.Generated.{generated};
ghost use Rattle.cds_subcommands.specs.Run.{Writes};

use cds_generate::{GenerateError, generate};
use cds_outside::Sink;
use std::alloc::Global;

/// Writes the script of a generated library (status 0), by a seed and the number of its tracks. If the sink could not be written
/// the status is 3, and if memory ran out 4. In each case a prefix of the script was written.
pub fn write_script<K: Sink>(alloc: Global, seed: u64, tracks: u32, sink: &mut K) -> u8
    requires some { 1 ≤ tracks }
    requires few { tracks ≤ 10000 }
    ensures writes { Told (K.told sink.old).holds (λ before. Writes result (generated seed tracks) before (K.told sink.new).holds) }
    ensures part { Told (K.told sink.old).holds (λ before. HoldsPart before (generated seed tracks) (K.told sink.new).holds) }
    ensures write_fault { result ≡ 3 → Rose (K.told sink.old).faults (K.told sink.new).faults }
    ensures known { (result ≡ 0) ⊎ ((result ≡ 3) ⊎ (result ≡ 4)) }
{
    match generate(alloc, seed, tracks, sink) {
        Ok(()) => 0,
        Err(GenerateError::WriteFault) => 3,
        Err(GenerateError::Mem) => 4,
    }
}
