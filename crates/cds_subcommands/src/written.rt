//! Texts into a sink.

ghost use Rattle.std.specs.Prelude.{◌≡◌, ◌≢◌};
ghost use Rattle.cds_outside.specs.Outside.{Rose, Told};
ghost use Rattle.cds_subcommands.specs.Run.{EndsText, WritesText};

use cds_outside::{Sink, write_all};

/// Writes a text, and answers the status, or 3 if the text could not be written.
pub fn write_text<K: Sink>(sink: &mut K, text: &[u8], status: u8) -> u8
    requires { status ≢ 3 }
    ensures ends { EndsText result status }
    ensures writes { Told (K.told sink.old).holds (λ before. WritesText result text.now before (K.told sink.new).holds) }
    ensures write_fault { result ≡ 3 → Rose (K.told sink.old).faults (K.told sink.new).faults }
{
    match write_all(sink, text) {
        Ok(()) => status,
        Err(_) => 3,
    }
}
