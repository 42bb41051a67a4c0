//! The program's own streams: standard input as a source and standard output as a sink. They tell nothing of what they
//! hold, and count their faults. What a real stream gives or takes is trusted.

ghost use Rattle.std.specs.Prelude.{◌≡◌, None};

use crate::retry::{read_again, write_again};
use cds_outside::{Failed, Sink, Source};
use std::io::{Read, Write};

/// A reader as a source.
#[derive(Drop)]
pub struct Input<R: Read + Drop> {
    reader: R,
    moved: u64,
    faults: u64,
}

impl<R: Read + Drop> Input<R> {
    /// Makes a source; nothing has been moved, and no call has failed.
    pub fn new(reader: R) -> Self
        ensures moved { result.moved ≡ 0 }
        ensures faults { result.faults ≡ 0 }
    {
        Input {
            reader,
            moved: 0,
            faults: 0,
        }
    }

    /// Returns how many calls failed.
    pub fn faults(&self) -> u64
        ensures { result ≡ self.now.faults }
    {
        self.faults
    }
}

impl<R: Read + Drop> Source for Input<R> {
    ghost told = { λ s. record { left = None; moved = s.moved; faults = s.faults } };

    fn read(&mut self, into: &mut [u8]) -> Result<usize, Failed> {
        match read_again(&mut self.reader, into) {
            Ok(count) => {
                self.moved = self.moved.saturating_add(count as u64);
                Ok(count)
            }
            Err(_) => {
                self.faults = self.faults.saturating_add(1);
                Err(Failed)
            }
        }
    }
}

/// A writer as a sink. A writer that takes nothing of a piece counts as failed.
#[derive(Drop)]
pub struct Output<W: Write + Drop> {
    writer: W,
    faults: u64,
}

impl<W: Write + Drop> Output<W> {
    /// Makes a sink of which no call has failed.
    pub fn new(writer: W) -> Self
        ensures { result.faults ≡ 0 }
    {
        Output { writer, faults: 0 }
    }
}

impl<W: Write + Drop> Sink for Output<W> {
    ghost told = { λ s. record { holds = None; faults = s.faults } };

    fn write(&mut self, piece: &[u8]) -> Result<usize, Failed> {
        if piece.is_empty() {
            return Ok(0);
        }
        match write_again(&mut self.writer, piece) {
            Ok(count) if count > 0 => Ok(count),
            _ => {
                self.faults = self.faults.saturating_add(1);
                Err(Failed)
            }
        }
    }
}
