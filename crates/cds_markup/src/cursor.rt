//! A machine at a place of the input.

ghost use Rattle.std.specs.Prelude.{◌≡◌, ◌-◌, length, Some};
ghost use Rattle.cds_markup.specs.Bytes.{refusal};
ghost use Rattle.cds_markup.specs.Tellings.{NextSo};
ghost use Rattle.cds_markup.specs.Reads.{progress, ended, begin_reading};

use crate::MarkupError;
use crate::error::MachineError;
use crate::event::Event;
use crate::machine::Machine;
use cds_base::INPUT_LIMIT;
use std::alloc::Global;

/// A machine at a place of the input.
#[derive(Drop)]
pub struct Cursor {
    /// The machine.
    pub machine: Machine,
    /// How many bytes came.
    pub at: usize,
}

/// Returns the refusal for a machine that stopped at this byte.
fn refusal(stop: MachineError, at: usize) -> MarkupError
    ensures { result ≡ refusal stop at }
{
    match stop {
        MachineError::Deep => MarkupError::TooDeep { at },
        MachineError::Mem => MarkupError::Mem,
        MachineError::Broken | MachineError::NamespaceRule => MarkupError::Bad { at },
    }
}

impl Cursor {
    /// Returns the first place.
    pub fn new(alloc: Global) -> Self
        ensures { progress result ≡ begin_reading }
    {
        Cursor {
            machine: Machine::new(alloc),
            at: 0,
        }
    }

    /// Returns the place of the first byte of the character that has begun. If none has, returns the place of the next byte.
    pub fn first(&self) -> usize
        ensures { result ≡ (progress self.now).at - length (progress self.now).read.begun }
    {
        self.at.saturating_sub(self.machine.begun.len())
    }

    /// Reads one byte more. Returns what it completes.
    #[tactic(auto, using(crate::proofs::Decoded::next_event, crate::proofs::Decoded::next_stopped, crate::proofs::Decoded::next_long))]
    pub fn next(&mut self, alloc: Global, b: u8) -> Result<Option<Event>, MarkupError>
        ensures { NextSo (progress self.old) b result (progress self.new) }
    {
        if self.at >= INPUT_LIMIT {
            return Err(MarkupError::TooLong);
        }
        match self.machine.step(alloc, b) {
            Ok(event) => {
                self.at += 1;
                Ok(event)
            }
            Err(stop) => Err(refusal(stop, self.at)),
        }
    }

    /// Ends the input. Refuses it if no document ends here.
    pub fn end(&self) -> Result<(), MarkupError>
        ensures { result ≡ ended (Some (progress self.now)) }
    {
        if self.machine.may_end() {
            Ok(())
        } else {
            Err(MarkupError::Bad { at: self.at })
        }
    }
}
