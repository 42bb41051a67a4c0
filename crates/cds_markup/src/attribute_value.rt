//! How the characters of an attribute's value are read.

ghost use Rattle.std.specs.Prelude.{◌≡◌, ◌==◌, ◌++◌, false, Option, Some, None, OnOk};
ghost use Rattle.cds_markup.specs.Values.{says_behind, literal_step, step_value};
ghost use Rattle.cds_markup.specs.Steps.{Agrees};

use crate::error::MachineError;
use crate::letters::Letters;
use crate::mode::{ReferenceState, ValueState};
use crate::values::ValuePiece;
use cds_base::Mem;
use std::alloc::Global;

/// Adds what a literal character says. White space says a space. The second byte of a line end of two says nothing.
fn push_literal(text: &mut Letters, behind_return: bool, c: char) -> Result<(), Mem>
    ensures { OnOk result (text.new ≡ text.old ++ says_behind behind_return (ValuePiece.Literal c)) }
{
    if c == '\n' && behind_return {
        return Ok(());
    }
    if c == ' ' || c == '\t' || c == '\n' || c == '\r' {
        text.push(' ')?;
        return Ok(());
    }
    text.push(c)?;
    Ok(())
}

impl ValueState {
    /// Takes a literal character, the quote, or the `&` of a reference.
    fn literal(&mut self, alloc: Global, c: char) -> Result<Option<Letters>, MachineError>
        ensures { Agrees (literal_step self.old.double self.old.text self.old.behind_return c) result self.new }
    {
        let quote = if self.double { '"' } else { '\'' };
        if c == quote {
            let text = std::mem::replace(&mut self.text, Letters::new(alloc));
            return Ok(Some(text));
        }
        if c == '&' {
            drop(std::mem::replace(&mut self.reference, Some(ReferenceState::Ampersand)));
            return Ok(None);
        }
        if c == '<' {
            return Err(MachineError::Broken);
        }
        push_literal(&mut self.text, self.behind_return, c)?;
        self.behind_return = c == '\r';
        drop(std::mem::replace(&mut self.reference, None));
        Ok(None)
    }

    /// Takes one character. Returns what the value says at the quote that ends it.
    #[inline(never)]
    pub fn step(&mut self, alloc: Global, c: char) -> Result<Option<Letters>, MachineError>
        ensures { Agrees (step_value self.old c) result self.new }
    {
        match &mut self.reference {
            None => self.literal(alloc, c),
            Some(reference) => match reference.step(c)? {
                None => Ok(None),
                Some(character) => {
                    self.text.push(character)?;
                    self.behind_return = false;
                    drop(std::mem::replace(&mut self.reference, None));
                    Ok(None)
                }
            },
        }
    }
}
