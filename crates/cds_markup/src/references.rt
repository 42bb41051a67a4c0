//! How the characters of a reference are read.

ghost use Rattle.std.specs.Prelude.{◌≡◌, ◌==◌, true, if◌then◌else◌, Option, Some, None};
ghost use Rattle.cds_base.specs.Characters.{is_allowed};
ghost use Rattle.cds_markup.specs.References.{number_step, step_reference};
ghost use Rattle.cds_markup.specs.Steps.{Agrees, entity_code};

use crate::error::MachineError;
use crate::mode::{ReferenceState, WordRest};

/// The greatest code point.
const LAST: u64 = 0x10_FFFF;

/// Returns the character with this code point, if it is allowed (XML 1.0 on characters).
fn allowed(code: u32) -> Option<char>
    ensures { result ≡ (if is_allowed code then Some code else None) }
{
    match char::from_u32(code) {
        Some(c) => {
            if cds_base::is_allowed(c) {
                Some(c)
            } else {
                None
            }
        }
        None => None,
    }
}

impl ReferenceState {
    /// Goes over to this state.
    fn go_to(&mut self, reference_state: ReferenceState)
        ensures { self.new ≡ reference_state }
    {
        drop(std::mem::replace(self, reference_state));
    }

    /// Takes a digit of a number, or the `;` after it.
    fn number(
        &mut self,
        hexadecimal: bool,
        value: u32,
        c: char,
    ) -> Result<Option<char>, MachineError>
        ensures { Agrees (number_step hexadecimal value c) result self.new }
    {
        let base = if hexadecimal { 16 } else { 10 };
        match c.to_digit(base) {
            Some(digit) => {
                let more = u64::from(value) * u64::from(base) + u64::from(digit);
                if more > LAST {
                    return Err(MachineError::Broken);
                }
                self.go_to(ReferenceState::Number(hexadecimal, more as u32));
                Ok(None)
            }
            None => {
                if c != ';' {
                    return Err(MachineError::Broken);
                }
                match allowed(value) {
                    Some(character) => Ok(Some(character)),
                    None => Err(MachineError::Broken),
                }
            }
        }
    }

    /// Takes the first letter of an entity's name, or the `#` of a number.
    fn ampersand(&mut self, c: char) -> Result<Option<char>, MachineError>
        ensures { Agrees (step_reference ReferenceState.Ampersand c) result self.new }
    {
        match c {
            '#' => self.go_to(ReferenceState::Sharp),
            'a' => self.go_to(ReferenceState::EntityA),
            'g' => self.go_to(ReferenceState::Entity(WordRest::of(b"t;"), '>')),
            'l' => self.go_to(ReferenceState::Entity(WordRest::of(b"t;"), '<')),
            'q' => self.go_to(ReferenceState::Entity(WordRest::of(b"uot;"), '"')),
            _ => return Err(MachineError::Broken),
        }
        Ok(None)
    }

    /// Takes the second letter of an entity that begins with `a`.
    fn entity_a(&mut self, c: char) -> Result<Option<char>, MachineError>
        ensures { Agrees (step_reference ReferenceState.EntityA c) result self.new }
    {
        match c {
            'm' => self.go_to(ReferenceState::Entity(WordRest::of(b"p;"), '&')),
            'p' => self.go_to(ReferenceState::Entity(WordRest::of(b"os;"), '\'')),
            _ => return Err(MachineError::Broken),
        }
        Ok(None)
    }

    /// Returns the character that the open entity stands for.
    fn entity_code(&self) -> char
        ensures { result ≡ entity_code self.now }
    {
        match self {
            ReferenceState::Entity(_, code) => *code,
            _ => '\0',
        }
    }

    /// Takes one character. Returns the character that the reference stands for at its `;`.
    pub fn step(&mut self, c: char) -> Result<Option<char>, MachineError>
        ensures { Agrees (step_reference self.old c) result self.new }
    {
        match self {
            ReferenceState::Ampersand => self.ampersand(c),
            ReferenceState::EntityA => self.entity_a(c),
            ReferenceState::Entity(left, _) => {
                if !left.is_next(c) {
                    return Err(MachineError::Broken);
                }
                left.advance();
                if !left.is_over() {
                    return Ok(None);
                }
                Ok(Some(self.entity_code()))
            }
            ReferenceState::Sharp => {
                if c == 'x' {
                    self.go_to(ReferenceState::Number(true, 0));
                    return Ok(None);
                }
                self.number(false, 0, c)
            }
            ReferenceState::Number(hexadecimal, value) => {
                let (hexadecimal, value) = (*hexadecimal, *value);
                self.number(hexadecimal, value, c)
            }
        }
    }
}
