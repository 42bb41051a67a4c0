//! Texts that grow by one character or one run at a time.

ghost use Rattle.std.specs.Prelude.{◌≡◌, List, ℕ, [], ◌++◌, string_bytes, encode_utf8, length, ◌==◌, IfOk, OnOk, slice_index};
ghost use Rattle.std.specs.Str.{IsAscii};
ghost use Rattle.cds_markup.specs.Delimiters.{without_brackets};
ghost use Rattle.cds_markup.specs.Runs.{is_plain, Collects};

use crate::plain::Plain;
use cds_base::{Mem, Text};
use std::alloc::Global;
use std::marker::Model;

/// A text that grows. Contracts see the list of its bytes.
#[derive(Drop)]
pub struct Letters {
    value: String,
}

impl Model for Letters {
    ghost use Rattle.std.specs.Prelude.{ℕ, List, string_bytes};

    ghost Value = { List ℕ };

    ghost view = { λ t. string_bytes t.value };
}

/// Returns the text with these bytes, which are ASCII.
pub fn ascii_text(alloc: Global, bytes: &[u8]) -> Result<Text, Mem>
    requires { IsAscii bytes.now }
    ensures { IfOk result (λ text. text ≡ bytes.now) }
{
    match std::str::from_utf8(bytes) {
        Ok(text) => Text::read(alloc, text),
        Err(_) => unreachable!(),
    }
}

impl Letters {
    /// Returns an empty text.
    pub fn new(alloc: Global) -> Self
        ensures { result ≡ [] }
    {
        Letters {
            value: String::new(alloc),
        }
    }

    /// Adds a character.
    pub fn push(&mut self, c: char) -> Result<(), Mem>
        ensures { OnOk result (self.new ≡ self.old ++ encode_utf8 c) }
    {
        self.value.push(c)?;
        Ok(())
    }

    /// Adds bytes, which are ASCII.
    fn push_ascii(&mut self, bytes: &[u8]) -> Result<(), Mem>
        requires { IsAscii bytes.now }
        ensures { OnOk result (self.new ≡ self.old ++ bytes.now) }
    {
        match std::str::from_utf8(bytes) {
            Ok(text) => {
                self.value.push_str(text)?;
                Ok(())
            }
            Err(_) => unreachable!(),
        }
    }

    /// Returns a text of these bytes, which are ASCII.
    pub fn ascii(alloc: Global, bytes: &[u8]) -> Result<Self, Mem>
        requires { IsAscii bytes.now }
        ensures { IfOk result (λ letters. letters ≡ bytes.now) }
    {
        let mut letters = Letters::new(alloc);
        letters.push_ascii(bytes)?;
        Ok(letters)
    }

    /// Adds the run of this kind that the bytes begin with, or nothing unless `going`. Returns how many bytes it added.
    pub fn push_run(&mut self, going: bool, plain: Plain, bytes: &[u8]) -> Result<usize, Mem>
        ensures { Collects going (is_plain plain) self.old bytes.now result self.new }
    {
        if !going {
            return Ok(0);
        }
        let count = plain.run(bytes);
        self.push_ascii(bytes.split_at(count).0)?;
        Ok(count)
    }

    /// Returns whether the text is empty.
    pub fn is_empty(&self) -> bool
        ensures { result ≡ (length self.now == 0) }
    {
        self.value.is_empty()
    }

    /// Returns whether a closing bracket stands at the place.
    fn has_bracket(&self, at: usize) -> bool
        ensures { result ≡ (slice_index self.now at == 93) }
    {
        match self.value.as_bytes().get(at) {
            Some(b) => *b == b']',
            None => false,
        }
    }

    /// Removes the two closing brackets at the end.
    pub fn without_brackets(&mut self)
        ensures { self.new ≡ without_brackets self.old }
    {
        let at = self.value.len().saturating_sub(2);
        if self.has_bracket(at) {
            self.value.truncate(at);
        }
    }

    /// Returns the finished text.
    pub fn into_text(self) -> Text
        ensures { result ≡ self }
    {
        Text::from(self.value)
    }
}
