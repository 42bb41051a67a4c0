//! Texts, and the small functions on them.

ghost use Rattle.std.specs.Prelude.{◌≡◌, ℕ, List, length, IfOk, string_bytes};

mod characters;
mod escaping;
mod number;
mod putting;
mod runs;

use crate::Mem;
pub use characters::is_allowed;
pub use escaping::escape;
pub use number::{read_digits, read_plain, read_u32, read_u64};
pub use putting::{put, put_number};
pub use runs::{first_forbidden, letters_run, plain_run};
use std::alloc::Global;
use std::convert::From;
use std::marker::Model;

/// A text in UTF-8. Contracts see the list of its bytes.
#[derive(Drop, Debug)]
pub struct Text {
    value: String,
}

impl Model for Text {
    ghost use Rattle.std.specs.Prelude.{ℕ, List, string_bytes};

    ghost Value = { List ℕ };

    ghost view = { λ t. string_bytes t.value };
}

impl Text {
    /// Makes a text with these bytes.
    pub fn read(alloc: Global, text: &str) -> Result<Self, Mem>
        ensures { IfOk result (λ copy. copy ≡ text.now) }
    {
        let value = String::from_str(alloc, text)?;
        Ok(Text { value })
    }

    /// Returns the text, as std has it.
    pub fn as_str(&self) -> &str
        ensures { result.now ≡ self.now }
    {
        self.value.as_str()
    }

    /// Returns how many bytes there are.
    pub fn len(&self) -> usize
        ensures { result ≡ length self.now }
    {
        self.value.len()
    }

    /// Returns an equal text.
    pub fn copy(&self, alloc: Global) -> Result<Self, Mem>
        ensures { IfOk result (λ copy. copy ≡ self.now) }
    {
        Text::read(alloc, self.value.as_str())
    }
}

impl From<String> for Text {
    ghost from_gives = { λ value result. result ≡ string_bytes value };

    fn from(value: String) -> Self {
        Text { value }
    }
}
