//! The fields of a message to be written.

ghost use Rattle.std.specs.Prelude.{◌≡◌, [], ◌∷◌, ◌++◌, length, OnOk, OnErr, option_copied, slice_get};
ghost use Rattle.std.specs.List.{list_all};
ghost use Rattle.cds_http.specs.Written.{can_stand, is_written_field};

use cds_base::{Mem, Sequence, Text};
use httparse::is_token;
use std::alloc::Global;
use std::marker::Model;

/// A field to be written.
#[derive(Drop, Debug)]
pub struct Field {
    pub name: Text,
    pub value: Text,
}

/// Returns whether no byte is CR, LF or NUL.
fn all_stand(bytes: &[u8]) -> bool
    ensures { result ≡ list_all can_stand bytes.now }
{
    bytes
        .iter()
        .all(|byte| !(*byte == b'\r' || *byte == b'\n' || *byte == 0))
}

/// Returns whether the name is a token and the value has no CR, LF or NUL.
fn is_written(field: &Field) -> bool
    ensures { result ≡ is_written_field field.now }
{
    is_token(field.name.as_str().as_bytes()) && all_stand(field.value.as_str().as_bytes())
}

/// The fields of a message to be written, in order. Contracts see the list.
#[derive(Drop, Debug)]
pub struct Fields {
    items: Sequence<Field>,
}

impl Model for Fields {
    ghost use Rattle.std.specs.Prelude.{List};
    ghost use Rattle.cds_http.specs.declared.fields.Field.{Field};

    ghost Value = { List Field };

    ghost view = { λ f. f.items };
}

impl Fields {
    /// Returns a list without fields. This takes no memory.
    pub fn new(alloc: Global) -> Self
        ensures { result ≡ [] }
    {
        Fields {
            items: Sequence::new(alloc),
        }
    }

    /// Adds a field at the end. A refusal leaves the list as it was.
    pub fn push(&mut self, alloc: Global, name: &str, value: &str) -> Result<(), Mem>
        ensures ok { OnOk result (self.new ≡ self.old ++ record { name = name.now; value = value.now } ∷ []) }
        ensures err { OnErr result (self.new ≡ self.old) }
    {
        let name = Text::read(alloc, name)?;
        let value = Text::read(alloc, value)?;
        self.items.push(Field { name, value })?;
        Ok(())
    }

    /// Returns the number of fields.
    pub fn len(&self) -> usize
        ensures { result ≡ length self.now }
    {
        self.items.len()
    }

    /// Returns the field at a place counted from 0, or `None` past the end.
    pub fn get(&self, at: usize) -> Option<&Field>
        ensures { option_copied result ≡ slice_get self.now at }
    {
        self.items.get(at)
    }

    /// Returns whether the fields may be written: names are tokens, and values have no CR, LF or NUL.
    pub fn can_be_written(&self) -> bool
        ensures { result ≡ list_all is_written_field self.now }
    {
        self.as_slice().iter().all(|field| is_written(field))
    }

    /// Returns the fields.
    pub fn as_slice(&self) -> &[Field]
        ensures { result.now ≡ self.now }
    {
        self.items.as_slice()
    }
}
