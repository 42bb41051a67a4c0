//! How the characters of one attribute of a start tag are read.

ghost use Rattle.std.specs.Prelude.{◌≡◌, ◌==◌, false, Option, Some, None, []};
ghost use Rattle.cds_base.specs.Characters.{is_blank};
ghost use Rattle.cds_markup.specs.Values.{value_state};
ghost use Rattle.cds_markup.specs.Attributes.{named_step, equals_step, step_attr};
ghost use Rattle.cds_markup.specs.Steps.{Agrees, attr_name};

use crate::error::MachineError;
use crate::letters::Letters;
use crate::mode::{AttributeState, NameStep, ValueState};
use crate::qualified_name::name_step;
use crate::tag::{QName, TagAttr};
use std::alloc::Global;

/// Returns whether the character is white space.
pub fn is_blank(c: char) -> bool
    ensures { result ≡ is_blank c }
{
    c == ' ' || c == '\t' || c == '\n' || c == '\r'
}

/// Returns an empty name, which stands for a name that is not known yet.
pub fn no_name(alloc: Global) -> QName
    ensures { result ≡ record { prefix = []; local = [] } }
{
    QName {
        prefix: Letters::new(alloc).into_text(),
        local: Letters::new(alloc).into_text(),
    }
}

/// Returns an empty value after its first quote, a double one if `double`.
fn new_value(alloc: Global, double: bool) -> ValueState
    ensures { result ≡ value_state double [] false None }
{
    ValueState {
        double,
        text: Letters::new(alloc),
        behind_return: false,
        reference: None,
    }
}

impl AttributeState {
    /// Goes over to this state.
    fn go_to(&mut self, attribute_state: AttributeState)
        ensures { self.new ≡ attribute_state }
    {
        drop(std::mem::replace(self, attribute_state));
    }

    /// Takes a character after the name.
    fn named(&mut self, name: QName, c: char) -> Result<Option<TagAttr>, MachineError>
        ensures { Agrees (named_step name c) result self.new }
    {
        if is_blank(c) {
            self.go_to(AttributeState::AttrNamed(name));
            return Ok(None);
        }
        if c == '=' {
            self.go_to(AttributeState::Equals(name));
            return Ok(None);
        }
        Err(MachineError::Broken)
    }

    /// Takes a character after the equals sign.
    fn equals(
        &mut self,
        alloc: Global,
        name: QName,
        c: char,
    ) -> Result<Option<TagAttr>, MachineError>
        ensures { Agrees (equals_step name c) result self.new }
    {
        if is_blank(c) {
            self.go_to(AttributeState::Equals(name));
            return Ok(None);
        }
        if c == '"' || c == '\'' {
            self.go_to(AttributeState::Value(name, new_value(alloc, c == '"')));
            return Ok(None);
        }
        Err(MachineError::Broken)
    }

    /// Takes the name away, and returns the attribute with that name and this value.
    fn finish(&mut self, alloc: Global, value: Letters) -> TagAttr
        ensures { result ≡ record { name = attr_name self.old; value = value } }
    {
        let name = match self {
            AttributeState::Value(name, _) => std::mem::replace(name, no_name(alloc)),
            _ => QName {
                prefix: Letters::new(alloc).into_text(),
                local: Letters::new(alloc).into_text(),
            },
        };
        TagAttr {
            name,
            value: value.into_text(),
        }
    }

    /// Takes one character. Returns the attribute at the quote that ends its value.
    #[inline(never)]
    pub fn step(&mut self, alloc: Global, c: char) -> Result<Option<TagAttr>, MachineError>
        ensures { Agrees (step_attr self.old c) result self.new }
    {
        match self {
            AttributeState::AttrName(name_state) => match name_step(name_state, alloc, c)? {
                NameStep::Goes => Ok(None),
                NameStep::Ends(name) => self.named(name, c),
                NameStep::Breaks => Err(MachineError::Broken),
            },
            AttributeState::AttrNamed(name) => {
                let name = std::mem::replace(name, no_name(alloc));
                self.named(name, c)
            }
            AttributeState::Equals(name) => {
                let name = std::mem::replace(name, no_name(alloc));
                self.equals(alloc, name, c)
            }
            AttributeState::Value(_, value) => {
                let Some(said) = value.step(alloc, c)? else {
                    return Ok(None);
                };
                Ok(Some(self.finish(alloc, said)))
            }
        }
    }
}
