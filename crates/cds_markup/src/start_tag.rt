//! How the characters of a start tag are read.

ghost use Rattle.std.specs.Prelude.{◌≡◌, ◌==◌, OnOk};
ghost use Rattle.cds_markup.specs.Tags.{ends_tag, with_attr, tagged_step, spaced_step, step_tag};
ghost use Rattle.cds_markup.specs.Names.{name_begun};
ghost use Rattle.cds_markup.specs.Steps.{Agrees, tag_open, IsBegun, BeginsTag};

use crate::attribute::{is_blank, no_name};
use crate::error::MachineError;
use crate::mode::{AttributeState, NameState, NameStep, StartTagState};
use crate::qualified_name::{begins_name, name_step};
use crate::tag::{Tag, TagAttr};
use cds_base::{Mem, Sequence};
use std::alloc::Global;

/// Returns whether the character ends a start tag.
pub fn ends_tag(c: char) -> bool
    ensures { result ≡ ends_tag c }
{
    c == '/' || c == '>'
}

/// Returns an empty tag, which stands for a tag that is not known yet.
pub fn no_tag(alloc: Global) -> Tag {
    Tag {
        name: no_name(alloc),
        attrs: Sequence::new(alloc),
    }
}

/// Returns a name of one character.
fn name_begun(alloc: Global, c: char) -> Result<NameState, Mem>
    ensures { IsBegun c result }
{
    let mut name_state = NameState::new(alloc);
    name_state.first.push(c)?;
    Ok(name_state)
}

impl StartTagState {
    /// Goes over to this state.
    pub fn go_to(&mut self, start_tag_state: StartTagState)
        ensures { self.new ≡ start_tag_state }
    {
        drop(std::mem::replace(self, start_tag_state));
    }

    /// Returns the state of a tag that begins with this character.
    pub fn begin(alloc: Global, c: char) -> Result<Self, MachineError>
        ensures { BeginsTag c result }
    {
        if !begins_name(c) {
            return Err(MachineError::Broken);
        }
        Ok(StartTagState::Name(name_begun(alloc, c)?))
    }

    /// Takes a character after a name or a value.
    fn tagged(&mut self, tag: Tag, c: char) -> Result<Option<(Tag, char)>, MachineError>
        ensures { Agrees (tagged_step tag c) result self.new }
    {
        if is_blank(c) {
            self.go_to(StartTagState::Spaced(tag));
            return Ok(None);
        }
        if ends_tag(c) {
            return Ok(Some((tag, c)));
        }
        Err(MachineError::Broken)
    }

    /// Takes a character after white space.
    fn spaced(
        &mut self,
        alloc: Global,
        tag: Tag,
        c: char,
    ) -> Result<Option<(Tag, char)>, MachineError>
        ensures { Agrees (spaced_step tag c) result self.new }
    {
        if is_blank(c) {
            self.go_to(StartTagState::Spaced(tag));
            return Ok(None);
        }
        if ends_tag(c) {
            return Ok(Some((tag, c)));
        }
        if begins_name(c) {
            let name_state = name_begun(alloc, c)?;
            self.go_to(StartTagState::Attribute(tag, AttributeState::AttrName(name_state)));
            return Ok(None);
        }
        Err(MachineError::Broken)
    }

    /// Adds a complete attribute to the tag that it stands in.
    #[inline(never)]
    fn end_attr(&mut self, alloc: Global, attr: TagAttr) -> Result<(), Mem>
        ensures { OnOk result (self.new ≡ StartTagState.Tagged (with_attr (tag_open self.old) attr)) }
    {
        let mut tag = match self {
            StartTagState::Attribute(tag, _) => std::mem::replace(tag, no_tag(alloc)),
            _ => Tag {
                name: no_name(alloc),
                attrs: Sequence::new(alloc),
            },
        };
        tag.attrs.push(attr)?;
        self.go_to(StartTagState::Tagged(tag));
        Ok(())
    }

    /// Takes one character. At the `>` or `/` that ends the tag, returns the tag and that character.
    pub fn step(&mut self, alloc: Global, c: char) -> Result<Option<(Tag, char)>, MachineError>
        ensures { Agrees (step_tag self.old c) result self.new }
    {
        match self {
            StartTagState::Opened => {
                self.go_to(StartTagState::begin(alloc, c)?);
                Ok(None)
            }
            StartTagState::Name(name_state) => match name_step(name_state, alloc, c)? {
                NameStep::Goes => Ok(None),
                NameStep::Ends(name) => {
                    let attrs = Sequence::new(alloc);
                    self.tagged(Tag { name, attrs }, c)
                }
                NameStep::Breaks => Err(MachineError::Broken),
            },
            StartTagState::Tagged(tag) => {
                let tag = std::mem::replace(tag, no_tag(alloc));
                self.tagged(tag, c)
            }
            StartTagState::Spaced(tag) => {
                let tag = std::mem::replace(tag, no_tag(alloc));
                self.spaced(alloc, tag, c)
            }
            StartTagState::Attribute(_, attribute_state) => {
                let Some(attr) = attribute_state.step(alloc, c)? else {
                    return Ok(None);
                };
                self.end_attr(alloc, attr)?;
                Ok(None)
            }
        }
    }
}
