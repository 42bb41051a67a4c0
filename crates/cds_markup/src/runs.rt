//! Passing over runs of bytes that complete nothing, which saves one step for each of them.

ghost use Rattle.std.specs.Prelude.{◌≡◌, ◌==◌, ◌≤◌, ◌&&◌, true, List, length, IfOk};
ghost use Rattle.std.specs.List.{list_all};
ghost use Rattle.cds_base.specs.Runs.{stands_for_itself};
ghost use Rattle.cds_markup.specs.declared.tag.Open.{Open};
ghost use Rattle.cds_markup.specs.Tags.{tag_named};
ghost use Rattle.cds_markup.specs.Runs.{Passes, takes_letters, ValueRuns, AttrRuns, is_plain_qname, plain_name_state, plain_attr, AddsAttr, TagRuns, EndRuns, LessRuns, RootRuns, MiscRuns, ModeRuns, is_plain_content, is_full, takes_run, QuietSo};
ghost use Rattle.cds_markup.specs.Namespaces.{is_empty};
ghost use Rattle.cds_markup.specs.Reads.{reading_of};

use crate::end_tag::place_behind;
use crate::letters::{Letters, ascii_text};
use crate::machine::{MOST_OPEN, Machine};
use crate::mode::{AttributeState, Misc, Mode, NameState, RootState, StartTagState, ValueState};
use crate::plain::{Plain, attr_at, begins_blank, behind, name_at};
use crate::start_tag::no_tag;
use crate::tag::{Open, QName, Tag, TagAttr};
use cds_base::{Mem, Sequence, letters_run};
use std::alloc::Global;

/// Counts the letters of a comment or a section that are passed over. There are none if a dash or a bracket counts before them.
fn passed(before: u32, bytes: &[u8]) -> usize
    ensures { Passes (before == 0) stands_for_itself bytes.now result }
{
    if before == 0 { letters_run(bytes) } else { 0 }
}

impl ValueState {
    /// Returns whether letters stand for themselves here.
    fn takes_letters(&self) -> bool
        ensures { result ≡ takes_letters self.now }
    {
        !self.behind_return && self.reference.is_none()
    }

    /// Passes over letters of the value. Returns how many bytes.
    fn run(&mut self, bytes: &[u8]) -> Result<usize, Mem>
        ensures { ValueRuns self.old bytes.now result self.new }
    {
        let going = self.takes_letters();
        self.text.push_run(going, Plain::Letters, bytes)
    }
}

impl AttributeState {
    /// Passes over letters of a value. Returns how many bytes.
    fn run(&mut self, bytes: &[u8]) -> Result<usize, Mem>
        ensures { AttrRuns self.old bytes.now result self.new }
    {
        match self {
            AttributeState::Value(_, value) => value.run(bytes),
            _ => Ok(0),
        }
    }
}

/// Returns the name as far as it came, with this prefix, which is empty for none, and this local name.
fn plain_name_state(alloc: Global, prefix: &[u8], local: &[u8]) -> Result<NameState, Mem>
    requires { is_plain_qname prefix.now local.now ≡ true }
    ensures { IfOk result (λ name_state. name_state ≡ plain_name_state prefix.now local.now) }
{
    let local = Letters::ascii(alloc, local)?;
    if prefix.is_empty() {
        return Ok(NameState {
            first: local,
            second: None,
        });
    }
    let first = Letters::ascii(alloc, prefix)?;
    Ok(NameState {
        first,
        second: Some(local),
    })
}

/// Returns the attribute with this prefix, which is empty for none, this local name and this value. The letters of the value
/// stand for themselves.
fn plain_attr(alloc: Global, prefix: &[u8], local: &[u8], value: &[u8]) -> Result<TagAttr, Mem>
    requires name { is_plain_qname prefix.now local.now ≡ true }
    requires value { list_all stands_for_itself value.now ≡ true }
    ensures { IfOk result (λ attr. attr ≡ plain_attr prefix.now local.now value.now) }
{
    let name = plain_name_state(alloc, prefix, local)?.into_name(alloc);
    let value = ascii_text(alloc, value)?;
    Ok(TagAttr { name, value })
}

impl Tag {
    /// Passes over the attribute that the bytes begin with, as `attr_at` finds it, and adds it. Returns how many bytes it has.
    fn run(&mut self, alloc: Global, bytes: &[u8]) -> Result<Option<usize>, Mem>
        ensures { AddsAttr self.old bytes.now result self.new }
    {
        let Some((prefix, local, value, rest)) = attr_at(bytes) else {
            return Ok(None);
        };
        let attr = plain_attr(alloc, prefix, local, value)?;
        self.attrs.push(attr)?;
        Ok(Some(bytes.len().saturating_sub(rest.len())))
    }
}

impl StartTagState {
    /// Passes over letters of a value, or over a whole attribute and the white space after it, or over the name of another.
    /// Returns how many bytes.
    fn run(&mut self, alloc: Global, bytes: &[u8]) -> Result<usize, Mem>
        ensures { TagRuns self.old bytes.now result self.new }
    {
        match self {
            StartTagState::Attribute(_, attribute_state) => attribute_state.run(bytes),
            StartTagState::Spaced(tag) => {
                if let Some(count) = tag.run(alloc, bytes)? {
                    if begins_blank(bytes.split_at(count).1) {
                        return Ok(count + 1);
                    }
                    let tag = std::mem::replace(tag, no_tag(alloc));
                    self.go_to(StartTagState::Tagged(tag));
                    return Ok(count);
                }
                let Some((prefix, local, rest)) = name_at(bytes) else {
                    return Ok(0);
                };
                let name_state = plain_name_state(alloc, prefix, local)?;
                let tag = std::mem::replace(tag, no_tag(alloc));
                self.go_to(StartTagState::Attribute(tag, AttributeState::AttrName(name_state)));
                Ok(bytes.len().saturating_sub(rest.len()))
            }
            _ => Ok(0),
        }
    }
}

impl RootState {
    /// Goes over to a start tag after white space that has nothing but its name.
    fn begin_tag(&mut self, alloc: Global, name: QName)
        ensures { self.new ≡ RootState.StartTag (StartTagState.Spaced (tag_named name)) }
    {
        let attrs = Sequence::new(alloc);
        self.go_to(RootState::StartTag(StartTagState::Spaced(Tag { name, attrs })));
    }

    /// Goes over to a start tag in this part of its name.
    fn begin_name(&mut self, name_state: NameState)
        ensures { self.new ≡ RootState.StartTag (StartTagState.Name name_state) }
    {
        self.go_to(RootState::StartTag(StartTagState::Name(name_state)));
    }

    /// Passes over an element's name that the bytes begin with, as `name_at` finds it, and over white space after it. Returns how
    /// many bytes.
    fn name_run(&mut self, alloc: Global, bytes: &[u8]) -> Result<usize, Mem>
        requires { self.old ≡ RootState.Less }
        ensures { (opens : List Open) → LessRuns opens bytes.now result self.new }
    {
        let Some((prefix, local, rest)) = name_at(bytes) else {
            return Ok(0);
        };
        let count = bytes.len().saturating_sub(rest.len());
        let name_state = plain_name_state(alloc, prefix, local)?;
        if begins_blank(rest) {
            self.begin_tag(alloc, name_state.into_name(alloc));
            return Ok(count + 1);
        }
        self.begin_name(name_state);
        Ok(count)
    }

    /// Goes over to an end tag, after `n` bytes of its name.
    fn end_at(&mut self, n: usize)
        ensures { self.new ≡ RootState.EndTag n }
    {
        self.go_to(RootState::EndTag(n));
    }

    /// Goes over to an end tag, after `n` bytes of its name, and passes over more of them. It stops at the first byte that is not
    /// the name's, and returns how many bytes are before it.
    fn end_run(&mut self, opens: &[Open], n: usize, bytes: &[u8]) -> usize
        ensures within { result ≤ length bytes.now }
        ensures ends { EndRuns opens.now n bytes.now result self.new }
    {
        let Some((innermost, _outer)) = opens.split_first() else {
            self.end_at(n);
            return 0;
        };
        let written = bytes.split_at(Plain::Written.run(bytes)).0;
        let behind = place_behind(&innermost.name, n, written);
        self.end_at(behind);
        behind.saturating_sub(n)
    }

    /// Passes over an element's name as `name_run` does, or over the slash of an end tag and bytes of its name. Returns how many
    /// bytes.
    fn less_run(&mut self, alloc: Global, opens: &[Open], bytes: &[u8]) -> Result<usize, Mem>
        requires { self.old ≡ RootState.Less }
        ensures { LessRuns opens.now bytes.now result self.new }
    {
        let Some(text) = behind(bytes, b'/') else {
            return self.name_run(alloc, bytes);
        };
        if opens.is_empty() {
            return Ok(0);
        }
        Ok(self.end_run(opens, 0, text) + 1)
    }

    /// Passes over bytes of a tag, a comment or a section, if these elements are open. Returns how many.
    fn run(&mut self, alloc: Global, opens: &[Open], bytes: &[u8]) -> Result<usize, Mem>
        ensures { RootRuns opens.now self.old bytes.now result self.new }
    {
        match self {
            RootState::StartTag(start_tag_state) => start_tag_state.run(alloc, bytes),
            RootState::Less => self.less_run(alloc, opens, bytes),
            RootState::Comment(dashes) => Ok(passed(*dashes, bytes)),
            RootState::Section(brackets, text) => {
                let going = *brackets == 0;
                text.push_run(going, Plain::Letters, bytes)
            }
            RootState::EndTag(n) => {
                let n = *n;
                Ok(self.end_run(opens, n, bytes))
            }
            _ => Ok(0),
        }
    }
}

impl Misc {
    /// Counts the letters of a comment that are passed over.
    fn run(&self, bytes: &[u8]) -> usize
        ensures { MiscRuns self.now bytes.now result }
    {
        match self {
            Misc::MiscComment(dashes) => passed(*dashes, bytes),
            _ => 0,
        }
    }
}

impl Mode {
    /// Passes over bytes that go on with what is open, if these elements are open. Returns how many.
    fn run(&mut self, alloc: Global, opens: &[Open], bytes: &[u8]) -> Result<usize, Mem>
        ensures { ModeRuns opens.now self.old bytes.now result self.new }
    {
        match self {
            Mode::Inside(root_state) => root_state.run(alloc, opens, bytes),
            Mode::Prolog(misc) => Ok(misc.run(bytes)),
            Mode::Epilog(misc) => Ok(misc.run(bytes)),
            _ => Ok(0),
        }
    }

    /// Returns whether the state is between tags and no closing bracket stands right before.
    fn is_plain_content(&self) -> bool
        ensures { result ≡ is_plain_content self.now }
    {
        match self {
            Mode::Inside(RootState::Content(brackets)) => *brackets == 0,
            _ => false,
        }
    }
}

impl Machine {
    /// Returns whether no character has begun.
    fn is_fresh(&self) -> bool
        ensures { result ≡ is_empty (reading_of self.now).begun }
    {
        self.begun.is_empty()
    }

    /// Returns whether a start tag here would be one too many.
    fn is_full(&self) -> bool
        ensures { result ≡ is_full (reading_of self.now) }
    {
        self.opens.len() == MOST_OPEN && self.mode.begins_tag()
    }

    /// Passes over the first bytes that complete nothing, if no literal text is open. Returns how many.
    #[tactic(auto, using(crate::proofs::Quiet::quiet_none))]
    pub fn run(&mut self, alloc: Global, bytes: &[u8]) -> Result<usize, Mem>
        ensures { QuietSo (reading_of self.old) bytes.now result (reading_of self.new) }
    {
        if !self.is_fresh() || self.is_full() {
            return Ok(0);
        }
        let opens = self.opens.as_slice();
        self.mode.run(alloc, opens, bytes)
    }

    /// Returns whether a literal text may go on here, with no closing bracket right before.
    pub fn takes_run(&self) -> bool
        ensures { result ≡ takes_run (reading_of self.now) }
    {
        self.is_fresh() && !self.opens.is_empty() && self.mode.is_plain_content()
    }
}
