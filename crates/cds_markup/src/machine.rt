//! A machine that reads a document byte by byte, and says what each byte completes.

ghost use Rattle.std.specs.Prelude.{◌≡◌, true, ◌<◌, ◌==◌, ◌&&◌, [], Ok, Err, Some, None, IfOk};
ghost use Rattle.cds_base.specs.Characters.{is_allowed};
ghost use Rattle.cds_markup.specs.declared.tag.Open.{Open};
ghost use Rattle.cds_markup.specs.declared.event.Event.TheVariants.{Start, Empty};
ghost use Rattle.cds_markup.specs.Namespaces.{declarations, tag_says};
ghost use Rattle.cds_markup.specs.Bytes.{is_deep, nothing_read, may_end, is_behind};
ghost use Rattle.cds_markup.specs.Marks.{cuts_text, is_in_content};
ghost use Rattle.cds_markup.specs.TagEnds.{ends_start};
ghost use Rattle.cds_markup.specs.Reads.{reading_of, AsciiSo, ByteSo, TaggedSo, TakenSo, WholeSo, JudgedSo};

use crate::error::MachineError;
use crate::event::Event;
use crate::mode::{Misc, Mode, RootState};
use crate::prefixes::Scope;
use crate::scope::{declarations, tag_says};
use crate::tag::{Open, QName, Tag, TagAttr};
use crate::token::Token;
use crate::utf8::{Decoded, decode};
use crate::wide_characters::may_begin_name;
use crate::{Attrs, Name};
use cds_base::{Mem, Sequence, Text};
use std::alloc::Global;

/// The most elements that may be open.
pub const MOST_OPEN: usize = 16;

/// A reader of documents byte by byte.
#[derive(Drop)]
pub struct Machine {
    /// The first bytes of a character that is not whole yet.
    pub begun: Vec<u8>,
    /// The state after all whole characters.
    pub mode: Mode,
    /// The elements that are open, the innermost first; at most 16.
    pub opens: Vec<Open>,
}

/// Returns the character of this byte below U+0080, if it is allowed.
#[tactic(auto, using(crate::proofs::Decoded::ascii_whole, crate::proofs::Decoded::ascii_none))]
fn ascii(b: u8) -> Result<Option<char>, MachineError>
    requires { b < 128 }
    ensures { AsciiSo b result }
{
    let c = char::from(b);
    if cds_base::is_allowed(c) {
        Ok(Some(c))
    } else {
        Err(MachineError::Broken)
    }
}

impl Machine {
    /// Returns a machine that has read nothing. It takes no memory so far.
    pub fn new(alloc: Global) -> Self
        ensures { reading_of result ≡ nothing_read }
    {
        Machine {
            begun: Vec::new(alloc),
            mode: Mode::Begin,
            opens: Vec::new(alloc),
        }
    }

    /// Returns whether the most elements are open and the byte begins the name of one more.
    fn is_deep(&self, b: u8) -> bool
        ensures { result ≡ is_deep (reading_of self.now) b }
    {
        self.opens.len() == MOST_OPEN
            && self.mode.begins_tag()
            && self.begun.is_empty()
            && may_begin_name(b)
    }

    /// Reads a byte below U+0080 while no character has begun.
    #[tactic(auto, using(crate::proofs::Decoded::plain_byte))]
    fn plain(&mut self, b: u8) -> Result<Option<char>, MachineError>
        requires low { b < 128 }
        requires none { self.old.begun.items ≡ [] }
        ensures { ByteSo (reading_of self.old) b result (reading_of self.new) }
    {
        ascii(b)
    }

    /// Reads a byte of a character that has more than one byte.
    #[tactic(auto, using(crate::proofs::Decoded::wide_whole, crate::proofs::Decoded::wide_more, crate::proofs::Decoded::wide_stuck, crate::proofs::Decoded::wide_broken))]
    #[inline(never)]
    fn wide(&mut self, b: u8) -> Result<Option<char>, MachineError>
        ensures { ByteSo (reading_of self.old) b result (reading_of self.new) }
    {
        if self.begun.push(b).is_err() {
            return Err(MachineError::Mem);
        }
        match decode(self.begun.as_slice()) {
            Decoded::Whole(c) => {
                self.begun.clear();
                Ok(Some(c))
            }
            Decoded::More => {
                if self
                    .mode
                    .may_begin(self.opens.as_slice(), self.begun.as_slice())
                {
                    Ok(None)
                } else {
                    Err(MachineError::Broken)
                }
            }
            Decoded::Broken => Err(MachineError::Broken),
        }
    }

    /// Reads a byte. Returns the character that it ends, or `None` if more bytes of that character are to come.
    fn character(&mut self, b: u8) -> Result<Option<char>, MachineError>
        ensures { ByteSo (reading_of self.old) b result (reading_of self.new) }
    {
        if b < 0x80 && self.begun.is_empty() {
            self.plain(b)
        } else {
            self.wide(b)
        }
    }

    /// Returns what a start tag says that declares these namespaces. Its name has this prefix and this local name.
    fn tag(
        &self,
        alloc: Global,
        declared: &Scope,
        prefix: &Text,
        local: Text,
        attrs: Sequence<TagAttr>,
    ) -> Result<(Name, Attrs), MachineError>
        requires { declared.now ≡ declarations attrs }
        ensures { TaggedSo self.now.opens.items (record { name = record { prefix = prefix.now; local = local }; attrs = attrs }) result }
    {
        let opens = self.opens.as_slice();
        let said = tag_says(alloc, opens, declared, prefix, local, attrs)?;
        match said {
            Some(said) => Ok(said),
            None => Err(MachineError::NamespaceRule),
        }
    }

    /// Opens the element of a start tag.
    fn start(&mut self, alloc: Global, tag: Tag) -> Result<Event, MachineError>
        ensures { TakenSo (reading_of self.old) (Token.Started tag) result (reading_of self.new) }
    {
        let Tag { name, attrs } = tag;
        let local = name.local.copy(alloc)?;
        let declared = declarations(alloc, attrs.as_slice())?;
        let (said, attrs) = self.tag(alloc, &declared, &name.prefix, local, attrs)?;
        let open = Open { name, declared };
        if self.opens.insert(0, open).is_err() {
            return Err(MachineError::Mem);
        }
        Ok(Event::Start(said, attrs))
    }

    /// Returns what the tag of an empty element says.
    fn empty(&mut self, alloc: Global, tag: Tag) -> Result<Event, MachineError>
        ensures { TakenSo (reading_of self.old) (Token.Slash tag) result (reading_of self.new) }
    {
        let Tag { name, attrs } = tag;
        let declared = declarations(alloc, attrs.as_slice())?;
        let QName { prefix, local } = name;
        let (name, attrs) = self.tag(alloc, &declared, &prefix, local, attrs)?;
        Ok(Event::Empty(name, attrs))
    }

    /// Ends the innermost element at its end tag.
    fn end(&mut self) -> Event
        ensures { TakenSo (reading_of self.old) Token.Ended (Ok result) (reading_of self.new) }
    {
        if !self.opens.is_empty() {
            self.opens.remove(0);
        }
        Event::End
    }

    /// Returns what a token says, and brings the open elements up to date.
    #[inline(never)]
    fn take(&mut self, alloc: Global, token: Token) -> Result<Event, MachineError>
        ensures { TakenSo (reading_of self.old) token result (reading_of self.new) }
    {
        match token {
            Token::Letter(c) => Ok(Event::Letter(c)),
            Token::Referred(c) => Ok(Event::Referred(c)),
            Token::SectionOf(text) => Ok(Event::Section(text)),
            Token::Commented => Ok(Event::Comment),
            Token::Started(tag) => self.start(alloc, tag),
            Token::Slash(tag) => self.empty(alloc, tag),
            Token::Shut => Ok(Event::Shut),
            Token::Ended => Ok(self.end()),
        }
    }

    /// Ends a start tag with this character. Returns what the tag says.
    #[tactic(auto, using(crate::proofs::TagEnds::tag_ends, crate::proofs::TagEnds::tag_breaks))]
    #[inline(never)]
    fn end_start(&mut self, alloc: Global, c: char) -> Result<Option<Event>, MachineError>
        requires none { self.old.begun.items ≡ [] }
        requires ends { ends_start self.old.mode c ≡ true }
        ensures { WholeSo (reading_of self.old) c result (reading_of self.new) }
    {
        let tag = self.mode.end_start(alloc, c);
        if c == '>' {
            Ok(Some(self.start(alloc, tag)?))
        } else {
            Ok(Some(self.empty(alloc, tag)?))
        }
    }

    /// Takes a whole character.
    #[tactic(auto, using(crate::proofs::Decoded::whole_nothing, crate::proofs::Decoded::whole_token, crate::proofs::Decoded::whole_broken, crate::proofs::Decoded::whole_refused))]
    fn whole(&mut self, alloc: Global, c: char) -> Result<Option<Event>, MachineError>
        requires { self.old.begun.items ≡ [] }
        ensures { WholeSo (reading_of self.old) c result (reading_of self.new) }
    {
        if self.mode.ends_start(c) {
            return self.end_start(alloc, c);
        }
        let opens = self.opens.as_slice();
        let Some(token) = self.mode.step(alloc, opens, c)? else {
            return Ok(None);
        };
        Ok(Some(self.take(alloc, token)?))
    }

    /// Reads one byte. Returns what it completes. After a refusal nothing is known of the machine.
    #[tactic(auto, using(crate::proofs::Decoded::step_deep, crate::proofs::Decoded::judged_refused, crate::proofs::Decoded::step_none, crate::proofs::Decoded::step_whole))]
    pub fn step(&mut self, alloc: Global, b: u8) -> Result<Option<Event>, MachineError>
        ensures { JudgedSo (reading_of self.old) b result (reading_of self.new) }
    {
        if self.is_deep(b) {
            return Err(MachineError::Deep);
        }
        let Some(c) = self.character(b)? else {
            return Ok(None);
        };
        self.whole(alloc, c)
    }

    /// Returns whether the input may end here.
    pub fn may_end(&self) -> bool
        ensures { result ≡ may_end (reading_of self.now) }
    {
        self.begun.is_empty() && self.is_behind()
    }

    /// Returns whether the first bytes of a character stand in a literal text.
    pub fn cuts_text(&self) -> bool
        ensures { result ≡ cuts_text (reading_of self.now) }
    {
        self.is_in_content() && !self.begun.is_empty()
    }

    /// Returns whether the state is between tags.
    fn is_in_content(&self) -> bool
        ensures { result ≡ is_in_content self.now.mode }
    {
        matches!(self.mode, Mode::Inside(RootState::Content(_)))
    }

    /// Returns whether the state is after the root.
    fn is_behind(&self) -> bool
        ensures { result ≡ is_behind self.now.mode }
    {
        matches!(self.mode, Mode::Epilog(Misc::Blanks))
    }
}
