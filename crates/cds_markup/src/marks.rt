//! The parts of a document, as its bytes complete them.

ghost use Rattle.std.specs.Prelude.{◌≡◌, ◌==◌, ◌&&◌, ◌++◌, not, false, Ok, Some, None, IfOk, OnOk, encode_utf8};
ghost use Rattle.cds_base.specs.Characters.{is_blank};
ghost use Rattle.cds_markup.specs.declared.part.Part.TheVariants.{Start, End, Run};
ghost use Rattle.cds_markup.specs.Document.{line_ends};
ghost use Rattle.cds_markup.specs.Runs.{TextRuns, text_before};
ghost use Rattle.cds_markup.specs.Marks.{is_between, open_text, line_end_says, text_with, letter_in, ended_text, run_of, begun_text, text_or, last_part, rest_of, goes_on_as, passed_over, marks, EndsSo, MarksSo};

use crate::Part;
use crate::attribute::is_blank;
use crate::event::Event;
use crate::letters::Letters;
use crate::mode::{Misc, Mode, RootState};
use crate::plain::{Plain, is_line_blank};
use cds_base::{Mem, Text};
use std::alloc::Global;

/// A literal text that is not over.
#[derive(Drop)]
pub struct OpenText {
    /// The place where it begins.
    pub at: usize,
    /// The place of its first character that is not white space.
    pub non_blank: Option<usize>,
    /// What it says so far.
    pub said: Letters,
    /// Whether a carriage return stands right before.
    pub behind_return: bool,
}

/// The places where the things that are not complete yet begin.
#[derive(Drop)]
pub struct Marks {
    /// The place of the first byte of an open tag, reference or section, or of the `/` of an empty element's tag.
    pub begin: usize,
    /// A literal text that is not over.
    pub text: Option<OpenText>,
}

impl Mode {
    /// Returns whether the state is before the root or inside it, and between the things that parts are made of.
    pub fn is_between(&self) -> bool
        ensures { result ≡ is_between self.now }
    {
        matches!(
            self,
            Mode::Begin
                | Mode::Marked
                | Mode::Prolog(Misc::Blanks)
                | Mode::Inside(RootState::Content(_))
        )
    }

    /// Returns whether such a thing began, if the state was `between` them before.
    pub fn begins(&self, between: bool) -> bool
        ensures { result ≡ (between && not (is_between self.now)) }
    {
        between && !self.is_between()
    }
}

/// Adds what a literal character says. Each line end says one line feed.
fn push_line(said: &mut Letters, behind_return: bool, c: char) -> Result<(), Mem>
    ensures { OnOk result (said.new ≡ said.old ++ line_end_says behind_return c) }
{
    if c == '\n' && behind_return {
        return Ok(());
    }
    if c == '\r' {
        said.push('\n')?;
        return Ok(());
    }
    said.push(c)?;
    Ok(())
}

impl OpenText {
    /// Returns a text that begins at this place, of which nothing came.
    fn new(alloc: Global, at: usize) -> Self
        ensures { result ≡ open_text at }
    {
        OpenText {
            at,
            non_blank: None,
            said: Letters::new(alloc),
            behind_return: false,
        }
    }

    /// Returns a text that begins at this place with this byte, which is not added yet. Its place is kept, unless the byte is
    /// a space, a tab or a line feed.
    pub fn before(alloc: Global, at: usize, first: u8) -> Self
        ensures { result ≡ text_before at first }
    {
        let mut text = OpenText::new(alloc, at);
        if !is_line_blank(first) {
            text.non_blank = Some(at);
        }
        text
    }

    /// Returns the same text after what it says so far.
    fn rest(&self, alloc: Global) -> Self
        ensures { result ≡ rest_of self.now }
    {
        OpenText {
            at: self.at,
            non_blank: None,
            said: Letters::new(alloc),
            behind_return: self.behind_return,
        }
    }

    /// Adds a character whose first byte is at this place.
    fn push(&mut self, at: usize, c: char) -> Result<(), Mem>
        ensures { OnOk result (self.new ≡ text_with self.old at c) }
    {
        if self.non_blank.is_none() && !is_blank(c) {
            self.non_blank = Some(at);
        }
        push_line(&mut self.said, self.behind_return, c)?;
        self.behind_return = c == '\r';
        Ok(())
    }

    /// Passes over white space that the bytes begin with. Once a character that is not white space came, passes over letters.
    /// Returns how many bytes it passed over.
    pub fn run(&mut self, bytes: &[u8]) -> Result<usize, Mem>
        ensures { TextRuns self.old bytes.now result self.new }
    {
        let going = !self.behind_return;
        match self.non_blank {
            Some(_) => self.said.push_run(going, Plain::Letters, bytes),
            None => self.said.push_run(going, Plain::Blanks, bytes),
        }
    }
}

/// Returns the run of a reference or a section that begins at this place and says this text.
fn run(at: usize, text: Text) -> Part
    ensures { result ≡ Run at (Some at) text }
{
    Part::Run {
        at,
        non_blank: Some(at),
        text,
    }
}

/// Returns the text of one character.
fn text_of(alloc: Global, c: char) -> Result<Text, Mem>
    ensures { IfOk result (λ text. text ≡ encode_utf8 c) }
{
    let mut text = Letters::new(alloc);
    text.push(c)?;
    Ok(text.into_text())
}

/// Returns what a section says, with each line end as one line feed.
fn lines_of(alloc: Global, text: Letters) -> Result<Text, Mem>
    ensures { IfOk result (λ lines. lines ≡ line_ends text) }
{
    let text = text.into_text();
    let mut lines = Letters::new(alloc);
    let mut behind_return = false;
    for c in text.as_str().chars() {
        push_line(&mut lines, behind_return, c)?;
        behind_return = c == '\r';
    }
    Ok(lines.into_text())
}

impl Marks {
    /// Returns marks of which nothing came.
    pub fn new() -> Self
        ensures { result ≡ marks 0 None }
    {
        Marks {
            begin: 0,
            text: None,
        }
    }

    /// Adds a letter whose first byte is at this place.
    fn letter(&mut self, alloc: Global, at: usize, c: char) -> Result<(), Mem>
        ensures { OnOk result (self.new ≡ letter_in self.old at c) }
    {
        let mut text = match self.text.take() {
            Some(text) => text,
            None => OpenText::new(alloc, at),
        };
        text.push(at, c)?;
        drop(std::mem::replace(&mut self.text, Some(text)));
        Ok(())
    }

    /// Ends the open literal text. Returns its part.
    fn end_text(&mut self) -> Option<Part>
        ensures part { EndsSo (ended_text self.old) result }
        ensures marks { self.new ≡ marks self.old.begin None }
    {
        let text = self.text.take()?;
        Some(Part::Run {
            at: text.at,
            non_blank: text.non_blank,
            text: text.said.into_text(),
        })
    }

    /// Begins something at this place, after the open text. Returns the part of that text.
    pub fn begin(&mut self, at: usize) -> Option<Part>
        ensures part { EndsSo (ended_text self.old) result }
        ensures marks { self.new ≡ marks at None }
    {
        let part = self.end_text();
        self.begin = at;
        part
    }

    /// Begins something at this place if `begins`. No character of a part is complete. Returns the part of the text that ends.
    pub fn pass(&mut self, begins: bool, at: usize) -> Option<Part>
        ensures part { EndsSo (passed_over begins self.old at).0 result }
        ensures marks { self.new ≡ (passed_over begins self.old at).1 }
    {
        if begins { self.begin(at) } else { None }
    }

    /// Ends the open text. Returns its part, which goes as far as its whole characters. The first byte of a character that is cut
    /// after it is at `first`.
    fn cut_text(&mut self, alloc: Global, first: usize) -> Part
        ensures { result ≡ run_of (begun_text first (text_or first self.old.text)) }
    {
        let text = match self.text.take() {
            Some(text) => text,
            None => OpenText::new(alloc, first),
        };
        Part::Run {
            at: text.at,
            non_blank: Some(text.non_blank.unwrap_or(first)),
            text: text.said.into_text(),
        }
    }

    /// Ends the open text at the end of what is read. Returns its part. If `cut`, the first bytes of a character stand after it.
    pub fn last(&mut self, alloc: Global, cut: bool, first: usize) -> Option<Part>
        ensures { EndsSo (last_part cut first self.old) result }
    {
        if cut {
            Some(self.cut_text(alloc, first))
        } else {
            self.end_text()
        }
    }

    /// Returns the literal text that goes on after what is read. Nothing of it is said yet.
    fn rest(&self, alloc: Global, cut: bool, first: usize) -> Option<OpenText>
        ensures { result ≡ goes_on_as cut first self.now.text }
    {
        match &self.text {
            Some(text) => Some(text.rest(alloc)),
            None => {
                if cut {
                    Some(OpenText::new(alloc, first))
                } else {
                    None
                }
            }
        }
    }

    /// Returns the open literal text as far as it goes. The text stays open, and goes on after what it says so far.
    pub fn show(&mut self, alloc: Global, cut: bool, first: usize) -> Option<Part>
        ensures part { EndsSo (last_part cut first self.old) result }
        ensures marks { self.new ≡ marks self.old.begin (goes_on_as cut first self.old.text) }
    {
        let begin = self.begin;
        let text = self.rest(alloc, cut, first);
        let part = self.last(alloc, cut, first);
        drop(std::mem::replace(self, Marks { begin, text }));
        part
    }

    /// Completes what the byte at `at` ends. The first byte of its character is at `first`.
    pub fn complete(
        &mut self,
        alloc: Global,
        at: usize,
        first: usize,
        event: Event,
    ) -> Result<Option<Part>, Mem>
        ensures { MarksSo self.old at first event result self.new }
    {
        let begin = self.begin;
        match event {
            Event::Letter(c) => {
                self.letter(alloc, first, c)?;
                Ok(None)
            }
            Event::Referred(c) => Ok(Some(run(begin, text_of(alloc, c)?))),
            Event::Section(text) => Ok(Some(run(begin, lines_of(alloc, text)?))),
            Event::Comment => Ok(None),
            Event::Start(name, attrs) => Ok(Some(Part::Start {
                at: begin,
                end: at,
                name,
                attrs,
            })),
            Event::Empty(name, attrs) => {
                self.begin = at;
                Ok(Some(Part::Start {
                    at: begin,
                    end: at,
                    name,
                    attrs,
                }))
            }
            Event::Shut | Event::End => Ok(Some(Part::End { at: begin })),
        }
    }
}
