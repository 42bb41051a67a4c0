//! How the characters inside the root are read.

ghost use Rattle.std.specs.Prelude.{◌≡◌, ◌==◌, true, List, [], ◌∷◌, Some};
ghost use Rattle.cds_markup.specs.declared.tag.Open.{Open};
ghost use Rattle.cds_markup.specs.Root.{given, content_step, tag_given, less_step, bang_step, section_step, end_blanks_step, end_step, step_root};
ghost use Rattle.cds_markup.specs.Delimiters.{step_section};
ghost use Rattle.cds_markup.specs.Steps.{Agrees, RootSo, opens_after, is_start_tag, is_seldom};

use crate::attribute::is_blank;
use crate::delimiters::{brackets_with, closes_section, comment_step};
use crate::end_tag::{is_over, name_has};
use crate::error::MachineError;
use crate::letters::Letters;
use crate::mode::{ReferenceState, RootState, StartTagState, WordRest};
use crate::tag::{Open, Tag};
use crate::token::Token;
use std::alloc::Global;

/// Takes one character of a section, after this many closing brackets of those that count and this text. Returns the text at the
/// end.
fn section_step(
    brackets: &mut u32,
    text: &mut Letters,
    alloc: Global,
    c: char,
) -> Result<Option<Letters>, MachineError>
    ensures { Agrees (step_section brackets.old text.old c) result (brackets.new, text.new) }
{
    if !closes_section(*brackets, c) {
        text.push(c)?;
        *brackets = brackets_with(*brackets, c);
        return Ok(None);
    }
    let mut said = std::mem::replace(text, Letters::new(alloc));
    said.without_brackets();
    Ok(Some(said))
}

impl RootState {
    /// Returns whether the state surely holds no text.
    fn is_bare(&self) -> bool {
        matches!(
            self,
            RootState::Content(_) | RootState::Less | RootState::Slashed | RootState::EndTag(_)
        )
    }

    /// Goes over to this state. One that holds no text is written over, which is faster than taking it out.
    pub fn go_to(&mut self, root_state: RootState)
        ensures { self.new ≡ root_state }
    {
        if self.is_bare() {
            *self = root_state;
        } else {
            drop(std::mem::replace(self, root_state));
        }
    }

    /// Takes a literal character, or what begins at it.
    #[inline(never)]
    fn content(&mut self, brackets: u32, c: char) -> Result<Option<Token>, MachineError>
        ensures { (opens : List Open) → RootSo opens (content_step brackets opens c) result self.new }
    {
        if c == '<' {
            self.go_to(RootState::Less);
            return Ok(None);
        }
        if c == '&' {
            self.go_to(RootState::Reference(ReferenceState::Ampersand));
            return Ok(None);
        }
        if closes_section(brackets, c) {
            return Err(MachineError::Broken);
        }
        self.go_to(RootState::Content(brackets_with(brackets, c)));
        Ok(Some(Token::Letter(c)))
    }

    /// Ends a start tag with this character.
    #[inline(never)]
    fn end_start(&mut self, tag: Tag, end: char) -> Token
        ensures { (opens : List Open) → tag_given opens (tag, end) ≡ given result (opens_after result opens) self.new }
    {
        if end == '>' {
            self.go_to(RootState::Content(0));
            return Token::Started(tag);
        }
        self.go_to(RootState::Slashed);
        Token::Slash(tag)
    }

    /// Takes the character after a `<`.
    #[inline(never)]
    fn less(
        &mut self,
        alloc: Global,
        opens: &[Open],
        c: char,
    ) -> Result<Option<Token>, MachineError>
        ensures { RootSo opens.now (less_step opens.now c) result self.new }
    {
        if c == '/' {
            if opens.is_empty() {
                return Err(MachineError::Broken);
            }
            self.go_to(RootState::EndTag(0));
            return Ok(None);
        }
        if c == '!' {
            self.go_to(RootState::Bang);
            return Ok(None);
        }
        self.go_to(RootState::StartTag(StartTagState::begin(alloc, c)?));
        Ok(None)
    }

    /// Takes the character after a `<!`.
    #[inline(never)]
    fn bang(&mut self, c: char) -> Result<Option<Token>, MachineError>
        ensures { (opens : List Open) → RootSo opens (bang_step c) result self.new }
    {
        match c {
            '-' => self.go_to(RootState::Dash),
            '[' => self.go_to(RootState::Cdata(WordRest::of(b"CDATA["))),
            _ => return Err(MachineError::Broken),
        }
        Ok(None)
    }

    /// Takes the first character of a section.
    #[inline(never)]
    fn begin_section(&mut self, alloc: Global, c: char) -> Result<Option<Token>, MachineError>
        ensures { (opens : List Open) → RootSo opens (section_step 0 [] opens c) result self.new }
    {
        let mut text = Letters::new(alloc);
        text.push(c)?;
        self.go_to(RootState::Section(brackets_with(0, c), text));
        Ok(None)
    }

    /// Takes a character after the name in an end tag.
    fn end_blanks(&mut self, n: usize, c: char) -> Result<Option<Token>, MachineError>
        ensures { (innermost : Open) (outer : List Open) → RootSo (innermost ∷ outer) (end_blanks_step n outer c) result self.new }
    {
        if is_blank(c) {
            self.go_to(RootState::EndTag(n));
            return Ok(None);
        }
        if c == '>' {
            self.go_to(RootState::Content(0));
            return Ok(Some(Token::Ended));
        }
        Err(MachineError::Broken)
    }

    /// Takes a character of an end tag, after `n` bytes of the innermost element's name.
    #[tactic(auto, using(crate::proofs::Decoded::end_over, crate::proofs::Decoded::end_goes, crate::proofs::Decoded::end_stuck))]
    #[inline(never)]
    fn end(&mut self, opens: &[Open], n: usize, c: char) -> Result<Option<Token>, MachineError>
        ensures { RootSo opens.now (end_step n opens.now c) result self.new }
    {
        let Some(innermost) = opens.first() else {
            return Err(MachineError::Broken);
        };
        if is_over(&innermost.name, n) {
            return self.end_blanks(n, c);
        }
        match name_has(&innermost.name, n, c) {
            Some(behind) => {
                self.go_to(RootState::EndTag(behind));
                Ok(None)
            }
            None => Err(MachineError::Broken),
        }
    }

    /// Takes the second dash that opens a comment.
    fn dash(&mut self, c: char) -> Result<Option<Token>, MachineError>
        ensures { (opens : List Open) → RootSo opens (step_root RootState.Dash opens c) result self.new }
    {
        if c != '-' {
            return Err(MachineError::Broken);
        }
        self.go_to(RootState::Comment(0));
        Ok(None)
    }

    /// Takes the character after the `/` of an empty element's tag.
    #[inline(never)]
    fn slashed(&mut self, c: char) -> Result<Option<Token>, MachineError>
        ensures { (opens : List Open) → RootSo opens (step_root RootState.Slashed opens c) result self.new }
    {
        if c != '>' {
            return Err(MachineError::Broken);
        }
        self.go_to(RootState::Content(0));
        Ok(Some(Token::Shut))
    }

    /// Goes back between tags, after this token.
    fn close(&mut self, token: Token) -> Option<Token>
        ensures token { result ≡ Some token }
        ensures content { self.new ≡ RootState.Content 0 }
    {
        self.go_to(RootState::Content(0));
        Some(token)
    }

    /// Takes one character of a start tag.
    #[inline(never)]
    #[tactic(auto, using(crate::proofs::Decoded::root_err, crate::proofs::Decoded::root_on, crate::proofs::Decoded::root_done))]
    fn start_tag(&mut self, alloc: Global, c: char) -> Result<Option<Token>, MachineError>
        requires { is_start_tag self.old ≡ true }
        ensures { (opens : List Open) → RootSo opens (step_root self.old opens c) result self.new }
    {
        match self {
            RootState::StartTag(start_tag_state) => {
                let Some((tag, end)) = start_tag_state.step(alloc, c)? else {
                    return Ok(None);
                };
                Ok(Some(self.end_start(tag, end)))
            }
            _ => unreachable!(),
        }
    }

    /// Takes one character of a comment, a section or a reference.
    #[inline(never)]
    #[tactic(auto, using(crate::proofs::Decoded::root_err, crate::proofs::Decoded::root_on, crate::proofs::Decoded::root_done))]
    fn seldom(&mut self, alloc: Global, c: char) -> Result<Option<Token>, MachineError>
        requires { is_seldom self.old ≡ true }
        ensures { (opens : List Open) → RootSo opens (step_root self.old opens c) result self.new }
    {
        match self {
            RootState::Bang => self.bang(c),
            RootState::Dash => self.dash(c),
            RootState::Comment(dashes) => {
                if comment_step(dashes, c)?.is_none() {
                    return Ok(None);
                }
                Ok(self.close(Token::Commented))
            }
            RootState::Cdata(left) => {
                if left.is_over() {
                    return self.begin_section(alloc, c);
                }
                left.step(c)
            }
            RootState::Section(brackets, text) => {
                let Some(said) = section_step(brackets, text, alloc, c)? else {
                    return Ok(None);
                };
                Ok(self.close(Token::SectionOf(said)))
            }
            RootState::Reference(reference) => {
                let Some(code) = reference.step(c)? else {
                    return Ok(None);
                };
                Ok(self.close(Token::Referred(code)))
            }
            _ => unreachable!(),
        }
    }

    /// Takes one character, if these elements are open. States that are seldom open have functions of their own, since a function
    /// clears all the memory that it may hold each time it is called.
    pub fn step(
        &mut self,
        alloc: Global,
        opens: &[Open],
        c: char,
    ) -> Result<Option<Token>, MachineError>
        ensures { RootSo opens.now (step_root self.old opens.now c) result self.new }
    {
        match self {
            RootState::Content(brackets) => {
                let brackets = *brackets;
                self.content(brackets, c)
            }
            RootState::Less => self.less(alloc, opens, c),
            RootState::StartTag(_) => self.start_tag(alloc, c),
            RootState::Slashed => self.slashed(c),
            RootState::EndTag(n) => {
                let n = *n;
                self.end(opens, n, c)
            }
            _ => self.seldom(alloc, c),
        }
    }
}
