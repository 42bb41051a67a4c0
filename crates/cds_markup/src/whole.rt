//! How the characters outside the root are read, and how a document changes from one section to the next.

ghost use Rattle.std.specs.Prelude.{◌≡◌, ◌==◌, true, false, List};
ghost use Rattle.cds_markup.specs.declared.tag.Open.{Open};
ghost use Rattle.cds_markup.specs.Wholes.{misc_step, is_content, root_move, prolog_move, marked_move, step};
ghost use Rattle.cds_markup.specs.Steps.{Agrees, MovesSo, is_last, is_outside};

use crate::attribute::is_blank;
use crate::delimiters::comment_step;
use crate::error::MachineError;
use crate::mode::{DeclarationState, Misc, Mode, RootState, StartTagState, WordRest};
use crate::tag::Open;
use crate::token::Token;
use std::alloc::Global;

impl Misc {
    /// Goes over to this state.
    fn go_to(&mut self, misc: Misc)
        ensures { self.new ≡ misc }
    {
        drop(std::mem::replace(self, misc));
    }

    /// Takes one character. Returns `()` if a `<` came before it and no comment begins. Then the character belongs to what
    /// follows.
    pub fn step(&mut self, c: char) -> Result<Option<()>, MachineError>
        ensures { Agrees (misc_step self.old c) result self.new }
    {
        match self {
            Misc::Blanks => {
                if is_blank(c) {
                    return Ok(None);
                }
                if c != '<' {
                    return Err(MachineError::Broken);
                }
                self.go_to(Misc::MiscLess);
            }
            Misc::MiscLess => {
                if c != '!' {
                    return Ok(Some(()));
                }
                self.go_to(Misc::MiscBang);
            }
            Misc::MiscBang => {
                if c != '-' {
                    return Err(MachineError::Broken);
                }
                self.go_to(Misc::MiscDash);
            }
            Misc::MiscDash => {
                if c != '-' {
                    return Err(MachineError::Broken);
                }
                self.go_to(Misc::MiscComment(0));
            }
            Misc::MiscComment(dashes) => {
                if comment_step(dashes, c)?.is_some() {
                    self.go_to(Misc::Blanks);
                }
            }
        }
        Ok(None)
    }
}

impl RootState {
    /// Returns whether the state is between tags.
    fn is_content(&self) -> bool
        ensures { result ≡ is_content self.now }
    {
        matches!(self, RootState::Content(_))
    }
}

/// Returns whether no element is open after what a character completed. `opens` were open before it.
fn is_last(said: &Result<Option<Token>, MachineError>, opens: &[Open]) -> bool
    ensures { result ≡ is_last said.now opens.now }
{
    match said {
        Ok(Some(Token::Started(_))) => false,
        Ok(Some(Token::Ended)) => opens.len() < 2,
        Ok(Some(_)) => opens.is_empty(),
        _ => false,
    }
}

impl Mode {
    /// Goes over to the state after the root.
    #[inline(never)]
    fn leave(&mut self)
        ensures { self.new ≡ Mode.Epilog Misc.Blanks }
    {
        self.go_to(Mode::Epilog(Misc::Blanks));
    }

    /// Goes over to a `<` inside the root.
    pub fn begin_less(&mut self)
        ensures { self.new ≡ Mode.Inside RootState.Less }
    {
        match self {
            Mode::Inside(root_state) => root_state.go_to(RootState::Less),
            _ => self.go_to(Mode::Inside(RootState::Less)),
        }
    }

    /// Takes the first character of the root's name.
    #[inline(never)]
    fn root(&mut self, alloc: Global, c: char) -> Result<Option<Token>, MachineError>
        ensures { (opens : List Open) → MovesSo opens (root_move opens c) result self.new }
    {
        let start_tag_state = StartTagState::begin(alloc, c)?;
        self.go_to(Mode::Inside(RootState::StartTag(start_tag_state)));
        Ok(None)
    }

    /// Takes a character of white space or comments before the root, or the first character of the root's name.
    #[inline(never)]
    fn prolog(&mut self, alloc: Global, misc: Misc, c: char) -> Result<Option<Token>, MachineError>
        ensures { (opens : List Open) → MovesSo opens (prolog_move opens (misc_step misc c) c) result self.new }
    {
        let mut misc = misc;
        if misc.step(c)?.is_some() {
            return self.root(alloc, c);
        }
        self.go_to(Mode::Prolog(misc));
        Ok(None)
    }

    /// Takes the character after a byte order mark, or the first one if no mark came.
    #[inline(never)]
    fn marked(&mut self, alloc: Global, c: char) -> Result<Option<Token>, MachineError>
        ensures { (opens : List Open) → MovesSo opens (marked_move opens c) result self.new }
    {
        if c == '<' {
            self.go_to(Mode::First);
            return Ok(None);
        }
        self.prolog(alloc, Misc::Blanks, c)
    }

    /// Goes over to this state.
    fn go_to(&mut self, mode: Mode)
        ensures { self.new ≡ mode }
    {
        drop(std::mem::replace(self, mode));
    }

    /// Takes one character outside the root.
    #[inline(never)]
    fn outside(&mut self, alloc: Global, c: char) -> Result<Option<Token>, MachineError>
        requires { is_outside self.old ≡ true }
        ensures { (opens : List Open) → MovesSo opens (step self.old opens c) result self.new }
    {
        match self {
            Mode::Begin => {
                if c != '\u{feff}' {
                    return self.marked(alloc, c);
                }
                self.go_to(Mode::Marked);
                Ok(None)
            }
            Mode::Marked => self.marked(alloc, c),
            Mode::First => {
                if c != '?' {
                    return self.prolog(alloc, Misc::MiscLess, c);
                }
                self.go_to(Mode::Declaration(DeclarationState::Xml(WordRest::of(b"xml"))));
                Ok(None)
            }
            Mode::Declaration(declaration_state) => {
                if declaration_state.step(c)?.is_none() {
                    return Ok(None);
                }
                self.go_to(Mode::Prolog(Misc::Blanks));
                Ok(None)
            }
            Mode::Prolog(misc) => {
                if misc.step(c)?.is_some() {
                    return self.root(alloc, c);
                }
                Ok(None)
            }
            Mode::Inside(_) => unreachable!(),
            Mode::Epilog(misc) => {
                if misc.step(c)?.is_some() {
                    return Err(MachineError::Broken);
                }
                Ok(None)
            }
        }
    }

    /// Takes one character, if these elements are open.
    #[tactic(auto, using(crate::proofs::Decoded::inside_over, crate::proofs::Decoded::inside_on))]
    pub fn step(
        &mut self,
        alloc: Global,
        opens: &[Open],
        c: char,
    ) -> Result<Option<Token>, MachineError>
        ensures { MovesSo opens.now (step self.old opens.now c) result self.new }
    {
        match self {
            Mode::Inside(root_state) => {
                let said = root_state.step(alloc, opens, c);
                if root_state.is_content() && is_last(&said, opens) {
                    self.leave();
                }
                said
            }
            _ => self.outside(alloc, c),
        }
    }
}
