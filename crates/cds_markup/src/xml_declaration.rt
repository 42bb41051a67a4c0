//! How the characters of the declaration (`<?xml ..?>`) are read.

ghost use Rattle.std.specs.Prelude.{◌≡◌, ◌==◌, []};
ghost use Rattle.cds_markup.specs.declared.mode.DeclarationState.{DeclarationState};
ghost use Rattle.cds_markup.specs.Grammar.{lower_case, is_quote};
ghost use Rattle.cds_markup.specs.XmlDeclaration.{behind, closing_step, standalone_step, begin_step, part_step, name_step, value_begins, value_letter, step_declaration};
ghost use Rattle.cds_markup.specs.Steps.{Agrees, is_next_letter, stage_of, quote_in};

use crate::attribute::is_blank;
use crate::error::MachineError;
use crate::mode::{DeclarationState, Stage, WordRest};

impl Stage {
    /// Returns the part that may come next after this one.
    fn behind(self) -> Stage
        ensures { result ≡ behind self }
    {
        match self {
            Stage::Version => Stage::Encoding,
            Stage::Encoding => Stage::Standalone,
            Stage::Standalone | Stage::Closing => Stage::Closing,
        }
    }

    /// Returns whether the character is the next letter of this part's value. For the encoding either case is right.
    fn is_next_letter(self, left: &WordRest, c: char) -> bool
        ensures { result ≡ is_next_letter self left.now c }
    {
        match self {
            Stage::Encoding => left.is_next(lower_case(c)),
            _ => left.is_next(c),
        }
    }
}

/// Returns the character. An ASCII letter comes in lower case.
fn lower_case(c: char) -> char
    ensures { result ≡ lower_case c }
{
    c.to_ascii_lowercase()
}

/// Returns whether the character is a quote.
pub fn is_quote(c: char) -> bool
    ensures { result ≡ is_quote c }
{
    c == '"' || c == '\''
}

/// Takes the character after the `?` that ends the declaration.
fn question(c: char) -> Result<Option<()>, MachineError>
    ensures { (now : DeclarationState) → Agrees (step_declaration DeclarationState.Question c) result now }
{
    if c != '>' {
        return Err(MachineError::Broken);
    }
    Ok(Some(()))
}

impl DeclarationState {
    /// Goes over to this state.
    fn go_to(&mut self, declaration_state: DeclarationState)
        ensures { self.new ≡ declaration_state }
    {
        drop(std::mem::replace(self, declaration_state));
    }

    /// Takes the `?` that ends the declaration.
    fn closing(&mut self, c: char) -> Result<Option<()>, MachineError>
        ensures { Agrees (closing_step c) result self.new }
    {
        if c != '?' {
            return Err(MachineError::Broken);
        }
        self.go_to(DeclarationState::Question);
        Ok(None)
    }

    /// Takes the first letter of `standalone`, or the `?` that ends the declaration.
    fn standalone(&mut self, c: char) -> Result<Option<()>, MachineError>
        ensures { Agrees (standalone_step c) result self.new }
    {
        if c != 's' {
            return self.closing(c);
        }
        self.go_to(DeclarationState::PartName(Stage::Standalone, WordRest::of(b"tandalone")));
        Ok(None)
    }

    /// Takes the first character after white space.
    fn begin(&mut self, stage: Stage, c: char) -> Result<Option<()>, MachineError>
        ensures { Agrees (begin_step stage c) result self.new }
    {
        match stage {
            Stage::Version => {
                if c != 'v' {
                    return Err(MachineError::Broken);
                }
                self.go_to(DeclarationState::PartName(Stage::Version, WordRest::of(b"ersion")));
                Ok(None)
            }
            Stage::Encoding => {
                if c != 'e' {
                    return self.standalone(c);
                }
                self.go_to(DeclarationState::PartName(Stage::Encoding, WordRest::of(b"ncoding")));
                Ok(None)
            }
            Stage::Standalone => self.standalone(c),
            Stage::Closing => self.closing(c),
        }
    }

    /// Takes a character right after a part, or after `<?xml`.
    fn part(&mut self, stage: Stage, c: char) -> Result<Option<()>, MachineError>
        ensures { Agrees (part_step stage c) result self.new }
    {
        if is_blank(c) {
            self.go_to(DeclarationState::Gap(stage));
            return Ok(None);
        }
        match stage {
            Stage::Version => Err(MachineError::Broken),
            _ => self.closing(c),
        }
    }

    /// Takes a character after a part's name.
    fn named(&mut self, stage: Stage, c: char) -> Result<Option<()>, MachineError>
        ensures { Agrees (name_step stage [] c) result self.new }
    {
        if is_blank(c) {
            self.go_to(DeclarationState::PartName(stage, WordRest::of(b"")));
            return Ok(None);
        }
        if c != '=' {
            return Err(MachineError::Broken);
        }
        self.go_to(DeclarationState::PartEquals(stage));
        Ok(None)
    }

    /// Begins a part's value after this quote.
    fn begin_value(&mut self, stage: Stage, quote: char) -> Result<Option<()>, MachineError>
        ensures { Agrees (value_begins stage quote) result self.new }
    {
        let quote = quote as u32;
        let value = match stage {
            Stage::Version => DeclarationState::PartValue(stage, quote, WordRest::of(b"1.0")),
            Stage::Encoding => DeclarationState::PartValue(stage, quote, WordRest::of(b"utf-8")),
            Stage::Standalone => DeclarationState::YesOrNo(quote),
            Stage::Closing => return Err(MachineError::Broken),
        };
        self.go_to(value);
        Ok(None)
    }

    /// Returns the part that is being read, or that may come next.
    fn stage(&self) -> Stage
        ensures { result ≡ stage_of self.now }
    {
        match self {
            DeclarationState::Xml(_) => Stage::Version,
            DeclarationState::Gap(stage) => *stage,
            DeclarationState::PartName(stage, _) => *stage,
            DeclarationState::PartEquals(stage) => *stage,
            DeclarationState::PartValue(stage, _, _) => *stage,
            DeclarationState::YesOrNo(_) => Stage::Standalone,
            DeclarationState::BehindPart(stage) => *stage,
            DeclarationState::Question => Stage::Closing,
        }
    }

    /// Returns the quote around the part's value, 0 if none is kept.
    fn quote(&self) -> u32
        ensures { result ≡ quote_in self.now }
    {
        match self {
            DeclarationState::PartValue(_, quote, _) => *quote,
            _ => 0,
        }
    }

    /// Takes the quote that ends a part's value.
    fn end_value(&mut self, stage: Stage, quote: u32, c: char) -> Result<Option<()>, MachineError>
        ensures { Agrees (value_letter stage quote [] c) result self.new }
    {
        if c as u32 != quote {
            return Err(MachineError::Broken);
        }
        self.go_to(DeclarationState::BehindPart(stage.behind()));
        Ok(None)
    }

    /// Takes the first letter of `yes` or `no`, which says whether the document stands alone.
    fn yes_or_no(&mut self, quote: u32, c: char) -> Result<Option<()>, MachineError>
        ensures { Agrees (step_declaration (DeclarationState.YesOrNo quote) c) result self.new }
    {
        let left = match c {
            'y' => WordRest::of(b"es"),
            'n' => WordRest::of(b"o"),
            _ => return Err(MachineError::Broken),
        };
        self.go_to(DeclarationState::PartValue(Stage::Standalone, quote, left));
        Ok(None)
    }

    /// Takes white space, or the first character after it.
    fn gap(&mut self, stage: Stage, c: char) -> Result<Option<()>, MachineError>
        ensures { Agrees (step_declaration (DeclarationState.Gap stage) c) result self.new }
    {
        if !is_blank(c) {
            return self.begin(stage, c);
        }
        self.go_to(DeclarationState::Gap(stage));
        Ok(None)
    }

    /// Takes white space after a part's equals sign, or the quote before its value.
    fn equals(&mut self, stage: Stage, c: char) -> Result<Option<()>, MachineError>
        ensures { Agrees (step_declaration (DeclarationState.PartEquals stage) c) result self.new }
    {
        if is_blank(c) {
            self.go_to(DeclarationState::PartEquals(stage));
            return Ok(None);
        }
        if !is_quote(c) {
            return Err(MachineError::Broken);
        }
        self.begin_value(stage, c)
    }

    /// Takes one character. Returns `()` at the `>` that ends the declaration.
    pub fn step(&mut self, c: char) -> Result<Option<()>, MachineError>
        ensures { Agrees (step_declaration self.old c) result self.new }
    {
        let stage = self.stage();
        match self {
            DeclarationState::Xml(left) => {
                if left.is_over() {
                    return self.part(stage, c);
                }
                left.step(c)
            }
            DeclarationState::Gap(_) => self.gap(stage, c),
            DeclarationState::PartName(_, left) => {
                if left.is_over() {
                    return self.named(stage, c);
                }
                left.step(c)
            }
            DeclarationState::PartEquals(_) => self.equals(stage, c),
            DeclarationState::PartValue(_, _, left) => {
                if left.is_over() {
                    let quote = self.quote();
                    return self.end_value(stage, quote, c);
                }
                if !stage.is_next_letter(left, c) {
                    return Err(MachineError::Broken);
                }
                left.advance();
                Ok(None)
            }
            DeclarationState::YesOrNo(quote) => {
                let quote = *quote;
                self.yes_or_no(quote, c)
            }
            DeclarationState::BehindPart(_) => self.part(stage, c),
            DeclarationState::Question => question(c),
        }
    }
}
