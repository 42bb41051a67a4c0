//! The ends of comments and of CDATA sections.

ghost use Rattle.std.specs.Prelude.{◌≡◌};
ghost use Rattle.cds_markup.specs.Delimiters.{step_comment, brackets_with, closes_section};
ghost use Rattle.cds_markup.specs.Steps.{Agrees};

use crate::error::MachineError;

/// Takes one character of a comment, after `dashes` dashes of those that count.
pub fn comment_step(dashes: &mut u32, c: char) -> Result<Option<()>, MachineError>
    ensures { Agrees (step_comment dashes.old c) result dashes.new }
{
    let before = *dashes;
    if before < 2 {
        *dashes = if c == '-' { before + 1 } else { 0 };
        return Ok(None);
    }
    if c == '>' {
        return Ok(Some(()));
    }
    if c == '-' && before < 3 {
        *dashes = before + 1;
        return Ok(None);
    }
    Err(MachineError::Broken)
}

/// Counts the closing brackets right before, as far as they matter, with this character.
pub fn brackets_with(brackets: u32, c: char) -> u32
    ensures { result ≡ brackets_with brackets c }
{
    if c != ']' {
        return 0;
    }
    if brackets == 0 { 1 } else { 2 }
}

/// Returns whether the character ends a section. In a literal text it may not.
pub fn closes_section(brackets: u32, c: char) -> bool
    ensures { result ≡ closes_section brackets c }
{
    c == '>' && brackets == 2
}
