//! The characters that a document may have.

ghost use Rattle.std.specs.Prelude.{◌≡◌};
ghost use Rattle.cds_base.specs.Characters.{is_allowed};

/// Returns whether a document may have the character (XML 1.0 on characters).
pub fn is_allowed(c: char) -> bool
    ensures { result ≡ is_allowed c }
{
    matches!(c, '\t' | '\n' | '\r' | ' '..='\u{d7ff}' | '\u{e000}'..='\u{fffd}' | '\u{10000}'..='\u{10ffff}')
}
