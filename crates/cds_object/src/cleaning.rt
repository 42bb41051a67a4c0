//! Cleans the texts that objects are shown with.

ghost use Rattle.std.specs.Prelude.{◌≡◌, IfOk, string_bytes};
ghost use Rattle.cds_object.specs.Clean.{clean_character, cleaned};

use cds_base::{Mem, is_allowed};
use std::alloc::Global;

/// The most bytes of a text that an object is shown with.
const LONGEST: usize = 255;

/// Returns the text on one line. Each tab, line feed and carriage return becomes a space. Each other character that no
/// document may have (XML 1.0 on characters) becomes U+FFFD. After that, the longest prefix of whole characters stays
/// that has at most 255 bytes.
pub fn clean(alloc: Global, text: &str) -> Result<String, Mem>
    ensures { IfOk result (λ kept. string_bytes kept ≡ cleaned text.now) }
{
    let mut kept = String::new(alloc);
    for c in text.chars() {
        let c = clean_character(c);
        if kept.len() + c.len_utf8() > LONGEST {
            return Ok(kept);
        }
        kept.push(c)?;
    }
    Ok(kept)
}

/// Returns the character that stands for this one.
fn clean_character(c: char) -> char
    ensures { result ≡ clean_character c }
{
    match c {
        '\t' | '\n' | '\r' => ' ',
        _ if is_allowed(c) => c,
        _ => '\u{fffd}',
    }
}
