//! Escaping of texts.

ghost use Rattle.std.specs.Prelude.{◌≡◌, ◌++◌, true, MatchOption, IfOk, OnOk, OnErr, string_bytes, encode_utf8};
ghost use Rattle.cds_base.specs.Escape.{escaped, escaped_byte};

use crate::Mem;
use crate::text::runs::plain_run;
use std::alloc::Global;

/// Appends the text with `&`, `<`, `>`, `"` and `'` as entities, and tabs and line ends as character references
/// (XML 1.0). A refusal leaves `out` as it was.
pub fn escape(text: &str, out: &mut String) -> Result<(), Mem>
    ensures ok { OnOk result (string_bytes out.new ≡ string_bytes out.old ++ escaped text.now) }
    ensures err { OnErr result (string_bytes out.new ≡ string_bytes out.old) }
{
    if is_plain(text) {
        out.push_str(text)?;
    } else {
        let built = escaped_text(*out.allocator(), text)?;
        out.push_str(built.as_str())?;
    }
    Ok(())
}

/// Returns whether every character of a text stands for itself. Most texts are of this kind.
fn is_plain(text: &str) -> bool
    ensures { result ≡ true → escaped text.now ≡ text.now }
{
    plain_run(text.as_bytes()) == text.len()
}

/// Returns the text with what stands for its characters.
fn escaped_text(alloc: Global, text: &str) -> Result<String, Mem>
    ensures { IfOk result (λ built. string_bytes built ≡ escaped text.now) }
{
    let mut built = String::new(alloc);
    for c in text.chars() {
        push_escaped(&mut built, c)?;
    }
    Ok(built)
}

fn push_escaped(built: &mut String, c: char) -> Result<(), Mem>
    ensures { OnOk result (string_bytes built.new ≡ string_bytes built.old ++ escaped (encode_utf8 c)) }
{
    match replacement(c) {
        Some(text) => built.push_str(text)?,
        None => built.push(c)?,
    }
    Ok(())
}

/// Returns what stands for a character that cannot stand for itself.
fn replacement(c: char) -> Option<&'static str>
    ensures { MatchOption result (escaped (encode_utf8 c) ≡ encode_utf8 c) (λ text. text.now ≡ escaped (encode_utf8 c)) }
{
    match c {
        '&' => Some("&amp;"),
        '<' => Some("&lt;"),
        '>' => Some("&gt;"),
        '"' => Some("&quot;"),
        '\'' => Some("&apos;"),
        '\t' => Some("&#9;"),
        '\n' => Some("&#10;"),
        '\r' => Some("&#13;"),
        _ => None,
    }
}
