//! Appends pieces of XML to a text. A refusal leaves the text as it was, or with a prefix of the piece.

ghost use Rattle.std.specs.Prelude.{◌≡◌, ◌++◌, OnOk, codes, string_bytes};
ghost use Rattle.cds_object.specs.Writing.{attribute, number_attribute, text_element, number_element};

use cds_base::{Mem, escape, put, put_number};

/// Appends a space and an attribute, with a value that needs no escape.
#[tactic(auto, unfolding(crate::specs::Writing::attribute))]
pub fn put_attribute(out: &mut String, name: &str, value: &str) -> Result<(), Mem>
    ensures { OnOk result (string_bytes out.new ≡ string_bytes out.old ++ attribute name.now value.now) }
{
    put(out, " ")?;
    put(out, name)?;
    put(out, "=\"")?;
    put(out, value)?;
    put(out, "\"")?;
    Ok(())
}

/// Appends a space and an attribute with a number.
#[tactic(auto, unfolding(crate::specs::Writing::number_attribute))]
pub fn put_number_attribute(out: &mut String, name: &str, number: u64) -> Result<(), Mem>
    ensures { OnOk result (string_bytes out.new ≡ string_bytes out.old ++ number_attribute name.now number) }
{
    put(out, " ")?;
    put(out, name)?;
    put(out, "=\"")?;
    put_number(out, number)?;
    put(out, "\"")?;
    Ok(())
}

/// Appends an element without attributes around a text, which is escaped.
#[tactic(auto, unfolding(crate::specs::Writing::text_element))]
pub fn put_text_element(out: &mut String, name: &str, text: &str) -> Result<(), Mem>
    ensures { OnOk result (string_bytes out.new ≡ string_bytes out.old ++ text_element name.now text.now) }
{
    put_start(out, name)?;
    escape(text, out)?;
    put_end(out, name)?;
    Ok(())
}

/// Appends an element without attributes around a number.
#[tactic(auto, unfolding(crate::specs::Writing::number_element))]
pub fn put_number_element(out: &mut String, name: &str, number: u64) -> Result<(), Mem>
    ensures { OnOk result (string_bytes out.new ≡ string_bytes out.old ++ number_element name.now number) }
{
    put_start(out, name)?;
    put_number(out, number)?;
    put_end(out, name)?;
    Ok(())
}

/// Appends a start tag without attributes.
fn put_start(out: &mut String, name: &str) -> Result<(), Mem>
    ensures { OnOk result (string_bytes out.new ≡ string_bytes out.old ++ (codes "<" ++ name.now ++ codes ">")) }
{
    put(out, "<")?;
    put(out, name)?;
    put(out, ">")?;
    Ok(())
}

/// Appends an end tag.
fn put_end(out: &mut String, name: &str) -> Result<(), Mem>
    ensures { OnOk result (string_bytes out.new ≡ string_bytes out.old ++ (codes "</" ++ name.now ++ codes ">")) }
{
    put(out, "</")?;
    put(out, name)?;
    put(out, ">")?;
    Ok(())
}
