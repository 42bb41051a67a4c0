//! The one written form of an element (XML 1.0, Namespaces in XML).

ghost use Rattle.std.specs.Prelude.{◌≡◌, ◌+◌, ◌<◌, ◌++◌, ◌^◌, codes, IfOk, OnOk, OnErr, string_bytes};
ghost use Rattle.cds_markup.specs.Grammar.{written_name};
ghost use Rattle.cds_markup.specs.Document.{Doc};
ghost use Rattle.cds_markup.specs.Written.{attr_text, own_text, with_prefix, with_name, counted, tag_attrs, default_declared, tag_of, written_attrs, written_start, written_in, written, CanBeWritten};

use crate::scope::XML_SPACE;
use crate::{Attr, Element, Name, Node};
use cds_base::{Mem, escape, put, put_number};

/// Puts a qualified name, whose prefix may be empty.
#[tactic(auto, using(crate::proofs::Decoded::name_alone, crate::proofs::Decoded::name_prefixed))]
fn put_name(out: &mut String, prefix: &str, local: &str) -> Result<(), Mem>
    ensures { OnOk result (string_bytes out.new ≡ string_bytes out.old ++ written_name prefix.now local.now) }
{
    if prefix.len() == 0 {
        put(out, local)?;
        return Ok(());
    }
    put(out, prefix)?;
    put(out, ":")?;
    put(out, local)?;
    Ok(())
}

/// Puts a space and an attribute.
fn put_attr(out: &mut String, prefix: &str, local: &str, value: &str) -> Result<(), Mem>
    ensures { OnOk result (string_bytes out.new ≡ string_bytes out.old ++ attr_text prefix.now local.now value.now) }
{
    put(out, " ")?;
    put_name(out, prefix, local)?;
    put(out, "=\"")?;
    escape(value, out)?;
    put(out, "\"")?;
    Ok(())
}

/// Puts the declaration of an element's namespace, if it differs from that around the element.
fn put_default(out: &mut String, around: &str, space: &str) -> Result<(), Mem>
    ensures { OnOk result (string_bytes out.new ≡ string_bytes out.old ++ written_attrs (default_declared around.now space.now)) }
{
    if around != space {
        put_attr(out, "", "xmlns", space)?;
    }
    Ok(())
}

/// Puts the declaration of an attribute's own prefix and the attribute.
fn put_own(out: &mut String, number: u64, attr: &Attr) -> Result<(), Mem>
    ensures { OnOk result (string_bytes out.new ≡ string_bytes out.old ++ own_text number attr.now) }
{
    let mut prefix = String::new(*out.allocator());
    put(&mut prefix, "a")?;
    put_number(&mut prefix, number)?;
    put_attr(out, "xmlns", prefix.as_str(), attr.name.space.as_str())?;
    put_attr(
        out,
        prefix.as_str(),
        attr.name.local.as_str(),
        attr.value.as_str(),
    )?;
    Ok(())
}

/// Puts an attribute that has a namespace, with its number among the attributes that have one.
fn put_prefixed(out: &mut String, number: u64, attr: &Attr) -> Result<(), Mem>
    ensures { OnOk result (string_bytes out.new ≡ string_bytes out.old ++ written_attrs (with_prefix number attr.now)) }
{
    if attr.name.space.as_str() == XML_SPACE {
        put_attr(out, "xml", attr.name.local.as_str(), attr.value.as_str())?;
    } else {
        put_own(out, number, attr)?;
    }
    Ok(())
}

/// Puts an attribute, before which `before` attributes have a namespace. Returns how many have one with it.
fn put_next(out: &mut String, before: u64, attr: &Attr) -> Result<u64, Mem>
    requires { before + 1 < 2 ^ 64 }
    ensures next { IfOk result (λ next. next ≡ counted before attr.now) }
    ensures puts { OnOk result (string_bytes out.new ≡ string_bytes out.old ++ written_attrs (with_name before attr.now)) }
{
    if attr.name.space.len() == 0 {
        put_attr(out, "", attr.name.local.as_str(), attr.value.as_str())?;
        return Ok(before);
    }
    put_prefixed(out, before + 1, attr)?;
    Ok(before + 1)
}

/// Puts the attributes of an element.
#[tactic(auto, using(crate::proofs::Decoded::attr_more, crate::proofs::Decoded::counted_most))]
fn put_attrs(out: &mut String, attrs: &[Attr]) -> Result<(), Mem>
    ensures { OnOk result (string_bytes out.new ≡ string_bytes out.old ++ written_attrs (tag_attrs 0 attrs.now)) }
{
    let mut before = 0;
    for attr in attrs {
        before = put_next(out, before, attr)?;
    }
    Ok(())
}

/// Puts a start tag.
#[tactic(auto, using(crate::proofs::Decoded::written_more))]
fn put_start(out: &mut String, around: &str, name: &Name, attrs: &[Attr]) -> Result<(), Mem>
    ensures { OnOk result (string_bytes out.new ≡ string_bytes out.old ++ written_start (tag_of around.now name.now attrs.now)) }
{
    put(out, "<")?;
    put(out, name.local.as_str())?;
    put_default(out, around, name.space.as_str())?;
    put_attrs(out, attrs)?;
    put(out, ">")?;
    Ok(())
}

/// Puts an end tag.
fn put_end(out: &mut String, local: &str) -> Result<(), Mem>
    ensures { OnOk result (string_bytes out.new ≡ string_bytes out.old ++ (codes "</" ++ (local.now ++ codes ">"))) }
{
    put(out, "</")?;
    put(out, local)?;
    put(out, ">")?;
    Ok(())
}

/// Puts an element inside one of this namespace. The recursion is as deep as elements are open.
fn put_element(element: &Element, around: &str, out: &mut String) -> Result<(), Mem>
    ensures { OnOk result (string_bytes out.new ≡ string_bytes out.old ++ written_in around.now element.now) }
{
    let space = element.name.space.as_str();
    put_start(out, around, &element.name, element.attrs.as_slice())?;
    let nodes = element.children.as_slice();
    for node in nodes {
        match node {
            Node::Text(text) => escape(text.as_str(), out)?,
            Node::Child(child) => put_element(child, space, out)?,
        }
    }
    put_end(out, element.name.local.as_str())?;
    Ok(())
}

/// Appends the one written form of an element. It calls itself as deep as elements are open in the element. If the element can be
/// written, these bytes are a document that means it. It can be written if all of this holds:
///
/// - Names are names, and all characters are allowed.
/// - No text is empty or stands beside another.
/// - No attribute comes twice, and none without a namespace is called `xmlns`.
/// - At most 16 elements are open, and there are at most 67,108,864 bytes.
///
/// A refusal leaves `out` as it was.
pub fn write_document(element: &Element, out: &mut Vec<u8>) -> Result<(), Mem>
    ensures ok { OnOk result (out.new.items ≡ out.old.items ++ written element.now) }
    ensures err { OnErr result (out.new.items ≡ out.old.items) }
    ensures read_back { CanBeWritten element.now → Doc (written element.now) element.now }
{
    let mut text = String::new(*out.allocator());
    put_element(element, "", &mut text)?;
    out.extend_from_slice(text.as_bytes())?;
    Ok(())
}
