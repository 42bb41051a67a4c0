//! Finds arguments and results by their names.

ghost use Rattle.std.specs.Prelude.{◌≡◌, ◌≤◌, ◌^◌, ◌++◌, IfOk, OnOk, length};
ghost use Rattle.std.specs.List.{prefix_len, suffix_len};
ghost use Rattle.cds_markup.specs.Children.{text_in, texts_in};
ghost use Rattle.cds_soap.specs.Given.{is_space, trimmed, text_given, number_in, number_given};

use cds_base::{Bytes, Mem, Text, read_u32};
use cds_markup::{Element, Node};
use std::alloc::Global;

/// Returns whether a byte is white space of XML 1.0.
fn is_space(byte: u8) -> bool
    ensures { result ≡ is_space byte }
{
    byte == b' ' || byte == b'\t' || byte == b'\n' || byte == b'\r'
}

/// Returns the number of bytes of white space at the start.
fn spaces_before(text: &[u8]) -> usize
    ensures exact { result ≡ prefix_len is_space text.now }
    ensures within { result ≤ length text.now }
{
    text.iter().take_while(|byte| is_space(**byte)).count()
}

/// Returns the number of bytes of white space at the end.
fn spaces_behind(text: &[u8]) -> usize
    ensures exact { result ≡ suffix_len is_space text.now }
    ensures within { result ≤ length text.now }
{
    text.iter()
        .rev()
        .take_while(|byte| is_space(**byte))
        .count()
}

/// Returns the text without the white space before and after it.
fn trimmed(text: &[u8]) -> &[u8]
    ensures { result.now ≡ trimmed text.now }
{
    let rest = text.split_at(spaces_before(text)).1;
    rest.split_at(rest.len() - spaces_behind(rest)).0
}

/// Returns the number of 32 bits that a text is, with white space around it allowed.
pub fn number_in(text: &str) -> Option<u32>
    ensures { result ≡ number_in (2 ^ 32) text.now }
{
    read_u32(trimmed(text.as_bytes()))
}

/// Returns the text of the child element with this name, which must come once.
pub fn text_given(alloc: Global, element: &Element, local: &str) -> Result<Option<Text>, Mem>
    ensures { IfOk result (λ text. text ≡ text_given local.now element.now) }
{
    match element.only_child_called(local) {
        Some(child) => Ok(Some(child.own_text(alloc)?)),
        None => Ok(None),
    }
}

/// Returns the number of the child element with this name, which must come once.
pub fn number_given(alloc: Global, element: &Element, local: &str) -> Result<Option<u32>, Mem>
    ensures { IfOk result (λ number. number ≡ number_given local.now element.now) }
{
    match text_given(alloc, element, local)? {
        Some(text) => Ok(number_in(text.as_str())),
        None => Ok(None),
    }
}

/// Appends the text that a node is, or nothing for an element.
fn put_text(bytes: &mut Bytes, node: &Node) -> Result<(), Mem>
    ensures { OnOk result (bytes.new ≡ bytes.old ++ text_in node.now) }
{
    match node {
        Node::Text(text) => bytes.extend(text.as_str().as_bytes()),
        Node::Child(_) => Ok(()),
    }
}

/// Returns the texts among nodes as one, in bytes.
fn texts_in(alloc: Global, nodes: &[Node]) -> Result<Bytes, Mem>
    ensures { IfOk result (λ bytes. bytes ≡ texts_in nodes.now) }
{
    let mut bytes = Bytes::new(alloc);
    for node in nodes {
        put_text(&mut bytes, node)?;
    }
    Ok(bytes)
}

/// Returns the bytes of the child element with this name, which must come once.
pub fn bytes_given(alloc: Global, element: &Element, local: &str) -> Result<Option<Bytes>, Mem>
    ensures { IfOk result (λ bytes. bytes ≡ text_given local.now element.now) }
{
    match element.only_child_called(local) {
        Some(child) => Ok(Some(texts_in(alloc, child.children.as_slice())?)),
        None => Ok(None),
    }
}
