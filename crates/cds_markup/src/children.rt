//! What formats that are made of documents look for in an element.

ghost use Rattle.std.specs.Prelude.{◌≡◌, IfOk, find, option_copied};
ghost use Rattle.cds_markup.specs.Children.{nodes_in, attrs_of, text_in, texts_in, is_named, is_called, named, called, is_any, only_of, is_plain, plain_value, element_in, named_in, called_in};

use crate::{Attr, Element, Node};
use cds_base::{Mem, Text};
use std::alloc::Global;

impl Element {
    /// Returns whether it has this name in this namespace.
    pub fn is_named(&self, space: &str, local: &str) -> bool
        ensures { result ≡ is_named space.now local.now self.now }
    {
        self.name.local.as_str() == local && self.name.space.as_str() == space
    }

    /// Returns whether it has this local name, in any namespace or none.
    pub fn is_called(&self, local: &str) -> bool
        ensures { result ≡ is_called local.now self.now }
    {
        self.name.local.as_str() == local
    }

    /// Returns whether it has a child element of this name in this namespace.
    pub fn has_child(&self, space: &str, local: &str) -> bool
        ensures { result ≡ is_any (named space.now local.now (nodes_in self.now)) }
    {
        has_named(self.children.as_slice(), space, local)
    }

    /// Returns the child element of this name in this namespace. Returns `None` if there is none or more than one.
    pub fn only_child(&self, space: &str, local: &str) -> Option<&Element>
        ensures { option_copied result ≡ only_of (named space.now local.now (nodes_in self.now)) }
    {
        only_named(self.children.as_slice(), space, local)
    }

    /// Returns whether it has a child element of this local name, in any namespace or none.
    pub fn has_child_called(&self, local: &str) -> bool
        ensures { result ≡ is_any (called local.now (nodes_in self.now)) }
    {
        has_called(self.children.as_slice(), local)
    }

    /// Returns the child element of this local name, in any namespace or none. Returns `None` if there is none or more than one.
    pub fn only_child_called(&self, local: &str) -> Option<&Element>
        ensures { option_copied result ≡ only_of (called local.now (nodes_in self.now)) }
    {
        only_called(self.children.as_slice(), local)
    }

    /// Returns the text that stands in it, without the text of its child elements.
    pub fn own_text(&self, alloc: Global) -> Result<Text, Mem>
        ensures { IfOk result (λ text. text ≡ texts_in (nodes_in self.now)) }
    {
        texts_in(alloc, self.children.as_slice())
    }

    /// Returns the value of its attribute of this name that is in no namespace.
    pub fn plain_attr(&self, local: &str) -> Option<&Text>
        ensures { option_copied result ≡ plain_value local.now (attrs_of self.now) }
    {
        match plain(self.attrs.as_slice(), local) {
            Some(attr) => Some(&attr.value),
            None => None,
        }
    }
}

/// Returns the node as an element, if it is one.
fn element_in(node: &Node) -> Option<&Element>
    ensures { option_copied result ≡ element_in node.now }
{
    match node {
        Node::Text(_) => None,
        Node::Child(element) => Some(element),
    }
}

/// Returns the node as an element, if it is one of this name in this namespace.
fn named_in<'a>(node: &'a Node, space: &str, local: &str) -> Option<&'a Element>
    ensures { option_copied result ≡ named_in space.now local.now node.now }
{
    match element_in(node) {
        Some(element) if element.is_named(space, local) => Some(element),
        _ => None,
    }
}

/// Returns the node as an element, if it is one of this local name.
fn called_in<'a>(node: &'a Node, local: &str) -> Option<&'a Element>
    ensures { option_copied result ≡ called_in local.now node.now }
{
    match element_in(node) {
        Some(element) if element.is_called(local) => Some(element),
        _ => None,
    }
}

/// Returns whether there is an element of this name in this namespace.
fn has_named(nodes: &[Node], space: &str, local: &str) -> bool
    ensures { result ≡ is_any (named space.now local.now nodes.now) }
{
    for node in nodes {
        if named_in(node, space, local).is_some() {
            return true;
        }
    }
    false
}

/// Returns whether there is an element of this local name.
fn has_called(nodes: &[Node], local: &str) -> bool
    ensures { result ≡ is_any (called local.now nodes.now) }
{
    for node in nodes {
        if called_in(node, local).is_some() {
            return true;
        }
    }
    false
}

/// Returns the element of this name in this namespace, if there is exactly one.
fn only_named<'a>(nodes: &'a [Node], space: &str, local: &str) -> Option<&'a Element>
    ensures { option_copied result ≡ only_of (named space.now local.now nodes.now) }
{
    let mut found = None;
    for node in nodes {
        match (named_in(node, space, local), found) {
            (None, _) => (),
            (Some(_), Some(_)) => return None,
            (Some(element), None) => found = Some(element),
        }
    }
    found
}

/// Returns the element of this local name, if there is exactly one.
fn only_called<'a>(nodes: &'a [Node], local: &str) -> Option<&'a Element>
    ensures { option_copied result ≡ only_of (called local.now nodes.now) }
{
    let mut found = None;
    for node in nodes {
        match (called_in(node, local), found) {
            (None, _) => (),
            (Some(_), Some(_)) => return None,
            (Some(element), None) => found = Some(element),
        }
    }
    found
}

/// Returns the text of a node, which is empty for an element.
fn text_in(node: &Node) -> &str
    ensures { result.now ≡ text_in node.now }
{
    match node {
        Node::Text(text) => text.as_str(),
        Node::Child(_) => "",
    }
}

/// Joins the texts among the nodes into one.
fn texts_in(alloc: Global, nodes: &[Node]) -> Result<Text, Mem>
    ensures { IfOk result (λ text. text ≡ texts_in nodes.now) }
{
    let mut text = String::new(alloc);
    for node in nodes {
        text.push_str(text_in(node))?;
    }
    Ok(Text::from(text))
}

/// Returns whether an attribute has this name and no namespace.
fn is_plain(attr: &Attr, local: &str) -> bool
    ensures { result ≡ is_plain local.now attr.now }
{
    attr.name.space.len() == 0 && attr.name.local.as_str() == local
}

/// Returns the first attribute that has this name and no namespace.
fn plain<'a>(attrs: &'a [Attr], local: &str) -> Option<&'a Attr>
    ensures { option_copied result ≡ find (is_plain local.now) attrs.now }
{
    for attr in attrs {
        if is_plain(attr, local) {
            return Some(attr);
        }
    }
    None
}
