//! Tags as they are written: qualified names, attributes and the namespaces that they declare.

use crate::namespace::Namespace;
use crate::prefixes::Scope;
use cds_base::{Sequence, Text};

/// A qualified name as it is written (Namespaces in XML).
#[derive(Drop)]
pub struct QName {
    /// The prefix, empty for none.
    pub prefix: Text,
    /// The local name after it.
    pub local: Text,
}

/// An attribute as a tag has it.
#[derive(Drop)]
pub struct TagAttr {
    /// Its name.
    pub name: QName,
    /// What its value says.
    pub value: Text,
}

/// What stands in a start tag.
#[derive(Drop)]
pub struct Tag {
    /// The element's name.
    pub name: QName,
    /// Its attributes in order, also those that declare namespaces.
    pub attrs: Sequence<TagAttr>,
}

/// A namespace that a tag declares.
#[derive(Drop)]
pub struct Declaration {
    /// The prefix, empty for names without one.
    pub prefix: Text,
    /// The namespace, empty for none.
    pub space: Namespace,
}

/// An element that is open.
#[derive(Drop)]
pub struct Open {
    /// Its name, which its end tag repeats.
    pub name: QName,
    /// The namespaces that its tag declares.
    pub declared: Scope,
}
