//! Names, and attributes with their names.

use crate::namespace::Namespace;
use cds_base::{Sequence, Text};

/// A name with the namespace that it is in (Namespaces in XML).
#[derive(Drop, Debug)]
pub struct Name {
    /// The namespace, empty for none.
    pub space: Namespace,
    /// The name in it.
    pub local: Text,
}

/// An attribute.
#[derive(Drop, Debug)]
pub struct Attr {
    /// Its name.
    pub name: Name,
    /// Its value.
    pub value: Text,
}

/// The attributes of an element, in order.
pub type Attrs = Sequence<Attr>;
