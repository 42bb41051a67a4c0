//! Elements and what stands in them.

ghost use Rattle.std.specs.Prelude.{◌≡◌, OnErr, OnOk, length, option_copied, slice_get};
ghost use Rattle.cds_markup.specs.Document.{End};
ghost use Rattle.cds_markup.specs.Elements.{and_node, nodes_of};
ghost use Rattle.cds_markup.specs.Building.{first_element};

use crate::{Attrs, Name};
use cds_base::{Mem, Text};
use std::alloc::Global;
use std::marker::Model;

/// An element of a document. Contracts see what it means.
#[derive(Drop, Debug)]
#[cycle(element)]
pub struct Element {
    /// Its name.
    pub name: Name,
    /// Its attributes.
    pub attrs: Attrs,
    /// What stands in it.
    pub children: Nodes,
}

impl Model for Element {
    ghost use Rattle.cds_markup.specs.Document.{Meaning, Element as Means};
    ghost use Rattle.cds_markup.specs.MeaningCode.{meaning_code};

    ghost Value = { Meaning };

    ghost coded = { meaning_code };

    ghost view = { λ a. Means a.name a.attrs a.children };

    ghost use Rattle.cds_markup.specs.Weight.{weight_one};

    ghost size = { weight_one };

    ghost use Rattle.std.proofs.Common.{arith};

    ghost size_decreases = { λ a h. omega arith };
}

/// One node of what stands in an element.
#[derive(Drop, Debug)]
#[cycle(element)]
pub enum Node {
    /// A text. In an element that was read, each text has at least one byte, and no two texts stand beside each other.
    Text(Text),
    /// An element.
    Child(Element),
}

/// What stands in an element, in order. Contracts see what it means.
#[derive(Drop, Debug)]
#[cycle(element)]
pub struct Nodes {
    items: Vec<Node>,
}

impl Model for Nodes {
    ghost use Rattle.cds_markup.specs.Document.{Meanings};
    ghost use Rattle.cds_markup.specs.MeaningCode.{meanings_code};

    ghost Value = { Meanings };

    ghost coded = { meanings_code };

    ghost use Rattle.cds_markup.specs.Elements.{meanings_of};

    ghost view = { λ a. meanings_of a.items.items };

    ghost use Rattle.cds_markup.specs.Weight.{weight};

    ghost size = { weight };

    ghost use Rattle.cds_markup.specs.NodesFall.{most_le-weight};

    ghost size_decreases = { λ a h. most_le-weight a.items.items };
}

#[tactic(auto, using(crate::proofs::NodesForm::nodes_again, crate::proofs::NodesForm::nodes_push))]
impl Nodes {
    /// Returns an empty list, which takes no memory.
    pub fn new(alloc: Global) -> Self
        ensures { result ≡ End }
    {
        Nodes {
            items: Vec::new(alloc),
        }
    }

    /// Adds a node at the end. A refused push drops the node and leaves the list as it was.
    pub fn push(&mut self, node: Node) -> Result<(), Mem>
        ensures ok { OnOk result (self.new ≡ and_node self.old node) }
        ensures err { OnErr result (self.new ≡ self.old) }
    {
        self.items.push(node)?;
        Ok(())
    }

    /// Returns the first node, if it is an element.
    pub fn into_first(self) -> Option<Element>
        ensures { result ≡ first_element self }
    {
        let mut items = self.items;
        if items.is_empty() {
            return None;
        }
        match items.remove(0) {
            Node::Child(element) => Some(element),
            Node::Text(_) => None,
        }
    }

    /// Returns how many nodes there are.
    pub fn len(&self) -> usize
        ensures { result ≡ length (nodes_of self.now) }
    {
        self.items.len()
    }

    /// Returns the node at a place, counted from 0. Returns `None` past the end.
    pub fn get(&self, at: usize) -> Option<&Node>
        ensures { option_copied result ≡ slice_get (nodes_of self.now) at }
    {
        self.as_slice().get(at)
    }

    /// Returns the nodes in order.
    pub fn as_slice(&self) -> &[Node]
        ensures { result.now ≡ nodes_of self.now }
    {
        self.items.as_slice()
    }
}
