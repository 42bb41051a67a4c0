//! Elements with the places where they begin.

ghost use Rattle.std.specs.Prelude.{◌≡◌, OnOk};
ghost use Rattle.cds_markup.specs.Placed.{placing_of, no_place, placed_as, noted};

use crate::build::Builder;
use crate::{Element, Part, PartSink};
use cds_base::{Mem, Sequence};
use std::alloc::Global;

/// The root element of a document, with the places where it and its child elements begin. Places are bytes from the start of the
/// document, from 0.
#[derive(Drop, Debug)]
pub struct Placed {
    /// The element.
    pub element: Element,
    /// The place of the `<` of its start tag.
    pub at: usize,
    /// The places of its child elements, in their order.
    pub children: Sequence<usize>,
}

/// What the parts so far say, with the places of the start tags of the root and of its child elements.
#[derive(Drop)]
pub struct PlacedBuilder {
    /// What they say.
    pub builder: Builder,
    /// The place of the root's start tag, if it came.
    pub at: Option<usize>,
    /// The places of its child elements.
    pub children: Sequence<usize>,
}

impl PlacedBuilder {
    /// Returns a builder that has no parts yet.
    pub fn new(alloc: Global) -> Self
        ensures { placing_of result ≡ no_place }
    {
        PlacedBuilder {
            builder: Builder::new(alloc),
            at: None,
            children: Sequence::new(alloc),
        }
    }

    /// Records the place of a start tag, if it is that of the root or of a child. The element is not open yet.
    fn note(&mut self, at: usize) -> Result<(), Mem>
        ensures { OnOk result (placing_of self.new ≡ noted at (placing_of self.old)) }
    {
        match self.builder.frames.len() {
            0 => self.at = Some(self.at.unwrap_or(at)),
            1 => self.children.push(at)?,
            _ => (),
        }
        Ok(())
    }

    /// Returns the first node with its places, if it is an element.
    pub fn into_placed(self) -> Option<Placed>
        ensures { result ≡ placed_as (placing_of self) }
    {
        let PlacedBuilder {
            builder,
            at,
            children,
        } = self;
        match (builder.into_element(), at) {
            (Some(element), Some(at)) => Some(Placed {
                element,
                at,
                children,
            }),
            _ => None,
        }
    }
}

impl PartSink for PlacedBuilder {
    ghost use Rattle.cds_markup.specs.Placed.{places};

    ghost took = { places };

    fn take(&mut self, part: Part) -> Result<(), Mem> {
        if let Part::Start { at, .. } = &part {
            self.note(*at)?;
        }
        self.builder.take(part)
    }

    fn has_enough(&self) -> bool {
        false
    }
}
