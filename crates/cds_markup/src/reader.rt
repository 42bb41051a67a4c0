//! Documents that come in pieces.

ghost use Rattle.std.specs.Prelude.{◌≡◌, Err, None, IsOkAnd, []};
ghost use Rattle.cds_markup.specs.declared.error.MarkupError.TheVariants.{Failed};
ghost use Rattle.cds_markup.specs.Reader.{IsRead, Fed, Finished, FinishedPlaced};

use crate::placed::{Placed, PlacedBuilder};
use crate::{Element, MarkupError, PartReader};
use cds_base::Mem;
use std::alloc::Global;
use std::fmt;
use std::fmt::{Debug, Formatter};
use std::marker::Model;

/// Reads a document that comes in pieces, without keeping them. Contracts see what is read so far and what the parts so far say.
/// After a refusal, also one for memory, they see nothing read.
#[derive(Drop)]
pub struct Reader {
    parts: PartReader,
    builder: PlacedBuilder,
}

impl Model for Reader {
    ghost use Rattle.cds_markup.specs.Reader.{Came, came};
    ghost use Rattle.cds_markup.specs.Placed.{placing_of};
    ghost use Rattle.cds_markup.specs.contracts.element.Nodes as nodes;
    ghost use Rattle.std.specs.Coded.{codes};

    ghost Value = { Came };

    ghost coded = { Prim.hlevel (codes, nodes.the_row.coded) };

    ghost view = { λ r. came r.parts (placing_of r.builder) };
}

impl Debug for Reader {
    fn fmt<W: fmt::Write>(&self, f: &mut Formatter<W>) -> fmt::Result {
        f.debug_struct("Reader").finish_non_exhaustive()
    }
}

impl Reader {
    /// Returns a reader to which nothing came yet. It takes no memory so far.
    pub fn new(alloc: Global) -> Result<Self, Mem>
        ensures { IsOkAnd result (λ r. IsRead [] r) }
    {
        Ok(Reader {
            parts: PartReader::new(alloc)?,
            builder: PlacedBuilder::new(alloc),
        })
    }

    /// Reads the next piece. It is refused as `read_document` refuses the bytes so far, if a byte of it decides so, whatever
    /// comes after. That is the byte at the place of the refusal, or the byte after 67,108,864 others. After a refusal, also
    /// after `Mem`, each call answers `Failed`.
    pub fn feed(&mut self, alloc: Global, piece: &[u8]) -> Result<(), MarkupError>
        ensures fed { Fed self.old piece.now result self.new }
        ensures failed { self.old.parts ≡ None → (result ≡ Err Failed) × (self.new.parts ≡ None) }
    {
        self.parts.feed(alloc, piece, &mut self.builder)
    }

    /// Ends the input. Returns what `read_document` answers to the bytes that came. `Failed` comes only if a piece was refused or
    /// memory ran out.
    pub fn finish(self) -> Result<Element, MarkupError>
        ensures finished { Finished self result }
        ensures failed { self.parts ≡ None → result ≡ Err Failed }
    {
        Ok(self.finish_placed()?.element)
    }

    /// Ends the input as `finish` does. The answer also has the places where the element and its child elements begin.
    pub fn finish_placed(self) -> Result<Placed, MarkupError>
        ensures finished { FinishedPlaced self result }
        ensures failed { self.parts ≡ None → result ≡ Err Failed }
    {
        let Reader { parts, builder } = self;
        parts.finish()?;
        match builder.into_placed() {
            Some(placed) => Ok(placed),
            // never reached: the parts of a document are those of an element
            None => Err(MarkupError::Mem),
        }
    }
}
