//! The stages of a load.

ghost use Rattle.std.specs.Prelude.{◌≡◌};
ghost use Rattle.cds_load.specs.Stages.{next_ask};
ghost use Rattle.cds_replica.specs.Holding.{held_in};

use crate::listing::Listing;
use cds_load::Ask;
use cds_object::{Row, Rows};

/// How far a load has come.
#[derive(Drop)]
pub enum Stage {
    /// No load was begun.
    Idle,
    Begun,
    HasToken,
    /// It has the number that the whole attempt is to bear.
    HasNumber(u32),
    HasRoot {
        number: u32,
        root: Row,
    },
    /// The next page is asked.
    Lists {
        number: u32,
        listing: Listing,
    },
    /// A page came, or a refusal instead of one, and the number is asked again.
    HasPage {
        number: u32,
        listing: Listing,
        page: Option<Rows>,
    },
}

impl Stage {
    /// Returns the next read.
    pub fn next_ask(&self) -> Option<Ask>
        ensures { result ≡ next_ask (held_in self.now) }
    {
        match self {
            Stage::Idle => None,
            Stage::Begun => Some(Ask::Token),
            Stage::HasNumber(_) => Some(Ask::Metadata { id: 0 }),
            Stage::Lists { listing, .. } => Some(Ask::Children {
                id: listing.id(),
                start: listing.start(),
            }),
            Stage::HasToken | Stage::HasRoot { .. } | Stage::HasPage { .. } => Some(Ask::Number),
        }
    }
}
