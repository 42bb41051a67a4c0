//! What a listing goes on with, and whether a page does.

ghost use Rattle.std.specs.Prelude.{◌≡◌, ◌+◌, ◌-◌, ◌^◌, ◌<◌, length, min, IsTrue};
ghost use Rattle.std.specs.List.{list_all, list_any};
ghost use Rattle.cds_object.specs.Tree.{is_child_of};
ghost use Rattle.cds_load.specs.Stages.{listed_id, listed_children, all_new, known_ids, fits};
ghost use Rattle.cds_replica.specs.Holding.{listing_in};
ghost use Rattle.cds_replica.specs.Known.{has_id, was_shown};
ghost use Rattle.cds_replica.specs.Order.{KeysAscend, id_of_row};

use crate::listing::Listing;
use crate::order::{Identified, has_in_order, is_in_order};
use cds_object::Row;

/// The greatest number of rows of a page.
const PAGE_SIZE: usize = 256;

impl Listing {
    /// Returns the id of the container that is being listed.
    pub fn id(&self) -> u32
        ensures { result ≡ listed_id (listing_in self.now) }
    {
        match self.waiting.first() {
            Some(container) => container.id(),
            None => 0,
        }
    }

    /// Returns how many children it has.
    pub fn children(&self) -> u32
        ensures { result ≡ listed_children (listing_in self.now) }
    {
        match self.waiting.first() {
            Some(container) => container.children(),
            None => 0,
        }
    }

    /// Returns how many of them were shown, which is the place of the next page.
    pub fn start(&self) -> u32
        ensures { result ≡ length self.now.part.items }
    {
        self.part.len() as u32
    }

    /// Returns whether a page goes on with the children of this container.
    pub fn fits(&self, page: &[Row]) -> bool
        ensures exact { result ≡ fits (listing_in self.now) page.now }
        ensures short { IsTrue result → length self.now.part.items + length page.now < 2 ^ 32 }
    {
        are_children(page, self.id()) && self.are_new(page) && page.len() == self.next_page_len()
    }

    /// Returns how many rows the next page has.
    fn next_page_len(&self) -> usize
        ensures exact { result ≡ min 256 (listed_children (listing_in self.now) - length self.now.part.items) }
        ensures short { length self.now.part.items + result < 2 ^ 32 }
    {
        (self.children() as usize)
            .saturating_sub(self.part.len())
            .min(PAGE_SIZE)
    }

    /// Returns whether no row of a page was shown before.
    fn are_new(&self, page: &[Row]) -> bool
        ensures { result ≡ all_new (known_ids (listing_in self.now)) page.now }
    {
        let ordered = is_in_order(self.part.as_slice());
        for (at, row) in page.iter().enumerate() {
            let (earlier, _) = page.split_at(at);
            if self.was_shown(row.id(), ordered, earlier) {
                return false;
            }
        }
        true
    }

    /// Returns whether an id was shown before, also earlier in the page. If the part is in order, it is looked through by
    /// halving.
    fn was_shown(&self, id: u32, ordered: bool, earlier: &[Row]) -> bool
        requires { IsTrue ordered → KeysAscend id_of_row self.now.part.items }
        ensures { result ≡ was_shown id self.now.rows.items self.now.part.items earlier.now }
    {
        self.stands(id) || self.is_in_part(id, ordered) || is_among(earlier, id)
    }

    /// Returns whether an id is among the rows of whole listings.
    fn stands(&self, id: u32) -> bool
        ensures { result ≡ list_any (has_id id) self.now.rows.items }
    {
        has_in_order(self.rows.as_slice(), id)
    }

    /// Returns whether an id is in the part.
    fn is_in_part(&self, id: u32, ordered: bool) -> bool
        requires { IsTrue ordered → KeysAscend id_of_row self.now.part.items }
        ensures { result ≡ list_any (has_id id) self.now.part.items }
    {
        if ordered {
            has_in_order(self.part.as_slice(), id)
        } else {
            is_among(self.part.as_slice(), id)
        }
    }
}

/// Returns whether one of these rows has this id.
fn is_among(rows: &[Row], id: u32) -> bool
    ensures { result ≡ list_any (has_id id) rows.now }
{
    rows.iter().any(|row| id == row.id())
}

/// Returns whether a row is that of a child of this object.
fn is_child(row: &Row, parent: u32) -> bool
    ensures { result ≡ is_child_of parent row.now }
{
    match row.parent {
        Some(of) => of.0 == parent,
        None => false,
    }
}

/// Returns whether each row is that of a child of this object.
fn are_children(rows: &[Row], parent: u32) -> bool
    ensures { result ≡ list_all (is_child_of parent) rows.now }
{
    rows.iter().all(|row| is_child(row, parent))
}
