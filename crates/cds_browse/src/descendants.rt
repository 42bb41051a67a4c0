//! The rows of a view that are below a container. The rows need not be a tree.

ghost use Rattle.std.specs.Prelude.{◌≡◌, ◌<◌, ℕ, length, replicate, slice_get, Some, IfOk};
ghost use Rattle.cds_criteria.specs.Descendants.{parent_in, is_below};
ghost use Rattle.cds_browse.specs.Places.{ArePlaces, passes};
ghost use Rattle.cds_browse.specs.Lineage.{leads, LeadsTo, AreKnown, IsLast, last_of, is_found};
ghost use Rattle.cds_browse.specs.Searching.{found_in};

use crate::places::place_of;
use cds_base::Mem;
use cds_criteria::SearchCriteria;
use cds_object::Row;
use cds_store::View;
use std::alloc::Global;

/// Where the way from a row through its parents goes next.
#[derive(Clone, Copy)]
enum Next {
    /// Nowhere: the way reaches the container, or it never does.
    Answer(bool),
    /// To the row at this place.
    Further(usize),
}

/// The last answer. It is that of each row with the same parent.
#[derive(Clone, Copy)]
struct Last {
    parent: u32,
    below: bool,
}

/// What is known of the rows of a view: from which of them parents lead to the container. Each row is walked through once.
#[derive(Drop)]
struct Lineage {
    container: u32,
    /// What is known of the row at each place.
    known: Vec<Option<bool>>,
    last: Option<Last>,
}

/// Returns the id of a row's parent.
fn parent_of(row: &Row) -> Option<u32>
    ensures { result ≡ row.now.parent }
{
    match row.parent {
        None => None,
        Some(parent) => Some(parent.0),
    }
}

/// Returns the id of the parent of the row at a place.
fn parent_at<V: View>(view: &V, place: usize) -> Option<u32>
    ensures { result ≡ parent_in (slice_get (V.rows view.now) place) }
{
    match view.row(place) {
        None => None,
        Some(row) => parent_of(row),
    }
}

/// Returns the first row on the way from the row at a place.
fn next_from<V: View>(view: &V, container: u32, place: usize) -> Next
    requires { place < length (V.rows view.now) }
    ensures { LeadsTo (V.rows view.now) container place result }
{
    let Some(parent) = parent_at(view, place) else {
        return Next::Answer(false);
    };
    if parent == container {
        return Next::Answer(true);
    }
    let next = place_of(view, parent);
    if next < view.len() {
        Next::Further(next)
    } else {
        Next::Answer(false)
    }
}

impl Lineage {
    /// Makes one that knows nothing of this many rows.
    fn new(alloc: Global, container: u32, rows: usize) -> Result<Self, Mem>
        ensures known { IfOk result (λ l. l.known.items ≡ replicate rows None) }
        ensures last { IfOk result (λ l. l.last ≡ None) }
        ensures container { IfOk result (λ l. l.container ≡ container) }
    {
        let known = vec![in alloc; None; rows]?;
        Ok(Lineage {
            container,
            known,
            last: None,
        })
    }

    /// Returns the answer of the row at a place if it is known, or the first row on its way.
    fn next<V: View>(&self, view: &V, place: usize) -> Next
        requires within { place < length (V.rows view.now) }
        requires known { AreKnown (V.rows view.now) self.now.container self.now.known.items }
        ensures { LeadsTo (V.rows view.now) self.now.container place result }
    {
        match self.known[place] {
            Some(below) => Next::Answer(below),
            None => next_from(view, self.container, place),
        }
    }

    /// Returns whether parents lead from the row at a place to the container. It turns back where rows that it met stand in a
    /// circle.
    fn walk<V: View>(&self, view: &V, place: usize) -> bool
        requires within { place < length (V.rows view.now) }
        requires known { AreKnown (V.rows view.now) self.now.container self.now.known.items }
        ensures { result ≡ leads (V.rows view.now) self.now.container place }
    {
        let mut at = place;
        // A row that was met, how many steps ago, and after how many another takes its place.
        let mut met = place;
        let mut since = 0usize;
        let mut most = 1usize;
        for _step in 0..view.len() {
            match self.next(view, at) {
                Next::Answer(below) => return below,
                Next::Further(next) => at = next,
            }
            since += 1;
            if at == met {
                return false;
            }
            if since == most {
                met = at;
                since = 0;
                most = most.saturating_mul(2);
            }
        }
        false
    }

    /// Keeps the answer of the row at a place for it and for the rows on its way.
    fn keep<V: View>(&mut self, view: &V, place: usize, below: bool)
        requires within { place < length (V.rows view.now) }
        requires known { AreKnown (V.rows view.now) self.old.container self.old.known.items }
        requires answer { leads (V.rows view.now) self.old.container place ≡ below }
        ensures known { AreKnown (V.rows view.now) self.new.container self.new.known.items }
        ensures container { self.new.container ≡ self.old.container }
        ensures last { self.new.last ≡ self.old.last }
    {
        let mut at = place;
        for _step in 0..view.len() {
            if self.known[at].is_some() {
                return;
            }
            self.known[at] = Some(below);
            match next_from(view, self.container, at) {
                Next::Answer(_) => return,
                Next::Further(next) => at = next,
            }
        }
    }

    /// Returns the last answer, if it is that of a row with this parent.
    fn last_of(&self, parent: u32) -> Option<bool>
        ensures { result ≡ last_of parent self.now.last }
    {
        match self.last {
            None => None,
            Some(last) => if last.parent == parent {
                Some(last.below)
            } else {
                None
            },
        }
    }

    /// Returns whether parents lead from the row at a place, whose parent this is, to the container.
    fn leads<V: View>(&mut self, view: &V, place: usize, parent: u32) -> bool
        requires parent { parent_in (slice_get (V.rows view.now) place) ≡ Some parent }
        requires known { AreKnown (V.rows view.now) self.old.container self.old.known.items }
        requires last { IsLast (V.rows view.now) self.old.container self.old.last }
        ensures exact { result ≡ leads (V.rows view.now) self.old.container place }
        ensures known { AreKnown (V.rows view.now) self.new.container self.new.known.items }
        ensures last { IsLast (V.rows view.now) self.new.container self.new.last }
        ensures container { self.new.container ≡ self.old.container }
    {
        if let Some(last) = self.last
            && last.parent == parent
        {
            return last.below;
        }
        let below = self.walk(view, place);
        self.keep(view, place, below);
        self.last = Some(Last { parent, below });
        below
    }

    /// Returns whether the row at a place is below the container.
    fn is_below<V: View>(&mut self, view: &V, place: usize, row: &Row) -> bool
        requires row { slice_get (V.rows view.now) place ≡ Some row.now }
        requires known { AreKnown (V.rows view.now) self.old.container self.old.known.items }
        requires last { IsLast (V.rows view.now) self.old.container self.old.last }
        ensures exact { result ≡ is_below (V.rows view.now) self.old.container row.now }
        ensures known { AreKnown (V.rows view.now) self.new.container self.new.known.items }
        ensures last { IsLast (V.rows view.now) self.new.container self.new.last }
        ensures container { self.new.container ≡ self.old.container }
    {
        if row.id.0 == self.container {
            return false;
        }
        match parent_of(row) {
            None => false,
            Some(parent) => self.leads(view, place, parent),
        }
    }

    /// Returns whether the row at a place meets criteria and is below the container.
    fn finds<V: View>(&mut self, view: &V, place: usize, criteria: &SearchCriteria) -> bool
        requires known { AreKnown (V.rows view.now) self.old.container self.old.known.items }
        requires last { IsLast (V.rows view.now) self.old.container self.old.last }
        ensures exact { result ≡ passes (is_found criteria.now self.old.container (V.rows view.now)) (slice_get (V.rows view.now) place) }
        ensures known { AreKnown (V.rows view.now) self.new.container self.new.known.items }
        ensures last { IsLast (V.rows view.now) self.new.container self.new.last }
        ensures container { self.new.container ≡ self.old.container }
    {
        match view.row(place) {
            None => false,
            Some(row) => criteria.meets(row) && self.is_below(view, place, row),
        }
    }
}

/// Returns the places of the rows below a container that meet criteria, in ascending order of ids. The container's own row is
/// never among them.
pub(crate) fn places_below<V: View>(
    alloc: Global,
    view: &V,
    container: u32,
    criteria: &SearchCriteria,
) -> Result<Vec<u32>, Mem>
    ensures { IfOk result (λ places. ArePlaces (V.rows view.now) places.items (found_in criteria.now container (V.rows view.now))) }
{
    let mut lineage = Lineage::new(alloc, container, view.len())?;
    let mut places = Vec::new(alloc);
    for place in 0..view.len() {
        if lineage.finds(view, place, criteria) {
            places.push(place as u32)?;
        }
    }
    Ok(places)
}
