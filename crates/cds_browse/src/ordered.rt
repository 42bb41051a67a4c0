//! The ids of the rows that match, in the order of sort keys.

ghost use Rattle.std.specs.Prelude.{◌≡◌, slice_get, IfOk};
ghost use Rattle.cds_object.specs.Tree.{is_child_of, children_of};
ghost use Rattle.cds_criteria.specs.Sorting.{ordered};
ghost use Rattle.cds_browse.specs.Paging.{ids_of};
ghost use Rattle.cds_browse.specs.Places.{ArePlaces, passes};
ghost use Rattle.cds_browse.specs.Searching.{found_in};

use crate::descendants::places_below;
use crate::places::{ids_from, sort_places};
use cds_base::Mem;
use cds_criteria::{SearchCriteria, SortKeys};
use cds_store::View;
use std::alloc::Global;

/// Returns whether the row at a place is that of a child of an object.
fn is_child<V: View>(view: &V, place: usize, id: u32) -> bool
    ensures { result ≡ passes (is_child_of id) (slice_get (V.rows view.now) place) }
{
    match view.row(place) {
        None => false,
        Some(row) => match row.parent {
            None => false,
            Some(parent) => parent.0 == id,
        },
    }
}

/// Returns the places of an object's children, in ascending order of ids.
fn places_of_children<V: View>(alloc: Global, view: &V, id: u32) -> Result<Vec<u32>, Mem>
    ensures { IfOk result (λ places. ArePlaces (V.rows view.now) places.items (children_of id (V.rows view.now))) }
{
    let mut places = Vec::new(alloc);
    for place in 0..view.len() {
        if is_child(view, place, id) {
            places.push(place as u32)?;
        }
    }
    Ok(places)
}

/// Returns the ids of an object's children, in the order of keys.
pub(crate) fn ordered_children<V: View>(
    alloc: Global,
    view: &V,
    id: u32,
    keys: &SortKeys,
) -> Result<Vec<u32>, Mem>
    ensures { IfOk result (λ ids. ids.items ≡ ids_of (ordered keys.now (children_of id (V.rows view.now)))) }
{
    view.view_facts();
    let mut places = places_of_children(alloc, view, id)?;
    sort_places(view, keys, &mut places);
    ids_from(view, &mut places);
    Ok(places)
}

/// Returns the ids of the objects below a container that meet criteria, in the order of keys.
pub(crate) fn ordered_matches<V: View>(
    alloc: Global,
    view: &V,
    container: u32,
    criteria: &SearchCriteria,
    keys: &SortKeys,
) -> Result<Vec<u32>, Mem>
    ensures { IfOk result (λ ids. ids.items ≡ ids_of (ordered keys.now (found_in criteria.now container (V.rows view.now)))) }
{
    view.view_facts();
    let mut places = places_below(alloc, view, container, criteria)?;
    sort_places(view, keys, &mut places);
    ids_from(view, &mut places);
    Ok(places)
}
