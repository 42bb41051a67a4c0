//! Finds rows by binary search. They stand in ascending order of ids.

ghost use Rattle.std.specs.Prelude.{◌≡◌, MatchOption, option_copied};
ghost use Rattle.cds_object.specs.Tree.{IdsAscend, row_of};
ghost use Rattle.cds_store.specs.Rows.{rows_of};
ghost use Rattle.cds_store.specs.Found.{HasNone, IsPlaceOf};

use crate::placed::Placed;
use cds_object::Row;

/// Returns the place of the row of an id, counted from 0.
pub(crate) fn place_of_id(rows: &[Placed], id: u32) -> Option<usize>
    requires { IdsAscend (rows_of rows.now) }
    ensures { MatchOption result (HasNone id rows.now) (IsPlaceOf id rows.now) }
{
    let mut low = 0;
    let mut high = rows.len();
    while low < high {
        let middle = low + (high - low) / 2;
        let found = rows[middle].id();
        if found == id {
            return Some(middle);
        }
        if found < id {
            low = middle + 1;
        } else {
            high = middle;
        }
    }
    None
}

/// Returns the row of an id.
pub(crate) fn row_by_id(rows: &[Placed], id: u32) -> Option<&Row>
    requires { IdsAscend (rows_of rows.now) }
    ensures { option_copied result ≡ row_of id (rows_of rows.now) }
{
    match place_of_id(rows, id) {
        None => None,
        Some(at) => Some(rows[at].row()),
    }
}
