//! The rows `criteria` and `order`: search criteria and sort criteria, over the objects of a DIDL-Lite document.

use crate::row::Row;
use crate::show::Out;
use cds_criteria::{SearchCriteria, SortKeys};
use cds_didl::read_didl;
use cds_object::Row as Object;
use std::alloc::Global;

/// `criteria | text | document`: shows `x` for each object that meets the criteria, and `.` for each other one.
pub fn met(alloc: Global, row: &Row, out: &mut Out) {
    match (
        SearchCriteria::read(alloc, row.text(1)),
        read_didl(alloc, row.bytes(2)),
    ) {
        (Ok(criteria), Ok(objects)) => marks_shown(&criteria, objects.as_slice(), out),
        (Err(refusal), _) => out.refuse(&refusal),
        (_, Err(refusal)) => out.refuse(&refusal),
    }
}

fn marks_shown(criteria: &SearchCriteria, objects: &[Object], out: &mut Out) {
    for object in objects {
        out.put(if criteria.meets(object) { "x" } else { "." });
    }
}

/// `order | text | document`: shows for each object how many others stand before it by the keys.
pub fn ordered(alloc: Global, row: &Row, out: &mut Out) {
    match (
        SortKeys::read(alloc, row.text(1)),
        read_didl(alloc, row.bytes(2)),
    ) {
        (Ok(keys), Ok(objects)) => ranks_shown(&keys, objects.as_slice(), out),
        (Err(refusal), _) => out.refuse(&refusal),
        (_, Err(refusal)) => out.refuse(&refusal),
    }
}

fn ranks_shown(keys: &SortKeys, objects: &[Object], out: &mut Out) {
    for object in objects {
        out.value(&rank_of(keys, object, objects));
        out.put(" ");
    }
}

/// Returns how many objects stand before this one.
fn rank_of(keys: &SortKeys, object: &Object, objects: &[Object]) -> u32 {
    let mut rank = 0;
    for other in objects {
        if keys.compare(other, object).is_lt() && rank < u32::MAX {
            rank += 1;
        }
    }
    rank
}
