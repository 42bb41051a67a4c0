//! Finds what a scan would change, and parts of rows. Both implementations of the store use this.

ghost use Rattle.std.specs.Prelude.{◌≡◌, ◌+◌, ◌≤◌, ◌<◌, ◌^◌, [], map, reverse, take, drop, length, nat_lt, IfOk, IfErr};
ghost use Rattle.cds_object.specs.Tree.{children_of, is_child_of};
ghost use Rattle.cds_catalog.specs.Library.{map_of, found};
ghost use Rattle.cds_catalog.specs.History.{History};
ghost use Rattle.cds_store.specs.Rows.{rows_of, put_places};
ghost use Rattle.cds_store.specs.Stands.{IsCatalog, IsCatalogOf};
ghost use Rattle.cds_store.specs.Applied.{IsPlan, IsRefusal};

use crate::ApplyError;
use crate::catalog::Catalog;
use crate::library::{changes_between, library_of, library_shown};
use crate::placed::Placed;
use crate::records::bad_record;
use cds_base::Mem;
use cds_catalog::Change;
use cds_object::{Record, Records};
use std::alloc::Global;

/// The most objects that a library can have beside the root.
const MAX_OBJECTS: usize = 65_535;

/// Returns whether this is the parent of the object of a row.
fn is_child(placed: &Placed, parent: u32) -> bool
    ensures { result ≡ is_child_of parent placed.now.1 }
{
    match placed.row.parent {
        Some(of) => of.0 == parent,
        None => false,
    }
}

/// Returns the ids of the children of an object, in ascending order.
pub(crate) fn child_ids(alloc: Global, rows: &[Placed], id: u32) -> Result<Vec<u32>, Mem>
    ensures { IfOk result (λ ids. ids.items ≡ map (λ r. r.id) (children_of id (rows_of rows.now))) }
{
    let mut ids = Vec::new(alloc);
    for placed in rows {
        if is_child(placed, id) {
            ids.push(placed.id())?;
        }
    }
    Ok(ids)
}

/// Returns at most `count` of the ids, from the place `start` on.
pub(crate) fn page(ids: &[u32], start: u32, count: u32) -> &[u32]
    ensures { result.now ≡ take count (drop start ids.now) }
{
    let (_, rest) = ids.split_at(ids.len().min(start as usize));
    let (page, _) = rest.split_at(rest.len().min(count as usize));
    page
}

/// Returns the changes from what rows show to what a scan found, the oldest first.
fn changes_found<'a>(
    alloc: Global,
    rows: &'a [Placed],
    records: &'a [Record],
) -> Result<Vec<Change>, Mem>
    ensures { IfOk result (λ changes. reverse changes.items ≡ found (put_places [] rows.now) (map_of records.now)) }
{
    let old = library_shown(alloc, rows)?;
    let new = library_of(alloc, records)?;
    changes_between(alloc, &old, &new)
}

/// Returns whether changes from a number on lead above the last number.
fn is_spent(number: u32, needed: u32) -> bool
    ensures { result ≡ nat_lt 4294967295 (number + needed) }
{
    number.checked_add(needed).is_none()
}

/// Returns the changes that a scan makes, the oldest first, or why it is refused.
pub(crate) fn plan(
    alloc: Global,
    catalog: &Catalog,
    records: &Records,
) -> Result<Vec<Change>, ApplyError>
    requires few { length records.now < 2 ^ 32 }
    requires rows { length catalog.now.rows ≤ 65536 }
    requires stands { IsCatalog catalog.now }
    ensures made { (history : History) → IsCatalogOf catalog.now history → IfOk result (λ changes. IsPlan history records.now changes.items) }
    ensures refused { (history : History) → IsCatalogOf catalog.now history → IfErr result (IsRefusal history records.now) }
{
    if let Some(line) = bad_record(alloc, records.as_slice())? {
        return Err(ApplyError::BadRecords { line });
    }
    if records.len() > MAX_OBJECTS {
        let objects = records.len() as u32;
        return Err(ApplyError::Full { objects });
    }
    let changes = changes_found(alloc, catalog.rows(), records.as_slice())?;
    let needed = changes.len() as u32;
    if is_spent(catalog.number(), needed) {
        return Err(ApplyError::Spent { needed });
    }
    Ok(changes)
}
