//! Finds which records of a scan can stand.

ghost use Rattle.std.specs.Prelude.{◌≡◌, ◌<◌, ◌^◌, ℕ, List, length, IfOk};
ghost use Rattle.std.specs.List.{list_any};
ghost use Rattle.std.specs.BTreeSet.{contains};
ghost use Rattle.cds_object.specs.Path.{path_cmp};
ghost use Rattle.cds_catalog.specs.Scans.{bad_record};
ghost use Rattle.cds_store.specs.Records.{is_folder_at, holds_place, cannot_stand};

use cds_base::Mem;
use cds_object::{Path, Record};
use std::alloc::Global;
use std::collections::BTreeSet;

type Places = BTreeSet<Path>;

/// Returns the places of the folders.
fn folders_among(alloc: Global, records: &[Record]) -> Result<Places, Mem>
    ensures { IfOk result (λ folders. (path : List (List ℕ)) → contains path_cmp folders path ≡ list_any (is_folder_at path) records.now) }
{
    let mut folders = BTreeSet::new(alloc);
    for found in records {
        if found.content.is_folder() {
            let path = found.path.copy(alloc)?;
            folders.insert(path)?;
        }
    }
    Ok(folders)
}

/// Returns whether what stands at a place can hold others.
fn can_hold(folders: &Places, path: &Path) -> bool
    ensures { result ≡ holds_place (contains path_cmp folders.now) path.now }
{
    path.is_root() || folders.contains(path)
}

/// Returns whether nothing can stand at a place, given the places of the folders and the places that came before.
fn is_bad(alloc: Global, folders: &Places, before: &Places, path: &Path) -> Result<bool, Mem>
    ensures { IfOk result (λ bad. bad ≡ cannot_stand (contains path_cmp folders.now) (contains path_cmp before.now) path.now) }
{
    let parent = path.parent(alloc)?;
    let bad = path.is_root() || !can_hold(folders, &parent) || before.contains(path);
    Ok(bad)
}

/// Returns the first record that cannot stand, counted from 1.
pub(crate) fn bad_record(alloc: Global, records: &[Record]) -> Result<Option<u32>, Mem>
    requires { length records.now < 2 ^ 32 }
    ensures { IfOk result (λ line. line ≡ bad_record records.now) }
{
    let folders = folders_among(alloc, records)?;
    let mut before = BTreeSet::new(alloc);
    for (at, found) in records.iter().enumerate() {
        if is_bad(alloc, &folders, &before, &found.path)? {
            return Ok(Some(at as u32 + 1));
        }
        let path = found.path.copy(alloc)?;
        before.insert(path)?;
    }
    Ok(None)
}
