//! Makes the folder map of a scan, the folder map that the rows show, and the changes from one to the other.

ghost use Rattle.std.specs.Prelude.{◌≡◌, [], ◌++◌, reverse, option_copied, IfOk};
ghost use Rattle.std.specs.List.{filter_map};
ghost use Rattle.std.specs.BTreeMap.{insert_entry};
ghost use Rattle.cds_object.specs.Path.{path_cmp};
ghost use Rattle.cds_catalog.specs.Library.{map_of, content_at, gone, come, departure, arrival, found};
ghost use Rattle.cds_store.specs.Lent.{shown};
ghost use Rattle.cds_store.specs.Rows.{put_places};

use crate::placed::Placed;
use cds_base::Mem;
use cds_catalog::Change;
use cds_object::{Content, Path, Record};
use std::alloc::Global;
use std::collections::BTreeMap;

/// What stands at each place, in ascending order of places. The root is not in it. Places and contents are borrowed
/// from the records or rows that have them.
pub(crate) type Library<'a> = BTreeMap<&'a Path, &'a Content>;

/// Puts what stands at a place into a folder map. It replaces what stood there.
fn put<'a>(library: &mut Library<'a>, path: &'a Path, content: &'a Content) -> Result<(), Mem>
    ensures { IfOk result (λ _. shown library.new.entries ≡ insert_entry path_cmp (shown library.old.entries) path.now content.now) }
{
    library.insert(path, content)?;
    Ok(())
}

/// Returns the folder map of what a scan found.
pub(crate) fn library_of(alloc: Global, records: &[Record]) -> Result<Library<'_>, Mem>
    ensures { IfOk result (λ library. shown library.entries ≡ map_of records.now) }
{
    let mut library = BTreeMap::new(alloc);
    for found in records {
        put(&mut library, &found.path, &found.content)?;
    }
    Ok(library)
}

/// Returns the folder map that rows show.
pub(crate) fn library_shown(alloc: Global, rows: &[Placed]) -> Result<Library<'_>, Mem>
    ensures { IfOk result (λ library. shown library.entries ≡ put_places [] rows.now) }
{
    let mut library = BTreeMap::new(alloc);
    for placed in rows {
        if !placed.path.is_root() {
            put(&mut library, &placed.path, &placed.row.content)?;
        }
    }
    Ok(library)
}

/// Returns the deletion of what stood at a place, if there is one, by what stands there now.
fn departure(
    alloc: Global,
    path: &Path,
    before: &Content,
    now: Option<&Content>,
) -> Result<Option<Change>, Mem>
    ensures { IfOk result (λ change. change ≡ gone path.now before.now (option_copied now.entry)) }
{
    if let Some(now) = now
        && before.is_of_kind(now)
    {
        return Ok(None);
    }
    let path = path.copy(alloc)?;
    Ok(Some(Change::Deletion { path }))
}

/// Returns the addition or modification of what stands at a place, if there is one, by what stood there before.
fn arrival(
    alloc: Global,
    path: &Path,
    before: Option<&Content>,
    content: &Content,
) -> Result<Option<Change>, Mem>
    ensures { IfOk result (λ change. change ≡ come path.now content.now (option_copied before.entry)) }
{
    let stays = match before {
        Some(before) => before.is_of_kind(content),
        None => false,
    };
    if let Some(before) = before
        && stays
        && before.says_the_same(content)
    {
        return Ok(None);
    }
    let path = path.copy(alloc)?;
    let content = content.copy(alloc)?;
    let change = if stays {
        Change::Modification { path, content }
    } else {
        Change::Addition { path, content }
    };
    Ok(Some(change))
}

/// Returns what stands at a place.
fn content_at<'a>(library: &Library<'a>, path: &'a Path) -> Option<&'a Content>
    ensures { option_copied result ≡ content_at (shown library.now.entries) path.now }
{
    library.get(&path).copied()
}

/// Returns the deletions, in ascending order of places.
fn departures<'a>(alloc: Global, old: &Library<'a>, new: &Library<'a>) -> Result<Vec<Change>, Mem>
    ensures { IfOk result (λ changes. changes.items ≡ filter_map (departure (shown new.now.entries)) (shown old.now.entries)) }
{
    let mut changes = Vec::new(alloc);
    for (path, before) in old.iter() {
        let now = content_at(new, path);
        if let Some(change) = departure(alloc, path, before, now)? {
            changes.push(change)?;
        }
    }
    Ok(changes)
}

/// Appends the additions and modifications, in ascending order of places.
fn arrivals<'a>(
    alloc: Global,
    old: &Library<'a>,
    new: &Library<'a>,
    changes: &mut Vec<Change>,
) -> Result<(), Mem>
    ensures { IfOk result (λ _. changes.new.items ≡ changes.old.items ++ filter_map (arrival (shown old.now.entries)) (shown new.now.entries)) }
{
    for (path, content) in new.iter() {
        let before = content_at(old, path);
        if let Some(change) = arrival(alloc, path, before, content)? {
            changes.push(change)?;
        }
    }
    Ok(())
}

/// Returns the changes from one folder map to the next, the oldest first. The deletions come in descending order of
/// places, then the additions and modifications in ascending order.
pub(crate) fn changes_between<'a>(
    alloc: Global,
    old: &Library<'a>,
    new: &Library<'a>,
) -> Result<Vec<Change>, Mem>
    ensures { IfOk result (λ changes. reverse changes.items ≡ found (shown old.now.entries) (shown new.now.entries)) }
{
    let mut changes = departures(alloc, old, new)?;
    changes.reverse();
    arrivals(alloc, old, new, &mut changes)?;
    Ok(changes)
}
