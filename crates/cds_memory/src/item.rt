//! The items of folders in memory, and whether they are a tree.

ghost use Rattle.std.specs.Prelude.{◌≡◌, ◌==◌, ◌&&◌, not, Option, Some, None, ◌<◌, length, IfOk, IsTrue};
ghost use Rattle.std.specs.List.{list_any, list_all};
ghost use Rattle.std.specs.Str.{bytes_eq};
ghost use Rattle.cds_outside.specs.Entries.{IsEntryBehind, all_differ, is_at, is_file_at, is_held, is_in, is_name, is_new, is_parent_of, is_path_held, is_slash_and_name, is_tree};
ghost use Rattle.cds_memory.specs.Folders.{ascends, entry_of, entries_of, is_before_first, item_path, source_of, source_at};

use crate::MemSource;
use cds_base::{Bytes, Mem, Numbers, Text};
use cds_outside::Entry;
use std::alloc::Global;

/// What stands in a folder in memory.
#[derive(Drop, Debug)]
pub enum MemItem {
    /// A folder.
    FolderItem {
        path: Text,
    },
    /// A file of a size in bytes. Without bytes it cannot be opened. `fails` are the numbers, counted from 1, of the reads of
    /// each opened file that are to fail.
    FileItem {
        path: Text,
        size: u64,
        bytes: Option<Bytes>,
        fails: Numbers,
    },
}

/// Returns whether the items are a whole tree. No path comes twice, and the parent of each is the root or stands among them as a
/// folder.
pub fn are_tree(items: &[MemItem]) -> bool
    ensures { result ≡ is_tree (entries_of items.now) }
{
    all_paths_differ(items) && all_are_held(items)
}

/// Returns whether no path comes twice. If the paths are in ascending order of bytes, one pass tells.
fn all_paths_differ(items: &[MemItem]) -> bool
    ensures { result ≡ all_differ (entries_of items.now) }
{
    ascending_differ(items) || all_pairs_differ(items)
}

/// Returns whether each path comes before the next one in the order of bytes. Then none comes twice.
fn ascending_differ(items: &[MemItem]) -> bool
    ensures { IsTrue result → IsTrue (all_differ (entries_of items.now)) }
{
    is_ascending(items)
}

/// Returns whether each path comes before the next one in the order of bytes.
fn is_ascending(items: &[MemItem]) -> bool
    ensures { result ≡ ascends items.now }
{
    let mut left = items;
    while let Some((item, rest)) = left.split_first() {
        if !comes_before(item, rest) {
            return false;
        }
        left = rest;
    }
    true
}

/// Returns whether the item's path comes before that of the first of these.
fn comes_before(item: &MemItem, items: &[MemItem]) -> bool
    ensures { result ≡ is_before_first item.now items.now }
{
    match items.split_first() {
        Some((next, _)) => path_of(item).cmp(path_of(next)).is_lt(),
        None => true,
    }
}

/// Returns the item's path.
fn path_of(item: &MemItem) -> &Text
    ensures { result.now ≡ item_path item.now }
{
    match item {
        MemItem::FolderItem { path } => path,
        MemItem::FileItem { path, .. } => path,
    }
}

/// Returns whether each path differs from all later ones.
fn all_pairs_differ(items: &[MemItem]) -> bool
    ensures { result ≡ all_differ (entries_of items.now) }
{
    let mut left = items;
    while let Some((item, rest)) = left.split_first() {
        if !is_new_among(item, rest) {
            return false;
        }
        left = rest;
    }
    true
}

/// Returns whether the item's path differs from those of all others.
fn is_new_among(item: &MemItem, others: &[MemItem]) -> bool
    ensures { result ≡ is_new (entries_of others.now) (entry_of item.now) }
{
    match item {
        MemItem::FolderItem { path } => !is_any_at(others, path),
        MemItem::FileItem { path, .. } => !is_any_at(others, path),
    }
}

/// Returns whether an item stands at the path.
fn is_any_at(items: &[MemItem], path: &Text) -> bool
    ensures { result ≡ list_any (is_at path.now) (entries_of items.now) }
{
    any_at(items, path)
}

fn any_at(items: &[MemItem], path: &Text) -> bool
    ensures { result ≡ list_any (λ item. is_at path.now (entry_of item)) items.now }
{
    items.iter().any(|item| is_item_at(item, path))
}

/// Returns whether the item stands at the path.
fn is_item_at(item: &MemItem, path: &Text) -> bool
    ensures { result ≡ is_at path.now (entry_of item.now) }
{
    match item {
        MemItem::FolderItem { path: own } => own == path,
        MemItem::FileItem { path: own, .. } => own == path,
    }
}

/// Returns whether the parent of each is the root or stands among the items as a folder.
fn all_are_held(items: &[MemItem]) -> bool
    ensures { result ≡ list_all (is_held (entries_of items.now)) (entries_of items.now) }
{
    all_held(items)
}

fn all_held(items: &[MemItem]) -> bool
    ensures { result ≡ list_all (λ item. is_held (entries_of items.now) (entry_of item)) items.now }
{
    items.iter().all(|item| is_held_among(items, item))
}

/// Returns whether the item's parent is the root or stands among the items as a folder.
fn is_held_among(items: &[MemItem], item: &MemItem) -> bool
    ensures { result ≡ is_held (entries_of items.now) (entry_of item.now) }
{
    match item {
        MemItem::FolderItem { path } => has_parent_among(items, path.as_str().as_bytes()),
        MemItem::FileItem { path, .. } => has_parent_among(items, path.as_str().as_bytes()),
    }
}

/// Returns whether the path's parent is the root or stands among the items as a folder.
fn has_parent_among(items: &[MemItem], path: &[u8]) -> bool
    ensures { result ≡ is_path_held (entries_of items.now) path.now }
{
    is_one_name(path) || is_in_any(items, path)
}

fn is_in_any(items: &[MemItem], path: &[u8]) -> bool
    ensures { result ≡ list_any (is_parent_of path.now) (entries_of items.now) }
{
    any_holds(items, path)
}

fn any_holds(items: &[MemItem], path: &[u8]) -> bool
    ensures { result ≡ list_any (λ item. is_parent_of path.now (entry_of item)) items.now }
{
    items.iter().any(|item| is_in_item(item, path))
}

/// Returns whether the item is the folder that the path is in.
fn is_in_item(item: &MemItem, path: &[u8]) -> bool
    ensures { result ≡ is_parent_of path.now (entry_of item.now) }
{
    match item {
        MemItem::FolderItem { path: folder } => is_path_in(folder.as_str().as_bytes(), path),
        MemItem::FileItem { .. } => false,
    }
}

/// Returns whether the path is the folder's path, a `/` and a name.
fn is_path_in(folder: &[u8], path: &[u8]) -> bool
    ensures { result ≡ is_in folder.now path.now }
{
    match path.strip_prefix(folder) {
        Some(rest) => is_slash_then_name(rest),
        None => false,
    }
}

fn is_slash_then_name(rest: &[u8]) -> bool
    ensures { result ≡ is_slash_and_name rest.now }
{
    match rest.split_first() {
        Some((first, name)) => *first == b'/' && is_one_name(name),
        None => false,
    }
}

/// Returns whether the text has no `/`.
fn is_one_name(text: &[u8]) -> bool
    ensures { result ≡ is_name text.now }
{
    !has_slash(text)
}

fn has_slash(text: &[u8]) -> bool
    ensures { result ≡ list_any (λ byte. byte == 47) text.now }
{
    text.iter().any(|byte| *byte == b'/')
}

/// Returns the entry of the item at a place counted from 0.
pub fn entry_behind(alloc: Global, items: &[MemItem], at: usize) -> Result<Entry, Mem>
    requires { at < length items.now }
    ensures { IfOk result (λ entry. IsEntryBehind (entries_of items.now) at entry) }
{
    let entry = entry_like(alloc, &items[at])?;
    Ok(entry)
}

/// Returns the entry that an item is given as.
fn entry_like(alloc: Global, item: &MemItem) -> Result<Entry, Mem>
    ensures { IfOk result (λ entry. entry ≡ entry_of item.now) }
{
    match item {
        MemItem::FolderItem { path } => Ok(Entry::Folder {
            path: path.copy(alloc)?,
        }),
        MemItem::FileItem { path, size, .. } => Ok(Entry::File {
            path: path.copy(alloc)?,
            size: *size,
        }),
    }
}

/// Returns the source of the first file at the path, if that has bytes.
pub fn open_item(alloc: Global, items: &[MemItem], path: &str) -> Result<Option<MemSource>, Mem>
    ensures { IfOk result (λ source. source ≡ source_at items.now path.now) }
{
    let mut left = items;
    while let Some((item, rest)) = left.split_first() {
        if is_file_here(item, path) {
            return open_bytes(alloc, item);
        }
        left = rest;
    }
    Ok(None)
}

/// Returns whether the item is a file at the path.
fn is_file_here(item: &MemItem, path: &str) -> bool
    ensures { result ≡ is_file_at path.now (entry_of item.now) }
{
    match item {
        MemItem::FolderItem { .. } => false,
        MemItem::FileItem { path: own, .. } => own.as_str() == path,
    }
}

/// Returns the source of a file, if it has bytes.
fn open_bytes(alloc: Global, item: &MemItem) -> Result<Option<MemSource>, Mem>
    ensures { IfOk result (λ source. source ≡ source_of item.now) }
{
    match item {
        MemItem::FileItem {
            bytes: Some(bytes),
            fails,
            ..
        } => Ok(Some(copied_source(alloc, bytes, fails)?)),
        MemItem::FolderItem { .. } => Ok(None),
        MemItem::FileItem { bytes: None, .. } => Ok(None),
    }
}

/// Returns a source with copies of these bytes and of the numbers of the calls that are to fail.
fn copied_source(alloc: Global, bytes: &Bytes, fails: &Numbers) -> Result<MemSource, Mem>
    ensures { IfOk result (λ source. source ≡ record { left = bytes.now; moved = 0; calls = 0; faults = 0; fails = fails.now }) }
{
    let mut contents = Bytes::new(alloc);
    contents.extend(bytes.as_slice())?;
    let mut listed = Numbers::new(alloc);
    listed.extend(fails.as_slice())?;
    Ok(MemSource::new(contents, listed))
}
