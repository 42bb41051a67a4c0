//! What a folder gave of its tree so far.

ghost use Rattle.std.specs.Prelude.{◌≡◌, ◌==◌, [], ◌∷◌, ◌++◌, true, false, IfOk, OnErr, IsTrue};
ghost use Rattle.std.specs.List.{list_any};
ghost use Rattle.cds_outside.specs.Entries.{is_at, is_folder_at, is_in, is_name, is_parent_of, is_path_held, is_slash_and_name, is_tree};
ghost use Rattle.cds_system.specs.Given.{Fits, IsEntryAt, is_folder_entry};

use cds_base::{Mem, Text};
use cds_outside::{Entry, Trace};
use std::alloc::Global;
use std::collections::BTreeMap;
use std::marker::Model;
use std::mem;

/// The entries that were given since a tree began, as contracts see them. It also has each path that was given, and whether a
/// folder was given there. No path comes twice, and the parent of each is the root or came as a folder.
#[derive(Drop)]
pub struct Given {
    entries: Trace<Entry>,
    places: BTreeMap<Text, bool>,
}

impl Model for Given {
    ghost use Rattle.std.specs.Prelude.{List, IsTrue};
    ghost use Rattle.cds_outside.specs.declared.folder.Entry.{Entry};
    ghost use Rattle.cds_outside.specs.Entries.{is_tree};
    ghost use Rattle.cds_system.specs.Given.{Knows};

    ghost Value = { List Entry };

    ghost view = { λ g. g.entries };

    ghost invariant = { λ g. IsTrue (is_tree g.entries) × Knows g.places g.entries };
}

impl Given {
    /// Makes a record of nothing yet.
    pub fn new(alloc: Global) -> Self
        ensures { result ≡ [] }
    {
        Given {
            entries: Trace::new(),
            places: BTreeMap::new(alloc),
        }
    }

    /// Forgets all.
    pub fn clear(&mut self)
        ensures { self.new ≡ [] }
    {
        self.places.clear();
        drop(mem::replace(&mut self.entries, Trace::new()));
    }

    /// Returns whether an entry can stand at the path. Nothing must have been given there. The path must be right in the root, or
    /// in the folder at `holder`, which was given.
    pub fn has_room(&self, holder: &Option<Text>, path: &Text) -> bool
        ensures { IsTrue result → Fits self.now path.now }
    {
        self.is_new(path) && self.is_held(holder, path)
    }

    /// Makes known what holds of the entries given. Only a proof needs it.
    pub fn facts(&self)
        ensures { IsTrue (is_tree self.now) }
    {
        let _ = &self.entries;
    }

    /// Returns whether nothing was given at the path.
    fn is_new(&self, path: &Text) -> bool
        ensures { IsTrue result → list_any (is_at path.now) self.now ≡ false }
    {
        !self.places.contains_key(path)
    }

    /// Returns whether the path stands right in the root if there is no holder, or in the folder at `holder`, which was given.
    fn is_held(&self, holder: &Option<Text>, path: &Text) -> bool
        ensures { IsTrue result → IsTrue (is_path_held self.now path.now) }
    {
        match holder {
            None => is_one_name(path.as_str().as_bytes()),
            Some(holder) => self.is_held_by(holder, path),
        }
    }

    /// Returns whether the path stands in the folder at `holder`, which was given.
    fn is_held_by(&self, holder: &Text, path: &Text) -> bool
        ensures { IsTrue result → IsTrue (is_path_held self.now path.now) }
    {
        is_in(holder, path) && self.is_folder(holder)
    }

    /// Returns whether a folder was given at the path.
    fn is_folder(&self, path: &Text) -> bool
        ensures { IsTrue result → list_any (is_folder_at path.now) self.now ≡ true }
    {
        match self.places.get(path) {
            Some(is_folder) => *is_folder,
            None => false,
        }
    }

    /// Adds the entry at a path that has room, and gives it back. A refusal leaves all as it was.
    pub fn add(&mut self, path: Text, entry: Entry) -> Result<Entry, Mem>
        requires room { Fits self.old path }
        requires at { IsEntryAt path entry }
        ensures same { IfOk result (λ added. added ≡ entry) }
        ensures added { IfOk result (λ _. self.new ≡ self.old ++ entry ∷ []) }
        ensures kept { OnErr result (self.new ≡ self.old) }
    {
        let is_folder = is_folder_entry(&entry);
        self.places.insert(path, is_folder)?;
        Ok(self.entries.push(entry))
    }
}

/// Returns whether the entry is a folder.
fn is_folder_entry(entry: &Entry) -> bool
    ensures { result ≡ is_folder_entry entry.now }
{
    matches!(entry, Entry::Folder { .. })
}

/// Returns whether the path is the folder's path, a `/` and a name.
fn is_in(folder: &Text, path: &Text) -> bool
    ensures { result ≡ is_in folder.now path.now }
{
    is_path_in(folder.as_str().as_bytes(), path.as_str().as_bytes())
}

fn is_path_in(folder: &[u8], path: &[u8]) -> bool
    ensures { result ≡ is_in folder.now path.now }
{
    match path.strip_prefix(folder) {
        Some(rest) => is_slash_then_name(rest),
        None => false,
    }
}

fn is_slash_then_name(rest: &[u8]) -> bool
    ensures { result ≡ is_slash_and_name rest.now }
{
    match rest.split_first() {
        Some((first, name)) => *first == b'/' && is_one_name(name),
        None => false,
    }
}

/// Returns whether the text has no `/`.
fn is_one_name(text: &[u8]) -> bool
    ensures { result ≡ is_name text.now }
{
    !has_slash(text)
}

fn has_slash(text: &[u8]) -> bool
    ensures { result ≡ list_any (λ byte. byte == 47) text.now }
{
    text.iter().any(|byte| *byte == b'/')
}
