//! Folders in memory.

ghost use Rattle.std.specs.Prelude.{◌≡◌, ◌≤◌, ◌||◌, [], ◌∷◌, ◌++◌, Some, is_none, IfOk, OnErr, IsTrue};
ghost use Rattle.std.specs.List.{list_any};
ghost use Rattle.cds_outside.specs.Outside.{raised};
ghost use Rattle.cds_memory.specs.Memory.{next_fails};
ghost use Rattle.cds_outside.specs.Entries.{OnEntry, IsNext, HasBytes, HasBytesFrom, FailedRose, asked_after, has_failed, is_new, is_tree, is_file_at};
ghost use Rattle.cds_memory.specs.Folders.{contents_of, entries_of, fresh_folder, given_of, source_at};

use crate::asking::traced;
use crate::item::{entry_behind, open_item};
use crate::streams::is_listed;
use crate::{MemItem, MemSource};
use cds_base::{Mem, Numbers, Sequence};
use cds_outside::{Entry, Folder, FolderFault, Trace};
use std::alloc::Global;
use std::fmt;
use std::fmt::{Debug, Formatter};
use std::marker::Model;

/// A folder in memory. It tells its entries and what its files hold, and fails at the calls that it was told.
#[derive(Drop)]
pub struct MemFolder {
    items: Sequence<MemItem>,
    at: usize,
    entries: u64,
    opened: u64,
    returned: u64,
    asked: Trace<Trace<u8>>,
    calls: u64,
    entry_faults: u64,
    file_faults: u64,
    fails: Numbers,
}

impl Model for MemFolder {
    ghost use Rattle.std.specs.Prelude.{◌≤◌, length, IsTrue};
    ghost use Rattle.cds_outside.specs.Entries.{is_tree};
    ghost use Rattle.cds_memory.specs.Folders.{FolderState, entries_of};

    ghost Value = { FolderState };

    ghost view = { λ s.
        record {
          items = s.items;
          at = s.at;
          entries = s.entries;
          opened = s.opened;
          returned = s.returned;
          asked = s.asked;
          calls = s.calls;
          entry_faults = s.entry_faults;
          file_faults = s.file_faults;
          fails = s.fails;
        } };

    ghost invariant = { λ s. (s.at ≤ length s.items) × IsTrue (is_tree (entries_of s.items)) };
}

/// Prints the name alone. Nothing prints what it holds.
impl Debug for MemFolder {
    fn fmt<W: fmt::Write>(&self, f: &mut Formatter<W>) -> fmt::Result {
        f.debug_struct("MemFolder").finish_non_exhaustive()
    }
}

impl MemFolder {
    /// Makes a folder that gives these items in their order. `fails` are the numbers of the calls that are to fail, counted from
    /// 1 over the calls of `entry`, `open` and `open_at`.
    pub fn new(items: Sequence<MemItem>, fails: Numbers) -> Self
        requires { IsTrue (is_tree (entries_of items)) }
        ensures { result ≡ fresh_folder items fails }
    {
        MemFolder {
            items,
            at: 0,
            entries: 0,
            opened: 0,
            returned: 0,
            asked: Trace::new(),
            calls: 0,
            entry_faults: 0,
            file_faults: 0,
            fails,
        }
    }

    /// Returns the same folder before anything was asked of it.
    pub fn afresh(self) -> Self
        ensures { result ≡ fresh_folder self.items self.fails }
    {
        MemFolder {
            items: self.items,
            at: 0,
            entries: 0,
            opened: 0,
            returned: 0,
            asked: Trace::new(),
            calls: 0,
            entry_faults: 0,
            file_faults: 0,
            fails: self.fails,
        }
    }

    /// Returns how many entries it gave.
    pub fn entries(&self) -> u64
        ensures { result ≡ self.now.entries }
    {
        self.entries
    }

    /// Returns how many files it opened.
    pub fn opened(&self) -> u64
        ensures { result ≡ self.now.opened }
    {
        self.opened
    }

    /// Returns how many files came back.
    pub fn returned(&self) -> u64
        ensures { result ≡ self.now.returned }
    {
        self.returned
    }

    /// Returns how many calls of `entry` failed.
    pub fn entry_faults(&self) -> u64
        ensures { result ≡ self.now.entry_faults }
    {
        self.entry_faults
    }

    /// Returns how many opens and reads of files failed. The reads are counted once the file is back.
    pub fn file_faults(&self) -> u64
        ensures { result ≡ self.now.file_faults }
    {
        self.file_faults
    }
}

impl Folder for MemFolder {
    ghost use Rattle.cds_memory.specs.Folders.{told_of};

    type File = MemSource;

    ghost told = { told_of };

    fn entry(&mut self, alloc: Global) -> Result<Entry, FolderFault>
        ensures failed { has_failed result ≡ next_fails self.old.fails self.old.calls }
        ensures calls { self.new.calls ≡ raised self.old.calls 1 }
        ensures same_items { self.new.items ≡ self.old.items }
        ensures same_fails { self.new.fails ≡ self.old.fails }
        ensures next { IfOk result (λ e. IsNext (entries_of self.old.items) (given_of self.old) e) }
        ensures new { IfOk result (λ e. OnEntry e (IsTrue (is_new (given_of self.old) e)) (IsTrue (is_tree (given_of self.old)))) }
        ensures given { IfOk result (λ e. OnEntry e (given_of self.new ≡ given_of self.old ++ e ∷ []) (given_of self.new ≡ [])) }
        ensures anew { OnErr result (given_of self.new ≡ []) }
        ensures count { IfOk result (λ e. OnEntry e (self.new.entries ≡ raised self.old.entries 1) (self.new.entries ≡ self.old.entries)) }
        ensures count_stays { OnErr result (self.new.entries ≡ self.old.entries) }
        ensures rose { FailedRose result self.old.entry_faults self.new.entry_faults }
        ensures never_falls { self.old.entry_faults ≤ self.new.entry_faults }
        ensures opened_stays { self.new.opened ≡ self.old.opened }
        ensures returned_stays { self.new.returned ≡ self.old.returned }
        ensures asked_stays { self.new.asked ≡ self.old.asked }
        ensures file_faults_stay { self.new.file_faults ≡ self.old.file_faults }
    {
        self.calls = self.calls.saturating_add(1);
        if is_listed(self.fails.as_slice(), self.calls) {
            self.at = 0;
            self.entry_faults = self.entry_faults.saturating_add(1);
            return Err(FolderFault::Failed);
        }
        if self.at >= self.items.len() {
            self.at = 0;
            return Ok(Entry::End);
        }
        match entry_behind(alloc, self.items.as_slice(), self.at) {
            Ok(entry) => {
                self.at += 1;
                self.entries = self.entries.saturating_add(1);
                Ok(entry)
            }
            Err(Mem) => {
                self.at = 0;
                Err(FolderFault::Mem)
            }
        }
    }

    fn open(&mut self, alloc: Global, path: &str) -> Result<MemSource, FolderFault>
        requires { IsTrue (list_any (is_file_at path.now) (given_of self.old)) }
        ensures listed { IsTrue (next_fails self.old.fails self.old.calls) → IsTrue (has_failed result) }
        ensures failed { IsTrue (has_failed result) → IsTrue (next_fails self.old.fails self.old.calls || is_none (source_at self.old.items path.now)) }
        ensures exact { IfOk result (λ source. source_at self.old.items path.now ≡ Some source) }
        ensures calls { self.new.calls ≡ raised self.old.calls 1 }
        ensures same_items { self.new.items ≡ self.old.items }
        ensures same_fails { self.new.fails ≡ self.old.fails }
        ensures bytes { IfOk result (λ source. HasBytes (contents_of self.old.items path.now) (Some source.left)) }
        ensures no_faults { IfOk result (λ source. source.faults ≡ 0) }
        ensures unread { IfOk result (λ source. source.moved ≡ 0) }
        ensures opened { IfOk result (λ _. self.new.opened ≡ raised self.old.opened 1) }
        ensures opened_stays { OnErr result (self.new.opened ≡ self.old.opened) }
        ensures rose { FailedRose result self.old.file_faults self.new.file_faults }
        ensures never_falls { self.old.file_faults ≤ self.new.file_faults }
        ensures at_stays { self.new.at ≡ self.old.at }
        ensures entries_stay { self.new.entries ≡ self.old.entries }
        ensures returned_stays { self.new.returned ≡ self.old.returned }
        ensures asked_stays { self.new.asked ≡ self.old.asked }
        ensures entry_faults_stay { self.new.entry_faults ≡ self.old.entry_faults }
    {
        self.calls = self.calls.saturating_add(1);
        if is_listed(self.fails.as_slice(), self.calls) {
            self.file_faults = self.file_faults.saturating_add(1);
            return Err(FolderFault::Failed);
        }
        match open_item(alloc, self.items.as_slice(), path)? {
            Some(source) => {
                self.opened = self.opened.saturating_add(1);
                Ok(source)
            }
            None => {
                self.file_faults = self.file_faults.saturating_add(1);
                Err(FolderFault::Failed)
            }
        }
    }

    fn open_at(&mut self, alloc: Global, path: &str, at: u64) -> Result<MemSource, FolderFault>
        ensures listed { IsTrue (next_fails self.old.fails self.old.calls) → IsTrue (has_failed result) }
        ensures failed { IsTrue (has_failed result) → IsTrue (next_fails self.old.fails self.old.calls || is_none (source_at self.old.items path.now)) }
        ensures calls { self.new.calls ≡ raised self.old.calls 1 }
        ensures same_items { self.new.items ≡ self.old.items }
        ensures same_fails { self.new.fails ≡ self.old.fails }
        ensures bytes { IfOk result (λ source. HasBytesFrom at (contents_of self.old.items path.now) (Some source.left)) }
        ensures no_faults { IfOk result (λ source. source.faults ≡ 0) }
        ensures unread { IfOk result (λ source. source.moved ≡ 0) }
        ensures asked { Some self.new.asked ≡ asked_after result path.now (Some self.old.asked) }
        ensures opened { IfOk result (λ _. self.new.opened ≡ raised self.old.opened 1) }
        ensures opened_stays { OnErr result (self.new.opened ≡ self.old.opened) }
        ensures rose { FailedRose result self.old.file_faults self.new.file_faults }
        ensures never_falls { self.old.file_faults ≤ self.new.file_faults }
        ensures at_stays { self.new.at ≡ self.old.at }
        ensures entries_stay { self.new.entries ≡ self.old.entries }
        ensures returned_stays { self.new.returned ≡ self.old.returned }
        ensures entry_faults_stay { self.new.entry_faults ≡ self.old.entry_faults }
    {
        self.calls = self.calls.saturating_add(1);
        if is_listed(self.fails.as_slice(), self.calls) {
            self.asked.push(traced(path.as_bytes()));
            self.file_faults = self.file_faults.saturating_add(1);
            return Err(FolderFault::Failed);
        }
        let opened = open_item(alloc, self.items.as_slice(), path)?;
        self.asked.push(traced(path.as_bytes()));
        match opened {
            Some(source) => {
                self.opened = self.opened.saturating_add(1);
                Ok(source.from_place(at))
            }
            None => {
                self.file_faults = self.file_faults.saturating_add(1);
                Err(FolderFault::Failed)
            }
        }
    }

    fn done(&mut self, file: MemSource) {
        self.returned = self.returned.saturating_add(1);
        self.file_faults = self.file_faults.saturating_add(file.faults());
    }

    fn restart(&mut self) {
        self.at = 0;
    }
}
