//! The folder of the outside, and the entries of its tree.

use crate::Source;
use cds_base::Text;
use std::alloc::{AllocError, Global};
use std::convert::From;
use std::error::Error;
use std::fmt;

/// What stands next in a folder's tree. Paths lead from the folder, with `/` between the names.
#[derive(Drop, Debug)]
pub enum Entry {
    /// A folder.
    Folder { path: Text },
    /// A file, and its size in bytes.
    File { path: Text, size: u64 },
    /// The end of the tree.
    End,
}

/// Why a folder gave no entry or opened no file.
#[derive(Clone, Copy, Debug, PartialEq, Eq)]
pub enum FolderFault {
    /// The folder failed, and its count of faults says so.
    Failed,
    /// Memory ran out.
    Mem,
}

impl fmt::Display for FolderFault {
    fn fmt<W: fmt::Write>(&self, f: &mut fmt::Formatter<W>) -> fmt::Result {
        match self {
            FolderFault::Failed => write!(f, "a folder failed"),
            FolderFault::Mem => write!(f, "out of memory"),
        }
    }
}

impl Error for FolderFault {}

impl From<cds_base::Mem> for FolderFault {
    ghost use Rattle.std.specs.Prelude.{◌≡◌};
    ghost use Rattle.cds_outside.specs.declared.folder.FolderFault.TheVariants.{Mem};

    ghost from_gives = { λ _ e. e ≡ Mem };

    fn from(_e: cds_base::Mem) -> Self {
        FolderFault::Mem
    }
}

/// A folder. Its whole tree is listed one entry at a time, in any order, and its files can be opened.
pub trait Folder {
    ghost use Rattle.std.specs.Prelude.{◌≡◌, ◌≤◌, [], ◌∷◌, ◌++◌, IsTrue, IfOk, OnErr};
    ghost use Rattle.std.specs.List.{list_any};
    ghost use Rattle.cds_outside.specs.Outside.{raised, Told};
    ghost use Rattle.cds_outside.specs.Entries.{FolderTold, OnEntry, IsNext, HasBytes, HasBytesFrom, FailedRose, and_path, asked_after, is_new, is_tree, is_file_at};

    type File: Source;

    // What it tells of itself.
    ghost told: { Self → FolderTold };

    /// Returns the next entry of the tree. After its end or a refusal the tree begins anew. No path comes twice in a tree. At the
    /// end, the parent of each entry is the root or came as a folder. `Failed` comes only if the count of faults of entries
    /// rises.
    fn entry(&mut self, alloc: Global) -> Result<Entry, FolderFault>
        ensures next { IfOk result (λ e. Told (told self.old).tree (λ t. IsNext t (told self.old).given e)) }
        ensures new { IfOk result (λ e. OnEntry e (IsTrue (is_new (told self.old).given e)) (IsTrue (is_tree (told self.old).given))) }
        ensures given { IfOk result (λ e. OnEntry e ((told self.new).given ≡ (told self.old).given ++ e ∷ []) ((told self.new).given ≡ [])) }
        ensures anew { OnErr result ((told self.new).given ≡ []) }
        ensures count { IfOk result (λ e. OnEntry e ((told self.new).entries ≡ raised (told self.old).entries 1) ((told self.new).entries ≡ (told self.old).entries)) }
        ensures count_stays { OnErr result ((told self.new).entries ≡ (told self.old).entries) }
        ensures rose { FailedRose result (told self.old).entry_faults (told self.new).entry_faults }
        ensures never_falls { (told self.old).entry_faults ≤ (told self.new).entry_faults }
        ensures others_stay { told self.new ≡ record (told self.old) { given = (told self.new).given; entries = (told self.new).entries; entry_faults = (told self.new).entry_faults } };

    /// Opens a file that was given since the tree began. `Failed` comes only if the count of faults of files rises.
    fn open(&mut self, alloc: Global, path: &str) -> Result<Self::File, FolderFault>
        requires { IsTrue (list_any (is_file_at path.now) (told self.old).given) }
        ensures bytes { IfOk result (λ file. Told (told self.old).contents (λ c. HasBytes (c path.now) (Self.File.told file).left)) }
        ensures no_faults { IfOk result (λ file. (Self.File.told file).faults ≡ 0) }
        ensures unread { IfOk result (λ file. (Self.File.told file).moved ≡ 0) }
        ensures opened { IfOk result (λ _. told self.new ≡ record (told self.old) { opened = raised (told self.old).opened 1 }) }
        ensures others_stay { OnErr result (told self.new ≡ record (told self.old) { file_faults = (told self.new).file_faults }) }
        ensures rose { FailedRose result (told self.old).file_faults (told self.new).file_faults }
        ensures never_falls { (told self.old).file_faults ≤ (told self.new).file_faults };

    /// Opens the file at a path, at a place counted in bytes from 0. Any path may be asked for. `Failed` comes only if the count of
    /// faults of files rises. A folder that tells its files tells the path too, except when memory ran out.
    fn open_at(&mut self, alloc: Global, path: &str, at: u64) -> Result<Self::File, FolderFault>
        ensures bytes { IfOk result (λ file. Told (told self.old).contents (λ c. HasBytesFrom at (c path.now) (Self.File.told file).left)) }
        ensures no_faults { IfOk result (λ file. (Self.File.told file).faults ≡ 0) }
        ensures unread { IfOk result (λ file. (Self.File.told file).moved ≡ 0) }
        ensures opened { IfOk result (λ _. told self.new ≡ record (told self.old) { opened = raised (told self.old).opened 1; asked = and_path path.now (told self.old).asked }) }
        ensures others_stay { OnErr result (told self.new ≡ record (told self.old) { asked = asked_after result path.now (told self.old).asked; file_faults = (told self.new).file_faults }) }
        ensures rose { FailedRose result (told self.old).file_faults (told self.new).file_faults }
        ensures never_falls { (told self.old).file_faults ≤ (told self.new).file_faults };

    /// Takes a file back, and adds its count of faults to that of the folder's files.
    fn done(&mut self, file: Self::File)
        ensures returned { told self.new ≡ record (told self.old) { returned = raised (told self.old).returned 1; file_faults = raised (told self.old).file_faults (Self.File.told file).faults } }
        ensures never_falls { (told self.old).file_faults ≤ (told self.new).file_faults };

    /// Begins the tree anew. It takes no memory and has no fault.
    fn restart(&mut self)
        ensures { told self.new ≡ record (told self.old) { given = [] } };
}
