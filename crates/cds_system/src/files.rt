//! The folders of the real file system. They tell only the paths and kinds that they gave, and count their faults. What the file
//! system gives is trusted.

ghost use Rattle.std.specs.Prelude.{◌≡◌, ◌∷◌, ◌++◌, [], IfOk, OnErr, None};
ghost use Rattle.cds_system.specs.Given.{GivesEntry, IsPathOf};

use crate::given::Given;
use crate::streams::Input;
use crate::walk::{Walk, fault_of, joined, open_folder};
use cds_base::{Mem, Text};
use cds_outside::{Entry, Folder, FolderFault, OutsideFault};
use std::alloc::Global;
use std::fs;
use std::io::{BufReader, ErrorKind, Seek, SeekFrom};
use std::rt::Files;

/// The number of bytes of a file that are read at once.
const PIECE: usize = 4096;

/// A folder of the real file system, whose whole tree is listed.
#[derive(Drop)]
pub struct RealFolder<R: Files + AllocGlobal + Clone + Drop> {
    rt: R,
    root: Text,
    walk: Walk<R>,
    given: Given,
    entries: u64,
    opened: u64,
    returned: u64,
    entry_faults: u64,
    file_faults: u64,
}

impl<R: Files + AllocGlobal + Clone + Drop> RealFolder<R> {
    /// Returns how many calls of `entry` failed.
    pub fn entry_faults(&self) -> u64
        ensures { result ≡ self.now.entry_faults }
    {
        self.entry_faults
    }

    /// Returns the next entry of the walk, if there is room for it.
    #[tactic(auto, using(crate::proofs::Guarded::gives_entry))]
    fn give(&mut self, alloc: Global) -> Result<Entry, FolderFault>
        ensures given { IfOk result (λ e. GivesEntry self.old.given e self.new.given) }
        ensures entries_stay { self.new.entries ≡ self.old.entries }
        ensures opened_stays { self.new.opened ≡ self.old.opened }
        ensures returned_stays { self.new.returned ≡ self.old.returned }
        ensures entry_faults_stay { self.new.entry_faults ≡ self.old.entry_faults }
        ensures file_faults_stay { self.new.file_faults ≡ self.old.file_faults }
    {
        self.given.facts();
        let entry = self.walk.next(alloc)?;
        match entry_path(alloc, &entry)? {
            None => Ok(entry),
            Some(path) => {
                if self.given.has_room(self.walk.here(), &path) {
                    Ok(self.given.add(path, entry)?)
                } else {
                    drop(entry);
                    drop(path);
                    Err(FolderFault::Failed)
                }
            }
        }
    }

    /// Begins the tree anew.
    fn begin(&mut self)
        ensures given { self.new.given ≡ [] }
        ensures entries_stay { self.new.entries ≡ self.old.entries }
        ensures opened_stays { self.new.opened ≡ self.old.opened }
        ensures returned_stays { self.new.returned ≡ self.old.returned }
        ensures entry_faults_stay { self.new.entry_faults ≡ self.old.entry_faults }
        ensures file_faults_stay { self.new.file_faults ≡ self.old.file_faults }
    {
        self.walk.restart();
        self.given.clear();
    }
}

/// Returns the path of an entry; the end has none.
fn entry_path(alloc: Global, entry: &Entry) -> Result<Option<Text>, Mem>
    ensures { IfOk result (λ path. IsPathOf path entry.now) }
{
    match entry {
        Entry::Folder { path } => Ok(Some(path.copy(alloc)?)),
        Entry::File { path, .. } => Ok(Some(path.copy(alloc)?)),
        Entry::End => Ok(None),
    }
}

impl<R: Files + AllocGlobal + Clone + Drop> Folder for RealFolder<R> {
    ghost use Rattle.std.specs.Prelude.{None};

    type File = Input<BufReader<R::File>>;

    ghost told = { λ s.
        record {
          tree = None;
          contents = None;
          given = s.given;
          entries = s.entries;
          opened = s.opened;
          returned = s.returned;
          asked = None;
          entry_faults = s.entry_faults;
          file_faults = s.file_faults;
        } };

    fn entry(&mut self, alloc: Global) -> Result<Entry, FolderFault> {
        match self.give(alloc) {
            Ok(Entry::End) => {
                self.begin();
                Ok(Entry::End)
            }
            Ok(Entry::Folder { path }) => {
                self.entries = self.entries.saturating_add(1);
                Ok(Entry::Folder { path })
            }
            Ok(Entry::File { path, size }) => {
                self.entries = self.entries.saturating_add(1);
                Ok(Entry::File { path, size })
            }
            Err(FolderFault::Failed) => {
                self.begin();
                self.entry_faults = self.entry_faults.saturating_add(1);
                Err(FolderFault::Failed)
            }
            Err(FolderFault::Mem) => {
                self.begin();
                Err(FolderFault::Mem)
            }
        }
    }

    fn open(
        &mut self,
        alloc: Global,
        path: &str,
    ) -> Result<Input<BufReader<R::File>>, FolderFault> {
        let place = joined(alloc, &self.root, path)?;
        match open_file(&self.rt, alloc, place.as_str()) {
            Ok(file) => {
                self.opened = self.opened.saturating_add(1);
                Ok(file)
            }
            Err(FolderFault::Failed) => {
                self.file_faults = self.file_faults.saturating_add(1);
                Err(FolderFault::Failed)
            }
            Err(FolderFault::Mem) => Err(FolderFault::Mem),
        }
    }

    fn open_at(
        &mut self,
        alloc: Global,
        path: &str,
        at: u64,
    ) -> Result<Input<BufReader<R::File>>, FolderFault> {
        let place = joined(alloc, &self.root, path)?;
        match open_file_at(&self.rt, alloc, place.as_str(), at) {
            Ok(file) => {
                self.opened = self.opened.saturating_add(1);
                Ok(file)
            }
            Err(FolderFault::Failed) => {
                self.file_faults = self.file_faults.saturating_add(1);
                Err(FolderFault::Failed)
            }
            Err(FolderFault::Mem) => Err(FolderFault::Mem),
        }
    }

    fn done(&mut self, file: Input<BufReader<R::File>>) {
        self.returned = self.returned.saturating_add(1);
        self.file_faults = self.file_faults.saturating_add(file.faults());
    }

    fn restart(&mut self) {
        self.begin();
    }
}

/// Opens a file, to be read in pieces.
fn open_file<R: Files + AllocGlobal + Clone + Drop>(
    rt: &R,
    alloc: Global,
    place: &str,
) -> Result<Input<BufReader<R::File>>, FolderFault>
    ensures no_faults { IfOk result (λ file. file.faults ≡ 0) }
    ensures unread { IfOk result (λ file. file.moved ≡ 0) }
{
    match fs::open(rt, place) {
        Ok(file) => match BufReader::with_capacity(alloc, PIECE, file) {
            Ok(reader) => Ok(Input::new(reader)),
            Err(_) => Err(FolderFault::Mem),
        },
        Err(error) if error.kind() == ErrorKind::OutOfMemory => Err(FolderFault::Mem),
        Err(_) => Err(FolderFault::Failed),
    }
}

/// Opens a file at a place, to be read in pieces. What is no file is refused.
fn open_file_at<R: Files + AllocGlobal + Clone + Drop>(
    rt: &R,
    alloc: Global,
    place: &str,
    at: u64,
) -> Result<Input<BufReader<R::File>>, FolderFault>
    ensures no_faults { IfOk result (λ file. file.faults ≡ 0) }
    ensures unread { IfOk result (λ file. file.moved ≡ 0) }
{
    match fs::metadata(rt, place) {
        Ok(found) if found.is_file() => {}
        Ok(_) => return Err(FolderFault::Failed),
        Err(error) => return Err(fault_of(&error)),
    }
    match fs::open(rt, place) {
        Ok(mut file) => match file.seek(SeekFrom::Start(at)) {
            Ok(_) => match BufReader::with_capacity(alloc, PIECE, file) {
                Ok(reader) => Ok(Input::new(reader)),
                Err(_) => Err(FolderFault::Mem),
            },
            Err(error) => Err(fault_of(&error)),
        },
        Err(error) => Err(fault_of(&error)),
    }
}

/// Looks at the root of a folder. `Failed` comes if it is missing, is no folder or may not be read.
fn look_at_root<R: Files + AllocGlobal + Clone + Drop>(
    rt: &R,
    alloc: Global,
    root: &Text,
) -> Result<(), OutsideFault> {
    match open_folder(rt, alloc, root) {
        Ok(_) => Ok(()),
        Err(error) if error.kind() == ErrorKind::OutOfMemory => Err(OutsideFault::Mem),
        Err(_) => Err(OutsideFault::Failed),
    }
}

/// Returns the folder at a path; nothing was asked of it yet. `Failed` comes if the path leads to no folder that can be read.
pub fn real_folder<R: Files + AllocGlobal + Clone + Drop>(
    rt: &R,
    alloc: Global,
    path: &str,
) -> Result<RealFolder<R>, OutsideFault>
    ensures given { IfOk result (λ folder. folder.given ≡ []) }
    ensures entries { IfOk result (λ folder. folder.entries ≡ 0) }
    ensures opened { IfOk result (λ folder. folder.opened ≡ 0) }
    ensures returned { IfOk result (λ folder. folder.returned ≡ 0) }
    ensures entry_faults { IfOk result (λ folder. folder.entry_faults ≡ 0) }
    ensures file_faults { IfOk result (λ folder. folder.file_faults ≡ 0) }
{
    let root = Text::read(alloc, path)?;
    look_at_root(rt, alloc, &root)?;
    made_folder(rt, alloc, root)
}

/// Makes a folder with this root; nothing was asked of it yet.
fn made_folder<R: Files + AllocGlobal + Clone + Drop>(
    rt: &R,
    alloc: Global,
    root: Text,
) -> Result<RealFolder<R>, OutsideFault>
    ensures given { IfOk result (λ folder. folder.given ≡ []) }
    ensures entries { IfOk result (λ folder. folder.entries ≡ 0) }
    ensures opened { IfOk result (λ folder. folder.opened ≡ 0) }
    ensures returned { IfOk result (λ folder. folder.returned ≡ 0) }
    ensures entry_faults { IfOk result (λ folder. folder.entry_faults ≡ 0) }
    ensures file_faults { IfOk result (λ folder. folder.file_faults ≡ 0) }
{
    let walked = root.copy(alloc)?;
    let (walking, rt) = two_owners(rt)?;
    Ok(RealFolder {
        rt,
        root,
        walk: Walk::new(walking, alloc, walked),
        given: Given::new(alloc),
        entries: 0,
        opened: 0,
        returned: 0,
        entry_faults: 0,
        file_faults: 0,
    })
}

/// Returns two more owners of the runtime.
fn two_owners<R: Clone + Drop>(rt: &R) -> Result<(R, R), Mem> {
    let first = rt.clone()?;
    let second = rt.clone()?;
    Ok((first, second))
}
