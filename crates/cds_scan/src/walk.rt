//! Scanning a folder: the walk over its tree, entry by entry.

ghost use Rattle.std.specs.Prelude.{◌≡◌, ◌+◌, ◌≤◌, [], None, IfOk, IfErr};
ghost use Rattle.std.specs.List.{count_by};
ghost use Rattle.cds_outside.specs.declared.folder.Entry.TheVariants.{File as FileEntry};
ghost use Rattle.cds_catalog.specs.Scans.{bad_record};
ghost use Rattle.cds_scan.specs.Found.{Adds};
ghost use Rattle.cds_scan.specs.Scanning.{CameBack, Covers, GoesOn, IsRefusedBy, IsScanOf, is_read_fault};
ghost use Rattle.cds_scan.specs.Reading.{HasSamples};
ghost use Rattle.cds_scan.specs.Walking.{IsEntryFault, IsFolderFault, IsFolderLeft, IsGiven, IsOver, IsPlaceAnswer, IsStep, IsStepFault, IsTrackFault, TakesEntry, TakesFolder, Walked, is_the_end, outcome_of};

use crate::file::{Reading, read_file};
use crate::found::Found;
use crate::name::ends_in_flac;
use crate::{Scan, ScanError};
use cds_base::Text;
use cds_object::{Path, PathError, content_of, folder_of};
use cds_outside::{Entry, Folder};
use std::alloc::Global;

/// The largest number of entries that a folder may have.
const MOST_ENTRIES: u32 = 1_048_576;

/// Scans a folder from its beginning. What becomes of an entry:
///
/// - A folder is a record.
/// - A file whose name ends in `.flac` in any ASCII case is a record if it is read (RFC 9639). Otherwise it is refused, and the
///   scan goes on.
/// - Every other file is passed over.
///
/// `TooDeep` comes at the first path that no object may have. `Full` comes at the 65,536th record. `TooMany` comes if more than
/// 1,048,576 entries come. The first of these in the order of entries decides. `FolderFault` comes only if the folder's count of
/// faults of entries rose. The records can all stand: a store takes them.
pub fn scan<F: Folder>(alloc: Global, folder: &mut F) -> Result<Scan, ScanError>
    ensures found { IfOk result (IsScanOf (F.told folder.old)) }
    ensures stands { IfOk result (λ scan. bad_record scan.records ≡ None) }
    ensures refused { IfErr result (IsRefusedBy (F.told folder.old) (F.told folder.new)) }
    ensures read_faults { IfOk result (λ scan. Covers (count_by (λ file. is_read_fault file.error) scan.refused) (F.told folder.old).file_faults (F.told folder.new).file_faults) }
    ensures goes { GoesOn (F.told folder.old) (F.told folder.new) }
{
    folder.restart();
    let found = walk(alloc, folder)?;
    let scan = found.into_scan(alloc)?;
    Ok(scan)
}

/// Walks over the whole tree, of which nothing was given yet.
fn walk<F: Folder>(alloc: Global, folder: &mut F) -> Result<Found, ScanError>
    requires { (F.told folder.old).given ≡ [] }
    ensures walked { IfOk result (λ found. Walked (F.told folder.old).tree (F.told folder.old).contents found (F.told folder.old).file_faults (F.told folder.new).file_faults) }
    ensures refused { IfErr result (IsRefusedBy (F.told folder.old) (F.told folder.new)) }
    ensures goes { GoesOn (F.told folder.old) (F.told folder.new) }
{
    let mut found = Found::new(alloc);
    let mut count = 0;
    'entries: while count < MOST_ENTRIES {
        let ended = take_next(alloc, folder, &mut found)?;
        if ended {
            return Ok(found);
        }
        count += 1;
    }
    let over = is_over(alloc, folder)?;
    if over {
        return Ok(found);
    }
    Err(ScanError::TooMany)
}

/// Takes the next entry, and returns whether the tree ended instead.
fn take_next<F: Folder>(alloc: Global, folder: &mut F, found: &mut Found) -> Result<bool, ScanError>
    ensures ok { IfOk result (λ ended. IsStep ended (F.told folder.old).tree (F.told folder.old).contents (F.told folder.old).given (F.told folder.new).given found.old found.new (F.told folder.old).file_faults (F.told folder.new).file_faults) }
    ensures err { IfErr result (λ e. IsStepFault (F.told folder.old).tree (F.told folder.old).contents (F.told folder.old).given found.old (F.told folder.old).entry_faults (F.told folder.new).entry_faults e) }
    ensures entry_faults_stay { IfOk result (λ _. (F.told folder.new).entry_faults ≡ (F.told folder.old).entry_faults) }
    ensures never_falls { (F.told folder.old).file_faults ≤ (F.told folder.new).file_faults }
    ensures entry_faults_rise { (F.told folder.old).entry_faults ≤ (F.told folder.new).entry_faults }
    ensures ends { (F.told folder.new).entries ≤ (F.told folder.old).entries + 1 }
    ensures back { CameBack (F.told folder.old).opened (F.told folder.new).opened (F.told folder.old).returned (F.told folder.new).returned }
    ensures tree_stays { (F.told folder.new).tree ≡ (F.told folder.old).tree }
    ensures contents_stay { (F.told folder.new).contents ≡ (F.told folder.old).contents }
{
    let entry = folder.entry(alloc)?;
    if is_end(&entry) {
        return Ok(true);
    }
    take_entry(alloc, folder, found, entry)?;
    Ok(false)
}

/// Returns whether the tree ends, so that no more entry comes.
fn is_over<F: Folder>(alloc: Global, folder: &mut F) -> Result<bool, ScanError>
    ensures ok { IfOk result (λ over. IsOver over (F.told folder.old).tree (F.told folder.old).given) }
    ensures err { IfErr result (λ e. IsFolderFault (F.told folder.old).entry_faults (F.told folder.new).entry_faults e) }
    ensures ends { (F.told folder.new).entries ≤ (F.told folder.old).entries + 1 }
    ensures entry_faults_rise { (F.told folder.old).entry_faults ≤ (F.told folder.new).entry_faults }
    ensures others_stay { F.told folder.new ≡ record (F.told folder.old) { given = (F.told folder.new).given; entries = (F.told folder.new).entries; entry_faults = (F.told folder.new).entry_faults } }
{
    let entry = folder.entry(alloc)?;
    Ok(is_end(&entry))
}

/// Returns whether an entry is the end of the tree.
fn is_end(entry: &Entry) -> bool
    ensures { result ≡ is_the_end entry.now }
{
    matches!(entry, Entry::End)
}

/// Takes an entry. A folder is kept, a file whose name ends in `.flac` is kept or refused, and every other file is passed over.
fn take_entry<F: Folder>(
    alloc: Global,
    folder: &mut F,
    found: &mut Found,
    entry: Entry,
) -> Result<(), ScanError>
    requires { IsGiven entry (F.told folder.old).given }
    ensures ok { IfOk result (λ _. TakesEntry (F.told folder.old).contents entry found.old found.new (F.told folder.old).file_faults (F.told folder.new).file_faults) }
    ensures err { IfErr result (λ e. IsEntryFault (F.told folder.old).contents entry found.old e) }
    ensures never_falls { (F.told folder.old).file_faults ≤ (F.told folder.new).file_faults }
    ensures back { CameBack (F.told folder.old).opened (F.told folder.new).opened (F.told folder.old).returned (F.told folder.new).returned }
    ensures others_stay { F.told folder.new ≡ record (F.told folder.old) { opened = (F.told folder.new).opened; returned = (F.told folder.new).returned; file_faults = (F.told folder.new).file_faults } }
{
    match entry {
        Entry::Folder { path } => {
            take_folder(alloc, found, path.as_str())?;
            Ok(())
        }
        Entry::File { path, size } => {
            take_file(alloc, folder, found, path, size)?;
            Ok(())
        }
        Entry::End => Ok(()),
    }
}

/// Keeps a folder.
fn take_folder(alloc: Global, found: &mut Found, path: &str) -> Result<(), ScanError>
    ensures ok { IfOk result (λ _. TakesFolder path.now found.old found.new) }
    ensures err { IfErr result (λ e. IsFolderLeft path.now found.old e) }
{
    let place = read_place(alloc, path)?;
    let content = folder_of(alloc, place.name())?;
    found.keep(place, content)?;
    Ok(())
}

/// Returns the place that a path names. Any other path is `TooDeep`.
fn read_place(alloc: Global, path: &str) -> Result<Path, ScanError>
    ensures { IsPlaceAnswer path.now result }
{
    match Path::read(alloc, path) {
        Ok(place) => Ok(place),
        Err(PathError::BadPath { .. }) => Err(ScanError::TooDeep { bytes: path.len() }),
        Err(PathError::Mem) => Err(ScanError::Mem),
    }
}

/// Takes a file. If its name ends in `.flac`, it is kept or refused; otherwise it is passed over.
fn take_file<F: Folder>(
    alloc: Global,
    folder: &mut F,
    found: &mut Found,
    path: Text,
    size: u64,
) -> Result<(), ScanError>
    requires { IsGiven (FileEntry path size) (F.told folder.old).given }
    ensures ok { IfOk result (λ _. TakesEntry (F.told folder.old).contents (FileEntry path size) found.old found.new (F.told folder.old).file_faults (F.told folder.new).file_faults) }
    ensures err { IfErr result (λ e. IsEntryFault (F.told folder.old).contents (FileEntry path size) found.old e) }
    ensures never_falls { (F.told folder.old).file_faults ≤ (F.told folder.new).file_faults }
    ensures back { CameBack (F.told folder.old).opened (F.told folder.new).opened (F.told folder.old).returned (F.told folder.new).returned }
    ensures others_stay { F.told folder.new ≡ record (F.told folder.old) { opened = (F.told folder.new).opened; returned = (F.told folder.new).returned; file_faults = (F.told folder.new).file_faults } }
{
    let place = read_place(alloc, path.as_str())?;
    if !ends_in_flac(place.name()) {
        return Ok(());
    }
    let reading = read_file(alloc, folder, path.as_str())?;
    take_reading(alloc, found, path, place, size, reading)?;
    Ok(())
}

/// Keeps a track that was read, or adds it to the refused files.
fn take_reading(
    alloc: Global,
    found: &mut Found,
    path: Text,
    place: Path,
    size: u64,
    reading: Reading,
) -> Result<(), ScanError>
    requires { HasSamples reading }
    ensures ok { IfOk result (λ _. Adds (outcome_of path place size reading) found.old found.new) }
    ensures err { IfErr result (λ e. IsTrackFault reading found.old e) }
{
    match reading {
        Reading::Read(info) => {
            let content = content_of(alloc, &info, place.name(), size)?;
            found.keep(place, content)?;
        }
        Reading::Unread(error) => found.refuse(path, error)?,
    }
    Ok(())
}
