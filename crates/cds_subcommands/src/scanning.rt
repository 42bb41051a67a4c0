//! Scans a folder, and writes what was found in it.

ghost use Rattle.std.specs.Prelude.{◌≡◌, ◌⊎◌, ◌≤◌, ◌++◌, ◌∷◌, [], None, Err, IfOk, OnOk, length, slice_get};
ghost use Rattle.std.specs.List.{flat_map};
ghost use Rattle.cds_outside.specs.Entries.{IsUnasked};
ghost use Rattle.cds_outside.specs.Outside.{Rose, Told};
ghost use Rattle.cds_object.specs.Fragment.{fragment, full_text};
ghost use Rattle.cds_catalog.specs.Catalog.{catalog};
ghost use Rattle.cds_catalog.specs.Scans.{bad_record};
ghost use Rattle.cds_script.specs.Word.{encoded, encoded_byte, hex_digit, is_plain_byte};
ghost use Rattle.cds_store.specs.Rows.{rows_of};
ghost use Rattle.cds_script.specs.Report.{limit_ending};
ghost use Rattle.cds_scan.specs.declared.error.ScanError.TheVariants.{FolderFault};
ghost use Rattle.cds_subcommands.specs.Found.{CanStand, EndsFound, ReturnsDone, WritesFound, line_of};
ghost use Rattle.cds_subcommands.specs.Run.{Ends, Writes};
ghost use Rattle.cds_subcommands.specs.Scan.{AsksFor, EndsScan, GivesBack, WritesScan, one_scan, refused_line, scan_ending};

use crate::written::write_text;
use cds_base::Mem;
use cds_didl::put_fragment;
use cds_object::{Records, Row};
use cds_outside::{Outside, OutsideFault, Sink};
use cds_scan::{Refused, RefusedFile, Scan, ScanError, scan};
use cds_store::{ApplyError, Keeping, Store, View};
use std::alloc::Global;

/// Scans the folder at a path once. Writes each row of its catalog and LF, and then `refused PATH` for each file that was refused
/// (status 0). If the scan stopped at an entry, writes `error limit` (6). If the folder could not be read the status is 2, if the
/// sink could not be written 3, and if memory ran out 4.
pub fn scan_folder<O: Outside, K: Sink>(
    alloc: Global,
    path: &str,
    outside: &mut O,
    sink: &mut K,
) -> u8
    ensures ends { EndsScan (O.told outside.old).ended (O.told outside.new).ended result }
    ensures writes { Told (K.told sink.old).holds (λ before. WritesScan (O.told outside.old).ended (O.told outside.new).ended result before (K.told sink.new).holds) }
    ensures asks { AsksFor path.now (O.told outside.old).asked (O.told outside.new).asked }
    ensures back { GivesBack (O.told outside.old).ended (O.told outside.new).ended }
    ensures ended_links_stay { (O.told outside.new).ended_links ≡ (O.told outside.old).ended_links }
    ensures outside_fault { result ≡ 2 → Rose (O.told outside.old).faults (O.told outside.new).faults }
    ensures write_fault { result ≡ 3 → Rose (K.told sink.old).faults (K.told sink.new).faults }
    ensures known { (result ≡ 0) ⊎ ((result ≡ 6) ⊎ ((result ≡ 2) ⊎ ((result ≡ 3) ⊎ (result ≡ 4)))) }
{
    match outside.folder(alloc, path) {
        Ok(folder) => scan_given(alloc, folder, outside, sink),
        Err(OutsideFault::Failed) => 2,
        Err(OutsideFault::Mem) => 4,
    }
}

/// Scans a folder that the outside gave, hands it back, and writes what was found.
fn scan_given<O: Outside, K: Sink>(alloc: Global, given: O::F, outside: &mut O, sink: &mut K) -> u8
    requires unasked { IsUnasked (O.F.told given) }
    ensures ends { EndsScan (O.told outside.old).ended (O.told outside.new).ended result }
    ensures writes { Told (K.told sink.old).holds (λ before. WritesScan (O.told outside.old).ended (O.told outside.new).ended result before (K.told sink.new).holds) }
    ensures others_stay { O.told outside.new ≡ record (O.told outside.old) { faults = (O.told outside.new).faults; ended = (O.told outside.new).ended } }
    ensures back { ReturnsDone (O.told outside.old).ended (O.told outside.new).ended }
    ensures outside_fault { result ≡ 2 → Rose (O.told outside.old).faults (O.told outside.new).faults }
    ensures write_fault { result ≡ 3 → Rose (K.told sink.old).faults (K.told sink.new).faults }
    ensures known { (result ≡ 0) ⊎ ((result ≡ 6) ⊎ ((result ≡ 2) ⊎ ((result ≡ 3) ⊎ (result ≡ 4)))) }
{
    let mut folder = given;
    let found = scan(alloc, &mut folder);
    outside.end_folder(folder);
    write_found(alloc, found, sink)
}

/// Writes what a scan found, or why it stopped.
fn write_found<K: Sink>(alloc: Global, found: Result<Scan, ScanError>, sink: &mut K) -> u8
    requires { IfOk found CanStand }
    ensures ends { EndsFound found result }
    ensures writes { Told (K.told sink.old).holds (λ before. WritesFound found result before (K.told sink.new).holds) }
    ensures write_fault { result ≡ 3 → Rose (K.told sink.old).faults (K.told sink.new).faults }
    ensures folder_fault { result ≡ 2 → found ≡ Err FolderFault }
    ensures known { (result ≡ 0) ⊎ ((result ≡ 6) ⊎ ((result ≡ 2) ⊎ ((result ≡ 3) ⊎ (result ≡ 4)))) }
{
    match found {
        Ok(scan) => write_scan(alloc, &scan, sink),
        Err(ScanError::FolderFault) => 2,
        Err(ScanError::Mem) => 4,
        Err(ScanError::TooDeep { .. }) => write_limit(sink),
        Err(ScanError::Full { .. }) => write_limit(sink),
        Err(ScanError::TooMany) => write_limit(sink),
    }
}

/// Writes that a limit was passed, and answers 6.
fn write_limit<K: Sink>(sink: &mut K) -> u8
    ensures ends { Ends result 6 }
    ensures writes { Told (K.told sink.old).holds (λ before. Writes result limit_ending.text before (K.told sink.new).holds) }
    ensures write_fault { result ≡ 3 → Rose (K.told sink.old).faults (K.told sink.new).faults }
    ensures text { (result ≡ 6) ⊎ (result ≡ 3) }
{
    write_text(sink, b"error limit\n", 6)
}

/// Writes what a scan found, and answers 0.
fn write_scan<K: Sink>(alloc: Global, scan: &Scan, sink: &mut K) -> u8
    requires { CanStand scan.now }
    ensures ends { Ends result 0 }
    ensures writes { Told (K.told sink.old).holds (λ before. Writes result (scan_ending scan.now).text before (K.told sink.new).holds) }
    ensures write_fault { result ≡ 3 → Rose (K.told sink.old).faults (K.told sink.new).faults }
    ensures known { (result ≡ 0) ⊎ ((result ≡ 3) ⊎ (result ≡ 4)) }
{
    let mut out = Vec::new(alloc);
    match put_scan(alloc, &mut out, scan) {
        Ok(()) => write_text(sink, out.as_slice(), 0),
        Err(Mem) => 4,
    }
}

/// Puts what a scan found at the end: the rows of its catalog, and then the refused files.
fn put_scan(alloc: Global, out: &mut Vec<u8>, scan: &Scan) -> Result<(), Mem>
    requires stands { CanStand scan.now }
    requires fresh { out.old.items ≡ [] }
    ensures { OnOk result (out.new.items ≡ (scan_ending scan.now).text) }
{
    put_catalog(alloc, out, &scan.records)?;
    put_all_refused(out, scan.refused.as_slice())?;
    Ok(())
}

/// Puts the rows of the catalog after one scan of records that can all stand.
fn put_catalog(alloc: Global, out: &mut Vec<u8>, records: &Records) -> Result<(), Mem>
    requires stands { bad_record records.now ≡ None }
    requires few { length records.now ≤ 65535 }
    ensures { OnOk result (out.new.items ≡ out.old.items ++ full_text (catalog (one_scan records.now))) }
{
    let store = store_of(alloc, records)?;
    put_rows(alloc, out, &store)
}

/// Returns a store that begins at the number 0, after one scan of records that can all stand.
fn store_of(alloc: Global, records: &Records) -> Result<Store, Mem>
    requires stands { bad_record records.now ≡ None }
    requires few { length records.now ≤ 65535 }
    ensures { IfOk result (λ store. rows_of store.standing.rows ≡ catalog (one_scan records.now)) }
{
    let mut store = Store::new(alloc, 0)?;
    match store.apply(alloc, records) {
        Ok(_) => Ok(store),
        Err(ApplyError::Mem) => {
            drop(store);
            Err(Mem)
        }
        Err(_) => unreachable!(),
    }
}

/// Puts the rows of a store, each ended by LF.
fn put_rows(alloc: Global, out: &mut Vec<u8>, store: &Store) -> Result<(), Mem>
    ensures { OnOk result (out.new.items ≡ out.old.items ++ full_text (rows_of store.now.standing.rows)) }
{
    for at in 0..store.len() {
        put_row_at(alloc, out, store, at)?;
    }
    Ok(())
}

/// Puts the row at a place, ended by LF, or nothing if there is none.
fn put_row_at(alloc: Global, out: &mut Vec<u8>, store: &Store, at: usize) -> Result<(), Mem>
    ensures { OnOk result (out.new.items ≡ out.old.items ++ line_of (slice_get (rows_of store.now.standing.rows) at)) }
{
    match store.row(at) {
        None => Ok(()),
        Some(row) => put_row(alloc, out, row),
    }
}

/// Puts a row, ended by LF.
fn put_row(alloc: Global, out: &mut Vec<u8>, row: &Row) -> Result<(), Mem>
    ensures { OnOk result (out.new.items ≡ out.old.items ++ (fragment row.now ++ 10 ∷ [])) }
{
    let mut text = String::new(alloc);
    put_fragment(&mut text, row)?;
    put_line(out, text.as_bytes())
}

/// Puts bytes, ended by LF.
fn put_line(out: &mut Vec<u8>, bytes: &[u8]) -> Result<(), Mem>
    ensures { OnOk result (out.new.items ≡ out.old.items ++ (bytes.now ++ 10 ∷ [])) }
{
    out.extend_from_slice(bytes)?;
    out.push(b'\n')?;
    Ok(())
}

/// Puts a line for each file that was refused.
fn put_all_refused(out: &mut Vec<u8>, files: &[RefusedFile]) -> Result<(), Mem>
    ensures { OnOk result (out.new.items ≡ out.old.items ++ flat_map refused_line files.now) }
{
    for file in files {
        put_refused(out, file)?;
    }
    Ok(())
}

/// Puts the line of a file that was refused.
fn put_refused(out: &mut Vec<u8>, file: &RefusedFile) -> Result<(), Mem>
    ensures { OnOk result (out.new.items ≡ out.old.items ++ refused_line file.now) }
{
    out.extend_from_slice(b"refused ")?;
    put_word(out, file.path.as_str().as_bytes())?;
    out.push(b'\n')?;
    Ok(())
}

/// Puts bytes as a word: visible ASCII except `%` as it is, and every other byte as `%` and two upper-case digits.
#[tactic(auto, using(crate::proofs::Scanned::encoded_each))]
fn put_word(out: &mut Vec<u8>, bytes: &[u8]) -> Result<(), Mem>
    ensures { OnOk result (out.new.items ≡ out.old.items ++ encoded bytes.now) }
{
    put_bytes(out, bytes)?;
    Ok(())
}

fn put_bytes(out: &mut Vec<u8>, bytes: &[u8]) -> Result<(), Mem>
    ensures { OnOk result (out.new.items ≡ out.old.items ++ flat_map encoded_byte bytes.now) }
{
    for byte in bytes {
        put_byte(out, *byte)?;
    }
    Ok(())
}

/// Puts a byte of a word.
fn put_byte(out: &mut Vec<u8>, byte: u8) -> Result<(), Mem>
    ensures { OnOk result (out.new.items ≡ out.old.items ++ encoded_byte byte) }
{
    if is_plain(byte) {
        out.push(byte)?;
    } else {
        out.push(b'%')?;
        out.push(digit(byte / 16))?;
        out.push(digit(byte % 16))?;
    }
    Ok(())
}

/// Returns whether a byte stands for itself in a word.
fn is_plain(byte: u8) -> bool
    ensures { result ≡ is_plain_byte byte }
{
    0x21 <= byte && byte <= 0x7E && byte != b'%'
}

/// Returns the upper-case hexadecimal digit of a value below 16.
fn digit(value: u8) -> u8
    requires { value ≤ 15 }
    ensures { result ≡ hex_digit value }
{
    if value < 10 {
        b'0' + value
    } else {
        b'A' + (value - 10)
    }
}
