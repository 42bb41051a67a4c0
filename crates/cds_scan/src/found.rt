//! What a scan found so far.

ghost use Rattle.std.specs.Prelude.{◌≡◌, [], IfOk, IfErr};
ghost use Rattle.cds_scan.specs.Outcomes.{Kept, Refused as RefusedOutcome};
ghost use Rattle.cds_scan.specs.Found.{Adds, IsKeepFault, paired, placed};

use crate::{Refused, RefusedFile, Scan, ScanError};
use cds_base::{Mem, Text};
use cds_flac::FlacError;
use cds_object::{Content, Path, Record, Records};
use std::alloc::Global;
use std::collections::BTreeMap;
use std::marker::Model;

/// The largest number of objects beside the root.
const MOST_OBJECTS: u32 = 65535;

/// What a scan found so far.
#[derive(Drop)]
pub struct Found {
    records: BTreeMap<Path, Content>,
    refused: BTreeMap<Text, FlacError>,
    kept: u32,
}

impl Model for Found {
    ghost use Rattle.std.specs.Prelude.{◌≤◌};
    ghost use Rattle.cds_scan.specs.Found.{FoundState};

    ghost Value = { FoundState };

    ghost view = { λ f. record { records = f.records.entries; refused = f.refused.entries; kept = f.kept } };

    ghost invariant = { λ f. f.kept ≤ 65535 };
}

impl Found {
    /// Makes a record of nothing yet.
    pub fn new(alloc: Global) -> Self
        ensures { result ≡ record { records = []; refused = []; kept = 0 } }
    {
        Found {
            records: BTreeMap::new(alloc),
            refused: BTreeMap::new(alloc),
            kept: 0,
        }
    }

    /// Keeps a record. The 65,536th is `Full`.
    pub fn keep(&mut self, path: Path, content: Content) -> Result<(), ScanError>
        ensures ok { IfOk result (λ _. Adds (Kept (record { path = path; content = content })) self.old self.new) }
        ensures err { IfErr result (λ e. IsKeepFault self.old e) }
    {
        if self.kept >= MOST_OBJECTS {
            return Err(ScanError::Full {
                objects: MOST_OBJECTS + 1,
            });
        }
        if self.records.insert(path, content).is_err() {
            return Err(ScanError::Mem);
        }
        self.kept += 1;
        Ok(())
    }

    /// Adds a refused file.
    pub fn refuse(&mut self, path: Text, error: FlacError) -> Result<(), Mem>
        ensures { IfOk result (λ _. Adds (RefusedOutcome (record { path = path; error = error })) self.old self.new) }
    {
        self.refused.insert(path, error)?;
        Ok(())
    }

    /// Returns what was found, as lists.
    pub fn into_scan(self, alloc: Global) -> Result<Scan, Mem>
        ensures records { IfOk result (λ scan. placed scan.records ≡ self.records) }
        ensures refused { IfOk result (λ scan. paired scan.refused ≡ self.refused) }
    {
        let records = listed_records(alloc, self.records)?;
        let refused = listed_refusals(alloc, self.refused)?;
        Ok(Scan { records, refused })
    }
}

fn listed_records(alloc: Global, map: BTreeMap<Path, Content>) -> Result<Records, Mem>
    ensures { IfOk result (λ records. placed records ≡ map.entries) }
{
    let mut records = Records::new(alloc);
    for (path, content) in map {
        records.push(Record { path, content })?;
    }
    Ok(records)
}

fn listed_refusals(alloc: Global, map: BTreeMap<Text, FlacError>) -> Result<Refused, Mem>
    ensures { IfOk result (λ files. paired files ≡ map.entries) }
{
    let mut files = Refused::new(alloc);
    for (path, error) in map {
        files.push(RefusedFile { path, error })?;
    }
    Ok(files)
}
