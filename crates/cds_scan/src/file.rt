//! Reading one file of a folder.

ghost use Rattle.std.specs.Prelude.{◌≡◌, ◌≤◌, ◌<◌, ◌^◌, IfOk, IsTrue};
ghost use Rattle.std.specs.List.{list_any};
ghost use Rattle.cds_outside.specs.Entries.{is_file_at};
ghost use Rattle.cds_scan.specs.Reading.{IsReading, IsReadingOf, HasSamples, ReadFaultRose};
ghost use Rattle.cds_scan.specs.Scanning.{CameBack};

use cds_base::Mem;
use cds_flac::{FlacError, FlacInfo, read_flac};
use cds_outside::{Folder, FolderFault};
use std::alloc::Global;

/// What the reading of a file answers.
#[derive(Drop)]
pub enum Reading {
    Read(FlacInfo),
    Unread(FlacError),
}

/// Opens a file of the folder, reads its metadata and hands it back.
pub fn read_file<F: Folder>(alloc: Global, folder: &mut F, path: &str) -> Result<Reading, Mem>
    requires { IsTrue (list_any (is_file_at path.now) (F.told folder.old).given) }
    ensures reading { IfOk result (λ r. IsReading (F.told folder.old).contents path.now r) }
    ensures samples { IfOk result HasSamples }
    ensures rose { IfOk result (λ r. ReadFaultRose r (F.told folder.old).file_faults (F.told folder.new).file_faults) }
    ensures never_falls { (F.told folder.old).file_faults ≤ (F.told folder.new).file_faults }
    ensures back { CameBack (F.told folder.old).opened (F.told folder.new).opened (F.told folder.old).returned (F.told folder.new).returned }
    ensures others_stay { F.told folder.new ≡ record (F.told folder.old) { opened = (F.told folder.new).opened; returned = (F.told folder.new).returned; file_faults = (F.told folder.new).file_faults } }
{
    match folder.open(alloc, path) {
        Ok(mut file) => {
            let info = read_flac(alloc, &mut file);
            folder.done(file);
            reading_of(info)
        }
        Err(FolderFault::Failed) => Ok(Reading::Unread(FlacError::ReadFault)),
        Err(FolderFault::Mem) => Err(Mem),
    }
}

/// Returns the same, with `Mem` told apart from a refusal.
fn reading_of(info: Result<FlacInfo, FlacError>) -> Result<Reading, Mem>
    ensures { IsReadingOf info result }
{
    match info {
        Ok(info) => Ok(Reading::Read(info)),
        Err(FlacError::Mem) => Err(Mem),
        Err(refusal) => Ok(Reading::Unread(refusal)),
    }
}
