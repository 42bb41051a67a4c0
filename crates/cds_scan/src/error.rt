//! Why a folder was not scanned.

ghost use Rattle.std.specs.Prelude.{◌≡◌};
ghost use Rattle.cds_scan.specs.declared.error.ScanError.TheVariants.{Mem};
ghost use Rattle.cds_scan.specs.Faults.{scan_fault};

use cds_outside::FolderFault;
use std::convert::From;
use thiserror::Error;

/// Why a folder was not scanned.
#[derive(Clone, Copy, Debug, PartialEq, Eq, Error)]
pub enum ScanError {
    /// The folder gave no entry. Its count of faults of entries says so.
    #[error("the folder failed")]
    FolderFault,
    /// An entry's path of this many bytes is one that no object may have.
    #[error("a path of {bytes} bytes that no object may have")]
    TooDeep { bytes: usize },
    /// This many objects would stand beside the root, one more than there may be.
    #[error("{objects} objects are too many")]
    Full { objects: u32 },
    /// More than 1,048,576 entries came.
    #[error("too many entries")]
    TooMany,
    #[error("out of memory")]
    Mem,
}

impl From<FolderFault> for ScanError {
    ghost from_gives = { λ fault e. e ≡ scan_fault fault };

    fn from(fault: FolderFault) -> Self {
        match fault {
            FolderFault::Failed => ScanError::FolderFault,
            FolderFault::Mem => ScanError::Mem,
        }
    }
}

impl From<cds_base::Mem> for ScanError {
    ghost from_gives = { λ _ e. e ≡ Mem };

    fn from(_e: cds_base::Mem) -> Self {
        ScanError::Mem
    }
}
