//! Why scans are refused.

ghost use Rattle.std.specs.Prelude.{◌≡◌};

use cds_base::Mem;
use std::convert::From;
use thiserror::Error;

/// Why a scan was refused.
#[derive(Debug, Drop, Error)]
pub enum ApplyError {
    /// The first record that cannot stand, counted from 1: no folder holds it, its place came before, or its place is
    /// the root.
    #[error("record {line} cannot stand where it says")]
    BadRecords { line: u32 },
    /// This many objects were found, more than the 65,535 that a library can have.
    #[error("{objects} objects are more than a library can have")]
    Full { objects: u32 },
    /// The scan needs this many numbers, and they lead above 4,294,967,295.
    #[error("there are no numbers left for {needed} changes")]
    Spent { needed: u32 },
    #[error("out of memory")]
    Mem,
}

impl From<Mem> for ApplyError {
    ghost use Rattle.cds_store.specs.declared.error.ApplyError.{ApplyError};

    ghost from_gives = { λ _ r. r ≡ ApplyError.Mem };

    fn from(_: Mem) -> Self {
        ApplyError::Mem
    }
}
