//! Why changes were not counted on a copy.

use cds_base::Mem;
use std::alloc::AllocError;
use std::convert::From;
use thiserror::Error;

/// Why changes were not counted on a copy. The copy is then as before.
#[derive(Clone, Copy, Debug, PartialEq, Eq, Error)]
pub enum CountError {
    /// The first change is not the one after the position.
    #[error("change {first} came where {expected} was to come")]
    Jump { expected: u32, first: u32 },
    /// What was told of this object cannot be.
    #[error("what was told of object {id} cannot be")]
    Torn { id: u32 },
    /// Memory ran out.
    #[error("out of memory")]
    Mem,
}

impl From<Mem> for CountError {
    ghost use Rattle.std.specs.Prelude.{◌≡◌};
    ghost use Rattle.cds_replica.specs.declared.count_error.CountError.{CountError};

    ghost from_gives = { λ _ r. r ≡ CountError.Mem };

    fn from(_: Mem) -> Self {
        CountError::Mem
    }
}

impl From<AllocError> for CountError {
    ghost use Rattle.std.specs.Prelude.{◌≡◌};
    ghost use Rattle.cds_replica.specs.declared.count_error.CountError.{CountError};

    ghost from_gives = { λ _ r. r ≡ CountError.Mem };

    fn from(_: AllocError) -> Self {
        CountError::Mem
    }
}
