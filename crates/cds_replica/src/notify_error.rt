//! Why a note was not taken.

ghost use Rattle.std.specs.Prelude.{◌≡◌};

use cds_base::Mem;
use std::alloc::AllocError;
use std::convert::From;
use thiserror::Error;

/// Why a note was refused, or a name with the notes that came early for it. The replica is then as before.
#[derive(Clone, Copy, Debug, PartialEq, Eq, Error)]
pub enum NotifyError {
    /// The name is not the accepted one, and no subscribe request is out. Or no place near those that were taken has this SEQ.
    #[error("the name or the SEQ of the note is not known")]
    Unknown,
    /// The note cannot be taken now, and this many notes are held.
    #[error("{held} notes are held, and no more are")]
    Full { held: u32 },
    /// The first change above the position is not the one after it.
    #[error("change {first} came where {expected} was to come")]
    Jump { expected: u32, first: u32 },
    /// What is told of this object cannot be.
    #[error("what was told of object {id} cannot be")]
    Torn { id: u32 },
    /// Memory ran out.
    #[error("out of memory")]
    Mem,
}

impl From<AllocError> for NotifyError {
    ghost use Rattle.cds_replica.specs.declared.notify_error.NotifyError.{NotifyError};

    ghost from_gives = { λ _ r. r ≡ NotifyError.Mem };

    fn from(_: AllocError) -> Self {
        NotifyError::Mem
    }
}

impl From<Mem> for NotifyError {
    ghost use Rattle.std.specs.Prelude.{◌≡◌};
    ghost use Rattle.cds_replica.specs.declared.notify_error.NotifyError.{NotifyError};

    ghost from_gives = { λ _ r. r ≡ NotifyError.Mem };

    fn from(_: Mem) -> Self {
        NotifyError::Mem
    }
}
