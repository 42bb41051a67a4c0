//! Why a path is refused.

ghost use Rattle.cds_object.specs.declared.error.PathError.{PathError};
ghost use Rattle.std.specs.Prelude.{◌≡◌};

use cds_base::Mem;
use std::convert::From;
use thiserror::Error;

/// Why a text is no path.
#[derive(Clone, Copy, Debug, PartialEq, Eq, Error)]
pub enum PathError {
    /// The place, in bytes from 0, at which the first bad name begins. It is 1,024 if only the length of the text is
    /// wrong.
    #[error("no path: what stands at {at} cannot stand there")]
    BadPath { at: usize },
    #[error("out of memory")]
    Mem,
}

impl From<Mem> for PathError {
    ghost from_gives = { λ _ e. e ≡ PathError.Mem };

    fn from(_e: Mem) -> Self {
        PathError::Mem
    }
}
