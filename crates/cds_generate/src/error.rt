//! Why a script was not written to its end.

ghost use Rattle.std.specs.Prelude.{◌≡◌};

use cds_base::Mem;
use std::convert::From;
use thiserror::Error;

/// Why a generated script was not written to its end.
#[derive(Clone, Copy, Debug, PartialEq, Eq, Error)]
pub enum GenerateError {
    /// The sink could not be written.
    #[error("the script could not be written")]
    WriteFault,
    #[error("out of memory")]
    Mem,
}

impl From<Mem> for GenerateError {
    ghost use Rattle.cds_generate.specs.declared.error.GenerateError.{GenerateError};

    ghost from_gives = { λ _ r. r ≡ GenerateError.Mem };

    fn from(_: Mem) -> Self {
        GenerateError::Mem
    }
}
