//! Why a file's metadata was not read.

ghost use Rattle.cds_flac.specs.declared.error.FlacError.TheVariants.{ReadFault, Mem};
ghost use Rattle.std.specs.Prelude.{◌≡◌};

use cds_outside::Failed;
use std::alloc::AllocError;
use thiserror::Error;

/// Why a file's metadata was not read. Places are bytes from the start of the file, from 0.
#[derive(Clone, Copy, Debug, PartialEq, Eq, Error)]
pub enum FlacError {
    /// The first four bytes are not `fLaC`.
    #[error("not a FLAC file")]
    NotFlac,
    /// The first block is not STREAMINFO.
    #[error("no STREAMINFO block")]
    NoStreamInfo,
    /// STREAMINFO has another length than 34.
    #[error("a STREAMINFO block of the wrong length")]
    BadStreamInfo,
    /// The block header at this place has the forbidden type 127.
    #[error("a block of the forbidden type at {at}")]
    Forbidden { at: usize },
    /// The source ended here, before the last block's end.
    #[error("cut off at {at}")]
    Truncated { at: usize },
    /// The length or count here reaches past the block, or the text whose length is here is out of form.
    #[error("a broken comment block at {at}")]
    BadComment { at: usize },
    /// The blocks take more than 67,108,864 bytes.
    #[error("the metadata is too long")]
    TooLong,
    /// The source failed, and its count of faults says so.
    #[error("a read failed")]
    ReadFault,
    #[error("out of memory")]
    Mem,
}

impl From<Failed> for FlacError {
    ghost from_gives = { λ _ e. e ≡ ReadFault };

    fn from(_e: Failed) -> Self {
        FlacError::ReadFault
    }
}

impl From<cds_base::Mem> for FlacError {
    ghost from_gives = { λ _ e. e ≡ Mem };

    fn from(_e: cds_base::Mem) -> Self {
        FlacError::Mem
    }
}

impl From<AllocError> for FlacError {
    ghost from_gives = { λ _ e. e ≡ Mem };

    fn from(_e: AllocError) -> Self {
        FlacError::Mem
    }
}
