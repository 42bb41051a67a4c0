//! Why bytes are refused as a message.

ghost use Rattle.std.specs.Prelude.{◌≡◌};
ghost use Rattle.cds_http.specs.declared.error.HttpError.TheVariants.{Mem};

use std::alloc::AllocError;
use thiserror::Error;

/// Why bytes were not read as a message.
#[derive(Clone, Copy, Debug, PartialEq, Eq, Error)]
pub enum HttpError {
    /// The bytes up to the first empty line after a line that is not empty are no head, or have more than 64 fields.
    #[error("no head of HTTP")]
    BadHead,
    /// 16,384 bytes came without a whole head.
    #[error("the head is too long")]
    HeadTooLong,
    /// CONTENT-LENGTH or TRANSFER-ENCODING comes twice or beside the other, or has a value that is not understood.
    #[error("the length of the body is not known")]
    BadLength,
    /// A chunk line, the CR LF after the bytes of a chunk, or the trailer is malformed or too long.
    #[error("a chunk is out of form")]
    BadChunk,
    /// The body has more than 67,108,864 bytes.
    #[error("the body is too long")]
    TooLong,
    /// The connection ended in the middle of the message.
    #[error("the message is cut off")]
    Truncated,
    /// This reader refused a piece before.
    #[error("the reader refused before")]
    Failed,
    #[error("out of memory")]
    Mem,
}

impl From<cds_base::Mem> for HttpError {
    ghost from_gives = { λ _ e. e ≡ Mem };

    fn from(_e: cds_base::Mem) -> Self {
        HttpError::Mem
    }
}

impl From<AllocError> for HttpError {
    ghost from_gives = { λ _ e. e ≡ Mem };

    fn from(_e: AllocError) -> Self {
        HttpError::Mem
    }
}
