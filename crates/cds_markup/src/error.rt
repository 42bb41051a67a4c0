//! Why reading refuses bytes: the public errors, and the reasons why a machine stops.

ghost use Rattle.cds_markup.specs.declared.error.MarkupError.TheVariants.{Mem};
ghost use Rattle.cds_markup.specs.declared.error.MachineError.TheVariants.{Mem as OutOfMemory};
ghost use Rattle.std.specs.Prelude.{◌≡◌};

use std::alloc::AllocError;
use thiserror::Error;

/// A reason why bytes were not read as a document. Places are bytes from the start of the input, from 0.
#[derive(Clone, Copy, Debug, PartialEq, Eq, Error)]
pub enum MarkupError {
    /// The input breaks at this place, for one of these reasons:
    /// - The byte there cannot stand there.
    /// - The input ends there and is no document.
    /// - The `>` or `/` there ends a start tag that breaks a rule.
    #[error("no document: it breaks at {at}")]
    Bad { at: usize },
    /// The first byte of a start tag's name came while 16 elements were open.
    #[error("too many open elements at {at}")]
    TooDeep { at: usize },
    /// More than 67,108,864 bytes came.
    #[error("the document is too long")]
    TooLong,
    /// This reader refused before.
    #[error("the reader refused before")]
    Failed,
    #[error("out of memory")]
    Mem,
}

impl From<cds_base::Mem> for MarkupError {
    ghost from_gives = { λ _ e. e ≡ Mem };

    fn from(_e: cds_base::Mem) -> Self {
        MarkupError::Mem
    }
}

impl From<AllocError> for MarkupError {
    ghost from_gives = { λ _ e. e ≡ Mem };

    fn from(_e: AllocError) -> Self {
        MarkupError::Mem
    }
}

/// Why reading stopped at the bytes that are left.
#[derive(Clone, Copy, PartialEq, Eq)]
pub enum MachineError {
    /// The next byte cannot stand there, or the input ended.
    Broken,
    /// The next byte ends a start tag that breaks a rule.
    NamespaceRule,
    /// The next byte is the first of a start tag's name, and 16 elements are open.
    Deep,
    /// Out of memory.
    Mem,
}

impl From<cds_base::Mem> for MachineError {
    ghost from_gives = { λ _ e. e ≡ OutOfMemory };

    fn from(_e: cds_base::Mem) -> Self {
        MachineError::Mem
    }
}

impl From<AllocError> for MachineError {
    ghost from_gives = { λ _ e. e ≡ OutOfMemory };

    fn from(_e: AllocError) -> Self {
        MachineError::Mem
    }
}
