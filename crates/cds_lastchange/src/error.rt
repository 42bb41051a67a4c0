//! Why reading refuses bytes as a StateEvent.

ghost use Rattle.cds_lastchange.specs.declared.error.StateError.TheVariants.{Mem};
ghost use Rattle.std.specs.Prelude.{◌≡◌};
ghost use Rattle.cds_lastchange.specs.Judged.{as_refusal};

use cds_markup::MarkupError;
use std::alloc::AllocError;
use thiserror::Error;

/// A reason why bytes were not read as a StateEvent. Places are bytes from the start of the input, from 0.
#[derive(Clone, Copy, Debug, PartialEq, Eq, Error)]
pub enum StateError {
    /// The bytes are no document, for one of these reasons:
    /// - The byte at this place cannot stand there.
    /// - The input ends there and is no document.
    /// - The `>` or `/` there ends a start tag that breaks a rule of namespaces.
    #[error("no document: it breaks at {at}")]
    Bad { at: usize },
    /// The document is no StateEvent. At this place begins one of these:
    /// - a start tag of another element than may stand there, or of one that lacks what it needs;
    /// - a reference or a CDATA section;
    /// - a character that is not white space.
    #[error("no StateEvent: it breaks at {at}")]
    NotStateEvent { at: usize },
    /// More than 67,108,864 bytes came.
    #[error("the StateEvent is too long")]
    TooLong,
    /// This reader refused before.
    #[error("the reader refused before")]
    Failed,
    #[error("out of memory")]
    Mem,
}

impl From<cds_base::Mem> for StateError {
    ghost from_gives = { λ _ e. e ≡ Mem };

    fn from(_e: cds_base::Mem) -> Self {
        StateError::Mem
    }
}

impl From<AllocError> for StateError {
    ghost from_gives = { λ _ e. e ≡ Mem };

    fn from(_e: AllocError) -> Self {
        StateError::Mem
    }
}

/// A reader of StateEvents never gives `TooDeep`. It refuses a third open element before the place at which a document would be
/// too deep.
impl From<MarkupError> for StateError {
    ghost from_gives = { λ refusal e. e ≡ as_refusal refusal };

    fn from(refusal: MarkupError) -> Self {
        match refusal {
            MarkupError::Bad { at } | MarkupError::TooDeep { at } => StateError::Bad { at },
            MarkupError::TooLong => StateError::TooLong,
            MarkupError::Failed => StateError::Failed,
            MarkupError::Mem => StateError::Mem,
        }
    }
}
