//! Why bytes are refused as rows.

ghost use Rattle.cds_didl.specs.declared.error.DidlError.TheVariants.{Mem};
ghost use Rattle.cds_didl.specs.declared.error.Fault.TheVariants.{OutOfMemory};
ghost use Rattle.std.specs.Prelude.{◌≡◌};

use cds_markup::MarkupError;
use thiserror::Error;

/// A reason why bytes were not read as rows. Places are bytes from the start of the input, from 0.
#[derive(Clone, Copy, Debug, PartialEq, Eq, Error)]
pub enum DidlError {
    /// The bytes are no document, for this reason.
    #[error("no document")]
    Markup(MarkupError),
    /// The element that begins at this place is not the root of DIDL-Lite, or is neither a container nor an item in it.
    #[error("no DIDL-Lite: another element stands at {at}")]
    NotDidl { at: usize },
    /// The container or item that begins at this place is not as it has to be. It lacks a part that it needs, has one twice, or
    /// has one that is not in its form.
    #[error("the object at {at} is not as it has to be")]
    BadValue { at: usize },
    #[error("out of memory")]
    Mem,
}

impl From<cds_base::Mem> for DidlError {
    ghost from_gives = { λ _ e. e ≡ Mem };

    fn from(_e: cds_base::Mem) -> Self {
        DidlError::Mem
    }
}

/// The first element of a document that is not as it has to be. Children are counted from 0.
#[derive(Clone, Copy, Debug, PartialEq, Eq)]
pub enum Fault {
    /// The root is another element.
    Root,
    /// The child is neither a container nor an item.
    NotRow { number: usize },
    /// The child is a container or an item whose parts are not as they have to be.
    BadRow { number: usize },
    /// Memory ran out before it was found.
    OutOfMemory,
}

impl From<cds_base::Mem> for Fault {
    ghost from_gives = { λ _ e. e ≡ OutOfMemory };

    fn from(_e: cds_base::Mem) -> Self {
        Fault::OutOfMemory
    }
}
