//! Why a reply was not taken.

use thiserror::Error;

/// Why a reply was not taken. The replica is then as before.
#[derive(Clone, Copy, Debug, PartialEq, Eq, Error)]
pub enum AnswerError {
    /// The bytes are no reply that answers the ask, or a page in them is no DIDL-Lite document. Or the reply is of another kind
    /// than the ask, or not one row if an object's row was asked.
    #[error("the reply does not answer what was asked")]
    Unreadable,
    /// The first change above the number of a load, of those that notes told meanwhile, is not the one after it.
    #[error("change {first} came where {expected} was to come")]
    Jump { expected: u32, first: u32 },
    /// What was shown or told of this object cannot be. Of the root's row, and of an object's own row, this is said at once. Of a
    /// page it is said if the number after it stayed. Of changes that notes told meanwhile it is said at the end of a load.
    #[error("what was shown of object {id} cannot be")]
    Torn { id: u32 },
    /// Memory ran out.
    #[error("out of memory")]
    Mem,
}
