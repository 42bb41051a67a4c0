//! The fault of a call that runs out of memory.

ghost use Rattle.std.specs.Prelude.{⊤};

use std::alloc::{AllocError, AllocFailed};
use std::error::Error;
use std::fmt;

/// Memory ran out. A call that takes memory may give this in place of any other answer.
#[derive(Clone, Copy, Debug, PartialEq, Eq)]
pub struct Mem;

impl fmt::Display for Mem {
    fn fmt<W: fmt::Write>(&self, f: &mut fmt::Formatter<W>) -> fmt::Result {
        write!(f, "out of memory")
    }
}

impl Error for Mem {}

impl From<AllocError> for Mem {
    ghost from_gives = { λ _ _. ⊤ };

    fn from(_e: AllocError) -> Mem {
        Mem
    }
}

impl<T: Drop> From<AllocFailed<T>> for Mem {
    ghost from_gives = { λ _ _. ⊤ };

    fn from(_e: AllocFailed<T>) -> Mem {
        Mem
    }
}
