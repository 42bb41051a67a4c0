//! Why a listening server ended early.

ghost use Rattle.std.specs.Prelude.{◌≡◌};

use cds_base::Mem;
use std::alloc::{AllocError, AllocFailed};

/// Why a listening server ended early.
#[derive(Clone, Copy)]
pub(crate) enum Fault {
    /// The sink could not be written.
    Sink,
    /// Memory ran out.
    Mem,
    /// The outside, or an object of it, failed.
    Outside,
}

impl From<Mem> for Fault {
    ghost use Rattle.cds_serve.specs.declared.fault.Fault.TheVariants.{Mem};

    ghost from_gives = { λ _ e. e ≡ Mem };

    fn from(_e: Mem) -> Self {
        Fault::Mem
    }
}

impl From<AllocError> for Fault {
    ghost use Rattle.cds_serve.specs.declared.fault.Fault.TheVariants.{Mem};

    ghost from_gives = { λ _ e. e ≡ Mem };

    fn from(_e: AllocError) -> Self {
        Fault::Mem
    }
}

impl<T: Drop> From<AllocFailed<T>> for Fault {
    ghost use Rattle.cds_serve.specs.declared.fault.Fault.TheVariants.{Mem};

    ghost from_gives = { λ _ e. e ≡ Mem };

    fn from(_e: AllocFailed<T>) -> Self {
        Fault::Mem
    }
}
