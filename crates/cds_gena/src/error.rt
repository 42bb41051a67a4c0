//! Why requests about subscriptions are refused.

ghost use Rattle.std.specs.Prelude.{◌≡◌};

use cds_base::Mem;
use thiserror::Error;

/// Why a subscription is not granted, renewed or ended.
#[derive(Clone, Copy, Debug, PartialEq, Eq, Error)]
pub enum GenaError {
    #[error("out of memory")]
    Mem,
    /// The request has fields that exclude each other (status 400).
    #[error("incompatible fields")]
    Incompatible,
    /// The request has no valid callback, or there is no such subscription (status 412).
    #[error("precondition failed")]
    Precondition,
    /// No name is left (status 503).
    #[error("no name is left")]
    Spent,
    /// The limit of living subscriptions is reached (status 503).
    #[error("{live} subscriptions live")]
    Full { live: u32 },
}

impl From<Mem> for GenaError {
    ghost use Rattle.cds_gena.specs.declared.error.GenaError.TheVariants.{Mem};

    ghost from_gives = { λ _ result. result ≡ Mem };

    fn from(_e: Mem) -> GenaError {
        GenaError::Mem
    }
}
