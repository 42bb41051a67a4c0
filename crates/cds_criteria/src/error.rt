//! Why a text is no criteria.

ghost use Rattle.cds_criteria.specs.declared.error.CriteriaError.{CriteriaError};
ghost use Rattle.std.specs.Prelude.{◌≡◌};

use cds_base::Mem;
use std::convert::From;
use thiserror::Error;

/// Why a text is no search criteria or no sort criteria. Places are counted in bytes from 0.
#[derive(Clone, Copy, Debug, PartialEq, Eq, Error)]
pub enum CriteriaError {
    /// The search criteria are out of their form at this place. It is 4,096 if the text is longer than 4,096 bytes, and the
    /// length of the text if it ends too early.
    #[error("search criteria are out of their form at {at}")]
    BadCriteria { at: usize },
    /// The sort criteria are out of their form from this place on, at which an item begins. It is 4,096 if the text is longer
    /// than 4,096 bytes.
    #[error("sort criteria are out of their form at {at}")]
    BadSort { at: usize },
    #[error("out of memory")]
    Mem,
}

impl From<Mem> for CriteriaError {
    ghost from_gives = { λ _ e. e ≡ CriteriaError.Mem };

    fn from(_e: Mem) -> Self {
        CriteriaError::Mem
    }
}
