//! Why Browse or Search has no page.

ghost use Rattle.cds_browse.specs.Refusals.{refusal_of};
ghost use Rattle.cds_browse.specs.declared.error.BrowseError.TheVariants.{Mem};
ghost use Rattle.std.specs.Prelude.{◌≡◌};

use cds_criteria::CriteriaError;
use thiserror::Error;

/// Why Browse or Search has no page. Places are counted in bytes from 0.
#[derive(Clone, Copy, Debug, PartialEq, Eq, Error)]
pub enum BrowseError {
    /// The flag is neither of the two, or rows of the object itself are asked from a later place on.
    #[error("arguments of another form")]
    InvalidArgs,
    /// No object has the id.
    #[error("no such object")]
    NoObject,
    /// Children of a track are asked, or no container has the id that is searched in.
    #[error("no such container")]
    NoContainer,
    /// The search criteria are out of their form at this place.
    #[error("search criteria are out of their form at {at}")]
    BadCriteria { at: usize },
    /// The sort criteria are out of their form from this place on.
    #[error("sort criteria are out of their form at {at}")]
    BadSort { at: usize },
    #[error("out of memory")]
    Mem,
}

impl From<cds_base::Mem> for BrowseError {
    ghost from_gives = { λ _ e. e ≡ Mem };

    fn from(_e: cds_base::Mem) -> Self {
        BrowseError::Mem
    }
}

impl From<CriteriaError> for BrowseError {
    ghost from_gives = { λ refusal e. e ≡ refusal_of refusal };

    fn from(e: CriteriaError) -> Self {
        match e {
            CriteriaError::BadCriteria { at } => BrowseError::BadCriteria { at },
            CriteriaError::BadSort { at } => BrowseError::BadSort { at },
            CriteriaError::Mem => BrowseError::Mem,
        }
    }
}
