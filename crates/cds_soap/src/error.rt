//! Why messages are refused.

ghost use Rattle.cds_soap.specs.declared.error.SoapError.TheVariants.{Mem};
ghost use Rattle.std.specs.Prelude.{◌≡◌};

use cds_markup::MarkupError;
use thiserror::Error;

/// Why a message was not read as a request or as an answer.
#[derive(Clone, Copy, Debug, PartialEq, Eq, Error)]
pub enum SoapError {
    /// The body of a request is no document, for this reason.
    #[error("no document")]
    Markup(MarkupError),
    /// A request names no action of those served here, or its field, its envelope and its element do not agree.
    #[error("no known action")]
    InvalidAction,
    /// The arguments of a request are not exactly those of its action, or a number is malformed or too large.
    #[error("arguments of another form")]
    InvalidArgs,
    /// The bytes are no reply that answers the action.
    #[error("no answer to the action")]
    NotAnswer,
    #[error("out of memory")]
    Mem,
}

impl From<cds_base::Mem> for SoapError {
    ghost from_gives = { λ _ e. e ≡ Mem };

    fn from(_e: cds_base::Mem) -> Self {
        SoapError::Mem
    }
}
