//! Why a datagram is refused.

ghost use Rattle.std.specs.Prelude.{◌≡◌};
ghost use Rattle.cds_ssdp.specs.declared.error.SsdpError.TheVariants.{Mem};

use thiserror::Error;

/// Why a datagram was not read as the answer to a search.
#[derive(Clone, Copy, Debug, PartialEq, Eq, Error)]
pub enum SsdpError {
    /// The datagram begins with no reply of status 200 that has one ST, one USN and one LOCATION in their forms.
    #[error("no answer to a search")]
    NotFound,
    /// Memory ran out. This says nothing of the datagram.
    #[error("out of memory")]
    Mem,
}

impl From<cds_base::Mem> for SsdpError {
    ghost from_gives = { λ _ e. e ≡ Mem };

    fn from(_e: cds_base::Mem) -> Self {
        SsdpError::Mem
    }
}
