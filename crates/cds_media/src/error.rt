//! Why a call that sends bytes failed.

use thiserror::Error;

/// Why a call that sends bytes failed. A prefix of them was written. It may be all of them.
#[derive(Clone, Copy, Debug, PartialEq, Eq, Error)]
pub enum SendError {
    /// The source could not be read. Its count of faults says so.
    #[error("the source failed")]
    ReadFault,
    /// The sink could not be written. Its count of faults says so.
    #[error("the sink failed")]
    WriteFault,
    /// The source ended after `at` bytes. All of them were written.
    #[error("the source ended after {at} bytes")]
    Short { at: u64 },
}
