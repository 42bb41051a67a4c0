//! The reply to a subscribe request of a script.

/// The reply to a subscribe request, which is held back until the replica gets it.
#[derive(Clone, Copy, Debug, PartialEq, Eq)]
pub enum HeldReply {
    /// None is held back.
    NoReply,
    /// The subscription was granted under this name.
    Named { name: u32 },
    /// It was refused.
    Refusal,
}
