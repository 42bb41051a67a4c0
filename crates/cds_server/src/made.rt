//! What a server makes of what was asked.

use crate::notes::FirstNote;
use cds_base::Bytes;

/// What a server made of what was asked, before it is written.
#[derive(Drop)]
pub enum Made {
    /// Nothing: the reply was there before.
    Ready,
    /// The whole reply.
    Text(Bytes),
    /// What was made of an action.
    Action(cds_control::Made),
}

/// What a server answers: what is to be written, the first note of a subscription that was granted, and whether a command was
/// accepted.
#[derive(Drop)]
pub struct Answered {
    pub made: Made,
    pub note: Option<FirstNote>,
    pub accepted: bool,
}

/// What came of a request about a subscription: the first note of one that was granted, and whether a command was accepted.
#[derive(Drop)]
pub(crate) struct Settled {
    pub note: Option<FirstNote>,
    pub accepted: bool,
}
