//! `Open`, the one refusal of a turn.
use thiserror::Error;

/// How many tickets a turn had drawn and how many of them it had served when it was closed, both modulo 2^64. The two
/// differ. `Turn::close` says that the turn's rule allows these two counts, and no clause says more of them.
#[derive(Clone, Copy, Debug, PartialEq, Eq, Error)]
#[error("a turn was not over: {ticket} tickets were drawn, {serving} served")]
pub struct Open {
    pub ticket: u64,
    pub serving: u64,
}
