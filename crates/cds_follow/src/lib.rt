//! Which notes a replica takes, and what it knows from them and from the replies that it reads.
#![tactic(auto)]

pub mod examples;
pub mod laws;
mod says;

pub use says::Says;
