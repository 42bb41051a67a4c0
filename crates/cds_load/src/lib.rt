//! What a replica asks of a server to load its catalog and what a server replies, the stages of a load, and their laws.
#![tactic(auto)]

mod exchange;
pub mod laws;

pub use exchange::{Ask, Read, Shown};
