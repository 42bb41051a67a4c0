//! Scripts: what their lines mean, what their turns lead to, and the report that is owed.
#![tactic(auto)]

pub mod examples;
mod found;
pub mod laws;
mod line;
mod reply;
mod turn;
mod word;

pub use found::{Found, FoundFile, FoundList};
pub use line::read_line;
pub use reply::HeldReply;
pub use turn::{Meaning, ScriptTurn};
