//! The catalog, counted afresh: what each scan of the library found, every change between one scan and the next with
//! its number, and the rows that stand after them.
#![tactic(auto)]

mod change;
pub mod examples;
pub mod laws;

pub use change::Change;
