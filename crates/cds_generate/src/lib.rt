//! Scripts of generated libraries. A seed and a number of tracks give one script: 40 scans of a library that changes, with notes that
//! are late, lost or delivered twice, and with new subscriptions.
#![tactic(auto)]

mod error;
pub mod examples;
mod history;
pub mod laws;
mod library;
mod writing;

pub use error::GenerateError;
pub use writing::generate;
