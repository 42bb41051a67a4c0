//! Summaries of reports: how many lines a report has, and how many of them begin with each of some words. The lines are counted as
//! they come, and none is kept.
#![tactic(auto)]

mod counts;
pub mod examples;
mod tally;

pub use tally::Tally;
