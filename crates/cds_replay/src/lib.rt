//! Plays scripts: a server and a replica take the turns of a script, and the report is written line by line.
#![tactic(auto)]

mod control;
mod events;
mod last;
pub mod laws;
mod play;
mod recent;
mod report;
mod script;
mod sent;
mod session;
mod summing;
mod wire;

pub use play::{ReplayError, replay, replay_by};
pub use summing::summary;
pub use wire::{Straight, Wire};
