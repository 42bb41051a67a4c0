//! What the program does: it plays scripts, reads StateEvents, scans a folder of FLAC files and serves one. `run` takes its words
//! over the streams and the objects that it is given.
#![tactic(auto)]

mod announcing;
mod command;
mod program;
mod serving;

pub use program::run;
