//! The adapters over the system. Its streams, folders, clock, network and threads become the sources, sinks and objects that
//! `cds_outside` names. `Input` and `Output` are streams of the system, `RealOutside` gives its objects, and `read_words` the
//! words of the command line.
#![tactic(auto)]

mod backoff;
mod clocks;
mod conns;
mod datagrams;
mod doors;
mod exterior;
mod files;
mod framing;
mod given;
mod links;
mod lobby;
mod names;
mod players;
mod reach;
mod retry;
mod shared_port;
mod spawners;
mod streams;
mod waiting;
mod walk;
mod words;

pub use clocks::{RealClock, ahead};
pub use datagrams::RealDatagrams;
pub use doors::RealDoor;
pub use exterior::RealOutside;
pub use links::RealLink;
pub use reach::near_address;
pub use spawners::RealSpawner;
pub use streams::{Input, Output};
pub use words::read_words;
