//! The outside: streams that may fail, folders, clocks, connections, doors, links, datagrams and threads.
#![tactic(auto)]

mod clock;
mod conn;
mod datagrams;
mod door;
mod exterior;
mod folder;
mod gate;
mod link;
mod reading;
mod spawner;
mod stream;
mod trace;

pub use clock::Clock;
pub use conn::{Conn, Linger};
pub use datagrams::{DatagramFault, DatagramReply, Datagrams};
pub use door::Door;
pub use exterior::{Outside, OutsideFault};
pub use folder::{Entry, Folder, FolderFault};
pub use gate::{Gate, NoGate};
pub use link::{Link, LinkFault, LinkRequest};
pub use reading::{empty_piece, read_piece};
pub use spawner::{Attempt, Job, Running, Runtime, Spawner};
pub use stream::{Failed, Sink, Source, write_all};
pub use trace::Trace;
