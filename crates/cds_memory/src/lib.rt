//! The outside in memory: streams, folders, clocks, connections, doors, links, spawners, datagrams and what gives them. Each fails at the
//! calls that it was told, and tells its content. Only a door, and the connections that it gives, tell no content.
#![tactic(auto)]

mod asking;
mod clock;
mod datagrams;
mod door;
mod folder;
mod item;
mod link;
mod outside;
mod spawner;
mod streams;

pub use clock::MemClock;
pub use datagrams::MemDatagrams;
pub use door::{MemConn, MemDoor, SharedConn};
pub use folder::MemFolder;
pub use item::{MemItem, are_tree};
pub use link::MemLink;
pub use outside::{MemObjects, MemOutside};
pub use spawner::MemSpawner;
pub use streams::{MemSink, MemSource};
