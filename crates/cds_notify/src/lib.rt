//! Notes on the wire: the NOTIFY requests that carry the changes of a server to its subscribers (UPnP Device
//! Architecture 2.0 on eventing, UPnP ContentDirectory:4 on the evented variables).
#![tactic(auto)]

mod body;
mod heading;
pub mod laws;
mod note;
mod notify;
mod propertyset;
mod read;
mod variables;

pub use note::{Note, NoteError};
pub use notify::write_notify;
pub use propertyset::write_propertyset;
pub use read::read_notify;
