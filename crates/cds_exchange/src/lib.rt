//! What a replica asks of a server, as the bytes of a request, and what the bytes of a reply show (UPnP Device
//! Architecture 2.0 on control; UPnP ContentDirectory:4 on Browse and on DIDL-Lite).
#![tactic(auto)]

mod ask;
pub mod laws;
mod reply;

pub use ask::{action_of, ask_bytes};
pub use reply::read_reply;
