//! Discovery of a media server: answers searches by SSDP, reads such answers, and writes the descriptions of the device
//! and of its service (UPnP Device Architecture 2.0 on discovery and description).
#![tactic(auto)]

mod describing;
mod device;
mod error;
pub mod examples;
mod finding;
pub mod laws;
mod messages;
mod pieces;
mod replying;
mod searching;

pub use describing::{write_device, write_service};
pub use device::{Device, is_location};
pub use error::SsdpError;
pub use finding::{Found, read_found};
pub use searching::answer_search;
