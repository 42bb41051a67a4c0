//! Announces a device: answers the searches by SSDP that come to a port (UPnP Device Architecture 2.0 on discovery). What a reply
//! says is a matter of `cds_ssdp`.
#![tactic(auto)]

mod announcing;
mod ended;
pub mod laws;

pub use announcing::announce;
pub use ended::{announce_at, first_uuid};
