//! Subscriptions to the events of a server: which of them live, what a request asks for, and the addresses of notes
//! (UPnP Device Architecture 2.0 on eventing; the limits are this project's profile).
#![tactic(auto)]

mod address;
mod book;
mod error;
mod gena;
pub mod laws;
mod lease;
mod request;
mod sid;

pub use address::{Address, Addresses};
pub use book::Book;
pub use error::GenaError;
pub use gena::{Gena, asks_of_subscription, field_of, has_method, is_deliverable, read_gena};
pub use lease::{Lease, read_lease};
pub use request::{write_renewal, write_subscribe, write_unsubscribe};
pub use sid::Sid;
