//! StateEvents: the list of a catalog's changes, as a document (this project's profile of UPnP ContentDirectory:4 on
//! LastChange).
#![tactic(auto)]

mod attributes;
mod error;
pub mod examples;
mod judge;
pub mod laws;
mod reader;
mod sink;
mod write;

pub use cds_object::{Class, Event, Events};
pub use error::StateError;
pub use reader::StateReader;
pub use write::write_state_event;
