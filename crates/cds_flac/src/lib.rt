//! FLAC's metadata (RFC 9639): what a file says of its sound and of the work that it holds.
#![tactic(auto)]

mod block;
mod comments;
mod error;
pub mod examples;
mod input;
mod read;

pub use cds_object::{Comment, Comments, FlacInfo};
pub use error::FlacError;
pub use read::read_flac;
