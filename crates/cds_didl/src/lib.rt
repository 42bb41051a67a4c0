//! DIDL-Lite: rows of objects as documents, both ways, and the filter of what is written of them (UPnP
//! ContentDirectory:4 on DIDL-Lite and on Browse and Search).
#![tactic(auto)]

mod duration;
mod error;
mod filtering;
pub mod laws;
mod pieces;
mod properties;
mod ranges;
mod read;
mod resource;
mod row_text;
mod rows;
mod work;
mod write;

pub use error::DidlError;
pub use filtering::Filter;
pub use read::read_didl;
pub use row_text::put_row;
pub use write::{put_didl_end, put_didl_start, put_fragment, write_didl, write_fragment};
