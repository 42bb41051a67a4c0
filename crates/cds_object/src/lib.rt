//! The objects of a ContentDirectory: their ids, their places in the library, and what they hold. Also the rows in
//! which a server shows them, the events of their changes, and the pieces of XML from which texts about them are made.
#![tactic(auto)]

mod cleaning;
mod content;
mod error;
mod event;
mod from_flac;
mod id;
mod info;
pub mod laws;
mod path;
mod record;
mod row;
mod written;

pub use cleaning::clean;
pub use content::{Content, TrackContent};
pub use error::PathError;
pub use event::{Class, Event, Events};
pub use from_flac::{content_of, folder_of};
pub use id::ObjectId;
pub use info::{Comment, Comments, FlacInfo};
pub use path::Path;
pub use record::{Record, Records};
pub use row::{Row, Rows, Trackers};
pub use written::{put_attribute, put_number_attribute, put_number_element, put_text_element};
