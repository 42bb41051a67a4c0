//! Reads messages of HTTP/1.1 (RFC 9112) from pieces of any size, and writes messages.
#![tactic(auto)]

mod body;
mod error;
pub mod examples;
mod fields;
mod framing;
mod head;
pub mod laws;
mod lines;
mod message;
mod reader;
mod write;

pub use error::HttpError;
pub use fields::{Field, Fields};
pub use message::{Fed, Message, Side, Start};
pub use reader::MessageReader;
pub use write::{write_reply, write_reply_head, write_request};
