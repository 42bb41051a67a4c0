//! Messages, and the answers to their pieces.

use cds_base::{Bytes, Text};
use http_header::HeaderMap;

/// The direction of the messages that are read.
#[derive(Clone, Copy, Debug, PartialEq, Eq)]
pub enum Side {
    Request,
    Reply,
}

/// The first line of a message.
#[derive(Drop, Debug)]
pub enum Start {
    Request { method: Text, target: Text },
    Reply { status: u16 },
}

/// A message: its first line, its fields and its body. Names of fields are in lower case. Values have no white space
/// around them. A field that came more than once has its values in the order in which they came.
#[derive(Drop)]
pub struct Message {
    pub start: Start,
    pub fields: HeaderMap,
    pub body: Bytes,
}

/// What a piece brought: more is needed, or the message is whole and ends `rest` bytes before the end of the piece.
#[derive(Clone, Copy, Debug, PartialEq, Eq)]
pub enum Fed {
    More,
    Whole { rest: usize },
}
