//! The rows `request`, `reply`, `request-write`, `reply-write` and `head-write`: HTTP messages.

use crate::row::{Row, SIZES, cut, text_of};
use crate::show::Out;
use cds_base::Mem;
use cds_http::{
    Fed, Fields, HttpError, Message, MessageReader, Side, Start, write_reply, write_reply_head,
    write_request,
};
use std::alloc::Global;

/// `request | bytes | field`, `reply | bytes | field`: shows the first line, the values of a field, the body and how
/// many bytes come after it. If the bytes are no message, shows why. Then shows the first size of pieces for which the
/// answer differs. No text is read in more than 512 pieces.
pub fn read(alloc: Global, side: Side, row: &Row, out: &mut Out) {
    let count = row.bytes(1).len();
    read_by(alloc, side, row, count, out);
    for size in &SIZES {
        if count < size.saturating_mul(512) && !is_same_by(alloc, side, row, *size, out.as_str()) {
            out.say("; otherwise in pieces of ", size);
            break;
        }
    }
}

/// Returns whether the bytes in pieces of `size` bytes give this answer.
fn is_same_by(alloc: Global, side: Side, row: &Row, size: usize, answer: &str) -> bool {
    let mut other = Out::new(alloc);
    read_by(alloc, side, row, size, &mut other);
    other.as_str() == answer
}

/// Shows what the bytes are if they come in pieces of `size` bytes.
fn read_by(alloc: Global, side: Side, row: &Row, size: usize, out: &mut Out) {
    let mut behind = 0;
    match message_by(alloc, side, row.bytes(1), size, &mut behind) {
        Ok(message) => {
            message_shown(&message, row.text(2), out);
            out.say(", ", &behind);
            out.put(" behind");
        }
        Err(refusal) => out.refuse(&refusal),
    }
}

/// Reads the message that comes in pieces of `size` bytes, and counts the bytes that come after it.
pub fn message_by(
    alloc: Global,
    side: Side,
    bytes: &[u8],
    size: usize,
    behind: &mut usize,
) -> Result<Message, HttpError> {
    let mut reader = MessageReader::new(alloc, side)?;
    match feed_by(alloc, bytes, size, &mut reader, behind) {
        Ok(()) => reader.finish(),
        Err(refusal) => {
            drop(reader);
            Err(refusal)
        }
    }
}

fn feed_by(
    alloc: Global,
    bytes: &[u8],
    size: usize,
    reader: &mut MessageReader,
    behind: &mut usize,
) -> Result<(), HttpError> {
    for piece in bytes.chunks(size.max(1)) {
        if let Fed::Whole { rest } = reader.feed(alloc, piece)? {
            *behind = behind.saturating_add(rest);
        }
    }
    Ok(())
}

fn message_shown(message: &Message, field: &str, out: &mut Out) {
    start_shown(&message.start, out);
    for value in message.fields.get_all(field) {
        out.quote(value.as_bytes());
    }
    out.put(", body");
    out.quote(message.body.as_slice());
}

fn start_shown(start: &Start, out: &mut Out) {
    match start {
        Start::Request { method, target } => {
            out.show(method.as_str().as_bytes());
            out.quote(target.as_str().as_bytes());
        }
        Start::Reply { status } => out.say("status ", status),
    }
}

/// Reads the fields from texts `name: value`.
fn fields_of(alloc: Global, texts: &[Vec<u8>]) -> Result<Fields, Mem> {
    let mut fields = Fields::new(alloc);
    for text in texts {
        let (name, value) = cut(text_of(text.as_slice()), ": ");
        fields.push(alloc, name, value)?;
    }
    Ok(fields)
}

/// Shows what is written:
///
/// - `request-write | method | target | body | name: value ..`
/// - `reply-write | status | body | name: value ..`
/// - `head-write | status | number of bytes | name: value ..`
pub fn written(alloc: Global, row: &Row, out: &mut Out) {
    let from = if row.text(0) == "request-write" { 4 } else { 3 };
    match fields_of(alloc, row.from(from)) {
        Ok(fields) => written_with(alloc, row, &fields, out),
        Err(refusal) => out.refuse(&refusal),
    }
}

fn written_with(alloc: Global, row: &Row, fields: &Fields, out: &mut Out) {
    let mut text = Vec::new(alloc);
    let is_done = put_message(row, fields, &mut text).is_ok();
    out.note(is_done);
    out.show(text.as_slice());
}

fn put_message(row: &Row, fields: &Fields, out: &mut Vec<u8>) -> Result<(), Mem> {
    if !fields.can_be_written() {
        return Ok(out.extend_from_slice(b"refused: fields")?);
    }
    match row.text(0) {
        "request-write" => write_request(row.text(1), row.text(2), fields, row.bytes(3), out),
        "reply-write" => write_reply(status(row), fields, row.bytes(2), out),
        _ => write_reply_head(status(row), fields, row.number(2), out),
    }
}

/// Returns the status that a row says, or 0 if it is no such number.
fn status(row: &Row) -> u16 {
    match u16::try_from(row.number(1)) {
        Ok(status) => status,
        Err(_) => 0,
    }
}
