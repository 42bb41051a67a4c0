//! Reads the message with which a datagram begins, and what its fields say.

ghost use Rattle.std.specs.Prelude.{◌≡◌, ◌≢◌, ℕ, List, IfOk, None, option_and_then, option_map};
ghost use Rattle.http_header.specs.Token.{lowercase};
ghost use Rattle.cds_http.specs.declared.error.HttpError.{HttpError};
ghost use Rattle.cds_http.specs.Laws.{IsAnswer};
ghost use Rattle.cds_ssdp.specs.Messages.{IsMessageIn, only_field, only_text, text_in};

use cds_base::Mem;
use cds_http::{HttpError, Message, MessageReader, Side};
use http_header::HeaderMap;
use std::alloc::Global;

/// Reads the message with which a datagram begins. The end of the datagram is the end of its connection.
fn read_message(alloc: Global, side: Side, datagram: &[u8]) -> Result<Message, HttpError>
    ensures { (behind : List ℕ) × IsAnswer side datagram.now behind result }
{
    let mut reader = MessageReader::new(alloc, side)?;
    match reader.feed(alloc, datagram) {
        Ok(_) => reader.finish(),
        Err(refusal) => Err(refusal),
    }
}

/// Returns no message, unless memory ran out.
fn no_message(refusal: HttpError) -> Result<Option<Message>, Mem>
    ensures { IfOk result (λ found. (found ≡ None) × (refusal ≢ HttpError.Mem)) }
{
    match refusal {
        HttpError::Mem => Err(Mem),
        HttpError::BadHead => Ok(None),
        HttpError::HeadTooLong => Ok(None),
        HttpError::BadLength => Ok(None),
        HttpError::BadChunk => Ok(None),
        HttpError::TooLong => Ok(None),
        HttpError::Truncated => Ok(None),
        HttpError::Failed => Ok(None),
    }
}

/// Returns the message with which a datagram begins, if there is one. Bytes after it are passed over.
pub fn message_in(alloc: Global, side: Side, datagram: &[u8]) -> Result<Option<Message>, Mem>
    ensures { IfOk result (λ found. IsMessageIn side datagram.now found) }
{
    match read_message(alloc, side, datagram) {
        Ok(message) => Ok(Some(message)),
        Err(refusal) => no_message(refusal),
    }
}

/// Returns the value of a field that comes exactly once.
pub fn only_field<'a>(fields: &'a HeaderMap, name: &str) -> Option<&'a [u8]>
    ensures { option_map (λ value. value.now) result ≡ only_field (lowercase name.now) fields.now }
{
    let mut values = fields.get_all(name).into_iter();
    match values.next() {
        None => None,
        Some(value) => {
            if values.next().is_some() {
                return None;
            }
            Some(value.as_bytes())
        }
    }
}

/// Returns bytes as a text, if they are UTF-8.
fn text_in(bytes: &[u8]) -> Option<&str>
    ensures { option_map (λ text. text.now) result ≡ text_in bytes.now }
{
    match std::str::from_utf8(bytes) {
        Ok(text) => Some(text),
        Err(_) => None,
    }
}

/// Returns the text of a field that comes exactly once.
pub fn only_text<'a>(fields: &'a HeaderMap, name: &str) -> Option<&'a str>
    ensures { option_map (λ text. text.now) result ≡ only_text (lowercase name.now) fields.now }
{
    match only_field(fields, name) {
        Some(bytes) => text_in(bytes),
        None => None,
    }
}
