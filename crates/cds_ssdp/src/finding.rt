//! Reads the answers to a search.

ghost use Rattle.std.specs.Prelude.{◌≡◌, IfOk, option_and_then};
ghost use Rattle.http_header.specs.Token.{lowercase};
ghost use Rattle.cds_ssdp.specs.Messages.{only_text};
ghost use Rattle.cds_ssdp.specs.Location.{http_url};
ghost use Rattle.cds_ssdp.specs.Finding.{found_as, found_by, found_in, has_status, Finds, IsFoundIn};

use crate::device::http_url;
use crate::error::SsdpError;
use crate::messages::{message_in, only_text};
use cds_base::{Mem, Text};
use cds_http::{Message, Side, Start};
use http_header::HeaderMap;
use std::alloc::Global;
use url::Url;

/// What an answer to a search tells of.
#[derive(Drop)]
pub struct Found {
    /// What was found: the text of ST.
    pub target: Text,
    /// The name under which it was found: the text of USN.
    pub usn: Text,
    /// The address of the description of its device.
    pub location: Url,
}

/// Returns whether a message is a reply with this status.
fn has_status(message: &Message, code: u16) -> bool
    ensures { result ≡ has_status code message.now.start }
{
    match &message.start {
        Start::Request { .. } => false,
        Start::Reply { status } => *status == code,
    }
}

/// Returns the `http` URL of a field that comes exactly once.
fn only_url(alloc: Global, fields: &HeaderMap, name: &str) -> Result<Option<Url>, Mem>
    ensures { IfOk result (λ url. url ≡ option_and_then http_url (only_text (lowercase name.now) fields.now)) }
{
    match only_text(fields, name) {
        Some(text) => http_url(alloc, text),
        None => Ok(None),
    }
}

/// Returns what the values of ST, USN and LOCATION tell of.
fn found_as(alloc: Global, target: &str, usn: &str, location: Url) -> Result<Found, Mem>
    ensures { IfOk result (λ found. found ≡ found_as target.now usn.now location) }
{
    let target = Text::read(alloc, target)?;
    let usn = Text::read(alloc, usn)?;
    Ok(Found {
        target,
        usn,
        location,
    })
}

/// Returns what the fields of a reply tell of.
#[tactic(auto, unfolding(crate::specs::Finding::found_by))]
fn found_by(alloc: Global, fields: &HeaderMap) -> Result<Option<Found>, Mem>
    ensures { IfOk result (λ found. found ≡ found_by fields.now) }
{
    let target = match only_text(fields, "st") {
        Some(target) => target,
        None => return Ok(None),
    };
    let usn = match only_text(fields, "usn") {
        Some(usn) => usn,
        None => return Ok(None),
    };
    match only_url(alloc, fields, "location")? {
        Some(location) => Ok(Some(found_as(alloc, target, usn, location)?)),
        None => Ok(None),
    }
}

/// Returns what a message tells of.
fn found_in(alloc: Global, message: &Message) -> Result<Option<Found>, Mem>
    ensures { IfOk result (λ found. found ≡ found_in message.now) }
{
    if has_status(message, 200) {
        found_by(alloc, &message.fields)
    } else {
        Ok(None)
    }
}

/// Returns what a datagram tells of, if it begins with the answer to a search.
fn found_of(alloc: Global, datagram: &[u8]) -> Result<Option<Found>, Mem>
    ensures { IfOk result (λ found. IsFoundIn datagram.now found) }
{
    match message_in(alloc, Side::Reply, datagram)? {
        Some(message) => found_in(alloc, &message),
        None => Ok(None),
    }
}

/// Returns what the answer to a search tells of (UPnP Device Architecture 2.0 on discovery). A datagram tells of
/// something if it begins with a reply of status 200 in which three fields come exactly once. These are ST and USN, both
/// in UTF-8, and LOCATION, which is an `http` URL. `NotFound` comes exactly for other datagrams. Bytes after the reply
/// are passed over. This and the rule of UTF-8 are this project's profile.
pub fn read_found(alloc: Global, datagram: &[u8]) -> Result<Found, SsdpError>
    ensures { Finds datagram.now result }
{
    match found_of(alloc, datagram)? {
        Some(found) => Ok(found),
        None => Err(SsdpError::NotFound),
    }
}
