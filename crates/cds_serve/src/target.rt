//! Where the messages of a connection go, by their first line: to a document, to a file, or to the server.

ghost use Rattle.std.specs.Prelude.{◌≡◌, ◌^◌};
ghost use Rattle.cds_base.specs.Number.{has_leading_zero, plain_below};
ghost use Rattle.cds_server.specs.Routed.{status_of_route};
ghost use Rattle.cds_serve.specs.Target.{document_answer, document_at, media_id, server_or, target_by, target_of};

use cds_base::read_u32;
use cds_http::{Message, Start};
use cds_server::{Route, route};

/// A document by which a server describes itself (UPnP Device Architecture 2.0 on description).
#[derive(Clone, Copy, Debug, PartialEq, Eq)]
pub enum Document {
    /// The description of the device, at `/device.xml`.
    Device,
    /// The description of its service, at `/cds.xml`.
    Service,
}

/// An answer that needs no turn.
#[derive(Clone, Copy, Debug, PartialEq, Eq)]
pub enum FreeAnswer {
    /// A status without a body.
    Status(u16),
    /// A document.
    Document(Document),
}

/// Where a message goes.
#[derive(Clone, Copy, Debug, PartialEq, Eq)]
pub(crate) enum Target {
    /// To the server, which answers in a turn.
    Server,
    /// To the file of the track with this id.
    File(u32),
    /// Nowhere: it is answered without a turn.
    Free(FreeAnswer),
}

/// Returns where a message goes.
pub(crate) fn target_of(message: &Message) -> Target
    ensures { result ≡ target_of message.now.start }
{
    match &message.start {
        Start::Request { method, target } => target_by(
            document_at(target.as_str()),
            media_id(target.as_str().as_bytes()),
            method.as_str(),
            message,
        ),
        Start::Reply { .. } => Target::Free(FreeAnswer::Status(400)),
    }
}

/// Returns where a message goes that names this document, or else this id.
fn target_by(document: Option<Document>, id: Option<u32>, method: &str, message: &Message) -> Target
    ensures { result ≡ target_by document id method.now message.now.start }
{
    match (document, id) {
        (Some(document), _) => Target::Free(document_answer(document, method)),
        (None, Some(id)) => Target::File(id),
        (None, None) => server_or(route(message)),
    }
}

/// Returns where a message goes that goes this way at the server.
fn server_or(way: Route) -> Target
    ensures { result ≡ server_or (status_of_route way) }
{
    match way {
        Route::Control => Target::Server,
        Route::Event => Target::Server,
        Route::Refused(status) => Target::Free(FreeAnswer::Status(status)),
    }
}

/// Returns the document at a target.
fn document_at(target: &str) -> Option<Document>
    ensures { result ≡ document_at target.now }
{
    if target == "/device.xml" {
        Some(Document::Device)
    } else if target == "/cds.xml" {
        Some(Document::Service)
    } else {
        None
    }
}

/// Returns the answer to a request for a document by a method.
fn document_answer(document: Document, method: &str) -> FreeAnswer
    ensures { result ≡ document_answer document method.now }
{
    if method == "GET" {
        FreeAnswer::Document(document)
    } else {
        FreeAnswer::Status(405)
    }
}

/// Returns the id in a target `/media/ID`.
fn media_id(target: &[u8]) -> Option<u32>
    ensures { result ≡ media_id target.now }
{
    if !target.starts_with(b"/media/") {
        return None;
    }
    let (_, digits) = target.split_at(7);
    plain_number(digits)
}

/// Returns the number that the bytes are in plain decimal, without a leading zero.
fn plain_number(digits: &[u8]) -> Option<u32>
    ensures { result ≡ plain_below (2 ^ 32) digits.now }
{
    if has_leading_zero(digits) {
        None
    } else {
        read_u32(digits)
    }
}

/// Returns whether a zero stands before further bytes.
fn has_leading_zero(digits: &[u8]) -> bool
    ensures { result ≡ has_leading_zero digits.now }
{
    match digits {
        [first, _, ..] => *first == 48,
        _ => false,
    }
}
