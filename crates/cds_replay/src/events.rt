//! Requests about a script's subscriptions, the replies to them, and the notes that are read, all as bytes (UPnP Device
//! Architecture 2.0 on eventing).

ghost use Rattle.std.specs.Prelude.{◌≡◌, ℕ, false, List, [], None, Ok as Gave, codes, IfOk};
ghost use Rattle.url.specs.Parser.{parse_url};
ghost use Rattle.cds_commands.specs.Commands.{Command, Start as ServerStart};
ghost use Rattle.cds_commands.specs.Wire.{WireNote as Told};
ghost use Rattle.cds_http.specs.declared.message.Message.{Message as MessageValue};
ghost use Rattle.cds_http.specs.declared.message.Side.TheVariants.{Request as of_request, Reply as of_reply};
ghost use Rattle.cds_http.specs.declared.message.Start.TheVariants.{Reply as start_reply};
ghost use Rattle.cds_http.specs.Decided.{Decides};
ghost use Rattle.cds_http.specs.Known.{Whole};
ghost use Rattle.cds_gena.specs.Written.{subscribe_text, renewal_text, unsubscribe_text};
ghost use Rattle.cds_notify.specs.declared.note.NoteError.TheVariants.{Mem as OutOfMemory};
ghost use Rattle.cds_server.specs.Serving.{StandsFor};
ghost use Rattle.cds_replay.specs.Events.{CarriesNote, IsAnswered, IsMessage, IsNoteRequest, event_url, callback_url, HasSomeStatus, HasStatus, HasLease};

use crate::control::message_of;
use cds_base::{Bytes, Mem};
use cds_gena::{Lease, Sid, read_lease, write_renewal, write_subscribe, write_unsubscribe};
use cds_http::{Message, Side, Start};
use cds_notify::{Note, NoteError, read_notify};
use cds_server::{FirstNote, Server};
use std::alloc::Global;
use url::Url;

/// The URL at which a script's server takes requests about subscriptions.
const EVENT: &str = "http://127.0.0.1:49152/event";

/// The URL to which the notes to a script's replica go.
const CALLBACK: &str = "http://127.0.0.1:49153/notify";

/// Returns the URL that a text is. The text is a URL, so only memory can run out.
fn url_of(alloc: Global, text: &str) -> Result<Url, Mem>
    ensures { IfOk result (λ url. parse_url None text.now ≡ Gave url) }
{
    match Url::parse(alloc, text) {
        Ok(url) => Ok(url),
        Err(_) => Err(Mem),
    }
}

/// Returns the request for a subscription.
pub fn subscribe_request(alloc: Global) -> Result<Vec<u8>, Mem>
    ensures { IfOk result (λ request. request.items ≡ subscribe_text event_url callback_url) }
{
    let url = url_of(alloc, EVENT)?;
    let callback = url_of(alloc, CALLBACK)?;
    let mut request = Vec::new(alloc);
    write_subscribe(alloc, &url, &callback, &mut request)?;
    Ok(request)
}

/// Returns the request that renews a subscription.
pub fn renew_request(alloc: Global, sid: Sid) -> Result<Vec<u8>, Mem>
    ensures { IfOk result (λ request. request.items ≡ renewal_text event_url sid.0) }
{
    let url = url_of(alloc, EVENT)?;
    let mut request = Vec::new(alloc);
    write_renewal(alloc, &url, sid, &mut request)?;
    Ok(request)
}

/// Returns the request that ends a subscription.
pub fn unsubscribe_request(alloc: Global, sid: Sid) -> Result<Vec<u8>, Mem>
    ensures { IfOk result (λ request. request.items ≡ unsubscribe_text event_url sid.0) }
{
    let url = url_of(alloc, EVENT)?;
    let mut request = Vec::new(alloc);
    write_unsubscribe(alloc, &url, sid, &mut request)?;
    Ok(request)
}

/// Has a server handle the bytes of a request at a moment. Condition: they are one message. Appends the bytes of the reply, and
/// returns the first note of a subscription that the server granted.
pub fn answered(
    alloc: Global,
    server: &mut Server,
    now: u64,
    request: &[u8],
    reply: &mut Vec<u8>,
) -> Result<Option<FirstNote>, Mem>
    requires { IsMessage of_request request.now }
    ensures { (start : ServerStart) (commands : List Command) → StandsFor server.old start commands → IfOk result
        (λ note. IsAnswered start commands now request.now reply.old.items reply.new.items note server.new) }
{
    let message = message_of(alloc, Side::Request, request)?;
    server.handle(alloc, now, &message, reply)
}

/// Returns the message of a reply. Condition: the bytes are one.
fn reply_of(alloc: Global, reply: &[u8]) -> Result<Message, Mem>
    requires { IsMessage of_reply reply.now }
    ensures { (message : MessageValue) → Decides false of_reply reply.now (Whole message []) → IfOk result (λ m. m ≡ message) }
{
    message_of(alloc, Side::Reply, reply)
}

/// Returns the status of a message. Condition: it is a reply.
fn status_in(message: &Message) -> u16
    requires { (code : ℕ) × (message.now.start ≡ start_reply code) }
    ensures { (code : ℕ) → message.now.start ≡ start_reply code → result ≡ code }
{
    match &message.start {
        Start::Request { .. } => unreachable!(),
        Start::Reply { status } => *status,
    }
}

/// Returns the status of a reply. Condition: the bytes are one.
pub fn status_of(alloc: Global, reply: &[u8]) -> Result<u16, Mem>
    requires { HasSomeStatus reply.now }
    ensures { IfOk result (λ status. HasStatus reply.now status) }
{
    let message = reply_of(alloc, reply)?;
    Ok(status_in(&message))
}

/// Returns the lease that a reply to a subscribe request grants. Condition: the bytes are a reply.
pub fn lease_of(alloc: Global, reply: &[u8]) -> Result<Option<Lease>, Mem>
    requires { IsMessage of_reply reply.now }
    ensures { IfOk result (λ lease. HasLease reply.now lease) }
{
    let message = reply_of(alloc, reply)?;
    Ok(read_lease(&message))
}

/// Returns the note that the bytes of a request carry. Condition: they carry one.
pub fn note_of(alloc: Global, request: &Bytes) -> Result<Note, Mem>
    requires { CarriesNote request.now }
    ensures { (note : Told) → IsNoteRequest request.now note → IfOk result (λ read. read ≡ note) }
{
    let message = message_of(alloc, Side::Request, request.as_slice())?;
    match read_notify(alloc, &message) {
        Ok(note) => Ok(note),
        Err(refusal) => Err(of_memory(refusal)),
    }
}

/// Returns the refusal as `Mem`. Condition: it is that memory ran out.
fn of_memory(refusal: NoteError) -> Mem
    requires { refusal ≡ OutOfMemory }
{
    match refusal {
        NoteError::Mem => Mem,
        NoteError::Head => unreachable!(),
        NoteError::Precondition => unreachable!(),
        NoteError::Body => unreachable!(),
    }
}
