//! Serving one connection: read a message and what it asks, have it answered in a turn, write the reply, finish the connection.

ghost use Rattle.std.specs.Prelude.{◌≡◌, ◌≤◌, ◌⊎◌, true, ◌++◌, Some, IfOk, IsErr, IsSome, OnErr, OnOk};
ghost use Rattle.cds_outside.specs.Outside.{HoldsPart, Rose, Told};
ghost use Rattle.cds_turn.specs.Turn.{IsSeatOf, seat_told, start_of};
ghost use Rattle.cds_server.specs.Asking.{Fits};
ghost use Rattle.cds_server.specs.Outcome.{GoesOut};
ghost use Rattle.cds_serve.specs.Answered.{Serves, no_memory_reply};
ghost use Rattle.cds_serve.specs.Acts.{IsWritten, free_text, reply_requests, reply_text};
ghost use Rattle.cds_serve.specs.Fetched.{Fetches};
ghost use Rattle.cds_serve.specs.Sent.{GivesAll};
ghost use Rattle.cds_serve.specs.Told.{Writes};

use crate::acts::{Find, Handle, Reply};
use crate::documents::free_reply;
use crate::fetching::{Fate, ended_by, fetch};
use crate::moment::ask_moment;
use crate::request::{FileRequest, Request, read_request};
use crate::sending::send_first;
use crate::served::Served;
use crate::target::FreeAnswer;
use cds_base::Mem;
use cds_outside::{Clock, Conn, Failed, Folder, Gate, Linger, Link};
use cds_server::{Answered, Asking, FirstNote, Media, Serving, read_asked, write_made};
use cds_ssdp::Device;
use cds_turn::{Seat, Turn};
use std::alloc::Global;
use std::marker::Send;
use std::sync::Wait;

/// The reply if memory runs out; it takes no memory. It is the fault 603 of a control request (UPnP Device Architecture 2.0 on
/// errors of control).
const NO_MEMORY_REPLY: &[u8] =
    b"HTTP/1.1 500 Internal Server Error\r\nEXT:\r\nSERVER: unix/1.0 UPnP/2.0 cds/1.0\r\nCONTENT-TYPE: text/xml; charset=\"utf-8\"\r\nCONTENT-LENGTH: 418\r\nCONNECTION: close\r\n\r\n<?xml version=\"1.0\"?><s:Envelope xmlns:s=\"http://schemas.xmlsoap.org/soap/envelope/\" s:encodingStyle=\"http://schemas.xmlsoap.org/soap/encoding/\"><s:Body><s:Fault><faultcode>s:Client</faultcode><faultstring>UPnPError</faultstring><detail><UPnPError xmlns=\"urn:schemas-upnp-org:control-1-0\"><errorCode>603</errorCode><errorDescription>Out of Memory</errorDescription></UPnPError></detail></s:Fault></s:Body></s:Envelope>";

/// The points at which a worker passes its gate: before it writes a reply, and after it.
pub(crate) const BEFORE_REPLY: u32 = 1;

pub(crate) const BEHIND_REPLY: u32 = 2;

/// Serves one connection: reads one message, answers it, finishes the connection, and sends the first note of an accepted
/// subscription.
///
/// - GET of `/device.xml` and of `/cds.xml` is answered with the description of the device and of its service. Another method there
///   gets 405. Neither costs a turn.
/// - GET and HEAD of `/media/ID` ask for the file of the track with that id, in plain decimal. The server names the file in one turn.
///   Its bytes are sent outside the turn: all of them, or the one range that RANGE asks for. HEAD gets the head that GET without
///   RANGE would get. The statuses are decided in this order: 404 if the id names no track, 405 for another method, 416 if GET asks
///   for a range outside the file, 404 if the file cannot be opened.
/// - Any other message that is refused, or that the server has no part in, is answered with its status. It costs no turn.
/// - Any other message is answered by the server in one turn.
/// - If memory runs out while a message is read or handled, the constant reply of the fault 603 is written.
/// - A connection that fails is given up, and nothing else is. If it fails before its message came, it is not finished.
///
/// `last` is the last moment that the clock gave. If the clock fails, it is the moment of the turn. The gate is passed at point 1
/// before the reply and at point 2 after it.
pub fn serve_one<R: Wait, V: Serving + Send, C: Conn, T: Clock, L: Link, G: Gate, F: Folder>(
    rt: &R,
    alloc: Global,
    turn: &Turn<Served<V>>,
    seat: &mut Seat<Served<V>>,
    conn: &mut C,
    clock: &mut T,
    last: &mut u64,
    link: &mut L,
    gate: &mut G,
    device: &Device,
    folder: &mut F,
) -> Result<(), Mem>
    requires { IsSeatOf turn.now seat.old }
    ensures seat { IsSeatOf turn.now seat.new }
    ensures served { Serves (start_of turn.now seat.old) device.now result last.old last.new
        (record {
          seat = seat_told turn.now seat.old;
          conn = record { source = C.Source.told conn.old; sink = C.Sink.told conn.old };
          clock = T.told clock.old;
          link = L.told link.old;
          folder = F.told folder.old;
        })
        (record {
          seat = seat_told turn.now seat.new;
          conn = record { source = C.Source.told conn.new; sink = C.Sink.told conn.new };
          clock = T.told clock.new;
          link = L.told link.new;
          folder = F.told folder.new;
        }) }
    ensures ended { (C.finished conn.new ≡ true)
        ⊎ (Rose (C.Source.told conn.old).faults (C.Source.told conn.new).faults × (C.Sink.told conn.new ≡ C.Sink.told conn.old)) }
    ensures read_faults_rise { (C.Source.told conn.old).faults ≤ (C.Source.told conn.new).faults }
    ensures write_faults_rise { (C.Sink.told conn.old).faults ≤ (C.Sink.told conn.new).faults }
    ensures clock_faults_rise { (T.told clock.old).faults ≤ (T.told clock.new).faults }
    ensures link_faults_rise { (L.told link.old).faults ≤ (L.told link.new).faults }
    ensures file_faults_rise { (F.told folder.old).file_faults ≤ (F.told folder.new).file_faults }
{
    match read_request(alloc, conn) {
        Request::Needing(message) => match read_asked(alloc, &message) {
            Ok(asking) => {
                drop(message);
                let now = ask_moment(clock, last);
                let answered = turn.with(
                    rt,
                    seat,
                    Handle {
                        alloc,
                        now,
                        asking: &asking,
                    },
                );
                answer(alloc, conn, link, gate, reply_of(alloc, asking, answered))
            }
            Err(Mem) => {
                drop(message);
                starve(conn, gate, Linger::Never)
            }
        },
        Request::Fetching(asked) => {
            ask_moment(clock, last);
            let found = turn.with(
                rt,
                seat,
                Find {
                    alloc,
                    id: asked.id,
                },
            );
            ended_by(answer_found(alloc, conn, gate, folder, asked, found))
        }
        Request::Free(answer) => answer_free(alloc, conn, gate, device, answer),
        Request::Broken => Ok(()),
        Request::Starved => starve(conn, gate, Linger::WhileSending),
    }
}

/// Returns what is written and sent, by what was asked and what the server answered in its turn.
fn reply_of(alloc: Global, asking: Asking, answered: Result<Answered, Mem>) -> Result<Reply, Mem>
    requires fits { IfOk answered (λ answered. Fits asking answered.made) }
    ensures { IsWritten asking answered result }
{
    match answered {
        Ok(Answered { made, note, .. }) => {
            let text = write_made(alloc, asking, made)?;
            Ok(Reply { text, note })
        }
        Err(Mem) => Err(Mem),
    }
}

/// Writes the reply, finishes the connection, and sends the first note.
fn answer<C: Conn, L: Link, G: Gate>(
    alloc: Global,
    conn: &mut C,
    link: &mut L,
    gate: &mut G,
    reply: Result<Reply, Mem>,
) -> Result<(), Mem>
    requires delivered { IfOk reply (λ reply. GoesOut reply.note) }
    ensures written { Writes (reply_text reply) (C.Sink.told conn.old) (C.Sink.told conn.new) }
    ensures given { GivesAll result (reply_requests reply) (L.told link.old).requests (L.told link.new).requests }
    ensures starved { IsErr reply → IsErr result }
    ensures noted { IfOk reply (λ reply. IsErr result → IsSome reply.note) }
    ensures ended { C.finished conn.new ≡ true }
    ensures write_faults_rise { (C.Sink.told conn.old).faults ≤ (C.Sink.told conn.new).faults }
    ensures source_stays { C.Source.told conn.new ≡ C.Source.told conn.old }
    ensures link_faults_rise { (L.told link.old).faults ≤ (L.told link.new).faults }
{
    match reply {
        Ok(Reply { text, note }) => {
            write(conn, gate, text.as_slice(), linger_before(&note));
            drop(text);
            let sent = send_first(alloc, conn, link, &note);
            drop(note);
            sent
        }
        Err(Mem) => starve(conn, gate, Linger::Never),
    }
}

/// Returns how a connection lingers before a first note, if there is one.
fn linger_before(note: &Option<FirstNote>) -> Linger {
    match note {
        Some(_) => Linger::UntilRead,
        None => Linger::Never,
    }
}

/// Answers a request for a file, by what the server answered in its turn, and finishes the connection.
fn answer_found<C: Conn, G: Gate, F: Folder>(
    alloc: Global,
    conn: &mut C,
    gate: &mut G,
    folder: &mut F,
    asked: FileRequest,
    found: Result<Option<Media>, Mem>,
) -> Fate
    ensures fetched { IfOk found (λ media. Fetches asked.message media result (F.told folder.old) (F.told folder.new) (C.Sink.told conn.old) (C.Sink.told conn.new)) }
    ensures starved { OnErr found ((result ≡ Fate.Starved) × Writes no_memory_reply (C.Sink.told conn.old) (C.Sink.told conn.new)) }
    ensures folder_stays { OnErr found (F.told folder.new ≡ F.told folder.old) }
    ensures ended { C.finished conn.new ≡ true }
    ensures write_faults_rise { (C.Sink.told conn.old).faults ≤ (C.Sink.told conn.new).faults }
    ensures source_stays { C.Source.told conn.new ≡ C.Source.told conn.old }
    ensures file_faults_rise { (F.told folder.old).file_faults ≤ (F.told folder.new).file_faults }
{
    match found {
        Ok(media) => {
            let fate = fetch(alloc, conn, gate, folder, &asked.message, &media);
            drop(media);
            drop(asked);
            fate
        }
        Err(Mem) => {
            drop(asked);
            let _ = starve(conn, gate, Linger::Never);
            Fate::Starved
        }
    }
}

/// Writes a reply that needs no turn, or the constant reply if memory runs out. Finishes the connection.
fn answer_free<C: Conn, G: Gate>(
    alloc: Global,
    conn: &mut C,
    gate: &mut G,
    device: &Device,
    answer: FreeAnswer,
) -> Result<(), Mem>
    ensures written { Writes (free_text device.now answer result) (C.Sink.told conn.old) (C.Sink.told conn.new) }
    ensures ended { C.finished conn.new ≡ true }
    ensures write_faults_rise { (C.Sink.told conn.old).faults ≤ (C.Sink.told conn.new).faults }
    ensures source_stays { C.Source.told conn.new ≡ C.Source.told conn.old }
{
    match free_reply(alloc, device, answer) {
        Ok(text) => {
            write(conn, gate, text.as_slice(), linger_after(answer));
            Ok(())
        }
        Err(Mem) => starve(conn, gate, linger_after(answer)),
    }
}

/// Returns how a connection lingers after such an answer. A message for a document, or with another target or method, was read to
/// its end.
fn linger_after(answer: FreeAnswer) -> Linger {
    match answer {
        FreeAnswer::Document(_) => Linger::Never,
        FreeAnswer::Status(404 | 405) => Linger::Never,
        FreeAnswer::Status(_) => Linger::WhileSending,
    }
}

/// Writes the constant reply of the fault 603, finishes the connection, and returns `Mem`.
pub(crate) fn starve<C: Conn, G: Gate>(
    conn: &mut C,
    gate: &mut G,
    linger: Linger,
) -> Result<(), Mem>
    ensures starved { IsErr result }
    ensures written { Writes no_memory_reply (C.Sink.told conn.old) (C.Sink.told conn.new) }
    ensures ended { C.finished conn.new ≡ true }
    ensures write_faults_rise { (C.Sink.told conn.old).faults ≤ (C.Sink.told conn.new).faults }
    ensures source_stays { C.Source.told conn.new ≡ C.Source.told conn.old }
{
    write(conn, gate, no_memory_reply(), linger);
    Err(Mem)
}

/// Returns the constant reply of the fault 603, which takes no memory.
pub(crate) fn no_memory_reply() -> &'static [u8]
    ensures { result.now ≡ no_memory_reply }
{
    NO_MEMORY_REPLY
}

/// Writes a reply between the two points of the gate, and then finishes the connection. One that fails gets a prefix of the reply.
pub(crate) fn write<C: Conn, G: Gate>(conn: &mut C, gate: &mut G, text: &[u8], linger: Linger)
    ensures written { Writes text.now (C.Sink.told conn.old) (C.Sink.told conn.new) }
    ensures ended { C.finished conn.new ≡ true }
    ensures write_faults_rise { (C.Sink.told conn.old).faults ≤ (C.Sink.told conn.new).faults }
    ensures source_stays { C.Source.told conn.new ≡ C.Source.told conn.old }
{
    gate.pass(BEFORE_REPLY);
    let _ = send_all(conn, text);
    gate.pass(BEHIND_REPLY);
    conn.finish(linger);
}

/// Sends the whole text. After a failure, a prefix of it may have been taken.
pub(crate) fn send_all<C: Conn>(conn: &mut C, text: &[u8]) -> Result<(), Failed>
    ensures content { OnOk result (Told (C.Sink.told conn.old).holds (λ held. (C.Sink.told conn.new).holds ≡ Some (held ++ text.now))) }
    ensures part { OnErr result (Told (C.Sink.told conn.old).holds (λ held. HoldsPart held text.now (C.Sink.told conn.new).holds)) }
    ensures rose { OnErr result (Rose (C.Sink.told conn.old).faults (C.Sink.told conn.new).faults) }
    ensures never_falls { (C.Sink.told conn.old).faults ≤ (C.Sink.told conn.new).faults }
    ensures source_stays { C.Source.told conn.new ≡ C.Source.told conn.old }
{
    let mut at = 0;
    'pieces: while at < text.len() {
        let (_, left) = text.split_at(at);
        at += conn.send(left)?;
    }
    Ok(())
}
