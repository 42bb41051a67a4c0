//! Requests as they come over a connection: reading one, and the statuses that need no server.

ghost use Rattle.std.specs.Prelude.{◌≡◌, ◌≤◌, ◌<◌, ℕ, true, List, length, Option, Some, IfOk, OnErr};
ghost use Rattle.cds_outside.specs.Outside.{Told};
ghost use Rattle.cds_http.specs.declared.error.HttpError.TheVariants as cause;
ghost use Rattle.cds_http.specs.declared.message.Message.{Message};
ghost use Rattle.cds_http.specs.declared.message.Side.TheVariants as side;
ghost use Rattle.cds_http.specs.Decided.{Decides};
ghost use Rattle.cds_http.specs.Known.{Known, Needs, Refused, Whole};
ghost use Rattle.cds_http.specs.Reading.{Stands};
ghost use Rattle.cds_serve.specs.Answered.{ReadsFrom, piece_limit};
ghost use Rattle.cds_serve.specs.Requested.{BrokenRose, ComesTo, FilledRose, GoesOn, HasAll, IsFilled, IsLastBy, IsLastIn, IsRequest};

use crate::target::{FreeAnswer, Target, target_of};
use cds_base::Mem;
use cds_http::{Fed, HttpError, Message, MessageReader, Side};
use cds_outside::{Conn, Failed};
use std::alloc::Global;

/// The number of bytes that are read at once.
const PIECE: usize = 8_192;

/// A message that asks for the file of the track with an id.
#[derive(Drop)]
pub(crate) struct FileRequest {
    pub message: Message,
    pub id: u32,
}

/// What came over a connection.
#[derive(Drop)]
pub(crate) enum Request {
    /// A message that the server answers in a turn.
    Needing(Message),
    /// A message that asks for a file, which the server names in a turn.
    Fetching(FileRequest),
    /// Bytes that are answered without a turn: they are no message, or one that the server has no part in.
    Free(FreeAnswer),
    /// Nothing, since the connection failed.
    Broken,
    /// Nothing, since memory ran out.
    Starved,
}

/// How the reading of a message ended.
#[derive(Clone, Copy)]
pub(crate) enum Filled {
    /// The message is whole, or the connection has ended.
    Done,
    /// The bytes are refused.
    Refused(HttpError),
    /// The connection failed.
    Broken,
}

/// Reads the request of a connection of which nothing was read yet.
pub(crate) fn read_request<C: Conn>(alloc: Global, conn: &mut C) -> Request
    ensures request { Told (C.Source.told conn.old).left (λ bytes. (known : Known Message) → Decides true side.Request bytes known → IsRequest known result) }
    ensures read { Told (C.Source.told conn.old).left (λ bytes. ReadsFrom bytes (C.Source.told conn.new).left (IsLastIn result)) }
    ensures rose { BrokenRose result (C.Source.told conn.old).faults (C.Source.told conn.new).faults }
    ensures never_falls { (C.Source.told conn.old).faults ≤ (C.Source.told conn.new).faults }
    ensures sink_stays { C.Sink.told conn.new ≡ C.Sink.told conn.old }
{
    match read_message(alloc, conn) {
        Ok(request) => request,
        Err(Mem) => Request::Starved,
    }
}

/// Reads the request, if there is memory for a piece of it.
fn read_message<C: Conn>(alloc: Global, conn: &mut C) -> Result<Request, Mem>
    ensures request { IfOk result (λ request. Told (C.Source.told conn.old).left (λ bytes. (known : Known Message) → Decides true side.Request bytes known → IsRequest known request)) }
    ensures read { IfOk result (λ request. Told (C.Source.told conn.old).left (λ bytes. ReadsFrom bytes (C.Source.told conn.new).left (IsLastIn request))) }
    ensures unread { OnErr result ((C.Source.told conn.new).left ≡ (C.Source.told conn.old).left) }
    ensures rose { IfOk result (λ request. BrokenRose request (C.Source.told conn.old).faults (C.Source.told conn.new).faults) }
    ensures never_falls { (C.Source.told conn.old).faults ≤ (C.Source.told conn.new).faults }
    ensures sink_stays { C.Sink.told conn.new ≡ C.Sink.told conn.old }
{
    let mut piece = empty_piece(alloc)?;
    let mut reader = MessageReader::new(alloc, Side::Request)?;
    let filled = fill(alloc, conn, &mut reader, piece.as_mut_slice());
    drop(piece);
    Ok(request_of(filled, reader))
}

/// Makes room for a piece, which is not empty.
fn empty_piece(alloc: Global) -> Result<Vec<u8>, Mem>
    ensures some { IfOk result (λ piece. 0 < length piece.items) }
    ensures short { IfOk result (λ piece. length piece.items ≤ piece_limit) }
{
    let piece = vec![in alloc; 0; PIECE]?;
    Ok(piece)
}

/// Reads until a message is whole, or its bytes are refused, or the connection ends or fails.
fn fill<C: Conn>(
    alloc: Global,
    conn: &mut C,
    reader: &mut MessageReader,
    piece: &mut [u8],
) -> Filled
    requires some { 0 < length piece.old }
    requires short { length piece.old ≤ piece_limit }
    ensures filled { (bytes : List ℕ) → ComesTo bytes (C.Source.told conn.old).left reader.old → IsFilled result bytes reader.new }
    ensures read { (bytes : List ℕ) → ComesTo bytes (C.Source.told conn.old).left reader.old → ReadsFrom bytes (C.Source.told conn.new).left (IsLastBy result) }
    ensures rose { FilledRose (Some result) (C.Source.told conn.old).faults (C.Source.told conn.new).faults }
    ensures never_falls { (C.Source.told conn.old).faults ≤ (C.Source.told conn.new).faults }
    ensures sink_stays { C.Sink.told conn.new ≡ C.Sink.told conn.old }
{
    'pieces: for _ in 0..u64::MAX {
        match fill_once(alloc, conn, reader, piece) {
            Some(filled) => return filled,
            None => {}
        }
    }
    Filled::Refused(HttpError::Mem)
}

/// Reads a piece. Returns `None` if more is needed.
fn fill_once<C: Conn>(
    alloc: Global,
    conn: &mut C,
    reader: &mut MessageReader,
    piece: &mut [u8],
) -> Option<Filled>
    requires some { 0 < length piece.old }
    requires short { length piece.old ≤ piece_limit }
    ensures goes { (bytes : List ℕ) → ComesTo bytes (C.Source.told conn.old).left reader.old → GoesOn result bytes (C.Source.told conn.new).left reader.new }
    ensures rose { FilledRose result (C.Source.told conn.old).faults (C.Source.told conn.new).faults }
    ensures never_falls { (C.Source.told conn.old).faults ≤ (C.Source.told conn.new).faults }
    ensures sink_stays { C.Sink.told conn.new ≡ C.Sink.told conn.old }
{
    match conn.receive(piece) {
        Ok(0) => Some(Filled::Done),
        Ok(count) => {
            let (came, _) = piece.split_at(count);
            match reader.feed(alloc, came) {
                Ok(Fed::More) => None,
                Ok(Fed::Whole { .. }) => Some(Filled::Done),
                Err(refusal) => Some(Filled::Refused(refusal)),
            }
        }
        Err(Failed) => Some(Filled::Broken),
    }
}

/// Returns what came, by how the reading of it ended.
fn request_of(filled: Filled, reader: MessageReader) -> Request
    ensures request { (bytes : List ℕ) → IsFilled filled bytes reader → (known : Known Message) → Decides true side.Request bytes known → IsRequest known result }
    ensures read { (bytes : List ℕ) (left : Option (List ℕ)) → ReadsFrom bytes left (IsLastBy filled) → ReadsFrom bytes left (IsLastIn result) }
    ensures rose { (old new : ℕ) → FilledRose (Some filled) old new → BrokenRose result old new }
{
    match filled {
        Filled::Done => finish(reader),
        Filled::Refused(refusal) => {
            drop(reader);
            refused(refusal)
        }
        Filled::Broken => {
            drop(reader);
            Request::Broken
        }
    }
}

/// Returns what came, at the end of the message or of the connection.
fn finish(reader: MessageReader) -> Request
    ensures request { (bytes : List ℕ) → HasAll bytes reader → (known : Known Message) → Decides true side.Request bytes known → IsRequest known result }
    ensures rose { (old new : ℕ) → BrokenRose result old new }
{
    match reader.finish() {
        Ok(message) => judged(message),
        Err(refusal) => refused(refusal),
    }
}

/// Returns the request that a message is, by where it goes.
fn judged(message: Message) -> Request
    ensures request { (rest : List ℕ) → IsRequest (Whole message rest) result }
    ensures rose { (old new : ℕ) → BrokenRose result old new }
{
    match target_of(&message) {
        Target::Free(answer) => {
            drop(message);
            Request::Free(answer)
        }
        Target::File(id) => Request::Fetching(FileRequest { message, id }),
        Target::Server => Request::Needing(message),
    }
}

/// Returns the request that a refusal is.
fn refused(refusal: HttpError) -> Request
    ensures refused { IsRequest (Refused refusal) result }
    ensures cut { refusal ≡ cause.Truncated → IsRequest Needs result }
    ensures starved { refusal ≡ cause.Mem → (known : Known Message) → IsRequest known result }
    ensures rose { (old new : ℕ) → BrokenRose result old new }
{
    match refusal {
        HttpError::Mem => Request::Starved,
        HttpError::TooLong => Request::Free(FreeAnswer::Status(413)),
        _ => Request::Free(FreeAnswer::Status(400)),
    }
}
