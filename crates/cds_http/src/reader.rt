//! Reads messages that come in pieces.

ghost use Rattle.std.specs.Prelude.{◌≡◌, ◌≤◌, ◌-◌, ℕ, List, [], length, Option, Some, Ok, Err, false, IsOkAnd};
ghost use Rattle.cds_http.specs.declared.message.Side.{Side};
ghost use Rattle.cds_http.specs.declared.message.Message.{Message};
ghost use Rattle.cds_http.specs.declared.lines.LinePlace.{LinePlace};
ghost use Rattle.cds_http.specs.Lines.{IsFront, EndsThere};
ghost use Rattle.cds_http.specs.Head.{head_limit};
ghost use Rattle.cds_http.specs.Decided.{with_body};
ghost use Rattle.cds_http.specs.Steps.{Fits};
ghost use Rattle.cds_http.specs.Reading.{Stands, Takes, Finishes, Continues, StageTakes, StageGrows, StageOf};

use crate::body::{Body, Part, Progress, lengthen, new_body, take_body};
use crate::framing::frame;
use crate::head::{HEAD_LIMIT, Head, read_head};
use crate::lines::{Collected, Front, LinePlace, add_front, collect, new_front};
use crate::{Fed, HttpError, Message, Side};
use cds_base::{Bytes, Mem};
use std::alloc::Global;
use std::mem;

/// How far reading has come: in a head, of which `front` came, in a body, at the end of a whole message, or refused.
#[derive(Drop)]
pub(crate) enum Stage {
    InHead { front: Front },
    InBody { head: Head, body: Body },
    AtEnd { message: Message },
    Refused,
}

/// The stage after a piece, and the answer to it.
#[derive(Drop)]
pub(crate) struct Taken {
    pub stage: Stage,
    pub fed: Fed,
}

/// Reads one message that comes in pieces.
#[derive(Drop)]
pub struct MessageReader {
    side: Side,
    stage: Stage,
}

impl MessageReader {
    /// Returns a reader of a message of this side. Nothing came to it yet, and it takes no memory so far.
    pub fn new(alloc: Global, side: Side) -> Result<Self, Mem>
        ensures { IsOkAnd result (λ r. Stands side r (Some [])) }
    {
        Ok(MessageReader {
            side,
            stage: Stage::InHead {
                front: new_front(alloc, LinePlace::Before),
            },
        })
    }

    /// Takes the next piece.
    ///
    /// - `Whole`: the message is whole, and `rest` bytes of the piece come after it. From then on pieces are not looked
    ///   at, and the answer is `Whole` with the length of the piece.
    /// - `More`: the message is not whole yet, and no bytes are refused.
    ///
    /// A head is judged after its first empty line that follows a line that is not empty. A chunk line is judged after
    /// its LF, and a trailer after its empty line. So each refusal depends on the bytes and not on how they were cut.
    /// After a refusal, also after `Mem`, each call answers `Failed`.
    pub fn feed(&mut self, alloc: Global, piece: &[u8]) -> Result<Fed, HttpError>
        ensures { (side : Side) (came : Option (List ℕ)) → Stands side self.old came
            → (now : Option (List ℕ)) × Stands side self.new now × Takes side came piece.now result now }
    {
        match grow(&mut self.stage, piece) {
            Ok(true) => Ok(Fed::More),
            Ok(false) => self.turn(alloc, piece),
            Err(refusal) => {
                put_stage(&mut self.stage, Stage::Refused);
                Err(refusal)
            }
        }
    }

    /// Takes the next piece if it is not just added to what is kept.
    fn turn(&mut self, alloc: Global, piece: &[u8]) -> Result<Fed, HttpError>
        ensures { (side : Side) (came : Option (List ℕ)) → Stands side self.old came
            → (now : Option (List ℕ)) × Stands side self.new now × Takes side came piece.now result now }
    {
        let stage = mem::replace(&mut self.stage, Stage::Refused);
        match take(alloc, self.side, stage, piece) {
            Ok(taken) => {
                let Taken { stage, fed } = taken;
                put_stage(&mut self.stage, stage);
                Ok(fed)
            }
            Err(refusal) => Err(refusal),
        }
    }

    /// Returns the message at the end of the connection. `Truncated` comes if the message is not whole. A reply whose
    /// body ends with the connection is whole here. `Failed` comes only if a piece was refused or memory ran out.
    pub fn finish(self) -> Result<Message, HttpError>
        ensures { (side : Side) (came : Option (List ℕ)) → Stands side self came → Finishes side came result }
    {
        end_stage(self.stage)
    }
}

/// Moves on to a stage.
fn put_stage(stage: &mut Stage, next: Stage)
    ensures { stage.new ≡ next }
{
    drop(mem::replace(stage, next));
}

/// Adds a piece in place if it only makes longer what is kept. Returns whether it did.
fn grow(stage: &mut Stage, piece: &[u8]) -> Result<bool, HttpError>
    ensures grows { (side : Side) (bytes : List ℕ) → StageOf side stage.old bytes → StageGrows side bytes stage.old piece.now result stage.new }
    ensures ends { (m : Message) → stage.old ≡ Stage.AtEnd m → result ≡ Ok false }
    ensures failed { stage.old ≡ Stage.Refused → (result ≡ Ok false) × (stage.new ≡ Stage.Refused) }
{
    match stage {
        Stage::InHead { front } => add_front(front, HEAD_LIMIT, piece),
        Stage::InBody { head: _, body } => lengthen(body, piece),
        Stage::AtEnd { message: _ } => Ok(false),
        Stage::Refused => Ok(false),
    }
}

/// Returns the message if the connection ends at this stage.
fn end_stage(stage: Stage) -> Result<Message, HttpError>
    ensures ends { (side : Side) (bytes : List ℕ) → StageOf side stage bytes → Finishes side (Some bytes) result }
    ensures failed { stage ≡ Stage.Refused → result ≡ Err HttpError.Failed }
{
    match stage {
        Stage::InHead { .. } => Err(HttpError::Truncated),
        Stage::InBody { head, body } => end_body(head, body),
        Stage::AtEnd { message } => Ok(message),
        Stage::Refused => Err(HttpError::Failed),
    }
}

/// Returns the message if the connection ends inside this body.
fn end_body(head: Head, body: Body) -> Result<Message, HttpError>
    ensures { (side : Side) (bytes : List ℕ) → StageOf side (Stage.InBody head body) bytes → Finishes side (Some bytes) result }
{
    match body.part {
        Part::ToEnd => Ok(with_body(head, body.bytes)),
        _ => Err(HttpError::Truncated),
    }
}

/// Returns the message of a head and a body.
fn with_body(head: Head, body: Bytes) -> Message
    ensures { result ≡ with_body head body }
{
    let Head { start, fields } = head;
    Message {
        start,
        fields,
        body,
    }
}

/// Takes a piece at a stage.
fn take(alloc: Global, side: Side, stage: Stage, piece: &[u8]) -> Result<Taken, HttpError>
    ensures takes { (bytes : List ℕ) → StageOf side stage bytes → StageTakes side bytes piece.now result }
    ensures ends { (m : Message) → stage ≡ Stage.AtEnd m → IsOkAnd result (λ t. t.fed ≡ Fed.Whole (length piece.now)) }
    ensures failed { stage ≡ Stage.Refused → result ≡ Err HttpError.Failed }
{
    match stage {
        Stage::InHead { front } => take_head(alloc, side, front, piece),
        Stage::InBody { head, body } => take_rest(alloc, head, body, piece),
        Stage::AtEnd { message } => Ok(Taken {
            stage: Stage::AtEnd { message },
            fed: Fed::Whole { rest: piece.len() },
        }),
        Stage::Refused => Err(HttpError::Failed),
    }
}

/// Takes a piece of a head, and what comes after the head.
fn take_head(alloc: Global, side: Side, front: Front, piece: &[u8]) -> Result<Taken, HttpError>
    ensures { IsFront LinePlace.Before head_limit front → StageTakes side front.text piece.now result }
{
    match collect(front, HEAD_LIMIT, HttpError::HeadTooLong, piece) {
        Ok(Collected::Whole { text, used }) => {
            let (_, rest) = piece.split_at(used);
            end_head(alloc, side, text.as_slice(), rest)
        }
        Ok(Collected::Going { front }) => Ok(Taken {
            stage: Stage::InHead { front },
            fed: Fed::More,
        }),
        Err(refusal) => Err(refusal),
    }
}

/// Reads a whole head, and takes the bytes after it.
fn end_head(alloc: Global, side: Side, text: &[u8], rest: &[u8]) -> Result<Taken, HttpError>
    requires { length text.now ≤ head_limit }
    ensures { EndsThere LinePlace.Before text.now → StageTakes side text.now rest.now result }
{
    match read_head(alloc, side, text) {
        Ok(head) => match frame(side, &head.fields) {
            Ok(framing) => take_rest(alloc, head, new_body(alloc, framing), rest),
            Err(refusal) => Err(refusal),
        },
        Err(refusal) => Err(refusal),
    }
}

/// Returns the number of bytes of a piece after those that were used.
fn behind(piece: &[u8], used: usize) -> usize
    requires { used ≤ length piece.now }
    ensures { result ≡ length piece.now - used }
{
    piece.len() - used
}

/// Takes a piece of a body.
fn take_rest(alloc: Global, head: Head, body: Body, piece: &[u8]) -> Result<Taken, HttpError>
    ensures { (side : Side) (bytes : List ℕ) → Fits body → Continues side bytes head body → StageTakes side bytes piece.now result }
{
    match take_body(alloc, body, piece) {
        Ok(Progress::More { body, .. }) => Ok(Taken {
            stage: Stage::InBody { head, body },
            fed: Fed::More,
        }),
        Ok(Progress::Whole { body, used }) => Ok(Taken {
            stage: Stage::AtEnd {
                message: with_body(head, body),
            },
            fed: Fed::Whole {
                rest: behind(piece, used),
            },
        }),
        Err(refusal) => Err(refusal),
    }
}
