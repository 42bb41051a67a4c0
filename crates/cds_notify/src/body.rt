//! Reads the body of a note.

ghost use Rattle.std.specs.Prelude.{◌≡◌, ◌^◌, option_and_then};
ghost use Rattle.cds_base.specs.Number.{number_below};
ghost use Rattle.cds_lastchange.specs.Refusal.{Decides};
ghost use Rattle.cds_notify.specs.Gathering.{said_by};
ghost use Rattle.cds_notify.specs.Reading.{BodyTold, EventsTold, SaidTold, of_document, of_state};

use crate::note::NoteError;
use crate::variables::{Joined, Variables};
use cds_base::{Text, read_u32};
use cds_lastchange::{Events, StateError, StateReader};
use cds_markup::{MarkupError, give_parts};
use std::alloc::Global;

/// What a set of properties says: the number of the last change, and the text of the changes.
#[derive(Drop)]
pub struct Said {
    pub number: u32,
    pub changes: Text,
}

/// What the body of a note says: the number of the last change, and the events.
#[derive(Drop)]
pub struct Content {
    pub number: u32,
    pub events: Events,
}

/// Returns the number that a text is.
fn number_in(text: Option<Text>) -> Option<u32>
    ensures { result ≡ option_and_then (number_below (2 ^ 32)) text }
{
    match text {
        Some(text) => read_u32(text.as_str().as_bytes()),
        None => None,
    }
}

/// Returns what a set of properties with these variables says.
#[tactic(auto, unfolding(crate::specs::Gathering::said_by))]
fn said_by(numbers: Joined, changed: Joined) -> Option<Said>
    ensures { result ≡ said_by numbers changed }
{
    let number = match number_in(numbers.into_only()) {
        Some(number) => number,
        None => return None,
    };
    let changes = match changed.into_only() {
        Some(changes) => changes,
        None => return None,
    };
    Some(Said { number, changes })
}

/// Returns the events that a text is.
fn state_event(alloc: Global, text: &[u8]) -> Result<Events, StateError>
    ensures { Decides text.now result }
{
    let mut reader = StateReader::new(alloc)?;
    match reader.feed(alloc, text) {
        Ok(()) => (),
        Err(refusal) => return Err(refusal),
    }
    reader.finish(alloc)
}

/// Returns why a note is refused if its changes are refused for this reason.
fn of_state(refusal: StateError) -> NoteError
    ensures { result ≡ of_state refusal }
{
    match refusal {
        StateError::Mem => NoteError::Mem,
        _ => NoteError::Body,
    }
}

/// Returns why a note is refused if its body is refused for this reason.
fn of_document(refusal: MarkupError) -> NoteError
    ensures { result ≡ of_document refusal }
{
    match refusal {
        MarkupError::Mem => NoteError::Mem,
        _ => NoteError::Body,
    }
}

/// Returns the events that a text is, or `Body` if it is no StateEvent.
fn events_in(alloc: Global, text: &[u8]) -> Result<Events, NoteError>
    ensures { EventsTold text.now result }
{
    match state_event(alloc, text) {
        Ok(events) => Ok(events),
        Err(refusal) => Err(of_state(refusal)),
    }
}

/// Returns what the set of properties that a body is says, or `Body` if the body is no document.
fn said_in(alloc: Global, body: &[u8]) -> Result<Option<Said>, NoteError>
    ensures { SaidTold body.now result }
{
    let mut variables = Variables::new(alloc);
    match give_parts(alloc, body, &mut variables) {
        Ok(()) => Ok(said_by(variables.number, variables.changes)),
        Err(refusal) => Err(of_document(refusal)),
    }
}

/// Returns what a body says, or `Body` if it does not say a number and events.
pub fn content_of(alloc: Global, body: &[u8]) -> Result<Content, NoteError>
    ensures { BodyTold body.now result }
{
    let found = match said_in(alloc, body) {
        Ok(found) => found,
        Err(refusal) => return Err(refusal),
    };
    let said = match found {
        Some(said) => said,
        None => return Err(NoteError::Body),
    };
    match events_in(alloc, said.changes.as_str().as_bytes()) {
        Ok(events) => Ok(Content {
            number: said.number,
            events,
        }),
        Err(refusal) => Err(refusal),
    }
}
