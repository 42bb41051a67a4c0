//! The rows `events` and `events-rewrite`: lists of events as StateEvents.

use crate::row::Row;
use crate::show::Out;
use cds_lastchange::{Events, StateError, StateReader, write_state_event};
use std::alloc::Global;

/// `events | text`: shows the events that a text lists. If it is refused, shows why and how many bytes came before.
pub fn read(alloc: Global, row: &Row, out: &mut Out) {
    let mut taken = 0;
    match events_of(alloc, row.bytes(1), &mut taken) {
        Ok(events) => events_shown(&events, out),
        Err(refusal) => {
            out.say("refused at byte ", &taken);
            out.say(": ", &refusal);
        }
    }
}

/// Reads the events of a text that comes byte by byte. Counts the bytes before the one that is refused.
fn events_of(alloc: Global, bytes: &[u8], taken: &mut usize) -> Result<Events, StateError> {
    let mut reader = StateReader::new(alloc)?;
    match feed(alloc, bytes, &mut reader, taken) {
        Ok(()) => reader.finish(alloc),
        Err(refusal) => {
            drop(reader);
            Err(refusal)
        }
    }
}

fn feed(
    alloc: Global,
    bytes: &[u8],
    reader: &mut StateReader,
    taken: &mut usize,
) -> Result<(), StateError> {
    for byte in bytes.chunks(1) {
        reader.feed(alloc, byte)?;
        *taken = taken.saturating_add(1);
    }
    Ok(())
}

fn events_shown(events: &Events, out: &mut Out) {
    out.value(&events.len());
    out.put(" events");
    for event in events.as_slice() {
        out.say("; ", event);
    }
}

/// `events-rewrite | text`: shows what is written of the events that a text lists.
pub fn rewritten(alloc: Global, row: &Row, out: &mut Out) {
    match events_of(alloc, row.bytes(1), &mut 0) {
        Ok(events) => events_written(alloc, &events, out),
        Err(refusal) => out.refuse(&refusal),
    }
}

fn events_written(alloc: Global, events: &Events, out: &mut Out) {
    let mut text = Vec::new(alloc);
    let is_done = write_state_event(alloc, events.as_slice(), &mut text).is_ok();
    out.note(is_done);
    out.show(text.as_slice());
}
