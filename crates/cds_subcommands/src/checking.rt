//! Reads a StateEvent from a source, and writes its one written form into a sink.

ghost use Rattle.std.specs.Prelude.{◌≡◌, ◌≢◌, ◌⊎◌, ℕ, ◌+◌, ◌<◌, ◌≤◌, ◌++◌, [], Some, List, length, IfOk, IfErr, OnOk, OnErr, string_bytes};
ghost use Rattle.cds_base.specs.declared.limits.TheConstants.{INPUT_LIMIT};
ghost use Rattle.cds_outside.specs.Outside.{raised, Rose, Told};
ghost use Rattle.cds_object.specs.declared.event.Event.{Event};
ghost use Rattle.cds_lastchange.specs.Feeding.{IsRead};
ghost use Rattle.cds_lastchange.specs.StateEvent.{IsStateEvent};
ghost use Rattle.cds_lastchange.specs.declared.error.StateError.TheVariants.{Failed as IsFailed};
ghost use Rattle.cds_subcommands.specs.Check.{EndsCheck, WritesCheck, IsCause, OnLimit, OnReadFault, cause_of, events_ending, refused_ending};
ghost use Rattle.cds_subcommands.specs.Run.{Ends, Writes};

use crate::written::write_text;
use cds_base::{INPUT_LIMIT, Mem};
use cds_lastchange::{Events, StateError, StateReader, write_state_event};
use cds_outside::{Failed, Sink, Source, empty_piece, read_piece};
use std::alloc::Global;
use std::convert::From;

/// Why no events were read.
#[derive(Clone, Copy)]
pub enum CheckError {
    /// The input is no StateEvent. Its first fault stands at this place, in bytes from 0.
    Refused { at: usize },
    /// More than 67,108,864 bytes came without a fault before.
    Limit,
    /// The source could not be read.
    ReadFault,
    /// Out of memory.
    Mem,
}

impl From<Mem> for CheckError {
    ghost use Rattle.cds_subcommands.specs.declared.checking.CheckError.{CheckError};

    ghost from_gives = { λ _ r. r ≡ CheckError.Mem };

    fn from(_: Mem) -> Self {
        CheckError::Mem
    }
}

/// Reads the StateEvent that the source gives, and writes its one written form and LF to the sink (status 0). If it is none,
/// writes `refused AT` with the place of the first fault (8). If it is too long, writes `error limit` (6). If the source could
/// not be read the status is 2, if the sink could not be written 3, and if memory ran out 4.
pub fn check<S: Source, K: Sink>(alloc: Global, source: &mut S, sink: &mut K) -> u8
    ensures ends { Told (S.told source.old).left (λ bytes. EndsCheck bytes result) }
    ensures writes { Told (S.told source.old).left (λ bytes. Told (K.told sink.old).holds (λ before. WritesCheck bytes result before (K.told sink.new).holds)) }
    ensures whole { Told (S.told source.old).left (λ bytes. result ≡ 0 → (S.told source.new).left ≡ Some []) }
    ensures within { result ≡ 0 → (S.told source.new).moved ≤ raised (S.told source.old).moved INPUT_LIMIT }
    ensures taken { (S.told source.new).moved ≤ (S.told source.old).moved + (INPUT_LIMIT + 1) }
    ensures long { result ≡ 6 → raised (S.told source.old).moved (INPUT_LIMIT + 1) ≤ (S.told source.new).moved }
    ensures read_fault { result ≡ 2 → Rose (S.told source.old).faults (S.told source.new).faults }
    ensures write_fault { result ≡ 3 → Rose (K.told sink.old).faults (K.told sink.new).faults }
    ensures known { (result ≡ 0) ⊎ ((result ≡ 8) ⊎ ((result ≡ 6) ⊎ ((result ≡ 2) ⊎ ((result ≡ 3) ⊎ (result ≡ 4))))) }
{
    match read_events(alloc, source) {
        Ok(events) => write_events(alloc, &events, sink),
        Err(CheckError::Refused { at }) => write_refusal(alloc, at, sink),
        Err(CheckError::Limit) => write_text(sink, b"error limit\n", 6),
        Err(CheckError::ReadFault) => 2,
        Err(CheckError::Mem) => 4,
    }
}

/// Returns the events that the source gives, or why there are none.
fn read_events<S: Source>(alloc: Global, source: &mut S) -> Result<Events, CheckError>
    ensures events { IfOk result (λ events. Told (S.told source.old).left (λ bytes. IsStateEvent bytes events)) }
    ensures cause { IfErr result (λ e. Told (S.told source.old).left (λ bytes. IsCause bytes e)) }
    ensures whole { OnOk result (Told (S.told source.old).left (λ bytes. (S.told source.new).left ≡ Some [])) }
    ensures within { OnOk result ((S.told source.new).moved ≤ raised (S.told source.old).moved INPUT_LIMIT) }
    ensures taken { (S.told source.new).moved ≤ (S.told source.old).moved + (INPUT_LIMIT + 1) }
    ensures long { IfErr result (λ e. OnLimit e (raised (S.told source.old).moved (INPUT_LIMIT + 1) ≤ (S.told source.new).moved)) }
    ensures read_fault { IfErr result (λ e. OnReadFault e (Rose (S.told source.old).faults (S.told source.new).faults)) }
{
    let mut buffer = empty_piece(alloc)?;
    let mut reader = StateReader::new(alloc)?;
    feed_all(alloc, &mut reader, buffer.as_mut_slice(), source)?;
    match reader.finish(alloc) {
        Ok(events) => Ok(events),
        Err(error) => Err(cause_of(error)),
    }
}

/// Feeds the reader all that the source gives, piece by piece through the buffer.
fn feed_all<S: Source>(
    alloc: Global,
    reader: &mut StateReader,
    buffer: &mut [u8],
    source: &mut S,
) -> Result<(), CheckError>
    requires some { 0 < length buffer.old }
    requires fresh { IsRead [] reader.old }
    ensures fed { OnOk result (Told (S.told source.old).left (λ bytes. IsRead bytes reader.new)) }
    ensures cause { IfErr result (λ e. Told (S.told source.old).left (λ bytes. IsCause bytes e)) }
    ensures whole { OnOk result (Told (S.told source.old).left (λ bytes. (S.told source.new).left ≡ Some [])) }
    ensures stays { OnOk result ((bytes : List ℕ) × IsRead bytes reader.new) }
    ensures within { OnOk result ((S.told source.new).moved ≤ raised (S.told source.old).moved INPUT_LIMIT) }
    ensures taken { (S.told source.new).moved ≤ (S.told source.old).moved + (INPUT_LIMIT + 1) }
    ensures long { IfErr result (λ e. OnLimit e (raised (S.told source.old).moved (INPUT_LIMIT + 1) ≤ (S.told source.new).moved)) }
    ensures read_fault { IfErr result (λ e. OnReadFault e (Rose (S.told source.old).faults (S.told source.new).faults)) }
{
    let mut left = INPUT_LIMIT;
    loop {
        match read_piece(source, buffer, left) {
            Err(Failed) => return Err(CheckError::ReadFault),
            Ok(0) => return Ok(()),
            Ok(count) => {
                let (piece, _) = buffer.split_at(count);
                feed(alloc, reader, piece)?;
                left -= count;
            }
        }
    }
}

/// Feeds the reader a piece.
fn feed(alloc: Global, reader: &mut StateReader, piece: &[u8]) -> Result<(), CheckError>
    requires { (bytes : List ℕ) × IsRead bytes reader.old }
    ensures fed { OnOk result ((bytes : List ℕ) → IsRead bytes reader.old → IsRead (bytes ++ piece.now) reader.new) }
    ensures within { OnOk result ((bytes : List ℕ) → IsRead bytes reader.old → length (bytes ++ piece.now) ≤ INPUT_LIMIT) }
    ensures cause { IfErr result (λ e. (bytes : List ℕ) → IsRead bytes reader.old → (more : List ℕ) → IsCause ((bytes ++ piece.now) ++ more) e) }
    ensures long { IfErr result (λ e. (bytes : List ℕ) → IsRead bytes reader.old → OnLimit e (INPUT_LIMIT < length (bytes ++ piece.now))) }
    ensures no_read { IfErr result (λ e. OnReadFault e ⊥) }
{
    match reader.feed(alloc, piece) {
        Ok(()) => Ok(()),
        Err(error) => Err(cause_of(error)),
    }
}

/// Returns what a refusal of the reader is to `check`.
fn cause_of(error: StateError) -> CheckError
    requires { error ≢ IsFailed }
    ensures { result ≡ cause_of error }
{
    match error {
        StateError::Bad { at } => CheckError::Refused { at },
        StateError::NotStateEvent { at } => CheckError::Refused { at },
        StateError::TooLong => CheckError::Limit,
        StateError::Failed => unreachable!(),
        StateError::Mem => CheckError::Mem,
    }
}

/// Writes the one written form of events and LF, and answers 0.
fn write_events<K: Sink>(alloc: Global, events: &Events, sink: &mut K) -> u8
    ensures ends { Ends result 0 }
    ensures writes { Told (K.told sink.old).holds (λ before. Writes result (events_ending events.now).text before (K.told sink.new).holds) }
    ensures write_fault { result ≡ 3 → Rose (K.told sink.old).faults (K.told sink.new).faults }
    ensures no_read { result ≢ 2 }
{
    let mut out = Vec::new(alloc);
    match events_text(alloc, events, &mut out) {
        Ok(()) => write_text(sink, out.as_slice(), 0),
        Err(Mem) => 4,
    }
}

/// Puts the one written form of events and LF at the end.
fn events_text(alloc: Global, events: &Events, out: &mut Vec<u8>) -> Result<(), Mem>
    requires { out.old.items ≡ [] }
    ensures { OnOk result (out.new.items ≡ (events_ending events.now).text) }
{
    write_state_event(alloc, events.as_slice(), out)?;
    out.push(b'\n')?;
    Ok(())
}

/// Writes the place of the first fault, and answers 8.
fn write_refusal<K: Sink>(alloc: Global, at: usize, sink: &mut K) -> u8
    ensures ends { Ends result 8 }
    ensures writes { Told (K.told sink.old).holds (λ before. Writes result (refused_ending at).text before (K.told sink.new).holds) }
    ensures write_fault { result ≡ 3 → Rose (K.told sink.old).faults (K.told sink.new).faults }
    ensures no_read { result ≢ 2 }
{
    let mut out = String::new(alloc);
    match refused_text(at, &mut out) {
        Ok(()) => write_text(sink, out.as_bytes(), 8),
        Err(Mem) => 4,
    }
}

/// Puts the line that names a place at the end.
fn refused_text(at: usize, out: &mut String) -> Result<(), Mem>
    requires { string_bytes out.old ≡ [] }
    ensures { OnOk result (string_bytes out.new ≡ (refused_ending at).text) }
{
    out.push_str("refused ")?;
    write!(out, "{at}")?;
    out.push_str("\n")?;
    Ok(())
}
