//! Tests of memory that runs out once. What is read or written then is read or written at the next try.

use cds_lastchange::{Class, Event, Events, StateError, StateReader, write_state_event};
use cds_markup::{Element, MarkupError, Reader, write_document};
use std::alloc::Global;
use std::process::Abort;

/// A document. `WRITTEN` is its written form.
const DOCUMENT: &[u8] = b"<a xmlns='u' b='1&#10;2'>x<![CDATA[<]]>y<!-- z --><c d=\"e\"/>f</a>";

const WRITTEN: &[u8] = b"<a xmlns=\"u\" b=\"1&#10;2\">x&lt;y<c d=\"e\"></c>f</a>";

/// Feeds a document byte by byte.
fn feed(alloc: Global, reader: &mut Reader) -> Result<(), MarkupError> {
    for byte in DOCUMENT {
        reader.feed(alloc, &[*byte])?;
    }
    Ok(())
}

/// Reads the document's element.
fn read(alloc: Global) -> Result<Element, MarkupError> {
    let mut reader = Reader::new(alloc)?;
    match feed(alloc, &mut reader) {
        Ok(()) => reader.finish(),
        Err(refusal) => Err(refusal),
    }
}

/// Reads it, and once more if memory ran out.
fn read_again(alloc: Global) -> Result<Element, MarkupError> {
    match read(alloc) {
        Err(MarkupError::Mem) => read(alloc),
        answer => answer,
    }
}

/// Adds the element to an empty text. If one allocation fails, whichever it is, nothing may be added, and the next try
/// must add it.
fn add<R: Abort>(rt: &R, element: &Element, out: &mut Vec<u8>) {
    if write_document(element, out).is_err() {
        assert!(rt; out.is_empty(), "a failed try added something");
        write_document(element, out).expect(rt, "the second try");
    }
}

/// Checks that the element is written as it has to be.
fn check_written<R: Abort>(rt: &R, alloc: Global, element: &Element) {
    let mut out = Vec::new(alloc);
    add(rt, element, &mut out);
    assert!(rt; out.as_slice() == WRITTEN);
}

#[test]
fn a_document_is_written_where_memory_ran_out(rt: HostRuntime) {
    let element = read_again(rt.alloc()).expect(&rt, "no element");
    check_written(&rt, rt.alloc(), &element);
}

/// Events. `STATE_EVENT` is their StateEvent.
const EVENTS: [Event; 2] = [
    Event::ObjAdd {
        id: 1,
        update: 1,
        st: true,
        parent: 0,
        class: Class::Container,
    },
    Event::StDone { id: 1, update: 1 },
];

const STATE_EVENT: &[u8] =
    b"<StateEvent xmlns=\"urn:schemas-upnp-org:av:cds-event\"><objAdd objID=\"1\" updateID=\"1\" stUpdate=\"1\" objParentID=\"0\" objClass=\"object.container\"/><stDone objID=\"1\" updateID=\"1\"/></StateEvent>";

/// Reads the events of the StateEvent.
fn events(alloc: Global) -> Result<Events, StateError> {
    let mut reader = StateReader::new(alloc)?;
    match reader.feed(alloc, STATE_EVENT) {
        Ok(()) => reader.finish(alloc),
        Err(refusal) => Err(refusal),
    }
}

/// Reads them, and once more if memory ran out.
fn events_again(alloc: Global) -> Result<Events, StateError> {
    match events(alloc) {
        Err(StateError::Mem) => events(alloc),
        answer => answer,
    }
}

/// Adds events to an empty text. The rule for a failed allocation is that of an element.
fn add_events<R: Abort>(rt: &R, alloc: Global, events: &[Event], out: &mut Vec<u8>) {
    if write_state_event(alloc, events, out).is_err() {
        assert!(rt; out.is_empty(), "a failed try added something");
        write_state_event(alloc, events, out).expect(rt, "the second try");
    }
}

/// Checks that the events are written as they have to be.
fn check_events_written<R: Abort>(rt: &R, alloc: Global, events: &[Event]) {
    let mut out = Vec::new(alloc);
    add_events(rt, alloc, events, &mut out);
    assert!(rt; out.as_slice() == STATE_EVENT);
}

/// Checks that the events are read.
fn check_events_read<R: Abort>(rt: &R, alloc: Global) {
    let events = events_again(alloc).expect(rt, "no events");
    assert!(rt; events.as_slice() == EVENTS.as_slice());
}

#[test]
fn events_are_read_and_written_where_memory_ran_out(rt: HostRuntime) {
    check_events_written(&rt, rt.alloc(), &EVENTS);
    check_events_read(&rt, rt.alloc());
}
