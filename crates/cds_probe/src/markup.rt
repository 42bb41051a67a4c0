//! The rows `document`, `marks`, `parts`, `placed` and `rewrite`: XML documents.

use crate::row::{Row, SIZES};
use crate::show::Out;
use cds_markup::{
    Attrs, Element, MarkupError, Name, Part, Parts, Placed, Reader, read_document, read_parts,
    read_placed, write_document,
};
use std::alloc::Global;

/// `document | text`: shows whether the text is a document, and each size of pieces for which the answer differs.
pub fn document(alloc: Global, row: &Row, out: &mut Out) {
    let bytes = row.bytes(1);
    let refusal = read_document(alloc, bytes).err();
    for size in &SIZES {
        if refusal_by(alloc, bytes, *size) != refusal {
            out.say("otherwise in pieces of ", size);
            out.put(": ");
        }
    }
    match refusal {
        Some(refusal) => out.refuse(&refusal),
        None => out.put("a document"),
    }
}

/// Returns why bytes that come in pieces of `size` bytes are no document.
fn refusal_by(alloc: Global, bytes: &[u8], size: usize) -> Option<MarkupError> {
    element_by(alloc, bytes, size).err()
}

/// Reads the root element of a document that comes in pieces of `size` bytes.
fn element_by(alloc: Global, bytes: &[u8], size: usize) -> Result<Element, MarkupError> {
    let mut reader = Reader::new(alloc)?;
    match feed_by(alloc, bytes, size, &mut reader) {
        Ok(()) => reader.finish(),
        Err(refusal) => {
            drop(reader);
            Err(refusal)
        }
    }
}

fn feed_by(
    alloc: Global,
    bytes: &[u8],
    size: usize,
    reader: &mut Reader,
) -> Result<(), MarkupError> {
    for piece in bytes.chunks(size.max(1)) {
        reader.feed(alloc, piece)?;
    }
    Ok(())
}

/// `marks | document | byte`: shows for each prefix of a document what the byte is after it:
///
/// - `x`: it cannot stand there;
/// - `.`: it can, and the document then ends too early;
/// - `=`: a document ends with it;
/// - `?`: the bytes are refused in another way.
pub fn marks(alloc: Global, row: &Row, out: &mut Out) {
    let mut bytes = Vec::new(alloc);
    put_mark(alloc, &mut bytes, row.bytes(2), out);
    for next in row.bytes(1) {
        let is_done = bytes.push(*next).is_ok();
        out.note(is_done);
        put_mark(alloc, &mut bytes, row.bytes(2), out);
    }
}

/// Puts the mark of more bytes after these.
fn put_mark(alloc: Global, bytes: &mut Vec<u8>, more: &[u8], out: &mut Out) {
    let before = bytes.len();
    let is_done = bytes.extend_from_slice(more).is_ok();
    out.note(is_done);
    out.put(mark(read_document(alloc, bytes.as_slice()).err(), before));
    bytes.truncate(before);
}

fn mark(refusal: Option<MarkupError>, before: usize) -> &'static str {
    match refusal {
        None => "=",
        Some(MarkupError::Bad { at }) if at == before => "x",
        Some(MarkupError::Bad { at }) if at == before.saturating_add(1) => ".",
        Some(_) => "?",
    }
}

/// `parts | text`: shows the parts of the text and where it breaks.
pub fn parts(alloc: Global, row: &Row, out: &mut Out) {
    let mut parts = Parts::new(alloc);
    let answer = read_parts(alloc, row.bytes(1), &mut parts);
    for part in parts.as_slice() {
        part_shown(part, out);
    }
    match answer {
        Ok(()) => out.put("a document"),
        Err(refusal) => out.refuse(&refusal),
    }
}

fn part_shown(part: &Part, out: &mut Out) {
    match part {
        Part::Start {
            at,
            end,
            name,
            attrs,
        } => {
            out.say("start ", at);
            out.say(" ", end);
            name_shown(name, out);
            attrs_shown(attrs, out);
        }
        Part::End { at } => out.say("end ", at),
        Part::Run {
            at,
            non_blank,
            text,
        } => {
            out.say("run ", at);
            out.say(" ", non_blank);
            out.quote(text.as_str().as_bytes());
        }
    }
    out.put("; ");
}

fn name_shown(name: &Name, out: &mut Out) {
    out.quote(name.space.as_str().as_bytes());
    out.quote(name.local.as_str().as_bytes());
}

fn attrs_shown(attrs: &Attrs, out: &mut Out) {
    for attr in attrs.as_slice() {
        out.put(",");
        name_shown(&attr.name, out);
        out.quote(attr.value.as_str().as_bytes());
    }
}

/// `placed | text`: shows at which byte the root and its child elements begin, and how many nodes the root has.
pub fn placed(alloc: Global, row: &Row, out: &mut Out) {
    match read_placed(alloc, row.bytes(1)) {
        Ok(placed) => placed_shown(&placed, out),
        Err(refusal) => out.refuse(&refusal),
    }
}

fn placed_shown(placed: &Placed, out: &mut Out) {
    out.value(&placed.at);
    out.say(" with ", &placed.element.children.len());
    out.put(" nodes");
    for child in placed.children.as_slice() {
        out.say(", ", child);
    }
}

/// `rewrite | document`: shows what is written of a document that is read byte by byte.
pub fn rewritten(alloc: Global, row: &Row, out: &mut Out) {
    match element_by(alloc, row.bytes(1), 1) {
        Ok(element) => element_shown(alloc, &element, out),
        Err(refusal) => out.refuse(&refusal),
    }
}

fn element_shown(alloc: Global, element: &Element, out: &mut Out) {
    let mut text = Vec::new(alloc);
    let is_done = write_document(element, &mut text).is_ok();
    out.note(is_done);
    out.show(text.as_slice());
}
