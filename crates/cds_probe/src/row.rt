//! Rows: a subject and its fields, parted by `|`. Spaces round a field do not count. In a field `%XX` is a byte and
//! `{name}` the bytes of a named piece. `{3*name}` is that piece three times. `{name~old~new}` is the piece with the
//! first `old` replaced by `new`.

use cds_base::{Mem, Sequence, Text, read_plain};
use percent_encoding::percent_decode;
use std::alloc::{AllocError, Global};

/// The sizes, in bytes, of the pieces in which a text is read again.
pub const SIZES: [usize; 8] = [1, 2, 3, 5, 7, 16, 54, 112];

/// Bytes that have a name.
#[derive(Drop)]
pub struct Piece {
    name: Text,
    bytes: Vec<u8>,
}

/// Pieces in the order in which they were named. The first piece of a name counts.
pub type Pieces = Sequence<Piece>;

/// A row. Its subject is field 0.
#[derive(Drop)]
pub struct Row {
    fields: Vec<Vec<u8>>,
}

impl Row {
    /// Reads the row of a line.
    pub fn read(alloc: Global, pieces: &[Piece], line: &str) -> Result<Row, Mem> {
        let mut fields = Vec::new(alloc);
        for text in line.split("|") {
            fields.push(field(alloc, pieces, text.trim())?)?;
        }
        Ok(Row { fields })
    }

    /// Returns whether there is a field at a place.
    pub fn has(&self, at: usize) -> bool {
        at < self.fields.len()
    }

    /// Returns the bytes of the field at a place, empty if there is no such field.
    pub fn bytes(&self, at: usize) -> &[u8] {
        match self.fields.get(at) {
            Some(field) => field.as_slice(),
            None => b"",
        }
    }

    /// Returns the text of the field at a place, empty if the bytes are no text.
    pub fn text(&self, at: usize) -> &str {
        text_of(self.bytes(at))
    }

    /// Returns the number that the field at a place says in decimal, or 0 if it says none.
    pub fn number(&self, at: usize) -> u64 {
        read_plain(self.bytes(at)).unwrap_or(0)
    }

    /// Returns the same as a small number, or 0 if it is not one.
    pub fn small(&self, at: usize) -> u32 {
        match u32::try_from(self.number(at)) {
            Ok(number) => number,
            Err(_) => 0,
        }
    }

    /// Returns the fields from a place on.
    pub fn from(&self, at: usize) -> &[Vec<u8>] {
        self.fields.get(at..).unwrap_or(&[])
    }
}

/// Returns the text that bytes are, empty if they are none.
pub fn text_of(bytes: &[u8]) -> &str {
    str::from_utf8(bytes).unwrap_or("")
}

/// Cuts a text in two at the first `mark`. If there is none, the parts are the whole text and an empty one.
pub fn cut<'a>(text: &'a str, mark: &str) -> (&'a str, &'a str) {
    text.split_once(mark).unwrap_or((text, ""))
}

/// Returns the bytes of a field.
fn field(alloc: Global, pieces: &[Piece], text: &str) -> Result<Vec<u8>, AllocError> {
    let mut out = Vec::new(alloc);
    for part in text.split("{") {
        put_part(pieces, part, &mut out)?;
    }
    Ok(out)
}

/// Puts what comes after a `{`: a piece up to the `}` and the text after it, or a text alone.
fn put_part(pieces: &[Piece], part: &str, out: &mut Vec<u8>) -> Result<(), AllocError> {
    match part.split_once("}") {
        Some((inside, text)) => {
            put_named(pieces, inside, out)?;
            put_text(text, out)
        }
        None => put_text(part, out),
    }
}

/// Puts a text with the bytes for its escapes.
fn put_text(text: &str, out: &mut Vec<u8>) -> Result<(), AllocError> {
    percent_decode(text.as_bytes()).append_to(out)
}

/// Puts what braces name.
fn put_named(pieces: &[Piece], inside: &str, out: &mut Vec<u8>) -> Result<(), AllocError> {
    match inside.split_once("~") {
        Some((name, change)) => put_changed(text_of(bytes_of(pieces, name)), change, out),
        None => put_repeated(pieces, inside, out),
    }
}

/// Puts a text with the first `old` in it replaced by `new`.
fn put_changed(text: &str, change: &str, out: &mut Vec<u8>) -> Result<(), AllocError> {
    let (old, new) = cut(change, "~");
    match text.split_once(old) {
        Some((front, back)) => {
            out.extend_from_slice(front.as_bytes())?;
            out.extend_from_slice(new.as_bytes())?;
            out.extend_from_slice(back.as_bytes())
        }
        None => out.extend_from_slice(b"(nothing to replace)"),
    }
}

/// Puts a piece once, or as often as the number before a `*` says.
fn put_repeated(pieces: &[Piece], inside: &str, out: &mut Vec<u8>) -> Result<(), AllocError> {
    let (count, name) = counted(inside);
    for _ in 0..count {
        out.extend_from_slice(bytes_of(pieces, name))?;
    }
    Ok(())
}

/// Returns a number and the name after its `*`. The number is 1 if there is no `*`.
fn counted(inside: &str) -> (u64, &str) {
    match inside.split_once("*") {
        Some((count, name)) => (read_plain(count.as_bytes()).unwrap_or(0), name),
        None => (1, inside),
    }
}

/// Returns the bytes of a piece.
fn bytes_of<'a>(pieces: &'a [Piece], name: &str) -> &'a [u8] {
    for piece in pieces {
        if piece.name.as_str() == name {
            return piece.bytes.as_slice();
        }
    }
    b"(no such piece)"
}

/// Keeps field 2 of a row as a piece with the name in field 1.
pub fn keep(alloc: Global, pieces: &mut Pieces, row: &Row) -> Result<(), Mem> {
    let name = Text::read(alloc, row.text(1))?;
    let bytes = Vec::from_slice(alloc, row.bytes(2))?;
    pieces.push(Piece { name, bytes })
}
