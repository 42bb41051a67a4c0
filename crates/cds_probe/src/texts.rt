//! The rows `escape`, `unescape`, `number`, `run` and `clean`: texts and numbers.

use crate::row::Row;
use crate::show::Out;
use cds_base::{escape, first_forbidden, letters_run, plain_run, read_plain, read_u32};
use cds_escape::unescape;
use cds_object::clean;
use std::alloc::Global;

/// `escape | text`: shows the text as XML has it.
pub fn escaped(alloc: Global, row: &Row, out: &mut Out) {
    let mut text = String::new(alloc);
    let is_done = escape(row.text(1), &mut text).is_ok();
    out.note(is_done);
    out.show(text.as_bytes());
}

/// `unescape | text`: shows what the text says, or the refusal and its place.
pub fn unescaped(alloc: Global, row: &Row, out: &mut Out) {
    match unescape(alloc, row.text(1)) {
        Ok(text) => out.show(text.as_bytes()),
        Err(refusal) => out.refuse(&refusal),
    }
}

/// `number | digits`: shows the number in two ways: with any digits, and with no first 0.
pub fn number(row: &Row, out: &mut Out) {
    let digits = row.bytes(1);
    out.value(&read_u32(digits));
    out.say(" ", &read_plain(digits));
}

/// `run | bytes`: shows how many first bytes are plain, how many are letters, and the place of the first forbidden one.
pub fn run(row: &Row, out: &mut Out) {
    let bytes = row.bytes(1);
    out.value(&plain_run(bytes));
    out.say(" ", &letters_run(bytes));
    out.say(" ", &first_forbidden(bytes));
}

/// `clean | text`: shows the text as a content keeps it.
pub fn cleaned(alloc: Global, row: &Row, out: &mut Out) {
    match clean(alloc, row.text(1)) {
        Ok(text) => out.show(text.as_bytes()),
        Err(refusal) => out.refuse(&refusal),
    }
}
