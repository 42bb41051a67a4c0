//! The rows `didl`, `didl-rewrite` and `fragment`: objects as DIDL-Lite documents.

use crate::objects::content_shown;
use crate::row::Row;
use crate::show::Out;
use cds_didl::{Filter, read_didl, write_didl, write_fragment};
use cds_object::{Row as Object, Rows};
use std::alloc::Global;

/// `didl | text`: shows the rows that a document shows.
pub fn read(alloc: Global, row: &Row, out: &mut Out) {
    match read_didl(alloc, row.bytes(1)) {
        Ok(rows) => rows_shown(&rows, out),
        Err(refusal) => out.refuse(&refusal),
    }
}

fn rows_shown(rows: &Rows, out: &mut Out) {
    out.value(&rows.len());
    out.put(" rows");
    for object in rows.as_slice() {
        object_shown(object, out);
    }
}

/// Shows a row: its id, its parent's id, its update and its content. For a folder also its update, its children and the
/// deletions.
fn object_shown(object: &Object, out: &mut Out) {
    out.say("; ", &object.id.0);
    match object.parent {
        Some(parent) => out.say(" ", &Some(parent.0)),
        None => out.put(" None"),
    }
    out.say(" ", &object.object_update);
    out.put(" ");
    content_shown(&object.content, out);
    if let Some(counts) = object.trackers {
        out.say(" ", &counts.container_update);
        out.say(" ", &counts.child_count);
        out.say(" ", &counts.deleted);
    }
}

/// `didl-rewrite | filter | base | text`: shows the document that is written of the rows that a document shows. It is
/// written through a filter, and its addresses begin with a base. `fragment`: the same without the document round the
/// rows.
pub fn rewritten(alloc: Global, row: &Row, out: &mut Out) {
    match read_didl(alloc, row.bytes(3)) {
        Ok(rows) => rows_written(alloc, &rows, row, out),
        Err(refusal) => out.refuse(&refusal),
    }
}

fn rows_written(alloc: Global, rows: &Rows, row: &Row, out: &mut Out) {
    match Filter::read(alloc, row.text(1)) {
        Ok(filter) => through(alloc, rows, &filter, row, out),
        Err(refusal) => out.refuse(&refusal),
    }
}

fn through(alloc: Global, rows: &Rows, filter: &Filter, row: &Row, out: &mut Out) {
    let mut text = Vec::new(alloc);
    if row.text(0) == "didl-rewrite" {
        let is_done = write_didl(rows.as_slice(), filter, row.text(2), &mut text).is_ok();
        out.note(is_done);
    } else {
        for object in rows.as_slice() {
            let is_done = write_fragment(object, filter, row.text(2), &mut text).is_ok();
            out.note(is_done);
        }
    }
    out.show(text.as_slice());
}
