//! Sends each row to the module for its subject.

use crate::row::{Pieces, Row, keep};
use crate::show::Out;
use crate::{
    asks, criteria, didl, discovery, events, files, markup, messages, objects, replies, requests,
    texts,
};
use cds_http::Side;
use std::alloc::Global;

/// Returns the line that answers a line.
pub fn answer(alloc: Global, pieces: &mut Pieces, line: &str) -> Out {
    let mut out = Out::new(alloc);
    if line.is_empty() || line.starts_with("#") {
        out.put(line);
    } else {
        answer_row(alloc, pieces, line, &mut out);
    }
    out
}

fn answer_row(alloc: Global, pieces: &mut Pieces, line: &str, out: &mut Out) {
    match Row::read(alloc, pieces.as_slice(), line) {
        Ok(row) => answer_to(alloc, pieces, &row, out),
        Err(refusal) => out.refuse(&refusal),
    }
}

/// Answers a row. `piece | name | bytes` keeps a piece for later rows; the answer is how many bytes it has.
fn answer_to(alloc: Global, pieces: &mut Pieces, row: &Row, out: &mut Out) {
    if row.text(0) == "piece" {
        let is_done = keep(alloc, pieces, row).is_ok();
        out.note(is_done);
        out.value(&row.bytes(2).len());
        out.put(" bytes");
    } else {
        ask(alloc, row, out);
    }
}

/// Shows what the library of the row's subject answers.
fn ask(alloc: Global, row: &Row, out: &mut Out) {
    match row.text(0) {
        "escape" => texts::escaped(alloc, row, out),
        "unescape" => texts::unescaped(alloc, row, out),
        "number" => texts::number(row, out),
        "run" => texts::run(row, out),
        "clean" => texts::cleaned(alloc, row, out),
        "path" => objects::path(alloc, row, out),
        "folder" => objects::folder(alloc, row, out),
        "track" => objects::track(alloc, row, out),
        "flac" => files::flac(alloc, row, out),
        "flac-cut" => files::cuts(alloc, row, out),
        _ => ask_of_documents(alloc, row, out),
    }
}

fn ask_of_documents(alloc: Global, row: &Row, out: &mut Out) {
    match row.text(0) {
        "document" => markup::document(alloc, row, out),
        "marks" => markup::marks(alloc, row, out),
        "parts" => markup::parts(alloc, row, out),
        "placed" => markup::placed(alloc, row, out),
        "rewrite" => markup::rewritten(alloc, row, out),
        "events" => events::read(alloc, row, out),
        "events-rewrite" => events::rewritten(alloc, row, out),
        "didl" => didl::read(alloc, row, out),
        "didl-rewrite" | "fragment" => didl::rewritten(alloc, row, out),
        _ => ask_of_messages(alloc, row, out),
    }
}

fn ask_of_messages(alloc: Global, row: &Row, out: &mut Out) {
    match row.text(0) {
        "request" => messages::read(alloc, Side::Request, row, out),
        "reply" => messages::read(alloc, Side::Reply, row, out),
        "request-write" | "reply-write" | "head-write" => messages::written(alloc, row, out),
        _ => ask_of_control(alloc, row, out),
    }
}

fn ask_of_control(alloc: Global, row: &Row, out: &mut Out) {
    match row.text(0) {
        "action" => requests::read(alloc, row, out),
        "action-write" | "answer" | "answer-write" => replies::of_action(alloc, row, out),
        "criteria" => criteria::met(alloc, row, out),
        "order" => criteria::ordered(alloc, row, out),
        "ask" => asks::written(alloc, row, out),
        "shown" => asks::shown(alloc, row, out),
        _ => ask_of_discovery(alloc, row, out),
    }
}

fn ask_of_discovery(alloc: Global, row: &Row, out: &mut Out) {
    match row.text(0) {
        "search" => discovery::searched(alloc, row, out),
        "found" => discovery::found(alloc, row, out),
        "location" => discovery::location(alloc, row, out),
        "device" | "service" => discovery::described(alloc, row, out),
        "announce" => discovery::announced(alloc, row, out),
        _ => out.put("no such subject"),
    }
}
