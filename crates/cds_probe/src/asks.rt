//! The rows `ask` and `shown`: what a replica asks, and what a reply shows it.

use crate::requests::sent;
use crate::row::Row;
use crate::show::Out;
use cds_base::Mem;
use cds_exchange::{ask_bytes, read_reply};
use cds_load::{Ask, Shown};
use std::alloc::Global;
use url::Url;

/// Returns the ask that the fields from a place on say: its name, an id and a place.
fn ask(row: &Row, at: usize) -> Ask {
    let id = row.small(at.saturating_add(1));
    match row.text(at) {
        "token" => Ask::Token,
        "number" => Ask::Number,
        "metadata" => Ask::Metadata { id },
        _ => Ask::Children {
            id,
            start: row.small(at.saturating_add(2)),
        },
    }
}

/// `ask | address | ask | id | place`: shows the request of an ask.
pub fn written(alloc: Global, row: &Row, out: &mut Out) {
    let mut text = Vec::new(alloc);
    let is_done = put_ask(alloc, ask(row, 2), row.text(1), &mut text).is_ok();
    out.note(is_done);
    out.show(text.as_slice());
}

/// Puts the request of an ask to an address, or nothing if the address is not a URL.
fn put_ask(alloc: Global, ask: Ask, address: &str, out: &mut Vec<u8>) -> Result<(), Mem> {
    match Url::parse(alloc, address) {
        Ok(url) => put_ask_to(ask, &url, out),
        Err(_) => Ok(()),
    }
}

/// Puts the request of an ask to a URL, or nothing if its scheme is not `http`.
fn put_ask_to(ask: Ask, url: &Url, out: &mut Vec<u8>) -> Result<(), Mem> {
    if url.scheme() == "http" {
        return ask_bytes(&ask, url, out);
    }
    Ok(())
}

/// `shown | ask | id | place | head | body | rest`: shows what a reply shows to an ask.
pub fn shown(alloc: Global, row: &Row, out: &mut Out) {
    let text = sent(alloc, row, 4);
    out.note(text.is_whole());
    match read_reply(alloc, &ask(row, 1), text.as_str().as_bytes()) {
        Ok(Some(shown)) => what_is_shown(&shown, out),
        Ok(None) => out.put("none"),
        Err(refusal) => out.refuse(&refusal),
    }
}

fn what_is_shown(shown: &Shown, out: &mut Out) {
    match shown {
        Shown::Text(token) => {
            out.put("text ");
            out.show(token.as_str().as_bytes());
        }
        Shown::Number(number) => out.say("number ", number),
        Shown::Page {
            rows,
            total,
            update,
        } => {
            out.say("page ", &rows.len());
            out.say(" of ", total);
            out.say(" at ", update);
        }
        Shown::Fault { code } => out.say("fault ", code),
    }
}
