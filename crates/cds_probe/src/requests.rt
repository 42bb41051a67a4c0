//! The row `action`: control requests (SOAP).

use crate::messages::message_by;
use crate::row::Row;
use crate::show::Out;
use cds_base::{Mem, Text};
use cds_http::{Message, Side};
use cds_soap::{Action, Asked, BrowseRequest, SearchRequest, read_action, write_action};
use std::alloc::Global;
use url::Url;

/// Returns the bytes of a message. Three fields say it: a head, a body and the rest that comes after it. The last field
/// of the head is then the length of the body. One field alone is the whole message.
pub fn sent(alloc: Global, row: &Row, at: usize) -> Out {
    let mut out = Out::new(alloc);
    out.put(row.text(at));
    if row.has(at.saturating_add(1)) {
        let body = row.text(at.saturating_add(1));
        out.say("CONTENT-LENGTH: ", &body.len());
        out.put("\r\n\r\n");
        out.put(body);
        out.put(row.text(at.saturating_add(2)));
    }
    out
}

/// `action | head | body`: shows what a request asks for.
pub fn read(alloc: Global, row: &Row, out: &mut Out) {
    let text = sent(alloc, row, 1);
    out.note(text.is_whole());
    let bytes = text.as_str().as_bytes();
    match message_by(alloc, Side::Request, bytes, bytes.len(), &mut 0) {
        Ok(message) => message_asks(alloc, &message, out),
        Err(refusal) => out.refuse(&refusal),
    }
}

fn message_asks(alloc: Global, message: &Message, out: &mut Out) {
    match read_action(alloc, message) {
        Ok(asked) => asked_shown(&asked, out),
        Err(refusal) => out.refuse(&refusal),
    }
}

fn asked_shown(asked: &Asked, out: &mut Out) {
    out.value(&asked.version);
    out.put("|");
    match &asked.action {
        Action::Browse(request) => browse_shown(request, out),
        Action::Search(request) => search_shown(request, out),
        action => out.show(action.name().as_str().as_bytes()),
    }
}

fn browse_shown(request: &BrowseRequest, out: &mut Out) {
    out.put(request.object.as_str());
    out.put("|");
    out.put(request.flag.as_str());
    out.put("|");
    out.put(request.filter.as_str());
    out.say("|", &request.start);
    out.say("|", &request.count);
    out.put("|");
    out.put(request.sort.as_str());
}

fn search_shown(request: &SearchRequest, out: &mut Out) {
    out.put(request.container.as_str());
    out.put("|");
    out.put(request.criteria.as_str());
    out.put("|");
    out.put(request.filter.as_str());
    out.say("|", &request.start);
    out.say("|", &request.count);
    out.put("|");
    out.put(request.sort.as_str());
}

/// Returns the action that the fields from a place on say: its name, and what it asks with.
pub fn action(alloc: Global, row: &Row, at: usize) -> Result<Action, Mem> {
    match row.text(at) {
        "Browse" => browse(alloc, row, at.saturating_add(1)),
        "Search" => search(alloc, row, at.saturating_add(1)),
        "GetServiceResetToken" => Ok(Action::GetServiceResetToken),
        "GetSearchCapabilities" => Ok(Action::GetSearchCapabilities),
        "GetSortCapabilities" => Ok(Action::GetSortCapabilities),
        _ => Ok(Action::GetSystemUpdateId),
    }
}

fn browse(alloc: Global, row: &Row, at: usize) -> Result<Action, Mem> {
    Ok(Action::Browse(browse_request(alloc, row, at)?))
}

fn browse_request(alloc: Global, row: &Row, at: usize) -> Result<BrowseRequest, Mem> {
    let object = Text::read(alloc, row.text(at))?;
    let flag = Text::read(alloc, row.text(at.saturating_add(1)))?;
    let filter = Text::read(alloc, row.text(at.saturating_add(2)))?;
    let sort = Text::read(alloc, row.text(at.saturating_add(5)))?;
    Ok(BrowseRequest {
        object,
        flag,
        filter,
        start: row.small(at.saturating_add(3)),
        count: row.small(at.saturating_add(4)),
        sort,
    })
}

/// Returns a Search action from the same fields as Browse asks with.
fn search(alloc: Global, row: &Row, at: usize) -> Result<Action, Mem> {
    let BrowseRequest {
        object,
        flag,
        filter,
        start,
        count,
        sort,
    } = browse_request(alloc, row, at)?;
    Ok(Action::Search(SearchRequest {
        container: object,
        criteria: flag,
        filter,
        start,
        count,
        sort,
    }))
}

/// Shows the request for an action to an address.
pub fn action_written(alloc: Global, action: &Action, address: &str, out: &mut Out) {
    let mut text = Vec::new(alloc);
    let is_done = put_action(alloc, action, address, &mut text).is_ok();
    out.note(is_done);
    out.show(text.as_slice());
}

/// Puts the request for an action to an address, or nothing if the address is not a URL.
fn put_action(alloc: Global, action: &Action, address: &str, out: &mut Vec<u8>) -> Result<(), Mem> {
    match Url::parse(alloc, address) {
        Ok(url) => put_action_to(action, &url, out),
        Err(_) => Ok(()),
    }
}

/// Puts the request for an action to a URL, or nothing if its scheme is not `http`.
fn put_action_to(action: &Action, url: &Url, out: &mut Vec<u8>) -> Result<(), Mem> {
    if url.scheme() == "http" {
        return write_action(action, url, out);
    }
    Ok(())
}
