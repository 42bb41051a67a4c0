//! The rows `search`, `found`, `location`, `device`, `service` and `announce`: discovery by SSDP, and descriptions.

use crate::row::Row;
use crate::show::Out;
use cds_announce::{announce, first_uuid};
use cds_base::{Bytes, Mem, Numbers, Sequence};
use cds_memory::MemDatagrams;
use cds_ssdp::{
    Device, Found, answer_search, is_location, read_found, write_device, write_service,
};
use std::alloc::Global;
use uuid::Uuid;

/// The device of rows: its description is at `http://10.0.0.1:8200/device.xml`, and it started once. Its UUID is what a field says,
/// or 00000000-0000-8000-8000-000000000000.
fn device(alloc: Global, uuid: &str) -> Result<Option<Device>, Mem> {
    let uuid = Uuid::parse_str(uuid).unwrap_or(first_uuid());
    Device::at(alloc, uuid, "http://10.0.0.1:8200/device.xml", 1)
}

/// `search | UUID | datagram`: shows the replies to a datagram, each with what it tells of.
pub fn searched(alloc: Global, row: &Row, out: &mut Out) {
    let is_done = put_replies(alloc, row, out).is_ok();
    out.note(is_done);
}

fn put_replies(alloc: Global, row: &Row, out: &mut Out) -> Result<(), Mem> {
    let mut replies = Vec::new(alloc);
    if let Some(device) = device(alloc, row.text(1))?
        && is_location(alloc, device.location.as_str())?
    {
        answer_search(&device, row.bytes(2), &mut replies)?;
    }
    out.value(&replies.len());
    for reply in &replies {
        out.quote(reply.as_slice());
        put_found(alloc, reply.as_slice(), out);
    }
    Ok(())
}

/// `found | datagram`: shows what a datagram tells of.
pub fn found(alloc: Global, row: &Row, out: &mut Out) {
    put_found(alloc, row.bytes(1), out);
}

fn put_found(alloc: Global, datagram: &[u8], out: &mut Out) {
    match read_found(alloc, datagram) {
        Ok(found) => found_shown(&found, out),
        Err(refusal) => out.refuse(&refusal),
    }
}

fn found_shown(found: &Found, out: &mut Out) {
    out.put(" tells of");
    out.quote(found.target.as_str().as_bytes());
    out.quote(found.usn.as_str().as_bytes());
    out.quote(found.location.as_str().as_bytes());
}

/// `location | text`: shows whether a text may be the location of a device.
pub fn location(alloc: Global, row: &Row, out: &mut Out) {
    match is_location(alloc, row.text(1)) {
        Ok(can) => out.value(&can),
        Err(refusal) => out.refuse(&refusal),
    }
}

/// `device | UUID` and `service`: shows a description.
pub fn described(alloc: Global, row: &Row, out: &mut Out) {
    let mut text = Vec::new(alloc);
    let is_done = put_description(alloc, row, &mut text).is_ok();
    out.note(is_done);
    out.show(text.as_slice());
}

fn put_description(alloc: Global, row: &Row, text: &mut Vec<u8>) -> Result<(), Mem> {
    if row.text(0) == "service" {
        return write_service(text);
    }
    match device(alloc, row.text(1))? {
        Some(device) => write_device(&device, text),
        None => Ok(()),
    }
}

/// `announce | count | call | datagram ..`: answers as many datagrams as the count says. The call of this number fails. Shows how
/// that ended, the numbers of datagrams given and of faults, and the replies.
pub fn announced(alloc: Global, row: &Row, out: &mut Out) {
    let is_done = put_announced(alloc, row, out).is_ok();
    out.note(is_done);
}

fn put_announced(alloc: Global, row: &Row, out: &mut Out) -> Result<(), Mem> {
    let mut fails = Numbers::new(alloc);
    fails.push(row.small(2))?;
    let datagrams = datagrams_of(alloc, row.from(3))?;
    let mut datagrams = MemDatagrams::new(alloc, datagrams, fails);
    if let Some(device) = device(alloc, "")?
        && is_location(alloc, device.location.as_str())?
    {
        let ended = announce(alloc, &device, row.small(1), &mut datagrams);
        out.value(&ended);
        ended_shown(&datagrams, out);
    }
    Ok(())
}

fn datagrams_of(alloc: Global, texts: &[Vec<u8>]) -> Result<Sequence<Bytes>, Mem> {
    let mut datagrams = Sequence::new(alloc);
    for text in texts {
        let mut bytes = Bytes::new(alloc);
        bytes.extend(text.as_slice())?;
        datagrams.push(bytes)?;
    }
    Ok(datagrams)
}

fn ended_shown(datagrams: &MemDatagrams, out: &mut Out) {
    out.say(", given ", &datagrams.given());
    out.say(", faults ", &datagrams.faults());
    for reply in datagrams.replies() {
        out.quote(reply.as_slice());
    }
}
