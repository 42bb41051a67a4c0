//! Records, connections and objects in memory, as the tests take them.

ghost use Rattle.std.specs.Prelude.{◌<◌, ◌^◌, length};

use cds_base::{Bytes, Moments, Numbers, Sequence, Text};
use cds_exchange::{ask_bytes, read_reply};
use cds_load::{Ask, Shown};
use cds_memory::{MemClock, MemConn, MemFolder, MemItem, MemLink, MemSink, MemSource, are_tree};
use cds_object::{Comments, Content, FlacInfo, Path, Record, Records, content_of};
use cds_ssdp::Device;
use std::alloc::Global;
use std::process::Abort;
use url::Url;
use uuid::Uuid;

/// What a test says that ends because no memory is left.
pub const MEMORY: &str = "out of memory";

/// Makes a text.
pub fn text_of<R: Abort>(rt: &R, alloc: Global, text: &str) -> Text {
    Text::read(alloc, text).expect(rt, MEMORY)
}

/// Makes the record of a folder.
fn folder_record<R: Abort>(rt: &R, alloc: Global, name: &str) -> Record {
    let title = text_of(rt, alloc, name);
    Record {
        path: Path::read(alloc, name).expect(rt, "a path"),
        content: Content::Folder { title },
    }
}

/// Makes the record of a track of one channel of 8 bits.
fn track_record<R: Abort>(rt: &R, alloc: Global, name: &str, size: u64) -> Record {
    let info = FlacInfo {
        rate: 0,
        channels: 1,
        bits: 8,
        samples: 0,
        comments: Comments::new(alloc),
    };
    Record {
        path: Path::read(alloc, name).expect(rt, "a path"),
        content: content_of(alloc, &info, name, size).expect(rt, MEMORY),
    }
}

/// Reads a record: a folder if its word ends in `/`, otherwise a track. Its size stands after `=`, and is 1 otherwise.
fn record_of<R: Abort>(rt: &R, alloc: Global, word: &str) -> Record {
    let (name, size) = word.split_once("=").unwrap_or((word, "1"));
    let size: u64 = size.parse().expect(rt, "a size");
    match name.strip_suffix("/") {
        Some(folder) => folder_record(rt, alloc, folder),
        None => track_record(rt, alloc, name, size),
    }
}

/// Reads the records of a few words.
pub fn records_of<R: Abort>(rt: &R, alloc: Global, words: &str) -> Records
    ensures { length result < 2 ^ 32 }
{
    let mut records = Records::new(alloc);
    for word in words.split_whitespace() {
        records.push(record_of(rt, alloc, word)).expect(rt, MEMORY);
    }
    if records.len() <= 100 {
        records
    } else {
        panic!(rt; "too many words")
    }
}

/// Returns the numbers of the calls that are to fail, counted from 1: this one alone, or none if it is 0.
pub fn only<R: Abort>(rt: &R, alloc: Global, call: u32) -> Numbers {
    let mut calls = Numbers::new(alloc);
    calls.push(call).expect(rt, MEMORY);
    calls
}

/// How many bytes a sink takes.
const ROOM: usize = 1 << 20;

/// Makes a sink that is empty, of which one write fails.
pub fn sink<R: Abort>(rt: &R, alloc: Global, fails: u32) -> MemSink {
    let fails = only(rt, alloc, fails);
    MemSink::new(Bytes::new(alloc), ROOM, fails).expect(rt, MEMORY)
}

/// Makes a source of these bytes, of which one read fails.
fn source<R: Abort>(rt: &R, alloc: Global, text: &[u8], fails: u32) -> MemSource {
    let bytes = Vec::from_slice(alloc, text).expect(rt, MEMORY);
    MemSource::new(Bytes::from(bytes), only(rt, alloc, fails))
}

/// Makes a connection that gives these bytes, of which one read and one write fail.
pub fn conn<R: Abort>(rt: &R, alloc: Global, text: &[u8], read: u32, write: u32) -> MemConn {
    MemConn::new(source(rt, alloc, text, read), sink(rt, alloc, write))
}

/// Makes a clock of these moments, of which one call fails.
pub fn clock<R: Abort>(rt: &R, alloc: Global, moments: &[u64], fails: u32) -> MemClock {
    let moments = Vec::from_slice(alloc, moments).expect(rt, MEMORY);
    MemClock::new(Moments::from(moments), only(rt, alloc, fails))
}

/// Makes the device of a server at the port 49152 whose boot words are 0.
pub fn device<R: Abort>(rt: &R, alloc: Global) -> Device {
    Device {
        uuid: Uuid::from_u128(0x8000_8000_0000_0000_0000),
        location: text_of(rt, alloc, "http://127.0.0.1:49152/device.xml"),
        boot: 1,
    }
}

/// Makes a link that gives three empty replies, of which one call fails.
pub fn link<R: Abort>(rt: &R, alloc: Global, fails: u32) -> MemLink {
    let mut replies = Sequence::new(alloc);
    for _ in 0..3 {
        replies.push(Bytes::new(alloc)).expect(rt, MEMORY);
    }
    MemLink::new(alloc, replies, only(rt, alloc, fails))
}

/// Makes a folder of these items, of which these calls fail. The test ends if the items are no tree.
pub fn tree<R: Abort>(rt: &R, items: Sequence<MemItem>, fails: Numbers) -> MemFolder {
    let is_whole = are_tree(items.as_slice());
    if is_whole {
        MemFolder::new(items, fails)
    } else {
        panic!(rt; "no tree")
    }
}

/// Makes the item of a folder of this name.
pub fn folder_item<R: Abort>(rt: &R, alloc: Global, name: &str) -> MemItem {
    let path = text_of(rt, alloc, name);
    MemItem::FolderItem { path }
}

/// Makes a folder with folders of these names, which are parted by spaces.
pub fn folder<R: Abort>(rt: &R, alloc: Global, names: &str) -> MemFolder {
    let mut items = Sequence::new(alloc);
    for name in names.split(' ') {
        items.push(folder_item(rt, alloc, name)).expect(rt, MEMORY);
    }
    tree(rt, items, Numbers::new(alloc))
}

/// The subscription of a callback in the private range.
const SUBSCRIBE: &str =
    "SUBSCRIBE /event HTTP/1.1\r\nHOST: h\r\nCALLBACK: <http://10.0.0.9:80/n?x>\r\nNT: upnp:event\r\n\r\n";

/// Makes a connection that subscribes.
pub fn subscribing<R: Abort>(rt: &R, alloc: Global) -> MemConn {
    conn(rt, alloc, SUBSCRIBE.as_bytes(), 0, 0)
}

/// Returns whether a reply has the status 200.
pub fn is_good(reply: &[u8]) -> bool {
    reply.starts_with(b"HTTP/1.1 200 OK\r\n")
}

/// The ask for the children of the root.
const PAGE: Ask = Ask::Children { id: 0, start: 0 };

/// Writes the request for them.
fn write_ask<R: Abort>(rt: &R, alloc: Global, text: &mut Vec<u8>) {
    let url = Url::parse(alloc, "http://127.0.0.1/control").expect(rt, "an address");
    if url.scheme() == "http" {
        ask_bytes(&PAGE, &url, text).expect(rt, MEMORY);
    }
}

/// Makes a connection that asks for the children of the root, of which one read and one write fail.
pub fn asking<R: Abort>(rt: &R, alloc: Global, read: u32, write: u32) -> MemConn {
    let mut text = Vec::new(alloc);
    write_ask(rt, alloc, &mut text);
    conn(rt, alloc, text.as_slice(), read, write)
}

/// Returns how many children of the root a reply shows, or `None` if it is no page of them.
pub fn rows_in<R: Abort>(rt: &R, alloc: Global, reply: &[u8]) -> Option<usize> {
    match read_reply(alloc, &PAGE, reply).expect(rt, MEMORY) {
        Some(Shown::Page { rows, .. }) => Some(rows.len()),
        _ => None,
    }
}
