//! Tests of requests for files and for documents.

use crate::desk::Desk;
use crate::made::{MEMORY, conn, folder_item, text_of, tree};
use cds_base::{Bytes, Numbers, Sequence};
use cds_memory::{MemFolder, MemItem};
use std::alloc::Global;
use std::mem;
use std::process::Abort;
use std::sync::Wait;

/// A FLAC file without samples, whose title is `Z`.
const FLAC: [u8; 65] = [
    0x66, 0x4C, 0x61, 0x43, 0, 0, 0, 0x22, 0x03, 0xE8, 0x03, 0xE8, 0, 0, 0, 0, 0, 0, 0x0A, 0xC4,
    0x42, 0xF0, 0x00, 0x06, 0xBA, 0xA8, 0, 0, 0, 0, 0, 0, 0, 0, 0, 0, 0, 0, 0, 0, 0, 0, 0x84, 0, 0,
    0x13, 0, 0, 0, 0, 1, 0, 0, 0, 7, 0, 0, 0, 0x54, 0x49, 0x54, 0x4C, 0x45, 0x3D, 0x5A,
];

/// A file: its name, its size when it is scanned, and its bytes when it is sent.
#[derive(Drop)]
struct FileCase {
    name: &'static str,
    size: u64,
    bytes: Option<&'static str>,
}

/// The files, in the order of their ids.
const FILES: [FileCase; 5] = [
    FileCase {
        name: "a.flac",
        size: 10,
        bytes: Some("0123456789"),
    },
    FileCase {
        name: "b.flac",
        size: 0,
        bytes: Some(""),
    },
    FileCase {
        name: "c.flac",
        size: 10,
        bytes: Some("012345"),
    },
    FileCase {
        name: "d.flac",
        size: 3,
        bytes: Some("0123456789"),
    },
    FileCase {
        name: "e.flac",
        size: 10,
        bytes: None,
    },
];

/// A file that is a folder when it is sent.
const REPLACED: FileCase = FileCase {
    name: "g.flac",
    size: 10,
    bytes: None,
};

/// Makes the item of a file with these bytes.
fn file_item<R: Abort>(rt: &R, alloc: Global, case: &FileCase, bytes: Option<&[u8]>) -> MemItem {
    let bytes = match bytes {
        Some(bytes) => Some(Bytes::from(Vec::from_slice(alloc, bytes).expect(rt, MEMORY))),
        None => None,
    };
    MemItem::FileItem {
        path: text_of(rt, alloc, case.name),
        size: case.size,
        bytes,
        fails: Numbers::new(alloc),
    }
}

/// Makes a folder with the files, one folder and one more file, as it is scanned.
fn scanned<R: Abort>(rt: &R, alloc: Global) -> MemFolder {
    let mut items = Sequence::new(alloc);
    for case in &FILES {
        let item = file_item(rt, alloc, case, Some(&FLAC));
        items.push(item).expect(rt, MEMORY);
    }
    let item = folder_item(rt, alloc, "f");
    items.push(item).expect(rt, MEMORY);
    let item = file_item(rt, alloc, &REPLACED, Some(&FLAC));
    items.push(item).expect(rt, MEMORY);
    tree(rt, items, Numbers::new(alloc))
}

/// Makes the folder from which the files are sent.
fn sent<R: Abort>(rt: &R, alloc: Global) -> MemFolder {
    let mut items = Sequence::new(alloc);
    for case in &FILES {
        let bytes = case.bytes.map(|bytes| bytes.as_bytes());
        let item = file_item(rt, alloc, case, bytes);
        items.push(item).expect(rt, MEMORY);
    }
    let item = folder_item(rt, alloc, REPLACED.name);
    items.push(item).expect(rt, MEMORY);
    tree(rt, items, Numbers::new(alloc))
}

/// Makes a server that has scanned the files and sends them.
fn desk<R: Wait + Abort>(rt: &R, alloc: Global) -> Desk {
    let mut desk = Desk::new(rt, alloc, &[], 0);
    let mut folder = scanned(rt, alloc);
    desk.scan(rt, alloc, &mut folder);
    drop(mem::replace(&mut desk.files, sent(rt, alloc)));
    desk
}

/// A request, and the whole reply to it.
#[derive(Drop)]
struct MediaCase {
    name: &'static str,
    request: &'static str,
    reply: &'static str,
}

const CASES: [MediaCase; 31] = [
    MediaCase {
        name: "the whole file",
        request: "GET /media/1 HTTP/1.1\r\nHOST: h\r\n\r\n",
        reply: "HTTP/1.1 200 OK\r\nEXT:\r\nSERVER: unix/1.0 UPnP/2.0 cds/1.0\r\nCONTENT-TYPE: audio/flac\r\nACCEPT-RANGES: bytes\r\nCONTENT-LENGTH: 10\r\nCONNECTION: close\r\n\r\n0123456789",
    },
    MediaCase {
        name: "a range",
        request: "GET /media/1 HTTP/1.1\r\nHOST: h\r\nRANGE: bytes=2-4\r\n\r\n",
        reply: "HTTP/1.1 206 Partial Content\r\nEXT:\r\nSERVER: unix/1.0 UPnP/2.0 cds/1.0\r\nCONTENT-TYPE: audio/flac\r\nACCEPT-RANGES: bytes\r\nCONTENT-RANGE: bytes 2-4/10\r\nCONTENT-LENGTH: 3\r\nCONNECTION: close\r\n\r\n234",
    },
    MediaCase {
        name: "the last bytes",
        request: "GET /media/1 HTTP/1.1\r\nHOST: h\r\nRANGE: bytes=-3\r\n\r\n",
        reply: "HTTP/1.1 206 Partial Content\r\nEXT:\r\nSERVER: unix/1.0 UPnP/2.0 cds/1.0\r\nCONTENT-TYPE: audio/flac\r\nACCEPT-RANGES: bytes\r\nCONTENT-RANGE: bytes 7-9/10\r\nCONTENT-LENGTH: 3\r\nCONNECTION: close\r\n\r\n789",
    },
    MediaCase {
        name: "a range to the end",
        request: "GET /media/1 HTTP/1.1\r\nHOST: h\r\nRANGE: bytes=9-\r\n\r\n",
        reply: "HTTP/1.1 206 Partial Content\r\nEXT:\r\nSERVER: unix/1.0 UPnP/2.0 cds/1.0\r\nCONTENT-TYPE: audio/flac\r\nACCEPT-RANGES: bytes\r\nCONTENT-RANGE: bytes 9-9/10\r\nCONTENT-LENGTH: 1\r\nCONNECTION: close\r\n\r\n9",
    },
    MediaCase {
        name: "a range that covers the whole file",
        request: "GET /media/1 HTTP/1.1\r\nHOST: h\r\nRANGE: bytes=0-\r\n\r\n",
        reply: "HTTP/1.1 206 Partial Content\r\nEXT:\r\nSERVER: unix/1.0 UPnP/2.0 cds/1.0\r\nCONTENT-TYPE: audio/flac\r\nACCEPT-RANGES: bytes\r\nCONTENT-RANGE: bytes 0-9/10\r\nCONTENT-LENGTH: 10\r\nCONNECTION: close\r\n\r\n0123456789",
    },
    MediaCase {
        name: "a range past the end",
        request: "GET /media/1 HTTP/1.1\r\nHOST: h\r\nRANGE: bytes=10-\r\n\r\n",
        reply: "HTTP/1.1 416 Range Not Satisfiable\r\nEXT:\r\nSERVER: unix/1.0 UPnP/2.0 cds/1.0\r\nCONTENT-RANGE: bytes */10\r\nCONTENT-LENGTH: 0\r\nCONNECTION: close\r\n\r\n",
    },
    MediaCase {
        name: "the last 0 bytes",
        request: "GET /media/1 HTTP/1.1\r\nHOST: h\r\nRANGE: bytes=-0\r\n\r\n",
        reply: "HTTP/1.1 416 Range Not Satisfiable\r\nEXT:\r\nSERVER: unix/1.0 UPnP/2.0 cds/1.0\r\nCONTENT-RANGE: bytes */10\r\nCONTENT-LENGTH: 0\r\nCONNECTION: close\r\n\r\n",
    },
    MediaCase {
        name: "a range whose end comes first",
        request: "GET /media/1 HTTP/1.1\r\nHOST: h\r\nRANGE: bytes=4-2\r\n\r\n",
        reply: "HTTP/1.1 200 OK\r\nEXT:\r\nSERVER: unix/1.0 UPnP/2.0 cds/1.0\r\nCONTENT-TYPE: audio/flac\r\nACCEPT-RANGES: bytes\r\nCONTENT-LENGTH: 10\r\nCONNECTION: close\r\n\r\n0123456789",
    },
    MediaCase {
        name: "two ranges",
        request: "GET /media/1 HTTP/1.1\r\nHOST: h\r\nRANGE: bytes=2-4,6-7\r\n\r\n",
        reply: "HTTP/1.1 200 OK\r\nEXT:\r\nSERVER: unix/1.0 UPnP/2.0 cds/1.0\r\nCONTENT-TYPE: audio/flac\r\nACCEPT-RANGES: bytes\r\nCONTENT-LENGTH: 10\r\nCONNECTION: close\r\n\r\n0123456789",
    },
    MediaCase {
        name: "two fields",
        request: "GET /media/1 HTTP/1.1\r\nHOST: h\r\nRANGE: bytes=2-4\r\nRANGE: bytes=2-4\r\n\r\n",
        reply: "HTTP/1.1 200 OK\r\nEXT:\r\nSERVER: unix/1.0 UPnP/2.0 cds/1.0\r\nCONTENT-TYPE: audio/flac\r\nACCEPT-RANGES: bytes\r\nCONTENT-LENGTH: 10\r\nCONNECTION: close\r\n\r\n0123456789",
    },
    MediaCase {
        name: "a number of 30 digits",
        request: "GET /media/1 HTTP/1.1\r\nHOST: h\r\nRANGE: bytes=8-999999999999999999999999999999\r\n\r\n",
        reply: "HTTP/1.1 206 Partial Content\r\nEXT:\r\nSERVER: unix/1.0 UPnP/2.0 cds/1.0\r\nCONTENT-TYPE: audio/flac\r\nACCEPT-RANGES: bytes\r\nCONTENT-RANGE: bytes 8-9/10\r\nCONTENT-LENGTH: 2\r\nCONNECTION: close\r\n\r\n89",
    },
    MediaCase {
        name: "HEAD with a range",
        request: "HEAD /media/1 HTTP/1.1\r\nHOST: h\r\nRANGE: bytes=2-4\r\n\r\n",
        reply: "HTTP/1.1 200 OK\r\nEXT:\r\nSERVER: unix/1.0 UPnP/2.0 cds/1.0\r\nCONTENT-TYPE: audio/flac\r\nACCEPT-RANGES: bytes\r\nCONTENT-LENGTH: 10\r\nCONNECTION: close\r\n\r\n",
    },
    MediaCase {
        name: "HEAD with a range past the end",
        request: "HEAD /media/1 HTTP/1.1\r\nHOST: h\r\nRANGE: bytes=10-\r\n\r\n",
        reply: "HTTP/1.1 200 OK\r\nEXT:\r\nSERVER: unix/1.0 UPnP/2.0 cds/1.0\r\nCONTENT-TYPE: audio/flac\r\nACCEPT-RANGES: bytes\r\nCONTENT-LENGTH: 10\r\nCONNECTION: close\r\n\r\n",
    },
    MediaCase {
        name: "POST",
        request: "POST /media/1 HTTP/1.1\r\nHOST: h\r\n\r\n",
        reply: "HTTP/1.1 405 Method Not Allowed\r\nEXT:\r\nSERVER: unix/1.0 UPnP/2.0 cds/1.0\r\nCONTENT-LENGTH: 0\r\nCONNECTION: close\r\n\r\n",
    },
    MediaCase {
        name: "no track, by POST",
        request: "POST /media/9 HTTP/1.1\r\nHOST: h\r\n\r\n",
        reply: "HTTP/1.1 404 Not Found\r\nEXT:\r\nSERVER: unix/1.0 UPnP/2.0 cds/1.0\r\nCONTENT-LENGTH: 0\r\nCONNECTION: close\r\n\r\n",
    },
    MediaCase {
        name: "the last bytes of an empty file",
        request: "GET /media/2 HTTP/1.1\r\nHOST: h\r\nRANGE: bytes=-3\r\n\r\n",
        reply: "HTTP/1.1 200 OK\r\nEXT:\r\nSERVER: unix/1.0 UPnP/2.0 cds/1.0\r\nCONTENT-TYPE: audio/flac\r\nACCEPT-RANGES: bytes\r\nCONTENT-LENGTH: 0\r\nCONNECTION: close\r\n\r\n",
    },
    MediaCase {
        name: "a range of an empty file",
        request: "GET /media/2 HTTP/1.1\r\nHOST: h\r\nRANGE: bytes=0-\r\n\r\n",
        reply: "HTTP/1.1 416 Range Not Satisfiable\r\nEXT:\r\nSERVER: unix/1.0 UPnP/2.0 cds/1.0\r\nCONTENT-RANGE: bytes */0\r\nCONTENT-LENGTH: 0\r\nCONNECTION: close\r\n\r\n",
    },
    MediaCase {
        name: "a file that has fewer bytes now",
        request: "GET /media/3 HTTP/1.1\r\nHOST: h\r\n\r\n",
        reply: "HTTP/1.1 200 OK\r\nEXT:\r\nSERVER: unix/1.0 UPnP/2.0 cds/1.0\r\nCONTENT-TYPE: audio/flac\r\nACCEPT-RANGES: bytes\r\nCONTENT-LENGTH: 10\r\nCONNECTION: close\r\n\r\n012345",
    },
    MediaCase {
        name: "a file that has more bytes now",
        request: "GET /media/4 HTTP/1.1\r\nHOST: h\r\n\r\n",
        reply: "HTTP/1.1 200 OK\r\nEXT:\r\nSERVER: unix/1.0 UPnP/2.0 cds/1.0\r\nCONTENT-TYPE: audio/flac\r\nACCEPT-RANGES: bytes\r\nCONTENT-LENGTH: 3\r\nCONNECTION: close\r\n\r\n012",
    },
    MediaCase {
        name: "a file that is gone",
        request: "GET /media/5 HTTP/1.1\r\nHOST: h\r\n\r\n",
        reply: "HTTP/1.1 404 Not Found\r\nEXT:\r\nSERVER: unix/1.0 UPnP/2.0 cds/1.0\r\nCONTENT-LENGTH: 0\r\nCONNECTION: close\r\n\r\n",
    },
    MediaCase {
        name: "a file that is a folder now",
        request: "GET /media/7 HTTP/1.1\r\nHOST: h\r\n\r\n",
        reply: "HTTP/1.1 404 Not Found\r\nEXT:\r\nSERVER: unix/1.0 UPnP/2.0 cds/1.0\r\nCONTENT-LENGTH: 0\r\nCONNECTION: close\r\n\r\n",
    },
    MediaCase {
        name: "a range past the end of a file that is gone",
        request: "GET /media/5 HTTP/1.1\r\nHOST: h\r\nRANGE: bytes=10-\r\n\r\n",
        reply: "HTTP/1.1 416 Range Not Satisfiable\r\nEXT:\r\nSERVER: unix/1.0 UPnP/2.0 cds/1.0\r\nCONTENT-RANGE: bytes */10\r\nCONTENT-LENGTH: 0\r\nCONNECTION: close\r\n\r\n",
    },
    MediaCase {
        name: "a folder",
        request: "GET /media/6 HTTP/1.1\r\nHOST: h\r\n\r\n",
        reply: "HTTP/1.1 404 Not Found\r\nEXT:\r\nSERVER: unix/1.0 UPnP/2.0 cds/1.0\r\nCONTENT-LENGTH: 0\r\nCONNECTION: close\r\n\r\n",
    },
    MediaCase {
        name: "the root",
        request: "GET /media/0 HTTP/1.1\r\nHOST: h\r\n\r\n",
        reply: "HTTP/1.1 404 Not Found\r\nEXT:\r\nSERVER: unix/1.0 UPnP/2.0 cds/1.0\r\nCONTENT-LENGTH: 0\r\nCONNECTION: close\r\n\r\n",
    },
    MediaCase {
        name: "an id with leading zeros",
        request: "GET /media/007 HTTP/1.1\r\nHOST: h\r\n\r\n",
        reply: "HTTP/1.1 404 Not Found\r\nEXT:\r\nSERVER: unix/1.0 UPnP/2.0 cds/1.0\r\nCONTENT-LENGTH: 0\r\nCONNECTION: close\r\n\r\n",
    },
    MediaCase {
        name: "an id past 32 bits",
        request: "GET /media/4294967297 HTTP/1.1\r\nHOST: h\r\n\r\n",
        reply: "HTTP/1.1 404 Not Found\r\nEXT:\r\nSERVER: unix/1.0 UPnP/2.0 cds/1.0\r\nCONTENT-LENGTH: 0\r\nCONNECTION: close\r\n\r\n",
    },
    MediaCase {
        name: "an id past 64 bits",
        request: "GET /media/18446744073709551617 HTTP/1.1\r\nHOST: h\r\n\r\n",
        reply: "HTTP/1.1 404 Not Found\r\nEXT:\r\nSERVER: unix/1.0 UPnP/2.0 cds/1.0\r\nCONTENT-LENGTH: 0\r\nCONNECTION: close\r\n\r\n",
    },
    MediaCase {
        name: "no id",
        request: "GET /media/ HTTP/1.1\r\nHOST: h\r\n\r\n",
        reply: "HTTP/1.1 404 Not Found\r\nEXT:\r\nSERVER: unix/1.0 UPnP/2.0 cds/1.0\r\nCONTENT-LENGTH: 0\r\nCONNECTION: close\r\n\r\n",
    },
    MediaCase {
        name: "a question behind the id",
        request: "GET /media/1?x HTTP/1.1\r\nHOST: h\r\n\r\n",
        reply: "HTTP/1.1 404 Not Found\r\nEXT:\r\nSERVER: unix/1.0 UPnP/2.0 cds/1.0\r\nCONTENT-LENGTH: 0\r\nCONNECTION: close\r\n\r\n",
    },
    MediaCase {
        name: "a document by POST",
        request: "POST /device.xml HTTP/1.1\r\nHOST: h\r\n\r\n",
        reply: "HTTP/1.1 405 Method Not Allowed\r\nEXT:\r\nSERVER: unix/1.0 UPnP/2.0 cds/1.0\r\nCONTENT-LENGTH: 0\r\nCONNECTION: close\r\n\r\n",
    },
    MediaCase {
        name: "a document by HEAD",
        request: "HEAD /cds.xml HTTP/1.1\r\nHOST: h\r\n\r\n",
        reply: "HTTP/1.1 405 Method Not Allowed\r\nEXT:\r\nSERVER: unix/1.0 UPnP/2.0 cds/1.0\r\nCONTENT-LENGTH: 0\r\nCONNECTION: close\r\n\r\n",
    },
];

/// The reply with the whole of the first file.
const WHOLE: &str =
    "HTTP/1.1 200 OK\r\nEXT:\r\nSERVER: unix/1.0 UPnP/2.0 cds/1.0\r\nCONTENT-TYPE: audio/flac\r\nACCEPT-RANGES: bytes\r\nCONTENT-LENGTH: 10\r\nCONNECTION: close\r\n\r\n0123456789";

/// Requests for the first file with a RANGE in a form that is passed over.
const WRONG_FORMS: [&str; 18] = [
    "GET /media/1 HTTP/1.1\r\nHOST: h\r\nRANGE: bytes=a-b\r\n\r\n",
    "GET /media/1 HTTP/1.1\r\nHOST: h\r\nRANGE: bytes=1\r\n\r\n",
    "GET /media/1 HTTP/1.1\r\nHOST: h\r\nRANGE: bytes=-\r\n\r\n",
    "GET /media/1 HTTP/1.1\r\nHOST: h\r\nRANGE: bytes=--3\r\n\r\n",
    "GET /media/1 HTTP/1.1\r\nHOST: h\r\nRANGE: bytes=1-2-3\r\n\r\n",
    "GET /media/1 HTTP/1.1\r\nHOST: h\r\nRANGE: bytes=+1-2\r\n\r\n",
    "GET /media/1 HTTP/1.1\r\nHOST: h\r\nRANGE: bytes=1-+2\r\n\r\n",
    "GET /media/1 HTTP/1.1\r\nHOST: h\r\nRANGE: bytes=0x1-2\r\n\r\n",
    "GET /media/1 HTTP/1.1\r\nHOST: h\r\nRANGE: bytes= 1-2\r\n\r\n",
    "GET /media/1 HTTP/1.1\r\nHOST: h\r\nRANGE: bytes=1 -2\r\n\r\n",
    "GET /media/1 HTTP/1.1\r\nHOST: h\r\nRANGE: bytes=1- 2\r\n\r\n",
    "GET /media/1 HTTP/1.1\r\nHOST: h\r\nRANGE: bytes=1-2,\r\n\r\n",
    "GET /media/1 HTTP/1.1\r\nHOST: h\r\nRANGE: bytes=1-2;\r\n\r\n",
    "GET /media/1 HTTP/1.1\r\nHOST: h\r\nRANGE: BYTES=1-2\r\n\r\n",
    "GET /media/1 HTTP/1.1\r\nHOST: h\r\nRANGE: bits=1-2\r\n\r\n",
    "GET /media/1 HTTP/1.1\r\nHOST: h\r\nRANGE: 1-2\r\n\r\n",
    "GET /media/1 HTTP/1.1\r\nHOST: h\r\nRANGE: bytes\r\n\r\n",
    "GET /media/1 HTTP/1.1\r\nHOST: h\r\nRANGE: bytes=\r\n\r\n",
];

/// Checks that a request gets its reply.
fn check_case<R: Wait + Abort>(rt: &R, alloc: Global, desk: &mut Desk, case: &MediaCase) {
    let mut conn = conn(rt, alloc, case.request.as_bytes(), 0, 0);
    desk.serve(rt, alloc, &mut conn);
    assert!(rt;
        conn.written() == case.reply.as_bytes(),
        "{}: the reply",
        case.name
    );
}

#[test]
fn files_are_sent_by_their_ranges(rt: HostRuntime) {
    let mut desk = desk(&rt, rt.alloc());
    for case in &CASES {
        check_case(&rt, rt.alloc(), &mut desk, case);
    }
    assert!(rt;
        desk.files.opened() == desk.files.returned(),
        "the files that came back"
    );
}

#[test]
fn wrong_ranges_are_passed_over(rt: HostRuntime) {
    let mut desk = desk(&rt, rt.alloc());
    for request in &WRONG_FORMS {
        let mut conn = conn(&rt, rt.alloc(), request.as_bytes(), 0, 0);
        desk.serve(&rt, rt.alloc(), &mut conn);
        assert!(rt; conn.written() == WHOLE.as_bytes(), "{request}: the reply");
    }
}

/// Requests for a document, and the whole replies.
const DOCUMENTS: [(&str, &str); 2] = [
    (
        "GET /device.xml HTTP/1.1\r\nHOST: h\r\n\r\n",
        "HTTP/1.1 200 OK\r\nEXT:\r\nSERVER: unix/1.0 UPnP/2.0 cds/1.0\r\nCONTENT-TYPE: text/xml; charset=\"utf-8\"\r\nCONTENT-LENGTH: 633\r\nCONNECTION: close\r\n\r\n<?xml version=\"1.0\"?><root xmlns=\"urn:schemas-upnp-org:device-1-0\"><specVersion><major>2</major><minor>0</minor></specVersion><device><deviceType>urn:schemas-upnp-org:device:MediaServer:4</deviceType><friendlyName>cds</friendlyName><manufacturer>cds</manufacturer><modelName>cds</modelName><UDN>uuid:00000000-0000-8000-8000-000000000000</UDN><serviceList><service><serviceType>urn:schemas-upnp-org:service:ContentDirectory:4</serviceType><serviceId>urn:upnp-org:serviceId:ContentDirectory</serviceId><SCPDURL>/cds.xml</SCPDURL><controlURL>/control</controlURL><eventSubURL>/event</eventSubURL></service></serviceList></device></root>",
    ),
    (
        "GET /cds.xml HTTP/1.1\r\nHOST: h\r\n\r\n",
        "HTTP/1.1 200 OK\r\nEXT:\r\nSERVER: unix/1.0 UPnP/2.0 cds/1.0\r\nCONTENT-TYPE: text/xml; charset=\"utf-8\"\r\nCONTENT-LENGTH: 2312\r\nCONNECTION: close\r\n\r\n<?xml version=\"1.0\"?><scpd xmlns=\"urn:schemas-upnp-org:service-1-0\"><specVersion><major>2</major><minor>0</minor></specVersion><actionList><action><name>Browse</name><argumentList><argument><name>ObjectID</name><direction>in</direction></argument><argument><name>BrowseFlag</name><direction>in</direction></argument><argument><name>Filter</name><direction>in</direction></argument><argument><name>StartingIndex</name><direction>in</direction></argument><argument><name>RequestedCount</name><direction>in</direction></argument><argument><name>SortCriteria</name><direction>in</direction></argument><argument><name>Result</name><direction>out</direction></argument><argument><name>NumberReturned</name><direction>out</direction></argument><argument><name>TotalMatches</name><direction>out</direction></argument><argument><name>UpdateID</name><direction>out</direction></argument></argumentList></action><action><name>Search</name><argumentList><argument><name>ContainerID</name><direction>in</direction></argument><argument><name>SearchCriteria</name><direction>in</direction></argument><argument><name>Filter</name><direction>in</direction></argument><argument><name>StartingIndex</name><direction>in</direction></argument><argument><name>RequestedCount</name><direction>in</direction></argument><argument><name>SortCriteria</name><direction>in</direction></argument><argument><name>Result</name><direction>out</direction></argument><argument><name>NumberReturned</name><direction>out</direction></argument><argument><name>TotalMatches</name><direction>out</direction></argument><argument><name>UpdateID</name><direction>out</direction></argument></argumentList></action><action><name>GetSystemUpdateID</name><argumentList><argument><name>Id</name><direction>out</direction></argument></argumentList></action><action><name>GetServiceResetToken</name><argumentList><argument><name>ResetToken</name><direction>out</direction></argument></argumentList></action><action><name>GetSearchCapabilities</name><argumentList><argument><name>SearchCaps</name><direction>out</direction></argument></argumentList></action><action><name>GetSortCapabilities</name><argumentList><argument><name>SortCaps</name><direction>out</direction></argument></argumentList></action></actionList><serviceStateTable></serviceStateTable></scpd>",
    ),
];

#[test]
fn documents_are_sent(rt: HostRuntime) {
    let mut desk = Desk::new(&rt, rt.alloc(), &[], 0);
    for (request, reply) in &DOCUMENTS {
        let mut conn = conn(&rt, rt.alloc(), request.as_bytes(), 0, 0);
        desk.serve(&rt, rt.alloc(), &mut conn);
        assert!(rt; conn.written() == reply.as_bytes(), "{request}: the reply");
    }
}
