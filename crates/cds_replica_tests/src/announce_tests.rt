//! Tests of the command that announces a device, over an outside in memory, in which a port or a datagram fails.

use crate::made::{MEMORY, calls, sink, source};
use crate::program_tests::words_of;
use cds_base::{Bytes, Sequence};
use cds_memory::{MemDatagrams, MemObjects, MemOutside, MemSink};
use cds_outside::Runtime;
use cds_program::run;
use std::alloc::Global;
use std::process::Abort;

/// The words of an announcement, the datagrams that come, which calls fail, and what becomes of it.
#[derive(Drop)]
struct AnnounceCase {
    name: &'static str,
    /// The words of the command line.
    words: &'static [&'static str],
    datagrams: &'static [&'static str],
    /// The calls of the outside, those of the datagrams, and the writes that fail.
    asks: &'static [u32],
    calls: &'static [u32],
    writes: &'static [u32],
    status: u8,
    /// How many datagrams were given, and how many faults the outside counts.
    given: u64,
    faults: u64,
    /// The replies that are sent.
    replies: &'static [&'static str],
    /// What is written.
    text: &'static str,
}

/// A search for the root device, which gets one reply.
const SEARCH: &str =
    "M-SEARCH * HTTP/1.1\r\nHOST: 239.255.255.250:1900\r\nMAN: \"ssdp:discover\"\r\nMX: 1\r\nST: upnp:rootdevice\r\n\r\n";

/// An address of a description.
const LOCATION: &str = "http://10.0.0.1:8200/device.xml";

/// A UUID.
const UUID: &str = "abcdef01-2345-6789-abcd-ef0123456789";

/// The reply to the search of a device that has no UUID of its own.
const FIRST_REPLY: &str =
    "HTTP/1.1 200 OK\r\nCACHE-CONTROL: max-age=1800\r\nEXT:\r\nLOCATION: http://10.0.0.1:8200/device.xml\r\nSERVER: unix/1.0 UPnP/2.0 cds/1.0\r\nST: upnp:rootdevice\r\nUSN: uuid:00000000-0000-8000-8000-000000000000::upnp:rootdevice\r\nBOOTID.UPNP.ORG: 1\r\n\r\n";

/// The reply to the search of the device with the UUID.
const NAMED_REPLY: &str =
    "HTTP/1.1 200 OK\r\nCACHE-CONTROL: max-age=1800\r\nEXT:\r\nLOCATION: http://10.0.0.1:8200/device.xml\r\nSERVER: unix/1.0 UPnP/2.0 cds/1.0\r\nST: upnp:rootdevice\r\nUSN: uuid:abcdef01-2345-6789-abcd-ef0123456789::upnp:rootdevice\r\nBOOTID.UPNP.ORG: 1\r\n\r\n";

const CASES: [AnnounceCase; 10] = [
    AnnounceCase {
        name: "no datagram",
        words: &["announce", "1900", LOCATION, "0"],
        datagrams: &[SEARCH],
        asks: &[],
        calls: &[],
        writes: &[],
        status: 0,
        given: 0,
        faults: 0,
        replies: &[],
        text: "",
    },
    AnnounceCase {
        name: "two of three datagrams",
        words: &["announce", "1900", LOCATION, "2"],
        datagrams: &[SEARCH, "", SEARCH],
        asks: &[],
        calls: &[],
        writes: &[1],
        status: 0,
        given: 2,
        faults: 0,
        replies: &[FIRST_REPLY],
        text: "",
    },
    AnnounceCase {
        name: "a UUID",
        words: &["announce", "0", LOCATION, "1", UUID],
        datagrams: &[SEARCH],
        asks: &[],
        calls: &[],
        writes: &[],
        status: 0,
        given: 1,
        faults: 0,
        replies: &[NAMED_REPLY],
        text: "",
    },
    AnnounceCase {
        name: "a reply that cannot be sent",
        words: &["announce", "1900", LOCATION, "2"],
        datagrams: &[SEARCH, SEARCH],
        asks: &[],
        calls: &[2],
        writes: &[],
        status: 0,
        given: 2,
        faults: 1,
        replies: &[FIRST_REPLY],
        text: "",
    },
    AnnounceCase {
        name: "a datagram that cannot be received",
        words: &["announce", "1900", LOCATION, "2"],
        datagrams: &[SEARCH, SEARCH],
        asks: &[],
        calls: &[3],
        writes: &[],
        status: 7,
        given: 1,
        faults: 1,
        replies: &[FIRST_REPLY],
        text: "",
    },
    AnnounceCase {
        name: "a port that cannot be had",
        words: &["announce", "1900", LOCATION, "2"],
        datagrams: &[SEARCH, SEARCH],
        asks: &[1],
        calls: &[],
        writes: &[],
        status: 7,
        given: 0,
        faults: 1,
        replies: &[],
        text: "",
    },
    AnnounceCase {
        name: "a location that is none",
        words: &["announce", "1900", "https://10.0.0.1/", "2"],
        datagrams: &[SEARCH, SEARCH],
        asks: &[1],
        calls: &[],
        writes: &[],
        status: 5,
        given: 0,
        faults: 0,
        replies: &[],
        text: "usage: cds COMMAND\n",
    },
    AnnounceCase {
        name: "a location that is none, the first write",
        words: &["announce", "1900", "", "2"],
        datagrams: &[SEARCH, SEARCH],
        asks: &[],
        calls: &[],
        writes: &[1],
        status: 3,
        given: 0,
        faults: 0,
        replies: &[],
        text: "",
    },
    AnnounceCase {
        name: "a UUID that is none",
        words: &["announce", "1900", LOCATION, "2", "uuid"],
        datagrams: &[SEARCH, SEARCH],
        asks: &[],
        calls: &[],
        writes: &[],
        status: 5,
        given: 0,
        faults: 0,
        replies: &[],
        text: "usage: cds COMMAND\n",
    },
    AnnounceCase {
        name: "a word too many",
        words: &["announce", "1900", LOCATION, "2", UUID, UUID],
        datagrams: &[SEARCH, SEARCH],
        asks: &[],
        calls: &[],
        writes: &[],
        status: 5,
        given: 0,
        faults: 0,
        replies: &[],
        text: "usage: cds COMMAND\n",
    },
];

/// Makes datagrams of which these calls fail.
fn datagrams_of<R: Abort>(rt: &R, alloc: Global, texts: &[&str], fails: &[u32]) -> MemDatagrams {
    let mut datagrams = Sequence::new(alloc);
    for text in texts {
        let bytes = Vec::from_slice(alloc, text.as_bytes()).expect(rt, MEMORY);
        datagrams.push(Bytes::from(bytes)).expect(rt, MEMORY);
    }
    MemDatagrams::new(alloc, datagrams, calls(rt, alloc, fails))
}

/// Makes an outside that has the case's datagrams alone.
fn outside_of<R: Abort>(rt: &R, alloc: Global, case: &AnnounceCase) -> MemOutside<R> {
    let datagrams = datagrams_of(rt, alloc, case.datagrams, case.calls);
    let mut objects = MemObjects::new(alloc);
    objects.datagrams.push(datagrams).expect(rt, MEMORY);
    MemOutside::new(objects, calls(rt, alloc, case.asks))
}

/// Returns the status of the case's command.
fn status_of<R: Runtime + Abort>(
    rt: &R,
    alloc: Global,
    case: &AnnounceCase,
    sink: &mut MemSink,
    outside: &mut MemOutside<R>,
) -> u8 {
    let words = words_of(rt, alloc, case.words);
    let mut source = source(rt, alloc, b"", &[]);
    run(rt, alloc, &words, &mut source, sink, outside)
}

/// Returns whether these replies were sent, and no others.
fn are_sent(replies: &[Bytes], texts: &[&str]) -> bool {
    replies.len() == texts.len()
        && replies
            .iter()
            .zip(texts.iter())
            .all(|(reply, text)| reply.as_slice() == text.as_bytes())
}

/// Checks a case: its status, the datagrams given, the faults that the outside counts, the replies, and what is written.
fn check_case<R: Runtime + Abort>(rt: &R, alloc: Global, case: &AnnounceCase) {
    let mut outside = outside_of(rt, alloc, case);
    let mut sink = sink(rt, alloc, case.writes);
    let status = status_of(rt, alloc, case, &mut sink, &mut outside);
    let is_right = status == case.status
        && outside.given() == case.given
        && outside.faults() == case.faults
        && are_sent(outside.replies(), case.replies)
        && sink.as_slice() == case.text.as_bytes();
    assert!(rt;
        is_right,
        "{}: the status {status}, {} datagrams, {} faults",
        case.name,
        outside.given(),
        outside.faults()
    );
}

#[test]
fn announcements_have_their_statuses(rt: HostRuntime) {
    for case in &CASES {
        check_case(&rt, rt.alloc(), case);
    }
}
