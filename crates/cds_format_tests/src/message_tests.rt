//! Tests of requests, replies and notes of subscriptions: what is written, to the byte, and what is read of texts that
//! others write (UPnP Device Architecture 2.0 on eventing).

use crate::made::MEMORY;
use cds_base::Text;
use cds_gena::{
    Address, Lease, Sid, is_deliverable, read_lease, write_renewal, write_subscribe,
    write_unsubscribe,
};
use cds_http::{Message, MessageReader, Side};
use cds_notify::{Note, NoteError, read_notify, write_notify, write_propertyset};
use cds_object::Event;
use std::alloc::Global;
use std::process::Abort;
use url::Url;

/// Reads the message that a text is.
fn message<R: Abort>(rt: &R, alloc: Global, side: Side, text: &[u8]) -> Message {
    let mut reader = MessageReader::new(alloc, side).expect(rt, MEMORY);
    reader.feed(alloc, text).expect(rt, "no message");
    reader.finish().expect(rt, "no whole message")
}

/// Reads an address.
fn address<R: Abort>(rt: &R, alloc: Global, text: &str) -> Url {
    Url::parse(alloc, text).expect(rt, "no URL")
}

/// The SID of subscription 1 of a server whose boot words are 0.
const NAME: Sid = Sid(0x8000_8000_0000_0000_0001);

/// An address, a callback, and the request for a subscription.
#[derive(Drop)]
struct RequestCase {
    name: &'static str,
    url: &'static str,
    callback: &'static str,
    request: &'static str,
}

const REQUESTS: [RequestCase; 3] = [
    RequestCase {
        name: "addresses with ports",
        url: "http://10.0.0.2:49152/event",
        callback: "http://10.0.0.9:49153/notify",
        request: "SUBSCRIBE /event HTTP/1.1\r\nHOST: 10.0.0.2:49152\r\nCALLBACK: <http://10.0.0.9:49153/notify>\r\nNT: upnp:event\r\nTIMEOUT: Second-1800\r\nCONTENT-LENGTH: 0\r\nCONNECTION: close\r\n\r\n",
    },
    RequestCase {
        name: "a query without a path, and a callback with a user and bytes to escape",
        url: "HTTP://Host.Example:80?a=b#c",
        callback: "http://user:word@[::1]:8080/a b?x=<y>",
        request: "SUBSCRIBE /?a=b HTTP/1.1\r\nHOST: host.example\r\nCALLBACK: <http://user:word@[::1]:8080/a%20b?x=%3Cy%3E>\r\nNT: upnp:event\r\nTIMEOUT: Second-1800\r\nCONTENT-LENGTH: 0\r\nCONNECTION: close\r\n\r\n",
    },
    RequestCase {
        name: "an address of IPv6, and a callback with a fragment",
        url: "http://[::1]/",
        callback: "http://h#>",
        request: "SUBSCRIBE / HTTP/1.1\r\nHOST: [::1]\r\nCALLBACK: <http://h/#%3E>\r\nNT: upnp:event\r\nTIMEOUT: Second-1800\r\nCONTENT-LENGTH: 0\r\nCONNECTION: close\r\n\r\n",
    },
];

/// A renewal at the first address. `END` is the end of that subscription.
const RENEWAL: &str =
    "SUBSCRIBE /event HTTP/1.1\r\nHOST: 10.0.0.2:49152\r\nSID: uuid:00000000-0000-8000-8000-000000000001\r\nTIMEOUT: Second-1800\r\nCONTENT-LENGTH: 0\r\nCONNECTION: close\r\n\r\n";

const END: &str =
    "UNSUBSCRIBE /event HTTP/1.1\r\nHOST: 10.0.0.2:49152\r\nSID: uuid:00000000-0000-8000-8000-000000000001\r\nCONTENT-LENGTH: 0\r\nCONNECTION: close\r\n\r\n";

/// A reply, and for how many seconds it grants `NAME`; `None` if it grants nothing.
#[derive(Drop)]
struct ReplyCase {
    name: &'static str,
    reply: &'static str,
    seconds: Option<u32>,
}

const REPLIES: [ReplyCase; 10] = [
    ReplyCase {
        name: "an hour",
        reply: "HTTP/1.1 200 OK\r\nSID: uuid:00000000-0000-8000-8000-000000000001\r\nTIMEOUT: Second-3600\r\nCONTENT-LENGTH: 0\r\n\r\n",
        seconds: Some(3_600),
    },
    ReplyCase {
        name: "names in lower case, no hyphens in the SID, and more than a day",
        reply: "HTTP/1.1 200 Yes\r\ntimeout: SECOND-90000\r\nsid: uuid:00000000000080008000000000000001\r\n\r\n",
        seconds: Some(86_400),
    },
    ReplyCase {
        name: "two times, the first of which is too short",
        reply: "HTTP/1.1 200 OK\r\nSID: uuid:00000000-0000-8000-8000-000000000001\r\nTIMEOUT: Second-1799\r\nTIMEOUT: Second-3600\r\n\r\n",
        seconds: Some(1_800),
    },
    ReplyCase {
        name: "a time without end",
        reply: "HTTP/1.1 200 OK\r\nSID: uuid:00000000-0000-8000-8000-000000000001\r\nTIMEOUT: Second-infinite\r\n\r\n",
        seconds: Some(1_800),
    },
    ReplyCase {
        name: "no time",
        reply: "HTTP/1.1 200 OK\r\nSID: uuid:00000000-0000-8000-8000-000000000001\r\n\r\n",
        seconds: Some(1_800),
    },
    ReplyCase {
        name: "no SID",
        reply: "HTTP/1.1 200 OK\r\nTIMEOUT: Second-3600\r\n\r\n",
        seconds: None,
    },
    ReplyCase {
        name: "a SID without `uuid:`",
        reply: "HTTP/1.1 200 OK\r\nSID: 00000000-0000-8000-8000-000000000001\r\nTIMEOUT: Second-3600\r\n\r\n",
        seconds: None,
    },
    ReplyCase {
        name: "two SIDs",
        reply: "HTTP/1.1 200 OK\r\nSID: uuid:00000000-0000-8000-8000-000000000001\r\nSID: uuid:00000000-0000-8000-8000-000000000001\r\n\r\n",
        seconds: None,
    },
    ReplyCase {
        name: "another status that is good",
        reply: "HTTP/1.1 201 OK\r\nSID: uuid:00000000-0000-8000-8000-000000000001\r\nTIMEOUT: Second-3600\r\n\r\n",
        seconds: None,
    },
    ReplyCase {
        name: "a refusal",
        reply: "HTTP/1.1 412 Precondition Failed\r\nCONTENT-LENGTH: 0\r\n\r\n",
        seconds: None,
    },
];

/// Checks that the request of a case is that for a subscription at an address, with a callback.
fn check_subscribe<R: Abort>(rt: &R, alloc: Global, url: &Url, callback: &Url, case: &RequestCase) {
    assert!(rt; is_deliverable(url), "{}: the address", case.name);
    assert!(rt; is_deliverable(callback), "{}: the callback", case.name);
    let mut out = Vec::new(alloc);
    write_subscribe(alloc, url, callback, &mut out).expect(rt, MEMORY);
    assert!(rt; out.as_slice() == case.request.as_bytes(), "{}", case.name);
}

/// Checks the request of a case.
fn check_request<R: Abort>(rt: &R, alloc: Global, case: &RequestCase) {
    let url = address(rt, alloc, case.url);
    let callback = address(rt, alloc, case.callback);
    check_subscribe(rt, alloc, &url, &callback, case);
}

/// Checks that the renewal of the subscription and its end are written as they have to be.
fn check_renewal_and_end<R: Abort>(rt: &R, alloc: Global, url: &Url) {
    let mut out = Vec::new(alloc);
    write_renewal(alloc, url, NAME, &mut out).expect(rt, MEMORY);
    assert!(rt; out.as_slice() == RENEWAL.as_bytes(), "the renewal");
    out.clear();
    write_unsubscribe(alloc, url, NAME, &mut out).expect(rt, MEMORY);
    assert!(rt; out.as_slice() == END.as_bytes(), "the end");
}

/// Checks the same at the first address.
fn check_at_first<R: Abort>(rt: &R, alloc: Global) {
    let url = address(rt, alloc, REQUESTS[0].url);
    check_renewal_and_end(rt, alloc, &url);
}

/// Returns whether a message grants `NAME` for this many seconds.
fn grants(message: &Message, seconds: Option<u32>) -> bool {
    match (read_lease(message), seconds) {
        (None, None) => true,
        (Some(lease), Some(seconds)) => lease == Lease { sid: NAME, seconds },
        _ => false,
    }
}

/// Returns whether the reply of a case does.
fn is_granted<R: Abort>(rt: &R, alloc: Global, case: &ReplyCase) -> bool {
    let message = message(rt, alloc, Side::Reply, case.reply.as_bytes());
    grants(&message, case.seconds)
}

#[test]
fn requests_are_written_and_replies_read(rt: HostRuntime) {
    for case in &REQUESTS {
        check_request(&rt, rt.alloc(), case);
    }
    check_at_first(&rt, rt.alloc());
    for case in &REPLIES {
        assert!(rt; is_granted(&rt, rt.alloc(), case), "{}", case.name);
    }
}

/// A deletion.
const DELETED: Event = Event::ObjDel {
    id: 7,
    update: 9,
    st: false,
};

/// The start of a set of properties. `BACK` is its end.
const FRONT: &str =
    "<?xml version=\"1.0\"?><e:propertyset xmlns:e=\"urn:schemas-upnp-org:event-1-0\">";

const BACK: &str = "</e:propertyset>";

/// What stands in a body with one change. `UNCHANGED` is what stands in one before any change.
const CHANGED: &str =
    "<e:property><SystemUpdateID>9</SystemUpdateID></e:property><e:property><ContainerUpdateIDs>0,9,3,8</ContainerUpdateIDs></e:property><e:property><LastChange>&lt;StateEvent xmlns=&quot;urn:schemas-upnp-org:av:cds-event&quot;&gt;&lt;objDel objID=&quot;7&quot; updateID=&quot;9&quot; stUpdate=&quot;0&quot;/&gt;&lt;/StateEvent&gt;</LastChange></e:property>";

const UNCHANGED: &str =
    "<e:property><SystemUpdateID>0</SystemUpdateID></e:property><e:property><ContainerUpdateIDs></ContainerUpdateIDs></e:property><e:property><LastChange>&lt;StateEvent xmlns=&quot;urn:schemas-upnp-org:av:cds-event&quot;&gt;&lt;/StateEvent&gt;</LastChange></e:property>";

/// Makes a set of properties with this inside.
fn set_of<R: Abort>(rt: &R, alloc: Global, inside: &str) -> String {
    format!(in alloc; "{FRONT}{inside}{BACK}").expect(rt, MEMORY)
}

/// A number, containers with their numbers, events, and what stands in the set of properties that tells them.
#[derive(Drop)]
struct PropertiesCase {
    name: &'static str,
    number: u32,
    containers: &'static [(u32, u32)],
    events: &'static [Event],
    inside: &'static str,
}

const PROPERTIES: [PropertiesCase; 2] = [
    PropertiesCase {
        name: "one change",
        number: 9,
        containers: &[(0, 9), (3, 8)],
        events: &[DELETED],
        inside: CHANGED,
    },
    PropertiesCase {
        name: "no change yet",
        number: 0,
        containers: &[],
        events: &[],
        inside: UNCHANGED,
    },
];

/// Returns whether the set of the properties of a case is written as it has to be.
fn is_written<R: Abort>(rt: &R, alloc: Global, case: &PropertiesCase) -> bool {
    let want = set_of(rt, alloc, case.inside);
    let mut body = Vec::new(alloc);
    write_propertyset(alloc, case.number, case.containers, case.events, &mut body).expect(
        rt, MEMORY,
    );
    body.as_slice() == want.as_bytes()
}

#[test]
fn bodies_are_written(rt: HostRuntime) {
    for case in &PROPERTIES {
        assert!(rt; is_written(&rt, rt.alloc(), case), "{}", case.name);
    }
}

/// A callback, and the first two lines of a note to it.
#[derive(Drop)]
struct NoteCase {
    name: &'static str,
    callback: &'static str,
    front: &'static str,
}

const NOTES: [NoteCase; 5] = [
    NoteCase {
        name: "a query and a fragment",
        callback: "http://10.0.0.9:49152/notes?x=1#end",
        front: "NOTIFY /notes?x=1 HTTP/1.1\r\nHOST: 10.0.0.9:49152\r\n",
    },
    NoteCase {
        name: "no port",
        callback: "http://10.0.0.9/",
        front: "NOTIFY / HTTP/1.1\r\nHOST: 10.0.0.9\r\n",
    },
    NoteCase {
        name: "the port of the scheme, and no path",
        callback: "http://10.0.0.9:80",
        front: "NOTIFY / HTTP/1.1\r\nHOST: 10.0.0.9\r\n",
    },
    NoteCase {
        name: "a user, and an escaped byte",
        callback: "http://user:word@[::1]:8080/a%20b",
        front: "NOTIFY /a%20b HTTP/1.1\r\nHOST: [::1]:8080\r\n",
    },
    NoteCase {
        name: "a host's name, and an empty query",
        callback: "HTTP://Host.Example/?",
        front: "NOTIFY /? HTTP/1.1\r\nHOST: host.example\r\n",
    },
];

/// The other lines of a note, and its body.
const LINES: &str =
    "CONTENT-TYPE: text/xml; charset=\"utf-8\"\r\nNT: upnp:event\r\nNTS: upnp:propchange\r\nSID: uuid:00000000-0000-8000-8000-000000000001\r\nSEQ: 4294967295\r\nCONTENT-LENGTH: 4\r\nCONNECTION: close\r\n\r\n<a/>";

/// Checks that a note to an address is written as it has to be.
fn check_note<R: Abort>(rt: &R, alloc: Global, to: &Address, want: &str, case: &NoteCase) {
    let is_delivered = to.is_delivered(alloc).expect(rt, MEMORY);
    assert!(rt; is_delivered, "{}: no note is delivered there", case.name);
    let mut text = Vec::new(alloc);
    write_notify(alloc, to, b"<a/>", &mut text).expect(rt, MEMORY);
    assert!(rt; text.as_slice() == want.as_bytes(), "{}", case.name);
}

/// Checks that the last note to the callback of a case has its first lines and the others.
fn check_note_to<R: Abort>(rt: &R, alloc: Global, case: &NoteCase) {
    let front = case.front;
    let want = format!(in alloc; "{front}{LINES}").expect(rt, MEMORY);
    let to = Address {
        sid: NAME,
        callback: Text::read(alloc, case.callback).expect(rt, MEMORY),
        seq: u32::MAX,
    };
    check_note(rt, alloc, &to, want.as_str(), case);
}

#[test]
fn notes_are_written(rt: HostRuntime) {
    for case in &NOTES {
        check_note_to(&rt, rt.alloc(), case);
    }
}

/// The head of a note, without its last field.
const HEAD: &str =
    "NOTIFY /notes HTTP/1.1\r\nNT: upnp:event\r\nNTS: upnp:propchange\r\nSID: uuid:00000000-0000-8000-8000-000000000001\r\nSEQ: 7\r\n";

/// A head that is refused, and why.
#[derive(Drop)]
struct HeadCase {
    name: &'static str,
    head: &'static str,
    refusal: NoteError,
}

const HEADS: [HeadCase; 17] = [
    HeadCase {
        name: "POST",
        head: "POST /notes HTTP/1.1\r\nNT: upnp:event\r\nNTS: upnp:propchange\r\nSID: uuid:00000000-0000-8000-8000-000000000001\r\nSEQ: 7\r\n",
        refusal: NoteError::Head,
    },
    HeadCase {
        name: "a method in lower case",
        head: "notify /notes HTTP/1.1\r\nNT: upnp:event\r\nNTS: upnp:propchange\r\nSID: uuid:00000000-0000-8000-8000-000000000001\r\nSEQ: 7\r\n",
        refusal: NoteError::Head,
    },
    HeadCase {
        name: "no NT",
        head: "NOTIFY /notes HTTP/1.1\r\nNTS: upnp:propchange\r\nSID: uuid:00000000-0000-8000-8000-000000000001\r\nSEQ: 7\r\n",
        refusal: NoteError::Head,
    },
    HeadCase {
        name: "no NTS, and a wrong NT",
        head: "NOTIFY /notes HTTP/1.1\r\nNT: x\r\nSID: uuid:00000000-0000-8000-8000-000000000001\r\nSEQ: 7\r\n",
        refusal: NoteError::Head,
    },
    HeadCase {
        name: "no SEQ, and a wrong NTS and SID",
        head: "NOTIFY /notes HTTP/1.1\r\nNT: upnp:event\r\nNTS: x\r\nSID: x\r\n",
        refusal: NoteError::Head,
    },
    HeadCase {
        name: "an empty SEQ, and a wrong SID",
        head: "NOTIFY /notes HTTP/1.1\r\nNT: upnp:event\r\nNTS: upnp:propchange\r\nSID: x\r\nSEQ:\r\n",
        refusal: NoteError::Head,
    },
    HeadCase {
        name: "a SEQ with a plus sign",
        head: "NOTIFY /notes HTTP/1.1\r\nNT: upnp:event\r\nNTS: upnp:propchange\r\nSID: uuid:00000000-0000-8000-8000-000000000001\r\nSEQ: +7\r\n",
        refusal: NoteError::Head,
    },
    HeadCase {
        name: "a negative SEQ",
        head: "NOTIFY /notes HTTP/1.1\r\nNT: upnp:event\r\nNTS: upnp:propchange\r\nSID: uuid:00000000-0000-8000-8000-000000000001\r\nSEQ: -7\r\n",
        refusal: NoteError::Head,
    },
    HeadCase {
        name: "a SEQ above the last value of a u32",
        head: "NOTIFY /notes HTTP/1.1\r\nNT: upnp:event\r\nNTS: upnp:propchange\r\nSID: uuid:00000000-0000-8000-8000-000000000001\r\nSEQ: 4294967296\r\n",
        refusal: NoteError::Head,
    },
    HeadCase {
        name: "two SEQs, the first of which is no number",
        head: "NOTIFY /notes HTTP/1.1\r\nNT: upnp:event\r\nNTS: upnp:propchange\r\nSID: uuid:00000000-0000-8000-8000-000000000001\r\nSEQ: x\r\nSEQ: 7\r\n",
        refusal: NoteError::Head,
    },
    HeadCase {
        name: "another NT",
        head: "NOTIFY /notes HTTP/1.1\r\nNT: upnp:Event\r\nNTS: upnp:propchange\r\nSID: uuid:00000000-0000-8000-8000-000000000001\r\nSEQ: 7\r\n",
        refusal: NoteError::Precondition,
    },
    HeadCase {
        name: "an empty NT",
        head: "NOTIFY /notes HTTP/1.1\r\nNT:\r\nNTS: upnp:propchange\r\nSID: uuid:00000000-0000-8000-8000-000000000001\r\nSEQ: 7\r\n",
        refusal: NoteError::Precondition,
    },
    HeadCase {
        name: "another NTS",
        head: "NOTIFY /notes HTTP/1.1\r\nNT: upnp:event\r\nNTS: upnp:event\r\nSID: uuid:00000000-0000-8000-8000-000000000001\r\nSEQ: 7\r\n",
        refusal: NoteError::Precondition,
    },
    HeadCase {
        name: "no SID",
        head: "NOTIFY /notes HTTP/1.1\r\nNT: upnp:event\r\nNTS: upnp:propchange\r\nSEQ: 7\r\n",
        refusal: NoteError::Precondition,
    },
    HeadCase {
        name: "a SID without `uuid:`",
        head: "NOTIFY /notes HTTP/1.1\r\nNT: upnp:event\r\nNTS: upnp:propchange\r\nSID: 00000000-0000-8000-8000-000000000001\r\nSEQ: 7\r\n",
        refusal: NoteError::Precondition,
    },
    HeadCase {
        name: "a SID with `UUID:`",
        head: "NOTIFY /notes HTTP/1.1\r\nNT: upnp:event\r\nNTS: upnp:propchange\r\nSID: UUID:00000000-0000-8000-8000-000000000001\r\nSEQ: 7\r\n",
        refusal: NoteError::Precondition,
    },
    HeadCase {
        name: "a SID with a letter that is no digit",
        head: "NOTIFY /notes HTTP/1.1\r\nNT: upnp:event\r\nNTS: upnp:propchange\r\nSID: uuid:00000000-0000-8000-8000-00000000000g\r\nSEQ: 7\r\n",
        refusal: NoteError::Precondition,
    },
];

/// A body that is refused, or what stands in a set of properties that is refused.
#[derive(Drop)]
struct BodyCase {
    name: &'static str,
    text: &'static str,
}

/// Bodies that are refused.
const BODIES: [BodyCase; 10] = [
    BodyCase {
        name: "nothing",
        text: "",
    },
    BodyCase {
        name: "no markup",
        text: "x",
    },
    BodyCase {
        name: "an element that does not end",
        text: "<e:propertyset xmlns:e=\"urn:schemas-upnp-org:event-1-0\">",
    },
    BodyCase {
        name: "elements without a namespace",
        text: "<propertyset><property><SystemUpdateID>9</SystemUpdateID></property><property><LastChange/></property></propertyset>",
    },
    BodyCase {
        name: "another namespace",
        text: "<e:propertyset xmlns:e=\"urn:schemas-upnp-org:event-1-1\"><e:property><SystemUpdateID>9</SystemUpdateID></e:property><e:property><LastChange/></e:property></e:propertyset>",
    },
    BodyCase {
        name: "a property alone",
        text: "<e:property xmlns:e=\"urn:schemas-upnp-org:event-1-0\"><SystemUpdateID>9</SystemUpdateID><LastChange/></e:property>",
    },
    BodyCase {
        name: "a property without a namespace before one with it",
        text: "<e:propertyset xmlns:e=\"urn:schemas-upnp-org:event-1-0\"><property><SystemUpdateID>9</SystemUpdateID></property><e:property><LastChange/></e:property></e:propertyset>",
    },
    BodyCase {
        name: "values outside of a property",
        text: "<e:propertyset xmlns:e=\"urn:schemas-upnp-org:event-1-0\"><SystemUpdateID>9</SystemUpdateID><LastChange/></e:propertyset>",
    },
    BodyCase {
        name: "values in an element of a property",
        text: "<e:propertyset xmlns:e=\"urn:schemas-upnp-org:event-1-0\"><e:property><a><SystemUpdateID>9</SystemUpdateID><LastChange/></a></e:property></e:propertyset>",
    },
    BodyCase {
        name: "a DOCTYPE",
        text: "<!DOCTYPE a><e:propertyset xmlns:e=\"urn:schemas-upnp-org:event-1-0\"><e:property><SystemUpdateID>9</SystemUpdateID><LastChange/></e:property></e:propertyset>",
    },
];

/// What stands in sets of properties that are refused.
const SETS: [BodyCase; 13] = [
    BodyCase {
        name: "no property",
        text: "",
    },
    BodyCase {
        name: "no number",
        text: "<e:property><LastChange/></e:property>",
    },
    BodyCase {
        name: "no LastChange",
        text: "<e:property><SystemUpdateID>9</SystemUpdateID></e:property>",
    },
    BodyCase {
        name: "two numbers in one property",
        text: "<e:property><SystemUpdateID>9</SystemUpdateID><SystemUpdateID>9</SystemUpdateID><LastChange/></e:property>",
    },
    BodyCase {
        name: "two numbers in two properties",
        text: "<e:property><SystemUpdateID>9</SystemUpdateID></e:property><e:property><SystemUpdateID>9</SystemUpdateID><LastChange/></e:property>",
    },
    BodyCase {
        name: "two LastChanges in one property",
        text: "<e:property><SystemUpdateID>9</SystemUpdateID><LastChange/><LastChange/></e:property>",
    },
    BodyCase {
        name: "two LastChanges in two properties",
        text: "<e:property><SystemUpdateID>9</SystemUpdateID><LastChange/></e:property><e:property><LastChange/></e:property>",
    },
    BodyCase {
        name: "an empty number",
        text: "<e:property><SystemUpdateID/><LastChange/></e:property>",
    },
    BodyCase {
        name: "a number with a blank",
        text: "<e:property><SystemUpdateID> 9</SystemUpdateID><LastChange/></e:property>",
    },
    BodyCase {
        name: "a negative number",
        text: "<e:property><SystemUpdateID>-9</SystemUpdateID><LastChange/></e:property>",
    },
    BodyCase {
        name: "a number above the last value of a u32",
        text: "<e:property><SystemUpdateID>4294967296</SystemUpdateID><LastChange/></e:property>",
    },
    BodyCase {
        name: "a LastChange that is no markup",
        text: "<e:property><SystemUpdateID>9</SystemUpdateID><LastChange>x</LastChange></e:property>",
    },
    BodyCase {
        name: "a StateEvent without a namespace",
        text: "<e:property><SystemUpdateID>9</SystemUpdateID><LastChange>&lt;StateEvent/&gt;</LastChange></e:property>",
    },
];

/// Reads the message of a head without its last field, and a body. The last field is the length of the body.
fn note_message<R: Abort>(rt: &R, alloc: Global, head: &str, body: &str) -> Message {
    let length = body.len();
    let text = format!(in alloc; "{head}CONTENT-LENGTH: {length}\r\n\r\n{body}");
    let text = text.expect(rt, MEMORY);
    message(rt, alloc, Side::Request, text.as_bytes())
}

/// Returns whether a note with this head and this body is refused for this.
fn is_refused<R: Abort>(rt: &R, alloc: Global, head: &str, body: &str, refusal: NoteError) -> bool {
    let message = note_message(rt, alloc, head, body);
    read_notify(alloc, &message).err() == Some(refusal)
}

/// Returns whether a note with this set of properties is refused for its body.
fn is_refused_set<R: Abort>(rt: &R, alloc: Global, inside: &str) -> bool {
    let body = set_of(rt, alloc, inside);
    is_refused(rt, alloc, HEAD, body.as_str(), NoteError::Body)
}

#[test]
fn notes_are_refused(rt: HostRuntime) {
    let alloc = rt.alloc();
    for case in &HEADS {
        assert!(rt;
            is_refused(&rt, alloc, case.head, "x", case.refusal),
            "head: {}",
            case.name
        );
    }
    for case in &BODIES {
        assert!(rt;
            is_refused(&rt, alloc, HEAD, case.text, NoteError::Body),
            "body: {}",
            case.name
        );
    }
    for case in &SETS {
        assert!(rt; is_refused_set(&rt, alloc, case.text), "set: {}", case.name);
    }
}

/// A body that is read, its number and its events.
#[derive(Drop)]
struct ReadCase {
    name: &'static str,
    body: &'static str,
    number: u32,
    events: &'static [Event],
}

const READ: [ReadCase; 4] = [
    ReadCase {
        name: "a default namespace, and a number with zeros before it",
        body: "<propertyset xmlns=\"urn:schemas-upnp-org:event-1-0\"><property><LastChange/><SystemUpdateID>0009</SystemUpdateID></property></propertyset>",
        number: 9,
        events: &[],
    },
    ReadCase {
        name: "blanks, a comment and values of other names",
        body: "<e:propertyset xmlns:e=\"urn:schemas-upnp-org:event-1-0\">\n <e:property><TransferIDs>x</TransferIDs></e:property>\n <e:property><LastChange> \n</LastChange><Other/><!-- a --></e:property><e:property/><SystemUpdateID>x</SystemUpdateID>\n <e:property>a<v:SystemUpdateID xmlns:v=\"v\">429496<![CDATA[7295]]></v:SystemUpdateID></e:property></e:propertyset>",
        number: 4_294_967_295,
        events: &[],
    },
    ReadCase {
        name: "an element in a number, and a LastChange as CDATA",
        body: "<e:propertyset xmlns:e=\"urn:schemas-upnp-org:event-1-0\"><e:property><SystemUpdateID>1<a>2</a>3</SystemUpdateID></e:property><e:property><LastChange><![CDATA[<StateEvent xmlns=\"urn:schemas-upnp-org:av:cds-event\"><stDone objID=\"1\" updateID=\"2\"/></StateEvent>]]></LastChange></e:property></e:propertyset>",
        number: 13,
        events: &[Event::StDone { id: 1, update: 2 }],
    },
    ReadCase {
        name: "what a server writes of one change",
        body: "<?xml version=\"1.0\"?><e:propertyset xmlns:e=\"urn:schemas-upnp-org:event-1-0\"><e:property><SystemUpdateID>9</SystemUpdateID></e:property><e:property><ContainerUpdateIDs>0,9,3,8</ContainerUpdateIDs></e:property><e:property><LastChange>&lt;StateEvent xmlns=&quot;urn:schemas-upnp-org:av:cds-event&quot;&gt;&lt;objDel objID=&quot;7&quot; updateID=&quot;9&quot; stUpdate=&quot;0&quot;/&gt;&lt;/StateEvent&gt;</LastChange></e:property></e:propertyset>",
        number: 9,
        events: &[DELETED],
    },
];

/// Checks that a note has `NAME`, SEQ 7, and the number and the events of a case.
fn check_content<R: Abort>(rt: &R, note: &Note, case: &ReadCase) {
    assert!(rt; note.sid == NAME, "{}: the SID", case.name);
    assert!(rt; note.seq == 7, "{}: the SEQ", case.name);
    assert!(rt; note.number == case.number, "{}: the number", case.name);
    assert!(rt;
        note.events.as_slice() == case.events,
        "{}: the events",
        case.name
    );
}

/// Checks that a note with the body of a case is read.
fn check_read<R: Abort>(rt: &R, alloc: Global, case: &ReadCase) {
    let message = note_message(rt, alloc, HEAD, case.body);
    let note = read_notify(alloc, &message).expect(rt, case.name);
    check_content(rt, &note, case);
}

#[test]
fn notes_are_read(rt: HostRuntime) {
    for case in &READ {
        check_read(&rt, rt.alloc(), case);
    }
}
