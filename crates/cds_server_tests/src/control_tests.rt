//! Tests of control requests, as bytes, to a server after a few scans, and over the store alone.

use crate::made::{MEMORY, records_of};
use cds_control::reply;
use cds_http::{Message, MessageReader, Side};
use cds_server::Server;
use cds_store::{Keeping, Store};
use std::alloc::Global;
use std::process::Abort;

/// A control request after scans: the words of each scan's records, the action, its arguments as they stand in the body, and a
/// text that the reply has in it.
#[derive(Drop)]
struct ControlCase {
    name: &'static str,
    scans: &'static [&'static str],
    action: &'static str,
    arguments: &'static str,
    reply: &'static str,
}

/// A folder with a track.
const ROCK: &[&str] = &["Rock/ Rock/a.flac=1000"];

/// The reset token of a server whose names begin at 0.
const TOKEN: &str = "00000000-0000-8000-8000-000000000000";

/// Two tracks, and then a folder in the place of the first.
const TURNED: &[&str] = &["x.flac y.flac", "x.flac/ y.flac"];

const CASES: [ControlCase; 18] = [
    ControlCase {
        name: "children from a place after the last",
        scans: ROCK,
        action: "Browse",
        arguments: "<ObjectID>0</ObjectID><BrowseFlag>BrowseDirectChildren</BrowseFlag><Filter></Filter><StartingIndex>5</StartingIndex><RequestedCount>0</RequestedCount><SortCriteria></SortCriteria>",
        reply: "upnp/&quot;&gt;&lt;/DIDL-Lite&gt;</Result><NumberReturned>0</NumberReturned><TotalMatches>1</TotalMatches><UpdateID>2</UpdateID>",
    },
    ControlCase {
        name: "as many children as there are",
        scans: ROCK,
        action: "Browse",
        arguments: "<ObjectID>0</ObjectID><BrowseFlag>BrowseDirectChildren</BrowseFlag><Filter></Filter><StartingIndex>0</StartingIndex><RequestedCount>0</RequestedCount><SortCriteria></SortCriteria>",
        reply: "upnp/&quot;&gt;&lt;container id=&quot;1&quot; parentID=&quot;0&quot; restricted=&quot;1&quot;&gt;&lt;dc:title&gt;Rock&lt;/dc:title&gt;&lt;upnp:class&gt;object.container&lt;/upnp:class&gt;&lt;/container&gt;&lt;/DIDL-Lite&gt;</Result><NumberReturned>1</NumberReturned><TotalMatches>1</TotalMatches><UpdateID>2</UpdateID>",
    },
    ControlCase {
        name: "another flag",
        scans: ROCK,
        action: "Browse",
        arguments: "<ObjectID>0</ObjectID><BrowseFlag>Browse</BrowseFlag><Filter></Filter><StartingIndex>0</StartingIndex><RequestedCount>0</RequestedCount><SortCriteria></SortCriteria>",
        reply: "<errorCode>402</errorCode>",
    },
    ControlCase {
        name: "an id that is no number",
        scans: ROCK,
        action: "Browse",
        arguments: "<ObjectID>x</ObjectID><BrowseFlag>BrowseDirectChildren</BrowseFlag><Filter></Filter><StartingIndex>0</StartingIndex><RequestedCount>0</RequestedCount><SortCriteria></SortCriteria>",
        reply: "<errorCode>701</errorCode>",
    },
    ControlCase {
        name: "children of a track",
        scans: ROCK,
        action: "Browse",
        arguments: "<ObjectID>2</ObjectID><BrowseFlag>BrowseDirectChildren</BrowseFlag><Filter></Filter><StartingIndex>0</StartingIndex><RequestedCount>0</RequestedCount><SortCriteria></SortCriteria>",
        reply: "<errorCode>710</errorCode>",
    },
    ControlCase {
        name: "a sort key without its sign",
        scans: ROCK,
        action: "Browse",
        arguments: "<ObjectID>0</ObjectID><BrowseFlag>BrowseDirectChildren</BrowseFlag><Filter></Filter><StartingIndex>0</StartingIndex><RequestedCount>0</RequestedCount><SortCriteria>dc:title</SortCriteria>",
        reply: "<errorCode>709</errorCode>",
    },
    ControlCase {
        name: "a search in no object",
        scans: ROCK,
        action: "Search",
        arguments: "<ContainerID>9</ContainerID><SearchCriteria>*</SearchCriteria><Filter></Filter><StartingIndex>0</StartingIndex><RequestedCount>0</RequestedCount><SortCriteria></SortCriteria>",
        reply: "<errorCode>710</errorCode>",
    },
    ControlCase {
        name: "a search in a track",
        scans: ROCK,
        action: "Search",
        arguments: "<ContainerID>2</ContainerID><SearchCriteria>*</SearchCriteria><Filter></Filter><StartingIndex>0</StartingIndex><RequestedCount>0</RequestedCount><SortCriteria></SortCriteria>",
        reply: "<errorCode>710</errorCode>",
    },
    ControlCase {
        name: "a value without quotes",
        scans: ROCK,
        action: "Search",
        arguments: "<ContainerID>0</ContainerID><SearchCriteria>dc:title = Rock</SearchCriteria><Filter></Filter><StartingIndex>0</StartingIndex><RequestedCount>0</RequestedCount><SortCriteria></SortCriteria>",
        reply: "<errorCode>708</errorCode>",
    },
    ControlCase {
        name: "criteria before sort keys",
        scans: ROCK,
        action: "Search",
        arguments: "<ContainerID>0</ContainerID><SearchCriteria>dc:title = Rock</SearchCriteria><Filter></Filter><StartingIndex>0</StartingIndex><RequestedCount>0</RequestedCount><SortCriteria>dc:title</SortCriteria>",
        reply: "<errorCode>708</errorCode>",
    },
    ControlCase {
        name: "a search with a sort key without its sign",
        scans: ROCK,
        action: "Search",
        arguments: "<ContainerID>0</ContainerID><SearchCriteria>*</SearchCriteria><Filter></Filter><StartingIndex>0</StartingIndex><RequestedCount>0</RequestedCount><SortCriteria>dc:title</SortCriteria>",
        reply: "<errorCode>709</errorCode>",
    },
    ControlCase {
        name: "a track by a part of its title",
        scans: ROCK,
        action: "Search",
        arguments: "<ContainerID>0</ContainerID><SearchCriteria>upnp:class derivedfrom \"object.item\" and dc:title contains \"A\"</SearchCriteria><Filter></Filter><StartingIndex>0</StartingIndex><RequestedCount>0</RequestedCount><SortCriteria></SortCriteria>",
        reply: "upnp/&quot;&gt;&lt;item id=&quot;2&quot; parentID=&quot;1&quot; restricted=&quot;1&quot;&gt;&lt;dc:title&gt;Rock/a&lt;/dc:title&gt;&lt;upnp:class&gt;object.item.audioItem.musicTrack&lt;/upnp:class&gt;&lt;/item&gt;&lt;/DIDL-Lite&gt;</Result><NumberReturned>1</NumberReturned><TotalMatches>1</TotalMatches><UpdateID>2</UpdateID>",
    },
    ControlCase {
        name: "all that lies below the root",
        scans: ROCK,
        action: "Search",
        arguments: "<ContainerID>0</ContainerID><SearchCriteria>*</SearchCriteria><Filter></Filter><StartingIndex>0</StartingIndex><RequestedCount>0</RequestedCount><SortCriteria></SortCriteria>",
        reply: "upnp/&quot;&gt;&lt;container id=&quot;1&quot; parentID=&quot;0&quot; restricted=&quot;1&quot;&gt;&lt;dc:title&gt;Rock&lt;/dc:title&gt;&lt;upnp:class&gt;object.container&lt;/upnp:class&gt;&lt;/container&gt;&lt;item id=&quot;2&quot; parentID=&quot;1&quot; restricted=&quot;1&quot;&gt;&lt;dc:title&gt;Rock/a&lt;/dc:title&gt;&lt;upnp:class&gt;object.item.audioItem.musicTrack&lt;/upnp:class&gt;&lt;/item&gt;&lt;/DIDL-Lite&gt;</Result><NumberReturned>2</NumberReturned><TotalMatches>2</TotalMatches><UpdateID>2</UpdateID>",
    },
    ControlCase {
        name: "descending titles",
        scans: TURNED,
        action: "Browse",
        arguments: "<ObjectID>0</ObjectID><BrowseFlag>BrowseDirectChildren</BrowseFlag><Filter></Filter><StartingIndex>0</StartingIndex><RequestedCount>0</RequestedCount><SortCriteria>-dc:title</SortCriteria>",
        reply: "upnp/&quot;&gt;&lt;item id=&quot;2&quot; parentID=&quot;0&quot; restricted=&quot;1&quot;&gt;&lt;dc:title&gt;y&lt;/dc:title&gt;&lt;upnp:class&gt;object.item.audioItem.musicTrack&lt;/upnp:class&gt;&lt;/item&gt;&lt;container id=&quot;3&quot; parentID=&quot;0&quot; restricted=&quot;1&quot;&gt;&lt;dc:title&gt;x.flac&lt;/dc:title&gt;&lt;upnp:class&gt;object.container&lt;/upnp:class&gt;&lt;/container&gt;&lt;/DIDL-Lite&gt;</Result><NumberReturned>2</NumberReturned><TotalMatches>2</TotalMatches><UpdateID>4</UpdateID>",
    },
    ControlCase {
        name: "ascending titles",
        scans: TURNED,
        action: "Browse",
        arguments: "<ObjectID>0</ObjectID><BrowseFlag>BrowseDirectChildren</BrowseFlag><Filter></Filter><StartingIndex>0</StartingIndex><RequestedCount>0</RequestedCount><SortCriteria>+dc:title</SortCriteria>",
        reply: "upnp/&quot;&gt;&lt;container id=&quot;3&quot; parentID=&quot;0&quot; restricted=&quot;1&quot;&gt;&lt;dc:title&gt;x.flac&lt;/dc:title&gt;&lt;upnp:class&gt;object.container&lt;/upnp:class&gt;&lt;/container&gt;&lt;item id=&quot;2&quot; parentID=&quot;0&quot; restricted=&quot;1&quot;&gt;&lt;dc:title&gt;y&lt;/dc:title&gt;&lt;upnp:class&gt;object.item.audioItem.musicTrack&lt;/upnp:class&gt;&lt;/item&gt;&lt;/DIDL-Lite&gt;</Result><NumberReturned>2</NumberReturned><TotalMatches>2</TotalMatches><UpdateID>4</UpdateID>",
    },
    ControlCase {
        name: "what can be searched for",
        scans: ROCK,
        action: "GetSearchCapabilities",
        arguments: "",
        reply: "<SearchCaps>@id,@parentID,dc:title,upnp:class,upnp:artist,upnp:album,upnp:genre,upnp:originalTrackNumber,upnp:objectUpdateID,upnp:containerUpdateID,res@size,res@duration</SearchCaps>",
    },
    ControlCase {
        name: "the reset token",
        scans: ROCK,
        action: "GetServiceResetToken",
        arguments: "",
        reply: "<ResetToken>00000000-0000-8000-8000-000000000000</ResetToken>",
    },
    ControlCase {
        name: "what can be sorted by",
        scans: ROCK,
        action: "GetSortCapabilities",
        arguments: "",
        reply: "<SortCaps>dc:title,upnp:artist,upnp:album,upnp:genre,upnp:originalTrackNumber,upnp:objectUpdateID</SortCaps>",
    },
];

/// Appends texts. The test ends if memory runs out.
fn put_all<R: Abort>(rt: &R, out: &mut String, texts: &[&str]) {
    for text in texts {
        out.push_str(text).expect(rt, MEMORY);
    }
}

/// Returns the bytes of a request for an action with these arguments.
fn request_of<R: Abort>(rt: &R, alloc: Global, action: &str, arguments: &str) -> String {
    let mut body = String::new(alloc);
    put_all(
        rt,
        &mut body,
        &[
            "<s:Envelope xmlns:s=\"http://schemas.xmlsoap.org/soap/envelope/\"><s:Body><u:",
            action,
            " xmlns:u=\"urn:schemas-upnp-org:service:ContentDirectory:4\">",
            arguments,
            "</u:",
            action,
            "></s:Body></s:Envelope>",
        ],
    );
    let length = body.len().to_string(alloc).expect(rt, MEMORY);
    let mut request = String::new(alloc);
    put_all(
        rt,
        &mut request,
        &[
            "POST /control HTTP/1.1\r\nHOST: h\r\nSOAPACTION: \"urn:schemas-upnp-org:service:ContentDirectory:4#",
            action,
            "\"\r\nCONTENT-LENGTH: ",
            length.as_str(),
            "\r\n\r\n",
            body.as_str(),
        ],
    );
    request
}

/// Reads the message of these bytes.
fn message_of<R: Abort>(rt: &R, alloc: Global, bytes: &[u8]) -> Message {
    let mut reader = MessageReader::new(alloc, Side::Request).expect(rt, MEMORY);
    let _ = reader.feed(alloc, bytes).expect(rt, "a message");
    reader.finish().expect(rt, "a whole message")
}

/// Makes a server after these scans.
fn server_after<R: Abort>(rt: &R, alloc: Global, scans: &[&str]) -> Server {
    let mut server = Server::new(alloc, [0, 0], 0).expect(rt, MEMORY);
    for words in scans {
        let records = records_of(rt, alloc, words);
        server
            .accept_records(alloc, 0, &records)
            .expect(rt, "a scan");
    }
    server
}

/// Makes a store after these scans.
fn store_after<R: Abort>(rt: &R, alloc: Global, scans: &[&str]) -> Store {
    let mut store = Store::new(alloc, 0).expect(rt, MEMORY);
    for words in scans {
        let records = records_of(rt, alloc, words);
        store.apply(alloc, &records).expect(rt, "a scan");
    }
    store
}

/// Returns whether the reply of a server to the request of a case has its text in it, and is that over the store alone.
fn is_answered<R: Abort>(rt: &R, alloc: Global, case: &ControlCase) -> bool {
    let mut server = server_after(rt, alloc, case.scans);
    let store = store_after(rt, alloc, case.scans);
    let request = request_of(rt, alloc, case.action, case.arguments);
    let message = message_of(rt, alloc, request.as_bytes());
    let mut replied = Vec::new(alloc);
    let note = server
        .handle(alloc, 0, &message, &mut replied)
        .expect(rt, MEMORY);
    let shown = reply(alloc, &store, TOKEN, "h", &message).expect(rt, MEMORY);
    match std::str::from_utf8(replied.as_slice()) {
        Ok(text) => {
            note.is_none() && text.contains(case.reply) && shown.as_slice() == replied.as_slice()
        }
        Err(_) => false,
    }
}

#[test]
fn control_requests_are_answered(rt: HostRuntime) {
    for case in &CASES {
        let right = is_answered(&rt, rt.alloc(), case);
        assert!(rt; right, "{}", case.name);
    }
}
