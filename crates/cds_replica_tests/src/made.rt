//! Streams in memory, and a reply, as the tests take them.

use cds_base::{Bytes, Numbers};
use cds_memory::{MemSink, MemSource};
use std::alloc::Global;
use std::process::Abort;

/// What a test says if memory runs out.
pub const MEMORY: &str = "out of memory";

/// Returns the numbers of the calls that are to fail, counted from 1.
pub fn calls<R: Abort>(rt: &R, alloc: Global, numbers: &[u32]) -> Numbers {
    Numbers::from(Vec::from_slice(alloc, numbers).expect(rt, MEMORY))
}

/// Makes a source of a text, of which these reads fail.
pub fn source<R: Abort>(rt: &R, alloc: Global, text: &[u8], reads: &[u32]) -> MemSource {
    let bytes = Vec::from_slice(alloc, text).expect(rt, MEMORY);
    MemSource::new(Bytes::from(bytes), calls(rt, alloc, reads))
}

/// How many bytes a sink takes.
const ROOM: usize = 1 << 20;

/// Makes a sink that holds nothing yet, of which these writes fail.
pub fn sink<R: Abort>(rt: &R, alloc: Global, writes: &[u32]) -> MemSink {
    let fails = calls(rt, alloc, writes);
    MemSink::new(Bytes::new(alloc), ROOM, fails).expect(rt, MEMORY)
}

/// The page of one track, as the server of a script replies it, to the byte. The title is escaped as text of the row,
/// and that text is escaped once more.
pub const PAGE: &str =
    "HTTP/1.1 200 OK\r\nEXT:\r\nSERVER: unix/1.0 UPnP/2.0 cds/1.0\r\nCONTENT-TYPE: text/xml; charset=\"utf-8\"\r\nCONTENT-LENGTH: 1071\r\nCONNECTION: close\r\n\r\n\
    <?xml version=\"1.0\"?><s:Envelope xmlns:s=\"http://schemas.xmlsoap.org/soap/envelope/\" s:encodingStyle=\"http://schemas.xmlsoap.org/soap/encoding/\"><s:Body><u:BrowseResponse xmlns:u=\"urn:schemas-upnp-org:service:ContentDirectory:4\"><Result>&lt;DIDL-Lite xmlns=&quot;urn:schemas-upnp-org:metadata-1-0/DIDL-Lite/&quot; xmlns:dc=&quot;http://purl.org/dc/elements/1.1/&quot; xmlns:upnp=&quot;urn:schemas-upnp-org:metadata-1-0/upnp/&quot;&gt;&lt;item id=&quot;1&quot; parentID=&quot;0&quot; restricted=&quot;1&quot;&gt;&lt;dc:title&gt;A &amp;amp; &amp;quot;B&amp;quot; &amp;lt;C&amp;gt;�&lt;/dc:title&gt;&lt;upnp:class&gt;object.item.audioItem.musicTrack&lt;/upnp:class&gt;&lt;upnp:objectUpdateID&gt;1&lt;/upnp:objectUpdateID&gt;&lt;res protocolInfo=&quot;http-get:*:audio/flac:*&quot; size=&quot;10&quot; bitsPerSample=&quot;16&quot; nrAudioChannels=&quot;2&quot;&gt;http://127.0.0.1:49152/media/1&lt;/res&gt;&lt;/item&gt;&lt;/DIDL-Lite&gt;</Result><NumberReturned>1</NumberReturned><TotalMatches>1</TotalMatches><UpdateID>1</UpdateID></u:BrowseResponse></s:Body></s:Envelope>";
