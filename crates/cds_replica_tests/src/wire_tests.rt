//! Tests of replays over wires that change replies.
ghost use Rattle.std.specs.Prelude.{◌≡◌, cond, nat_eq};

use crate::made::{PAGE, sink, source};
use cds_memory::MemSink;
use cds_replay::{ReplayError, Wire, replay_by};
use std::alloc::Global;
use std::process::Abort;

/// A wire that writes one byte for each of another.
#[derive(Drop)]
struct Writes {
    old: u8,
    new: u8,
}

impl Wire for Writes {
    ghost use Rattle.std.specs.Prelude.{map, cond, nat_eq};

    ghost carried = { λ wire bytes. map (λ byte. cond (nat_eq byte wire.old) wire.new byte) bytes };

    fn carry(&self, reply: &mut [u8]) {
        for byte in reply.iter_mut() {
            *byte = written(self.old, self.new, *byte);
        }
    }
}

/// Returns what is written for a byte if `new` is written for each `old`.
fn written(old: u8, new: u8, byte: u8) -> u8
    ensures { result ≡ cond (nat_eq byte old) new byte }
{
    if byte == old { new } else { byte }
}

const ONE_TRACK: &str =
    "track Z.flac 10 0 2 16 0\nscan\nload\nread\nread\nread\nread\nread\nread\nask\n";

const SHOWN: &str =
    "scan 1\nread ok\nread ok\nread ok\nread ok\nread ok\nread ok\nstands 1\n<container id=\"0\" parentID=\"-1\" restricted=\"1\" searchable=\"1\" childCount=\"1\"><dc:title>root</dc:title><upnp:class>object.container</upnp:class><upnp:objectUpdateID>0</upnp:objectUpdateID><upnp:containerUpdateID>1</upnp:containerUpdateID><upnp:totalDeletedChildCount>0</upnp:totalDeletedChildCount></container>\n<item id=\"1\" parentID=\"0\" restricted=\"1\"><dc:title>Y</dc:title><upnp:class>object.item.audioItem.musicTrack</upnp:class><upnp:objectUpdateID>1</upnp:objectUpdateID><res protocolInfo=\"http-get:*:audio/flac:*\" size=\"10\" bitsPerSample=\"16\" nrAudioChannels=\"2\">/media/1</res></item>\n";

/// Returns what a script over a wire is answered.
fn answer_of<R: Abort, W: Wire>(
    rt: &R,
    alloc: Global,
    script: &str,
    wire: &W,
    sink: &mut MemSink,
) -> Result<(), ReplayError> {
    let mut source = source(rt, alloc, script.as_bytes(), &[]);
    replay_by(alloc, &mut source, sink, wire)
}

/// Checks what a script over a wire is answered, and its report.
fn check_replay<R: Abort, W: Wire>(
    rt: &R,
    alloc: Global,
    script: &str,
    wire: &W,
    want: Result<(), ReplayError>,
    report: &str,
) {
    let mut sink = sink(rt, alloc, &[]);
    let answer = answer_of(rt, alloc, script, wire, &mut sink);
    assert!(rt; answer == want, "the answer");
    assert!(rt; sink.as_slice() == report.as_bytes(), "the report");
}

/// The replica's rows are those that the wire left. The wire writes another title than the server's.
#[test]
fn rows_are_what_the_wire_left(rt: HostRuntime) {
    let wire = Writes {
        old: b'Z',
        new: b'Y',
    };
    check_replay(&rt, rt.alloc(), ONE_TRACK, &wire, Ok(()), SHOWN);
}

/// A wire that makes the first byte of a reply zero if the reply is exactly this one.
#[derive(Drop)]
struct Spoils<'a> {
    reply: &'a [u8],
}

impl Wire for Spoils<'_> {
    ghost use Rattle.std.specs.Prelude.{cond, slice_set};
    ghost use Rattle.std.specs.Str.{bytes_eq};

    ghost carried = { λ wire bytes. cond (bytes_eq bytes wire.reply.now) (slice_set bytes 0 0) bytes };

    fn carry(&self, reply: &mut [u8]) {
        if *reply == *self.reply && 0 < reply.len() {
            reply[0] = 0;
        }
    }
}

const TAGGED: &str =
    "track s.flac 10 0 2 16 0\ntag TITLE A%20&%20\"B\"%20<C>%01\nscan\nload\nread\nread\nread\nread\nread\nread\nask\n";

/// A script ends at the fifth reply, which is exactly the page and which a wire spoils. The wire leaves all others.
#[test]
fn the_page_of_a_tagged_track(rt: HostRuntime) {
    let wire = Spoils {
        reply: PAGE.as_bytes(),
    };
    let answer = Err(ReplayError::Refused { line: 9 });
    let shown = "scan 1\nread ok\nread ok\nread ok\nread ok\n";
    check_replay(&rt, rt.alloc(), TAGGED, &wire, answer, shown);
}
