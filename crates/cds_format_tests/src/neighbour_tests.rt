//! Tests of the objects of the system beside bad neighbours: a folder with what is not listed, or that is missing, a client that
//! sends too little, and subscribers that never answer, or answer and stay open.

use crate::made::{MEMORY, answer};
use cds_outside::{Door, Entry, Folder, Job, Link, LinkFault, Outside, OutsideFault, Spawner};
use cds_system::{RealDoor, RealLink, RealOutside, RealSpawner};
use std::alloc::Global;
use std::fs;
use std::io::Write;
use std::marker::Send;
use std::net::{IpAddr, Ipv4Addr, Net, OpenListener, SocketAddr, TcpListener, TcpStream};
use std::process::Abort;
use std::rt::Files;
use std::sync::Wait;
use std::test::Fail;
use std::thread::Threads;
use std::time::{Clock, Duration};

/// The files of a folder that are not listed, and one that is.
const FILES: [&str; 6] = [
    "a.flac",
    "a.jpg",
    "flac",
    "._a.flac",
    ".hidden/b.flac",
    "a.flac.txt",
];

/// Makes a file at a path below a root, which has no bytes.
fn make_file<R: Files + Abort>(rt: &R, alloc: Global, root: &str, path: &str) {
    let place = format!(in alloc; "{root}/{path}").expect(rt, MEMORY);
    fs::write(rt, place.as_str(), b"").expect(rt, "no file is made");
}

/// Makes a folder with these files.
fn make_files<R: Files + Abort>(rt: &R, alloc: Global, root: &str) {
    let hidden = format!(in alloc; "{root}/.hidden").expect(rt, MEMORY);
    fs::create_dir_all(rt, hidden.as_str()).expect(rt, "no folder is made");
    for path in &FILES {
        make_file(rt, alloc, root, path);
    }
}

/// Returns whether the entry is the file at this path.
fn is_file(entry: &Entry, at: &str) -> bool {
    match entry {
        Entry::File { path, .. } => path.as_str() == at,
        _ => false,
    }
}

/// Returns whether a folder gives this file, and then its end.
fn gives_one<F: Folder>(alloc: Global, folder: &mut F, path: &str) -> bool {
    match folder.entry(alloc) {
        Ok(entry) => is_file(&entry, path) && matches!(folder.entry(alloc), Ok(Entry::End)),
        Err(_) => false,
    }
}

/// Returns whether the folder at a path gives this file alone.
fn lists_one<O: Outside>(alloc: Global, outside: &mut O, root: &str, path: &str) -> bool {
    match outside.folder(alloc, root) {
        Ok(mut folder) => gives_one(alloc, &mut folder, path),
        Err(_) => false,
    }
}

/// Returns whether the outside has no folder at a path.
fn has_none<O: Outside>(alloc: Global, outside: &mut O, path: &str) -> bool {
    match outside.folder(alloc, path) {
        Ok(_) => false,
        Err(fault) => fault == OutsideFault::Failed,
    }
}

#[test]
fn what_is_not_listed_is_passed_over(rt: HostRuntime) -> Result<(), Fail> {
    let alloc = rt.alloc();
    let port = RealDoor::open(rt, alloc, 0).expect(&rt, "no door").port();
    let port = port.expect(&rt, "no port");
    let root = format!(in alloc; "/tmp/cds-neighbours-{port}").expect(&rt, MEMORY);
    let file = format!(in alloc; "{root}/a.flac").expect(&rt, MEMORY);
    make_files(&rt, alloc, root.as_str());
    let mut outside = RealOutside::new(rt);
    assert!(rt;
        lists_one(alloc, &mut outside, root.as_str(), "a.flac"),
        "the files of a folder"
    );
    assert!(rt;
        has_none(alloc, &mut outside, file.as_str()),
        "a file for a folder"
    );
    rt.remove_dir_all(alloc, root.as_str())?;
    assert!(rt;
        has_none(alloc, &mut outside, root.as_str()),
        "a folder that is gone"
    );
    assert!(rt; has_none(alloc, &mut outside, ""), "no path");
    Ok(())
}

/// A request, and a note.
const REQUEST: &[u8] = b"GET / HTTP/1.1\n\n";

const NOTE: &[u8] = b"NOTIFY / HTTP/1.1\r\nSEQ: 1\r\nCONTENT-LENGTH: 0\r\n\r\n";

/// The address of this machine at a port.
fn here(port: u16) -> SocketAddr {
    SocketAddr::new(IpAddr::V4(Ipv4Addr::new(127, 0, 0, 1)), port)
}

/// Connects a client to a port, and sends this text.
fn client<R: Net + Abort>(rt: &R, port: u16, text: &[u8]) -> R::Stream {
    let mut stream = TcpStream::connect(rt, here(port)).expect(rt, "no client");
    stream.write_all(text).expect(rt, "nothing is sent");
    stream
}

/// Returns how many bytes are read at first of the next connection of a door.
fn read_next<R: Abort, D: Door>(rt: &R, door: &mut D) -> usize {
    let mut conn = door.accept().expect(rt, "no connection");
    answer(&mut conn, b"ok").expect(rt, "no bytes").0
}

#[test]
fn half_a_message_keeps_nobody_waiting(rt: HostRuntime) {
    let mut door = RealDoor::open(rt, rt.alloc(), 0).expect(&rt, "no door");
    let port = door.port().expect(&rt, "no port");
    let mut slow = client(&rt, port, b"POST / HTTP/1.1\nCONTENT-LENGTH: 9\n\n1234");
    let whole = client(&rt, port, REQUEST);
    assert!(rt;
        read_next(&rt, &mut door) == 16,
        "a whole message beside half of one"
    );
    slow.write_all(b"56789").expect(&rt, "nothing more is sent");
    assert!(rt;
        read_next(&rt, &mut door) == 16,
        "half of a message, once it is whole"
    );
    drop(whole);
}

/// Returns how long the reply of an exchange is, or its fault.
fn length_of(reply: Result<Vec<u8>, LinkFault>) -> Result<usize, LinkFault> {
    match reply {
        Ok(reply) => Ok(reply.len()),
        Err(fault) => Err(fault),
    }
}

/// Returns whether an exchange fails, and in how much time.
fn fails_in<R: Clock + Abort, L: Link>(
    rt: &R,
    alloc: Global,
    link: &mut L,
    url: &str,
) -> (bool, Duration) {
    let begun = rt.monotonic().expect(rt, "no time");
    let failed = length_of(link.exchange(alloc, url, NOTE, 100)) == Err(LinkFault::Failed);
    let ended = rt.monotonic().expect(rt, "no time");
    (failed, ended.saturating_sub(begun))
}

/// Returns the address of a port.
fn url_of<R: Abort>(rt: &R, alloc: Global, port: u16) -> String {
    format!(in alloc; "http://127.0.0.1:{port}/").expect(rt, MEMORY)
}

/// Returns the address of a listener.
fn url_at<R: Abort, L: OpenListener>(rt: &R, alloc: Global, listener: &L) -> String {
    let address = listener.local_addr().expect(rt, "no address");
    url_of(rt, alloc, address.port())
}

#[test]
fn who_never_answers_is_left_alone(rt: HostRuntime) {
    let alloc = rt.alloc();
    let listener = TcpListener::bind(&rt, here(0)).expect(&rt, "no listener");
    let url = url_at(&rt, alloc, &listener);
    let mut link = RealLink::new(rt);
    let (first, slow) = fails_in(&rt, alloc, &mut link, url.as_str());
    let (second, quick) = fails_in(&rt, alloc, &mut link, url.as_str());
    assert!(rt; first && second, "an exchange without an answer");
    assert!(rt; slow >= Duration::from_secs(1), "the first one waits");
    assert!(rt; quick < Duration::from_secs(1), "the second one does not");
    drop(listener);
}

/// A reply that is whole although the connection stays open.
const REPLY: &[u8] = b"HTTP/1.1 200 OK\r\nCONTENT-LENGTH: 2\r\n\r\nok";

/// Returns the next connection of a door, after it was answered.
fn answer_open<D: Door>(door: &mut D) -> Option<D::Conn> {
    let mut conn = door.accept().ok()?;
    answer(&mut conn, REPLY).ok()?;
    Some(conn)
}

/// Answers two connections of its door, and closes neither before both were answered.
#[derive(Drop)]
struct StaysOpen<R: Wait + Clock + Clone + Drop> {
    door: RealDoor<R>,
}

impl<R: Wait + Clock + Clone + Drop + Send + 'static> Job for StaysOpen<R> {
    ghost use Rattle.std.specs.Prelude.{⊤};

    type Out = bool;

    ghost answers = { λ _ _. ⊤ };

    fn run(self) -> bool {
        let StaysOpen { mut door } = self;
        let first = answer_open(&mut door);
        let second = answer_open(&mut door);
        first.is_some() && second.is_some()
    }
}

/// Returns whether a link brings the reply to a request, whole.
fn brings_reply<L: Link>(alloc: Global, link: &mut L, url: &str) -> bool {
    length_of(link.exchange(alloc, url, REQUEST, 100)) == Ok(REPLY.len())
}

/// Returns whether a link brings two replies from a door that stays open, which is served in a thread of its own.
fn brings_both<R>(rt: &R, alloc: Global, link: &mut RealLink<R>, door: RealDoor<R>) -> bool
where
    R: Net + Threads + Wait + Clock + Clone + Drop + Abort + Send + 'static,
{
    let url = url_of(rt, alloc, door.port().expect(rt, "no port"));
    let running = RealSpawner::new().start(rt, StaysOpen { door });
    let running = running.expect(rt, "no thread");
    let first = brings_reply(alloc, link, url.as_str());
    let second = brings_reply(alloc, link, url.as_str());
    first && second && running.join(rt)
}

#[test]
fn a_reply_is_whole_before_its_connection_ends(rt: HostRuntime) {
    let door = RealDoor::open(rt, rt.alloc(), 0).expect(&rt, "no door");
    let mut link = RealLink::new(rt);
    assert!(rt;
        brings_both(&rt, rt.alloc(), &mut link, door),
        "two replies over connections that stay open"
    );
}
