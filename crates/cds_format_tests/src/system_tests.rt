//! Tests of the objects of the system, on loopback: that they can be had, and what no clause says of them.

use crate::made::{MEMORY, answer, answer_next};
use cds_outside::{
    Clock, Conn, Door, Job, Linger, Link, LinkFault, Outside, OutsideFault, Spawner,
};
use cds_system::{RealClock, RealDoor, RealLink, RealOutside, RealSpawner, ahead, near_address};
use std::alloc::Global;
use std::io::{Read, Write};
use std::marker::Send;
use std::net::{IpAddr, Ipv4Addr, Net, SocketAddr, TcpStream};
use std::process::Abort;
use std::sync::Wait;
use std::thread::Threads;
use std::time::Clock as SystemClock;

/// Checks that a clock goes on, within 2020 and 2100.
fn check_clock<R: Abort, C: Clock>(rt: &R, clock: &mut C) {
    let before = clock.now().expect(rt, "no first moment");
    clock.rest(2);
    let after = clock.now().expect(rt, "no second moment");
    assert!(rt; before > 1_577_836_800_000, "{before} is before 2020");
    assert!(rt; after > before, "{after} is not after {before}");
    assert!(rt; after < 4_102_444_800_000, "{after} is after 2099");
}

#[test]
fn the_clock_goes_on(rt: HostRuntime) {
    let mut clock = RealClock::new(rt, ahead(&rt));
    check_clock(&rt, &mut clock);
}

/// A URL, and whether a link goes there.
#[derive(Drop)]
struct AddressCase {
    name: &'static str,
    url: &'static str,
    is_near: bool,
}

const ADDRESSES: [AddressCase; 27] = [
    AddressCase {
        name: "loopback, with a port and a path",
        url: "http://127.0.0.1:8200/a",
        is_near: true,
    },
    AddressCase {
        name: "loopback, not 127.0.0.1",
        url: "http://127.255.0.9/",
        is_near: true,
    },
    AddressCase {
        name: "the last address of 10.0.0.0/8",
        url: "http://10.255.255.255/",
        is_near: true,
    },
    AddressCase {
        name: "an early address of 172.16.0.0/12",
        url: "http://172.16.0.1/",
        is_near: true,
    },
    AddressCase {
        name: "the last address of 172.16.0.0/12",
        url: "http://172.31.255.255:1/",
        is_near: true,
    },
    AddressCase {
        name: "an address of 192.168.0.0/16, with a query",
        url: "http://192.168.1.2:49152/notify?x=1",
        is_near: true,
    },
    AddressCase {
        name: "a link-local address",
        url: "http://169.254.1.1/",
        is_near: true,
    },
    AddressCase {
        name: "loopback of IPv6",
        url: "http://[::1]:80/",
        is_near: true,
    },
    AddressCase {
        name: "a link-local address of IPv6",
        url: "http://[fe80::1]/",
        is_near: true,
    },
    AddressCase {
        name: "a unique local address of IPv6",
        url: "http://[fd00::1]/",
        is_near: true,
    },
    AddressCase {
        name: "the unspecified address",
        url: "http://0.0.0.0/",
        is_near: false,
    },
    AddressCase {
        name: "a public address",
        url: "http://8.8.8.8/",
        is_near: false,
    },
    AddressCase {
        name: "just before 172.16.0.0/12",
        url: "http://172.15.255.255/",
        is_near: false,
    },
    AddressCase {
        name: "just after 172.16.0.0/12",
        url: "http://172.32.0.1/",
        is_near: false,
    },
    AddressCase {
        name: "just after 192.168.0.0/16",
        url: "http://192.169.0.1/",
        is_near: false,
    },
    AddressCase {
        name: "just before 169.254.0.0/16",
        url: "http://169.253.1.1/",
        is_near: false,
    },
    AddressCase {
        name: "a multicast address",
        url: "http://224.0.0.1/",
        is_near: false,
    },
    AddressCase {
        name: "the broadcast address",
        url: "http://255.255.255.255/",
        is_near: false,
    },
    AddressCase {
        name: "an address of IPv6 that is not local",
        url: "http://[2001:db8::1]/",
        is_near: false,
    },
    AddressCase {
        name: "a public address mapped to IPv6",
        url: "http://[::ffff:8.8.8.8]/",
        is_near: false,
    },
    AddressCase {
        name: "the unspecified address of IPv6",
        url: "http://[::]/",
        is_near: false,
    },
    AddressCase {
        name: "the name of loopback",
        url: "http://localhost/",
        is_near: false,
    },
    AddressCase {
        name: "a host's name",
        url: "http://example.com/",
        is_near: false,
    },
    AddressCase {
        name: "the scheme https",
        url: "https://127.0.0.1/",
        is_near: false,
    },
    AddressCase {
        name: "the scheme ftp",
        url: "ftp://127.0.0.1/",
        is_near: false,
    },
    AddressCase {
        name: "no scheme",
        url: "127.0.0.1",
        is_near: false,
    },
    AddressCase {
        name: "an empty text",
        url: "",
        is_near: false,
    },
];

/// Returns whether a link goes to an address.
fn is_near(alloc: Global, url: &str) -> bool {
    near_address(alloc, url).is_ok()
}

#[test]
fn links_go_to_near_addresses(rt: HostRuntime) {
    for case in &ADDRESSES {
        assert!(rt;
            is_near(rt.alloc(), case.url) == case.is_near,
            "{}: {}",
            case.name,
            case.url
        );
    }
}

/// A whole request of 16 bytes.
const REQUEST: &[u8] = b"GET / HTTP/1.1\n\n";

/// Connects a client to a port of this machine, and sends this text.
fn client<R: Net + Abort>(rt: &R, port: u16, text: &[u8]) -> R::Stream {
    let address = SocketAddr::new(IpAddr::V4(Ipv4Addr::new(127, 0, 0, 1)), port);
    let mut stream = TcpStream::connect(rt, address).expect(rt, "no client");
    stream.write_all(text).expect(rt, "nothing is sent");
    stream
}

/// Counts the bytes that come before the end of a stream, in at most 64 reads of at most 64 bytes.
fn count_to_end<R: Abort, S: Read>(rt: &R, stream: &mut S) -> usize {
    let mut piece = [0u8; 64];
    let mut total = 0usize;
    for _ in 0..64 {
        let count = stream.read(&mut piece).expect(rt, "nothing is read");
        if count == 0 {
            break;
        }
        total = total.saturating_add(count);
    }
    total
}

/// What a test says if a door answers no connection.
const ANSWER: &str = "no answer";

/// Connects 257 clients to a port, one more than 256. They send nothing.
fn silent_clients<R: Net + Abort>(rt: &R, alloc: Global, port: u16) -> Vec<R::Stream> {
    let mut clients = Vec::new(alloc);
    for _ in 0..257 {
        clients.push(client(rt, port, b"")).expect(rt, MEMORY);
    }
    clients
}

/// Checks that a client that spoke is answered by a door, which then ends the connection.
fn check_answered<R: Abort, S: Read, D: Door>(rt: &R, spoke: &mut S, door: &mut D) {
    let answered = answer_next(door, b"ok").expect(rt, ANSWER);
    assert!(rt;
        answered == (16, 2),
        "what is read of the one that speaks, and written to it"
    );
    assert!(rt; count_to_end(rt, spoke) == 2, "what it gets");
}

/// Checks that a client that speaks after another one went away is answered by a door.
fn check_speaker<R: Net + Abort, D: Door>(rt: &R, port: u16, door: &mut D) {
    drop(client(rt, port, b""));
    let mut speaks = client(rt, port, REQUEST);
    check_answered(rt, &mut speaks, door);
}

/// Checks that the first of some clients was let go.
fn check_first<R: Abort, S: Read>(rt: &R, clients: &mut [S]) {
    let first = clients.first_mut().expect(rt, "no first client");
    assert!(rt;
        count_to_end(rt, first) == 0,
        "the oldest client gets something"
    );
}

/// Checks that the last of some clients is answered by a door after it speaks at last.
fn check_last<R: Abort, S: Write, D: Door>(rt: &R, clients: &mut [S], door: &mut D) {
    let last = clients.last_mut().expect(rt, "no last client");
    last.write_all(REQUEST).expect(rt, "nothing is sent");
    let answered = answer_next(door, b"").expect(rt, ANSWER);
    assert!(rt; answered == (16, 0), "what is read of the last client");
}

/// Checks that silent clients wait beside two handles of a door. One that speaks is answered meanwhile. The oldest is let go
/// because too many wait, and the last is answered.
fn check_silent<R: Net + Wait + SystemClock + Clone + Drop + Abort>(
    rt: &R,
    alloc: Global,
    door: &mut RealDoor<R>,
    second: &mut RealDoor<R>,
) {
    let port = door.port().expect(rt, "no port");
    let mut clients = silent_clients(rt, alloc, port);
    check_speaker(rt, port, second);
    check_first(rt, clients.as_mut_slice());
    check_last(rt, clients.as_mut_slice(), door);
}

/// Checks that a handle of a door gave one connection, and that no call of it failed.
fn check_counts<R: Wait + SystemClock + Clone + Drop + Abort>(
    rt: &R,
    door: &RealDoor<R>,
    handle: &str,
) {
    assert!(rt; door.connections() == 1, "{handle}: its connections");
    assert!(rt; door.faults() == 0, "{handle}: its faults");
}

#[test]
fn silent_connections_wait_beside_the_door(rt: HostRuntime) {
    let mut door = RealDoor::open(rt, rt.alloc(), 0).expect(&rt, "no door");
    let mut second = door.again().expect(&rt, "no handle");
    check_silent(&rt, rt.alloc(), &mut door, &mut second);
    check_counts(&rt, &door, "the first handle");
    check_counts(&rt, &second, "the second handle");
}

/// Checks that a client gets its reply and the end of it after its connection was finished, while that is still held.
fn check_finished<R: Net + Abort, D: Door>(rt: &R, port: u16, door: &mut D, linger: Linger) {
    let mut peer = client(rt, port, REQUEST);
    let mut conn = door.accept().expect(rt, "no connection");
    answer(&mut conn, b"ok").expect(rt, ANSWER);
    conn.finish(linger);
    assert!(rt; count_to_end(rt, &mut peer) == 2, "what the peer gets");
    drop(conn);
}

#[test]
fn a_finished_connection_ends_while_it_is_held(rt: HostRuntime) {
    let mut door = RealDoor::open(rt, rt.alloc(), 0).expect(&rt, "no door");
    let port = door.port().expect(&rt, "no port");
    for linger in &[Linger::Never, Linger::WhileSending, Linger::UntilRead] {
        check_finished(&rt, port, &mut door, *linger);
    }
}

/// Answers `shares` connections of its door.
#[derive(Drop)]
struct Answering<R: Wait + SystemClock + Clone + Drop> {
    door: RealDoor<R>,
    shares: u32,
}

impl<R: Wait + SystemClock + Clone + Drop + Send + 'static> Job for Answering<R> {
    ghost use Rattle.std.specs.Prelude.{⊤};

    type Out = u64;

    ghost answers = { λ _ _. ⊤ };

    fn run(self) -> u64 {
        let Answering { mut door, shares } = self;
        for _ in 0..shares {
            let _ = answer_next(&mut door, b"abcde");
        }
        door.connections()
    }
}

/// Returns how long the reply of an exchange is, or its fault.
fn length_of(reply: Result<Vec<u8>, LinkFault>) -> Result<usize, LinkFault> {
    match reply {
        Ok(reply) => Ok(reply.len()),
        Err(fault) => Err(fault),
    }
}

/// Sends a request by a link, and checks what it brings. Its reply has at most `limit` bytes.
fn check_exchange<R: Abort, L: Link>(
    rt: &R,
    alloc: Global,
    link: &mut L,
    url: &str,
    limit: usize,
    want: Result<usize, LinkFault>,
) {
    let brought = length_of(link.exchange(alloc, url, REQUEST, limit));
    assert!(rt; brought == want, "{url} with the limit {limit}");
}

/// An address that is not near.
const FAR: &str = "http://192.0.2.1/";

/// Checks that a link brings nothing from a closed port, nor from an address that is not near.
fn check_closed<R: Abort, L: Link>(rt: &R, alloc: Global, link: &mut L, url: &str) {
    let failed = Err(LinkFault::Failed);
    check_exchange(rt, alloc, link, url, 5, failed);
    check_exchange(rt, alloc, link, FAR, 5, failed);
}

/// Checks that a spawner started one job, and that no call of it failed.
fn check_spawner<R: Abort>(rt: &R, spawner: &RealSpawner) {
    assert!(rt; spawner.started() == 1, "the jobs started");
    assert!(rt; spawner.faults() == 0, "the faults of the spawner");
}

/// Checks that a link brings what a door answers in a thread of its own. A reply may be as long as the limit, and is refused if it
/// is longer.
fn check_linked<R, L: Link>(rt: &R, alloc: Global, link: &mut L, url: &str, door: RealDoor<R>)
where
    R: Threads + Wait + SystemClock + Clone + Drop + Abort + Send + 'static,
{
    let mut spawner = RealSpawner::new();
    let running = spawner.start(rt, Answering { door, shares: 2 });
    let running = running.expect(rt, "no thread");
    check_exchange(rt, alloc, link, url, 5, Ok(5));
    check_exchange(rt, alloc, link, url, 4, Err(LinkFault::Over));
    assert!(rt; running.join(rt) == 2, "the connections that the door gave");
    check_spawner(rt, &spawner);
}

/// Returns the address of a door.
fn url_of<R: Wait + SystemClock + Clone + Drop + Abort>(
    rt: &R,
    alloc: Global,
    door: &RealDoor<R>,
) -> String {
    let port = door.port().expect(rt, "no port");
    format!(in alloc; "http://127.0.0.1:{port}/").expect(rt, MEMORY)
}

#[test]
fn a_link_brings_what_a_door_answers(rt: HostRuntime) {
    let door = RealDoor::open(rt, rt.alloc(), 0).expect(&rt, "no door");
    let url = url_of(&rt, rt.alloc(), &door);
    let mut link = RealLink::new(rt);
    check_linked(&rt, rt.alloc(), &mut link, url.as_str(), door);
    check_closed(&rt, rt.alloc(), &mut link, url.as_str());
    assert!(rt; link.faults() == 3);
}

/// Checks that an outside gives a clock and a link, and takes the link back.
fn check_clock_and_link<R: Abort, O: Outside>(rt: &R, alloc: Global, outside: &mut O) {
    let mut clock = outside.clock(alloc).expect(rt, "no clock");
    check_clock(rt, &mut clock);
    let mut link = outside.link(alloc).expect(rt, "no link");
    check_exchange(rt, alloc, &mut link, FAR, 5, Err(LinkFault::Failed));
    outside.end_link(link);
}

/// Checks that an outside gives a spawner, and takes it back.
fn check_spawner_given<R: Abort, O: Outside>(rt: &R, alloc: Global, outside: &mut O) {
    let spawner = outside.spawner(alloc).expect(rt, "no spawner");
    outside.end_spawner(spawner);
}

/// Checks that an outside gives no door at a port that is taken, and gives and takes back one at another.
fn check_doors<R: Abort, O: Outside>(rt: &R, alloc: Global, outside: &mut O, taken: u16) {
    let fault = outside.door(alloc, taken).err();
    assert!(rt;
        fault == Some(OutsideFault::Failed),
        "port {taken} is given twice"
    );
    let door = outside.door(alloc, 0).expect(rt, "no door");
    outside.end_door(door);
}

#[test]
fn the_outside_gives_its_objects(rt: HostRuntime) {
    let door = RealDoor::open(rt, rt.alloc(), 0).expect(&rt, "no door");
    let port = door.port().expect(&rt, "no port");
    let mut outside = RealOutside::new(rt);
    check_clock_and_link(&rt, rt.alloc(), &mut outside);
    check_spawner_given(&rt, rt.alloc(), &mut outside);
    check_doors(&rt, rt.alloc(), &mut outside, port);
}
