//! Tests of the datagrams of the system, on loopback: what comes and goes between two ports.

use crate::made::MEMORY;
use cds_outside::{Datagrams, Failed};
use cds_system::RealDatagrams;
use std::alloc::Global;
use std::net::{Ipv4Addr, Net, SocketAddr, SocketAddrV4, UdpSocket};
use std::process::Abort;
use std::sync::Wait;
use std::time::Duration;

/// The most bytes that a datagram of IPv4 can have.
const MOST: usize = 65_507;

/// Returns an address of this machine.
fn own(port: u16) -> SocketAddr {
    SocketAddr::V4(SocketAddrV4::new(Ipv4Addr::new(127, 0, 0, 1), port))
}

/// Opens a port that waits for at most 5 seconds.
fn client<R: Net + Abort>(rt: &R) -> UdpSocket {
    let client = UdpSocket::bind(rt, own(0)).expect(rt, "no client");
    let patience = Some(Duration::from_secs(5));
    client.set_read_timeout(patience).expect(rt, "no patience");
    client
}

/// Checks that datagrams of these bytes come, and that their sender gets an answer.
fn check_exchange<R: Abort, U: Datagrams>(
    rt: &R,
    alloc: Global,
    client: &UdpSocket,
    datagrams: &mut U,
    port: u16,
    bytes: &[u8],
) {
    let sent = client.send_to(bytes, own(port)).expect(rt, "not sent");
    assert!(rt; sent == bytes.len(), "what is sent");
    let came = datagrams.next(alloc).expect(rt, "none comes");
    assert!(rt; came.as_slice() == bytes, "what comes");
    datagrams.send(b"answer").expect(rt, "not answered");
    let mut into = [0u8; 16];
    let (count, from) = client.recv_from(&mut into).expect(rt, "no answer");
    let answer: &[u8] = b"answer";
    assert!(rt; &into[..count] == answer, "what is answered");
    assert!(rt; from == own(port), "who answers");
}

/// Checks datagrams without bytes, with some, and with as many as one can have.
fn check_sizes<R: Net + Abort, U: Datagrams>(rt: &R, alloc: Global, datagrams: &mut U, port: u16) {
    let client = client(rt);
    let long = vec![in alloc; 7; MOST].expect(rt, MEMORY);
    check_exchange(rt, alloc, &client, datagrams, port, b"");
    check_exchange(rt, alloc, &client, datagrams, port, b"search");
    check_exchange(rt, alloc, &client, datagrams, port, long.as_slice());
}

/// Checks that nobody is answered before a datagram came.
fn check_first<R: Abort, U: Datagrams>(rt: &R, datagrams: &mut U) {
    assert!(rt; datagrams.send(b"x") == Err(Failed), "somebody is answered");
}

/// Checks the counts of datagrams and of faults.
fn check_counts<R: Wait + Drop + Abort>(rt: &R, datagrams: &RealDatagrams<R>) {
    assert!(rt; datagrams.given() == 3, "the datagrams given");
    assert!(rt; datagrams.faults() == 1, "the faults");
}

#[test]
fn datagrams_come_and_are_answered(rt: HostRuntime) {
    let mut datagrams = RealDatagrams::open(rt, rt.alloc(), 0).expect(&rt, "no port");
    let port = datagrams.port().expect(&rt, "no number");
    check_first(&rt, &mut datagrams);
    check_sizes(&rt, rt.alloc(), &mut datagrams, port);
    check_counts(&rt, &datagrams);
    let shared = RealDatagrams::open(rt, rt.alloc(), port);
    assert!(rt; shared.is_ok(), "the port is not shared");
}
