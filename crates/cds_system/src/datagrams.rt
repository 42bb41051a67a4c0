//! The datagrams of a port of the system. They tell nothing of what came or was sent. That the system hands over what came, and
//! sends what it is given, is trusted.
//!
//! A forged search is a known way to turn media servers on others: the replies go to whoever it names as its sender. So only
//! datagrams of near senders are handed over.

ghost use Rattle.std.specs.Prelude.{◌≡◌, ◌≤◌, length, IfOk};
ghost use Rattle.std.specs.Net.Socket.{socket_ip};
ghost use Rattle.cds_system.specs.Near.{IsNear};

use crate::reach::is_near;
use crate::shared_port::bind_shared;
use cds_base::Mem;
use cds_outside::{DatagramFault, Datagrams, Failed, OutsideFault};
use std::alloc::Global;
use std::io;
use std::io::ErrorKind;
use std::net::{Net, SocketAddr, UdpSocket};
use std::sync::Wait;

/// The number of bytes that are received at once. No datagram has more.
const ROOM: usize = 65_536;

/// The datagrams that come to a port, at all addresses of IPv4, from senders of near networks. All others are thrown away.
#[derive(Drop)]
pub struct RealDatagrams<R: Drop> {
    rt: R,
    socket: UdpSocket,
    buffer: Vec<u8>,
    sender: Option<SocketAddr>,
    given: u64,
    faults: u64,
}

impl<R: Drop> RealDatagrams<R> {
    /// Opens a port; nothing was asked of it yet. Other programs may have opened it too.
    pub fn open(rt: R, alloc: Global, port: u16) -> Result<Self, OutsideFault>
    where
        R: Net,
        ensures given { IfOk result (λ datagrams. datagrams.given ≡ 0) }
        ensures faults { IfOk result (λ datagrams. datagrams.faults ≡ 0) }
    {
        let buffer = room(alloc)?;
        match bind_shared(port) {
            Ok(socket) => Ok(RealDatagrams {
                rt,
                socket,
                buffer,
                sender: None,
                given: 0,
                faults: 0,
            }),
            Err(error) if error.kind() == ErrorKind::OutOfMemory => Err(OutsideFault::Mem),
            Err(_) => Err(OutsideFault::Failed),
        }
    }

    /// Returns the port, as the system tells it. The error is the system's.
    pub fn port(&self) -> io::Result<u16> {
        Ok(self.socket.local_addr()?.port())
    }

    /// Returns how many datagrams were given.
    pub fn given(&self) -> u64
        ensures { result ≡ self.now.given }
    {
        self.given
    }

    /// Returns how many calls failed.
    pub fn faults(&self) -> u64
        ensures { result ≡ self.now.faults }
    {
        self.faults
    }
}

/// Makes room for a datagram.
fn room(alloc: Global) -> Result<Vec<u8>, Mem> {
    let room = vec![in alloc; 0; ROOM]?;
    Ok(room)
}

/// Waits for a datagram of a near sender and puts it at the beginning of the buffer. Returns its length and its sender.
fn receive<R: Wait>(
    rt: &R,
    socket: &UdpSocket,
    buffer: &mut [u8],
) -> io::Result<(usize, SocketAddr)>
    ensures within { IfOk result (λ received. received.0 ≤ length buffer.new) }
    ensures near { IfOk result (λ received. IsNear (socket_ip received.1)) }
{
    for _ in rt.forever() {
        match socket.recv_from(buffer) {
            Ok((count, sender)) => {
                if is_near(sender.ip()) {
                    return Ok((count, sender));
                }
            }
            Err(error) => {
                if error.kind() != ErrorKind::Interrupted {
                    return Err(error);
                }
            }
        }
    }
    unreachable!()
}

/// Returns a copy of the first bytes of a buffer.
fn copied(alloc: Global, buffer: &[u8], count: usize) -> Result<Vec<u8>, Mem>
    requires { count ≤ length buffer.now }
{
    let mut copy = Vec::new(alloc);
    copy.extend_from_slice(&buffer[..count])?;
    Ok(copy)
}

/// Sends a datagram. It sends again if a signal interrupted it.
fn send_again(socket: &UdpSocket, bytes: &[u8], to: SocketAddr) -> io::Result<()> {
    for _ in 0..u64::MAX {
        match socket.send_to(bytes, to) {
            Ok(_) => return Ok(()),
            Err(error) => {
                if error.kind() != ErrorKind::Interrupted {
                    return Err(error);
                }
            }
        }
    }
    Err(io::Error::from(ErrorKind::TimedOut))
}

/// Sends a datagram to the sender of another, if there was one.
fn answer(socket: &UdpSocket, bytes: &[u8], sender: Option<SocketAddr>) -> Result<(), Failed> {
    let sender = sender.ok_or(Failed)?;
    send_again(socket, bytes, sender).map_err(|_| Failed)
}

/// Receives a datagram of a near sender, whom `sender` then names, and returns a copy of it.
fn receive_copy<R: Wait>(
    rt: &R,
    alloc: Global,
    socket: &UdpSocket,
    buffer: &mut [u8],
    sender: &mut Option<SocketAddr>,
) -> Result<Vec<u8>, DatagramFault> {
    match receive(rt, socket, buffer) {
        Ok((count, from)) => {
            *sender = Some(from);
            Ok(copied(alloc, buffer, count)?)
        }
        Err(_) => Err(DatagramFault::Failed),
    }
}

impl<R: Wait + Drop> Datagrams for RealDatagrams<R> {
    ghost use Rattle.std.specs.Prelude.{None};

    ghost told = { λ s. record { left = None; sent = None; given = s.given; faults = s.faults } };

    fn next(&mut self, alloc: Global) -> Result<Vec<u8>, DatagramFault> {
        let buffer = self.buffer.as_mut_slice();
        match receive_copy(&self.rt, alloc, &self.socket, buffer, &mut self.sender) {
            Ok(datagram) => {
                self.given = self.given.saturating_add(1);
                Ok(datagram)
            }
            Err(DatagramFault::Mem) => Err(DatagramFault::Mem),
            Err(DatagramFault::Failed) => {
                self.faults = self.faults.saturating_add(1);
                Err(DatagramFault::Failed)
            }
        }
    }

    fn send(&mut self, bytes: &[u8]) -> Result<(), Failed> {
        match answer(&self.socket, bytes, self.sender) {
            Ok(()) => Ok(()),
            Err(Failed) => {
                self.faults = self.faults.saturating_add(1);
                Err(Failed)
            }
        }
    }
}
