//! The door at a port of the system. Its connections tell nothing of what they hold. That they come from the port is trusted.

ghost use Rattle.std.specs.Prelude.{◌≡◌, false, IfOk, IfSome};

use crate::conns::RealConn;
use crate::lobby::{Arrived, Lobby};
use cds_outside::{Door, Failed, OutsideFault};
use std::alloc::Global;
use std::io;
use std::io::ErrorKind;
use std::net::Net;
use std::sync::{Arc, Mutex, Wait};
use std::time::Clock;

/// A handle of the door at a port, at all addresses of IPv4. It gives a connection only once its message has come, or its first
/// 65,536 bytes. Others wait in a lobby, which all handles share.
#[derive(Drop)]
pub struct RealDoor<R: Wait + Clock + Clone + Drop> {
    rt: R,
    lobby: Arc<Mutex<Lobby>>,
    connections: u64,
    faults: u64,
}

impl<R: Wait + Clock + Clone + Drop> RealDoor<R> {
    /// Opens the door at a port; nothing was asked of it yet.
    pub fn open(rt: R, alloc: Global, port: u16) -> Result<Self, OutsideFault>
    where
        R: Net,
        ensures connections { IfOk result (λ door. door.connections ≡ 0) }
        ensures faults { IfOk result (λ door. door.faults ≡ 0) }
    {
        let lobby = share(alloc, Lobby::open(&rt, alloc, port))?;
        Ok(RealDoor {
            rt,
            lobby,
            connections: 0,
            faults: 0,
        })
    }

    /// Returns the port, as the system tells it. The error is the system's.
    pub fn port(&self) -> io::Result<u16> {
        self.lobby.lock(&self.rt).port()
    }

    /// Returns how many connections this handle gave.
    pub fn connections(&self) -> u64
        ensures { result ≡ self.now.connections }
    {
        self.connections
    }

    /// Returns how many calls of this handle failed.
    pub fn faults(&self) -> u64
        ensures { result ≡ self.now.faults }
    {
        self.faults
    }

    /// Returns another handle, which gave nothing yet.
    fn another(&self) -> Option<Self>
        ensures connections { IfSome result (λ door. door.connections ≡ 0) }
        ensures faults { IfSome result (λ door. door.faults ≡ 0) }
    {
        let rt = self.rt.clone().ok()?;
        let lobby = Arc::try_clone(&self.lobby).ok()?;
        Some(RealDoor {
            rt,
            lobby,
            connections: 0,
            faults: 0,
        })
    }
}

/// Makes a lobby that was opened one that many can own.
fn share(alloc: Global, opened: io::Result<Lobby>) -> Result<Arc<Mutex<Lobby>>, OutsideFault> {
    match opened {
        Ok(lobby) => match Arc::new(alloc, Mutex::new(lobby)) {
            Ok(lobby) => Ok(lobby),
            Err(_) => Err(OutsideFault::Mem),
        },
        Err(error) if error.kind() == ErrorKind::OutOfMemory => Err(OutsideFault::Mem),
        Err(_) => Err(OutsideFault::Failed),
    }
}

/// Returns the next connection that need not wait any longer.
fn next_arrived<R: Wait + Clock>(rt: &R, lobby: &Mutex<Lobby>) -> Option<Arrived> {
    lobby.lock(rt).next(rt).ok()
}

/// Returns the next connection whose reads and writes can wait.
fn next_conn<R: Wait + Clock + Clone + Drop>(rt: &R, lobby: &Mutex<Lobby>) -> Option<RealConn<R>>
    ensures moved { IfSome result (λ conn. conn.moved ≡ 0) }
    ensures read_faults { IfSome result (λ conn. conn.read_faults ≡ 0) }
    ensures write_faults { IfSome result (λ conn. conn.write_faults ≡ 0) }
    ensures finished { IfSome result (λ conn. conn.finished ≡ false) }
{
    for _ in rt.forever() {
        let owned = rt.clone().ok()?;
        let arrived = next_arrived(rt, lobby)?;
        if let Some(conn) = RealConn::new(owned, arrived) {
            return Some(conn);
        }
    }
    unreachable!()
}

impl<R: Wait + Clock + Clone + Drop> Door for RealDoor<R> {
    type Conn = RealConn<R>;

    ghost told = { λ s. record { connections = s.connections; faults = s.faults } };

    fn accept(&mut self) -> Result<RealConn<R>, Failed> {
        match next_conn(&self.rt, &self.lobby) {
            Some(conn) => {
                self.connections = self.connections.saturating_add(1);
                Ok(conn)
            }
            None => {
                self.faults = self.faults.saturating_add(1);
                Err(Failed)
            }
        }
    }

    fn again(&mut self) -> Result<Self, Failed> {
        match self.another() {
            Some(door) => Ok(door),
            None => {
                self.faults = self.faults.saturating_add(1);
                Err(Failed)
            }
        }
    }
}
