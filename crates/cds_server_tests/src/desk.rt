//! `Desk`: a server that is shared, with one seat of it.

ghost use Rattle.std.specs.Prelude.{◌≡◌, ◌≤◌};
ghost use Rattle.std.specs.Arc.{arc_value};
ghost use Rattle.cds_turn.specs.Turn.{IsSeatOf, passes_of};

use crate::made::{MEMORY, clock, device, folder, link};
use cds_memory::{MemClock, MemConn, MemFolder, MemLink};
use cds_outside::NoGate;
use cds_serve::{Served, notify_once, scan_once, serve_one};
use cds_server::Server;
use cds_ssdp::Device;
use cds_turn::{Seat, Turn};
use std::alloc::Global;
use std::process::Abort;
use std::sync::{Arc, Wait};

/// A server with its only seat, and a clock, a link, a device and a folder for it.
#[derive(Drop)]
pub struct Desk {
    turn: Arc<Turn<Served<Server>>>,
    seat: Seat<Served<Server>>,
    pub clock: MemClock,
    pub link: MemLink,
    pub last: u64,
    device: Device,
    /// The folder whose files are sent.
    pub files: MemFolder,
    ghost own: { IsSeatOf (arc_value turn) seat },
}

/// Makes a server that has done nothing yet, and one seat with all of its passes.
pub fn server<R: Abort>(
    rt: &R,
    alloc: Global,
    seats: u32,
) -> (Arc<Turn<Served<Server>>>, Seat<Served<Server>>)
    requires { 1 ≤ seats }
    ensures seat { IsSeatOf (arc_value result.0) result.1 }
    ensures passes { passes_of result.1 ≡ seats }
{
    let served = Served::new(alloc, [0, 0], 0).expect(rt, MEMORY);
    let (turn, seat) = Turn::new(alloc, served, seats).expect(rt, MEMORY);
    (Arc::new(alloc, turn).expect(rt, MEMORY), seat)
}

impl Desk {
    /// Makes a server that has done nothing yet, with a clock of these moments, of which one call fails.
    pub fn new<R: Abort>(rt: &R, alloc: Global, moments: &[u64], fails: u32) -> Self {
        let (turn, seat) = server(rt, alloc, 1);
        Desk::of(rt, alloc, turn, seat, moments, fails)
    }

    /// Makes the same for a server that others may share.
    pub fn of<R: Abort>(
        rt: &R,
        alloc: Global,
        turn: Arc<Turn<Served<Server>>>,
        seat: Seat<Served<Server>>,
        moments: &[u64],
        fails: u32,
    ) -> Self
        requires { IsSeatOf (arc_value turn) seat }
    {
        Desk {
            turn,
            seat,
            clock: clock(rt, alloc, moments, fails),
            link: link(rt, alloc, 0),
            last: 0,
            device: device(rt, alloc),
            files: folder(rt, alloc, "Rock"),
        }
    }

    /// Serves a connection.
    pub fn serve<R: Wait + Abort>(&mut self, rt: &R, alloc: Global, conn: &mut MemConn) {
        serve_one(
            rt,
            alloc,
            &self.turn,
            &mut self.seat,
            conn,
            &mut self.clock,
            &mut self.last,
            &mut self.link,
            &mut NoGate,
            &self.device,
            &mut self.files,
        )
        .expect(rt, MEMORY);
    }

    /// Scans a folder. The test ends if the scan is refused.
    pub fn scan<R: Wait + Abort>(&mut self, rt: &R, alloc: Global, folder: &mut MemFolder) {
        scan_once(
            rt,
            alloc,
            &self.turn,
            &mut self.seat,
            folder,
            &mut self.clock,
            &mut self.last,
        )
        .expect(rt, "a scan");
    }

    /// Looks once. Returns whether the server was stopped.
    pub fn look<R: Wait + Abort>(&mut self, rt: &R, alloc: Global) -> bool {
        notify_once(
            rt,
            alloc,
            &self.turn,
            &mut self.seat,
            &mut self.clock,
            &mut self.last,
            &mut self.link,
        )
        .expect(rt, MEMORY)
    }
}
