//! The job of the scanner, which scans the folder again and again.

ghost use Rattle.std.specs.Prelude.{◌≡◌, IfErr, IsTrue, OnOk};
ghost use Rattle.std.specs.Arc.{arc_value};
ghost use Rattle.cds_outside.specs.Outside.{raised};
ghost use Rattle.cds_commands.specs.Commands.{is_stopped};
ghost use Rattle.cds_turn.specs.Line.{Extends};
ghost use Rattle.cds_turn.specs.Turn.{IsSeatOf, own_by, passes_of, seats_of, seen_by, start_of};
ghost use Rattle.cds_serve.specs.Counted.{counted};
ghost use Rattle.cds_serve.specs.Jobs.{AddsScans, EndsScanning};

use crate::acts::IsStopped;
use crate::moment::ask_moment;
use crate::scanning::{ScanRefused, scan_once};
use crate::served::Served;
use cds_outside::{Clock, Folder, Gate, Job};
use cds_server::Server;
use cds_turn::{Seat, Turn};
use std::alloc::Global;
use std::marker::Send;
use std::sync::{Arc, Wait};

/// The time, in milliseconds, from the end of a scan to the next one.
const PAUSE: u64 = 10_000;

/// The time, in milliseconds, between two looks.
pub(crate) const REST: u32 = 50;

/// Scans a folder again and again for a server that others share: at the start, and then 10,000 ms after the last scan ended.
/// Between two scans it looks every 50 ms whether the server was stopped. If so, it ends.
#[derive(Drop)]
pub struct Scanner<R, F, T, G> {
    pub rt: R,
    pub alloc: Global,
    pub turn: Arc<Turn<Served<Server>>>,
    pub seat: Seat<Served<Server>>,
    pub folder: F,
    pub clock: T,
    pub gate: G,
    ghost own: { IsSeatOf (arc_value turn) seat },
}

/// What the scanner answers. Each count stops at its last value.
#[derive(Drop)]
pub struct Scanned<F> {
    pub folder: F,
    pub seat: Seat<Served<Server>>,
    /// How many scans were accepted.
    pub accepted: u64,
    /// How many were refused for another cause than `memory` counts.
    pub refused: u64,
    /// How many were refused because memory ran out.
    pub memory: u64,
}

/// How many scans ended in each of three ways.
#[derive(Clone, Copy)]
struct Counts {
    accepted: u64,
    refused: u64,
    memory: u64,
}

impl Counts {
    /// Counts a scan.
    fn count(&mut self, scanned: Result<(), ScanRefused>)
        ensures accepted { OnOk scanned (self.new ≡ record self.old { accepted = raised self.old.accepted 1 }) }
        ensures refused { IfErr scanned (λ refusal. self.new ≡ counted self.old refusal) }
    {
        match scanned {
            Ok(()) => self.accepted = self.accepted.saturating_add(1),
            Err(ScanRefused::Mem) => self.memory = self.memory.saturating_add(1),
            Err(_) => self.refused = self.refused.saturating_add(1),
        }
    }
}

impl<
    R: Wait + Send + Drop + 'static,
    F: Folder + Send + Drop + 'static,
    T: Clock + Send + Drop + 'static,
    G: Gate + Send + Drop + 'static,
> Job for Scanner<R, F, T, G> {
    type Out = Scanned<F>;

    ghost answers = { λ scanner scanned. IsSeatOf (arc_value scanner.turn) scanned.seat
        × (passes_of scanned.seat ≡ passes_of scanner.seat)
        × EndsScanning (start_of (arc_value scanner.turn) scanner.seat) (passes_of scanner.seat) (seats_of (arc_value scanner.turn)) (F.told scanner.folder) (F.told scanned.folder)
        (seen_by scanner.seat) (seen_by scanned.seat) scanned.accepted scanned.refused scanned.memory
        × AddsScans scanned.accepted (own_by scanner.seat) (own_by scanned.seat) };

    fn run(self) -> Scanned<F> {
        let Scanner {
            rt,
            alloc,
            turn,
            mut seat,
            mut folder,
            mut clock,
            gate: _,
        } = self;
        let counts = scan_until_stopped(&rt, alloc, &turn, &mut seat, &mut folder, &mut clock);
        drop(clock);
        drop(turn);
        drop(rt);
        ended(folder, seat, counts)
    }
}

/// Scans again and again until the server was stopped, and returns how the scans ended.
fn scan_until_stopped<R: Wait, F: Folder, T: Clock>(
    rt: &R,
    alloc: Global,
    turn: &Turn<Served<Server>>,
    seat: &mut Seat<Served<Server>>,
    folder: &mut F,
    clock: &mut T,
) -> Counts
    requires { IsSeatOf turn.now seat.old }
    ensures seat { IsSeatOf turn.now seat.new }
    ensures passes { passes_of seat.new ≡ passes_of seat.old }
    ensures ends { EndsScanning (start_of turn.now seat.old) (passes_of seat.old) (seats_of turn.now) (F.told folder.old) (F.told folder.new)
        (seen_by seat.old) (seen_by seat.new) result.accepted result.refused result.memory }
    ensures own { AddsScans result.accepted (own_by seat.old) (own_by seat.new) }
{
    let mut last = 0;
    let mut counts = Counts {
        accepted: 0,
        refused: 0,
        memory: 0,
    };
    'scans: for _ in rt.forever() {
        let scanned = scan_once(rt, alloc, turn, seat, folder, clock, &mut last);
        counts.count(scanned);
        if wait_for_scan(rt, turn, seat, clock, &mut last) {
            return counts;
        }
    }
    unreachable!()
}

/// Returns what is answered at the end.
fn ended<F>(folder: F, seat: Seat<Served<Server>>, counts: Counts) -> Scanned<F>
    ensures { result ≡ record {
      folder = folder;
      seat = seat;
      accepted = counts.accepted;
      refused = counts.refused;
      memory = counts.memory;
    } }
{
    Scanned {
        folder,
        seat,
        accepted: counts.accepted,
        refused: counts.refused,
        memory: counts.memory,
    }
}

/// Waits until the next scan is due, and looks at the server in the meantime. Returns whether the server was stopped.
fn wait_for_scan<R: Wait, T: Clock>(
    rt: &R,
    turn: &Turn<Served<Server>>,
    seat: &mut Seat<Served<Server>>,
    clock: &mut T,
    last: &mut u64,
) -> bool
    requires { IsSeatOf turn.now seat.old }
    ensures seat { IsSeatOf turn.now seat.new }
    ensures passes { passes_of seat.new ≡ passes_of seat.old }
    ensures begun { Extends (seen_by seat.new) (seen_by seat.old) }
    ensures own { own_by seat.new ≡ own_by seat.old }
    ensures alone { passes_of seat.old ≡ seats_of turn.now → seen_by seat.new ≡ seen_by seat.old }
    ensures stopped { IsTrue result → IsTrue (is_stopped (seen_by seat.new)) }
{
    let ended = ask_moment(clock, last);
    'looks: for _ in rt.forever() {
        if turn.with(rt, seat, IsStopped) {
            return true;
        }
        let now = ask_moment(clock, last);
        if now.saturating_sub(ended) >= PAUSE {
            return false;
        }
        clock.rest(REST);
    }
    unreachable!()
}
