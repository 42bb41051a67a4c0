//! A test of a thread that browses what another one scanned.

ghost use Rattle.std.specs.Prelude.{◌≡◌, IfSome};
ghost use Rattle.std.specs.Arc.{arc_value};
ghost use Rattle.cds_turn.specs.Turn.{IsSeatOf, passes_of};

use crate::desk::{Desk, server};
use crate::made::{MEMORY, asking, clock, folder, rows_in};
use cds_base::Numbers;
use cds_memory::{MemClock, MemFolder, MemSpawner};
use cds_outside::{Job, NoGate, Spawner};
use cds_serve::{Scanned, Scanner, Served, scan_once};
use cds_server::Server;
use cds_turn::{Seat, Turn};
use std::alloc::Global;
use std::marker::Send;
use std::process::Abort;
use std::sync::{Arc, Wait};
use std::thread::Threads;

/// What a scanner has, for one scan alone.
#[derive(Drop)]
struct Once<R> {
    scanner: Scanner<R, MemFolder, MemClock, NoGate>,
}

impl<R: Wait + Send + Drop + 'static> Job for Once<R> {
    type Out = Scanned<MemFolder>;

    ghost answers = { λ once scanned. IsSeatOf (arc_value once.scanner.turn) scanned.seat };

    fn run(self) -> Scanned<MemFolder> {
        let Scanner {
            rt,
            alloc,
            turn,
            mut seat,
            mut folder,
            mut clock,
            gate: _,
        } = self.scanner;
        let accepted = scan_over(&rt, alloc, &turn, &mut seat, &mut folder, &mut clock);
        drop(clock);
        drop(turn);
        drop(rt);
        Scanned {
            folder,
            seat,
            accepted,
            refused: 0,
            memory: 0,
        }
    }
}

/// Scans once. Returns how many scans were accepted.
fn scan_over<R: Wait>(
    rt: &R,
    alloc: Global,
    turn: &Turn<Served<Server>>,
    seat: &mut Seat<Served<Server>>,
    folder: &mut MemFolder,
    clock: &mut MemClock,
) -> u64
    requires { IsSeatOf turn.now seat.old }
    ensures { IsSeatOf turn.now seat.new }
{
    let mut last = 0;
    let scanned = scan_once(rt, alloc, turn, seat, folder, clock, &mut last);
    u64::from(scanned.is_ok())
}

/// Returns the seat of a job if its scan was accepted.
fn accepted_seat(scanned: Scanned<MemFolder>) -> Option<Seat<Served<Server>>>
    ensures { IfSome result (λ seat. seat ≡ scanned.seat) }
{
    if scanned.accepted == 1 {
        Some(scanned.seat)
    } else {
        None
    }
}

/// Lets another thread scan once and end. Returns its seat if the scan was accepted.
fn start_once<R: Threads + Wait + Send + Drop + 'static>(
    rt: &R,
    spawner: &mut MemSpawner,
    scanner: Scanner<R, MemFolder, MemClock, NoGate>,
) -> Option<Seat<Served<Server>>>
    ensures { IfSome result (λ seat. IsSeatOf (arc_value scanner.turn) seat) }
{
    match spawner.start(rt, Once { scanner }) {
        Ok(running) => accepted_seat(running.join(rt)),
        Err(_) => None,
    }
}

/// Lets another thread scan a folder once and end. Returns its seat if the scan was accepted.
fn scan_apart<R: Threads + Wait + Abort + Send + Drop + 'static>(
    rt: &R,
    theirs: R,
    alloc: Global,
    turn: Arc<Turn<Served<Server>>>,
    seat: Seat<Served<Server>>,
) -> Option<Seat<Served<Server>>>
    requires { IsSeatOf (arc_value turn) seat }
    ensures { IfSome result (λ seat. IsSeatOf (arc_value turn) seat) }
{
    let folder = folder(rt, alloc, "Jazz Rock");
    let clock = clock(rt, alloc, &[], 0);
    let scanner = Scanner {
        rt: theirs,
        alloc,
        turn,
        seat,
        folder,
        clock,
        gate: NoGate,
    };
    let mut spawner = MemSpawner::new(Numbers::new(alloc));
    start_once(rt, &mut spawner, scanner)
}

/// Takes in another seat if there is one. Returns whether there is.
fn join(
    turn: &Turn<Served<Server>>,
    seat: &mut Seat<Served<Server>>,
    other: Option<Seat<Served<Server>>>,
) -> bool
    requires seat { IsSeatOf turn.now seat.old }
    requires other { IfSome other (λ theirs. IsSeatOf turn.now theirs) }
    ensures { IsSeatOf turn.now seat.new }
{
    match other {
        Some(theirs) => {
            turn.join(seat, theirs);
            true
        }
        None => false,
    }
}

/// Lets another thread scan with a seat of its own. Returns whether the scan was accepted.
fn is_scanned<R: Threads + Wait + Abort + Copy + Send + Drop + 'static>(
    rt: R,
    alloc: Global,
    turn: &Arc<Turn<Served<Server>>>,
    seat: &mut Seat<Served<Server>>,
) -> bool
    requires seat { IsSeatOf (arc_value turn.now) seat.old }
    requires passes { passes_of seat.old ≡ 2 }
    ensures { IsSeatOf (arc_value turn.now) seat.new }
{
    let shared = Arc::try_clone(turn).expect(&rt, MEMORY);
    let theirs = turn.split(seat);
    let found = scan_apart(&rt, rt, alloc, shared, theirs);
    join(turn, seat, found)
}

/// Returns how many rows a server shows.
fn rows_shown<R: Wait + Abort>(rt: &R, alloc: Global, desk: &mut Desk) -> Option<usize> {
    let mut conn = asking(rt, alloc, 0, 0);
    desk.serve(rt, alloc, &mut conn);
    rows_in(rt, alloc, conn.written())
}

/// Returns whether the scan of another thread was accepted, and how many rows the server then shows.
fn rows_found<R: Threads + Wait + Abort + Copy + Send + Drop + 'static>(
    rt: R,
    alloc: Global,
) -> (bool, Option<usize>) {
    let (turn, mut seat) = server(&rt, alloc, 2);
    let is_accepted = is_scanned(rt, alloc, &turn, &mut seat);
    let mut desk = Desk::of(&rt, alloc, turn, seat, &[], 0);
    (is_accepted, rows_shown(&rt, alloc, &mut desk))
}

#[test]
fn a_scan_of_another_thread_is_browsed(rt: HostRuntime) {
    let (is_accepted, rows) = rows_found(rt, rt.alloc());
    assert!(rt; is_accepted, "the scan was not accepted");
    assert!(rt; rows == Some(2), "the rows that are shown");
}
