//! The jobs of a server: how they are hired, started and joined.

ghost use Rattle.std.specs.Prelude.{◌≡◌, ◌≢◌, ◌⊎◌, ◌+◌, ◌^◌, ◌≤◌, ◌<◌, ℕ, Bool, [], ◌∷◌, length, take, sum_by, vec_len, vec_capacity, is_some, nat_lt, if◌then◌else◌, Ok, Err, Some, IfErr, IfNone, IfOk, IfSome, IsFalse, IsNone, IsTrue, OnOk};
ghost use Rattle.std.proofs.Props.{props};
ghost use Rattle.std.specs.Arc.{arc_value};
ghost use Rattle.std.specs.List.{AllByRecursion, count_by};
ghost use Rattle.cds_outside.specs.Outside.{Rose, raised};
ghost use Rattle.cds_outside.specs.Told.{unasked_door};
ghost use Rattle.cds_commands.specs.Commands.{Command, Stops};
ghost use Rattle.cds_commands.specs.Names.{names_of};
ghost use Rattle.cds_server.specs.Published.{device_name};
ghost use Rattle.cds_server.specs.Serving.{Serving, StandsFor};
ghost use Rattle.cds_turn.specs.Turn.{IsSeatOf, own_by, passes_of, seat_told, seats_of, seen_by, start_of};
ghost use Rattle.cds_serve.specs.Jobs.{FollowAnswers, FollowScans, FollowTicks, HasSeenAll, IsHired};
ghost use Rattle.cds_serve.specs.Life.{AreCounts, AreFirstWords, FoldersBack, IsCaused, IsOpenedAt, doors_back, OfFirst, share_of, start_with};

use crate::acts::{IsStopped, Stop};
use crate::documents::own_device;
use crate::fault::Fault;
use crate::means::{Ends, Means};
use crate::notifier::{Notified, Notifier};
use crate::scanner::{Scanned, Scanner};
use crate::served::Served;
use crate::worker::{Post, Worked, Worker};
use cds_base::Mem;
use cds_outside::{Clock, Door, Folder, Gate, Job, Link, Outside, Running, Runtime, Spawner};
use cds_server::Server;
use cds_turn::{Seat, Turn};
use std::alloc::Global;
use std::marker::Send;
use std::sync::{Arc, Wait};
use std::thread::Threads;
use uuid::Uuid;

/// The numbers of the scanner and the notifier. The workers have the numbers from 0 to 3.
const SCANNER: u32 = 4;

const NOTIFIER: u32 = 5;

/// The number of seats: one for each job, and one more.
const SEATS: u32 = 7;

/// All jobs before they are started, with the turn and its last seat. No commands were appended yet with any of the seats.
#[derive(Drop)]
pub(crate) struct Crew<R, D, T, L, F, G> {
    /// The port of the server.
    pub(crate) port: u16,
    /// How many connections the workers are to serve.
    pub(crate) requests: u32,
    pub(crate) turn: Arc<Turn<Served<Server>>>,
    pub(crate) seat: Seat<Served<Server>>,
    pub(crate) workers: Vec<Worker<R, D, T, L, G, F>>,
    pub(crate) scanner: Scanner<R, F, T, G>,
    pub(crate) notifier: Notifier<R, T, L, G>,
    ghost own: { IsSeatOf (arc_value turn) seat },
    ghost last: { (passes_of seat ≡ 1) × (length (own_by seat) ≡ 0) × (seats_of (arc_value turn) ≡ 7) },
    ghost few: { length workers.items ≡ 4 },
    ghost served: { (sum_by (λ worker. worker.post.share) workers.items ≡ requests) × (requests < 2 ^ 32) },
    ghost workers_own: { AllByRecursion (λ worker. IsHired (arc_value turn) (arc_value worker.turn) worker.seat) workers.items } by { Prim.hlevel props },
    ghost scanner_own: { IsHired (arc_value turn) (arc_value scanner.turn) scanner.seat },
    ghost notifier_own: { IsHired (arc_value turn) (arc_value notifier.turn) notifier.seat },
}

/// A server at its end, with the last seat of its turn, and what the scanner counted.
#[derive(Drop)]
pub(crate) struct Finished {
    pub(crate) turn: Arc<Turn<Served<Server>>>,
    pub(crate) seat: Seat<Served<Server>>,
    pub(crate) counts: Counts,
    ghost own: { IsSeatOf (arc_value turn) seat },
}

/// What all jobs of a server stand on.
#[derive(Drop)]
struct Ground<'a, R> {
    rt: &'a R,
    alloc: Global,
    turn: &'a Arc<Turn<Served<Server>>>,
    port: u16,
    /// The UUID of the device.
    uuid: Uuid,
}

/// A server that was opened, before any command, with the one seat of its turn and the UUID of its device.
#[derive(Drop)]
struct Opening {
    turn: Arc<Turn<Served<Server>>>,
    seat: Seat<Served<Server>>,
    uuid: Uuid,
    ghost own: { IsSeatOf (arc_value turn) seat },
}

/// A share of the turn, and a seat of it.
#[derive(Drop)]
struct JobSeat {
    turn: Arc<Turn<Served<Server>>>,
    seat: Seat<Served<Server>>,
    ghost own: { IsSeatOf (arc_value turn) seat },
}

/// What each job is given: a runtime, a gate, and a seat.
#[derive(Drop)]
struct Kit<R, G> {
    rt: R,
    gate: G,
    turn: Arc<Turn<Served<Server>>>,
    seat: Seat<Served<Server>>,
    ghost own: { IsSeatOf (arc_value turn) seat },
}

/// The jobs that were started.
#[derive(Drop)]
struct Started<W: Job, S: Job, N: Job> {
    workers: Vec<Running<W>>,
    scanner: Option<Running<S>>,
    notifier: Option<Running<N>>,
}

/// The number of scans that were accepted, and of those that were refused. `memory` counts the refusals because memory ran out,
/// and `refused` all others.
#[derive(Clone, Copy)]
pub(crate) struct Counts {
    pub(crate) accepted: u64,
    pub(crate) refused: u64,
    pub(crate) memory: u64,
}

/// Returns the share of a worker, by its number from 0.
fn share_of(requests: u32, number: u32) -> u32
    requires { number < 4 }
    ensures { result ≡ share_of requests number }
{
    requests / 4 + extra_of(requests % 4, number)
}

/// Returns 1 for the first `left` workers, 0 for the rest.
fn extra_of(left: u32, number: u32) -> u32
    ensures { result ≡ (if nat_lt number left then 1 else 0) }
{
    if number < left { 1 } else { 0 }
}

/// Makes a server with all its jobs; none of them is started. It is opened with the boot words of the means.
pub(crate) fn hire_crew<
    R: Runtime,
    D: Door + Send + Drop + 'static,
    T: Clock + Send + Drop + 'static,
    L: Link + Send + Drop + 'static,
    F: Folder + Send + Drop + 'static,
    G: Gate + Send + Drop + 'static,
>(
    rt: &R,
    alloc: Global,
    port: u16,
    requests: u32,
    means: Means<D, T, L, F>,
    gate: &mut G,
) -> Result<Crew<R, D, T, L, F, G>, Mem>
    requires fresh { AllByRecursion (λ ends. D.told ends.door ≡ unasked_door) means.workers.items }
    requires few { length means.workers.items ≡ 4 }
    requires boot { OfFirst (λ ends. AreFirstWords port (T.told ends.clock) means.boot) means.workers.items }
    ensures asked { IfOk result (λ crew. (crew.port ≡ port) × (crew.requests ≡ requests)) }
    ensures fresh { IfOk result (λ crew. AllByRecursion (λ worker. D.told worker.post.door ≡ unasked_door) crew.workers.items) }
    ensures opened { IfOk result (λ crew. IsOpenedAt port (start_of (arc_value crew.turn) crew.seat)) }
{
    let Opening {
        turn,
        mut seat,
        uuid,
    } = open_turn(alloc, means.boot)?;
    let Means {
        boot: _,
        folder,
        workers,
        scanner,
        notifier,
        link,
    } = means;
    let ground = Ground {
        rt,
        alloc,
        turn: &turn,
        port,
        uuid,
    };
    let workers = hire_workers(&ground, &mut seat, requests, workers, gate)?;
    let scanner = hire_scanner(&ground, &mut seat, folder, scanner, gate)?;
    let notifier = hire_notifier(&ground, &mut seat, notifier, link, gate)?;
    Ok(Crew {
        port,
        requests,
        turn,
        seat,
        workers,
        scanner,
        notifier,
    })
}

/// Opens a server with these boot words, before any command, and returns the one seat of its turn.
fn open_turn(alloc: Global, boot: [u64; 2]) -> Result<Opening, Mem>
    ensures seats { IfOk result (λ opening. (passes_of opening.seat ≡ 7) × (seats_of (arc_value opening.turn) ≡ 7)) }
    ensures none { IfOk result (λ opening. length (own_by opening.seat) ≡ 0) }
    ensures start { IfOk result (λ opening. start_of (arc_value opening.turn) opening.seat ≡ start_with boot) }
    ensures uuid { IfOk result (λ opening. opening.uuid ≡ device_name (names_of (start_with boot))) }
{
    let served = Served::new(alloc, boot, 0)?;
    let uuid = served.device_name();
    let (turn, seat) = Turn::new(alloc, served, SEATS)?;
    let turn = Arc::new(alloc, turn)?;
    Ok(Opening { turn, seat, uuid })
}

/// Returns a seat for one job, which takes one of the passes.
fn job_seat_of(
    turn: &Arc<Turn<Served<Server>>>,
    seat: &mut Seat<Served<Server>>,
) -> Result<JobSeat, Mem>
    requires seat { IsSeatOf (arc_value turn.now) seat.old }
    requires passes { 2 ≤ passes_of seat.old }
    ensures seat { IsSeatOf (arc_value turn.now) seat.new }
    ensures own { own_by seat.new ≡ own_by seat.old }
    ensures passes { OnOk result (passes_of seat.new + 1 ≡ passes_of seat.old) }
    ensures hired { IfOk result (λ job_seat. IsHired (arc_value turn.now) (arc_value job_seat.turn) job_seat.seat) }
{
    let shared = Arc::try_clone(turn)?;
    let theirs = turn.split(seat);
    Ok(JobSeat {
        turn: shared,
        seat: theirs,
    })
}

/// Returns what the job of this number is given. Its seat takes one of the passes.
fn kit_of<R: Clone + Drop, G: Gate + Drop>(
    ground: &Ground<'_, R>,
    seat: &mut Seat<Served<Server>>,
    number: u32,
    gate: &mut G,
) -> Result<Kit<R, G>, Mem>
    requires seat { IsSeatOf (arc_value ground.now.turn.now) seat.old }
    requires passes { 2 ≤ passes_of seat.old }
    ensures seat { IsSeatOf (arc_value ground.now.turn.now) seat.new }
    ensures own { own_by seat.new ≡ own_by seat.old }
    ensures passes { OnOk result (passes_of seat.new + 1 ≡ passes_of seat.old) }
    ensures hired { IfOk result (λ kit. IsHired (arc_value ground.now.turn.now) (arc_value kit.turn) kit.seat) }
{
    let gate = gate.again(ground.alloc, number)?;
    let rt = ground.rt.clone()?;
    let JobSeat {
        turn: shared,
        seat: theirs,
    } = job_seat_of(ground.turn, seat)?;
    Ok(Kit {
        rt,
        gate,
        turn: shared,
        seat: theirs,
    })
}

/// Makes the four workers, with their shares of the connections.
fn hire_workers<
    R: Runtime,
    D: Door + Send + Drop + 'static,
    T: Clock + Send + Drop + 'static,
    L: Link + Send + Drop + 'static,
    F: Folder + Send + Drop + 'static,
    G: Gate + Send + Drop + 'static,
>(
    ground: &Ground<'_, R>,
    seat: &mut Seat<Served<Server>>,
    requests: u32,
    all: Vec<Ends<D, T, L, F>>,
    gate: &mut G,
) -> Result<Vec<Worker<R, D, T, L, G, F>>, Mem>
    requires seat { IsSeatOf (arc_value ground.now.turn.now) seat.old }
    requires passes { 5 ≤ passes_of seat.old }
    requires fresh { AllByRecursion (λ ends. D.told ends.door ≡ unasked_door) all.items }
    requires few { length all.items ≡ 4 }
    ensures seat { IsSeatOf (arc_value ground.now.turn.now) seat.new }
    ensures own { own_by seat.new ≡ own_by seat.old }
    ensures passes { OnOk result (passes_of seat.new + 4 ≡ passes_of seat.old) }
    ensures workers { IfOk result (λ workers. sum_by (λ worker. worker.post.share) workers.items ≡ requests) }
    ensures fresh { IfOk result (λ workers. AllByRecursion (λ worker. D.told worker.post.door ≡ unasked_door) workers.items) }
    ensures few { IfOk result (λ workers. length workers.items ≡ 4) }
    ensures hired { IfOk result (λ workers. AllByRecursion (λ worker. IsHired (arc_value ground.now.turn.now) (arc_value worker.turn) worker.seat) workers.items) }
{
    let mut workers = Vec::new(ground.alloc);
    let mut number = 0;
    'workers: for ends in all {
        let worker = hire_worker(ground, seat, requests, number, ends, gate)?;
        workers.push(worker)?;
        number += 1;
    }
    Ok(workers)
}

/// Makes the worker of this number.
fn hire_worker<
    R: Runtime,
    D: Door + Send + Drop + 'static,
    T: Clock + Send + Drop + 'static,
    L: Link + Send + Drop + 'static,
    F: Folder + Send + Drop + 'static,
    G: Gate + Send + Drop + 'static,
>(
    ground: &Ground<'_, R>,
    seat: &mut Seat<Served<Server>>,
    requests: u32,
    number: u32,
    ends: Ends<D, T, L, F>,
    gate: &mut G,
) -> Result<Worker<R, D, T, L, G, F>, Mem>
    requires number { number < 4 }
    requires seat { IsSeatOf (arc_value ground.now.turn.now) seat.old }
    requires passes { 2 ≤ passes_of seat.old }
    ensures seat { IsSeatOf (arc_value ground.now.turn.now) seat.new }
    ensures own { own_by seat.new ≡ own_by seat.old }
    ensures passes { OnOk result (passes_of seat.new + 1 ≡ passes_of seat.old) }
    ensures share { IfOk result (λ worker. worker.post.share ≡ share_of requests number) }
    ensures door { IfOk result (λ worker. worker.post.door ≡ ends.door) }
    ensures hired { IfOk result (λ worker. IsHired (arc_value ground.now.turn.now) (arc_value worker.turn) worker.seat) }
{
    let device = own_device(ground.alloc, ground.port, ground.uuid)?;
    let kit = kit_of(ground, seat, number, gate)?;
    Ok(Worker {
        rt: kit.rt,
        alloc: ground.alloc,
        turn: kit.turn,
        seat: kit.seat,
        post: Post {
            door: ends.door,
            clock: ends.clock,
            last: 0,
            link: ends.link,
            gate: kit.gate,
            device,
            folder: ends.folder,
            share: share_of(requests, number),
        },
    })
}

/// Makes the scanner of a folder.
fn hire_scanner<
    R: Runtime,
    F: Folder + Send + Drop + 'static,
    T: Clock + Send + Drop + 'static,
    G: Gate + Send + Drop + 'static,
>(
    ground: &Ground<'_, R>,
    seat: &mut Seat<Served<Server>>,
    folder: F,
    clock: T,
    gate: &mut G,
) -> Result<Scanner<R, F, T, G>, Mem>
    requires seat { IsSeatOf (arc_value ground.now.turn.now) seat.old }
    requires passes { 2 ≤ passes_of seat.old }
    ensures seat { IsSeatOf (arc_value ground.now.turn.now) seat.new }
    ensures own { own_by seat.new ≡ own_by seat.old }
    ensures passes { OnOk result (passes_of seat.new + 1 ≡ passes_of seat.old) }
    ensures hired { IfOk result (λ scanner. IsHired (arc_value ground.now.turn.now) (arc_value scanner.turn) scanner.seat) }
{
    let kit = kit_of(ground, seat, SCANNER, gate)?;
    Ok(Scanner {
        rt: kit.rt,
        alloc: ground.alloc,
        turn: kit.turn,
        seat: kit.seat,
        folder,
        clock,
        gate: kit.gate,
    })
}

/// Makes the notifier.
fn hire_notifier<
    R: Runtime,
    T: Clock + Send + Drop + 'static,
    L: Link + Send + Drop + 'static,
    G: Gate + Send + Drop + 'static,
>(
    ground: &Ground<'_, R>,
    seat: &mut Seat<Served<Server>>,
    clock: T,
    link: L,
    gate: &mut G,
) -> Result<Notifier<R, T, L, G>, Mem>
    requires seat { IsSeatOf (arc_value ground.now.turn.now) seat.old }
    requires passes { 2 ≤ passes_of seat.old }
    ensures seat { IsSeatOf (arc_value ground.now.turn.now) seat.new }
    ensures own { own_by seat.new ≡ own_by seat.old }
    ensures passes { OnOk result (passes_of seat.new + 1 ≡ passes_of seat.old) }
    ensures hired { IfOk result (λ notifier. IsHired (arc_value ground.now.turn.now) (arc_value notifier.turn) notifier.seat) }
{
    let kit = kit_of(ground, seat, NOTIFIER, gate)?;
    Ok(Notifier {
        rt: kit.rt,
        alloc: ground.alloc,
        turn: kit.turn,
        seat: kit.seat,
        clock,
        link,
        gate: kit.gate,
    })
}

/// Starts all jobs and joins them. Returns the server with all that it accepted, and what the scanner counted. The workers end by
/// themselves, and the others once the server is stopped. If a job cannot be started, the server is stopped at once.
pub(crate) fn run_crew<R: Runtime, O: Outside, G: Gate + Send + Drop + 'static>(
    rt: &R,
    crew: Crew<R, O::D, O::C, O::L, O::F, G>,
    running: Vec<Running<Worker<R, O::D, O::C, O::L, G, O::F>>>,
    outside: &mut O,
    spawner: &mut O::W,
) -> Result<Finished, Fault>
where
    <O::D as Door>::Conn: Send,
    <O::F as Folder>::File: Send,
    requires fresh { AllByRecursion (λ worker. O.D.told worker.post.door ≡ unasked_door) crew.workers.items }
    requires none { running.items ≡ [] }
    requires room { 4 ≤ vec_capacity running }
    ensures counts { IfOk result (λ finished. AreCounts (record { accepted = finished.counts.accepted; refused = finished.counts.refused; memory = finished.counts.memory })) }
    ensures turn { IfOk result (λ finished. arc_value finished.turn ≡ arc_value crew.turn) }
    ensures seen { IfOk result (λ finished. HasSeenAll (start_of (arc_value crew.turn) crew.seat) (seat_told (arc_value finished.turn) finished.seat) finished.counts.accepted) }
    ensures connections { OnOk result ((n : ℕ) → raised (O.told outside.new).connections n ≡ raised (O.told outside.old).connections (crew.requests + n)) }
    ensures started { OnOk result ((n : ℕ) → raised (O.W.told spawner.new).started n ≡ raised (O.W.told spawner.old).started (6 + n)) }
    ensures cause { IsCaused result ⊥ (Rose (O.told outside.old).faults (O.told outside.new).faults ⊎ Rose (O.W.told spawner.old).faults (O.W.told spawner.new).faults) }
    ensures others_stay { O.told outside.new ≡ doors_back (O.told outside.old) (O.told outside.new) }
    ensures folders { FoldersBack 4 (O.told outside.old).ended (O.told outside.new).ended }
    ensures spawner_never_falls { (O.W.told spawner.old).faults ≤ (O.W.told spawner.new).faults }
    ensures outside_never_falls { (O.told outside.old).faults ≤ (O.told outside.new).faults }
{
    let Crew {
        port: _,
        requests,
        turn,
        mut seat,
        workers,
        scanner,
        notifier,
    } = crew;
    let Started {
        workers,
        scanner,
        notifier,
    } = start_crew(rt, spawner, workers, scanner, notifier, running);
    let started = notifier.is_some();
    let shared: &Turn<Served<Server>> = &turn;
    stop_if(!started, rt, shared, &mut seat);
    let served = join_workers(rt, outside, shared, &mut seat, workers);
    stop_if(started, rt, shared, &mut seat);
    let scanned = join_scanner(rt, shared, &mut seat, scanner);
    join_notifier(rt, shared, &mut seat, notifier);
    look_last(rt, shared, &mut seat);
    match outcome_of(started, served, requests, scanned) {
        Ok(counts) => Ok(Finished { turn, seat, counts }),
        Err(fault) => Err(fault),
    }
}

/// Returns what the scanner counted, if all jobs were started and all connections served.
fn outcome_of(
    started: bool,
    served: u64,
    requests: u32,
    counts: Option<Counts>,
) -> Result<Counts, Fault>
    ensures ok { IfOk result (λ given. (counts ≡ Some given) × IsTrue started × (served ≡ requests)) }
    ensures err { IfErr result (λ fault. (fault ≡ Fault.Outside) × (IsFalse started ⊎ ((served ≢ requests) ⊎ IsNone counts))) }
{
    match counts {
        Some(counts) => {
            if !started {
                return Err(Fault::Outside);
            }
            if served != u64::from(requests) {
                return Err(Fault::Outside);
            }
            Ok(counts)
        }
        None => Err(Fault::Outside),
    }
}

/// Tells the server to stop, if this is wanted.
fn stop_if<R: Wait>(
    wanted: bool,
    rt: &R,
    turn: &Turn<Served<Server>>,
    seat: &mut Seat<Served<Server>>,
)
    requires { IsSeatOf turn.now seat.old }
    ensures seat { IsSeatOf turn.now seat.new }
    ensures passes { passes_of seat.new ≡ passes_of seat.old }
    ensures wanted { IsTrue wanted → own_by seat.new ≡ Stops ∷ own_by seat.old }
    ensures unwanted { IsFalse wanted → own_by seat.new ≡ own_by seat.old }
{
    if wanted {
        turn.with(rt, seat, Stop);
    }
}

/// Looks at the server once more. If the seat is the only one, it has then seen all that the server accepted, and any test passes as
/// many of those commands as of its own.
fn look_last<R: Wait>(rt: &R, turn: &Turn<Served<Server>>, seat: &mut Seat<Served<Server>>)
    requires { IsSeatOf turn.now seat.old }
    ensures seat { IsSeatOf turn.now seat.new }
    ensures passes { passes_of seat.new ≡ passes_of seat.old }
    ensures own { own_by seat.new ≡ own_by seat.old }
    ensures counted { passes_of seat.old ≡ seats_of turn.now → (test : Command → Bool) → count_by test (own_by seat.new) ≡ count_by test (seen_by seat.new) }
    ensures stands { (serving : Serving) × StandsFor serving (start_of turn.now seat.old) (seen_by seat.new) }
{
    turn.with(rt, seat, IsStopped);
}

/// Starts all jobs, the workers first, until one cannot be started.
fn start_crew<R: Threads, P: Spawner, W: Job, S: Job, N: Job>(
    rt: &R,
    spawner: &mut P,
    workers: Vec<W>,
    scanner: S,
    notifier: N,
    mut running: Vec<Running<W>>,
) -> Started<W, S, N>
    requires none { running.items ≡ [] }
    requires room { vec_len workers ≤ vec_capacity running }
    ensures some { (n : ℕ) × (result.workers.items ≡ take n workers.items) }
    ensures scanner { IfSome result.scanner (λ running. running ≡ scanner) }
    ensures notifier { IfSome result.notifier (λ running. running ≡ notifier) }
    ensures all { IsTrue (is_some result.notifier) → (result.workers.items ≡ workers.items) × IsTrue (is_some result.scanner) }
    ensures started { IsTrue (is_some result.notifier)
        → (n : ℕ) → raised (P.told spawner.new).started n ≡ raised (P.told spawner.old).started (vec_len workers + 2 + n) }
    ensures rose { IfNone result.notifier (Rose (P.told spawner.old).faults (P.told spawner.new).faults) }
    ensures never_falls { (P.told spawner.old).faults ≤ (P.told spawner.new).faults }
{
    let all = start_workers(rt, spawner, workers, &mut running);
    let scanner = start_if(all, rt, spawner, scanner);
    let notifier = start_if(scanner.is_some(), rt, spawner, notifier);
    Started {
        workers: running,
        scanner,
        notifier,
    }
}

/// Starts a job, if this is wanted and possible.
fn start_if<R: Threads, W: Spawner, J: Job>(
    wanted: bool,
    rt: &R,
    spawner: &mut W,
    job: J,
) -> Option<Running<J>>
    ensures job { IfSome result (λ running. (running ≡ job) × IsTrue wanted) }
    ensures started { IfSome result (λ _. (W.told spawner.new).started ≡ raised (W.told spawner.old).started 1) }
    ensures rose { IfNone result (IsTrue wanted → Rose (W.told spawner.old).faults (W.told spawner.new).faults) }
    ensures never_falls { (W.told spawner.old).faults ≤ (W.told spawner.new).faults }
{
    if wanted {
        spawner.start(rt, job).ok()
    } else {
        drop(job);
        None
    }
}

/// Starts workers until one cannot be started, and returns whether all were.
fn start_workers<R: Threads, W: Spawner, J: Job>(
    rt: &R,
    spawner: &mut W,
    jobs: Vec<J>,
    running: &mut Vec<Running<J>>,
) -> bool
    requires none { running.old.items ≡ [] }
    requires room { vec_len jobs ≤ vec_capacity running.old }
    ensures all { IsTrue result → running.new.items ≡ jobs.items }
    ensures started { IsTrue result → (n : ℕ) → raised (W.told spawner.new).started n ≡ raised (W.told spawner.old).started (vec_len jobs + n) }
    ensures some { (n : ℕ) × (running.new.items ≡ take n jobs.items) }
    ensures rose { IsFalse result → Rose (W.told spawner.old).faults (W.told spawner.new).faults }
    ensures never_falls { (W.told spawner.old).faults ≤ (W.told spawner.new).faults }
{
    'jobs: for job in jobs {
        match spawner.start(rt, job) {
            Ok(started) => {
                if running.push(started).is_err() {
                    unreachable!();
                }
            }
            Err(_) => return false,
        }
    }
    true
}

/// Joins the workers that were started, hands their doors and folders back, takes their seats back, and returns how many
/// connections they served.
fn join_workers<R: Runtime, O: Outside, G: Gate + Send + Drop + 'static>(
    rt: &R,
    outside: &mut O,
    turn: &Turn<Served<Server>>,
    seat: &mut Seat<Served<Server>>,
    running: Vec<Running<Worker<R, O::D, O::C, O::L, G, O::F>>>,
) -> u64
where
    <O::D as Door>::Conn: Send,
    <O::F as Folder>::File: Send,
    requires seat { IsSeatOf turn.now seat.old }
    requires hired { AllByRecursion (λ worker. IsHired turn.now (arc_value worker.turn) worker.seat) running.items }
    requires fresh { AllByRecursion (λ worker. O.D.told worker.post.door ≡ unasked_door) running.items }
    requires few { sum_by (λ worker. worker.post.share) running.items < 2 ^ 32 }
    ensures seat { IsSeatOf turn.now seat.new }
    ensures passes { passes_of seat.new ≡ passes_of seat.old + length running.items }
    ensures own { FollowAnswers (own_by seat.old) (own_by seat.new) }
    ensures connections { (n : ℕ) → raised (O.told outside.new).connections n ≡ raised (O.told outside.old).connections (result + n) }
    ensures no_more { result ≤ sum_by (λ worker. worker.post.share) running.items }
    ensures all { (result ≡ sum_by (λ worker. worker.post.share) running.items) ⊎ Rose (O.told outside.old).faults (O.told outside.new).faults }
    ensures never_falls { (O.told outside.old).faults ≤ (O.told outside.new).faults }
    ensures others_stay { O.told outside.new ≡ doors_back (O.told outside.old) (O.told outside.new) }
    ensures folders { FoldersBack (length running.items) (O.told outside.old).ended (O.told outside.new).ended }
{
    let mut total = 0;
    'joined: for worker in running {
        let Worked {
            door,
            folder,
            seat: theirs,
            served,
        } = worker.join(rt);
        turn.join(seat, theirs);
        outside.end_folder(folder);
        outside.end_door(door);
        total += u64::from(served);
    }
    total
}

/// Joins the scanner, if it was started, takes its seat back, and returns what it counted.
fn join_scanner<
    R: Runtime,
    F: Folder + Send + Drop + 'static,
    T: Clock + Send + Drop + 'static,
    G: Gate + Send + Drop + 'static,
>(
    rt: &R,
    turn: &Turn<Served<Server>>,
    seat: &mut Seat<Served<Server>>,
    scanner: Option<Running<Scanner<R, F, T, G>>>,
) -> Option<Counts>
where
    F::File: Send,
    requires seat { IsSeatOf turn.now seat.old }
    requires hired { IfSome scanner (λ scanner. IsHired turn.now (arc_value scanner.turn) scanner.seat) }
    ensures seat { IsSeatOf turn.now seat.new }
    ensures passes { IfSome result (λ _. passes_of seat.new ≡ passes_of seat.old + 1) }
    ensures own { IfSome result (λ counts. FollowScans counts.accepted (own_by seat.old) (own_by seat.new)) }
    ensures counts { IfSome result (λ counts. AreCounts (record { accepted = counts.accepted; refused = counts.refused; memory = counts.memory })) }
    ensures started { is_some result ≡ is_some scanner }
{
    let Scanned {
        folder: _,
        seat: theirs,
        accepted,
        refused,
        memory,
    } = scanner?.join(rt);
    turn.join(seat, theirs);
    Some(Counts {
        accepted,
        refused,
        memory,
    })
}

/// Joins the notifier, if it was started, and takes its seat back.
fn join_notifier<
    R: Runtime,
    T: Clock + Send + Drop + 'static,
    L: Link + Send + Drop + 'static,
    G: Gate + Send + Drop + 'static,
>(
    rt: &R,
    turn: &Turn<Served<Server>>,
    seat: &mut Seat<Served<Server>>,
    notifier: Option<Running<Notifier<R, T, L, G>>>,
)
    requires seat { IsSeatOf turn.now seat.old }
    requires hired { IfSome notifier (λ notifier. IsHired turn.now (arc_value notifier.turn) notifier.seat) }
    ensures seat { IsSeatOf turn.now seat.new }
    ensures passes { IfSome notifier (λ _. passes_of seat.new ≡ passes_of seat.old + 1) }
    ensures own { IfSome notifier (λ _. FollowTicks (own_by seat.old) (own_by seat.new)) }
{
    if let Some(running) = notifier {
        let Notified { seat: theirs } = running.join(rt);
        turn.join(seat, theirs);
    }
}
