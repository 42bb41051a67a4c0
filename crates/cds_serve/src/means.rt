//! What the jobs of a server take from the outside, and the boot words.

ghost use Rattle.std.specs.Prelude.{◌≡◌, ◌≤◌, ◌<◌, [], ◌∷◌, length, take, drop, Ok, Err, IfErr, IfOk, IsFalse, IsTrue};
ghost use Rattle.std.specs.List.{AllByRecursion};
ghost use Rattle.cds_outside.specs.Asked.{ForClock, ForDoor, ForFolder, ForLink, ForSpawner};
ghost use Rattle.cds_outside.specs.Outside.{Rose};
ghost use Rattle.cds_outside.specs.Told.{IsFresh, unasked_door, unasked_spawner};
ghost use Rattle.cds_serve.specs.Life.{AreBootWords, AreFirstWords, Asks, IsCaused, OfFirst, Takes, fault_of, first_word, life_asks, second_word, worker_asks};

use crate::fault::Fault;
use cds_outside::{Clock, Door, Failed, Outside, OutsideFault};
use std::alloc::Global;

/// The number of workers.
pub(crate) const WORKERS: usize = 4;

/// What a worker takes from the outside.
#[derive(Drop)]
pub(crate) struct Ends<D, T, L, F> {
    pub(crate) door: D,
    pub(crate) clock: T,
    pub(crate) link: L,
    pub(crate) folder: F,
}

/// What all jobs take from the outside.
#[derive(Drop)]
pub(crate) struct Means<D, T, L, F> {
    /// The boot words, by the clock of the first worker.
    pub(crate) boot: [u64; 2],
    pub(crate) folder: F,
    pub(crate) workers: Vec<Ends<D, T, L, F>>,
    pub(crate) scanner: T,
    pub(crate) notifier: T,
    pub(crate) link: L,
}

/// Returns the boot words of a server at a port. Its names are made of them. They hold the port and the moment that the clock
/// gives, or 0 if the clock fails. `serve` takes them from a clock of which nothing was asked yet.
pub fn boot_words<T: Clock>(clock: &mut T, port: u16) -> [u64; 2]
    ensures words { AreBootWords port (T.told clock.old) (T.told clock.new) result }
    ensures never_falls { (T.told clock.old).faults ≤ (T.told clock.new).faults }
{
    match clock.now() {
        Ok(moment) => words_of(moment, port),
        Err(Failed) => words_of(0, port),
    }
}

/// Returns the boot words of a moment and a port.
fn words_of(moment: u64, port: u16) -> [u64; 2]
    ensures { result ≡ first_word moment ∷ second_word port ∷ [] }
{
    [first_word(moment), second_word(port)]
}

/// Returns the first boot word: a moment modulo 2^48, in the bits above the lowest 16.
fn first_word(moment: u64) -> u64
    ensures { result ≡ first_word moment }
{
    (moment % (1 << 48)) * (1 << 16)
}

/// Returns the second boot word: a port, in the bits above the lowest 32.
fn second_word(port: u16) -> u64
    ensures { result ≡ second_word port }
{
    u64::from(port) * (1 << 32)
}

/// Returns what the outside gave, or its fault as one of the server.
fn given<A: Drop>(answer: Result<A, OutsideFault>) -> Result<A, Fault>
    ensures ok { IfOk answer (λ object. result ≡ Ok object) }
    ensures err { IfErr answer (λ fault. result ≡ Err (fault_of fault)) }
{
    match answer {
        Ok(object) => Ok(object),
        Err(OutsideFault::Failed) => Err(Fault::Outside),
        Err(OutsideFault::Mem) => Err(Fault::Mem),
    }
}

/// Asks the outside for a clock.
fn ask_clock<O: Outside>(alloc: Global, outside: &mut O) -> Result<O::C, Fault>
    ensures asks { Asks result (ForClock ∷ []) (O.told outside.old) (O.told outside.new) }
    ensures fresh { IfOk result (λ clock. IsFresh (O.C.told clock)) }
{
    given(outside.clock(alloc))
}

/// Asks the outside for a link.
fn ask_link<O: Outside>(alloc: Global, outside: &mut O) -> Result<O::L, Fault>
    ensures { Asks result (ForLink ∷ []) (O.told outside.old) (O.told outside.new) }
{
    given(outside.link(alloc))
}

/// Asks the outside for the folder at a path.
fn ask_folder<O: Outside>(alloc: Global, path: &str, outside: &mut O) -> Result<O::F, Fault>
    ensures { Asks result (ForFolder path.now ∷ []) (O.told outside.old) (O.told outside.new) }
{
    given(outside.folder(alloc, path))
}

/// Asks the outside for the door at a port.
pub(crate) fn ask_door<O: Outside>(alloc: Global, port: u16, outside: &mut O) -> Result<O::D, Fault>
    ensures asks { Asks result (ForDoor port ∷ []) (O.told outside.old) (O.told outside.new) }
    ensures fresh { IfOk result (λ door. O.D.told door ≡ unasked_door) }
{
    given(outside.door(alloc, port))
}

/// Asks the outside for a spawner.
pub(crate) fn ask_spawner<O: Outside>(alloc: Global, outside: &mut O) -> Result<O::W, Fault>
    ensures asks { Asks result (ForSpawner ∷ []) (O.told outside.old) (O.told outside.new) }
    ensures fresh { IfOk result (λ spawner. O.W.told spawner ≡ unasked_spawner) }
{
    given(outside.spawner(alloc))
}

/// Asks a door for another handle of it.
fn ask_handle<D: Door>(door: &mut D) -> Result<D, Fault>
    ensures fresh { IfOk result (λ handle. D.told handle ≡ unasked_door) }
    ensures cause { IsCaused result ⊥ (Rose (D.told door.old).faults (D.told door.new).faults) }
    ensures connections_stay { (D.told door.new).connections ≡ (D.told door.old).connections }
    ensures never_falls { (D.told door.old).faults ≤ (D.told door.new).faults }
{
    match door.again() {
        Ok(handle) => Ok(handle),
        Err(_) => Err(Fault::Outside),
    }
}

/// Asks for all that a worker takes.
fn ask_ends<O: Outside>(
    alloc: Global,
    path: &str,
    outside: &mut O,
    door: &mut O::D,
) -> Result<Ends<O::D, O::C, O::L, O::F>, Fault>
    ensures takes { Takes result (worker_asks path.now 1) (O.told outside.old) (O.told outside.new) (O.D.told door.old) (O.D.told door.new) }
    ensures fresh { IfOk result (λ ends. O.D.told ends.door ≡ unasked_door) }
    ensures fresh_clock { IfOk result (λ ends. IsFresh (O.C.told ends.clock)) }
{
    let clock = ask_clock(alloc, outside)?;
    let link = ask_link(alloc, outside)?;
    let folder = ask_folder(alloc, path, outside)?;
    let door = ask_handle(door)?;
    Ok(Ends {
        door,
        clock,
        link,
        folder,
    })
}

/// Has the clock of the first worker give the boot words of a server at a port. The other workers leave them.
fn with_boot<D, T: Clock, L, F>(
    mut ends: Ends<D, T, L, F>,
    is_first: bool,
    port: u16,
    boot: &mut [u64; 2],
) -> Ends<D, T, L, F>
    ensures door { result.door ≡ ends.door }
    ensures first { IsTrue is_first → AreBootWords port (T.told ends.clock) (T.told result.clock) boot.new }
    ensures others { IsFalse is_first → boot.new ≡ boot.old }
{
    if is_first {
        *boot = boot_words(&mut ends.clock, port);
    }
    ends
}

/// Asks for all that the workers take, and for the boot words of a server at a port.
fn ask_workers<O: Outside>(
    alloc: Global,
    port: u16,
    path: &str,
    outside: &mut O,
    door: &mut O::D,
    boot: &mut [u64; 2],
) -> Result<Vec<Ends<O::D, O::C, O::L, O::F>>, Fault>
    ensures takes { Takes result (worker_asks path.now 4) (O.told outside.old) (O.told outside.new) (O.D.told door.old) (O.D.told door.new) }
    ensures fresh { IfOk result (λ all. AllByRecursion (λ ends. O.D.told ends.door ≡ unasked_door) all.items) }
    ensures few { IfOk result (λ all. length all.items ≡ 4) }
    ensures boot { IfOk result (λ all. OfFirst (λ ends. AreFirstWords port (O.C.told ends.clock) boot.new) all.items) }
{
    let mut all = Vec::with_capacity(alloc, WORKERS)?;
    'workers: while all.len() < WORKERS {
        let ends = ask_ends(alloc, path, outside, door)?;
        let first = with_boot(ends, all.is_empty(), port, boot);
        all.push(first)?;
    }
    Ok(all)
}

/// Asks for all that the jobs take.
pub(crate) fn ask_means<O: Outside>(
    alloc: Global,
    port: u16,
    path: &str,
    outside: &mut O,
    door: &mut O::D,
) -> Result<Means<O::D, O::C, O::L, O::F>, Fault>
    ensures takes { Takes result (drop 2 (life_asks port path.now)) (O.told outside.old) (O.told outside.new) (O.D.told door.old) (O.D.told door.new) }
    ensures fresh { IfOk result (λ means. AllByRecursion (λ ends. O.D.told ends.door ≡ unasked_door) means.workers.items) }
    ensures few { IfOk result (λ means. length means.workers.items ≡ 4) }
    ensures boot { IfOk result (λ means. OfFirst (λ ends. AreFirstWords port (O.C.told ends.clock) means.boot) means.workers.items) }
{
    let folder = ask_folder(alloc, path, outside)?;
    let mut boot = [0, 0];
    let workers = ask_workers(alloc, port, path, outside, door, &mut boot)?;
    let scanner = ask_clock(alloc, outside)?;
    let notifier = ask_clock(alloc, outside)?;
    let link = ask_link(alloc, outside)?;
    Ok(Means {
        boot,
        folder,
        workers,
        scanner,
        notifier,
        link,
    })
}
