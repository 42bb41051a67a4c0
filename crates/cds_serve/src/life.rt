//! A server that listens at a port, from its start to its end.

ghost use Rattle.std.specs.Prelude.{◌≡◌, ◌⊎◌, ◌+◌, ◌≤◌, ℕ, [], ◌∷◌, ◌++◌, drop, Ok, Err, IfOk, OnOk, string_bytes};
ghost use Rattle.std.specs.Arc.{arc_value};
ghost use Rattle.std.specs.Fmt.{decimal};
ghost use Rattle.std.specs.List.{AllByRecursion};
ghost use Rattle.cds_outside.specs.Asked.{ForDoor, ForSpawner};
ghost use Rattle.cds_outside.specs.Outside.{Rose, raised};
ghost use Rattle.cds_outside.specs.Told.{asked_then, unasked_door, unasked_spawner};
ghost use Rattle.cds_turn.specs.Turn.{start_of};
ghost use Rattle.cds_serve.specs.Life.{AsksFor, EndsLife, FoldersBack, IsCaused, IsOpenedAt, KeepsEnded, StaysEnded, Takes, WritesLife, WritesLine, doors_back, life_asks, served_line, serving_line, status_of};

use crate::crew::{Counts, Crew, Finished, hire_crew, run_crew};
use crate::fault::Fault;
use crate::means::{WORKERS, ask_door, ask_means, ask_spawner};
use cds_base::{Mem, put, put_number};
use cds_outside::{Door, Folder, Gate, Outside, Runtime, Sink, write_all};
use std::alloc::Global;
use std::marker::Send;

/// What a server is to do.
#[derive(Clone, Copy)]
struct Order<'a> {
    port: u16,
    /// The path of the folder.
    folder: &'a str,
    /// How many connections are to be served.
    requests: u32,
}

/// What a server begins with: the door that it listens at, and the spawner of its jobs.
struct Front<D, W> {
    door: D,
    spawner: W,
}

/// A server whose jobs are hired and not started yet.
struct Hired<R, W, D, T, L, F, G> {
    front: Front<D, W>,
    crew: Crew<R, D, T, L, F, G>,
}

/// Serves a library over HTTP until `requests` connections were served (UPnP ContentDirectory:4). It answers the connections at
/// the port, scans the folder again and again, and sends the notes of its changes.
///
/// It writes `serving PORT` once it listens, and `served REQUESTS scans A refused B memory C` at the end. A scans were accepted.
/// C were refused because memory ran out, and B for another cause.
///
/// Four workers, a scanner and a notifier do the work, each in a thread of its own. The status is:
///
/// - 0: all was served
/// - 3: the sink could not be written
/// - 4: memory ran out
/// - 7: the outside, the spawner or a door failed
///
/// With status 0, requests about subscriptions, scans, ticks and one stop gave all commands that the server accepted.
///
/// When it returns, the jobs that were started have ended. A fault of one connection, of a link, of the folder or of a clock ends
/// nothing. The folders of the workers are handed back to the outside. Neither the scanner's folder nor a link is.
pub fn serve<R: Runtime, K: Sink, O: Outside, G: Gate + Send + Drop + 'static>(
    rt: &R,
    alloc: Global,
    port: u16,
    folder: &str,
    requests: u32,
    sink: &mut K,
    outside: &mut O,
    gate: &mut G,
) -> u8
where
    <O::D as Door>::Conn: Send,
    <O::F as Folder>::File: Send,
    ensures ends { EndsLife port folder.now requests result
        (record { outside = O.told outside.old; sink = K.told sink.old })
        (record { outside = O.told outside.new; sink = K.told sink.new }) }
    ensures ended_stays { KeepsEnded (O.told outside.old) (O.told outside.new) }
    ensures sink_never_falls { (K.told sink.old).faults ≤ (K.told sink.new).faults }
    ensures outside_never_falls { (O.told outside.old).faults ≤ (O.told outside.new).faults }
{
    let order = Order {
        port,
        folder,
        requests,
    };
    match hire(rt, alloc, &order, outside, gate) {
        Ok(hired) => {
            let Hired { mut front, crew } = hired;
            let ended = live(rt, alloc, crew, sink, outside, &mut front.spawner);
            end_front(outside, front);
            status_of(ended)
        }
        Err(fault) => status_of(Err(fault)),
    }
}

/// Asks for a door and a spawner. If there is no spawner, the door is handed back.
fn ask_front<O: Outside>(
    alloc: Global,
    port: u16,
    outside: &mut O,
) -> Result<Front<O::D, O::W>, Fault>
    ensures asks { AsksFor result (ForDoor port ∷ ForSpawner ∷ []) (O.told outside.old).asked (O.told outside.new).asked }
    ensures cause { IsCaused result ⊥ (Rose (O.told outside.old).faults (O.told outside.new).faults) }
    ensures fresh { IfOk result (λ front. (O.D.told front.door ≡ unasked_door) × (O.W.told front.spawner ≡ unasked_spawner)) }
    ensures others { OnOk result (O.told outside.new ≡ asked_then (O.told outside.old) (O.told outside.new)) }
    ensures ended_stays { StaysEnded (O.told outside.old) (O.told outside.new) }
    ensures never_falls { (O.told outside.old).faults ≤ (O.told outside.new).faults }
{
    let door = ask_door(alloc, port, outside)?;
    match ask_spawner(alloc, outside) {
        Ok(spawner) => Ok(Front { door, spawner }),
        Err(fault) => {
            outside.end_door(door);
            Err(fault)
        }
    }
}

/// Hands a door and a spawner back.
fn end_front<O: Outside>(outside: &mut O, front: Front<O::D, O::W>)
    ensures connections { (O.told outside.new).connections ≡ raised (O.told outside.old).connections (O.D.told front.door).connections }
    ensures started { (O.told outside.new).started ≡ raised (O.told outside.old).started (O.W.told front.spawner).started }
    ensures asked { (O.told outside.new).asked ≡ (O.told outside.old).asked }
    ensures rose { ((O.D.told front.door).faults ≡ 0) ⊎ Rose (O.told outside.old).faults (O.told outside.new).faults }
    ensures rose_spawner { ((O.W.told front.spawner).faults ≡ 0) ⊎ Rose (O.told outside.old).faults (O.told outside.new).faults }
    ensures ended_stays { StaysEnded (O.told outside.old) (O.told outside.new) }
    ensures never_falls { (O.told outside.old).faults ≤ (O.told outside.new).faults }
{
    let Front { door, spawner } = front;
    outside.end_spawner(spawner);
    outside.end_door(door);
}

/// Asks for all that a server needs, and hires its jobs. If that fails, what was to come back to the outside is handed back.
fn hire<R: Runtime, O: Outside, G: Gate + Send + Drop + 'static>(
    rt: &R,
    alloc: Global,
    order: &Order<'_>,
    outside: &mut O,
    gate: &mut G,
) -> Result<Hired<R, O::W, O::D, O::C, O::L, O::F, G>, Fault>
    ensures asks { AsksFor result (life_asks order.now.port order.now.folder.now) (O.told outside.old).asked (O.told outside.new).asked }
    ensures cause { IsCaused result ⊥ (Rose (O.told outside.old).faults (O.told outside.new).faults) }
    ensures spawner { IfOk result (λ hired. O.W.told hired.front.spawner ≡ unasked_spawner) }
    ensures none_given { IfOk result (λ hired. (O.D.told hired.front.door).connections ≡ 0) }
    ensures asked { IfOk result (λ hired. (hired.crew.port ≡ order.now.port) × (hired.crew.requests ≡ order.now.requests)) }
    ensures fresh { IfOk result (λ hired. AllByRecursion (λ worker. O.D.told worker.post.door ≡ unasked_door) hired.crew.workers.items) }
    ensures opened { IfOk result (λ hired. IsOpenedAt order.now.port (start_of (arc_value hired.crew.turn) hired.crew.seat)) }
    ensures others { OnOk result (O.told outside.new ≡ asked_then (O.told outside.old) (O.told outside.new)) }
    ensures ended_stays { StaysEnded (O.told outside.old) (O.told outside.new) }
    ensures never_falls { (O.told outside.old).faults ≤ (O.told outside.new).faults }
{
    let mut front = ask_front(alloc, order.port, outside)?;
    match crew_at(rt, alloc, order, outside, gate, &mut front.door) {
        Ok(crew) => Ok(Hired { front, crew }),
        Err(fault) => {
            end_front(outside, front);
            Err(fault)
        }
    }
}

/// Asks for all that the jobs take, and hires them.
fn crew_at<R: Runtime, O: Outside, G: Gate + Send + Drop + 'static>(
    rt: &R,
    alloc: Global,
    order: &Order<'_>,
    outside: &mut O,
    gate: &mut G,
    door: &mut O::D,
) -> Result<Crew<R, O::D, O::C, O::L, O::F, G>, Fault>
    ensures takes { Takes result (drop 2 (life_asks order.now.port order.now.folder.now)) (O.told outside.old) (O.told outside.new) (O.D.told door.old) (O.D.told door.new) }
    ensures asked { IfOk result (λ crew. (crew.port ≡ order.now.port) × (crew.requests ≡ order.now.requests)) }
    ensures fresh { IfOk result (λ crew. AllByRecursion (λ worker. O.D.told worker.post.door ≡ unasked_door) crew.workers.items) }
    ensures opened { IfOk result (λ crew. IsOpenedAt order.now.port (start_of (arc_value crew.turn) crew.seat)) }
{
    let means = ask_means(alloc, order.port, order.folder, outside, door)?;
    Ok(hire_crew(rt, alloc, order.port, order.requests, means, gate)?)
}

/// Lets the jobs serve to the end, and writes both lines.
fn live<R: Runtime, K: Sink, O: Outside, G: Gate + Send + Drop + 'static>(
    rt: &R,
    alloc: Global,
    crew: Crew<R, O::D, O::C, O::L, O::F, G>,
    sink: &mut K,
    outside: &mut O,
    spawner: &mut O::W,
) -> Result<(), Fault>
where
    <O::D as Door>::Conn: Send,
    <O::F as Folder>::File: Send,
    requires fresh { AllByRecursion (λ worker. O.D.told worker.post.door ≡ unasked_door) crew.workers.items }
    requires opened { IsOpenedAt crew.port (start_of (arc_value crew.turn) crew.seat) }
    ensures cause { IsCaused result (Rose (K.told sink.old).faults (K.told sink.new).faults)
        (Rose (O.told outside.old).faults (O.told outside.new).faults ⊎ Rose (O.W.told spawner.old).faults (O.W.told spawner.new).faults) }
    ensures writes { WritesLife result crew.port crew.requests (K.told sink.old).holds (K.told sink.new).holds }
    ensures connections { OnOk result ((n : ℕ) → raised (O.told outside.new).connections n ≡ raised (O.told outside.old).connections (crew.requests + n)) }
    ensures started { OnOk result ((n : ℕ) → raised (O.W.told spawner.new).started n ≡ raised (O.W.told spawner.old).started (6 + n)) }
    ensures others_stay { O.told outside.new ≡ doors_back (O.told outside.old) (O.told outside.new) }
    ensures folders { FoldersBack 4 (O.told outside.old).ended (O.told outside.new).ended }
    ensures spawner_never_falls { (O.W.told spawner.old).faults ≤ (O.W.told spawner.new).faults }
    ensures sink_never_falls { (K.told sink.old).faults ≤ (K.told sink.new).faults }
    ensures outside_never_falls { (O.told outside.old).faults ≤ (O.told outside.new).faults }
{
    let requests = crew.requests;
    let running = Vec::with_capacity(alloc, WORKERS)?;
    write_serving(alloc, sink, crew.port)?;
    let Finished { turn, seat, counts } = run_crew(rt, crew, running, outside, spawner)?;
    drop(seat);
    drop(turn);
    write_served(alloc, sink, requests, counts)
}

/// Returns the status of an end.
fn status_of(ended: Result<(), Fault>) -> u8
    ensures { result ≡ status_of ended }
{
    match ended {
        Ok(()) => 0,
        Err(Fault::Sink) => 3,
        Err(Fault::Mem) => 4,
        Err(Fault::Outside) => 7,
    }
}

/// Returns the line that says that a server listens.
fn serving_line(alloc: Global, port: u16) -> Result<String, Mem>
    ensures { IfOk result (λ line. string_bytes line ≡ serving_line port) }
{
    let mut line = String::new(alloc);
    put_count(&mut line, "serving ", u64::from(port))?;
    put(&mut line, "\n")?;
    Ok(line)
}

/// Returns the line that says what was done.
fn served_line(alloc: Global, requests: u32, counts: Counts) -> Result<String, Mem>
    ensures { IfOk result (λ line. string_bytes line
        ≡ served_line requests (record { accepted = counts.accepted; refused = counts.refused; memory = counts.memory })) }
{
    let mut line = String::new(alloc);
    put_served(&mut line, requests, counts)?;
    Ok(line)
}

/// Appends the line that says what was done.
fn put_served(line: &mut String, requests: u32, counts: Counts) -> Result<(), Mem>
    requires { string_bytes line.old ≡ [] }
    ensures { OnOk result (string_bytes line.new
        ≡ served_line requests (record { accepted = counts.accepted; refused = counts.refused; memory = counts.memory })) }
{
    put_count(line, "served ", u64::from(requests))?;
    put_count(line, " scans ", counts.accepted)?;
    put_count(line, " refused ", counts.refused)?;
    put_count(line, " memory ", counts.memory)?;
    put(line, "\n")?;
    Ok(())
}

/// Appends a word and a number.
fn put_count(line: &mut String, word: &str, number: u64) -> Result<(), Mem>
    ensures { OnOk result (string_bytes line.new ≡ string_bytes line.old ++ word.now ++ decimal number) }
{
    put(line, word)?;
    put_number(line, number)
}

/// Writes a line.
fn write_line<K: Sink>(sink: &mut K, line: &str) -> Result<(), Fault>
    ensures written { WritesLine result line.now (K.told sink.old).holds (K.told sink.new).holds }
    ensures cause { IsCaused result (Rose (K.told sink.old).faults (K.told sink.new).faults) ⊥ }
    ensures never_falls { (K.told sink.old).faults ≤ (K.told sink.new).faults }
{
    match write_all(sink, line.as_bytes()) {
        Ok(()) => Ok(()),
        Err(_) => Err(Fault::Sink),
    }
}

/// Writes the line that says that a server listens.
fn write_serving<K: Sink>(alloc: Global, sink: &mut K, port: u16) -> Result<(), Fault>
    ensures written { WritesLine result (serving_line port) (K.told sink.old).holds (K.told sink.new).holds }
    ensures cause { IsCaused result (Rose (K.told sink.old).faults (K.told sink.new).faults) ⊥ }
    ensures never_falls { (K.told sink.old).faults ≤ (K.told sink.new).faults }
{
    let line = serving_line(alloc, port)?;
    write_line(sink, line.as_str())
}

/// Writes the line that says what was done.
fn write_served<K: Sink>(
    alloc: Global,
    sink: &mut K,
    requests: u32,
    counts: Counts,
) -> Result<(), Fault>
    ensures written { WritesLine result (served_line requests (record { accepted = counts.accepted; refused = counts.refused; memory = counts.memory }))
        (K.told sink.old).holds (K.told sink.new).holds }
    ensures cause { IsCaused result (Rose (K.told sink.old).faults (K.told sink.new).faults) ⊥ }
    ensures never_falls { (K.told sink.old).faults ≤ (K.told sink.new).faults }
{
    let line = served_line(alloc, requests, counts)?;
    write_line(sink, line.as_str())
}
