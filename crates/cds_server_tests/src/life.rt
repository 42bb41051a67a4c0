//! Tests of whole lives of a server in which one call fails.

use crate::made::{MEMORY, asking, clock, folder, link, only, sink, subscribing};
use cds_base::{Numbers, Sequence};
use cds_memory::{MemDoor, MemObjects, MemOutside, MemSink, MemSpawner};
use cds_outside::{Gate, NoGate, Runtime};
use cds_serve::serve;
use std::alloc::Global;
use std::marker::{Send, Sync};
use std::process::Abort;
use std::sync::Wait;
use std::thread::Threads;

/// A part of what a server works with.
#[derive(Clone, Copy, PartialEq, Eq)]
pub enum Part {
    Door,
    Spawner,
    Outside,
    Sink,
    Clock,
    Link,
}

/// A call of a part that fails, counted from 1. If it is 0, no call fails.
#[derive(Clone, Copy)]
pub struct Fault {
    pub part: Part,
    pub call: u32,
}

/// Returns the calls of a part that fail.
pub fn calls_of<R: Abort>(rt: &R, alloc: Global, fault: Fault, part: Part) -> Numbers {
    only(rt, alloc, call_of(fault, part))
}

/// Returns the call of this part that fails, or 0 if none does.
fn call_of(fault: Fault, part: Part) -> u32 {
    if fault.part == part { fault.call } else { 0 }
}

/// Makes a door with a connection that subscribes and one that asks for a page.
pub fn door<R: Wait + Clone + Copy + Drop + Abort>(
    rt: R,
    alloc: Global,
    fault: Fault,
) -> MemDoor<R> {
    let mut conns = Sequence::new(alloc);
    conns.push(subscribing(&rt, alloc)).expect(&rt, MEMORY);
    conns.push(asking(&rt, alloc, 0, 0)).expect(&rt, MEMORY);
    let fails = calls_of(&rt, alloc, fault, Part::Door);
    MemDoor::new(rt, alloc, conns, fails).expect(&rt, MEMORY)
}

/// Puts a clock and a link for each of six jobs.
fn put_ends<R: Drop + Abort>(rt: &R, alloc: Global, fault: Fault, objects: &mut MemObjects<R>) {
    for _ in 0..6 {
        let clock = clock(rt, alloc, &[], call_of(fault, Part::Clock));
        objects.clocks.push(clock).expect(rt, MEMORY);
        let link = link(rt, alloc, call_of(fault, Part::Link));
        objects.links.push(link).expect(rt, MEMORY);
    }
}

/// Makes all that a server asks for, with this door.
fn objects_of<R: Wait + Clone + Drop + Abort>(
    rt: &R,
    alloc: Global,
    fault: Fault,
    door: MemDoor<R>,
) -> MemObjects<R> {
    let mut objects = MemObjects::new(alloc);
    put_ends(rt, alloc, fault, &mut objects);
    objects.doors.push(door).expect(rt, MEMORY);
    for _ in 0..5 {
        let folder = folder(rt, alloc, "Rock");
        objects.folders.push(folder).expect(rt, MEMORY);
    }
    let spawner = MemSpawner::new(calls_of(rt, alloc, fault, Part::Spawner));
    objects.spawners.push(spawner).expect(rt, MEMORY);
    objects
}

/// Makes an outside that gives these objects, and in which the calls for an object that the fault names fail.
pub fn outside_of<R: Wait + Clone + Drop + Abort>(
    rt: &R,
    alloc: Global,
    fault: Fault,
    door: MemDoor<R>,
) -> MemOutside<R> {
    let fails = calls_of(rt, alloc, fault, Part::Outside);
    MemOutside::new(objects_of(rt, alloc, fault, door), fails)
}

/// What became of a server: its status, the connections given, the jobs started and the failed calls of the outside.
#[derive(Clone, Copy)]
pub struct End {
    pub status: u8,
    pub connections: u64,
    pub started: u64,
    pub faults: u64,
}

/// Returns what an outside counted, with the status that the server ended with.
fn end_with<R: Wait + Drop>(status: u8, outside: &MemOutside<R>) -> End {
    End {
        status,
        connections: outside.connections(),
        started: outside.started(),
        faults: outside.faults(),
    }
}

/// Lets a server serve `requests` connections at the port 49152, with what this outside gives.
pub fn lived<R: Runtime, G: Gate + Send + Drop + 'static>(
    rt: &R,
    alloc: Global,
    requests: u32,
    outside: &mut MemOutside<R>,
    sink: &mut MemSink,
    gate: &mut G,
) -> End {
    let status = serve(rt, alloc, 49_152, "music", requests, sink, outside, gate);
    end_with(status, outside)
}

/// No fault.
pub const NONE: Fault = Fault {
    part: Part::Door,
    call: 0,
};

/// Returns what becomes of a server that serves `requests` connections if a call fails, and whether it writes exactly
/// this.
fn end_of<R: Threads + Wait + Clone + Copy + Drop + Abort + Send + Sync + 'static>(
    rt: R,
    alloc: Global,
    requests: u32,
    fault: Fault,
    text: &str,
) -> (End, bool) {
    let mut sink = sink(&rt, alloc, call_of(fault, Part::Sink));
    let mut outside = outside_of(&rt, alloc, fault, door(rt, alloc, fault));
    let end = lived(&rt, alloc, requests, &mut outside, &mut sink, &mut NoGate);
    (end, sink.as_slice() == text.as_bytes())
}

/// A number of connections, and what a server writes that serves them.
#[derive(Drop)]
struct LifeCase {
    name: &'static str,
    requests: u32,
    text: &'static str,
}

const LIVES: [LifeCase; 3] = [
    LifeCase {
        name: "no connection",
        requests: 0,
        text: "serving 49152\nserved 0 scans 1 refused 0 memory 0\n",
    },
    LifeCase {
        name: "one connection",
        requests: 1,
        text: "serving 49152\nserved 1 scans 1 refused 0 memory 0\n",
    },
    LifeCase {
        name: "two connections",
        requests: 2,
        text: "serving 49152\nserved 2 scans 1 refused 0 memory 0\n",
    },
];

/// Checks that a server serves the connections of a case, and what it writes.
fn check_life<R: Threads + Wait + Clone + Copy + Drop + Abort + Send + Sync + 'static>(
    rt: R,
    alloc: Global,
    case: &LifeCase,
) {
    let (end, is_written) = end_of(rt, alloc, case.requests, NONE, case.text);
    assert!(rt; end.status == 0, "{}: the status {}", case.name, end.status);
    assert!(rt; is_written, "{}: what is written", case.name);
    let connections = u64::from(case.requests);
    assert!(rt;
        end.connections == connections,
        "{}: the connections",
        case.name
    );
    assert!(rt; end.started == 6, "{}: the jobs started", case.name);
    assert!(rt; end.faults == 0, "{}: the faults", case.name);
}

#[test]
fn a_server_serves_to_its_end(rt: HostRuntime) {
    for case in &LIVES {
        check_life(rt, rt.alloc(), case);
    }
}

/// A part, how many of its calls end a server if they fail, and the status that it then ends with.
#[derive(Drop)]
struct FaultCase {
    name: &'static str,
    part: Part,
    calls: u32,
    status: u8,
}

const FAULTS: [FaultCase; 6] = [
    FaultCase {
        name: "the door",
        part: Part::Door,
        calls: 6,
        status: 7,
    },
    FaultCase {
        name: "the spawner",
        part: Part::Spawner,
        calls: 6,
        status: 7,
    },
    FaultCase {
        name: "the outside",
        part: Part::Outside,
        calls: 18,
        status: 7,
    },
    FaultCase {
        name: "the sink",
        part: Part::Sink,
        calls: 2,
        status: 3,
    },
    FaultCase {
        name: "a clock",
        part: Part::Clock,
        calls: 0,
        status: 0,
    },
    FaultCase {
        name: "a link",
        part: Part::Link,
        calls: 0,
        status: 0,
    },
];

/// Checks with which status a life of two connections ends in which this call of a part fails. The outside must count a
/// fault exactly with status 7.
fn check_fault<R: Threads + Wait + Clone + Copy + Drop + Abort + Send + Sync + 'static>(
    rt: R,
    alloc: Global,
    case: &FaultCase,
    call: u32,
) {
    let owed = if call <= case.calls { case.status } else { 0 };
    let part = case.part;
    let (end, _) = end_of(rt, alloc, 2, Fault { part, call }, "");
    let status = end.status;
    assert!(rt;
        status == owed,
        "{}, call {call}: the status {status}",
        case.name
    );
    assert!(rt;
        (status == 7) == (end.faults > 0),
        "{}, call {call}: the faults",
        case.name
    );
}

#[test]
fn each_fault_ends_a_server_with_its_status(rt: HostRuntime) {
    for case in &FAULTS {
        for call in 1..=case.calls + 2 {
            check_fault(rt, rt.alloc(), case, call);
        }
    }
}
