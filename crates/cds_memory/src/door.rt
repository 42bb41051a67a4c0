//! Connections and doors in memory.

ghost use Rattle.std.specs.Prelude.{◌≡◌, ℕ, ◌≤◌, ◌<◌, ◌⊎◌, false, [], ◌++◌, length, take, drop, min, None, Some, is_err, nat_lt, ◌||◌, IfOk, IfSome, OnErr};
ghost use Rattle.cds_memory.specs.Doors.{ConnState, DoorState, SharedConnState, fresh_door};
ghost use Rattle.cds_memory.specs.Memory.{SourceState, SinkState, next_fails};
ghost use Rattle.cds_outside.specs.Outside.{raised, Rose};

use crate::streams::is_listed;
use crate::{MemSink, MemSource};
use cds_base::{Bytes, Mem, Numbers, Sequence};
use cds_outside::{Conn, Door, Failed, Linger, Sink, Source};
use std::alloc::{AllocError, Global};
use std::marker::Model;
use std::sync::{Arc, Mutex, Wait};

/// A connection in memory. It tells what it gives and what it takes.
#[derive(Drop, Debug)]
pub struct MemConn {
    source: MemSource,
    sink: MemSink,
    finished: bool,
}

impl Model for MemConn {
    ghost use Rattle.cds_memory.specs.Doors.{ConnState};

    ghost Value = { ConnState };

    ghost view = { λ c. record { source = c.source; sink = c.sink; finished = c.finished } };
}

impl MemConn {
    /// Makes a connection that gives the bytes of the source, and whose bytes the sink takes.
    pub fn new(source: MemSource, sink: MemSink) -> Self
        ensures { result ≡ record { source = source; sink = sink; finished = false } }
    {
        MemConn {
            source,
            sink,
            finished: false,
        }
    }

    /// Returns the bytes that it took.
    pub fn written(&self) -> &[u8]
        ensures { result.now ≡ self.now.sink.holds }
    {
        self.sink.as_slice()
    }
}

impl Source for MemConn {
    ghost use Rattle.cds_memory.specs.Memory.{source_told};

    ghost told = { λ c. source_told c.source };

    fn read(&mut self, into: &mut [u8]) -> Result<usize, Failed>
        ensures fails { is_err result ≡ next_fails self.old.source.fails self.old.source.calls }
        ensures exact { IfOk result (λ n. n ≡ min (length into.old) (length self.old.source.left)) }
        ensures sink { self.new.sink ≡ self.old.sink }
        ensures finished { self.new.finished ≡ self.old.finished }
        ensures room { IfOk result (λ n. n ≤ length into.old) }
        ensures count { IfOk result (λ n. self.new.source.moved ≡ raised self.old.source.moved n) }
        ensures enough { IfOk result (λ n. n ≤ length self.old.source.left) }
        ensures content { IfOk result (λ n. take n into.new ≡ take n self.old.source.left) }
        ensures rest { IfOk result (λ n. self.new.source.left ≡ drop n self.old.source.left) }
        ensures end { IfOk result (λ n. n ≡ 0 → (length into.old ≡ 0) ⊎ (self.old.source.left ≡ [])) }
        ensures rose { OnErr result (Rose self.old.source.faults self.new.source.faults) }
        ensures count_stays { OnErr result (self.new.source.moved ≡ self.old.source.moved) }
        ensures rest_stays { OnErr result (self.new.source.left ≡ self.old.source.left) }
        ensures never_falls { self.old.source.faults ≤ self.new.source.faults }
    {
        self.source.read(into)
    }
}

impl Sink for MemConn {
    ghost use Rattle.cds_memory.specs.Memory.{sink_told};

    ghost told = { λ c. sink_told c.sink };

    fn write(&mut self, piece: &[u8]) -> Result<usize, Failed>
        ensures fails { is_err result ≡ (next_fails self.old.sink.fails self.old.sink.calls || nat_lt self.old.sink.room (length piece.now)) }
        ensures exact { IfOk result (λ n. n ≡ length piece.now) }
        ensures source { self.new.source ≡ self.old.source }
        ensures finished { self.new.finished ≡ self.old.finished }
        ensures room { IfOk result (λ n. n ≤ length piece.now) }
        ensures some { IfOk result (λ n. 0 < length piece.now → 0 < n) }
        ensures content { IfOk result (λ n. self.new.sink.holds ≡ self.old.sink.holds ++ take n piece.now) }
        ensures rose { OnErr result (Rose self.old.sink.faults self.new.sink.faults) }
        ensures stays { OnErr result (self.new.sink.holds ≡ self.old.sink.holds) }
        ensures never_falls { self.old.sink.faults ≤ self.new.sink.faults }
    {
        self.sink.write(piece)
    }
}

impl Conn for MemConn {
    ghost finished = { λ c. c.finished };

    fn receive(&mut self, into: &mut [u8]) -> Result<usize, Failed> {
        self.read(into)
    }

    fn send(&mut self, piece: &[u8]) -> Result<usize, Failed> {
        self.write(piece)
    }

    /// Does not wait.
    fn finish(&mut self, _linger: Linger) {
        self.finished = true;
    }
}

/// A connection of a door in memory. Its bytes stand under a lock, and the door sees them too. So it tells none of them.
#[derive(Drop)]
pub struct SharedConn<R> {
    rt: R,
    conn: Arc<Mutex<MemConn>>,
    moved: u64,
    read_faults: u64,
    write_faults: u64,
    finished: bool,
}

impl<R> Model for SharedConn<R> {
    ghost use Rattle.cds_memory.specs.Doors.{SharedConnState};

    ghost Value = { SharedConnState };

    ghost view = { λ c. record { moved = c.moved; read_faults = c.read_faults; write_faults = c.write_faults; finished = c.finished } };
}

/// Reads from a connection under its lock.
fn read_shared<R: Wait>(rt: &R, conn: &Mutex<MemConn>, into: &mut [u8]) -> Result<usize, Failed>
    ensures { IfOk result (λ n. n ≤ length into.old) }
{
    conn.lock(rt).read(into)
}

/// Writes to a connection under its lock.
fn write_shared<R: Wait>(rt: &R, conn: &Mutex<MemConn>, piece: &[u8]) -> Result<usize, Failed>
    ensures { IfOk result (λ n. n ≡ length piece.now) }
{
    conn.lock(rt).write(piece)
}

impl<R: Wait> Source for SharedConn<R> {
    ghost use Rattle.cds_memory.specs.Doors.{shared_source_told};

    ghost told = { shared_source_told };

    fn read(&mut self, into: &mut [u8]) -> Result<usize, Failed>
        ensures room { IfOk result (λ n. n ≤ length into.old) }
        ensures count { IfOk result (λ n. self.new.moved ≡ raised self.old.moved n) }
        ensures rose { OnErr result (Rose self.old.read_faults self.new.read_faults) }
        ensures count_stays { OnErr result (self.new.moved ≡ self.old.moved) }
        ensures never_falls { self.old.read_faults ≤ self.new.read_faults }
        ensures write_faults_stay { self.new.write_faults ≡ self.old.write_faults }
        ensures finished_stays { self.new.finished ≡ self.old.finished }
    {
        match read_shared(&self.rt, &self.conn, into) {
            Ok(count) => {
                self.moved = self.moved.saturating_add(count as u64);
                Ok(count)
            }
            Err(Failed) => {
                self.read_faults = self.read_faults.saturating_add(1);
                Err(Failed)
            }
        }
    }
}

impl<R: Wait> Sink for SharedConn<R> {
    ghost use Rattle.cds_memory.specs.Doors.{shared_sink_told};

    ghost told = { shared_sink_told };

    fn write(&mut self, piece: &[u8]) -> Result<usize, Failed>
        ensures room { IfOk result (λ n. n ≤ length piece.now) }
        ensures some { IfOk result (λ n. 0 < length piece.now → 0 < n) }
        ensures rose { OnErr result (Rose self.old.write_faults self.new.write_faults) }
        ensures never_falls { self.old.write_faults ≤ self.new.write_faults }
        ensures moved_stays { self.new.moved ≡ self.old.moved }
        ensures read_faults_stay { self.new.read_faults ≡ self.old.read_faults }
        ensures finished_stays { self.new.finished ≡ self.old.finished }
    {
        match write_shared(&self.rt, &self.conn, piece) {
            Ok(count) => Ok(count),
            Err(Failed) => {
                self.write_faults = self.write_faults.saturating_add(1);
                Err(Failed)
            }
        }
    }
}

impl<R: Wait> Conn for SharedConn<R> {
    ghost finished = { λ c. c.finished };

    fn receive(&mut self, into: &mut [u8]) -> Result<usize, Failed> {
        self.read(into)
    }

    fn send(&mut self, piece: &[u8]) -> Result<usize, Failed> {
        self.write(piece)
    }

    /// Does not wait.
    fn finish(&mut self, _linger: Linger) {
        self.finished = true;
    }
}

/// The connections of a door in memory, for all its handles.
#[derive(Drop)]
struct Waiting {
    conns: Vec<Arc<Mutex<MemConn>>>,
    next: usize,
    calls: u64,
    fails: Numbers,
}

impl Waiting {
    /// Counts a call, and returns whether it is one of those that are to fail.
    fn is_next_listed(&mut self) -> bool {
        self.calls = self.calls.saturating_add(1);
        is_listed(self.fails.as_slice(), self.calls)
    }

    /// Returns the next connection. `None` if none is left, or if the call is to fail.
    fn accept(&mut self) -> Option<Arc<Mutex<MemConn>>> {
        if self.is_next_listed() {
            return None;
        }
        let conn = conn_at(self.conns.as_slice(), self.next)?;
        self.next = self.next.saturating_add(1);
        Some(conn)
    }
}

/// Returns the connection at a place, if there is one.
fn conn_at(conns: &[Arc<Mutex<MemConn>>], at: usize) -> Option<Arc<Mutex<MemConn>>> {
    match conns.get(at) {
        Some(conn) => Arc::try_clone(conn).ok(),
        None => None,
    }
}

/// A door in memory. Its connections stand under a lock, which it shares with its other handles. So it tells none of them.
#[derive(Drop)]
pub struct MemDoor<R> {
    rt: R,
    waiting: Arc<Mutex<Waiting>>,
    connections: u64,
    faults: u64,
}

impl<R> Model for MemDoor<R> {
    ghost use Rattle.cds_memory.specs.Doors.{DoorState};

    ghost Value = { DoorState };

    ghost view = { λ d. record { connections = d.connections; faults = d.faults } };
}

impl<R: Wait + Clone + Drop> MemDoor<R> {
    /// Makes a door that gives these connections in their order. `fails` are the numbers of the calls that are to fail. They are
    /// counted from 1 over the calls of `accept` and `again` of all its handles.
    pub fn new(rt: R, alloc: Global, conns: Sequence<MemConn>, fails: Numbers) -> Result<Self, Mem>
        ensures { IfOk result (λ door. door ≡ fresh_door) }
    {
        let mut shared = Vec::new(alloc);
        for conn in conns.into_vec() {
            shared.push(Arc::new(alloc, Mutex::new(conn))?)?;
        }
        let waiting = Waiting {
            conns: shared,
            next: 0,
            calls: 0,
            fails,
        };
        Ok(MemDoor {
            rt,
            waiting: Arc::new(alloc, Mutex::new(waiting))?,
            connections: 0,
            faults: 0,
        })
    }

    /// Returns the same handle before anything was asked of it.
    pub fn afresh(self) -> Self
        ensures { result ≡ fresh_door }
    {
        MemDoor {
            rt: self.rt,
            waiting: self.waiting,
            connections: 0,
            faults: 0,
        }
    }

    /// Returns how many connections this handle gave.
    pub fn connections(&self) -> u64
        ensures { result ≡ self.now.connections }
    {
        self.connections
    }

    /// Returns how many calls of this handle failed.
    pub fn faults(&self) -> u64
        ensures { result ≡ self.now.faults }
    {
        self.faults
    }

    /// Returns what was written so far to the connection at a place, counted from 0. `None` if there is no such connection.
    pub fn written(&self, alloc: Global, at: usize) -> Result<Option<Bytes>, Mem> {
        let found = conn_at(self.waiting.lock(&self.rt).conns.as_slice(), at);
        match found {
            Some(conn) => {
                let mut bytes = Bytes::new(alloc);
                bytes.extend(conn.lock(&self.rt).written())?;
                Ok(Some(bytes))
            }
            None => Ok(None),
        }
    }

    /// Returns the next connection, of which nothing was read yet.
    fn next(&self) -> Option<SharedConn<R>>
        ensures { IfSome result (λ conn. conn ≡ record { moved = 0; read_faults = 0; write_faults = 0; finished = false }) }
    {
        let rt = self.rt.clone().ok()?;
        let conn = self.waiting.lock(&rt).accept()?;
        Some(SharedConn {
            rt,
            conn,
            moved: 0,
            read_faults: 0,
            write_faults: 0,
            finished: false,
        })
    }

    /// Returns another handle, which gave nothing yet.
    fn another(&self) -> Option<MemDoor<R>>
        ensures { IfSome result (λ door. door ≡ fresh_door) }
    {
        let rt = self.rt.clone().ok()?;
        if self.waiting.lock(&rt).is_next_listed() {
            return None;
        }
        let waiting = Arc::try_clone(&self.waiting).ok()?;
        Some(MemDoor {
            rt,
            waiting,
            connections: 0,
            faults: 0,
        })
    }
}

impl<R: Wait + Clone + Drop> Door for MemDoor<R> {
    ghost use Rattle.cds_memory.specs.Doors.{door_told};

    ghost told = { door_told };

    type Conn = SharedConn<R>;

    fn accept(&mut self) -> Result<SharedConn<R>, Failed> {
        match self.next() {
            Some(conn) => {
                self.connections = self.connections.saturating_add(1);
                Ok(conn)
            }
            None => {
                self.faults = self.faults.saturating_add(1);
                Err(Failed)
            }
        }
    }

    fn again(&mut self) -> Result<Self, Failed> {
        match self.another() {
            Some(door) => Ok(door),
            None => {
                self.faults = self.faults.saturating_add(1);
                Err(Failed)
            }
        }
    }
}
