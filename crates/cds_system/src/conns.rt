//! A connection of the system. It tells nothing of what it holds, and counts its faults. What a real peer sends or gets is
//! trusted to be what the system says.

ghost use Rattle.std.specs.Prelude.{◌≡◌, ◌≤◌, ◌<◌, false, length, IfOk, IfSome, OnErr};
ghost use Rattle.cds_outside.specs.Outside.{raised, Rose};

use crate::lobby::Arrived;
use crate::players::Player;
use crate::retry::{read_again, write_again};
use cds_outside::{Conn, Failed, Linger, Sink, Source};
use std::io;
use std::io::ErrorKind;
use std::net::{Shutdown, TcpStream};
use std::thread::sleep;
use std::time::{Clock, Duration};

/// For how many seconds a connection is read, apart from those for its bytes.
const READING: u64 = 2;

/// How many bytes give one second more to read.
const READ_RATE: u64 = 16_384;

/// For how many seconds a connection is read at most.
const MOST_READING: u64 = 30;

/// For how many seconds a connection is written, apart from those for its bytes.
const WRITING: u64 = 10;

/// For how many seconds a connection that asked for a file is written without a byte that goes out.
const STALLED: u64 = 60;

/// How many bytes give one second more to write.
const WRITE_RATE: u64 = 65_536;

/// The most bytes of a finished connection that are thrown away.
const MOST_DRAINED: u64 = 262_144;

/// The number of bytes that are thrown away at once.
const PIECE: usize = 4_096;

/// For how many milliseconds bytes are thrown away, apart from those for their number. A silent peer keeps nobody busy for longer.
const DRAINING: u64 = 10;

/// How many bytes give one millisecond more to throw bytes away.
const DRAIN_RATE: u64 = 256;

/// For how many milliseconds bytes are thrown away at most.
const MOST_DRAINING: u64 = 1_000;

/// For how many milliseconds a peer may read its reply before something else goes to it.
const TAKING: u64 = 195;

/// How many milliseconds pass after that. A peer may close, or end its side, before its program sees the reply.
const SETTLING: u64 = 5;

/// A connection of the system. It gives the bytes first that came while it waited at the door.
///
/// After them it is read for 2 seconds, and 1 second more for each 16,384 bytes, but at most for 30 seconds. It is written for 10
/// seconds after the first write began, and 1 second more for each 65,536 bytes. A read or a write after that is a fault. So a
/// peer that sends or takes a byte now and then keeps nobody busy. One that asked for a file may take it as slowly as it plays: a
/// write is a fault only if no byte goes out for 60 seconds.
///
/// When it is finished, it throws away what came, at most 262,144 bytes. For a peer that is still sending it waits 10 milliseconds,
/// and 1 millisecond more for each 256 bytes, but at most for 1 second. For a peer that is to read its reply it waits until that
/// closes, and then 5 milliseconds, but at most for 200 milliseconds. Otherwise it does not wait.
#[derive(Drop)]
pub struct RealConn<R: Clock + Drop> {
    rt: R,
    stream: TcpStream,
    ahead: Vec<u8>,
    reading: Option<Duration>,
    writing: Option<Duration>,
    player: Option<Player>,
    moved: u64,
    wrote: u64,
    read_faults: u64,
    write_faults: u64,
    finished: bool,
}

impl<R: Clock + Drop> RealConn<R> {
    /// Makes a connection; nothing was read from it or written to it yet. Returns `None` if the system does not have reads and
    /// writes wait.
    pub fn new(rt: R, arrived: Arrived) -> Option<Self>
        ensures moved { IfSome result (λ conn. conn.moved ≡ 0) }
        ensures read_faults { IfSome result (λ conn. conn.read_faults ≡ 0) }
        ensures write_faults { IfSome result (λ conn. conn.write_faults ≡ 0) }
        ensures finished { IfSome result (λ conn. conn.finished ≡ false) }
    {
        let Arrived {
            stream,
            bytes,
            player,
        } = arrived;
        stream.set_nonblocking(false).ok()?;
        Some(RealConn {
            rt,
            stream,
            ahead: bytes,
            reading: None,
            writing: None,
            player,
            moved: 0,
            wrote: 0,
            read_faults: 0,
            write_faults: 0,
            finished: false,
        })
    }
}

/// Returns what is left of this time, which is above 0. It began at `begun`, or begins now. `None` if it is up, or the system does
/// not tell the time.
fn time_left<R: Clock>(rt: &R, begun: &mut Option<Duration>, time: Duration) -> Option<Duration> {
    let now = rt.monotonic().ok()?;
    let start = begun.unwrap_or(now);
    *begun = Some(start);
    let end = start.saturating_add(time);
    if now < end {
        Some(end.saturating_sub(now))
    } else {
        None
    }
}

/// Returns for how long a connection is read, if `beyond` bytes were read of it after those that came before.
fn time_to_read(beyond: u64) -> Duration {
    Duration::from_secs(READING.saturating_add(beyond / READ_RATE).min(MOST_READING))
}

/// Returns for how long a connection is written to, if `wrote` bytes were written to it.
fn time_to_write(wrote: u64) -> Duration {
    Duration::from_secs(WRITING.saturating_add(wrote / WRITE_RATE))
}

/// Returns for how long bytes are thrown away, if `drained` were: at least and at most this many milliseconds.
fn time_to_drain(drained: u64, least: u64, most: u64) -> Duration {
    Duration::from_millis(least.saturating_add(drained / DRAIN_RATE).min(most))
}

/// Moves as many bytes as there is room for, those from a place on, to the beginning of the buffer. Returns how many.
fn take_ahead(ahead: &[u8], at: u64, into: &mut [u8]) -> usize
    ensures { result ≤ length into.old }
{
    let at = usize::try_from(at).unwrap_or(ahead.len());
    let (_, left) = ahead.split_at(at.min(ahead.len()));
    let count = left.len().min(into.len());
    into[..count].copy_from_slice(&left[..count]);
    count
}

/// Reads, if time is left.
fn read_in_time(
    stream: &mut TcpStream,
    left: Option<Duration>,
    into: &mut [u8],
) -> io::Result<usize>
    ensures { IfOk result (λ n. n ≤ length into.old) }
{
    if left.is_none() {
        return Err(io::Error::from(ErrorKind::TimedOut));
    }
    stream.set_read_timeout(left)?;
    read_again(stream, into)
}

/// Writes, if time is left.
fn write_in_time(stream: &mut TcpStream, left: Option<Duration>, piece: &[u8]) -> io::Result<usize>
    ensures { IfOk result (λ n. n ≤ length piece.now) }
{
    if left.is_none() {
        return Err(io::Error::from(ErrorKind::TimedOut));
    }
    stream.set_write_timeout(left)?;
    write_again(stream, piece)
}

/// Reads a piece and throws it away, if time is left. Returns how many bytes it had. 0 says that the peer has closed, that the time
/// is up, or that the connection is broken.
fn drain_piece(stream: &mut TcpStream, left: Option<Duration>) -> u64 {
    let mut piece = [0u8; PIECE];
    match read_in_time(stream, left, &mut piece) {
        Ok(count) => count as u64,
        Err(_) => 0,
    }
}

/// Throws away what comes, for at least and at most this many milliseconds.
fn drain<R: Clock>(rt: &R, stream: &mut TcpStream, least: u64, most: u64) {
    let mut begun = None;
    let mut drained = 0u64;
    for _ in 0..MOST_DRAINED {
        let time = time_to_drain(drained, least, most);
        let count = drain_piece(stream, time_left(rt, &mut begun, time));
        drained = drained.saturating_add(count);
        if count == 0 || drained >= MOST_DRAINED {
            return;
        }
    }
}

/// Throws away what came or comes of a connection to which no more is written, and waits as it is to linger.
fn linger_on<R: Clock>(rt: &R, stream: &mut TcpStream, linger: Linger) {
    match linger {
        Linger::Never => {
            if stream.set_nonblocking(true).is_ok() {
                drain(rt, stream, DRAINING, MOST_DRAINING);
            }
        }
        Linger::WhileSending => drain(rt, stream, DRAINING, MOST_DRAINING),
        Linger::UntilRead => {
            drain(rt, stream, TAKING, TAKING);
            sleep(rt, Duration::from_millis(SETTLING));
        }
    }
}

impl<R: Clock + Drop> Source for RealConn<R> {
    ghost use Rattle.std.specs.Prelude.{None};

    ghost told = { λ s. record { left = None; moved = s.moved; faults = s.read_faults } };

    fn read(&mut self, into: &mut [u8]) -> Result<usize, Failed>
        ensures room { IfOk result (λ n. n ≤ length into.old) }
        ensures count { IfOk result (λ n. self.new.moved ≡ raised self.old.moved n) }
        ensures rose { OnErr result (Rose self.old.read_faults self.new.read_faults) }
        ensures count_stays { OnErr result (self.new.moved ≡ self.old.moved) }
        ensures never_falls { self.old.read_faults ≤ self.new.read_faults }
        ensures write_faults_stay { self.new.write_faults ≡ self.old.write_faults }
        ensures finished_stays { self.new.finished ≡ self.old.finished }
    {
        let count = take_ahead(self.ahead.as_slice(), self.moved, into);
        if count > 0 {
            self.moved = self.moved.saturating_add(count as u64);
            return Ok(count);
        }
        let beyond = self.moved.saturating_sub(self.ahead.len() as u64);
        let left = time_left(&self.rt, &mut self.reading, time_to_read(beyond));
        match read_in_time(&mut self.stream, left, into) {
            Ok(count) => {
                self.moved = self.moved.saturating_add(count as u64);
                Ok(count)
            }
            Err(_) => {
                self.read_faults = self.read_faults.saturating_add(1);
                Err(Failed)
            }
        }
    }
}

impl<R: Clock + Drop> Sink for RealConn<R> {
    ghost use Rattle.std.specs.Prelude.{None};

    ghost told = { λ s. record { holds = None; faults = s.write_faults } };

    fn write(&mut self, piece: &[u8]) -> Result<usize, Failed>
        ensures room { IfOk result (λ n. n ≤ length piece.now) }
        ensures some { IfOk result (λ n. 0 < length piece.now → 0 < n) }
        ensures rose { OnErr result (Rose self.old.write_faults self.new.write_faults) }
        ensures never_falls { self.old.write_faults ≤ self.new.write_faults }
        ensures moved_stays { self.new.moved ≡ self.old.moved }
        ensures read_faults_stay { self.new.read_faults ≡ self.old.read_faults }
        ensures finished_stays { self.new.finished ≡ self.old.finished }
    {
        if piece.is_empty() {
            return Ok(0);
        }
        let left = if self.player.is_some() {
            Some(Duration::from_secs(STALLED))
        } else {
            time_left(&self.rt, &mut self.writing, time_to_write(self.wrote))
        };
        match write_in_time(&mut self.stream, left, piece) {
            Ok(count) if count > 0 => {
                self.wrote = self.wrote.saturating_add(count as u64);
                Ok(count)
            }
            _ => {
                self.write_faults = self.write_faults.saturating_add(1);
                Err(Failed)
            }
        }
    }
}

impl<R: Clock + Drop> Conn for RealConn<R> {
    ghost finished = { λ s. s.finished };

    fn receive(&mut self, into: &mut [u8]) -> Result<usize, Failed> {
        self.read(into)
    }

    fn send(&mut self, piece: &[u8]) -> Result<usize, Failed> {
        self.write(piece)
    }

    /// Does as `Conn::finish` says. It waits for nobody if a write failed.
    fn finish(&mut self, linger: Linger) {
        self.finished = true;
        let ended = self.stream.shutdown(Shutdown::Write);
        if ended.is_ok() && self.write_faults == 0 {
            linger_on(&self.rt, &mut self.stream, linger);
        }
    }
}
