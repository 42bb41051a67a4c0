//! Links over the system's connections. What a real peer gets and answers is trusted to be what the system says. Only the private
//! call `connect` connects, and its condition is that the address is near. No clause of `exchange` says so.

ghost use Rattle.std.specs.Prelude.{◌≡◌, ◌<◌, ◌≤◌, length, IfOk};
ghost use Rattle.std.specs.Net.Socket.{socket_ip};
ghost use Rattle.cds_system.specs.Near.{IsNear};

use crate::backoff::{Failure, Shared, Trial, new_shared};
use crate::framing::{Framing, Kind};
use crate::reach::near_address;
use crate::retry::{read_again, write_again};
use cds_base::Mem;
use cds_outside::{Link, LinkFault};
use std::alloc::Global;
use std::io::{ErrorKind, Read, Write};
use std::net::{Net, OpenStream, SocketAddr, TcpStream};
use std::sync::{Arc, Wait};
use std::time::{Clock, Duration};

/// How many milliseconds connecting may take, and the reply to a note, and each part of an exchange with an address that failed
/// before.
const SHORT_PATIENCE: u64 = 1_000;

/// How many milliseconds sending may take, and reading the reply to anything else, each as a whole.
const PATIENCE: u64 = 5_000;

/// How many milliseconds connecting and the reply to a note may take at least, however many others failed just now.
const LEAST_PATIENCE: u64 = 6;

/// The number of bytes that are read at once.
const PIECE: usize = 2_048;

/// A link over the system's connections, one for each request. It tells no requests and no replies. It leaves an address that did
/// not answer alone for some seconds: requests to it then fail at once.
#[derive(Drop)]
pub struct RealLink<R: Net + Clock + Wait + Drop> {
    rt: R,
    backoff: Option<Shared>,
    faults: u64,
}

impl<R: Net + Clock + Wait + Drop> RealLink<R> {
    /// Makes a link of which no call has failed.
    pub fn new(rt: R) -> Self
        ensures { result.faults ≡ 0 }
    {
        RealLink {
            rt,
            backoff: None,
            faults: 0,
        }
    }

    /// Makes a link of which no call has failed. It shares with others what it remembers of addresses.
    pub fn sharing(rt: R, backoff: Shared) -> Self
        ensures { result.faults ≡ 0 }
    {
        RealLink {
            rt,
            backoff: Some(backoff),
            faults: 0,
        }
    }

    /// Returns how many calls failed, and how many replies were too long.
    pub fn faults(&self) -> u64
        ensures { result ≡ self.now.faults }
    {
        self.faults
    }
}

impl<R: Net + Clock + Wait + Drop> Link for RealLink<R> {
    ghost use Rattle.std.specs.Prelude.{None};

    ghost told = { λ s. record { requests = None; replies = None; faults = s.faults } };

    /// Does as `Link::exchange` says. The reply ends as its head says, or when the peer ends the connection.
    fn exchange(
        &mut self,
        alloc: Global,
        url: &str,
        request: &[u8],
        limit: usize,
    ) -> Result<Vec<u8>, LinkFault> {
        let backoff = remembered(alloc, &mut self.backoff)?;
        match exchange_once(&self.rt, alloc, &backoff, url, request, limit) {
            Ok(reply) => Ok(reply),
            Err(LinkFault::Mem) => Err(LinkFault::Mem),
            Err(LinkFault::Failed) => {
                self.faults = self.faults.saturating_add(1);
                Err(LinkFault::Failed)
            }
            Err(LinkFault::Over) => {
                self.faults = self.faults.saturating_add(1);
                Err(LinkFault::Over)
            }
        }
    }
}

/// Returns what is remembered of addresses. It is made at the first call.
pub fn remembered(alloc: Global, backoff: &mut Option<Shared>) -> Result<Shared, Mem> {
    let shared = match backoff {
        Some(shared) => Arc::try_clone(shared)?,
        None => new_shared(alloc)?,
    };
    if backoff.is_none() {
        *backoff = Some(Arc::try_clone(&shared)?);
    }
    Ok(shared)
}

/// Sends the request to the address that a URL names, and returns the reply's bytes. It fails at once if the address is to be
/// left alone.
fn exchange_once<R: Net + Clock + Wait>(
    rt: &R,
    alloc: Global,
    backoff: &Shared,
    url: &str,
    request: &[u8],
    limit: usize,
) -> Result<Vec<u8>, LinkFault>
    ensures { IfOk result (λ reply. length reply.items ≤ limit) }
{
    let address = near_address(alloc, url)?;
    let begun = moment(rt)?;
    let trial = backoff
        .lock(rt)
        .trial(address, begun, is_first_note(request));
    let Some(times) = Times::of(request, trial) else {
        return Err(LinkFault::Failed);
    };
    let mut stream = match open(rt, address, times, request) {
        Ok(stream) => stream,
        Err(fault) => {
            keep_in_mind(
                rt,
                backoff,
                address,
                begun,
                Failure::Unsent(times.connecting),
            );
            return Err(fault);
        }
    };
    let answer = take_reply(rt, alloc, &mut stream, times.reading, limit);
    if is_failure(&answer) {
        keep_in_mind(rt, backoff, address, begun, Failure::Late(times.reading));
    } else {
        backoff.lock(rt).forget(address);
    }
    answer
}

/// Returns whether an exchange failed. A reply that is too long is none.
fn is_failure(answer: &Result<Vec<u8>, LinkFault>) -> bool {
    matches!(answer, Err(LinkFault::Failed))
}

/// Remembers that an exchange failed with an address, which began at this moment and ends now.
fn keep_in_mind<R: Clock + Wait>(
    rt: &R,
    backoff: &Shared,
    address: SocketAddr,
    begun: Duration,
    failure: Failure,
) {
    let took = rt.monotonic().unwrap_or(begun).saturating_sub(begun);
    backoff.lock(rt).remember(address, begun, took, failure);
}

/// Returns the moment now.
fn moment<R: Clock>(rt: &R) -> Result<Duration, LinkFault> {
    match rt.monotonic() {
        Ok(now) => Ok(now),
        Err(_) => Err(LinkFault::Failed),
    }
}

/// How many milliseconds the parts of an exchange may take.
#[derive(Clone, Copy)]
struct Times {
    connecting: u64,
    sending: u64,
    reading: u64,
}

impl Times {
    /// Returns how long a request to an address may take, or `None` if it is not to be made. A note has less time the more
    /// exchanges failed just now, so that 63 dead subscribers hold the others up for less than 2 seconds.
    fn of(request: &[u8], trial: Trial) -> Option<Times> {
        let is_note = request.starts_with(b"NOTIFY ");
        let whole = if is_note { SHORT_PATIENCE } else { PATIENCE };
        match trial {
            Trial::None => None,
            Trial::Known => Some(Times::most(SHORT_PATIENCE, SHORT_PATIENCE, SHORT_PATIENCE)),
            Trial::Unknown { failures } if is_note => {
                let patience = shorter(failures);
                Some(Times::most(patience, PATIENCE, patience))
            }
            Trial::Unknown { .. } => Some(Times::most(SHORT_PATIENCE, PATIENCE, whole)),
            Trial::Late if is_note => Some(Times::most(SHORT_PATIENCE, PATIENCE, LEAST_PATIENCE)),
            Trial::Late => Some(Times::most(SHORT_PATIENCE, PATIENCE, whole)),
        }
    }

    /// Returns these times.
    fn most(connecting: u64, sending: u64, reading: u64) -> Times {
        Times {
            connecting,
            sending,
            reading,
        }
    }
}

/// Returns for how many milliseconds to wait after this number of failures. Each of them leaves an eighth of the time, but not
/// less than the least.
fn shorter(failures: u32) -> u64 {
    let halvings = failures.saturating_mul(3).min(10);
    (SHORT_PATIENCE >> halvings).max(LEAST_PATIENCE)
}

/// Returns whether a request is the first note of a subscription, whose SEQ is 0.
fn is_first_note(request: &[u8]) -> bool {
    let (head, _) = request.split_at(request.len().min(PIECE));
    head.split(|byte| *byte == b'\n')
        .any(|line| line.trim_ascii() == b"SEQ: 0".as_slice())
}

/// Sends the request to a near address by a connection of its own, and returns that.
fn open<R: Net + Clock>(
    rt: &R,
    address: SocketAddr,
    times: Times,
    request: &[u8],
) -> Result<R::Stream, LinkFault>
    requires near { IsNear (socket_ip address) }
{
    let mut stream = connect(rt, address, times.connecting)?;
    send(rt, &mut stream, times.sending, request)?;
    Ok(stream)
}

/// Returns the bytes of a reply, which come within `patience` milliseconds.
fn take_reply<R: Clock, S: Read + OpenStream>(
    rt: &R,
    alloc: Global,
    stream: &mut S,
    patience: u64,
    limit: usize,
) -> Result<Vec<u8>, LinkFault>
    ensures { IfOk result (λ reply. length reply.items ≤ limit) }
{
    within(gather(rt, alloc, stream, patience, limit)?, limit)
}

/// Returns the reply, if it is not too long.
fn within(reply: Vec<u8>, limit: usize) -> Result<Vec<u8>, LinkFault>
    ensures { IfOk result (λ reply. length reply.items ≤ limit) }
{
    if reply.len() > limit {
        return Err(LinkFault::Over);
    }
    Ok(reply)
}

/// Connects to a near address, within `patience` milliseconds.
fn connect<R: Net>(rt: &R, address: SocketAddr, patience: u64) -> Result<R::Stream, LinkFault>
    requires near { IsNear (socket_ip address) }
{
    match TcpStream::connect_timeout(rt, &address, Duration::from_millis(patience)) {
        Ok(stream) => Ok(stream),
        Err(_) => Err(LinkFault::Failed),
    }
}

/// Returns the time at which what begins now is to have ended, `patience` milliseconds from now.
fn deadline<R: Clock>(rt: &R, patience: u64) -> Result<Duration, LinkFault> {
    Ok(moment(rt)?.saturating_add(Duration::from_millis(patience)))
}

/// Returns what is left of the time up to the end, which is above 0.
fn time_left<R: Clock>(rt: &R, end: Duration) -> Result<Duration, LinkFault> {
    match rt.monotonic() {
        Ok(now) if now < end => Ok(end.saturating_sub(now)),
        _ => Err(LinkFault::Failed),
    }
}

/// Sends all bytes, within `patience` milliseconds.
fn send<R: Clock, S: Write + OpenStream>(
    rt: &R,
    stream: &mut S,
    patience: u64,
    request: &[u8],
) -> Result<(), LinkFault> {
    let end = deadline(rt, patience)?;
    let mut at = 0;
    while at < request.len() {
        let (_, left) = request.split_at(at);
        let left_time = time_left(rt, end)?;
        at += send_piece(stream, left_time, left)?;
    }
    Ok(())
}

/// Sends a prefix of a piece that is not empty, and returns its length, at least 1.
fn send_piece<S: Write + OpenStream>(
    stream: &mut S,
    patience: Duration,
    piece: &[u8],
) -> Result<usize, LinkFault>
    ensures some { IfOk result (λ n. 0 < n) }
    ensures room { IfOk result (λ n. n ≤ length piece.now) }
{
    if stream.set_write_timeout(Some(patience)).is_err() {
        return Err(LinkFault::Failed);
    }
    match write_again(stream, piece) {
        Ok(count) if count > 0 => Ok(count),
        _ => Err(LinkFault::Failed),
    }
}

/// What a read of a reply brought.
#[derive(Clone, Copy)]
enum Came {
    /// This number of bytes, which is above 0.
    Bytes(usize),
    /// The end of the stream.
    End,
    /// Nothing within the time.
    Late,
}

/// Returns the bytes up to the end of the reply, and perhaps some after it. If more come than the limit, it returns more than the
/// limit. A reply without a body whose head gives no length is whole if nothing more comes within the time.
fn gather<R: Clock, S: Read + OpenStream>(
    rt: &R,
    alloc: Global,
    stream: &mut S,
    patience: u64,
    limit: usize,
) -> Result<Vec<u8>, LinkFault> {
    let end = deadline(rt, patience)?;
    let mut bytes = Vec::new(alloc);
    let mut framing = Framing::new(Kind::Reply);
    for _ in 0..u64::MAX {
        match take_piece(rt, stream, end, &mut bytes)? {
            Came::Bytes(_) => {}
            Came::End => return Ok(bytes),
            Came::Late if framing.is_bare(bytes.len()) => return Ok(bytes),
            Came::Late => return Err(LinkFault::Failed),
        }
        if framing.take(bytes.as_slice()) || bytes.len() > limit {
            return Ok(bytes);
        }
    }
    Err(LinkFault::Failed)
}

/// Reads a piece, up to the end of the time, and appends it.
fn take_piece<R: Clock, S: Read + OpenStream>(
    rt: &R,
    stream: &mut S,
    end: Duration,
    bytes: &mut Vec<u8>,
) -> Result<Came, LinkFault> {
    let mut piece = [0u8; PIECE];
    let came = match time_left(rt, end) {
        Ok(left_time) => read_piece(stream, left_time, &mut piece)?,
        Err(_) => Came::Late,
    };
    if let Came::Bytes(count) = came {
        put_front(bytes, &piece, count)?;
    }
    Ok(came)
}

/// Appends the first `count` bytes of a piece, or all of it.
fn put_front(bytes: &mut Vec<u8>, piece: &[u8], count: usize) -> Result<(), Mem> {
    let (front, _) = piece.split_at(count.min(piece.len()));
    bytes.extend_from_slice(front)?;
    Ok(())
}

/// Reads into the beginning of the buffer.
fn read_piece<S: Read + OpenStream>(
    stream: &mut S,
    patience: Duration,
    into: &mut [u8],
) -> Result<Came, LinkFault> {
    if stream.set_read_timeout(Some(patience)).is_err() {
        return Err(LinkFault::Failed);
    }
    match read_again(stream, into) {
        Ok(0) => Ok(Came::End),
        Ok(count) => Ok(Came::Bytes(count)),
        Err(error) if is_late(error.kind()) => Ok(Came::Late),
        Err(_) => Err(LinkFault::Failed),
    }
}

/// Returns whether an error says that nothing came in time.
fn is_late(kind: ErrorKind) -> bool {
    matches!(kind, ErrorKind::WouldBlock | ErrorKind::TimedOut)
}
