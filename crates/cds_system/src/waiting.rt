//! Connections that wait at a port until their messages have come. What the system says of them is trusted.

use crate::framing::{Framing, Kind};
use crate::players::asks_for_file;
use crate::retry::read_again;
use mio::Token;
use mio::net::TcpStream;
use std::alloc::Global;
use std::io::ErrorKind;
use std::net::SocketAddr;
use std::time::Duration;

/// The most bytes that are kept of a connection. One of which more come need not wait for its whole message.
const MOST_BYTES: usize = 65_536;

/// The number of bytes that are read at once.
const PIECE: usize = 4_096;

/// The most reads of one connection in a row.
const READS: usize = 32;

/// How many seconds a connection waits without a byte.
const PATIENCE: u64 = 30;

/// How many seconds a connection waits in all.
const MOST_PATIENCE: u64 = 60;

/// What is known of a connection.
#[derive(Clone, Copy, PartialEq, Eq)]
pub enum State {
    /// All that came was read, and more is to come.
    Idle,
    /// More may have come.
    Ready,
    /// It need not wait any longer.
    Done,
    /// Its message is not whole, and no more of it is kept.
    Full,
    /// It ended before any byte came, or was broken.
    Gone,
}

/// A connection that waits, and what came of its message.
#[derive(Drop)]
pub struct Waiting {
    pub token: Token,
    pub stream: TcpStream,
    pub bytes: Vec<u8>,
    pub peer: u32,
    pub state: State,
    framing: Framing,
    begun: Duration,
    pub since: Duration,
}

impl Waiting {
    /// Makes a connection from an address, which begins to wait now.
    pub fn new(
        alloc: Global,
        token: Token,
        stream: TcpStream,
        address: SocketAddr,
        now: Duration,
    ) -> Self {
        Waiting {
            token,
            stream,
            bytes: Vec::new(alloc),
            peer: peer_of(address),
            state: State::Ready,
            framing: Framing::new(Kind::Request),
            begun: now,
            since: now,
        }
    }

    /// Returns whether it may be let go before its time is up.
    pub fn is_open(&self) -> bool {
        match self.state {
            State::Idle | State::Ready | State::Full => true,
            State::Done => self.asks_for_file(),
            State::Gone => false,
        }
    }

    /// Returns whether it asks for a file.
    pub fn asks_for_file(&self) -> bool {
        asks_for_file(self.bytes.as_slice())
    }

    /// Returns whether it is to stay: its message is done and asks for no file, or its time is not up.
    pub fn stays(&self, now: Duration) -> bool {
        match self.state {
            State::Done => !self.asks_for_file()
                || self.patience_left(now) > Duration::from_secs(0),
            State::Gone => false,
            _ => self.patience_left(now) > Duration::from_secs(0),
        }
    }

    /// Returns how long it may still wait without a byte.
    pub fn patience_left(&self, now: Duration) -> Duration {
        let silent = self.since.saturating_add(Duration::from_secs(PATIENCE));
        let in_all = self
            .begun
            .saturating_add(Duration::from_secs(MOST_PATIENCE));
        silent.min(in_all).saturating_sub(now)
    }

    /// Reads what came, without waiting.
    pub fn hear(&mut self, now: Duration) {
        for _ in 0..READS {
            if self.state != State::Ready {
                return;
            }
            self.state = self.hear_piece(now);
        }
    }

    /// Reads a piece of what came. If memory runs out, the connection is done, and its reader meets that.
    fn hear_piece(&mut self, now: Duration) -> State {
        let room = MOST_BYTES.saturating_sub(self.bytes.len()).min(PIECE);
        if self.bytes.reserve_exact(room).is_err() {
            return State::Done;
        }
        let mut piece = [0u8; PIECE];
        let (front, _) = piece.split_at_mut(room);
        match read_again(&mut self.stream, front) {
            Ok(0) => self.ended(),
            Ok(count) => self.take(now, &piece, count),
            Err(error) if error.kind() == ErrorKind::WouldBlock => State::Idle,
            Err(_) => State::Gone,
        }
    }

    /// Returns what is known after the peer ended. If bytes came, the reader decides.
    fn ended(&self) -> State {
        if self.bytes.is_empty() {
            State::Gone
        } else {
            State::Done
        }
    }

    /// Takes the first `count` bytes of a piece.
    fn take(&mut self, now: Duration, piece: &[u8], count: usize) -> State {
        let (came, _) = piece.split_at(count.min(piece.len()));
        if self.bytes.extend_from_slice(came).is_err() {
            return State::Gone;
        }
        self.since = now;
        if self.framing.take(self.bytes.as_slice()) {
            State::Done
        } else if self.bytes.len() >= MOST_BYTES {
            State::Full
        } else {
            State::Ready
        }
    }
}

/// Returns an address of IPv4 as a number. The port takes no others.
fn peer_of(address: SocketAddr) -> u32 {
    match address {
        SocketAddr::V4(address) => u32::from_be_bytes(address.ip().octets()),
        SocketAddr::V6(_) => 0,
    }
}

/// Returns the place of the connection that goes first if there are too many. It is of the address that has the most, and is the
/// one of those that waits longest without a byte. `None` if all are done and ask for no file.
pub fn first_to_go(waiting: &[Waiting]) -> Option<usize> {
    let mut first = None;
    for (at, one) in waiting.iter().enumerate() {
        if one.is_open() {
            first = Some(earlier(first, to_leave(waiting, at, one)));
        }
    }
    Some(first?.at)
}

/// A connection that may go: how many its address has, and since when it waits without a byte.
#[derive(Clone, Copy)]
struct Leaving {
    at: usize,
    crowd: usize,
    since: Duration,
}

/// Returns a connection as one that may go.
fn to_leave(waiting: &[Waiting], at: usize, one: &Waiting) -> Leaving {
    let peer = one.peer;
    Leaving {
        at,
        crowd: waiting.iter().filter(|other| other.peer == peer).count(),
        since: one.since,
    }
}

/// Returns the one of two that goes first.
fn earlier(first: Option<Leaving>, other: Leaving) -> Leaving {
    match first {
        Some(first) if !goes_before(other, first) => first,
        _ => other,
    }
}

/// Returns whether a connection goes before another.
fn goes_before(one: Leaving, other: Leaving) -> bool {
    one.crowd > other.crowd || (one.crowd == other.crowd && one.since < other.since)
}
