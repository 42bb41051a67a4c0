//! The lobby of a port: connections that came in wait there until their messages have come. What the system says of them is
//! trusted, and no clause speaks of it.

use crate::players::{Player, Players};
use crate::waiting::{State, Waiting, first_to_go};
use mio::net::{TcpListener, TcpStream};
use mio::{Events, Interest, Poll, Token};
use std::alloc::Global;
use std::io::ErrorKind;
use std::net::{Ipv4Addr, Net, SocketAddr, SocketAddrV4};
use std::sync::Wait;
use std::time::{Clock, Duration};
use std::{io, net};

/// The largest number of connections that wait.
const MOST: usize = 256;

/// The largest number of connections that are taken in at once.
const AT_ONCE: usize = 64;

/// How many milliseconds pass until the next look if connections could not be taken in.
const PAUSE: u64 = 100;

/// The number of events that are taken at once.
const EVENTS: usize = 64;

/// The token of the port itself. The tokens of connections come after it.
const PORT: Token = Token(0);

/// A connection that need not wait any longer, and the bytes that came of it.
#[derive(Drop)]
pub struct Arrived {
    pub stream: net::TcpStream,
    pub bytes: Vec<u8>,
    /// It asks for a file.
    pub player: Option<Player>,
}

/// How taking in ended.
#[derive(Clone, Copy, PartialEq, Eq)]
enum Taken {
    /// All that came were taken in, or there is no room for more.
    All,
    /// More may have come.
    Part,
    /// The system failed.
    Failed,
}

/// The connections at a port that wait until their messages have come, at most 256 of them, the oldest first. What comes is read
/// without waiting and kept, at most 65,536 bytes of each.
///
/// A connection waits no longer once its message is whole or refused, or its peer ended it. One of which no more bytes are kept
/// comes after all these. One that waits longer than 30 seconds without a byte, or longer than 60 seconds, is let go. If another
/// comes in and there is no room, one of the address with the most connections is let go: the one that waits longest without a
/// byte.
///
/// At most two that ask for files are with workers at a time. A further one waits here, and is let go after 30 seconds.
#[derive(Drop)]
pub struct Lobby {
    alloc: Global,
    poll: Poll,
    events: Events,
    listener: TcpListener,
    waiting: Vec<Waiting>,
    players: Players,
    last_token: usize,
}

impl Lobby {
    /// Opens the lobby of a port, at all addresses of IPv4.
    pub fn open<R: Net>(rt: &R, alloc: Global, port: u16) -> io::Result<Lobby> {
        let events = Events::with_capacity(alloc, EVENTS)?;
        let waiting = Vec::with_capacity(alloc, MOST)?;
        let players = Players::new(alloc)?;
        let (poll, listener) = listen(rt, port)?;
        Ok(Lobby {
            alloc,
            poll,
            events,
            listener,
            waiting,
            players,
            last_token: 0,
        })
    }

    /// Returns the port of the lobby.
    pub fn port(&self) -> io::Result<u16> {
        Ok(self.listener.local_addr()?.port())
    }

    /// Waits until a connection need not wait any longer, and returns it.
    pub fn next<R: Wait + Clock>(&mut self, rt: &R) -> io::Result<Arrived> {
        for _ in rt.forever() {
            let now = rt.monotonic()?;
            self.look(Some(Duration::from_secs(0)))?;
            let taken = self.take_in(now);
            self.hear(now);
            self.let_go(now);
            if let Some(arrived) = self.next_arrived() {
                return Ok(arrived);
            }
            let rest = self.rest(taken, now);
            self.look(rest)?;
        }
        unreachable!()
    }

    /// Takes in connections that came.
    fn take_in(&mut self, now: Duration) -> Taken {
        for _ in 0..AT_ONCE {
            if !self.make_room() {
                return Taken::All;
            }
            match self.listener.accept() {
                Ok((stream, address)) => self.add(stream, address, now),
                Err(error) if error.kind() == ErrorKind::WouldBlock => return Taken::All,
                Err(_) => return Taken::Failed,
            }
        }
        Taken::Part
    }

    /// Makes room for one more connection, if there is none. Returns whether there is room.
    fn make_room(&mut self) -> bool {
        if self.waiting.len() < MOST {
            return true;
        }
        match first_to_go(self.waiting.as_slice()) {
            Some(at) => self.take(at).is_some(),
            None => false,
        }
    }

    /// Has a connection wait. If the system does not watch it, it is let go.
    fn add(&mut self, mut stream: TcpStream, address: SocketAddr, now: Duration) {
        self.last_token = self.last_token.wrapping_add(1);
        let token = Token(self.last_token);
        let watched = self
            .poll
            .registry()
            .register(&mut stream, token, Interest::READABLE);
        if watched.is_ok() {
            let _ = self
                .waiting
                .push(Waiting::new(self.alloc, token, stream, address, now));
        }
    }

    /// Takes the connection at a place out, if there is one.
    fn take(&mut self, at: usize) -> Option<Waiting> {
        if at < self.waiting.len() {
            Some(self.waiting.remove(at))
        } else {
            None
        }
    }

    /// Reads what came of the connections.
    fn hear(&mut self, now: Duration) {
        for one in self.waiting.iter_mut() {
            one.hear(now);
        }
    }

    /// Lets those go that ended or waited too long.
    fn let_go(&mut self, now: Duration) {
        self.waiting.retain(|one| one.stays(now));
    }

    /// Returns how long the next look may wait. `None` if nothing needs it.
    fn rest(&self, taken: Taken, now: Duration) -> Option<Duration> {
        let is_ready = self.waiting.iter().any(|one| one.state == State::Ready);
        if is_ready || taken == Taken::Part {
            Some(Duration::from_secs(0))
        } else if taken == Taken::Failed || self.holds_back() {
            Some(Duration::from_millis(PAUSE))
        } else {
            self.waiting.iter().map(|one| one.patience_left(now)).min()
        }
    }

    /// Returns whether a connection waits only since others ask for files too.
    fn holds_back(&self) -> bool {
        self.waiting.iter().any(|one| one.state == State::Done)
    }

    /// Waits until something happens, at most this long, and marks the connections that it happened to.
    fn look(&mut self, rest: Option<Duration>) -> io::Result<()> {
        self.poll.poll(&mut self.events, rest)?;
        for event in self.events.iter() {
            mark(self.waiting.as_mut_slice(), event.token());
        }
        Ok(())
    }

    /// Takes the connection out that a worker gets next, if there is one.
    fn next_arrived(&mut self) -> Option<Arrived> {
        for _ in 0..=MOST {
            let at = next_to_come(self.waiting.as_slice(), self.players.has_room())?;
            if let Some(arrived) = self.hand_over(at) {
                return Some(arrived);
            }
        }
        None
    }

    /// Takes the connection at a place out, and ends the watch over it.
    fn hand_over(&mut self, at: usize) -> Option<Arrived> {
        let Waiting {
            mut stream,
            bytes,
            ..
        } = self.take(at)?;
        self.poll.registry().deregister(&mut stream).ok()?;
        let player = self.players.admit(bytes.as_slice());
        Some(Arrived {
            stream: net::TcpStream::from(stream),
            bytes,
            player,
        })
    }
}

/// Opens the port at all addresses of IPv4, with a poll that watches it.
fn listen<R: Net>(rt: &R, port: u16) -> io::Result<(Poll, TcpListener)> {
    let everywhere = Ipv4Addr::new(0, 0, 0, 0);
    let address = SocketAddr::V4(SocketAddrV4::new(everywhere, port));
    let mut listener = TcpListener::bind(rt, address)?;
    let poll = Poll::new(rt)?;
    poll.registry()
        .register(&mut listener, PORT, Interest::READABLE)?;
    Ok((poll, listener))
}

/// Returns the place of the connection that a worker gets next: the first that need not wait any longer, or else the first of
/// which no more bytes are kept. One that asks for a file needs room for it.
fn next_to_come(waiting: &[Waiting], has_room: bool) -> Option<usize> {
    match first_in(waiting, State::Done, has_room) {
        Some(at) => Some(at),
        None => first_in(waiting, State::Full, has_room),
    }
}

/// Returns the place of the first connection in a state. One that asks for a file needs room for it.
fn first_in(waiting: &[Waiting], state: State, has_room: bool) -> Option<usize> {
    waiting.iter().position(|one| one.state == state && (has_room || !one.asks_for_file()))
}

/// Marks the connection of this token, if it is to wait for more.
fn mark(waiting: &mut [Waiting], token: Token) {
    for one in waiting {
        if one.token == token && one.state == State::Idle {
            one.state = State::Ready;
        }
    }
}
