//! Remembers addresses that did not answer, so that a subscriber that is gone does not delay the others.

use std::alloc::{AllocError, Global};
use std::net::SocketAddr;
use std::sync::{Arc, Mutex};
use std::time::Duration;

/// The most addresses that are remembered.
const MOST: usize = 64;

/// For how many seconds an address is left alone after its first failure. Each further failure doubles this.
const SHORTEST: u64 = 2;

/// The most seconds for which an address is left alone.
const LONGEST: u64 = 60;

/// A failure that took fewer milliseconds than this is not remembered, since it delays nobody.
const QUICK: u64 = 100;

/// For how many seconds no address that failed before is tried after one of them failed again, and others have less time after
/// any failure.
const REST: u64 = 5;

/// How an exchange with an address is to be made.
#[derive(Clone, Copy)]
pub enum Trial {
    /// The address did not fail before. This number of exchanges with others failed just now.
    Unknown { failures: u32 },
    /// The address took a request and did not answer in time.
    Late,
    /// The address could not be reached before.
    Known,
    /// Not at all.
    None,
}

/// How an exchange failed.
#[derive(Clone, Copy)]
pub enum Failure {
    /// The request was not sent whole. Connecting had this number of milliseconds.
    Unsent(u64),
    /// The request was sent, and no reply came in this number of milliseconds.
    Late(u64),
}

/// An address that failed, how often in a row, and when it failed last. `is_late` says whether it took the last request.
#[derive(Clone, Copy)]
struct Silent {
    address: SocketAddr,
    failures: u32,
    last: Duration,
    is_late: bool,
}

/// The addresses that failed last, at most 64. Moments are those of the system's clock.
#[derive(Drop)]
pub struct Backoff {
    silent: Vec<Silent>,
    rests_until: Duration,
    failures: u32,
    hurries_until: Duration,
}

/// What several links remember together.
pub type Shared = Arc<Mutex<Backoff>>;

/// Makes a memory of nothing yet, for several links.
pub fn new_shared(alloc: Global) -> Result<Shared, AllocError> {
    let backoff = Backoff {
        silent: Vec::with_capacity(alloc, MOST)?,
        rests_until: Duration::from_secs(0),
        failures: 0,
        hurries_until: Duration::from_secs(0),
    };
    match Arc::new(alloc, Mutex::new(backoff)) {
        Ok(shared) => Ok(shared),
        Err(_) => Err(AllocError),
    }
}

impl Backoff {
    /// Returns how an exchange with an address is to be made now. The first note of a subscription is tried sooner than others:
    /// its subscriber was there a moment ago. One that takes requests and does not answer is always tried.
    pub fn trial(&self, address: SocketAddr, now: Duration, is_first: bool) -> Trial {
        match self.find(address) {
            None => Trial::Unknown {
                failures: self.failures_at(now),
            },
            Some(silent) if silent.is_late => Trial::Late,
            Some(silent) if is_first => trial_after(silent.last, SHORTEST, now),
            Some(_) if now < self.rests_until => Trial::None,
            Some(silent) => trial_after(silent.last, pause_after(silent.failures), now),
        }
    }

    /// Returns how many exchanges failed in a row that ends less than 5 seconds ago.
    fn failures_at(&self, now: Duration) -> u32 {
        if now < self.hurries_until {
            self.failures
        } else {
            0
        }
    }

    /// Forgets an address, which answered.
    pub fn forget(&mut self, address: SocketAddr) {
        self.silent.retain(|silent| silent.address != address);
    }

    /// Remembers that an exchange with an address failed, which began at this moment and took so long. One that failed at once is
    /// remembered only if the address failed before.
    pub fn remember(
        &mut self,
        address: SocketAddr,
        begun: Duration,
        took: Duration,
        failure: Failure,
    ) {
        let ended = begun.saturating_add(took);
        let (patience, is_late) = match failure {
            Failure::Unsent(patience) => (patience, false),
            Failure::Late(patience) => (patience, true),
        };
        if took >= Duration::from_millis(patience.min(QUICK)) {
            self.failures = self.failures_at(begun).saturating_add(1);
            self.hurries_until = ended.saturating_add(Duration::from_secs(REST));
        }
        let is_quick = took < Duration::from_millis(QUICK);
        match self.find(address) {
            None if is_quick => {}
            None => self.add(address, 1, ended, is_late),
            Some(silent) => {
                self.forget(address);
                self.add(address, silent.failures.saturating_add(1), ended, is_late);
                if !is_late {
                    self.rests_until = ended.saturating_add(Duration::from_secs(REST));
                }
            }
        }
    }

    /// Returns what is remembered of an address.
    fn find(&self, address: SocketAddr) -> Option<Silent> {
        self.silent
            .iter()
            .find(|silent| silent.address == address)
            .copied()
    }

    /// Adds an address. If there is no room, the one that was added first is forgotten.
    fn add(&mut self, address: SocketAddr, failures: u32, last: Duration, is_late: bool) {
        if self.silent.len() >= MOST {
            let _ = self.silent.remove(0);
        }
        let _ = self.silent.push(Silent {
            address,
            failures,
            last,
            is_late,
        });
    }
}

/// Returns for how many seconds an address is left alone after `failures` failures in a row.
fn pause_after(failures: u32) -> u64 {
    let doublings = failures.saturating_sub(1).min(5);
    SHORTEST.saturating_mul(1 << doublings).min(LONGEST)
}

/// Returns how an exchange is to be made if the last one failed at `last`, and the address is left alone for `pause` seconds.
fn trial_after(last: Duration, pause: u64, now: Duration) -> Trial {
    if now < last.saturating_add(Duration::from_secs(pause)) {
        Trial::None
    } else {
        Trial::Known
    }
}
