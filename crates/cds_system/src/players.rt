//! Requests for files. A player takes a file as slowly as it plays, so few of them are with workers at a time.

use std::alloc::Global;
use std::io;
use std::sync::Arc;

/// How many requests for files are with workers at a time.
const MOST: usize = 2;

/// Returns whether what came of a connection begins as a request for a file. CR and LF before its first line do not count.
pub fn asks_for_file(bytes: &[u8]) -> bool {
    match bytes
        .iter()
        .position(|byte| *byte != b'\r' && *byte != b'\n')
    {
        None => false,
        Some(at) => bytes[at..].starts_with(b"GET /media/"),
    }
}

/// The requests for files that are with workers.
#[derive(Drop)]
pub struct Players {
    shared: Arc<u8>,
}

/// One request for a file that is with a worker. It counts until it is dropped.
#[derive(Drop)]
pub struct Player {
    _shared: Arc<u8>,
}

impl Players {
    /// Makes a count of none.
    pub fn new(alloc: Global) -> io::Result<Self> {
        let shared = Arc::new(alloc, 0)?;
        Ok(Players { shared })
    }

    /// Returns whether one more may go to a worker.
    pub fn has_room(&self) -> bool {
        Arc::strong_count(&self.shared) <= MOST
    }

    /// Counts one more, if it asks for a file by what came of it.
    pub fn admit(&self, bytes: &[u8]) -> Option<Player> {
        if asks_for_file(bytes) {
            Some(Player {
                _shared: Arc::try_clone(&self.shared).ok()?,
            })
        } else {
            None
        }
    }
}
