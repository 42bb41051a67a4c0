//! What several tests take: numbers, sources, and the use of connections.

use cds_base::{Bytes, Numbers};
use cds_memory::MemSource;
use cds_outside::{Door, Failed, Sink, Source};
use std::alloc::Global;
use std::process::Abort;

/// What a test says if memory runs out.
pub const MEMORY: &str = "out of memory";

/// Returns the numbers of the calls that are to fail, counted from 1.
pub fn numbers<R: Abort>(rt: &R, alloc: Global, listed: &[u32]) -> Numbers {
    Numbers::from(Vec::from_slice(alloc, listed).expect(rt, MEMORY))
}

/// Makes a source of these bytes, of which these reads fail.
pub fn source<R: Abort>(rt: &R, alloc: Global, text: &[u8], reads: &[u32]) -> MemSource {
    let bytes = Vec::from_slice(alloc, text).expect(rt, MEMORY);
    MemSource::new(Bytes::from(bytes), numbers(rt, alloc, reads))
}

/// Reads once and writes once. Returns how many bytes were read and how many were written.
pub fn answer<C: Source + Sink>(conn: &mut C, reply: &[u8]) -> Result<(usize, usize), Failed> {
    let mut into = [0u8; 16];
    let read = conn.read(&mut into)?;
    let wrote = conn.write(reply)?;
    Ok((read, wrote))
}

/// Returns how many bytes are read of the next connection of a door, and how many of the answer are written.
pub fn answer_next<D: Door>(door: &mut D, reply: &[u8]) -> Result<(usize, usize), Failed> {
    let mut conn = door.accept()?;
    answer(&mut conn, reply)
}
