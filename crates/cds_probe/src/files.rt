//! The rows `flac` and `flac-cut`: FLAC files.

use crate::row::Row;
use crate::show::Out;
use cds_base::{Bytes, Numbers};
use cds_flac::{FlacError, FlacInfo, read_flac};
use cds_memory::MemSource;
use std::alloc::Global;
use std::convert::From;

/// Reads these bytes as a FLAC file.
fn read(alloc: Global, bytes: &[u8]) -> Result<FlacInfo, FlacError> {
    let contents = Bytes::from(Vec::from_slice(alloc, bytes)?);
    let mut source = MemSource::new(contents, Numbers::new(alloc));
    read_flac(alloc, &mut source)
}

/// `flac | bytes`: shows the rate, the channels, the bits, the samples and the comments of a file.
pub fn flac(alloc: Global, row: &Row, out: &mut Out) {
    match read(alloc, row.bytes(1)) {
        Ok(info) => info_shown(&info, out),
        Err(refusal) => out.refuse(&refusal),
    }
}

fn info_shown(info: &FlacInfo, out: &mut Out) {
    out.value(&info.rate);
    out.say(" ", &info.channels);
    out.say(" ", &info.bits);
    out.say(" ", &info.samples);
    for comment in info.comments.as_slice() {
        out.quote(comment.name.as_str().as_bytes());
        out.quote(comment.value.as_str().as_bytes());
    }
}

/// Returns whether the prefix of `count` bytes is refused at its end.
fn is_cut_off(alloc: Global, bytes: &[u8], count: usize) -> bool {
    let (front, _) = bytes.split_at(count.min(bytes.len()));
    read(alloc, front).err() == Some(FlacError::Truncated { at: front.len() })
}

/// `flac-cut | bytes`: shows how many prefixes are refused at their end.
pub fn cuts(alloc: Global, row: &Row, out: &mut Out) {
    let bytes = row.bytes(1);
    let mut refused: usize = 0;
    for count in 0..bytes.len() {
        if is_cut_off(alloc, bytes, count) {
            refused = refused.saturating_add(1);
        }
    }
    out.value(&refused);
    out.say(" of ", &bytes.len());
}
