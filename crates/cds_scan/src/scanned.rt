//! What a scan found.

use cds_base::{Sequence, Text};
use cds_flac::FlacError;
use cds_object::Records;

/// A file whose name ends in `.flac` and that was not read.
#[derive(Drop, Debug)]
pub struct RefusedFile {
    /// Its path from the folder.
    pub path: Text,
    /// The first refusal. A file that could not be opened has `ReadFault`; no file has `Mem`.
    pub error: FlacError,
}

/// The refused files, in ascending order of the bytes of their paths.
pub type Refused = Sequence<RefusedFile>;

/// What a scan found.
#[derive(Drop, Debug)]
pub struct Scan {
    /// A record of each folder and each track, in ascending order of paths.
    pub records: Records,
    /// The files that were refused.
    pub refused: Refused,
}
