//! What a FLAC file says of its sound and of the work that it holds (RFC 9639).

use cds_base::{Sequence, Text};

/// One comment of a VORBIS_COMMENT block: a name, whose ASCII case does not count, and a value.
#[derive(Drop, Debug)]
pub struct Comment {
    pub name: Text,
    pub value: Text,
}

/// The comments of a file, in their order in the file.
pub type Comments = Sequence<Comment>;

/// What STREAMINFO and the first VORBIS_COMMENT block say.
#[derive(Drop, Debug)]
pub struct FlacInfo {
    /// Samples in a second, 0 if it is not known. What is read from a file is below 2^20.
    pub rate: u32,
    /// Channels. What is read from a file is 1 to 8.
    pub channels: u8,
    /// Bits in a sample. What is read from a file is 1 to 32.
    pub bits: u8,
    /// Samples of one channel, 0 if it is not known. What is read from a file is below 2^36.
    pub samples: u64,
    pub comments: Comments,
}
