//! The limits that several crates share.

/// The largest number of bytes of a document, a StateEvent, the body of a message, a script or the metadata of a file.
pub const INPUT_LIMIT: usize = 67_108_864;
