//! The answers of a replica.

/// What a replica knows.
#[derive(Clone, Copy, Debug, PartialEq, Eq)]
pub enum Says {
    /// The note of this SEQ is missing: a later one came.
    Gap { missing: u32 },
    /// No copy stands: a load is to begin or has not ended.
    BehindLoad,
    /// The object of this id has changed and was not read since.
    BehindRead { id: u32 },
    /// An object was read as it was after this change, which no note has told yet.
    BehindVersion { version: u32 },
    /// A copy of this number stands. It is exactly the catalog of this number if the replies and notes were an honest server's.
    Stands { at: u32 },
}
