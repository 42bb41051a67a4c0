//! What becomes of a note.

/// What became of a note that was not refused.
#[derive(Clone, Copy, Debug, PartialEq, Eq)]
pub enum Taken {
    /// It was taken, with the held ones that follow it.
    Took,
    /// It came before.
    Repeat,
    /// It is held for the subscribe request that is out.
    Early,
    /// It is held until the note of this SEQ comes, which is that of the next place.
    Held { missing: u32 },
}
