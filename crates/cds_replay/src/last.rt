//! The kind of the last turn of a session, by which the next one may stand.

/// What the last turn of a session was.
#[derive(Clone, Copy, Drop)]
pub enum Last {
    /// No turn came yet.
    NoTurn,
    /// The server's first number.
    OfFirst { number: u32 },
    /// A track, or a comment of one.
    OfTrack,
    Other,
}
