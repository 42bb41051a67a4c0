//! What is planned of a file.

ghost use Rattle.std.specs.Prelude.{◌≡◌};
ghost use Rattle.cds_media.specs.Heads.{status_of};
ghost use Rattle.cds_media.specs.Plans.{FitsIn, count_of, start_of};

/// What is planned of a file for a request.
#[derive(Clone, Copy, Debug, PartialEq, Eq)]
pub enum Plan {
    /// The whole file.
    Whole,
    /// The bytes from the place `from` up to the place `to`, without the byte at `to`.
    Part { from: u64, to: u64 },
    /// Nothing: the range is not passed over, and begins at the end of the file or past it, or asks for the last 0 bytes.
    None,
}

impl Plan {
    /// Returns the status of the reply: 200 for the whole file, 206 for a part, and 416 for nothing.
    pub fn status(&self) -> u16
        ensures status { result ≡ status_of self.now }
    {
        match self {
            Plan::Whole => 200,
            Plan::Part { .. } => 206,
            Plan::None => 416,
        }
    }

    /// Returns the place of the first byte that is planned, or 0 if nothing is.
    pub fn start(&self) -> u64
        ensures start { result ≡ start_of self.now }
    {
        match self {
            Plan::Whole => 0,
            Plan::Part { from, .. } => *from,
            Plan::None => 0,
        }
    }

    /// Returns how many bytes of a file of this size are planned.
    pub fn count(&self, size: u64) -> u64
        requires fits { FitsIn size self.now }
        ensures count { result ≡ count_of size self.now }
    {
        match self {
            Plan::Whole => size,
            Plan::Part { from, to } => *to - *from,
            Plan::None => 0,
        }
    }
}
