//! Spans of changes.

/// The changes of a scan by their numbers: `from + 1` to `to`, or none if both are equal.
#[derive(Clone, Copy, Debug, PartialEq, Eq)]
pub struct Span {
    pub from: u32,
    pub to: u32,
}
