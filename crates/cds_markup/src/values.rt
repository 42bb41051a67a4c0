//! Pieces of attribute values.

/// A piece of an attribute's value.
#[derive(Clone, Copy)]
pub enum ValuePiece {
    /// A character that stands there itself, as its code point.
    Literal(u32),
    /// A character that is referred to, as its code point.
    Referred(u32),
}
