//! How far the reading of search criteria has come.

ghost use Rattle.std.specs.Prelude.{◌≡◌, ◌+◌, length};

use crate::tree::{Conjunction, Disjunction};
use crate::{Operator, Property};

/// What is awaited within criteria.
#[derive(Clone, Copy)]
pub(crate) enum Stage {
    /// A property or `(`.
    Term,
    /// An operator or `exists`.
    Test(Property),
    /// A value.
    Argument(Property, Operator),
    /// `true` or `false`.
    Answer(Property),
    /// `and`, `or`, `)` or the end.
    Joint,
}

/// Criteria that are open: what stands before the last `or`, and the conditions after it.
#[derive(Drop)]
pub(crate) struct Level {
    pub before: Option<Disjunction>,
    pub factors: Option<Conjunction>,
}

/// A place within criteria. `room` more parentheses may open, and `outer` has the levels around this one, the innermost last.
#[derive(Drop)]
pub(crate) struct Position {
    pub stage: Stage,
    pub room: usize,
    pub level: Level,
    pub outer: Vec<Level>,
    ghost bounded: { room + length outer.items ≡ 16 },
}

/// How far the reading has come.
#[derive(Drop)]
pub(crate) enum Course {
    /// Nothing was read.
    Start,
    /// `*` was read.
    All,
    Inside(Position),
    /// The text ends within a token.
    Cut,
}
