//! What a machine says when a byte completes something inside the root.

use crate::letters::Letters;
use crate::{Attrs, Name};

/// What a byte completes inside the root.
#[derive(Drop)]
pub enum Event {
    /// A character of a literal text.
    Letter(char),
    /// The character that a reference stands for.
    Referred(char),
    /// What a CDATA section says, with its line ends as they are.
    Section(Letters),
    /// A comment.
    Comment,
    /// A start tag, at its `>`.
    Start(Name, Attrs),
    /// The tag of an empty element, at its `/`.
    Empty(Name, Attrs),
    /// The `>` after that `/`.
    Shut,
    /// An end tag.
    End,
}
