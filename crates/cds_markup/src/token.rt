//! What a character completes inside the root, before namespaces are looked up.

use crate::letters::Letters;
use crate::tag::Tag;

/// What a character completes inside the root.
#[derive(Drop)]
pub enum Token {
    /// A character of a literal text.
    Letter(char),
    /// The character that a reference stands for.
    Referred(char),
    /// What a CDATA section says.
    SectionOf(Letters),
    /// A comment.
    Commented,
    /// A start tag, at its `>`.
    Started(Tag),
    /// The tag of an empty element, at its `/`.
    Slash(Tag),
    /// The `>` after that `/`.
    Shut,
    /// An end tag.
    Ended,
}
