//! The parts of a document.

use crate::{Attrs, Name};
use cds_base::{Sequence, Text};

/// A part of a document. Places are numbers of bytes from its start.
#[derive(Drop, Debug)]
pub enum Part {
    /// A start tag.
    Start {
        /// The place of its `<`.
        at: usize,
        /// The place of the `>` or `/` that ends it.
        end: usize,
        /// The element's name.
        name: Name,
        /// Its attributes.
        attrs: Attrs,
    },
    /// The end of an element.
    End {
        /// The place of the `<` of the end tag, or of the `/` of an empty element's tag.
        at: usize,
    },
    /// A literal text, a reference or a CDATA section inside the root.
    Run {
        /// The place where it begins.
        at: usize,
        /// The place of the first character that is not white space, in a literal text. That may be a character right after the
        /// text that a fault or the end of a piece cuts. In a reference or a section it is `at`. If one text has several runs,
        /// the first of them that has a place has the text's.
        non_blank: Option<usize>,
        /// What it says.
        text: Text,
    },
}

/// Parts in the order of the document.
pub type Parts = Sequence<Part>;
