//! What is made of an action, before it is written.

use cds_object::Rows;
use cds_soap::Answer;

/// What is made of an action.
#[derive(Drop)]
pub enum Made {
    /// The answer.
    Answer(Answer),
    /// The answer to Browse or Search: copies of the rows of a page, how many they are, how many match, and the update number.
    Page {
        rows: Rows,
        returned: u32,
        total: u32,
        update: u32,
    },
}
