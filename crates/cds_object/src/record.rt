//! What a scan found.

use crate::{Content, Path};
use cds_base::Sequence;

/// One folder or file that a scan found.
#[derive(Drop, Debug)]
pub struct Record {
    pub path: Path,
    pub content: Content,
}

/// What a scan found, in any order.
pub type Records = Sequence<Record>;
