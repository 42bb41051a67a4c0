//! The changes of objects that scans find.

use cds_object::{Content, Path};

/// One change of one object, as a scan found it (UPnP ContentDirectory:4 on tracking changes).
#[derive(Drop, Debug)]
pub enum Change {
    Deletion { path: Path },
    Addition { path: Path, content: Content },
    Modification { path: Path, content: Content },
}
