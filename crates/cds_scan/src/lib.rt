//! One pass over a folder of FLAC files. It gives the records of the folder's folders and tracks, and the files that were
//! refused.
#![tactic(auto)]

mod error;
mod file;
mod found;
mod name;
mod scanned;
mod walk;

pub use error::ScanError;
pub use scanned::{Refused, RefusedFile, Scan};
pub use walk::scan;
