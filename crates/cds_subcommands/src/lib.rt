//! What the commands `check`, `scan` and `generate` do. The first reads a StateEvent and writes its one written form. The second
//! scans a folder of FLAC files and writes its catalog. The third writes the script of a generated library. Each takes the streams
//! and the outside that it is given, and answers an exit status.
#![tactic(auto)]

mod checking;
mod generating;
mod scanning;
mod written;

pub use checking::check;
pub use generating::write_script;
pub use scanning::scan_folder;
pub use written::write_text;
