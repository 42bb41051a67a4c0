//! Texts that are escaped while they are appended, and texts with references, which are read back (XML 1.0).
#![tactic(auto)]

mod escaped;
mod unescaping;

pub use escaped::{escaped_length, put_escaped};
pub use unescaping::{TextError, unescape};
