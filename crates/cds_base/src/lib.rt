//! What every crate of Faroash stands on: texts and lists of the project's own, and small functions on text.
#![tactic(auto)]

pub mod laws;
mod limits;
mod mem;
mod order;
mod sequence;
mod text;

pub use limits::INPUT_LIMIT;
pub use mem::Mem;
pub use sequence::Sequence;
pub use text::{
    Text, escape, first_forbidden, is_allowed, letters_run, plain_run, put, put_number,
    read_digits, read_plain, read_u32, read_u64,
};

/// A list of bytes.
pub type Bytes = Sequence<u8>;

/// A list of numbers.
pub type Numbers = Sequence<u32>;

/// A list of moments in milliseconds.
pub type Moments = Sequence<u64>;

/// A list of words, as a command line has them.
pub type Words = Sequence<Text>;
