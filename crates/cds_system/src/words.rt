//! The words of the command line.

use cds_base::{Mem, Text, Words};
use std::alloc::Global;
use std::env;
use std::env::{Args, Env};
use std::io::ErrorKind;

/// Returns the words after the program's name. If the words cannot be had as text, there are none. The error is that memory ran
/// out.
pub fn read_words<R: Env + AllocGlobal>(rt: &R, alloc: Global) -> Result<Words, Mem> {
    match env::args(rt) {
        Ok(args) => words_of(alloc, args),
        Err(error) if error.kind() == ErrorKind::OutOfMemory => Err(Mem),
        Err(_) => Ok(Words::new(alloc)),
    }
}

/// Returns the words after the first.
fn words_of(alloc: Global, args: Args<Global>) -> Result<Words, Mem> {
    let mut words = Words::new(alloc);
    for word in args.skip(1) {
        words.push(Text::from(word))?;
    }
    Ok(words)
}
