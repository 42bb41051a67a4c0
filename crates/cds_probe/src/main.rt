//! `cds_probe`: reads rows from its standard input, one a line. For each it writes one line with what the libraries'
//! calls answer. An empty line and a line that begins with `#` are written as they stand. So line n of the output
//! answers line n of the input.
#![tactic(auto)]

mod asks;
mod criteria;
mod didl;
mod discovery;
mod events;
mod files;
mod markup;
mod messages;
mod objects;
mod replies;
mod requests;
mod row;
mod show;
mod subjects;
mod texts;

use row::Pieces;
use std::io;
use std::io::{Error, ErrorKind};

fn main(rt: HostRuntime) -> io::Result<()> {
    let alloc = rt.alloc();
    let mut pieces = Pieces::new(alloc);
    for line in rt.lines(alloc) {
        let line = line?;
        let out = subjects::answer(alloc, &mut pieces, line.as_str());
        if !out.is_whole() {
            return Err(Error::from(ErrorKind::OutOfMemory));
        }
        println!(rt; "{}", out.as_str())?;
    }
    Ok(())
}
