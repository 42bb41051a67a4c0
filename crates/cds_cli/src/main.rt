//! `cds`: the program. It plays a ContentDirectory:4 server and its replica from scripts, reads StateEvents, scans a
//! folder of FLAC files, and with `serve` serves such a folder over HTTP.
#![tactic(auto)]

use cds_base::Mem;
use cds_program::run;
use cds_system::{Input, Output, RealOutside, read_words};
use std::io::writer;
use std::process::ExitCode;

/// The status if memory runs out.
const OUT_OF_MEMORY: u8 = 4;

fn main(rt: HostRuntime) -> ExitCode {
    let alloc = rt.alloc();
    let words = match read_words(&rt, alloc) {
        Ok(words) => words,
        Err(Mem) => return ExitCode::from(OUT_OF_MEMORY),
    };
    let mut source = Input::new(rt.reader());
    let mut sink = Output::new(writer(&rt));
    let mut outside = RealOutside::new(rt);
    let status = run(&rt, alloc, &words, &mut source, &mut sink, &mut outside);
    ExitCode::from(status)
}
