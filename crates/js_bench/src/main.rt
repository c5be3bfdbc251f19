//! The program `js_bench`: lexes what standard input gives so many times, and prints what each pass found. It is there
//! to be measured.
#![tactic(auto)]

mod bench;
mod pass;
mod program;
mod step;
mod words;

use js_process::{StdIn, StdOut, program_words};
use program::bench_program;
use std::io;
use std::process::ExitCode;

fn main(rt: HostRuntime) -> ExitCode {
    let mut input = StdIn::new(rt.reader());
    let mut output = StdOut::new(io::writer(&rt));
    let mut errors = StdOut::new(rt.stderr());
    bench_program(
        rt.alloc(),
        program_words(&rt),
        &mut input,
        &mut output,
        &mut errors,
    )
}
