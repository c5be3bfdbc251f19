//! The program `js_jsx_report`: lexes what standard input gives, a module that may have JSX, by goals that are chosen,
//! and prints the report.
#![tactic(auto)]

mod program;

use js_process::{StdIn, StdOut};
use program::jsx_program;
use std::io;
use std::process::ExitCode;

fn main(rt: HostRuntime) -> ExitCode {
    let mut input = StdIn::new(rt.reader());
    let mut output = StdOut::new(io::writer(&rt));
    let mut errors = StdOut::new(rt.stderr());
    jsx_program(rt.alloc(), &mut input, &mut output, &mut errors)
}
