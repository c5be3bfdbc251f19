//! The program `js_edit`: lexes what standard input gives, makes an edit of it, and prints the report of the edited
//! text, with how many rows were kept.
#![tactic(auto)]

mod edit;
mod program;
mod words;

use js_process::{StdIn, StdOut, program_words};
use program::edit_program;
use std::io;
use std::process::ExitCode;

fn main(rt: HostRuntime) -> ExitCode {
    let mut input = StdIn::new(rt.reader());
    let mut output = StdOut::new(io::writer(&rt));
    let mut errors = StdOut::new(rt.stderr());
    edit_program(
        rt.alloc(),
        program_words(&rt),
        &mut input,
        &mut output,
        &mut errors,
    )
}
