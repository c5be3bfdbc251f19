//! The program `js_document_replay`: makes the edits that standard input lists, each case's one behind the other, of a
//! document that chooses its goals, and compares it behind each with a session over its text. It is there for texts
//! beyond those of the tests.
#![tactic(auto)]

mod case;
mod change;
mod program;
mod replay;
mod told;

use js_process::{StdIn, StdOut};
use program::replay_program;
use std::io;
use std::process::ExitCode;

fn main(rt: HostRuntime) -> ExitCode {
    let mut input = StdIn::new(rt.reader());
    let mut output = StdOut::new(io::writer(&rt));
    let mut errors = StdOut::new(rt.stderr());
    replay_program(rt.alloc(), &mut input, &mut output, &mut errors)
}
