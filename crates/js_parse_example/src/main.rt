//! The program `js_parse_example`: parses what standard input gives, a module of a small part of JavaScript, and prints
//! its tree. It shows how a parser stands on a cursor.
#![tactic(auto)]

use js_parse_tool::parse_program;
use js_process::{StdIn, StdOut};
use std::io;
use std::process::ExitCode;

fn main(rt: HostRuntime) -> ExitCode {
    let mut input = StdIn::new(rt.reader());
    let mut output = StdOut::new(io::writer(&rt));
    let mut errors = StdOut::new(rt.stderr());
    parse_program(rt.alloc(), &mut input, &mut output, &mut errors)
}
