//! The program `js_lex`.

ghost use Rattle.std.specs.Process.{exit_status};
ghost use Rattle.js_lex_tool.specs.Program.{RunsWords};

use crate::stop::end_lex;
use crate::tool::lex_tool_run;
use js_process::{ByteIn, ByteOut, StdIn, StdOut, program_words, status_without_words};
use std::alloc::Global;
use std::io;
use std::process::ExitCode;

/// The status of a run of these words, or of none for want of them.
fn program_status<I: ByteIn, O: ByteOut>(
    alloc: Global,
    words: io::Result<Vec<String>>,
    input: &mut I,
    output: &mut O,
) -> u8
    ensures { RunsWords words (I.state input.old) (I.state input.new) (O.state output.old) (O.state output.new) result }
{
    match words {
        Ok(words) => lex_tool_run(alloc, &words, input, output).status,
        Err(error) => status_without_words(&error),
    }
}

/// The program, from its words on: runs them, and ends with the status of the run. Where that is not 0, a line that tells
/// why is written to `errors`.
pub fn lex_program<I: ByteIn, O: ByteOut, E: ByteOut>(
    alloc: Global,
    words: io::Result<Vec<String>>,
    input: &mut I,
    output: &mut O,
    errors: &mut E,
) -> ExitCode
    ensures { RunsWords words (I.state input.old) (I.state input.new) (O.state output.old) (O.state output.new)
        (exit_status result) }
{
    let status = program_status(alloc, words, input, output);
    end_lex(status, errors)
}

/// The program over what the system gives it: its arguments and its three streams.
pub fn lex_main(rt: &HostRuntime) -> ExitCode {
    let mut input = StdIn::new(rt.reader());
    let mut output = StdOut::new(io::writer(rt));
    let mut errors = StdOut::new(rt.stderr());
    lex_program(
        rt.alloc(),
        program_words(rt),
        &mut input,
        &mut output,
        &mut errors,
    )
}
