//! The program, from its words on.

ghost use Rattle.std.specs.Process.{exit_status};
ghost use Rattle.js_process.specs.Exit.{Tells};
ghost use Rattle.js_process.specs.Programs.{js_edit, js_edit_usage};
ghost use Rattle.js_process.specs.Status.{line_for};
ghost use Rattle.js_edit.specs.Run.{RunsWords};

use crate::edit::edit_run;
use js_process::programs::{EDIT, EDIT_USAGE};
use js_process::{ByteIn, ByteOut, end_program, status_without_words};
use std::alloc::Global;
use std::io;
use std::process::ExitCode;

/// The status of a run of these words, or of none for want of them.
fn program_status<I: ByteIn, O: ByteOut>(
    alloc: Global,
    words: io::Result<Vec<String>>,
    input: &mut I,
    output: &mut O,
) -> u8
    ensures { RunsWords words (I.state input.old) (I.state input.new) (O.state output.old) (O.state output.new) result }
{
    match words {
        Ok(words) => edit_run(alloc, &words, input, output),
        Err(error) => status_without_words(&error),
    }
}

/// The program, from its words on: runs them, and ends with the status of the run. Its line is written to `errors`.
pub fn edit_program<I: ByteIn, O: ByteOut, E: ByteOut>(
    alloc: Global,
    words: io::Result<Vec<String>>,
    input: &mut I,
    output: &mut O,
    errors: &mut E,
) -> ExitCode
    ensures run { RunsWords words (I.state input.old) (I.state input.new) (O.state output.old) (O.state output.new)
        (exit_status result) }
    ensures line { Tells (line_for js_edit js_edit_usage (exit_status result))
        (E.state errors.old) (E.state errors.new) }
{
    let status = program_status(alloc, words, input, output);
    end_program(EDIT, EDIT_USAGE, status, errors)
}
