//! The program, from its words on.

ghost use Rattle.std.specs.Process.{exit_status};
ghost use Rattle.js_process.specs.Exit.{Tells};
ghost use Rattle.js_process.specs.Programs.{js_bench, js_bench_usage};
ghost use Rattle.js_process.specs.Status.{line_for};
ghost use Rattle.js_bench.specs.Run.{RunsWords};

use crate::bench::bench_run;
use js_process::programs::{BENCH, BENCH_USAGE};
use js_process::{ByteIn, ByteOut, end_program, status_without_words};
use std::alloc::Global;
use std::io;
use std::process::ExitCode;

/// The status of a run of these words, or of none for want of them.
fn program_status<I: ByteIn, O: ByteOut>(
    alloc: Global,
    words: io::Result<Vec<String>>,
    input: &mut I,
    output: &mut O,
) -> u8
    ensures { RunsWords words (I.state input.old) (I.state input.new) (O.state output.old) (O.state output.new) result }
{
    match words {
        Ok(words) => bench_run(alloc, &words, input, output),
        Err(error) => status_without_words(&error),
    }
}

/// The program, from its words on: runs them, and ends with the status of the run. Its line is written to `errors`.
pub fn bench_program<I: ByteIn, O: ByteOut, E: ByteOut>(
    alloc: Global,
    words: io::Result<Vec<String>>,
    input: &mut I,
    output: &mut O,
    errors: &mut E,
) -> ExitCode
    ensures run { RunsWords words (I.state input.old) (I.state input.new) (O.state output.old) (O.state output.new)
        (exit_status result) }
    ensures line { Tells (line_for js_bench js_bench_usage (exit_status result))
        (E.state errors.old) (E.state errors.new) }
{
    let status = program_status(alloc, words, input, output);
    end_program(BENCH, BENCH_USAGE, status, errors)
}
