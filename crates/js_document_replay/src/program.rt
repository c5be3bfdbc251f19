//! The program, from its streams on.

use crate::replay::replay_all;
use crate::told::Told;
use js_process::status::{DONE, MEMORY, NOT_UTF8, READ_FAILED, TOO_LONG};
use js_process::write_all::write_status;
use js_process::{ByteIn, ByteOut, MOST_BYTES, ReadFault, end_program, read_to_end};
use std::alloc::Global;
use std::process::ExitCode;

/// The name of the program.
const REPLAY: &str = "js_document_replay";

/// How it is called: with no arguments.
const REPLAY_USAGE: &str = "usage: js_document_replay";

/// A case cannot be read, or a document is not as it is to be: what was written tells which. No other program ends so.
const WRONG: u8 = 8;

/// Writes what is told, and gives the status.
fn tell<O: ByteOut>(told: &Told, output: &mut O) -> u8 {
    let status = write_status(told.text(), output);
    if status == DONE && !told.is_right() {
        WRONG
    } else {
        status
    }
}

/// Replays the cases of a source, and writes what is told of them.
fn replay_source<O: ByteOut>(alloc: Global, source: &[u8], output: &mut O) -> u8 {
    let Ok(source) = str::from_utf8(source) else {
        return NOT_UTF8;
    };
    match replay_all(alloc, source) {
        Ok(told) => tell(&told, output),
        Err(_) => MEMORY,
    }
}

/// Reads an input to its end, replays its cases, and writes what is told of them. It gives the exit status.
fn replay_run<I: ByteIn, O: ByteOut>(alloc: Global, input: &mut I, output: &mut O) -> u8 {
    match read_to_end(alloc, input, MOST_BYTES) {
        Ok(source) => replay_source(alloc, source.as_slice(), output),
        Err(ReadFault::Failed) => READ_FAILED,
        Err(ReadFault::TooLong) => TOO_LONG,
        Err(ReadFault::Memory) => MEMORY,
    }
}

/// The program, from its streams on: it ends with the status of the run, whose line is written to `errors`.
pub fn replay_program<I: ByteIn, O: ByteOut, E: ByteOut>(
    alloc: Global,
    input: &mut I,
    output: &mut O,
    errors: &mut E,
) -> ExitCode {
    let status = replay_run(alloc, input, output);
    end_program(REPLAY, REPLAY_USAGE, status, errors)
}
