//! The words of a program.

ghost use Rattle.std.specs.Prelude.{◌≡◌, drop};
ghost use Rattle.std.specs.IoError.{error_kind};
ghost use Rattle.js_process.specs.Status.{number, status_without_words};

use crate::status::{MEMORY, NO_ARGUMENTS};
use std::{env, io};

/// All arguments but the first, which is the program's name. An empty one is a word too.
pub fn words_behind_name(mut arguments: Vec<String>) -> Vec<String>
    ensures { result.items ≡ drop 1 arguments.items }
{
    if !arguments.is_empty() {
        let _name = arguments.remove(0);
    }
    arguments
}

/// The words after the program's name.
pub fn program_words<R: std::rt::Env + AllocGlobal>(rt: &R) -> io::Result<Vec<String>> {
    let arguments = env::args(rt)?.collect(rt.alloc())?;
    Ok(words_behind_name(arguments))
}

/// The status of a program that was not given its words, for this reason.
pub fn status_without_words(error: &io::Error) -> u8
    ensures { result ≡ number (status_without_words (error_kind error.now)) }
{
    match error.kind() {
        io::ErrorKind::OutOfMemory => MEMORY,
        _ => NO_ARGUMENTS,
    }
}
