//! The program `totsenak`.

use crate::collecting::collect;
use crate::importing::tell_imports_of_each;
use crate::output::{Outcome, WatchedWriter};
use crate::rewriting::rewrite_each;
use crate::showing::show;
use crate::telling::tell_of_each;
use crate::words::{Asked, Sources, answer_for, asked_of, mistake_in, read_words};
use clap::ArgMatches;
use js_process::{ByteOut, FlushAnswer, StdOut, program_words};
use js_totsenak::{NO_MEMORY, UNTOLD, UNWRITABLE};
use std::io::{self, ErrorKind};
use std::process::ExitCode;

/// Does with each file what is asked, over an output, and gives the status.
fn obey_over<O: ByteOut>(
    rt: &HostRuntime,
    asked: &Asked<'_>,
    sources: &Sources<'_>,
    output: &mut O,
) -> u8 {
    let status = match asked {
        Asked::Telling(command) => tell_of_each(rt, *command, sources, output),
        Asked::Anew(anew) => rewrite_each(rt, anew, sources, output),
        Asked::Licences(format) => collect(rt, *format, sources, output),
        Asked::Imports(imports) => tell_imports_of_each(rt, *imports, sources, output),
        Asked::Html(showing) => show(rt, *showing, sources, output),
    };
    match output.flush() {
        FlushAnswer::Done => status,
        FlushAnswer::Failed => status.max(UNWRITABLE),
    }
}

/// Does with each file what is asked, over standard output, and gives the status. Where the reader of the output has
/// gone, nothing is told of that.
fn obey(rt: &HostRuntime, asked: &Asked<'_>, sources: &Sources<'_>) -> u8 {
    let mut writer = WatchedWriter::new(io::writer(rt));
    let status = obey_over(rt, asked, sources, &mut StdOut::new(&mut writer));
    if let Outcome::Failed = writer.outcome() {
        let _ = eprintln!(rt; "totsenak: cannot write the output");
    }
    status
}

/// Does what the words of a command ask for, where that can be done.
fn obey_command(rt: &HostRuntime, command: &str, matches: &ArgMatches<'_>) -> u8 {
    let (asked, sources) = asked_of(command, matches);
    match mistake_in(&asked, &sources) {
        Some(mistake) => {
            let _ = eprintln!(rt; "totsenak: {mistake}");
            UNTOLD
        }
        None => obey(rt, &asked, &sources),
    }
}

/// Runs the program with these words, without its name, and gives the exit status.
pub fn totsenak_run(rt: &HostRuntime, words: &[String]) -> u8 {
    match read_words(rt.alloc(), words) {
        Ok(matches) => match matches.subcommand() {
            Some((command, matches)) => obey_command(rt, command, matches),
            None => UNTOLD,
        },
        Err(error) => answer_for(rt, &error),
    }
}

/// The exit status of a run whose words can't be had. Nobody is left to tell where the line on standard error fails.
fn without_words(rt: &HostRuntime, error: &io::Error) -> u8 {
    if error.kind() == ErrorKind::OutOfMemory {
        let _ = eprintln!(rt; "totsenak: out of memory");
        return NO_MEMORY;
    }
    let _ = eprintln!(rt; "totsenak: the arguments are not UTF-8");
    UNTOLD
}

/// The program over what the system gives it: its arguments, files and streams.
pub fn totsenak_main(rt: &HostRuntime) -> ExitCode {
    match program_words(rt) {
        Ok(words) => ExitCode::from(totsenak_run(rt, words.as_slice())),
        Err(error) => ExitCode::from(without_words(rt, &error)),
    }
}
