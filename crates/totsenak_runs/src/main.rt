//! The program `totsenak` over and over, for stored runs of its commands. The words of each run end with `;`, and what it
//! writes stands between them and its status.
#![tactic(auto)]

use js_process::program_words;
use js_totsenak_files::totsenak_run;
use std::io;
use std::process::ExitCode;

/// Writes the words of a run, makes it, and writes its status.
fn make_run(rt: &HostRuntime, words: &[String]) {
    let _ = print!(rt; "$ totsenak");
    for word in words {
        let _ = print!(rt; " {word}");
    }
    let _ = println!(rt; "");
    let status = totsenak_run(rt, words);
    let _ = println!(rt; "status {status}");
}

/// Makes the runs that the words of the program ask for.
fn make_runs(rt: &HostRuntime) -> Result<(), io::Error> {
    let mut words = Vec::new(rt.alloc());
    for word in program_words(rt)? {
        if word.as_str() == ";" {
            make_run(rt, words.as_slice());
            words.clear();
        } else {
            words.push(word)?;
        }
    }
    Ok(())
}

fn main(rt: HostRuntime) -> ExitCode {
    match make_runs(&rt) {
        Ok(()) => ExitCode::SUCCESS,
        Err(_) => ExitCode::FAILURE,
    }
}
