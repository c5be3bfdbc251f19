//! The program `js_lex` over and over, for a stored run of its rows. Each line of standard input is a run: its words, and
//! behind `<` its source, in which `%` and two hexadecimal digits stand for a byte. Its line is written, its status, and
//! what it writes, with a line end behind it. A line without a `<` is a title.
#![tactic(auto)]

use js_lex_tool::{SureIn, SureOut, lex_tool_run_sure};
use percent_encoding::percent_decode;
use std::alloc::{AllocError, Global};
use std::io;

/// The words of a command line, which stand between spaces.
fn words_of(alloc: Global, words: &str) -> Result<Vec<String>, AllocError> {
    let mut list = Vec::new(alloc);
    for word in words.split_whitespace() {
        list.push(String::from_str(alloc, word)?)?;
    }
    Ok(list)
}

/// Makes a run, and gives its status and what it writes.
fn run(alloc: Global, words: &str, source: &str) -> Result<(u8, SureOut), AllocError> {
    let words = words_of(alloc, words)?;
    let mut bytes = Vec::new(alloc);
    percent_decode(source.as_bytes()).append_to(&mut bytes)?;
    let mut input = SureIn::new(&bytes, 3);
    let mut output = SureOut::new(alloc, 10);
    let outcome = lex_tool_run_sure(alloc, &words, &mut input, &mut output);
    Ok((outcome.status, output))
}

/// Writes a line, and what the run that it asks for writes.
fn write_run(rt: &HostRuntime, line: &str) -> io::Result<()> {
    let Some((words, source)) = line.split_once('<') else {
        return println!(rt; "{line}");
    };
    let (status, output) = run(rt.alloc(), words, source.trim_start())?;
    let text = str::from_utf8(output.written()).unwrap_or("no text");
    println!(rt; "$ js_lex {line}\nstatus {status}\n{text}")
}

fn main(rt: HostRuntime) -> io::Result<()> {
    let lines = io::read_to_string(rt.alloc(), rt.reader())?;
    for line in lines.lines() {
        write_run(&rt, line)?;
    }
    Ok(())
}
