//! The lines for the statuses, as they are displayed and as the program writes them.

use crate::run::strings_of;
use js_lex_tool::programs::{
    BENCH, BENCH_USAGE, EDIT, EDIT_USAGE, PARSE_EXAMPLE, PARSE_EXAMPLE_USAGE,
};
use js_lex_tool::{
    MemoryOut, StatusLine, SureIn, SureOut, end_lex, lex_program, line_for, status_line,
    words_behind_name,
};
use std::alloc::{AllocError, Global};
use std::process::ExitCode;
use std::test::Fail;

const USAGE: &str = concat!(
    "js_lex: usage: js_lex module|script|unambiguous tokens|no-tokens all|auto|COMMAND[*N].. or js_lex gen N",
    " or js_lex strip module|script|unambiguous all|COMMAND[*N]..",
    " or js_lex squeeze module|script|unambiguous all|COMMAND[*N]..\n",
);

/// A status, the writes and flushes that fail, what is written, and how many calls failed: no call comes behind one that
/// has failed, so of several one does.
static ENDS: [(u8, &[u64], &str, u64); 14] = [
    (0, &[], "", 0),
    (1, &[], "js_lex: out of memory\n", 0),
    (2, &[], USAGE, 0),
    (3, &[], "js_lex: cannot read input\n", 0),
    (4, &[], "js_lex: cannot write output\n", 0),
    (5, &[], "js_lex: input is longer than 67108864 bytes\n", 0),
    (6, &[], "js_lex: input is not UTF-8\n", 0),
    (7, &[], "js_lex: rewind or commit without a mark\n", 0),
    (8, &[], "", 0),
    (9, &[], "js_lex: source has diagnostics\n", 0),
    (10, &[], "js_lex: cannot read arguments\n", 0),
    (11, &[], "", 0),
    (12, &[], "", 0),
    (3, &[0, 1, 2, 3], "", 1),
];

/// Whether this is written as the program ends with a status, how many calls failed, and the exit code.
fn ends(alloc: Global, status: u8, failing: &[u64], text: &str) -> (bool, u64, ExitCode) {
    let mut errors = MemoryOut::new(alloc, 100, failing);
    let code = end_lex(status, &mut errors);
    (errors.written() == text.as_bytes(), errors.faults(), code)
}

/// A line as it is displayed, with its line end; nothing, where there is none.
fn displayed(alloc: Global, line: Option<StatusLine>) -> Result<String, AllocError> {
    match line {
        Some(line) => format!(in alloc; "{line}\n"),
        None => Ok(String::new(alloc)),
    }
}

#[test]
fn lines(rt: HostRuntime) -> Result<(), Fail> {
    for &(status, failing, text, faults) in &ENDS {
        let told = ends(rt.alloc(), status, failing, text);
        assert_eq!(rt; told, (true, faults, ExitCode::from(status)), "{status}");
        let line = displayed(rt.alloc(), status_line(status))?;
        assert!(rt; !failing.is_empty() || line.as_str() == text, "{status}");
    }
    Ok(())
}

/// The programs beside `js_lex`: the name and the usage of each, and the line that it prints where its arguments are not
/// valid.
static USAGES: [(&str, &str, &str); 3] = [
    (
        EDIT,
        EDIT_USAGE,
        concat!(
            "js_edit: usage: js_edit module|script|unambiguous START END TEXT COMMAND[*N]..",
            " [-- COMMAND[*N]..]\n",
        ),
    ),
    (
        BENCH,
        BENCH_USAGE,
        "js_bench: usage: js_bench module|script|unambiguous tokens|no-tokens|lists N [jsx]\n",
    ),
    (
        PARSE_EXAMPLE,
        PARSE_EXAMPLE_USAGE,
        "js_parse_example: usage: js_parse_example\n",
    ),
];

#[test]
fn usage_lines(rt: HostRuntime) -> Result<(), Fail> {
    for &(program, usage, text) in &USAGES {
        let line = displayed(rt.alloc(), line_for(program, usage, 2))?;
        assert_eq!(rt; line.as_str(), text);
    }
    Ok(())
}

// An empty word is a word, so it is no command.
#[test]
fn a_program_that_is_refused(rt: HostRuntime) -> Result<(), Fail> {
    let arguments = strings_of(rt.alloc(), "js_lex module no-tokens ")?;
    let words = Ok(words_behind_name(arguments));
    let mut input = SureIn::new(b"a", 3);
    let mut output = SureOut::new(rt.alloc(), 10);
    let mut errors = SureOut::new(rt.alloc(), 10);
    let code = lex_program(rt.alloc(), words, &mut input, &mut output, &mut errors);
    assert_eq!(rt; (code, output.written().len()), (ExitCode::from(2), 0));
    assert_eq!(rt; errors.written(), USAGE.as_bytes());
    Ok(())
}
