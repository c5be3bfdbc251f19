//! Runs whose reads, writes and flush fail in turn.

use crate::run::strings_of;
use js_lex_tool::status::{DONE, READ_FAILED, WRITE_FAILED};
use js_lex_tool::{MemoryIn, MemoryOut, lex_tool_run};
use std::alloc::{AllocError, Global};
use std::test::Fail;

/// How many bytes a read gives at most.
const READ: usize = 2;

/// How many bytes a write takes at most.
const WRITTEN: usize = 10;

/// Words, a source, how many reads are made of it, the one that finds its end among them, the text that is written, and
/// how many writes are made of that, the flush among them.
struct Run {
    words: &'static str,
    source: &'static [u8],
    reads: usize,
    text: &'static str,
    writes: usize,
}

static RUNS: [Run; 13] = [
    Run {
        words: "module no-tokens next*5",
        source: b"foo(a);",
        reads: 5,
        text: concat!(
            "row 0 first 0 1 Ident 0..3 n =foo\n",
            "row 1 next 3 1 LParen 3..4 -\n",
            "row 2 next 4 1 Ident 4..5 - =a\n",
            "row 3 next 5 1 RParen 5..6 -\n",
            "row 4 next 6 1 Semicolon 6..7 -\n",
            "row 5 next 7 1 Eof 7..7 -\n",
            "token Ident 0..3 n\n",
            "token LParen 3..4 -\n",
            "token Ident 4..5 -\n",
            "token RParen 5..6 -\n",
            "token Semicolon 6..7 -\n",
            "token Eof 7..7 -\n",
        ),
        writes: 31,
    },
    Run {
        words: "strip module all",
        source: b"first/*x*/second // y\nthird",
        reads: 15,
        text: "first second  \nthird",
        writes: 3,
    },
    Run {
        words: "squeeze module all",
        source: b"first/*x*/second // y\nthird",
        reads: 15,
        text: "first second\nthird",
        writes: 3,
    },
    // With generated lines no read is made, so none can fail.
    Run {
        words: "gen 1",
        source: b"a",
        reads: 0,
        text: "gen 1 bytes 21 rows 8 tokens 8 comments 1 diagnostics 0\n",
        writes: 7,
    },
    // Sources that break off.
    Run {
        words: "module no-tokens",
        source: b"`\\",
        reads: 2,
        text: concat!(
            "row 0 first 0 1 Undetermined 0..2 n\n",
            "token Undetermined 0..2 n\n",
            "diagnostic UnterminatedString 0..2\n",
            "diagnostic UnterminatedString 0..2\n",
        ),
        writes: 15,
    },
    Run {
        words: "module no-tokens",
        source: b"\"\\uD83",
        reads: 4,
        text: concat!(
            "row 0 first 0 1 Undetermined 0..6 n\n",
            "token Undetermined 0..6 n\n",
            "diagnostic InvalidEscapeSequence 1..6\n",
            "diagnostic UnterminatedString 0..6\n",
        ),
        writes: 15,
    },
    Run {
        words: "module no-tokens regex",
        source: b"/[/",
        reads: 3,
        text: concat!(
            "row 0 first 0 1 Slash 0..1 n\n",
            "row 1 regex 1 1 RegExp 0..3 - /3 - 0\n",
            "token RegExp 0..3 -\n",
            "diagnostic UnterminatedRegExp 0..3\n",
        ),
        writes: 14,
    },
    Run {
        words: "module no-tokens regex",
        source: b"/a\nb",
        reads: 3,
        text: concat!(
            "row 0 first 0 1 Slash 0..1 n\n",
            "row 1 regex 1 1 RegExp 0..4 - /4 - 0\n",
            "token RegExp 0..4 -\n",
            "diagnostic UnterminatedRegExp 0..3\n",
        ),
        writes: 14,
    },
    Run {
        words: "module no-tokens next",
        source: b"a/*\n",
        reads: 3,
        text: concat!(
            "row 0 first 0 1 Ident 0..1 n =a\n",
            "row 1 next 1 1 Eof 1..4 n\n",
            "token Ident 0..1 n\n",
            "token Eof 1..4 n\n",
            "diagnostic UnterminatedMultiLineComment 1..4\n",
        ),
        writes: 15,
    },
    Run {
        words: "module no-tokens next jsx-attr",
        source: b"a=\"x",
        reads: 3,
        text: concat!(
            "row 0 first 0 1 Ident 0..1 n =a\n",
            "row 1 next 1 1 Eq 1..2 -\n",
            "row 2 jsx-attr 2 1 Eof 2..4 -\n",
            "token Ident 0..1 n\n",
            "token Eq 1..2 -\n",
            "token Eof 2..4 -\n",
            "diagnostic UnterminatedString 2..4\n",
        ),
        writes: 19,
    },
    Run {
        words: "module no-tokens template",
        source: b"}",
        reads: 2,
        text: concat!(
            "row 0 first 0 1 RCurly 0..1 n\n",
            "row 1 template 1 1 Undetermined 0..1 -\n",
            "token Undetermined 0..1 -\n",
            "diagnostic UnterminatedString 0..1\n",
        ),
        writes: 14,
    },
    Run {
        words: "module no-tokens jsx-child",
        source: b"<a",
        reads: 2,
        text: concat!(
            "row 0 first 0 1 LAngle 0..1 n\n",
            "row 1 jsx-child 1 1 Eof 1..2 -\n",
            "token LAngle 0..1 n\n",
            "token Eof 1..2 -\n",
        ),
        writes: 11,
    },
    // The inner mark is closed by the first `rewind`, the outer one by the second.
    Run {
        words: "module tokens mark regex mark next rewind rewind next next",
        source: b"/a/ b",
        reads: 4,
        text: concat!(
            "row 0 first 0 1 Slash 0..1 n\n",
            "row 1 regex 1 1 RegExp 0..3 - /2 - 0\n",
            "row 2 next 3 1 Ident 4..5 - =b\n",
            "row 3 next 1 1 Ident 1..2 - =a\n",
            "row 4 next 2 1 Slash 2..3 -\n",
            "token Slash 0..1 n\n",
            "token Ident 1..2 -\n",
            "token Slash 2..3 -\n",
            "collected Slash 0..1 n\n",
            "collected Ident 1..2 -\n",
            "collected Slash 2..3 -\n",
        ),
        writes: 30,
    },
];

/// What a run comes to: its status, how many bytes were written, if these are a beginning of the text, how many were
/// flushed, and how many calls of the input and of the output failed.
type Ends = (u8, Option<usize>, usize, (u64, u64));

/// The number of a call that is never made.
const NEVER: usize = usize::MAX;

/// How many bytes were written. None: they do not begin the text of the run.
fn count_written(run: &Run, written: &[u8]) -> Option<usize> {
    if run.text.as_bytes().starts_with(written) {
        Some(written.len())
    } else {
        None
    }
}

/// What a run comes to of which this read fails, and this write or flush.
fn run_failing(alloc: Global, run: &Run, read: usize, write: usize) -> Result<Ends, AllocError> {
    let words = strings_of(alloc, run.words)?;
    let (reads, writes) = ([read as u64], [write as u64]);
    let mut input = MemoryIn::new(run.source, READ, &reads);
    let mut output = MemoryOut::new(alloc, WRITTEN, &writes);
    let status = lex_tool_run(alloc, &words, &mut input, &mut output).status;
    let count = count_written(run, output.written());
    let faults = (input.faults(), output.faults());
    Ok((status, count, output.flushed(), faults))
}

/// What it is to come to. A call that is never made cannot fail: no read is made behind the one that finds the end, and
/// nothing is called behind the flush, nor behind a call that fails.
fn wanted(run: &Run, read: usize, write: usize) -> Ends {
    let all = run.text.len();
    if read < run.reads {
        (READ_FAILED, Some(0), 0, (1, 0))
    } else if write < run.writes {
        let written = WRITTEN.saturating_mul(write);
        (WRITE_FAILED, Some(all.min(written)), 0, (0, 1))
    } else {
        (DONE, Some(all), all, (0, 0))
    }
}

#[test]
fn calls_that_fail(rt: HostRuntime) -> Result<(), Fail> {
    for run in &RUNS {
        for call in 0..50usize {
            let ends = run_failing(rt.alloc(), run, call, NEVER)?;
            assert_eq!(rt;
                ends,
                wanted(run, call, NEVER),
                "{} at read {call}",
                run.words
            );
            let ends = run_failing(rt.alloc(), run, NEVER, call)?;
            assert_eq!(rt;
                ends,
                wanted(run, NEVER, call),
                "{} at write {call}",
                run.words
            );
        }
    }
    Ok(())
}
