//! A run of the program: from words and bytes to a status and a text.

ghost use Rattle.std.specs.Prelude.{◌≡◌, ◌<◌, ◌^◌, ◌++◌, length, string_bytes, IfOk, OnOk};
ghost use Rattle.js_bench.specs.Run.{HasLines, RunsBench, pass_line};
ghost use Rattle.js_bench.specs.Words.{bench_line_of};

use crate::pass::{PassCounts, count_pass};
use crate::words::{BenchLine, read_bench_words};
use js_process::{ByteIn, ByteOut, TextMaker, text_run};
use std::alloc::{AllocError, Global};
use std::fmt::Write;

/// Adds the line of a pass.
#[tactic(auto, unfolding(crate::specs::Run::pass_line))]
fn push_pass(text: &mut String, counts: &PassCounts) -> Result<(), AllocError>
    ensures { OnOk result (string_bytes text.new ≡ string_bytes text.old ++ pass_line counts.now) }
{
    let tokens = counts.tokens;
    let comments = counts.comments;
    let diagnostics = counts.diagnostics;
    writeln!(
        text,
        "tokens {tokens} comments {comments} diagnostics {diagnostics}"
    )
}

/// The text of a run over the source: a line for each pass.
fn bench_text(alloc: Global, source: &str, line: &BenchLine) -> Result<String, AllocError>
    requires { length source.now < 2 ^ 32 }
    ensures { IfOk result (λ text. HasLines line.now source.now (string_bytes text)) }
{
    let mut text = String::new(alloc);
    'passes: for _ in 0..line.passes {
        let counts = count_pass(alloc, source, line.source_type, line.kept, line.rule)?;
        push_pass(&mut text, &counts)?;
    }
    Ok(text)
}

impl TextMaker for BenchLine {
    ghost may_make = { HasLines };

    fn text(&self, alloc: Global, source: &str) -> Result<String, AllocError> {
        bench_text(alloc, source, self)
    }
}

/// Runs the program: reads what the words mean, then the input to its end, and writes a line for each pass over it. It
/// gives the exit status.
pub fn bench_run<I: ByteIn, O: ByteOut>(
    alloc: Global,
    words: &Vec<String>,
    input: &mut I,
    output: &mut O,
) -> u8
    ensures { RunsBench (bench_line_of words.now.items)
        (I.state input.old) (I.state input.new) (O.state output.old) (O.state output.new) result }
{
    text_run(alloc, Ok(read_bench_words(words)), input, output)
}
