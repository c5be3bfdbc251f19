//! Sources of numbered lines, and the summary of a report.

ghost use Rattle.std.specs.Prelude.{◌≡◌, ◌<◌, ◌≤◌, ◌++◌, length, IfOk, OnOk, string_bytes};
ghost use Rattle.std.specs.Fmt.{decimal};
ghost use Rattle.js_lex_tool.specs.Generated.{most_lines, generated_line, generated, gen_summary};

use js_session::Report;
use std::alloc::{AllocError, Global};
use std::fmt::Write;

/// The most lines that a source is made of.
pub const MOST_LINES: usize = 20_000;

const _: () = prove!(MOST_LINES == 20_000);

#[tactic(auto, unfolding(crate::specs::Generated::generated_line))]
fn push_line(text: &mut String, number: u32) -> Result<(), AllocError>
    ensures { OnOk result (string_bytes text.new ≡ string_bytes text.old ++ generated_line number) }
{
    write!(text, "let a{number} = {number} * 2; // {number}\n")
}

/// A source of so many lines, which are numbered from 1 on.
pub fn generated(alloc: Global, lines: u32) -> Result<String, AllocError>
    requires some { 1 ≤ lines }
    requires few { lines ≤ most_lines }
    ensures text { IfOk result (λ text. string_bytes text ≡ generated lines) }
    ensures short { IfOk result (λ text. length (string_bytes text) < 700000) }
{
    let mut text = String::new(alloc);
    for number in 1..lines + 1 {
        push_line(&mut text, number)?;
    }
    Ok(text)
}

/// Appends a label, and a number behind it.
fn push_count(text: &mut String, label: &str, count: usize) -> Result<(), AllocError>
    ensures { OnOk result (string_bytes text.new ≡ string_bytes text.old ++ label.now ++ decimal count) }
{
    write!(text, "{label}{count}")
}

/// The line that says what a source of so many lines and bytes came to.
pub fn gen_summary(
    alloc: Global,
    lines: u32,
    bytes: u32,
    report: &Report,
) -> Result<String, AllocError>
    ensures { IfOk result (λ text. string_bytes text ≡ gen_summary lines bytes report.now) }
{
    let mut text = String::new(alloc);
    push_count(&mut text, "gen ", lines as usize)?;
    push_count(&mut text, " bytes ", bytes as usize)?;
    push_count(&mut text, " rows ", report.rows.len())?;
    push_count(&mut text, " tokens ", report.tokens.len())?;
    push_count(&mut text, " comments ", report.comments.len())?;
    push_count(&mut text, " diagnostics ", report.diagnostics.len())?;
    text.push_str("\n")?;
    Ok(text)
}
