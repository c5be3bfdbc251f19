//! Reports that are written as they are made.

ghost use Rattle.std.specs.Prelude.{◌≡◌, ◌≤◌, ◌++◌, [], length, string_bytes};
ghost use Rattle.std.specs.List.{AllByRecursion, flat_map};
ghost use Rattle.js_session.specs.Report.{IsSliceOnPlaces};
ghost use Rattle.js_process.specs.Status.{number};
ghost use Rattle.js_process.specs.Writing.{status_of_fault};
ghost use Rattle.js_lex_tool.specs.Held.{HandsOn, EndsWriting};
ghost use Rattle.js_lex_tool.specs.ReportText.{found_lines, report_text_of, row_line, row_lines, token_line, token_lines};

use crate::line::Line;
use crate::report::{push_found, push_row, push_token};
use js_kind::Token;
use js_process::ByteOut;
use js_process::status::{MEMORY, WRITE_FAILED};
use js_process::write_all::{WriteFault, write_piece, write_status};
use js_session::{Report, Row};
use std::alloc::Global;

/// So many bytes of a text are held back, and some more, before they are written.
const PIECE: usize = 65_536;

/// The status that a fault of writing leads to.
fn status_of_fault(fault: WriteFault) -> u8
    ensures { result ≡ number (status_of_fault fault) }
{
    match fault {
        WriteFault::Failed => WRITE_FAILED,
        WriteFault::Memory => MEMORY,
    }
}

/// Writes what is held back, where that is a piece.
fn hand_on<O: ByteOut>(held: &mut String, output: &mut O) -> Result<(), WriteFault>
    ensures { HandsOn [] (string_bytes held.old) (string_bytes held.new)
        (O.state output.old) (O.state output.new) result }
{
    if held.len() < PIECE {
        return Ok(());
    }
    match write_piece(output, held.as_str()) {
        Ok(()) => {
            held.clear();
            Ok(())
        }
        Err(fault) => Err(fault),
    }
}

/// Makes the line of a row, and writes what is held back, where that is a piece.
fn write_row<O: ByteOut>(
    held: &mut String,
    line: &mut Line,
    source: &str,
    index: usize,
    row: &Row,
    output: &mut O,
) -> Result<(), WriteFault>
    requires { IsSliceOnPlaces source.now row.now.value }
    ensures { HandsOn (row_line source.now index row.now) (string_bytes held.old) (string_bytes held.new)
        (O.state output.old) (O.state output.new) result }
{
    match push_row(held, line, source, index, row) {
        Ok(()) => hand_on(held, output),
        Err(_) => Err(WriteFault::Memory),
    }
}

/// Makes the lines of rows, and writes them piece by piece. The end of them is held back.
fn write_rows<O: ByteOut>(
    held: &mut String,
    source: &str,
    rows: &[Row],
    output: &mut O,
) -> Result<(), WriteFault>
    requires { AllByRecursion (λ row. IsSliceOnPlaces source.now row.value) rows.now }
    ensures { HandsOn (row_lines source.now 0 rows.now) (string_bytes held.old) (string_bytes held.new)
        (O.state output.old) (O.state output.new) result }
{
    let mut line = Line::new();
    for (index, row) in rows.iter().enumerate() {
        write_row(held, &mut line, source, index, row, output)?;
    }
    Ok(())
}

/// Makes the line of a token, and writes what is held back, where that is a piece.
#[inline(always)]
fn write_token<O: ByteOut>(
    held: &mut String,
    line: &mut Line,
    label: &str,
    token: &Token,
    output: &mut O,
) -> Result<(), WriteFault>
    requires { length label.now ≤ 100 }
    ensures { HandsOn (token_line label.now token.now) (string_bytes held.old) (string_bytes held.new)
        (O.state output.old) (O.state output.new) result }
{
    match push_token(held, line, label, token) {
        Ok(()) => hand_on(held, output),
        Err(_) => Err(WriteFault::Memory),
    }
}

/// Makes the lines of tokens, and writes them piece by piece. The end of them is held back.
#[inline(always)]
fn write_tokens<O: ByteOut>(
    held: &mut String,
    label: &str,
    tokens: &[Token],
    output: &mut O,
) -> Result<(), WriteFault>
    requires { length label.now ≤ 100 }
    ensures { HandsOn (flat_map (token_line label.now) tokens.now) (string_bytes held.old) (string_bytes held.new)
        (O.state output.old) (O.state output.new) result }
{
    let mut line = Line::new();
    for token in tokens {
        write_token(held, &mut line, label, token, output)?;
    }
    Ok(())
}

/// Makes the lines of the live tokens and of those that were collected, and writes them piece by piece.
fn write_all_tokens<O: ByteOut>(
    held: &mut String,
    report: &Report,
    output: &mut O,
) -> Result<(), WriteFault>
    ensures { HandsOn (token_lines report.now) (string_bytes held.old) (string_bytes held.new)
        (O.state output.old) (O.state output.new) result }
{
    match write_tokens(held, "token", report.tokens.as_slice(), output) {
        Ok(()) => write_tokens(held, "collected", report.collected.as_slice(), output),
        Err(fault) => Err(fault),
    }
}

/// Makes the lines of rows and tokens, and writes them piece by piece.
fn write_lines<O: ByteOut>(
    held: &mut String,
    source: &str,
    report: &Report,
    output: &mut O,
) -> Result<(), WriteFault>
    requires { AllByRecursion (λ row. IsSliceOnPlaces source.now row.value) report.now.rows }
    ensures { HandsOn (row_lines source.now 0 report.now.rows ++ token_lines report.now)
        (string_bytes held.old) (string_bytes held.new) (O.state output.old) (O.state output.new) result }
{
    match write_rows(held, source, report.rows.as_slice(), output) {
        Ok(()) => write_all_tokens(held, report, output),
        Err(fault) => Err(fault),
    }
}

/// Writes what is held back, and then what was found, and gives the status that this leads to.
fn write_rest<O: ByteOut>(held: &mut String, report: &Report, output: &mut O) -> u8
    ensures { EndsWriting (string_bytes held.old ++ found_lines report.now)
        (O.state output.old) (O.state output.new) result }
{
    match push_found(held, report) {
        Ok(()) => write_status(held.as_str(), output),
        Err(_) => MEMORY,
    }
}

/// Writes the text of a report piece by piece, as it is made, and gives the status that this leads to.
pub(crate) fn write_report_text<O: ByteOut>(
    alloc: Global,
    source: &str,
    report: &Report,
    output: &mut O,
) -> u8
    requires { AllByRecursion (λ row. IsSliceOnPlaces source.now row.value) report.now.rows }
    ensures { EndsWriting (report_text_of source.now report.now) (O.state output.old) (O.state output.new) result }
{
    let mut held = String::new(alloc);
    match write_lines(&mut held, source, report, output) {
        Ok(()) => write_rest(&mut held, report, output),
        Err(fault) => status_of_fault(fault),
    }
}
