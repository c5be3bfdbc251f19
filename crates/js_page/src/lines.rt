//! Lines of a source, each with its anchor.

ghost use Rattle.std.specs.Prelude.{◌≡◌, ◌+◌, ◌++◌, ◌<◌, ◌^◌, IfOk, OnOk, length, string_bytes, chars};
ghost use Rattle.js_page.specs.Pieces.{anchor, bytes_of};
ghost use Rattle.js_page.specs.Lines.{begun, ended, line_behind, next_lines, lines_behind, pieces_in};
ghost use Rattle.js_page.specs.Lines.{pieces_at, pieces_before};

use crate::character::push_character;
use crate::plain::push_plain;
use js_source::Source;
use std::alloc::AllocError;
use std::fmt::Write;

/// How many lines have begun, and whether the last character was a CR. Then the next one tells whether a line has
/// ended: a LF ends the same line.
#[derive(Clone, Copy)]
pub(crate) struct Lines {
    pub number: u32,
    pub behind_return: bool,
}

/// The number of the next line. For 2^32 or more there is no memory.
fn next_number(number: u32) -> Result<u32, AllocError>
    ensures { IfOk result (λ next. next ≡ number + 1) }
{
    match number.checked_add(1) {
        Some(next) => Ok(next),
        None => Err(AllocError),
    }
}

/// Appends the anchor of a line.
pub(crate) fn push_anchor(text: &mut String, number: u32) -> Result<(), AllocError>
    ensures { OnOk result (string_bytes text.new ≡ string_bytes text.old ++ anchor number) }
{
    write!(text, "<a id=L{number}></a>")
}

/// Appends the anchor of the next line, and gives its number.
fn begin_line(text: &mut String, number: u32) -> Result<u32, AllocError>
    ensures number { IfOk result (λ next. next ≡ number + 1) }
    ensures text { OnOk result (string_bytes text.new ≡ string_bytes text.old ++ anchor (number + 1)) }
{
    let next = next_number(number)?;
    push_anchor(text, next)?;
    Ok(next)
}

/// Appends what stands before a character: an anchor where a CR has ended a line. It gives the number of the line.
#[inline(always)]
fn push_before(text: &mut String, lines: Lines, c: char) -> Result<u32, AllocError>
    ensures number { IfOk result (λ number. number ≡ begun lines c) }
    ensures text { OnOk result (string_bytes text.new ≡ string_bytes text.old ++ bytes_of (pieces_before lines c)) }
{
    match c {
        '\n' => Ok(lines.number),
        _ if lines.behind_return => begin_line(text, lines.number),
        _ => Ok(lines.number),
    }
}

/// Appends what stands behind a character on the line with a number: an anchor where it ends the line. It gives the
/// number of the line then.
#[inline(always)]
fn push_behind(text: &mut String, number: u32, c: char) -> Result<u32, AllocError>
    ensures number { IfOk result (λ next. next ≡ ended number c) }
    ensures text { OnOk result (string_bytes text.new ≡ string_bytes text.old ++ bytes_of (line_behind number c)) }
{
    match c {
        '\n' | '\u{2028}' | '\u{2029}' => begin_line(text, number),
        _ => Ok(number),
    }
}

/// Appends a character with the anchors of lines that begin there.
#[inline(always)]
fn push_in_line(text: &mut String, lines: Lines, c: char) -> Result<Lines, AllocError>
    ensures lines { IfOk result (λ next. next ≡ next_lines lines c) }
    ensures text { OnOk result (string_bytes text.new ≡ string_bytes text.old ++ bytes_of (pieces_at lines c)) }
{
    let number = push_before(text, lines, c)?;
    push_character(text, c)?;
    let number = push_behind(text, number, c)?;
    Ok(Lines {
        number,
        behind_return: c == '\r',
    })
}

/// Appends characters with the anchors of lines that begin there, one by one.
fn push_each(text: &mut String, lines: Lines, stretch: &str) -> Result<Lines, AllocError>
    ensures lines { IfOk result (λ next. next ≡ lines_behind lines (chars stretch.now)) }
    ensures text { OnOk result (string_bytes text.new
        ≡ string_bytes text.old ++ bytes_of (pieces_in lines (chars stretch.now))) }
{
    let mut lines = lines;
    for c in stretch.chars() {
        lines = push_in_line(text, lines, c)?;
    }
    Ok(lines)
}

/// Appends characters with the anchors of lines that begin there, and those that are plain all at once.
fn push_runs(text: &mut String, lines: Lines, stretch: &str) -> Result<Lines, AllocError>
    requires { length stretch.now < 2 ^ 32 }
    ensures lines { IfOk result (λ next. next ≡ lines_behind lines (chars stretch.now)) }
    ensures text { OnOk result (string_bytes text.new
        ≡ string_bytes text.old ++ bytes_of (pieces_in lines (chars stretch.now))) }
{
    let mut reached = lines;
    let mut source = Source::new(stretch);
    push_plain(text, reached, &mut source)?;
    while let Some(c) = source.next_char() {
        reached = push_in_line(text, reached, c)?;
        push_plain(text, reached, &mut source)?;
    }
    Ok(reached)
}

/// Appends characters with the anchors of lines that begin there.
pub(crate) fn push_in_lines(
    text: &mut String,
    lines: Lines,
    stretch: &str,
) -> Result<Lines, AllocError>
    ensures lines { IfOk result (λ next. next ≡ lines_behind lines (chars stretch.now)) }
    ensures text { OnOk result (string_bytes text.new
        ≡ string_bytes text.old ++ bytes_of (pieces_in lines (chars stretch.now))) }
{
    if stretch.len() > u32::MAX as usize {
        push_each(text, lines, stretch)
    } else {
        push_runs(text, lines, stretch)
    }
}
