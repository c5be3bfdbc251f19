//! The text of a report.

ghost use Rattle.std.specs.Prelude.{◌≡◌, ◌+◌, ◌≤◌, ◌++◌, [], ◌∷◌, true, codes, length, IfOk, OnOk, string_bytes};
ghost use Rattle.std.specs.Prelude.{if◌then◌else◌, IsCharBoundary, slice_range};
ghost use Rattle.std.specs.List.{AllByRecursion, flat_map};
ghost use Rattle.js_text.specs.Comment.{comment_kind_name, comment_position_name, comment_content_name};
ghost use Rattle.js_session.specs.Report.{IsSliceOnPlaces};
ghost use Rattle.js_lex_tool.specs.ReportText.{flags_text, token_text, step_name, bit_text, row_head, value_text};
ghost use Rattle.js_lex_tool.specs.ReportText.{row_line, row_lines, token_line, span_or_dash, named_character};
ghost use Rattle.js_lex_tool.specs.ReportText.{diagnostic_text, diagnostic_line, found_lines, report_text_of};
ghost use Rattle.js_lex_tool.specs.ReportText.{flag_letter, regex_flags_text, regex_text};
ghost use Rattle.js_lex_tool.specs.Units.{text_in_units};
ghost use Rattle.js_lex_tool.specs.ReportText.{comment_head, comment_rest, comment_line, span_line};

use crate::command::command_word;
use crate::line::Line;
use crate::units::{is_plain, push_number, push_text_in_units, push_units};
use bitflags::Flags;
use js_kind::Token;
use js_session::{Command, Report, Row, RowValue};
use js_text::{
    Comment, CommentContent, CommentKind, CommentPosition, Diagnostic, RegExpFlags, RegexInfo, Span,
};
use std::alloc::{AllocError, Global};
use std::fmt::Write;

/// A value that is no longer is written with its row.
const SHORT: usize = 60;

/// A value that is no longer is copied as the end of a block of so many bytes.
const BLOCK: usize = 16;

/// Puts a blank, and the flags that hold or a dash.
#[inline(always)]
fn put_flags(line: &mut Line, token: &Token)
    requires { 4 ≤ line.old.room }
    ensures text { line.new.text ≡ codes " "
        ++ flags_text token.now.is_on_new_line token.now.escaped token.now.has_separator ++ line.old.text }
    ensures room { line.old.room ≤ line.new.room + 4 }
{
    match (
        token.is_on_new_line(),
        token.escaped(),
        token.has_separator(),
    ) {
        (false, false, false) => line.put_text(" -"),
        (true, false, false) => line.put_text(" n"),
        (false, true, false) => line.put_text(" e"),
        (false, false, true) => line.put_text(" s"),
        (true, true, false) => line.put_text(" ne"),
        (true, false, true) => line.put_text(" ns"),
        (false, true, true) => line.put_text(" es"),
        (true, true, true) => line.put_text(" nes"),
    }
}

fn step_name(command: Option<Command>) -> &'static str
    ensures name { result.now ≡ step_name command }
    ensures short { length result.now ≤ 9 }
{
    match command {
        None => "first",
        Some(command) => command_word(command),
    }
}

/// Puts the name of a step, between blanks. That of `next` is the most common one.
#[inline(always)]
fn put_step(line: &mut Line, command: Option<Command>)
    requires { 11 ≤ line.old.room }
    ensures text { line.new.text ≡ codes " " ++ step_name command ++ codes " " ++ line.old.text }
    ensures room { line.old.room ≤ line.new.room + 11 }
{
    match command {
        Some(Command::Next) => line.put_text(" next "),
        _ => {
            line.put_text(" ");
            line.put_text(step_name(command));
            line.put_text(" ");
        }
    }
}

fn bit(holds: bool) -> &'static str
    ensures { result.now ≡ bit_text holds }
{
    if holds { "1" } else { "0" }
}

/// Puts a blank, and 1 where it holds, else 0.
#[inline(always)]
fn put_bit(line: &mut Line, holds: bool)
    requires { 2 ≤ line.old.room }
    ensures text { line.new.text ≡ codes " " ++ bit_text holds ++ line.old.text }
    ensures room { line.old.room ≡ line.new.room + 2 }
{
    if holds {
        line.put_text(" 1")
    } else {
        line.put_text(" 0")
    }
}

#[inline(always)]
#[tactic(auto, unfolding(crate::specs::ReportText::token_text))]
fn put_token(line: &mut Line, token: &Token)
    requires { 78 ≤ line.old.room }
    ensures text { line.new.text ≡ token_text token.now ++ line.old.text }
    ensures room { line.old.room ≤ line.new.room + 70 }
{
    put_flags(line, token);
    line.put_place(token.end());
    line.put_text("..");
    line.put_place(token.start());
    line.put_kind(token);
}

#[inline(always)]
#[tactic(auto, unfolding(crate::specs::ReportText::row_head))]
fn put_head(line: &mut Line, index: usize, row: &Row)
    requires { 58 ≤ line.old.room }
    ensures { line.new.text ≡ row_head index row.now ++ line.old.text }
{
    line.put_text(" ");
    put_bit(line, row.taken);
    line.put_place(row.place);
    put_step(line, row.command);
    line.put_index(index);
    line.put_text("row ");
}

/// Puts a part of the source. A short one is the end of a block of bytes.
#[inline(always)]
fn put_part(line: &mut Line, source: &str, start: usize, end: usize)
    requires start { IsCharBoundary source.now start }
    requires end { IsCharBoundary source.now end }
    requires ordered { start ≤ end }
    requires fits { 16 ≤ line.old.room }
    requires room { end ≤ start + line.old.room }
    ensures text { line.new.text ≡ slice_range source.now start end ++ line.old.text }
    ensures room { line.new.room + end ≡ line.old.room + start }
{
    let part = &source[start..end];
    if end < BLOCK {
        return line.put_text(part);
    }
    if end - start > BLOCK {
        return line.put_text(part);
    }
    line.put_end(&source.as_bytes()[end - BLOCK..end], end - start);
}

/// Puts a value that is short and stands for itself. It is told whether it was put.
fn put_slice(line: &mut Line, source: &str, start: usize, end: usize) -> bool
    requires start { IsCharBoundary source.now start }
    requires end { IsCharBoundary source.now end }
    requires ordered { start ≤ end }
    requires fits { 62 ≤ line.old.room }
    ensures text { result ≡ true → line.new.text
        ≡ codes " =" ++ text_in_units (slice_range source.now start end) ++ line.old.text }
    ensures room { line.old.room ≤ line.new.room + 62 }
{
    if end - start > SHORT {
        return false;
    }
    if !is_plain(&source[start..end]) {
        return false;
    }
    put_part(line, source, start, end);
    line.put_text(" =");
    true
}

/// Puts a value if it is short and stands for itself. It is told whether it was put.
fn put_value(line: &mut Line, source: &str, value: &RowValue) -> bool
    requires slice { IsSliceOnPlaces source.now value.now }
    requires fits { 62 ≤ line.old.room }
    ensures text { result ≡ true → line.new.text ≡ value_text source.now value.now ++ line.old.text }
    ensures room { line.old.room ≤ line.new.room + 62 }
{
    match value {
        RowValue::Nothing => true,
        RowValue::Slice(span) => put_slice(line, source, span.start as usize, span.end as usize),
        RowValue::Units(_) | RowValue::Bad => false,
    }
}

/// Begins a line with what stands behind the token of a row, if that is short. It is told whether it is.
fn put_tail(line: &mut Line, source: &str, row: &Row) -> bool
    requires { IsSliceOnPlaces source.now row.now.value }
    ensures text { result ≡ true
        → line.new.text ≡ value_text source.now row.now.value ++ (regex_text row.now.regex ++ 10 ∷ []) }
    ensures room { result ≡ true → 128 ≤ line.new.room }
{
    line.clear();
    line.put_text("\n");
    match row.regex {
        None => put_value(line, source, &row.value),
        Some(_) => false,
    }
}

fn push_value(text: &mut String, source: &str, value: &RowValue) -> Result<(), AllocError>
    requires { IsSliceOnPlaces source.now value.now }
    ensures { OnOk result (string_bytes text.new ≡ string_bytes text.old ++ value_text source.now value.now) }
{
    match value {
        RowValue::Nothing => Ok(()),
        RowValue::Slice(span) => {
            text.push_str(" =")?;
            push_text_in_units(text, &source[span.start as usize..span.end as usize])
        }
        RowValue::Units(units) => {
            text.push_str(" =")?;
            push_units(text, units.units())
        }
        RowValue::Bad => text.push_str(" !"),
    }
}

fn push_if(text: &mut String, holds: bool, letter: &str) -> Result<(), AllocError>
    ensures { OnOk result (string_bytes text.new ≡ string_bytes text.old ++ (if holds then letter.now else [])) }
{
    if holds { text.push_str(letter) } else { Ok(()) }
}

/// The letters of the flags up to `m`.
fn push_first_flags(text: &mut String, flags: RegExpFlags) -> Result<(), AllocError>
    ensures { OnOk result (string_bytes text.new
        ≡ string_bytes text.old ++ flat_map (flag_letter flags) (codes "dgim")) }
{
    push_if(text, flags.contains(RegExpFlags::D), "d")?;
    push_if(text, flags.contains(RegExpFlags::G), "g")?;
    push_if(text, flags.contains(RegExpFlags::I), "i")?;
    push_if(text, flags.contains(RegExpFlags::M), "m")
}

/// The letters of the flags behind `m`.
fn push_last_flags(text: &mut String, flags: RegExpFlags) -> Result<(), AllocError>
    ensures { OnOk result (string_bytes text.new
        ≡ string_bytes text.old ++ flat_map (flag_letter flags) (codes "suvy")) }
{
    push_if(text, flags.contains(RegExpFlags::S), "s")?;
    push_if(text, flags.contains(RegExpFlags::U), "u")?;
    push_if(text, flags.contains(RegExpFlags::V), "v")?;
    push_if(text, flags.contains(RegExpFlags::Y), "y")
}

/// The letters of the flags, or a dash.
fn push_flags(text: &mut String, flags: RegExpFlags) -> Result<(), AllocError>
    ensures { OnOk result (string_bytes text.new ≡ string_bytes text.old ++ regex_flags_text flags) }
{
    if flags.bits() == 0 {
        return text.push_str("-");
    }
    push_first_flags(text, flags)?;
    push_last_flags(text, flags)
}

fn push_regex(text: &mut String, regex: Option<RegexInfo>) -> Result<(), AllocError>
    ensures { OnOk result (string_bytes text.new ≡ string_bytes text.old ++ regex_text regex) }
{
    match regex {
        None => Ok(()),
        Some(info) => {
            let end = info.pattern_end;
            write!(text, " /{end} ")?;
            push_flags(text, info.flags)?;
            text.push_str(" ")?;
            text.push_str(bit(info.flags_error))
        }
    }
}

/// A row whose line is begun with what stands behind the token.
#[inline(always)]
fn push_begun_row(
    text: &mut String,
    line: &mut Line,
    index: usize,
    row: &Row,
) -> Result<(), AllocError>
    requires { 128 ≤ line.old.room }
    ensures { OnOk result (string_bytes text.new
        ≡ string_bytes text.old ++ (row_head index row.now ++ (token_text row.now.token ++ line.old.text))) }
{
    put_token(line, &row.token);
    put_head(line, index, row);
    line.push_to(text)
}

/// A row with any value.
fn push_any_row(
    text: &mut String,
    line: &mut Line,
    source: &str,
    index: usize,
    row: &Row,
) -> Result<(), AllocError>
    requires { IsSliceOnPlaces source.now row.now.value }
    ensures { OnOk result (string_bytes text.new ≡ string_bytes text.old ++ row_line source.now index row.now) }
{
    line.clear();
    push_begun_row(text, line, index, row)?;
    push_value(text, source, &row.value)?;
    push_regex(text, row.regex)?;
    text.push_str("\n")
}

/// The line of a row.
pub(crate) fn push_row(
    text: &mut String,
    line: &mut Line,
    source: &str,
    index: usize,
    row: &Row,
) -> Result<(), AllocError>
    requires { IsSliceOnPlaces source.now row.now.value }
    ensures { OnOk result (string_bytes text.new ≡ string_bytes text.old ++ row_line source.now index row.now) }
{
    if put_tail(line, source, row) {
        push_begun_row(text, line, index, row)
    } else {
        push_any_row(text, line, source, index, row)
    }
}

fn push_rows(text: &mut String, source: &str, rows: &[Row]) -> Result<(), AllocError>
    requires { AllByRecursion (λ row. IsSliceOnPlaces source.now row.value) rows.now }
    ensures { OnOk result (string_bytes text.new ≡ string_bytes text.old ++ row_lines source.now 0 rows.now) }
{
    let mut line = Line::new();
    for (index, row) in rows.iter().enumerate() {
        push_row(text, &mut line, source, index, row)?;
    }
    Ok(())
}

#[inline(always)]
fn put_token_line(line: &mut Line, label: &str, token: &Token)
    requires { length label.now ≤ 100 }
    ensures { line.new.text ≡ token_line label.now token.now }
{
    line.clear();
    line.put_text("\n");
    put_token(line, token);
    line.put_text(" ");
    line.put_text(label);
}

/// The line of a token.
#[inline(always)]
pub(crate) fn push_token(
    text: &mut String,
    line: &mut Line,
    label: &str,
    token: &Token,
) -> Result<(), AllocError>
    requires { length label.now ≤ 100 }
    ensures { OnOk result (string_bytes text.new ≡ string_bytes text.old ++ token_line label.now token.now) }
{
    put_token_line(line, label, token);
    line.push_to(text)
}

#[inline(always)]
fn push_tokens(text: &mut String, label: &str, tokens: &[Token]) -> Result<(), AllocError>
    requires { length label.now ≤ 100 }
    ensures { OnOk result (string_bytes text.new
        ≡ string_bytes text.old ++ flat_map (token_line label.now) tokens.now) }
{
    let mut line = Line::new();
    for token in tokens {
        push_token(text, &mut line, label, token)?;
    }
    Ok(())
}

fn push_span(text: &mut String, span: Option<Span>) -> Result<(), AllocError>
    ensures { OnOk result (string_bytes text.new ≡ string_bytes text.old ++ span_or_dash span) }
{
    match span {
        None => text.push_str("-"),
        Some(span) => {
            let start = span.start;
            let end = span.end;
            write!(text, "{start}..{end}")
        }
    }
}

fn push_named(text: &mut String, character: Option<char>) -> Result<(), AllocError>
    ensures { OnOk result (string_bytes text.new ≡ string_bytes text.old ++ named_character character) }
{
    match character {
        None => Ok(()),
        Some(c) => push_number(text, c),
    }
}

#[tactic(auto, unfolding(crate::specs::ReportText::diagnostic_text))]
fn push_diagnostic(text: &mut String, diagnostic: &Diagnostic) -> Result<(), AllocError>
    ensures { OnOk result (string_bytes text.new ≡ string_bytes text.old ++ diagnostic_text diagnostic.now) }
{
    text.push_str(diagnostic.name())?;
    text.push_str(" ")?;
    push_span(text, diagnostic.span())?;
    push_named(text, diagnostic.character())
}

fn push_diagnostic_line(
    text: &mut String,
    label: &str,
    diagnostic: &Diagnostic,
) -> Result<(), AllocError>
    ensures { OnOk result (string_bytes text.new ≡ string_bytes text.old ++ diagnostic_line label.now diagnostic.now) }
{
    text.push_str(label)?;
    text.push_str(" ")?;
    push_diagnostic(text, diagnostic)?;
    text.push_str("\n")
}

fn push_diagnostics(
    text: &mut String,
    label: &str,
    diagnostics: &[Diagnostic],
) -> Result<(), AllocError>
    ensures { OnOk result (string_bytes text.new
        ≡ string_bytes text.old ++ flat_map (diagnostic_line label.now) diagnostics.now) }
{
    for diagnostic in diagnostics {
        push_diagnostic_line(text, label, diagnostic)?;
    }
    Ok(())
}

fn comment_kind(kind: CommentKind) -> &'static str
    ensures name { result.now ≡ comment_kind_name kind }
    ensures short { length result.now ≤ 15 }
{
    kind.name()
}

fn comment_position(position: CommentPosition) -> &'static str
    ensures name { result.now ≡ comment_position_name position }
    ensures short { length result.now ≤ 8 }
{
    position.name()
}

fn comment_content(content: CommentContent) -> &'static str
    ensures name { result.now ≡ comment_content_name content }
    ensures short { length result.now ≤ 23 }
{
    content.name()
}

#[tactic(auto, unfolding(crate::specs::ReportText::comment_rest))]
fn put_comment_rest(line: &mut Line, comment: &Comment)
    requires { 49 ≤ line.old.room }
    ensures text { line.new.text ≡ comment_rest comment.now ++ line.old.text }
    ensures room { line.old.room ≤ line.new.room + 49 }
{
    line.put_text(comment_content(comment.content));
    line.put_text(" ");
    put_bit(line, comment.followed);
    put_bit(line, comment.preceded);
    line.put_place(comment.attached_to);
    line.put_text(" ");
}

#[tactic(auto, unfolding(crate::specs::ReportText::comment_head))]
fn put_comment_head(line: &mut Line, comment: &Comment)
    requires { 75 ≤ line.old.room }
    ensures { line.new.text ≡ comment_head comment.now ++ line.old.text }
{
    line.put_text(comment_position(comment.position));
    line.put_text(" ");
    line.put_text(comment_kind(comment.kind));
    line.put_text(" ");
    line.put_place(comment.span.end);
    line.put_text("..");
    line.put_place(comment.span.start);
    line.put_text("comment ");
}

fn put_comment(line: &mut Line, comment: &Comment)
    ensures { line.new.text ≡ comment_line comment.now }
{
    line.clear();
    line.put_text("\n");
    put_comment_rest(line, comment);
    put_comment_head(line, comment);
}

fn push_comments(text: &mut String, comments: &[Comment]) -> Result<(), AllocError>
    ensures { OnOk result (string_bytes text.new ≡ string_bytes text.old ++ flat_map comment_line comments.now) }
{
    let mut line = Line::new();
    for comment in comments {
        put_comment(&mut line, comment);
        line.push_to(text)?;
    }
    Ok(())
}

fn push_span_line(text: &mut String, label: &str, span: &Span) -> Result<(), AllocError>
    ensures { OnOk result (string_bytes text.new ≡ string_bytes text.old ++ span_line label.now span.now) }
{
    text.push_str(label)?;
    text.push_str(" ")?;
    push_span(text, Some(*span))?;
    text.push_str("\n")
}

fn push_spans(text: &mut String, label: &str, spans: &[Span]) -> Result<(), AllocError>
    ensures { OnOk result (string_bytes text.new ≡ string_bytes text.old ++ flat_map (span_line label.now) spans.now) }
{
    for span in spans {
        push_span_line(text, label, span)?;
    }
    Ok(())
}

/// The lines of what was found, behind those of the tokens.
pub(crate) fn push_found(text: &mut String, report: &Report) -> Result<(), AllocError>
    ensures { OnOk result (string_bytes text.new ≡ string_bytes text.old ++ found_lines report.now) }
{
    push_diagnostics(text, "diagnostic", report.diagnostics.as_slice())?;
    push_diagnostics(text, "deferred", report.deferred.as_slice())?;
    push_comments(text, report.comments.as_slice())?;
    push_spans(text, "irregular", report.irregular.as_slice())?;
    push_spans(text, "warning", report.warnings.as_slice())
}

/// The text of a report: a line for each row, with what the row found, then one for each live token, each collected
/// one, each live diagnostic, each deferred one, each live comment, each live stretch of irregular white space, and
/// each live warning.
pub fn report_text(alloc: Global, source: &str, report: &Report) -> Result<String, AllocError>
    requires { AllByRecursion (λ row. IsSliceOnPlaces source.now row.value) report.now.rows }
    ensures { IfOk result (λ text. string_bytes text ≡ report_text_of source.now report.now) }
{
    let mut text = String::new(alloc);
    push_rows(&mut text, source, report.rows.as_slice())?;
    push_tokens(&mut text, "token", report.tokens.as_slice())?;
    push_tokens(&mut text, "collected", report.collected.as_slice())?;
    push_found(&mut text, report)?;
    Ok(text)
}
