//! What is live behind rows most of which stay: the live lists of the old report up to the rows that are replaced, and
//! from those on that stay behind them.

ghost use Rattle.std.specs.Prelude.{◌≡◌, ◌≤◌, ◌<◌, ◌+◌, ◌-◌, ◌^◌, ◌↔◌, ◌++◌, [], length, take, drop, map, IfOk, IsTrue, OnOk};
ghost use Rattle.std.specs.List.{All, AllByRecursion};
ghost use Rattle.js_session.specs.Live.{nothing_live, report_live, report_with};
ghost use Rattle.js_session.specs.Shifted.{FitsShifted, OfComment, OfDiagnostic, OfSpan};
ghost use Rattle.js_session.specs.Shifted.{shifted_comment, shifted_diagnostic, shifted_row, shifted_span};
ghost use Rattle.js_session.specs.Shifted.{shifted_token};
ghost use Rattle.js_relex.specs.Documents.{GoesLive, MayMove, live_behind};
ghost use Rattle.js_relex.specs.LiveLists.{AreWithin, HasLasted, Lasts, StartsAnew, count_readings, first_readings};
ghost use Rattle.js_relex.specs.LiveLists.{found_length, is_reading, joined_live, live_from, live_lengths, live_up_to};
ghost use Rattle.js_relex.specs.LiveLists.{LiveMayMove, TokenMayMove, more_lengths, row_readings, shifted_live, total_found};
ghost use Rattle.js_relex.specs.Outlines.{outline_of};

use crate::gather::{add_live_rows, add_moved_live_rows, empty_report};
use crate::outline::RowOutline;
use crate::outlined::OutlinedReport;
use js_kind::{Token, TokenList};
use js_session::{Command, Effect, Report, Row, Shift};
use js_text::{Comment, CommentList, Diagnostic, DiagnosticList, Span, SpanList};
use std::alloc::{AllocError, Global};

/// How many items there are in each live list.
#[derive(Clone, Copy)]
pub(crate) struct LiveLengths {
    pub(crate) tokens: usize,
    pub(crate) diagnostics: usize,
    pub(crate) deferred: usize,
    pub(crate) comments: usize,
    pub(crate) irregular: usize,
    pub(crate) warnings: usize,
}

/// A list of what a row found.
#[derive(Clone, Copy)]
enum FoundList {
    Diagnostics,
    Deferred,
    Comments,
    Irregular,
    Warnings,
}

/// Whether a row of the command reads a token behind the last one: the first row does, which has none.
fn is_reading(command: Option<Command>) -> bool
    ensures { result ≡ is_reading command }
{
    match command {
        None => true,
        Some(command) => matches!(command.effect(), Effect::Reads(_)),
    }
}

/// How many of the commands read a token behind the last one.
fn count_readings(commands: &[Command]) -> usize
    ensures count { result ≡ count_readings commands.now }
    ensures few { result ≤ length commands.now }
{
    let mut count = 0;
    for command in commands {
        if is_reading(Some(*command)) {
            count += 1;
        }
    }
    count
}

/// How many of the rows read a token behind the last one.
fn count_row_readings(rows: &[Row]) -> usize
    ensures count { result ≡ row_readings rows.now }
    ensures few { result ≤ length rows.now }
{
    let mut count = 0;
    for row in rows {
        if is_reading(row.command) {
            count += 1;
        }
    }
    count
}

/// How many items the row has in the list.
fn found_length(list: FoundList, row: &Row) -> usize
    ensures { result ≡ found_length list row.now }
{
    match list {
        FoundList::Diagnostics => row.diagnostics.len(),
        FoundList::Deferred => row.deferred.len(),
        FoundList::Comments => row.comments.len(),
        FoundList::Irregular => row.irregular.len(),
        FoundList::Warnings => row.warnings.len(),
    }
}

/// How many items the row of the outline has in the list: a row that found nothing is not looked at.
fn outlined_length(list: FoundList, row: &Row, outline: RowOutline) -> usize
    requires { outline ≡ outline_of row.now }
    ensures { result ≡ found_length list row.now }
{
    if outline.has_found {
        found_length(list, row)
    } else {
        0
    }
}

/// How many items a list has with those of the rows, where it has so many before, and so many in all: where all stand
/// before, no outline is looked at.
fn length_behind(
    list: FoundList,
    before: usize,
    rows: &[Row],
    outlines: &[RowOutline],
    all: usize,
) -> usize
    requires outlined { outlines.now ≡ map outline_of rows.now }
    requires few { before + total_found list rows.now ≤ all }
    ensures { result ≡ before + total_found list rows.now }
{
    if before == all {
        return before;
    }
    let mut length = before;
    let mut index = 0;
    while index < rows.len() {
        length += outlined_length(list, &rows[index], outlines[index]);
        index += 1;
    }
    length
}

/// The lengths with so many readings more, and with what the rows found.
fn more_lengths(
    old: &Report,
    before: LiveLengths,
    readings: usize,
    rows: &[Row],
    outlines: &[RowOutline],
) -> LiveLengths
    requires outlined { outlines.now ≡ map outline_of rows.now }
    requires inside { AreWithin (more_lengths before readings rows.now) (live_lengths (report_live old.now)) }
    requires short { before.tokens + readings < 2 ^ 64 }
    ensures { result ≡ more_lengths before readings rows.now }
{
    use FoundList::{Comments, Deferred, Diagnostics, Irregular, Warnings};
    LiveLengths {
        tokens: before.tokens + readings,
        diagnostics: length_behind(
            Diagnostics,
            before.diagnostics,
            rows,
            outlines,
            old.diagnostics.len(),
        ),
        deferred: length_behind(
            Deferred,
            before.deferred,
            rows,
            outlines,
            old.deferred.len(),
        ),
        comments: length_behind(
            Comments,
            before.comments,
            rows,
            outlines,
            old.comments.len(),
        ),
        irregular: length_behind(
            Irregular,
            before.irregular,
            rows,
            outlines,
            old.irregular.len(),
        ),
        warnings: length_behind(
            Warnings,
            before.warnings,
            rows,
            outlines,
            old.warnings.len(),
        ),
    }
}

/// The lengths of empty lists.
fn no_lengths() -> LiveLengths
    ensures { result ≡ live_lengths nothing_live }
{
    LiveLengths {
        tokens: 0,
        diagnostics: 0,
        deferred: 0,
        comments: 0,
        irregular: 0,
        warnings: 0,
    }
}

/// How many of the first rows read a token behind the last one, where the rows behind the first one answer the
/// commands.
fn count_first_readings(commands: &[Command], rows: usize) -> usize
    requires { rows ≤ length commands.now + 1 }
    ensures { result ≡ first_readings commands.now rows }
{
    match rows.checked_sub(1) {
        None => 0,
        Some(answers) => count_readings(&commands[..answers]) + 1,
    }
}

/// The lengths of what the rows before the place made live.
pub(crate) fn lengths_at(old: &OutlinedReport, commands: &[Command], place: usize) -> LiveLengths
    requires lasted { HasLasted commands.now old.now }
    requires inside { place ≤ length old.now.rows }
    ensures { result ≡ live_lengths (live_behind nothing_live (take place old.now.rows)) }
{
    let readings = count_first_readings(commands, place);
    let report = old.report();
    let rows = &report.rows.as_slice()[..place];
    let outlines = &old.outlines()[..place];
    more_lengths(report, no_lengths(), readings, rows, outlines)
}

/// The lengths of what the rows before the second place made live, by those of what the rows before the first one did.
pub(crate) fn lengths_further(
    old: &OutlinedReport,
    before: LiveLengths,
    start: usize,
    end: usize,
) -> LiveLengths
    requires lasted { AllByRecursion Lasts old.now.rows }
    requires live { report_live old.now ≡ live_behind nothing_live old.now.rows }
    requires before { before ≡ live_lengths (live_behind nothing_live (take start old.now.rows)) }
    requires ordered { start ≤ end }
    requires inside { end ≤ length old.now.rows }
    ensures { result ≡ live_lengths (live_behind nothing_live (take end old.now.rows)) }
{
    let report = old.report();
    let rows = &report.rows.as_slice()[start..end];
    let outlines = &old.outlines()[start..end];
    more_lengths(report, before, count_row_readings(rows), rows, outlines)
}

/// Whether no row stands at the place, or one that reads a token behind the last one.
fn starts_anew(rows: &[Row], place: usize) -> bool
    ensures { IsTrue result ↔ StartsAnew (drop place rows.now) }
{
    match rows.get(place) {
        None => true,
        Some(row) => is_reading(row.command),
    }
}

/// The last place up to the end from which rows start anew.
pub(crate) fn last_start(rows: &[Row], end: usize) -> usize
    requires first { StartsAnew rows.now }
    ensures before { result ≤ end }
    ensures anew { StartsAnew (drop result rows.now) }
{
    let mut place = end;
    while place > 0 {
        if starts_anew(rows, place) {
            return place;
        }
        place -= 1;
    }
    0
}

/// The first place from the start on from which rows start anew.
pub(crate) fn next_start(rows: &[Row], start: usize) -> usize
    requires inside { start ≤ length rows.now }
    ensures behind { start ≤ result }
    ensures inside { result ≤ length rows.now }
    ensures anew { StartsAnew (drop result rows.now) }
{
    let mut place = start;
    while place < rows.len() {
        if starts_anew(rows, place) {
            return place;
        }
        place += 1;
    }
    place
}

/// Makes live what is live in the old report up to these lengths.
fn add_up_to(report: &mut Report, old: &Report, lengths: LiveLengths) -> Result<(), AllocError>
    requires { AreWithin lengths (live_lengths (report_live old.now)) }
    ensures { OnOk result (GoesLive report.old
        (joined_live (report_live report.old) (live_up_to lengths (report_live old.now))) report.new) }
{
    let tokens = &old.tokens.as_slice()[..lengths.tokens];
    let diagnostics = &old.diagnostics.as_slice()[..lengths.diagnostics];
    let deferred = &old.deferred.as_slice()[..lengths.deferred];
    let comments = &old.comments.as_slice()[..lengths.comments];
    let irregular = &old.irregular.as_slice()[..lengths.irregular];
    let warnings = &old.warnings.as_slice()[..lengths.warnings];
    report.tokens.extend_from_slice(tokens)?;
    report.diagnostics.extend_from_slice(diagnostics)?;
    report.deferred.extend_from_slice(deferred)?;
    report.comments.extend_from_slice(comments)?;
    report.irregular.extend_from_slice(irregular)?;
    report.warnings.extend_from_slice(warnings)
}

/// The token, moved.
fn moved_token(shift: &Shift, token: Token) -> Token
    requires { TokenMayMove shift.now.from shift.now.to token }
    ensures { result ≡ shifted_token shift.now.from shift.now.to token }
{
    let mut moved = token;
    shift.move_token(&mut moved);
    moved
}

/// Adds copies of the tokens, moved.
fn add_moved_tokens(list: &mut TokenList, tokens: &[Token], shift: &Shift) -> Result<(), AllocError>
    requires { AllByRecursion (TokenMayMove shift.now.from shift.now.to) tokens.now }
    ensures { OnOk result
        (list.new ≡ list.old ++ map (shifted_token shift.now.from shift.now.to) tokens.now) }
{
    for token in tokens {
        list.push(moved_token(shift, *token))?;
    }
    Ok(())
}

/// Adds copies of the diagnostics, moved.
fn add_moved_diagnostics(
    alloc: Global,
    list: &mut DiagnosticList,
    diagnostics: &[Diagnostic],
    shift: &Shift,
) -> Result<(), AllocError>
    requires { All (OfDiagnostic (FitsShifted shift.now.from shift.now.to)) diagnostics.now }
    ensures { OnOk result
        (list.new ≡ list.old ++ map (shifted_diagnostic shift.now.from shift.now.to) diagnostics.now) }
{
    let moved = shift.moved_diagnostics(alloc, diagnostics)?;
    list.extend_from_slice(moved.as_slice())
}

/// Adds copies of the comments, moved.
fn add_moved_comments(
    alloc: Global,
    list: &mut CommentList,
    comments: &[Comment],
    shift: &Shift,
) -> Result<(), AllocError>
    requires { All (OfComment (FitsShifted shift.now.from shift.now.to)) comments.now }
    ensures { OnOk result
        (list.new ≡ list.old ++ map (shifted_comment shift.now.from shift.now.to) comments.now) }
{
    let moved = shift.moved_comments(alloc, comments)?;
    list.extend_from_slice(moved.as_slice())
}

/// Adds copies of the spans, moved.
fn add_moved_spans(
    alloc: Global,
    list: &mut SpanList,
    spans: &[Span],
    shift: &Shift,
) -> Result<(), AllocError>
    requires { All (OfSpan (FitsShifted shift.now.from shift.now.to)) spans.now }
    ensures { OnOk result
        (list.new ≡ list.old ++ map (shifted_span shift.now.from shift.now.to) spans.now) }
{
    let moved = shift.moved_spans(alloc, spans)?;
    list.extend_from_slice(moved.as_slice())
}

/// Makes live what is live in the old report from these lengths on, moved.
fn add_moved_from(
    alloc: Global,
    report: &mut Report,
    old: &Report,
    lengths: LiveLengths,
    shift: &Shift,
) -> Result<(), AllocError>
    requires inside { AreWithin lengths (live_lengths (report_live old.now)) }
    requires may_move { LiveMayMove shift.now.from shift.now.to (live_from lengths (report_live old.now)) }
    ensures { OnOk result (GoesLive report.old (joined_live (report_live report.old)
        (shifted_live shift.now.from shift.now.to (live_from lengths (report_live old.now)))) report.new) }
{
    let tokens = &old.tokens.as_slice()[lengths.tokens..];
    let diagnostics = &old.diagnostics.as_slice()[lengths.diagnostics..];
    let deferred = &old.deferred.as_slice()[lengths.deferred..];
    let comments = &old.comments.as_slice()[lengths.comments..];
    let irregular = &old.irregular.as_slice()[lengths.irregular..];
    let warnings = &old.warnings.as_slice()[lengths.warnings..];
    add_moved_tokens(&mut report.tokens, tokens, shift)?;
    add_moved_diagnostics(alloc, &mut report.diagnostics, diagnostics, shift)?;
    add_moved_diagnostics(alloc, &mut report.deferred, deferred, shift)?;
    add_moved_comments(alloc, &mut report.comments, comments, shift)?;
    add_moved_spans(alloc, &mut report.irregular, irregular, shift)?;
    add_moved_spans(alloc, &mut report.warnings, warnings, shift)
}

/// A report of no rows, in which that is live which the rows before the place made live, by the lengths of what those
/// before the start did.
fn live_before(
    alloc: Global,
    old: &Report,
    place: usize,
    start: usize,
    lengths: LiveLengths,
) -> Result<Report, AllocError>
    requires lasted { AllByRecursion Lasts old.now.rows }
    requires live { report_live old.now ≡ live_behind nothing_live old.now.rows }
    requires lengths { lengths ≡ live_lengths (live_behind nothing_live (take start old.now.rows)) }
    requires anew { StartsAnew (drop start old.now.rows) }
    requires ordered { start ≤ place }
    requires inside { place ≤ length old.now.rows }
    ensures { IfOk result (λ report.
        report ≡ report_with [] [] (live_behind nothing_live (take place old.now.rows))) }
{
    let mut report = empty_report(alloc);
    add_up_to(&mut report, old, lengths)?;
    add_live_rows(&mut report, &old.rows.as_slice()[start..place])?;
    Ok(report)
}

/// Makes live what the rows from the place on make live, moved, by the lengths of what those before the start made live.
fn add_moved_live(
    alloc: Global,
    report: &mut Report,
    old: &OutlinedReport,
    place: usize,
    start: usize,
    lengths: LiveLengths,
    shift: &Shift,
) -> Result<(), AllocError>
    requires lasted { AllByRecursion Lasts old.now.rows }
    requires live { report_live old.now ≡ live_behind nothing_live old.now.rows }
    requires lengths { lengths ≡ live_lengths (live_behind nothing_live (take start old.now.rows)) }
    requires ordered { start ≤ place }
    requires inside { place ≤ length old.now.rows }
    requires may_move { AllByRecursion (MayMove shift.now.from shift.now.to) (drop place old.now.rows) }
    ensures { OnOk result (GoesLive report.old (live_behind (report_live report.old)
        (map (shifted_row shift.now.from shift.now.to) (drop place old.now.rows))) report.new) }
{
    let old_report = old.report();
    let rows = old_report.rows.as_slice();
    let next = next_start(rows, place);
    add_moved_live_rows(alloc, report, &rows[place..next], shift)?;
    let lengths = lengths_further(old, lengths, start, next);
    add_moved_from(alloc, report, old_report, lengths, shift)
}

/// A report of no rows, in which that is live which is behind the first rows, those that were read, and the last old
/// ones, moved. The live lists of the old report are taken over: of a row that stays no more is looked at than how much
/// it found.
pub(crate) fn live_of(
    alloc: Global,
    old: &OutlinedReport,
    commands: &[Command],
    kept: usize,
    read: &[Row],
    behind: usize,
    shift: &Shift,
) -> Result<Report, AllocError>
    requires lasted { HasLasted commands.now old.now }
    requires few { kept + behind ≤ length old.now.rows }
    requires may_move { AllByRecursion (MayMove shift.now.from shift.now.to)
        (drop (length old.now.rows - behind) old.now.rows) }
    ensures { IfOk result (λ report. report ≡ report_with [] [] (live_behind nothing_live (take kept old.now.rows
        ++ read.now
        ++ map (shifted_row shift.now.from shift.now.to) (drop (length old.now.rows - behind) old.now.rows)))) }
{
    let old_report = old.report();
    let start = last_start(old_report.rows.as_slice(), kept);
    let lengths = lengths_at(old, commands, start);
    let mut report = live_before(alloc, old_report, kept, start, lengths)?;
    add_live_rows(&mut report, read)?;
    let place = old_report.rows.len() - behind;
    add_moved_live(alloc, &mut report, old, place, start, lengths, shift)?;
    Ok(report)
}
