//! Rows gathered into a report, with what is live behind them.

ghost use Rattle.std.specs.Prelude.{◌≡◌, ◌≤◌, ◌+◌, ◌-◌, [], ◌∷◌, ◌++◌, length, take, drop, map};
ghost use Rattle.std.specs.Prelude.{IfOk, OnErr, OnOk};
ghost use Rattle.std.specs.List.{AllByRecursion};
ghost use Rattle.js_session.specs.Live.{nothing_live, outcome_of, report_live, report_with, with_outcome};
ghost use Rattle.js_session.specs.Live.{with_re_lexed};
ghost use Rattle.js_session.specs.Shifted.{shifted_row};
ghost use Rattle.js_relex.specs.Documents.{GoesLive, IsGathered, MayMove, live_behind};

use js_kind::TokenList;
use js_session::{Effect, Report, Row, RowList, Shift};
use js_text::{CommentList, DiagnosticList, SpanList};
use std::alloc::{AllocError, Global};

/// A report of no rows.
pub(crate) fn empty_report(alloc: Global) -> Report
    ensures { result ≡ report_with [] [] nothing_live }
{
    Report {
        rows: RowList::new_in(alloc),
        tokens: TokenList::new_in(alloc),
        collected: TokenList::new_in(alloc),
        diagnostics: DiagnosticList::new_in(alloc),
        deferred: DiagnosticList::new_in(alloc),
        comments: CommentList::new_in(alloc),
        irregular: SpanList::new_in(alloc),
        warnings: SpanList::new_in(alloc),
    }
}

/// The report with these rows.
pub(crate) fn with_rows(report: Report, rows: RowList) -> Report
    ensures { result ≡ record report { rows = rows } }
{
    Report { rows, ..report }
}

/// Adds what the row found.
fn add_findings(report: &mut Report, row: &Row) -> Result<(), AllocError>
    ensures { OnOk result (GoesLive report.old (record (with_outcome (report_live report.old) (outcome_of row.now))
        { tokens = report.old.tokens }) report.new) }
{
    report
        .diagnostics
        .extend_from_slice(row.diagnostics.as_slice())?;
    report.deferred.extend_from_slice(row.deferred.as_slice())?;
    report.comments.extend_from_slice(row.comments.as_slice())?;
    report
        .irregular
        .extend_from_slice(row.irregular.as_slice())?;
    report.warnings.extend_from_slice(row.warnings.as_slice())
}

/// Makes the row's token live behind the others, with what the row found.
fn add_read(report: &mut Report, row: &Row) -> Result<(), AllocError>
    ensures { OnOk result
        (GoesLive report.old (with_outcome (report_live report.old) (outcome_of row.now)) report.new) }
{
    report.tokens.push(row.token)?;
    add_findings(report, row)
}

/// Makes the row's token live in the place of the last one, with what the row found.
fn add_again(report: &mut Report, row: &Row) -> Result<(), AllocError>
    ensures { OnOk result
        (GoesLive report.old (with_re_lexed (report_live report.old) (outcome_of row.now)) report.new) }
{
    report.tokens.replace_last(row.token);
    add_findings(report, row)
}

/// Makes live what the row's command makes live.
fn add_live(report: &mut Report, row: &Row) -> Result<(), AllocError>
    ensures { OnOk result (GoesLive report.old (live_behind (report_live report.old) (row.now ∷ [])) report.new) }
{
    match row.effect() {
        Effect::Reads(_) => add_read(report, row),
        Effect::ReLexes(_) if row.taken => add_again(report, row),
        _ => Ok(()),
    }
}

/// A copy of the row, moved.
fn moved_row(alloc: Global, shift: &Shift, row: &Row) -> Result<Row, AllocError>
    requires { MayMove shift.now.from shift.now.to row.now }
    ensures { IfOk result (λ new. new ≡ shifted_row shift.now.from shift.now.to row.now) }
{
    shift.moved_row(alloc, row)
}

/// Makes live what the rows make live.
pub(crate) fn add_live_rows(report: &mut Report, rows: &[Row]) -> Result<(), AllocError>
    ensures { OnOk result (GoesLive report.old (live_behind (report_live report.old) rows.now) report.new) }
{
    for row in rows {
        add_live(report, row)?;
    }
    Ok(())
}

/// The report of the rows: these, and what they make live. No tokens are collected.
pub fn report_of_rows(alloc: Global, rows: RowList) -> Result<Report, AllocError>
    ensures { IfOk result (IsGathered rows) }
{
    let mut report = empty_report(alloc);
    add_live_rows(&mut report, rows.as_slice())?;
    Ok(with_rows(report, rows))
}

/// Makes live what the rows make live, moved.
pub(crate) fn add_moved_live_rows(
    alloc: Global,
    report: &mut Report,
    rows: &[Row],
    shift: &Shift,
) -> Result<(), AllocError>
    requires { AllByRecursion (MayMove shift.now.from shift.now.to) rows.now }
    ensures { OnOk result (GoesLive report.old
        (live_behind (report_live report.old) (map (shifted_row shift.now.from shift.now.to) rows.now)) report.new) }
{
    for row in rows {
        let moved = moved_row(alloc, shift, row)?;
        add_live(report, &moved)?;
    }
    Ok(())
}

/// Puts the rows that were read in the place of the old ones between the first and the last, and moves the last where
/// they stand.
pub(crate) fn replace_rows(
    rows: &mut RowList,
    kept: usize,
    read: RowList,
    behind: usize,
    shift: &Shift,
) -> Result<(), AllocError>
    requires few { kept + behind ≤ length rows.old }
    requires may_move { AllByRecursion (MayMove shift.now.from shift.now.to) (drop (length rows.old - behind) rows.old) }
    requires stay { shift.now.from ≡ shift.now.to
        → map (shifted_row shift.now.from shift.now.to) (drop (length rows.old - behind) rows.old)
        ≡ drop (length rows.old - behind) rows.old }
    ensures ok { OnOk result (rows.new ≡ take kept rows.old ++ read
        ++ map (shifted_row shift.now.from shift.now.to) (drop (length rows.old - behind) rows.old)) }
    ensures err { OnErr result (rows.new ≡ rows.old) }
{
    let start = rows.as_slice().len() - behind;
    if shift.from == shift.to {
        return rows.replace(kept, start, read);
    }
    let index = kept + read.as_slice().len();
    rows.replace(kept, start, read)?;
    rows.shift_behind(index, shift);
    Ok(())
}
