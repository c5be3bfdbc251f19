//! An edit behind which as much is live as before, and nothing moves: what the rows read make live is put in the place of
//! as much.

ghost use Rattle.std.specs.Prelude.{◌≡◌, ◌≤◌, ◌+◌, ◌-◌, ◌↔◌, ◌++◌, [], length, take, drop, IfOk, IfSome, IsTrue};
ghost use Rattle.std.specs.List.{AllByRecursion};
ghost use Rattle.js_session.specs.Live.{nothing_live, report_live, report_with};
ghost use Rattle.js_relex.specs.Documents.{GoesLive, live_behind};
ghost use Rattle.js_relex.specs.LiveLists.{AreWithin, HasLasted, IsPatch, Lasts, lengths_past, live_lengths};
ghost use Rattle.js_relex.specs.LiveLists.{overwritten_live};
ghost use Rattle.js_relex.specs.Patches.{PatchesReport};

use crate::gather::{add_live_rows, empty_report};
use crate::live::{LiveLengths, last_start, lengths_at, lengths_further, next_start};
use crate::outlined::OutlinedReport;
use js_kind::TokenList;
use js_session::{Command, Report, Row, Shift};
use js_text::ItemList;
use std::alloc::{AllocError, Global};

/// What is put in the place of as much from these lengths of the live lists on.
#[derive(Drop)]
pub(crate) struct LivePatch {
    pub(crate) before: LiveLengths,
    pub(crate) middle: Report,
}

/// A report of no rows, in which that is live which is behind the rows of each list in turn.
fn live_of_each(
    alloc: Global,
    first: &[Row],
    next: &[Row],
    last: &[Row],
) -> Result<Report, AllocError>
    ensures { IfOk result (λ report.
        report ≡ report_with [] [] (live_behind nothing_live (first.now ++ next.now ++ last.now))) }
{
    let mut report = empty_report(alloc);
    add_live_rows(&mut report, first)?;
    add_live_rows(&mut report, next)?;
    add_live_rows(&mut report, last)?;
    Ok(report)
}

/// Whether so many items from the start on end there.
fn ends_at(start: usize, count: usize, end: usize) -> bool
    ensures { IsTrue result ↔ (start + count ≡ end) }
{
    match end.checked_sub(start) {
        Some(between) => between == count,
        None => false,
    }
}

/// Whether what is live in the report fills each live list from one length up to the other.
fn fills(report: &Report, before: &LiveLengths, end: &LiveLengths) -> bool
    ensures { IsTrue result ↔ (lengths_past before.now (report_live report.now) ≡ end.now) }
{
    ends_at(before.tokens, report.tokens.len(), end.tokens)
        && ends_at(
            before.diagnostics,
            report.diagnostics.len(),
            end.diagnostics,
        )
        && ends_at(before.deferred, report.deferred.len(), end.deferred)
        && ends_at(before.comments, report.comments.len(), end.comments)
        && ends_at(before.irregular, report.irregular.len(), end.irregular)
        && ends_at(before.warnings, report.warnings.len(), end.warnings)
}

/// What the rows up to the last that is kept, those that were read, and as many last ones as stay make live, as a patch
/// of what is live: None where it is not as much as what stands in its place.
pub(crate) fn live_patch(
    alloc: Global,
    old: &OutlinedReport,
    commands: &[Command],
    last: usize,
    read: &[Row],
    behind: usize,
) -> Result<Option<LivePatch>, AllocError>
    requires lasted { HasLasted commands.now old.now }
    requires read { AllByRecursion Lasts read.now }
    requires few { last + 1 + behind ≤ length old.now.rows }
    ensures { IfOk result (λ found. IfSome found (λ patch.
        IsPatch (report_live old.now) patch.before (report_live patch.middle)
        (take (last + 1) old.now.rows ++ read.now ++ drop (length old.now.rows - behind) old.now.rows))) }
{
    let rows = old.report().rows.as_slice();
    let start = last_start(rows, last);
    let place = rows.len() - behind;
    let next = next_start(rows, place);
    let before = lengths_at(old, commands, start);
    let end = lengths_further(old, before, start, next);
    let middle = live_of_each(alloc, &rows[start..last + 1], read, &rows[place..next])?;
    if fills(&middle, &before, &end) {
        Ok(Some(LivePatch { before, middle }))
    } else {
        Ok(None)
    }
}

/// What the rows that were read make live, as a patch of what is live: None where anything moves, or no row is kept,
/// where as many rows stood not there before, or as much was not live.
pub(crate) fn patch_of(
    alloc: Global,
    old: &OutlinedReport,
    commands: &[Command],
    kept: usize,
    read: &[Row],
    behind: usize,
    shift: &Shift,
) -> Result<Option<LivePatch>, AllocError>
    requires lasted { HasLasted commands.now old.now }
    requires read { AllByRecursion Lasts read.now }
    requires few { kept + behind ≤ length old.now.rows }
    ensures { IfOk result (λ found. IfSome found (PatchesReport old.now kept read.now behind shift.now.from shift.now.to)) }
{
    if shift.from != shift.to {
        return Ok(None);
    }
    let place = old.report().rows.len() - behind;
    if !ends_at(kept, read.len(), place) {
        return Ok(None);
    }
    match kept.checked_sub(1) {
        Some(last) => live_patch(alloc, old, commands, last, read, behind),
        None => Ok(None),
    }
}

/// Puts the items in the place of as many from the start on. It succeeds without memory.
pub(crate) fn overwrite<T: Copy + Drop>(list: &mut ItemList<T>, start: usize, items: &[T])
    requires { start + length items.now ≤ length list.old }
    ensures { list.new ≡ take start list.old ++ items.now ++ drop (start + length items.now) list.old }
{
    if let Some(mut held) = list.take_boxed() {
        let end = start + items.len();
        held.slice_mut(start..end).copy_from_slice(items);
        list.put_boxed(held);
    }
}

/// The tokens with others in the place of as many from the start on.
pub(crate) fn patched_tokens(
    alloc: Global,
    old: &TokenList,
    start: usize,
    tokens: &TokenList,
) -> Result<TokenList, AllocError>
    requires { start + length tokens.now ≤ length old.now }
    ensures { IfOk result (λ new.
        new ≡ take start old.now ++ tokens.now ++ drop (start + length tokens.now) old.now) }
{
    // A copy takes places for all of them at once.
    let mut patched = old.copy(alloc)?;
    patched.truncate(start);
    patched.extend_from_slice(tokens.as_slice())?;
    patched.extend_from_slice(&old.as_slice()[start + tokens.len()..])?;
    Ok(patched)
}

/// Puts what the other report has found in the place of as much from these lengths on, and the tokens in the place of
/// all. It succeeds without memory.
pub(crate) fn overwrite_live(
    report: &mut Report,
    tokens: TokenList,
    before: &LiveLengths,
    middle: &Report,
)
    requires inside { AreWithin (lengths_past before.now (report_live middle.now)) (live_lengths (report_live report.old)) }
    requires tokens { tokens ≡ take before.now.tokens report.old.tokens ++ middle.now.tokens
        ++ drop (before.now.tokens + length middle.now.tokens) report.old.tokens }
    ensures { GoesLive report.old
        (overwritten_live before.now (report_live middle.now) (report_live report.old)) report.new }
{
    report.tokens = tokens;
    overwrite(
        &mut report.diagnostics,
        before.diagnostics,
        middle.diagnostics.as_slice(),
    );
    overwrite(
        &mut report.deferred,
        before.deferred,
        middle.deferred.as_slice(),
    );
    overwrite(
        &mut report.comments,
        before.comments,
        middle.comments.as_slice(),
    );
    overwrite(
        &mut report.irregular,
        before.irregular,
        middle.irregular.as_slice(),
    );
    overwrite(
        &mut report.warnings,
        before.warnings,
        middle.warnings.as_slice(),
    );
}
