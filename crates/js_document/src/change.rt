//! What an edit changed.

ghost use Rattle.std.specs.Prelude.{◌≡◌, ◌+◌, ◌-◌, ◌≤◌, ◌++◌, [], length, map, drop, take, reverse, IfOk, OnOk};
ghost use Rattle.std.specs.List.{AllByRecursion};
ghost use Rattle.js_session.specs.Shifted.{shifted_row};
ghost use Rattle.js_relex.specs.LiveLists.{TokenMayMove};
ghost use Rattle.js_document.specs.Changed.{AreChangesOf, EntryMayMove, IsChangeOf, MayChange, StartsReading};
ghost use Rattle.js_document.specs.Changed.{last_token_of};
ghost use Rattle.js_document.specs.Reading.{with_row, with_rows};
ghost use Rattle.js_document.specs.Found.{counts_in, findings_of, found_by};
ghost use Rattle.js_document.specs.Gap.{around, entries_of, rows_of};
ghost use Rattle.js_document.specs.Documents.{all_came, change_of_new};
ghost use Rattle.js_session.specs.declared.report.Report.{Report};

mod compared;
mod found;

use self::compared::changed_range;
use self::found::changed_found;
use crate::blocks::Held;
use crate::counts::FoundCounts;
use crate::found::{Comments, Deferred, Diagnostics, Irregular, Warnings};
use crate::gap::{Entry, GapRows};
use crate::placed::Placed;
use js_kind::{Token, TokenList};
use js_relex::{Edit, shift_of};
use js_session::{Effect, Row, Shift};
use std::alloc::{AllocError, Global};

/// The items of a list that an edit put in the place of others: from `start` on, up to `old_end` of the old list and up
/// to `new_end` of the new one. All before are the same, and all behind are the old ones, moved.
#[derive(Clone, Copy, PartialEq, Eq, Debug)]
pub struct ChangedRange {
    pub start: usize,
    pub old_end: usize,
    pub new_end: usize,
}

/// What the last edit changed.
#[derive(Clone, Copy, PartialEq, Eq, Debug)]
pub struct Change {
    /// How many rows at the front were kept.
    pub kept_rows: usize,
    /// How many rows behind them were read.
    pub read_rows: usize,
    /// The live tokens that went, and those that came.
    pub tokens: ChangedRange,
    /// The comments.
    pub comments: ChangedRange,
    /// The diagnostics.
    pub diagnostics: ChangedRange,
    /// Those for the case that the source is a module.
    pub deferred: ChangedRange,
    /// The irregular white space.
    pub irregular: ChangedRange,
    /// What the readings warned of.
    pub warnings: ChangedRange,
    /// How what stands behind the edit moved.
    pub moved: Shift,
}

/// Makes the token live in the place of the row's own.
fn add_token(tokens: &mut TokenList, row: &Row, token: Token) -> Result<(), AllocError>
    ensures { OnOk result (tokens.new ≡ with_row tokens.old (record row.now { token = token })) }
{
    match row.effect() {
        Effect::Reads(_) => tokens.push(token),
        Effect::ReLexes(_) if row.taken => {
            tokens.replace_last(token);
            Ok(())
        }
        _ => Ok(()),
    }
}

/// Makes the row's token live, moved.
fn add_row<K: Copy + Drop>(
    tokens: &mut TokenList,
    entry: &Held<'_, K>,
    shift: &Shift,
) -> Result<(), AllocError>
    requires { TokenMayMove shift.now.from shift.now.to entry.now.row.token }
    ensures { OnOk result (tokens.new ≡ with_row tokens.old (shifted_row shift.now.from shift.now.to entry.now.row)) }
{
    let token = entry.token().moved(shift);
    add_token(tokens, entry.row(), token)
}

/// Makes the tokens of the rows live that stand behind the gap, from the one with less than `high` behind it up to the one
/// with `low`, moved.
fn add_rows<K: Copy + Drop>(
    tokens: &mut TokenList,
    entries: &GapRows<K>,
    low: usize,
    high: usize,
    shift: &Shift,
) -> Result<(), AllocError>
    requires ordered { low ≤ high }
    requires few { high ≤ length entries.now.back }
    requires moves { AllByRecursion (EntryMayMove {K = K} shift.now.from shift.now.to)
        (drop low (take high entries.now.back)) }
    ensures { OnOk result (tokens.new ≡ with_rows tokens.old (map (shifted_row shift.now.from shift.now.to)
        (reverse (rows_of {K = K} (drop low (take high entries.now.back)))))) }
{
    let mut left = high;
    while left > low {
        left -= 1;
        let entry = entries.behind(left);
        add_row(tokens, &entry, shift)?;
    }
    Ok(())
}

/// Makes the tokens of the rows live.
fn add_read<K>(tokens: &mut TokenList, entries: &[Entry<K>]) -> Result<(), AllocError>
    ensures { OnOk result (tokens.new ≡ with_rows tokens.old (rows_of {K = K} entries.now)) }
{
    for entry in entries {
        add_token(tokens, &entry.row, entry.row.token)?;
    }
    Ok(())
}

/// How many of the rows behind the gap, of which so many are left, stand behind the first that reads a token behind the
/// last one, with that one.
fn left_from_reading<K: Copy + Drop>(entries: &GapRows<K>, left: usize) -> usize
    requires { left ≤ length entries.now.back }
    ensures few { result ≤ length (take left entries.now.back) }
    ensures reading { StartsReading {K = K} (take result (take left entries.now.back)) }
{
    let mut reading = left;
    while reading > 0 {
        let entry = entries.behind(reading - 1);
        if entry.reads_on() {
            return reading;
        }
        reading -= 1;
    }
    reading
}

/// A list of the last token before the gap, if there is one.
fn last_of_front<K: Copy + Drop>(
    alloc: Global,
    entries: &GapRows<K>,
) -> Result<TokenList, AllocError>
    ensures { IfOk result (λ tokens. tokens ≡ last_token_of {K = K} entries.now.front) }
{
    let mut tokens = TokenList::new_in(alloc);
    if let Some(entry) = entries.last_before() {
        tokens.push(entry.token())?;
    }
    Ok(tokens)
}

/// The live tokens from the last one before the gap on, up to the rows that are left behind it.
fn old_tokens<K: Copy + Drop>(
    alloc: Global,
    entries: &GapRows<K>,
    left: usize,
) -> Result<TokenList, AllocError>
    requires { left ≤ length entries.now.back }
    ensures { IfOk result (λ tokens. tokens ≡ with_rows (last_token_of {K = K} entries.now.front)
        (map (shifted_row entries.now.pad 0) (reverse (rows_of {K = K} (drop left entries.now.back))))) }
{
    let mut tokens = last_of_front(alloc, entries)?;
    let shift = Shift {
        from: entries.pad(),
        to: 0,
    };
    add_rows(&mut tokens, entries, left, entries.back_len(), &shift)?;
    Ok(tokens)
}

/// The same where the rows that were read stand in the place of those that go, and those behind the gap from the one with
/// less than `left` behind it up to the one with `reading` come behind them, and the pad is another.
fn new_tokens<K: Copy + Drop>(
    alloc: Global,
    entries: &GapRows<K>,
    read: &[Entry<K>],
    reading: usize,
    left: usize,
    pad: u32,
) -> Result<TokenList, AllocError>
    requires ordered { reading ≤ left }
    requires few { left ≤ length entries.now.back }
    requires moves { AllByRecursion (EntryMayMove {K = K} pad 0) (take (left - reading) (drop reading entries.now.back)) }
    ensures { IfOk result (λ tokens. tokens ≡ with_rows (last_token_of {K = K} entries.now.front)
        (rows_of {K = K} read.now ++ map (shifted_row pad 0)
        (reverse (rows_of {K = K} (take (left - reading) (drop reading entries.now.back)))))) }
{
    let mut tokens = last_of_front(alloc, entries)?;
    add_read(&mut tokens, read)?;
    add_rows(
        &mut tokens,
        entries,
        reading,
        left,
        &Shift { from: pad, to: 0 },
    )?;
    Ok(tokens)
}

/// The live tokens that went and came, where these rows are read behind those before the gap, so many of the rows behind
/// it are left, and their pad becomes another.
fn changed_tokens<K: Copy + Drop>(
    alloc: Global,
    entries: &GapRows<K>,
    read: &[Entry<K>],
    left: usize,
    edit: &Edit<'_>,
    pad: u32,
) -> Result<ChangedRange, AllocError>
    requires { MayChange {K = K} edit.now.start edit.now.end edit.now.text.now entries.now left pad }
    ensures { IfOk result (IsChangeOf edit.now.start edit.now.end edit.now.text.now
        (with_rows [] (rows_of {K = K} (entries_of {K = K} entries.now)))
        (with_rows [] (rows_of {K = K} (around {K = K} (entries.now.front ++ read.now) pad (take left entries.now.back))))) }
{
    let reading = left_from_reading(entries, left);
    let old = old_tokens(alloc, entries, reading)?;
    let new = new_tokens(alloc, entries, read, reading, left, pad)?;
    let start = entries.front_tokens().saturating_sub(1);
    changed_range(start, old.as_slice(), new.as_slice(), edit)
}

/// What the edit changes of the rows, where these are read behind those before the gap, so many of the rows behind it are
/// left, and their pad becomes another.
pub(crate) fn change_of<K: Copy + Drop>(
    alloc: Global,
    entries: &GapRows<K>,
    read: &[Entry<K>],
    left: usize,
    edit: &Edit<'_>,
    pad: u32,
) -> Result<Change, AllocError>
    requires { MayChange {K = K} edit.now.start edit.now.end edit.now.text.now entries.now left pad }
    ensures kept { IfOk result (λ change. change.kept_rows ≡ length entries.now.front) }
    ensures read { IfOk result (λ change. change.read_rows ≡ length read.now) }
    ensures tokens { IfOk result (λ change. IsChangeOf edit.now.start edit.now.end edit.now.text.now
        (with_rows [] (rows_of {K = K} (entries_of {K = K} entries.now)))
        (with_rows [] (rows_of {K = K} (around {K = K} (entries.now.front ++ read.now) pad (take left entries.now.back))))
        change.tokens) }
    ensures found { IfOk result (AreChangesOf edit.now.start edit.now.end edit.now.text.now
        (found_by (rows_of {K = K} (entries_of {K = K} entries.now)))
        (found_by (rows_of {K = K} (around {K = K} (entries.now.front ++ read.now) pad (take left entries.now.back))))) }
    ensures moved { IfOk result (λ change.
        change.moved ≡ record { from = edit.now.end; to = edit.now.start + length edit.now.text.now }) }
{
    let kept = entries.front_found()?;
    Ok(Change {
        kept_rows: entries.front_len(),
        read_rows: read.len(),
        tokens: changed_tokens(alloc, entries, read, left, edit, pad)?,
        comments: changed_found::<K, Comments>(alloc, entries, read, left, edit, kept.comments)?,
        diagnostics: changed_found::<K, Diagnostics>(
            alloc,
            entries,
            read,
            left,
            edit,
            kept.diagnostics,
        )?,
        deferred: changed_found::<K, Deferred>(alloc, entries, read, left, edit, kept.deferred)?,
        irregular: changed_found::<K, Irregular>(alloc, entries, read, left, edit, kept.irregular)?,
        warnings: changed_found::<K, Warnings>(alloc, entries, read, left, edit, kept.warnings)?,
        moved: shift_of(edit),
    })
}

/// All of a list came that has so many items.
fn all_came(count: usize) -> ChangedRange
    ensures { result ≡ all_came count }
{
    ChangedRange {
        start: 0,
        old_end: 0,
        new_end: count,
    }
}

/// What a new document changed: each token came, and all that was found.
pub(crate) fn change_of_new(rows: usize, tokens: usize, found: &FoundCounts) -> Change
    ensures { (report : Report) → rows ≡ length report.rows → tokens ≡ length report.tokens
        → found.now ≡ counts_in (findings_of report) → result ≡ change_of_new report }
{
    Change {
        kept_rows: 0,
        read_rows: rows,
        tokens: all_came(tokens),
        comments: all_came(found.comments),
        diagnostics: all_came(found.diagnostics),
        deferred: all_came(found.deferred),
        irregular: all_came(found.irregular),
        warnings: all_came(found.warnings),
        moved: Shift { from: 0, to: 0 },
    }
}
