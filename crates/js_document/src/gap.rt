//! Rows around a gap, which stands where the text was edited last.

ghost use Rattle.std.specs.Prelude.{◌≡◌, ◌↔◌, ◌+◌, ◌-◌, ◌<◌, ◌^◌, ◌≤◌, List, ◌++◌, length, IfOk, IsTrue};
ghost use Rattle.js_session.specs.declared.row.Row.{Row};
ghost use Rattle.js_document.specs.Found.{counts_in, found_by};
ghost use Rattle.js_document.specs.Gap.{count_tokens, more_tokens, reads_again, reads_on, rows_of};

mod found;
mod rows;
mod values;

use crate::blocks::RowBlocks;
use crate::counts::FoundCounts;
use js_session::{Effect, Row};
use std::alloc::AllocError;
use std::marker::Model;

/// A row, with what is known behind it.
#[derive(Drop)]
pub(crate) struct Entry<K> {
    pub(crate) row: Row,
    pub(crate) state: K,
}

/// Whether the row reads a token behind the last one.
pub(crate) fn reads_on(row: &Row) -> bool
    ensures { result ≡ reads_on row.now }
{
    match row.effect() {
        Effect::Reads(_) => true,
        _ => false,
    }
}

/// Whether the row reads the last token again: its token stands in the place of that one.
pub(crate) fn reads_again(row: &Row) -> bool
    ensures { result ≡ reads_again row.now }
{
    match row.effect() {
        Effect::ReLexes(_) => true,
        _ => false,
    }
}

/// How many live tokens more there are with the row.
fn more_tokens(row: &Row) -> usize
    ensures { result ≡ more_tokens row.now }
{
    if reads_on(row) { 1 } else { 0 }
}

/// Whether a token that ends there ends four bytes or more before the place.
fn ends_before(end: u32, start: u32) -> bool
    ensures { IsTrue result ↔ (end + 4 ≤ start) }
{
    if end > start {
        return false;
    }
    start - end >= 4
}

/// How many bytes a text of this length has less than `u32::MAX`.
pub(crate) fn pad_of(length: usize) -> u32
    requires { length < 2 ^ 32 }
    ensures { result + length ≡ 2 ^ 32 - 1 }
{
    u32::MAX - length as u32
}

/// Rows of a text, with a gap between two of them. It is seen as the rows before the gap and those behind it, the last one
/// first. These have their places padded: what is added to them is what the text has less than `u32::MAX` bytes, so that
/// their places are as far from the end whatever stands before them, and an edit before them changes none.
#[derive(Drop)]
pub(crate) struct GapRows<K> {
    rows: RowBlocks<K>,
    /// How many rows stand before the gap.
    gap: usize,
    pad: u32,
}

impl<K> Model for GapRows<K> {
    ghost use Rattle.js_document.specs.Gap.{GapState, IsGap, gap_at};

    ghost Value = { GapState K };

    ghost view = { λ g. gap_at {K = K} g.rows g.gap g.pad };

    ghost invariant = { λ g. IsGap {K = K} g.rows g.gap g.pad };
}

/// How many live tokens more there are with the rows.
pub(crate) fn count_tokens<K>(rows: &[Entry<K>]) -> usize
    ensures count { result ≡ count_tokens (rows_of {K = K} rows.now) }
    ensures few { result ≤ length rows.now }
{
    let mut count = 0;
    for entry in rows {
        count += more_tokens(&entry.row);
    }
    count
}

/// How many items of each list there are with what the rows found.
pub(crate) fn count_found<K>(
    counts: FoundCounts,
    rows: &[Entry<K>],
) -> Result<FoundCounts, AllocError>
    ensures { (front : List Row) → counts ≡ counts_in (found_by front)
        → IfOk result (λ new. new ≡ counts_in (found_by (front ++ rows_of {K = K} rows.now))) }
{
    let mut counts = counts;
    for entry in rows {
        counts = counts.with_row(&entry.row)?;
    }
    Ok(counts)
}
