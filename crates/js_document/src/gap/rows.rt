//! The rows on either side of the gap.

ghost use Rattle.std.specs.Prelude.{◌≡◌, ◌↔◌, ◌<◌, ◌≤◌, [], ◌++◌, Some, false, length, slice_get, take};
ghost use Rattle.std.specs.Prelude.{IfOk, IsTrue, OnErr, OnOk};
ghost use Rattle.std.specs.List.{AllByRecursion};
ghost use Rattle.std.specs.Option.{option_map, option_map_or};
ghost use Rattle.js_document.specs.Documents.{IsKept};
ghost use Rattle.js_document.specs.Found.{counts_in, found_by};
ghost use Rattle.js_document.specs.Gap.{AreInOrder, EndsBefore, IsPadded, MayPad, MovesGap, around, count_tokens};
ghost use Rattle.js_document.specs.Gap.{entries_of, last_entry, reads_again, rows_of};
ghost use Rattle.js_document.specs.LiveTokens.{BeginsToken, IsRowAt, TakesLive};
ghost use Rattle.js_document.specs.Reading.{IsSeam};

use super::{Entry, GapRows, ends_before};
use crate::blocks::{Held, RowBlocks};
use crate::counts::FoundCounts;
use js_kind::Token;
use js_session::Shift;
use std::alloc::{AllocError, Global};

impl<K: Copy + Drop> GapRows<K> {
    /// Rows with the gap behind them.
    pub(crate) fn new(
        alloc: Global,
        rows: Vec<Entry<K>>,
        pad: u32,
    ) -> Result<GapRows<K>, AllocError>
        requires { AllByRecursion (MayPad {K = K} pad) rows.items }
        ensures entries { IfOk result (λ g. entries_of {K = K} g ≡ rows.items) }
        ensures alone { IfOk result (λ g. g.back ≡ []) }
        ensures pad { IfOk result (λ g. g.pad ≡ pad) }
    {
        let rows = RowBlocks::new(alloc, rows)?;
        let gap = rows.len();
        Ok(GapRows { rows, gap, pad })
    }

    /// How many rows there are.
    pub(crate) fn len(&self) -> usize
        ensures { result ≡ length (entries_of {K = K} self.now) }
    {
        self.rows.len()
    }

    /// How many live tokens there are.
    pub(crate) fn tokens(&self) -> usize
        ensures { result ≡ count_tokens (rows_of {K = K} (entries_of {K = K} self.now)) }
    {
        self.rows.tokens_up_to(self.rows.len())
    }

    /// How many live tokens there are before the gap.
    pub(crate) fn front_tokens(&self) -> usize
        ensures { result ≡ count_tokens (rows_of {K = K} self.now.front) }
    {
        self.rows.tokens_up_to(self.gap)
    }

    /// How many items of each list the rows before the gap have found.
    pub(crate) fn front_found(&self) -> Result<FoundCounts, AllocError>
        ensures { IfOk result (λ counts. counts ≡ counts_in (found_by (rows_of {K = K} self.now.front))) }
    {
        self.rows.found_up_to(self.gap)
    }

    /// How many rows stand before the gap.
    pub(crate) fn front_len(&self) -> usize
        ensures { result ≡ length self.now.front }
    {
        self.gap
    }

    /// How many rows stand behind it.
    pub(crate) fn back_len(&self) -> usize
        ensures { result ≡ length self.now.back }
    {
        self.rows.len() - self.gap
    }

    /// What is added to the places behind the gap.
    pub(crate) fn pad(&self) -> u32
        ensures pad { result ≡ self.now.pad }
        ensures padded { AllByRecursion (IsPadded {K = K} self.now.pad) self.now.back }
    {
        self.pad
    }

    /// The row with the index.
    pub(crate) fn at(&self, index: usize) -> Held<'_, K>
        requires { index < length (entries_of {K = K} self.now) }
        ensures { slice_get (entries_of {K = K} self.now) index ≡ Some result }
    {
        self.rows.at(index)
    }

    /// The last row before the gap, if there is one.
    pub(crate) fn last_before(&self) -> Option<Held<'_, K>>
        ensures { result ≡ last_entry {K = K} self.now.front }
    {
        match self.gap.checked_sub(1) {
            Some(last) => Some(self.rows.at(last)),
            None => None,
        }
    }

    /// The row behind the gap that has so many behind it, with its places padded.
    pub(crate) fn behind(&self, left: usize) -> Held<'_, K>
        requires { left < length self.now.back }
        ensures { slice_get self.now.back left ≡ Some result }
    {
        let entry = self.rows.at(self.rows.len() - 1 - left);
        entry.padded(self.pad)
    }

    /// Whether the row with the index ends four bytes or more before the place.
    fn ends_before(&self, index: usize, start: u32) -> bool
        requires { index < length (entries_of {K = K} self.now) }
        ensures { IsTrue result ↔ EndsBefore {K = K} start (slice_get (entries_of {K = K} self.now) index) }
    {
        let entry = self.rows.at(index);
        ends_before(entry.token().end(), start)
    }

    /// How many rows end four bytes or more before the place.
    fn kept(&self, start: u32) -> usize
        requires { AreInOrder (rows_of {K = K} (entries_of {K = K} self.now)) }
        ensures { IsKept start (rows_of {K = K} (entries_of {K = K} self.now)) result }
    {
        let mut kept = self.rows.starts_up_to(start);
        while kept > 0 {
            if self.ends_before(kept - 1, start) {
                return kept;
            }
            kept -= 1;
        }
        kept
    }

    /// Puts the gap behind the last row that ends four bytes or more before the place.
    pub(crate) fn seek(&mut self, start: u32)
        requires { AreInOrder (rows_of {K = K} (entries_of {K = K} self.old)) }
        ensures moves { MovesGap {K = K} self.old self.new }
        ensures kept { IsKept start (rows_of {K = K} (entries_of {K = K} self.old)) (length self.new.front) }
    {
        let kept = self.kept(start);
        self.gap = kept;
    }

    /// Puts the rows before the gap, and keeps so many of those behind it, with another pad.
    pub(crate) fn replace(
        &mut self,
        alloc: Global,
        rows: Vec<Entry<K>>,
        left: usize,
        pad: u32,
    ) -> Result<(), AllocError>
        requires few { left ≤ length self.old.back }
        requires padded { AllByRecursion (IsPadded {K = K} pad) (take left self.old.back) }
        requires may_pad { AllByRecursion (MayPad {K = K} pad)
            (around {K = K} (self.old.front ++ rows.items) pad (take left self.old.back)) }
        ensures ok { OnOk result (entries_of {K = K} self.new
            ≡ around {K = K} (self.old.front ++ rows.items) pad (take left self.old.back)) }
        ensures pad { OnOk result (self.new.pad ≡ pad) }
        ensures err { OnErr result (entries_of {K = K} self.new ≡ entries_of {K = K} self.old) }
        ensures err_pad { OnErr result (self.new.pad ≡ self.old.pad) }
    {
        let end = self.rows.len() - left;
        let shift = Shift {
            from: pad.saturating_sub(self.pad),
            to: self.pad.saturating_sub(pad),
        };
        self.rows.replace(alloc, self.gap, end, rows, &shift)?;
        self.gap = self.rows.len() - left;
        self.pad = pad;
        Ok(())
    }

    /// The token of the row with the index.
    pub(crate) fn token(&self, index: usize) -> Option<Token>
        ensures { result ≡ option_map (λ row. row.token) (slice_get (rows_of {K = K} (entries_of {K = K} self.now)) index) }
    {
        if index >= self.rows.len() {
            return None;
        }
        let entry = self.rows.at(index);
        Some(entry.token())
    }

    /// Whether the row with the index reads the token before it again.
    pub(crate) fn is_read_again(&self, index: usize) -> bool
        ensures { result ≡ option_map_or reads_again (slice_get (rows_of {K = K} (entries_of {K = K} self.now)) index) false }
    {
        if index >= self.rows.len() {
            return false;
        }
        let entry = self.rows.at(index);
        entry.reads_again()
    }

    /// The index of the last row that starts at the place or before it, if there is one.
    pub(crate) fn row_at(&self, place: u32) -> Option<usize>
        requires { AreInOrder (rows_of {K = K} (entries_of {K = K} self.now)) }
        ensures { IsRowAt place (rows_of {K = K} (entries_of {K = K} self.now)) result }
    {
        self.rows.starts_up_to(place).checked_sub(1)
    }

    /// The row with which the live token with the index begins. Where there is no such token, it is how many rows there
    /// are.
    pub(crate) fn row_of_token(&self, index: usize) -> usize
        ensures { BeginsToken (rows_of {K = K} (entries_of {K = K} self.now)) index result }
    {
        self.rows.row_of_token(index)
    }

    /// How many rows behind the gap start behind the padded place.
    pub(crate) fn rows_behind(&self, padded: u32) -> usize
        requires { AreInOrder (rows_of {K = K} (entries_of {K = K} self.now)) }
        ensures { IsSeam {K = K} self.now.back padded result }
    {
        let back = self.rows.len() - self.gap;
        match padded.checked_sub(self.pad) {
            Some(place) => back - self.rows.starts_up_to(place).saturating_sub(self.gap),
            None => back,
        }
    }

    /// The index of the first row behind this one that does not read the token before it again.
    pub(crate) fn behind_again(&self, index: usize) -> usize
        requires { index < length (entries_of {K = K} self.now) }
        ensures above { index < result }
        ensures few { result ≤ length (entries_of {K = K} self.now) }
        ensures tokens { TakesLive (rows_of {K = K} (entries_of {K = K} self.now)) index result }
    {
        let end = self.len();
        let mut next = index + 1;
        while next < end {
            if !self.is_read_again(next) {
                return next;
            }
            next += 1;
        }
        next
    }
}
