//! Some rows that stand one behind the other, and move together.

ghost use Rattle.std.specs.Prelude.{◌≡◌, ◌<◌, ◌≤◌, List, ◌++◌, Some, length, take, slice_get, IfOk};
ghost use Rattle.std.specs.List.{AllByRecursion};
ghost use Rattle.js_session.specs.declared.row.Row.{Row};
ghost use Rattle.js_document.specs.Blocks.{MovesBlock, MovesEntry, moved_block, starts_by};
ghost use Rattle.js_document.specs.Found.{counts_in, found_by};
ghost use Rattle.js_document.specs.Gap.{AreInOrder, count_tokens, rows_of};
ghost use Rattle.js_document.specs.LiveTokens.{StartUpTo};

use super::held::Held;
use crate::counts::FoundCounts;
use crate::gap::{Entry, count_found, count_tokens};
use js_session::Shift;
use std::alloc::AllocError;
use std::marker::Model;

/// Rows that stand one behind the other, with their places as they were when the block was made, and how these have moved
/// since. It is seen as the rows with their places in the text.
#[derive(Drop)]
pub(crate) struct Block<K> {
    entries: Vec<Entry<K>>,
    shift: Shift,
    /// How many rows stand before it.
    rows_before: usize,
    /// How many live tokens those have.
    tokens_before: usize,
    /// How many live tokens its rows have.
    tokens: usize,
    /// How many items of each list they have found.
    found: FoundCounts,
}

impl<K> Model for Block<K> {
    ghost use Rattle.std.specs.Prelude.{map};
    ghost use Rattle.js_document.specs.Blocks.{BlockState, HoldsEntries};
    ghost use Rattle.js_document.specs.Gap.{shifted_entry};

    ghost Value = { BlockState K };

    ghost view = { λ b. record {
      entries = map (shifted_entry {K = K} b.shift.from b.shift.to) b.entries.items;
      rows_before = b.rows_before;
      tokens_before = b.tokens_before;
    } };

    ghost invariant = { λ b. HoldsEntries {K = K} b.shift.from b.shift.to b.entries.items b.tokens b.found };
}

impl<K: Copy + Drop> Block<K> {
    /// The rows, with their places in the text. They are numbered as if none stood before them.
    pub(crate) fn new(entries: Vec<Entry<K>>) -> Result<Block<K>, AllocError>
        requires { AllByRecursion (MovesEntry {K = K} 0 0) entries.items }
        ensures { IfOk result (λ b. b ≡ record { entries = entries.items; rows_before = 0; tokens_before = 0 }) }
    {
        let tokens = count_tokens(entries.as_slice());
        let found = count_found(FoundCounts::none(), entries.as_slice())?;
        Ok(Block {
            entries,
            shift: Shift { from: 0, to: 0 },
            rows_before: 0,
            tokens_before: 0,
            tokens,
            found,
        })
    }

    /// How many rows it has.
    pub(crate) fn len(&self) -> usize
        ensures { result ≡ length self.now.entries }
    {
        self.entries.len()
    }

    /// How many live tokens they have.
    pub(crate) fn tokens(&self) -> usize
        ensures { result ≡ count_tokens (rows_of {K = K} self.now.entries) }
    {
        self.tokens
    }

    /// How many rows stand before it.
    pub(crate) fn rows_before(&self) -> usize
        ensures { result ≡ self.now.rows_before }
    {
        self.rows_before
    }

    /// How many live tokens those have.
    pub(crate) fn tokens_before(&self) -> usize
        ensures { result ≡ self.now.tokens_before }
    {
        self.tokens_before
    }

    /// So many rows, and so many live tokens, stand before it.
    pub(crate) fn number(&mut self, rows: usize, tokens: usize)
        ensures { self.new ≡ record self.old { rows_before = rows; tokens_before = tokens } }
    {
        self.rows_before = rows;
        self.tokens_before = tokens;
    }

    /// The row with the index among its rows.
    pub(crate) fn at(&self, index: usize) -> Held<'_, K>
        requires { index < length self.now.entries }
        ensures { slice_get self.now.entries index ≡ Some result }
    {
        Held::new(&self.entries[index], self.shift)
    }

    /// Whether its first row starts at the place or before it.
    pub(crate) fn starts_by(&self, place: u32) -> bool
        ensures { result ≡ starts_by {K = K} place self.now }
    {
        if self.len() == 0 {
            return false;
        }
        let first = self.at(0);
        first.token().start() <= place
    }

    /// How many of its rows start at the place or before it.
    pub(crate) fn starts_up_to(&self, place: u32) -> usize
        requires { AreInOrder (rows_of {K = K} self.now.entries) }
        ensures { StartUpTo {K = K} place self.now.entries result }
    {
        match place.checked_sub(self.shift.to) {
            Some(behind) => {
                let bound = behind as u64 + self.shift.from as u64;
                self.entries
                    .as_slice()
                    .partition_point(|entry| entry.row.token.start() as u64 <= bound)
            }
            None => 0,
        }
    }

    /// How many live tokens its first rows have, so many.
    pub(crate) fn tokens_up_to(&self, count: usize) -> usize
        requires { count ≤ length self.now.entries }
        ensures { result ≡ count_tokens (rows_of {K = K} (take count self.now.entries)) }
    {
        count_tokens(&self.entries.as_slice()[..count])
    }

    /// How many items of each list there are with what its rows have found.
    pub(crate) fn found_with(&self, counts: FoundCounts) -> Result<FoundCounts, AllocError>
        ensures { (front : List Row) → counts ≡ counts_in (found_by front)
            → IfOk result (λ new. new ≡ counts_in (found_by (front ++ rows_of {K = K} self.now.entries))) }
    {
        counts.with(&self.found)
    }

    /// How many there are with what its first rows have found, so many.
    pub(crate) fn found_up_to(
        &self,
        counts: FoundCounts,
        count: usize,
    ) -> Result<FoundCounts, AllocError>
        requires { count ≤ length self.now.entries }
        ensures { (front : List Row) → counts ≡ counts_in (found_by front)
            → IfOk result
            (λ new. new ≡ counts_in (found_by (front ++ rows_of {K = K} (take count self.now.entries)))) }
    {
        count_found(counts, &self.entries.as_slice()[..count])
    }

    /// Moves its rows: it takes as long for one as for many.
    pub(crate) fn move_by(&mut self, shift: &Shift)
        requires { MovesBlock {K = K} shift.now.from shift.now.to self.old }
        ensures { self.new ≡ moved_block {K = K} shift.now.from shift.now.to self.old }
    {
        let Shift { from, to } = self.shift;
        let low = from + shift.from.saturating_sub(to);
        let high = to.saturating_sub(shift.from) + shift.to;
        self.shift = Shift {
            from: low,
            to: high,
        };
    }
}
