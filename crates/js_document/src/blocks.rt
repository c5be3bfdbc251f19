//! Rows of a text in blocks, so that all that stand behind a place are moved by as many steps as there are blocks.

ghost use Rattle.std.specs.Prelude.{◌≡◌, ◌-◌, ◌<◌, ◌≤◌, ◌++◌, Some, length, map, take, drop, slice_get, IfOk, OnErr, OnOk};
ghost use Rattle.std.specs.List.{AllByRecursion};
ghost use Rattle.js_document.specs.Blocks.{MovesEntry};
ghost use Rattle.js_document.specs.Found.{counts_in, found_by};
ghost use Rattle.js_document.specs.Gap.{AreInOrder, count_tokens, rows_of, shifted_entry};
ghost use Rattle.js_document.specs.LiveTokens.{BeginsToken, StartUpTo};

mod block;
mod held;
mod numbered;

use self::block::Block;
pub(crate) use self::held::Held;
use self::numbered::{
    block_size, blocks_around, blocks_of, blocks_up_to, found_in_blocks, number_blocks, put_between,
};
use crate::counts::{FoundCounts, sum_of};
use crate::gap::Entry;
use js_session::Shift;
use std::alloc::{AllocError, Global};
use std::marker::Model;

/// Rows in the order of their text, with their places there.
#[derive(Drop)]
pub(crate) struct RowBlocks<K> {
    blocks: Vec<Block<K>>,
    /// How many rows there are.
    len: usize,
}

impl<K> Model for RowBlocks<K> {
    ghost use Rattle.std.specs.Prelude.{List};
    ghost use Rattle.js_document.specs.Blocks.{AreBlocks, entries_in};
    ghost use Rattle.js_document.specs.declared.gap.Entry.{Entry};

    ghost Value = { List (Entry K) };

    ghost view = { λ r. entries_in {K = K} r.blocks.items };

    ghost invariant = { λ r. AreBlocks {K = K} r.blocks.items r.len };
}

impl<K: Copy + Drop> RowBlocks<K> {
    /// The rows, in blocks.
    pub(crate) fn new(alloc: Global, entries: Vec<Entry<K>>) -> Result<RowBlocks<K>, AllocError>
        requires { AllByRecursion (MovesEntry {K = K} 0 0) entries.items }
        ensures { IfOk result (λ rows. rows ≡ entries.items) }
    {
        let len = entries.len();
        let mut blocks = blocks_of(alloc, entries, block_size(len))?;
        number_blocks(blocks.as_mut_slice());
        Ok(RowBlocks { blocks, len })
    }

    /// How many rows there are.
    pub(crate) fn len(&self) -> usize
        ensures { result ≡ length self.now }
    {
        self.len
    }

    /// The row with the index.
    pub(crate) fn at(&self, index: usize) -> Held<'_, K>
        requires { index < length self.now }
        ensures { slice_get self.now index ≡ Some result }
    {
        let number = blocks_up_to(self.blocks.as_slice(), index) - 1;
        let block = &self.blocks[number];
        block.at(index - block.rows_before())
    }

    /// How many rows start at the place or before it.
    pub(crate) fn starts_up_to(&self, place: u32) -> usize
        requires { AreInOrder (rows_of {K = K} self.now) }
        ensures { StartUpTo {K = K} place self.now result }
    {
        let count = self
            .blocks
            .as_slice()
            .partition_point(|block| block.starts_by(place));
        match count.checked_sub(1) {
            Some(number) => {
                let block = &self.blocks[number];
                block.rows_before() + block.starts_up_to(place)
            }
            None => 0,
        }
    }

    /// How many live tokens the first rows have, so many.
    pub(crate) fn tokens_up_to(&self, count: usize) -> usize
        requires { count ≤ length self.now }
        ensures { result ≡ count_tokens (rows_of {K = K} (take count self.now)) }
    {
        match blocks_up_to(self.blocks.as_slice(), count).checked_sub(1) {
            Some(number) => {
                let block = &self.blocks[number];
                block.tokens_before() + block.tokens_up_to(count - block.rows_before())
            }
            None => 0,
        }
    }

    /// The row with which the live token with the index begins, by halves. Where there is no such token, it is how many
    /// rows there are.
    pub(crate) fn row_of_token(&self, index: usize) -> usize
        ensures { BeginsToken (rows_of {K = K} self.now) index result }
    {
        let mut row = 0;
        let mut end = self.len();
        while row < end {
            let middle = row + (end - row) / 2;
            if self.tokens_up_to(middle + 1) <= index {
                row = middle + 1;
            } else {
                end = middle;
            }
        }
        row
    }

    /// How many items of each list they have found.
    pub(crate) fn found_up_to(&self, count: usize) -> Result<FoundCounts, AllocError>
        requires { count ≤ length self.now }
        ensures { IfOk result
            (λ counts. counts ≡ counts_in (found_by (rows_of {K = K} (take count self.now)))) }
    {
        let blocks = self.blocks.as_slice();
        match blocks_up_to(blocks, count).checked_sub(1) {
            Some(number) => {
                let block = &blocks[number];
                let counts = found_in_blocks(&blocks[..number])?;
                block.found_up_to(counts, count - block.rows_before())
            }
            None => Ok(FoundCounts::none()),
        }
    }

    /// Adds copies of the rows from one index up to another, moved.
    fn add_copies(
        &self,
        alloc: Global,
        entries: &mut Vec<Entry<K>>,
        start: usize,
        end: usize,
        shift: &Shift,
    ) -> Result<(), AllocError>
        requires ordered { start ≤ end }
        requires inside { end ≤ length self.now }
        requires moves { AllByRecursion (MovesEntry {K = K} shift.now.from shift.now.to) (drop start self.now) }
        ensures { OnOk result (entries.new.items ≡ entries.old.items
            ++ map (shifted_entry {K = K} shift.now.from shift.now.to) (take (end - start) (drop start self.now))) }
    {
        let mut index = start;
        while index < end {
            let held = self.at(index);
            let entry = held.moved(alloc, shift)?;
            entries.push(entry)?;
            index += 1;
        }
        Ok(())
    }

    /// The rows from `low` up to `start`, those that are put behind them, and the rows from `end` up to `high`, moved.
    fn between(
        &self,
        alloc: Global,
        low: usize,
        start: usize,
        rows: Vec<Entry<K>>,
        end: usize,
        high: usize,
        shift: &Shift,
    ) -> Result<Vec<Entry<K>>, AllocError>
        requires before { low ≤ start }
        requires ordered { start ≤ end }
        requires behind { end ≤ high }
        requires inside { high ≤ length self.now }
        requires fits { AllByRecursion (MovesEntry {K = K} 0 0) self.now }
        requires moves { AllByRecursion (MovesEntry {K = K} shift.now.from shift.now.to) (drop end self.now) }
        ensures { IfOk result (λ entries. entries.items ≡ take (start - low) (drop low self.now) ++ rows.items
            ++ map (shifted_entry {K = K} shift.now.from shift.now.to) (take (high - end) (drop end self.now))) }
    {
        let mut entries = Vec::new(alloc);
        self.add_copies(alloc, &mut entries, low, start, &Shift { from: 0, to: 0 })?;
        let mut rows = rows;
        entries.append(&mut rows)?;
        self.add_copies(alloc, &mut entries, end, high, shift)?;
        Ok(entries)
    }

    /// Puts rows in the place of those from one index up to another, and moves those behind. Rows of no more than two
    /// blocks are copied for it. Where there is no memory for it, all stay as they were.
    pub(crate) fn replace(
        &mut self,
        alloc: Global,
        start: usize,
        end: usize,
        rows: Vec<Entry<K>>,
        shift: &Shift,
    ) -> Result<(), AllocError>
        requires ordered { start ≤ end }
        requires inside { end ≤ length self.old }
        requires fits { AllByRecursion (MovesEntry {K = K} 0 0) self.old }
        requires rows { AllByRecursion (MovesEntry {K = K} 0 0) rows.items }
        requires moves { AllByRecursion (MovesEntry {K = K} shift.now.from shift.now.to) (drop end self.old) }
        ensures ok { OnOk result (self.new ≡ take start self.old ++ rows.items
            ++ map (shifted_entry {K = K} shift.now.from shift.now.to) (drop end self.old)) }
        ensures err { OnErr result (self.new ≡ self.old) }
    {
        let len = sum_of(self.len - (end - start), rows.len())?;
        let range = blocks_around(self.blocks.as_slice(), start, end, self.len);
        let entries = self.between(alloc, range.low, start, rows, end, range.high, shift)?;
        let size = block_size(entries.len());
        let between = blocks_of(alloc, entries, size)?;
        put_between(&mut self.blocks, range.from, range.to, between, shift)?;
        self.len = len;
        Ok(())
    }
}
