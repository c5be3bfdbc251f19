//! Blocks that stand one behind the other, each with how many rows stand before it.

ghost use Rattle.std.specs.Prelude.{◌≡◌, ◌+◌, ◌<◌, ◌≤◌, ◌^◌, ◌++◌, length, map, take, drop, IfOk, OnErr, OnOk};
ghost use Rattle.std.specs.List.{AllByRecursion, splice};
ghost use Rattle.js_document.specs.Blocks.{AreNumbered, BeginUpTo, HasRows, HaveRows, MovesBlock, MovesEntry, entries_in};
ghost use Rattle.js_document.specs.Blocks.{moved_block, numbered};
ghost use Rattle.js_document.specs.Found.{counts_in, found_by};
ghost use Rattle.js_document.specs.Gap.{rows_of};

use super::block::Block;
use crate::counts::FoundCounts;
use crate::gap::Entry;
use js_session::Shift;
use std::alloc::{AllocError, Global};

/// How many rows a block has at most when it is made.
const ROOM: usize = 64;

/// How many rows each block has at most that so many are put into, so that all have about as many.
pub(super) fn block_size(rows: usize) -> usize
    ensures { 0 < result }
{
    let blocks = rows / ROOM + 1;
    (rows / blocks).saturating_add(1)
}

/// Makes the rows a block behind the others, if they are so many, and gives those that are none.
fn close_full<K: Copy + Drop>(
    alloc: Global,
    blocks: &mut Vec<Block<K>>,
    rows: Vec<Entry<K>>,
    size: usize,
) -> Result<Vec<Entry<K>>, AllocError>
    requires size { 0 < size }
    requires moves { AllByRecursion (MovesEntry {K = K} 0 0) rows.items }
    requires some { AllByRecursion (HasRows {K = K}) blocks.old.items }
    ensures entries { IfOk result (λ left. entries_in {K = K} blocks.new.items ++ left.items
        ≡ entries_in {K = K} blocks.old.items ++ rows.items) }
    ensures few { IfOk result (λ left. length left.items < size) }
    ensures moves { IfOk result (λ left. AllByRecursion (MovesEntry {K = K} 0 0) left.items) }
    ensures some { OnOk result (AllByRecursion (HasRows {K = K}) blocks.new.items) }
{
    if rows.len() < size {
        return Ok(rows);
    }
    let block = Block::new(rows)?;
    blocks.push(block)?;
    Vec::with_capacity(alloc, size)
}

/// The rows in blocks, each of so many.
pub(super) fn blocks_of<K: Copy + Drop>(
    alloc: Global,
    entries: Vec<Entry<K>>,
    size: usize,
) -> Result<Vec<Block<K>>, AllocError>
    requires size { 0 < size }
    requires moves { AllByRecursion (MovesEntry {K = K} 0 0) entries.items }
    ensures entries { IfOk result (λ blocks. entries_in {K = K} blocks.items ≡ entries.items) }
    ensures some { IfOk result (λ blocks. AllByRecursion (HasRows {K = K}) blocks.items) }
{
    let mut blocks = Vec::new(alloc);
    let mut rows = Vec::with_capacity(alloc, size)?;
    for entry in entries {
        rows.push(entry)?;
        rows = close_full(alloc, &mut blocks, rows, size)?;
    }
    let _none = close_full(alloc, &mut blocks, rows, 1)?;
    Ok(blocks)
}

/// Tells each of the blocks how many rows and live tokens stand before it.
pub(super) fn number_blocks<K: Copy + Drop>(blocks: &mut [Block<K>])
    requires { length (entries_in {K = K} blocks.old) < 2 ^ 64 }
    ensures { blocks.new ≡ numbered {K = K} 0 0 blocks.old }
{
    let mut rows = 0;
    let mut tokens = 0;
    for block in blocks.iter_mut() {
        block.number(rows, tokens);
        rows += block.len();
        tokens += block.tokens();
    }
}

/// Moves each of the blocks.
fn move_blocks<K: Copy + Drop>(blocks: &mut [Block<K>], shift: &Shift)
    requires { AllByRecursion (MovesBlock {K = K} shift.now.from shift.now.to) blocks.old }
    ensures { blocks.new ≡ map (moved_block {K = K} shift.now.from shift.now.to) blocks.old }
{
    for block in blocks.iter_mut() {
        block.move_by(shift);
    }
}

/// How many blocks begin at the row with the index or before it.
pub(super) fn blocks_up_to<K: Copy + Drop>(blocks: &[Block<K>], index: usize) -> usize
    requires { AreNumbered {K = K} 0 0 blocks.now }
    ensures { BeginUpTo {K = K} blocks.now index result }
{
    blocks.partition_point(|block| block.rows_before() <= index)
}

/// How many rows stand before the block with the number, where there are so many in all.
fn rows_before<K: Copy + Drop>(blocks: &[Block<K>], number: usize, len: usize) -> usize
    requires numbered { AreNumbered {K = K} 0 0 blocks.now }
    requires all { len ≡ length (entries_in {K = K} blocks.now) }
    ensures { result ≡ length (entries_in {K = K} (take number blocks.now)) }
{
    match blocks.get(number) {
        Some(block) => block.rows_before(),
        None => len,
    }
}

/// Blocks that stand one behind the other.
#[derive(Clone, Copy)]
pub(super) struct BlockRange {
    /// The number of the first of them.
    pub(super) from: usize,
    /// The number of the first one behind them.
    pub(super) to: usize,
    /// How many rows stand before them.
    pub(super) low: usize,
    /// How many rows there are up to the end of them.
    pub(super) high: usize,
}

/// The blocks that the rows from one index up to another stand in, where there are so many rows in all.
pub(super) fn blocks_around<K: Copy + Drop>(
    blocks: &[Block<K>],
    start: usize,
    end: usize,
    len: usize,
) -> BlockRange
    requires numbered { AreNumbered {K = K} 0 0 blocks.now }
    requires all { len ≡ length (entries_in {K = K} blocks.now) }
    requires ordered { start ≤ end }
    requires inside { end ≤ len }
    ensures { HaveRows {K = K} blocks.now start end result }
{
    let from = blocks_up_to(blocks, start).saturating_sub(1);
    let to = blocks_up_to(blocks, end);
    BlockRange {
        from,
        to,
        low: rows_before(blocks, from, len),
        high: rows_before(blocks, to, len),
    }
}

/// How many items of each list the rows of the blocks have found.
pub(super) fn found_in_blocks<K: Copy + Drop>(
    blocks: &[Block<K>],
) -> Result<FoundCounts, AllocError>
    ensures { IfOk result
        (λ counts. counts ≡ counts_in (found_by (rows_of {K = K} (entries_in {K = K} blocks.now)))) }
{
    let mut counts = FoundCounts::none();
    for block in blocks {
        counts = block.found_with(counts)?;
    }
    Ok(counts)
}

/// Moves the blocks from a number on, and tells each of all how many rows and live tokens stand before it.
fn settle<K: Copy + Drop>(blocks: &mut [Block<K>], behind: usize, shift: &Shift)
    requires inside { behind ≤ length blocks.old }
    requires moves { AllByRecursion (MovesBlock {K = K} shift.now.from shift.now.to) (drop behind blocks.old) }
    requires few { length (entries_in {K = K} blocks.old) < 2 ^ 64 }
    ensures { blocks.new ≡ numbered {K = K} 0 0
        (take behind blocks.old ++ map (moved_block {K = K} shift.now.from shift.now.to) (drop behind blocks.old)) }
{
    move_blocks(&mut blocks[behind..], shift);
    number_blocks(blocks);
}

/// Puts blocks in the place of those from one number up to another. Where there is no memory for it, all stay.
fn put_in<K: Copy + Drop>(
    blocks: &mut Vec<Block<K>>,
    from: usize,
    to: usize,
    between: Vec<Block<K>>,
) -> Result<(), AllocError>
    requires ordered { from ≤ to }
    requires inside { to ≤ length blocks.old.items }
    ensures ok { OnOk result (blocks.new.items ≡ splice blocks.old.items from to between.items) }
    ensures err { OnErr result (blocks.new.items ≡ blocks.old.items) }
{
    blocks.splice(from..to, between)?;
    Ok(())
}

/// Puts blocks in the place of those from one number up to another, and moves those behind. Where there is no memory for
/// it, all stay as they were.
pub(super) fn put_between<K: Copy + Drop>(
    blocks: &mut Vec<Block<K>>,
    from: usize,
    to: usize,
    between: Vec<Block<K>>,
    shift: &Shift,
) -> Result<(), AllocError>
    requires ordered { from ≤ to }
    requires inside { to ≤ length blocks.old.items }
    requires moves { AllByRecursion (MovesBlock {K = K} shift.now.from shift.now.to) (drop to blocks.old.items) }
    requires few { length (entries_in {K = K} (take from blocks.old.items)) + length (entries_in {K = K} between.items)
        + length (entries_in {K = K} (drop to blocks.old.items)) < 2 ^ 64 }
    ensures ok { OnOk result (blocks.new.items ≡ numbered {K = K} 0 0 (take from blocks.old.items ++ between.items
        ++ map (moved_block {K = K} shift.now.from shift.now.to) (drop to blocks.old.items))) }
    ensures err { OnErr result (blocks.new.items ≡ blocks.old.items) }
{
    let behind = from + between.len();
    put_in(blocks, from, to, between)?;
    settle(blocks.as_mut_slice(), behind, shift);
    Ok(())
}
