//! A block of places with the allocator that it goes back to.
ghost use Rattle.std.specs.Prelude.{◌≡◌, ◌<◌, ◌≤◌, take, slice_index_or, slice_set, IsTrue, false, true};
ghost use Rattle.std.specs.Prelude.{IfOk, OnOk, OnErr};
ghost use Rattle.std.specs.Mem.Slots.{slots_items, slots_filled, slots_ptr, slots_len, SamePlaces};
ghost use Rattle.std.specs.Mem.Slots.Ownership.{Filled};
ghost use Rattle.js_places.specs.Places.{IsEmptyFrom};

use crate::raw::{Base, Deed, allocate, deallocate, hollow, view};
use core::slots::Slots;
use std::alloc::{AllocError, Global};
use std_alloc::room::may_hold;

/// The least number of places of a block that grows.
const LEAST_PLACES: usize = 4;

/// A row of places, each empty or with an item. It has no memory where there are no places.
pub struct Block<T> {
    pub(crate) row: Slots<T>,
    base: Base<T>,
    deed: Deed<T, Global>,
    alloc: Global,
    ghost begins: { base.ptr ≡ slots_ptr row },
    ghost owned: { (deed.at ≡ slots_ptr row) × (deed.len ≡ slots_len row) × (deed.alloc ≡ alloc) },
}

impl<T> Block<T> {
    /// No places.
    pub(crate) fn empty(alloc: Global) -> Block<T>
        ensures len { slots_len result.row ≡ 0 }
        ensures filled { IsEmptyFrom (slots_filled result.row) 0 }
    {
        let (row, base, deed) = hollow(&alloc);
        Block {
            row,
            base,
            deed,
            alloc,
        }
    }

    /// So many empty places. The clause `some` asks for a value of `T`, which nothing reads.
    pub(crate) fn with_len(alloc: Global, len: usize) -> Result<Block<T>, AllocError>
        requires some { T }
        ensures len { IfOk result (λ b. slots_len b.row ≡ len) }
        ensures filled { IfOk result (λ b. IsEmptyFrom (slots_filled b.row) 0) }
    {
        if len == 0 {
            return Ok(Block::empty(alloc));
        }
        if !may_hold::<T>(len) {
            return Err(AllocError);
        }
        let (row, base, deed) = allocate(&alloc, len)?;
        Ok(Block {
            row,
            base,
            deed,
            alloc,
        })
    }

    /// How many places there are.
    #[inline]
    pub(crate) fn len(&self) -> usize
        ensures { result ≡ slots_len self.now.row }
    {
        self.row.len()
    }

    /// The items in the first `count` places.
    #[inline]
    pub(crate) fn first(&self, count: usize) -> &[T]
        requires { (count ≤ slots_len self.now.row) × Filled (slots_filled self.now.row) 0 count }
        ensures { result.now ≡ take count (slots_items self.now.row) }
    {
        view(&self.row, self.base, count)
    }

    /// Puts an item in an empty place.
    #[inline]
    pub(crate) fn put(&mut self, at: usize, item: T)
        requires place { at < slots_len self.old.row }
        requires empty { slice_index_or (slots_filled self.old.row) at false ≡ false }
        ensures items { slots_items self.new.row ≡ slice_set (slots_items self.old.row) at item }
        ensures filled { slots_filled self.new.row ≡ slice_set (slots_filled self.old.row) at true }
        ensures len { slots_len self.new.row ≡ slots_len self.old.row }
    {
        self.row.put(at, item);
    }

    /// Takes the item of a place, which is empty then.
    #[inline]
    pub(crate) fn take(&mut self, at: usize) -> T
        requires { (at < slots_len self.old.row) × IsTrue (slice_index_or (slots_filled self.old.row) at false) }
        ensures value { result ≡ slice_index_or (slots_items self.old.row) at result }
        ensures items { slots_items self.new.row ≡ slots_items self.old.row }
        ensures filled { slots_filled self.new.row ≡ slice_set (slots_filled self.old.row) at false }
        ensures len { slots_len self.new.row ≡ slots_len self.old.row }
    {
        self.row.take(at)
    }

    /// Drops the items from the place `from` on. The first `count` places hold items, and no other.
    #[inline]
    pub(crate) fn cut(&mut self, from: usize, count: usize)
    where
        T: Drop,
        requires filled { (count ≤ slots_len self.old.row) × Filled (slots_filled self.old.row) 0 count }
        requires all { IsEmptyFrom (slots_filled self.old.row) count }
        requires ordered { from ≤ count }
        ensures items { slots_items self.new.row ≡ slots_items self.old.row }
        ensures filled { Filled (slots_filled self.new.row) 0 from }
        ensures all { IsEmptyFrom (slots_filled self.new.row) from }
        ensures len { slots_len self.new.row ≡ slots_len self.old.row }
    {
        drop_behind(&mut self.row, from, count);
    }

    /// Moves the first `count` items, which are all, to a block of at least `len` places, and of twice as many as now.
    /// Where there is no memory for it, all stays as it was.
    #[inline(never)]
    pub(crate) fn grow(&mut self, count: usize, len: usize) -> Result<(), AllocError>
        requires some { T }
        requires filled { (count ≤ slots_len self.old.row) × Filled (slots_filled self.old.row) 0 count }
        requires all { IsEmptyFrom (slots_filled self.old.row) count }
        requires room { count ≤ len }
        ensures items { OnOk result (take count (slots_items self.new.row) ≡ take count (slots_items self.old.row)) }
        ensures filled { OnOk result (Filled (slots_filled self.new.row) 0 count) }
        ensures all { OnOk result (IsEmptyFrom (slots_filled self.new.row) count) }
        ensures len { OnOk result (len ≤ slots_len self.new.row) }
        ensures err { OnErr result (self.new ≡ self.old) }
    {
        let wanted = len.max(self.len().saturating_mul(2)).max(LEAST_PLACES);
        let mut larger = Block::with_len(self.alloc, wanted)?;
        move_items(&mut self.row, &mut larger.row, count);
        std::mem::replace(self, larger).free();
        Ok(())
    }

    /// Gives the block back. No place holds an item, since none would be dropped.
    pub(crate) fn free(self)
        requires { IsEmptyFrom (slots_filled self.row) 0 }
    {
        let Block {
            row,
            base: _,
            deed,
            alloc,
        } = self;
        deallocate(&alloc, row, deed);
    }
}

/// Moves the first `count` items, which are all, to the same places of a row that has none.
fn move_items<T>(row: &mut Slots<T>, other: &mut Slots<T>, count: usize)
    requires filled { (count ≤ slots_len row.old) × Filled (slots_filled row.old) 0 count }
    requires all { IsEmptyFrom (slots_filled row.old) count }
    requires room { count ≤ slots_len other.old }
    requires empty { IsEmptyFrom (slots_filled other.old) 0 }
    ensures items { take count (slots_items other.new) ≡ take count (slots_items row.old) }
    ensures filled { Filled (slots_filled other.new) 0 count }
    ensures all { IsEmptyFrom (slots_filled other.new) count }
    ensures empty { IsEmptyFrom (slots_filled row.new) 0 }
    ensures places { SamePlaces row.old row.new × SamePlaces other.old other.new }
{
    for at in 0..count {
        row.move_to(at, other, at);
    }
}

/// Drops the items from the place `from` on. The first `count` places hold items, and no other.
#[inline]
fn drop_behind<T: Drop>(row: &mut Slots<T>, from: usize, count: usize)
    requires filled { (count ≤ slots_len row.old) × Filled (slots_filled row.old) 0 count }
    requires all { IsEmptyFrom (slots_filled row.old) count }
    requires ordered { from ≤ count }
    ensures items { slots_items row.new ≡ slots_items row.old }
    ensures filled { Filled (slots_filled row.new) 0 from }
    ensures all { IsEmptyFrom (slots_filled row.new) from }
    ensures places { SamePlaces row.old row.new }
{
    let mut left = count;
    while from < left {
        left -= 1;
        drop(row.take(left));
    }
}
