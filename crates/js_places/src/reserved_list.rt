//! Lists whose places are reserved beforehand.

ghost use Rattle.std.specs.Prelude.{◌≡◌, ◌<◌, ◌≤◌, ◌+◌, ◌-◌, ◌↔◌, [], ◌∷◌, ◌++◌, length, take};
ghost use Rattle.std.specs.Prelude.{IsSome, IfOk, OnOk, OnErr, max, option_to_list};
ghost use Rattle.js_text.specs.Lists.{with_last};

use crate::block::Block;
use std::alloc::{AllocError, Global};
use std::marker::Model;

/// A growing list with places behind it that are reserved: adding an item succeeds without memory while one is free.
pub struct ReservedList<T> {
    /// The items lie in its first places.
    block: Block<T>,
    /// How many items there are.
    used: usize,
    /// How many places hold an item or are free. Those behind them are kept for a later growth.
    limit: usize,
}

impl<T> Model for ReservedList<T> {
    ghost use Rattle.std.specs.Prelude.{◌≤◌, ◌-◌, take};
    ghost use Rattle.std.specs.Mem.Slots.{slots_items, slots_filled, slots_len};
    ghost use Rattle.std.specs.Mem.Slots.Ownership.{Filled};
    ghost use Rattle.js_places.specs.Places.{IsEmptyFrom};
    ghost use Rattle.js_places.specs.Reserved.{Reserved};

    ghost Value = { Reserved T };

    ghost view = { λ l. record {
      items = take l.used (slots_items l.block.row);
      free = l.limit - l.used;
    } };

    ghost invariant = { λ l.
        (l.used ≤ l.limit)
        × (l.limit ≤ slots_len l.block.row)
        × Filled (slots_filled l.block.row) 0 l.used
        × IsEmptyFrom (slots_filled l.block.row) l.used };
}

impl<T> ReservedList<T> {
    /// A list of no items and no places. It needs no memory yet.
    pub fn new_in(alloc: Global) -> ReservedList<T>
        ensures items { result.items ≡ [] }
        ensures free { result.free ≡ 0 }
    {
        ReservedList {
            block: Block::empty(alloc),
            used: 0,
            limit: 0,
        }
    }

    /// A list of no items with so many free places. Nothing is written to them.
    pub fn with_free(alloc: Global, free: usize) -> Result<ReservedList<T>, AllocError>
    where
        T: Default + Drop,
        ensures items { IfOk result (λ l. l.items ≡ []) }
        ensures free { IfOk result (λ l. l.free ≡ free) }
    {
        let _some = T::default();
        Ok(ReservedList {
            block: Block::with_len(alloc, free)?,
            used: 0,
            limit: free,
        })
    }

    /// How many items there are.
    #[inline]
    pub fn len(&self) -> usize
        ensures { result ≡ length self.now.items }
    {
        self.used
    }

    /// How many places are free.
    #[inline]
    pub fn free(&self) -> usize
        ensures { result ≡ self.now.free }
    {
        self.limit - self.used
    }

    /// The items, in the order in which they were added.
    #[inline]
    pub fn as_slice(&self) -> &[T]
        ensures { result.now ≡ self.now.items }
    {
        self.block.first(self.used)
    }

    /// Adds an item at the end, in a free place.
    #[inline]
    pub fn push_reserved(&mut self, item: T)
        requires { 0 < self.old.free }
        ensures items { self.new.items ≡ self.old.items ++ item ∷ [] }
        ensures free { self.new.free + 1 ≡ self.old.free }
    {
        self.block.put(self.used, item);
        self.used += 1;
    }

    /// Adds an item at the end. Only where no place is free it takes memory, and where there is none, the list stays as
    /// it was.
    #[inline]
    pub fn push(&mut self, item: T) -> Result<(), AllocError>
    where
        T: Drop,
        ensures ok { OnOk result (self.new ≡ record { items = self.old.items ++ item ∷ []; free = self.old.free - 1 }) }
        ensures err { OnErr result (self.new ≡ self.old) }
        ensures full { OnErr result (self.old.free ≡ 0) }
    {
        if self.used < self.limit {
            self.push_reserved(item);
            return Ok(());
        }
        let next = self.used.checked_add(1).ok_or(AllocError)?;
        if self.block.len() < next {
            self.block.grow(self.used, next)?;
        }
        self.block.put(self.used, item);
        self.used = next;
        self.limit = next;
        Ok(())
    }

    /// Puts the item in the place of the last one; an empty list stays as it is.
    #[inline]
    pub fn replace_last(&mut self, item: T)
    where
        T: Drop,
        ensures { self.new ≡ record self.old { items = with_last self.old.items item } }
    {
        if let Some(last) = self.used.checked_sub(1) {
            drop(self.block.take(last));
            self.block.put(last, item);
        }
    }

    /// Keeps the first `len` items, and drops the others, whose places are free then; a shorter list stays as it is.
    #[inline]
    pub fn truncate(&mut self, len: usize)
    where
        T: Drop,
        ensures { self.new ≡ record {
          items = take len self.old.items;
          free = self.old.free + (length self.old.items - len);
        } }
    {
        if self.used <= len {
            return;
        }
        self.block.cut(len, self.used);
        self.used = len;
    }

    /// Takes the last item, if there is one. Its place is free then.
    #[inline]
    pub fn pop(&mut self) -> Option<T>
        ensures found { IsSome result ↔ (0 < length self.old.items) }
        ensures items { self.old.items ≡ self.new.items ++ option_to_list result }
        ensures free { self.new.free ≡ self.old.free + length (option_to_list result) }
    {
        let last = self.used.checked_sub(1)?;
        self.used = last;
        Some(self.block.take(last))
    }

    /// Makes at least `more` places free. Where there is no memory for them, the list stays as it was.
    pub fn reserve(&mut self, more: usize) -> Result<(), AllocError>
    where
        T: Default + Drop,
        ensures items { self.new.items ≡ self.old.items }
        ensures ok { OnOk result (more ≤ self.new.free) }
        ensures free { self.old.free ≤ self.new.free }
        ensures exact { OnOk result (self.new.free ≡ max self.old.free more) }
        ensures err { OnErr result (self.new ≡ self.old) }
    {
        if more <= self.free() {
            return Ok(());
        }
        let wanted = self.used.checked_add(more).ok_or(AllocError)?;
        if self.block.len() < wanted {
            let _some = T::default();
            self.block.grow(self.used, wanted)?;
        }
        self.limit = wanted;
        Ok(())
    }

    /// Adds copies of the items at the end. Only where too few places are free it takes memory, and where there is none
    /// for all of them, the list stays as it was.
    pub fn extend_from_slice(&mut self, items: &[T]) -> Result<(), AllocError>
    where
        T: Copy + Default + Drop,
        ensures items { OnOk result (self.new.items ≡ self.old.items ++ items.now) }
        ensures free { OnOk result (self.new.free ≡ self.old.free - length items.now) }
        ensures err { OnErr result (self.new ≡ self.old) }
    {
        self.reserve(items.len())?;
        for item in items {
            self.push_reserved(*item);
        }
        Ok(())
    }

    /// Gives up the free places. The block keeps them for a later growth.
    #[inline]
    pub fn close(&mut self)
        ensures { self.new ≡ record self.old { free = 0 } }
    {
        self.limit = self.used;
    }
}

impl<T: Drop> Drop for ReservedList<T> {
    fn drop(mut self) {
        self.truncate(0);
        let ReservedList {
            block,
            used: _,
            limit: _,
        } = self;
        block.free();
    }
}
