//! A list of rows.

ghost use Rattle.std.specs.Prelude.{◌≡◌, ◌<◌, ◌≤◌, ◌↔◌, ◌==◌, List, [], ◌∷◌, ◌++◌, length, map, take, drop};
ghost use Rattle.std.specs.Prelude.{option_to_list, IsSome, IfOk, OnOk, OnErr};
ghost use Rattle.std.specs.List.{AllByRecursion};
ghost use Rattle.js_session.specs.Shifted.{shifted_row, ShiftFits};

use crate::row::Row;
use crate::shift::Shift;
use std::alloc::{AllocError, Global};
use std::marker::Model;

/// A growing list of rows. It keeps its allocator.
#[derive(Drop)]
pub struct RowList {
    items: Vec<Row>,
}

impl Model for RowList {
    ghost use Rattle.std.specs.Prelude.{List};
    ghost use Rattle.js_session.specs.declared.row.Row.{Row};

    ghost Value = { List Row };

    ghost view = { λ l. l.items.items };
}

impl RowList {
    /// A list of no rows. It needs no memory yet.
    pub fn new_in(alloc: Global) -> RowList
        ensures { result ≡ [] }
    {
        RowList {
            items: Vec::new(alloc),
        }
    }

    /// A list of no rows, with room for so many where there is memory for it.
    pub(crate) fn with_room(alloc: Global, rows: usize) -> RowList
        ensures { result ≡ [] }
    {
        match Vec::with_capacity(alloc, rows) {
            Ok(items) => RowList { items },
            Err(_) => RowList::new_in(alloc),
        }
    }

    /// The rows as a vector.
    pub fn into_vec(self) -> Vec<Row>
        ensures { result.items ≡ self }
    {
        let RowList { items } = self;
        items
    }

    /// How many rows there are.
    pub fn len(&self) -> usize
        ensures { result ≡ length self.now }
    {
        self.items.len()
    }

    /// Whether there is no row.
    pub fn is_empty(&self) -> bool
        ensures { result ≡ (length self.now == 0) }
    {
        self.items.is_empty()
    }

    /// The rows, in the order in which they were added.
    pub fn as_slice(&self) -> &[Row]
        ensures { result.now ≡ self.now }
    {
        self.items.as_slice()
    }

    /// Adds a row at the end. Where there is no memory for it, the list stays as it was.
    pub fn push(&mut self, item: Row) -> Result<(), AllocError>
        ensures ok { OnOk result (self.new ≡ self.old ++ item ∷ []) }
        ensures err { OnErr result (self.new ≡ self.old) }
    {
        self.items.push(item)?;
        Ok(())
    }

    /// Takes the last row, if there is one.
    pub fn pop(&mut self) -> Option<Row>
        ensures found { IsSome result ↔ (0 < length self.old) }
        ensures items { self.old ≡ self.new ++ option_to_list result }
    {
        self.items.pop()
    }

    /// Keeps the first `len` rows; a shorter list stays as it is.
    pub fn truncate(&mut self, len: usize)
        ensures { self.new ≡ take len self.old }
    {
        self.items.truncate(len);
    }

    /// Puts the rows in the place of those from `start` up to `end`. Where there is no memory for it, the list stays as
    /// it was.
    pub fn replace(&mut self, start: usize, end: usize, rows: RowList) -> Result<(), AllocError>
        requires ordered { start ≤ end }
        requires inside { end ≤ length self.old }
        ensures ok { OnOk result (self.new ≡ take start self.old ++ rows ++ drop end self.old) }
        ensures err { OnErr result (self.new ≡ self.old) }
    {
        self.items.splice(start..end, rows.into_vec())?;
        Ok(())
    }

    /// Moves each row from `index` on in its place; behind the last row there is none. It takes no memory.
    pub fn shift_behind(&mut self, index: usize, shift: &Shift)
        requires fits { AllByRecursion (ShiftFits shift.now.from shift.now.to) (drop index self.old) }
        requires ordered { AllByRecursion (λ row. row.token.start ≤ row.token.end) (drop index self.old) }
        ensures { self.new ≡ take index self.old
            ++ map (shifted_row shift.now.from shift.now.to) (drop index self.old) }
    {
        if index < self.items.len() {
            shift.move_each_row(&mut self.items[index..]);
        }
    }

    /// An equal list.
    pub fn copy(&self, alloc: Global) -> Result<RowList, AllocError>
        ensures { IfOk result (λ l. l ≡ self.now) }
    {
        let mut copied = RowList::new_in(alloc);
        for row in self.items.iter() {
            copied.push(row.copy(alloc)?)?;
        }
        Ok(copied)
    }
}
