//! A row that is held with its places as they were once.

ghost use Rattle.std.specs.Prelude.{◌≡◌, ◌+◌, ◌<◌, ◌^◌, ◌++◌, map, slice_get, IfOk, IfSome, OnOk};
ghost use Rattle.std.specs.List.{AllByRecursion};
ghost use Rattle.js_session.specs.Shifted.{shifted_value, FitsShifted, OfValue};
ghost use Rattle.js_lists.specs.Taken.{value_handed};
ghost use Rattle.js_document.specs.Blocks.{MovesEntry};
ghost use Rattle.js_document.specs.Gap.{MayPad, reads_again, reads_on, shifted_entry};

use crate::found::FoundList;
use crate::gap::{Entry, reads_again, reads_on};
use crate::placed::Placed;
use js_kind::Token;
use js_lists::TokenValue;
use js_session::{Row, Shift};
use js_text::{ItemList, RowValue};
use std::alloc::{AllocError, Global};
use std::marker::Model;

/// A row as it is held, with what is known behind it, and how its places have moved since. It is seen as the row with its
/// places in the text: these are moved as they are read.
#[derive(Drop)]
pub(crate) struct Held<'d, K> {
    entry: &'d Entry<K>,
    shift: Shift,
}

impl<'d, K> Model for Held<'d, K> {
    ghost use Rattle.js_document.specs.Blocks.{MovesEntry};
    ghost use Rattle.js_document.specs.Gap.{shifted_entry};
    ghost use Rattle.js_document.specs.declared.gap.Entry.{Entry};

    ghost Value = { Entry K };

    ghost view = { λ h. shifted_entry {K = K} h.shift.from h.shift.to h.entry.now };

    ghost invariant = { λ h. MovesEntry {K = K} h.shift.from h.shift.to h.entry.now };
}

/// The item with this index of what the row has in the list.
fn item_of<L: FoundList>(row: &Row, index: usize) -> Option<L::Item>
    ensures item { result ≡ slice_get (L.items row.now) index }
    ensures few { IfSome result (λ _. index + 1 < 2 ^ 64) }
{
    let items = L::list(row);
    if index >= items.len() {
        return None;
    }
    Some(items[index])
}

/// Adds the items, moved.
fn add_moved<T: Placed>(
    items: &mut ItemList<T>,
    found: &[T],
    shift: &Shift,
) -> Result<(), AllocError>
    requires { AllByRecursion (T.MayMove shift.now.from shift.now.to) found.now }
    ensures { OnOk result (items.new ≡ items.old ++ map (T.shifted shift.now.from shift.now.to) found.now) }
{
    for item in found {
        items.push(item.moved(shift))?;
    }
    Ok(())
}

/// The value of a row as it is handed over, moved.
fn handed<'d>(value: &'d RowValue, shift: &Shift) -> TokenValue<'d>
    requires { OfValue (FitsShifted shift.now.from shift.now.to) value.now }
    ensures { value_handed result ≡ shifted_value shift.now.from shift.now.to value.now }
{
    match value {
        RowValue::Nothing => TokenValue::Nothing,
        RowValue::Slice(span) => TokenValue::Slice(span.moved(shift)),
        RowValue::Units(text) => TokenValue::Units(text),
        RowValue::Bad => TokenValue::Bad,
    }
}

impl<'d, K: Copy + Drop> Held<'d, K> {
    /// The entry, whose places have moved so.
    pub(crate) fn new(entry: &'d Entry<K>, shift: Shift) -> Held<'d, K>
        requires { MovesEntry {K = K} shift.from shift.to entry.now }
        ensures { result ≡ shifted_entry {K = K} shift.from shift.to entry.now }
    {
        Held { entry, shift }
    }

    /// The same with its places padded.
    pub(crate) fn padded(self, pad: u32) -> Held<'d, K>
        requires { MayPad {K = K} pad self }
        ensures { result ≡ shifted_entry {K = K} 0 pad self.entry }
    {
        let Held { entry, shift } = self;
        let to = shift.to + pad;
        Held {
            entry,
            shift: Shift {
                from: shift.from,
                to,
            },
        }
    }

    /// Its token.
    pub(crate) fn token(&self) -> Token
        ensures { result ≡ self.now.row.token }
    {
        let mut token = self.entry.row.token;
        self.shift.move_token(&mut token);
        token
    }

    /// What is known behind it.
    pub(crate) fn state(&self) -> K
        ensures { result ≡ self.now.state }
    {
        self.entry.state
    }

    /// The row with its places as they were once: its command, and whether that was carried out, are the same.
    pub(crate) fn row(&self) -> &Row
        ensures command { result.now.command ≡ self.now.row.command }
        ensures taken { result.now.taken ≡ self.now.row.taken }
    {
        &self.entry.row
    }

    /// Whether it reads a token behind the last one.
    pub(crate) fn reads_on(&self) -> bool
        ensures { result ≡ reads_on self.now.row }
    {
        reads_on(&self.entry.row)
    }

    /// Whether it reads the last token again.
    pub(crate) fn reads_again(&self) -> bool
        ensures { result ≡ reads_again self.now.row }
    {
        reads_again(&self.entry.row)
    }

    /// The value of its token.
    pub(crate) fn value(&self) -> TokenValue<'d>
        ensures { value_handed result ≡ self.now.row.value }
    {
        handed(&self.entry.row.value, &self.shift)
    }

    /// A copy of its row.
    pub(crate) fn copied_row(&self, alloc: Global) -> Result<Row, AllocError>
        ensures { IfOk result (λ row. row ≡ self.now.row) }
    {
        self.shift.moved_row(alloc, &self.entry.row)
    }

    /// A copy of it, moved.
    pub(crate) fn moved(&self, alloc: Global, shift: &Shift) -> Result<Entry<K>, AllocError>
        requires { MovesEntry {K = K} shift.now.from shift.now.to self.now }
        ensures { IfOk result (λ entry. entry ≡ shifted_entry {K = K} shift.now.from shift.now.to self.now) }
    {
        let mut row = self.copied_row(alloc)?;
        shift.move_row(&mut row);
        let state = self.entry.state;
        Ok(Entry { row, state })
    }

    /// The item with this index of what it has in the list.
    pub(crate) fn item<L: FoundList>(&self, index: usize) -> Option<L::Item>
        ensures item { result ≡ slice_get (L.items self.now.row) index }
        ensures few { IfSome result (λ _. index + 1 < 2 ^ 64) }
    {
        match item_of::<L>(&self.entry.row, index) {
            Some(item) => Some(item.moved(&self.shift)),
            None => None,
        }
    }

    /// Adds what it has in the list.
    pub(crate) fn add_to<L: FoundList>(
        &self,
        items: &mut ItemList<L::Item>,
    ) -> Result<(), AllocError>
        ensures { OnOk result (items.new ≡ items.old ++ L.items self.now.row) }
    {
        add_moved(items, L::list(&self.entry.row), &self.shift)
    }
}
