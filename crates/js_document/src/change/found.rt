//! Which items an edit changes of what was found.

ghost use Rattle.std.specs.Prelude.{◌≡◌, ◌+◌, ◌-◌, ◌<◌, ◌≤◌, ◌^◌, ◌++◌, ℕ, length, map, drop, take, reverse, IfOk, OnOk};
ghost use Rattle.std.specs.List.{AllByRecursion};
ghost use Rattle.js_session.specs.Shifted.{ShiftFits, shifted_row};
ghost use Rattle.js_document.specs.Changed.{IsChange, MayChange};
ghost use Rattle.js_document.specs.Found.{found_in};
ghost use Rattle.js_document.specs.Gap.{around, entries_of, rows_of};

use super::ChangedRange;
use super::compared::changed_range;
use crate::found::FoundList;
use crate::gap::{Entry, GapRows};
use js_relex::Edit;
use js_text::ItemList;
use std::alloc::{AllocError, Global};

/// Adds what the rows have in the list.
fn add_found<K, L: FoundList>(
    items: &mut ItemList<L::Item>,
    entries: &[Entry<K>],
) -> Result<(), AllocError>
    ensures { OnOk result (items.new ≡ items.old ++ found_in L.items (rows_of {K = K} entries.now)) }
{
    for entry in entries {
        items.extend_from_slice(L::list(&entry.row))?;
    }
    Ok(())
}

/// Adds what the rows from one index up to another have in the list.
fn add_found_from<K: Copy + Drop, L: FoundList>(
    items: &mut ItemList<L::Item>,
    entries: &GapRows<K>,
    start: usize,
    end: usize,
) -> Result<(), AllocError>
    requires ordered { start ≤ end }
    requires inside { end ≤ length (entries_of {K = K} entries.now) }
    ensures { OnOk result (items.new ≡ items.old
        ++ found_in L.items (rows_of {K = K} (take (end - start) (drop start (entries_of {K = K} entries.now))))) }
{
    let mut index = start;
    while index < end {
        let entry = entries.at(index);
        entry.add_to::<L>(items)?;
        index += 1;
    }
    Ok(())
}

/// What the rows behind the gap have in the list, up to those that are left.
fn old_found<K: Copy + Drop, L: FoundList>(
    alloc: Global,
    entries: &GapRows<K>,
    left: usize,
) -> Result<ItemList<L::Item>, AllocError>
    requires { left ≤ length entries.now.back }
    ensures { IfOk result (λ items. items ≡ found_in L.items
        (map (shifted_row entries.now.pad 0) (reverse (rows_of {K = K} (drop left entries.now.back))))) }
{
    let mut items = ItemList::new_in(alloc);
    let end = entries.len() - left;
    add_found_from::<K, L>(&mut items, entries, entries.front_len(), end)?;
    Ok(items)
}

/// What the rows have in the list.
fn new_found<K, L: FoundList>(
    alloc: Global,
    entries: &[Entry<K>],
) -> Result<ItemList<L::Item>, AllocError>
    ensures { IfOk result (λ items. items ≡ found_in L.items (rows_of {K = K} entries.now)) }
{
    let mut items = ItemList::new_in(alloc);
    add_found::<K, L>(&mut items, entries)?;
    Ok(items)
}

/// The items of the list that went and came, where these rows are read behind those before the gap, which have so many
/// items in it, and so many of the rows behind it are left.
pub(super) fn changed_found<K: Copy + Drop, L: FoundList>(
    alloc: Global,
    entries: &GapRows<K>,
    read: &[Entry<K>],
    left: usize,
    edit: &Edit<'_>,
    start: usize,
) -> Result<ChangedRange, AllocError>
    requires few { left ≤ length entries.now.back }
    requires short { edit.now.start + length edit.now.text.now < 2 ^ 32 }
    requires fits { AllByRecursion (ShiftFits edit.now.end (edit.now.start + length edit.now.text.now))
        (rows_of {K = K} (entries_of {K = K} entries.now)) }
    ensures { (pad : ℕ) → MayChange {K = K} edit.now.start edit.now.end edit.now.text.now entries.now left pad
        → start ≡ length (found_in L.items (rows_of {K = K} entries.now.front))
        → IfOk result (λ range. IsChange (L.Item.EndsBy edit.now.start) (L.Item.StartsFrom edit.now.end)
        (L.Item.shifted edit.now.end (edit.now.start + length edit.now.text.now))
        (found_in L.items (rows_of {K = K} (entries_of {K = K} entries.now)))
        (found_in L.items (rows_of {K = K}
        (around {K = K} (entries.now.front ++ read.now) pad (take left entries.now.back))))
        range.start range.old_end range.new_end) }
{
    let old = old_found::<K, L>(alloc, entries, left)?;
    let new = new_found::<K, L>(alloc, read)?;
    changed_range(start, old.as_slice(), new.as_slice(), edit)
}
