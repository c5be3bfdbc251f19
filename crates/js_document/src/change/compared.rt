//! Lists that are compared from both ends.

ghost use Rattle.std.specs.Prelude.{◌↔◌, ◌+◌, ◌<◌, ◌≤◌, ◌^◌, length, reverse, IfOk, IsTrue};
ghost use Rattle.std.specs.List.{AllByRecursion};
ghost use Rattle.js_document.specs.Changed.{AreCommon, IsChangeBetween, IsSameBefore, IsSameBehind};

use super::ChangedRange;
use crate::counts::sum_of;
use crate::placed::Placed;
use js_relex::{Edit, shift_of};
use js_session::Shift;
use std::alloc::AllocError;

/// Whether the item stands before the place, and is the same.
fn is_same_before<T: Placed>(old: &T, new: &T, start: u32) -> bool
    ensures { IsTrue result ↔ IsSameBefore (T.EndsBy start) old.now new.now }
{
    if !old.ends_by(start) {
        return false;
    }
    new.is_equal(old)
}

/// Whether the item stands behind what is moved, and is the same, moved.
fn is_same_behind<T: Placed>(old: &T, new: &T, shift: &Shift) -> bool
    requires { T.MayMove shift.now.from shift.now.to old.now }
    ensures { IsTrue result ↔ IsSameBehind (T.StartsFrom shift.now.from) (T.shifted shift.now.from shift.now.to)
        old.now new.now }
{
    if !old.starts_from(shift.from) {
        return false;
    }
    let moved = old.moved(shift);
    new.is_equal(&moved)
}

/// How many items at the front of both lists stand before the place and are the same.
fn same_before<T: Placed>(old: &[T], new: &[T], start: u32) -> usize
    ensures few_old { result ≤ length old.now }
    ensures few_new { result ≤ length new.now }
    ensures common { AreCommon (IsSameBefore (T.EndsBy start)) old.now new.now result }
{
    let mut count = 0;
    while count < old.len() {
        if count >= new.len() {
            return count;
        }
        if !is_same_before(&old[count], &new[count], start) {
            return count;
        }
        count += 1;
    }
    count
}

/// How many items at the end of both lists stand behind what is moved and are the same, moved.
fn same_behind<T: Placed>(old: &[T], new: &[T], shift: &Shift) -> usize
    requires { AllByRecursion (T.MayMove shift.now.from shift.now.to) old.now }
    ensures few_old { result ≤ length old.now }
    ensures few_new { result ≤ length new.now }
    ensures common { AreCommon
        (IsSameBehind (T.StartsFrom shift.now.from) (T.shifted shift.now.from shift.now.to)) (reverse old.now)
        (reverse new.now) result }
{
    let mut count = 0;
    while count < old.len() {
        if count >= new.len() {
            return count;
        }
        let old_item = &old[old.len() - 1 - count];
        let new_item = &new[new.len() - 1 - count];
        if !is_same_behind(old_item, new_item, shift) {
            return count;
        }
        count += 1;
    }
    count
}

/// Which items went and came, of lists that stand in one another's place from the index on.
pub(super) fn changed_range<T: Placed>(
    start: usize,
    old: &[T],
    new: &[T],
    edit: &Edit<'_>,
) -> Result<ChangedRange, AllocError>
    requires short { edit.now.start + length edit.now.text.now < 2 ^ 32 }
    requires may_move { AllByRecursion (T.MayMove edit.now.end (edit.now.start + length edit.now.text.now)) old.now }
    ensures { IfOk result (IsChangeBetween (T.EndsBy edit.now.start) (T.StartsFrom edit.now.end)
        (T.shifted edit.now.end (edit.now.start + length edit.now.text.now)) start old.now new.now) }
{
    let shift = shift_of(edit);
    let before = same_before(old, new, edit.start);
    let behind = same_behind(&old[before..], &new[before..], &shift);
    Ok(ChangedRange {
        start: sum_of(start, before)?,
        old_end: sum_of(start, old.len() - behind)?,
        new_end: sum_of(start, new.len() - behind)?,
    })
}
