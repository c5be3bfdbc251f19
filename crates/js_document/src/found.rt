//! What rows found, list by list.

ghost use Rattle.std.specs.Prelude.{◌≡◌, ◌≤◌, ◌<◌, ℕ, List, map, refl};
ghost use Rattle.std.specs.Iterator.{YieldsFirst, item_count};
ghost use Rattle.std.specs.List.{All};
ghost use Rattle.js_session.specs.declared.row.Row.{Row};
ghost use Rattle.js_session.specs.Shifted.{OfEachPlace, ShiftFits, shifted_row};
ghost use Rattle.js_document.specs.Found.{found_in};
ghost use Rattle.js_document.specs.Gap.{entries_of, rows_of};

use crate::gap::GapRows;
use crate::placed::Placed;
use js_session::Row;
use js_text::{Comment, Diagnostic, Span};
use std::marker::{Model, PhantomData};

/// One of the lists of what rows found.
pub trait FoundList: Copy + Drop {
    type Item: Placed;

    /// What a row has in it.
    ghost items: { Row → List Self.Item };

    /// The items that the row has in it.
    fn list(row: &Row) -> &[Self::Item]
        ensures { result.now ≡ items row.now };

    /// What a row that is shifted has in it.
    ghost shifted_items: { (from to : ℕ) (row : Row)
        → items (shifted_row from to row) ≡ map (Self.Item.shifted from to) (items row) };

    /// What a row that may be moved has in it may be moved.
    ghost moves: { (from to : ℕ) (row : Row) → ShiftFits from to row → All (Self.Item.MayMove from to) (items row) };

    /// What a row that stands before a place has in it stands there.
    ghost ends: { (place : ℕ) (row : Row) → OfEachPlace (λ p. p ≤ place) row → All (Self.Item.EndsBy place) (items row) };

    /// What a row that stands behind a place has in it stands there.
    ghost starts: { (place : ℕ) (row : Row)
        → OfEachPlace (λ p. place ≤ p) row → All (Self.Item.StartsFrom place) (items row) };
}

/// What the readings reported.
#[derive(Clone, Copy, Drop)]
pub struct Diagnostics;

impl FoundList for Diagnostics {
    type Item = Diagnostic;

    ghost items = { λ row. row.diagnostics };

    fn list(row: &Row) -> &[Diagnostic] {
        row.diagnostics.as_slice()
    }

    ghost shifted_items = { λ from to row. refl };

    ghost moves = { λ from to row of. of.found.diagnostics };

    ghost ends = { λ place row of. of.found.diagnostics };

    ghost starts = { λ place row of. of.found.diagnostics };
}

/// What they reported for the case that the source is a module.
#[derive(Clone, Copy, Drop)]
pub struct Deferred;

impl FoundList for Deferred {
    type Item = Diagnostic;

    ghost items = { λ row. row.deferred };

    fn list(row: &Row) -> &[Diagnostic] {
        row.deferred.as_slice()
    }

    ghost shifted_items = { λ from to row. refl };

    ghost moves = { λ from to row of. of.found.deferred };

    ghost ends = { λ place row of. of.found.deferred };

    ghost starts = { λ place row of. of.found.deferred };
}

/// The comments of the gaps.
#[derive(Clone, Copy, Drop)]
pub struct Comments;

impl FoundList for Comments {
    type Item = Comment;

    ghost items = { λ row. row.comments };

    fn list(row: &Row) -> &[Comment] {
        row.comments.as_slice()
    }

    ghost shifted_items = { λ from to row. refl };

    ghost moves = { λ from to row of. of.found.comments };

    ghost ends = { λ place row of. of.found.comments };

    ghost starts = { λ place row of. of.found.comments };
}

/// Their irregular white space.
#[derive(Clone, Copy, Drop)]
pub struct Irregular;

impl FoundList for Irregular {
    type Item = Span;

    ghost items = { λ row. row.irregular };

    fn list(row: &Row) -> &[Span] {
        row.irregular.as_slice()
    }

    ghost shifted_items = { λ from to row. refl };

    ghost moves = { λ from to row of. of.found.irregular };

    ghost ends = { λ place row of. of.found.irregular };

    ghost starts = { λ place row of. of.found.irregular };
}

/// What the readings warned of.
#[derive(Clone, Copy, Drop)]
pub struct Warnings;

impl FoundList for Warnings {
    type Item = Span;

    ghost items = { λ row. row.warnings };

    fn list(row: &Row) -> &[Span] {
        row.warnings.as_slice()
    }

    ghost shifted_items = { λ from to row. refl };

    ghost moves = { λ from to row of. of.found.warnings };

    ghost ends = { λ place row of. of.found.warnings };

    ghost starts = { λ place row of. of.found.warnings };
}

/// Gives the items of a live list of a document, in order, seen as the list of those that are left. What a place behind
/// the last edit lacks is added as it is read.
#[derive(Drop)]
pub struct Found<'d, K, L: FoundList> {
    entries: &'d GapRows<K>,
    /// The row of the next item, and how many items of it were given.
    row: usize,
    given: usize,
    list: PhantomData<L>,
}

impl<'d, K, L: FoundList> Model for Found<'d, K, L> {
    ghost use Rattle.std.specs.Prelude.{List, drop};
    ghost use Rattle.js_document.specs.Found.{found_from};
    ghost use Rattle.js_document.specs.Gap.{entries_of, rows_of};

    ghost Value = { List L.Item };

    ghost view = { λ f. found_from L.items (drop f.row (rows_of {K = K} (entries_of {K = K} f.entries.now))) f.given };
}

impl<'d, K: Copy + Drop, L: FoundList> Found<'d, K, L> {
    /// What these rows found.
    pub(crate) fn new(entries: &'d GapRows<K>) -> Found<'d, K, L>
        ensures { result ≡ found_in L.items (rows_of {K = K} (entries_of {K = K} entries.now)) }
    {
        Found {
            entries,
            row: 0,
            given: 0,
            list: PhantomData,
        }
    }
}

impl<'d, K: Copy + Drop, L: FoundList> Iterator for Found<'d, K, L> {
    type Item = L::Item;

    ghost next_gives = { YieldsFirst (λ rest. rest) };

    ghost remaining = { item_count (λ rest. rest) };

    fn next(&mut self) -> Option<L::Item> {
        while self.row < self.entries.len() {
            if let Some(item) = self.entries.found::<L>(self.row, self.given) {
                self.given += 1;
                return Some(item);
            }
            self.row += 1;
            self.given = 0;
        }
        None
    }
}
