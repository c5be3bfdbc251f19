//! The values of the live tokens of a document, one after the other.

ghost use Rattle.std.specs.Prelude.{◌≡◌, drop};
ghost use Rattle.std.specs.Iterator.{YieldsFirstBy, item_count};
ghost use Rattle.js_lists.specs.Taken.{value_handed};
ghost use Rattle.js_document.specs.Gap.{entries_of, rows_of};
ghost use Rattle.js_document.specs.Values.{values_in};

use crate::gap::GapRows;
use js_lists::TokenValue;
use std::marker::Model;

/// Gives the values of the live tokens of a document, in the order of the tokens, seen as the list of those that are
/// left. What a place behind the last edit lacks is added as it is read; no value is copied.
#[derive(Drop)]
pub struct Values<'d, K> {
    entries: &'d GapRows<K>,
    /// The row of the next token, or one that is read again before it.
    row: usize,
}

impl<'d, K> Model for Values<'d, K> {
    ghost use Rattle.std.specs.Prelude.{List, drop};
    ghost use Rattle.js_text.specs.declared.value.RowValue.{RowValue};
    ghost use Rattle.js_document.specs.Gap.{entries_of, rows_of};
    ghost use Rattle.js_document.specs.Values.{values_in};

    ghost Value = { List RowValue };

    ghost view = { λ v. values_in (drop v.row (rows_of {K = K} (entries_of {K = K} v.entries.now))) };
}

impl<'d, K: Copy + Drop> Values<'d, K> {
    /// Those of the rows from one on.
    pub(crate) fn new(entries: &'d GapRows<K>, row: usize) -> Values<'d, K>
        ensures { result ≡ values_in (drop row (rows_of {K = K} (entries_of {K = K} entries.now))) }
    {
        Values { entries, row }
    }
}

impl<'d, K: Copy + Drop> Iterator for Values<'d, K> {
    type Item = TokenValue<'d>;

    ghost next_gives = { YieldsFirstBy value_handed (λ rest. rest) };

    ghost remaining = { item_count (λ rest. rest) };

    fn next(&mut self) -> Option<TokenValue<'d>> {
        while self.row < self.entries.len() {
            if let Some(value) = self.entries.live_value(self.row) {
                self.row += 1;
                return Some(value);
            }
            self.row += 1;
        }
        None
    }
}
