//! The values of the tokens of rows on either side of the gap.

ghost use Rattle.std.specs.Prelude.{◌≡◌, ◌+◌, ◌<◌, ◌^◌, slice_get};
ghost use Rattle.std.specs.Option.{option_map};
ghost use Rattle.js_lists.specs.Taken.{value_handed};
ghost use Rattle.js_document.specs.Gap.{entries_of, rows_of};
ghost use Rattle.js_document.specs.Values.{live_value_at};

use super::GapRows;
use js_lists::TokenValue;

impl<K: Copy + Drop> GapRows<K> {
    /// The value of the token of the row with the index. None: there is no such row.
    pub(crate) fn value(&self, index: usize) -> Option<TokenValue<'_>>
        ensures { option_map value_handed result
            ≡ option_map (λ row. row.value) (slice_get (rows_of {K = K} (entries_of {K = K} self.now)) index) }
    {
        if index >= self.rows.len() {
            return None;
        }
        let entry = self.rows.at(index);
        Some(entry.value())
    }

    /// The same, if the token is live: the row behind does not read it again.
    pub(crate) fn live_value(&self, index: usize) -> Option<TokenValue<'_>>
        requires { index + 1 < 2 ^ 64 }
        ensures { option_map value_handed result
            ≡ live_value_at (rows_of {K = K} (entries_of {K = K} self.now)) index }
    {
        if self.is_read_again(index + 1) {
            return None;
        }
        self.value(index)
    }
}
