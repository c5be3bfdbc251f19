//! What the rows on either side of the gap found.

ghost use Rattle.std.specs.Prelude.{◌≡◌, ◌+◌, ◌<◌, ◌^◌, [], slice_get, IfSome};
ghost use Rattle.std.specs.Option.{option_map_or};
ghost use Rattle.js_document.specs.Gap.{entries_of, rows_of};

use super::GapRows;
use crate::found::FoundList;

impl<K: Copy + Drop> GapRows<K> {
    /// The item with this index of what the row with its index has in the list.
    pub(crate) fn found<L: FoundList>(&self, row: usize, index: usize) -> Option<L::Item>
        ensures item { result
            ≡ slice_get (option_map_or L.items (slice_get (rows_of {K = K} (entries_of {K = K} self.now)) row) []) index }
        ensures few { IfSome result (λ _. index + 1 < 2 ^ 64) }
    {
        if row >= self.rows.len() {
            return None;
        }
        let entry = self.rows.at(row);
        entry.item::<L>(index)
    }
}
