//! The rows of a document, with their places in its text.

ghost use Rattle.std.specs.Prelude.{◌≡◌, IfOk};
ghost use Rattle.js_document.specs.Gap.{entries_of, rows_of};

use crate::gap::GapRows;
use js_session::RowList;
use std::alloc::{AllocError, Global};

/// Copies of the rows.
pub(crate) fn rows_of<K: Copy + Drop>(
    alloc: Global,
    entries: &GapRows<K>,
) -> Result<RowList, AllocError>
    ensures { IfOk result (λ rows. rows ≡ rows_of {K = K} (entries_of {K = K} entries.now)) }
{
    let mut rows = RowList::new_in(alloc);
    let end = entries.len();
    let mut index = 0;
    while index < end {
        let entry = entries.at(index);
        rows.push(entry.copied_row(alloc)?)?;
        index += 1;
    }
    Ok(rows)
}
