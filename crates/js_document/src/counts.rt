//! How many items of each list rows found.

ghost use Rattle.std.specs.Prelude.{◌≡◌, ◌+◌, [], IfOk};
ghost use Rattle.js_document.specs.Found.{counts_and, counts_in, counts_with, found_by};

use js_session::Row;
use std::alloc::AllocError;

/// How many items of each list there are.
#[derive(Clone, Copy)]
pub(crate) struct FoundCounts {
    pub(crate) diagnostics: usize,
    pub(crate) deferred: usize,
    pub(crate) comments: usize,
    pub(crate) irregular: usize,
    pub(crate) warnings: usize,
}

/// The sum of two numbers of items. There is no memory for more than `usize::MAX` items.
pub(crate) fn sum_of(count: usize, more: usize) -> Result<usize, AllocError>
    ensures { IfOk result (λ sum. sum ≡ count + more) }
{
    match count.checked_add(more) {
        Some(sum) => Ok(sum),
        None => Err(AllocError),
    }
}

impl FoundCounts {
    /// There are none.
    pub(crate) fn none() -> FoundCounts
        ensures { result ≡ counts_in (found_by []) }
    {
        FoundCounts {
            diagnostics: 0,
            deferred: 0,
            comments: 0,
            irregular: 0,
            warnings: 0,
        }
    }

    /// With those of a row.
    pub(crate) fn with_row(&self, row: &Row) -> Result<FoundCounts, AllocError>
        ensures { IfOk result (λ counts. counts ≡ counts_with self.now row.now) }
    {
        Ok(FoundCounts {
            diagnostics: sum_of(self.diagnostics, row.diagnostics.len())?,
            deferred: sum_of(self.deferred, row.deferred.len())?,
            comments: sum_of(self.comments, row.comments.len())?,
            irregular: sum_of(self.irregular, row.irregular.len())?,
            warnings: sum_of(self.warnings, row.warnings.len())?,
        })
    }

    /// With others.
    pub(crate) fn with(&self, more: &FoundCounts) -> Result<FoundCounts, AllocError>
        ensures { IfOk result (λ counts. counts ≡ counts_and self.now more.now) }
    {
        Ok(FoundCounts {
            diagnostics: sum_of(self.diagnostics, more.diagnostics)?,
            deferred: sum_of(self.deferred, more.deferred)?,
            comments: sum_of(self.comments, more.comments)?,
            irregular: sum_of(self.irregular, more.irregular)?,
            warnings: sum_of(self.warnings, more.warnings)?,
        })
    }
}
