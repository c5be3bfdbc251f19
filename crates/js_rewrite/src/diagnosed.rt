//! Rows with diagnostics.

ghost use Rattle.std.specs.Prelude.{◌≡◌, ◌==◌, length, not};
ghost use Rattle.js_rewrite.specs.Faults.{first_diagnosed};

use js_session::Row;

/// Whether the row has a diagnostic.
fn has_diagnostic(row: &Row) -> bool
    ensures { result ≡ not (length row.now.diagnostics == 0) }
{
    !row.diagnostics.is_empty()
}

/// The index of the first row that has a diagnostic, if there is one.
pub fn first_diagnosed(rows: &[Row]) -> Option<usize>
    ensures { result ≡ first_diagnosed rows.now }
{
    rows.iter().position(|row| has_diagnostic(row))
}
