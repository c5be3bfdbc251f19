//! What an edit asks of a row that stays, apart from the row: the outlines of all rows stand close together in memory.

ghost use Rattle.std.specs.Prelude.{◌≡◌, ◌++◌, OnOk, map};
ghost use Rattle.std.specs.List.{AllByRecursion};
ghost use Rattle.js_relex.specs.Outlines.{OutlineFits, has_found, outline_of, shifted_outline};

use js_session::{Row, Shift};
use js_text::ItemList;
use std::alloc::AllocError;

/// Where the token of a row ends, and whether the row has found anything.
#[derive(Clone, Copy)]
pub(crate) struct RowOutline {
    pub(crate) end: u32,
    pub(crate) has_found: bool,
}

/// A growing list of outlines.
pub(crate) type OutlineList = ItemList<RowOutline>;

/// Whether the row has an item in any of its lists.
fn has_found(row: &Row) -> bool
    ensures { result ≡ has_found row.now }
{
    !(row.diagnostics.is_empty()
        && row.deferred.is_empty()
        && row.comments.is_empty()
        && row.irregular.is_empty()
        && row.warnings.is_empty())
}

/// The outline of the row.
fn outline_of(row: &Row) -> RowOutline
    ensures { result ≡ outline_of row.now }
{
    RowOutline {
        end: row.token.end(),
        has_found: has_found(row),
    }
}

/// Adds the outlines of the rows.
pub(crate) fn add_outlines(list: &mut OutlineList, rows: &[Row]) -> Result<(), AllocError>
    ensures { OnOk result (list.new ≡ list.old ++ map outline_of rows.now) }
{
    for row in rows {
        list.push(outline_of(row))?;
    }
    Ok(())
}

/// The outline, moved.
fn moved_outline(shift: &Shift, outline: RowOutline) -> RowOutline
    requires { OutlineFits shift.now.from shift.now.to outline }
    ensures { result ≡ shifted_outline shift.now.from shift.now.to outline }
{
    let mut moved = outline;
    shift.move_place(&mut moved.end);
    moved
}

/// Adds the outlines, moved.
pub(crate) fn add_moved_outlines(
    list: &mut OutlineList,
    outlines: &[RowOutline],
    shift: &Shift,
) -> Result<(), AllocError>
    requires { AllByRecursion (OutlineFits shift.now.from shift.now.to) outlines.now }
    ensures { OnOk result
        (list.new ≡ list.old ++ map (shifted_outline shift.now.from shift.now.to) outlines.now) }
{
    for outline in outlines {
        list.push(moved_outline(shift, *outline))?;
    }
    Ok(())
}
