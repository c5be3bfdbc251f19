//! How many rows an edit leaves as they are.

ghost use Rattle.std.specs.Prelude.{◌≡◌, ◌+◌, ◌≤◌, ◌↔◌, ◌∷◌, List, IsTrue, Some, None, length, map};
ghost use Rattle.js_session.specs.declared.row.Row.{Row};
ghost use Rattle.js_relex.specs.Kept.{IsKept, IsKeptBehind};
ghost use Rattle.js_relex.specs.Outlines.{AreOutlined};

use crate::outline::RowOutline;
use crate::outlined::OutlinedReport;
use js_session::Command;

/// Whether a row of the outline ends four bytes or more before the place.
fn ends_before(outline: RowOutline, start: u32) -> bool
    ensures { IsTrue result ↔ (outline.end + 4 ≤ start) }
{
    if outline.end > start {
        return false;
    }
    start - outline.end >= 4
}

/// Whether the command is the old one, and the row of the outline ends four bytes or more before the place.
fn may_stay(outline: RowOutline, old: Command, command: Command, start: u32) -> bool
    ensures { IsTrue result ↔ ((old ≡ command) × (outline.end + 4 ≤ start)) }
{
    if old != command {
        return false;
    }
    ends_before(outline, start)
}

/// How many of the rows behind the first one stay as they are, which have these outlines and answer the old commands,
/// where the text changes from the place on and the commands are the new ones.
fn count_behind(
    outlines: &[RowOutline],
    old_commands: &[Command],
    commands: &[Command],
    start: u32,
) -> usize
    requires { length outlines.now ≡ length old_commands.now }
    ensures kept { (rows : List Row) → AreOutlined (map Some old_commands.now) outlines.now rows
        → IsKeptBehind start rows commands.now result }
    ensures few { result ≤ length outlines.now }
    ensures fits { result ≤ length commands.now }
{
    let mut kept = 0;
    while kept < outlines.len() {
        if kept >= commands.len() {
            return kept;
        }
        let outline = outlines[kept];
        let old = old_commands[kept];
        let command = commands[kept];
        if !may_stay(outline, old, command, start) {
            return kept;
        }
        kept += 1;
    }
    kept
}

/// How many rows of the report stay as they are, which answer the old commands, where the text changes from the place
/// on and the commands are the new ones.
pub(crate) fn count_kept(
    old: &OutlinedReport,
    old_commands: &[Command],
    commands: &[Command],
    start: u32,
) -> usize
    requires { map (λ (row : Row). row.command) old.now.rows ≡ None ∷ map Some old_commands.now }
    ensures kept { IsKept start old.now.rows commands.now result }
    ensures few { result ≤ length old.now.rows }
    ensures fits { result ≤ length commands.now + 1 }
{
    match old.outlines().split_first() {
        Some((first, behind)) => {
            if !ends_before(*first, start) {
                return 0;
            }
            count_behind(behind, old_commands, commands, start) + 1
        }
        None => 0,
    }
}
