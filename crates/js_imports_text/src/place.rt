//! Places of what is found.

ghost use Rattle.std.specs.Prelude.{◌≡◌, ◌++◌, OnOk, string_bytes};
ghost use Rattle.js_totsenak.specs.Check.{in_characters};
ghost use Rattle.js_totsenak.specs.Tokens.{place_head};
ghost use Rattle.js_imports_text.specs.Json.{place_members};
ghost use Rattle.js_imports_text.specs.Lines.{stretch};

use js_lines::{ColumnUnit, LineCursor, LineTable, Position};
use js_text::Span;
use std::alloc::AllocError;
use std::fmt::Write;

/// Tells places of a source, one behind the other.
pub(crate) fn places_of<'l, 't>(lines: &'l LineTable<'t>) -> LineCursor<'l, 't>
    ensures { result ≡ in_characters lines.now }
{
    LineCursor::new(lines, ColumnUnit::Characters)
}

/// Appends a line and a column, counted from 1.
#[tactic(auto, unfolding(js_totsenak::specs::Tokens::place_head))]
pub(crate) fn push_place_head(text: &mut String, position: Position) -> Result<(), AllocError>
    ensures { OnOk result (string_bytes text.new ≡ string_bytes text.old ++ place_head position) }
{
    let line = u64::from(position.line) + 1;
    let column = u64::from(position.column) + 1;
    write!(text, "{line}:{column} ")
}

/// Appends where a stretch starts and ends, in bytes.
pub(crate) fn push_stretch(text: &mut String, span: Span) -> Result<(), AllocError>
    ensures { OnOk result (string_bytes text.new ≡ string_bytes text.old ++ stretch span) }
{
    let start = span.start;
    let end = span.end;
    write!(text, "{start}-{end}")
}

/// Appends a line and a column, counted from 1, as members of an object of JSON.
pub(crate) fn push_place_members(text: &mut String, position: Position) -> Result<(), AllocError>
    ensures { OnOk result (string_bytes text.new ≡ string_bytes text.old ++ place_members position) }
{
    let line = u64::from(position.line) + 1;
    let column = u64::from(position.column) + 1;
    write!(text, ",\"line\":{line},\"column\":{column}")
}
