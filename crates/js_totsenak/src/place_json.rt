//! Places of a source as members of objects of JSON.

ghost use Rattle.std.specs.Prelude.{◌≡◌, ◌++◌, OnOk, string_bytes};
ghost use Rattle.js_lines.specs.declared.columns.ColumnUnit.TheVariants.{Characters};
ghost use Rattle.js_lines.specs.declared.line_ends.LineEnds.TheVariants.{EcmaScript};
ghost use Rattle.js_totsenak.specs.PlaceJson.{no_stretch, position_members, span_members, stretch_members};
ghost use Rattle.js_totsenak.specs.PlaceJson.{stretch_or_null};

use crate::members::{push_null, push_number};
use js_lines::{LineCursor, Position};
use js_text::Span;
use std::alloc::AllocError;

/// Appends where a stretch starts and ends, in bytes.
#[tactic(auto, unfolding(crate::specs::PlaceJson::span_members))]
fn push_span(text: &mut String, span: Span) -> Result<(), AllocError>
    ensures { OnOk result (string_bytes text.new ≡ string_bytes text.old ++ span_members span) }
{
    push_number(text, "start", u64::from(span.start))?;
    push_number(text, "end", u64::from(span.end))
}

/// Appends a line and a column, counted from 1.
#[tactic(auto, unfolding(crate::specs::PlaceJson::position_members))]
fn push_position(text: &mut String, position: Position) -> Result<(), AllocError>
    ensures { OnOk result (string_bytes text.new ≡ string_bytes text.old ++ position_members position) }
{
    push_number(text, "line", u64::from(position.line) + 1)?;
    push_number(text, "column", u64::from(position.column) + 1)
}

/// Appends where a stretch of a source starts and ends, in bytes, and the line and the column of its start.
#[tactic(auto, unfolding(crate::specs::PlaceJson::stretch_members))]
pub(crate) fn push_stretch(
    text: &mut String,
    places: &mut LineCursor<'_, '_>,
    span: Span,
) -> Result<(), AllocError>
    requires ends { places.old.lines.ends ≡ EcmaScript }
    requires unit { places.old.unit ≡ Characters }
    ensures text { OnOk result (string_bytes text.new
        ≡ string_bytes text.old ++ stretch_members places.old.lines.text span) }
    ensures places { places.new ≡ places.old }
{
    push_span(text, span)?;
    push_position(text, places.position(span.start))
}

/// Appends the members of no stretch, of what is about the whole source.
#[tactic(auto, unfolding(crate::specs::PlaceJson::no_stretch))]
fn push_no_stretch(text: &mut String) -> Result<(), AllocError>
    ensures { OnOk result (string_bytes text.new ≡ string_bytes text.old ++ no_stretch) }
{
    push_null(text, "start")?;
    push_null(text, "end")?;
    push_null(text, "line")?;
    push_null(text, "column")
}

/// The same of what is about a stretch, or about the whole source.
pub(crate) fn push_stretch_or_null(
    text: &mut String,
    places: &mut LineCursor<'_, '_>,
    span: Option<Span>,
) -> Result<(), AllocError>
    requires ends { places.old.lines.ends ≡ EcmaScript }
    requires unit { places.old.unit ≡ Characters }
    ensures text { OnOk result (string_bytes text.new
        ≡ string_bytes text.old ++ stretch_or_null places.old.lines.text span) }
    ensures places { places.new ≡ places.old }
{
    match span {
        Some(span) => push_stretch(text, places, span),
        None => push_no_stretch(text),
    }
}
