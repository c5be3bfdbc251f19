//! Stretches of a source.

ghost use Rattle.std.specs.Prelude.{◌≡◌, ◌<◌, ◌^◌, chars, length};
ghost use Rattle.js_totsenak.specs.Stretches.{characters_between};

use js_lines::ColumnUnit;
use js_text::Span;

/// The characters of a stretch of the source.
pub(crate) fn stretch_of(source: &str, span: Span) -> &str
    requires { length source.now < 2 ^ 32 }
    ensures { chars result.now ≡ characters_between source.now span.start span.end }
{
    let behind = ColumnUnit::Bytes.split_at(source, span.start as usize).1;
    let length = span.end.saturating_sub(span.start);
    ColumnUnit::Bytes.split_at(behind, length as usize).0
}
