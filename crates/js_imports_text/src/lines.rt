//! What is found, a line for each, for people.

ghost use Rattle.std.specs.Prelude.{◌≡◌, ◌++◌, ◌^◌, ◌<◌, OnOk, IfOk, length, string_bytes};
ghost use Rattle.js_lines.specs.declared.line_ends.LineEnds.TheVariants.{EcmaScript};
ghost use Rattle.js_totsenak.specs.Check.{in_characters};
ghost use Rattle.js_imports_text.specs.Lines.{found_line, found_lines, line_end_of, unnamed};

use crate::place::{places_of, push_place_head, push_stretch};
use crate::value::{push_value_or_null, role_name};
use js_imports::{Found, Role};
use js_lines::{LineCursor, LineEnds, LineTable};
use js_text::RowValue;
use std::alloc::{AllocError, Global};

/// Appends the stretch of the argument or the pattern of what has no specifier and no name.
fn push_unnamed(text: &mut String, found: &Found) -> Result<(), AllocError>
    ensures { OnOk result (string_bytes text.new ≡ string_bytes text.old ++ unnamed found.now) }
{
    match found.role {
        Role::ImportMeta => Ok(()),
        _ => {
            text.push_str(" ")?;
            push_stretch(text, found.part)
        }
    }
}

/// Appends what the line of something that is found ends with: its specifier or its name, or else where its argument or
/// its pattern stands.
fn push_line_end(text: &mut String, source: &str, found: &Found) -> Result<(), AllocError>
    requires { length source.now < 2 ^ 32 }
    ensures { OnOk result (string_bytes text.new ≡ string_bytes text.old ++ line_end_of source.now found.now) }
{
    match &found.value {
        RowValue::Nothing => push_unnamed(text, found),
        value => {
            text.push_str(" ")?;
            push_value_or_null(text, source, value)
        }
    }
}

/// Appends the line of something that is found.
#[tactic(auto, unfolding(crate::specs::Lines::found_line))]
fn push_line(
    text: &mut String,
    source: &str,
    places: &mut LineCursor<'_, '_>,
    found: &Found,
) -> Result<(), AllocError>
    requires short { length source.now < 2 ^ 32 }
    requires places { places.old ≡ in_characters (record { text = source.now; ends = EcmaScript }) }
    ensures text { OnOk result (string_bytes text.new ≡ string_bytes text.old ++ found_line source.now found.now) }
    ensures places { places.new ≡ places.old }
{
    push_place_head(text, places.position(found.span.start))?;
    text.push_str(role_name(found.role))?;
    push_line_end(text, source, found)?;
    text.push_str("\n")
}

/// The lines of what is found of a source.
pub fn imports_lines(alloc: Global, source: &str, found: &[Found]) -> Result<String, AllocError>
    requires { length source.now < 2 ^ 32 }
    ensures { IfOk result (λ text. string_bytes text ≡ found_lines source.now found.now) }
{
    let mut text = String::new(alloc);
    let lines = LineTable::new(alloc, source, LineEnds::EcmaScript)?;
    let mut places = places_of(&lines);
    for one in found {
        push_line(&mut text, source, &mut places, one)?;
    }
    Ok(text)
}
