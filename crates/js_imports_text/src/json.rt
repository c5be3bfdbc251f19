//! What is found as JSON, an object for each.

ghost use Rattle.std.specs.Prelude.{◌≡◌, ◌++◌, ◌^◌, ◌<◌, OnOk, IfOk, length, string_bytes};
ghost use Rattle.js_lines.specs.declared.line_ends.LineEnds.TheVariants.{EcmaScript};
ghost use Rattle.js_totsenak.specs.Check.{in_characters};
ghost use Rattle.js_imports_text.specs.Json.{found_head, found_json, found_objects, part_members, span_members};
ghost use Rattle.js_imports_text.specs.Json.{value_member, value_name};

use crate::place::{places_of, push_place_members};
use crate::value::{push_value_or_null, role_name};
use js_imports::{Found, Role};
use js_lines::{LineCursor, LineEnds, LineTable};
use js_text::Span;
use std::alloc::{AllocError, Global};
use std::fmt::Write;

/// The name of the member that holds what is imported or exported.
fn value_name(role: Role) -> &'static str
    ensures { result.now ≡ value_name role }
{
    match role {
        Role::ExportName => "name",
        Role::ExportPattern => "name",
        _ => "specifier",
    }
}

/// Appends where something starts and ends, in bytes.
fn push_span(text: &mut String, span: Span) -> Result<(), AllocError>
    ensures { OnOk result (string_bytes text.new ≡ string_bytes text.old ++ span_members span) }
{
    let start = span.start;
    let end = span.end;
    write!(text, ",\"start\":{start},\"end\":{end}")
}

/// Appends where its specifier, its argument, its name or its pattern starts and ends, in bytes.
fn push_part(text: &mut String, span: Span) -> Result<(), AllocError>
    ensures { OnOk result (string_bytes text.new ≡ string_bytes text.old ++ part_members span) }
{
    let start = span.start;
    let end = span.end;
    write!(text, ",\"part_start\":{start},\"part_end\":{end}")
}

/// Appends what the object of something that is found begins with.
#[tactic(auto, unfolding(crate::specs::Json::found_head))]
fn push_head(text: &mut String, found: &Found) -> Result<(), AllocError>
    ensures { OnOk result (string_bytes text.new ≡ string_bytes text.old ++ found_head found.now) }
{
    text.push_str("{\"type\":\"")?;
    text.push_str(role_name(found.role))?;
    text.push_str("\"")?;
    push_span(text, found.span)
}

/// Appends the member that holds what is imported or exported.
#[tactic(auto, unfolding(crate::specs::Json::value_member))]
fn push_value_member(text: &mut String, source: &str, found: &Found) -> Result<(), AllocError>
    requires { length source.now < 2 ^ 32 }
    ensures { OnOk result (string_bytes text.new ≡ string_bytes text.old ++ value_member source.now found.now) }
{
    text.push_str(",\"")?;
    text.push_str(value_name(found.role))?;
    text.push_str("\":")?;
    push_value_or_null(text, source, &found.value)
}

/// Appends the object of something that is found.
#[tactic(auto, unfolding(crate::specs::Json::found_json))]
fn push_object(
    text: &mut String,
    source: &str,
    places: &mut LineCursor<'_, '_>,
    found: &Found,
) -> Result<(), AllocError>
    requires short { length source.now < 2 ^ 32 }
    requires places { places.old ≡ in_characters (record { text = source.now; ends = EcmaScript }) }
    ensures text { OnOk result (string_bytes text.new ≡ string_bytes text.old ++ found_json source.now found.now) }
    ensures places { places.new ≡ places.old }
{
    push_head(text, found)?;
    push_place_members(text, places.position(found.span.start))?;
    push_part(text, found.part)?;
    push_value_member(text, source, found)?;
    text.push_str("}\n")
}

/// The objects of what is found of a source, each on a line of its own.
pub fn imports_json(alloc: Global, source: &str, found: &[Found]) -> Result<String, AllocError>
    requires { length source.now < 2 ^ 32 }
    ensures { IfOk result (λ text. string_bytes text ≡ found_objects source.now found.now) }
{
    let mut text = String::new(alloc);
    let lines = LineTable::new(alloc, source, LineEnds::EcmaScript)?;
    let mut places = places_of(&lines);
    for one in found {
        push_object(&mut text, source, &mut places, one)?;
    }
    Ok(text)
}
