//! Licences as text: with the lines where each stands above it, or as JSON.

ghost use Rattle.std.specs.Prelude.{◌≡◌, ◌++◌, OnOk, IfOk, string_bytes};
ghost use Rattle.js_licences.specs.Licences.{licence_seen};
ghost use Rattle.js_licences.specs.Told.{further_places, licence_json, licence_lines, licences_json, licences_text};
ghost use Rattle.js_licences.specs.Told.{place_json, place_line, places_json, places_lines};

use crate::licences::{Licence, Licences, Place};
use js_totsenak::{push_json_text, push_shown_lines};
use std::alloc::{AllocError, Global};
use std::fmt::Write;

/// Appends a place, as `a.js:3`, on a line of its own.
fn push_place(text: &mut String, place: &Place) -> Result<(), AllocError>
    ensures { OnOk result (string_bytes text.new ≡ string_bytes text.old ++ place_line place.now) }
{
    let line = place.line;
    text.push_str(place.name.as_str())?;
    write!(text, ":{line}\n")
}

/// Appends places, each on a line of its own.
fn push_places(text: &mut String, places: &[Place]) -> Result<(), AllocError>
    ensures { OnOk result (string_bytes text.new ≡ string_bytes text.old ++ places_lines places.now) }
{
    for place in places {
        push_place(text, place)?;
    }
    Ok(())
}

/// Appends a licence: the lines where it stands, its text, and an empty line.
fn push_licence(text: &mut String, licence: Licence<'_>) -> Result<(), AllocError>
    ensures { OnOk result (string_bytes text.new
        ≡ string_bytes text.old ++ licence_lines (licence_seen licence.entry)) }
{
    push_places(text, licence.places)?;
    push_shown_lines(text, licence.text)?;
    text.push_str("\n\n")
}

/// The licences, in order: of each the places where it stands, a line each, then its text, and an empty line.
pub fn licences_text(alloc: Global, licences: &Licences) -> Result<String, AllocError>
    ensures { IfOk result (λ text. string_bytes text ≡ licences_text licences.now) }
{
    let mut text = String::new(alloc);
    for index in 0..licences.len() {
        push_licence(&mut text, licences.licence(index))?;
    }
    Ok(text)
}

/// Appends a place as an object of JSON.
fn push_place_json(text: &mut String, place: &Place) -> Result<(), AllocError>
    ensures { OnOk result (string_bytes text.new ≡ string_bytes text.old ++ place_json place.now) }
{
    let line = place.line;
    text.push_str("{\"file\":")?;
    push_json_text(text, place.name.as_str())?;
    write!(text, ",\"line\":{line}}}")
}

/// Appends places as objects of JSON, each behind a comma.
fn push_further_places(text: &mut String, places: &[Place]) -> Result<(), AllocError>
    ensures { OnOk result (string_bytes text.new ≡ string_bytes text.old ++ further_places places.now) }
{
    for place in places {
        text.push_str(",")?;
        push_place_json(text, place)?;
    }
    Ok(())
}

/// Appends places as an array of JSON.
fn push_places_json(text: &mut String, places: &[Place]) -> Result<(), AllocError>
    ensures { OnOk result (string_bytes text.new ≡ string_bytes text.old ++ places_json places.now) }
{
    text.push_str("[")?;
    if let Some((first, further)) = places.split_first() {
        push_place_json(text, first)?;
        push_further_places(text, further)?;
    }
    text.push_str("]")
}

/// Appends a licence as an object of JSON, on a line of its own.
fn push_licence_json(text: &mut String, licence: Licence<'_>) -> Result<(), AllocError>
    ensures { OnOk result (string_bytes text.new
        ≡ string_bytes text.old ++ licence_json (licence_seen licence.entry)) }
{
    text.push_str("{\"text\":")?;
    push_json_text(text, licence.text)?;
    text.push_str(",\"places\":")?;
    push_places_json(text, licence.places)?;
    text.push_str("}\n")
}

/// The licences, in order, as JSON: an object for each, on a line of its own, with its text and the places where it
/// stands.
pub fn licences_json(alloc: Global, licences: &Licences) -> Result<String, AllocError>
    ensures { IfOk result (λ text. string_bytes text ≡ licences_json licences.now) }
{
    let mut text = String::new(alloc);
    for index in 0..licences.len() {
        push_licence_json(&mut text, licences.licence(index))?;
    }
    Ok(text)
}
