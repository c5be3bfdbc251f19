//! Texts as strings of JSON.

ghost use Rattle.std.specs.Prelude.{◌≡◌, ◌++◌, ◌<◌, OnOk, true, codes, string_bytes, chars};
ghost use Rattle.std.specs.List.{flat_map};
ghost use Rattle.js_totsenak.specs.Json.{four_digits, is_json_itself, json_character, json_string, json_text};
ghost use Rattle.js_totsenak.specs.Json.{json_unit};

use std::alloc::AllocError;
use std::fmt::Write;

/// Whether a UTF-16 unit stands for itself in a string of JSON.
fn is_json_itself(unit: u16) -> bool
    ensures itself { result ≡ is_json_itself unit }
    ensures ascii { result ≡ true → unit < 128 }
{
    matches!(unit, 0x20..=0x7e) && unit != 0x22 && unit != 0x5c
}

fn push_unit_escape(text: &mut String, unit: u16) -> Result<(), AllocError>
    ensures { OnOk result (string_bytes text.new ≡ string_bytes text.old ++ (codes "\\u" ++ four_digits unit)) }
{
    write!(text, "\\u{unit:04x}")
}

fn push_json_unit(text: &mut String, unit: u16) -> Result<(), AllocError>
    ensures { OnOk result (string_bytes text.new ≡ string_bytes text.old ++ json_unit unit) }
{
    if is_json_itself(unit) {
        text.push(char::from(unit as u8))
    } else {
        push_unit_escape(text, unit)
    }
}

fn push_json_units(text: &mut String, units: &[u16]) -> Result<(), AllocError>
    ensures { OnOk result (string_bytes text.new ≡ string_bytes text.old ++ flat_map json_unit units.now) }
{
    for unit in units {
        push_json_unit(text, *unit)?;
    }
    Ok(())
}

/// Appends UTF-16 units as a string of JSON.
pub fn push_json_string(text: &mut String, units: &[u16]) -> Result<(), AllocError>
    ensures { OnOk result (string_bytes text.new ≡ string_bytes text.old ++ json_string units.now) }
{
    text.push_str("\"")?;
    push_json_units(text, units)?;
    text.push_str("\"")
}

fn push_json_character(text: &mut String, c: char) -> Result<(), AllocError>
    ensures { OnOk result (string_bytes text.new ≡ string_bytes text.old ++ json_character c) }
{
    let mut buf = [0; 2];
    push_json_units(text, c.encode_utf16(&mut buf))
}

fn push_json_characters(text: &mut String, characters: &str) -> Result<(), AllocError>
    ensures { OnOk result (string_bytes text.new
        ≡ string_bytes text.old ++ flat_map json_character (chars characters.now)) }
{
    for c in characters.chars() {
        push_json_character(text, c)?;
    }
    Ok(())
}

/// Appends characters as a string of JSON.
pub fn push_json_text(text: &mut String, characters: &str) -> Result<(), AllocError>
    ensures { OnOk result (string_bytes text.new ≡ string_bytes text.old ++ json_text (chars characters.now)) }
{
    text.push_str("\"")?;
    push_json_characters(text, characters)?;
    text.push_str("\"")
}
