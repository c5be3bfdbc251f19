//! Characters and UTF-16 units, as a report prints them.

ghost use Rattle.std.specs.Prelude.{◌≡◌, ◌<◌, ◌++◌, true, false, OnOk, codes, string_bytes};
ghost use Rattle.js_source.specs.Runs.{TellsClass};
ghost use Rattle.js_lex_tool.specs.Units.{is_printed_as_itself, four_digits, unit_text, units_text, text_in_units};
ghost use Rattle.js_lex_tool.specs.Units.{number_text};
ghost use Rattle.js_lex_tool.specs.Units.{all_units_text};

use js_source::{Source, of_each_byte};
use std::alloc::AllocError;
use std::fmt::Write;

/// Whether a unit stands for itself.
fn is_printed_as_itself(unit: u16) -> bool
    ensures itself { result ≡ is_printed_as_itself unit }
    ensures ascii { result ≡ true → unit < 128 }
{
    matches!(unit, 0x20..=0x7e) && unit != 0x5c
}

fn push_escape(text: &mut String, unit: u16) -> Result<(), AllocError>
    ensures { OnOk result (string_bytes text.new ≡ string_bytes text.old ++ codes "\\u" ++ four_digits false unit) }
{
    write!(text, "\\u{unit:04x}")
}

fn push_unit(text: &mut String, unit: u16) -> Result<(), AllocError>
    ensures { OnOk result (string_bytes text.new ≡ string_bytes text.old ++ unit_text unit) }
{
    if is_printed_as_itself(unit) {
        text.push(char::from(unit as u8))
    } else {
        push_escape(text, unit)
    }
}

/// Appends units.
pub fn push_units(text: &mut String, units: &[u16]) -> Result<(), AllocError>
    ensures { OnOk result (string_bytes text.new ≡ string_bytes text.old ++ all_units_text units.now) }
{
    for unit in units {
        push_unit(text, *unit)?;
    }
    Ok(())
}

/// From a space to `~`, but for `\`.
macro_rules! stands_for_itself {
    ($byte:literal) => {
        b' ' <= $byte && $byte <= b'~' && $byte != b'\\'
    };
}

/// The bytes that stand for themselves.
static THEMSELVES: [bool; 256] = of_each_byte!(stands_for_itself);

/// The table of the bytes that stand for themselves.
#[inline(always)]
fn themselves() -> &'static [bool; 256]
    ensures { TellsClass is_printed_as_itself result.now }
{
    &THEMSELVES
}

/// Whether all of a text stands for itself; false also for one of more than `u32::MAX` bytes.
pub fn is_plain(value: &str) -> bool
    ensures { result ≡ true → text_in_units value.now ≡ value.now }
{
    if value.len() > u32::MAX as usize {
        return false;
    }
    let mut source = Source::new(value);
    source.pass_ascii(themselves());
    source.is_eof()
}

fn push_character(text: &mut String, c: char) -> Result<(), AllocError>
    ensures { OnOk result (string_bytes text.new ≡ string_bytes text.old ++ units_text c) }
{
    let mut buf = [0; 2];
    push_units(text, c.encode_utf16(&mut buf))
}

fn push_characters(text: &mut String, value: &str) -> Result<(), AllocError>
    ensures { OnOk result (string_bytes text.new ≡ string_bytes text.old ++ text_in_units value.now) }
{
    for c in value.chars() {
        push_character(text, c)?;
    }
    Ok(())
}

/// Appends the units of a value.
pub fn push_text_in_units(text: &mut String, value: &str) -> Result<(), AllocError>
    ensures { OnOk result (string_bytes text.new ≡ string_bytes text.old ++ text_in_units value.now) }
{
    if is_plain(value) {
        text.push_str(value)
    } else {
        push_characters(text, value)
    }
}

/// Appends the number of a character.
pub fn push_number(text: &mut String, c: char) -> Result<(), AllocError>
    ensures { OnOk result (string_bytes text.new ≡ string_bytes text.old ++ number_text c) }
{
    let number = c as u32;
    write!(text, " U+{number:04X}")
}
