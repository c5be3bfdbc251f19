//! Texts with escapes for what can't be shown.

ghost use Rattle.std.specs.Prelude.{◌≡◌, ◌++◌, OnOk, codes, string_bytes, chars};
ghost use Rattle.std.specs.List.{flat_map};
ghost use Rattle.js_totsenak.specs.Escaped.{escaped, hex_digits};

use crate::shown::is_hidden;
use std::alloc::AllocError;
use std::fmt::Write;

/// Appends an escape with the number of a character.
fn push_number_escape(text: &mut String, c: char) -> Result<(), AllocError>
    ensures { OnOk result (string_bytes text.new
        ≡ string_bytes text.old ++ (codes "\\u{" ++ hex_digits c ++ codes "}")) }
{
    let number = c as u32;
    write!(text, "\\u{{{number:x}}}")
}

/// Appends a character as it is shown.
fn push_escaped_character(text: &mut String, c: char) -> Result<(), AllocError>
    ensures { OnOk result (string_bytes text.new ≡ string_bytes text.old ++ escaped c) }
{
    match c {
        '\n' => text.push_str("\\n"),
        '\r' => text.push_str("\\r"),
        '\t' => text.push_str("\\t"),
        '\\' => text.push_str("\\\\"),
        c if is_hidden(c) => push_number_escape(text, c),
        c => text.push(c),
    }
}

/// Appends characters as they are shown.
pub(crate) fn push_escaped(text: &mut String, characters: &str) -> Result<(), AllocError>
    ensures { OnOk result (string_bytes text.new ≡ string_bytes text.old ++ flat_map escaped (chars characters.now)) }
{
    for c in characters.chars() {
        push_escaped_character(text, c)?;
    }
    Ok(())
}
