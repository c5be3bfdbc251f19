//! Texts of several lines as a terminal shows them.

ghost use Rattle.std.specs.Prelude.{◌≡◌, ◌++◌, OnOk, string_bytes, chars};
ghost use Rattle.js_totsenak.specs.ShownLines.{shown_behind, shown_lines};

use crate::shown::is_hidden;
use std::alloc::AllocError;

/// Appends a character as it is shown behind another.
fn push_behind(text: &mut String, before: char, c: char) -> Result<(), AllocError>
    ensures { OnOk result (string_bytes text.new ≡ string_bytes text.old ++ shown_behind before c) }
{
    match c {
        '\n' if before == '\r' => Ok(()),
        '\n' | '\r' => text.push_str("\n"),
        c if is_hidden(c) => text.push('\u{FFFD}'),
        c => text.push(c),
    }
}

/// Appends characters as they are shown, where each CR, LF and CR LF ends a line.
pub fn push_shown_lines(text: &mut String, characters: &str) -> Result<(), AllocError>
    ensures { OnOk result (string_bytes text.new ≡ string_bytes text.old ++ shown_lines (chars characters.now)) }
{
    let mut before = '\n';
    for c in characters.chars() {
        push_behind(text, before, c)?;
        before = c;
    }
    Ok(())
}
