//! Titles, which stand where no elements can.

ghost use Rattle.std.specs.Prelude.{◌≡◌, ◌++◌, OnOk, string_bytes, chars};
ghost use Rattle.std.specs.List.{flat_map};
ghost use Rattle.js_page.specs.Characters.{in_title};

use std::alloc::AllocError;

/// Appends a character of a title.
fn push_in_title(text: &mut String, c: char) -> Result<(), AllocError>
    ensures { OnOk result (string_bytes text.new ≡ string_bytes text.old ++ in_title c) }
{
    match c {
        '<' => text.push_str("&lt;"),
        '&' => text.push_str("&amp;"),
        '"' => text.push_str("&#34;"),
        '\'' => text.push_str("&#39;"),
        '\r' => text.push_str("&#13;"),
        '\0' => text.push('\u{2400}'),
        c => text.push(c),
    }
}

/// Appends a title.
pub(crate) fn push_title(text: &mut String, title: &str) -> Result<(), AllocError>
    ensures { OnOk result (string_bytes text.new ≡ string_bytes text.old ++ flat_map in_title (chars title.now)) }
{
    for c in title.chars() {
        push_in_title(text, c)?;
    }
    Ok(())
}
