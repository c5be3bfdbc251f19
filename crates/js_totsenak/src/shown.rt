//! Characters as a terminal shows them.

ghost use Rattle.std.specs.Prelude.{◌≡◌, ◌++◌, ◌≤◌, OnOk, string_bytes, chars, replicate};
ghost use Rattle.std.specs.List.{flat_map};
ghost use Rattle.js_totsenak.specs.Excerpt.{is_hidden, pad, shown, shown_text};

use std::alloc::AllocError;
use unicode_width::UnicodeWidthChar;

/// Whether no terminal is sent the character: a control other than TAB, or one that turns the direction of a text.
#[tactic(auto, unfolding(crate::specs::Excerpt::is_hidden))]
pub(crate) fn is_hidden(c: char) -> bool
    ensures { result ≡ is_hidden c }
{
    match c {
        '\t' => false,
        '\0'..='\u{1F}' | '\u{7F}'..='\u{9F}' => true,
        '\u{61C}' | '\u{200E}'..='\u{200F}' => true,
        '\u{2028}'..='\u{202E}' | '\u{2066}'..='\u{2069}' => true,
        _ => false,
    }
}

/// The character that stands for one.
fn shown(c: char) -> char
    ensures { result ≡ shown c }
{
    if is_hidden(c) { '\u{FFFD}' } else { c }
}

/// Appends characters as they are shown.
pub(crate) fn push_shown(text: &mut String, line: &str) -> Result<(), AllocError>
    ensures { OnOk result (string_bytes text.new ≡ string_bytes text.old ++ flat_map shown_text (chars line.now)) }
{
    for c in line.chars() {
        text.push(shown(c))?;
    }
    Ok(())
}

/// Appends so many spaces.
fn push_spaces(text: &mut String, count: usize) -> Result<(), AllocError>
    requires { count ≤ 3 }
    ensures { OnOk result (string_bytes text.new ≡ string_bytes text.old ++ replicate count 32) }
{
    match count {
        0 => Ok(()),
        1 => text.push_str(" "),
        2 => text.push_str("  "),
        _ => text.push_str("   "),
    }
}

/// Appends what stands under a character: a TAB under a TAB, and else as many spaces as it is wide.
fn push_pad_of(text: &mut String, c: char) -> Result<(), AllocError>
    ensures { OnOk result (string_bytes text.new ≡ string_bytes text.old ++ pad c) }
{
    if c == '\t' {
        text.push_str("\t")
    } else {
        push_spaces(text, shown(c).width().unwrap_or(0))
    }
}

/// Appends what stands under characters.
pub(crate) fn push_pad(text: &mut String, line: &str) -> Result<(), AllocError>
    ensures { OnOk result (string_bytes text.new ≡ string_bytes text.old ++ flat_map pad (chars line.now)) }
{
    for c in line.chars() {
        push_pad_of(text, c)?;
    }
    Ok(())
}
