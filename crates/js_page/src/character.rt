//! Characters of a source as a page has them.

ghost use Rattle.std.specs.Prelude.{◌≡◌, ◌++◌, OnOk, string_bytes};
ghost use Rattle.js_page.specs.Characters.{hex_digits, hidden_tag, hidden_text, is_hidden, written, zeros};

use std::alloc::AllocError;
use std::fmt::Write;

/// Whether a character is not seen where it stands: a control, one that turns the direction of a text, or one without
/// width.
#[tactic(auto, unfolding(crate::specs::Characters::is_hidden))]
pub(crate) fn is_hidden(c: char) -> bool
    ensures { result ≡ is_hidden c }
{
    match c {
        ' '..='~' => false,
        '\t' | '\n' | '\r' => false,
        '\0'..='\u{1F}' | '\u{7F}'..='\u{9F}' => true,
        '\u{AD}' | '\u{61C}' => true,
        '\u{115F}'..='\u{1160}' | '\u{17B4}'..='\u{17B5}' | '\u{180E}' => true,
        '\u{200B}'..='\u{200F}' | '\u{2028}'..='\u{202E}' | '\u{2060}'..='\u{206F}' => true,
        '\u{3164}' | '\u{FEFF}' | '\u{FFA0}' | '\u{FFF9}'..='\u{FFFB}' => true,
        '\u{E0000}'..='\u{E01EF}' => true,
        _ => false,
    }
}

/// The zeros before the digits of a number, which has four digits at least.
#[tactic(auto, unfolding(crate::specs::Characters::zeros))]
fn zeros(number: u32) -> &'static str
    ensures { result.now ≡ zeros number }
{
    if number < 0x10 {
        "000"
    } else if number < 0x100 {
        "00"
    } else if number < 0x1000 {
        "0"
    } else {
        ""
    }
}

/// Appends the digits of a number in base 16.
fn push_hex(text: &mut String, number: u32) -> Result<(), AllocError>
    ensures { OnOk result (string_bytes text.new ≡ string_bytes text.old ++ hex_digits number) }
{
    write!(text, "{number:X}")
}

/// Appends the tag before a character that is hidden.
#[tactic(auto, unfolding(crate::specs::Characters::hidden_tag))]
fn push_hidden_tag(text: &mut String, number: u32) -> Result<(), AllocError>
    ensures { OnOk result (string_bytes text.new ≡ string_bytes text.old ++ hidden_tag number) }
{
    text.push_str("b title=U+")?;
    text.push_str(zeros(number))?;
    push_hex(text, number)
}

/// Appends a character that is hidden, in an element that tells its number.
fn push_hidden(text: &mut String, c: char) -> Result<(), AllocError>
    ensures { OnOk result (string_bytes text.new ≡ string_bytes text.old ++ hidden_text c) }
{
    text.push_str("<")?;
    push_hidden_tag(text, c as u32)?;
    text.push_str(">")?;
    text.push(c)?;
    text.push_str("</b>")
}

/// Appends a character.
#[inline(always)]
pub(crate) fn push_character(text: &mut String, c: char) -> Result<(), AllocError>
    ensures { OnOk result (string_bytes text.new ≡ string_bytes text.old ++ written c) }
{
    match c {
        '<' => text.push_str("&lt;"),
        '&' => text.push_str("&amp;"),
        '"' => text.push_str("&#34;"),
        '\'' => text.push_str("&#39;"),
        '\r' => text.push_str("&#13;"),
        '\0' => text.push('\u{2400}'),
        c if is_hidden(c) => push_hidden(text, c),
        c => text.push(c),
    }
}
