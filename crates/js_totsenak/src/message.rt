//! What a user is told of a diagnostic.

ghost use Rattle.std.specs.Prelude.{◌≡◌, ◌++◌, OnOk, string_bytes};
ghost use Rattle.js_totsenak.specs.Messages.{fault_in_words, message_of, named_character, number_text};

use js_text::Diagnostic;
use std::alloc::AllocError;
use std::fmt::Write;

/// What is told of a warning: each is of a `>` in the text of JSX.
pub(crate) const WARNING: &str = "warning: a > in the text of JSX";

/// The same without a label.
pub(crate) const WARNING_IN_WORDS: &str = "a > in the text of JSX";

/// What is at fault, in words. A diagnostic that names a character is told with its number behind these
/// (`push_message`).
pub fn fault_in_words(diagnostic: &Diagnostic) -> &'static str
    ensures { result.now ≡ fault_in_words diagnostic.now }
{
    match diagnostic {
        Diagnostic::InvalidCharacter { .. } => "unexpected character",
        Diagnostic::UnexpectedEnd { .. } => "unexpected end of the file",
        Diagnostic::FileAppearsToBeBinary => "the file appears to be binary",
        Diagnostic::InvalidNumberEnd { .. } => "a name or a digit right behind a number",
        Diagnostic::UnterminatedString { .. } => "string or template without an end",
        Diagnostic::UnterminatedMultiLineComment { .. } => "comment without an end",
        Diagnostic::UnterminatedRegExp { .. } => "regular expression without an end",
        Diagnostic::UnicodeEscapeSequence { .. } => "invalid escape in a name",
        Diagnostic::InvalidEscapeSequence { .. } => "invalid escape in a string",
        Diagnostic::RegExpFlag { .. } => "unknown flag of a regular expression",
        Diagnostic::RegExpFlagTwice { .. } => "repeated flag of a regular expression",
        Diagnostic::UnexpectedJsxEnd { .. } => "unexpected character in the text of JSX",
        Diagnostic::HtmlCommentInModule { .. } => "HTML comment in a module",
    }
}

/// Appends the number of a character.
fn push_number(text: &mut String, c: char) -> Result<(), AllocError>
    ensures { OnOk result (string_bytes text.new ≡ string_bytes text.old ++ number_text c) }
{
    let number = c as u32;
    write!(text, " U+{number:04X}")
}

fn push_named(text: &mut String, character: Option<char>) -> Result<(), AllocError>
    ensures { OnOk result (string_bytes text.new ≡ string_bytes text.old ++ named_character character) }
{
    match character {
        None => Ok(()),
        Some(c) => push_number(text, c),
    }
}

/// Appends what a user is told of a diagnostic: what is at fault, and the number of the character that it names, as
/// U+0041, if it names one.
#[tactic(auto, unfolding(crate::specs::Messages::message_of))]
pub fn push_message(text: &mut String, diagnostic: &Diagnostic) -> Result<(), AllocError>
    ensures { OnOk result (string_bytes text.new ≡ string_bytes text.old ++ message_of diagnostic.now) }
{
    text.push_str(fault_in_words(diagnostic))?;
    push_named(text, diagnostic.character())
}
