//! Reading the escapes of strings and templates (ECMA-262 12.9.4, 12.9.6 and B.1.1).

ghost use Rattle.std.specs.Prelude.{◌≡◌, ◌≤◌, ◌∷◌, ◌++◌, [], ℕ, true, IfOk, OnOk, OnErr};
ghost use Rattle.std.specs.Char.{digit_value};
ghost use Rattle.std.specs.Char.Escape.{encode_utf16};
ghost use Rattle.js_text.specs.Characters.{begins, is_line_terminator};
ghost use Rattle.js_text.specs.declared.diagnostic.Diagnostic.TheVariants.{UnterminatedString};
ghost use Rattle.js_kind.specs.Digits.{is_digit_of};
ghost use Rattle.js_grammar.specs.StringItems.{line_continuation, digits_escape, octal_escape, digit_in_template};
ghost use Rattle.js_grammar.specs.StringItems.{digit_escape, single_character, further_octal_digits, escape, stretch};
ghost use Rattle.js_grammar.specs.UnicodeEscape.{hex_digits, unicode_escape, last_code_point};
ghost use Rattle.js_source.specs.Source.{rest};
ghost use Rattle.js_spell.specs.Escape.{ReadsEscapeOf, ReadsEscape};

use crate::unicode_escape::{read_hex_digits, read_unicode_escape, take_digit};
use js_kind::Token;
use js_source::Source;
use js_text::{Diagnostic, DiagnosticList, JSStrBuilder, Span, is_line_terminator};
use std::alloc::AllocError;

/// What an escape stands for.
#[derive(Clone, Copy)]
pub(crate) enum Escaped {
    /// For no unit.
    Nothing,
    /// For this code point, which may be a surrogate.
    CodePoint(u32),
    /// It is no escape.
    Bad,
}

/// Passes what belongs to a line continuation behind its first character.
fn pass_line_continuation(source: &mut Source<'_>, c: char) -> Escaped
    ensures { ReadsEscapeOf (line_continuation c (rest source.old)) source.old source.new result }
{
    if c == '\r' {
        source.advance_if_ascii_eq(b'\n');
    }
    Escaped::Nothing
}

/// Reads the digits behind a `\x`.
fn read_hex_escape(source: &mut Source<'_>, letter: char) -> Escaped
    ensures { ReadsEscapeOf (digits_escape letter (hex_digits 2 (rest source.old))) source.old source.new result }
{
    match read_hex_digits(source, 2) {
        Some(unit) => Escaped::CodePoint(unit),
        None => Escaped::Bad,
    }
}

/// Reads what stands behind a `\u`.
fn read_code_point_escape(source: &mut Source<'_>, letter: char) -> Escaped
    ensures { ReadsEscapeOf
        (digits_escape letter (unicode_escape (rest source.old))) source.old source.new result }
{
    match read_unicode_escape(source) {
        Some(code_point) => Escaped::CodePoint(code_point),
        None => Escaped::Bad,
    }
}

/// How many octal digits may follow one of this value in an escape.
fn further_octal_digits(value: u32) -> u32
    ensures count { (c : ℕ) → digit_value c ≡ value → result ≡ further_octal_digits c }
    ensures few { result ≤ 2 }
{
    if value <= 3 { 2 } else { 1 }
}

/// Reads an octal escape behind its first digit.
fn read_octal_escape(source: &mut Source<'_>, first: char) -> Escaped
    requires { is_digit_of 8 first ≡ true }
    ensures { ReadsEscapeOf (octal_escape first (rest source.old)) source.old source.new result }
{
    let mut value = first as u32 - '0' as u32;
    'digits: for _ in 0..further_octal_digits(value) {
        match take_digit(source, 8) {
            Some(digit) => value = value * 8 + digit,
            None => return Escaped::CodePoint(value),
        }
    }
    Escaped::CodePoint(value)
}

/// Reads what belongs to an escape in a template behind its first digit.
fn read_digit_in_template(source: &mut Source<'_>, first: char) -> Escaped
    ensures { ReadsEscapeOf (digit_in_template first (rest source.old)) source.old source.new result }
{
    if first != '0' {
        return Escaped::Bad;
    }
    match take_digit(source, 10) {
        Some(_) => Escaped::Bad,
        None => Escaped::CodePoint(0),
    }
}

/// What a single character behind a `\` stands for.
#[tactic(auto, unfolding(js_grammar::specs::StringItems::single_character))]
fn single_character(c: char) -> char
    ensures meaning { result ≡ single_character c }
    ensures small { result ≤ last_code_point }
{
    match c {
        'b' => '\u{8}',
        'f' => '\u{C}',
        'n' => '\n',
        'r' => '\r',
        't' => '\t',
        'v' => '\u{B}',
        _ => c,
    }
}

/// Reads what belongs to an escape behind its first digit.
fn read_digit_escape(source: &mut Source<'_>, first: char, in_template: bool) -> Escaped
    requires { is_digit_of 10 first ≡ true }
    ensures { ReadsEscapeOf (digit_escape in_template first (rest source.old)) source.old source.new result }
{
    if in_template {
        return read_digit_in_template(source, first);
    }
    if first.is_digit(8) {
        return read_octal_escape(source, first);
    }
    Escaped::CodePoint(single_character(first) as u32)
}

/// Reads what belongs to an escape behind the first character that follows its `\`.
fn read_escape_of(source: &mut Source<'_>, first: char, in_template: bool) -> Escaped
    ensures { ReadsEscapeOf (escape in_template (first ∷ rest source.old)) source.old source.new result }
{
    if is_line_terminator(first) {
        return pass_line_continuation(source, first);
    }
    if first == 'x' {
        return read_hex_escape(source, first);
    }
    if first == 'u' {
        return read_code_point_escape(source, first);
    }
    if first.is_digit(10) {
        return read_digit_escape(source, first, in_template);
    }
    Escaped::CodePoint(single_character(first) as u32)
}

/// Adds the one or two units of a code point. A surrogate is added as it is.
fn push_code_point(text: &mut JSStrBuilder, code_point: u32) -> Result<(), AllocError>
    requires { code_point ≤ last_code_point }
    ensures ok { OnOk result (text.new ≡ text.old ++ encode_utf16 code_point) }
    ensures err { OnErr result (text.new ≡ text.old) }
{
    match char::from_u32(code_point) {
        Some(c) => text.push(c),
        None => text.push_unit(code_point as u16),
    }
}

/// Reports that the token, which begins at `start`, has no end where the source stands.
pub(crate) fn report_unterminated(
    source: &Source<'_>,
    errors: &mut DiagnosticList,
    start: u32,
) -> Result<(), AllocError>
    requires { start ≤ source.now.place }
    ensures ok { OnOk result (errors.new ≡ errors.old ++ UnterminatedString (stretch start source.now.place) ∷ []) }
    ensures err { OnErr result (errors.new ≡ errors.old) }
{
    let span = Span::new(start, source.offset());
    errors.push(Diagnostic::UnterminatedString { span })
}

/// Reads an escape of a string or a template behind its `\`, adds its UTF-16 units, and tells whether it is one; a bad
/// one adds none, and is not reported. Where the source ends behind the `\`, a token without an end is reported, from
/// the token's start on, and the answer is true.
pub fn read_escape(
    source: &mut Source<'_>,
    text: &mut JSStrBuilder,
    errors: &mut DiagnosticList,
    token: &Token,
    in_template: bool,
) -> Result<bool, AllocError>
    requires { token.now.start ≤ source.old.place }
    ensures ok { IfOk result (ReadsEscape
        in_template token.now.start source.old source.new text.old text.new errors.old errors.new) }
    ensures text { OnErr result (text.new ≡ text.old) }
    ensures errors { OnErr result (errors.new ≡ errors.old) }
    ensures same_text { source.new.text ≡ source.old.text }
    ensures onward { source.old.place ≤ source.new.place }
{
    let first = match source.next_char() {
        Some(first) => first,
        None => {
            report_unterminated(source, errors, token.start())?;
            return Ok(true);
        }
    };
    match read_escape_of(source, first, in_template) {
        Escaped::Nothing => Ok(true),
        Escaped::Bad => Ok(false),
        Escaped::CodePoint(code_point) => {
            push_code_point(text, code_point)?;
            Ok(true)
        }
    }
}
