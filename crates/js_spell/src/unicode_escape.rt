//! Reading unicode escapes (ECMA-262 12.9.4).

ghost use Rattle.std.specs.Prelude.{◌≡◌, ◌≤◌, ◌<◌, ◌^◌, true, false, IfNone, IfSome};
ghost use Rattle.std.specs.Char.{digit_value};
ghost use Rattle.js_kind.specs.Digits.{is_digit_of};
ghost use Rattle.js_grammar.specs.UnicodeEscape.{hex_digits, braced_digits, unicode_escape, last_code_point};
ghost use Rattle.js_source.specs.Source.{rest};
ghost use Rattle.js_spell.specs.Escape.{TellsValues, TakesDigit, ReadsUnicodeEscape};

use js_source::Source;

/// The greatest code point.
const LAST_CODE_POINT: u32 = 0x10FFFF;

/// Takes a digit of the radix, if one is next, and gives its value.
pub(crate) fn take_digit(source: &mut Source<'_>, radix: u32) -> Option<u32>
    requires least { 2 ≤ radix }
    requires greatest { radix ≤ 16 }
    ensures digit { TakesDigit radix source.old source.new result }
    ensures value { IfSome result (λ value. value < radix) }
{
    let value = source.peek_char()?.to_digit(radix)?;
    source.next_char();
    Some(value)
}

/// The value of each byte as a digit of any radix up to 36, and 36 for what is no digit.
static DIGIT_VALUES: [u8; 256] = [
    36, 36, 36, 36, 36, 36, 36, 36, 36, 36, 36, 36, 36, 36, 36, 36, 36, 36, 36, 36, 36, 36, 36, 36,
    36, 36, 36, 36, 36, 36, 36, 36, 36, 36, 36, 36, 36, 36, 36, 36, 36, 36, 36, 36, 36, 36, 36, 36,
    0, 1, 2, 3, 4, 5, 6, 7, 8, 9, 36, 36, 36, 36, 36, 36, 36, 10, 11, 12, 13, 14, 15, 16, 17, 18,
    19, 20, 21, 22, 23, 24, 25, 26, 27, 28, 29, 30, 31, 32, 33, 34, 35, 36, 36, 36, 36, 36, 36, 10,
    11, 12, 13, 14, 15, 16, 17, 18, 19, 20, 21, 22, 23, 24, 25, 26, 27, 28, 29, 30, 31, 32, 33, 34,
    35, 36, 36, 36, 36, 36, 36, 36, 36, 36, 36, 36, 36, 36, 36, 36, 36, 36, 36, 36, 36, 36, 36, 36,
    36, 36, 36, 36, 36, 36, 36, 36, 36, 36, 36, 36, 36, 36, 36, 36, 36, 36, 36, 36, 36, 36, 36, 36,
    36, 36, 36, 36, 36, 36, 36, 36, 36, 36, 36, 36, 36, 36, 36, 36, 36, 36, 36, 36, 36, 36, 36, 36,
    36, 36, 36, 36, 36, 36, 36, 36, 36, 36, 36, 36, 36, 36, 36, 36, 36, 36, 36, 36, 36, 36, 36, 36,
    36, 36, 36, 36, 36, 36, 36, 36, 36, 36, 36, 36, 36, 36, 36, 36, 36, 36, 36, 36, 36, 36, 36, 36,
    36, 36, 36, 36, 36, 36, 36, 36, 36, 36, 36, 36, 36, 36,
];

/// The table of the values of digits.
#[inline(always)]
fn digit_values() -> &'static [u8; 256]
    ensures { TellsValues result.now }
{
    &DIGIT_VALUES
}

/// The value of the byte as a hexadecimal digit, if it is one.
#[inline(always)]
#[tactic(auto, unfolding(js_kind::specs::Digits::is_digit_of))]
fn hex_value(b: u8) -> Option<u32>
    ensures none { IfNone result (is_digit_of 16 b ≡ false) }
    ensures some { IfSome result (λ value. (is_digit_of 16 b ≡ true) × (digit_value b ≡ value)) }
    ensures value { IfSome result (λ value. value < 16) }
{
    let value = u32::from(digit_values()[b as usize]);
    if value < 16 { Some(value) } else { None }
}

/// Takes a hexadecimal digit, if one is next, and gives its value.
#[inline(always)]
fn take_hex_digit(source: &mut Source<'_>) -> Option<u32>
    ensures digit { TakesDigit 16 source.old source.new result }
    ensures value { IfSome result (λ value. value < 16) }
{
    let b = source.peek_byte()?;
    let value = hex_value(b)?;
    source.next_ascii(b);
    Some(value)
}

/// Reads just so many hexadecimal digits and gives their value, or reads those that are there.
pub(crate) fn read_hex_digits(source: &mut Source<'_>, count: u32) -> Option<u32>
    requires { count ≤ 4 }
    ensures read { ReadsUnicodeEscape (hex_digits count (rest source.old)) source.old source.new result }
    ensures small { IfSome result (λ value. value < 16 ^ count) }
{
    let mut value = 0;
    'digits: for _ in 0..count {
        value = value * 16 + take_hex_digit(source)?;
    }
    Some(value)
}

/// Reads the digits of a code point behind a `{`, and the `}`.
fn read_braced_digits(source: &mut Source<'_>) -> Option<u32>
    ensures read { ReadsUnicodeEscape (braced_digits (rest source.old)) source.old source.new result }
    ensures small { IfSome result (λ value. value ≤ last_code_point) }
{
    let mut value = take_hex_digit(source)?;
    'digits: while let Some(digit) = take_hex_digit(source) {
        value = value * 16 + digit;
        if value > LAST_CODE_POINT {
            return None;
        }
    }
    if source.advance_if_ascii_eq(b'}') {
        Some(value)
    } else {
        None
    }
}

/// Reads what stands behind the `\u` of an escape: four hexadecimal digits, or a code point in braces. It gives the
/// code point, which may be a surrogate; None: the escape is none, and breaks off before the first character that does
/// not fit, or behind the digit that passes 10FFFF.
pub(crate) fn read_unicode_escape(source: &mut Source<'_>) -> Option<u32>
    ensures read { ReadsUnicodeEscape (unicode_escape (rest source.old)) source.old source.new result }
    ensures small { IfSome result (λ value. value ≤ last_code_point) }
{
    if source.advance_if_ascii_eq(b'{') {
        return read_braced_digits(source);
    }
    read_hex_digits(source, 4)
}
