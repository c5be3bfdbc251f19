//! The values of integers.

ghost use Rattle.std.specs.Prelude.{◌≡◌, ◌+◌, ◌*◌, ◌<◌, ◌≤◌, ◌^◌, ◌≢◌, true, is_some, IfOk, string_bytes};
ghost use Rattle.std.specs.Char.{digit_value};
ghost use Rattle.std.specs.List.{list_any};
ghost use Rattle.std.specs.Option.{SomeIff};
ghost use Rattle.js_kind.specs.Digits.{is_digit_of, radix_of};
ghost use Rattle.js_spell.specs.Integer.{prefix_of, legacy_prefix, behind_prefix, IsInteger, integer_digits};
ghost use Rattle.js_spell.specs.Integer.{integer_value};

use js_kind::Kind;
use std::alloc::{AllocError, Global};

/// What may stand between the digits of a number.
const SEPARATOR: u8 = b'_';

// The radix of the integers of a kind.
fn radix_of(kind: Kind) -> u32
    ensures radix { result ≡ radix_of kind }
    ensures from_two { 2 ≤ result }
    ensures to_sixteen { result ≤ 16 }
{
    match kind {
        Kind::Binary | Kind::BinaryBigInt => 2,
        Kind::Octal | Kind::OctalBigInt => 8,
        Kind::Hex | Kind::HexBigInt => 16,
        _ => 10,
    }
}

// The value of a digit, and 36 for any other byte.
fn digit_value(b: u8) -> u8
    ensures { result ≡ digit_value b }
{
    match b {
        b'0'..=b'9' => b - b'0',
        b'A'..=b'Z' => b - b'A' + 10,
        b'a'..=b'z' => b - b'a' + 10,
        _ => 36,
    }
}

// The integer behind its prefix.
fn behind_prefix(s: &str, kind: Kind) -> &[u8]
    requires prefix { is_some (prefix_of kind s.now) ≡ true }
    requires some_digit { list_any (is_digit_of (radix_of kind)) (behind_prefix kind s.now) ≡ true }
    ensures { result.now ≡ behind_prefix kind s.now }
{
    let bytes = s.as_bytes();
    match kind {
        Kind::Decimal => bytes,
        Kind::Octal if bytes[1] != b'o' && bytes[1] != b'O' => &bytes[1..],
        _ => &bytes[2..],
    }
}

// The value of digits to which one is added, if it is below 2 to the 128th.
fn with_digit(value: u128, radix: u32, digit: u8) -> Option<u128>
    ensures { SomeIff result (value * radix + digit_value digit < 2 ^ 128) (value * radix + digit_value digit) }
{
    let shifted = value.checked_mul(u128::from(radix))?;
    shifted.checked_add(u128::from(digit_value(digit)))
}

/// The value of an integer: `s` is the kind's prefix and digits, with `_` among them where `has_sep` is true. None if
/// the value is 2 to the 128th or more.
pub fn parse_int(s: &str, kind: Kind, has_sep: bool) -> Option<u128>
    requires { IsInteger s.now kind has_sep }
    ensures { SomeIff result (integer_value kind s.now < 2 ^ 128) (integer_value kind s.now) }
{
    let radix = radix_of(kind);
    let mut value: u128 = 0;
    for b in behind_prefix(s, kind) {
        if has_sep && *b == SEPARATOR {
            continue;
        }
        value = with_digit(value, radix, *b)?;
    }
    Some(value)
}

/// The digits of an integer without its prefix and without `_`, and the radix. The prefix is none of a legacy octal.
pub fn parse_big_int(
    alloc: Global,
    s: &str,
    kind: Kind,
    has_sep: bool,
) -> Result<(String, u32), AllocError>
    requires integer { IsInteger s.now kind has_sep }
    requires prefix { prefix_of kind s.now ≢ Some legacy_prefix }
    ensures digits { IfOk result (λ r. string_bytes r.0 ≡ integer_digits kind s.now) }
    ensures radix { IfOk result (λ r. r.1 ≡ radix_of kind) }
{
    let radix = radix_of(kind);
    let mut digits = String::new(alloc);
    for digit in behind_prefix(s, kind) {
        if has_sep && *digit == SEPARATOR {
            continue;
        }
        digits.push(char::from(*digit))?;
    }
    Ok((digits, radix))
}
