//! Tables of digits.

ghost use Rattle.js_kind.specs.Digits.{is_digit_of};
ghost use Rattle.js_source.specs.Runs.{TellsClass};
ghost use Rattle.js_spell.specs.Numeric.{radix_of_digits};

use js_source::of_each_byte;

/// The digits of a radix.
#[derive(Clone, Copy)]
pub(crate) enum Digits {
    Binary,
    Octal,
    Decimal,
    Hex,
}

/// `0` or `1`.
macro_rules! is_binary_digit {
    ($byte:literal) => {
        $byte == b'0' || $byte == b'1'
    };
}

/// The binary digits.
static BINARY: [bool; 256] = of_each_byte!(is_binary_digit);

/// `0` to `7`.
macro_rules! is_octal_digit {
    ($byte:literal) => {
        b'0' <= $byte && $byte <= b'7'
    };
}

/// The octal digits.
static OCTAL: [bool; 256] = of_each_byte!(is_octal_digit);

/// `0` to `9`.
macro_rules! is_decimal_digit {
    ($byte:literal) => {
        b'0' <= $byte && $byte <= b'9'
    };
}

/// The decimal digits.
static DECIMAL: [bool; 256] = of_each_byte!(is_decimal_digit);

/// `0` to `9`, `A` to `F` or `a` to `f`.
macro_rules! is_hex_digit {
    ($byte:literal) => {
        (b'0' <= $byte && $byte <= b'9')
            || (b'A' <= $byte && $byte <= b'F')
            || (b'a' <= $byte && $byte <= b'f')
    };
}

/// The hexadecimal digits.
static HEX: [bool; 256] = of_each_byte!(is_hex_digit);

/// The table of the digits of a radix.
#[inline(always)]
pub(crate) fn table_of(digits: Digits) -> &'static [bool; 256]
    ensures { TellsClass (is_digit_of (radix_of_digits digits)) result.now }
{
    match digits {
        Digits::Binary => &BINARY,
        Digits::Octal => &OCTAL,
        Digits::Decimal => &DECIMAL,
        Digits::Hex => &HEX,
    }
}
