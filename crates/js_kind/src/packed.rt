//! The parts of a token in one number, by shifts and masks.

ghost use Rattle.std.specs.Prelude.{◌≡◌, ◌≤◌, ◌%◌, ◌^◌};
ghost use Rattle.js_kind.specs.TokenParts.{default_parts};
ghost use Rattle.js_kind.specs.Packed.{flag, packed, Replaces};

use crate::kind::Kind;
use js_text::Span;

/// The last byte.
#[inline(always)]
pub(crate) fn last_byte(word: u128) -> u8
    ensures { result ≡ word % 2 ^ 8 }
{
    (word & 0xFF) as u8
}

/// The last four bytes.
#[inline(always)]
pub(crate) fn last_4_bytes(word: u128) -> u32
    ensures { result ≡ word % 2 ^ 32 }
{
    (word & 0xFFFF_FFFF) as u32
}

/// The number with another byte at the place `shift`, in bits.
#[inline(always)]
pub(crate) fn put_byte(word: u128, shift: u32, byte: u8) -> u128
    requires { shift ≤ 120 }
    ensures { Replaces 8 shift word byte result }
{
    let mask = 0xFF << shift;
    word & !mask | (byte as u128) << shift
}

/// The number with four other bytes from the place `shift` on, in bits.
#[inline(always)]
pub(crate) fn put_4_bytes(word: u128, shift: u32, bytes: u32) -> u128
    requires { shift ≤ 96 }
    ensures { Replaces 32 shift word bytes result }
{
    let mask = 0xFFFF_FFFF << shift;
    word & !mask | (bytes as u128) << shift
}

/// A flag in a byte.
#[inline(always)]
pub(crate) fn byte_of(value: bool) -> u8
    ensures { result ≡ flag value }
{
    value as u8
}

/// A token with neither an escape nor a separator.
#[inline(always)]
pub(crate) fn pack(span: Span, kind: Kind, is_on_new_line: bool) -> u128
    ensures { result ≡ packed (record default_parts {
      start = span.start;
      end = span.end;
      kind = kind;
      is_on_new_line = is_on_new_line;
    }) }
{
    let high = (byte_of(is_on_new_line) as u64) << 8 | kind.number() as u64;
    let low = (span.end as u64) << 32 | span.start as u64;
    (high as u128) << 64 | low as u128
}
