//! Tokens.

ghost use Rattle.std.specs.Prelude.{◌≡◌, ◌≤◌, ◌↔◌, IsTrue, true, false};
ghost use Rattle.js_kind.specs.Kinds.{number};
ghost use Rattle.js_kind.specs.TokenParts.{default_parts};

use crate::kind::Kind;
use crate::packed::{byte_of, last_4_bytes, last_byte, pack, put_4_bytes, put_byte};
use js_text::Span;
use std::marker::Model;

/// Where the parts of a token stand in its number, in bits.
const START: u32 = 0;

const END: u32 = 32;

const KIND: u32 = 64;

const NEW_LINE: u32 = 72;

const ESCAPED: u32 = 80;

const SEPARATOR: u32 = 88;

/// A token: where it stands in the source text, in bytes, its kind and three flags, in one number.
#[derive(Clone, Copy, PartialEq, Eq, Debug)]
pub struct Token {
    bits: u128,
}

impl Model for Token {
    ghost use Rattle.std.specs.Prelude.{ℕ};
    ghost use Rattle.std.proofs.Common.{ap};
    ghost use Rattle.js_kind.specs.TokenParts.{TokenParts};
    ghost use Rattle.js_kind.specs.Packed.{packed, unpacked, IsPacked};

    ghost Value = { TokenParts };

    ghost view = { λ t. unpacked t.bits };

    ghost invariant = { λ t. IsPacked t.bits };

    ghost inverse = { λ p. record { bits = packed p } };

    ghost inverse_ok = { λ a h. ap (λ (n : ℕ). record { bits = n }) h };
}

impl Default for Token {
    ghost is_default = { λ t. t ≡ default_parts };

    fn default() -> Token {
        Token::new(Kind::Eof, Span::empty(0), false)
    }
}

impl Token {
    /// A token with no escape and no separator in it.
    pub fn new(kind: Kind, span: Span, is_on_new_line: bool) -> Token
        requires { span.start ≤ span.end }
        ensures { result ≡ record default_parts {
          start = span.start;
          end = span.end;
          kind = kind;
          is_on_new_line = is_on_new_line;
        } }
    {
        Token {
            bits: pack(span, kind, is_on_new_line),
        }
    }

    /// The default token, but on a new line.
    pub fn new_on_new_line() -> Token
        ensures { result ≡ record default_parts { is_on_new_line = true } }
    {
        Token::new(Kind::Eof, Span::empty(0), true)
    }

    /// Where it stands in the source text, in bytes.
    pub fn span(&self) -> Span
        ensures { result ≡ record { start = self.now.start; end = self.now.end } }
    {
        Span {
            start: self.start(),
            end: self.end(),
        }
    }

    /// Where it starts, as an offset in bytes.
    pub fn start(&self) -> u32
        ensures { result ≡ self.now.start }
    {
        last_4_bytes(self.bits)
    }

    /// Where it ends, as an offset in bytes.
    pub fn end(&self) -> u32
        ensures { result ≡ self.now.end }
    {
        last_4_bytes(self.bits >> END)
    }

    /// What it is.
    pub fn kind(&self) -> Kind
        ensures { result ≡ self.now.kind }
    {
        Kind::from_number(last_byte(self.bits >> KIND))
    }

    /// The number of what it is, for tables by kinds.
    pub fn kind_number(&self) -> u8
        ensures { result ≡ number self.now.kind }
    {
        last_byte(self.bits >> KIND)
    }

    /// Whether the reading that gave it found that a line has ended in the gap before it, or inside it where it is a
    /// comment without an end, or that no token was read before it. One that was read again is on no new line.
    pub fn is_on_new_line(&self) -> bool
        ensures { result ≡ self.now.is_on_new_line }
    {
        last_byte(self.bits >> NEW_LINE) == 1
    }

    /// Whether it has an escape in it, or a line end that its value changes.
    pub fn escaped(&self) -> bool
        ensures { result ≡ self.now.escaped }
    {
        last_byte(self.bits >> ESCAPED) == 1
    }

    /// Whether it is a number with `_` between its digits.
    pub fn has_separator(&self) -> bool
        ensures { result ≡ self.now.has_separator }
    {
        last_byte(self.bits >> SEPARATOR) == 1
    }

    /// Sets where it stands, in bytes.
    pub fn set_span(&mut self, span: Span)
        requires { span.start ≤ span.end }
        ensures { self.new ≡ record self.old { start = span.start; end = span.end } }
    {
        self.bits = put_4_bytes(put_4_bytes(self.bits, START, span.start), END, span.end);
    }

    /// The start may pass the end.
    pub fn set_start(&mut self, start: u32)
        ensures { self.new ≡ record self.old { start = start } }
    {
        self.bits = put_4_bytes(self.bits, START, start);
    }

    /// Sets where it ends, as an offset in bytes.
    pub fn set_end(&mut self, end: u32)
        requires { self.old.start ≤ end }
        ensures { self.new ≡ record self.old { end = end } }
    {
        self.bits = put_4_bytes(self.bits, END, end);
    }

    /// Sets what it is.
    pub fn set_kind(&mut self, kind: Kind)
        ensures { self.new ≡ record self.old { kind = kind } }
    {
        self.bits = put_byte(self.bits, KIND, kind.number());
    }

    /// Sets whether a line has ended between the token before it and it.
    pub fn set_is_on_new_line(&mut self, value: bool)
        ensures { self.new ≡ record self.old { is_on_new_line = value } }
    {
        self.bits = put_byte(self.bits, NEW_LINE, byte_of(value));
    }

    /// Sets whether it has an escape in it.
    pub fn set_escaped(&mut self, escaped: bool)
        ensures { self.new ≡ record self.old { escaped = escaped } }
    {
        self.bits = put_byte(self.bits, ESCAPED, byte_of(escaped));
    }

    /// Sets whether it is a number with `_` between its digits.
    pub fn set_has_separator(&mut self, value: bool)
        ensures { self.new ≡ record self.old { has_separator = value } }
    {
        self.bits = put_byte(self.bits, SEPARATOR, byte_of(value));
    }

    /// Whether two tokens are the same in all parts.
    pub fn is_same(&self, other: &Token) -> bool
        ensures { IsTrue result ↔ (self.now ≡ other.now) }
    {
        self.bits == other.bits
    }
}

/// Tokens that `==` finds equal have equal parts, and the other way round.
pub fn equal_tokens_have_equal_parts(first: &Token, second: &Token) -> bool
    ensures { IsTrue result ↔ (first.now ≡ second.now) }
{
    let (_first, _second) = (first.bits, second.bits);
    *first == *second
}
