//! Reading a number without a separator and without a fault (ECMA-262 12.9.3).

ghost use Rattle.std.specs.Prelude.{◌≡◌, ◌<◌, ◌≤◌, ◌⊎◌, length, List, false, true, IfNone, IfSome, MatchBool};
ghost use Rattle.js_text.specs.Characters.{begins};
ghost use Rattle.js_text.specs.declared.diagnostic.Diagnostic.{Diagnostic};
ghost use Rattle.js_kind.specs.Digits.{is_digit_of};
ghost use Rattle.js_kind.specs.declared.kind.Kind.TheVariants.{DecimalBigInt};
ghost use Rattle.js_grammar.specs.Number.{may_not_follow_number};
ghost use Rattle.js_grammar.specs.NumberReads.{behind_digits, decimal_items, exponent_or, fraction_items};
ghost use Rattle.js_grammar.specs.NumberReads.{number_items, suffix_or};
ghost use Rattle.js_source.specs.Source.{rest, HasFirstByte};
ghost use Rattle.js_spell.specs.Numeric.{ReadsInteger, ReadsPart, ReadsEnd, ReadsCut, SpellsUnseparatedNumber, MayGoOn};
ghost use Rattle.js_spell.specs.Numeric.{FollowsInteger, HasPrefix};

use crate::digits::{Digits, table_of};
use crate::numeric::{Lead, Prefix, begins_digit, find_lead, take_exponent_mark, take_sign};
use crate::parts::name_parts;
use js_kind::Kind;
use js_source::Source;

/// Passes an integer without separators, which begins with the digit `b`: `0`, or all digits.
#[inline(always)]
fn pass_integer(source: &mut Source<'_>, b: u8)
    requires ascii { b < 128 }
    requires next { HasFirstByte b (rest source.old) }
    requires digit { is_digit_of 10 b ≡ true }
    ensures reads { FollowsInteger (rest source.new) → (errors : List Diagnostic)
        → ReadsInteger source.old source.new errors errors false false }
    ensures items { FollowsInteger (rest source.new)
        → number_items (rest source.old) ≡ decimal_items (rest source.old) }
    ensures fewer { length (rest source.new) < length (rest source.old) }
    ensures text { source.new.text ≡ source.old.text }
{
    if b == b'0' {
        source.next_ascii(b);
        return;
    }
    source.pass_ascii(table_of(Digits::Decimal));
}

/// Passes an exponent, if one is next that has a digit, and gives the kind that it makes of a number of the kind.
#[inline(always)]
fn pass_exponent_or(source: &mut Source<'_>, without: Kind) -> Kind
    ensures reads { begins may_not_follow_number (rest source.new) ≡ false → (errors : List Diagnostic)
        → ReadsEnd source.old source.new errors errors false false result (exponent_or without (rest source.old)) }
    ensures follows { begins may_not_follow_number (rest source.new) ≡ false → FollowsInteger (rest source.old) }
    ensures text { source.new.text ≡ source.old.text }
{
    let start = source.position();
    if !take_exponent_mark(source) {
        return without;
    }
    let kind = take_sign(source);
    if !begins_digit(source, Digits::Decimal) {
        source.set_position(start);
        return without;
    }
    source.pass_ascii(table_of(Digits::Decimal));
    kind
}

/// Passes the digits that are next behind a point, and an exponent.
#[inline(always)]
fn pass_fraction(source: &mut Source<'_>)
    ensures reads { begins may_not_follow_number (rest source.new) ≡ false → (errors : List Diagnostic)
        → ReadsPart source.old source.new errors errors false false (fraction_items (rest source.old)) }
    ensures text { source.new.text ≡ source.old.text }
{
    if begins_digit(source, Digits::Decimal) {
        source.pass_ascii(table_of(Digits::Decimal));
        pass_exponent_or(source, Kind::Float);
        return;
    }
    pass_exponent_or(source, Kind::Float);
}

/// Reads what follows an integer: a point and what stands behind it, a suffix `n` or an exponent, if one is next; and
/// gives the number's kind.
#[inline(always)]
fn read_behind_integer(source: &mut Source<'_>) -> Kind
    ensures reads { begins may_not_follow_number (rest source.new) ≡ false → (errors : List Diagnostic)
        → ReadsEnd source.old source.new errors errors false false result
        (suffix_or DecimalBigInt (behind_digits (rest source.old)) (rest source.old)) }
    ensures follows { begins may_not_follow_number (rest source.new) ≡ false → FollowsInteger (rest source.old) }
    ensures text { source.new.text ≡ source.old.text }
{
    if source.advance_if_ascii_eq(b'.') {
        pass_fraction(source);
        return Kind::Float;
    }
    if source.advance_if_ascii_eq(b'n') {
        return Kind::DecimalBigInt;
    }
    pass_exponent_or(source, Kind::Decimal)
}

/// Reads the number with the prefix that is next, and gives its kind. Where no digit follows the prefix, the source
/// does not move.
#[inline(always)]
fn read_prefixed(source: &mut Source<'_>, prefix: Prefix) -> Kind
    requires { HasPrefix prefix (rest source.old) }
    ensures reads { begins may_not_follow_number (rest source.new) ≡ false → (errors : List Diagnostic)
        → ReadsCut source.old source.new errors errors false false result (number_items (rest source.old)) }
    ensures text { source.new.text ≡ source.old.text }
{
    let start = source.position();
    source.next_char();
    source.next_char();
    let digits = prefix.digits();
    if !begins_digit(source, digits) {
        source.set_position(start);
        return prefix.kind();
    }
    source.pass_ascii(table_of(digits));
    if source.advance_if_ascii_eq(b'n') {
        return prefix.big_kind();
    }
    prefix.kind()
}

/// Reads the decimal number that is next and begins with the digit `b`, and gives its kind.
#[inline(always)]
fn read_decimal(source: &mut Source<'_>, b: u8) -> Kind
    requires ascii { b < 128 }
    requires next { HasFirstByte b (rest source.old) }
    requires digit { is_digit_of 10 b ≡ true }
    ensures reads { begins may_not_follow_number (rest source.new) ≡ false → (errors : List Diagnostic)
        → ReadsCut source.old source.new errors errors false false result (number_items (rest source.old)) }
    ensures text { source.new.text ≡ source.old.text }
{
    pass_integer(source, b);
    read_behind_integer(source)
}

/// Reads the number that is next and begins with the digit `b`, and gives its kind.
#[inline(always)]
fn read_items(source: &mut Source<'_>, b: u8) -> Kind
    requires ascii { b < 128 }
    requires next { HasFirstByte b (rest source.old) }
    requires digit { is_digit_of 10 b ≡ true }
    ensures reads { begins may_not_follow_number (rest source.new) ≡ false → (errors : List Diagnostic)
        → ReadsCut source.old source.new errors errors false false result (number_items (rest source.old)) }
    ensures text { source.new.text ≡ source.old.text }
{
    if b == b'0' {
        if let Lead::Prefix(prefix) = find_lead(source) {
            return read_prefixed(source, prefix);
        }
    }
    read_decimal(source, b)
}

/// Whether the byte is an ASCII character that may follow a number.
#[inline(always)]
fn may_follow(b: u8) -> bool
    ensures { MatchBool result ((b < 128) × (may_not_follow_number b ≡ false))
        ((128 ≤ b) ⊎ (may_not_follow_number b ≡ true)) }
{
    if b >= 128 {
        return false;
    }
    !name_parts()[b as usize]
}

/// Whether a number may end here, where no character past ASCII is next.
#[inline(always)]
fn ends_number(source: &Source<'_>) -> bool
    ensures { MatchBool result (begins may_not_follow_number (rest source.now) ≡ false) (MayGoOn (rest source.now)) }
{
    match source.peek_byte() {
        Some(b) => may_follow(b),
        None => true,
    }
}

/// Reads the number that is next and begins with the digit `b`, where it has no separator and no fault, and no
/// character past ASCII follows it (ECMA-262 12.9.3). None: it goes on where the source stands then, in the same text.
#[inline(always)]
pub fn read_unseparated_number(source: &mut Source<'_>, b: u8) -> Option<Kind>
    requires ascii { b < 128 }
    requires next { HasFirstByte b (rest source.old) }
    requires digit { is_digit_of 10 b ≡ true }
    ensures some { IfSome result (SpellsUnseparatedNumber source.old source.new) }
    ensures none { IfNone result (MayGoOn (rest source.new)) }
    ensures text { source.new.text ≡ source.old.text }
{
    let kind = read_items(source, b);
    if !ends_number(source) {
        return None;
    }
    Some(kind)
}
