//! Reading a number, good or at fault (ECMA-262 12.9.3 and B.1.1).

ghost use Rattle.std.specs.Prelude.{◌≡◌, ◌≤◌, ◌==◌, ◌++◌, ◌∷◌, [], false, IfOk, OnOk, OnErr, MatchBool};
ghost use Rattle.js_text.specs.Ascii.{full_stop};
ghost use Rattle.js_text.specs.Characters.{begins, before_first};
ghost use Rattle.js_grammar.specs.Number.{is_exponent_indicator, may_not_follow_number};
ghost use Rattle.js_kind.specs.Digits.{is_digit_of};
ghost use Rattle.js_grammar.specs.NumberReads.{missing_digit, exponent_or, fraction_items, behind_digits};
ghost use Rattle.js_grammar.specs.NumberReads.{decimal_items, legacy_items, number_items, is_no_start, missing_digits};
ghost use Rattle.js_grammar.specs.NumberReads.{number_reading};
ghost use Rattle.js_grammar.specs.Reading.{reported_at};
ghost use Rattle.js_spell.specs.Spells.{Spells};
ghost use Rattle.js_source.specs.Source.{rest};
ghost use Rattle.js_spell.specs.Numeric.{radix_of_digits, PassesDigits, PassesUnseparatedDigits, PassesGroups, end_of};
ghost use Rattle.js_spell.specs.Breaks.{BreaksOff};
ghost use Rattle.js_spell.specs.Numeric.{ReadsRun, ReadsPart, ReadsInteger, ReadsEnd, ReadsCut, ReadsBadEnd};
ghost use Rattle.js_spell.specs.Numeric.{ReadsNumber, LeadsWith, Leads, base_of_prefix, behind_base};
ghost use Rattle.js_spell.specs.Numeric.{TakesExponentIndicator};
ghost use Rattle.js_spell.specs.Numeric.{TakesSign};

use crate::digits::{Digits, table_of};
use crate::spelt::{Spelt, SpeltValue};
use js_kind::{Kind, Token};
use js_source::Source;
use js_text::{Diagnostic, DiagnosticList, Span, is_identifier_start};
use std::alloc::{AllocError, Global};

/// What passing digits came to.
#[derive(Clone, Copy)]
enum Passed {
    /// Digits alone, and no separator follows them.
    Whole,
    /// Digits and a separator, which a digit follows.
    Separator,
    /// Digits and a separator, which no digit follows.
    Broken,
}

/// A prefix, which names the base of a number.
#[derive(Clone, Copy)]
pub(crate) enum Prefix {
    Binary,
    Octal,
    Hex,
}

impl Prefix {
    /// The digits of numbers with the prefix.
    pub(crate) fn digits(self) -> Digits
        ensures { radix_of_digits result ≡ (base_of_prefix self).radix }
    {
        match self {
            Prefix::Binary => Digits::Binary,
            Prefix::Octal => Digits::Octal,
            Prefix::Hex => Digits::Hex,
        }
    }

    /// The kind of numbers with the prefix.
    pub(crate) fn kind(self) -> Kind
        ensures { result ≡ (base_of_prefix self).kind }
    {
        match self {
            Prefix::Binary => Kind::Binary,
            Prefix::Octal => Kind::Octal,
            Prefix::Hex => Kind::Hex,
        }
    }

    /// The kind of numbers with the prefix and a suffix `n`.
    pub(crate) fn big_kind(self) -> Kind
        ensures { result ≡ (base_of_prefix self).big_kind }
    {
        match self {
            Prefix::Binary => Kind::BinaryBigInt,
            Prefix::Octal => Kind::OctalBigInt,
            Prefix::Hex => Kind::HexBigInt,
        }
    }
}

/// Whether a digit is next.
#[inline(always)]
pub(crate) fn begins_digit(source: &Source<'_>, digits: Digits) -> bool
    ensures { result ≡ begins (is_digit_of (radix_of_digits digits)) (rest source.now) }
{
    match source.peek_byte() {
        Some(b) => table_of(digits)[b as usize],
        None => false,
    }
}

/// Passes the digits that are next, and a separator behind them.
#[inline(always)]
fn pass_digits(source: &mut Source<'_>, digits: Digits) -> Passed
    ensures { PassesDigits (radix_of_digits digits) source.old result source.new }
{
    source.pass_ascii(table_of(digits));
    if !source.advance_if_ascii_eq(b'_') {
        return Passed::Whole;
    }
    if begins_digit(source, digits) {
        Passed::Separator
    } else {
        Passed::Broken
    }
}

/// Reports that a digit is missing where the source stands.
#[inline(never)]
fn report_missing_digit(source: &Source<'_>, errors: &mut DiagnosticList) -> Result<(), AllocError>
    ensures ok { OnOk result (errors.new ≡ errors.old ++ missing_digit source.now.place (rest source.now) ∷ []) }
    ensures err { OnErr result (errors.new ≡ errors.old) }
{
    let span = Span::empty(source.offset());
    match source.peek_char() {
        Some(c) => errors.push(Diagnostic::InvalidCharacter { c, span }),
        None => errors.push(Diagnostic::UnexpectedEnd { span }),
    }
}

/// Passes the rest of a run, which a digit begins, and tells whether it is whole.
#[inline(always)]
fn pass_groups(source: &mut Source<'_>, has_separator: &mut bool, digits: Digits) -> bool
    ensures { PassesGroups
        (radix_of_digits digits) source.old (end_of result) source.new has_separator.old has_separator.new }
{
    'groups: loop {
        match pass_digits(source, digits) {
            Passed::Whole => return true,
            Passed::Separator => *has_separator = true,
            Passed::Broken => {
                *has_separator = true;
                return false;
            }
        }
    }
}

/// Reads a run of digits, and tells whether it is whole.
fn read_run(
    source: &mut Source<'_>,
    errors: &mut DiagnosticList,
    has_separator: &mut bool,
    digits: Digits,
) -> Result<bool, AllocError>
    ensures ok { IfOk result (ReadsRun
        (radix_of_digits digits) source.old source.new errors.old errors.new has_separator.old has_separator.new) }
    ensures err { OnErr result (BreaksOff [] source.old source.new errors.old errors.new) }
{
    if !begins_digit(source, digits) {
        report_missing_digit(source, errors)?;
        return Ok(false);
    }
    let is_whole = pass_groups(source, has_separator, digits);
    if !is_whole {
        report_missing_digit(source, errors)?;
    }
    Ok(is_whole)
}

/// Takes the mark of an exponent, if one is next.
#[inline(always)]
pub(crate) fn take_exponent_mark(source: &mut Source<'_>) -> bool
    ensures cases { MatchBool result (TakesExponentIndicator source.old source.new)
        ((begins is_exponent_indicator (rest source.old) ≡ false) × (source.new ≡ source.old)) }
    ensures onward { source.old.place ≤ source.new.place }
{
    if source.advance_if_ascii_eq(b'e') {
        return true;
    }
    source.advance_if_ascii_eq(b'E')
}

/// Takes the sign of an exponent, if one is next, and gives the kind of a number without a point that has it.
#[inline(always)]
pub(crate) fn take_sign(source: &mut Source<'_>) -> Kind
    ensures sign { TakesSign source.old source.new result }
    ensures onward { source.old.place ≤ source.new.place }
{
    if source.advance_if_ascii_eq(b'-') {
        return Kind::NegativeExponential;
    }
    source.advance_if_ascii_eq(b'+');
    Kind::PositiveExponential
}

/// Reads an exponent, if one is next, and gives the kind that it makes of a number of the kind.
fn read_exponent_or(
    source: &mut Source<'_>,
    errors: &mut DiagnosticList,
    has_separator: &mut bool,
    without: Kind,
) -> Result<Kind, AllocError>
    ensures ok { IfOk result (λ kind. ReadsEnd source.old source.new errors.old errors.new
        has_separator.old has_separator.new kind (exponent_or without (rest source.old))) }
    ensures err { OnErr result (BreaksOff [] source.old source.new errors.old errors.new) }
{
    if !take_exponent_mark(source) {
        return Ok(without);
    }
    let kind = take_sign(source);
    read_run(source, errors, has_separator, Digits::Decimal)?;
    Ok(kind)
}

/// Reads what follows a point: a fraction, if a digit is next, and an exponent, if one is next.
fn read_fraction(
    source: &mut Source<'_>,
    errors: &mut DiagnosticList,
    has_separator: &mut bool,
) -> Result<(), AllocError>
    ensures ok { OnOk result (ReadsPart source.old source.new errors.old errors.new
        has_separator.old has_separator.new (fraction_items (rest source.old))) }
    ensures err { OnErr result (BreaksOff (missing_digits source.old.place (fraction_items (rest source.old)).items)
        source.old source.new errors.old errors.new) }
{
    if !begins_digit(source, Digits::Decimal) {
        read_exponent_or(source, errors, has_separator, Kind::Float)?;
        return Ok(());
    }
    read_run(source, errors, has_separator, Digits::Decimal)?;
    read_exponent_or(source, errors, has_separator, Kind::Float)?;
    Ok(())
}

/// Reads what follows the digits that a point or an exponent may follow, and gives the number's kind.
fn read_behind_digits(
    source: &mut Source<'_>,
    errors: &mut DiagnosticList,
    has_separator: &mut bool,
) -> Result<Kind, AllocError>
    ensures ok { IfOk result (λ kind. ReadsEnd source.old source.new errors.old errors.new
        has_separator.old has_separator.new kind (behind_digits (rest source.old))) }
    ensures err { OnErr result (BreaksOff (missing_digits source.old.place (behind_digits (rest source.old)).items)
        source.old source.new errors.old errors.new) }
{
    if source.advance_if_ascii_eq(b'.') {
        read_fraction(source, errors, has_separator)?;
        return Ok(Kind::Float);
    }
    read_exponent_or(source, errors, has_separator, Kind::Decimal)
}

/// Reads the integer of a decimal number: `0`, or a run.
fn read_integer(
    source: &mut Source<'_>,
    errors: &mut DiagnosticList,
    has_separator: &mut bool,
) -> Result<(), AllocError>
    ensures ok { OnOk result (ReadsInteger source.old source.new errors.old errors.new
        has_separator.old has_separator.new) }
    ensures err { OnErr result (BreaksOff [] source.old source.new errors.old errors.new) }
{
    if source.advance_if_ascii_eq(b'0') {
        return Ok(());
    }
    read_run(source, errors, has_separator, Digits::Decimal)?;
    Ok(())
}

/// Reads a decimal number, from its integer on, and gives its kind.
fn read_decimal(
    source: &mut Source<'_>,
    errors: &mut DiagnosticList,
    has_separator: &mut bool,
) -> Result<Kind, AllocError>
    ensures ok { IfOk result (λ kind. ReadsEnd source.old source.new errors.old errors.new
        has_separator.old has_separator.new kind (decimal_items (rest source.old))) }
    ensures err { OnErr result (BreaksOff (missing_digits source.old.place (decimal_items (rest source.old)).items)
        source.old source.new errors.old errors.new) }
{
    read_integer(source, errors, has_separator)?;
    if source.advance_if_ascii_eq(b'n') {
        return Ok(Kind::DecimalBigInt);
    }
    read_behind_digits(source, errors, has_separator)
}

/// Passes the digits that are next, and tells whether all are octal.
fn pass_unseparated_digits(source: &mut Source<'_>) -> bool
    ensures { PassesUnseparatedDigits source.old result source.new }
{
    source.pass_ascii(table_of(Digits::Octal));
    if !begins_digit(source, Digits::Decimal) {
        return true;
    }
    source.pass_ascii(table_of(Digits::Decimal));
    false
}

/// Reads a number that begins with `0` and a digit, and gives its kind.
fn read_legacy(
    source: &mut Source<'_>,
    errors: &mut DiagnosticList,
    has_separator: &mut bool,
) -> Result<Kind, AllocError>
    ensures ok { IfOk result (λ kind. ReadsEnd source.old source.new errors.old errors.new
        has_separator.old has_separator.new kind (legacy_items (rest source.old))) }
    ensures err { OnErr result (BreaksOff (missing_digits source.old.place (legacy_items (rest source.old)).items)
        source.old source.new errors.old errors.new) }
{
    if pass_unseparated_digits(source) {
        return Ok(Kind::Octal);
    }
    read_behind_digits(source, errors, has_separator)
}

/// Reads the digits behind a prefix and what follows them, and gives the number's kind. Where a digit is missing, all
/// that is left of the source belongs to the token.
fn read_behind_prefix(
    source: &mut Source<'_>,
    errors: &mut DiagnosticList,
    has_separator: &mut bool,
    prefix: Prefix,
) -> Result<Kind, AllocError>
    ensures ok { IfOk result (λ kind. ReadsCut source.old source.new errors.old errors.new
        has_separator.old has_separator.new kind (behind_base (base_of_prefix prefix) (rest source.old))) }
    ensures err { OnErr result (BreaksOff [] source.old source.new errors.old errors.new) }
{
    let is_whole = read_run(source, errors, has_separator, prefix.digits())?;
    if !is_whole {
        source.advance_to_end();
        return Ok(Kind::Eof);
    }
    if source.advance_if_ascii_eq(b'n') {
        return Ok(prefix.big_kind());
    }
    Ok(prefix.kind())
}

/// How a number without a leading point begins.
#[derive(Clone, Copy)]
pub(crate) enum Lead {
    /// With a prefix.
    Prefix(Prefix),
    /// With `0` and a digit.
    Legacy,
    /// As a decimal number does.
    Decimal,
}

/// How a number begins that has this byte behind a leading `0`.
#[tactic(auto, unfolding(js_kind::specs::Digits::is_digit_of))]
fn behind_zero(b: u8) -> Lead
    ensures { LeadsWith result b }
{
    match b {
        b'b' | b'B' => Lead::Prefix(Prefix::Binary),
        b'o' | b'O' => Lead::Prefix(Prefix::Octal),
        b'x' | b'X' => Lead::Prefix(Prefix::Hex),
        b'0'..=b'9' => Lead::Legacy,
        _ => Lead::Decimal,
    }
}

/// How the number that is next begins.
pub(crate) fn find_lead(source: &Source<'_>) -> Lead
    requires { begins (λ c. c == full_stop) (rest source.now) ≡ false }
    ensures { Leads result (rest source.now) }
{
    let pair = match source.peek_2_bytes() {
        Some(pair) => pair,
        None => return Lead::Decimal,
    };
    if pair[0] != b'0' {
        return Lead::Decimal;
    }
    behind_zero(pair[1])
}

/// Reads the items of the number that is next, and gives its kind.
fn read_items(
    source: &mut Source<'_>,
    errors: &mut DiagnosticList,
    has_separator: &mut bool,
) -> Result<Kind, AllocError>
    ensures ok { IfOk result (λ kind. ReadsCut source.old source.new errors.old errors.new
        has_separator.old has_separator.new kind (number_items (rest source.old))) }
    ensures err { OnErr result (BreaksOff (missing_digits source.old.place (number_items (rest source.old)).items)
        source.old source.new errors.old errors.new) }
{
    if source.advance_if_ascii_eq(b'.') {
        read_fraction(source, errors, has_separator)?;
        return Ok(Kind::Float);
    }
    match find_lead(source) {
        Lead::Prefix(prefix) => {
            source.next_char();
            source.next_char();
            read_behind_prefix(source, errors, has_separator, prefix)
        }
        Lead::Legacy => read_legacy(source, errors, has_separator),
        Lead::Decimal => read_decimal(source, errors, has_separator),
    }
}

/// Passes the characters that are next and begin names.
fn skip_starts(source: &mut Source<'_>)
    ensures text { source.new.text ≡ source.old.text }
    ensures passed { rest source.old ≡ before_first is_no_start (rest source.old) ++ rest source.new }
    ensures onward { source.old.place ≤ source.new.place }
{
    'starts: while let Some(c) = source.peek_char() {
        if !is_identifier_start(c) {
            return;
        }
        source.next_char();
    }
}

/// Whether the character may not follow a number.
#[tactic(auto, unfolding(js_kind::specs::Digits::is_digit_of, js_grammar::specs::Number::may_not_follow_number))]
fn may_not_follow(c: char) -> bool
    ensures { result ≡ may_not_follow_number c }
{
    if c.is_digit(10) {
        return true;
    }
    is_identifier_start(c)
}

/// Reads what follows a number and may not, and all that is left of the source, if such a text is next; and tells so.
fn read_bad_end(source: &mut Source<'_>, errors: &mut DiagnosticList) -> Result<bool, AllocError>
    ensures ok { IfOk result (λ is_bad. ReadsBadEnd source.old source.new errors.old errors.new is_bad) }
    ensures err { OnErr result (BreaksOff [] source.old source.new errors.old errors.new) }
{
    match source.peek_char() {
        Some(c) if may_not_follow(c) => {}
        _ => return Ok(false),
    }
    let start = source.offset();
    source.next_char();
    skip_starts(source);
    let span = Span::new(start, source.offset());
    errors.push(Diagnostic::InvalidNumberEnd { span })?;
    source.advance_to_end();
    Ok(true)
}

/// The kind of a number, and whether a separator was read in it.
#[derive(Clone, Copy)]
struct Numeral {
    kind: Kind,
    has_separator: bool,
}

/// Reads the number that is next, with what follows it and may not.
fn read_numeral(source: &mut Source<'_>, errors: &mut DiagnosticList) -> Result<Numeral, AllocError>
    ensures ok { IfOk result (λ numeral.
        ReadsNumber source.old source.new errors.old errors.new numeral.kind numeral.has_separator) }
    ensures err { OnErr result (BreaksOff (reported_at source.old.place (number_reading (rest source.old)))
        source.old source.new errors.old errors.new) }
{
    let mut has_separator = false;
    let kind = read_items(source, errors, &mut has_separator)?;
    let is_bad = read_bad_end(source, errors)?;
    if is_bad {
        return Ok(Numeral {
            kind: Kind::Eof,
            has_separator,
        });
    }
    Ok(Numeral {
        kind,
        has_separator,
    })
}

/// Reads the number that is next, good or at fault: what is to be reported is added to the list, and the flags of the
/// token are set. Its start is where the number begins. A number asks for no memory but for what is reported.
pub fn read_number(
    _alloc: Global,
    source: &mut Source<'_>,
    errors: &mut DiagnosticList,
    token: &mut Token,
) -> Result<Spelt, AllocError>
    ensures ok { IfOk result (λ spelt.
        Spells (number_reading (rest source.old)) source.old.place source.old source.new errors.old errors.new token.old
        token.new spelt) }
    ensures err { OnErr result (BreaksOff (reported_at source.old.place (number_reading (rest source.old)))
        source.old source.new errors.old errors.new) }
    ensures token { OnErr result (token.new ≡ token.old) }
{
    let numeral = read_numeral(source, errors)?;
    token.set_escaped(false);
    token.set_has_separator(numeral.has_separator);
    Ok(Spelt {
        kind: numeral.kind,
        value: SpeltValue::Plain,
    })
}
