//! Tokens as C sees them, and the pool of their decoded values.

ghost use Rattle.std.specs.Prelude.{◌≡◌, ◌≤◌, ◌+◌, IfOk};
ghost use Rattle.js_lists.specs.Taken.{taken_as, value_handed};
ghost use Rattle.js_lex_c.specs.Tokens.{bit, has_flags_error, pattern_end_of, regex_flags_of, value_form, value_span};
ghost use Rattle.js_lex_c.specs.Tokens.{token_flags, token_record};

use crate::record::{JsSpan, JsToken, span_record};
use bitflags::Flags;
use js_kind::Token;
use js_lists::TokenValue;
use js_text::RegexInfo;
use std::alloc::AllocError;

/// The value of a bit that is set.
fn bit(set: bool, value: u8) -> u8
    ensures value { result ≡ bit set value }
    ensures few { result ≤ value }
{
    if set { value } else { 0 }
}

/// Whether a flag is unknown or stands twice.
fn has_flags_error(regex: Option<RegexInfo>) -> bool
    ensures { result ≡ has_flags_error regex }
{
    match regex {
        Some(info) => info.flags_error,
        None => false,
    }
}

/// Where the pattern ends, of no regular expression 0.
fn pattern_end_of(regex: Option<RegexInfo>) -> u32
    ensures { result ≡ pattern_end_of regex }
{
    match regex {
        Some(info) => info.pattern_end,
        None => 0,
    }
}

/// The bits of the flags, of no regular expression 0.
fn regex_flags_of(regex: Option<RegexInfo>) -> u8
    ensures { result ≡ regex_flags_of regex }
{
    match regex {
        Some(info) => info.flags.bits(),
        None => 0,
    }
}

/// The flags of a token, one bit each.
pub(crate) fn token_flags(token: &Token, flags_error: bool) -> u8
    ensures { result ≡ token_flags token.now flags_error }
{
    bit(token.is_on_new_line(), 1)
        + bit(token.escaped(), 2)
        + bit(token.has_separator(), 4)
        + bit(flags_error, 8)
}

/// How a value is told.
pub(crate) fn value_form(value: TokenValue<'_>) -> u8
    ensures { result ≡ value_form (value_handed value.entry) }
{
    match value {
        TokenValue::Nothing => 0,
        TokenValue::Slice(_) => 1,
        TokenValue::Units(_) => 2,
        TokenValue::Bad => 3,
    }
}

/// The stretch of so many units of the pool, where so many stand before it. It has to end below 2^32: else it is too
/// large, as if there were no memory for it.
fn pool_span(before: usize, count: usize) -> Result<JsSpan, AllocError>
    ensures { IfOk result (λ span. span ≡ record { start = before; end = before + count }) }
{
    let Some(end) = before.checked_add(count) else {
        return Err(AllocError);
    };
    if end > u32::MAX as usize {
        return Err(AllocError);
    }
    Ok(JsSpan {
        start: before as u32,
        end: end as u32,
    })
}

/// Where a value is, with so many units in the pool before it.
#[inline(always)]
fn value_span(before: usize, value: TokenValue<'_>) -> Result<JsSpan, AllocError>
    ensures { IfOk result (λ span. span ≡ value_span before (value_handed value.entry)) }
{
    match value {
        TokenValue::Slice(span) => Ok(span_record(span)),
        TokenValue::Units(text) => pool_span(before, text.units().len()),
        TokenValue::Nothing | TokenValue::Bad => Ok(JsSpan { start: 0, end: 0 }),
    }
}

/// A token, as C sees it, with so many units in the pool before its value.
#[inline(always)]
pub(crate) fn token_record(
    before: usize,
    token: &Token,
    value: TokenValue<'_>,
    regex: Option<RegexInfo>,
) -> Result<JsToken, AllocError>
    ensures { IfOk result (λ found. found ≡ token_record before (taken_as token.now value.entry regex)) }
{
    Ok(JsToken {
        span: JsSpan {
            start: token.start(),
            end: token.end(),
        },
        value: value_span(before, value)?,
        pattern_end: pattern_end_of(regex),
        kind: token.kind_number(),
        flags: token_flags(token, has_flags_error(regex)),
        regex_flags: regex_flags_of(regex),
        value_form: value_form(value),
    })
}
