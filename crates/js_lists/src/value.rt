//! The values of tokens that a lexer has read.

ghost use Rattle.std.specs.Prelude.{◌≡◌, ◌≤◌, true, is_some};
ghost use Rattle.js_grammar.specs.TokenText.{text_start, text_end, unescaped_value};
ghost use Rattle.js_kind.specs.Kinds.{is_template_kind};
ghost use Rattle.js_reader.specs.Decoded.{value_of};
ghost use Rattle.js_session.specs.RowReader.{HoldsKept, HoldsPart, HoldsUnits, HoldsValue, IsKept};
ghost use Rattle.js_lists.specs.Taken.{value_handed};

use crate::take::TokenValue;
use js_kind::{LexerConfig, Token};
use js_lexer::{Lexer, is_template, is_valued, text_span};
use js_text::{JsText, TemplateValue};

/// The value of a token without an escape.
#[inline(always)]
pub(crate) fn unescaped_value(token: &Token) -> TokenValue<'static>
    requires { text_start token.now.kind token.now.start ≤ text_end token.now.kind token.now.end }
    ensures { value_handed result ≡ unescaped_value token.now.kind token.now.start token.now.end }
{
    if !is_valued(token.kind()) {
        return TokenValue::Nothing;
    }
    match text_span(token) {
        Some(span) => TokenValue::Slice(span),
        None => unreachable!(),
    }
}

/// The value of a name or a string with an escape, which the lexer has decoded.
fn decoded_value<'l, C: LexerConfig + Drop>(
    lexer: &'l Lexer<'_, C>,
    token: &Token,
) -> TokenValue<'l>
    requires escaped { token.now.escaped ≡ true }
    requires value { is_some (value_of lexer.now.decoded.strings token.now.start) ≡ true }
    ensures { HoldsUnits (value_of lexer.now.decoded.strings token.now.start) (value_handed result) }
{
    match lexer.get_string(*token) {
        Some(JsText::Decoded(text)) => TokenValue::Units(text),
        _ => unreachable!(),
    }
}

/// The value of a part of a template in which something is escaped, which the lexer has decoded.
fn part_value<'l, C: LexerConfig + Drop>(lexer: &'l Lexer<'_, C>, token: &Token) -> TokenValue<'l>
    requires template { is_template_kind token.now.kind ≡ true }
    requires escaped { token.now.escaped ≡ true }
    requires value { is_some (value_of lexer.now.decoded.templates token.now.start) ≡ true }
    ensures { HoldsPart (value_of lexer.now.decoded.templates token.now.start) (value_handed result) }
{
    match lexer.get_template_string(*token) {
        Some(TemplateValue::Text(JsText::Decoded(text))) => TokenValue::Units(text),
        Some(TemplateValue::Bad) => TokenValue::Bad,
        _ => unreachable!(),
    }
}

/// The value of a token with an escape, which the lexer has decoded.
#[cold]
#[inline(never)]
fn kept_value<'l, C: LexerConfig + Drop>(lexer: &'l Lexer<'_, C>, token: &Token) -> TokenValue<'l>
    requires escaped { token.now.escaped ≡ true }
    requires value { IsKept (is_template_kind token.now.kind) lexer.now.decoded token.now.start }
    ensures { HoldsKept (is_template_kind token.now.kind) lexer.now.decoded token.now.start (value_handed result) }
{
    if is_template(token.kind()) {
        part_value(lexer, token)
    } else {
        decoded_value(lexer, token)
    }
}

/// The value of a token that was read.
#[inline(always)]
pub(crate) fn value_of<'l, C: LexerConfig + Drop>(
    lexer: &'l Lexer<'_, C>,
    token: &Token,
) -> TokenValue<'l>
    requires ordered { text_start token.now.kind token.now.start ≤ text_end token.now.kind token.now.end }
    requires value { token.now.escaped ≡ true
        → IsKept (is_template_kind token.now.kind) lexer.now.decoded token.now.start }
    ensures { HoldsValue lexer.now.decoded token.now (value_handed result) }
{
    if token.escaped() {
        kept_value(lexer, token)
    } else {
        unescaped_value(token)
    }
}
