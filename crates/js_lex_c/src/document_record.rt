//! The records that C sees of a document.

ghost use Rattle.std.specs.Prelude.{◌≡◌};
ghost use Rattle.js_lists.specs.Taken.{value_handed};
ghost use Rattle.js_lex_c.specs.DocumentRecords.{change_record, live_token_record, live_value_record, position_record};
ghost use Rattle.js_lex_c.specs.DocumentRecords.{range_record, value_stretch};
ghost use Rattle.js_lex_c.specs.Tokens.{value_units};

use crate::record::{JsSpan, span_record};
use crate::token::{token_flags, value_form};
use js_document::{Change, ChangedRange};
use js_kind::Token;
use js_lines::Position;
use js_lists::TokenValue;

/// A live token of a document.
#[repr(C)]
#[derive(Clone, Copy)]
pub struct JsLiveToken {
    /// Where it stands in the text, in bytes.
    pub span: JsSpan,
    /// The number of its kind.
    pub kind: u8,
    /// A sum of 1, 2 and 4, as that of a `JsToken`.
    pub flags: u8,
}

/// The value of a live token of a document.
#[repr(C)]
#[derive(Clone, Copy)]
pub struct JsLiveValue {
    /// The stretch of the text that it is, in bytes, with `form` 1, else 0 and 0.
    pub span: JsSpan,
    /// How many UTF-16 units it has, with `form` 2, else 0.
    pub unit_count: usize,
    /// What it is, as the `value_form` of a `JsToken`.
    pub form: u8,
}

/// What the last edit changed of a list. Of its items those from `start` on went, up to `old_end` of the old list, and
/// those up to `new_end` of the new one came. All before are the same; those behind moved.
#[repr(C)]
#[derive(Clone, Copy)]
pub struct JsRange {
    pub start: usize,
    pub old_end: usize,
    pub new_end: usize,
}

/// What the last edit changed.
#[repr(C)]
#[derive(Clone, Copy)]
pub struct JsChange {
    /// Of the live tokens, the comments and the diagnostics.
    pub tokens: JsRange,
    pub comments: JsRange,
    pub diagnostics: JsRange,
    /// How many readings at the front were kept, and how many behind them were made.
    pub kept_rows: usize,
    pub read_rows: usize,
    /// What stood at this offset of the old text or behind it, in bytes, stands as far behind `moved_to` of the new one.
    pub moved_from: u32,
    pub moved_to: u32,
}

/// A place by its line and its column, both from 0.
#[repr(C)]
#[derive(Clone, Copy)]
pub struct JsPosition {
    pub line: u32,
    pub column: u32,
}

/// A live token, as C sees it.
pub(crate) fn live_token_record(token: &Token) -> JsLiveToken
    ensures { result ≡ live_token_record token.now }
{
    JsLiveToken {
        span: JsSpan {
            start: token.start(),
            end: token.end(),
        },
        kind: token.kind_number(),
        flags: token_flags(token, false),
    }
}

/// The stretch of the text that a value is, of any other 0 and 0.
fn value_stretch(value: TokenValue<'_>) -> JsSpan
    ensures { result ≡ value_stretch (value_handed value.entry) }
{
    match value {
        TokenValue::Slice(span) => span_record(span),
        TokenValue::Nothing | TokenValue::Units(_) | TokenValue::Bad => JsSpan { start: 0, end: 0 },
    }
}

/// The units of a value that was decoded, of any other none.
pub(crate) fn value_units<'v>(value: TokenValue<'v>) -> &'v [u16]
    ensures { result.now ≡ value_units (value_handed value.entry) }
{
    match value {
        TokenValue::Units(text) => text.units(),
        TokenValue::Nothing | TokenValue::Slice(_) | TokenValue::Bad => &[],
    }
}

/// The value of a live token, as C sees it.
pub(crate) fn live_value_record(value: TokenValue<'_>) -> JsLiveValue
    ensures { result ≡ live_value_record (value_handed value.entry) }
{
    JsLiveValue {
        span: value_stretch(value),
        unit_count: value_units(value).len(),
        form: value_form(value),
    }
}

/// What an edit changed of a list, as C sees it.
fn range_record(range: ChangedRange) -> JsRange
    ensures { result ≡ range_record range }
{
    JsRange {
        start: range.start,
        old_end: range.old_end,
        new_end: range.new_end,
    }
}

/// What an edit changed, as C sees it.
pub(crate) fn change_record(change: Change) -> JsChange
    ensures { result ≡ change_record change }
{
    JsChange {
        tokens: range_record(change.tokens),
        comments: range_record(change.comments),
        diagnostics: range_record(change.diagnostics),
        kept_rows: change.kept_rows,
        read_rows: change.read_rows,
        moved_from: change.moved.from,
        moved_to: change.moved.to,
    }
}

/// A place, as C sees it.
pub(crate) fn position_record(position: Position) -> JsPosition
    ensures { result ≡ position_record position }
{
    JsPosition {
        line: position.line,
        column: position.column,
    }
}
