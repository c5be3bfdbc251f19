//! The values of tokens, on both sides of an edit.

use crate::edits::{Edits, make_edits};
use js_document::{AutoState, Document, Edit};
use js_lists::TokenValue;
use js_text::JsText;
use std::marker::Brand;
use std::sync::ledger::Blank;
use std::test::Fail;

/// The value of a token: none, a stretch of the text, UTF-16 units, or a bad one.
pub(crate) enum Value {
    None,
    Slice(u32, u32),
    Units(&'static [u16]),
    Bad,
}

/// The text of a value: none, a stretch of the text, or UTF-16 units.
enum Text {
    None,
    Source(&'static str),
    Decoded(&'static [u16]),
}

/// A string and a name with escapes, a template, a surrogate that is alone, a template with an escape that stands for
/// nothing, a number, and a name.
///
/// What comes for the `g` has two bytes more, and all behind it is moved by them.
static EDITS: Edits<'static> = Edits {
    text: "a = 'b\\x63', \\u0064e = `f${g}\\n`; '\\uD800' + `\\u{` + 1 + k",
    edits: &[Edit {
        start: 27,
        end: 28,
        text: "hij",
    }],
};

/// The values of all tokens, in order.
static VALUES: [Value; 18] = [
    Value::Slice(0, 1),
    Value::None,
    Value::Units(&[0x62, 0x63]),
    Value::None,
    Value::Units(&[0x64, 0x65]),
    Value::None,
    Value::Slice(24, 25),
    Value::Slice(27, 30),
    Value::Units(&[0x0A]),
    Value::None,
    Value::Units(&[0xD800]),
    Value::None,
    Value::Bad,
    Value::None,
    Value::None,
    Value::None,
    Value::Slice(59, 60),
    Value::None,
];

/// An offset, the value of the token that has the byte there, and its text.
static PLACES: [(u32, Value, Text); 13] = [
    (0, Value::Slice(0, 1), Text::Source("a")),
    (2, Value::None, Text::None),
    (4, Value::Units(&[0x62, 0x63]), Text::Decoded(&[0x62, 0x63])),
    (
        10,
        Value::Units(&[0x62, 0x63]),
        Text::Decoded(&[0x62, 0x63]),
    ),
    (
        19,
        Value::Units(&[0x64, 0x65]),
        Text::Decoded(&[0x64, 0x65]),
    ),
    (23, Value::Slice(24, 25), Text::Source("f")),
    (29, Value::Slice(27, 30), Text::Source("hij")),
    (30, Value::Units(&[0x0A]), Text::Decoded(&[0x0A])),
    (33, Value::Units(&[0x0A]), Text::Decoded(&[0x0A])),
    (36, Value::Units(&[0xD800]), Text::Decoded(&[0xD800])),
    (51, Value::Bad, Text::None),
    (55, Value::None, Text::None),
    (59, Value::Slice(59, 60), Text::Source("k")),
];

/// Offsets of bytes that belong to no token, and one behind the text.
static GAPS: [u32; 4] = [1, 12, 44, 60];

/// Whether the value is the wanted one.
pub(crate) fn is_value(value: TokenValue<'_>, wanted: &Value) -> bool {
    match (value, wanted) {
        (TokenValue::Nothing, Value::None) | (TokenValue::Bad, Value::Bad) => true,
        (TokenValue::Slice(span), Value::Slice(start, end)) => {
            span.start == *start && span.end == *end
        }
        (TokenValue::Units(text), Value::Units(units)) => text.units() == *units,
        _ => false,
    }
}

fn is_text(text: Option<JsText<'_>>, wanted: &Text) -> bool {
    match (text, wanted) {
        (None, Text::None) => true,
        (Some(JsText::Source(found)), Text::Source(text)) => found == *text,
        (Some(JsText::Decoded(found)), Text::Decoded(units)) => found.units() == *units,
        _ => false,
    }
}

/// The index of the first value that is another one than is listed, or of the first that is missing or too many.
fn wrong_value(document: &Document<AutoState>) -> Option<u32> {
    let mut wanted = VALUES.iter();
    let mut index: u32 = 0;
    for value in document.values() {
        match wanted.next() {
            Some(listed) if is_value(value, listed) => index = index.saturating_add(1),
            _ => return Some(index),
        }
    }
    match wanted.next() {
        Some(_) => Some(index),
        None => None,
    }
}

/// The first offset at which there is another value, or another text, than is listed.
fn wrong_place(document: &Document<AutoState>) -> Option<u32> {
    for (offset, value, text) in &PLACES {
        match document.value_at(*offset) {
            Some(found) if is_value(found, value) && is_text(document.text_of(found), text) => {}
            _ => return Some(*offset),
        }
    }
    None
}

/// The first offset that has a value, of those that should have none.
fn wrong_gap(document: &Document<AutoState>) -> Option<u32> {
    for &offset in &GAPS {
        if document.value_at(offset).is_some() {
            return Some(offset);
        }
    }
    None
}

#[test]
fn values_behind_an_edit(rt: HostRuntime) -> Result<(), Fail> {
    let (document, _) = make_edits::<Brand>(rt.alloc(), &EDITS, Blank::new(1)).ok_or(
        "no document",
    )?;
    assert_eq!(rt; wrong_value(&document), None);
    assert_eq!(rt; wrong_place(&document), None);
    assert_eq!(rt; wrong_gap(&document), None);
    Ok(())
}
