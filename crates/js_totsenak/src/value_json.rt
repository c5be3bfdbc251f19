//! The values of tokens as JSON.

ghost use Rattle.std.specs.Prelude.{◌≡◌, ◌++◌, ◌^◌, ◌<◌, OnOk, length, string_bytes};
ghost use Rattle.js_lists.specs.Taken.{value_handed};
ghost use Rattle.js_totsenak.specs.ValueJson.{has_value, is_text, value_json};

use crate::json::{push_json_string, push_json_text};
use crate::stretch::stretch_of;
use js_lists::TokenValue;
use std::alloc::AllocError;

/// Whether there is a value.
pub(crate) fn has_value(value: TokenValue<'_>) -> bool
    ensures { result ≡ has_value (value_handed value.entry) }
{
    match value {
        TokenValue::Nothing => false,
        TokenValue::Slice(_) | TokenValue::Units(_) | TokenValue::Bad => true,
    }
}

/// Whether a value is a text.
pub(crate) fn is_text(value: TokenValue<'_>) -> bool
    ensures { result ≡ is_text (value_handed value.entry) }
{
    match value {
        TokenValue::Slice(_) | TokenValue::Units(_) => true,
        TokenValue::Nothing | TokenValue::Bad => false,
    }
}

/// Appends a value as JSON: a text as a string of its UTF-16 units, that of a part of a template with an escape that
/// stands for nothing as `null`, and nothing for a token that has none.
pub fn push_value_json(
    text: &mut String,
    source: &str,
    value: TokenValue<'_>,
) -> Result<(), AllocError>
    requires { length source.now < 2 ^ 32 }
    ensures { OnOk result (string_bytes text.new
        ≡ string_bytes text.old ++ value_json source.now (value_handed value.entry)) }
{
    match value {
        TokenValue::Nothing => Ok(()),
        TokenValue::Slice(span) => push_json_text(text, stretch_of(source, span)),
        TokenValue::Units(units) => push_json_string(text, units.units()),
        TokenValue::Bad => text.push_str("null"),
    }
}
