//! The values of the live tokens of a document.

ghost use Rattle.std.specs.Prelude.{◌≡◌, None, drop, map, slice_range, IfSome, MatchOption};
ghost use Rattle.std.specs.List.{AllByRecursion};
ghost use Rattle.std.specs.Option.{option_map};
ghost use Rattle.js_text.specs.JsText.{js_text_units};
ghost use Rattle.js_text.specs.declared.value.RowValue.{RowValue};
ghost use Rattle.js_session.specs.Report.{IsSliceOnPlaces, text_of};
ghost use Rattle.js_lists.specs.LiveLists.{live_taken};
ghost use Rattle.js_lists.specs.Taken.{value_handed};
ghost use Rattle.js_document.specs.Values.{IsValueAt, live_values};

use super::Document;
use crate::keep::KeepGoals;
use crate::values::Values;
use js_lists::TokenValue;
use js_text::{JsText, Span};

/// The stretch of the text that a span is. None: its ends are no places of the text, or not in order.
fn stretch(text: &str, span: Span) -> Option<&str>
    ensures { MatchOption result (IsSliceOnPlaces text.now (RowValue.Slice span) → ⊥)
        (λ found. IsSliceOnPlaces text.now (RowValue.Slice span)
        × (found.now ≡ slice_range text.now span.start span.end)) }
{
    if span.start > span.end {
        return None;
    }
    if !text.is_char_boundary(span.start as usize) {
        return None;
    }
    if !text.is_char_boundary(span.end as usize) {
        return None;
    }
    Some(&text[span.start as usize..span.end as usize])
}

/// The text of a value of a token of this source.
fn text_in<'t>(source: &'t str, value: TokenValue<'t>) -> Option<JsText<'t>>
    ensures text { IsSliceOnPlaces source.now (value_handed value.entry)
        → option_map js_text_units result ≡ text_of source.now (value_handed value.entry) }
    ensures none { (IsSliceOnPlaces source.now (value_handed value.entry) → ⊥)
        → option_map js_text_units result ≡ None }
{
    match value {
        TokenValue::Nothing | TokenValue::Bad => None,
        TokenValue::Slice(span) => match stretch(source, span) {
            Some(found) => Some(JsText::Source(found)),
            None => None,
        },
        TokenValue::Units(text) => Some(JsText::Decoded(text)),
    }
}

impl<K: KeepGoals> Document<K> {
    /// The values of the live tokens, in the order of the tokens. A name, a string and a part of a template have one: the
    /// span of the text, in bytes, that it is, or the UTF-16 units that were decoded, which are lent and not copied. A
    /// token of another kind, as a number, has none.
    pub fn values(&self) -> Values<'_, K>
        ensures values { result ≡ live_values self.now.commands self.now.report.rows }
        // There is one for each live token.
        ensures tokens { map (λ x. x.token) (live_taken self.now.commands self.now.report.rows)
            ≡ self.now.report.tokens }
        ensures slices { AllByRecursion (IsSliceOnPlaces self.now.text) result }
    {
        self.values_from(0)
    }

    /// The values of the live tokens from the one with the index on, as `values` gives them. The first one is found by
    /// halves.
    pub fn values_from(&self, index: usize) -> Values<'_, K>
        ensures values { result ≡ drop index (live_values self.now.commands self.now.report.rows) }
        // There is one for each live token.
        ensures tokens { map (λ x. x.token) (live_taken self.now.commands self.now.report.rows)
            ≡ self.now.report.tokens }
        ensures slices { AllByRecursion (IsSliceOnPlaces self.now.text)
            (live_values self.now.commands self.now.report.rows) }
    {
        Values::new(&self.entries, self.entries.row_of_token(index))
    }

    /// The value of the live token that the byte at the offset belongs to, as `values` gives it, found by halves. None:
    /// the byte belongs to no token, or is behind the text.
    pub fn value_at(&self, offset: u32) -> Option<TokenValue<'_>>
        ensures value { IsValueAt offset self.now.report.tokens
            (live_values self.now.commands self.now.report.rows) (option_map value_handed result) }
        ensures slices { IfSome result (λ value. IsSliceOnPlaces self.now.text (value_handed value)) }
    {
        let index = self.entries.row_at(offset)?;
        let token = self.entries.token(index)?;
        if offset < token.end() {
            self.entries.value(index)
        } else {
            None
        }
    }

    /// The text of a value of this document: a stretch of its text, or UTF-16 units that were decoded, in which a
    /// surrogate may be alone. Nothing is copied. None: the token has no value, or a bad one, or the value is a stretch
    /// whose ends are not, in order, on places of this text.
    pub fn text_of<'t>(&'t self, value: TokenValue<'t>) -> Option<JsText<'t>>
        ensures text { IsSliceOnPlaces self.now.text (value_handed value.entry)
            → option_map js_text_units result ≡ text_of self.now.text (value_handed value.entry) }
        ensures none { (IsSliceOnPlaces self.now.text (value_handed value.entry) → ⊥)
            → option_map js_text_units result ≡ None }
    {
        text_in(self.text.as_str(), value)
    }
}
