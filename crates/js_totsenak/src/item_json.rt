//! Objects of JSON: tokens, comments and diagnostics, a line for each.

ghost use Rattle.std.specs.Prelude.{◌≡◌, ◌++◌, ◌^◌, ◌<◌, OnOk, length, string_bytes};
ghost use Rattle.js_lines.specs.declared.columns.ColumnUnit.TheVariants.{Characters};
ghost use Rattle.js_lines.specs.declared.line_ends.LineEnds.TheVariants.{EcmaScript};
ghost use Rattle.js_lists.specs.Taken.{taken_as, value_handed};
ghost use Rattle.js_totsenak.specs.ItemJson.{comment_json, diagnostic_head, diagnostic_json, sides_members};
ghost use Rattle.js_totsenak.specs.ItemJson.{spelling_flags, token_flags, token_head, token_json, value_member};
ghost use Rattle.js_totsenak.specs.ItemJson.{warning_json};

use crate::check::told_of;
use crate::members::{
    push_flag, push_member_head, push_object_head, push_piece, push_text, push_word,
};
use crate::message::WARNING_IN_WORDS;
use crate::place_json::{push_stretch, push_stretch_or_null};
use crate::regex_json::push_regex;
use crate::value_json::{has_value, push_value_json};
use js_kind::Token;
use js_lines::LineCursor;
use js_lists::TokenValue;
use js_text::{Comment, Diagnostic, RegexInfo, Span};
use std::alloc::{AllocError, Global};

/// Appends whether lines end before and behind a comment.
#[tactic(auto, unfolding(crate::specs::ItemJson::sides_members))]
fn push_sides(text: &mut String, comment: &Comment) -> Result<(), AllocError>
    ensures { OnOk result (string_bytes text.new ≡ string_bytes text.old ++ sides_members comment.now) }
{
    push_flag(text, "newline_before", comment.preceded)?;
    push_flag(text, "newline_after", comment.followed)
}

/// Appends the object of a comment.
#[tactic(auto, unfolding(crate::specs::ItemJson::comment_json))]
pub(crate) fn push_comment(
    text: &mut String,
    places: &mut LineCursor<'_, '_>,
    comment: &Comment,
) -> Result<(), AllocError>
    requires ends { places.old.lines.ends ≡ EcmaScript }
    requires unit { places.old.unit ≡ Characters }
    ensures text { OnOk result (string_bytes text.new
        ≡ string_bytes text.old ++ comment_json places.old.lines.text comment.now) }
    ensures places { places.new ≡ places.old }
{
    push_object_head(text, "comment")?;
    push_word(text, "kind", comment.kind.name())?;
    push_stretch(text, places, comment.span)?;
    push_word(text, "content", comment.content.name())?;
    push_word(text, "position", comment.position.name())?;
    push_sides(text, comment)?;
    push_piece(text, "}\n")
}

/// Appends what the object of a diagnostic begins with.
#[tactic(auto, unfolding(crate::specs::ItemJson::diagnostic_head))]
fn push_diagnostic_head(
    text: &mut String,
    severity: &str,
    name: &str,
    message: &str,
) -> Result<(), AllocError>
    ensures { OnOk result (string_bytes text.new
        ≡ string_bytes text.old ++ diagnostic_head severity.now name.now message.now) }
{
    push_object_head(text, "diagnostic")?;
    push_word(text, "severity", severity)?;
    push_word(text, "name", name)?;
    push_text(text, "message", message)
}

/// Appends the object of a diagnostic.
#[tactic(auto, unfolding(crate::specs::ItemJson::diagnostic_json))]
pub(crate) fn push_diagnostic(
    text: &mut String,
    alloc: Global,
    places: &mut LineCursor<'_, '_>,
    severity: &str,
    diagnostic: &Diagnostic,
) -> Result<(), AllocError>
    requires ends { places.old.lines.ends ≡ EcmaScript }
    requires unit { places.old.unit ≡ Characters }
    ensures text { OnOk result (string_bytes text.new
        ≡ string_bytes text.old ++ diagnostic_json places.old.lines.text severity.now diagnostic.now) }
    ensures places { places.new ≡ places.old }
{
    let message = told_of(alloc, "", diagnostic)?;
    push_diagnostic_head(text, severity, diagnostic.name(), message.as_str())?;
    push_stretch_or_null(text, places, diagnostic.span())?;
    text.push_str("}\n")
}

/// Appends the object of a warning.
#[tactic(auto, unfolding(crate::specs::ItemJson::warning_json))]
pub(crate) fn push_warning(
    text: &mut String,
    places: &mut LineCursor<'_, '_>,
    span: Span,
) -> Result<(), AllocError>
    requires ends { places.old.lines.ends ≡ EcmaScript }
    requires unit { places.old.unit ≡ Characters }
    ensures text { OnOk result (string_bytes text.new
        ≡ string_bytes text.old ++ warning_json places.old.lines.text span) }
    ensures places { places.new ≡ places.old }
{
    push_diagnostic_head(text, "warning", "RightAngleInJsxText", WARNING_IN_WORDS)?;
    push_stretch(text, places, span)?;
    push_piece(text, "}\n")
}

/// Appends whether a token has an escape, and whether it has a separator of digits.
#[tactic(auto, unfolding(crate::specs::ItemJson::spelling_flags))]
fn push_spelling_flags(text: &mut String, token: &Token) -> Result<(), AllocError>
    ensures { OnOk result (string_bytes text.new ≡ string_bytes text.old ++ spelling_flags token.now) }
{
    push_flag(text, "escaped", token.escaped())?;
    push_flag(text, "separator", token.has_separator())
}

/// Appends the flags of a token.
#[tactic(auto, unfolding(crate::specs::ItemJson::token_flags))]
fn push_token_flags(text: &mut String, token: &Token) -> Result<(), AllocError>
    ensures { OnOk result (string_bytes text.new ≡ string_bytes text.old ++ token_flags token.now) }
{
    push_flag(text, "newline_before", token.is_on_new_line())?;
    push_spelling_flags(text, token)
}

/// Appends the member of a value, if there is one.
fn push_value(text: &mut String, source: &str, value: TokenValue<'_>) -> Result<(), AllocError>
    requires { length source.now < 2 ^ 32 }
    ensures { OnOk result (string_bytes text.new
        ≡ string_bytes text.old ++ value_member source.now (value_handed value.entry)) }
{
    if !has_value(value) {
        return Ok(());
    }
    push_member_head(text, "value")?;
    push_value_json(text, source, value)
}

/// Appends what the object of a token begins with.
#[tactic(auto, unfolding(crate::specs::ItemJson::token_head))]
fn push_token_head(
    text: &mut String,
    places: &mut LineCursor<'_, '_>,
    token: &Token,
) -> Result<(), AllocError>
    requires ends { places.old.lines.ends ≡ EcmaScript }
    requires unit { places.old.unit ≡ Characters }
    ensures text { OnOk result (string_bytes text.new
        ≡ string_bytes text.old ++ token_head places.old.lines.text token.now) }
    ensures places { places.new ≡ places.old }
{
    push_object_head(text, "token")?;
    push_word(text, "kind", token.kind().name())?;
    push_stretch(text, places, token.span())?;
    push_token_flags(text, token)
}

/// Appends the object of a token.
#[tactic(auto, unfolding(crate::specs::ItemJson::token_json))]
pub(crate) fn push_token(
    text: &mut String,
    source: &str,
    places: &mut LineCursor<'_, '_>,
    token: &Token,
    value: TokenValue<'_>,
    regex: Option<RegexInfo>,
) -> Result<(), AllocError>
    requires short { length source.now < 2 ^ 32 }
    requires ends { places.old.lines.ends ≡ EcmaScript }
    requires unit { places.old.unit ≡ Characters }
    requires text { places.old.lines.text ≡ source.now }
    ensures text { OnOk result (string_bytes text.new
        ≡ string_bytes text.old ++ token_json source.now (taken_as token.now value.entry regex)) }
    ensures places { places.new ≡ places.old }
{
    push_token_head(text, places, token)?;
    push_value(text, source, value)?;
    push_regex(text, regex)?;
    text.push_str("}\n")
}
