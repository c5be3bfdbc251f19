//! Where the texts of tokens are, between their marks.

ghost use Rattle.std.specs.Prelude.{◌≡◌, ◌<◌, ◌≤◌, ◌^◌, MatchOption};
ghost use Rattle.js_grammar.specs.TokenText.{is_private_name, is_quoted, is_valued, closing_length, text_start};
ghost use Rattle.js_grammar.specs.TokenText.{text_end};
ghost use Rattle.js_kind.specs.Kinds.{is_string_kind, is_template_kind};

use js_kind::{Kind, Token};
use js_text::Span;

/// Whether the kind is that of private names.
#[tactic(auto, unfolding(js_grammar::specs::TokenText::is_private_name))]
fn is_private_name(kind: Kind) -> bool
    ensures { result ≡ is_private_name kind }
{
    kind.number() == Kind::PrivateIdentifier.number()
}

/// Whether the kind is that of strings.
#[tactic(auto, unfolding(js_kind::specs::Kinds::is_string_kind))]
fn is_string(kind: Kind) -> bool
    ensures { result ≡ is_string_kind kind }
{
    kind.number() == Kind::Str.number()
}

/// Whether the kind is that of parts of templates.
#[tactic(auto, unfolding(js_kind::specs::Kinds::is_template_kind))]
pub fn is_template(kind: Kind) -> bool
    ensures { result ≡ is_template_kind kind }
{
    matches!(
        kind,
        Kind::NoSubstitutionTemplate
            | Kind::TemplateHead
            | Kind::TemplateMiddle
            | Kind::TemplateTail
    )
}

/// Whether the kind is that of strings or of parts of templates.
fn is_quoted(kind: Kind) -> bool
    ensures { result ≡ is_quoted kind }
{
    if is_string(kind) {
        return true;
    }
    is_template(kind)
}

/// Whether tokens of the kind have a value: names, strings and parts of templates.
pub fn is_valued(kind: Kind) -> bool
    ensures { result ≡ is_valued kind }
{
    if kind.is_identifier_name() {
        return true;
    }
    if is_private_name(kind) {
        return true;
    }
    is_quoted(kind)
}

/// The length in bytes of the mark that ends a string or a part of a template of the kind.
fn closing_length(kind: Kind) -> u32
    ensures { result ≡ closing_length kind }
{
    match kind {
        Kind::TemplateHead | Kind::TemplateMiddle => 2,
        _ => 1,
    }
}

/// Where the text of the token begins, if that is an offset.
fn text_start(token: &Token) -> Option<u32>
    ensures { MatchOption result (2 ^ 32 ≤ text_start token.now.kind token.now.start)
        (λ start. start ≡ text_start token.now.kind token.now.start) }
{
    if is_private_name(token.kind()) {
        return token.start().checked_add(1);
    }
    if is_quoted(token.kind()) {
        return token.start().checked_add(1);
    }
    Some(token.start())
}

/// Where the text of the token ends.
fn text_end(token: &Token) -> u32
    ensures { result ≡ text_end token.now.kind token.now.end }
{
    if is_quoted(token.kind()) {
        return token.end().saturating_sub(closing_length(token.kind()));
    }
    token.end()
}

/// The stretch of the source that is the text of the token: a private name's without its `#`, and what stands between
/// the marks of a string or a part of a template. None for a token that is too short for its marks.
pub fn text_span(token: &Token) -> Option<Span>
    ensures { MatchOption result
        (text_end token.now.kind token.now.end < text_start token.now.kind token.now.start)
        (λ span. span ≡ record {
          start = text_start token.now.kind token.now.start;
          end = text_end token.now.kind token.now.end;
        }) }
{
    let end = text_end(token);
    let start = text_start(token)?;
    if end < start {
        return None;
    }
    Some(Span::new(start, end))
}
