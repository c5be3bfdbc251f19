//! What stands between two tokens.

ghost use Rattle.std.specs.Prelude.{◌≡◌, IfSome};
ghost use Rattle.js_lexer.specs.Lexer.{IsOnPlaces};
ghost use Rattle.js_squeeze.specs.SqueezeText.{first_reads, separator, separator_behind, token_text};

use crate::space::need_space;
use js_kind::Token;
use js_session::{Effect, Row};

/// Whether the row is the first, or that of a step which reads one token more.
pub(crate) fn first_reads(row: &Row) -> bool
    ensures { result ≡ first_reads row.now }
{
    match row.effect() {
        Effect::Reads(_) => true,
        _ => false,
    }
}

/// The text of the token.
pub(crate) fn token_text<'a>(source: &'a str, token: &Token) -> &'a str
    requires { IsOnPlaces source.now token.now }
    ensures { result.now ≡ token_text source.now token.now }
{
    &source[token.start() as usize..token.end() as usize]
}

/// What stands before the token, which this row read first, and behind the one before it.
fn separator_behind(source: &str, before: &Token, row: &Row, token: &Token) -> &'static str
    requires before { IsOnPlaces source.now before.now }
    requires token { IsOnPlaces source.now token.now }
    ensures { result.now ≡ separator_behind source.now before.now row.now token.now }
{
    if row.token.start() == row.place {
        return "";
    }
    if row.token.is_on_new_line() {
        return "\n";
    }
    if need_space(
        before.kind(),
        token_text(source, before),
        token_text(source, token),
    ) {
        return " ";
    }
    ""
}

/// The same, and nothing before the first token.
pub(crate) fn separator(
    source: &str,
    before: Option<Token>,
    row: &Row,
    token: &Token,
) -> &'static str
    requires before { IfSome before (IsOnPlaces source.now) }
    requires token { IsOnPlaces source.now token.now }
    ensures { result.now ≡ separator source.now before row.now token.now }
{
    match before {
        Some(before) => separator_behind(source, &before, row, token),
        None => "",
    }
}
