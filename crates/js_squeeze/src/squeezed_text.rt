//! A source without comments, and with no more white space than its tokens need.

ghost use Rattle.std.specs.Prelude.{◌≡◌, ◌++◌, drop, IfOk, IfSome, OnOk};
ghost use Rattle.std.specs.List.{AllByRecursion, filter};
ghost use Rattle.std.specs.Prelude.{None};
ghost use Rattle.js_lexer.specs.Lexer.{IsOnPlaces, token_or_default};
ghost use Rattle.js_squeeze.specs.SqueezeText.{first_reads, separator, squeezed, token_text};

use crate::separator::{first_reads, separator, token_text};
use js_kind::Token;
use js_session::Row;
use js_text::SourceText;
use std::alloc::{AllocError, Global};

/// Adds the token, which this row read first, with what stands before it.
fn push_token(
    text: &mut SourceText,
    source: &str,
    before: Option<Token>,
    row: &Row,
    token: &Token,
) -> Result<(), AllocError>
    requires before { IfSome before (IsOnPlaces source.now) }
    requires token { IsOnPlaces source.now token.now }
    ensures { OnOk result (text.new
        ≡ text.old ++ (separator source.now before row.now token.now ++ token_text source.now token.now)) }
{
    text.push_str(separator(source, before, row, token))?;
    text.push_str(token_text(source, token))
}

/// The rest of the source behind the token, or all of it.
fn rest_behind<'a>(source: &'a str, before: Option<Token>) -> &'a str
    requires { IfSome before (IsOnPlaces source.now) }
    ensures { result.now ≡ drop (token_or_default before).end source.now }
{
    match before {
        Some(token) => &source[token.end() as usize..],
        None => source,
    }
}

/// The tokens, each with what stands before it, and the rest of the source behind the last one.
pub(crate) fn squeeze_text(
    alloc: Global,
    source: &str,
    rows: &[Row],
    tokens: &[Token],
) -> Result<SourceText, AllocError>
    requires { AllByRecursion (IsOnPlaces source.now) tokens.now }
    ensures { IfOk result (λ text. text ≡ squeezed source.now None (filter first_reads rows.now) tokens.now) }
{
    let mut text = SourceText::new_in(alloc);
    let mut before: Option<Token> = None;
    let mut left = tokens;
    for row in rows {
        if !first_reads(row) {
            continue;
        }
        let Some((token, later)) = left.split_first() else {
            break;
        };
        push_token(&mut text, source, before, row, token)?;
        before = Some(*token);
        left = later;
    }
    text.push_str(rest_behind(source, before))?;
    Ok(text)
}
