//! Whether trees leave no token out of their source.

ghost use Rattle.std.specs.Prelude.{◌≡◌, None, true, IfOk, IfSome, slice_range};
ghost use Rattle.js_parse_tool.specs.Covered.{Cover, HasNoToken, ReadsEnd};

use js_kind::{Kind, RuntimeLexerConfig};
use js_lexer::Lexer;
use js_text::{SourceType, Span};
use std::alloc::{AllocError, Global};

/// Whether the first token that a lexer reads is the end of its text.
#[tactic(auto, using(crate::proofs::Covering::end_read))]
fn reads_end(lexer: &mut Lexer<'_, RuntimeLexerConfig>) -> Result<bool, AllocError>
    requires { lexer.old.last ≡ None }
    ensures { IfOk result (λ ends. ends ≡ true → ReadsEnd lexer.old lexer.new) }
{
    let token = lexer.first_token()?;
    match token.kind() {
        Kind::Eof => Ok(true),
        _ => Ok(false),
    }
}

/// Whether no token stands in a text of a module.
#[tactic(auto, using(crate::proofs::Covering::no_token))]
fn has_no_token(alloc: Global, text: &str) -> Result<bool, AllocError>
    ensures { IfOk result (λ none. none ≡ true → HasNoToken text.now) }
{
    let config = RuntimeLexerConfig::new(false);
    match Lexer::new(alloc, text, SourceType::Module, config) {
        Ok(mut lexer) => reads_end(&mut lexer),
        // the text is short enough
        Err(_) => Err(AllocError),
    }
}

/// The stretch of a source between two places, in bytes. None: these are no places of it, or not in order.
fn stretch(source: &str, start: usize, end: usize) -> Option<&str>
    ensures { IfSome result (λ text. text.now ≡ slice_range source.now start end) }
{
    if start > end {
        return None;
    }
    if !source.is_char_boundary(start) {
        return None;
    }
    if !source.is_char_boundary(end) {
        return None;
    }
    Some(&source[start..end])
}

/// Whether no token stands between two places.
fn is_apart(alloc: Global, source: &str, start: usize, end: usize) -> Result<bool, AllocError>
    ensures { IfOk result (λ none. none ≡ true → HasNoToken (slice_range source.now start end)) }
{
    match stretch(source, start, end) {
        Some(text) => has_no_token(alloc, text),
        None => Ok(false),
    }
}

/// Whether no token of the source stands before, between and behind the spans.
#[tactic(auto, using(crate::proofs::Covering::one_more, crate::proofs::Covering::no_more))]
pub(crate) fn cover(alloc: Global, source: &str, spans: &[Span]) -> Result<bool, AllocError>
    ensures { IfOk result (λ covers. covers ≡ true → Cover source.now 0 spans.now) }
{
    let mut from = 0;
    for span in spans {
        if !is_apart(alloc, source, from, span.start as usize)? {
            return Ok(false);
        }
        from = span.end as usize;
    }
    is_apart(alloc, source, from, source.len())
}
