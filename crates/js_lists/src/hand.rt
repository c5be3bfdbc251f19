//! What a lexer that is driven hands out: tokens, and what it has found.

ghost use Rattle.std.specs.Prelude.{◌≡◌, IfOk, OnOk, OnErr};
ghost use Rattle.js_lists.specs.Drive.{HandsOver, IsHeld};

use crate::take::TakeTokens;
use crate::value::value_of;
use js_kind::LexerConfig;
use js_lexer::{Findings, Lexer};
use js_session::LastRead;
use js_text::{CommentList, SpanList};
use std::alloc::{AllocError, Global};

/// Hands a token over that is settled, with its value.
#[inline(never)]
pub(crate) fn hand_over<C: LexerConfig + Drop, T: TakeTokens>(
    lexer: &Lexer<'_, C>,
    taker: &mut T,
    last: &LastRead,
) -> Result<(), AllocError>
    requires { IsHeld lexer.now.decoded last.now }
    ensures ok { OnOk result (HandsOver T.takes lexer.now.decoded last.now taker.old taker.new) }
    ensures err { OnErr result (T.breaks_off taker.old taker.new) }
{
    let value = value_of(lexer, &last.token);
    taker.take(&last.token, value, last.regex)
}

/// What the lexer has found, which leaves it.
pub(crate) fn take_findings<C: LexerConfig + Drop>(
    alloc: Global,
    lexer: &mut Lexer<'_, C>,
) -> Result<Findings, AllocError>
    ensures { IfOk result (λ found. found ≡ lexer.old.findings) }
{
    Ok(Findings {
        diagnostics: lexer.take_errors(),
        deferred: lexer.take_deferred_module_errors(),
        comments: CommentList::from_vec(alloc, lexer.take_comments())?,
        irregular: SpanList::from_vec(alloc, lexer.take_irregular_whitespaces())?,
        warnings: lexer.take_warnings(),
    })
}
