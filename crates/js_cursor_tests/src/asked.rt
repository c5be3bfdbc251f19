//! What a parser asks of its cursor beside tokens, and what it tries ahead of it.

use crate::script::TestCursor;
use js_cursor::{AreNext, Cursor, CursorDiagnostic, IsNext, IsNextOnSameLine, Predicate};
use js_kind::{Kind, LexerConfig};
use js_text::CommentContent;
use std::alloc::AllocError;

/// Whether a comma is next, and no fatal error stands then.
#[derive(Drop)]
struct ExpectsComma;

impl<C: LexerConfig + Drop> Predicate<C, bool> for ExpectsComma {
    ghost gives = { λ p c answer d. Unit {0} };

    fn test(&self, cursor: &mut Cursor<'_, C>) -> bool {
        let read = cursor.expect(Kind::Comma);
        read.is_ok() && !cursor.has_fatal_error()
    }
}

/// Whether a comma is next, whether there is a fatal error behind that try, and how many comments the lexer lists then.
pub(crate) fn tries_comma(cursor: &mut TestCursor<'_>) -> (bool, bool, usize) {
    let is_comma = cursor.lookahead(ExpectsComma);
    let comments = cursor.lexer().comments().len();
    (is_comma, cursor.has_fatal_error(), comments)
}

/// Whether the tokens behind the current one are a `=>`, one on its line, and a `=>` with a name behind it.
pub(crate) fn tokens_ahead(cursor: &mut TestCursor<'_>) -> Result<(bool, bool, bool), AllocError> {
    let is_next = cursor.lookahead(IsNext(Kind::Arrow))?;
    let is_on_line = cursor.lookahead(IsNextOnSameLine(Kind::Arrow))?;
    let are_next = cursor.lookahead(AreNext(Kind::Arrow, Kind::Ident))?;
    Ok((is_next, is_on_line, are_next))
}

/// The kind of the current token, and where it starts and ends.
pub(crate) fn current(cursor: &TestCursor<'_>) -> (Kind, u32, u32) {
    let token = cursor.cur_token();
    (token.kind(), token.start(), token.end())
}

/// The fatal error of a cursor, or else the last error, and whether it is fatal.
pub(crate) fn fault_of(cursor: &TestCursor<'_>) -> (Option<CursorDiagnostic>, bool) {
    match cursor.fatal_error() {
        Some(fatal) => (Some(fatal.error), true),
        None => (cursor.errors().last().copied(), false),
    }
}

/// Takes back the last error of the lexer, and gives its name, and how many are left.
pub(crate) fn pops_error(cursor: &mut TestCursor<'_>) -> (Option<&'static str>, usize) {
    let name = match cursor.pop_error() {
        Some(error) => Some(error.name()),
        None => None,
    };
    (name, cursor.lexer().errors().len())
}

/// Marks the comments before the current token as applied, and gives what the first comment is then.
pub(crate) fn marks(cursor: &mut TestCursor<'_>) -> Option<CommentContent> {
    let range = cursor.previous_token_pure_comments()?;
    cursor.mark_pure_comments_applied(range);
    Some(cursor.lexer().comments().first()?.content)
}

/// Reports an error of the parser's own, goes back, and gives the numbers of errors before and behind that.
pub(crate) fn reports_and_goes_back(
    cursor: &mut TestCursor<'_>,
) -> Result<(usize, usize), AllocError> {
    let checkpoint = cursor.checkpoint();
    let span = cursor.cur_span();
    cursor.error(CursorDiagnostic::Parser { code: 7, span })?;
    let reported = cursor.errors().len();
    if cursor.can_rewind(&checkpoint) {
        cursor.rewind(checkpoint);
    }
    Ok((reported, cursor.errors().len()))
}
