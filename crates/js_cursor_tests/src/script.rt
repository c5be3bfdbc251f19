//! What is done with a cursor, step by step, and what the steps tell. A function that owns a cursor takes long to be
//! proved, so one does here, and all others have it lent.

use crate::asked::{
    current, fault_of, marks, pops_error, reports_and_goes_back, tokens_ahead, tries_comma,
};
use crate::faults::{Names, names_of};
use crate::lists::{Counted, Item, List, reads_list};
use crate::loops::normal_steps;
use js_cursor::{Cursor, CursorDiagnostic, CursorFault};
use js_kind::{Kind, RuntimeLexerConfig};
use js_lexer::Lexer;
use js_text::{CommentContent, SourceType, Span};
use std::alloc::{AllocError, Global};

pub(crate) type TestCursor<'a> = Cursor<'a, RuntimeLexerConfig>;

/// What is done with a cursor, or asked of it, and what it is to tell.
pub(crate) enum Step {
    Advance(Kind),
    BumpAny,
    Bump(Kind),
    Expect(Kind),
    ExpectAlternative(Span),
    ExpectJsxChild(Kind),
    Asi,
    JsxChild,
    JsxAttributeValue,
    TypeScriptLeftAngle,
    Error(CursorDiagnostic),
    RecoverableCheckpoint,
    /// What was said before of what is read from now on: whether it is ambient.
    SetAmbient(bool, bool),
    /// The kind of the current token, and where it starts and ends.
    Token(Kind, u32, u32),
    /// The kind of the next token.
    Peek(Kind),
    Text(Span, Option<&'static str>),
    /// The fatal error, or else the last error, and whether it is fatal.
    Fault(Option<CursorDiagnostic>, bool),
    /// The name of the last error of the lexer, which is taken back, and how many are left.
    PopError(Option<&'static str>, usize),
    /// What the first comment is, once those before the current token are marked as applied.
    MarkComments(Option<CommentContent>),
    /// How many errors there are behind one of the parser's own, and behind the way back before it.
    ReportAndGoBack(usize, usize),
    /// Whether a comma is next, whether there is a fatal error behind that try, and how many comments are listed then.
    TryComma(bool, bool, usize),
    /// Whether the tokens behind this one are a `=>`, one on its line, and a `=>` with a name behind it.
    LookAhead(bool, bool, bool),
    /// How many names stand before a `}`, and whether that is all.
    NormalListSteps(usize, bool),
    /// A list, what its elements are, how many it has, and where a comma behind them starts.
    Elements(List, Item, Result<Counted, CursorFault>),
    /// A list of names, and how many it has, or why it is not read.
    Names(List, Names),
}

/// A step that was taken, and has nothing to tell.
fn done(taken: Result<(), AllocError>) -> Result<bool, AllocError> {
    taken?;
    Ok(true)
}

/// Takes a step, and gives whether the cursor tells what it is to tell.
fn take_step(cursor: &mut TestCursor<'_>, alloc: Global, step: &Step) -> Result<bool, AllocError> {
    match *step {
        Step::Advance(kind) => done(cursor.advance(kind)),
        Step::BumpAny => done(cursor.bump_any()),
        Step::Bump(kind) => done(cursor.bump(kind)),
        Step::Expect(kind) => done(cursor.expect(kind)),
        Step::ExpectAlternative(question) => done(cursor.expect_conditional_alternative(question)),
        Step::ExpectJsxChild(kind) => done(cursor.expect_jsx_child(kind)),
        Step::Asi => done(cursor.asi()),
        Step::JsxChild => done(cursor.advance_for_jsx_child()),
        Step::JsxAttributeValue => done(cursor.advance_for_jsx_attribute_value()),
        Step::TypeScriptLeftAngle => {
            cursor.re_lex_ts_l_angle();
            Ok(true)
        }
        Step::Error(error) => done(cursor.error(error)),
        Step::RecoverableCheckpoint => {
            cursor.checkpoint_with_error_recovery()?;
            Ok(true)
        }
        Step::SetAmbient(ambient, before) => Ok(cursor.set_ambient(ambient) == before),
        Step::Token(kind, start, end) => Ok(current(cursor) == (kind, start, end)),
        Step::Peek(kind) => Ok(cursor.peek_token()?.kind() == kind),
        Step::Text(span, text) => Ok(cursor.text(span) == text),
        Step::Fault(fault, is_fatal) => Ok(fault_of(cursor) == (fault, is_fatal)),
        Step::PopError(name, left) => Ok(pops_error(cursor) == (name, left)),
        Step::MarkComments(content) => Ok(marks(cursor) == content),
        Step::ReportAndGoBack(reported, left) => {
            Ok(reports_and_goes_back(cursor)? == (reported, left))
        }
        Step::TryComma(is_comma, is_fatal, comments) => {
            Ok(tries_comma(cursor) == (is_comma, is_fatal, comments))
        }
        Step::LookAhead(is_next, is_on_line, are_next) => {
            Ok(tokens_ahead(cursor)? == (is_next, is_on_line, are_next))
        }
        Step::NormalListSteps(count, is_all) => Ok(normal_steps(cursor)? == (count, is_all)),
        Step::Elements(list, item, read) => Ok(reads_list(cursor, alloc, list, item) == read),
        Step::Names(list, names) => Ok(names_of(cursor, alloc, list) == names),
    }
}

/// Takes steps up to the first that does not tell what it is to tell, and gives how many stand before it.
fn take_steps(
    cursor: &mut TestCursor<'_>,
    alloc: Global,
    steps: &[Step],
) -> Result<usize, AllocError> {
    let mut count = 0usize;
    for step in steps {
        if !take_step(cursor, alloc, step)? {
            return Ok(count);
        }
        count = count.saturating_add(1);
    }
    Ok(count)
}

/// The same from the first token of a module on. None: it is too long for a lexer, or there is no memory.
pub(crate) fn play(alloc: Global, source: &str, steps: &[Step]) -> Option<usize> {
    let config = RuntimeLexerConfig::new(true);
    let lexer = match Lexer::new(alloc, source, SourceType::Module, config) {
        Ok(lexer) => lexer,
        Err(_) => return None,
    };
    match Cursor::new(alloc, lexer, false) {
        Ok(mut cursor) => take_steps(&mut cursor, alloc, steps).ok(),
        Err(_) => None,
    }
}
