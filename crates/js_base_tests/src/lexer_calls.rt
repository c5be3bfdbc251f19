//! What is done with a lexer, call by call, and what the calls tell. A function that owns a lexer takes long to be
//! proved, so one does here, and all others have it lent.

ghost use Rattle.std.specs.Prelude.{◌≡◌, true};
ghost use Rattle.js_grammar.specs.Outcome.{AreWithin};

use js_kind::{Kind, RuntimeLexerConfig, Token, TokenList};
use js_lexer::{Lexer, LexerCheckpoint};
use js_text::{CommentContent, CommentRange, JsText, SourceType, Span};
use std::alloc::{AllocError, Global};

type TestLexer<'a> = Lexer<'a, RuntimeLexerConfig>;

/// The text of a token: as it stands in the source, or its UTF-16 units.
#[derive(Clone, Copy)]
pub(crate) enum Text {
    Source(&'static str),
    Decoded(&'static [u16]),
}

/// A call of a lexer, and what it is to tell.
#[derive(Clone, Copy)]
pub(crate) enum Call {
    /// The kind of the next token, and where it starts and ends.
    Next(Kind, u32, u32),
    /// The same of a token that is peeked at.
    Peek(Kind, u32, u32),
    /// The same of a child of JSX.
    Child(Kind, u32, u32),
    /// The same of the last token.
    LastToken(Kind, u32, u32),
    /// The same of the collected token with this index.
    Collected(usize, Kind, u32, u32),
    /// How many tokens are collected.
    Tokens(usize),
    /// How many tokens are handed out.
    TakeTokens(usize),
    /// How many tokens are handed out, the last one left out.
    FinalizeTokens(usize),
    /// The last token, as one of the kind, is put in the place of the last collected one.
    RewriteLast(Kind),
    AdvanceToEnd,
    /// Where the lexer stands.
    Offset(u32),
    /// How much was reported.
    Errors(usize),
    /// How many diagnostics are handed out.
    TakeErrors(usize),
    /// The name of the last diagnostic, which is taken back.
    PopError(Option<&'static str>),
    /// What the first comment is.
    FirstComment(CommentContent),
    /// The pure comments before the last token.
    Pure(Option<CommentRange>),
    /// The comments before the last token by which it has no side effects.
    NoSideEffects(Option<CommentRange>),
    /// The first comment's annotations are marked as applied.
    MarkFirst,
    /// How many comments are handed out.
    TakeComments(usize),
    /// The text of the token of the kind, which starts and ends there, and has escapes or none.
    Text(Kind, Span, bool, Text),
}

/// What is done behind a checkpoint, and with it.
#[derive(Clone, Copy)]
pub(crate) enum Behind {
    /// Calls, and the way back before them: whether it is open.
    GoBack(&'static [Call], bool),
    /// The same, with a copy of what was reported.
    Recover(&'static [Call], bool),
    /// Calls, and how many comments, stretches of irregular white space and diagnostics they find.
    Find(&'static [Call], (usize, usize, usize)),
}

/// A source, and what is done with a lexer over it, which collects its tokens.
pub(crate) struct Case {
    pub source: &'static str,
    pub before: &'static [Call],
    pub behind: Behind,
    pub after: &'static [Call],
}

fn is_token(token: &Token, kind: Kind, start: u32, end: u32) -> bool {
    token.kind().is_same(kind) && token.start() == start && token.end() == end
}

/// Whether the token was read, and is of the kind, and starts and ends there.
pub(crate) fn is_read(
    read: Result<Token, AllocError>,
    kind: Kind,
    start: u32,
    end: u32,
) -> Result<bool, AllocError> {
    let token = read?;
    Ok(is_token(&token, kind, start, end))
}

fn is_text(found: Option<JsText<'_>>, wanted: Text) -> bool {
    match (found, wanted) {
        (Some(JsText::Source(stretch)), Text::Source(text)) => stretch == text,
        (Some(JsText::Decoded(text)), Text::Decoded(units)) => text.units() == units,
        _ => false,
    }
}

/// Whether a token that was read before has the text.
fn has_text(lexer: &TestLexer<'_>, kind: Kind, span: Span, is_escaped: bool, text: Text) -> bool {
    if span.start > span.end {
        return false;
    }
    let mut token = Token::new(kind, span, false);
    token.set_escaped(is_escaped);
    is_text(lexer.get_string(token), text) && is_text(lexer.get_js_string(token), text)
}

/// Marks the annotations of the first comment as applied, and tells whether there is one.
fn marks_first(lexer: &mut TestLexer<'_>) -> bool {
    let first = CommentRange { start: 0, end: 1 };
    if lexer.comments().len() == 0 {
        return false;
    }
    lexer.mark_pure_comments_applied(first);
    lexer.mark_no_side_effects_comments_applied(first);
    true
}

/// Makes a call, and gives whether the lexer tells what it is to tell.
fn make_call(lexer: &mut TestLexer<'_>, call: Call) -> Result<bool, AllocError> {
    match call {
        Call::Next(kind, start, end) => is_read(lexer.next_token(), kind, start, end),
        Call::Peek(kind, start, end) => is_read(lexer.peek_token(), kind, start, end),
        Call::Child(kind, start, end) => is_read(lexer.next_jsx_child(), kind, start, end),
        Call::LastToken(kind, start, end) => Ok(is_token(&lexer.last_token(), kind, start, end)),
        Call::Collected(index, kind, start, end) => match lexer.tokens().get(index) {
            Some(token) => Ok(is_token(token, kind, start, end)),
            None => Ok(false),
        },
        Call::Tokens(count) => Ok(lexer.tokens().len() == count),
        Call::TakeTokens(count) => Ok(lexer.take_tokens().len() == count),
        Call::FinalizeTokens(count) => Ok(lexer.finalize_tokens().len() == count),
        Call::RewriteLast(kind) => {
            let mut token = lexer.last_token();
            token.set_kind(kind);
            lexer.rewrite_last_collected_token(token);
            Ok(true)
        }
        Call::AdvanceToEnd => {
            lexer.advance_to_end();
            Ok(true)
        }
        Call::Offset(offset) => Ok(lexer.offset() == offset),
        Call::Errors(count) => Ok(lexer.errors().len() == count),
        Call::TakeErrors(count) => Ok(lexer.take_errors().len() == count),
        Call::PopError(name) => Ok(lexer.pop_error().map(|error| error.name()) == name),
        Call::FirstComment(content) => match lexer.comments().first() {
            Some(comment) => Ok(comment.content == content),
            None => Ok(false),
        },
        Call::Pure(range) => Ok(lexer.previous_token_pure_comments() == range),
        Call::NoSideEffects(range) => {
            Ok(lexer.previous_token_no_side_effects_comments() == range)
        }
        Call::MarkFirst => Ok(marks_first(lexer)),
        Call::TakeComments(count) => Ok(lexer.take_comments().len() == count),
        Call::Text(kind, span, is_escaped, text) => {
            Ok(has_text(lexer, kind, span, is_escaped, text))
        }
    }
}

/// Makes calls up to the first that does not tell what it is to tell, and gives whether all do.
fn make_calls(lexer: &mut TestLexer<'_>, calls: &[Call]) -> Result<bool, AllocError> {
    for call in calls {
        if !make_call(lexer, *call)? {
            return Ok(false);
        }
    }
    Ok(true)
}

/// Goes back, if that is allowed, and tells.
fn goes_back(lexer: &mut TestLexer<'_>, checkpoint: LexerCheckpoint) -> bool {
    if !lexer.can_rewind(&checkpoint) {
        return false;
    }
    lexer.rewind(checkpoint);
    true
}

/// Makes calls behind the checkpoint, and goes back, if that is allowed. Gives whether the calls tell what they are to
/// tell, and the way back was open or not as it is to be.
fn calls_and_goes_back(
    lexer: &mut TestLexer<'_>,
    checkpoint: LexerCheckpoint,
    calls: &[Call],
    is_open: bool,
) -> Result<bool, AllocError> {
    let are_told = make_calls(lexer, calls);
    let is_back = goes_back(lexer, checkpoint);
    Ok(are_told? && is_back == is_open)
}

/// How many comments, stretches of irregular white space and diagnostics were found since the checkpoint.
fn found_since(
    lexer: &TestLexer<'_>,
    checkpoint: &LexerCheckpoint,
) -> Result<(usize, usize, usize), AllocError>
    requires { AreWithin checkpoint.now.lengths lexer.now.findings }
{
    let found = lexer.findings_since(checkpoint)?;
    let diagnostics = found.diagnostics.len();
    Ok((found.comments.len(), found.irregular.len(), diagnostics))
}

/// Makes calls behind a checkpoint, and gives whether they tell what they are to tell, and find so much.
fn calls_and_finds(
    lexer: &mut TestLexer<'_>,
    calls: &[Call],
    counts: (usize, usize, usize),
) -> Result<bool, AllocError> {
    let checkpoint = lexer.checkpoint();
    let are_told = make_calls(lexer, calls);
    if !lexer.can_rewind(&checkpoint) {
        return Ok(false);
    }
    let found = found_since(lexer, &checkpoint);
    Ok(are_told? && found? == counts)
}

/// Does what is done behind a checkpoint, and gives whether it comes out as it is to.
fn play_behind(lexer: &mut TestLexer<'_>, behind: Behind) -> Result<bool, AllocError> {
    match behind {
        Behind::GoBack(calls, is_open) => {
            let checkpoint = lexer.checkpoint();
            calls_and_goes_back(lexer, checkpoint, calls, is_open)
        }
        Behind::Recover(calls, is_open) => {
            let checkpoint = lexer.checkpoint_with_error_recovery()?;
            calls_and_goes_back(lexer, checkpoint, calls, is_open)
        }
        Behind::Find(calls, counts) => calls_and_finds(lexer, calls, counts),
    }
}

/// Puts a token that stands nowhere in the place of those that are collected.
fn set_one_token(lexer: &mut TestLexer<'_>, alloc: Global) -> Result<(), AllocError>
    requires { lexer.old.collects ≡ true }
{
    let mut tokens = TokenList::new_in(alloc);
    tokens.push(Token::default())?;
    lexer.set_tokens(tokens);
    Ok(())
}

/// Plays a case over a lexer that has read nothing, and gives whether it comes out as it is to.
fn play_over(
    lexer: &mut TestLexer<'_>,
    alloc: Global,
    case: &Case,
    is_behind_one: bool,
) -> Result<bool, AllocError>
    requires { lexer.old.collects ≡ true }
{
    if is_behind_one {
        set_one_token(lexer, alloc)?;
    }
    let before = make_calls(lexer, case.before)?;
    let behind = play_behind(lexer, case.behind)?;
    let after = make_calls(lexer, case.after)?;
    Ok(before && behind && after)
}

/// Plays a case, and gives whether it comes out as it is to. The lexer collects its tokens behind one that is set
/// before, or behind none.
pub(crate) fn play(alloc: Global, case: &Case, is_behind_one: bool) -> Result<bool, AllocError> {
    let config = RuntimeLexerConfig::new(true);
    match Lexer::new(alloc, case.source, SourceType::Module, config) {
        Ok(lexer) => {
            let mut lexer = lexer;
            play_over(&mut lexer, alloc, case, is_behind_one)
        }
        Err(_) => Ok(false),
    }
}
