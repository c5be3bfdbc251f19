//! The records that C sees of spans, comments and diagnostics.

ghost use Rattle.std.specs.Prelude.{◌≡◌, map};
ghost use Rattle.js_lex_c.specs.Filled.{filled};
ghost use Rattle.js_lex_c.specs.Records.{span_record, span_or_none, character_or_none, diagnostic_number};
ghost use Rattle.js_lex_c.specs.Records.{diagnostic_record, comment_record};

use crate::put::put;
use bitflags::Flags;
use js_text::{Comment, Diagnostic, Span};

/// In the place of an offset or a character: there is none.
const NONE: u32 = u32::MAX;

/// A stretch, from `start` up to `end`, without it.
#[repr(C)]
#[derive(Clone, Copy)]
pub struct JsSpan {
    pub start: u32,
    pub end: u32,
}

/// A token.
#[repr(C)]
#[derive(Clone, Copy)]
pub struct JsToken {
    /// Where it stands in the source, in bytes.
    pub span: JsSpan,
    /// Where its value is: in bytes of the source with `value_form` 1, in units of the pool with 2, else 0 and 0.
    pub value: JsSpan,
    /// Where the pattern of a regular expression ends, as an offset in bytes; of any other token 0.
    pub pattern_end: u32,
    /// The number of its kind.
    pub kind: u8,
    /// A sum: 1 where a line has ended in what its reading passed before it, or it is the first; 2 where it has an
    /// escape; 4 where it is a number with separators; 8 where a flag of a regular expression is unknown or stands
    /// twice. A token that was read again was read from its start on, and so has no 1.
    pub flags: u8,
    /// The flags of a regular expression, one bit each in the order of `gimsuydv`; of any other token 0.
    pub regex_flags: u8,
    /// 0: it has no value; 1: a stretch of the source; 2: units of the pool; 3: a bad value.
    pub value_form: u8,
}

/// A comment.
#[repr(C)]
#[derive(Clone, Copy)]
pub struct JsComment {
    /// The whole comment with its marks, in bytes.
    pub span: JsSpan,
    /// The start of the token that it leads, or the end of the token that it trails.
    pub attached_to: u32,
    /// How it is written: the number of a `CommentKind`.
    pub kind: u8,
    /// The number of a `CommentPosition`.
    pub position: u8,
    /// A sum: 1 where a line has ended before it, 2 where a line ends after it.
    pub newlines: u8,
    /// What it tells tools: the number of a `CommentContent`.
    pub content: u8,
}

/// A diagnostic.
#[repr(C)]
#[derive(Clone, Copy)]
pub struct JsDiagnostic {
    /// What it is about, in bytes. Both ends are `u32::MAX` where it is about the whole file.
    pub span: JsSpan,
    /// Which it is.
    pub number: u32,
    /// The character that it names, or `u32::MAX`.
    pub character: u32,
}

/// A span, as C sees it.
pub(crate) fn span_record(span: Span) -> JsSpan
    ensures { result ≡ span_record span }
{
    JsSpan {
        start: span.start,
        end: span.end,
    }
}

/// A span that may be missing, as C sees it.
fn span_or_none(span: Option<Span>) -> JsSpan
    ensures { result ≡ span_or_none span }
{
    match span {
        Some(span) => span_record(span),
        None => JsSpan {
            start: NONE,
            end: NONE,
        },
    }
}

/// A character that may be missing, as C sees it.
fn character_or_none(character: Option<char>) -> u32
    ensures { result ≡ character_or_none character }
{
    match character {
        Some(c) => c as u32,
        None => NONE,
    }
}

/// The number of a diagnostic: its place among the variants.
fn diagnostic_number(diagnostic: &Diagnostic) -> u32
    ensures { result ≡ diagnostic_number diagnostic.now }
{
    match diagnostic {
        Diagnostic::InvalidCharacter { .. } => 0,
        Diagnostic::UnexpectedEnd { .. } => 1,
        Diagnostic::FileAppearsToBeBinary => 2,
        Diagnostic::InvalidNumberEnd { .. } => 3,
        Diagnostic::UnterminatedString { .. } => 4,
        Diagnostic::UnterminatedMultiLineComment { .. } => 5,
        Diagnostic::UnterminatedRegExp { .. } => 6,
        Diagnostic::UnicodeEscapeSequence { .. } => 7,
        Diagnostic::InvalidEscapeSequence { .. } => 8,
        Diagnostic::RegExpFlag { .. } => 9,
        Diagnostic::RegExpFlagTwice { .. } => 10,
        Diagnostic::UnexpectedJsxEnd { .. } => 11,
        Diagnostic::HtmlCommentInModule { .. } => 12,
    }
}

/// A diagnostic, as C sees it.
pub(crate) fn diagnostic_record(diagnostic: &Diagnostic) -> JsDiagnostic
    ensures { result ≡ diagnostic_record diagnostic.now }
{
    JsDiagnostic {
        span: span_or_none(diagnostic.span()),
        number: diagnostic_number(diagnostic),
        character: character_or_none(diagnostic.character()),
    }
}

/// A comment, as C sees it.
pub(crate) fn comment_record(comment: &Comment) -> JsComment
    ensures { result ≡ comment_record comment.now }
{
    JsComment {
        span: span_record(comment.span),
        attached_to: comment.attached_to,
        kind: comment.kind as u8,
        position: comment.position as u8,
        newlines: comment.newlines().bits(),
        content: comment.content as u8,
    }
}

/// Fills a list with spans.
pub(crate) fn fill_spans(room: &mut [JsSpan], spans: &[Span])
    ensures { room.new ≡ filled room.old (map span_record spans.now) }
{
    for (place, span) in spans.iter().enumerate() {
        put(room, place, span_record(*span));
    }
}

/// Fills a list with diagnostics.
pub(crate) fn fill_diagnostics(room: &mut [JsDiagnostic], diagnostics: &[Diagnostic])
    ensures { room.new ≡ filled room.old (map diagnostic_record diagnostics.now) }
{
    for (place, diagnostic) in diagnostics.iter().enumerate() {
        put(room, place, diagnostic_record(diagnostic));
    }
}

/// Fills a list with comments.
pub(crate) fn fill_comments(room: &mut [JsComment], comments: &[Comment])
    ensures { room.new ≡ filled room.old (map comment_record comments.now) }
{
    for (place, comment) in comments.iter().enumerate() {
        put(room, place, comment_record(comment));
    }
}
