//! Names of numbers.

ghost use Rattle.std.specs.Prelude.{◌≡◌, ◌≤◌, MatchOption};
ghost use Rattle.js_text.specs.Comment.{comment_content_name};
ghost use Rattle.js_text.specs.Diagnostic.{diagnostic_name};
ghost use Rattle.js_text.specs.declared.comment.CommentContent.{CommentContent};
ghost use Rattle.js_text.specs.declared.diagnostic.Diagnostic.{Diagnostic};
ghost use Rattle.js_kind.specs.Kinds.{kind_name, number as kind_number};
ghost use Rattle.js_kind.specs.declared.kind.Kind.{Kind};
ghost use Rattle.js_lex_c.specs.Names.{IsNamed, kind_count};
ghost use Rattle.js_lex_c.specs.Records.{comment_content_count, comment_content_number, diagnostic_count};
ghost use Rattle.js_lex_c.specs.Records.{diagnostic_number};

use crate::put::fill;
use js_kind::Kind;
use js_text::{CommentContent, Diagnostic, Span};

/// Puts a name into the buffer as far as there is room, and gives its length in bytes.
fn put_name(buffer: &mut [u8], name: &str) -> usize
    ensures { IsNamed name.now result buffer.old buffer.new }
{
    fill(buffer, name.as_bytes());
    name.len()
}

/// A diagnostic of a number.
fn diagnostic_of(number: u32) -> Option<Diagnostic>
    ensures { MatchOption result (diagnostic_count ≤ number) (λ d. number ≡ diagnostic_number d) }
{
    let span = Span { start: 0, end: 0 };
    let c = '\0';
    match number {
        0 => Some(Diagnostic::InvalidCharacter { c, span }),
        1 => Some(Diagnostic::UnexpectedEnd { span }),
        2 => Some(Diagnostic::FileAppearsToBeBinary),
        3 => Some(Diagnostic::InvalidNumberEnd { span }),
        4 => Some(Diagnostic::UnterminatedString { span }),
        5 => Some(Diagnostic::UnterminatedMultiLineComment { span }),
        6 => Some(Diagnostic::UnterminatedRegExp { span }),
        7 => Some(Diagnostic::UnicodeEscapeSequence { span }),
        8 => Some(Diagnostic::InvalidEscapeSequence { span }),
        9 => Some(Diagnostic::RegExpFlag { c, span }),
        10 => Some(Diagnostic::RegExpFlagTwice { c, span }),
        11 => Some(Diagnostic::UnexpectedJsxEnd { c, span }),
        12 => Some(Diagnostic::HtmlCommentInModule { span }),
        _ => None,
    }
}

/// The class of comments of a number.
fn content_of(number: u32) -> Option<CommentContent>
    ensures { MatchOption result (comment_content_count ≤ number) (λ content. number ≡ comment_content_number content) }
{
    match number {
        0 => Some(CommentContent::None),
        1 => Some(CommentContent::Legal),
        2 => Some(CommentContent::Jsdoc),
        3 => Some(CommentContent::JsdocLegal),
        4 => Some(CommentContent::Pure),
        5 => Some(CommentContent::PureNotApplied),
        6 => Some(CommentContent::NoSideEffects),
        7 => Some(CommentContent::NoSideEffectsNotApplied),
        8 => Some(CommentContent::Webpack),
        9 => Some(CommentContent::Vite),
        10 => Some(CommentContent::CoverageIgnore),
        11 => Some(CommentContent::CoverageIgnoreFile),
        12 => Some(CommentContent::Turbopack),
        13 => Some(CommentContent::PropertyKey),
        _ => None,
    }
}

/// The name of the kind of a number, in ASCII: fills the buffer as far as there is room, and gives the length in bytes.
/// It is 0 for a number that is no kind.
#[unsafe(no_mangle)]
pub extern "C" fn js_lex_kind_name(number: u32, buffer: &mut [u8]) -> usize
    ensures known { (kind : Kind) → number ≡ kind_number kind
        → IsNamed (kind_name kind) result buffer.old buffer.new }
    ensures unknown { kind_count ≤ number → (result ≡ 0) × (buffer.new ≡ buffer.old) }
{
    match Kind::VARIANTS.get(number as usize) {
        Some(kind) => put_name(buffer, kind.name()),
        None => 0,
    }
}

/// The name of the diagnostic of a number, as `js_lex_kind_name` gives that of a kind.
#[unsafe(no_mangle)]
pub extern "C" fn js_lex_diagnostic_name(number: u32, buffer: &mut [u8]) -> usize
    ensures known { (d : Diagnostic) → number ≡ diagnostic_number d
        → IsNamed (diagnostic_name d) result buffer.old buffer.new }
    ensures unknown { diagnostic_count ≤ number → (result ≡ 0) × (buffer.new ≡ buffer.old) }
{
    match diagnostic_of(number) {
        Some(diagnostic) => put_name(buffer, diagnostic.name()),
        None => 0,
    }
}

/// The name of the class of comments of a number, as `js_lex_kind_name` gives that of a kind.
#[unsafe(no_mangle)]
pub extern "C" fn js_lex_content_name(number: u32, buffer: &mut [u8]) -> usize
    ensures known { (content : CommentContent) → number ≡ comment_content_number content
        → IsNamed (comment_content_name content) result buffer.old buffer.new }
    ensures unknown { comment_content_count ≤ number → (result ≡ 0) × (buffer.new ≡ buffer.old) }
{
    match content_of(number) {
        Some(content) => put_name(buffer, content.name()),
        None => 0,
    }
}
