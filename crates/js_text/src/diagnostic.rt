//! Diagnostics.

ghost use Rattle.std.specs.Prelude.{◌≡◌};
ghost use Rattle.js_text.specs.Diagnostic.{diagnostic_name, diagnostic_span, diagnostic_character};

use crate::span::Span;

/// A fault of a source text, with the stretch of the text that it is about.
#[derive(Clone, Copy, PartialEq, Eq, Debug)]
pub enum Diagnostic {
    /// The character may not stand here, or may not be what an escape stands for.
    InvalidCharacter { c: char, span: Span },
    /// The source ends where more has to follow.
    UnexpectedEnd { span: Span },
    /// U+FFFD stands where a token may begin: the bytes of the file were no text.
    FileAppearsToBeBinary,
    /// A name or a digit directly follows a number.
    InvalidNumberEnd { span: Span },
    /// A string or a template has no end.
    UnterminatedString { span: Span },
    /// A `/*` has no `*/` after it.
    UnterminatedMultiLineComment { span: Span },
    /// A regular expression has no end.
    UnterminatedRegExp { span: Span },
    /// An escape in a name is none.
    UnicodeEscapeSequence { span: Span },
    /// An escape in a string is none.
    InvalidEscapeSequence { span: Span },
    /// The letter is no flag of a regular expression.
    RegExpFlag { c: char, span: Span },
    /// The flag stands twice.
    RegExpFlagTwice { c: char, span: Span },
    /// The character may not stand in the text of a JSX child.
    UnexpectedJsxEnd { c: char, span: Span },
    /// A comment like that of HTML stands in a module (ECMA-262 B.1.1).
    HtmlCommentInModule { span: Span },
}

impl Diagnostic {
    /// The name of the variant.
    pub fn name(&self) -> &'static str
        ensures { result.now ≡ diagnostic_name self.now }
    {
        match self {
            Diagnostic::InvalidCharacter { .. } => "InvalidCharacter",
            Diagnostic::UnexpectedEnd { .. } => "UnexpectedEnd",
            Diagnostic::FileAppearsToBeBinary => "FileAppearsToBeBinary",
            Diagnostic::InvalidNumberEnd { .. } => "InvalidNumberEnd",
            Diagnostic::UnterminatedString { .. } => "UnterminatedString",
            Diagnostic::UnterminatedMultiLineComment { .. } => "UnterminatedMultiLineComment",
            Diagnostic::UnterminatedRegExp { .. } => "UnterminatedRegExp",
            Diagnostic::UnicodeEscapeSequence { .. } => "UnicodeEscapeSequence",
            Diagnostic::InvalidEscapeSequence { .. } => "InvalidEscapeSequence",
            Diagnostic::RegExpFlag { .. } => "RegExpFlag",
            Diagnostic::RegExpFlagTwice { .. } => "RegExpFlagTwice",
            Diagnostic::UnexpectedJsxEnd { .. } => "UnexpectedJsxEnd",
            Diagnostic::HtmlCommentInModule { .. } => "HtmlCommentInModule",
        }
    }

    /// The stretch of the text that it is about, in bytes. None: it is about the whole file.
    pub fn span(&self) -> Option<Span>
        ensures { result ≡ diagnostic_span self.now }
    {
        match *self {
            Diagnostic::FileAppearsToBeBinary => None,
            Diagnostic::InvalidCharacter { span, .. }
            | Diagnostic::UnexpectedEnd { span }
            | Diagnostic::InvalidNumberEnd { span }
            | Diagnostic::UnterminatedString { span }
            | Diagnostic::UnterminatedMultiLineComment { span }
            | Diagnostic::UnterminatedRegExp { span }
            | Diagnostic::UnicodeEscapeSequence { span }
            | Diagnostic::InvalidEscapeSequence { span }
            | Diagnostic::RegExpFlag { span, .. }
            | Diagnostic::RegExpFlagTwice { span, .. }
            | Diagnostic::UnexpectedJsxEnd { span, .. }
            | Diagnostic::HtmlCommentInModule { span } => Some(span),
        }
    }

    /// The character that is named as the fault.
    pub fn character(&self) -> Option<char>
        ensures { result ≡ diagnostic_character self.now }
    {
        match *self {
            Diagnostic::InvalidCharacter { c, .. }
            | Diagnostic::RegExpFlag { c, .. }
            | Diagnostic::RegExpFlagTwice { c, .. }
            | Diagnostic::UnexpectedJsxEnd { c, .. } => Some(c),
            _ => None,
        }
    }
}
