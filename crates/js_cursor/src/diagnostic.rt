//! What a parser reports.

ghost use Rattle.std.specs.Prelude.{◌≡◌};
ghost use Rattle.js_cursor.specs.Diagnostic.{cursor_diagnostic_name, cursor_diagnostic_span};

use js_kind::Kind;
use js_text::Span;

/// A fault that a parser finds in the tokens of its source. Where nothing else is said, `found` and `span` are the kind
/// and the span of the token that was current.
#[derive(Clone, Copy, PartialEq, Eq, Debug)]
pub enum CursorDiagnostic {
    /// A word of the language is written with an escape.
    EscapedKeyword {
        span: Span,
    },
    /// A statement has no semicolon behind it, and none can be inserted. The span is empty, where the statement ends.
    AutoSemicolonInsertion {
        span: Span,
    },
    /// Another kind of token is expected.
    ExpectToken {
        expected: Kind,
        found: Kind,
        span: Span,
    },
    /// What `opening` opens is not closed.
    ExpectClosing {
        expected: Kind,
        found: Kind,
        span: Span,
        opening: Span,
    },
    /// The `?` at `question` has no `:`.
    ExpectConditionalAlternative {
        found: Kind,
        span: Span,
        question: Span,
    },
    /// The list that `opening` opens is neither closed nor goes on.
    ExpectClosingOrSeparator {
        close: Kind,
        separator: Kind,
        found: Kind,
        span: Span,
        opening: Span,
    },
    /// A comma stands behind a rest. The span is that of the comma.
    RestElementTrailingComma {
        span: Span,
    },
    /// A rest is not the last of its list. The span is that of the rest.
    RestLast {
        span: Span,
    },
    /// A fault that the parser alone knows, by a number of its own.
    Parser {
        code: u32,
        span: Span,
    },
}

impl CursorDiagnostic {
    /// The name of the diagnostic: that of its variant.
    pub fn name(&self) -> &'static str
        ensures { result.now ≡ cursor_diagnostic_name self.now }
    {
        match self {
            CursorDiagnostic::EscapedKeyword { .. } => "EscapedKeyword",
            CursorDiagnostic::AutoSemicolonInsertion { .. } => "AutoSemicolonInsertion",
            CursorDiagnostic::ExpectToken { .. } => "ExpectToken",
            CursorDiagnostic::ExpectClosing { .. } => "ExpectClosing",
            CursorDiagnostic::ExpectConditionalAlternative { .. } => "ExpectConditionalAlternative",
            CursorDiagnostic::ExpectClosingOrSeparator { .. } => "ExpectClosingOrSeparator",
            CursorDiagnostic::RestElementTrailingComma { .. } => "RestElementTrailingComma",
            CursorDiagnostic::RestLast { .. } => "RestLast",
            CursorDiagnostic::Parser { .. } => "Parser",
        }
    }

    /// Where the fault is, in bytes.
    pub fn span(&self) -> Span
        ensures { result ≡ cursor_diagnostic_span self.now }
    {
        match self {
            CursorDiagnostic::EscapedKeyword { span }
            | CursorDiagnostic::AutoSemicolonInsertion { span }
            | CursorDiagnostic::ExpectToken { span, .. }
            | CursorDiagnostic::ExpectClosing { span, .. }
            | CursorDiagnostic::ExpectConditionalAlternative { span, .. }
            | CursorDiagnostic::ExpectClosingOrSeparator { span, .. }
            | CursorDiagnostic::RestElementTrailingComma { span }
            | CursorDiagnostic::RestLast { span }
            | CursorDiagnostic::Parser { span, .. } => *span,
        }
    }
}

/// The error that stops a parser, and how many errors its lexer had reported by then.
#[derive(Clone, Copy, PartialEq, Eq, Debug)]
pub struct FatalError {
    pub error: CursorDiagnostic,
    pub errors_len: usize,
}
