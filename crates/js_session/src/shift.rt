//! Rows whose text is moved.

ghost use Rattle.std.specs.Prelude.{◌≡◌, ◌≤◌, map, IfOk};
ghost use Rattle.std.specs.List.{All};
ghost use Rattle.std.specs.Option.{SomeIff};
ghost use Rattle.js_session.specs.Shifted.{shifted, shifted_comment, shifted_diagnostic, shifted_row, shifted_span};
ghost use Rattle.js_session.specs.Shifted.{with_span, FitsShifted, OfComment, OfDiagnostic, OfSpan};
ghost use Rattle.js_session.specs.Shifted.{ShiftFits};

use crate::row::Row;
use js_text::{Comment, CommentList, Diagnostic, DiagnosticList, Span, SpanList};
use std::alloc::{AllocError, Global};

/// The same diagnostic, about another stretch.
pub(crate) fn with_span(diagnostic: Diagnostic, span: Span) -> Diagnostic
    ensures { result ≡ with_span diagnostic span }
{
    match diagnostic {
        Diagnostic::InvalidCharacter { c, .. } => Diagnostic::InvalidCharacter { c, span },
        Diagnostic::UnexpectedEnd { .. } => Diagnostic::UnexpectedEnd { span },
        Diagnostic::FileAppearsToBeBinary => Diagnostic::FileAppearsToBeBinary,
        Diagnostic::InvalidNumberEnd { .. } => Diagnostic::InvalidNumberEnd { span },
        Diagnostic::UnterminatedString { .. } => Diagnostic::UnterminatedString { span },
        Diagnostic::UnterminatedMultiLineComment { .. } => {
            Diagnostic::UnterminatedMultiLineComment { span }
        }
        Diagnostic::UnterminatedRegExp { .. } => Diagnostic::UnterminatedRegExp { span },
        Diagnostic::UnicodeEscapeSequence { .. } => Diagnostic::UnicodeEscapeSequence { span },
        Diagnostic::InvalidEscapeSequence { .. } => Diagnostic::InvalidEscapeSequence { span },
        Diagnostic::RegExpFlag { c, .. } => Diagnostic::RegExpFlag { c, span },
        Diagnostic::RegExpFlagTwice { c, .. } => Diagnostic::RegExpFlagTwice { c, span },
        Diagnostic::UnexpectedJsxEnd { c, .. } => Diagnostic::UnexpectedJsxEnd { c, span },
        Diagnostic::HtmlCommentInModule { .. } => Diagnostic::HtmlCommentInModule { span },
    }
}

/// A move of the end of a text: what stood from `from` on stands from `to` on. A place that is no `u32` then has none
/// there, and what has such a place is not moved.
#[derive(Clone, Copy, PartialEq, Eq, Debug)]
pub struct Shift {
    pub from: u32,
    pub to: u32,
}

impl Shift {
    /// The place, moved. None where it is no `u32` then.
    pub fn place(&self, place: u32) -> Option<u32>
        ensures { SomeIff result (FitsShifted self.now.from self.now.to place)
            (shifted self.now.from self.now.to place) }
    {
        place.saturating_sub(self.from).checked_add(self.to)
    }

    /// Copies of the diagnostics, moved.
    pub fn moved_diagnostics(
        &self,
        alloc: Global,
        diagnostics: &[Diagnostic],
    ) -> Result<DiagnosticList, AllocError>
        requires { All (OfDiagnostic (FitsShifted self.now.from self.now.to)) diagnostics.now }
        ensures { IfOk result (λ moved. moved ≡ map (shifted_diagnostic self.now.from self.now.to) diagnostics.now) }
    {
        let mut moved = DiagnosticList::new_in(alloc);
        moved.extend_from_slice(diagnostics)?;
        self.move_diagnostics(&mut moved);
        Ok(moved)
    }

    /// Copies of the comments, moved.
    pub fn moved_comments(
        &self,
        alloc: Global,
        comments: &[Comment],
    ) -> Result<CommentList, AllocError>
        requires { All (OfComment (FitsShifted self.now.from self.now.to)) comments.now }
        ensures { IfOk result (λ moved. moved ≡ map (shifted_comment self.now.from self.now.to) comments.now) }
    {
        let mut moved = CommentList::new_in(alloc);
        moved.extend_from_slice(comments)?;
        self.move_comments(&mut moved);
        Ok(moved)
    }

    /// Copies of the spans, moved.
    pub fn moved_spans(&self, alloc: Global, spans: &[Span]) -> Result<SpanList, AllocError>
        requires { All (OfSpan (FitsShifted self.now.from self.now.to)) spans.now }
        ensures { IfOk result (λ moved. moved ≡ map (shifted_span self.now.from self.now.to) spans.now) }
    {
        let mut moved = SpanList::new_in(alloc);
        moved.extend_from_slice(spans)?;
        self.move_spans(&mut moved);
        Ok(moved)
    }

    /// A copy of the row, moved.
    pub fn moved_row(&self, alloc: Global, row: &Row) -> Result<Row, AllocError>
        requires fits { ShiftFits self.now.from self.now.to row.now }
        requires ordered { row.now.token.start ≤ row.now.token.end }
        ensures { IfOk result (λ moved. moved ≡ shifted_row self.now.from self.now.to row.now) }
    {
        let mut moved = row.copy(alloc)?;
        self.move_row(&mut moved);
        Ok(moved)
    }
}
