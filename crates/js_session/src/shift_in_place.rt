//! Rows that are moved in their place.

ghost use Rattle.std.specs.Prelude.{◌≡◌, ◌≤◌, map};
ghost use Rattle.std.specs.List.{All, AllByRecursion};
ghost use Rattle.std.specs.Option.{option_map};
ghost use Rattle.js_session.specs.Shifted.{shifted, shifted_comment, shifted_diagnostic, shifted_regex, shifted_row};
ghost use Rattle.js_session.specs.Shifted.{shifted_findings, shifted_span, shifted_token, shifted_value};
ghost use Rattle.js_session.specs.Shifted.{FitsShifted, OfComment, OfDiagnostic, OfFindings, OfRegex, OfSpan, OfValue};
ghost use Rattle.js_session.specs.Shifted.{ShiftFits};
ghost use Rattle.js_session.specs.Live.{row_findings, with_findings};

use crate::row::Row;
use crate::shift::{Shift, with_span};
use js_kind::Token;
use js_text::{
    Comment, CommentList, Diagnostic, DiagnosticList, RegexInfo, RowValue, Span, SpanList,
};

impl Shift {
    /// Moves the place.
    pub fn move_place(&self, place: &mut u32)
        requires { FitsShifted self.now.from self.now.to place.old }
        ensures { place.new ≡ shifted self.now.from self.now.to place.old }
    {
        *place = place.saturating_sub(self.from) + self.to;
    }

    /// Moves both ends of the span.
    pub fn move_span(&self, span: &mut Span)
        requires { OfSpan (FitsShifted self.now.from self.now.to) span.old }
        ensures { span.new ≡ shifted_span self.now.from self.now.to span.old }
    {
        self.move_place(&mut span.start);
        self.move_place(&mut span.end);
    }

    /// Moves the token.
    pub fn move_token(&self, token: &mut Token)
        requires start { FitsShifted self.now.from self.now.to token.old.start }
        requires end { FitsShifted self.now.from self.now.to token.old.end }
        requires ordered { token.old.start ≤ token.old.end }
        ensures { token.new ≡ shifted_token self.now.from self.now.to token.old }
    {
        let mut span = token.span();
        self.move_span(&mut span);
        token.set_span(span);
    }

    fn move_value(&self, value: &mut RowValue)
        requires { OfValue (FitsShifted self.now.from self.now.to) value.old }
        ensures { value.new ≡ shifted_value self.now.from self.now.to value.old }
    {
        if let RowValue::Slice(span) = value {
            self.move_span(span);
        }
    }

    fn move_regex(&self, regex: &mut Option<RegexInfo>)
        requires { OfRegex (FitsShifted self.now.from self.now.to) regex.old }
        ensures { regex.new ≡ option_map (shifted_regex self.now.from self.now.to) regex.old }
    {
        if let Some(info) = regex {
            self.move_place(&mut info.pattern_end);
        }
    }

    /// Moves what the diagnostic is about, if it is about a stretch of the text.
    pub fn move_diagnostic(&self, diagnostic: &mut Diagnostic)
        requires { OfDiagnostic (FitsShifted self.now.from self.now.to) diagnostic.old }
        ensures { diagnostic.new ≡ shifted_diagnostic self.now.from self.now.to diagnostic.old }
    {
        if let Some(mut span) = diagnostic.span() {
            self.move_span(&mut span);
            *diagnostic = with_span(*diagnostic, span);
        }
    }

    /// Moves the comment, and the place that it is attached to.
    pub fn move_comment(&self, comment: &mut Comment)
        requires { OfComment (FitsShifted self.now.from self.now.to) comment.old }
        ensures { comment.new ≡ shifted_comment self.now.from self.now.to comment.old }
    {
        self.move_span(&mut comment.span);
        self.move_place(&mut comment.attached_to);
    }

    fn move_each_diagnostic(&self, diagnostics: &mut [Diagnostic])
        requires { All (OfDiagnostic (FitsShifted self.now.from self.now.to)) diagnostics.old }
        ensures { diagnostics.new ≡ map (shifted_diagnostic self.now.from self.now.to) diagnostics.old }
    {
        for diagnostic in diagnostics.iter_mut() {
            self.move_diagnostic(diagnostic);
        }
    }

    fn move_each_comment(&self, comments: &mut [Comment])
        requires { All (OfComment (FitsShifted self.now.from self.now.to)) comments.old }
        ensures { comments.new ≡ map (shifted_comment self.now.from self.now.to) comments.old }
    {
        for comment in comments.iter_mut() {
            self.move_comment(comment);
        }
    }

    fn move_each_span(&self, spans: &mut [Span])
        requires { All (OfSpan (FitsShifted self.now.from self.now.to)) spans.old }
        ensures { spans.new ≡ map (shifted_span self.now.from self.now.to) spans.old }
    {
        for span in spans.iter_mut() {
            self.move_span(span);
        }
    }

    pub(crate) fn move_diagnostics(&self, diagnostics: &mut DiagnosticList)
        requires { All (OfDiagnostic (FitsShifted self.now.from self.now.to)) diagnostics.old }
        ensures { diagnostics.new ≡ map (shifted_diagnostic self.now.from self.now.to) diagnostics.old }
    {
        if let Some(mut items) = diagnostics.take_boxed() {
            self.move_each_diagnostic(items.as_mut_slice());
            diagnostics.put_boxed(items);
        }
    }

    pub(crate) fn move_comments(&self, comments: &mut CommentList)
        requires { All (OfComment (FitsShifted self.now.from self.now.to)) comments.old }
        ensures { comments.new ≡ map (shifted_comment self.now.from self.now.to) comments.old }
    {
        if let Some(mut items) = comments.take_boxed() {
            self.move_each_comment(items.as_mut_slice());
            comments.put_boxed(items);
        }
    }

    pub(crate) fn move_spans(&self, spans: &mut SpanList)
        requires { All (OfSpan (FitsShifted self.now.from self.now.to)) spans.old }
        ensures { spans.new ≡ map (shifted_span self.now.from self.now.to) spans.old }
    {
        if let Some(mut items) = spans.take_boxed() {
            self.move_each_span(items.as_mut_slice());
            spans.put_boxed(items);
        }
    }

    /// Moves what the row has found.
    fn move_findings(&self, row: &mut Row)
        requires { OfFindings (FitsShifted self.now.from self.now.to) (row_findings row.old) }
        ensures { row.new ≡ with_findings row.old (shifted_findings self.now.from self.now.to (row_findings row.old)) }
    {
        self.move_diagnostics(&mut row.diagnostics);
        self.move_diagnostics(&mut row.deferred);
        self.move_comments(&mut row.comments);
        self.move_spans(&mut row.irregular);
        self.move_spans(&mut row.warnings);
    }

    /// Moves the row in its place. It takes no memory.
    pub fn move_row(&self, row: &mut Row)
        requires fits { ShiftFits self.now.from self.now.to row.old }
        requires ordered { row.old.token.start ≤ row.old.token.end }
        ensures { row.new ≡ shifted_row self.now.from self.now.to row.old }
    {
        self.move_place(&mut row.place);
        self.move_token(&mut row.token);
        self.move_value(&mut row.value);
        self.move_regex(&mut row.regex);
        self.move_findings(row);
    }

    /// Moves each row in its place.
    pub(crate) fn move_each_row(&self, rows: &mut [Row])
        requires fits { AllByRecursion (ShiftFits self.now.from self.now.to) rows.old }
        requires ordered { AllByRecursion (λ row. row.token.start ≤ row.token.end) rows.old }
        ensures { rows.new ≡ map (shifted_row self.now.from self.now.to) rows.old }
    {
        for row in rows.iter_mut() {
            self.move_row(row);
        }
    }
}
