//! Whether the places of a row are `u32` once they are moved.

ghost use Rattle.std.specs.Prelude.{◌↔◌, IsTrue};
ghost use Rattle.std.specs.List.{All};
ghost use Rattle.js_session.specs.Live.{row_findings};
ghost use Rattle.js_session.specs.Shifted.{FitsShifted, OfComment, OfDiagnostic, OfFindings, OfRegex, OfSpan};
ghost use Rattle.js_session.specs.Live.{row_findings};
ghost use Rattle.js_session.specs.Shifted.{OfValue, ShiftFits};

use crate::row::Row;
use crate::shift::Shift;
use js_text::{Comment, Diagnostic, RegexInfo, RowValue, Span};

impl Shift {
    fn place_fits(&self, place: u32) -> bool
        ensures { IsTrue result ↔ FitsShifted self.now.from self.now.to place }
    {
        place
            .saturating_sub(self.from)
            .checked_add(self.to)
            .is_some()
    }

    fn span_fits(&self, span: Span) -> bool
        ensures { IsTrue result ↔ OfSpan (FitsShifted self.now.from self.now.to) span }
    {
        self.place_fits(span.start) && self.place_fits(span.end)
    }

    fn diagnostic_fits(&self, diagnostic: Diagnostic) -> bool
        ensures { IsTrue result ↔ OfDiagnostic (FitsShifted self.now.from self.now.to) diagnostic }
    {
        match diagnostic.span() {
            Some(span) => self.span_fits(span),
            None => true,
        }
    }

    fn comment_fits(&self, comment: Comment) -> bool
        ensures { IsTrue result ↔ OfComment (FitsShifted self.now.from self.now.to) comment }
    {
        self.span_fits(comment.span) && self.place_fits(comment.attached_to)
    }

    fn value_fits(&self, value: &RowValue) -> bool
        ensures { IsTrue result ↔ OfValue (FitsShifted self.now.from self.now.to) value.now }
    {
        match value {
            RowValue::Slice(span) => self.span_fits(*span),
            RowValue::Nothing | RowValue::Units(_) | RowValue::Bad => true,
        }
    }

    fn regex_fits(&self, regex: Option<RegexInfo>) -> bool
        ensures { IsTrue result ↔ OfRegex (FitsShifted self.now.from self.now.to) regex }
    {
        match regex {
            Some(info) => self.place_fits(info.pattern_end),
            None => true,
        }
    }

    fn diagnostics_fit(&self, diagnostics: &[Diagnostic]) -> bool
        ensures { IsTrue result ↔ All (OfDiagnostic (FitsShifted self.now.from self.now.to)) diagnostics.now }
    {
        for diagnostic in diagnostics {
            if !self.diagnostic_fits(*diagnostic) {
                return false;
            }
        }
        true
    }

    fn comments_fit(&self, comments: &[Comment]) -> bool
        ensures { IsTrue result ↔ All (OfComment (FitsShifted self.now.from self.now.to)) comments.now }
    {
        for comment in comments {
            if !self.comment_fits(*comment) {
                return false;
            }
        }
        true
    }

    fn spans_fit(&self, spans: &[Span]) -> bool
        ensures { IsTrue result ↔ All (OfSpan (FitsShifted self.now.from self.now.to)) spans.now }
    {
        for span in spans {
            if !self.span_fits(*span) {
                return false;
            }
        }
        true
    }

    fn findings_fit(&self, row: &Row) -> bool
        ensures { IsTrue result ↔ OfFindings (FitsShifted self.now.from self.now.to) (row_findings row.now) }
    {
        self.diagnostics_fit(row.diagnostics.as_slice())
            && self.diagnostics_fit(row.deferred.as_slice())
            && self.comments_fit(row.comments.as_slice())
            && self.spans_fit(row.irregular.as_slice())
            && self.spans_fit(row.warnings.as_slice())
    }

    /// Whether each place of the row is a `u32` once it is moved.
    pub fn fits(&self, row: &Row) -> bool
        ensures { IsTrue result ↔ ShiftFits self.now.from self.now.to row.now }
    {
        self.place_fits(row.place)
            && self.span_fits(row.token.span())
            && self.value_fits(&row.value)
            && self.regex_fits(row.regex)
            && self.findings_fit(row)
    }
}
