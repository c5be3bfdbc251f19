//! What a document has: its tokens, and the report of its text.

ghost use Rattle.std.specs.Prelude.{◌≡◌, false, drop, IfOk};
ghost use Rattle.std.specs.List.{AllByRecursion};
ghost use Rattle.js_session.specs.Report.{IsSliceOnPlaces};
ghost use Rattle.js_choose.specs.Rules.{ReportBy};
ghost use Rattle.js_document.specs.LiveTokens.{IsTokenAt};

use super::Document;
use crate::gather::rows_of;
use crate::keep::KeepGoals;
use crate::tokens::Tokens;
use js_kind::Token;
use js_relex::report_of_rows;
use js_session::Report;
use std::alloc::{AllocError, Global};

impl<K: KeepGoals> Document<K> {
    /// The live tokens, in order.
    pub fn tokens(&self) -> Tokens<'_, K>
        ensures { result ≡ self.now.report.tokens }
    {
        self.tokens_from(0)
    }

    /// The live tokens from the one with the index on. The first one is found by halves, without passing those before it.
    pub fn tokens_from(&self, index: usize) -> Tokens<'_, K>
        ensures { result ≡ drop index self.now.report.tokens }
    {
        Tokens::new(&self.entries, self.entries.row_of_token(index))
    }

    /// The live token that the byte at the offset belongs to. None: it belongs to none, or is behind the text.
    pub fn token_at(&self, offset: u32) -> Option<Token>
        ensures { IsTokenAt offset self.now.report.tokens result }
    {
        let token = self.entries.token(self.entries.row_at(offset)?)?;
        if offset < token.end() {
            Some(token)
        } else {
            None
        }
    }

    /// The report of a session over the text whose goals are chosen, gathered anew.
    pub fn report(&self, alloc: Global) -> Result<Report, AllocError>
        ensures report { IfOk result (λ report. report ≡ self.now.report) }
        ensures chosen { IfOk result
            (ReportBy K.choice self.now.text self.now.source_type false self.now.commands) }
        ensures slices { IfOk result
            (λ report. AllByRecursion (λ row. IsSliceOnPlaces self.now.text row.value) report.rows) }
    {
        let rows = rows_of(alloc, &self.entries)?;
        report_of_rows(alloc, rows)
    }
}
