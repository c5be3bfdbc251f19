//! What a session came to: its rows, and all that is live behind the last of them.

ghost use Rattle.std.specs.Prelude.{◌≡◌, IfOk};
ghost use Rattle.js_session.specs.Live.{report_with};

use crate::row_list::RowList;
use js_kind::TokenList;
use js_lexer::Findings;
use js_text::{CommentList, DiagnosticList, SpanList};
use std::alloc::{AllocError, Global};

/// What a session gave: a row for each step, and what is live at its end.
#[derive(Drop)]
pub struct Report {
    pub rows: RowList,
    pub tokens: TokenList,
    /// The live tokens without a hashbang comment, where tokens are collected, else none.
    pub collected: TokenList,
    pub diagnostics: DiagnosticList,
    pub deferred: DiagnosticList,
    pub comments: CommentList,
    pub irregular: SpanList,
    pub warnings: SpanList,
}

impl Report {
    /// A report of what was read and found.
    pub(crate) fn new(
        rows: RowList,
        tokens: TokenList,
        collected: TokenList,
        found: Findings,
    ) -> Report
        ensures { result ≡ report_with rows collected (record { tokens = tokens; findings = found }) }
    {
        Report {
            rows,
            tokens,
            collected,
            diagnostics: found.diagnostics,
            deferred: found.deferred,
            comments: found.comments,
            irregular: found.irregular,
            warnings: found.warnings,
        }
    }

    /// An equal report.
    pub fn copy(&self, alloc: Global) -> Result<Report, AllocError>
        ensures { IfOk result (λ report. report ≡ self.now) }
    {
        Ok(Report {
            rows: self.rows.copy(alloc)?,
            tokens: self.tokens.copy(alloc)?,
            collected: self.collected.copy(alloc)?,
            diagnostics: self.diagnostics.copy(alloc)?,
            deferred: self.deferred.copy(alloc)?,
            comments: self.comments.copy(alloc)?,
            irregular: self.irregular.copy(alloc)?,
            warnings: self.warnings.copy(alloc)?,
        })
    }
}
