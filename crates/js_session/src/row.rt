//! What one step of a session gave.

ghost use Rattle.std.specs.Prelude.{◌≡◌, IfOk};
ghost use Rattle.std.specs.Option.{option_map};
ghost use Rattle.js_text.specs.JsText.{js_text_units};
ghost use Rattle.js_session.specs.Effects.{row_effect};
ghost use Rattle.js_session.specs.Live.{row_of};
ghost use Rattle.js_session.specs.Report.{IsSliceOnPlaces, text_of};

use crate::command::{Command, Effect};
use js_grammar::Goal;
use js_kind::Token;
use js_lexer::Findings;
use js_text::{CommentList, DiagnosticList, JsText, RegexInfo, RowValue, SpanList};
use std::alloc::{AllocError, Global};

/// What a step gave.
#[derive(Drop)]
pub struct Row {
    pub token: Token,
    pub value: RowValue,
    /// What the reading reported.
    pub diagnostics: DiagnosticList,
    /// What it reported for the case that the source is a module.
    pub deferred: DiagnosticList,
    /// The comments of its gap.
    pub comments: CommentList,
    /// The irregular white space of its gap.
    pub irregular: SpanList,
    /// What the reading warned of.
    pub warnings: SpanList,
    pub regex: Option<RegexInfo>,
    /// Where the lexer stood before the command, as an offset in bytes.
    pub place: u32,
    /// None for the first step.
    pub command: Option<Command>,
    /// Whether the command was carried out.
    pub taken: bool,
}

impl Row {
    /// What the row's command does; the first row, which has none, reads the first goal.
    pub fn effect(&self) -> Effect
        ensures { result ≡ row_effect self.now.command }
    {
        match self.command {
            None => Effect::Reads(Goal::First),
            Some(command) => command.effect(),
        }
    }

    /// A row of what was read and found.
    pub(crate) fn new(
        command: Option<Command>,
        place: u32,
        taken: bool,
        token: Token,
        value: RowValue,
        regex: Option<RegexInfo>,
        found: Findings,
    ) -> Row
        ensures { result ≡ row_of command place taken
            (record { token = token; value = value; regex = regex; findings = found }) }
    {
        Row {
            token,
            value,
            diagnostics: found.diagnostics,
            deferred: found.deferred,
            comments: found.comments,
            irregular: found.irregular,
            warnings: found.warnings,
            regex,
            place,
            command,
            taken,
        }
    }

    /// The text of its token, of which this is the source; none for a token without a value, or with a bad one.
    pub fn text<'t>(&'t self, source: &'t str) -> Option<JsText<'t>>
        requires { IsSliceOnPlaces source.now self.now.value }
        ensures { option_map js_text_units result ≡ text_of source.now self.now.value }
    {
        match &self.value {
            RowValue::Nothing | RowValue::Bad => None,
            RowValue::Slice(span) => {
                let range = span.start as usize..span.end as usize;
                Some(JsText::Source(&source[range]))
            }
            RowValue::Units(text) => Some(JsText::Decoded(text)),
        }
    }

    /// An equal row.
    pub fn copy(&self, alloc: Global) -> Result<Row, AllocError>
        ensures { IfOk result (λ row. row ≡ self.now) }
    {
        Ok(Row {
            token: self.token,
            value: self.value.copy(alloc)?,
            diagnostics: self.diagnostics.copy(alloc)?,
            deferred: self.deferred.copy(alloc)?,
            comments: self.comments.copy(alloc)?,
            irregular: self.irregular.copy(alloc)?,
            warnings: self.warnings.copy(alloc)?,
            regex: self.regex,
            place: self.place,
            command: self.command,
            taken: self.taken,
        })
    }
}
