//! A text with its report, both of which an edit changes.

ghost use Rattle.std.specs.Prelude.{◌≡◌, ◌≤◌, ◌<◌, ◌+◌, ◌^◌, ◌⊎◌, true, false, length, Err, None};
ghost use Rattle.std.specs.Prelude.{IfOk, IfErr, OnOk, IsOk};
ghost use Rattle.std.specs.List.{AllByRecursion, list_all};
ghost use Rattle.js_session.specs.Effects.{is_lasting};
ghost use Rattle.js_session.specs.Report.{IsSliceOnPlaces, ReportOf};
ghost use Rattle.js_relex.specs.Documents.{Cause, IsDocumentOf};
ghost use Rattle.js_relex.specs.declared.fault.RelexFault.{RelexFault};

mod edited;

use crate::commands::first_bad;
use crate::drive::report_from_start;
use crate::fault::RelexFault;
use crate::outlined::OutlinedReport;
pub use edited::{NotRelexed, relex, shift_of};
use js_session::{Command, CommandList, Report, Steps};
use js_text::{SourceText, SourceType};
use std::alloc::{AllocError, Global};
use std::marker::Model;
use std::sync::ledger::Ledger;

/// A text with the report of a list of commands over it, in which no tokens are collected.
#[derive(Drop)]
pub struct LexDoc {
    text: SourceText,
    source_type: SourceType,
    commands: CommandList,
    report: OutlinedReport,
    kept: usize,
    joined: Option<usize>,
}

impl Model for LexDoc {
    ghost use Rattle.js_relex.specs.Documents.{DocState, IsDocument};

    ghost Value = { DocState };

    ghost view = { λ d. record {
      text = d.text;
      source_type = d.source_type;
      commands = d.commands;
      report = d.report;
      kept = d.kept;
      joined = d.joined;
    } };

    ghost invariant = { λ d. IsDocument d.text d.source_type d.commands d.report };
}

impl LexDoc {
    /// The document of a text and commands: its report is that of a session over the text which follows them. The
    /// counter rises by one for each row.
    pub fn new<L: Ledger>(
        alloc: Global,
        text: &str,
        source_type: SourceType,
        commands: &[Command],
        steps: &mut Steps<L>,
    ) -> Result<LexDoc, RelexFault>
        ensures document { IfOk result (IsDocumentOf text.now source_type commands.now) }
        ensures kept { IfOk result (λ d. (d.kept ≡ 0) × (d.joined ≡ None)) }
        // Each fault comes for its cause alone, and where its cause is there, nothing but a lack of memory comes in its
        // place.
        ensures cause { IfErr result (λ fault. (fault ≡ RelexFault.Memory) ⊎ Cause text.now commands.now fault) }
        ensures exact { (fault : RelexFault) → Cause text.now commands.now fault
            → (result ≡ Err fault) ⊎ (result ≡ Err RelexFault.Memory) }
        ensures complete { length text.now < 2 ^ 32 → list_all is_lasting commands.now ≡ true
            → IsOk result ⊎ (result ≡ Err RelexFault.Memory) }
        ensures ticks { IfOk result (λ d. steps.new ≡ steps.old + length d.report.rows) }
        ensures refused { IfErr result (λ fault. (fault ≡ RelexFault.Memory) ⊎ (steps.new ≡ steps.old)) }
        ensures at_least { steps.old ≤ steps.new }
        ensures at_most { steps.new ≤ steps.old + (length commands.now + 1) }
    {
        match check(text, commands) {
            Ok(()) => {}
            Err(fault) => return Err(fault),
        }
        match document_of_text(alloc, text, source_type, commands, steps) {
            Ok(document) => Ok(document),
            Err(_) => Err(RelexFault::Memory),
        }
    }

    /// An equal document.
    fn copy(&self, alloc: Global) -> Result<LexDoc, AllocError>
        ensures { IfOk result (λ document. document ≡ self.now) }
    {
        let mut text = SourceText::new_in(alloc);
        text.push_str(self.text.as_str())?;
        Ok(LexDoc {
            text,
            source_type: self.source_type,
            commands: self.commands.copy(alloc)?,
            report: self.report.copy(alloc)?,
            kept: self.kept,
            joined: self.joined,
        })
    }

    /// The text.
    pub fn text(&self) -> &str
        ensures { result.now ≡ self.now.text }
    {
        self.text.as_str()
    }

    /// The type of the source that the text is.
    pub fn source_type(&self) -> SourceType
        ensures { result ≡ self.now.source_type }
    {
        self.source_type
    }

    /// The commands.
    pub fn commands(&self) -> &[Command]
        ensures { result.now ≡ self.now.commands }
    {
        self.commands.as_slice()
    }

    /// The report of the text and the commands, with no tokens collected.
    pub fn report(&self) -> &Report
        ensures report { result.now ≡ self.now.report }
        ensures of_commands { ReportOf self.now.text self.now.source_type false self.now.commands result.now }
        ensures slices { AllByRecursion (λ row. IsSliceOnPlaces self.now.text row.value) result.now.rows }
    {
        self.report.report()
    }

    /// How many rows at the front of its report the document took over from the one that was edited; 0 where it is
    /// none of an edit.
    pub fn kept_rows(&self) -> usize
        ensures { result ≡ self.now.kept }
    {
        self.kept
    }

    /// The index of the row at which the document joined the one that was edited: the rows behind it are rows of that
    /// one, each offset moved. None: there is no such row, or it is no document of an edit.
    pub fn joined_row(&self) -> Option<usize>
        ensures { result ≡ self.now.joined }
    {
        self.joined
    }
}

/// Whether there can be a document of the text and the commands.
fn check(text: &str, commands: &[Command]) -> Result<(), RelexFault>
    ensures short { OnOk result (length text.now < 2 ^ 32) }
    ensures lasting { OnOk result (list_all is_lasting commands.now ≡ true) }
    ensures cause { IfErr result (Cause text.now commands.now) }
{
    if text.len() > u32::MAX as usize {
        return Err(RelexFault::Overlong);
    }
    match first_bad(commands) {
        Some(index) => Err(RelexFault::BadCommand(index)),
        None => Ok(()),
    }
}

/// The document of a text, which may have it, from its start.
fn document_of_text<L: Ledger>(
    alloc: Global,
    text: &str,
    source_type: SourceType,
    commands: &[Command],
    steps: &mut Steps<L>,
) -> Result<LexDoc, AllocError>
    requires short { length text.now < 2 ^ 32 }
    requires lasting { list_all is_lasting commands.now ≡ true }
    ensures document { IfOk result (IsDocumentOf text.now source_type commands.now) }
    ensures kept { IfOk result (λ d. (d.kept ≡ 0) × (d.joined ≡ None)) }
    ensures ticks { IfOk result (λ d. steps.new ≡ steps.old + length d.report.rows) }
    ensures at_least { steps.old ≤ steps.new }
    ensures at_most { steps.new ≤ steps.old + (length commands.now + 1) }
{
    let mut held = CommandList::new_in(alloc);
    held.extend_from_slice(commands)?;
    let mut copied = SourceText::new_in(alloc);
    copied.push_str(text)?;
    let report = report_from_start(alloc, text, source_type, commands, steps)?;
    let outlined = OutlinedReport::new(alloc, report)?;
    Ok(LexDoc {
        text: copied,
        source_type,
        commands: held,
        report: outlined,
        kept: 0,
        joined: None,
    })
}
