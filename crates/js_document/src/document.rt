//! A text whose goals are chosen, with its tokens, which edits keep up to date.

ghost use Rattle.std.specs.Prelude.{◌≡◌, ◌≤◌, ◌<◌, ◌+◌, ◌^◌, ◌⊎◌, length, Err, IfErr, IfOk, IsOk, OnErr, OnOk};
ghost use Rattle.js_relex.specs.Documents.{IsEdit, edited};
ghost use Rattle.js_document.specs.Documents.{EditCause, Edits, IsDocumentOf, TextCause, change_of_new};
ghost use Rattle.js_document.specs.declared.fault.DocumentFault.{DocumentFault};

mod edits;
mod found;
mod items;
mod values;

use crate::change::{Change, change_of_new};
use crate::edit::{is_overlong, stays_short};
use crate::edited::{edit_rows, read_all};
use crate::fault::DocumentFault;
use crate::gap::GapRows;
use crate::keep::KeepGoals;
use crate::open::OpenTrie;
use js_relex::Edit;
use js_session::Steps;
use js_text::{SourceText, SourceType};
use std::alloc::{AllocError, Global};
use std::marker::Model;
use std::sync::ledger::Ledger;

/// A text with the rows of a session over it whose goals are chosen by a rule.
#[derive(Drop)]
pub struct Document<K: KeepGoals> {
    text: SourceText,
    source_type: SourceType,
    entries: GapRows<K>,
    open: OpenTrie,
    change: Change,
}

impl<K: KeepGoals> Model for Document<K> {
    ghost use Rattle.js_document.specs.Documents.{DocState, IsHeld, document_of};
    ghost use Rattle.js_document.specs.Gap.{entries_of, rows_of};

    ghost Value = { DocState };

    ghost view = { λ d. document_of d.text d.source_type (rows_of {K = K} (entries_of {K = K} d.entries)) d.change };

    ghost invariant = { λ d.
        IsHeld {K = K} K.choice K.knows d.text d.source_type d.open (entries_of {K = K} d.entries) d.entries.pad };
}

impl<K: KeepGoals> Document<K> {
    /// The document of a text. The counter rises by one for each row.
    pub fn new<L: Ledger>(
        alloc: Global,
        text: &str,
        source_type: SourceType,
        steps: &mut Steps<L>,
    ) -> Result<Document<K>, DocumentFault>
        ensures document { IfOk result (IsDocumentOf K.choice text.now source_type) }
        ensures change { IfOk result (λ d. d.change ≡ change_of_new d.report) }
        // Each fault comes for its cause alone, and where its cause is there, nothing but a lack of memory comes in its
        // place.
        ensures cause { IfErr result (λ fault. (fault ≡ DocumentFault.Memory) ⊎ TextCause text.now fault) }
        ensures exact { (fault : DocumentFault) → TextCause text.now fault
            → (result ≡ Err fault) ⊎ (result ≡ Err DocumentFault.Memory) }
        ensures complete { length text.now < 2 ^ 32 → IsOk result ⊎ (result ≡ Err DocumentFault.Memory) }
        ensures ticks { IfOk result (λ d. steps.new ≡ steps.old + length d.report.rows) }
        ensures refused { IfErr result (λ fault. (fault ≡ DocumentFault.Memory) ⊎ (steps.new ≡ steps.old)) }
        ensures at_least { steps.old ≤ steps.new }
    {
        if is_overlong(text) {
            return Err(DocumentFault::Overlong);
        }
        match Document::of_text(alloc, text, source_type, steps) {
            Ok(document) => Ok(document),
            Err(_) => Err(DocumentFault::Memory),
        }
    }

    /// The document of a text that is short enough.
    fn of_text<L: Ledger>(
        alloc: Global,
        text: &str,
        source_type: SourceType,
        steps: &mut Steps<L>,
    ) -> Result<Document<K>, AllocError>
        requires { length text.now < 2 ^ 32 }
        ensures document { IfOk result (IsDocumentOf K.choice text.now source_type) }
        ensures change { IfOk result (λ d. d.change ≡ change_of_new d.report) }
        ensures ticks { IfOk result (λ d. steps.new ≡ steps.old + length d.report.rows) }
        ensures at_least { steps.old ≤ steps.new }
    {
        let mut open = OpenTrie::new(alloc)?;
        let entries = read_all(alloc, text, source_type, &mut open, steps)?;
        let mut held = SourceText::new_in(alloc);
        held.push_str(text)?;
        let found = entries.front_found()?;
        let change = change_of_new(entries.len(), entries.tokens(), &found);
        Ok(Document {
            text: held,
            source_type,
            entries,
            open,
            change,
        })
    }

    /// Makes an edit whose text this is.
    fn take_edited<L: Ledger>(
        &mut self,
        alloc: Global,
        edit: &Edit<'_>,
        text: SourceText,
        steps: &mut Steps<L>,
    ) -> Result<(), AllocError>
        requires edit { IsEdit self.old.text edit.now.start edit.now.end }
        requires text { text ≡ edited self.old.text edit.now.start edit.now.end edit.now.text.now }
        requires short { length text < 2 ^ 32 }
        ensures ok { OnOk result (Edits K.choice K.alike self.old edit.now.start edit.now.end edit.now.text.now
            steps.old steps.new self.new) }
        ensures err { OnErr result (self.new ≡ self.old) }
        ensures at_least { steps.old ≤ steps.new }
    {
        let change = edit_rows(
            alloc,
            &mut self.entries,
            &mut self.open,
            self.source_type,
            edit,
            text.as_str(),
            steps,
        )?;
        self.text = text;
        self.change = change;
        Ok(())
    }

    /// Makes an edit: rows whose token ends four bytes or more before it are kept. Behind them the text is read up to
    /// the first row that an old one is, moved, with the same commands behind it; the old rows behind that one are taken
    /// over. The counter rises by one for each row that is read. Where there is no document of the edit, this one stays
    /// as it was.
    pub fn edit<L: Ledger>(
        &mut self,
        alloc: Global,
        edit: &Edit<'_>,
        steps: &mut Steps<L>,
    ) -> Result<(), DocumentFault>
        ensures ok { OnOk result (Edits K.choice K.alike self.old edit.now.start edit.now.end edit.now.text.now
            steps.old steps.new self.new) }
        ensures err { OnErr result (self.new ≡ self.old) }
        // Each fault comes for its cause alone, and where its cause is there, nothing but a lack of memory comes in its
        // place.
        ensures cause { IfErr result (λ fault. (fault ≡ DocumentFault.Memory)
            ⊎ EditCause self.old.text edit.now.start edit.now.end edit.now.text.now fault) }
        ensures exact { (fault : DocumentFault)
            → EditCause self.old.text edit.now.start edit.now.end edit.now.text.now fault
            → (result ≡ Err fault) ⊎ (result ≡ Err DocumentFault.Memory) }
        ensures complete { IsEdit self.old.text edit.now.start edit.now.end
            → length (edited self.old.text edit.now.start edit.now.end edit.now.text.now) < 2 ^ 32
            → IsOk result ⊎ (result ≡ Err DocumentFault.Memory) }
        ensures refused { IfErr result (λ fault. (fault ≡ DocumentFault.Memory) ⊎ (steps.new ≡ steps.old)) }
        ensures at_least { steps.old ≤ steps.new }
    {
        if !edit.is_of(self.text.as_str()) {
            return Err(DocumentFault::BadEdit);
        }
        if !stays_short(edit, self.text.as_str()) {
            return Err(DocumentFault::Overlong);
        }
        let text = match edit.made_in(alloc, self.text.as_str()) {
            Ok(text) => text,
            Err(_) => return Err(DocumentFault::Memory),
        };
        match self.take_edited(alloc, edit, text, steps) {
            Ok(()) => Ok(()),
            Err(_) => Err(DocumentFault::Memory),
        }
    }

    /// The text.
    pub fn text(&self) -> &str
        ensures { result.now ≡ self.now.text }
    {
        self.text.as_str()
    }

    /// The type of the source that the text is.
    pub fn source_type(&self) -> SourceType
        ensures { result ≡ self.now.source_type }
    {
        self.source_type
    }

    /// What the last edit changed.
    pub fn changed(&self) -> Change
        ensures { result ≡ self.now.change }
    {
        self.change
    }

    /// How many rows there are.
    pub fn row_count(&self) -> usize
        ensures { result ≡ length self.now.report.rows }
    {
        self.entries.len()
    }

    /// How many live tokens there are.
    pub fn token_count(&self) -> usize
        ensures { result ≡ length self.now.report.tokens }
    {
        self.entries.tokens()
    }
}
