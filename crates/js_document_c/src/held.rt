//! A document with the lines of its text.

ghost use Rattle.std.specs.Prelude.{◌≡◌, ◌<◌, ◌^◌, ◌⊎◌, true, false, is_some, length, Err, IfErr, IfOk, IfSome, IsOk};
ghost use Rattle.std.specs.Prelude.{OnErr, OnOk};
ghost use Rattle.js_lines.specs.Lines.{offset_of, position_of};
ghost use Rattle.js_relex.specs.Documents.{IsEdit, edited};
ghost use Rattle.js_document.specs.Documents.{EditCause, IsDocumentOf, TextCause, change_of_new};
ghost use Rattle.js_document.specs.declared.fault.DocumentFault.{DocumentFault};
ghost use Rattle.js_document_c.specs.Chosen.{choice_of, document_in, goals_in};
ghost use Rattle.js_document_c.specs.Held.{AreLinesBy, IsEdited, KeepsLines, MayFollow, without_lines};

use crate::chosen::{ChosenDocument, Goals};
use js_document::{DocumentFault, Edit};
use js_edited_lines::EditedLines;
use js_lines::{ColumnUnit, LineEnds, Position};
use js_session::Steps;
use js_text::SourceType;
use std::alloc::{AllocError, Global};
use std::marker::{Brand, Model};
use std::sync::ledger::{Blank, Ledger};

/// A document that chooses its goals by one of the rules, with the lines of its text.
#[derive(Drop)]
pub struct HeldDocument {
    document: ChosenDocument,
    /// The lines, from the first call that asks for them on. An edit that finds no memory for them forgets them, and the
    /// next call that asks finds them anew.
    lines: Option<EditedLines>,
    ends: LineEnds,
}

impl Model for HeldDocument {
    ghost use Rattle.std.specs.Prelude.{is_some};
    ghost use Rattle.js_document_c.specs.Chosen.{document_in, goals_in};
    ghost use Rattle.js_document_c.specs.Held.{HeldState, KeepsLines};

    ghost Value = { HeldState };

    ghost view = { λ h. record {
      document = document_in h.document;
      goals = goals_in h.document;
      ends = h.ends;
      keeps = is_some h.lines;
    } };

    ghost invariant = { λ h. KeepsLines (document_in h.document).text h.ends h.lines };
}

/// The lines of a text of a document, found anew.
fn new_lines(alloc: Global, text: &str, ends: LineEnds) -> Result<EditedLines, AllocError>
    ensures { IfOk result (AreLinesBy text.now ends) }
{
    if text.len() > u32::MAX as usize {
        return Err(AllocError);
    }
    EditedLines::new(alloc, text, ends)
}

/// The lines that are kept, or else those that are found anew.
fn lines_of(
    alloc: Global,
    lines: Option<EditedLines>,
    text: &str,
    ends: LineEnds,
) -> Result<EditedLines, AllocError>
    requires { KeepsLines text.now ends lines }
    ensures lines { IfOk result (AreLinesBy text.now ends) }
    ensures kept { is_some lines ≡ true → IsOk result }
{
    match lines {
        Some(lines) => Ok(lines),
        None => new_lines(alloc, text, ends),
    }
}

/// The lines of the text that an edit made, if there is memory for them.
fn followed(
    lines: EditedLines,
    start: u32,
    end: u32,
    inserted: &str,
    text: &str,
) -> Option<EditedLines>
    requires { MayFollow lines start end inserted.now text.now }
    ensures { IfSome result (AreLinesBy text.now lines.ends) }
{
    if text.len() > u32::MAX as usize {
        return None;
    }
    let Ok(count) = u32::try_from(inserted.len()) else {
        return None;
    };
    let mut lines = lines;
    match lines.edit(text, start, end, count) {
        Ok(()) => Some(lines),
        Err(_) => None,
    }
}

impl HeldDocument {
    /// The document of a text. Its lines are not looked for yet. The counter rises by one for each row.
    pub fn new<L: Ledger>(
        alloc: Global,
        text: &str,
        source_type: SourceType,
        goals: Goals,
        ends: LineEnds,
        steps: &mut Steps<L>,
    ) -> Result<HeldDocument, DocumentFault>
        ensures document { IfOk result (λ h. IsDocumentOf (choice_of goals) text.now source_type h.document) }
        ensures goals { IfOk result (λ h. h.goals ≡ goals) }
        ensures change { IfOk result (λ h. h.document.change ≡ change_of_new h.document.report) }
        ensures ends { IfOk result (λ h. h.ends ≡ ends) }
        ensures lines { IfOk result (λ h. h.keeps ≡ false) }
        // Each fault comes for its cause alone, and where its cause is there, nothing but a lack of memory comes in its
        // place.
        ensures cause { IfErr result (λ fault. (fault ≡ DocumentFault.Memory) ⊎ TextCause text.now fault) }
        ensures exact { (fault : DocumentFault) → TextCause text.now fault
            → (result ≡ Err fault) ⊎ (result ≡ Err DocumentFault.Memory) }
        ensures complete { length text.now < 2 ^ 32 → IsOk result ⊎ (result ≡ Err DocumentFault.Memory) }
    {
        match ChosenDocument::new(alloc, text, source_type, goals, steps) {
            Ok(document) => Ok(HeldDocument {
                document,
                lines: None,
                ends,
            }),
            Err(fault) => Err(fault),
        }
    }

    /// Makes an edit, over a counter that nobody reads.
    fn edit_uncounted<L: Ledger>(
        &mut self,
        alloc: Global,
        edit: &Edit<'_>,
        blank: Blank,
    ) -> Result<(), DocumentFault>
        requires name { blank.name ≡ L.name }
        requires parts { blank.parts ≡ L.parts }
        requires some_part { 0 < L.parts }
        ensures ok { OnOk result (IsEdited self.old.goals self.old.document edit.now.start edit.now.end edit.now.text.now
            self.new.document) }
        ensures goals { self.new.goals ≡ self.old.goals }
        ensures ends { self.new.ends ≡ self.old.ends }
        ensures err { OnErr result (self.new ≡ self.old) }
        ensures cause { IfErr result (λ fault. (fault ≡ DocumentFault.Memory)
            ⊎ EditCause self.old.document.text edit.now.start edit.now.end edit.now.text.now fault) }
        ensures exact { (fault : DocumentFault)
            → EditCause self.old.document.text edit.now.start edit.now.end edit.now.text.now fault
            → (result ≡ Err fault) ⊎ (result ≡ Err DocumentFault.Memory) }
        ensures complete { IsEdit self.old.document.text edit.now.start edit.now.end
            → length (edited self.old.document.text edit.now.start edit.now.end edit.now.text.now) < 2 ^ 32
            → IsOk result ⊎ (result ≡ Err DocumentFault.Memory) }
    {
        let mut steps = Steps::<L>::new(blank);
        match self.document.edit(alloc, edit, &mut steps) {
            Ok(()) => {}
            Err(fault) => return Err(fault),
        }
        let lines = self.lines.take();
        if let Some(lines) = lines {
            let text = self.document.text();
            self.lines = followed(lines, edit.start, edit.end, edit.text, text);
        }
        Ok(())
    }

    /// Makes an edit, and tells the lines of it. Where there is no document of it, all stays as it was.
    pub fn edit(&mut self, alloc: Global, edit: &Edit<'_>) -> Result<(), DocumentFault>
        ensures ok { OnOk result (IsEdited self.old.goals self.old.document edit.now.start edit.now.end edit.now.text.now
            self.new.document) }
        ensures goals { self.new.goals ≡ self.old.goals }
        ensures ends { self.new.ends ≡ self.old.ends }
        ensures err { OnErr result (self.new ≡ self.old) }
        // Each fault comes for its cause alone, and where its cause is there, nothing but a lack of memory comes in its
        // place.
        ensures cause { IfErr result (λ fault. (fault ≡ DocumentFault.Memory)
            ⊎ EditCause self.old.document.text edit.now.start edit.now.end edit.now.text.now fault) }
        ensures exact { (fault : DocumentFault)
            → EditCause self.old.document.text edit.now.start edit.now.end edit.now.text.now fault
            → (result ≡ Err fault) ⊎ (result ≡ Err DocumentFault.Memory) }
        ensures complete { IsEdit self.old.document.text edit.now.start edit.now.end
            → length (edited self.old.document.text edit.now.start edit.now.end edit.now.text.now) < 2 ^ 32
            → IsOk result ⊎ (result ≡ Err DocumentFault.Memory) }
    {
        self.edit_uncounted::<Brand>(alloc, edit, Blank::new(1))
    }

    /// The document, by the rule that chooses its goals.
    pub fn document(&self) -> &ChosenDocument
        ensures document { document_in result.now ≡ self.now.document }
        ensures goals { goals_in result.now ≡ self.now.goals }
    {
        &self.document
    }

    /// Takes the lines of the text out, to be read: `keep_lines` puts them back. The first call looks for them.
    pub fn take_lines(&mut self, alloc: Global) -> Result<EditedLines, AllocError>
        ensures lines { IfOk result (AreLinesBy self.old.document.text self.old.ends) }
        ensures kept { self.old.keeps ≡ true → IsOk result }
        ensures same { self.new ≡ without_lines self.old }
    {
        let kept = self.lines.take();
        lines_of(alloc, kept, self.document.text(), self.ends)
    }

    /// Keeps the lines of the text, so that the next call that asks for them need not look for them.
    pub fn keep_lines(&mut self, lines: EditedLines)
        requires { AreLinesBy self.old.document.text self.old.ends lines }
        ensures { self.new ≡ record self.old { keeps = true } }
    {
        self.lines = Some(lines);
    }

    /// The line and the column of an offset. Within a character it is that character's start, behind the text its end.
    /// The first call looks for the lines.
    pub fn position(
        &mut self,
        alloc: Global,
        offset: u32,
        unit: ColumnUnit,
    ) -> Result<Position, AllocError>
        ensures position { IfOk result
            (λ p. p ≡ position_of self.old.ends unit self.old.document.text offset) }
        ensures same { without_lines self.new ≡ without_lines self.old }
        ensures kept { OnOk result (self.new.keeps ≡ true) }
    {
        let lines = self.take_lines(alloc)?;
        let position = lines.position(self.document.text(), offset, unit);
        self.keep_lines(lines);
        Ok(position)
    }

    /// The offset of a place, in bytes: behind the longest front of its line that is no longer than its column. None:
    /// there is no line of this number. The first call looks for the lines.
    pub fn offset(
        &mut self,
        alloc: Global,
        position: Position,
        unit: ColumnUnit,
    ) -> Result<Option<u32>, AllocError>
        ensures offset { IfOk result (λ found. found
            ≡ offset_of (record { text = self.old.document.text; ends = self.old.ends }) unit position) }
        ensures same { without_lines self.new ≡ without_lines self.old }
        ensures kept { OnOk result (self.new.keeps ≡ true) }
    {
        let lines = self.take_lines(alloc)?;
        let offset = lines.offset(self.document.text(), position, unit);
        self.keep_lines(lines);
        Ok(offset)
    }
}
