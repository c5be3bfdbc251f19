//! What the calls about a document do with the one that is held.

ghost use Rattle.std.specs.Prelude.{◌≡◌, ◌⊎◌, ◌<◌, IfErr, IfOk};
ghost use Rattle.js_document.specs.Documents.{IsDocumentOf, change_of_new};
ghost use Rattle.js_document_c.specs.Chosen.{choice_of};
ghost use Rattle.js_document_c.specs.Held.{without_lines};
ghost use Rattle.js_lex_c.specs.Documents.{BecomesEdited, EditRefused, GivesComments, GivesDiagnostics, GivesLines};
ghost use Rattle.js_lex_c.specs.Documents.{GivesOffset, GivesPosition, GivesTokenAt, GivesTokens, GivesValueAt};
ghost use Rattle.js_lex_c.specs.Documents.{GivesValues, HasNoTokenAt, HoldsSuch, IsNewDocument, IsUnreadable, NewCause};
ghost use Rattle.js_lex_c.specs.Documents.{NoCause, OffsetRefused, UnitRefused};
ghost use Rattle.js_lex_c.specs.Refusals.{Tries, no_memory};

use crate::document_fill::fill_line_starts;
use crate::document_number::{column_unit_of, goals_of, line_ends_of};
use crate::document_record::{
    JsLiveToken, JsLiveValue, JsPosition, live_token_record, live_value_record, position_record,
    value_units,
};
use crate::from_document::{comments_of, diagnostics_of, tokens_of, values_of};
use crate::number::source_type_of;
use crate::put::fill;
use crate::record::{JsComment, JsDiagnostic};
use crate::refusal::Refusal;
use js_document::Edit;
use js_document_c::{ChosenDocument, Goals, HeldDocument, JsDocument};
use js_lines::{LineEnds, Position};
use js_session::{Steps, utf8_text};
use js_text::SourceType;
use std::alloc::Global;
use std::sync::ledger::{Blank, Ledger};

/// The document of a source, over a counter that nobody reads.
#[tactic(auto, using(crate::proofs::RefusalLemmas::readable_fault))]
fn held_of<L: Ledger>(
    alloc: Global,
    source: &[u8],
    source_type: SourceType,
    goals: Goals,
    ends: LineEnds,
    blank: Blank,
) -> Result<HeldDocument, Refusal>
    requires name { blank.name ≡ L.name }
    requires parts { blank.parts ≡ L.parts }
    requires some_part { 0 < L.parts }
    ensures document { IfOk result (λ held. IsDocumentOf (choice_of held.goals) source.now source_type held.document) }
    ensures goals { IfOk result (λ held. held.goals ≡ goals) }
    ensures ends { IfOk result (λ held. held.ends ≡ ends) }
    ensures change { IfOk result (λ held. held.document.change ≡ change_of_new held.document.report) }
    ensures err { IfErr result (λ refusal. (refusal ≡ no_memory) ⊎ IsUnreadable source.now refusal) }
{
    let text = match utf8_text(source) {
        Ok(text) => text,
        Err(fault) => return Err(Refusal::Lex(fault)),
    };
    let mut steps = Steps::<L>::new(blank);
    match HeldDocument::new(alloc, text, source_type, goals, ends, &mut steps) {
        Ok(held) => Ok(held),
        Err(fault) => Err(Refusal::of_document(fault)),
    }
}

/// The same with the numbers of the type of the source, of the rule that chooses its goals, and of what ends its lines.
#[tactic(auto, using(crate::proofs::NumberLemmas::source_type_below, crate::proofs::RefusalLemmas::goals_below, crate::proofs::RefusalLemmas::line_ends_below))]
fn new_held<L: Ledger>(
    alloc: Global,
    source: &[u8],
    source_type: u32,
    goals: u32,
    line_ends: u32,
    blank: Blank,
) -> Result<HeldDocument, Refusal>
    requires name { blank.name ≡ L.name }
    requires parts { blank.parts ≡ L.parts }
    requires some_part { 0 < L.parts }
    ensures ok { IfOk result (IsNewDocument source.now source_type goals line_ends) }
    ensures err { IfErr result (λ refusal. (refusal ≡ no_memory)
        ⊎ NewCause source.now source_type goals line_ends refusal) }
{
    let known = match source_type_of(source_type) {
        Ok(known) => known,
        Err(_) => return Err(Refusal::UnknownSourceType),
    };
    let rule = match goals_of(goals) {
        Some(rule) => rule,
        None => return Err(Refusal::UnknownNumber),
    };
    let ends = match line_ends_of(line_ends) {
        Some(ends) => ends,
        None => return Err(Refusal::UnknownNumber),
    };
    held_of::<L>(alloc, source, known, rule, ends, blank)
}

/// Puts the document of a source into a handle, over a counter that nobody reads.
pub(crate) fn put_new<L: Ledger>(
    alloc: Global,
    source: &[u8],
    source_type: u32,
    goals: u32,
    line_ends: u32,
    document: &mut JsDocument,
    blank: Blank,
) -> Result<(), Refusal>
    requires name { blank.name ≡ L.name }
    requires parts { blank.parts ≡ L.parts }
    requires some_part { 0 < L.parts }
    ensures { Tries (NewCause source.now source_type goals line_ends)
        (HoldsSuch document.new.value (IsNewDocument source.now source_type goals line_ends))
        (document.new.value ≡ document.old.value) result }
{
    let held = match new_held::<L>(alloc, source, source_type, goals, line_ends, blank) {
        Ok(held) => held,
        Err(refusal) => return Err(refusal),
    };
    match Box::new(alloc, held) {
        Ok(held) => {
            document.put(held);
            Ok(())
        }
        Err(_) => Err(Refusal::NO_MEMORY),
    }
}

/// Makes an edit.
#[tactic(auto, using(crate::proofs::RefusalLemmas::edit_fails))]
pub(crate) fn edit_held(
    alloc: Global,
    held: &mut HeldDocument,
    start: u32,
    end: u32,
    text: &[u8],
) -> Result<(), Refusal>
    ensures { Tries (EditRefused start end text.now held.old) (BecomesEdited start end text.now held.old held.new)
        (held.new ≡ held.old) result }
{
    let text = match utf8_text(text) {
        Ok(text) => text,
        Err(fault) => return Err(Refusal::Lex(fault)),
    };
    match held.edit(alloc, &Edit { start, end, text }) {
        Ok(()) => Ok(()),
        Err(fault) => Err(Refusal::of_document(fault)),
    }
}

/// Puts the live tokens from an index on into a list as far as there is room, and tells how many there are.
pub(crate) fn tokens_held(
    held: &HeldDocument,
    from: usize,
    tokens: &mut [JsLiveToken],
    count: &mut usize,
)
    ensures { GivesTokens from tokens.old tokens.new count.new held.now.document }
{
    match held.document() {
        ChosenDocument::Auto(document) => tokens_of(document, from, tokens, count),
        ChosenDocument::Jsx(document) => tokens_of(document, from, tokens, count),
    }
}

/// Puts the values of these tokens from an index on into a list as far as there is room, and tells how many tokens there
/// are.
pub(crate) fn values_held(
    held: &HeldDocument,
    from: usize,
    values: &mut [JsLiveValue],
    count: &mut usize,
)
    ensures { GivesValues from values.old values.new count.new held.now.document }
{
    match held.document() {
        ChosenDocument::Auto(document) => values_of(document, from, values, count),
        ChosenDocument::Jsx(document) => values_of(document, from, values, count),
    }
}

/// Tells the live token that the byte at an offset belongs to.
pub(crate) fn token_at_held(
    held: &HeldDocument,
    offset: u32,
    token: &mut JsLiveToken,
) -> Result<(), Refusal>
    ensures { Tries (HasNoTokenAt offset held.now.document) (GivesTokenAt offset token.new held.now.document)
        (token.new ≡ token.old) result }
{
    match held.document().token_at(offset) {
        Some(found) => {
            *token = live_token_record(&found);
            Ok(())
        }
        None => Err(Refusal::NothingThere),
    }
}

/// Tells the value of that token, and puts its units into a list as far as there is room.
pub(crate) fn value_at_held(
    held: &HeldDocument,
    offset: u32,
    value: &mut JsLiveValue,
    units: &mut [u16],
) -> Result<(), Refusal>
    ensures { Tries (HasNoTokenAt offset held.now.document)
        (GivesValueAt offset value.new units.old units.new held.now.document)
        ((value.new ≡ value.old) × (units.new ≡ units.old)) result }
{
    match held.document().value_at(offset) {
        Some(found) => {
            *value = live_value_record(found);
            fill(units, value_units(found));
            Ok(())
        }
        None => Err(Refusal::NothingThere),
    }
}

/// Puts the comments from an index on into a list as far as there is room, and tells how many there are.
pub(crate) fn comments_held(
    held: &HeldDocument,
    from: usize,
    comments: &mut [JsComment],
    count: &mut usize,
) -> Result<(), Refusal>
    ensures { Tries (NoCause held.now.document)
        (GivesComments from comments.old comments.new count.new held.now.document)
        ((comments.new ≡ comments.old) × (count.new ≡ count.old)) result }
{
    match held.document() {
        ChosenDocument::Auto(document) => comments_of(document, from, comments, count),
        ChosenDocument::Jsx(document) => comments_of(document, from, comments, count),
    }
}

/// Puts the diagnostics from an index on into a list as far as there is room, and tells how many there are.
pub(crate) fn diagnostics_held(
    held: &HeldDocument,
    from: usize,
    diagnostics: &mut [JsDiagnostic],
    count: &mut usize,
) -> Result<(), Refusal>
    ensures { Tries (NoCause held.now.document)
        (GivesDiagnostics from diagnostics.old diagnostics.new count.new held.now.document)
        ((diagnostics.new ≡ diagnostics.old) × (count.new ≡ count.old)) result }
{
    match held.document() {
        ChosenDocument::Auto(document) => diagnostics_of(document, from, diagnostics, count),
        ChosenDocument::Jsx(document) => diagnostics_of(document, from, diagnostics, count),
    }
}

/// Puts the offsets at which lines begin, from a line on, into a list as far as there is room, and tells how many lines
/// there are.
#[tactic(auto, using(crate::proofs::LineFill::few_lines, crate::proofs::LineFill::lines_given))]
pub(crate) fn lines_held(
    alloc: Global,
    held: &mut HeldDocument,
    from: u32,
    starts: &mut [u32],
    count: &mut usize,
) -> Result<(), Refusal>
    ensures answer { Tries (NoCause held.old.document) (GivesLines from starts.old starts.new count.new held.old)
        ((starts.new ≡ starts.old) × (count.new ≡ count.old)) result }
    ensures same { without_lines held.new ≡ without_lines held.old }
{
    match held.take_lines(alloc) {
        Ok(lines) => {
            fill_line_starts(starts, &lines, from);
            *count = lines.line_count();
            held.keep_lines(lines);
            Ok(())
        }
        Err(_) => Err(Refusal::NO_MEMORY),
    }
}

/// Tells the line and the column of an offset, in the unit of a number.
pub(crate) fn position_held(
    alloc: Global,
    held: &mut HeldDocument,
    offset: u32,
    unit: u32,
    position: &mut JsPosition,
) -> Result<(), Refusal>
    ensures answer { Tries (UnitRefused unit held.old) (GivesPosition offset unit position.new held.old)
        (position.new ≡ position.old) result }
    ensures same { without_lines held.new ≡ without_lines held.old }
{
    let unit = match column_unit_of(unit) {
        Some(unit) => unit,
        None => return Err(Refusal::UnknownNumber),
    };
    match held.position(alloc, offset, unit) {
        Ok(found) => {
            *position = position_record(found);
            Ok(())
        }
        Err(_) => Err(Refusal::NO_MEMORY),
    }
}

/// Tells the offset of a place, in the unit of a number.
pub(crate) fn offset_held(
    alloc: Global,
    held: &mut HeldDocument,
    position: Position,
    unit: u32,
    offset: &mut u32,
) -> Result<(), Refusal>
    ensures answer { Tries (OffsetRefused position unit held.old) (GivesOffset position unit offset.new held.old)
        (offset.new ≡ offset.old) result }
    ensures same { without_lines held.new ≡ without_lines held.old }
{
    let unit = match column_unit_of(unit) {
        Some(unit) => unit,
        None => return Err(Refusal::UnknownNumber),
    };
    match held.offset(alloc, position, unit) {
        Ok(Some(found)) => {
            *offset = found;
            Ok(())
        }
        Ok(None) => Err(Refusal::NothingThere),
        Err(_) => Err(Refusal::NO_MEMORY),
    }
}
