//! Documents of edited texts.

ghost use Rattle.std.specs.Prelude.{◌≡◌, ◌≤◌, ◌<◌, ◌+◌, ◌-◌, ◌^◌, ◌⊎◌, true, length, Err};
ghost use Rattle.std.specs.Prelude.{IfOk, IfErr, OnErr, IsOk, MatchResult};
ghost use Rattle.std.specs.List.{list_all};
ghost use Rattle.js_session.specs.Effects.{is_lasting};
ghost use Rattle.js_relex.specs.Documents.{EditCause, IsEdit, Relexes, TicksAtMost, edited, joining};
ghost use Rattle.js_relex.specs.Joining.{BreaksEdited, Prepares, ReadsEdited, joined_at};
ghost use Rattle.js_relex.specs.Kept.{IsKept};
ghost use Rattle.js_relex.specs.declared.fault.RelexFault.{RelexFault};

use super::{LexDoc, check};
use crate::drive::{ReadRows, rows_behind, rows_from_start};
use crate::edit::Edit;
use crate::fault::RelexFault;
use crate::join::Joining;
use crate::kept::count_kept;
use js_session::{Command, CommandList, RowList, Shift, Steps};
use js_text::SourceText;
use std::alloc::{AllocError, Global};
use std::marker::Model;
use std::sync::ledger::Ledger;

/// How places behind the edit move.
pub fn shift_of(edit: &Edit<'_>) -> Shift
    requires { edit.now.start + length edit.now.text.now < 2 ^ 32 }
    ensures from { result.from ≡ edit.now.end }
    ensures to { result.to ≡ edit.now.start + length edit.now.text.now }
{
    Shift {
        from: edit.end,
        to: edit.start + edit.text.len() as u32,
    }
}

/// What the rows of the edited text may join.
fn joining_of<'d>(old: &'d LexDoc, edit: &Edit<'_>, commands: &'d [Command]) -> Joining<'d>
    requires { edit.now.start + length edit.now.text.now < 2 ^ 32 }
    ensures { result ≡ joining old.now edit.now.start edit.now.end edit.now.text.now commands.now }
{
    Joining::new(
        shift_of(edit),
        old.report.report().rows.as_slice(),
        old.commands.as_slice(),
        commands,
    )
}

/// The rows of the edited text behind those up to the last that is kept.
fn read_behind_kept<L: Ledger>(
    alloc: Global,
    old: &LexDoc,
    edit: &Edit<'_>,
    last: usize,
    text: &str,
    joining: &Joining<'_>,
    steps: &mut Steps<L>,
) -> Result<ReadRows, AllocError>
    requires edit { IsEdit old.now.text edit.now.start edit.now.end }
    requires text { text.now ≡ edited old.now.text edit.now.start edit.now.end edit.now.text.now }
    requires short { length text.now < 2 ^ 32 }
    requires lasting { list_all is_lasting joining.now.commands ≡ true }
    requires joining { joining.now.rows ≡ old.now.report.rows }
    requires kept { IsKept edit.now.start old.now.report.rows joining.now.commands (last + 1) }
    requires few { last < length old.now.report.rows }
    requires fits { last ≤ length joining.now.commands }
    ensures rows { IfOk result (λ r.
        ReadsEdited text.now old.now.source_type joining.now (last + 1) r.rows r.joined) }
    ensures ticks { IfOk result (λ r. steps.new ≡ steps.old + length r.rows) }
    ensures broken { OnErr result ((steps.new ≡ steps.old)
        ⊎ BreaksEdited text.now old.now.source_type joining.now (last + 1) steps.old steps.new) }
    ensures at_least { steps.old ≤ steps.new }
    ensures at_most { steps.new + (last + 1) ≤ steps.old + (length joining.now.commands + 1) }
{
    let rows = old.report.report().rows.as_slice();
    let commands = joining.commands();
    rows_behind(
        alloc,
        text,
        old.source_type,
        rows[last].token,
        joining,
        &commands[last..],
        steps,
    )
}

/// The rows of the edited text behind those that are kept.
fn read_edited<L: Ledger>(
    alloc: Global,
    old: &LexDoc,
    edit: &Edit<'_>,
    kept: usize,
    text: &str,
    joining: &Joining<'_>,
    steps: &mut Steps<L>,
) -> Result<ReadRows, AllocError>
    requires edit { IsEdit old.now.text edit.now.start edit.now.end }
    requires text { text.now ≡ edited old.now.text edit.now.start edit.now.end edit.now.text.now }
    requires short { length text.now < 2 ^ 32 }
    requires lasting { list_all is_lasting joining.now.commands ≡ true }
    requires joining { joining.now.rows ≡ old.now.report.rows }
    requires kept { IsKept edit.now.start old.now.report.rows joining.now.commands kept }
    requires few { kept ≤ length old.now.report.rows }
    requires fits { kept ≤ length joining.now.commands + 1 }
    ensures rows { IfOk result (λ r. ReadsEdited text.now old.now.source_type joining.now kept r.rows r.joined) }
    ensures ticks { IfOk result (λ r. steps.new ≡ steps.old + length r.rows) }
    ensures broken { OnErr result ((steps.new ≡ steps.old)
        ⊎ BreaksEdited text.now old.now.source_type joining.now kept steps.old steps.new) }
    ensures at_least { steps.old ≤ steps.new }
    ensures at_most { steps.new + kept ≤ steps.old + (length joining.now.commands + 1) }
{
    match kept.checked_sub(1) {
        None => rows_from_start(alloc, text, old.source_type, joining, steps),
        Some(last) => read_behind_kept(alloc, old, edit, last, text, joining, steps),
    }
}

/// What an edit leaves to be put together: how many rows are kept, the rows that were read, and whether the last of
/// them joins the old ones.
#[derive(Drop)]
struct Prepared {
    text: SourceText,
    commands: CommandList,
    kept: usize,
    rows: RowList,
    joined: bool,
}

impl Model for Prepared {
    ghost use Rattle.js_relex.specs.Joining.{PreparedState};

    ghost Value = { PreparedState };

    ghost view = { λ p. record {
      text = p.text;
      commands = p.commands;
      kept = p.kept;
      rows = p.rows;
      joined = p.joined;
    } };
}

/// The rows of the edited text that no row of the old one stands for, made ready with all else that is to be put
/// together.
fn prepare_text<L: Ledger>(
    alloc: Global,
    old: &LexDoc,
    edit: &Edit<'_>,
    text: SourceText,
    commands: &[Command],
    steps: &mut Steps<L>,
) -> Result<Prepared, AllocError>
    requires edit { IsEdit old.now.text edit.now.start edit.now.end }
    requires text { text ≡ edited old.now.text edit.now.start edit.now.end edit.now.text.now }
    requires short { length text < 2 ^ 32 }
    requires lasting { list_all is_lasting commands.now ≡ true }
    ensures prepares { IfOk result (Prepares old.now edit.now.start edit.now.end edit.now.text.now) }
    ensures commands { IfOk result (λ p. p.commands ≡ commands.now) }
    ensures ticks { IfOk result (λ p. steps.new ≡ steps.old + length p.rows) }
    ensures at_least { steps.old ≤ steps.new }
    ensures at_most { (steps.new ≡ steps.old) ⊎ TicksAtMost old.now edit.now.start edit.now.end edit.now.text.now
        commands.now steps.old steps.new }
{
    let mut held = CommandList::new_in(alloc);
    held.extend_from_slice(commands)?;
    let kept = count_kept(&old.report, old.commands.as_slice(), commands, edit.start);
    let joining = joining_of(old, edit, commands);
    let read = read_edited(alloc, old, edit, kept, text.as_str(), &joining, steps)?;
    let ReadRows { rows, joined } = read;
    Ok(Prepared {
        text,
        commands: held,
        kept,
        rows,
        joined,
    })
}

/// What an edit of the document leaves to be put together, or why there is no document of it.
fn prepare<L: Ledger>(
    alloc: Global,
    old: &LexDoc,
    edit: &Edit<'_>,
    commands: &[Command],
    steps: &mut Steps<L>,
) -> Result<Prepared, RelexFault>
    ensures prepares { IfOk result (Prepares old.now edit.now.start edit.now.end edit.now.text.now) }
    ensures commands { IfOk result (λ p. p.commands ≡ commands.now) }
    ensures ticks { IfOk result (λ p. steps.new ≡ steps.old + length p.rows) }
    ensures cause { IfErr result (λ fault. (fault ≡ RelexFault.Memory)
        ⊎ EditCause old.now.text edit.now.start edit.now.end edit.now.text.now commands.now fault) }
    ensures refused { IfErr result (λ fault. (fault ≡ RelexFault.Memory) ⊎ (steps.new ≡ steps.old)) }
    ensures at_least { steps.old ≤ steps.new }
    ensures at_most { (steps.new ≡ steps.old) ⊎ TicksAtMost old.now edit.now.start edit.now.end edit.now.text.now
        commands.now steps.old steps.new }
{
    if !edit.is_of(old.text.as_str()) {
        return Err(RelexFault::BadEdit);
    }
    let text = match edit.made_in(alloc, old.text.as_str()) {
        Ok(text) => text,
        Err(_) => return Err(RelexFault::Memory),
    };
    match check(text.as_str(), commands) {
        Ok(()) => {}
        Err(fault) => return Err(fault),
    }
    match prepare_text(alloc, old, edit, text, commands, steps) {
        Ok(prepared) => Ok(prepared),
        Err(_) => Err(RelexFault::Memory),
    }
}

/// How many of the old rows are taken over.
fn count_taken_over(prepared: &Prepared) -> usize
    requires some { 0 < prepared.now.kept + length prepared.now.rows }
    requires few { prepared.now.kept + length prepared.now.rows ≤ length prepared.now.commands + 1 }
    ensures { result ≡ length prepared.now.commands + 1 - (prepared.now.kept + length prepared.now.rows) }
{
    let commands = prepared.commands.len();
    match prepared.kept.checked_sub(1) {
        Some(last) => commands - last - prepared.rows.len(),
        None => commands - (prepared.rows.len() - 1),
    }
}

/// The index of the row that joins the old ones, if one does.
fn joined_index(prepared: &Prepared) -> Option<usize>
    requires some { 0 < prepared.now.kept + length prepared.now.rows }
    requires few { prepared.now.kept + length prepared.now.rows ≤ length prepared.now.commands + 1 }
    ensures { result ≡ joined_at prepared.now.joined (prepared.now.kept + length prepared.now.rows - 1) }
{
    if prepared.joined {
        Some(prepared.commands.len() - count_taken_over(prepared))
    } else {
        None
    }
}

/// The document of a text with an edit made, and of other commands. Rows that end four bytes or more before the edit,
/// and have the command that the new list has there, are kept. Behind the edit the text is read up to the first row
/// that an old one is, each offset moved, with the same commands behind it; the old rows behind that one are taken
/// over. So many steps fewer are made than there are rows. The old document stays as it is: it is copied, and its copy
/// given away.
pub fn relex<L: Ledger>(
    alloc: Global,
    old: &LexDoc,
    edit: &Edit<'_>,
    commands: &[Command],
    steps: &mut Steps<L>,
) -> Result<LexDoc, RelexFault>
    ensures relexes { IfOk result (Relexes old.now edit.now.start edit.now.end edit.now.text.now commands.now
        steps.old steps.new) }
    // Each fault comes for its cause alone, and where its cause is there, nothing but a lack of memory comes in its
    // place.
    ensures cause { IfErr result (λ fault. (fault ≡ RelexFault.Memory)
        ⊎ EditCause old.now.text edit.now.start edit.now.end edit.now.text.now commands.now fault) }
    ensures exact { (fault : RelexFault)
        → EditCause old.now.text edit.now.start edit.now.end edit.now.text.now commands.now fault
        → (result ≡ Err fault) ⊎ (result ≡ Err RelexFault.Memory) }
    ensures complete { IsEdit old.now.text edit.now.start edit.now.end
        → length (edited old.now.text edit.now.start edit.now.end edit.now.text.now) < 2 ^ 32
        → list_all is_lasting commands.now ≡ true → IsOk result ⊎ (result ≡ Err RelexFault.Memory) }
    ensures refused { IfErr result (λ fault. (fault ≡ RelexFault.Memory) ⊎ (steps.new ≡ steps.old)) }
    ensures at_least { steps.old ≤ steps.new }
    ensures at_most { (steps.new ≡ steps.old) ⊎ TicksAtMost old.now edit.now.start edit.now.end edit.now.text.now
        commands.now steps.old steps.new }
{
    let copy = match old.copy(alloc) {
        Ok(copy) => copy,
        Err(_) => return Err(RelexFault::Memory),
    };
    match copy.into_relexed(alloc, edit, commands, steps) {
        Ok(document) => Ok(document),
        Err(not) => Err(not.fault),
    }
}

/// Why an edit gave no document, with the document as it was.
#[derive(Drop)]
pub struct NotRelexed {
    pub document: LexDoc,
    pub fault: RelexFault,
}

/// The document of the edited text, in which the old rows are moved where they stand; or the old one, as it was.
fn put_in_place(
    alloc: Global,
    old: LexDoc,
    edit: &Edit<'_>,
    prepared: Prepared,
) -> Result<LexDoc, LexDoc>
    requires { Prepares old edit.now.start edit.now.end edit.now.text.now prepared }
    ensures made { IfOk result (Relexes old edit.now.start edit.now.end edit.now.text.now prepared.commands
        0 (length prepared.rows)) }
    ensures refused { IfErr result (λ document. document ≡ old) }
{
    let behind = count_taken_over(&prepared);
    let joined = joined_index(&prepared);
    let shift = shift_of(edit);
    let Prepared {
        text,
        commands,
        kept,
        rows: read,
        joined: _,
    } = prepared;
    let mut old = old;
    match old
        .report
        .replace(alloc, old.commands.as_slice(), kept, read, behind, &shift)
    {
        Ok(()) => {}
        Err(_) => return Err(old),
    }
    let LexDoc {
        source_type,
        report,
        ..
    } = old;
    Ok(LexDoc {
        text,
        source_type,
        commands,
        report,
        kept,
        joined,
    })
}

impl LexDoc {
    /// The same as `relex`, of a document that is given away: the rows that are kept or taken over are moved, and not
    /// copied. Where there is no document of the edit, the old one comes back as it was.
    pub fn into_relexed<L: Ledger>(
        self,
        alloc: Global,
        edit: &Edit<'_>,
        commands: &[Command],
        steps: &mut Steps<L>,
    ) -> Result<LexDoc, NotRelexed>
        ensures relexes { IfOk result (Relexes self edit.now.start edit.now.end edit.now.text.now commands.now
            steps.old steps.new) }
        ensures handed_back { IfErr result (λ not. not.document ≡ self) }
        // Each fault comes for its cause alone, and where its cause is there, nothing but a lack of memory comes in its
        // place.
        ensures cause { IfErr result (λ not. (not.fault ≡ RelexFault.Memory)
            ⊎ EditCause self.text edit.now.start edit.now.end edit.now.text.now commands.now not.fault) }
        ensures exact { (fault : RelexFault)
            → EditCause self.text edit.now.start edit.now.end edit.now.text.now commands.now fault
            → MatchResult result (λ document. ⊥) (λ not. (not.fault ≡ fault) ⊎ (not.fault ≡ RelexFault.Memory)) }
        ensures complete { IsEdit self.text edit.now.start edit.now.end
            → length (edited self.text edit.now.start edit.now.end edit.now.text.now) < 2 ^ 32
            → list_all is_lasting commands.now ≡ true → IfErr result (λ not. not.fault ≡ RelexFault.Memory) }
        ensures refused { IfErr result (λ not. (not.fault ≡ RelexFault.Memory) ⊎ (steps.new ≡ steps.old)) }
        ensures at_least { steps.old ≤ steps.new }
        ensures at_most { (steps.new ≡ steps.old) ⊎ TicksAtMost self edit.now.start edit.now.end edit.now.text.now
            commands.now steps.old steps.new }
    {
        let prepared = match prepare(alloc, &self, edit, commands, steps) {
            Ok(prepared) => prepared,
            Err(fault) => {
                return Err(NotRelexed {
                    document: self,
                    fault,
                });
            }
        };
        match put_in_place(alloc, self, edit, prepared) {
            Ok(document) => Ok(document),
            Err(document) => Err(NotRelexed {
                document,
                fault: RelexFault::Memory,
            }),
        }
    }
}
