//! Rows of a text, and of one that is edited.

ghost use Rattle.std.specs.Prelude.{◌≡◌, ◌≤◌, ◌<◌, ◌+◌, ◌^◌, ◌++◌, ℕ, List, [], length, take, unwrap_or, IfOk, OnErr, OnOk};
ghost use Rattle.std.specs.List.{AllByRecursion};
ghost use Rattle.js_document.specs.declared.change.Change.{Change};
ghost use Rattle.js_document.specs.Changed.{MayChange};
ghost use Rattle.js_document.specs.Documents.{Edits, IsHeld, IsKept, document_of};
ghost use Rattle.js_document.specs.Edited.{IsEditOf, ReadsEdited, Replaces};
ghost use Rattle.js_document.specs.Gap.{IsPadded, MayPad, MovesGap, around, entries_of, rows_of};
ghost use Rattle.js_document.specs.Trie.{HasMore};

use crate::change::{Change, change_of};
use crate::gap::{GapRows, pad_of};
use crate::join::Joining;
use crate::keep::KeepGoals;
use crate::open::OpenTrie;
use crate::read::{ReadRows, rows_behind, rows_from_start};
use js_relex::Edit;
use js_session::Steps;
use js_text::SourceType;
use std::alloc::{AllocError, Global};
use std::sync::ledger::Ledger;

/// The rows of a text.
pub(crate) fn read_all<K: KeepGoals, L: Ledger>(
    alloc: Global,
    text: &str,
    source_type: SourceType,
    open: &mut OpenTrie,
    steps: &mut Steps<L>,
) -> Result<GapRows<K>, AllocError>
    requires { length text.now < 2 ^ 32 }
    ensures held { IfOk result (λ g. IsHeld {K = K} K.choice K.knows text.now source_type open.new (entries_of {K = K} g) g.pad) }
    ensures alone { IfOk result (λ g. g.back ≡ []) }
    ensures ticks { IfOk result (λ g. steps.new ≡ steps.old + length (entries_of {K = K} g)) }
    ensures at_least { steps.old ≤ steps.new }
{
    let pad = pad_of(text.len());
    let none = GapRows::new(alloc, Vec::new(alloc), pad)?;
    let joining = Joining::new(&none, pad, 0);
    let read = rows_from_start(alloc, text, source_type, open, &joining, steps)?;
    let entries = GapRows::new(alloc, read.rows, pad)?;
    Ok(entries)
}

/// The rows of the edited text behind those that are kept, which stand before the gap.
fn read_edited<K: KeepGoals, L: Ledger>(
    alloc: Global,
    entries: &GapRows<K>,
    open: &mut OpenTrie,
    source_type: SourceType,
    edit: &Edit<'_>,
    text: &str,
    steps: &mut Steps<L>,
) -> Result<ReadRows<K>, AllocError>
    requires held { (old : List ℕ) × IsEditOf {K = K} K.choice K.knows old source_type open.old entries.now
        edit.now.start edit.now.end edit.now.text.now text.now }
    requires kept { IsKept edit.now.start (rows_of {K = K} (entries_of {K = K} entries.now)) (length entries.now.front) }
    requires short { length text.now < 2 ^ 32 }
    ensures rows { IfOk result (λ r. ReadsEdited {K = K} K.choice K.knows K.alike open.old open.new entries.now
        edit.now.end text.now source_type r.rows.items r.left) }
    ensures ticks { IfOk result (λ r. steps.new ≡ steps.old + length r.rows.items) }
    ensures padded { AllByRecursion (IsPadded {K = K} entries.now.pad) entries.now.back }
    ensures more { HasMore open.old open.new }
    ensures at_least { steps.old ≤ steps.new }
{
    let pad = pad_of(text.len());
    let limit = edit.end + entries.pad();
    let joining = Joining::new(entries, pad, limit);
    match entries.last_before() {
        Some(entry) => rows_behind(
            alloc,
            text,
            source_type,
            open,
            &joining,
            entry.token(),
            entry.state(),
            steps,
        ),
        None => rows_from_start(alloc, text, source_type, open, &joining, steps),
    }
}

/// Puts the rows that were read behind those before the gap, and tells what changed. Where there is no memory for it, all
/// stay as they were.
fn put_read<K: Copy + Drop>(
    alloc: Global,
    entries: &mut GapRows<K>,
    read: ReadRows<K>,
    edit: &Edit<'_>,
    pad: u32,
) -> Result<Change, AllocError>
    requires change { MayChange {K = K} edit.now.start edit.now.end edit.now.text.now entries.old (unwrap_or read.left 0) pad }
    requires may_pad { AllByRecursion (MayPad {K = K} pad)
        (around {K = K} (entries.old.front ++ read.rows.items) pad (take (unwrap_or read.left 0) entries.old.back)) }
    ensures ok { IfOk result (Replaces {K = K} entries.old read.rows.items (unwrap_or read.left 0) pad edit.now.start
        edit.now.end edit.now.text.now entries.new) }
    ensures err { OnErr result (MovesGap {K = K} entries.old entries.new) }
{
    let left = read.left.unwrap_or(0);
    let change = change_of(alloc, entries, read.rows.as_slice(), left, edit, pad)?;
    entries.replace(alloc, read.rows, left, pad)?;
    Ok(change)
}

/// Makes the rows of a text those of the edited text, and tells what changed. Where there is no memory for it, they stay
/// as they were.
pub(crate) fn edit_rows<K: KeepGoals, L: Ledger>(
    alloc: Global,
    entries: &mut GapRows<K>,
    open: &mut OpenTrie,
    source_type: SourceType,
    edit: &Edit<'_>,
    text: &str,
    steps: &mut Steps<L>,
) -> Result<Change, AllocError>
    requires held { (old : List ℕ) × IsEditOf {K = K} K.choice K.knows old source_type open.old entries.old
        edit.now.start edit.now.end edit.now.text.now text.now }
    requires short { length text.now < 2 ^ 32 }
    ensures edits { (old : List ℕ) (was : Change) → IsEditOf {K = K} K.choice K.knows old source_type open.old entries.old
        edit.now.start edit.now.end edit.now.text.now text.now
        → IfOk result (λ change. Edits K.choice K.alike
        (document_of old source_type (rows_of {K = K} (entries_of {K = K} entries.old)) was) edit.now.start edit.now.end
        edit.now.text.now steps.old steps.new
        (document_of text.now source_type (rows_of {K = K} (entries_of {K = K} entries.new)) change)) }
    ensures held { OnOk result (IsHeld {K = K} K.choice K.knows text.now source_type open.new
        (entries_of {K = K} entries.new) entries.new.pad) }
    ensures err { OnErr result (MovesGap {K = K} entries.old entries.new) }
    ensures more { HasMore open.old open.new }
    ensures at_least { steps.old ≤ steps.new }
{
    entries.seek(edit.start);
    let read = read_edited(alloc, entries, open, source_type, edit, text, steps)?;
    put_read(alloc, entries, read, edit, pad_of(text.len()))
}
