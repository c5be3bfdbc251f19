//! The calls about a document that is edited, by a handle.

ghost use Rattle.std.specs.Prelude.{◌≡◌};
ghost use Rattle.std.specs.declared.option.Option.TheVariants.{None};
ghost use Rattle.js_lex_c.specs.Documents.{BecomesEdited, BothHold, DocumentCause, EditRefused, GivesChange};
ghost use Rattle.js_lex_c.specs.Documents.{GivesComments, GivesDiagnostics, GivesLines, GivesOffset, GivesPosition};
ghost use Rattle.js_lex_c.specs.Documents.{GivesTokenAt, GivesTokens, GivesValueAt, GivesValues, HasNoTokenAt, HeldCause};
ghost use Rattle.js_lex_c.specs.Documents.{HoldsDocument, HoldsSuch, IsNewDocument, IsToldAlike, NewCause, NoCause};
ghost use Rattle.js_lex_c.specs.Documents.{OffsetRefused, UnitRefused};
ghost use Rattle.js_lex_c.specs.Refusals.{DoesOr};

use crate::document_record::{JsChange, JsLiveToken, JsLiveValue, JsPosition, change_record};
use crate::held_document::{
    comments_held, diagnostics_held, edit_held, lines_held, offset_held, position_held, put_new,
    token_at_held, tokens_held, value_at_held, values_held,
};
use crate::record::{JsComment, JsDiagnostic};
use crate::refusal::{Refusal, answer_of};
use js_document_c::JsDocument;
use js_lines::Position;
use std::alloc::Global;
use std::marker::Brand;
use std::sync::ledger::Blank;

/// Makes the document of a source whose goals are chosen, and puts it into the handle; a document that was there is
/// freed. `source_type` is 0 for a module, 1 for a script, and 2 where it is not settled. `goals` is 0 for the rule of
/// `js_lex_auto`, and 1 for that of `js_lex_jsx`. `line_ends` is 0 for LF, CR, CR LF, U+2028 and U+2029, 1 for LF and
/// CR LF, and 2 for LF, CR and CR LF.
///
/// It answers 0; 1 without memory; 6 where the source is not UTF-8; 11 where it has 2^32 bytes or more; 13 for another
/// source type, and 16 for other goals or line ends. Behind each but 0 the handle is as before.
#[unsafe(no_mangle)]
pub extern "C" fn js_document_new(
    alloc: Global,
    source: &[u8],
    source_type: u32,
    goals: u32,
    line_ends: u32,
    document: &mut JsDocument,
) -> u32
    ensures { DoesOr (NewCause source.now source_type goals line_ends)
        (HoldsSuch document.new.value (IsNewDocument source.now source_type goals line_ends))
        (document.new.value ≡ document.old.value) result }
{
    let blank = Blank::new(1);
    let found = put_new::<Brand>(
        alloc,
        source,
        source_type,
        goals,
        line_ends,
        document,
        blank,
    );
    answer_of(found)
}

/// Frees the document, if there is one: the handle holds none then.
#[unsafe(no_mangle)]
pub extern "C" fn js_document_free(alloc: Global, document: &mut JsDocument)
    ensures { document.new.value ≡ None }
{
    if let Some(held) = document.take(alloc) {
        drop(held);
    }
}

/// Makes an edit: the bytes from `start` up to `end` become those of the text. What it costs grows with what is lexed
/// anew, and with the length of the text as a copy of it does.
///
/// It answers 0; 1 without memory; 6 where the text is not UTF-8; 11 where it, or the text that the edit makes, has 2^32
/// bytes or more; 14 where the edit is none of the document's text: where it starts behind its end, or one of both is
/// behind the text or within a character; and 15 where there is no document. Behind each but 0 all is as before.
#[unsafe(no_mangle)]
pub extern "C" fn js_document_edit(
    alloc: Global,
    document: &mut JsDocument,
    start: u32,
    end: u32,
    text: &[u8],
) -> u32
    ensures { DoesOr (HeldCause document.old.value (EditRefused start end text.now))
        (BothHold document.old.value document.new.value (BecomesEdited start end text.now))
        (document.new.value ≡ document.old.value) result }
{
    let Some(mut held) = document.take(alloc) else {
        return Refusal::NoDocument.number();
    };
    let found = edit_held(alloc, &mut held, start, end, text);
    document.put(held);
    answer_of(found)
}

/// Tells what the last edit changed of the tokens, the comments and the diagnostics, or, where none was made, that all of
/// them came. It answers 0, or 15 where there is no document, and then `change` is as before.
#[unsafe(no_mangle)]
pub extern "C" fn js_document_changed(
    alloc: Global,
    document: &mut JsDocument,
    change: &mut JsChange,
) -> u32
    ensures answer { DoesOr (DocumentCause document.old.value NoCause) (HoldsDocument document.old.value (GivesChange change.new))
        (change.new ≡ change.old) result }
    ensures same { document.new.value ≡ document.old.value }
{
    let Some(held) = document.take(alloc) else {
        return Refusal::NoDocument.number();
    };
    *change = change_record(held.document().changed());
    document.put(held);
    0
}

/// Fills a list with the live tokens from an index on, as far as there is room; `count` says how many the document has.
/// It answers 0, or 15 where there is no document, and then both are as before.
#[unsafe(no_mangle)]
pub extern "C" fn js_document_tokens(
    alloc: Global,
    document: &mut JsDocument,
    from: usize,
    tokens: &mut [JsLiveToken],
    count: &mut usize,
) -> u32
    ensures answer { DoesOr (DocumentCause document.old.value NoCause)
        (HoldsDocument document.old.value (GivesTokens from tokens.old tokens.new count.new))
        ((tokens.new ≡ tokens.old) × (count.new ≡ count.old)) result }
    ensures same { document.new.value ≡ document.old.value }
{
    let Some(held) = document.take(alloc) else {
        return Refusal::NoDocument.number();
    };
    tokens_held(&held, from, tokens, count);
    document.put(held);
    0
}

/// Fills a list with the values of the live tokens from an index on, as `js_document_tokens` does with the tokens: the
/// value at an index is that of the token there. It answers 0, or 15 where there is no document, and then both are as
/// before.
#[unsafe(no_mangle)]
pub extern "C" fn js_document_values(
    alloc: Global,
    document: &mut JsDocument,
    from: usize,
    values: &mut [JsLiveValue],
    count: &mut usize,
) -> u32
    ensures answer { DoesOr (DocumentCause document.old.value NoCause)
        (HoldsDocument document.old.value (GivesValues from values.old values.new count.new))
        ((values.new ≡ values.old) × (count.new ≡ count.old)) result }
    ensures same { document.new.value ≡ document.old.value }
{
    let Some(held) = document.take(alloc) else {
        return Refusal::NoDocument.number();
    };
    values_held(&held, from, values, count);
    document.put(held);
    0
}

/// Tells the live token that the byte at an offset belongs to. It answers 0, 15 where there is no document, and 17 where
/// the byte belongs to none or is behind the text; behind each but 0 `token` is as before.
#[unsafe(no_mangle)]
pub extern "C" fn js_document_token_at(
    alloc: Global,
    document: &mut JsDocument,
    offset: u32,
    token: &mut JsLiveToken,
) -> u32
    ensures answer { DoesOr (DocumentCause document.old.value (HasNoTokenAt offset))
        (HoldsDocument document.old.value (GivesTokenAt offset token.new)) (token.new ≡ token.old) result }
    ensures same { document.new.value ≡ document.old.value }
{
    let Some(held) = document.take(alloc) else {
        return Refusal::NoDocument.number();
    };
    let found = token_at_held(&held, offset, token);
    document.put(held);
    answer_of(found)
}

/// Tells the value of the live token that the byte at an offset belongs to, and fills a list with its UTF-16 units, if it
/// was decoded, as far as there is room. It answers 0, 15 where there is no document, and 17 where the byte belongs to no
/// token or is behind the text; behind each but 0 both are as before.
#[unsafe(no_mangle)]
pub extern "C" fn js_document_value_at(
    alloc: Global,
    document: &mut JsDocument,
    offset: u32,
    value: &mut JsLiveValue,
    units: &mut [u16],
) -> u32
    ensures answer { DoesOr (DocumentCause document.old.value (HasNoTokenAt offset))
        (HoldsDocument document.old.value (GivesValueAt offset value.new units.old units.new))
        ((value.new ≡ value.old) × (units.new ≡ units.old)) result }
    ensures same { document.new.value ≡ document.old.value }
{
    let Some(held) = document.take(alloc) else {
        return Refusal::NoDocument.number();
    };
    let found = value_at_held(&held, offset, value, units);
    document.put(held);
    answer_of(found)
}

/// Fills a list with the comments from an index on, as far as there is room; `count` says how many there are. It answers
/// 0, 1 where there are more than a `size_t` counts, and 15 where there is no document; behind each but 0 both are as
/// before.
#[unsafe(no_mangle)]
pub extern "C" fn js_document_comments(
    alloc: Global,
    document: &mut JsDocument,
    from: usize,
    comments: &mut [JsComment],
    count: &mut usize,
) -> u32
    ensures answer { DoesOr (DocumentCause document.old.value NoCause)
        (HoldsDocument document.old.value (GivesComments from comments.old comments.new count.new))
        ((comments.new ≡ comments.old) × (count.new ≡ count.old)) result }
    ensures same { document.new.value ≡ document.old.value }
{
    let Some(held) = document.take(alloc) else {
        return Refusal::NoDocument.number();
    };
    let found = comments_held(&held, from, comments, count);
    document.put(held);
    answer_of(found)
}

/// Fills a list with the diagnostics, as `js_document_comments` does with the comments.
#[unsafe(no_mangle)]
pub extern "C" fn js_document_diagnostics(
    alloc: Global,
    document: &mut JsDocument,
    from: usize,
    diagnostics: &mut [JsDiagnostic],
    count: &mut usize,
) -> u32
    ensures answer { DoesOr (DocumentCause document.old.value NoCause)
        (HoldsDocument document.old.value (GivesDiagnostics from diagnostics.old diagnostics.new count.new))
        ((diagnostics.new ≡ diagnostics.old) × (count.new ≡ count.old)) result }
    ensures same { document.new.value ≡ document.old.value }
{
    let Some(held) = document.take(alloc) else {
        return Refusal::NoDocument.number();
    };
    let found = diagnostics_held(&held, from, diagnostics, count);
    document.put(held);
    answer_of(found)
}

/// Fills a list with the offsets at which lines begin, in bytes, from the line with a number on, as far as there is room;
/// `count` says how many lines there are. The first line has the number 0, and the last one ends with the text.
///
/// It answers 0; 1 without memory, and 15 where there is no document. Behind each but 0 both are as before.
#[unsafe(no_mangle)]
pub extern "C" fn js_document_lines(
    alloc: Global,
    document: &mut JsDocument,
    from: u32,
    starts: &mut [u32],
    count: &mut usize,
) -> u32
    ensures answer { DoesOr (DocumentCause document.old.value NoCause)
        (HoldsSuch document.old.value (GivesLines from starts.old starts.new count.new))
        ((starts.new ≡ starts.old) × (count.new ≡ count.old)) result }
    ensures same { IsToldAlike document.old.value document.new.value }
{
    let Some(mut held) = document.take(alloc) else {
        return Refusal::NoDocument.number();
    };
    let found = lines_held(alloc, &mut held, from, starts, count);
    document.put(held);
    answer_of(found)
}

/// Tells the line and the column of an offset. `unit` is 0 for bytes, 1 for characters and 2 for units of UTF-16. Within
/// a character the offset is that character's start, behind the text its end.
///
/// It answers 0; 1 without memory; 15 where there is no document, and 16 for another unit. Behind each but 0 `position`
/// is as before.
#[unsafe(no_mangle)]
pub extern "C" fn js_document_position(
    alloc: Global,
    document: &mut JsDocument,
    offset: u32,
    unit: u32,
    position: &mut JsPosition,
) -> u32
    ensures answer { DoesOr (HeldCause document.old.value (UnitRefused unit))
        (HoldsSuch document.old.value (GivesPosition offset unit position.new)) (position.new ≡ position.old) result }
    ensures same { IsToldAlike document.old.value document.new.value }
{
    let Some(mut held) = document.take(alloc) else {
        return Refusal::NoDocument.number();
    };
    let found = position_held(alloc, &mut held, offset, unit, position);
    document.put(held);
    answer_of(found)
}

/// Tells the offset of a place: behind the longest front of its line that is no longer than its column.
///
/// It answers 0; 1 without memory; 15 where there is no document; 16 for another unit, and 17 where there is no line of
/// this number. Behind each but 0 `offset` is as before.
#[unsafe(no_mangle)]
pub extern "C" fn js_document_offset(
    alloc: Global,
    document: &mut JsDocument,
    line: u32,
    column: u32,
    unit: u32,
    offset: &mut u32,
) -> u32
    ensures answer { DoesOr (HeldCause document.old.value (OffsetRefused (record { line = line; column = column }) unit))
        (HoldsSuch document.old.value (GivesOffset (record { line = line; column = column }) unit offset.new))
        (offset.new ≡ offset.old) result }
    ensures same { IsToldAlike document.old.value document.new.value }
{
    let Some(mut held) = document.take(alloc) else {
        return Refusal::NoDocument.number();
    };
    let found = offset_held(alloc, &mut held, Position { line, column }, unit, offset);
    document.put(held);
    answer_of(found)
}
