//! Lists of a caller, filled with what a document has.

ghost use Rattle.std.specs.Prelude.{◌≡◌, ◌≤◌, ◌^◌, drop, length, map, IfOk};
ghost use Rattle.js_lex_c.specs.DocumentRecords.{live_token_record, live_value_record};
ghost use Rattle.js_lex_c.specs.Filled.{filled};
ghost use Rattle.js_lex_c.specs.Records.{comment_record, diagnostic_record};

use crate::document_record::{JsLiveToken, JsLiveValue, live_token_record, live_value_record};
use crate::put::put;
use crate::record::{JsComment, JsDiagnostic, comment_record, diagnostic_record};
use js_document::{Comments, Diagnostics, Found, FoundList, KeepGoals, Tokens, Values};
use js_edited_lines::EditedLines;
use std::alloc::AllocError;

/// Fills a list with tokens as far as there is room.
pub(crate) fn fill_tokens<K: KeepGoals>(room: &mut [JsLiveToken], tokens: &mut Tokens<'_, K>)
    ensures { room.new ≡ filled room.old (map live_token_record tokens.old) }
{
    let mut place = 0;
    while place < room.len() {
        let Some(token) = tokens.next() else {
            return;
        };
        put(room, place, live_token_record(&token));
        place += 1;
    }
}

/// Fills a list with values as far as there is room.
pub(crate) fn fill_values<K: KeepGoals>(room: &mut [JsLiveValue], values: &mut Values<'_, K>)
    ensures { room.new ≡ filled room.old (map live_value_record values.old) }
{
    let mut place = 0;
    while place < room.len() {
        let Some(value) = values.next() else {
            return;
        };
        put(room, place, live_value_record(value));
        place += 1;
    }
}

/// Passes so many items of a list, or all where there are no more.
fn pass_found<K: KeepGoals, L: FoundList>(found: &mut Found<'_, K, L>, count: usize)
    ensures { found.new ≡ drop count found.old }
{
    let mut left = count;
    while left > 0 {
        if found.next().is_none() {
            return;
        }
        left -= 1;
    }
}

/// How many items a list has. There is no memory for more than `usize::MAX`.
pub(crate) fn count_found<K: KeepGoals, L: FoundList>(
    found: &mut Found<'_, K, L>,
) -> Result<usize, AllocError>
    ensures { IfOk result (λ count. count ≡ length found.old) }
{
    let mut count = 0usize;
    while found.next().is_some() {
        let Some(more) = count.checked_add(1) else {
            return Err(AllocError);
        };
        count = more;
    }
    Ok(count)
}

/// Fills a list with comments as far as there is room.
fn fill_comments<K: KeepGoals>(room: &mut [JsComment], comments: &mut Found<'_, K, Comments>)
    ensures { room.new ≡ filled room.old (map comment_record comments.old) }
{
    let mut place = 0;
    while place < room.len() {
        let Some(comment) = comments.next() else {
            return;
        };
        put(room, place, comment_record(&comment));
        place += 1;
    }
}

/// Fills a list with the comments from an index on, as far as there is room.
pub(crate) fn fill_comments_from<K: KeepGoals>(
    room: &mut [JsComment],
    comments: &mut Found<'_, K, Comments>,
    from: usize,
)
    ensures { room.new ≡ filled room.old (map comment_record (drop from comments.old)) }
{
    pass_found(comments, from);
    fill_comments(room, comments);
}

/// Fills a list with diagnostics as far as there is room.
fn fill_diagnostics<K: KeepGoals>(
    room: &mut [JsDiagnostic],
    diagnostics: &mut Found<'_, K, Diagnostics>,
)
    ensures { room.new ≡ filled room.old (map diagnostic_record diagnostics.old) }
{
    let mut place = 0;
    while place < room.len() {
        let Some(diagnostic) = diagnostics.next() else {
            return;
        };
        put(room, place, diagnostic_record(&diagnostic));
        place += 1;
    }
}

/// Fills a list with the diagnostics from an index on, as far as there is room.
pub(crate) fn fill_diagnostics_from<K: KeepGoals>(
    room: &mut [JsDiagnostic],
    diagnostics: &mut Found<'_, K, Diagnostics>,
    from: usize,
)
    ensures { room.new ≡ filled room.old (map diagnostic_record (drop from diagnostics.old)) }
{
    pass_found(diagnostics, from);
    fill_diagnostics(room, diagnostics);
}

/// Fills a list with the offsets at which lines begin, from a line on, as far as there is room.
pub(crate) fn fill_line_starts(room: &mut [u32], lines: &EditedLines, from: u32)
    requires { length lines.now.starts ≤ 2 ^ 32 }
    ensures { room.new ≡ filled room.old (drop from lines.now.starts) }
{
    let mut place = 0;
    let mut line = from;
    while place < room.len() {
        let Some(start) = lines.line_start(line) else {
            return;
        };
        put(room, place, start);
        place += 1;
        let Some(next) = line.checked_add(1) else {
            return;
        };
        line = next;
    }
}
