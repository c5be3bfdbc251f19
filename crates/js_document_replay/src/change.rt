//! Whether what a document tells of a change holds of the tokens before it and behind it.

use js_document::{Change, Edit};
use js_kind::Token;
use js_session::Shift;
use js_text::Span;

/// The tokens of a text in three parts: those before a change, those that changed, and those behind.
#[derive(Clone, Copy)]
struct Parts<'t> {
    before: &'t [Token],
    changed: &'t [Token],
    behind: &'t [Token],
}

impl<'t> Parts<'t> {
    /// The parts of tokens of which those from `start` up to `end` changed. None: there are fewer, or these are not in
    /// order.
    fn new(tokens: &'t [Token], start: usize, end: usize) -> Option<Parts<'t>> {
        let before = tokens.get(..start)?;
        let changed = tokens.get(start..end)?;
        let behind = tokens.get(end..)?;
        Some(Parts {
            before,
            changed,
            behind,
        })
    }
}

/// The token, moved. None: it has no places there, in order.
fn moved(token: &Token, shift: &Shift) -> Option<Token> {
    let start = shift.place(token.start())?;
    let end = shift.place(token.end())?;
    if start > end {
        return None;
    }
    let mut moved = *token;
    moved.set_span(Span { start, end });
    Some(moved)
}

/// Whether the old token stands before the edit, and the new one is the same.
fn is_before(old: &Token, new: &Token, edit: &Edit<'_>) -> bool {
    old.end() <= edit.start && old.is_same(new)
}

/// Whether the old token stands behind the edit, and the new one is the same, moved.
fn is_behind(old: &Token, new: &Token, edit: &Edit<'_>, shift: &Shift) -> bool {
    match moved(old, shift) {
        Some(moved) => old.start() >= edit.end && moved.is_same(new),
        None => false,
    }
}

/// Whether all tokens stand before the edit, and the new ones are the same.
fn are_before(old: &[Token], new: &[Token], edit: &Edit<'_>) -> bool {
    for (old, new) in old.iter().zip(new) {
        if !is_before(old, new, edit) {
            return false;
        }
    }
    old.len() == new.len()
}

/// Whether all tokens stand behind the edit, and the new ones are the same, moved.
fn are_behind(old: &[Token], new: &[Token], edit: &Edit<'_>, shift: &Shift) -> bool {
    for (old, new) in old.iter().zip(new) {
        if !is_behind(old, new, edit, shift) {
            return false;
        }
    }
    old.len() == new.len()
}

/// Whether fewer tokens changed: the first of them did not, or the last did not.
fn are_fewer(old: &[Token], new: &[Token], edit: &Edit<'_>, shift: &Shift) -> bool {
    let first = match (old.first(), new.first()) {
        (Some(old), Some(new)) => is_before(old, new, edit),
        _ => false,
    };
    let last = match (old.last(), new.last()) {
        (Some(old), Some(new)) => is_behind(old, new, edit, shift),
        _ => false,
    };
    first || last
}

/// Whether what is told of the change holds of the old and the new tokens, and is as little as it can be.
pub fn is_change(change: &Change, edit: &Edit<'_>, old: &[Token], new: &[Token]) -> bool {
    let range = change.tokens;
    let Some(old) = Parts::new(old, range.start, range.old_end) else {
        return false;
    };
    let Some(new) = Parts::new(new, range.start, range.new_end) else {
        return false;
    };
    are_before(old.before, new.before, edit)
        && are_behind(old.behind, new.behind, edit, &change.moved)
        && !are_fewer(old.changed, new.changed, edit, &change.moved)
}
