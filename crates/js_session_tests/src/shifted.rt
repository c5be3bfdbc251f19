//! Rows whose text is moved.

ghost use Rattle.std.specs.Prelude.{◌≡◌, ◌≤◌, true};
ghost use Rattle.js_session.specs.Shifted.{ShiftFits};

use js_session::{Row, Shift, lex_session};
use js_text::{Diagnostic, SourceType, Span};
use std::alloc::Global;

/// A move of all by five bytes.
const ON_BY_FIVE: Shift = Shift { from: 0, to: 5 };

/// Whether it is the row of a comment like that of HTML, a line end, irregular white space, and a string without an end,
/// five bytes further on.
fn is_moved(row: &Row) -> bool {
    let string = Span { start: 13, end: 15 };
    let html = Span { start: 5, end: 9 };
    let comment = match row.comments.as_slice() {
        [comment] => Some((comment.span, comment.attached_to)),
        _ => None,
    };
    row.place == 5
        && row.token.span() == string
        && comment == Some((Span { start: 5, end: 10 }, 13))
        && row.diagnostics.as_slice()
            == [Diagnostic::UnterminatedString { span: string }].as_slice()
        && row.deferred.as_slice() == [Diagnostic::HtmlCommentInModule { span: html }].as_slice()
        && row.irregular.as_slice() == [Span { start: 11, end: 13 }].as_slice()
}

/// Whether the row may be moved.
fn may_move(row: &Row) -> bool
    ensures fits { result ≡ true → ShiftFits 0 5 row.now }
    ensures ordered { result ≡ true → row.now.token.start ≤ row.now.token.end }
{
    if row.token.start() > row.token.end() {
        return false;
    }
    ON_BY_FIVE.fits(row)
}

/// Moves the row in its place, and gives whether it is moved then. None where it may not be.
fn moves(row: &mut Row) -> Option<bool> {
    if !may_move(row) {
        return None;
    }
    ON_BY_FIVE.move_row(row);
    Some(is_moved(row))
}

/// The same of the first row of a source.
fn moves_first_row(alloc: Global, source: &[u8]) -> Option<bool> {
    let mut rows = match lex_session(alloc, source, SourceType::Unambiguous, false, &[]) {
        Ok(report) => report.rows.into_vec(),
        Err(_) => return None,
    };
    moves(rows.first_mut()?)
}

#[test]
fn a_row_is_moved(rt: HostRuntime) {
    let source = "<!--c\n\u{a0}'x".as_bytes();
    assert_eq!(rt; moves_first_row(rt.alloc(), source), Some(true));
}

/// A move by five bytes of what stands behind two.
const BY_FIVE: Shift = Shift { from: 2, to: 7 };

/// A move to the last place of a `u32`, behind which there is none.
const FAR: Shift = Shift {
    from: 0,
    to: u32::MAX,
};

static PLACES: [(Shift, u32, Option<u32>); 6] = [
    (BY_FIVE, 0, Some(7)),
    (BY_FIVE, 2, Some(7)),
    (BY_FIVE, 3, Some(8)),
    (BY_FIVE, 100, Some(105)),
    (FAR, 0, Some(u32::MAX)),
    (FAR, 1, None),
];

#[test]
fn places_are_moved(rt: HostRuntime) {
    for (shift, place, moved) in &PLACES {
        assert_eq!(rt; shift.place(*place), *moved);
    }
}
