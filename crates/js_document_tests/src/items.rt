//! What documents have: their tokens, the one at an offset, and what their rows found.

use crate::edits::{Edits, make_edits};
use js_document::{AutoState, Document, Edit, Found, FoundList};
use std::marker::Brand;
use std::sync::ledger::Blank;
use std::test::Fail;

/// An offset, and where the token that is there starts and ends.
static PLACES: [(u32, Option<(u32, u32)>); 11] = [
    (0, Some((0, 1))),
    (1, None),
    (2, Some((2, 3))),
    (4, Some((4, 9))),
    (8, Some((4, 9))),
    (9, None),
    (10, None),
    (23, Some((23, 24))),
    (28, None),
    (37, Some((37, 39))),
    (39, None),
];

/// A regular expression, comments, an irregular space, an HTML-like comment, and a string that has no end. Nothing is put
/// in between the comments, so that places stand on either side of an edit.
static PARTED: Edits<'static> = Edits {
    text: "a = /b\u{E9}/ // c\n/* d */ + e\u{3000}\n<!-- h\n's",
    edits: &[Edit {
        start: 15,
        end: 15,
        text: "",
    }],
};

/// Where the token that is at the offset starts and ends.
fn place_at(document: &Document<AutoState>, offset: u32) -> Option<(u32, u32)> {
    let token = document.token_at(offset)?;
    Some((token.start(), token.end()))
}

/// An index, and where the token that has it starts and ends.
static INDEXES: [(usize, Option<(u32, u32)>); 6] = [
    (0, Some((0, 1))),
    (2, Some((4, 9))),
    (3, Some((23, 24))),
    (6, Some((39, 39))),
    (7, None),
    (usize::MAX, None),
];

/// Where the first token from an index on starts and ends.
fn place_from(document: &Document<AutoState>, index: usize) -> Option<(u32, u32)> {
    let token = document.tokens_from(index).next()?;
    Some((token.start(), token.end()))
}

#[test]
fn tokens_by_halves(rt: HostRuntime) -> Result<(), Fail> {
    let (document, _) = make_edits::<Brand>(rt.alloc(), &PARTED, Blank::new(1)).ok_or(
        "no document",
    )?;
    for &(offset, wanted) in &PLACES {
        assert_eq!(rt; place_at(&document, offset), wanted);
    }
    for &(index, wanted) in &INDEXES {
        assert_eq!(rt; place_from(&document, index), wanted);
    }
    Ok(())
}

/// How many items a list has.
fn count<L: FoundList>(found: Found<'_, AutoState, L>) -> u32 {
    let mut count: u32 = 0;
    for _item in found {
        count = count.saturating_add(1);
    }
    count
}

/// How many live tokens there are.
fn count_tokens(document: &Document<AutoState>) -> u32 {
    let mut count: u32 = 0;
    for _token in document.tokens() {
        count = count.saturating_add(1);
    }
    count
}

/// How many tokens, comments, irregular spaces, diagnostics, deferred ones and warnings there are.
fn counts(document: &Document<AutoState>) -> [u32; 6] {
    [
        count_tokens(document),
        count(document.comments()),
        count(document.irregular()),
        count(document.diagnostics()),
        count(document.deferred()),
        count(document.warnings()),
    ]
}

#[test]
fn items_of_documents(rt: HostRuntime) -> Result<(), Fail> {
    let (document, _) = make_edits::<Brand>(rt.alloc(), &PARTED, Blank::new(1)).ok_or(
        "no document",
    )?;
    assert_eq!(rt; counts(&document), [7, 3, 1, 1, 1, 0]);
    Ok(())
}
