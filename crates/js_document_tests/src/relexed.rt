//! Edits of documents that are given away: how many rows are kept, which one joins the old ones, and the tokens.

ghost use Rattle.std.specs.Prelude.{◌≡◌, ◌<◌};

use js_kind::{Kind, Token};
use js_relex::{Edit, LexDoc, NotRelexed, RelexFault};
use js_session::{Command, Row, Steps};
use js_text::SourceType;
use std::alloc::Global;
use std::marker::Brand;
use std::sync::ledger::{Blank, Ledger};
use std::test::Fail;

const N: Command = Command::Next;

/// A kind, where the token starts and ends, and whether a line ends before it.
type Place = (Kind, u32, u32, bool);

/// What is told of a document that is edited.
enum Told {
    /// How many rows were kept, which row joined the old ones, and the tokens of all rows.
    Rows(usize, Option<usize>, &'static [Place]),
    /// Why there is no other, and how many bytes the text has of the document that comes back.
    Fault(RelexFault, usize),
}

/// A text with commands, an edit, the commands for the new text, and what is told of it.
struct Case {
    text: &'static str,
    old: &'static [Command],
    edit: Edit<'static>,
    commands: &'static [Command],
    told: Told,
}

static CASES: [Case; 12] = [
    // The last of four rows ends behind the edit, and the first alone ends four bytes before it.
    Case {
        text: "ab cd ef",
        old: &[N, N, N],
        edit: Edit {
            start: 6,
            end: 7,
            text: "x",
        },
        commands: &[N, N, N],
        told: Told::Rows(
            1,
            Some(3),
            &[
                (Kind::Ident, 0, 2, true),
                (Kind::Ident, 3, 5, false),
                (Kind::Ident, 6, 8, false),
                (Kind::Eof, 8, 8, false),
            ],
        ),
    },
    Case {
        text: "foo(a, b);\nbar(c);",
        old: &[N, N, N, N, N, N, N, N, N, N, N, N],
        edit: Edit {
            start: 7,
            end: 8,
            text: "bb",
        },
        commands: &[N, N, N, N, N, N, N, N, N, N, N, N],
        told: Told::Rows(
            1,
            Some(5),
            &[
                (Kind::Ident, 0, 3, true),
                (Kind::LParen, 3, 4, false),
                (Kind::Ident, 4, 5, false),
                (Kind::Comma, 5, 6, false),
                (Kind::Ident, 7, 9, false),
                (Kind::RParen, 9, 10, false),
                (Kind::Semicolon, 10, 11, false),
                (Kind::Ident, 12, 15, true),
                (Kind::LParen, 15, 16, false),
                (Kind::Ident, 16, 17, false),
                (Kind::RParen, 17, 18, false),
                (Kind::Semicolon, 18, 19, false),
                (Kind::Eof, 19, 19, false),
            ],
        ),
    },
    // The token behind a new line end has another flag, and joins nothing.
    Case {
        text: "a b c",
        old: &[N, N, N],
        edit: Edit {
            start: 1,
            end: 2,
            text: "\n",
        },
        commands: &[N, N, N],
        told: Told::Rows(
            0,
            Some(2),
            &[
                (Kind::Ident, 0, 1, true),
                (Kind::Ident, 2, 3, true),
                (Kind::Ident, 4, 5, false),
                (Kind::Eof, 5, 5, false),
            ],
        ),
    },
    // Nothing is kept where the edit is at the start.
    Case {
        text: "a b",
        old: &[N, N],
        edit: Edit {
            start: 0,
            end: 0,
            text: "c ",
        },
        commands: &[N, N, N],
        told: Told::Rows(
            0,
            Some(2),
            &[
                (Kind::Ident, 0, 1, true),
                (Kind::Ident, 2, 3, false),
                (Kind::Ident, 4, 5, false),
                (Kind::Eof, 5, 5, false),
            ],
        ),
    },
    // A comment that is opened takes in what stands behind it.
    Case {
        text: "a b c d e",
        old: &[N, N, N, N, N],
        edit: Edit {
            start: 6,
            end: 6,
            text: "/*",
        },
        commands: &[N, N, N, N, N],
        told: Told::Rows(
            1,
            Some(5),
            &[
                (Kind::Ident, 0, 1, true),
                (Kind::Ident, 2, 3, false),
                (Kind::Ident, 4, 5, false),
                (Kind::Eof, 6, 11, false),
                (Kind::Eof, 11, 11, false),
                (Kind::Eof, 11, 11, false),
            ],
        ),
    },
    // Fewer commands than rows that might stay.
    Case {
        text: "a b c d e f g",
        old: &[N, N, N, N, N, N, N],
        edit: Edit {
            start: 13,
            end: 13,
            text: "h",
        },
        commands: &[N, N],
        told: Told::Rows(
            3,
            None,
            &[
                (Kind::Ident, 0, 1, true),
                (Kind::Ident, 2, 3, false),
                (Kind::Ident, 4, 5, false),
            ],
        ),
    },
    // An edit of everything, and one of nothing.
    Case {
        text: "a b",
        old: &[N, N],
        edit: Edit {
            start: 0,
            end: 3,
            text: "",
        },
        commands: &[],
        told: Told::Rows(0, None, &[(Kind::Eof, 0, 0, true)]),
    },
    Case {
        text: "a b c d",
        old: &[N, N, N, N],
        edit: Edit {
            start: 7,
            end: 7,
            text: "",
        },
        commands: &[N, N, N, N],
        told: Told::Rows(
            2,
            Some(4),
            &[
                (Kind::Ident, 0, 1, true),
                (Kind::Ident, 2, 3, false),
                (Kind::Ident, 4, 5, false),
                (Kind::Ident, 6, 7, false),
                (Kind::Eof, 7, 7, false),
            ],
        ),
    },
    // Faults, with the document that comes back. The `é` has two bytes.
    Case {
        text: "aé b",
        old: &[],
        edit: Edit {
            start: 3,
            end: 1,
            text: "x",
        },
        commands: &[],
        told: Told::Fault(RelexFault::BadEdit, 5),
    },
    Case {
        text: "aé b",
        old: &[],
        edit: Edit {
            start: 2,
            end: 3,
            text: "x",
        },
        commands: &[Command::Peek],
        told: Told::Fault(RelexFault::BadEdit, 5),
    },
    Case {
        text: "aé b",
        old: &[],
        edit: Edit {
            start: 3,
            end: 6,
            text: "x",
        },
        commands: &[],
        told: Told::Fault(RelexFault::BadEdit, 5),
    },
    Case {
        text: "aé b",
        old: &[],
        edit: Edit {
            start: 0,
            end: 1,
            text: "x",
        },
        commands: &[N, Command::Peek],
        told: Told::Fault(RelexFault::BadCommand(1), 5),
    },
];

fn is_token(token: &Token, place: &Place) -> bool {
    token.kind().is_same(place.0)
        && token.start() == place.1
        && token.end() == place.2
        && token.is_on_new_line() == place.3
}

/// Whether these are the tokens of the rows.
fn have_tokens(rows: &[Row], places: &[Place]) -> bool {
    let mut same = rows.len() == places.len();
    for (row, place) in rows.iter().zip(places) {
        same = same && is_token(&row.token, place);
    }
    same
}

/// The document of the case's text with its edit made, or why there is none. None: there was not enough memory for the
/// text.
fn relexed<L: Ledger>(
    alloc: Global,
    case: &Case,
    blank: Blank,
) -> Option<Result<LexDoc, NotRelexed>>
    requires name { blank.name ≡ L.name }
    requires parts { blank.parts ≡ L.parts }
    requires some_part { 0 < L.parts }
{
    let mut steps = Steps::<L>::new(blank);
    let old = LexDoc::new(alloc, case.text, SourceType::Module, case.old, &mut steps).ok()?;
    Some(old.into_relexed(alloc, &case.edit, case.commands, &mut steps))
}

/// Whether this is what is told.
fn is_told(found: &Result<LexDoc, NotRelexed>, told: &Told) -> bool {
    match (found, told) {
        (Ok(document), Told::Rows(kept, joined, tokens)) => {
            document.kept_rows() == *kept
                && document.joined_row() == *joined
                && have_tokens(document.report().rows.as_slice(), tokens)
        }
        (Err(not), Told::Fault(fault, bytes)) => {
            not.fault == *fault && not.document.text().len() == *bytes
        }
        _ => false,
    }
}

#[test]
fn edits_of_documents(rt: HostRuntime) -> Result<(), Fail> {
    for (index, case) in CASES.iter().enumerate() {
        let found = relexed::<Brand>(rt.alloc(), case, Blank::new(1)).ok_or("no document")?;
        assert!(rt; is_told(&found, &case.told), "case {index}");
    }
    Ok(())
}
