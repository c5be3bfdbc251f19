//! What is done with lexers, and what they tell.

use crate::lexer_calls::{Behind, Call, Case, Text, play};
use js_kind::Kind;
use js_text::{CommentContent, CommentRange, Span};
use std::test::Fail;

/// The first comment.
const FIRST: Option<CommentRange> = Some(CommentRange { start: 0, end: 1 });

static CASES: [Case; 13] = [
    // A fault that is peeked at, or before which the lexer goes back, is not reported.
    Case {
        source: "a \u{1}b",
        before: &[Call::Next(Kind::Ident, 0, 1)],
        behind: Behind::GoBack(
            &[
                Call::Peek(Kind::Undetermined, 2, 3),
                Call::Offset(1),
                Call::LastToken(Kind::Ident, 0, 1),
                Call::Errors(0),
                Call::Next(Kind::Undetermined, 2, 3),
                Call::Offset(3),
                Call::LastToken(Kind::Undetermined, 2, 3),
                Call::Errors(1),
            ],
            true,
        ),
        after: &[
            Call::Offset(1),
            Call::LastToken(Kind::Ident, 0, 1),
            Call::Errors(0),
            Call::Tokens(1),
        ],
    },
    // There is no way back before what was handed out, since the list is shorter then.
    Case {
        source: "\u{1}",
        before: &[Call::Next(Kind::Undetermined, 0, 1)],
        behind: Behind::GoBack(&[Call::TakeErrors(1)], false),
        after: &[
            Call::Errors(0),
            Call::Offset(1),
            Call::LastToken(Kind::Undetermined, 0, 1),
        ],
    },
    Case {
        source: "a b",
        before: &[Call::Next(Kind::Ident, 0, 1)],
        behind: Behind::GoBack(&[Call::AdvanceToEnd, Call::Next(Kind::Eof, 3, 3)], true),
        after: &[Call::Offset(1), Call::Tokens(1)],
    },
    Case {
        source: "a b",
        before: &[Call::Next(Kind::Ident, 0, 1)],
        behind: Behind::GoBack(
            &[
                Call::AdvanceToEnd,
                Call::Next(Kind::Eof, 3, 3),
                Call::TakeTokens(2),
            ],
            false,
        ),
        after: &[
            Call::Tokens(0),
            Call::Offset(3),
            Call::LastToken(Kind::Eof, 3, 3),
        ],
    },
    Case {
        source: "a",
        before: &[Call::Next(Kind::Ident, 0, 1), Call::Next(Kind::Eof, 1, 1)],
        behind: Behind::GoBack(&[Call::FinalizeTokens(1)], false),
        after: &[Call::Tokens(0)],
    },
    Case {
        source: "/* @__PURE__ */ f",
        before: &[Call::Next(Kind::Ident, 16, 17), Call::Pure(FIRST)],
        behind: Behind::GoBack(&[Call::TakeComments(1)], false),
        after: &[Call::Pure(None), Call::NoSideEffects(None)],
    },
    // A token that is put in the place of another goes with the way back.
    Case {
        source: "a",
        before: &[
            Call::RewriteLast(Kind::Let),
            Call::Tokens(0),
            Call::Next(Kind::Ident, 0, 1),
        ],
        behind: Behind::GoBack(
            &[
                Call::RewriteLast(Kind::Let),
                Call::Collected(0, Kind::Let, 0, 1),
                Call::LastToken(Kind::Ident, 0, 1),
            ],
            true,
        ),
        after: &[Call::Collected(0, Kind::Ident, 0, 1)],
    },
    // The texts of names stay behind the way back before them.
    Case {
        source: "#a \\u0062",
        before: &[],
        behind: Behind::GoBack(
            &[
                Call::Next(Kind::PrivateIdentifier, 0, 2),
                Call::Next(Kind::Ident, 3, 9),
            ],
            true,
        ),
        after: &[
            Call::Tokens(0),
            Call::Text(
                Kind::PrivateIdentifier,
                Span { start: 0, end: 2 },
                false,
                Text::Source("a"),
            ),
            Call::Text(
                Kind::Ident,
                Span { start: 3, end: 9 },
                true,
                Text::Decoded(&[0x62]),
            ),
        ],
    },
    // What is taken back of what was reported comes back with a copy alone.
    Case {
        source: "1x",
        before: &[Call::Next(Kind::Eof, 0, 2)],
        behind: Behind::Recover(
            &[
                Call::PopError(Some("InvalidNumberEnd")),
                Call::PopError(None),
            ],
            true,
        ),
        after: &[Call::Errors(1), Call::LastToken(Kind::Eof, 0, 2)],
    },
    Case {
        source: "1x",
        before: &[Call::Next(Kind::Eof, 0, 2)],
        behind: Behind::GoBack(&[Call::PopError(Some("InvalidNumberEnd"))], false),
        after: &[Call::Errors(0)],
    },
    // Comments stay marked behind a way back.
    Case {
        source: "export /* #__NO_SIDE_EFFECTS__ */ class Foo {}",
        before: &[
            Call::Next(Kind::Export, 0, 6),
            Call::Next(Kind::Class, 34, 39),
            Call::Pure(None),
            Call::NoSideEffects(FIRST),
            Call::FirstComment(CommentContent::NoSideEffectsNotApplied),
        ],
        behind: Behind::GoBack(
            &[
                Call::MarkFirst,
                Call::FirstComment(CommentContent::NoSideEffects),
            ],
            true,
        ),
        after: &[
            Call::FirstComment(CommentContent::NoSideEffects),
            Call::NoSideEffects(FIRST),
        ],
    },
    // Annotations stay behind a child of JSX, and not behind the next token.
    Case {
        source: "/* @__PURE__ */ >x<",
        before: &[
            Call::Next(Kind::RAngle, 16, 17),
            Call::Pure(FIRST),
            Call::FirstComment(CommentContent::PureNotApplied),
        ],
        behind: Behind::GoBack(
            &[
                Call::Child(Kind::JSXText, 17, 18),
                Call::Pure(FIRST),
                Call::Next(Kind::LAngle, 18, 19),
                Call::Pure(None),
                Call::MarkFirst,
            ],
            true,
        ),
        after: &[Call::Pure(FIRST), Call::FirstComment(CommentContent::Pure)],
    },
    Case {
        source: "/*a*/ a /*b*/ /*c*/ \u{A0} \u{1}",
        before: &[Call::Next(Kind::Ident, 6, 7)],
        behind: Behind::Find(&[Call::Next(Kind::Undetermined, 23, 24)], (2, 1, 1)),
        after: &[],
    },
];

/// What is told of tokens behind one that is set.
static BEHIND_ONE: Case = Case {
    source: "a",
    before: &[Call::Collected(0, Kind::Eof, 0, 0)],
    behind: Behind::GoBack(
        &[
            Call::Next(Kind::Ident, 0, 1),
            Call::Collected(1, Kind::Ident, 0, 1),
        ],
        true,
    ),
    after: &[Call::Tokens(1), Call::Collected(0, Kind::Eof, 0, 0)],
};

#[test]
fn cases(rt: HostRuntime) -> Result<(), Fail> {
    for case in &CASES {
        assert!(rt; play(rt.alloc(), case, false)?, "{}", case.source);
    }
    assert!(rt; play(rt.alloc(), &BEHIND_ONE, true)?);
    Ok(())
}
