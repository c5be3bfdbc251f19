//! What steps tell: rows from outside, and that calls can succeed, of which no clause says that they do where there is
//! memory.

use crate::faults::NameFault::NoName;
use crate::lists::{Item, List};
use crate::script::{Step, play};
use js_cursor::{CursorDiagnostic, CursorFault, ListFault};
use js_kind::Kind;
use js_text::{CommentContent, Span};

/// A source, and the steps that are taken from its first token on.
type Script = (&'static str, &'static [Step]);

static SCRIPTS: [Script; 38] = [
    // Tokens behind calls, and what is asked of a cursor beside them.
    (
        "a b",
        &[Step::Bump(Kind::Ident), Step::Token(Kind::Ident, 2, 3)],
    ),
    (
        "a;b",
        &[Step::BumpAny, Step::Asi, Step::Token(Kind::Ident, 2, 3)],
    ),
    (
        "a b",
        &[
            Step::Expect(Kind::Ident),
            Step::Asi,
            Step::BumpAny,
            Step::Token(Kind::Eof, 3, 3),
        ],
    ),
    (
        ">x<",
        &[
            Step::ExpectJsxChild(Kind::RAngle),
            Step::Token(Kind::JSXText, 1, 2),
            Step::JsxChild,
            Step::Token(Kind::LAngle, 2, 3),
        ],
    ),
    (
        "a=\"x\"",
        &[
            Step::BumpAny,
            Step::JsxAttributeValue,
            Step::Token(Kind::Str, 2, 5),
        ],
    ),
    (
        "a<<b",
        &[
            Step::BumpAny,
            Step::TypeScriptLeftAngle,
            Step::Token(Kind::LAngle, 1, 2),
        ],
    ),
    (
        "x ? y ; z",
        &[
            Step::BumpAny,
            Step::BumpAny,
            Step::BumpAny,
            Step::ExpectAlternative(Span { start: 2, end: 3 }),
            Step::Fault(
                Some(CursorDiagnostic::ExpectConditionalAlternative {
                    found: Kind::Semicolon,
                    span: Span { start: 6, end: 7 },
                    question: Span { start: 2, end: 3 },
                }),
                true,
            ),
        ],
    ),
    (
        "a b",
        &[
            Step::Expect(Kind::Ident),
            Step::Asi,
            Step::Fault(
                Some(CursorDiagnostic::AutoSemicolonInsertion {
                    span: Span { start: 1, end: 1 },
                }),
                true,
            ),
        ],
    ),
    (
        "l\\u0065t",
        &[
            Step::Expect(Kind::Let),
            Step::Fault(
                Some(CursorDiagnostic::EscapedKeyword {
                    span: Span { start: 0, end: 8 },
                }),
                false,
            ),
        ],
    ),
    (
        "l\\u0065t a",
        &[
            Step::Advance(Kind::Let),
            Step::Token(Kind::Ident, 9, 10),
            Step::Fault(
                Some(CursorDiagnostic::EscapedKeyword {
                    span: Span { start: 0, end: 8 },
                }),
                false,
            ),
        ],
    ),
    (
        "a",
        &[
            Step::Error(CursorDiagnostic::RestLast {
                span: Span { start: 0, end: 1 },
            }),
            Step::RecoverableCheckpoint,
            Step::Fault(
                Some(CursorDiagnostic::RestLast {
                    span: Span { start: 0, end: 1 },
                }),
                false,
            ),
        ],
    ),
    ("a", &[Step::ReportAndGoBack(1, 0)]),
    (
        "a",
        &[Step::SetAmbient(true, false), Step::SetAmbient(false, true)],
    ),
    // The first character has two bytes.
    (
        "é+b",
        &[
            Step::Text(Span { start: 0, end: 2 }, Some("é")),
            Step::Text(Span { start: 2, end: 4 }, Some("+b")),
            Step::Text(Span { start: 1, end: 2 }, None),
            Step::Text(Span { start: 3, end: 2 }, None),
            Step::Text(Span { start: 0, end: 5 }, None),
        ],
    ),
    ("'a", &[Step::PopError(Some("UnterminatedString"), 0)]),
    (
        "/* #__PURE__ */ f()",
        &[Step::MarkComments(Some(CommentContent::Pure))],
    ),
    // What is tried leaves no trace.
    (
        "a + b",
        &[Step::Peek(Kind::Plus), Step::Token(Kind::Ident, 0, 1)],
    ),
    (
        "a /*c*/ b",
        &[
            Step::TryComma(false, false, 0),
            Step::Token(Kind::Ident, 0, 1),
        ],
    ),
    ("g\n=> b", &[Step::LookAhead(true, false, true)]),
    // Lists of elements.
    ("c d }", &[Step::NormalListSteps(2, true)]),
    ("c ; }", &[Step::NormalListSteps(1, false)]),
    (
        "{ a b }",
        &[
            Step::Elements(List::Normal, Item::Token, Ok((2, None))),
            Step::Token(Kind::Eof, 7, 7),
        ],
    ),
    // A round that does not lead on.
    (
        "{ ; }",
        &[Step::Elements(
            List::Normal,
            Item::Nothing,
            Err(CursorFault::Stuck { at: 2 }),
        )],
    ),
    (
        "{ ; ; }",
        &[Step::Elements(
            List::Normal,
            Item::StepBack,
            Err(CursorFault::Stuck { at: 2 }),
        )],
    ),
    (
        "a,b,c]",
        &[Step::Elements(
            List::Delimited,
            Item::StepBack,
            Err(CursorFault::Stuck { at: 0 }),
        )],
    ),
    (
        "[a,b,]",
        &[
            Step::Expect(Kind::LBrack),
            Step::Elements(List::Delimited, Item::Token, Ok((2, Some(4)))),
        ],
    ),
    // A list that is broken off.
    (
        "{ a ; }",
        &[
            Step::Elements(List::Breakable, Item::Nothing, Ok((1, None))),
            Step::Fault(
                Some(CursorDiagnostic::ExpectClosing {
                    expected: Kind::RCurly,
                    found: Kind::Semicolon,
                    span: Span { start: 4, end: 5 },
                    opening: Span { start: 0, end: 1 },
                }),
                true,
            ),
        ],
    ),
    // Lists with a rest.
    (
        "[a,...b]",
        &[
            Step::Expect(Kind::LBrack),
            Step::Elements(List::WithRest, Item::Token, Ok((2, None))),
            Step::Fault(None, false),
        ],
    ),
    (
        "[...b,]",
        &[
            Step::Expect(Kind::LBrack),
            Step::Elements(List::WithRest, Item::Token, Ok((1, None))),
            Step::Fault(
                Some(CursorDiagnostic::RestElementTrailingComma {
                    span: Span { start: 5, end: 6 },
                }),
                false,
            ),
        ],
    ),
    (
        "[...b,a]",
        &[
            Step::Expect(Kind::LBrack),
            Step::Elements(List::WithRest, Item::Token, Ok((1, None))),
            Step::Fault(
                Some(CursorDiagnostic::RestLast {
                    span: Span { start: 1, end: 5 },
                }),
                true,
            ),
        ],
    ),
    // Lists whose elements have a fault of their own.
    ("{ a b }", &[Step::Names(List::Normal, Ok(2))]),
    (
        "{ a 1 }",
        &[Step::Names(List::Normal, Err(ListFault::Element(NoName { at: 4 })))],
    ),
    ("{ a ; }", &[Step::Names(List::Breakable, Ok(1))]),
    (
        "{ a 1 }",
        &[Step::Names(List::Breakable, Err(ListFault::Element(NoName { at: 4 })))],
    ),
    (
        "[ a, b ]",
        &[Step::BumpAny, Step::Names(List::Delimited, Ok(2))],
    ),
    (
        "[ a, 1 ]",
        &[
            Step::BumpAny,
            Step::Names(List::Delimited, Err(ListFault::Element(NoName { at: 5 }))),
        ],
    ),
    (
        "[ a, ...b ]",
        &[Step::BumpAny, Step::Names(List::WithRest, Ok(1))],
    ),
    (
        "[ a, ...1 ]",
        &[
            Step::BumpAny,
            Step::Names(List::WithRest, Err(ListFault::Element(NoName { at: 8 }))),
        ],
    ),
];

#[test]
fn scripts(rt: HostRuntime) {
    for &(source, steps) in &SCRIPTS {
        let told = play(rt.alloc(), source, steps);
        assert_eq!(rt; told, Some(steps.len()), "{source:?}");
    }
}
