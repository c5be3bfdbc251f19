//! Rows of sources whose goals are chosen: the tokens that are live at their ends.

use js_jsx::{JsxFault, jsx_session};
use js_kind::{Kind, Token};
use js_text::SourceType;
use std::alloc::Global;

/// A kind, and where the token starts and ends.
type Place = (Kind, u32, u32);

/// A source, and the tokens that are live at its end.
type Row = (&'static str, &'static [Place]);

/// Elements and their texts; what is no element, and what has types; and what is not whole.
static SOURCES: [Row; 18] = [
    (
        "<a>don't</a>",
        &[
            (Kind::LAngle, 0, 1),
            (Kind::Ident, 1, 2),
            (Kind::RAngle, 2, 3),
            (Kind::JSXText, 3, 8),
            (Kind::LAngle, 8, 9),
            (Kind::Slash, 9, 10),
            (Kind::Ident, 10, 11),
            (Kind::RAngle, 11, 12),
            (Kind::Eof, 12, 12),
        ],
    ),
    (
        "<x-y a='\\' b={/</}/>/2",
        &[
            (Kind::LAngle, 0, 1),
            (Kind::Ident, 1, 4),
            (Kind::Ident, 5, 6),
            (Kind::Eq, 6, 7),
            (Kind::Str, 7, 10),
            (Kind::Ident, 11, 12),
            (Kind::Eq, 12, 13),
            (Kind::LCurly, 13, 14),
            (Kind::RegExp, 14, 17),
            (Kind::RCurly, 17, 18),
            (Kind::Slash, 18, 19),
            (Kind::RAngle, 19, 20),
            (Kind::Slash, 20, 21),
            (Kind::Decimal, 21, 22),
            (Kind::Eof, 22, 22),
        ],
    ),
    (
        "<>{`a${<b/>}`}</>",
        &[
            (Kind::LAngle, 0, 1),
            (Kind::RAngle, 1, 2),
            (Kind::LCurly, 2, 3),
            (Kind::TemplateHead, 3, 7),
            (Kind::LAngle, 7, 8),
            (Kind::Ident, 8, 9),
            (Kind::Slash, 9, 10),
            (Kind::RAngle, 10, 11),
            (Kind::TemplateTail, 11, 13),
            (Kind::RCurly, 13, 14),
            (Kind::LAngle, 14, 15),
            (Kind::Slash, 15, 16),
            (Kind::RAngle, 16, 17),
            (Kind::Eof, 17, 17),
        ],
    ),
    (
        "<div {...p} // c\n/>",
        &[
            (Kind::LAngle, 0, 1),
            (Kind::Ident, 1, 4),
            (Kind::LCurly, 5, 6),
            (Kind::Dot3, 6, 9),
            (Kind::Ident, 9, 10),
            (Kind::RCurly, 10, 11),
            (Kind::Slash, 17, 18),
            (Kind::RAngle, 18, 19),
            (Kind::Eof, 19, 19),
        ],
    ),
    (
        "<a b=<c/>/>",
        &[
            (Kind::LAngle, 0, 1),
            (Kind::Ident, 1, 2),
            (Kind::Ident, 3, 4),
            (Kind::Eq, 4, 5),
            (Kind::LAngle, 5, 6),
            (Kind::Ident, 6, 7),
            (Kind::Slash, 7, 8),
            (Kind::RAngle, 8, 9),
            (Kind::Slash, 9, 10),
            (Kind::RAngle, 10, 11),
            (Kind::Eof, 11, 11),
        ],
    ),
    (
        "<a b=`x${y}z`>it's</a>",
        &[
            (Kind::LAngle, 0, 1),
            (Kind::Ident, 1, 2),
            (Kind::Ident, 3, 4),
            (Kind::Eq, 4, 5),
            (Kind::TemplateHead, 5, 9),
            (Kind::Ident, 9, 10),
            (Kind::TemplateTail, 10, 13),
            (Kind::RAngle, 13, 14),
            (Kind::JSXText, 14, 18),
            (Kind::LAngle, 18, 19),
            (Kind::Slash, 19, 20),
            (Kind::Ident, 20, 21),
            (Kind::RAngle, 21, 22),
            (Kind::Eof, 22, 22),
        ],
    ),
    (
        "a < b / c > d",
        &[
            (Kind::Ident, 0, 1),
            (Kind::LAngle, 2, 3),
            (Kind::Ident, 4, 5),
            (Kind::Slash, 6, 7),
            (Kind::Ident, 8, 9),
            (Kind::RAngle, 10, 11),
            (Kind::Ident, 12, 13),
            (Kind::Eof, 13, 13),
        ],
    ),
    (
        "<T,>(x) => x",
        &[
            (Kind::LAngle, 0, 1),
            (Kind::Ident, 1, 2),
            (Kind::Comma, 2, 3),
            (Kind::RAngle, 3, 4),
            (Kind::LParen, 4, 5),
            (Kind::Ident, 5, 6),
            (Kind::RParen, 6, 7),
            (Kind::Arrow, 8, 10),
            (Kind::Ident, 11, 12),
            (Kind::Eof, 12, 12),
        ],
    ),
    (
        "<Foo<Bar> a='x'>it's</Foo>",
        &[
            (Kind::LAngle, 0, 1),
            (Kind::Ident, 1, 4),
            (Kind::LAngle, 4, 5),
            (Kind::Ident, 5, 8),
            (Kind::RAngle, 8, 9),
            (Kind::Ident, 10, 11),
            (Kind::Eq, 11, 12),
            (Kind::Str, 12, 15),
            (Kind::RAngle, 15, 16),
            (Kind::JSXText, 16, 20),
            (Kind::LAngle, 20, 21),
            (Kind::Slash, 21, 22),
            (Kind::Ident, 22, 25),
            (Kind::RAngle, 25, 26),
            (Kind::Eof, 26, 26),
        ],
    ),
    (
        "<T = any>(x) => 'it'",
        &[
            (Kind::LAngle, 0, 1),
            (Kind::Ident, 1, 2),
            (Kind::Eq, 3, 4),
            (Kind::Any, 5, 8),
            (Kind::RAngle, 8, 9),
            (Kind::LParen, 9, 10),
            (Kind::Ident, 10, 11),
            (Kind::RParen, 11, 12),
            (Kind::Arrow, 13, 15),
            (Kind::Str, 16, 20),
            (Kind::Eof, 20, 20),
        ],
    ),
    (
        "<a extends='b'>it's</a>",
        &[
            (Kind::LAngle, 0, 1),
            (Kind::Ident, 1, 2),
            (Kind::Extends, 3, 10),
            (Kind::Eq, 10, 11),
            (Kind::Str, 11, 14),
            (Kind::RAngle, 14, 15),
            (Kind::JSXText, 15, 19),
            (Kind::LAngle, 19, 20),
            (Kind::Slash, 20, 21),
            (Kind::Ident, 21, 22),
            (Kind::RAngle, 22, 23),
            (Kind::Eof, 23, 23),
        ],
    ),
    (
        "if (a! < b && c > d) e('x')",
        &[
            (Kind::If, 0, 2),
            (Kind::LParen, 3, 4),
            (Kind::Ident, 4, 5),
            (Kind::Bang, 5, 6),
            (Kind::LAngle, 7, 8),
            (Kind::Ident, 9, 10),
            (Kind::Amp2, 11, 13),
            (Kind::Ident, 14, 15),
            (Kind::RAngle, 16, 17),
            (Kind::Ident, 18, 19),
            (Kind::RParen, 19, 20),
            (Kind::Ident, 21, 22),
            (Kind::LParen, 22, 23),
            (Kind::Str, 23, 26),
            (Kind::RParen, 26, 27),
            (Kind::Eof, 27, 27),
        ],
    ),
    (
        "x = {a && <b>text}; y",
        &[
            (Kind::Ident, 0, 1),
            (Kind::Eq, 2, 3),
            (Kind::LCurly, 4, 5),
            (Kind::Ident, 5, 6),
            (Kind::Amp2, 7, 9),
            (Kind::LAngle, 10, 11),
            (Kind::Ident, 11, 12),
            (Kind::RAngle, 12, 13),
            (Kind::Eof, 13, 17),
            (Kind::RCurly, 17, 18),
            (Kind::Semicolon, 18, 19),
            (Kind::Ident, 20, 21),
            (Kind::Eof, 21, 21),
        ],
    ),
    (
        "return <div;\nx > 'y'",
        &[
            (Kind::Return, 0, 6),
            (Kind::LAngle, 7, 8),
            (Kind::Ident, 8, 11),
            (Kind::Semicolon, 11, 12),
            (Kind::Ident, 13, 14),
            (Kind::RAngle, 15, 16),
            (Kind::Str, 17, 20),
            (Kind::Eof, 20, 20),
        ],
    ),
    (
        "<a>}</a> z",
        &[
            (Kind::LAngle, 0, 1),
            (Kind::Ident, 1, 2),
            (Kind::RAngle, 2, 3),
            (Kind::Eof, 3, 3),
            (Kind::RCurly, 3, 4),
            (Kind::LAngle, 4, 5),
            (Kind::Slash, 5, 6),
            (Kind::Ident, 6, 7),
            (Kind::RAngle, 7, 8),
            (Kind::Ident, 9, 10),
            (Kind::Eof, 10, 10),
        ],
    ),
    (
        "<a>it's",
        &[
            (Kind::LAngle, 0, 1),
            (Kind::Ident, 1, 2),
            (Kind::RAngle, 2, 3),
            (Kind::Eof, 3, 7),
        ],
    ),
    (
        "}} x",
        &[
            (Kind::RCurly, 0, 1),
            (Kind::RCurly, 1, 2),
            (Kind::Ident, 3, 4),
            (Kind::Eof, 4, 4),
        ],
    ),
    (
        "`${<a b}`+'x'",
        &[
            (Kind::TemplateHead, 0, 3),
            (Kind::LAngle, 3, 4),
            (Kind::Ident, 4, 5),
            (Kind::Ident, 6, 7),
            (Kind::TemplateTail, 7, 9),
            (Kind::Plus, 9, 10),
            (Kind::Str, 10, 13),
            (Kind::Eof, 13, 13),
        ],
    ),
];

fn is_token(token: &Token, place: Place) -> bool {
    token.kind().is_same(place.0) && token.start() == place.1 && token.end() == place.2
}

fn are_tokens(tokens: &[Token], places: &[Place]) -> bool {
    let mut same = tokens.len() == places.len();
    for (token, place) in tokens.iter().zip(places) {
        same = same && is_token(token, *place);
    }
    same
}

/// Whether the source has these tokens.
fn has_tokens(alloc: Global, source: &str, places: &[Place]) -> bool {
    match jsx_session(alloc, source.as_bytes(), SourceType::Module, false) {
        Ok(jsx) => are_tokens(jsx.report.tokens.as_slice(), places),
        Err(_) => false,
    }
}

#[test]
fn tokens(rt: HostRuntime) {
    for (source, places) in &SOURCES {
        assert!(rt; has_tokens(rt.alloc(), source, places), "{source}");
    }
}

/// Sources, and how many diagnostics and warnings each has, or its fault.
static REPORTED: [(&[u8], Result<(usize, usize), JsxFault>); 5] = [
    (b"<a>x > y</a>", Ok((0, 1))),
    (b"x = {a && <b>text}; y", Ok((1, 0))),
    (b"<a>}<a>}<a>}", Ok((3, 0))),
    (b"<a>it's", Ok((0, 0))),
    (b"<a>\xFF", Err(JsxFault::NotUtf8(3))),
];

/// How much is reported of a source.
fn reported(alloc: Global, source: &[u8]) -> Result<(usize, usize), JsxFault> {
    match jsx_session(alloc, source, SourceType::Module, false) {
        Ok(jsx) => Ok((jsx.report.diagnostics.len(), jsx.report.warnings.len())),
        Err(fault) => Err(fault),
    }
}

#[test]
fn reports(rt: HostRuntime) {
    for &(source, wanted) in &REPORTED {
        assert_eq!(rt; reported(rt.alloc(), source), wanted);
    }
}
