//! Rows from outside: the classes of comments, and where comments are attached.

ghost use Rattle.std.specs.Prelude.{IsTrue};
ghost use Rattle.js_trivia.specs.Trivia.{IsPlacedIn};

use js_kind::{Kind, Token};
use js_text::{Comment, CommentContent, CommentKind, CommentPosition, CommentRange, Span};
use js_trivia::{TriviaBuilder, classify};
use std::alloc::AllocError;
use std::test::Fail;

/// What is between the marks of a comment, whether it is a block comment, and its class.
static CLASSES: [(&str, bool, CommentContent); 34] = [
    (" @foo @preserve ", true, CommentContent::Legal),
    (" @foo @preserve ", false, CommentContent::Legal),
    (" foo @licensed", true, CommentContent::Legal),
    (" foo @license", false, CommentContent::Legal),
    ("! MIT", false, CommentContent::Legal),
    ("! MIT", true, CommentContent::Legal),
    ("* foo @license", true, CommentContent::JsdocLegal),
    ("*\n * @__KEY__\n ", true, CommentContent::Jsdoc),
    ("* foo", false, CommentContent::None),
    (" foo @License", true, CommentContent::None),
    ("", true, CommentContent::None),
    ("**", true, CommentContent::None),
    ("@", true, CommentContent::None),
    ("@xreserve", true, CommentContent::None),
    (" @ __KEY__ ", true, CommentContent::None),
    (" @__KEY__ extra ", true, CommentContent::None),
    (" #__KEY__", false, CommentContent::PropertyKey),
    ("\u{A0}@__KEY__\u{3000}", true, CommentContent::PropertyKey),
    ("\u{A0}@__KEY__ extra", true, CommentContent::None),
    (" @vite-xxx ", true, CommentContent::Vite),
    (" turbopackOptional: true ", true, CommentContent::Turbopack),
    (" webpackChunkName: 1 ", true, CommentContent::Webpack),
    (" webpack ", true, CommentContent::None),
    (" webpackchunk ", true, CommentContent::None),
    (" c8 ignore file ", true, CommentContent::CoverageIgnore),
    (
        " v8 ignore file -- @preserve ",
        true,
        CommentContent::CoverageIgnoreFile,
    ),
    (" v8 ignore filename ", true, CommentContent::CoverageIgnore),
    (
        " istanbul ignore file",
        true,
        CommentContent::CoverageIgnoreFile,
    ),
    (
        " node:coverage disable ",
        true,
        CommentContent::CoverageIgnore,
    ),
    (" #__PURE__", false, CommentContent::PureNotApplied),
    (" @__PURE__ ", true, CommentContent::PureNotApplied),
    (
        " #__NO_SIDE_EFFECTS__ ",
        true,
        CommentContent::NoSideEffectsNotApplied,
    ),
    (" in cents", false, CommentContent::None),
    (" \t\u{C}\r\n", true, CommentContent::None),
];

#[test]
fn classes(rt: HostRuntime) {
    for &(content, is_block, class) in &CLASSES {
        assert_eq!(rt; classify(content, is_block), class, "{content}");
    }
}

/// What a builder is told of a source, as a lexer or a parser tells it.
enum Told {
    Found(CommentKind, u32, u32),
    LineEnd,
    Read(Kind, u32, u32),
    /// Which comments are set as those before the last token that are not applied yet, of both classes.
    Hold(u32, u32),
}

use CommentContent::{Legal, NoSideEffectsNotApplied, None as Nothing, PureNotApplied};
use CommentKind::{Line, MultiLineBlock as Multi, SingleLineBlock as Block};
use CommentPosition::{Leading, Trailing};
use Told::{Found, Hold, LineEnd, Read};

/// A comment's position and place, whether it is preceded and followed, and its class.
type Attached = (CommentPosition, u32, bool, bool, CommentContent);

/// The comments before the last token of class `PureNotApplied`, and those of class `NoSideEffectsNotApplied`.
type Held = (Option<CommentRange>, Option<CommentRange>);

const NONE: Held = (None, None);

/// A source, what the builder is told of it, and what it holds then.
struct Case {
    source: &'static str,
    told: &'static [Told],
    comments: &'static [Attached],
    held: Held,
}

static CASES: [Case; 14] = [
    Case {
        source: "a /* trailing */\n+ b",
        told: &[
            Read(Kind::Ident, 0, 1),
            Found(Block, 2, 16),
            LineEnd,
            Read(Kind::Plus, 17, 18),
        ],
        comments: &[(Trailing, 1, false, true, Nothing)],
        held: NONE,
    },
    Case {
        source: "a\n/* leading */ +b",
        told: &[
            Read(Kind::Ident, 0, 1),
            LineEnd,
            Found(Block, 2, 15),
            Read(Kind::Plus, 16, 17),
        ],
        comments: &[(Leading, 16, true, false, Nothing)],
        held: NONE,
    },
    Case {
        source: "foo(); /* trailing */",
        told: &[
            Read(Kind::Semicolon, 5, 6),
            Found(Block, 7, 21),
            Read(Kind::Eof, 21, 21),
        ],
        comments: &[(Trailing, 6, false, false, Nothing)],
        held: NONE,
    },
    Case {
        source: "const f = (value /* trailing */\n) => value;",
        told: &[
            Read(Kind::Ident, 11, 16),
            Found(Block, 17, 31),
            LineEnd,
            Read(Kind::RParen, 32, 33),
        ],
        comments: &[(Trailing, 16, false, true, Nothing)],
        held: NONE,
    },
    Case {
        source: "void /* c */ +x",
        told: &[
            Read(Kind::Void, 0, 4),
            Found(Block, 5, 12),
            Read(Kind::Plus, 13, 14),
        ],
        comments: &[(Leading, 13, false, false, Nothing)],
        held: NONE,
    },
    Case {
        source: "const v1 = // Leading comment 1\nfoo();",
        told: &[
            Read(Kind::Eq, 9, 10),
            Found(Line, 11, 31),
            LineEnd,
            Read(Kind::Ident, 32, 35),
        ],
        comments: &[(Leading, 32, false, true, Nothing)],
        held: NONE,
    },
    Case {
        source: "call(// Leading comment 1\narguments)",
        told: &[
            Read(Kind::LParen, 4, 5),
            Found(Line, 5, 25),
            LineEnd,
            Read(Kind::Ident, 26, 35),
        ],
        comments: &[(Leading, 26, false, true, Nothing)],
        held: NONE,
    },
    Case {
        source: "v = cond ? a : // Leading comment\nb;",
        told: &[
            Read(Kind::Colon, 13, 14),
            Found(Line, 15, 33),
            LineEnd,
            Read(Kind::Ident, 34, 35),
        ],
        comments: &[(Leading, 34, false, true, Nothing)],
        held: NONE,
    },
    Case {
        source: "foo();//! @license MIT\nfunction bar() {}",
        told: &[
            Read(Kind::Semicolon, 5, 6),
            Found(Line, 6, 22),
            LineEnd,
            Read(Kind::Function, 23, 31),
        ],
        comments: &[(Leading, 23, false, true, Legal)],
        held: NONE,
    },
    Case {
        source: "foo();/* @__PURE__ */new Bar()",
        told: &[
            Read(Kind::Semicolon, 5, 6),
            Found(Block, 6, 21),
            Read(Kind::New, 21, 24),
        ],
        comments: &[(Leading, 21, false, false, PureNotApplied)],
        held: (Some(CommentRange { start: 0, end: 1 }), None),
    },
    Case {
        source: "\n/*\n * A\n **/\n/*\n * B\n **/\n token",
        told: &[
            LineEnd,
            Found(Multi, 1, 13),
            LineEnd,
            Found(Multi, 14, 26),
            LineEnd,
            Read(Kind::Ident, 28, 33),
        ],
        comments: &[
            (Leading, 28, true, true, Nothing),
            (Leading, 28, true, true, Nothing),
        ],
        held: NONE,
    },
    Case {
        source: "foo();\u{2028}--> comment\nbar();",
        told: &[
            Read(Kind::Semicolon, 5, 6),
            LineEnd,
            Found(CommentKind::HtmlClose, 9, 20),
            LineEnd,
            Read(Kind::Ident, 21, 24),
        ],
        comments: &[(Leading, 21, true, true, Nothing)],
        held: NONE,
    },
    Case {
        source: "\n        /* Leading 1 */\n        // Leading 2\
                 \n        /* Leading 3 */ token /* Trailing 1 */ // Trailing 2\
                 \n        // Leading of EOF token\n        ",
        told: &[
            LineEnd,
            Found(Block, 9, 24),
            LineEnd,
            Found(Line, 33, 45),
            LineEnd,
            Found(Block, 54, 69),
            Read(Kind::Ident, 70, 75),
            Found(Block, 76, 92),
            Found(Line, 93, 106),
            LineEnd,
            Found(Line, 115, 138),
            LineEnd,
            Read(Kind::Eof, 147, 147),
        ],
        comments: &[
            (Leading, 70, true, true, Nothing),
            (Leading, 70, true, true, Nothing),
            (Leading, 70, true, false, Nothing),
            (Trailing, 75, false, false, Nothing),
            (Trailing, 75, false, true, Nothing),
            (Leading, 147, true, true, Nothing),
        ],
        held: NONE,
    },
    // Annotations that are told again, behind those that a parser has set.
    Case {
        source: "/*@__PURE__*/ /*#__PURE__*/ //#__NO_SIDE_EFFECTS__\nf",
        told: &[
            Found(Block, 0, 13),
            Found(Block, 14, 27),
            Found(Line, 28, 50),
            LineEnd,
            Read(Kind::Ident, 51, 52),
            Hold(2, 3),
            // One that starts before the last one and is not listed.
            Found(Block, 0, 27),
            Found(Block, 14, 27),
            Found(Line, 28, 50),
        ],
        comments: &[
            (Leading, 51, true, false, PureNotApplied),
            (Leading, 51, false, false, PureNotApplied),
            (Leading, 51, false, true, NoSideEffectsNotApplied),
        ],
        held: (
            Some(CommentRange { start: 1, end: 2 }),
            Some(CommentRange { start: 2, end: 3 }),
        ),
    },
];

/// Whether a comment can stand there.
fn is_placed_in(source: &str, kind: CommentKind, start: u32, end: u32) -> bool
    ensures { IsTrue result → IsPlacedIn source.now kind (record { start = start; end = end }) }
{
    let (start, end) = (start as usize, end as usize);
    let content_start = start + kind.opening_length() as usize;
    let closing_length = kind.closing_length() as usize;
    if end < content_start + closing_length {
        return false;
    }
    let whole = source.is_char_boundary(start) && source.is_char_boundary(end);
    let content = source.is_char_boundary(content_start)
        && source.is_char_boundary(end - closing_length);
    whole && content
}

/// Tells the builder of one thing, if that can be of the source.
fn tell(builder: &mut TriviaBuilder, source: &str, told: &Told) -> Result<(), AllocError> {
    match *told {
        LineEnd => builder.handle_newline(),
        Read(kind, start, end) => {
            if start <= end {
                builder.handle_token(Token::new(kind, Span { start, end }, false));
            }
        }
        Found(kind, start, end) => {
            if is_placed_in(source, kind, start, end) {
                if kind.is_line() {
                    builder.add_line_comment(start, end, kind, source)?;
                } else {
                    builder.add_block_comment(start, end, kind, source)?;
                }
            }
        }
        Hold(start, end) => {
            if start < end && end as usize <= builder.comments().len() {
                builder.set_pure_comments(Some(CommentRange { start, end }));
                builder.set_no_side_effects_comments(Some(CommentRange { start, end }));
            }
        }
    }
    Ok(())
}

/// Whether the comments are attached as in the rows.
fn are_attached(comments: &[Comment], rows: &[Attached]) -> bool {
    for (comment, row) in comments.iter().zip(rows.iter()) {
        let attached = (
            comment.position,
            comment.attached_to,
            comment.preceded,
            comment.followed,
            comment.content,
        );
        if attached != *row {
            return false;
        }
    }
    comments.len() == rows.len()
}

/// Tells the builder of all things of the case, and gives whether it holds what it should then.
fn holds_as_told(builder: &mut TriviaBuilder, case: &Case) -> Result<bool, AllocError> {
    for told in case.told {
        tell(builder, case.source, told)?;
    }
    let held = (
        builder.previous_token_pure_comments(),
        builder.previous_token_no_side_effects_comments(),
    );
    Ok(are_attached(builder.comments(), case.comments) && held == case.held)
}

#[test]
fn attachment(rt: HostRuntime) -> Result<(), Fail> {
    for case in &CASES {
        let mut builder = TriviaBuilder::new_in(rt.alloc());
        let is_told = holds_as_told(&mut builder, case)?;
        assert!(rt; is_told, "{}", case.source);
    }
    Ok(())
}
