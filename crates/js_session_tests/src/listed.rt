//! Lists of sources, written out by hand.

use js_auto::GoalChooser;
use js_kind::Kind;
use js_lists::{LiveLists, TokenValue, chosen_lists, session_lists};
use js_session::{Command, LexFault};
use js_text::SourceType;
use std::alloc::Global;

/// The value of a token: none, a stretch of the source, UTF-16 units, or a bad one.
enum Value {
    None,
    Slice(u32, u32),
    Units(&'static [u16]),
    Bad,
}

/// A token: its kind, its span, and its value.
type Listed = (Kind, u32, u32, Value);

/// What is told of a source.
enum Told {
    /// The tokens that are live.
    Tokens(&'static [Listed]),
    /// Where the pattern of the token with the index ends, if that is a regular expression.
    Regex(u32, Option<u32>),
    /// How many comments, stretches of irregular white space and diagnostics are found.
    Found(usize, usize, usize),
    Fault(LexFault),
}

/// A source, the commands that it is read by, and what is told of it then. No commands: its goals are chosen.
static CASES: [(&[u8], &[Command], Told); 24] = [
    (
        b"x=/b/g",
        &[],
        Told::Tokens(&[
            (Kind::Ident, 0, 1, Value::Slice(0, 1)),
            (Kind::Eq, 1, 2, Value::None),
            (Kind::RegExp, 2, 6, Value::None),
            (Kind::Eof, 6, 6, Value::None),
        ]),
    ),
    // The part of a template behind a substitution has the value of the part, and not that of its `}`.
    (
        b"`\\x61${b}\\n`'\\x62'",
        &[],
        Told::Tokens(&[
            (Kind::TemplateHead, 0, 7, Value::Units(&[0x61])),
            (Kind::Ident, 7, 8, Value::Slice(7, 8)),
            (Kind::TemplateTail, 8, 12, Value::Units(&[0x0A])),
            (Kind::Str, 12, 18, Value::Units(&[0x62])),
            (Kind::Eof, 18, 18, Value::None),
        ]),
    ),
    (
        b"`\\u{`\"s\"",
        &[],
        Told::Tokens(&[
            (Kind::NoSubstitutionTemplate, 0, 5, Value::Bad),
            (Kind::Str, 5, 8, Value::Slice(6, 7)),
            (Kind::Eof, 8, 8, Value::None),
        ]),
    ),
    // What a rewind strikes out is not listed, nor what is peeked.
    (
        b"\\u0061 \\u0062 c",
        &[
            Command::Mark,
            Command::Next,
            Command::Next,
            Command::Rewind,
            Command::Peek,
            Command::Next,
        ],
        Told::Tokens(&[
            (Kind::Ident, 0, 6, Value::Units(&[0x61])),
            (Kind::Ident, 7, 13, Value::Units(&[0x62])),
        ]),
    ),
    // A token that was read again in a mark that is gone back to stands as it did.
    (
        b"a>>b",
        &[
            Command::Next,
            Command::Mark,
            Command::RAngle,
            Command::Rewind,
            Command::Next,
        ],
        Told::Tokens(&[
            (Kind::Ident, 0, 1, Value::Slice(0, 1)),
            (Kind::RAngle, 1, 2, Value::None),
            (Kind::RAngle, 2, 3, Value::None),
        ]),
    ),
    (
        b"/a/g",
        &[Command::Regex, Command::Next],
        Told::Tokens(&[
            (Kind::RegExp, 0, 4, Value::None),
            (Kind::Eof, 4, 4, Value::None),
        ]),
    ),
    // What a mark within another one strikes out is read again, and stands once.
    (
        b"a b c d e",
        &[
            Command::Mark,
            Command::Next,
            Command::Mark,
            Command::Next,
            Command::Rewind,
            Command::Next,
            Command::Commit,
            Command::Next,
        ],
        Told::Tokens(&[
            (Kind::Ident, 0, 1, Value::Slice(0, 1)),
            (Kind::Ident, 2, 3, Value::Slice(2, 3)),
            (Kind::Ident, 4, 5, Value::Slice(4, 5)),
            (Kind::Ident, 6, 7, Value::Slice(6, 7)),
        ]),
    ),
    // A mark that is closed within another one keeps nothing from it.
    (
        b"a b c",
        &[
            Command::Mark,
            Command::Next,
            Command::Mark,
            Command::Next,
            Command::Commit,
            Command::Rewind,
            Command::Next,
        ],
        Told::Tokens(&[
            (Kind::Ident, 0, 1, Value::Slice(0, 1)),
            (Kind::Ident, 2, 3, Value::Slice(2, 3)),
        ]),
    ),
    // A token that is read again behind a mark stays so where the mark is committed.
    (
        b"a/b/g c",
        &[
            Command::Next,
            Command::Mark,
            Command::Regex,
            Command::Next,
            Command::Commit,
            Command::Next,
        ],
        Told::Tokens(&[
            (Kind::Ident, 0, 1, Value::Slice(0, 1)),
            (Kind::RegExp, 1, 5, Value::None),
            (Kind::Ident, 6, 7, Value::Slice(6, 7)),
            (Kind::Eof, 7, 7, Value::None),
        ]),
    ),
    // And it stands as before, and may be followed by something else, where it is gone back to.
    (
        b"a/b/g c",
        &[
            Command::Next,
            Command::Mark,
            Command::Regex,
            Command::Next,
            Command::Rewind,
            Command::Next,
        ],
        Told::Tokens(&[
            (Kind::Ident, 0, 1, Value::Slice(0, 1)),
            (Kind::Slash, 1, 2, Value::None),
            (Kind::Ident, 2, 3, Value::Slice(2, 3)),
        ]),
    ),
    // Values that were decoded in a stretch that is struck out, and in one behind a mark that stays open.
    (
        b"a '\\x62' '\\x63'",
        &[
            Command::Mark,
            Command::Next,
            Command::Next,
            Command::Rewind,
            Command::Next,
            Command::Mark,
            Command::Next,
        ],
        Told::Tokens(&[
            (Kind::Ident, 0, 1, Value::Slice(0, 1)),
            (Kind::Str, 2, 8, Value::Units(&[0x62])),
            (Kind::Str, 9, 15, Value::Units(&[0x63])),
        ]),
    ),
    (
        b"`${a}\\n`",
        &[
            Command::Next,
            Command::Next,
            Command::Mark,
            Command::TemplateTail,
            Command::Rewind,
        ],
        Told::Tokens(&[
            (Kind::TemplateHead, 0, 3, Value::Slice(1, 1)),
            (Kind::Ident, 3, 4, Value::Slice(3, 4)),
            (Kind::RCurly, 4, 5, Value::None),
        ]),
    ),
    // No peek is live, wherever it stands.
    (
        b"a b",
        &[
            Command::Peek,
            Command::Mark,
            Command::Peek,
            Command::Next,
            Command::Peek,
            Command::Rewind,
            Command::Peek,
        ],
        Told::Tokens(&[(Kind::Ident, 0, 1, Value::Slice(0, 1))]),
    ),
    (
        b"<<=a-b>>>=c",
        &[
            Command::TsLAngle,
            Command::Next,
            Command::TsLAngle,
            Command::Next,
            Command::Regex,
            Command::Next,
            Command::JsxName,
            Command::Next,
            Command::RAngle,
            Command::TsRAngle,
            Command::Next,
            Command::JsxName,
        ],
        Told::Tokens(&[
            (Kind::LAngle, 0, 1, Value::None),
            (Kind::LAngle, 1, 2, Value::None),
            (Kind::Eq, 2, 3, Value::None),
            (Kind::Ident, 3, 6, Value::Slice(3, 6)),
            (Kind::ShiftRight3Eq, 6, 10, Value::None),
            (Kind::Ident, 10, 11, Value::Slice(10, 11)),
        ]),
    ),
    (
        b"x>>y",
        &[
            Command::Next,
            Command::RAngle,
            Command::TsRAngle,
            Command::Next,
            Command::Next,
        ],
        Told::Tokens(&[
            (Kind::Ident, 0, 1, Value::Slice(0, 1)),
            (Kind::RAngle, 1, 2, Value::None),
            (Kind::RAngle, 2, 3, Value::None),
            (Kind::Ident, 3, 4, Value::Slice(3, 4)),
        ]),
    ),
    (
        b"<a b='c'>d</a>",
        &[
            Command::Next,
            Command::Next,
            Command::Next,
            Command::JsxAttr,
            Command::Next,
            Command::JsxChild,
        ],
        Told::Tokens(&[
            (Kind::LAngle, 0, 1, Value::None),
            (Kind::Ident, 1, 2, Value::Slice(1, 2)),
            (Kind::Ident, 3, 4, Value::Slice(3, 4)),
            (Kind::Eq, 4, 5, Value::None),
            (Kind::Str, 5, 8, Value::Slice(6, 7)),
            (Kind::RAngle, 8, 9, Value::None),
            (Kind::JSXText, 9, 10, Value::None),
        ]),
    ),
    (b"x=/b/g", &[], Told::Regex(2, Some(4))),
    (b"x=/b/g", &[], Told::Regex(1, None)),
    (b"x=/b/g", &[], Told::Regex(3, None)),
    (b"a /*c*/\xC2\xA0'b", &[], Told::Found(1, 1, 1)),
    // What was found behind a mark is struck out with it, and found again.
    (
        b"a /*c*/'b",
        &[Command::Mark, Command::Next, Command::Rewind, Command::Next],
        Told::Found(1, 0, 1),
    ),
    (
        b"a /*c*/'b",
        &[Command::Mark, Command::Next, Command::Rewind],
        Told::Found(0, 0, 0),
    ),
    (b"a", &[Command::Rewind], Told::Fault(LexFault::NoMark(0))),
    (b"\"a \xFF", &[], Told::Fault(LexFault::NotUtf8(3))),
];

fn is_value(value: TokenValue<'_>, wanted: &Value) -> bool {
    match (value, wanted) {
        (TokenValue::Nothing, Value::None) | (TokenValue::Bad, Value::Bad) => true,
        (TokenValue::Slice(span), Value::Slice(start, end)) => {
            span.start == *start && span.end == *end
        }
        (TokenValue::Units(text), Value::Units(units)) => text.units() == *units,
        _ => false,
    }
}

/// Whether the token with the index is this one.
fn lists_token(lists: &LiveLists, index: u32, listed: &Listed) -> bool {
    if index as usize >= lists.tokens.len() {
        return false;
    }
    let token = &lists.tokens.as_slice()[index as usize];
    token.kind().is_same(listed.0)
        && token.start() == listed.1
        && token.end() == listed.2
        && is_value(lists.value(index), &listed.3)
}

fn are_listed(lists: &LiveLists, tokens: &[Listed]) -> bool {
    let mut index = 0u32;
    for listed in tokens {
        if !lists_token(lists, index, listed) {
            return false;
        }
        index = index.saturating_add(1);
    }
    lists.tokens.len() == tokens.len()
}

/// Whether the lists are as told.
fn are_told(lists: &LiveLists, told: &Told) -> bool {
    match told {
        Told::Tokens(tokens) => are_listed(lists, tokens),
        Told::Regex(index, end) => lists.regex(*index).map(|info| info.pattern_end) == *end,
        Told::Found(comments, irregular, diagnostics) => {
            lists.found.comments.len() == *comments
                && lists.found.irregular.len() == *irregular
                && lists.found.diagnostics.len() == *diagnostics
        }
        Told::Fault(_) => false,
    }
}

fn lists_of(alloc: Global, source: &[u8], commands: &[Command]) -> Result<LiveLists, LexFault> {
    let t = SourceType::Module;
    if !commands.is_empty() {
        return session_lists(alloc, source, t, commands);
    }
    match chosen_lists::<GoalChooser>(alloc, source, t) {
        Ok(lists) => Ok(lists),
        Err(fault) => Err(fault.as_lex_fault()),
    }
}

/// Whether the lists of a source are as told.
fn is_as_told(alloc: Global, source: &[u8], commands: &[Command], told: &Told) -> bool {
    match lists_of(alloc, source, commands) {
        Ok(lists) => are_told(&lists, told),
        Err(fault) => matches!(told, Told::Fault(wanted) if *wanted == fault),
    }
}

#[test]
fn lists(rt: HostRuntime) {
    for (source, commands, told) in &CASES {
        assert!(rt;
            is_as_told(rt.alloc(), source, commands, told),
            "{source:?}"
        );
    }
}
