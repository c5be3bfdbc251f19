//! A first program over a cursor, as docs/CURSOR.md has it.

use js_cursor::Cursor;
use js_kind::{Kind, RuntimeLexerConfig};
use js_lexer::Lexer;
use js_text::{SourceType, Span};
use std::alloc::{AllocError, Global};
use std::test::Fail;

/// How many tokens a source has, where the last one stands, and whether nothing was reported.
type Counted = (usize, Option<Span>, bool);

/// Counts the tokens from the current one on. A `#!` comment is none.
fn count_tokens(cursor: &mut Cursor<'_, RuntimeLexerConfig>) -> Result<Counted, AllocError> {
    let mut count = 0usize;
    let mut last = None;
    cursor.bump(Kind::HashbangComment)?;
    'tokens: while !cursor.at(Kind::Eof) {
        let start = cursor.cur_start();
        cursor.bump_any()?;
        last = Some(cursor.end_span(start));
        count = count.saturating_add(1);
    }
    let is_clean = !cursor.has_fatal_error() && cursor.lexer().errors().is_empty();
    Ok((count, last, is_clean))
}

/// Counts the tokens of a source. None: it is too long for a lexer, or there is no memory.
fn tokens_of(alloc: Global, source: &str) -> Option<Counted> {
    let config = RuntimeLexerConfig::new(false);
    let lexer = match Lexer::new(alloc, source, SourceType::Module, config) {
        Ok(lexer) => lexer,
        Err(_) => return None,
    };
    match Cursor::new(alloc, lexer, false) {
        Ok(mut cursor) => count_tokens(&mut cursor).ok(),
        Err(_) => None,
    }
}

/// Sources, and what is counted of them.
static COUNTED: [(&str, Counted); 2] = [
    (
        "#!x\nlet a = 1",
        (4, Some(Span { start: 12, end: 13 }), true),
    ),
    ("'a", (1, Some(Span { start: 0, end: 2 }), false)),
];

#[test]
fn a_first_program(rt: HostRuntime) -> Result<(), Fail> {
    for (source, counted) in &COUNTED {
        assert_eq!(rt; tokens_of(rt.alloc(), source), Some(*counted), "{source:?}");
    }
    Ok(())
}
