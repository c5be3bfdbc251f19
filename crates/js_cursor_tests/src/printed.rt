//! Sources, and what is printed of them, over inputs and outputs in memory.

use js_parse_tool::parse_program;
use js_process::status::{DONE, NOT_UTF8};
use js_process::{SureIn, SureOut};
use std::alloc::Global;
use std::process::ExitCode;
use std::test::Fail;

/// A run over a source: its status, and its output.
fn run(alloc: Global, source: &[u8]) -> (ExitCode, SureOut) {
    let mut input = SureIn::new(source, 1000);
    let (mut output, mut errors) = (SureOut::new(alloc, 10), SureOut::new(alloc, 10));
    let status = parse_program(alloc, &mut input, &mut output, &mut errors);
    (status, output)
}

/// A source, the status of its run, and what is printed of it.
static PRINTED: [(&[u8], u8, &str); 7] = [
    (b"a", DONE, "  Name 0..1\nExpression 0..1\n"),
    (
        b"`a${-b}c`;",
        DONE,
        "      Name 5..6\n    Unary 4..6\n  Template 0..9\nExpression 0..10\n",
    ),
    (
        b"a >= b >> c",
        DONE,
        "    Name 0..1\n      Name 5..6\n      Name 10..11\n    Binary 5..11\n  Binary 0..11\nExpression 0..11\n",
    ),
    (
        b"1 = 2",
        DONE,
        "    Literal 0..1\n    Literal 4..5\n  Assignment 0..5\nExpression 0..5\nerror Parser 0..1\n",
    ),
    (
        b"#!x\na",
        DONE,
        "Hashbang 0..3\n  Name 4..5\nExpression 4..5\n",
    ),
    (
        b"a\n/*b*/\nc //d",
        DONE,
        "  Name 0..1\nExpression 0..1\n  Name 8..9\nExpression 8..9\n",
    ),
    (b"a\xff", NOT_UTF8, ""),
];

#[test]
fn printed(rt: HostRuntime) -> Result<(), Fail> {
    for &(source, status, text) in &PRINTED {
        let (code, output) = run(rt.alloc(), source);
        assert_eq!(rt; code, ExitCode::from(status), "{source:?}");
        assert_eq!(rt; output.written(), text.as_bytes(), "{source:?}");
    }
    Ok(())
}

#[test]
fn brackets_without_end(rt: HostRuntime) -> Result<(), Fail> {
    let source = "[".repeat(rt.alloc(), 100_000)?;
    let (code, output) = run(rt.alloc(), source.as_bytes());
    assert_eq!(rt; code, ExitCode::from(DONE));
    assert_eq!(rt; output.written(), b"too deep at 1000\n".as_slice());
    Ok(())
}
