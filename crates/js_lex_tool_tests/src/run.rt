//! How many commands words mean, and the lines that are generated.

use js_lex_tool::{SureIn, SureOut, generated, lex_tool_run_sure};
use std::alloc::{AllocError, Global};
use std::test::Fail;

/// The words of a command line, which stand between spaces.
pub fn strings_of(alloc: Global, words: &str) -> Result<Vec<String>, AllocError> {
    let mut strings = Vec::new(alloc);
    for word in words.split(' ') {
        strings.push(String::from_str(alloc, word)?)?;
    }
    Ok(strings)
}

/// How many commands ran, if any did.
fn commands_run(alloc: Global, words: &str, source: &[u8]) -> Result<Option<usize>, AllocError> {
    let mut input = SureIn::new(source, 3);
    let mut output = SureOut::new(alloc, 10);
    let words = strings_of(alloc, words)?;
    let outcome = lex_tool_run_sure(alloc, &words, &mut input, &mut output);
    Ok(outcome.ran.map(|ran| ran.commands.len()))
}

/// Words, a source, and how many commands these mean for it.
static COUNTS: [(&str, &[u8], usize); 11] = [
    ("gen 1", b"", 7),
    ("gen 10", b"\xff", 70),
    ("module no-tokens all", b"", 0),
    ("module no-tokens all", b"a b", 2),
    ("module no-tokens all", b"a?.1:b", 5),
    ("module no-tokens auto", b"", 0),
    ("module no-tokens auto", b"x=/b/g", 4),
    ("module no-tokens auto", b"a/b", 3),
    ("strip module all", b"a/*x*/b", 2),
    ("strip module next", b"a/*x*/b", 1),
    ("squeeze module all", b"a /*x*/ b", 2),
];

#[test]
fn commands_of_whole_sources(rt: HostRuntime) -> Result<(), Fail> {
    for &(words, source, count) in &COUNTS {
        let commands = commands_run(rt.alloc(), words, source)?;
        assert_eq!(rt; commands, Some(count), "{words}");
    }
    Ok(())
}

#[test]
fn lines_are_generated(rt: HostRuntime) -> Result<(), Fail> {
    let wanted = "let a1 = 1 * 2; // 1\nlet a2 = 2 * 2; // 2\n";
    assert_eq!(rt; generated(rt.alloc(), 2)?.as_str(), wanted);
    Ok(())
}
