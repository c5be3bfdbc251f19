//! Rows of sources that are squeezed, and the faults of those that are not.

use crate::stripped::is_wanted;
use js_session::Command;
use js_squeeze::{SqueezeFault, squeeze};
use js_text::SourceType;
use std::alloc::Global;

const N: Command = Command::Next;

/// A source with commands, and what it is squeezed to, or its fault. A fault of the commands is tested before one of a
/// row.
type Case = (
    SourceType,
    &'static [Command],
    &'static [u8],
    Result<&'static str, SqueezeFault>,
);

static CASES: [Case; 12] = [
    // A sign behind a word keeps its space, and so does a sign behind a sign.
    (SourceType::Module, &[N, N, N, N], b"a - -b", Ok("a - -b")),
    // A line end stays, whatever else stands beside it.
    (
        SourceType::Module,
        &[N, N, N, N],
        b" f ( x /* c\n*/ ) // d\n",
        Ok("f(x\n)\n"),
    ),
    // What no row has read stays.
    (SourceType::Module, &[], b"/*x*/ a /*y*/", Ok("a /*y*/")),
    // An angle that was cut stays beside what it was cut from.
    (
        SourceType::Module,
        &[N, Command::TsLAngle, N],
        b"f << T",
        Ok("f<< T"),
    ),
    // The text of JSX is copied whole.
    (
        SourceType::Module,
        &[Command::JsxChild, N, N],
        b"> a /*x*/  < b",
        Ok("> a /*x*/  <b"),
    ),
    // A regular expression ends as a word, since its flags are one.
    (
        SourceType::Script,
        &[Command::Regex, N],
        b"/x/ in",
        Ok("/x/ in"),
    ),
    (
        SourceType::Module,
        &[N],
        b"1x",
        Err(SqueezeFault::Diagnosed(0)),
    ),
    (
        SourceType::Script,
        &[N],
        b"a 1x",
        Err(SqueezeFault::Diagnosed(1)),
    ),
    (
        SourceType::Module,
        &[N],
        b"a\xff",
        Err(SqueezeFault::NotUtf8(1)),
    ),
    (
        SourceType::Module,
        &[N, Command::Peek],
        b"a",
        Err(SqueezeFault::BadCommand(1)),
    ),
    (
        SourceType::Module,
        &[Command::Mark],
        b"1x",
        Err(SqueezeFault::BadCommand(0)),
    ),
    (
        SourceType::Script,
        &[N, Command::JsxChild],
        b"a",
        Err(SqueezeFault::BadCommand(1)),
    ),
];

/// Whether a source is squeezed to the text, or has the fault.
fn squeezes(
    alloc: Global,
    source_type: SourceType,
    commands: &[Command],
    source: &[u8],
    wanted: Result<&str, SqueezeFault>,
) -> bool {
    match squeeze(alloc, source, source_type, commands) {
        Ok(squeezed) => is_wanted(squeezed.text.as_str(), wanted),
        Err(fault) => wanted.err() == Some(fault),
    }
}

#[test]
fn sources(rt: HostRuntime) {
    for &(source_type, commands, source, wanted) in &CASES {
        assert!(rt;
            squeezes(rt.alloc(), source_type, commands, source, wanted),
            "{source:?}"
        );
        // What is squeezed stays.
        if let Ok(text) = wanted {
            let text = text.as_bytes();
            assert!(rt;
                squeezes(rt.alloc(), source_type, commands, text, wanted),
                "{text:?}"
            );
        }
    }
}
