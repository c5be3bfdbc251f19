//! Rows of sources that are stripped, and the faults of those that are not.

use js_session::Command;
use js_strip::{StripFault, strip};
use js_text::SourceType;
use std::alloc::Global;

const N: Command = Command::Next;

/// A source with commands, and what is left of it, or its fault. A fault of the commands is tested before one of a row.
type Case = (
    SourceType,
    &'static [Command],
    &'static [u8],
    Result<&'static str, StripFault>,
);

static CASES: [Case; 17] = [
    (
        SourceType::Module,
        &[N, N, N],
        b"a/*x*/b // y\nc",
        Ok("a b  \nc"),
    ),
    (SourceType::Module, &[N, N], b"a /*\n*/ b", Ok("a \n b")),
    // Comments that no row has read stay.
    (SourceType::Module, &[], b"/*x*/a/*y*/", Ok(" a/*y*/")),
    (SourceType::Script, &[N], b"a<!--x\n-->y", Ok("a \n ")),
    // What looks like a comment in a string, in a text of JSX or in a regular expression is none.
    (SourceType::Unambiguous, &[N], b"'/*x*/'//y", Ok("'/*x*/' ")),
    (
        SourceType::Module,
        &[Command::JsxChild, N, N],
        b">/*x*/<//y",
        Ok(">/*x*/< "),
    ),
    (
        SourceType::Module,
        &[N, N, Command::Regex, N, N],
        b"x=/[/*]/g//c\ny",
        Ok("x=/[/*]/g \ny"),
    ),
    (
        SourceType::Module,
        &[N, Command::Regex, N, Command::TemplateTail, N],
        b"`${/\\/*/}`/*c*/",
        Ok("`${/\\/*/}` "),
    ),
    (
        SourceType::Module,
        &[N, N, N, N, N],
        b"a/*c*//b/*d*//g",
        Ok("a /b /g"),
    ),
    (
        SourceType::Module,
        &[N],
        b"1x",
        Err(StripFault::Diagnosed(0)),
    ),
    (
        SourceType::Script,
        &[N],
        b"a 1x",
        Err(StripFault::Diagnosed(1)),
    ),
    (
        SourceType::Module,
        &[N],
        b"a\n<!--b",
        Err(StripFault::Diagnosed(1)),
    ),
    (
        SourceType::Module,
        &[N],
        b"a\xff",
        Err(StripFault::NotUtf8(1)),
    ),
    (
        SourceType::Module,
        &[N, Command::Peek],
        b"a",
        Err(StripFault::BadCommand(1)),
    ),
    (
        SourceType::Module,
        &[Command::Mark],
        b"1x",
        Err(StripFault::BadCommand(0)),
    ),
    (
        SourceType::Script,
        &[N, Command::JsxChild],
        b"a",
        Err(StripFault::BadCommand(1)),
    ),
    (
        SourceType::Unambiguous,
        &[Command::TsLAngle],
        b"a",
        Err(StripFault::BadCommand(0)),
    ),
];

/// Whether the text is the one that is wanted.
pub(crate) fn is_wanted(text: &str, wanted: Result<&str, StripFault>) -> bool {
    match wanted {
        Ok(wanted) => text == wanted,
        Err(_) => false,
    }
}

/// Whether a source is stripped to the text, or has the fault.
fn strips(
    alloc: Global,
    source_type: SourceType,
    commands: &[Command],
    source: &[u8],
    wanted: Result<&str, StripFault>,
) -> bool {
    match strip(alloc, source, source_type, commands) {
        Ok(stripped) => is_wanted(stripped.text.as_str(), wanted),
        Err(fault) => wanted.err() == Some(fault),
    }
}

#[test]
fn sources(rt: HostRuntime) {
    for &(source_type, commands, source, wanted) in &CASES {
        assert!(rt;
            strips(rt.alloc(), source_type, commands, source, wanted),
            "{source:?}"
        );
    }
}
