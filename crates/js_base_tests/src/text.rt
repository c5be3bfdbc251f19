//! What no contract says of texts: rows from outside, and that a call can succeed which nothing else makes.

use bitflags::Flags;
use js_text::{
    Diagnostic, JSStrBuilder, RegExpFlags, Span, is_identifier_part, is_identifier_start,
    is_irregular_whitespace, is_line_terminator, is_white_space,
};
use std::alloc::{AllocError, Global};
use std::test::Fail;

const SPAN: Span = Span { start: 1, end: 2 };

const AT: Option<Span> = Some(SPAN);

/// Diagnostics with their names, places and characters.
static DIAGNOSTICS: [(Diagnostic, &str, Option<Span>, Option<char>); 13] = [
    (
        Diagnostic::InvalidCharacter { c: '_', span: SPAN },
        "InvalidCharacter",
        AT,
        Some('_'),
    ),
    (
        Diagnostic::UnexpectedEnd { span: SPAN },
        "UnexpectedEnd",
        AT,
        None,
    ),
    (
        Diagnostic::FileAppearsToBeBinary,
        "FileAppearsToBeBinary",
        None,
        None,
    ),
    (
        Diagnostic::InvalidNumberEnd { span: SPAN },
        "InvalidNumberEnd",
        AT,
        None,
    ),
    (
        Diagnostic::UnterminatedString { span: SPAN },
        "UnterminatedString",
        AT,
        None,
    ),
    (
        Diagnostic::UnterminatedMultiLineComment { span: SPAN },
        "UnterminatedMultiLineComment",
        AT,
        None,
    ),
    (
        Diagnostic::UnterminatedRegExp { span: SPAN },
        "UnterminatedRegExp",
        AT,
        None,
    ),
    (
        Diagnostic::UnicodeEscapeSequence { span: SPAN },
        "UnicodeEscapeSequence",
        AT,
        None,
    ),
    (
        Diagnostic::InvalidEscapeSequence { span: SPAN },
        "InvalidEscapeSequence",
        AT,
        None,
    ),
    (
        Diagnostic::RegExpFlag { c: 'x', span: SPAN },
        "RegExpFlag",
        AT,
        Some('x'),
    ),
    (
        Diagnostic::RegExpFlagTwice { c: 'g', span: SPAN },
        "RegExpFlagTwice",
        AT,
        Some('g'),
    ),
    (
        Diagnostic::UnexpectedJsxEnd { c: '}', span: SPAN },
        "UnexpectedJsxEnd",
        AT,
        Some('}'),
    ),
    (
        Diagnostic::HtmlCommentInModule { span: SPAN },
        "HtmlCommentInModule",
        AT,
        None,
    ),
];

#[test]
fn diagnostics(rt: HostRuntime) {
    for &(diagnostic, name, place, character) in &DIAGNOSTICS {
        let told = (diagnostic.name(), diagnostic.span(), diagnostic.character());
        assert_eq!(rt; told, (name, place, character));
    }
}

/// Bytes, and the bits of the flag that each is the letter of.
static FLAGS: [(u8, Option<u8>); 15] = [
    (b'g', Some(1)),
    (b'i', Some(2)),
    (b'm', Some(4)),
    (b's', Some(8)),
    (b'u', Some(16)),
    (b'y', Some(32)),
    (b'd', Some(64)),
    (b'v', Some(128)),
    (b'G', None),
    (b'a', None),
    (b'x', None),
    (b'0', None),
    (b'_', None),
    (0, None),
    (255, None),
];

#[test]
fn flags_of_letters(rt: HostRuntime) {
    for &(letter, bits) in &FLAGS {
        let flags = RegExpFlags::of_letter(letter);
        assert_eq!(rt; flags.map(|flags| flags.bits()), bits, "{letter}");
    }
}

/// Whether a character begins a name, goes on with one, ends a line, is white, is irregular.
type Classes = (bool, bool, bool, bool, bool);

/// Characters with their classes.
static CHARACTERS: [(char, Classes); 32] = [
    ('a', (true, true, false, false, false)),
    ('Z', (true, true, false, false, false)),
    ('$', (true, true, false, false, false)),
    ('_', (true, true, false, false, false)),
    ('0', (false, true, false, false, false)),
    ('-', (false, false, false, false, false)),
    ('\\', (false, false, false, false, false)),
    ('\t', (false, false, false, true, false)),
    (' ', (false, false, false, true, false)),
    ('\u{B}', (false, false, false, true, true)),
    ('\u{C}', (false, false, false, true, true)),
    ('\n', (false, false, true, false, false)),
    ('\r', (false, false, true, false, false)),
    ('\u{85}', (false, false, false, false, false)),
    ('\u{A0}', (false, false, false, true, true)),
    ('\u{E9}', (true, true, false, false, false)),
    ('\u{300}', (false, true, false, false, false)),
    ('\u{1680}', (false, false, false, true, true)),
    ('\u{180E}', (false, false, false, false, false)),
    ('\u{2000}', (false, false, false, true, true)),
    ('\u{200A}', (false, false, false, true, true)),
    ('\u{200B}', (false, false, false, false, false)),
    ('\u{200C}', (false, true, false, false, false)),
    ('\u{200D}', (false, true, false, false, false)),
    ('\u{2028}', (false, false, true, false, false)),
    ('\u{2029}', (false, false, true, false, false)),
    ('\u{202F}', (false, false, false, true, true)),
    ('\u{205F}', (false, false, false, true, true)),
    ('\u{3000}', (false, false, false, true, true)),
    ('\u{FEFF}', (false, false, false, true, true)),
    ('\u{FFFD}', (false, false, false, false, false)),
    ('\u{10400}', (true, true, false, false, false)),
];

#[test]
fn classes_of_characters(rt: HostRuntime) {
    for &(c, classes) in &CHARACTERS {
        let told = (
            is_identifier_start(c),
            is_identifier_part(c),
            is_line_terminator(c),
            is_white_space(c),
            is_irregular_whitespace(c),
        );
        assert_eq!(rt; told, classes, "{:x}", c as u32);
    }
}

/// Units, and the text that they spell, if no surrogate stands outside a pair.
static UNITS: [(&[u16], Option<&str>); 2] = [
    (&[0x61, 0xD83D, 0xDE00], Some("a\u{1F600}")),
    (&[0x61, 0xD83D], None),
];

fn spelled(alloc: Global, units: &[u16]) -> Result<Option<String>, AllocError> {
    let mut builder = JSStrBuilder::new_in(alloc);
    for unit in units {
        builder.push_unit(*unit)?;
    }
    builder.into_js_str().to_text(alloc)
}

#[test]
fn texts_of_units(rt: HostRuntime) -> Result<(), Fail> {
    for &(units, text) in &UNITS {
        let spelled = spelled(rt.alloc(), units)?;
        assert_eq!(rt; spelled.as_deref(), text);
    }
    Ok(())
}
