//! The calls of js_reader that can report lack of memory, where there is enough.

ghost use Rattle.std.specs.Prelude.{◌<◌, ◌^◌, length};

use crate::lexer_calls::is_read;
use js_grammar::Goal;
use js_kind::Kind;
use js_reader::{ByteTables, DecodedValues, FindingsBuilder, Reader};
use js_source::Source;
use js_text::{DiagnosticList, SourceType, is_line_terminator, is_white_space};
use std::alloc::{AllocError, Global};
use std::test::Fail;

/// A call of a reader at the start of a text, and what it is to tell.
#[derive(Clone, Copy)]
enum Call {
    /// The kind of the next token, and where it starts and ends.
    Next(Kind, u32, u32),
    /// The same of a child of JSX.
    Child(Kind, u32, u32),
    /// The same of the value of an attribute.
    Value(Kind, u32, u32),
    /// The same of a token behind a gap that is skipped before.
    Here(Kind, u32, u32),
    /// Whether a piece of a gap begins the text, and where the reader stands behind it.
    Piece(bool, u32),
    /// Where a regular expression ends, and its pattern.
    Expression(u32, u32),
    /// The kind of the part of a template behind a `}`, and where it starts and ends.
    Part(Kind, u32, u32),
}

/// Skips the piece of a gap that begins here, and tells whether there is one.
fn skip(reader: &mut Reader<'_>, found: &mut FindingsBuilder) -> Result<bool, AllocError> {
    match reader.source.peek_char() {
        Some('/') => reader.skip_comment(found),
        Some('<') => reader.skip_html_open(found),
        Some('-') => reader.skip_html_close(found),
        Some(c) => {
            if is_white_space(c) {
                return reader.skip_white_space(found, c);
            }
            if is_line_terminator(c) {
                return reader.skip_line_terminator(found, c);
            }
            Ok(false)
        }
        None => Ok(false),
    }
}

/// Where the regular expression at the start of the text ends, and its pattern. None: no `/` is next.
fn ends_of_expression(
    reader: &mut Reader<'_>,
    errors: &mut DiagnosticList,
) -> Result<Option<(u32, u32)>, AllocError> {
    let start = reader.source.offset();
    match reader.source.peek_char() {
        Some('/') => {
            let found = reader.read_expression(start, errors)?;
            Ok(Some((found.token.end(), found.pattern_end)))
        }
        _ => Ok(None),
    }
}

/// Reads the part of a template behind a `}`, if one is next, and tells whether it is of the kind, and starts and ends
/// there.
fn is_part(
    reader: &mut Reader<'_>,
    errors: &mut DiagnosticList,
    decoded: &mut DecodedValues,
    kind: Kind,
    start: u32,
    end: u32,
) -> Result<bool, AllocError> {
    let offset = reader.source.offset();
    match reader.source.next_char() {
        Some('}') => is_read(
            reader.read_next_part(offset, errors, decoded),
            kind,
            start,
            end,
        ),
        _ => Ok(false),
    }
}

/// Makes a call, and gives whether the reader tells what it is to tell.
fn make_call(
    reader: &mut Reader<'_>,
    found: &mut FindingsBuilder,
    errors: &mut DiagnosticList,
    decoded: &mut DecodedValues,
    call: Call,
) -> Result<bool, AllocError> {
    match call {
        Call::Next(kind, start, end) => {
            is_read(
                reader.read_goal(Goal::Next, found, decoded),
                kind,
                start,
                end,
            )
        }
        Call::Child(kind, start, end) => is_read(reader.read_child(found), kind, start, end),
        Call::Value(kind, start, end) => {
            is_read(
                reader.read_attribute_value(found, decoded),
                kind,
                start,
                end,
            )
        }
        Call::Here(kind, start, end) => {
            reader.skip_whole_gap(found)?;
            is_read(reader.read_here(errors, decoded), kind, start, end)
        }
        Call::Piece(is_piece, end) => {
            Ok(skip(reader, found)? == is_piece && reader.source.offset() == end)
        }
        Call::Expression(end, pattern_end) => {
            Ok(ends_of_expression(reader, errors)? == Some((end, pattern_end)))
        }
        Call::Part(kind, start, end) => is_part(reader, errors, decoded, kind, start, end),
    }
}

/// Makes a call at the start of the text of a script, and gives whether the reader tells what it is to tell.
fn play(alloc: Global, text: &str, call: Call) -> Result<bool, AllocError>
    requires { length text.now < 2 ^ 32 }
{
    let mut reader = Reader {
        source: Source::new(text),
        source_type: SourceType::Script,
        tables: ByteTables::new(),
        line_has_ended: true,
        alloc,
    };
    let mut found = FindingsBuilder::new_in(alloc);
    let mut errors = DiagnosticList::new_in(alloc);
    let mut decoded = DecodedValues::new_in(alloc);
    make_call(&mut reader, &mut found, &mut errors, &mut decoded, call)
}

static CALLS: [(&str, Call); 12] = [
    (" /*a*/ b", Call::Next(Kind::Ident, 7, 8)),
    (" b<", Call::Child(Kind::JSXText, 0, 2)),
    (" '\\n'", Call::Value(Kind::Str, 1, 5)),
    (" // a\n b", Call::Here(Kind::Ident, 7, 8)),
    ("// a\nb", Call::Piece(true, 5)),
    ("/*a*/b", Call::Piece(true, 5)),
    ("<!--a\nb", Call::Piece(true, 6)),
    ("-->a\nb", Call::Piece(true, 5)),
    ("\u{A0}b", Call::Piece(true, 2)),
    ("<b", Call::Piece(false, 0)),
    ("/a/g;", Call::Expression(4, 2)),
    ("}\\n${", Call::Part(Kind::TemplateMiddle, 0, 5)),
];

#[test]
fn calls(rt: HostRuntime) -> Result<(), Fail> {
    for &(text, call) in &CALLS {
        assert!(rt; play(rt.alloc(), text, call)?, "{text}");
    }
    Ok(())
}
