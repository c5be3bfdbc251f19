//! Reading parts of JSX.

ghost use Rattle.std.specs.Prelude.{◌≡◌, ◌==◌, ◌≤◌, true, not, ◌++◌, IfOk, IfNone, IfSome, OnErr, OnOk, []};
ghost use Rattle.js_text.specs.Characters.{begins, from_first};
ghost use Rattle.js_grammar.specs.Jsx.{begins_child, ends_jsx_name, jsx_child_reading, jsx_child_warnings};
ghost use Rattle.js_grammar.specs.Jsx.{jsx_text_reading};
ghost use Rattle.js_grammar.specs.Reading.{reported_at};
ghost use Rattle.js_grammar.specs.StringItems.{is_quote};
ghost use Rattle.js_source.specs.Runs.{TellsClass};
ghost use Rattle.js_source.specs.Source.{rest};
ghost use Rattle.js_spell.specs.Spells.{ReadsAs};
ghost use Rattle.js_spell.specs.Goals.{SpellsJsxName, SpellsJsxString, StopsAt, TakesJsxQuote};
ghost use Rattle.js_spell.specs.Goals.{ends_of, jsx_string_reports, text_warnings, PassesChild, WarnsInPart};
ghost use Rattle.js_spell.specs.Breaks.{BreaksOff};

use crate::escape::report_unterminated;
use crate::name::skip_parts;
use js_kind::Kind;
use js_source::{Source, of_each_byte};
use js_text::{Diagnostic, DiagnosticList, Span, SpanList};
use std::alloc::AllocError;

/// Goes to the first character that is no part of a name of JSX.
fn skip_jsx_parts(source: &mut Source<'_>)
    ensures text { source.new.text ≡ source.old.text }
    ensures rest { rest source.new ≡ from_first ends_jsx_name (rest source.old) }
    ensures onward { source.old.place ≤ source.new.place }
{
    skip_parts(source);
    'parts: while source.advance_if_ascii_eq(b'-') {
        skip_parts(source);
    }
}

/// Reads a name of JSX on, behind its part up to the first `-`: all parts of names and all `-` that follow. False: no
/// `-` is next, and nothing was read.
pub fn read_jsx_identifier(source: &mut Source<'_>) -> bool
    ensures { SpellsJsxName source.old source.new result }
{
    if !source.advance_if_ascii_eq(b'-') {
        return false;
    }
    skip_jsx_parts(source);
    true
}

/// What the text of JSX stands in.
#[derive(Clone, Copy)]
enum Text {
    /// A child of a tag.
    Child,
    /// A string between double quotes.
    DoubleQuoted,
    /// A string between single quotes.
    SingleQuoted,
}

/// ASCII, and none of `<`, `>`, `{` and `}`.
macro_rules! stands_in_child {
    ($byte:literal) => {
        $byte < 128 && $byte != b'<' && $byte != b'>' && $byte != b'{' && $byte != b'}'
    };
}

/// The ASCII characters that stand for themselves in the text of a child.
static CHILD: [bool; 256] = of_each_byte!(stands_in_child);

/// ASCII, and no `"`.
macro_rules! stands_in_double_quotes {
    ($byte:literal) => {
        $byte < 128 && $byte != b'"'
    };
}

/// The ASCII characters that stand for themselves between double quotes.
static DOUBLE_QUOTED: [bool; 256] = of_each_byte!(stands_in_double_quotes);

/// ASCII, and no `'`.
macro_rules! stands_in_single_quotes {
    ($byte:literal) => {
        $byte < 128 && $byte != b'\''
    };
}

/// The ASCII characters that stand for themselves between single quotes.
static SINGLE_QUOTED: [bool; 256] = of_each_byte!(stands_in_single_quotes);

/// The table of the ASCII characters that stand for themselves.
#[inline(always)]
fn table_of(within: Text) -> &'static [bool; 256]
    ensures { TellsClass (λ b. not (ends_of within b)) result.now }
{
    match within {
        Text::Child => &CHILD,
        Text::DoubleQuoted => &DOUBLE_QUOTED,
        Text::SingleQuoted => &SINGLE_QUOTED,
    }
}

/// Goes to the character that ends the run of text, and gives it. None: the source ends before one.
fn pass_text(source: &mut Source<'_>, within: Text) -> Option<u8>
    ensures text { source.new.text ≡ source.old.text }
    ensures rest { rest source.new ≡ from_first (ends_of within) (rest source.old) }
    ensures onward { source.old.place ≤ source.new.place }
    ensures none { IfNone result (rest source.new ≡ []) }
    ensures some { IfSome result (λ b. StopsAt within b (rest source.new)) }
{
    let table = table_of(within);
    'characters: loop {
        let b = source.pass_ascii(table)?;
        if b < 128 {
            return Some(b);
        }
        source.next_char();
    }
}

/// Whether the byte is a mark that a child goes on with.
fn begins_child(b: u8) -> bool
    ensures { result ≡ begins_child b }
{
    b == b'<' || b == b'{'
}

/// Goes to the character that ends the text of a child, and gives it. Each `>` on the way is warned of.
fn pass_child(source: &mut Source<'_>, warnings: &mut SpanList) -> Result<Option<u8>, AllocError>
    ensures ok { IfOk result (PassesChild source.old source.new warnings.old warnings.new) }
    ensures text { source.new.text ≡ source.old.text }
    ensures onward { source.old.place ≤ source.new.place }
    ensures err { OnErr result (WarnsInPart (text_warnings source.old.place (rest source.old)) warnings.old
        warnings.new) }
{
    'angles: loop {
        let end = pass_text(source, Text::Child);
        let start = source.offset();
        if !source.advance_if_ascii_eq(b'>') {
            return Ok(end);
        }
        warnings.push(Span::new(start, source.offset()))?;
    }
}

/// Reads the text of a child.
fn read_jsx_text(
    source: &mut Source<'_>,
    errors: &mut DiagnosticList,
    warnings: &mut SpanList,
) -> Result<Kind, AllocError>
    ensures ok { IfOk result (ReadsAs (jsx_text_reading (rest source.old)) source.old.place source.old source.new
        errors.old errors.new) }
    ensures warned { OnOk result (warnings.new ≡ warnings.old ++ text_warnings source.old.place (rest source.old)) }
    ensures err { OnErr result (BreaksOff [] source.old source.new errors.old errors.new) }
    ensures in_part { OnErr result (WarnsInPart (text_warnings source.old.place (rest source.old)) warnings.old
        warnings.new) }
{
    let b = match pass_child(source, warnings)? {
        Some(b) => b,
        None => return Ok(Kind::Eof),
    };
    if begins_child(b) {
        return Ok(Kind::JSXText);
    }
    let span = Span::empty(source.offset());
    let c = b as char;
    errors.push(Diagnostic::UnexpectedJsxEnd { c, span })?;
    Ok(Kind::Eof)
}

/// Reads what stands between two tags of JSX, and gives its kind: a `<`, a `{`, or text up to one of them. Text that
/// the source ends is of kind `Eof`, and so is text before a `}`, which is reported. Each `>` in the text is warned of.
/// It asks for no memory but for these.
pub fn read_jsx_child(
    source: &mut Source<'_>,
    errors: &mut DiagnosticList,
    warnings: &mut SpanList,
) -> Result<Kind, AllocError>
    ensures ok { IfOk result (ReadsAs (jsx_child_reading (rest source.old)) source.old.place source.old source.new
        errors.old errors.new) }
    ensures warned { OnOk result (warnings.new
        ≡ warnings.old ++ jsx_child_warnings source.old.place (rest source.old)) }
    ensures err { OnErr result (BreaksOff (reported_at source.old.place (jsx_child_reading (rest source.old)))
        source.old source.new errors.old errors.new) }
    ensures in_part { OnErr result (WarnsInPart (jsx_child_warnings source.old.place (rest source.old)) warnings.old
        warnings.new) }
{
    if source.advance_if_ascii_eq(b'<') {
        return Ok(Kind::LAngle);
    }
    if source.advance_if_ascii_eq(b'{') {
        return Ok(Kind::LCurly);
    }
    read_jsx_text(source, errors, warnings)
}

/// Takes the quote that is next.
fn take_quote(source: &mut Source<'_>) -> Text
    requires { begins is_quote (rest source.old) ≡ true }
    ensures quote { TakesJsxQuote source.old source.new result }
    ensures onward { source.old.place ≤ source.new.place }
{
    if source.advance_if_ascii_eq(b'"') {
        return Text::DoubleQuoted;
    }
    source.next_char();
    Text::SingleQuoted
}

/// Reads the string of an attribute that is next, and gives its kind: up to the next quote like its first, since it has
/// no escapes. One that has no end is reported, from the offset where it begins. It asks for no memory but for that.
pub fn read_jsx_string(
    source: &mut Source<'_>,
    errors: &mut DiagnosticList,
) -> Result<Kind, AllocError>
    requires { begins is_quote (rest source.old) ≡ true }
    ensures ok { IfOk result (SpellsJsxString source.old source.new errors.old errors.new) }
    ensures err { OnErr result (BreaksOff (jsx_string_reports source.old.place (rest source.old))
        source.old source.new errors.old errors.new) }
{
    let start = source.offset();
    let within = take_quote(source);
    match pass_text(source, within) {
        Some(_quote) => {
            source.next_char();
            Ok(Kind::Str)
        }
        None => {
            report_unterminated(source, errors, start)?;
            Ok(Kind::Eof)
        }
    }
}
