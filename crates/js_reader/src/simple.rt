//! Readings that need the source alone: a gap of blanks and line feeds, and behind it a name, a string or a template
//! without escapes, a number without separators, or a punctuator. Most tokens are read so; all others are left to the
//! readings of any form.

ghost use Rattle.std.specs.Prelude.{◌≡◌, ◌<◌, Bool, true, None, IfSome, MatchBool};
ghost use Rattle.js_text.specs.Ascii.{grave_accent, line_feed, number_sign};
ghost use Rattle.js_text.specs.Characters.{is_identifier_part, is_identifier_start};
ghost use Rattle.js_grammar.specs.Gap.{whole_gap_piece};
ghost use Rattle.js_grammar.specs.StringItems.{is_quote};
ghost use Rattle.js_source.specs.Source.{At, rest, HasFirstByte};
ghost use Rattle.js_source.specs.Search.{matches_at};
ghost use Rattle.js_source.specs.Runs.{TellsClass};
ghost use Rattle.js_reader.specs.Simple.{EndsAt, EndsGapInAscii, GoesOnWithGap, PassesPieces, SpellsFor, SpellsSimply};
ghost use Rattle.js_reader.specs.declared.reader.Reader.{Reader};
ghost use Rattle.js_reader.specs.Tables.{is_blank, is_symbol};

use crate::gap::skip_blanks;
use crate::reading::begins_ascii_name;
use crate::tables::ByteTables;
use js_kind::Kind;
use js_source::Source;
use js_spell::{
    read_punctuator, read_unescaped_name_by, read_unescaped_part, read_unescaped_private_name,
    read_unescaped_string, read_unseparated_number,
};

/// Whether the byte `b`, which is next, is a `<` or a `-` that begins no comment.
#[inline(always)]
fn is_symbol_alone(source: &Source<'_>, b: u8, line_has_ended: bool) -> bool
    requires { HasFirstByte b (rest source.now) }
    ensures { MatchBool result (EndsGapInAscii b line_has_ended (rest source.now)) (Unit {0}) }
{
    if b == b'-' {
        return !line_has_ended;
    }
    if b != b'<' {
        return false;
    }
    match source.peek_2_bytes() {
        Some(pair) => pair[1] != b'!',
        None => false,
    }
}

/// Whether the byte `b`, which is next, is an ASCII character that begins no piece of a gap; false where it may begin
/// one.
#[inline(always)]
fn ends_gap(source: &Source<'_>, symbols: &[bool; 256], b: u8, line_has_ended: bool) -> bool
    requires symbols { TellsClass is_symbol symbols.now }
    requires next { HasFirstByte b (rest source.now) }
    ensures { MatchBool result (EndsGapInAscii b line_has_ended (rest source.now)) (Unit {0}) }
{
    if symbols[b as usize] {
        return true;
    }
    is_symbol_alone(source, b, line_has_ended)
}

/// Passes the TAB or the SP that is next, if one is.
#[inline(always)]
fn pass_blank(source: &mut Source<'_>, blanks: &[bool; 256])
    requires { TellsClass is_blank blanks.now }
    ensures { (start : At) (had has : Bool) → PassesPieces start had source.old has
        → PassesPieces start had source.new has }
{
    match source.peek_byte() {
        Some(b) if blanks[b as usize] => source.next_ascii(b),
        _ => {}
    }
}

/// Passes the line feed that is next, and the blanks behind it.
#[inline(always)]
fn pass_line_feed(source: &mut Source<'_>, blanks: &[bool; 256], line_has_ended: &mut bool)
    requires blanks { TellsClass is_blank blanks.now }
    requires next { HasFirstByte line_feed (rest source.old) }
    ensures { GoesOnWithGap source.old line_has_ended.old source.new line_has_ended.new }
{
    source.next_ascii(b'\n');
    *line_has_ended = true;
    skip_blanks(source, blanks);
}

/// Passes the blank `b`, which is next, and the blanks behind it.
#[inline(always)]
fn pass_blanks(source: &mut Source<'_>, blanks: &[bool; 256], b: u8)
    requires blanks { TellsClass is_blank blanks.now }
    requires blank { matches_at blanks.now b ≡ true }
    requires next { HasFirstByte b (rest source.old) }
    ensures { (line_has_ended : Bool) → GoesOnWithGap source.old line_has_ended source.new line_has_ended }
{
    source.next_ascii(b);
    skip_blanks(source, blanks);
}

/// Passes the line feed or the blank `b`, which is next, and the blanks behind it, if it is one of them.
#[inline(always)]
fn pass_more(
    source: &mut Source<'_>,
    blanks: &[bool; 256],
    b: u8,
    line_has_ended: &mut bool,
) -> bool
    requires blanks { TellsClass is_blank blanks.now }
    requires next { HasFirstByte b (rest source.old) }
    ensures { MatchBool result (GoesOnWithGap source.old line_has_ended.old source.new line_has_ended.new) (Unit {0}) }
{
    if b == b'\n' {
        pass_line_feed(source, blanks, line_has_ended);
        return true;
    }
    if !blanks[b as usize] {
        return false;
    }
    pass_blanks(source, blanks, b);
    true
}

/// What ends a simple gap: the byte that is next behind it.
#[derive(Clone, Copy)]
pub enum GapEnd {
    /// An ASCII character that begins a name.
    Name(u8),
    /// Another ASCII character that begins no piece of a gap.
    Symbol(u8),
    /// The gap may go on, in another form, or the text ends.
    Other,
}

/// Passes a whole gap of blanks and line feeds, and tells what ends it. Most gaps are one SP.
#[inline(always)]
pub fn pass_simple_gap(
    source: &mut Source<'_>,
    tables: &ByteTables,
    line_has_ended: &mut bool,
) -> GapEnd
    ensures { EndsAt result source.old line_has_ended.old source.new line_has_ended.new }
{
    pass_blank(source, &tables.blanks);
    while let Some(next) = source.peek_byte() {
        if tables.starts[next as usize] {
            return GapEnd::Name(next);
        }
        if ends_gap(source, &tables.symbols, next, *line_has_ended) {
            return GapEnd::Symbol(next);
        }
        if !pass_more(source, &tables.blanks, next, line_has_ended) {
            return GapEnd::Other;
        }
    }
    GapEnd::Other
}

/// Whether it is the byte of a quote.
#[inline(always)]
fn is_quote(b: u8) -> bool
    ensures { result ≡ is_quote b }
{
    b == b'"' || b == b'\''
}

/// Reads the template that is next, or its first part, where nothing in it is escaped.
#[inline(always)]
fn read_unescaped_template(source: &mut Source<'_>) -> Option<Kind>
    requires { HasFirstByte grave_accent (rest source.old) }
    ensures spells { (line_has_ended : Bool) → IfSome result (SpellsSimply line_has_ended source.old source.new) }
    ensures text { source.new.text ≡ source.old.text }
{
    source.next_ascii(b'`');
    read_unescaped_part(source, Kind::TemplateHead, Kind::NoSubstitutionTemplate)
}

/// Reads the private name that is next, where it begins with an ASCII character and no escape stands in it.
#[inline(always)]
fn read_unescaped_private(source: &mut Source<'_>) -> Option<Kind>
    requires { HasFirstByte number_sign (rest source.old) }
    ensures spells { (line_has_ended : Bool) → IfSome result (SpellsSimply line_has_ended source.old source.new) }
    ensures text { source.new.text ≡ source.old.text }
{
    source.next_ascii(b'#');
    read_unescaped_private_name(source)
}

/// Reads the string, the number, the private name or the template that begins with the ASCII character `b`, which is
/// next.
#[inline(always)]
fn read_value(source: &mut Source<'_>, b: u8) -> Option<Kind>
    requires ascii { b < 128 }
    requires next { HasFirstByte b (rest source.old) }
    ensures spells { (line_has_ended : Bool) → IfSome result (SpellsSimply line_has_ended source.old source.new) }
    ensures text { source.new.text ≡ source.old.text }
{
    if is_quote(b) {
        return read_unescaped_string(source, b);
    }
    if b.is_ascii_digit() {
        return read_unseparated_number(source, b);
    }
    if b == b'`' {
        return read_unescaped_template(source);
    }
    if b != b'#' {
        return None;
    }
    read_unescaped_private(source)
}

/// Reads the punctuator, the string, the template or the private name without escapes, or the number without
/// separators, that begins with the ASCII character `b`, which is next.
#[inline(always)]
pub fn read_simple_symbol(source: &mut Source<'_>, b: u8) -> Option<Kind>
    requires ascii { b < 128 }
    requires next { HasFirstByte b (rest source.old) }
    ensures spells { (r : Reader) (line_has_ended : Bool)
        → whole_gap_piece r.source_type line_has_ended (rest source.old) ≡ None
        → IfSome result (SpellsFor r line_has_ended source.old source.new) }
    ensures text { source.new.text ≡ source.old.text }
{
    if let Some(kind) = read_punctuator(source) {
        return Some(kind);
    }
    // A value is read from a copy, whose place can stay in a register.
    let mut behind = source.here();
    let kind = read_value(&mut behind, b);
    *source = behind;
    kind
}

/// Reads the name that begins with the ASCII character `b`, which is next, where no escape stands in it.
#[inline(always)]
pub fn read_simple_name(source: &mut Source<'_>, parts: &[bool; 256], b: u8) -> Option<Kind>
    requires parts { TellsClass is_identifier_part parts.now }
    requires ascii { b < 128 }
    requires next { HasFirstByte b (rest source.old) }
    requires begun { is_identifier_start b ≡ true }
    ensures spells { (line_has_ended : Bool) → IfSome result (SpellsSimply line_has_ended source.old source.new) }
    ensures text { source.new.text ≡ source.old.text }
{
    read_unescaped_name_by(source, parts, b)
}

/// Reads what `read_simple_name` or `read_simple_symbol` does.
#[inline(always)]
pub fn read_simple_spelling(source: &mut Source<'_>, tables: &ByteTables, b: u8) -> Option<Kind>
    requires ascii { b < 128 }
    requires next { HasFirstByte b (rest source.old) }
    ensures spells { (r : Reader) (line_has_ended : Bool)
        → whole_gap_piece r.source_type line_has_ended (rest source.old) ≡ None
        → IfSome result (SpellsFor r line_has_ended source.old source.new) }
    ensures text { source.new.text ≡ source.old.text }
{
    if begins_ascii_name(&tables.starts, b) {
        return read_simple_name(source, &tables.parts, b);
    }
    read_simple_symbol(source, b)
}
