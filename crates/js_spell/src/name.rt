//! Reading a name or a private name, good or at fault (ECMA-262 12.7).

ghost use Rattle.std.specs.Prelude.{◌≡◌, ◌+◌, ◌≤◌, ◌<◌, ◌==◌, ◌++◌, [], length, Bool, true, IfOk, IfSome, IfNone, OnOk};
ghost use Rattle.std.specs.Prelude.{OnErr, MatchBool, string_bytes, false, ◌⊎◌, ℕ};
ghost use Rattle.std.specs.Char.Utf16.{is_low_surrogate};
ghost use Rattle.std.specs.Str.{chars, IsCharBoundary};
ghost use Rattle.js_text.specs.Ascii.{backslash};
ghost use Rattle.js_text.specs.Characters.{begins, from_place, from_first, is_identifier_part, is_identifier_start};
ghost use Rattle.js_text.specs.JsStr.{units_of};
ghost use Rattle.js_grammar.specs.Name.{begins_name, is_no_part, low_surrogate_escape, name_reading};
ghost use Rattle.js_grammar.specs.Reading.{reported_at};
ghost use Rattle.js_spell.specs.Name.{behind_sign};
ghost use Rattle.js_spell.specs.Spells.{Spells};
ghost use Rattle.js_kind.specs.Keywords.{name_kind};
ghost use Rattle.js_source.specs.Runs.{TellsClass};
ghost use Rattle.js_source.specs.Source.{rest, BeginsWith, HasFirstByte};
ghost use Rattle.js_spell.specs.Name.{class_of, PassesUnescaped, DecodesEscape, DecodesUnicode, ReadsEscape};
ghost use Rattle.js_spell.specs.Name.{ReadsItems};
ghost use Rattle.js_spell.specs.Name.{PassesParts, ReadsToEnd, SpellsDecoded, ReportsNoName};
ghost use Rattle.js_spell.specs.Name.{SpellsUnescapedName, MeetsEscape, SpellsUnescapedPrivateName};
ghost use Rattle.js_spell.specs.Name.{MeetsNoUnescapedName, items_told};
ghost use Rattle.js_spell.specs.Breaks.{BreaksOff};
ghost use Rattle.js_spell.specs.declared.name.Position.TheVariants.{Later};
ghost use Rattle.js_spell.specs.declared.spelt.SpeltValue.TheVariants.{Decoded};

use crate::parts::name_parts;
use crate::spelt::{Spelt, SpeltValue};
use crate::unicode_escape::{read_hex_digits, read_unicode_escape};
use js_kind::{Kind, Token, match_keyword_between};
use js_source::{Source, SourcePosition};
use js_text::{
    Diagnostic, DiagnosticList, JSStrBuilder, Span, is_identifier_part, is_identifier_start,
};
use std::alloc::{AllocError, Global};

/// The first of the low surrogates.
const FIRST_LOW_SURROGATE: u32 = 0xDC00;

/// The room that is taken for a name behind its first escape, in bytes.
const MORE_BYTES: usize = 16;

/// The last of the low surrogates.
const LAST_LOW_SURROGATE: u32 = 0xDFFF;

/// Where in a name an item stands.
#[derive(Clone, Copy)]
enum Position {
    /// It begins the name.
    First,
    /// Other items are before it.
    Later,
}

impl Position {
    /// Whether a name may have the character here.
    fn allows(self, c: char) -> bool
        ensures { result ≡ class_of self c }
    {
        match self {
            Position::First => is_identifier_start(c),
            Position::Later => is_identifier_part(c),
        }
    }
}

/// What an escape in a name came to.
#[derive(Clone, Copy)]
enum Decoding {
    /// It stands for the character.
    Character(char),
    /// It would stand for the character, which may not be here.
    NotAllowed(char),
    /// It is none.
    Bad,
}

/// Whether the ASCII character `b` is next.
#[inline(always)]
fn begins_ascii(source: &Source<'_>, b: u8) -> bool
    requires { b < 128 }
    ensures { result ≡ begins (λ c. c == b) (rest source.now) }
{
    match source.peek_byte() {
        Some(next) => next == b,
        None => false,
    }
}

/// Whether the code point is a low surrogate.
fn is_low_surrogate(code_point: u32) -> bool
    ensures { result ≡ is_low_surrogate code_point }
{
    (FIRST_LOW_SURROGATE..=LAST_LOW_SURROGATE).contains(&code_point)
}

/// Passes the parts of names in ASCII, and tells the character behind them, where it is a part too.
#[inline(always)]
fn pass_parts(source: &mut Source<'_>) -> Option<char>
    ensures text { source.new.text ≡ source.old.text }
    ensures rest { from_first is_no_part (rest source.new) ≡ from_first is_no_part (rest source.old) }
    ensures none { IfNone result (from_first is_no_part (rest source.new) ≡ rest source.new) }
    ensures some { IfSome result (λ c. BeginsWith c (rest source.new)) }
    ensures part { IfSome result (λ c. is_identifier_part c ≡ true) }
    ensures onward { source.old.place ≤ source.new.place }
    ensures fewer { length (rest source.new) ≤ length (rest source.old) }
{
    let b = source.pass_ascii(name_parts())?;
    if b < 128 {
        return None;
    }
    let c = source.peek_char()?;
    if !is_identifier_part(c) {
        return None;
    }
    Some(c)
}

/// Goes to the first character that is no part of a name.
#[inline(always)]
pub(crate) fn skip_parts(source: &mut Source<'_>)
    ensures text { source.new.text ≡ source.old.text }
    ensures rest { rest source.new ≡ from_first is_no_part (rest source.old) }
    ensures onward { source.old.place ≤ source.new.place }
{
    while let Some(c) = pass_parts(source) {
        source.pass_char(c);
    }
}

/// Passes the characters of the name that begins here up to its first escape, or its end, and tells where in the name
/// the source stands then.
#[inline(always)]
fn pass_unescaped(source: &mut Source<'_>) -> Position
    requires { begins_name (rest source.old) ≡ true }
    ensures passes { PassesUnescaped source.old result source.new }
    ensures onward { source.old.place ≤ source.new.place }
{
    if begins_ascii(source, b'\\') {
        return Position::First;
    }
    source.next_char();
    skip_parts(source);
    Position::Later
}

/// Takes the escape of a low surrogate by four digits, if one is next, or some of what is.
fn take_low_surrogate(source: &mut Source<'_>) -> bool
    ensures text { source.new.text ≡ source.old.text }
    ensures taken { MatchBool result (rest source.old ≡ low_surrogate_escape (rest source.old) ++ rest source.new)
        (low_surrogate_escape (rest source.old) ≡ []) }
{
    if !source.advance_if_ascii_eq(b'\\') {
        return false;
    }
    if !source.advance_if_ascii_eq(b'u') {
        return false;
    }
    match read_hex_digits(source, 4) {
        Some(value) => is_low_surrogate(value),
        None => false,
    }
}

/// Passes the escape of a low surrogate by four digits, if one is next.
fn pass_low_surrogate(source: &mut Source<'_>)
    ensures text { source.new.text ≡ source.old.text }
    ensures passed { rest source.old ≡ low_surrogate_escape (rest source.old) ++ rest source.new }
{
    let start = source.position();
    if !take_low_surrogate(source) {
        source.set_position(start);
    }
}

/// Reads an escape behind its `\u`.
fn decode_unicode(source: &mut Source<'_>, position: Position) -> Decoding
    ensures { DecodesUnicode position source.old result source.new }
{
    let is_braced = begins_ascii(source, b'{');
    let value = match read_unicode_escape(source) {
        Some(value) => value,
        None => return Decoding::Bad,
    };
    if let Some(c) = char::from_u32(value) {
        if position.allows(c) {
            return Decoding::Character(c);
        }
        return Decoding::NotAllowed(c);
    }
    if is_braced {
        return Decoding::Bad;
    }
    if value < FIRST_LOW_SURROGATE {
        pass_low_surrogate(source);
    }
    Decoding::Bad
}

/// Reads an escape behind its `\`.
fn decode_escape(source: &mut Source<'_>, position: Position) -> Decoding
    ensures { DecodesEscape position source.old result source.new }
{
    if !source.advance_if_ascii_eq(b'u') {
        source.next_char();
        return Decoding::Bad;
    }
    decode_unicode(source, position)
}

/// Reads the escape that is next, and gives the character that it stands for. None: it is at fault, which was reported.
fn read_escape(
    source: &mut Source<'_>,
    errors: &mut DiagnosticList,
    position: Position,
) -> Result<Option<char>, AllocError>
    requires { begins (λ c. c == backslash) (rest source.old) ≡ true }
    ensures ok { IfOk result (λ c. ReadsEscape position source.old source.new errors.old errors.new c) }
    ensures err { OnErr result (BreaksOff [] source.old source.new errors.old errors.new) }
{
    source.next_char();
    let start = source.offset();
    let decoding = decode_escape(source, position);
    let end = source.offset();
    match decoding {
        Decoding::Character(c) => return Ok(Some(c)),
        Decoding::NotAllowed(c) => {
            let span = Span::empty(end);
            errors.push(Diagnostic::InvalidCharacter { c, span })?;
        }
        Decoding::Bad => {
            let span = Span::new(start, end);
            errors.push(Diagnostic::UnicodeEscapeSequence { span })?;
        }
    }
    Ok(None)
}

/// Reads the escape that is next, and adds what it stands for to the text.
fn read_escape_into(
    source: &mut Source<'_>,
    errors: &mut DiagnosticList,
    position: Position,
    decoded: &mut String,
) -> Result<(), AllocError>
    requires { begins (λ c. c == backslash) (rest source.old) ≡ true }
    ensures ok { OnOk result (ReadsItems position source.old Later source.new errors.old errors.new
        (string_bytes decoded.old) (string_bytes decoded.new) true) }
    ensures fewer { OnOk result (length (rest source.new) < length (rest source.old)) }
    ensures err { OnErr result (BreaksOff (items_told position source.old)
        source.old source.new errors.old errors.new) }
{
    if let Some(c) = read_escape(source, errors, position)? {
        decoded.push(c)?;
    }
    Ok(())
}

/// Reads the parts that are next and stand for themselves, and adds them to the text.
fn read_parts_into(source: &mut Source<'_>, decoded: &mut String) -> Result<(), AllocError>
    ensures text { source.new.text ≡ source.old.text }
    ensures onward { source.old.place ≤ source.new.place }
    ensures ok { OnOk result (PassesParts source.old source.new (string_bytes decoded.old) (string_bytes decoded.new)) }
{
    let start = source.position();
    skip_parts(source);
    decoded.push_str(source.str_from_pos_to_current(start))
}

/// Reads the rest of a name, and adds what it stands for to the text.
fn read_rest_into(
    source: &mut Source<'_>,
    errors: &mut DiagnosticList,
    decoded: &mut String,
) -> Result<(), AllocError>
    ensures ok { OnOk result ((has_escape : Bool) × ReadsToEnd Later source.old source.new errors.old errors.new
        (string_bytes decoded.old) (string_bytes decoded.new) has_escape) }
    ensures err { OnErr result (BreaksOff (items_told Later source.old) source.old source.new errors.old errors.new) }
{
    'parts: loop {
        read_parts_into(source, decoded)?;
        if !begins_ascii(source, b'\\') {
            return Ok(());
        }
        read_escape_into(source, errors, Position::Later, decoded)?;
    }
}

/// Reads a name on from its first escape, behind its front beginning, and gives the text that it stands for.
fn decode_name(
    alloc: Global,
    source: &mut Source<'_>,
    errors: &mut DiagnosticList,
    position: Position,
    front: &str,
) -> Result<String, AllocError>
    requires { begins (λ c. c == backslash) (rest source.old) ≡ true }
    ensures ok { IfOk result (λ text. ReadsToEnd position source.old source.new errors.old errors.new
        front.now (string_bytes text) true) }
    ensures err { OnErr result (BreaksOff (items_told position source.old)
        source.old source.new errors.old errors.new) }
{
    let mut decoded = String::with_capacity(alloc, front.len() + MORE_BYTES)?;
    decoded.push_str(front)?;
    read_escape_into(source, errors, position, &mut decoded)?;
    read_rest_into(source, errors, &mut decoded)?;
    Ok(decoded)
}

/// The kind and the value of a name that stands for the text.
fn spell_decoded(alloc: Global, text: &str) -> Result<Spelt, AllocError>
    ensures kind { IfOk result (λ spelt. spelt.kind ≡ name_kind text.now) }
    ensures value { IfOk result (λ spelt. spelt.value ≡ Decoded (units_of (chars text.now))) }
{
    let mut units = JSStrBuilder::with_capacity_in(alloc, text.len())?;
    units.push_str(text)?;
    Ok(Spelt {
        kind: Kind::match_keyword(text),
        value: SpeltValue::Decoded(units.into_js_str()),
    })
}

/// Reads a name on from its first escape, behind its front beginning.
#[inline(never)]
fn read_escaped_name(
    alloc: Global,
    source: &mut Source<'_>,
    errors: &mut DiagnosticList,
    position: Position,
    front: &str,
) -> Result<Spelt, AllocError>
    requires { begins (λ c. c == backslash) (rest source.old) ≡ true }
    ensures ok { IfOk result (λ spelt.
        SpellsDecoded position source.old source.new errors.old errors.new front.now spelt) }
    ensures err { OnErr result (BreaksOff (items_told position source.old)
        source.old source.new errors.old errors.new) }
{
    let text = decode_name(alloc, source, errors, position, front)?;
    spell_decoded(alloc, text.as_str())
}

/// Reads the name that is next, good or at fault (ECMA-262 12.7): its kind is that of the word that it stands for. What
/// is to be reported is added to the list, and the flags of the token are set, whose start is where the name begins. A
/// name without escapes asks for no memory, and its value stays in the source. After an error the source stands at its
/// start or behind it in the same text, and what was reported is a beginning of what the reading of the name reports.
#[inline(always)]
pub fn read_name(
    alloc: Global,
    source: &mut Source<'_>,
    errors: &mut DiagnosticList,
    token: &mut Token,
) -> Result<Spelt, AllocError>
    requires { begins_name (rest source.old) ≡ true }
    ensures ok { IfOk result (λ spelt.
        Spells (name_reading (rest source.old)) source.old.place source.old source.new errors.old errors.new token.old
        token.new spelt) }
    ensures err { OnErr result (BreaksOff (reported_at source.old.place (name_reading (rest source.old)))
        source.old source.new errors.old errors.new) }
    ensures token { OnErr result (token.new ≡ token.old) }
{
    let start = source.position();
    let position = pass_unescaped(source);
    let front = source.str_from_pos_to_current(start);
    if !begins_ascii(source, b'\\') {
        token.set_escaped(false);
        token.set_has_separator(false);
        return Ok(Spelt {
            kind: Kind::match_keyword(front),
            value: SpeltValue::Plain,
        });
    }
    let spelt = read_escaped_name(alloc, source, errors, position, front)?;
    token.set_escaped(true);
    token.set_has_separator(false);
    Ok(spelt)
}

/// The place of the first character that is no part of a name, if that is no `\`.
#[inline(never)]
fn end_without_escape(source: Source<'_>) -> Option<SourcePosition>
    ensures none { IfNone result
        (begins (λ c. c == backslash) (from_first is_no_part (rest source.entry)) ≡ true) }
    ensures rest { IfSome result (λ end. from_place source.entry.text end
        ≡ from_first is_no_part (rest source.entry)) }
    ensures plain { IfSome result (λ end. begins (λ c. c == backslash) (from_place source.entry.text end) ≡ false) }
    ensures onward { IfSome result (λ end. source.entry.place ≤ end) }
    ensures boundary { IfSome result (IsCharBoundary source.entry.text) }
{
    let mut source = source;
    skip_parts(&mut source);
    if begins_ascii(&source, b'\\') {
        return None;
    }
    Some(source.position())
}

/// Passes the characters of the name that begins with the ASCII character `b`, up to its end, and tells whether no escape
/// stands in it; most names have ASCII characters alone, and end before a character that stands before `\`.
#[inline(always)]
fn pass_name(source: &mut Source<'_>, parts: &[bool; 256], b: u8) -> bool
    requires parts { TellsClass is_identifier_part parts.now }
    requires ascii { b < 128 }
    requires next { HasFirstByte b (rest source.old) }
    requires begun { begins_name (rest source.old) ≡ true }
    requires unescaped { b ≡ backslash → ⊥ }
    ensures passes { result ≡ true → PassesUnescaped source.old Later source.new }
    ensures ends { result ≡ true → begins (λ c. c == backslash) (rest source.new) ≡ false }
    ensures none { result ≡ false → MeetsEscape (rest source.old) }
    ensures text { source.new.text ≡ source.old.text }
    ensures onward { source.old.place ≤ source.new.place }
{
    source.next_ascii(b);
    let next = match source.pass_ascii(parts) {
        Some(next) => next,
        None => return true,
    };
    if next < b'\\' {
        return true;
    }
    match end_without_escape(source.here()) {
        Some(end) => {
            source.set_position(end);
            true
        }
        None => false,
    }
}

/// Reads the name that is next and begins with the ASCII character `b`, which is no `\`, where no escape stands in it
/// (ECMA-262 12.7). None: one does, and the source stands somewhere in the same text. The table is that of
/// `name_parts`, handed in from where the caller has it: a loop over a static takes its address anew at every few
/// bytes.
#[inline(always)]
pub fn read_unescaped_name_by(source: &mut Source<'_>, parts: &[bool; 256], b: u8) -> Option<Kind>
    requires parts { TellsClass is_identifier_part parts.now }
    requires ascii { b < 128 }
    requires next { HasFirstByte b (rest source.old) }
    requires begun { begins_name (rest source.old) ≡ true }
    requires unescaped { b ≡ backslash → ⊥ }
    ensures some { IfSome result (SpellsUnescapedName source.old source.new) }
    ensures none { IfNone result (MeetsEscape (rest source.old)) }
    ensures text { source.new.text ≡ source.old.text }
{
    let start = source.position();
    if !pass_name(source, parts, b) {
        return None;
    }
    let from = source.offset_of(start) as usize;
    let to = source.offset() as usize;
    Some(match_keyword_between(source.whole().as_bytes(), from, to))
}

/// Reads the name that is next and begins with the ASCII character `b`, where no escape stands in it (ECMA-262 12.7).
/// None: one does, and the source stands somewhere in the same text.
#[inline(always)]
pub fn read_unescaped_name(source: &mut Source<'_>, b: u8) -> Option<Kind>
    requires ascii { b < 128 }
    requires next { HasFirstByte b (rest source.old) }
    requires begun { begins_name (rest source.old) ≡ true }
    ensures some { IfSome result (SpellsUnescapedName source.old source.new) }
    ensures none { IfNone result (MeetsEscape (rest source.old)) }
    ensures text { source.new.text ≡ source.old.text }
{
    if b == b'\\' {
        return None;
    }
    read_unescaped_name_by(source, name_parts(), b)
}

/// Whether a name is next, good or at fault.
pub fn begins_name(source: &Source<'_>) -> bool
    ensures { result ≡ begins_name (rest source.now) }
{
    match source.peek_char() {
        Some(c) => is_identifier_start(c) || c == '\\',
        None => false,
    }
}

/// Whether the byte is an ASCII character that begins a name and no escape.
#[inline(always)]
fn is_unescaped_start(b: u8) -> bool
    ensures { MatchBool result ((b < 128) × (is_identifier_start b ≡ true))
        ((128 ≤ b) ⊎ (is_identifier_start b ≡ false)) }
{
    if b >= 128 {
        return false;
    }
    is_identifier_start(b as char)
}

/// Reads the name behind a `#` that was just read, where it begins with an ASCII character and no escape stands in it
/// (ECMA-262 12.7). None: something else stands there, and the source stands somewhere in the same text.
#[inline(always)]
pub fn read_unescaped_private_name(source: &mut Source<'_>) -> Option<Kind>
    ensures some { IfSome result (SpellsUnescapedPrivateName source.old source.new) }
    ensures none { IfNone result (MeetsNoUnescapedName (rest source.old)) }
    ensures text { source.new.text ≡ source.old.text }
{
    let b = source.peek_byte()?;
    if !is_unescaped_start(b) {
        return None;
    }
    read_unescaped_name(source, b)?;
    Some(Kind::PrivateIdentifier)
}

/// Reports that no name follows a `#`, and gives the kind of the token.
fn report_no_name(source: &mut Source<'_>, errors: &mut DiagnosticList) -> Result<Kind, AllocError>
    ensures text { source.new.text ≡ source.old.text }
    ensures onward { source.old.place ≤ source.new.place }
    ensures ok { IfOk result (λ kind. ReportsNoName source.old errors.old errors.new kind) }
    ensures err { OnErr result (errors.new ≡ errors.old) }
{
    let start = source.offset();
    match source.next_char() {
        Some(c) => {
            let span = Span::new(start, source.offset());
            errors.push(Diagnostic::InvalidCharacter { c, span })?;
            Ok(Kind::Eof)
        }
        None => {
            let span = Span::empty(start);
            errors.push(Diagnostic::UnexpectedEnd { span })?;
            Ok(Kind::Undetermined)
        }
    }
}

/// Reads what follows a `#` that was just read (ECMA-262 12.7): a name, good or at fault, or what is read where no name
/// follows. The value leaves `#` out. What is to be reported is added to the list, and the flags of the token are set,
/// whose start is where the `#` stands. After an error the source stands at its start or behind it in the same text,
/// and what was reported is a beginning of what this reading reports.
pub fn read_private_name(
    alloc: Global,
    source: &mut Source<'_>,
    errors: &mut DiagnosticList,
    token: &mut Token,
) -> Result<Spelt, AllocError>
    ensures ok { IfOk result (λ spelt. (start : ℕ) → start + 1 ≡ source.old.place
        → Spells (behind_sign (rest source.old)) start source.old source.new errors.old errors.new token.old token.new
        spelt) }
    ensures err { OnErr result ((start : ℕ) → start + 1 ≡ source.old.place
        → BreaksOff (reported_at start (behind_sign (rest source.old))) source.old source.new errors.old errors.new) }
    ensures token { OnErr result (token.new ≡ token.old) }
{
    if begins_name(source) {
        let spelt = read_name(alloc, source, errors, token)?;
        return Ok(Spelt {
            kind: Kind::PrivateIdentifier,
            value: spelt.value,
        });
    }
    let kind = report_no_name(source, errors)?;
    source.advance_to_end();
    token.set_escaped(false);
    token.set_has_separator(false);
    Ok(Spelt {
        kind,
        value: SpeltValue::Plain,
    })
}
