//! Reading regular expressions (ECMA-262 12.9.5).

ghost use Rattle.std.specs.Prelude.{◌≡◌, ◌+◌, ◌≤◌, ◌<◌, ◌^◌, [], List, ℕ, true, false, IfOk, OnErr};
ghost use Rattle.std.specs.Prelude.{IfNone, IfSome, ◌==◌, not};
ghost use Rattle.js_text.specs.Ascii.{backslash};
ghost use Rattle.js_text.specs.Characters.{begins, is_line_terminator};
ghost use Rattle.js_grammar.specs.RegularExpression.{is_flag_character};
ghost use Rattle.js_grammar.specs.Reading.{reported_at};
ghost use Rattle.js_grammar.specs.RegularExpression.{regular_expression};
ghost use Rattle.js_source.specs.Source.{rest, BeginsWith};
ghost use Rattle.js_source.specs.Runs.{TellsClass};
ghost use Rattle.js_spell.specs.Breaks.{BreaksOff};
ghost use Rattle.js_spell.specs.RegularExpression.{PassesParts, StopIs, marks, PassesBackslash};
ghost use Rattle.js_spell.specs.RegularExpression.{AddsLetter, BreaksLine, PassesClass, PassesBody, SpellsExpression};
ghost use Rattle.js_spell.specs.RegularExpression.{SpellsFlags, flags_told};
ghost use Rattle.js_spell.specs.RegularExpression.{TakesLetter};

use crate::parts::name_parts;
use bitflags::Flags;
use js_source::{Source, of_each_byte};
use js_text::{
    Diagnostic, DiagnosticList, RegExpFlags, RegexInfo, Span, either, is_line_terminator,
};
use std::alloc::AllocError;

/// What the characters stand in.
#[derive(Clone, Copy)]
enum Within {
    /// The body of a regular expression, outside a class.
    Body,
    /// A class, between its brackets.
    Class,
}

/// What stands where no character stands for itself.
#[derive(Clone, Copy)]
enum Stop {
    /// A `\`.
    Backslash,
    /// The `[` that begins a class in a body.
    Opening,
    /// The `/` that ends a body, or the `]` that ends a class.
    Closing,
    /// A line terminator, or the end of the source.
    LineEnd,
}

/// ASCII, and none of `\`, `[`, `/`, LF and CR.
macro_rules! stands_in_body {
    ($byte:literal) => {
        $byte < 128
            && $byte != b'\\'
            && $byte != b'['
            && $byte != b'/'
            && $byte != b'\n'
            && $byte != b'\r'
    };
}

/// The ASCII characters that stand for themselves in the body of a regular expression.
static BODY: [bool; 256] = of_each_byte!(stands_in_body);

/// ASCII, and none of `\`, `]`, LF and CR.
macro_rules! stands_in_class {
    ($byte:literal) => {
        $byte < 128 && $byte != b'\\' && $byte != b']' && $byte != b'\n' && $byte != b'\r'
    };
}

/// The ASCII characters that stand for themselves in a class.
static CLASS: [bool; 256] = of_each_byte!(stands_in_class);

/// The table of the ASCII characters that stand for themselves.
#[inline(always)]
fn table_of(within: Within) -> &'static [bool; 256]
    ensures { TellsClass (λ b. not (marks within b)) result.now }
{
    match within {
        Within::Body => &BODY,
        Within::Class => &CLASS,
    }
}

/// What the ASCII character is that does not stand for itself in a body.
fn body_stop(b: u8) -> Stop
    requires { marks Within.Body b ≡ true }
    ensures { (text : List ℕ) → BeginsWith b text → StopIs Within.Body result text }
{
    if b == b'/' {
        return Stop::Closing;
    }
    if b == b'[' {
        return Stop::Opening;
    }
    if b == b'\\' {
        return Stop::Backslash;
    }
    Stop::LineEnd
}

/// What the ASCII character is that does not stand for itself in a class.
fn class_stop(b: u8) -> Stop
    requires { marks Within.Class b ≡ true }
    ensures { (text : List ℕ) → BeginsWith b text → StopIs Within.Class result text }
{
    if b == b']' {
        return Stop::Closing;
    }
    if b == b'\\' {
        return Stop::Backslash;
    }
    Stop::LineEnd
}

/// What the ASCII character is that does not stand for itself.
fn stop_of(within: Within, b: u8) -> Stop
    requires { marks within b ≡ true }
    ensures { (text : List ℕ) → BeginsWith b text → StopIs within result text }
{
    match within {
        Within::Body => body_stop(b),
        Within::Class => class_stop(b),
    }
}

/// Whether a line terminator is next.
fn begins_line_end(source: &Source<'_>) -> bool
    ensures { result ≡ begins is_line_terminator (rest source.now) }
{
    match source.peek_char() {
        Some(c) => is_line_terminator(c),
        None => false,
    }
}

/// Passes the characters that stand for themselves, and tells what is next.
#[inline(always)]
fn pass_characters(source: &mut Source<'_>, within: Within) -> Stop
    ensures passes { PassesParts within source.old source.new }
    ensures stop { StopIs within result (rest source.new) }
{
    let table = table_of(within);
    'characters: loop {
        match source.pass_ascii(table) {
            None => return Stop::LineEnd,
            Some(b) => {
                if b < 128 {
                    return stop_of(within, b);
                }
                if begins_line_end(source) {
                    return Stop::LineEnd;
                }
                source.next_char();
            }
        }
    }
}

/// Passes the `\` that is next and the character behind it, and tells whether there is one that ends no line; if not,
/// only the `\` is passed.
fn pass_backslash_sequence(source: &mut Source<'_>) -> bool
    requires { begins (λ c. c == backslash) (rest source.old) ≡ true }
    ensures { PassesBackslash source.old source.new result }
{
    source.next_char();
    match source.peek_char() {
        Some(c) if !is_line_terminator(c) => {
            source.next_char();
            true
        }
        _ => false,
    }
}

/// Passes a class behind its `[`, and tells whether a `]` ends it; if not, the source stands where the line ends.
fn pass_class(source: &mut Source<'_>) -> bool
    ensures { PassesClass source.old source.new result }
{
    'class: loop {
        match pass_characters(source, Within::Class) {
            Stop::Closing => {
                source.next_char();
                return true;
            }
            Stop::Backslash => {
                if !pass_backslash_sequence(source) {
                    return false;
                }
            }
            Stop::LineEnd => return false,
            Stop::Opening => unreachable!(),
        }
    }
}

/// Passes the body of a regular expression, and tells whether a `/` ends it, which is next then; if not, the source
/// stands where the line ends.
fn pass_body(source: &mut Source<'_>) -> bool
    ensures { PassesBody source.old source.new result }
{
    'body: loop {
        match pass_characters(source, Within::Body) {
            Stop::Closing => return true,
            Stop::Backslash => {
                if !pass_backslash_sequence(source) {
                    return false;
                }
            }
            Stop::Opening => {
                source.next_char();
                if !pass_class(source) {
                    return false;
                }
            }
            Stop::LineEnd => return false,
        }
    }
}

/// Takes the next letter of flags, if there is one.
fn take_letter(source: &mut Source<'_>) -> Option<u8>
    ensures none { IfNone result ((begins is_flag_character (rest source.old) ≡ false) × (source.new ≡ source.old)) }
    ensures some { IfSome result (TakesLetter source.old source.new) }
{
    let b = source.peek_byte()?;
    if !name_parts()[b as usize] {
        return None;
    }
    source.next_char();
    Some(b)
}

/// Adds the flag of a letter that stands at the offset, or reports that it is no flag's or that its flag was there
/// before; and tells whether it was reported.
fn add_letter(
    errors: &mut DiagnosticList,
    flags: &mut RegExpFlags,
    letter: u8,
    at: u32,
) -> Result<bool, AllocError>
    requires { at + 1 < 2 ^ 32 }
    ensures ok { IfOk result (AddsLetter flags.old flags.new at letter errors.old errors.new) }
    ensures err { OnErr result (errors.new ≡ errors.old) }
{
    let c = letter as char;
    let span = Span::sized(at, 1);
    let flag = match RegExpFlags::of_letter(letter) {
        Some(flag) => flag,
        None => {
            errors.push(Diagnostic::RegExpFlag { c, span })?;
            return Ok(true);
        }
    };
    let is_there = flags.contains(flag);
    flags.insert(flag);
    if is_there {
        errors.push(Diagnostic::RegExpFlagTwice { c, span })?;
    }
    Ok(is_there)
}

/// Reads the flags behind the `/` that ends a pattern at the offset.
fn read_flags(
    source: &mut Source<'_>,
    errors: &mut DiagnosticList,
    pattern_end: u32,
) -> Result<RegexInfo, AllocError>
    requires { pattern_end + 1 ≡ source.old.place }
    ensures ok { IfOk result (SpellsFlags pattern_end source.old source.new
        errors.old errors.new) }
    ensures err { OnErr result (BreaksOff (flags_told pattern_end (rest source.old))
        source.old source.new errors.old errors.new) }
{
    let mut flags = RegExpFlags::empty();
    let mut flags_error = false;
    let mut at = source.offset();
    'letters: while let Some(letter) = take_letter(source) {
        let is_faulty = add_letter(errors, &mut flags, letter, at)?;
        flags_error = either(flags_error, is_faulty);
        at = source.offset();
    }
    Ok(RegexInfo {
        pattern_end,
        flags,
        flags_error,
    })
}

/// Reports a regular expression that begins at the offset and has no end, up to behind the line terminator that is
/// next, and goes to the end of the source.
fn report_unterminated(
    source: &mut Source<'_>,
    errors: &mut DiagnosticList,
    start: u32,
) -> Result<RegexInfo, AllocError>
    requires { start ≤ source.old.place }
    ensures ok { IfOk result (BreaksLine start source.old source.new errors.old errors.new) }
    ensures err { OnErr result (BreaksOff [] source.old source.new errors.old errors.new) }
{
    source.next_char();
    let span = Span::new(start, source.offset());
    errors.push(Diagnostic::UnterminatedRegExp { span })?;
    source.advance_to_end();
    Ok(RegexInfo {
        pattern_end: source.offset(),
        flags: RegExpFlags::empty(),
        flags_error: false,
    })
}

/// Reads a regular expression behind the `/` that begins it, which stands at the offset, good or at fault: what is to
/// be reported is added to the list. One that a line or the source ends before its pattern does takes the rest of the
/// source. It asks for no memory but for what is reported.
pub fn read_regular_expression(
    source: &mut Source<'_>,
    errors: &mut DiagnosticList,
    start: u32,
) -> Result<RegexInfo, AllocError>
    requires { start + 1 ≡ source.old.place }
    ensures ok { IfOk result (SpellsExpression (regular_expression (rest source.old)) start source.old source.new
        errors.old errors.new) }
    ensures err { OnErr result (BreaksOff (reported_at start (regular_expression (rest source.old)))
        source.old source.new errors.old errors.new) }
{
    if !pass_body(source) {
        return report_unterminated(source, errors, start);
    }
    let pattern_end = source.offset();
    source.next_char();
    read_flags(source, errors, pattern_end)
}
