//! Reading the items of strings and templates.

ghost use Rattle.std.specs.Prelude.{◌≡◌, ◌≤◌, ◌==◌, ◌++◌, ◌∷◌, [], List, ℕ, true, false, not, None, IfOk, OnOk};
ghost use Rattle.std.specs.Prelude.{OnErr};
ghost use Rattle.js_text.specs.Ascii.{backslash, carriage_return};
ghost use Rattle.js_text.specs.Characters.{begins};
ghost use Rattle.js_text.specs.declared.diagnostic.Diagnostic.{Diagnostic};
ghost use Rattle.js_source.specs.Source.{rest, At, GoesTo};
ghost use Rattle.js_spell.specs.Breaks.{BreaksOff};
ghost use Rattle.js_spell.specs.Strings.{ordinary_here, ReadsItems, ReadsOneItem, ReadsStopItem, ReadsValue};
ghost use Rattle.js_spell.specs.Strings.{StopIs, PassesCharacters, escape_here, is_end, item_of, decoded_value};
ghost use Rattle.js_spell.specs.Strings.{items_told};
ghost use Rattle.std.specs.Prelude.{MatchOption};
ghost use Rattle.std.specs.Str.{IsCharBoundary};
ghost use Rattle.js_text.specs.declared.diagnostic.Diagnostic.TheVariants.{InvalidEscapeSequence};
ghost use Rattle.js_grammar.specs.StringItems.{stretch};
ghost use Rattle.js_source.specs.Source.{HasFirstByte};
ghost use Rattle.js_spell.specs.declared.ordinary.Literal.TheVariants.{Template};

use crate::escape::read_escape;
use crate::ordinary::{Literal, pass_characters, pass_to_mark};
use crate::spelt::SpeltValue;
use js_kind::Token;
use js_source::{Source, SourcePosition};
use js_text::{Diagnostic, DiagnosticList, JSStrBuilder, Span, either};
use std::alloc::{AllocError, Global};

/// Passes characters that stand for themselves, and adds their units.
fn copy_characters(
    source: &mut Source<'_>,
    literal: Literal,
    text: &mut JSStrBuilder,
) -> Result<(), AllocError>
    ensures ok { OnOk result ((start : ℕ) (errors : List Diagnostic)
        → ReadsItems literal start source.old source.new text.old text.new errors errors false) }
    ensures all { ordinary_here literal (rest source.new) ≡ false }
    ensures same_text { source.new.text ≡ source.old.text }
    ensures onward { source.old.place ≤ source.new.place }
{
    let from = source.position();
    pass_characters(source, literal);
    text.push_str(source.str_from_pos_to_current(from))
}

/// Reports an escape of a string that stands for nothing, from its `\` up to where the source stands.
fn report_bad_escape(
    source: &Source<'_>,
    errors: &mut DiagnosticList,
    from: u32,
) -> Result<(), AllocError>
    requires { from ≤ source.now.place }
    ensures ok { OnOk result (errors.new ≡ errors.old ++ InvalidEscapeSequence (stretch from source.now.place) ∷ []) }
    ensures err { OnErr result (errors.new ≡ errors.old) }
{
    let span = Span::new(from, source.offset());
    errors.push(Diagnostic::InvalidEscapeSequence { span })
}

/// Reads the escape whose `\` is next, and tells whether it is one; a bad one is reported in a string.
fn read_escape_item(
    source: &mut Source<'_>,
    literal: Literal,
    text: &mut JSStrBuilder,
    errors: &mut DiagnosticList,
    token: &Token,
) -> Result<bool, AllocError>
    requires start { token.now.start ≤ source.old.place }
    requires escape { begins (λ c. c == backslash) (rest source.old) ≡ true }
    ensures ok { IfOk result (λ is_good. ReadsOneItem literal token.now.start source.old source.new
        text.old text.new errors.old errors.new (not is_good)) }
    ensures err { OnErr result (BreaksOff [] source.old source.new errors.old errors.new) }
    ensures onward { source.old.place ≤ source.new.place }
{
    let from = source.offset();
    source.next_char();
    let is_good = read_escape(source, text, errors, token, literal.is_template())?;
    if is_good {
        return Ok(true);
    }
    if !literal.is_template() {
        report_bad_escape(source, errors, from)?;
    }
    Ok(false)
}

/// Reads the CR that is next in a template, and a LF behind it: both stand for one LF.
fn read_carriage_return(source: &mut Source<'_>, text: &mut JSStrBuilder) -> Result<(), AllocError>
    requires { begins (λ c. c == carriage_return) (rest source.old) ≡ true }
    ensures ok { OnOk result ((start : ℕ) (errors : List Diagnostic)
        → ReadsOneItem Template start source.old source.new text.old text.new errors errors false) }
    ensures same_text { source.new.text ≡ source.old.text }
    ensures onward { source.old.place ≤ source.new.place }
{
    source.next_char();
    source.advance_if_ascii_eq(b'\n');
    text.push_unit(0x0A)
}

/// What stands where no character stands for itself.
#[derive(Clone, Copy)]
enum Stop {
    /// The `\` of an escape.
    Escape,
    /// A CR of a template.
    CarriageReturn,
    /// The end of the items.
    End,
}

impl Stop {
    /// Whether the items end here.
    fn is_end(self) -> bool
        ensures { result ≡ is_end self }
    {
        match self {
            Stop::End => true,
            Stop::Escape | Stop::CarriageReturn => false,
        }
    }
}

/// What is next where no character stands for itself, by its first byte.
fn find_stop(literal: Literal, next: Option<u8>) -> Stop
    ensures { (text : List ℕ) → MatchOption next (text ≡ []) (λ b. HasFirstByte b text) → StopIs literal result text }
{
    let b = match next {
        Some(b) => b,
        None => return Stop::End,
    };
    if b == b'\\' {
        return Stop::Escape;
    }
    if b != b'\r' {
        return Stop::End;
    }
    if literal.is_template() {
        Stop::CarriageReturn
    } else {
        Stop::End
    }
}

/// Reads an escape, or a CR of a template, and tells whether it is a good one. None: neither is next.
fn read_marked_item(
    source: &mut Source<'_>,
    literal: Literal,
    text: &mut JSStrBuilder,
    errors: &mut DiagnosticList,
    token: &Token,
) -> Result<Option<bool>, AllocError>
    requires start { token.now.start ≤ source.old.place }
    requires marked { ordinary_here literal (rest source.old) ≡ false }
    ensures ok { IfOk result (ReadsStopItem literal token.now.start source.old source.new
        text.old text.new errors.old errors.new) }
    ensures err { OnErr result (BreaksOff [] source.old source.new errors.old errors.new) }
    ensures onward { source.old.place ≤ source.new.place }
{
    match find_stop(literal, source.peek_byte()) {
        Stop::Escape => {
            let is_good = read_escape_item(source, literal, text, errors, token)?;
            Ok(Some(is_good))
        }
        Stop::CarriageReturn => {
            read_carriage_return(source, text)?;
            Ok(Some(true))
        }
        Stop::End => Ok(None),
    }
}

/// Reads all items that are left, from a place on where no character stands for itself, and tells whether a bad escape
/// is among them.
fn read_items(
    source: &mut Source<'_>,
    literal: Literal,
    text: &mut JSStrBuilder,
    errors: &mut DiagnosticList,
    token: &Token,
) -> Result<bool, AllocError>
    requires start { token.now.start ≤ source.old.place }
    requires marked { ordinary_here literal (rest source.old) ≡ false }
    ensures ok { IfOk result (ReadsItems literal token.now.start source.old source.new
        text.old text.new errors.old errors.new) }
    ensures ended { IfOk result (λ _. item_of literal (rest source.new) ≡ None) }
    ensures err { OnErr result (BreaksOff (items_told literal token.now.start source.old)
        source.old source.new errors.old errors.new) }
    ensures onward { source.old.place ≤ source.new.place }
{
    let mut has_bad = false;
    'items: while let Some(is_good) = read_marked_item(source, literal, text, errors, token)? {
        has_bad = either(has_bad, !is_good);
        copy_characters(source, literal, text)?;
    }
    Ok(has_bad)
}

/// The value of a literal with these units, by whether a bad escape is in it.
fn decoded(literal: Literal, has_bad: bool, text: JSStrBuilder) -> SpeltValue
    ensures { result ≡ decoded_value literal has_bad text }
{
    if !has_bad {
        return SpeltValue::Decoded(text.into_js_str());
    }
    if literal.is_template() {
        SpeltValue::Bad
    } else {
        SpeltValue::Decoded(text.into_js_str())
    }
}

/// Reads the items that are left where an escape, or a CR of a template, is next, behind the characters from a place
/// on, and gives their value.
fn read_decoded(
    alloc: Global,
    source: &mut Source<'_>,
    literal: Literal,
    from: SourcePosition,
    errors: &mut DiagnosticList,
    token: &Token,
) -> Result<SpeltValue, AllocError>
    requires boundary { IsCharBoundary source.old.text from }
    requires ordered { from ≤ source.old.place }
    requires start { token.now.start ≤ from }
    requires marked { ordinary_here literal (rest source.old) ≡ false }
    requires escaped { escape_here literal (rest source.old) ≡ true }
    ensures ok { IfOk result (λ value. (at : At) → GoesTo from source.old at → PassesCharacters literal at source.old
        → ReadsValue literal token.now.start at source.new errors.old errors.new value) }
    ensures err { OnErr result (BreaksOff (items_told literal token.now.start source.old)
        source.old source.new errors.old errors.new) }
    ensures onward { source.old.place ≤ source.new.place }
{
    let front = source.str_from_pos_to_current(from);
    let mut text = JSStrBuilder::with_capacity_in(alloc, front.len() + front.len() / 2)?;
    text.push_str(front)?;
    let has_bad = read_items(source, literal, &mut text, errors, token)?;
    Ok(decoded(literal, has_bad, text))
}

/// Reads the items behind the mark that begins a string or a part of a template, up to what ends them, and gives their
/// value.
#[inline(always)]
pub(crate) fn read_value(
    alloc: Global,
    source: &mut Source<'_>,
    literal: Literal,
    errors: &mut DiagnosticList,
    token: &Token,
) -> Result<SpeltValue, AllocError>
    requires { token.now.start ≤ source.old.place }
    ensures ok { IfOk result (ReadsValue literal token.now.start source.old source.new errors.old errors.new) }
    ensures err { OnErr result (BreaksOff (items_told literal token.now.start source.old)
        source.old source.new errors.old errors.new) }
    ensures onward { source.old.place ≤ source.new.place }
{
    let from = source.position();
    let next = pass_to_mark(source, literal);
    if find_stop(literal, next).is_end() {
        return Ok(SpeltValue::Plain);
    }
    read_decoded(alloc, source, literal, from, errors, token)
}
