//! Reading strings (ECMA-262 12.9.4).

ghost use Rattle.std.specs.Prelude.{◌≡◌, ◌<◌, ◌≤◌, [], true, false, IfOk, IfNone, IfSome, OnErr};
ghost use Rattle.js_text.specs.Characters.{begins};
ghost use Rattle.js_grammar.specs.Quoted.{quoted_reading};
ghost use Rattle.js_grammar.specs.Reading.{reported_at};
ghost use Rattle.js_grammar.specs.StringItems.{is_quote};
ghost use Rattle.js_source.specs.Source.{rest, Reads, HasFirstByte};
ghost use Rattle.js_spell.specs.Breaks.{BreaksOff};
ghost use Rattle.js_spell.specs.Spells.{Spells};
ghost use Rattle.js_spell.specs.Strings.{in_template, quote_of, TakesQuote, EndsString};
ghost use Rattle.js_spell.specs.Strings.{SpellsUnescapedString, MeetsNoQuote};

use crate::escape::report_unterminated;
use crate::items::read_value;
use crate::ordinary::{Literal, pass_to_mark};
use crate::spelt::{Spelt, SpeltValue, spell};
use js_kind::{Kind, Token};
use js_source::Source;
use js_text::DiagnosticList;
use std::alloc::{AllocError, Global};

/// Takes the quote that is next.
fn take_quote(source: &mut Source<'_>) -> Literal
    requires { begins is_quote (rest source.old) ≡ true }
    ensures { TakesQuote source.old source.new result }
{
    if source.advance_if_ascii_eq(b'"') {
        return Literal::DoubleQuoted;
    }
    source.next_char();
    Literal::SingleQuoted
}

/// The byte of a quote.
fn quote_of(literal: Literal) -> u8
    ensures { result ≡ quote_of literal }
{
    match literal {
        Literal::DoubleQuoted => b'"',
        Literal::SingleQuoted => b'\'',
        Literal::Template => b'`',
    }
}

/// Takes the quote that ends a string, or reports that it is missing, and takes what stands there; and tells which.
fn end_string(
    source: &mut Source<'_>,
    quote: u8,
    errors: &mut DiagnosticList,
    start: u32,
) -> Result<bool, AllocError>
    requires ascii { quote < 128 }
    requires start { start ≤ source.old.place }
    ensures ok { IfOk result (EndsString quote start source.old source.new errors.old errors.new) }
    ensures err { OnErr result (BreaksOff [] source.old source.new errors.old errors.new) }
{
    if source.advance_if_ascii_eq(quote) {
        return Ok(true);
    }
    source.next_char();
    report_unterminated(source, errors, start)?;
    Ok(false)
}

/// Reads the string that is next, good or at fault: what is to be reported is added to the list, and the flags of the
/// token are set. Its start is where the string begins. A string without an escape asks for no memory but for what is
/// reported.
pub fn read_string(
    alloc: Global,
    source: &mut Source<'_>,
    errors: &mut DiagnosticList,
    token: &mut Token,
) -> Result<Spelt, AllocError>
    requires quote { begins is_quote (rest source.old) ≡ true }
    requires start { token.old.start ≡ source.old.place }
    ensures ok { IfOk result (Spells (quoted_reading (rest source.old)) token.old.start
        source.old source.new errors.old errors.new token.old token.new) }
    ensures err { OnErr result (BreaksOff (reported_at token.old.start (quoted_reading (rest source.old)))
        source.old source.new errors.old errors.new) }
    ensures token { OnErr result (token.new ≡ token.old) }
{
    let literal = take_quote(source);
    let value = read_value(alloc, source, literal, errors, token)?;
    let is_closed = end_string(source, quote_of(literal), errors, token.start())?;
    if is_closed {
        return Ok(spell(token, Kind::Str, value));
    }
    Ok(spell(token, Kind::Undetermined, SpeltValue::Plain))
}

/// The string that a quote begins.
#[inline(always)]
fn literal_of(quote: u8) -> Literal
    requires { is_quote quote ≡ true }
    ensures string { in_template result ≡ false }
    ensures quote { quote_of result ≡ quote }
{
    if quote == b'"' {
        Literal::DoubleQuoted
    } else {
        Literal::SingleQuoted
    }
}

/// Reads the string that is next and begins with the quote, where no escape stands in it and the quote ends it
/// (ECMA-262 12.9.4). None: it is another, and the source stands somewhere in the same text.
#[inline(always)]
pub fn read_unescaped_string(source: &mut Source<'_>, quote: u8) -> Option<Kind>
    requires ascii { quote < 128 }
    requires next { HasFirstByte quote (rest source.old) }
    requires quote { is_quote quote ≡ true }
    ensures some { IfSome result (SpellsUnescapedString source.old source.new) }
    ensures none { IfNone result (MeetsNoQuote quote (rest source.old)) }
    ensures text { source.new.text ≡ source.old.text }
{
    let literal = literal_of(quote);
    source.next_ascii(quote);
    let b = pass_to_mark(source, literal)?;
    if b != quote {
        return None;
    }
    source.next_ascii(b);
    Some(Kind::Str)
}
