//! Reading the parts of templates (ECMA-262 12.9.6).

ghost use Rattle.std.specs.Prelude.{◌≡◌, ℕ, ◌+◌, ◌≤◌, ◌==◌, [], ◌∷◌, IfOk, IfNone, IfSome, OnErr};
ghost use Rattle.js_source.specs.Source.{rest};
ghost use Rattle.js_grammar.specs.Reading.{reported_at};
ghost use Rattle.js_grammar.specs.Template.{template_part_reading};
ghost use Rattle.js_spell.specs.Breaks.{BreaksOff};
ghost use Rattle.js_spell.specs.Spells.{Spells};
ghost use Rattle.js_spell.specs.Strings.{EndsPart, SpellsUnescapedPart, MeetsNoPartEnd};

use crate::escape::report_unterminated;
use crate::items::read_value;
use crate::ordinary::{Literal, begins_substitution, pass_to_mark};
use crate::spelt::{Spelt, SpeltValue, spell};
use js_kind::{Kind, Token};
use js_source::Source;
use js_text::DiagnosticList;
use std::alloc::{AllocError, Global};

/// What ends a part of a template.
#[derive(Clone, Copy)]
enum PartEnd {
    /// A backquote.
    Tail,
    /// A `${`.
    Substitution,
    /// The end of the source.
    Missing,
}

/// Takes the mark that ends a part, or reports that it is missing; and tells which.
fn end_part(
    source: &mut Source<'_>,
    errors: &mut DiagnosticList,
    start: u32,
) -> Result<PartEnd, AllocError>
    requires { start ≤ source.old.place }
    ensures ok { IfOk result (EndsPart start source.old source.new errors.old errors.new) }
    ensures err { OnErr result (BreaksOff [] source.old source.new errors.old errors.new) }
{
    if source.advance_if_ascii_eq(b'`') {
        return Ok(PartEnd::Tail);
    }
    if begins_substitution(source) {
        source.next_2_chars();
        return Ok(PartEnd::Substitution);
    }
    source.next_char();
    report_unterminated(source, errors, start)?;
    Ok(PartEnd::Missing)
}

/// Reads a part of a template behind the backquote or the `}` that begins it, good or at fault: what is to be reported
/// is added to the list, and the flags of the token are set. Its start is where that mark stands. The kind is
/// `substitute` where a `${` ends the part, and `tail` where a backquote does. A part without an escape and without a
/// CR asks for no memory but for what is reported.
pub fn read_template_part(
    alloc: Global,
    source: &mut Source<'_>,
    errors: &mut DiagnosticList,
    token: &mut Token,
    substitute: Kind,
    tail: Kind,
) -> Result<Spelt, AllocError>
    requires { token.old.start + 1 ≡ source.old.place }
    ensures ok { IfOk result (λ spelt. (opening : ℕ)
        → Spells (template_part_reading substitute tail (opening ∷ rest source.old)) token.old.start
        source.old source.new errors.old errors.new token.old token.new spelt) }
    ensures err { OnErr result ((opening : ℕ) → BreaksOff
        (reported_at token.old.start (template_part_reading substitute tail (opening ∷ rest source.old)))
        source.old source.new errors.old errors.new) }
    ensures token { OnErr result (token.new ≡ token.old) }
{
    let value = read_value(alloc, source, Literal::Template, errors, token)?;
    match end_part(source, errors, token.start())? {
        PartEnd::Tail => Ok(spell(token, tail, value)),
        PartEnd::Substitution => Ok(spell(token, substitute, value)),
        PartEnd::Missing => Ok(spell(token, Kind::Undetermined, SpeltValue::Plain)),
    }
}

/// Reads a part of a template behind the backquote or the `}` that begins it, where no escape and no CR stands in it
/// and its mark ends it (ECMA-262 12.9.6). The kind is `substitute` where this is a `${`, and `tail` where it is a
/// backquote. None: it is another part, and the source stands somewhere in the same text.
#[inline(always)]
pub fn read_unescaped_part(source: &mut Source<'_>, substitute: Kind, tail: Kind) -> Option<Kind>
    ensures some { IfSome result (SpellsUnescapedPart substitute tail source.old source.new) }
    ensures none { IfNone result (MeetsNoPartEnd (rest source.old)) }
    ensures text { source.new.text ≡ source.old.text }
{
    let b = pass_to_mark(source, Literal::Template)?;
    if b == b'`' {
        source.next_ascii(b);
        return Some(tail);
    }
    if begins_substitution(source) {
        source.next_2_chars();
        return Some(substitute);
    }
    None
}
