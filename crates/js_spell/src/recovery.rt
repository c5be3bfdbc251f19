//! Reading on where nothing is spelled.

ghost use Rattle.std.specs.Prelude.{◌≡◌, [], false, codes, length, IsSome};
ghost use Rattle.std.specs.List.{list_any};
ghost use Rattle.js_text.specs.Characters.{begins, is_line_terminator};
ghost use Rattle.js_grammar.specs.Gap.{is_prefix};
ghost use Rattle.js_grammar.specs.Number.{begins_number};
ghost use Rattle.js_grammar.specs.Quoted.{begins_quoted};
ghost use Rattle.js_grammar.specs.Recovery.{recovered};
ghost use Rattle.js_grammar.specs.Spelling.{begins_named};
ghost use Rattle.js_source.specs.Source.{rest, GoesTo};
ghost use Rattle.js_spell.specs.Recovery.{Recovers};

use crate::comment::skip_line;
use crate::sequence::advance_if_sequence;
use js_kind::Kind;
use js_source::Source;
use js_text::{Diagnostic, Span, either};

/// A token without a spelling, from where the reading began up to where the source stands, and what is reported.
#[derive(Clone, Copy, Debug)]
pub struct Recovered {
    pub kind: Kind,
    pub is_on_new_line: bool,
    pub diagnostic: Diagnostic,
}

/// Goes to the end, and tells whether a line terminator stands on the way.
fn skip_to_end(source: &mut Source<'_>) -> bool
    ensures end { GoesTo (length source.old.text) source.old source.new }
    ensures nothing { rest source.new ≡ [] }
    ensures line_end { result ≡ list_any is_line_terminator (rest source.old) }
{
    skip_line(source);
    let found = !source.is_eof();
    source.advance_to_end();
    found
}

/// Reads a character that begins nothing; from a U+FFFD, which stands for bytes that were no text, up to the end.
fn recover_character(source: &mut Source<'_>, line_has_ended: bool) -> Recovered
    requires some { IsSome (recovered (rest source.old)) }
    requires comment { is_prefix (codes "/*") (rest source.old) ≡ false }
    requires no_named { begins begins_named (rest source.old) ≡ false }
    requires no_number { begins_number (rest source.old) ≡ false }
    requires no_quoted { begins begins_quoted (rest source.old) ≡ false }
    ensures { Recovers line_has_ended source.old result source.new }
{
    let start = source.offset();
    match source.next_char() {
        None => unreachable!(),
        Some('\u{FFFD}') => {
            source.advance_to_end();
            Recovered {
                kind: Kind::Eof,
                is_on_new_line: line_has_ended,
                diagnostic: Diagnostic::FileAppearsToBeBinary,
            }
        }
        Some(c) => {
            let span = Span::new(start, source.offset());
            Recovered {
                kind: Kind::Undetermined,
                is_on_new_line: line_has_ended,
                diagnostic: Diagnostic::InvalidCharacter { c, span },
            }
        }
    }
}

/// Reads on where nothing is spelled and no number, no string and no template begins, and tells what is to be reported.
#[inline(never)]
pub fn recover(source: &mut Source<'_>, line_has_ended: bool) -> Recovered
    requires some { IsSome (recovered (rest source.old)) }
    requires no_named { begins begins_named (rest source.old) ≡ false }
    requires no_number { begins_number (rest source.old) ≡ false }
    requires no_quoted { begins begins_quoted (rest source.old) ≡ false }
    ensures { Recovers line_has_ended source.old result source.new }
{
    let start = source.offset();
    if advance_if_sequence(source, b"/*") {
        let has_line_end = skip_to_end(source);
        let span = Span::new(start, source.offset());
        return Recovered {
            kind: Kind::Eof,
            is_on_new_line: either(has_line_end, line_has_ended),
            diagnostic: Diagnostic::UnterminatedMultiLineComment { span },
        };
    }
    recover_character(source, line_has_ended)
}
