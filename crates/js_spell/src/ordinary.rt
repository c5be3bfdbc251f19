//! The characters of strings and templates that stand for themselves.

ghost use Rattle.std.specs.Prelude.{◌≡◌, ◌==◌, ◌&&◌, false, not, codes, IfNone, IfSome, []};
ghost use Rattle.js_text.specs.Ascii.{dollar_sign};
ghost use Rattle.js_grammar.specs.Gap.{is_prefix};
ghost use Rattle.js_grammar.specs.UnicodeEscape.{left_curly_bracket};
ghost use Rattle.std.specs.Str.{IsCharBoundary};
ghost use Rattle.js_text.specs.Characters.{from_place};
ghost use Rattle.js_source.specs.Runs.{TellsClass};
ghost use Rattle.js_source.specs.Source.{rest, HasFirstByte};
ghost use Rattle.js_spell.specs.Strings.{in_template, ordinary_here, stops, PassesCharacters, StopsAt, IsOrdinaryBefore};

use js_source::{Source, SourcePosition, of_each_byte};

/// What the characters stand in.
#[derive(Clone, Copy)]
pub(crate) enum Literal {
    /// A string between double quotes.
    DoubleQuoted,
    /// A string between single quotes.
    SingleQuoted,
    /// A template.
    Template,
}

impl Literal {
    /// Whether it is a template.
    pub(crate) fn is_template(self) -> bool
        ensures { result ≡ in_template self }
    {
        match self {
            Literal::Template => true,
            Literal::DoubleQuoted | Literal::SingleQuoted => false,
        }
    }
}

/// ASCII, and none of `\`, `"`, LF and CR.
macro_rules! stands_in_double_quotes {
    ($byte:literal) => {
        $byte < 128 && $byte != b'\\' && $byte != b'"' && $byte != b'\n' && $byte != b'\r'
    };
}

/// The ASCII characters that stand for themselves between double quotes.
static DOUBLE_QUOTED: [bool; 256] = of_each_byte!(stands_in_double_quotes);

/// ASCII, and none of `\`, `'`, LF and CR.
macro_rules! stands_in_single_quotes {
    ($byte:literal) => {
        $byte < 128 && $byte != b'\\' && $byte != b'\'' && $byte != b'\n' && $byte != b'\r'
    };
}

/// The ASCII characters that stand for themselves between single quotes.
static SINGLE_QUOTED: [bool; 256] = of_each_byte!(stands_in_single_quotes);

/// ASCII, and none of `\`, `` ` ``, `$` and CR.
macro_rules! stands_in_template {
    ($byte:literal) => {
        $byte < 128 && $byte != b'\\' && $byte != b'`' && $byte != b'$' && $byte != b'\r'
    };
}

/// The ASCII characters that always stand for themselves in templates.
static TEMPLATE: [bool; 256] = of_each_byte!(stands_in_template);

/// The table of the ASCII characters that stand for themselves.
#[inline(always)]
fn table_of(literal: Literal) -> &'static [bool; 256]
    ensures { TellsClass (λ b. not (stops literal b)) result.now }
{
    match literal {
        Literal::DoubleQuoted => &DOUBLE_QUOTED,
        Literal::SingleQuoted => &SINGLE_QUOTED,
        Literal::Template => &TEMPLATE,
    }
}

/// Passes the characters that stand for themselves wherever they stand, and gives the byte that is next.
#[inline(always)]
fn pass_ordinary(source: &mut Source<'_>, literal: Literal) -> Option<u8>
    ensures passes { PassesCharacters literal source.old source.new }
    ensures none { IfNone result (rest source.new ≡ []) }
    ensures some { IfSome result (λ b. StopsAt literal b (rest source.new)) }
{
    let table = table_of(literal);
    'characters: loop {
        match source.pass_ascii(table) {
            None => return None,
            Some(b) => {
                if b < 128 {
                    return Some(b);
                }
                source.next_char();
            }
        }
    }
}

/// Whether the two bytes are `${`.
fn is_substitution(first: u8, second: u8) -> bool
    ensures { result ≡ ((first == dollar_sign) && (second == left_curly_bracket)) }
{
    if first != b'$' {
        return false;
    }
    second == b'{'
}

/// Whether `${` is next.
pub(crate) fn begins_substitution(source: &Source<'_>) -> bool
    ensures { result ≡ is_prefix (codes "${") (rest source.now) }
{
    match source.peek_2_bytes() {
        Some(pair) => is_substitution(pair[0], pair[1]),
        None => false,
    }
}

/// Passes the characters that stand for themselves, and gives the byte that is next.
#[inline(always)]
pub(crate) fn pass_characters(source: &mut Source<'_>, literal: Literal) -> Option<u8>
    ensures passes { PassesCharacters literal source.old source.new }
    ensures all { ordinary_here literal (rest source.new) ≡ false }
    ensures none { IfNone result (rest source.new ≡ []) }
    ensures some { IfSome result (λ b. HasFirstByte b (rest source.new)) }
{
    'characters: loop {
        match pass_ordinary(source, literal) {
            None => return None,
            Some(b) => {
                if b != b'$' {
                    return Some(b);
                }
                if begins_substitution(source) {
                    return Some(b);
                }
                source.next_char();
            }
        }
    }
}

/// The place of the first character that does not stand for itself.
#[inline(never)]
fn end_of_characters(source: Source<'_>, literal: Literal) -> SourcePosition
    ensures passes { IsOrdinaryBefore literal (rest source.entry) (from_place source.entry.text result) }
    ensures all { ordinary_here literal (from_place source.entry.text result) ≡ false }
    ensures boundary { IsCharBoundary source.entry.text result }
{
    let mut source = source;
    pass_characters(&mut source, literal);
    source.position()
}

/// Passes the characters that stand for themselves, and gives the byte that is next; the usual way has ASCII characters
/// alone.
#[inline(always)]
pub(crate) fn pass_to_mark(source: &mut Source<'_>, literal: Literal) -> Option<u8>
    ensures passes { PassesCharacters literal source.old source.new }
    ensures all { ordinary_here literal (rest source.new) ≡ false }
    ensures none { IfNone result (rest source.new ≡ []) }
    ensures some { IfSome result (λ b. HasFirstByte b (rest source.new)) }
{
    let b = source.pass_ascii(table_of(literal))?;
    if b < 128 {
        if b != b'$' {
            return Some(b);
        }
    }
    let end = end_of_characters(source.here(), literal);
    source.set_position(end);
    source.peek_byte()
}
