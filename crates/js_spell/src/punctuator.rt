//! Punctuators: the longest one is taken (ECMA-262 12.8).

ghost use Rattle.std.specs.Prelude.{◌≡◌, ◌<◌, ◌∷◌, Bool, true, false, MatchBool};
ghost use Rattle.std.specs.Char.{is_ascii_digit};
ghost use Rattle.js_text.specs.Ascii.{equals_sign, exclamation_mark, full_stop, question_mark, slash, vertical_line};
ghost use Rattle.js_text.specs.Characters.{begins};
ghost use Rattle.js_text.specs.declared.source_type.SourceType.{SourceType};
ghost use Rattle.js_grammar.specs.Gap.{is_reported};
ghost use Rattle.js_grammar.specs.Punctuators.{LongestPunctuator, is_optional_dot};
ghost use Rattle.js_source.specs.Source.{rest, BeginsWith};
ghost use Rattle.js_spell.specs.Families.{assigned, doubled, is_family, only, repeated, ReadsPunctuator};

use crate::sequence::advance_if_sequence;
use js_kind::Kind;
use js_source::Source;

/// The punctuators `a`, `aa`, `aa=` and `a=` of a character `a`.
#[derive(Clone, Copy)]
struct Doubled {
    alone: Kind,
    twice: Kind,
    twice_equals: Kind,
    equals: Kind,
}

/// Reads the longest of them, where no reported comment stands.
#[inline(always)]
fn read_doubled(source: &mut Source<'_>, a: u8, kinds: Doubled) -> Kind
    requires ascii { a < 128 }
    requires next { BeginsWith a (rest source.old) }
    requires family { is_family a (doubled kinds) ≡ true }
    ensures text { source.new.text ≡ source.old.text }
    ensures longest { (t : SourceType) (line_has_ended : Bool) → is_reported t line_has_ended (rest source.old) ≡ false
        → LongestPunctuator t line_has_ended (rest source.old) (rest source.new) result }
{
    source.next_char();
    if source.advance_if_ascii_eq(a) {
        if source.advance_if_ascii_eq(b'=') {
            kinds.twice_equals
        } else {
            kinds.twice
        }
    } else if source.advance_if_ascii_eq(b'=') {
        kinds.equals
    } else {
        kinds.alone
    }
}

/// The punctuators `a`, `aa` and `a=` of a character `a`.
#[derive(Clone, Copy)]
struct Repeated {
    alone: Kind,
    twice: Kind,
    equals: Kind,
}

/// Reads the longest of them, where no reported comment stands.
#[inline(always)]
fn read_repeated(source: &mut Source<'_>, a: u8, kinds: Repeated) -> Kind
    requires ascii { a < 128 }
    requires next { BeginsWith a (rest source.old) }
    requires family { is_family a (repeated kinds) ≡ true }
    ensures text { source.new.text ≡ source.old.text }
    ensures longest { (t : SourceType) (line_has_ended : Bool) → is_reported t line_has_ended (rest source.old) ≡ false
        → LongestPunctuator t line_has_ended (rest source.old) (rest source.new) result }
{
    source.next_char();
    if source.advance_if_ascii_eq(a) {
        kinds.twice
    } else if source.advance_if_ascii_eq(b'=') {
        kinds.equals
    } else {
        kinds.alone
    }
}

/// The punctuators `a` and `a=` of a character `a`.
#[derive(Clone, Copy)]
struct Assigned {
    alone: Kind,
    equals: Kind,
}

/// Reads the longer of them that stands there, where no reported comment does.
#[inline(always)]
fn read_assigned(source: &mut Source<'_>, a: u8, kinds: Assigned) -> Kind
    requires ascii { a < 128 }
    requires next { BeginsWith a (rest source.old) }
    requires family { is_family a (assigned kinds) ≡ true }
    ensures text { source.new.text ≡ source.old.text }
    ensures longest { (t : SourceType) (line_has_ended : Bool) → is_reported t line_has_ended (rest source.old) ≡ false
        → LongestPunctuator t line_has_ended (rest source.old) (rest source.new) result }
{
    source.next_char();
    if source.advance_if_ascii_eq(b'=') {
        kinds.equals
    } else {
        kinds.alone
    }
}

/// Reads the punctuator that begins with a `!`.
#[inline(always)]
fn read_bang(source: &mut Source<'_>) -> Kind
    requires { BeginsWith exclamation_mark (rest source.old) }
    ensures text { source.new.text ≡ source.old.text }
    ensures longest { (t : SourceType) (line_has_ended : Bool) → is_reported t line_has_ended (rest source.old) ≡ false
        → LongestPunctuator t line_has_ended (rest source.old) (rest source.new) result }
{
    source.next_char();
    if source.advance_if_ascii_eq(b'=') {
        if source.advance_if_ascii_eq(b'=') {
            Kind::Neq2
        } else {
            Kind::Neq
        }
    } else {
        Kind::Bang
    }
}

/// Reads the punctuator that begins with a `=`.
#[inline(always)]
fn read_equals(source: &mut Source<'_>) -> Kind
    requires { BeginsWith equals_sign (rest source.old) }
    ensures text { source.new.text ≡ source.old.text }
    ensures longest { (t : SourceType) (line_has_ended : Bool) → is_reported t line_has_ended (rest source.old) ≡ false
        → LongestPunctuator t line_has_ended (rest source.old) (rest source.new) result }
{
    source.next_char();
    if source.advance_if_ascii_eq(b'=') {
        if source.advance_if_ascii_eq(b'=') {
            Kind::Eq3
        } else {
            Kind::Eq2
        }
    } else if source.advance_if_ascii_eq(b'>') {
        Kind::Arrow
    } else {
        Kind::Eq
    }
}

/// Reads the punctuator that begins with a `|`.
#[inline(always)]
fn read_bar(source: &mut Source<'_>) -> Kind
    requires { BeginsWith vertical_line (rest source.old) }
    ensures text { source.new.text ≡ source.old.text }
    ensures longest { (t : SourceType) (line_has_ended : Bool) → is_reported t line_has_ended (rest source.old) ≡ false
        → LongestPunctuator t line_has_ended (rest source.old) (rest source.new) result }
{
    source.next_char();
    if source.advance_if_ascii_eq(b'|') {
        if source.advance_if_ascii_eq(b'=') {
            Kind::Pipe2Eq
        } else {
            Kind::Pipe2
        }
    } else if source.advance_if_ascii_eq(b'=') {
        Kind::PipeEq
    } else if source.advance_if_ascii_eq(b'>') {
        Kind::PipeGt
    } else {
        Kind::Pipe
    }
}

/// Reads a punctuator that is the only one with its first character.
#[inline(always)]
fn read_only(source: &mut Source<'_>, a: u8, kind: Kind) -> Kind
    requires ascii { a < 128 }
    requires next { BeginsWith a (rest source.old) }
    requires family { is_family a (only kind) ≡ true }
    ensures text { source.new.text ≡ source.old.text }
    ensures longest { (t : SourceType) (line_has_ended : Bool) → is_reported t line_has_ended (rest source.old) ≡ false
        → LongestPunctuator t line_has_ended (rest source.old) (rest source.new) result }
{
    source.next_char();
    kind
}

/// Whether a digit is next.
#[inline(always)]
fn is_digit_next(source: &Source<'_>) -> bool
    ensures { result ≡ begins is_ascii_digit (rest source.now) }
{
    match source.peek_byte() {
        Some(b) => b.is_ascii_digit(),
        None => false,
    }
}

/// Takes a `.` that no digit follows, where one is next.
#[inline(always)]
fn advance_if_optional_dot(source: &mut Source<'_>) -> bool
    ensures text { source.new.text ≡ source.old.text }
    ensures answer { MatchBool result
        ((rest source.old ≡ full_stop ∷ rest source.new) × (begins is_ascii_digit (rest source.new) ≡ false))
        ((is_optional_dot (rest source.old) ≡ false) × (source.new ≡ source.old)) }
{
    let start = source.position();
    if source.advance_if_ascii_eq(b'.') {
        if !is_digit_next(source) {
            return true;
        }
        source.set_position(start);
    }
    false
}

/// Reads the punctuator that begins with a `?`.
#[inline(always)]
fn read_question(source: &mut Source<'_>) -> Kind
    requires { BeginsWith question_mark (rest source.old) }
    ensures text { source.new.text ≡ source.old.text }
    ensures longest { (t : SourceType) (line_has_ended : Bool)
        → LongestPunctuator t line_has_ended (rest source.old) (rest source.new) result }
{
    source.next_char();
    if source.advance_if_ascii_eq(b'?') {
        if source.advance_if_ascii_eq(b'=') {
            Kind::Question2Eq
        } else {
            Kind::Question2
        }
    } else if advance_if_optional_dot(source) {
        Kind::QuestionDot
    } else {
        Kind::Question
    }
}

/// Reads the punctuator that begins with a `.`, unless a digit follows a single one.
#[inline(always)]
fn read_dot(source: &mut Source<'_>) -> Option<Kind>
    requires { BeginsWith full_stop (rest source.old) }
    ensures { (t : SourceType) (line_has_ended : Bool) → ReadsPunctuator t line_has_ended source.old source.new result }
{
    let start = source.position();
    source.next_char();
    if advance_if_sequence(source, b"..") {
        Some(Kind::Dot3)
    } else if is_digit_next(source) {
        source.set_position(start);
        None
    } else {
        Some(Kind::Dot)
    }
}

/// Reads the punctuator that begins with a `/`, unless a `*` follows it.
#[inline(always)]
fn read_slash(source: &mut Source<'_>) -> Option<Kind>
    requires { BeginsWith slash (rest source.old) }
    ensures { (t : SourceType) (line_has_ended : Bool) → ReadsPunctuator t line_has_ended source.old source.new result }
{
    let start = source.position();
    source.next_char();
    if source.advance_if_ascii_eq(b'=') {
        Some(Kind::SlashEq)
    } else if source.advance_if_ascii_eq(b'*') {
        source.set_position(start);
        None
    } else {
        Some(Kind::Slash)
    }
}

/// Reads the longest punctuator by its first character: by tables of those that make the same ones with themselves and
/// `=`, and each other by itself.
macro_rules! read_by_first_character {
    ($source:ident
        only { $($only:literal $kind:ident)* }
        assigned { $($assigned:literal { $($assigned_form:ident: $assigned_kind:ident),* })* }
        repeated { $($repeated:literal { $($repeated_form:ident: $repeated_kind:ident),* })* }
        doubled { $($doubled:literal { $($doubled_form:ident: $doubled_kind:ident),* })* }
    ) => {
        match $source.peek_byte()? {
            b'!' => Some(read_bang($source)),
            b'.' => read_dot($source),
            b'/' => read_slash($source),
            b'=' => Some(read_equals($source)),
            b'?' => Some(read_question($source)),
            b'|' => Some(read_bar($source)),
            $($only => Some(read_only($source, $only, Kind::$kind)),)*
            $($assigned => Some(read_assigned(
                $source,
                $assigned,
                Assigned { $($assigned_form: Kind::$assigned_kind,)* },
            )),)*
            $($repeated => Some(read_repeated(
                $source,
                $repeated,
                Repeated { $($repeated_form: Kind::$repeated_kind,)* },
            )),)*
            $($doubled => Some(read_doubled(
                $source,
                $doubled,
                Doubled { $($doubled_form: Kind::$doubled_kind,)* },
            )),)*
            _ => None,
        }
    };
}

/// Reads the longest punctuator, where no reported comment stands.
#[inline(always)]
pub fn read_punctuator(source: &mut Source<'_>) -> Option<Kind>
    ensures { (t : SourceType) (line_has_ended : Bool) → is_reported t line_has_ended (rest source.old) ≡ false
        → ReadsPunctuator t line_has_ended source.old source.new result }
{
    read_by_first_character! { source
        only {
            b'(' LParen
            b')' RParen
            b',' Comma
            b':' Colon
            b';' Semicolon
            b'>' RAngle
            b'@' At
            b'[' LBrack
            b']' RBrack
            b'{' LCurly
            b'}' RCurly
            b'~' Tilde
        }
        assigned {
            b'%' { alone: Percent, equals: PercentEq }
            b'^' { alone: Caret, equals: CaretEq }
        }
        repeated {
            b'+' { alone: Plus, twice: Plus2, equals: PlusEq }
            b'-' { alone: Minus, twice: Minus2, equals: MinusEq }
        }
        doubled {
            b'&' { alone: Amp, twice: Amp2, twice_equals: Amp2Eq, equals: AmpEq }
            b'*' { alone: Star, twice: Star2, twice_equals: Star2Eq, equals: StarEq }
            b'<' { alone: LAngle, twice: ShiftLeft, twice_equals: ShiftLeftEq, equals: LtEq }
        }
    }
}
