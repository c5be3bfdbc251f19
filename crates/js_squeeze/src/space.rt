//! Where a space is needed between two tokens.

ghost use Rattle.std.specs.Prelude.{◌≡◌, None, slice_get};
ghost use Rattle.std.specs.List.{last_or};
ghost use Rattle.std.specs.Str.{chars};
ghost use Rattle.js_rewrite.specs.Space.{begins_as_word, ends_as_word, is_operator, need_space, needs_space};

use js_kind::Kind;
use js_text::is_identifier_part;

/// Whether operators are made of the character.
fn is_operator(c: char) -> bool
    ensures { result ≡ is_operator c }
{
    matches!(
        c,
        '!' | '%' | '&' | '*' | '+' | '-' | '.' | '/' | '<' | '=' | '>' | '?' | '^' | '|'
    )
}

/// Whether the token of the kind, with this last character, would be read on with a word that stood right behind it.
fn ends_as_word(kind: Kind, last: char) -> bool
    ensures { result ≡ ends_as_word kind last }
{
    is_identifier_part(last)
        || kind.is_identifier_name()
        || kind.is_same(Kind::PrivateIdentifier)
        || kind.is_same(Kind::RegExp)
}

/// Whether a token with this first character would go on with a word right before it.
fn begins_as_word(first: char) -> bool
    ensures { result ≡ begins_as_word first }
{
    is_identifier_part(first) || first == '\\'
}

/// Whether a space is needed between a token of the kind, with this last character, and one with this first character.
fn needs_space(kind: Kind, last: char, first: char) -> bool
    ensures { result ≡ needs_space kind last first }
{
    let ends = ends_as_word(kind, last);
    let begins = begins_as_word(first);
    (ends && begins)
        || (is_operator(last) && is_operator(first))
        || (ends && (first == '.' || first == '-'))
        || (last == '.' && begins)
}

fn last_character(text: &str) -> Option<char>
    ensures { result ≡ last_or None (chars text.now) }
{
    text.chars().last()
}

fn first_character(text: &str) -> Option<char>
    ensures { result ≡ slice_get (chars text.now) 0 }
{
    text.chars().next()
}

/// Whether a space is needed between a token of the kind with this text, and one with the other text.
pub(crate) fn need_space(kind: Kind, text: &str, other: &str) -> bool
    ensures { result ≡ need_space kind (last_or None (chars text.now)) (slice_get (chars other.now) 0) }
{
    match (last_character(text), first_character(other)) {
        (Some(last), Some(first)) => needs_space(kind, last, first),
        _ => false,
    }
}
