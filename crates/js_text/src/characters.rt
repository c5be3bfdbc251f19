//! The classes of characters.

ghost use Rattle.std.specs.Prelude.{◌≡◌};
ghost use Rattle.js_text.specs.Characters.{is_identifier_start, is_identifier_part, is_line_terminator};
ghost use Rattle.js_text.specs.Characters.{is_irregular_whitespace, is_white_space};

/// Whether a name may begin with the character (ECMA-262 12.7, IdentifierStartChar).
#[tactic(auto, using(crate::proofs::CharacterLemmas::start_in_ascii, crate::proofs::CharacterLemmas::start_past_ascii))]
pub fn is_identifier_start(c: char) -> bool
    ensures { result ≡ is_identifier_start c }
{
    if c.is_ascii() {
        c.is_ascii_alphabetic() || c == '$' || c == '_'
    } else {
        unicode_ident::is_xid_start(c)
    }
}

/// Whether a name may go on with the character (ECMA-262 12.7, IdentifierPartChar).
#[tactic(auto, using(crate::proofs::CharacterLemmas::part_in_ascii, crate::proofs::CharacterLemmas::part_past_ascii))]
pub fn is_identifier_part(c: char) -> bool
    ensures { result ≡ is_identifier_part c }
{
    if c.is_ascii() {
        c.is_ascii_alphanumeric() || c == '$' || c == '_'
    } else {
        unicode_ident::is_xid_continue(c) || c == '\u{200C}' || c == '\u{200D}'
    }
}

/// Whether the character ends a line (ECMA-262 12.3).
#[tactic(auto, unfolding(crate::specs::Characters::is_line_terminator))]
pub fn is_line_terminator(c: char) -> bool
    ensures { result ≡ is_line_terminator c }
{
    matches!(c, '\n' | '\r' | '\u{2028}' | '\u{2029}')
}

/// Whether the character is white space other than TAB and SP.
#[tactic(auto, unfolding(crate::specs::Characters::is_irregular_whitespace))]
pub fn is_irregular_whitespace(c: char) -> bool
    ensures { result ≡ is_irregular_whitespace c }
{
    matches!(
        c,
        '\u{B}' | '\u{C}' | '\u{A0}' | '\u{1680}' | '\u{2000}'..='\u{200A}'
            | '\u{202F}'
            | '\u{205F}'
            | '\u{3000}'
            | '\u{FEFF}'
    )
}

/// Whether the character is white space (ECMA-262 12.2).
#[tactic(auto, unfolding(crate::specs::Characters::is_white_space))]
pub fn is_white_space(c: char) -> bool
    ensures { result ≡ is_white_space c }
{
    c == '\t' || c == ' ' || is_irregular_whitespace(c)
}
