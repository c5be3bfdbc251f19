//! The kinds of names.

ghost use Rattle.std.specs.Prelude.{◌≡◌};
ghost use Rattle.js_kind.specs.Kinds.{is_identifier_name};
ghost use Rattle.js_choose.specs.KindTables.{TellsKinds};

use js_kind::{Kind, Token};
use js_source::of_each_byte;

/// Whether it is the number of a kind of names.
macro_rules! is_name {
    ($number:literal) => {
        ($number >= Kind::Ident as u8 && $number <= Kind::Null as u8)
            || $number == Kind::MatchKw as u8
    };
}

/// Whether the tokens of each kind, at the place of its number, are names.
static NAMES: [bool; 256] = of_each_byte!(is_name);

/// The table of names. It has an entry for each `u8`, and so needs no test of the number.
fn names() -> &'static [bool; 256]
    ensures { TellsKinds is_identifier_name result.now }
{
    &NAMES
}

/// Whether the token is a name (ECMA-262 12.7, IdentifierName). Every second token is one: the table costs less than to
/// find its kind by its number, and to test that.
#[inline(always)]
pub(crate) fn is_name(token: &Token) -> bool
    ensures { result ≡ is_identifier_name token.now.kind }
{
    names()[token.kind_number() as usize]
}
