//! Reading the punctuators that begin with `>`.

ghost use Rattle.std.specs.Prelude.{◌≤◌};
ghost use Rattle.js_text.specs.Characters.{begins};
ghost use Rattle.js_spell.specs.Goals.{SpellsAngle, TakesEquals};

use js_kind::Kind;
use js_source::Source;

/// Takes a `=`, if it is next, and tells which of the two punctuators was read.
fn with_equals(source: &mut Source<'_>, alone: Kind, assigned: Kind) -> Kind
    ensures takes { TakesEquals source.old source.new alone assigned result }
    ensures onward { source.old.place ≤ source.new.place }
{
    if source.advance_if_ascii_eq(b'=') {
        assigned
    } else {
        alone
    }
}

/// Reads the longest punctuator that begins with `>`, behind this, and gives its kind: one of `>`, `>=`, `>>`, `>>=`,
/// `>>>` and `>>>=`.
pub fn read_right_angle(source: &mut Source<'_>) -> Kind
    ensures { SpellsAngle source.old source.new result }
{
    if !source.advance_if_ascii_eq(b'>') {
        return with_equals(source, Kind::RAngle, Kind::GtEq);
    }
    if !source.advance_if_ascii_eq(b'>') {
        return with_equals(source, Kind::ShiftRight, Kind::ShiftRightEq);
    }
    with_equals(source, Kind::ShiftRight3, Kind::ShiftRight3Eq)
}
