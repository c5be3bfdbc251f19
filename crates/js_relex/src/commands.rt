//! Which commands a document may be given.

ghost use Rattle.std.specs.Prelude.{◌≡◌, true, IfNone, IfSome};
ghost use Rattle.std.specs.List.{list_all};
ghost use Rattle.js_session.specs.Effects.{is_lasting};
ghost use Rattle.js_relex.specs.Documents.{IsFirstBad};

use js_session::Command;

/// The index of the first command that a document may not be given: one that gives no row which stays.
pub(crate) fn first_bad(commands: &[Command]) -> Option<usize>
    ensures none { IfNone result (list_all is_lasting commands.now ≡ true) }
    ensures some { IfSome result (IsFirstBad commands.now) }
{
    let mut index = 0;
    while index < commands.len() {
        if !commands[index].is_lasting() {
            return Some(index);
        }
        index += 1;
    }
    None
}
