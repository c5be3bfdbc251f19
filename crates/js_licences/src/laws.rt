//! Laws of the definitions alone: each function carries one for all arguments, and does nothing.

ghost use Rattle.std.specs.Prelude.{List, []};
ghost use Rattle.js_licences.specs.Licences.{AreLicencesOf, Occurrence, with_occurrences};

/// The licences to which comments were added one by one are those of the comments: each text once, in the order in which
/// the texts first come, with each place where it stands, in order.
pub fn each_text_comes_once()
    ensures { (xs : List Occurrence) → AreLicencesOf xs (with_occurrences [] xs) }
{}
