//! Laws over the definitions alone: each function carries some, and answers nothing.

ghost use Rattle.std.specs.Prelude.{◌≡◌, ◌<◌, ◌^◌, false};
ghost use Rattle.js_kind.specs.declared.kind.Kind.{Kind};
ghost use Rattle.js_grammar.specs.declared.goal.Goal.{Goal};
ghost use Rattle.js_cursor.specs.Checkpoint.{CanRewind, CursorCheckpoint, GoesOnFrom, without_fatal_error};
ghost use Rattle.js_cursor.specs.Cursor.{Advances, CursorState, IsAsBefore, ReadsOn, with_error, with_fatal_error};
ghost use Rattle.js_cursor.specs.Expect.{expecting};
ghost use Rattle.js_cursor.specs.Lists.{ends_at, is_stuck, left_to_read};
ghost use Rattle.js_cursor.specs.ReLex.{ReLexes};
ghost use Rattle.js_cursor.specs.declared.diagnostic.CursorDiagnostic.{CursorDiagnostic};

/// What a cursor does leads on from where it was, as a `Predicate` promises of all that it does.
pub fn calls_go_on()
    ensures advances { (kind : Kind) (old new : CursorState) → Advances kind old new → GoesOnFrom old new }
    ensures reads { (goal : Goal) (old new : CursorState) → ReadsOn goal old new → GoesOnFrom old new }
    ensures re_lexes { (goal : Goal) (old new : CursorState) → ReLexes goal old new → GoesOnFrom old new }
    ensures as_before { (old new : CursorState) → IsAsBefore old new → GoesOnFrom old new }
    ensures error { (error : CursorDiagnostic) (old : CursorState) → GoesOnFrom old (with_error error old) }
    ensures fatal { (error : CursorDiagnostic) (old : CursorState) → GoesOnFrom old (with_fatal_error error old) }
    ensures expects { (kind : Kind) (old : CursorState) → GoesOnFrom old (expecting kind old) }
    ensures tries { (old now : CursorState) → GoesOnFrom (without_fatal_error old) now → GoesOnFrom old now }
{}

/// Going on and then going on is going on, and so is staying where one is.
pub fn going_on_composes()
    ensures stays { (a : CursorState) → GoesOnFrom a a }
    ensures goes { (a b c : CursorState) → GoesOnFrom a b → GoesOnFrom b c → GoesOnFrom a c }
{}

/// A cursor that has gone on may go back to where it could go back before.
pub fn what_goes_on_may_go_back()
    ensures { (old new : CursorState) (to : CursorCheckpoint) → CanRewind old to → GoesOnFrom old new
        → CanRewind new to }
{}

/// A round of a list that leads on, where the list did not end, leaves less to read: so a loop over such rounds ends.
pub fn what_leads_on_leaves_less()
    ensures { (close : Kind) (before after : CursorState) → before.token.start < 2 ^ 32
        → ends_at close before ≡ false → is_stuck before after ≡ false → left_to_read after < left_to_read before }
{}
