//! Laws of the definitions alone: each function carries one for all arguments, and does nothing.

ghost use Rattle.std.specs.Prelude.{◌≡◌, ◌≢◌, ◌<◌, ◌≤◌, ◌+◌, ◌↔◌, ℕ, Bool, true, List, ◌++◌, length, Option, Some};
ghost use Rattle.std.specs.Prelude.{None};
ghost use Rattle.std.specs.Option.{option_map};
ghost use Rattle.std.specs.Str.{IsCharBoundary, IsUtf8};
ghost use Rattle.js_text.specs.declared.source_type.SourceType.{SourceType};
ghost use Rattle.js_kind.specs.TokenParts.{TokenParts};
ghost use Rattle.js_grammar.specs.Gap.{Piece, piece, whole_gap_piece};
ghost use Rattle.js_grammar.specs.Goals.{GoalReads, ReadsHere, AgreesWithGrammar};
ghost use Rattle.js_grammar.specs.Moved.{StandsMoved, moved_outcome, moved_token, reads_from};
ghost use Rattle.js_grammar.specs.Outcome.{Outcome};
ghost use Rattle.js_grammar.specs.Reading.{Reading};
ghost use Rattle.js_grammar.specs.Readings.{reading};
ghost use Rattle.js_grammar.specs.declared.goal.Goal.{Goal};
ghost use Rattle.js_grammar.specs.declared.goal.Goal.TheVariants.{First};
ghost use Rattle.js_grammar.specs.Reads.{PlainReads, SameReading, is_plain};

/// The piece of a gap that starts at a place, of which there is at most one since `piece` is a function of what stands
/// there, has a character at least, and its characters are those before what is left.
pub fn one_piece_starts_at_a_place()
    ensures some { (t : SourceType) (line_has_ended : Bool) (text : List ℕ) (x : Piece)
        → piece t line_has_ended text ≡ Some x → 0 < length x.text }
    ensures characters { (t : SourceType) (line_has_ended : Bool) (text : List ℕ) (x : Piece)
        → piece t line_has_ended text ≡ Some x → text ≡ x.text ++ x.rest }
{}

/// The tokens that the grammar reads from a place on have one span, kind and newline flag.
pub fn one_token_is_read()
    ensures { (text : List ℕ) (t : SourceType) (goal : Goal) (line_has_ended : Bool) (place : ℕ) (a b : TokenParts)
        → IsUtf8 text
        → PlainReads text t goal line_has_ended place a → PlainReads text t goal line_has_ended place b
        → SameReading a b }
{}

/// A reading gives one token with one value, and finds one list of each kind.
pub fn one_outcome_is_given()
    ensures { (text : List ℕ) (t : SourceType) (goal : Goal) (before : Option TokenParts) (place : ℕ) (a b : Outcome)
        → IsUtf8 text → GoalReads text t goal before place a → GoalReads text t goal before place b → a ≡ b }
{}

/// What is read where a gap has ended is exactly what the function `reading` gives.
pub fn what_is_read_is_a_function()
    ensures { (t : SourceType) (line_has_ended : Bool) (here : List ℕ) (r : Reading)
        → whole_gap_piece t line_has_ended here ≡ None
        → (ReadsHere t line_has_ended here r ↔ (r ≡ reading t line_has_ended here)) }
{}

/// A reading of any goal but the first is, moved by the difference, the reading at any other place from which the same
/// characters stand, with the token before it moved too; where that token is read again, they stand from its start.
pub fn a_reading_moves_with_its_text()
    ensures forward { (text other : List ℕ) (t : SourceType) (goal : Goal) (before : Option TokenParts) (place by : ℕ)
        (o : Outcome) → IsUtf8 text → IsUtf8 other → goal ≢ First
        → StandsMoved text other (reads_from goal before place) by
        → GoalReads text t goal before place o
        → GoalReads other t goal (option_map (moved_token by) before) (by + place) (moved_outcome by o) }
    ensures back { (text other : List ℕ) (t : SourceType) (goal : Goal) (before : Option TokenParts) (place by : ℕ)
        (o : Outcome) → IsUtf8 text → IsUtf8 other → goal ≢ First
        → StandsMoved text other (reads_from goal before place) by
        → GoalReads other t goal (option_map (moved_token by) before) (by + place) o
        → (own : Outcome) × (o ≡ moved_outcome by own) × GoalReads text t goal before place own }
{}

/// A reading depends on no more of a text than four bytes behind its token: in a text with this front, it is the same
/// with any other rest.
pub fn a_reading_is_local()
    ensures { (front rest other : List ℕ) (t : SourceType) (goal : Goal) (before : Option TokenParts) (place : ℕ)
        (o : Outcome) → IsUtf8 (front ++ rest) → IsUtf8 (front ++ other)
        → IsCharBoundary (front ++ rest) (reads_from goal before place) → o.token.end + 4 ≤ length front
        → GoalReads (front ++ rest) t goal before place o → GoalReads (front ++ other) t goal before place o }
{}

/// A reading of the first or the plain goal reports nothing exactly where the grammar reads a token, and then it is
/// this one.
pub fn a_clean_reading_is_the_grammars()
    ensures { (text : List ℕ) (t : SourceType) (goal : Goal) (before : Option TokenParts) (place : ℕ) (o : Outcome)
        → is_plain goal ≡ true → GoalReads text t goal before place o → AgreesWithGrammar text t goal before place o }
{}
