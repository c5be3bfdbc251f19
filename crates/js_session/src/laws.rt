//! Laws of the definitions alone: each function carries one for all arguments, and does nothing.

ghost use Rattle.std.specs.Prelude.{◌≡◌, ◌<◌, ◌≤◌, ◌+◌, ◌^◌, ◌++◌, ◌∷◌, [], ℕ, length, Bool, true, List, Option, Some};
ghost use Rattle.std.specs.Prelude.{IfSome, map};
ghost use Rattle.std.specs.List.{AllByRecursion, list_all};
ghost use Rattle.std.specs.Str.{IsUtf8};
ghost use Rattle.js_text.specs.declared.source_type.SourceType.{SourceType};
ghost use Rattle.js_session.specs.declared.command.Command.{Command};
ghost use Rattle.js_session.specs.declared.report.Report.{Report};
ghost use Rattle.js_session.specs.declared.row.Row.{Row};
ghost use Rattle.js_session.specs.Effects.{is_lasting, is_step, opens_one};
ghost use Rattle.js_lexer.specs.Lexer.{IsOnPlaces};
ghost use Rattle.js_session.specs.Live.{Live, State, last_live, outcome_of};
ghost use Rattle.js_session.specs.Moved.{StandBehind, moved_row};
ghost use Rattle.js_session.specs.Report.{AreRows, IsRow, HasMark, ReportOf, Run};
ghost use Rattle.js_session.specs.Session.{SessionState, Begins, Follows, HasRun, HasRunFrom, MayResume, last_token};
ghost use Rattle.js_session.specs.Session.{report_of, resumed};
ghost use Rattle.js_kind.specs.TokenParts.{TokenParts};
ghost use Rattle.js_session.specs.Shifted.{shifted_row, shifted_token, OfEachPlace};
ghost use Rattle.js_session.specs.WholeSource.{nexts, IsEof, ReportOfWhole};

use crate::command::Command;
pub use js_grammar::laws::{one_piece_starts_at_a_place, one_token_is_read};

/// A command gives at most one row, where so much is live.
pub fn one_row_is_given()
    ensures { (text : List ℕ) (t : SourceType) (now : Live) (command : Option Command) (a b : Row) → IsUtf8 text
        → IsRow text t now command a → IsRow text t now command b → a ≡ b }
{}

/// For a source, its type, whether tokens are collected, and commands, there is at most one report.
pub fn one_report_is_given()
    ensures { (source : List ℕ) (t : SourceType) (collects : Bool) (commands : List Command) (a b : Report)
        → ReportOf source t collects commands a → ReportOf source t collects commands b → a ≡ b }
{}

/// A source, of a type, and with tokens collected or not, has at most one number of steps that lead to its end, and at
/// most one report of them.
pub fn one_whole_report_is_given()
    ensures { (source : List ℕ) (t : SourceType) (collects : Bool) (m n : ℕ) (a b : Report)
        → ReportOfWhole source t collects m a → ReportOfWhole source t collects n b → (m ≡ n) × (a ≡ b) }
{}

/// A session with fewer steps than lead to the end of a source has no row that is the end.
pub fn fewer_steps_stop_before_the_end()
    ensures { (source : List ℕ) (t : SourceType) (collects : Bool) (steps fewer : ℕ) (whole report : Report)
        → ReportOfWhole source t collects steps whole → fewer < steps
        → ReportOf source t collects (nexts fewer) report → AllByRecursion (λ row. ¬ (IsEof row)) report.rows }
{}

/// A session that has made its first step has run no command.
pub fn a_session_begins_with_no_command()
    ensures { (text : List ℕ) (t : SourceType) (collects : Bool) (s : SessionState) → Begins text t collects s
        → HasRun text t collects [] s }
{}

/// A session that has run commands, from its start or from behind a token, has run the same ones whatever number of
/// places for marks is free, as after more were reserved.
pub fn reserving_marks_is_no_command()
    ensures from_start { (text : List ℕ) (t : SourceType) (collects : Bool) (commands : List Command)
        (s : SessionState) (spare : ℕ) → HasRun text t collects commands s
        → HasRun text t collects commands (record s { spare = spare }) }
    ensures from_token { (text : List ℕ) (t : SourceType) (collects : Bool) (token : TokenParts)
        (commands : List Command) (s : SessionState) (spare : ℕ) → HasRunFrom text t collects token commands s
        → HasRunFrom text t collects token commands (record s { spare = spare }) }
{}

/// A session that follows a command has run one more.
pub fn each_call_is_one_command_more()
    ensures { (text : List ℕ) (t : SourceType) (collects : Bool) (commands : List Command) (command : Command)
        (old new : SessionState) → HasRun text t collects commands old → HasMark command old.state
        → Follows command old new → HasRun text t collects (commands ++ command ∷ []) new }
{}

/// A session that goes on behind a token has run no command from there.
pub fn a_resumed_session_has_run_no_command()
    ensures { (text : List ℕ) (t : SourceType) (collects : Bool) (token : TokenParts)
        → HasRunFrom text t collects token [] (resumed text t collects token) }
{}

/// A session that went on behind a token and follows a command has run one more.
pub fn each_call_from_there_is_one_command_more()
    ensures { (text : List ℕ) (t : SourceType) (collects : Bool) (token : TokenParts) (commands : List Command)
        (command : Command) (old new : SessionState) → HasRunFrom text t collects token commands old
        → HasMark command old.state → Follows command old new
        → HasRunFrom text t collects token (commands ++ command ∷ []) new }
{}

/// A session that follows a command has as many open marks and free places together as it had before.
pub fn no_command_loses_a_place()
    ensures { (command : Command) (old new : SessionState) → HasMark command old.state
        → (opens_one command ≡ true → 0 < old.spare) → Follows command old new
        → length new.state.marks + new.spare ≡ length old.state.marks + old.spare }
{}

/// After any list of calls, the report of a session is that of its commands.
pub fn a_session_reports_its_commands()
    ensures { (text : List ℕ) (t : SourceType) (collects : Bool) (commands : List Command) (s : SessionState)
        → IsUtf8 text → length text < 2 ^ 32 → HasRun text t collects commands s
        → ReportOf text t collects commands (report_of s) }
{}

/// A row depends on no more of a text than four bytes behind its token: where the last live token lies on the text, it
/// answers its command with any other rest of the text.
pub fn a_row_is_local()
    ensures { (front rest other : List ℕ) (t : SourceType) (now : Live) (command : Option Command) (row : Row)
        → IsUtf8 (front ++ rest) → IsUtf8 (front ++ other) → IfSome (last_live now) (IsOnPlaces (front ++ rest))
        → row.token.end + 4 ≤ length front
        → IsRow (front ++ rest) t now command row → IsRow (front ++ other) t now command row }
{}

/// A run of rows that end four bytes or more before a place, from where the last live token lies on the text, is one
/// with any other rest of the text behind the place.
pub fn a_run_is_local()
    ensures { (front rest other : List ℕ) (t : SourceType) (s : State) (commands : List Command) (rows : List Row)
        → IsUtf8 (front ++ rest) → IsUtf8 (front ++ other) → IfSome (last_live s.now) (IsOnPlaces (front ++ rest))
        → list_all is_step commands ≡ true → AllByRecursion (λ row. row.token.end + 4 ≤ length front) rows
        → Run (front ++ rest) t s commands rows → Run (front ++ other) t s commands rows }
{}

/// A run of steps depends on no more of what is live than the last token.
pub fn a_run_depends_on_the_last_token()
    ensures { (text : List ℕ) (t : SourceType) (a b : State) (token : TokenParts) (commands : List Command)
        (rows : List Row) → list_all is_step commands ≡ true → last_live a.now ≡ Some token
        → last_live b.now ≡ Some token → Run text t a commands rows → Run text t b commands rows }
{}

/// A run from where a token is the last live one is, moved, a run from where the token stands behind something more;
/// and each run from there is one of the text alone, moved.
pub fn a_run_moves_with_its_text()
    ensures forward { (front text : List ℕ) (t : SourceType) (token : TokenParts) (a b : State)
        (commands : List Command) (rows : List Row) → list_all is_lasting commands ≡ true
        → StandBehind front text token a.now b.now → Run text t a commands rows
        → Run (front ++ text) t b commands (map (moved_row (length front)) rows) }
    ensures back { (front text : List ℕ) (t : SourceType) (token : TokenParts) (a b : State)
        (commands : List Command) (rows : List Row) → list_all is_lasting commands ≡ true
        → StandBehind front text token a.now b.now → Run (front ++ text) t b commands rows
        → (own : List Row) × (rows ≡ map (moved_row (length front)) own) × Run text t a commands own }
{}

/// A run from behind a token that starts behind a front of its text is one from behind the same token where another
/// front stands in the place of that one, with each place shifted.
pub fn a_run_is_taken_over()
    ensures { (before after rest : List ℕ) (t : SourceType) (token : TokenParts) (a b : State)
        (commands : List Command) (rows : List Row) → IsUtf8 rest → IsUtf8 (before ++ rest) → IsUtf8 (after ++ rest)
        → length before ≤ token.start → IsOnPlaces (before ++ rest) token → last_live a.now ≡ Some token
        → last_live b.now ≡ Some (shifted_token (length before) (length after) token)
        → list_all is_lasting commands ≡ true → Run (before ++ rest) t a commands rows
        → Run (after ++ rest) t b commands (map (shifted_row (length before) (length after)) rows) }
{}

/// Where the same front stands, nothing is shifted: a run from behind a token that starts behind a front of its text is
/// its own shift.
pub fn a_run_stays_where_nothing_moves()
    ensures { (before rest : List ℕ) (t : SourceType) (token : TokenParts) (a : State) (commands : List Command)
        (rows : List Row) → IsUtf8 rest → IsUtf8 (before ++ rest) → length before ≤ token.start
        → IsOnPlaces (before ++ rest) token → last_live a.now ≡ Some token → list_all is_lasting commands ≡ true
        → Run (before ++ rest) t a commands rows
        → map (shifted_row (length before) (length before)) rows ≡ rows }
{}

/// A run from behind a token that starts behind a front of its text has each of its places behind the front.
pub fn a_run_lies_behind_its_front()
    ensures { (before rest : List ℕ) (t : SourceType) (token : TokenParts) (a : State) (commands : List Command)
        (rows : List Row) → IsUtf8 rest → IsUtf8 (before ++ rest) → length before ≤ token.start
        → IsOnPlaces (before ++ rest) token → last_live a.now ≡ Some token → list_all is_lasting commands ≡ true
        → Run (before ++ rest) t a commands rows
        → AllByRecursion (OfEachPlace (λ place. length before ≤ place)) rows }
{}

/// Each place of a run of steps, from where the last live token lies on the text, is one of the text or its end.
pub fn a_run_lies_within_its_text()
    ensures { (text : List ℕ) (t : SourceType) (s : State) (commands : List Command) (rows : List Row) → IsUtf8 text
        → IfSome (last_live s.now) (IsOnPlaces text) → list_all is_step commands ≡ true → Run text t s commands rows
        → AllByRecursion (OfEachPlace (λ place. place ≤ length text)) rows }
{}

/// A session may go on behind rows that stay.
pub fn a_session_may_go_on_behind_rows_that_stay()
    ensures { (text : List ℕ) (t : SourceType) (commands : List Command) (first : Row) (rows : List Row)
        → list_all is_lasting commands ≡ true → AreRows text t commands (first ∷ rows)
        → MayResume text (last_token first.token rows) }
{}

/// A peek gives the token that the next step gives, with its value, and finds what that finds.
pub fn a_peek_is_what_comes_next()
    ensures { (text : List ℕ) (t : SourceType) (now : Live) (peek row : Row) → IsUtf8 text
        → IsRow text t now (Some Command.Peek) peek → IsRow text t now (Some Command.Next) row
        → outcome_of peek ≡ outcome_of row }
{}
