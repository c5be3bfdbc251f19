//! Laws of readings and of going back: each function carries one for all arguments, and does nothing.

ghost use Rattle.std.specs.Prelude.{◌≡◌, ◌≢◌, ◌<◌, ℕ, true, List, [], ◌∷◌, length, take};
ghost use Rattle.std.specs.Str.{IsUtf8};
ghost use Rattle.js_text.specs.declared.comment.Comment.{Comment};
ghost use Rattle.js_text.specs.declared.comment.CommentContent.{CommentContent};
ghost use Rattle.js_text.specs.declared.comment.CommentRange.{CommentRange};
ghost use Rattle.js_text.specs.declared.source_type.SourceType.{SourceType};
ghost use Rattle.js_grammar.specs.Reads.{is_plain};
ghost use Rattle.js_grammar.specs.declared.goal.Goal.{Goal};
ghost use Rattle.js_kind.specs.Kinds.{is_identifier_name};
ghost use Rattle.js_kind.specs.TokenParts.{TokenParts};
ghost use Rattle.js_trivia.specs.Marks.{IsRangeOf, marked_within};
ghost use Rattle.js_lexer.specs.Laws.{IsNameOfWord, IsStringOfItems, KeepsTexts, GivesValue};
ghost use Rattle.js_lexer.specs.Lexer.{LexerState, ReadsToken, LexesAgain, Peeks, GoesOnFrom, Checkpoint, CanRewind};
ghost use Rattle.js_lexer.specs.Lexer.{with_comments};
ghost use Rattle.js_lexer.specs.Places.{AreCalls, IsBeforeEnd};

use js_grammar::Goal;
use js_kind::Kind;

/// A token that is read, or read again, and is not the end of the source has at least one byte.
pub fn a_token_has_a_byte()
    ensures read { (goal : Goal) (old new : LexerState) (token : TokenParts) → ReadsToken goal old token new
        → token.kind ≢ Kind.Eof → token.start < token.end }
    ensures again { (goal : Goal) (old new : LexerState) (token : TokenParts) → LexesAgain goal old token new
        → token.kind ≢ Kind.Eof → token.start < token.end }
{}

/// A peek gives the token that is read next, with its value, and finds what is found there.
pub fn a_peek_gives_what_is_read_next()
    ensures { (old peeked new : LexerState) (first second : TokenParts) → IsUtf8 old.text
        → (peek : Peeks old first peeked) → (read : ReadsToken Goal.Next peeked second new)
        → (second ≡ first) × (read.outcome ≡ peek.outcome) }
{}

/// A name that is read without a diagnostic has the keyword table's kind at the characters that it stands for.
pub fn a_name_has_the_kind_of_its_word()
    ensures { (goal : Goal) (old new : LexerState) (token : TokenParts) → is_plain goal ≡ true
        → (read : ReadsToken goal old token new) → read.outcome.findings.diagnostics ≡ []
        → is_identifier_name token.kind ≡ true → IsNameOfWord old.text token }
{}

/// The value of a string that is read without a diagnostic is the units of its items, one after the other.
pub fn a_string_has_the_units_of_its_items()
    ensures { (goal : Goal) (old new : LexerState) (token : TokenParts) → IsUtf8 old.text → is_plain goal ≡ true
        → (read : ReadsToken goal old token new) → read.outcome.findings.diagnostics ≡ []
        → token.kind ≡ Kind.Str → IsStringOfItems old.text read.outcome }
{}

/// What `get_string`, `get_js_string` and `get_template_string` answer for a token that was read, read again or peeked
/// at is the value of its reading, whatever was read, read again, peeked at or taken back since: no value is lost.
pub fn a_text_is_the_value_of_its_reading()
    ensures read { (goal : Goal) (old new later : LexerState) (token : TokenParts) → IsUtf8 old.text
        → (read : ReadsToken goal old token new) → KeepsTexts new later → GivesValue later token read.outcome.value }
    ensures again { (goal : Goal) (old new later : LexerState) (token : TokenParts) → IsUtf8 old.text
        → (read : LexesAgain goal old token new) → KeepsTexts new later → GivesValue later token read.outcome.value }
    ensures peek { (old new later : LexerState) (token : TokenParts) → IsUtf8 old.text
        → (peek : Peeks old token new) → KeepsTexts new later → GivesValue later token peek.outcome.value }
{}

/// A lexer that reads, or reads its last token again, goes on from where it was.
pub fn a_reading_goes_on()
    ensures read { (goal : Goal) (old new : LexerState) (token : TokenParts) → ReadsToken goal old token new
        → GoesOnFrom old new }
    ensures again { (goal : Goal) (old new : LexerState) (token : TokenParts) → LexesAgain goal old token new
        → GoesOnFrom old new }
{}

/// A lexer that has gone on may go back to where it could go back before.
pub fn what_goes_on_may_go_back()
    ensures { (old new : LexerState) (c : Checkpoint) → CanRewind old c → GoesOnFrom old new → CanRewind new c }
{}

/// A lexer whose comments are marked has gone on from where it was, but for the marks of the comments that it had.
pub fn a_mark_changes_classes_alone()
    ensures count { (range : CommentRange) (applied : CommentContent → CommentContent) (cs : List Comment)
        → IsRangeOf cs range → length (marked_within range applied cs) ≡ length cs }
    ensures goes_on { (earlier now : LexerState) (range : CommentRange) (applied : CommentContent → CommentContent)
        → GoesOnFrom earlier now → IsRangeOf now.findings.comments range
        → GoesOnFrom
        (with_comments (take (length earlier.findings.comments) (marked_within range applied now.findings.comments))
        earlier)
        (with_comments (marked_within range applied now.findings.comments) now) }
{}

/// A lexer that collects tokens has a place for each: as long as it is not behind the end of the source, and its tokens
/// were not handed out or set, a place is free, whatever was read, read again, peeked at or taken back before. So its
/// next reading collects its token without growth.
pub fn a_place_is_free_before_each_reading()
    ensures { (text : List ℕ) (t : SourceType) (l : LexerState) (earlier : List LexerState)
        → AreCalls text t (l ∷ earlier) → IsBeforeEnd l → 0 < l.free }
{}
