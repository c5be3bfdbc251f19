//! Checkpoints: what a lexer goes back to.

ghost use Rattle.std.specs.Prelude.{◌≡◌, ◌≤◌, ◌↔◌, ◌++◌, true, IsTrue, IfSome};
ghost use Rattle.std.specs.Prelude.{unwrap_or};
ghost use Rattle.std.specs.Str.{IsCharBoundary};
ghost use Rattle.js_text.specs.Characters.{from_place};
ghost use Rattle.js_kind.specs.Kinds.{kind_text};
ghost use Rattle.js_grammar.specs.ReLexed.{is_re_lexed, HasSpelling};
ghost use Rattle.js_lexer.specs.Lexer.{IsOnPlaces, put_back, asked_lengths};

use js_grammar::is_re_lexed;
use js_kind::{Kind, Token};
use js_places::ReservedList;
use js_reader::ReadingStart;
use js_source::Source;
use js_text::DiagnosticList;
use std::marker::Model;

/// Where a lexer stood, its last token, and how long its lists were. One that is made for error recovery has a copy of
/// what was reported, since the parser may take some of it back; no other list is copied.
#[derive(Drop)]
pub struct LexerCheckpoint {
    pub(crate) start: ReadingStart,
    pub(crate) last: Option<Token>,
    pub(crate) last_collected: Option<Token>,
    pub(crate) tokens: usize,
    pub(crate) errors_copy: Option<DiagnosticList>,
}

impl Model for LexerCheckpoint {
    ghost use Rattle.js_reader.specs.Found.{lengths_in};
    ghost use Rattle.js_lexer.specs.Lexer.{Checkpoint, IsBehindToken};

    ghost Value = { Checkpoint };

    ghost view = { λ c. record {
      place = c.start.position;
      last = c.last;
      last_collected = c.last_collected;
      tokens = c.tokens;
      lengths = lengths_in c.start.found;
      errors = c.errors_copy;
      pure_comments = c.start.found.trivia.pure_range;
      no_side_effects_comments = c.start.found.trivia.no_side_effects;
    } };

    ghost invariant = { λ c. IsBehindToken c.start.position c.last c.start.found.trivia };
}

impl LexerCheckpoint {
    /// How many diagnostics there have to be to go back: as many as there were, and none where they were copied.
    pub(crate) fn asked_errors(&self) -> usize
        ensures { result ≡ (asked_lengths self.now).diagnostics }
    {
        if self.errors_copy.is_some() {
            0
        } else {
            self.start.found.errors
        }
    }
}

/// Whether the offset is a place of the text.
pub(crate) fn is_place(source: &Source<'_>, offset: u32) -> bool
    ensures { IsTrue result ↔ IsCharBoundary source.now.text offset }
{
    source.position_at(offset).is_some()
}

/// Whether the token has its ends, in order, on places of the text.
fn is_on_places(source: &Source<'_>, token: &Token) -> bool
    ensures { IsTrue result ↔ IsOnPlaces source.now.text token.now }
{
    if token.start() > token.end() {
        return false;
    }
    if !is_place(source, token.start()) {
        return false;
    }
    is_place(source, token.end())
}

/// Whether the token, if there is one, has its ends, in order, on places of the text.
pub(crate) fn is_on_places_if_some(source: &Source<'_>, token: &Option<Token>) -> bool
    ensures { IsTrue result ↔ IfSome token.now (IsOnPlaces source.now.text) }
{
    match token {
        Some(token) => is_on_places(source, token),
        None => true,
    }
}

/// Whether the spelling of the kind stands from the offset to the other, both places of the text, in order.
fn is_spelled_between(source: &Source<'_>, start: u32, end: u32, kind: Kind) -> bool
    requires ordered { start ≤ end }
    requires from { IsCharBoundary source.now.text start }
    requires to { IsCharBoundary source.now.text end }
    requires kind { is_re_lexed kind ≡ true }
    ensures { IsTrue result ↔ from_place source.now.text start ≡ kind_text kind ++ from_place source.now.text end }
{
    match (source.position_at(start), source.position_at(end)) {
        (Some(from), Some(to)) => source.str_between(from, to) == kind.to_str(),
        _ => unreachable!(),
    }
}

/// Whether the token, which lies on the text, has the spelling of its kind, if it may be read again.
fn has_spelling(source: &Source<'_>, token: &Token) -> bool
    requires { IsOnPlaces source.now.text token.now }
    ensures { IsTrue result ↔ HasSpelling source.now.text token.now }
{
    if !is_re_lexed(token.kind()) {
        return true;
    }
    is_spelled_between(source, token.start(), token.end(), token.kind())
}

/// Whether the token, if there is one, which then lies on the text, has the spelling of its kind, if it may be read
/// again.
pub(crate) fn has_spelling_if_some(source: &Source<'_>, token: &Option<Token>) -> bool
    requires { IfSome token.now (IsOnPlaces source.now.text) }
    ensures { IsTrue result ↔ IfSome token.now (HasSpelling source.now.text) }
{
    match token {
        Some(token) => has_spelling(source, token),
        None => true,
    }
}

/// Puts the token in the place of the last one, where one is given.
pub(crate) fn put_back(tokens: &mut ReservedList<Token>, token: Option<Token>)
    ensures { tokens.new ≡ record tokens.old { items = put_back tokens.old.items token } }
{
    if let Some(token) = token {
        tokens.replace_last(token);
    }
}

/// Puts copied diagnostics in the place of those that are there, where some are given.
pub(crate) fn put_errors_back(errors: &mut DiagnosticList, copied: Option<DiagnosticList>)
    ensures { errors.new ≡ unwrap_or copied errors.old }
{
    if let Some(copied) = copied {
        *errors = copied;
    }
}
