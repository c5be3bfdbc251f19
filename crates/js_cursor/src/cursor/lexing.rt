//! Calls of the lexer that a cursor passes on: what comes next, and what a parser changes in the lists.

ghost use Rattle.std.specs.Prelude.{◌≡◌, ◌↔◌, ◌++◌, [], IfOk, IfSome, IsNone, option_to_list};
ghost use Rattle.js_text.specs.Lists.{with_last};
ghost use Rattle.js_trivia.specs.Marks.{IsRangeOf, marked_within, pure_applied, no_side_effects_applied};
ghost use Rattle.js_lexer.specs.Lexer.{Peeks, with_comments};
ghost use Rattle.js_cursor.specs.Checkpoint.{with_diagnostics};
ghost use Rattle.js_cursor.specs.Cursor.{IsAsBefore};
ghost use Rattle.js_cursor.specs.Onward.{HasNotAdvanced};

use super::Cursor;
use js_kind::{LexerConfig, Token};
use js_text::{CommentRange, Diagnostic};
use std::alloc::AllocError;

impl<C: LexerConfig + Drop> Cursor<'_, C> {
    /// Tells which token comes next in the plain goal, and leaves the cursor as it was.
    pub fn peek_token(&mut self) -> Result<Token, AllocError>
        ensures ok { IfOk result (λ token. Peeks self.old.lexer token self.new.lexer) }
        ensures before { IsAsBefore self.old self.new }
        ensures stays { HasNotAdvanced self.old self.new }
    {
        self.lexer.peek_token()
    }

    /// Takes back what the lexer reported last, if anything is left.
    pub fn pop_error(&mut self) -> Option<Diagnostic>
        ensures none { IsNone result ↔ (self.old.lexer.findings.diagnostics ≡ []) }
        ensures last { self.old.lexer.findings.diagnostics
            ≡ self.new.lexer.findings.diagnostics ++ option_to_list result }
        ensures after { self.new ≡ with_diagnostics self.new.lexer.findings.diagnostics self.old }
    {
        self.lexer.pop_error()
    }

    /// Puts the token in the place of the last collected one; where none is collected, nothing changes.
    pub fn rewrite_last_collected_token(&mut self, token: Token)
        ensures { self.new
            ≡ record self.old { lexer = record self.old.lexer { tokens = with_last self.old.lexer.tokens token } } }
    {
        self.lexer.rewrite_last_collected_token(token);
    }

    /// The comments of class `PureNotApplied` before the current token, from the first of them to the last.
    pub fn previous_token_pure_comments(&self) -> Option<CommentRange>
        ensures range { result ≡ self.now.lexer.pure_comments }
        ensures held { IfSome result (IsRangeOf self.now.lexer.findings.comments) }
    {
        self.lexer.previous_token_pure_comments()
    }

    /// The comments of class `NoSideEffectsNotApplied` before the current token, from the first of them to the last.
    pub fn previous_token_no_side_effects_comments(&self) -> Option<CommentRange>
        ensures range { result ≡ self.now.lexer.no_side_effects_comments }
        ensures held { IfSome result (IsRangeOf self.now.lexer.findings.comments) }
    {
        self.lexer.previous_token_no_side_effects_comments()
    }

    /// Turns `PureNotApplied` into `Pure` in a range of the comments. No rewind takes this back.
    pub fn mark_pure_comments_applied(&mut self, range: CommentRange)
        requires { IsRangeOf self.old.lexer.findings.comments range }
        ensures { self.new ≡ record self.old {
          lexer = with_comments (marked_within range pure_applied self.old.lexer.findings.comments) self.old.lexer;
        } }
    {
        self.lexer.mark_pure_comments_applied(range);
    }

    /// Turns `NoSideEffectsNotApplied` into `NoSideEffects` in a range of the comments. No rewind takes this back.
    pub fn mark_no_side_effects_comments_applied(&mut self, range: CommentRange)
        requires { IsRangeOf self.old.lexer.findings.comments range }
        ensures { self.new ≡ record self.old {
          lexer =
              with_comments (marked_within range no_side_effects_applied self.old.lexer.findings.comments)
              self.old.lexer;
        } }
    {
        self.lexer.mark_no_side_effects_comments_applied(range);
    }
}
