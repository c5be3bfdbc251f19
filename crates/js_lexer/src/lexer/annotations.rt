//! The calls of a lexer on annotations in comments, which a parser takes up.

ghost use Rattle.std.specs.Prelude.{◌≡◌, IfSome};
ghost use Rattle.js_trivia.specs.Marks.{IsRangeOf, marked_within, pure_applied, no_side_effects_applied};
ghost use Rattle.js_lexer.specs.Lexer.{with_comments};

use super::Lexer;
use js_kind::LexerConfig;
use js_text::CommentRange;

impl<C: LexerConfig + Drop> Lexer<'_, C> {
    /// The comments of class `PureNotApplied` before the last token, from the first of them to the last.
    pub fn previous_token_pure_comments(&self) -> Option<CommentRange>
        ensures range { result ≡ self.now.pure_comments }
        ensures held { IfSome result (IsRangeOf self.now.findings.comments) }
    {
        self.found.trivia.previous_token_pure_comments()
    }

    /// The comments of class `NoSideEffectsNotApplied` before the last token, from the first of them to the last.
    pub fn previous_token_no_side_effects_comments(&self) -> Option<CommentRange>
        ensures range { result ≡ self.now.no_side_effects_comments }
        ensures held { IfSome result (IsRangeOf self.now.findings.comments) }
    {
        self.found.trivia.previous_token_no_side_effects_comments()
    }

    /// Turns `PureNotApplied` into `Pure` in a range of the comments. No rewind takes this back.
    pub fn mark_pure_comments_applied(&mut self, range: CommentRange)
        requires { IsRangeOf self.old.findings.comments range }
        ensures { self.new
            ≡ with_comments (marked_within range pure_applied self.old.findings.comments) self.old }
    {
        self.found.trivia.mark_pure_comments_applied(range);
    }

    /// Turns `NoSideEffectsNotApplied` into `NoSideEffects` in a range of the comments. No rewind takes this back.
    pub fn mark_no_side_effects_comments_applied(&mut self, range: CommentRange)
        requires { IsRangeOf self.old.findings.comments range }
        ensures { self.new
            ≡ with_comments (marked_within range no_side_effects_applied self.old.findings.comments) self.old }
    {
        self.found
            .trivia
            .mark_no_side_effects_comments_applied(range);
    }
}
