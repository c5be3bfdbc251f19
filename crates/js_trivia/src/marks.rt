//! Marking comments whose annotations a parser has taken up.

ghost use Rattle.std.specs.Prelude.{◌≡◌, map};
ghost use Rattle.js_trivia.specs.Marks.{IsRangeOf, pure_applied, no_side_effects_applied, mark, marked_within};
ghost use Rattle.js_trivia.specs.Trivia.{comment_starts};

use js_text::{Comment, CommentContent, CommentRange};

/// The class of a comment once its `@__PURE__` is taken up.
fn pure_applied(content: CommentContent) -> CommentContent
    ensures { result ≡ pure_applied content }
{
    match content {
        CommentContent::PureNotApplied => CommentContent::Pure,
        _ => content,
    }
}

/// The class of a comment once its `@__NO_SIDE_EFFECTS__` is taken up.
fn no_side_effects_applied(content: CommentContent) -> CommentContent
    ensures { result ≡ no_side_effects_applied content }
{
    match content {
        CommentContent::NoSideEffectsNotApplied => CommentContent::NoSideEffects,
        _ => content,
    }
}

/// Marks all these comments.
fn mark_each_pure(comments: &mut [Comment])
    ensures { comments.new ≡ map (mark pure_applied) comments.old }
{
    for comment in comments.iter_mut() {
        comment.content = pure_applied(comment.content);
    }
}

/// Marks all these comments.
fn mark_each_without_side_effects(comments: &mut [Comment])
    ensures { comments.new ≡ map (mark no_side_effects_applied) comments.old }
{
    for comment in comments.iter_mut() {
        comment.content = no_side_effects_applied(comment.content);
    }
}

/// Marks the comments of a range.
pub(crate) fn mark_pure_within(comments: &mut [Comment], range: CommentRange)
    requires { IsRangeOf comments.old range }
    ensures marked { comments.new ≡ marked_within range pure_applied comments.old }
    ensures starts { comment_starts comments.new ≡ comment_starts comments.old }
{
    mark_each_pure(&mut comments[range.start as usize..range.end as usize]);
}

/// Marks the comments of a range.
pub(crate) fn mark_no_side_effects_within(comments: &mut [Comment], range: CommentRange)
    requires { IsRangeOf comments.old range }
    ensures marked { comments.new ≡ marked_within range no_side_effects_applied comments.old }
    ensures starts { comment_starts comments.new ≡ comment_starts comments.old }
{
    mark_each_without_side_effects(&mut comments[range.start as usize..range.end as usize]);
}
