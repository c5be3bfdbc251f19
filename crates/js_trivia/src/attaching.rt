//! Attaching the comments that wait.

ghost use Rattle.std.specs.Prelude.{◌≡◌, ◌≤◌, ◌++◌, length, map, take, drop};
ghost use Rattle.js_trivia.specs.Attachment.{attach_to, attach_by, attach_alone, attached_from, trails};
ghost use Rattle.js_trivia.specs.Attachment.{mark_last_followed, last_may_trail};
ghost use Rattle.js_trivia.specs.Trivia.{comment_starts};

use crate::classes::stays_leading;
use crate::kinds::takes_comments;
use js_kind::Token;
use js_text::{Comment, CommentPosition};

/// Attaches a comment to one place.
fn attach_to(comment: &mut Comment, position: CommentPosition, attached_to: u32)
    ensures { comment.new ≡ attach_to position attached_to comment.old }
{
    comment.position = position;
    comment.attached_to = attached_to;
}

/// Attaches any number of comments to one place.
#[inline(never)]
fn attach_many(comments: &mut [Comment], position: CommentPosition, attached_to: u32)
    ensures { comments.new ≡ map (attach_to position attached_to) comments.old }
{
    for comment in comments.iter_mut() {
        attach_to(comment, position, attached_to);
    }
}

/// Attaches comments to one place; mostly there is one.
fn attach_all(comments: &mut [Comment], position: CommentPosition, attached_to: u32)
    ensures { comments.new ≡ map (attach_to position attached_to) comments.old }
{
    match comments {
        [comment] => attach_to(comment, position, attached_to),
        _ => attach_many(comments, position, attached_to),
    }
}

/// Attaches any number of comments, each to the token before or the token after.
#[inline(never)]
fn attach_each_of_many(comments: &mut [Comment], previous: &Token, token: &Token)
    ensures { comments.new ≡ map (attach_alone previous.now token.now) comments.old }
{
    let may_trail = takes_comments(previous.kind(), token.kind());
    for comment in comments.iter_mut() {
        attach_alone(comment, may_trail, previous.end(), token.start());
    }
}

/// Attaches each comment to the token before or the token after; mostly there is one.
fn attach_each(comments: &mut [Comment], previous: &Token, token: &Token)
    ensures { comments.new ≡ map (attach_alone previous.now token.now) comments.old }
{
    match comments {
        [comment] => attach_one(comment, previous, token),
        _ => attach_each_of_many(comments, previous, token),
    }
}

/// Attaches a comment to the token before or the token after. Behind a line end the tokens need not be asked.
fn attach_one(comment: &mut Comment, previous: &Token, token: &Token)
    ensures { comment.new ≡ attach_alone previous.now token.now comment.old }
{
    let may_trail = !comment.preceded && takes_comments(previous.kind(), token.kind());
    attach_alone(comment, may_trail, previous.end(), token.start());
}

/// Attaches a comment to the token before, if it may be trailing, or to the token after.
fn attach_alone(comment: &mut Comment, may_trail: bool, previous_end: u32, token_start: u32)
    ensures { comment.new ≡ attach_by (trails may_trail comment.old) previous_end token_start comment.old }
{
    if may_trail && !comment.preceded && !stays_leading(comment.content) {
        comment.position = CommentPosition::Trailing;
        comment.attached_to = previous_end;
    } else {
        comment.position = CommentPosition::Leading;
        comment.attached_to = token_start;
    }
}

/// Marks the last comment as followed by a line end, and tells whether it may be trailing.
fn mark_last_followed(comments: &mut [Comment]) -> bool
    ensures marked { comments.new ≡ mark_last_followed comments.old }
    ensures trails { result ≡ last_may_trail comments.old }
{
    match comments {
        [] => false,
        [.., last] => {
            last.followed = true;
            !stays_leading(last.content)
        }
    }
}

/// Attaches the comments that wait to one place.
pub(crate) fn attach_pending(
    comments: &mut [Comment],
    processed: usize,
    position: CommentPosition,
    attached_to: u32,
)
    requires { processed ≤ length comments.old }
    ensures attached { comments.new ≡ attached_from processed (attach_to position attached_to) comments.old }
    ensures starts { comment_starts comments.new ≡ comment_starts comments.old }
{
    attach_all(&mut comments[processed..], position, attached_to);
}

/// Attaches each comment that waits to the token before or the token after.
#[inline(never)]
pub(crate) fn attach_each_pending(
    comments: &mut [Comment],
    processed: usize,
    previous: &Token,
    token: Token,
)
    requires { processed ≤ length comments.old }
    ensures attached { comments.new ≡ attached_from processed (attach_alone previous.now token) comments.old }
    ensures starts { comment_starts comments.new ≡ comment_starts comments.old }
{
    attach_each(&mut comments[processed..], previous, &token);
}

/// Marks the last comment that waits as followed by a line end, and tells whether it may be trailing.
pub(crate) fn mark_last_pending(comments: &mut [Comment], processed: usize) -> bool
    requires { processed ≤ length comments.old }
    ensures marked { comments.new ≡ take processed comments.old ++ mark_last_followed (drop processed comments.old) }
    ensures starts { comment_starts comments.new ≡ comment_starts comments.old }
    ensures trails { result ≡ last_may_trail (drop processed comments.old) }
{
    mark_last_followed(&mut comments[processed..])
}
