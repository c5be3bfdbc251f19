//! Where a comment stands in the list of comments, and the ranges of annotations.

ghost use Rattle.std.specs.Prelude.{◌≡◌, ◌-◌, ◌^◌, ◌<◌, ◌≤◌, length, IfSome};
ghost use Rattle.std.specs.List.{position_from};
ghost use Rattle.js_trivia.specs.Trivia.{is_past, AscendFrom, comment_starts, span_starts, is_span, index_of_new};
ghost use Rattle.js_trivia.specs.Trivia.{extend};

use js_text::{Comment, CommentRange, Span};

/// Whether a comment that starts here is new.
pub(crate) fn is_past_comments(comments: &[Comment], start: u32) -> bool
    ensures { result ≡ is_past start (comment_starts comments.now) }
{
    match comments {
        [] => true,
        [.., last] => last.span.start < start,
    }
}

pub(crate) fn is_past_spans(spans: &[Span], start: u32) -> bool
    ensures { result ≡ is_past start (span_starts spans.now) }
{
    match spans {
        [] => true,
        [.., last] => last.start < start,
    }
}

/// The index of a comment that starts here, if it is new.
pub(crate) fn new_index(comments: &[Comment], start: u32) -> Option<u32>
    requires { AscendFrom 0 (comment_starts comments.now) }
    ensures index { result ≡ index_of_new start comments.now }
    ensures behind { IfSome result (λ index. index ≡ length comments.now) }
    ensures bound { IfSome result (λ index. index ≤ start) }
{
    if is_past_comments(comments, start) {
        Some(comments.len() as u32)
    } else {
        None
    }
}

/// Where a comment of this span is held.
pub(crate) fn find_comment(comments: &[Comment], start: u32, end: u32) -> Option<u32>
    requires { AscendFrom 0 (comment_starts comments.now) }
    ensures at { result ≡ position_from (is_span start end) 0 comments.now }
    ensures held { IfSome result (λ index. index < length comments.now) }
    ensures bound { IfSome result (λ index. index ≤ start) }
{
    let index = position_of(comments, start, end)?;
    Some(index as u32)
}

fn position_of(comments: &[Comment], start: u32, end: u32) -> Option<usize>
    ensures { result ≡ position_from (is_span start end) 0 comments.now }
{
    comments.iter().position(|comment| comment.span.start == start && comment.span.end == end)
}

/// The range with the comment at this index.
pub(crate) fn extend(range: Option<CommentRange>, index: u32) -> Option<CommentRange>
    requires { index < 2 ^ 32 - 1 }
    ensures { result ≡ extend index range }
{
    let end = index + 1;
    match range {
        Some(range) => {
            let start = if index < range.start {
                index
            } else {
                range.start
            };
            Some(CommentRange { start, end })
        }
        None => Some(CommentRange { start: index, end }),
    }
}
