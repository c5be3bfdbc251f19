//! A text without its comments.

ghost use Rattle.std.specs.Prelude.{◌≡◌, IfOk, ◌∷◌, []};
ghost use Rattle.js_strip.specs.StripText.{StandInOrder, strip_text};
ghost use Rattle.js_grammar.specs.Blanks.{stand_in};

use js_text::{Comment, CommentKind, SourceText};
use std::alloc::{AllocError, Global};

/// What stands for a comment: a line end, where one is inside, else a space.
fn stand_in(kind: CommentKind) -> &'static str
    ensures { result.now ≡ stand_in kind ∷ [] }
{
    match kind {
        CommentKind::MultiLineBlock => "\n",
        _ => " ",
    }
}

/// The text with what stands for each comment in its place, by one pass over the comments.
pub(crate) fn strip_text(
    alloc: Global,
    text: &str,
    comments: &[Comment],
) -> Result<SourceText, AllocError>
    requires { StandInOrder text.now 0 comments.now }
    ensures { IfOk result (λ stripped. stripped ≡ strip_text text.now comments.now) }
{
    let mut stripped = SourceText::new_in(alloc);
    let mut place = 0;
    for comment in comments {
        stripped.push_str(&text[place..comment.span.start as usize])?;
        stripped.push_str(stand_in(comment.kind))?;
        place = comment.span.end as usize;
    }
    stripped.push_str(&text[place..])?;
    Ok(stripped)
}
