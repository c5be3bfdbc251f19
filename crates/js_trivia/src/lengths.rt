//! How far a trivia builder had come.

use js_kind::Token;
use js_text::CommentRange;

/// How far a trivia builder had come, to go back to.
#[derive(Clone, Copy, PartialEq, Eq, Debug)]
pub struct TriviaLengths {
    /// The last token. It comes first, where no room before it has to be copied with it.
    pub previous: Token,
    /// Where the comments of class `PureNotApplied` are.
    pub pure_range: Option<CommentRange>,
    /// Where the comments of class `NoSideEffectsNotApplied` are.
    pub no_side_effects: Option<CommentRange>,
    /// How many comments were held.
    pub comments: u32,
    /// How many spans of irregular white space were held.
    pub irregular: u32,
    /// A newline event came since the last token.
    pub saw_newline: bool,
    /// A newline event came since the last block comment or token.
    pub saw_newline_for_comment: bool,
}
