//! What a session goes back to.

use js_lexer::LexerCheckpoint;

/// A mark: where the lexer stood, and how many tokens were live.
#[derive(Drop)]
pub(crate) struct SessionMark {
    pub checkpoint: LexerCheckpoint,
    pub tokens: usize,
}
