//! Checkpoints: what a cursor goes back to.

use crate::diagnostic::FatalError;
use js_kind::Token;
use js_lexer::LexerCheckpoint;
use std::marker::Model;

/// Where a cursor stood, how long its lists were, and the fatal error that it had.
#[derive(Drop)]
pub struct ParserCheckpoint {
    pub(crate) lexer: LexerCheckpoint,
    pub(crate) token: Token,
    pub(crate) previous_end: u32,
    pub(crate) errors: usize,
    pub(crate) fatal: Option<FatalError>,
}

impl Model for ParserCheckpoint {
    ghost use Rattle.js_cursor.specs.Checkpoint.{CursorCheckpoint, IsOfToken};

    ghost Value = { CursorCheckpoint };

    ghost view = { λ c. record {
      lexer = c.lexer;
      token = c.token;
      previous_end = c.previous_end;
      errors = c.errors;
      fatal = c.fatal;
    } };

    ghost invariant = { λ c. IsOfToken c.lexer c.token c.previous_end };
}
