//! Checkpoints, and speculation without a trace.

ghost use Rattle.std.specs.Prelude.{◌≡◌, ◌↔◌, List, IsTrue, IfOk, OnOk, OnErr};
ghost use Rattle.js_text.specs.declared.diagnostic.Diagnostic.{Diagnostic};
ghost use Rattle.js_lexer.specs.Places.{IsSparse, IsSparseCheckpoint};
ghost use Rattle.js_cursor.specs.Checkpoint.{CanRewind, GoesOnFrom, checkpoint_of};
ghost use Rattle.js_cursor.specs.Checkpoint.{checkpoint_with_errors_of, rewound, with_diagnostics, without_fatal_error};
ghost use Rattle.js_cursor.specs.Cursor.{CursorState, IsAsBefore};
ghost use Rattle.js_cursor.specs.Onward.{HasNotAdvanced};

use super::Cursor;
use crate::checkpoint::ParserCheckpoint;
use crate::predicate::Predicate;
use js_kind::LexerConfig;
use std::alloc::AllocError;

impl<C: LexerConfig + Drop> Cursor<'_, C> {
    /// What `rewind` goes back to. It takes the fatal error with it, and copies no list.
    pub fn checkpoint(&mut self) -> ParserCheckpoint
        ensures state { result ≡ checkpoint_of self.old }
        ensures taken { self.new ≡ without_fatal_error self.old }
        ensures open { CanRewind self.new result }
        ensures sparse { IsSparse self.old.lexer → IsSparseCheckpoint self.old.lexer.collects result.lexer }
    {
        ParserCheckpoint {
            lexer: self.lexer.checkpoint(),
            token: self.token,
            previous_end: self.previous_end,
            errors: self.errors.len(),
            fatal: self.fatal.take(),
        }
    }

    /// What `rewind` goes back to, with a copy of what the lexer reported, which comes back with it. It takes the fatal
    /// error with it; where there is no memory for the copy, nothing changes.
    pub fn checkpoint_with_error_recovery(&mut self) -> Result<ParserCheckpoint, AllocError>
        ensures state { IfOk result (λ c. c ≡ checkpoint_with_errors_of self.old) }
        ensures taken { OnOk result (self.new ≡ without_fatal_error self.old) }
        ensures open { IfOk result (CanRewind self.new) }
        ensures sparse { IfOk result (λ c. IsSparse self.old.lexer
            → IsSparseCheckpoint self.old.lexer.collects c.lexer) }
        ensures err { OnErr result (self.new ≡ self.old) }
    {
        let lexer = self.lexer.checkpoint_with_error_recovery()?;
        let mut checkpoint = self.checkpoint();
        checkpoint.lexer = lexer;
        Ok(checkpoint)
    }

    /// Whether the cursor may go back to the checkpoint: its lexer may, and it has no fewer errors than there were.
    pub fn can_rewind(&self, checkpoint: &ParserCheckpoint) -> bool
        ensures { IsTrue result ↔ CanRewind self.now checkpoint.now }
    {
        if checkpoint.errors > self.errors.len() {
            return false;
        }
        self.lexer.can_rewind(&checkpoint.lexer)
    }

    /// Goes back to the checkpoint, and puts its fatal error back. Where the lists begin as they did there, the cursor
    /// is then as it was before the checkpoint, but for decoded values that were added. Diagnostics of the lexer that
    /// were copied may be others by now.
    pub fn rewind(&mut self, checkpoint: ParserCheckpoint)
        requires { CanRewind self.old checkpoint }
        ensures state { self.new ≡ rewound self.old checkpoint }
        ensures sparse { IsSparseCheckpoint self.old.lexer.collects checkpoint.lexer → IsSparse self.new.lexer }
        ensures restores { (earlier : CursorState) → checkpoint ≡ checkpoint_of earlier → GoesOnFrom earlier self.old
            → IsAsBefore earlier self.new }
        ensures recovers { (earlier : CursorState) (left : List Diagnostic)
            → checkpoint ≡ checkpoint_with_errors_of earlier
            → GoesOnFrom (with_diagnostics left earlier) self.old → IsAsBefore earlier self.new }
    {
        let ParserCheckpoint {
            lexer,
            token,
            previous_end,
            errors,
            fatal,
        } = checkpoint;
        self.lexer.rewind(lexer);
        self.token = token;
        self.previous_end = previous_end;
        self.errors.truncate(errors);
        self.fatal = fatal;
    }

    /// Tries something, with no fatal error at first, and goes back: the cursor is then as it was, its fatal error
    /// included, but for decoded values that were added.
    pub fn lookahead<U, P: Predicate<C, U> + Drop>(&mut self, predicate: P) -> U
        ensures gives { (after : CursorState) × P.gives predicate (without_fatal_error self.old) result after }
        ensures no_trace { IsAsBefore self.old self.new }
        ensures stays { HasNotAdvanced self.old self.new }
    {
        let checkpoint = self.checkpoint();
        let answer = predicate.test(self);
        self.rewind(checkpoint);
        answer
    }
}
