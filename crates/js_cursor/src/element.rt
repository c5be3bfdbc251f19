//! What a parser reads in a list.

ghost use Rattle.std.specs.Prelude.{Result};
ghost use Rattle.std.specs.declared.alloc.AllocError.{AllocError};
ghost use Rattle.js_lexer.specs.Places.{KeepsPlaces};
ghost use Rattle.js_cursor.specs.Cursor.{CursorState};

use crate::cursor::Cursor;
use js_kind::LexerConfig;
use std::alloc::AllocError;

/// What a parser reads at a cursor, in the place of a closure.
pub trait Element<C: LexerConfig + Drop, T> {
    /// What a reading means, whatever it answers: the element and the cursor before it, its answer, and both after it.
    ghost reads: { Self → CursorState → Result T AllocError → Self → CursorState → Type 0 };

    /// Reads one. The cursor's lexer gives up no place for a token.
    fn read(&mut self, cursor: &mut Cursor<'_, C>) -> Result<T, AllocError>
        ensures reads { reads self.old cursor.old result self.new cursor.new }
        ensures places { KeepsPlaces cursor.old.lexer cursor.new.lexer };
}

/// What a parser reads at a cursor, with a fault of its own. Each `Element` is one, whose fault is want of memory.
pub trait FallibleElement<C: LexerConfig + Drop, T, Fault> {
    /// What a reading means, whatever it answers: the element and the cursor before it, its answer, and both after it.
    ghost reads: { Self → CursorState → Result T Fault → Self → CursorState → Type 0 };

    /// Reads one, or tells why there is none. The cursor's lexer gives up no place for a token.
    fn try_read(&mut self, cursor: &mut Cursor<'_, C>) -> Result<T, Fault>
        ensures reads { reads self.old cursor.old result self.new cursor.new }
        ensures places { KeepsPlaces cursor.old.lexer cursor.new.lexer };
}

impl<C: LexerConfig + Drop, T, F: Element<C, T>> FallibleElement<C, T, AllocError> for F {
    ghost reads = { λ f before answer g after. F.reads f before answer g after };

    fn try_read(&mut self, cursor: &mut Cursor<'_, C>) -> Result<T, AllocError> {
        self.read(cursor)
    }
}
