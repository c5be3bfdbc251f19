//! What a parser tries.

ghost use Rattle.js_lexer.specs.Places.{KeepsPlaces};
ghost use Rattle.js_cursor.specs.Checkpoint.{GoesOnFrom};
ghost use Rattle.js_cursor.specs.Cursor.{CursorState};

use crate::cursor::Cursor;
use js_kind::LexerConfig;

/// What a parser tries at a cursor, in the place of a closure.
pub trait Predicate<C: LexerConfig + Drop, U> {
    /// What a try means: the cursor before it, its answer, and the cursor after it.
    ghost gives: { Self → CursorState → U → CursorState → Type 0 };

    /// Tries it. The cursor keeps its source, its configuration and `ambient`, its lists are only added to, the last
    /// collected token aside, and its lexer gives up no place for a token.
    fn test(&self, cursor: &mut Cursor<'_, C>) -> U
        ensures gives { gives self.now cursor.old result cursor.new }
        ensures goes_on { GoesOnFrom cursor.old cursor.new }
        ensures places { KeepsPlaces cursor.old.lexer cursor.new.lexer };
}
