//! Questions of the tokens ahead, for `Cursor::lookahead`.

ghost use Rattle.js_lexer.specs.Places.{KeepsPlaces};
ghost use Rattle.js_cursor.specs.Ahead.{LooksAhead, LooksTwoAhead, is_at_on_same_line};
ghost use Rattle.js_cursor.specs.Checkpoint.{GoesOnFrom};
ghost use Rattle.js_cursor.specs.Cursor.{is_at};
ghost use Rattle.js_cursor.specs.Onward.{HasNotGoneBack};

use crate::cursor::Cursor;
use crate::predicate::Predicate;
use js_kind::{Kind, LexerConfig};
use std::alloc::AllocError;

/// Whether the token behind the current one is of the kind.
#[derive(Clone, Copy)]
pub struct IsNext(pub Kind);

/// Whether the token behind the current one is of the kind, and on its line.
#[derive(Clone, Copy)]
pub struct IsNextOnSameLine(pub Kind);

/// Whether the two tokens behind the current one are of these kinds.
#[derive(Clone, Copy)]
pub struct AreNext(pub Kind, pub Kind);

/// Goes on to the next token, and tells whether it is of the kind.
fn goes_to<C: LexerConfig + Drop>(
    cursor: &mut Cursor<'_, C>,
    kind: Kind,
) -> Result<bool, AllocError>
    ensures looks { LooksAhead (is_at kind) cursor.old result cursor.new }
    ensures onward { HasNotGoneBack cursor.old cursor.new }
{
    cursor.bump_any()?;
    Ok(cursor.at(kind))
}

/// Goes on to the next token, and tells whether it is of the kind, and on the line of the one before it.
fn goes_to_on_same_line<C: LexerConfig + Drop>(
    cursor: &mut Cursor<'_, C>,
    kind: Kind,
) -> Result<bool, AllocError>
    ensures looks { LooksAhead (is_at_on_same_line kind) cursor.old result cursor.new }
    ensures onward { HasNotGoneBack cursor.old cursor.new }
{
    cursor.bump_any()?;
    Ok(cursor.at(kind) && !cursor.cur_token().is_on_new_line())
}

/// Goes on to the next token and, where that is of the first kind, to the one behind it, and tells whether both are of
/// these kinds.
fn goes_to_both<C: LexerConfig + Drop>(
    cursor: &mut Cursor<'_, C>,
    first: Kind,
    second: Kind,
) -> Result<bool, AllocError>
    ensures looks { LooksTwoAhead first second cursor.old result cursor.new }
    ensures goes_on { GoesOnFrom cursor.old cursor.new }
    ensures places { KeepsPlaces cursor.old.lexer cursor.new.lexer }
{
    let is_first = goes_to(cursor, first)?;
    if !is_first {
        return Ok(false);
    }
    goes_to(cursor, second)
}

impl<C: LexerConfig + Drop> Predicate<C, Result<bool, AllocError>> for IsNext {
    ghost gives = { λ p c answer d. LooksAhead (is_at p.0) c answer d };

    fn test(&self, cursor: &mut Cursor<'_, C>) -> Result<bool, AllocError> {
        goes_to(cursor, self.0)
    }
}

impl<C: LexerConfig + Drop> Predicate<C, Result<bool, AllocError>> for IsNextOnSameLine {
    ghost gives = { λ p c answer d. LooksAhead (is_at_on_same_line p.0) c answer d };

    fn test(&self, cursor: &mut Cursor<'_, C>) -> Result<bool, AllocError> {
        goes_to_on_same_line(cursor, self.0)
    }
}

impl<C: LexerConfig + Drop> Predicate<C, Result<bool, AllocError>> for AreNext {
    ghost gives = { λ p c answer d. LooksTwoAhead p.0 p.1 c answer d };

    fn test(&self, cursor: &mut Cursor<'_, C>) -> Result<bool, AllocError> {
        goes_to_both(cursor, self.0, self.1)
    }
}
