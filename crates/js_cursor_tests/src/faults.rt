//! Lists whose elements have a fault of their own.

ghost use Rattle.js_lexer.specs.Places.{KeepsPlaces};

use crate::lists::List;
use crate::script::TestCursor;
use js_cursor::{Cursor, CursorDiagnostic, FallibleElement, ListFault};
use js_kind::{Kind, LexerConfig};
use js_text::Span;
use std::alloc::{AllocError, Global};

/// Why a name is not read.
#[derive(Clone, Copy, PartialEq)]
pub(crate) enum NameFault {
    /// The token that starts at the offset, in bytes, is no name.
    NoName { at: u32 },
    Memory,
}

impl From<AllocError> for NameFault {
    ghost from_gives = { λ _ fault. Unit {0} };

    fn from(_error: AllocError) -> NameFault {
        NameFault::Memory
    }
}

/// Reads a name, which may stand behind dots.
fn read_name<C: LexerConfig + Drop>(cursor: &mut Cursor<'_, C>) -> Result<(), NameFault>
    ensures places { KeepsPlaces cursor.old.lexer cursor.new.lexer }
{
    cursor.bump(Kind::Dot3)?;
    if !cursor.at(Kind::Ident) {
        return Err(NameFault::NoName {
            at: cursor.cur_start(),
        });
    }
    cursor.bump_any()?;
    Ok(())
}

/// A name, or a rest, and else a fault.
#[derive(Clone, Copy)]
struct Name;

impl<C: LexerConfig + Drop> FallibleElement<C, (), NameFault> for Name {
    ghost reads = { λ name before answer same after. Unit {0} };

    fn try_read(&mut self, cursor: &mut Cursor<'_, C>) -> Result<(), NameFault> {
        read_name(cursor)
    }
}

/// A name up to a semicolon, and else a fault.
#[derive(Clone, Copy)]
struct NameUpToSemicolon;

impl<C: LexerConfig + Drop> FallibleElement<C, Option<()>, NameFault> for NameUpToSemicolon {
    ghost reads = { λ name before answer same after. Unit {0} };

    fn try_read(&mut self, cursor: &mut Cursor<'_, C>) -> Result<Option<()>, NameFault> {
        if cursor.at(Kind::Semicolon) {
            return Ok(None);
        }
        read_name(cursor)?;
        Ok(Some(()))
    }
}

/// The span of the `[` or `{` that opens each list.
const OPENING: Span = Span { start: 0, end: 1 };

/// How many names a list has, a rest left out, or why it is not read.
pub(crate) type Names = Result<usize, ListFault<NameFault>>;

/// Reads a list of names: in braces, or else behind its `[` and up to the `]`.
pub(crate) fn names_of(cursor: &mut TestCursor<'_>, alloc: Global, list: List) -> Names {
    match list {
        List::Normal => {
            match cursor.try_parse_normal_list(alloc, Kind::LCurly, Kind::RCurly, Name) {
                Ok(names) => Ok(names.len()),
                Err(fault) => Err(fault),
            }
        }
        List::Breakable => {
            match cursor.try_parse_normal_list_breakable(
                alloc,
                Kind::LCurly,
                Kind::RCurly,
                NameUpToSemicolon,
            ) {
                Ok(names) => Ok(names.len()),
                Err(fault) => Err(fault),
            }
        }
        List::Delimited => {
            match cursor.try_parse_delimited_list(alloc, Kind::RBrack, Kind::Comma, OPENING, Name) {
                Ok((names, _)) => Ok(names.len()),
                Err(fault) => Err(fault),
            }
        }
        List::WithRest => {
            match cursor.try_parse_delimited_list_with_rest(
                alloc,
                Kind::RBrack,
                OPENING,
                Name,
                Name,
                |_rest: &()| OPENING,
                |span: Span| CursorDiagnostic::RestLast { span },
            ) {
                Ok((names, _)) => Ok(names.len()),
                Err(fault) => Err(fault),
            }
        }
    }
}
