//! Lists, whose elements are read at the cursor.

use crate::script::TestCursor;
use js_cursor::{Cursor, CursorDiagnostic, CursorFault, Element, ParserCheckpoint};
use js_kind::{Kind, LexerConfig};
use js_text::Span;
use std::alloc::{AllocError, Global};

/// Which list is read.
#[derive(Clone, Copy)]
pub(crate) enum List {
    /// Elements in braces.
    Normal,
    /// Names in braces, up to what is none.
    Breakable,
    /// Elements with commas between them.
    Delimited,
    /// The same, where a rest may be the last one.
    WithRest,
}

/// What an element is.
#[derive(Clone, Copy)]
pub(crate) enum Item {
    Nothing,
    Token,
    /// Dots, and a token.
    Rest,
    /// The first time a token, and then the way back before it.
    StepBack,
}

/// Reads elements. It holds where it stood before the token from which it steps back.
#[derive(Drop)]
struct Reader {
    item: Item,
    checkpoint: Option<ParserCheckpoint>,
}

impl<C: LexerConfig + Drop> Element<C, ()> for Reader {
    ghost reads = { λ f c x g d. Unit {0} };

    #[tactic(auto, using(js_lexer::proofs::Sparse::places_rewound))]
    fn read(&mut self, cursor: &mut Cursor<'_, C>) -> Result<(), AllocError> {
        match self.item {
            Item::Nothing => return Ok(()),
            Item::Token => return cursor.bump_any(),
            Item::Rest => {
                cursor.bump_any()?;
                return cursor.bump_any();
            }
            Item::StepBack => {}
        }
        match self.checkpoint.take() {
            None => {
                self.checkpoint = Some(cursor.checkpoint());
                cursor.bump_any()
            }
            Some(checkpoint) => {
                if cursor.can_rewind(&checkpoint) {
                    cursor.rewind(checkpoint);
                }
                Ok(())
            }
        }
    }
}

/// A name, if one is current.
#[derive(Clone, Copy)]
struct Name;

impl<C: LexerConfig + Drop> Element<C, Option<()>> for Name {
    ghost reads = { λ f c x g d. Unit {0} };

    fn read(&mut self, cursor: &mut Cursor<'_, C>) -> Result<Option<()>, AllocError> {
        match cursor.eat(Kind::Ident)? {
            true => Ok(Some(())),
            false => Ok(None),
        }
    }
}

/// The span of the `[` or `{` that opens each list.
const OPENING: Span = Span { start: 0, end: 1 };

/// How many elements a list has, a rest among them, and where a comma behind them starts.
pub(crate) type Counted = (usize, Option<u32>);

/// Reads a list: in braces, or else behind its `[` and up to the `]`. The span of a rest is told as that of `...b`.
pub(crate) fn reads_list(
    cursor: &mut TestCursor<'_>,
    alloc: Global,
    list: List,
    item: Item,
) -> Result<Counted, CursorFault> {
    let reader = Reader {
        item,
        checkpoint: None,
    };
    match list {
        List::Normal => {
            match cursor.parse_normal_list(alloc, Kind::LCurly, Kind::RCurly, reader) {
                Ok(items) => Ok((items.len(), None)),
                Err(fault) => Err(fault),
            }
        }
        List::Breakable => {
            match cursor.parse_normal_list_breakable(alloc, Kind::LCurly, Kind::RCurly, Name) {
                Ok(names) => Ok((names.len(), None)),
                Err(fault) => Err(fault),
            }
        }
        List::Delimited => {
            match cursor.parse_delimited_list(alloc, Kind::RBrack, Kind::Comma, OPENING, reader) {
                Ok((items, trailing)) => Ok((items.len(), trailing)),
                Err(fault) => Err(fault),
            }
        }
        List::WithRest => {
            match cursor.parse_delimited_list_with_rest(
                alloc,
                Kind::RBrack,
                OPENING,
                reader,
                Reader {
                    item: Item::Rest,
                    checkpoint: None,
                },
                |_rest: &()| Span { start: 1, end: 5 },
                |span: Span| CursorDiagnostic::RestLast { span },
            ) {
                Ok((items, Some(()))) => Ok((items.len().saturating_add(1), None)),
                Ok((items, None)) => Ok((items.len(), None)),
                Err(fault) => Err(fault),
            }
        }
    }
}
