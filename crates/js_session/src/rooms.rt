//! Room for the lists of a report that are put together where nothing may fail.

ghost use Rattle.std.specs.Prelude.{◌≡◌};

use js_kind::LexerConfig;
use js_lexer::{Findings, Lexer};
use js_text::{Comment, ItemList, Span};
use std::alloc::{AllocError, Global};

/// A box for the comments and one for the irregular white space that a lexer hands out.
#[derive(Drop)]
pub(crate) struct TriviaRooms {
    alloc: Global,
    comments: Box<Vec<Comment>>,
    irregular: Box<Vec<Span>>,
}

/// The list of the items, in the box.
fn list_in<T: Drop>(alloc: Global, room: Box<Vec<T>>, items: Vec<T>) -> ItemList<T>
    ensures { result ≡ items.items }
{
    let mut room = room;
    *room = items;
    let mut list = ItemList::new_in(alloc);
    list.put_boxed(room);
    list
}

impl TriviaRooms {
    pub(crate) fn new(alloc: Global) -> Result<TriviaRooms, AllocError> {
        Ok(TriviaRooms {
            alloc,
            comments: Box::new(alloc, Vec::new(alloc))?,
            irregular: Box::new(alloc, Vec::new(alloc))?,
        })
    }

    /// Takes out what the lexer has found. It takes no memory.
    pub(crate) fn take_findings<C: LexerConfig + Drop>(self, lexer: &mut Lexer<'_, C>) -> Findings
        ensures { result ≡ lexer.old.findings }
    {
        let TriviaRooms {
            alloc,
            comments,
            irregular,
        } = self;
        Findings {
            diagnostics: lexer.take_errors(),
            deferred: lexer.take_deferred_module_errors(),
            comments: list_in(alloc, comments, lexer.take_comments()),
            irregular: list_in(alloc, irregular, lexer.take_irregular_whitespaces()),
            warnings: lexer.take_warnings(),
        }
    }
}
