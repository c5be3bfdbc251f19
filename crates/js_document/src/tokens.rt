//! The live tokens of a document, one after the other.

ghost use Rattle.std.specs.Prelude.{◌≡◌, drop};
ghost use Rattle.std.specs.Iterator.{YieldsFirst, item_count};
ghost use Rattle.js_document.specs.Gap.{entries_of, rows_of};
ghost use Rattle.js_document.specs.LiveTokens.{tokens_in};

use crate::gap::GapRows;
use js_kind::Token;
use std::marker::Model;

/// Gives the live tokens of a document, in order, seen as the list of those that are left. What a place behind the last
/// edit lacks is added as it is read.
#[derive(Drop)]
pub struct Tokens<'d, K> {
    entries: &'d GapRows<K>,
    /// The row of the next token.
    next: usize,
}

impl<'d, K> Model for Tokens<'d, K> {
    ghost use Rattle.std.specs.Prelude.{List, drop};
    ghost use Rattle.js_kind.specs.TokenParts.{TokenParts};
    ghost use Rattle.js_document.specs.Gap.{entries_of, rows_of};
    ghost use Rattle.js_document.specs.LiveTokens.{tokens_in};

    ghost Value = { List TokenParts };

    ghost view = { λ t. tokens_in (drop t.next (rows_of {K = K} (entries_of {K = K} t.entries.now))) };
}

impl<'d, K: Copy + Drop> Tokens<'d, K> {
    /// Those of the rows from one on.
    pub(crate) fn new(entries: &'d GapRows<K>, row: usize) -> Tokens<'d, K>
        ensures { result ≡ tokens_in (drop row (rows_of {K = K} (entries_of {K = K} entries.now))) }
    {
        Tokens { entries, next: row }
    }
}

impl<'d, K: Copy + Drop> Iterator for Tokens<'d, K> {
    type Item = Token;

    ghost next_gives = { YieldsFirst (λ rest. rest) };

    ghost remaining = { item_count (λ rest. rest) };

    fn next(&mut self) -> Option<Token> {
        if self.next >= self.entries.len() {
            return None;
        }
        let behind = self.entries.behind_again(self.next);
        let token = self.entries.token(behind - 1)?;
        self.next = behind;
        Some(token)
    }
}
