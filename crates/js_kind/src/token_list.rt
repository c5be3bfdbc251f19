//! Lists of tokens.

ghost use Rattle.std.specs.Prelude.{◌≡◌, ◌<◌, ◌↔◌, ◌==◌, [], ◌∷◌, ◌++◌, length, take, IsSome, IfOk, OnOk, OnErr};
ghost use Rattle.std.specs.Prelude.{option_to_list};
ghost use Rattle.js_text.specs.Lists.{with_last};

use crate::token::Token;
use js_places::ReservedList;
use std::alloc::{AllocError, Global};
use std::marker::Model;

/// A growing list of tokens. It keeps its allocator.
#[derive(Drop)]
pub struct TokenList {
    /// The tokens, perhaps with places behind them that a lexer had reserved.
    places: ReservedList<Token>,
}

impl Model for TokenList {
    ghost use Rattle.std.specs.Prelude.{List};
    ghost use Rattle.js_kind.specs.TokenParts.{TokenParts};

    ghost Value = { List TokenParts };

    ghost view = { λ l. l.places.items };
}

impl TokenList {
    /// A list of no tokens. It needs no memory yet.
    pub fn new_in(alloc: Global) -> TokenList
        ensures { result ≡ [] }
    {
        TokenList {
            places: ReservedList::new_in(alloc),
        }
    }

    /// The list of these tokens. The places that are free stay with it.
    pub fn from_places(places: ReservedList<Token>) -> TokenList
        ensures { result ≡ places.items }
    {
        TokenList { places }
    }

    /// The tokens, with no free place.
    pub fn into_places(self) -> ReservedList<Token>
        ensures { result ≡ record { items = self; free = 0 } }
    {
        let TokenList { mut places } = self;
        places.close();
        places
    }

    /// How many tokens there are.
    pub fn len(&self) -> usize
        ensures { result ≡ length self.now }
    {
        self.places.len()
    }

    /// Whether there is no token.
    pub fn is_empty(&self) -> bool
        ensures { result ≡ (length self.now == 0) }
    {
        self.places.len() == 0
    }

    /// The tokens, in the order in which they were added.
    pub fn as_slice(&self) -> &[Token]
        ensures { result.now ≡ self.now }
    {
        self.places.as_slice()
    }

    /// Adds a token at the end. Where there is no memory for it, the list stays as it was.
    pub fn push(&mut self, item: Token) -> Result<(), AllocError>
        ensures ok { OnOk result (self.new ≡ self.old ++ item ∷ []) }
        ensures err { OnErr result (self.new ≡ self.old) }
    {
        self.places.push(item)
    }

    /// Takes the last token, if there is one.
    pub fn pop(&mut self) -> Option<Token>
        ensures found { IsSome result ↔ (0 < length self.old) }
        ensures items { self.old ≡ self.new ++ option_to_list result }
    {
        self.places.pop()
    }

    /// Keeps the first `len` tokens; a shorter list stays as it is.
    pub fn truncate(&mut self, len: usize)
        ensures { self.new ≡ take len self.old }
    {
        self.places.truncate(len);
    }

    /// Puts the token in the place of the last one; an empty list stays as it is.
    pub fn replace_last(&mut self, token: Token)
        ensures { self.new ≡ with_last self.old token }
    {
        self.places.replace_last(token);
    }

    /// Adds copies of the tokens at the end. Where there is no memory for all of them, the list stays as it was.
    pub fn extend_from_slice(&mut self, tokens: &[Token]) -> Result<(), AllocError>
        ensures ok { OnOk result (self.new ≡ self.old ++ tokens.now) }
        ensures err { OnErr result (self.new ≡ self.old) }
    {
        self.places.extend_from_slice(tokens)
    }

    /// An equal list.
    pub fn copy(&self, alloc: Global) -> Result<TokenList, AllocError>
        ensures { IfOk result (λ l. l ≡ self.now) }
    {
        let mut copied = TokenList::new_in(alloc);
        copied.extend_from_slice(self.places.as_slice())?;
        Ok(copied)
    }
}
