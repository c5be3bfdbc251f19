//! Tokens that were read, and are not handed over yet.

ghost use Rattle.std.specs.Prelude.{◌≡◌, ◌<◌, [], ◌∷◌, ◌++◌, length, None, OnOk, OnErr};
ghost use Rattle.std.specs.List.{AllByRecursion};
ghost use Rattle.js_lists.specs.Drive.{IsHeld};
ghost use Rattle.js_lists.specs.Steps.{AreHeld, ClosesMark, GoesBack, HandsEach, MayGoBack, OpensMark, Settles};
ghost use Rattle.js_lists.specs.Taken.{BreaksOff};

use crate::hand::hand_over;
use crate::take::TakeTokens;
use js_kind::{LexerConfig, Token};
use js_lexer::{Lexer, LexerCheckpoint};
use js_session::LastRead;
use js_text::ItemList;
use std::alloc::{AllocError, Global};

/// An open mark: where the lexer stood, its last token, and how many tokens before that one waited.
#[derive(Drop)]
pub(crate) struct OpenMark {
    pub checkpoint: LexerCheckpoint,
    pub last: LastRead,
    pub waiting: usize,
}

/// The last token, which may be read again, and the tokens before it that wait: while a mark is open, none is handed
/// over, since what was read behind the mark may be struck out.
#[derive(Drop)]
pub(crate) struct Pending {
    pub last: LastRead,
    pub waiting: ItemList<LastRead>,
    pub marks: ItemList<OpenMark>,
}

/// Hands tokens over, one behind the other.
fn hand_each<C: LexerConfig + Drop, T: TakeTokens>(
    lexer: &Lexer<'_, C>,
    taker: &mut T,
    tokens: &[LastRead],
) -> Result<(), AllocError>
    requires { AllByRecursion (IsHeld lexer.now.decoded) tokens.now }
    ensures ok { OnOk result (HandsEach T.takes lexer.now.decoded tokens.now taker.old taker.new) }
    ensures err { OnErr result (BreaksOff T.takes T.breaks_off taker.old taker.new) }
{
    for token in tokens {
        hand_over(lexer, taker, token)?;
    }
    Ok(())
}

impl Pending {
    /// Nothing waits before this token, and no mark is open.
    pub(crate) fn behind(alloc: Global, token: Token) -> Pending
        ensures { result ≡ record { last = record { token = token; regex = None }; waiting = []; marks = [] } }
    {
        Pending {
            last: LastRead { token, regex: None },
            waiting: ItemList::new_in(alloc),
            marks: ItemList::new_in(alloc),
        }
    }

    /// Hands over what waits, and the last token behind it.
    pub(crate) fn hand_all<C: LexerConfig + Drop, T: TakeTokens>(
        &self,
        lexer: &Lexer<'_, C>,
        taker: &mut T,
    ) -> Result<(), AllocError>
        requires { AreHeld lexer.now.decoded self.now }
        ensures ok { OnOk result
            (HandsEach T.takes lexer.now.decoded (self.now.waiting ++ self.now.last ∷ []) taker.old taker.new) }
        ensures err { OnErr result (BreaksOff T.takes T.breaks_off taker.old taker.new) }
    {
        hand_each(lexer, taker, self.waiting.as_slice())?;
        hand_over(lexer, taker, &self.last)
    }

    /// The last token is settled: it is handed over behind what waits, or waits too where a mark is open.
    pub(crate) fn settle<C: LexerConfig + Drop, T: TakeTokens>(
        &mut self,
        lexer: &Lexer<'_, C>,
        taker: &mut T,
    ) -> Result<(), AllocError>
        requires { AreHeld lexer.now.decoded self.old }
        ensures ok { OnOk result (Settles T.takes lexer.now.decoded self.old.marks self.old self.new taker.old taker.new) }
        ensures err { OnErr result (BreaksOff T.takes T.breaks_off taker.old taker.new) }
    {
        if self.marks.is_empty() {
            self.hand_all(lexer, taker)?;
            self.waiting.truncate(0);
            Ok(())
        } else {
            self.waiting.push(self.last)
        }
    }

    /// Opens a mark.
    pub(crate) fn open<C: LexerConfig + Drop>(
        &mut self,
        lexer: &Lexer<'_, C>,
    ) -> Result<(), AllocError>
        ensures { OnOk result (OpensMark lexer.now self.old self.new) }
    {
        self.marks.push(OpenMark {
            checkpoint: lexer.checkpoint(),
            last: self.last,
            waiting: self.waiting.len(),
        })
    }

    /// Goes back to the last open mark, and closes it. What was read behind it is struck out.
    pub(crate) fn rewind<C: LexerConfig + Drop>(&mut self, lexer: &mut Lexer<'_, C>)
        requires some { 0 < length self.old.marks }
        requires may { MayGoBack lexer.old self.old.marks }
        ensures { GoesBack lexer.old lexer.new self.old self.new }
    {
        if let Some(mark) = self.marks.pop() {
            lexer.rewind(mark.checkpoint);
            self.waiting.truncate(mark.waiting);
            self.last = mark.last;
        }
    }

    /// Closes the last open mark.
    pub(crate) fn commit(&mut self)
        requires { 0 < length self.old.marks }
        ensures { ClosesMark self.old self.new }
    {
        self.marks.pop();
    }
}
