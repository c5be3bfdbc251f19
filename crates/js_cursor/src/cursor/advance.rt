//! Going on to the next token.

ghost use Rattle.std.specs.Prelude.{◌≡◌, true, MatchBool, IsTrue, IfOk, OnOk, OnErr};
ghost use Rattle.js_cursor.specs.Cursor.{Advances, IsAsBefore, ReadsOn, is_at, noting_escape};
ghost use Rattle.js_cursor.specs.Onward.{HasNotGoneBack, HasPassed};

use super::Cursor;
use crate::diagnostic::CursorDiagnostic;
use js_grammar::Goal;
use js_kind::{Kind, LexerConfig};
use std::alloc::AllocError;

impl<C: LexerConfig + Drop> Cursor<'_, C> {
    /// Reports an escape in the current token, where it is taken as a word of the language.
    fn note_escape(&mut self, kind: Kind) -> Result<(), AllocError>
        ensures ok { OnOk result (self.new ≡ noting_escape kind self.old) }
        ensures err { OnErr result (self.new ≡ self.old) }
    {
        if !self.token.escaped() {
            return Ok(());
        }
        if !kind.is_any_keyword() {
            return Ok(());
        }
        self.errors.push(CursorDiagnostic::EscapedKeyword {
            span: self.token.span(),
        })
    }

    /// Reads the next token.
    fn read_next(&mut self) -> Result<(), AllocError>
        ensures ok { OnOk result (ReadsOn Goal.Next self.old self.new) }
        ensures err { OnErr result (IsAsBefore self.old self.new) }
        ensures passed { OnOk result (HasPassed self.old.token.kind self.old self.new) }
        ensures onward { HasNotGoneBack self.old self.new }
    {
        let token = self.lexer.next_token()?;
        self.previous_end = self.token.end();
        self.token = token;
        Ok(())
    }

    /// Takes the current token as one of the kind, and goes on to the next. A word of the language that is written with
    /// an escape is reported (ECMA-262 12.7.2).
    pub fn advance(&mut self, kind: Kind) -> Result<(), AllocError>
        ensures ok { OnOk result (Advances kind self.old self.new) }
        ensures err { OnErr result (IsAsBefore self.old self.new) }
        ensures passed { OnOk result (HasPassed self.old.token.kind self.old self.new) }
        ensures onward { HasNotGoneBack self.old self.new }
    {
        let reported = self.errors.len();
        self.note_escape(kind)?;
        match self.read_next() {
            Ok(()) => Ok(()),
            Err(error) => {
                self.errors.truncate(reported);
                Err(error)
            }
        }
    }

    /// Goes on to the next token, whatever the current one is.
    pub fn bump_any(&mut self) -> Result<(), AllocError>
        ensures ok { OnOk result (Advances self.old.token.kind self.old self.new) }
        ensures err { OnErr result (IsAsBefore self.old self.new) }
        ensures passed { OnOk result (HasPassed self.old.token.kind self.old self.new) }
        ensures onward { HasNotGoneBack self.old self.new }
    {
        self.advance(self.cur_kind())
    }

    /// Goes on to the next token where the current one is of the kind; else nothing changes.
    pub fn bump(&mut self, kind: Kind) -> Result<(), AllocError>
        ensures ok { OnOk result (MatchBool (is_at kind self.old) (Advances kind self.old self.new)
            (self.new ≡ self.old)) }
        ensures err { OnErr result (IsAsBefore self.old self.new) }
        ensures passed { OnOk result (is_at kind self.old ≡ true → HasPassed kind self.old self.new) }
        ensures onward { HasNotGoneBack self.old self.new }
    {
        if !self.at(kind) {
            return Ok(());
        }
        self.advance(kind)
    }

    /// Goes on to the next token where the current one is of the kind, and tells whether it was; else nothing changes.
    pub fn eat(&mut self, kind: Kind) -> Result<bool, AllocError>
        ensures ok { IfOk result (λ eaten. MatchBool eaten (Advances kind self.old self.new) (self.new ≡ self.old)) }
        ensures answer { IfOk result (λ eaten. eaten ≡ is_at kind self.old) }
        ensures err { OnErr result (IsAsBefore self.old self.new) }
        ensures passed { IfOk result (λ eaten. IsTrue eaten → HasPassed kind self.old self.new) }
        ensures onward { HasNotGoneBack self.old self.new }
    {
        if !self.at(kind) {
            return Ok(false);
        }
        self.advance(kind)?;
        Ok(true)
    }
}
