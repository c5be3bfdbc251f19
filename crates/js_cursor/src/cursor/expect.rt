//! Tokens that are expected, the ends of statements, and the advances of JSX.

ghost use Rattle.std.specs.Prelude.{◌≡◌, ◌<◌, true, MatchBool, OnOk, OnErr};
ghost use Rattle.js_cursor.specs.Cursor.{Advances, IsAsBefore, ReadsOn, is_at};
ghost use Rattle.js_cursor.specs.Expect.{expecting, expecting_alternative, expecting_closing, expecting_semicolon};
ghost use Rattle.js_cursor.specs.Onward.{HasNotAdvanced, HasNotGoneBack, HasPassed};

use super::Cursor;
use crate::diagnostic::CursorDiagnostic;
use js_grammar::Goal;
use js_kind::{Kind, LexerConfig};
use js_text::Span;
use std::alloc::AllocError;

impl<C: LexerConfig + Drop> Cursor<'_, C> {
    /// Stops the parser where the current token is not of the kind.
    pub fn expect_without_advance(&mut self, kind: Kind)
        ensures state { self.new ≡ expecting kind self.old }
        ensures stays { HasNotAdvanced self.old self.new }
    {
        if self.at(kind) {
            return;
        }
        let (found, span) = (self.cur_kind(), self.cur_span());
        self.set_fatal_error(CursorDiagnostic::ExpectToken {
            expected: kind,
            found,
            span,
        });
    }

    /// Stops the parser where the current token is not of the kind, and goes on to the next token in both cases.
    pub fn expect(&mut self, kind: Kind) -> Result<(), AllocError>
        ensures ok { OnOk result (Advances kind (expecting kind self.old) self.new) }
        ensures err { OnErr result (IsAsBefore (expecting kind self.old) self.new) }
        ensures passed { OnOk result (HasPassed self.old.token.kind self.old self.new) }
        ensures onward { HasNotGoneBack self.old self.new }
    {
        self.expect_without_advance(kind);
        self.advance(kind)
    }

    /// Stops the parser where the current token is not of the kind that closes what stands at `opening_span`.
    fn expect_closing_without_advance(&mut self, kind: Kind, opening_span: Span)
        ensures { self.new ≡ expecting_closing kind opening_span self.old }
    {
        if self.at(kind) {
            return;
        }
        let (found, span) = (self.cur_kind(), self.cur_span());
        self.set_fatal_error(CursorDiagnostic::ExpectClosing {
            expected: kind,
            found,
            span,
            opening: opening_span,
        });
    }

    /// Stops the parser where the current token is not of the kind that closes what stands at `opening_span`, and goes
    /// on to the next token in both cases.
    pub fn expect_closing(&mut self, kind: Kind, opening_span: Span) -> Result<(), AllocError>
        ensures ok { OnOk result (Advances kind (expecting_closing kind opening_span self.old) self.new) }
        ensures err { OnErr result (IsAsBefore (expecting_closing kind opening_span self.old) self.new) }
        ensures passed { OnOk result (HasPassed self.old.token.kind self.old self.new) }
        ensures onward { HasNotGoneBack self.old self.new }
    {
        self.expect_closing_without_advance(kind, opening_span);
        self.advance(kind)
    }

    /// Stops the parser where the current token is not the `:` of the `?` that stands at `question_span`.
    fn expect_colon_without_advance(&mut self, question_span: Span)
        ensures { self.new ≡ expecting_alternative question_span self.old }
    {
        if self.at(Kind::Colon) {
            return;
        }
        let (found, span) = (self.cur_kind(), self.cur_span());
        self.set_fatal_error(CursorDiagnostic::ExpectConditionalAlternative {
            found,
            span,
            question: question_span,
        });
    }

    /// Stops the parser where the current token is not the `:` of the `?` that stands at `question_span`, and goes on
    /// to the next token in both cases.
    pub fn expect_conditional_alternative(&mut self, question_span: Span) -> Result<(), AllocError>
        ensures ok { OnOk result
            (Advances self.old.token.kind (expecting_alternative question_span self.old) self.new) }
        ensures err { OnErr result (IsAsBefore (expecting_alternative question_span self.old) self.new) }
        ensures passed { OnOk result (HasPassed self.old.token.kind self.old self.new) }
        ensures onward { HasNotGoneBack self.old self.new }
    {
        let kind = self.cur_kind();
        self.expect_colon_without_advance(question_span);
        self.advance(kind)
    }

    /// Stops the parser where no semicolon can be inserted before the current token, which is none.
    fn expect_semicolon_inserted(&mut self)
        ensures { self.new ≡ expecting_semicolon self.old }
    {
        if self.can_insert_semicolon() {
            return;
        }
        self.set_fatal_error(CursorDiagnostic::AutoSemicolonInsertion {
            span: Span::empty(self.previous_end),
        });
    }

    /// Ends a statement (ECMA-262 12.10): goes past a semicolon, or stops the parser where none can be inserted.
    pub fn asi(&mut self) -> Result<(), AllocError>
        ensures ok { OnOk result (MatchBool (is_at Kind.Semicolon self.old) (Advances Kind.Semicolon self.old self.new)
            (self.new ≡ expecting_semicolon self.old)) }
        ensures err { OnErr result (IsAsBefore self.old self.new) }
        ensures starts { OnOk result (is_at Kind.Semicolon self.old ≡ true
            → self.old.token.start < self.new.token.start) }
        ensures passed { OnOk result (is_at Kind.Semicolon self.old ≡ true
            → HasPassed Kind.Semicolon self.old self.new) }
        ensures onward { HasNotGoneBack self.old self.new }
    {
        if self.at(Kind::Semicolon) {
            return self.advance(Kind::Semicolon);
        }
        self.expect_semicolon_inserted();
        Ok(())
    }

    /// Goes on to the next token, read as what stands between two tags of JSX.
    pub fn advance_for_jsx_child(&mut self) -> Result<(), AllocError>
        ensures ok { OnOk result (ReadsOn Goal.JsxChild self.old self.new) }
        ensures err { OnErr result (IsAsBefore self.old self.new) }
        ensures passed { OnOk result (HasPassed self.old.token.kind self.old self.new) }
        ensures onward { HasNotGoneBack self.old self.new }
    {
        let token = self.lexer.next_jsx_child()?;
        self.previous_end = self.token.end();
        self.token = token;
        Ok(())
    }

    /// Goes on to the next token, read as the value of an attribute of JSX.
    pub fn advance_for_jsx_attribute_value(&mut self) -> Result<(), AllocError>
        ensures ok { OnOk result (ReadsOn Goal.JsxAttributeValue self.old self.new) }
        ensures err { OnErr result (IsAsBefore self.old self.new) }
        ensures passed { OnOk result (HasPassed self.old.token.kind self.old self.new) }
        ensures onward { HasNotGoneBack self.old self.new }
    {
        let token = self.lexer.next_jsx_attribute_value()?;
        self.previous_end = self.token.end();
        self.token = token;
        Ok(())
    }

    /// Stops the parser where the current token is not of the kind, and goes on to the next token, read as what stands
    /// between two tags of JSX, in both cases.
    pub fn expect_jsx_child(&mut self, kind: Kind) -> Result<(), AllocError>
        ensures ok { OnOk result (ReadsOn Goal.JsxChild (expecting kind self.old) self.new) }
        ensures err { OnErr result (IsAsBefore (expecting kind self.old) self.new) }
        ensures passed { OnOk result (HasPassed self.old.token.kind self.old self.new) }
        ensures onward { HasNotGoneBack self.old self.new }
    {
        self.expect_without_advance(kind);
        self.advance_for_jsx_child()
    }
}
