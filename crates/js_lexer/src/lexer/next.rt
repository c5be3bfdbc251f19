//! The reading of the next token: simple readings first, and behind them those of any form.

ghost use Rattle.std.specs.Prelude.{◌≡◌, true, false, IfOk, OnOk, OnErr, is_none};
ghost use Rattle.js_text.specs.Characters.{is_identifier_start};
ghost use Rattle.js_reader.specs.Decoded.{Keeps};
ghost use Rattle.js_reader.specs.Simple.{MeetsByte, PassesSimpleGap, ReadsSimpleToken, SpellsSimply};
ghost use Rattle.js_lexer.specs.Places.{ReadsInPlaces};
ghost use Rattle.js_lexer.specs.Lexer.{HoldsHere, is_hashbang, ReadsNext, ReadsToken, IsRestored, IsSettled};

use super::{Lexer, collect_other};
use js_grammar::Goal;
use js_kind::{Kind, LexerConfig, Token};
use js_reader::{GapEnd, pass_simple_gap, read_simple_name, read_simple_symbol};
use js_source::Source;
use js_text::Span;
use std::alloc::AllocError;

impl<'a, C: LexerConfig + Drop> Lexer<'a, C> {
    /// Reads the next token.
    #[inline(always)]
    pub fn next_token(&mut self) -> Result<Token, AllocError>
        ensures ok { IfOk result (λ token. ReadsToken Goal.Next self.old token self.new) }
        ensures err { OnErr result (IsRestored self.old self.new) }
        ensures kept { Keeps self.old.decoded self.new.decoded }
        ensures places { ReadsInPlaces self.old self.new }
    {
        // Most tokens come behind another one, and behind no annotation: then nothing is kept of that but itself.
        if !self.found.trivia.is_settled() {
            return self.read_of_any_form();
        }
        let mut source = self.reader.source.here();
        let mut line_has_ended = false;
        match pass_simple_gap(&mut source, &self.reader.tables, &mut line_has_ended) {
            GapEnd::Name(b) => self.read_name_here(source, line_has_ended, b),
            GapEnd::Symbol(b) => self.read_symbol_here(source, line_has_ended, b),
            GapEnd::Other => self.read_of_any_form(),
        }
    }

    /// Reads the name that begins with `b` behind a simple gap.
    #[inline(always)]
    fn read_name_here(
        &mut self,
        source: Source<'a>,
        line_has_ended: bool,
        b: u8,
    ) -> Result<Token, AllocError>
        requires settled { IsSettled self.old }
        requires meets { HoldsHere self.old (λ at.
            MeetsByte b at (is_none self.old.last) source line_has_ended) }
        requires begun { is_identifier_start b ≡ true }
        ensures ok { IfOk result (λ token. ReadsToken Goal.Next self.old token self.new) }
        ensures err { OnErr result (IsRestored self.old self.new) }
        ensures kept { Keeps self.old.decoded self.new.decoded }
        ensures places { ReadsInPlaces self.old self.new }
    {
        let mut behind = source.here();
        match read_simple_name(&mut behind, &self.reader.tables.parts, b) {
            Some(kind) => self.take_spelled(source, behind, kind, line_has_ended),
            None => self.read_of_any_form(),
        }
    }

    /// Reads the token that begins with `b` behind a simple gap, and is no name.
    #[inline(always)]
    fn read_symbol_here(
        &mut self,
        source: Source<'a>,
        line_has_ended: bool,
        b: u8,
    ) -> Result<Token, AllocError>
        requires settled { IsSettled self.old }
        requires meets { HoldsHere self.old (λ at.
            MeetsByte b at (is_none self.old.last) source line_has_ended) }
        ensures ok { IfOk result (λ token. ReadsToken Goal.Next self.old token self.new) }
        ensures err { OnErr result (IsRestored self.old self.new) }
        ensures kept { Keeps self.old.decoded self.new.decoded }
        ensures places { ReadsInPlaces self.old self.new }
    {
        let mut behind = source.here();
        match read_simple_symbol(&mut behind, b) {
            Some(kind) => self.take_spelled(source, behind, kind, line_has_ended),
            None => self.read_of_any_form(),
        }
    }

    /// Takes the token of the kind that was read from behind a simple gap up to the place of `behind`.
    #[inline(always)]
    fn take_spelled(
        &mut self,
        source: Source<'a>,
        behind: Source<'a>,
        kind: Kind,
        line_has_ended: bool,
    ) -> Result<Token, AllocError>
        requires settled { IsSettled self.old }
        requires gap { HoldsHere self.old (λ at.
            PassesSimpleGap at (is_none self.old.last) source line_has_ended) }
        requires spells { SpellsSimply line_has_ended source behind kind }
        ensures ok { IfOk result (λ token. ReadsToken Goal.Next self.old token self.new) }
        ensures err { OnErr result (IsRestored self.old self.new) }
        ensures kept { Keeps self.old.decoded self.new.decoded }
        ensures places { ReadsInPlaces self.old self.new }
    {
        let start = self.reader.source.offset_of(source.position());
        let span = Span::new(start, behind.offset());
        let token = Token::new(kind, span, line_has_ended);
        self.take_simple(behind, token)?;
        Ok(token)
    }

    /// Takes a token that was read behind a simple gap.
    #[inline(always)]
    fn take_simple(&mut self, source: Source<'a>, token: Token) -> Result<(), AllocError>
        requires settled { IsSettled self.old }
        requires reads { HoldsHere self.old (λ at. ReadsSimpleToken at (is_none self.old.last) token source) }
        requires other { is_hashbang token.kind ≡ false }
        ensures ok { OnOk result (ReadsToken Goal.Next self.old token self.new) }
        ensures err { OnErr result (IsRestored self.old self.new) }
        ensures kept { Keeps self.old.decoded self.new.decoded }
        ensures places { ReadsInPlaces self.old self.new }
    {
        collect_other(&mut self.tokens, self.config.tokens(), token)?;
        self.reader.source.set_position(source.position());
        self.found.trivia.handle_token_settled(token);
        Ok(())
    }

    /// Reads the next token, of any form, behind a gap of any form.
    #[inline(always)]
    fn read_of_any_form(&mut self) -> Result<Token, AllocError>
        ensures ok { IfOk result (λ token. ReadsToken Goal.Next self.old token self.new) }
        ensures err { OnErr result (IsRestored self.old self.new) }
        ensures kept { Keeps self.old.decoded self.new.decoded }
        ensures places { ReadsInPlaces self.old self.new }
    {
        self.read_next()?;
        Ok(self.found.trivia.previous_token())
    }

    /// Reads the next token in the same way; the builder of trivia has it then as the last one.
    #[inline(never)]
    fn read_next(&mut self) -> Result<(), AllocError>
        ensures ok { OnOk result (ReadsNext self.old self.new) }
        ensures err { OnErr result (IsRestored self.old self.new) }
        ensures kept { Keeps self.old.decoded self.new.decoded }
        ensures places { ReadsInPlaces self.old self.new }
    {
        self.read(Goal::Next)?;
        Ok(())
    }
}
