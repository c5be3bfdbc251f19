//! The cursor: its lexer, the current token, and what its parser reports.

ghost use Rattle.std.specs.Prelude.{◌≡◌, ◌≤◌, ◌<◌, ◌↔◌, [], None, IsTrue, IfOk, OnOk, OnErr, MatchOption, slice_range};
ghost use Rattle.std.specs.Option.{is_some};
ghost use Rattle.js_reader.specs.Decoded.{GivesTemplate, GivesText, IsStretch};
ghost use Rattle.js_lexer.specs.Lexer.{IsOnPlaces, ReadsToken};
ghost use Rattle.js_lexer.specs.Places.{ReadsInPlaces};
ghost use Rattle.js_cursor.specs.Cursor.{IsFresh, allows_semicolon, is_at, is_at_token_end, span_of, with_error};
ghost use Rattle.js_cursor.specs.Cursor.{with_fatal_error};
ghost use Rattle.js_cursor.specs.Onward.{HasNotAdvanced};

mod advance;
mod expect;
mod lexing;
mod list;
mod plain_list;
mod re_lex;
mod rest;
mod speculate;

use crate::diagnostic::{CursorDiagnostic, FatalError};
use js_grammar::Goal;
use js_kind::{Kind, LexerConfig, Token};
use js_lexer::Lexer;
use js_text::{ItemList, JsText, Span, TemplateValue};
use std::alloc::{AllocError, Global};
use std::marker::Model;

/// Whether a semicolon is there or can be inserted before the token (ECMA-262 12.10).
fn allows_semicolon(token: &Token) -> bool
    ensures { result ≡ allows_semicolon token.now }
{
    if matches!(token.kind(), Kind::Semicolon | Kind::RCurly | Kind::Eof) {
        return true;
    }
    token.is_on_new_line()
}

/// A cursor over the tokens of a source: the lexer that reads them, the current token, where the token before it ended,
/// the errors of the parser, and the fatal error, if there is one.
#[derive(Drop)]
pub struct Cursor<'a, C: LexerConfig + Drop> {
    lexer: Lexer<'a, C>,
    source_text: &'a str,
    token: Token,
    previous_end: u32,
    errors: ItemList<CursorDiagnostic>,
    fatal: Option<FatalError>,
    ambient: bool,
}

impl<'a, C: LexerConfig + Drop> Model for Cursor<'a, C> {
    ghost use Rattle.js_cursor.specs.Cursor.{CursorState, IsOnToken};

    ghost Value = { CursorState };

    ghost view = { λ c. record {
      lexer = c.lexer;
      token = c.token;
      previous_end = c.previous_end;
      errors = c.errors;
      fatal = c.fatal;
      ambient = c.ambient;
    } };

    ghost invariant = { λ c. IsOnToken c.source_text.now c.lexer c.token c.previous_end };
}

impl<'a, C: LexerConfig + Drop> Cursor<'a, C> {
    /// A cursor at the first token of a source, of which the lexer has read nothing yet. `ambient` says whether what is
    /// read stands in an ambient context, as a TypeScript declaration does.
    pub fn new(
        alloc: Global,
        lexer: Lexer<'a, C>,
        ambient: bool,
    ) -> Result<Cursor<'a, C>, AllocError>
        requires { IsFresh lexer }
        ensures read { IfOk result (λ c. ReadsToken Goal.First lexer.entry c.token c.lexer) }
        ensures places { IfOk result (λ c. ReadsInPlaces lexer.entry c.lexer) }
        ensures others { IfOk result (λ c. c ≡ record c {
          previous_end = 0;
          errors = [];
          fatal = None;
          ambient = ambient;
        }) }
    {
        let mut lexer = lexer;
        let source_text = lexer.remaining();
        let token = lexer.first_token()?;
        Ok(Cursor {
            lexer,
            source_text,
            token,
            previous_end: 0,
            errors: ItemList::new_in(alloc),
            fatal: None,
            ambient,
        })
    }

    /// Where the current token starts, as an offset in bytes.
    pub fn cur_start(&self) -> u32
        ensures start { result ≡ self.now.token.start }
        ensures behind { self.now.previous_end ≤ result }
    {
        self.token.start()
    }

    /// From `start`, an offset in bytes, to where the token before the current one ended.
    pub fn end_span(&self, start: u32) -> Span
        requires { start ≤ self.now.previous_end }
        ensures { result ≡ record { start = start; end = self.now.previous_end } }
    {
        Span::new(start, self.previous_end)
    }

    /// Where the token before the current one ended, as an offset in bytes; 0 before the first advance.
    pub fn previous_end(&self) -> u32
        ensures end { result ≡ self.now.previous_end }
        ensures before { result ≤ self.now.token.start }
    {
        self.previous_end
    }

    /// From `start`, an offset in bytes, to where the token before the current one ended. None: it ended before.
    pub fn span_from(&self, start: u32) -> Option<Span>
        ensures { MatchOption result (self.now.previous_end < start)
            (λ span. span ≡ record { start = start; end = self.now.previous_end }) }
    {
        if start > self.previous_end {
            return None;
        }
        Some(Span::new(start, self.previous_end))
    }

    /// The current token.
    pub fn cur_token(&self) -> Token
        ensures token { result ≡ self.now.token }
        ensures places { IsOnPlaces self.now.lexer.text result }
    {
        let _token = &self.token;
        self.lexer.last_token()
    }

    /// What the current token is.
    pub fn cur_kind(&self) -> Kind
        ensures { result ≡ self.now.token.kind }
    {
        self.token.kind()
    }

    /// Where the current token stands, in bytes.
    pub fn cur_span(&self) -> Span
        ensures { result ≡ span_of self.now.token }
    {
        self.token.span()
    }

    /// The stretch of the source that the current token is.
    pub fn cur_src(&self) -> &'a str
        ensures { result.now ≡ slice_range self.now.lexer.text self.now.token.start self.now.token.end }
    {
        self.token_source(&self.cur_token())
    }

    /// The stretch of the source that a token is, whose ends, in order, are places of the source.
    pub fn token_source(&self, token: &Token) -> &'a str
        requires { IsOnPlaces self.now.lexer.text token.now }
        ensures { result.now ≡ slice_range self.now.lexer.text token.now.start token.now.end }
    {
        &self.source_text[token.start() as usize..token.end() as usize]
    }

    /// The stretch of the source that a span is. None: its ends are no places of the source, or not in order.
    pub fn text(&self, span: Span) -> Option<&'a str>
        ensures { MatchOption result (IsStretch self.now.lexer.text span.start span.end → ⊥)
            (λ text. IsStretch self.now.lexer.text span.start span.end
            × (text.now ≡ slice_range self.now.lexer.text span.start span.end)) }
    {
        if span.start > span.end {
            return None;
        }
        if !self.source_text.is_char_boundary(span.start as usize) {
            return None;
        }
        if !self.source_text.is_char_boundary(span.end as usize) {
            return None;
        }
        Some(&self.source_text[span.start as usize..span.end as usize])
    }

    /// The text of the current token, as `Lexer::get_string` gives it.
    pub fn cur_string(&self) -> Option<JsText<'_>>
        ensures { GivesText self.now.lexer.text self.now.lexer.decoded self.now.token result }
    {
        self.lexer.get_string(self.token)
    }

    /// The text of the current token, as `Lexer::get_js_string` gives it.
    pub fn cur_js_string(&self) -> Option<JsText<'_>>
        ensures { GivesText self.now.lexer.text self.now.lexer.decoded self.now.token result }
    {
        self.lexer.get_js_string(self.token)
    }

    /// The value of the current token, a part of a template, as `Lexer::get_template_string` gives it.
    pub fn cur_template_string(&self) -> Option<TemplateValue<'_>>
        ensures { GivesTemplate self.now.lexer.text self.now.lexer.decoded self.now.token result }
    {
        self.lexer.get_template_string(self.token)
    }

    /// Whether the current token is of the kind.
    pub fn at(&self, kind: Kind) -> bool
        ensures answer { result ≡ is_at kind self.now }
        ensures same { IsTrue result ↔ (self.now.token.kind ≡ kind) }
    {
        self.cur_kind().is_same(kind)
    }

    /// Whether a semicolon is there or can be inserted before the current token (ECMA-262 12.10).
    pub fn can_insert_semicolon(&self) -> bool
        ensures { result ≡ allows_semicolon self.now.token }
    {
        allows_semicolon(&self.token)
    }

    /// Whether the lexer stands where the current token ends. It does not where a fatal error has moved it on.
    pub fn is_at_token_end(&self) -> bool
        ensures { result ≡ is_at_token_end self.now }
    {
        self.lexer.offset() == self.token.end()
    }

    /// Whether a fatal error stands.
    pub fn has_fatal_error(&self) -> bool
        ensures { result ≡ is_some self.now.fatal }
    {
        self.fatal.is_some()
    }

    /// The error that stopped the parser, if one did.
    pub fn fatal_error(&self) -> Option<FatalError>
        ensures { result ≡ self.now.fatal }
    {
        self.fatal
    }

    /// What the parser reported, in order. A fatal error is not among them.
    pub fn errors(&self) -> &[CursorDiagnostic]
        ensures { result.now ≡ self.now.errors }
    {
        self.errors.as_slice()
    }

    /// The lexer, with what it collected and found.
    pub fn lexer(&self) -> &Lexer<'a, C>
        ensures { result.now ≡ self.now.lexer }
    {
        &self.lexer
    }

    /// Hands out the lexer, with what it collected and found: the parse is done. What the parser reported is told by
    /// `errors` and `fatal_error` before.
    pub fn finish(self) -> Lexer<'a, C>
        ensures { result ≡ self.entry.lexer }
    {
        let Cursor { lexer, .. } = self;
        lexer
    }

    /// Says whether what is read from now on stands in an ambient context, and gives what was said before.
    pub fn set_ambient(&mut self, ambient: bool) -> bool
        ensures before { result ≡ self.old.ambient }
        ensures after { self.new ≡ record self.old { ambient = ambient } }
    {
        std::mem::replace(&mut self.ambient, ambient)
    }

    /// Reports an error, which does not stop the parser. Where there is no memory for it, nothing changes.
    pub fn error(&mut self, error: CursorDiagnostic) -> Result<(), AllocError>
        ensures ok { OnOk result (self.new ≡ with_error error self.old) }
        ensures err { OnErr result (self.new ≡ self.old) }
        ensures stays { HasNotAdvanced self.old self.new }
    {
        self.errors.push(error)
    }

    /// Stops the parser, unless an error did so before: the lexer goes to the end of the source, so that what is read
    /// from now on is the end.
    pub fn set_fatal_error(&mut self, error: CursorDiagnostic)
        ensures state { self.new ≡ with_fatal_error error self.old }
        ensures stays { HasNotAdvanced self.old self.new }
    {
        if self.fatal.is_some() {
            return;
        }
        // The lexer's place is one of its text, so the end of that is no earlier than the current token's.
        let _place = self.lexer.offset();
        let errors_len = self.lexer.errors().len();
        self.fatal = Some(FatalError { error, errors_len });
        self.lexer.advance_to_end();
    }
}
