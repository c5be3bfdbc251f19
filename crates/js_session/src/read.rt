//! Rows that are read from a lexer.

ghost use Rattle.std.specs.Prelude.{◌≡◌, ◌≤◌, true, [], ◌∷◌, is_some, None, IfOk, OnOk, OnErr, MatchBool};
ghost use Rattle.js_grammar.specs.Outcome.{AreWithin, found_since};
ghost use Rattle.js_grammar.specs.ReLexed.{fits};
ghost use Rattle.js_grammar.specs.Reads.{is_onward};
ghost use Rattle.js_grammar.specs.TokenText.{text_start, text_end};
ghost use Rattle.js_grammar.specs.TokenText.{unescaped_value};
ghost use Rattle.js_kind.specs.Kinds.{is_template_kind};
ghost use Rattle.js_reader.specs.Decoded.{value_of};
ghost use Rattle.js_lexer.specs.Lexer.{ReadsToken, IsRestored, CanRewind, GoesOnFrom, checkpoint_of};
ghost use Rattle.js_lexer.specs.Lexer.{IsOnPlaces, token_or_default};
ghost use Rattle.js_session.specs.RowReader.{RowReaderState, ReadsRow, AddsLive, AddsPeek, MayGoOn, IsUndone, GoesBack};
ghost use Rattle.js_session.specs.RowReader.{IsMarkOf, GoesToMark, IsKept, HoldsUnits, HoldsPart, HoldsKept};
ghost use Rattle.js_session.specs.RowReader.{HoldsValue, IsMadeOf, ReadsRowIfFits, AddsAgain, AddsNotTaken, not_taken};

use crate::command::Command;
use crate::mark::SessionMark;
use crate::re_lex::read_again;
use crate::rooms::TriviaRooms;
use crate::row::Row;
use crate::row_list::RowList;
use js_grammar::Goal;
use js_kind::{LexerConfig, Token, TokenList};
use js_lexer::{Findings, Lexer, LexerCheckpoint, is_template, is_valued, text_span};
use js_text::{JsText, RegexInfo, RowValue, TemplateValue};
use std::alloc::{AllocError, Global};
use std::marker::Model;

/// The value of a token without an escape.
fn unescaped_value(token: &Token) -> RowValue
    requires { text_start token.now.kind token.now.start ≤ text_end token.now.kind token.now.end }
    ensures { result ≡ unescaped_value token.now.kind token.now.start token.now.end }
{
    if !is_valued(token.kind()) {
        return RowValue::Nothing;
    }
    match text_span(token) {
        Some(span) => RowValue::Slice(span),
        None => unreachable!(),
    }
}

/// The value of a name or a string with an escape, which the lexer has decoded.
fn decoded_value<C: LexerConfig + Drop>(
    lexer: &Lexer<'_, C>,
    alloc: Global,
    token: &Token,
) -> Result<RowValue, AllocError>
    requires escaped { token.now.escaped ≡ true }
    requires value { is_some (value_of lexer.now.decoded.strings token.now.start) ≡ true }
    ensures { IfOk result (λ value. HoldsUnits (value_of lexer.now.decoded.strings token.now.start) value) }
{
    match lexer.get_string(*token) {
        Some(JsText::Decoded(text)) => Ok(RowValue::Units(text.copy(alloc)?)),
        _ => unreachable!(),
    }
}

/// The value of a part of a template in which something is escaped, which the lexer has decoded.
fn part_value<C: LexerConfig + Drop>(
    lexer: &Lexer<'_, C>,
    alloc: Global,
    token: &Token,
) -> Result<RowValue, AllocError>
    requires template { is_template_kind token.now.kind ≡ true }
    requires escaped { token.now.escaped ≡ true }
    requires value { is_some (value_of lexer.now.decoded.templates token.now.start) ≡ true }
    ensures { IfOk result (λ value. HoldsPart (value_of lexer.now.decoded.templates token.now.start) value) }
{
    match lexer.get_template_string(*token) {
        Some(TemplateValue::Text(JsText::Decoded(text))) => {
            Ok(RowValue::Units(text.copy(alloc)?))
        }
        Some(TemplateValue::Bad) => Ok(RowValue::Bad),
        _ => unreachable!(),
    }
}

/// The value of a token with an escape, which the lexer has decoded.
fn kept_value<C: LexerConfig + Drop>(
    lexer: &Lexer<'_, C>,
    alloc: Global,
    token: &Token,
) -> Result<RowValue, AllocError>
    requires escaped { token.now.escaped ≡ true }
    requires value { IsKept (is_template_kind token.now.kind) lexer.now.decoded token.now.start }
    ensures { IfOk result (HoldsKept (is_template_kind token.now.kind) lexer.now.decoded token.now.start) }
{
    if is_template(token.kind()) {
        part_value(lexer, alloc, token)
    } else {
        decoded_value(lexer, alloc, token)
    }
}

/// The value of a token that was read.
fn value_of<C: LexerConfig + Drop>(
    lexer: &Lexer<'_, C>,
    alloc: Global,
    token: &Token,
) -> Result<RowValue, AllocError>
    requires ordered { text_start token.now.kind token.now.start ≤ text_end token.now.kind token.now.end }
    requires value { token.now.escaped ≡ true
        → IsKept (is_template_kind token.now.kind) lexer.now.decoded token.now.start }
    ensures { IfOk result (λ value. HoldsValue lexer.now.decoded token.now value) }
{
    if token.escaped() {
        kept_value(lexer, alloc, token)
    } else {
        Ok(unescaped_value(token))
    }
}

/// Reads a token of a goal that goes on from where the lexer stands.
fn read_token<C: LexerConfig + Drop>(
    lexer: &mut Lexer<'_, C>,
    goal: Goal,
) -> Result<Token, AllocError>
    requires onward { is_onward goal ≡ true }
    requires first { goal ≡ Goal.First → lexer.old.last ≡ None }
    ensures ok { IfOk result (λ token. ReadsToken goal lexer.old token lexer.new) }
    ensures err { OnErr result (IsRestored lexer.old lexer.new) }
{
    match goal {
        Goal::First => lexer.first_token(),
        Goal::Next => lexer.next_token(),
        Goal::JsxChild => lexer.next_jsx_child(),
        Goal::JsxAttributeValue => lexer.next_jsx_attribute_value(),
        _ => unreachable!(),
    }
}

/// What was found since the checkpoint. Most tokens are read without a finding, and then no list is made.
fn findings_since<C: LexerConfig + Drop>(
    lexer: &Lexer<'_, C>,
    alloc: Global,
    before: &LexerCheckpoint,
) -> Result<Findings, AllocError>
    requires { AreWithin before.now.lengths lexer.now.findings }
    ensures { IfOk result (λ found. found ≡ found_since before.now.lengths lexer.now.findings) }
{
    if lexer.has_found_nothing_since(before) {
        return Ok(Findings::new_in(alloc));
    }
    lexer.findings_since(before)
}

/// The row of a token that was just read from the place, where the checkpoint was made.
#[inline(always)]
fn row_of<C: LexerConfig + Drop>(
    lexer: &Lexer<'_, C>,
    alloc: Global,
    command: Option<Command>,
    place: u32,
    before: &LexerCheckpoint,
    token: Token,
    regex: Option<RegexInfo>,
) -> Result<Row, AllocError>
    requires ordered { text_start token.kind token.start ≤ text_end token.kind token.end }
    requires value { token.escaped ≡ true → IsKept (is_template_kind token.kind) lexer.now.decoded token.start }
    requires found { AreWithin before.now.lengths lexer.now.findings }
    ensures { IfOk result (IsMadeOf command place before.now.lengths token regex lexer.now) }
{
    let value = value_of(lexer, alloc, &token)?;
    let findings = findings_since(lexer, alloc, before)?;
    Ok(Row::new(command, place, true, token, value, regex, findings))
}

/// Reads a row of a goal that goes on. Where it cannot allocate, the lexer may have gone on.
fn read_row<C: LexerConfig + Drop>(
    lexer: &mut Lexer<'_, C>,
    alloc: Global,
    command: Option<Command>,
    goal: Goal,
    before: &LexerCheckpoint,
) -> Result<Row, AllocError>
    requires onward { is_onward goal ≡ true }
    requires first { goal ≡ Goal.First → lexer.old.last ≡ None }
    requires before { before.now ≡ checkpoint_of lexer.old }
    ensures ok { IfOk result (λ row. ReadsRow goal command lexer.old row lexer.new) }
    ensures err { OnErr result (GoesOnFrom lexer.old lexer.new) }
{
    let place = lexer.offset();
    let token = read_token(lexer, goal)?;
    row_of(lexer, alloc, command, place, before, token, None)
}

/// Reads a row from the start of the last token, where this fits the goal. Where it cannot allocate, the lexer may have
/// gone on.
fn read_row_again<C: LexerConfig + Drop>(
    lexer: &mut Lexer<'_, C>,
    alloc: Global,
    command: Option<Command>,
    goal: Goal,
    before: &LexerCheckpoint,
) -> Result<Option<Row>, AllocError>
    requires behind { lexer.old.place ≡ (token_or_default lexer.old.last).end }
    requires before { before.now ≡ checkpoint_of lexer.old }
    ensures ok { IfOk result (λ row. ReadsRowIfFits goal command lexer.old row lexer.new) }
    ensures err { OnErr result (GoesOnFrom lexer.old lexer.new) }
{
    let place = lexer.offset();
    match read_again(lexer, goal)? {
        Some(again) => {
            let row = row_of(
                lexer,
                alloc,
                command,
                place,
                before,
                again.token,
                again.regex,
            )?;
            Ok(Some(row))
        }
        None => Ok(None),
    }
}

/// The row of a re-lex that is not taken: it holds the last token, and nothing else.
fn not_taken<C: LexerConfig + Drop>(
    lexer: &Lexer<'_, C>,
    alloc: Global,
    command: Option<Command>,
) -> Row
    ensures row { result ≡ not_taken command lexer.now }
    ensures places { IsOnPlaces lexer.now.text (token_or_default lexer.now.last) }
{
    let place = lexer.offset();
    let token = lexer.last_token();
    let found = Findings::new_in(alloc);
    Row::new(command, place, false, token, RowValue::Nothing, None, found)
}

/// A lexer, the rows that were read from it, and the tokens that are live.
#[derive(Drop)]
pub(crate) struct RowReader<'a, C: LexerConfig + Drop> {
    pub lexer: Lexer<'a, C>,
    pub alloc: Global,
    pub rows: RowList,
    pub tokens: TokenList,
    pub rooms: TriviaRooms,
}

impl<'a, C: LexerConfig + Drop> Model for RowReader<'a, C> {
    ghost use Rattle.js_session.specs.RowReader.{RowReaderState};

    ghost Value = { RowReaderState };

    ghost view = { λ r. record { lexer = r.lexer; rows = r.rows; tokens = r.tokens } };
}

impl<'a, C: LexerConfig + Drop> RowReader<'a, C> {
    /// Nothing is read from the lexer yet. There is room for so many rows, where there is memory for it.
    pub fn new(
        alloc: Global,
        lexer: Lexer<'a, C>,
        rows: usize,
    ) -> Result<RowReader<'a, C>, AllocError>
        ensures { IfOk result (λ r. r ≡ record { lexer = lexer.entry; rows = []; tokens = [] }) }
    {
        Ok(RowReader {
            lexer,
            alloc,
            rows: RowList::with_room(alloc, rows),
            tokens: TokenList::new_in(alloc),
            rooms: TriviaRooms::new(alloc)?,
        })
    }

    /// Nothing is read from the lexer yet, and its last token is live.
    pub fn behind(
        alloc: Global,
        lexer: Lexer<'a, C>,
        token: Token,
    ) -> Result<RowReader<'a, C>, AllocError>
        ensures { IfOk result (λ r. r ≡ record { lexer = lexer.entry; rows = []; tokens = token ∷ [] }) }
    {
        let mut reader = RowReader::new(alloc, lexer, 0)?;
        reader.tokens.push(token)?;
        Ok(reader)
    }

    /// Reads a row and adds it, with its token live. Where it cannot allocate, lexer and live tokens may have gone on.
    fn read_on(
        &mut self,
        command: Option<Command>,
        goal: Goal,
        before: &LexerCheckpoint,
    ) -> Result<(), AllocError>
        requires onward { is_onward goal ≡ true }
        requires first { goal ≡ Goal.First → self.old.lexer.last ≡ None }
        requires before { before.now ≡ checkpoint_of self.old.lexer }
        ensures ok { OnOk result (AddsLive goal command self.old self.new) }
        ensures err { OnErr result (MayGoOn self.old self.new) }
    {
        let row = read_row(&mut self.lexer, self.alloc, command, goal, before)?;
        self.tokens.push(row.token)?;
        self.rows.push(row)
    }

    /// Goes back to the checkpoint, and to so many live tokens.
    fn go_back(&mut self, checkpoint: LexerCheckpoint, tokens: usize)
        requires { CanRewind self.old.lexer checkpoint }
        ensures { GoesBack checkpoint tokens self.old self.new }
    {
        self.lexer.rewind(checkpoint);
        self.tokens.truncate(tokens);
    }

    /// Adds the row of a reading, with its token live, or else, for a peek, with all but the rows as before. Where it
    /// cannot allocate, all is as before.
    pub fn add_row(
        &mut self,
        command: Option<Command>,
        goal: Goal,
        is_peek: bool,
    ) -> Result<(), AllocError>
        requires onward { is_onward goal ≡ true }
        requires first { goal ≡ Goal.First → self.old.lexer.last ≡ None }
        ensures ok { OnOk result
            (MatchBool is_peek (AddsPeek goal command self.old self.new) (AddsLive goal command self.old self.new)) }
        ensures err { OnErr result (IsUndone self.old self.new) }
    {
        let checkpoint = self.lexer.checkpoint();
        let live = self.tokens.len();
        match self.read_on(command, goal, &checkpoint) {
            Ok(()) => {
                if is_peek {
                    self.go_back(checkpoint, live);
                }
                Ok(())
            }
            Err(error) => {
                self.go_back(checkpoint, live);
                Err(error)
            }
        }
    }

    /// Adds the row of a re-lex, which is taken where the last token fits the goal. Where it cannot allocate, the lexer
    /// may have gone on.
    fn re_lex_on(
        &mut self,
        command: Option<Command>,
        goal: Goal,
        before: &LexerCheckpoint,
    ) -> Result<(), AllocError>
        requires behind { self.old.lexer.place ≡ (token_or_default self.old.lexer.last).end }
        requires before { before.now ≡ checkpoint_of self.old.lexer }
        ensures ok { OnOk result (MatchBool (fits self.old.lexer.text goal (token_or_default self.old.lexer.last))
            (AddsAgain goal command self.old self.new) (AddsNotTaken command self.old self.new)) }
        ensures err { OnErr result (MayGoOn self.old self.new) }
    {
        match read_row_again(&mut self.lexer, self.alloc, command, goal, before)? {
            Some(row) => {
                let token = row.token;
                self.rows.push(row)?;
                self.tokens.replace_last(token);
                Ok(())
            }
            None => {
                let row = not_taken(&self.lexer, self.alloc, command);
                self.rows.push(row)
            }
        }
    }

    /// Adds the row of a re-lex, which is taken where the last token fits the goal: its token is then live in the place
    /// of that one. Where it cannot allocate, all is as before.
    pub fn re_lex(&mut self, command: Option<Command>, goal: Goal) -> Result<(), AllocError>
        requires { self.old.lexer.place ≡ (token_or_default self.old.lexer.last).end }
        ensures ok { OnOk result (MatchBool (fits self.old.lexer.text goal (token_or_default self.old.lexer.last))
            (AddsAgain goal command self.old self.new) (AddsNotTaken command self.old self.new)) }
        ensures err { OnErr result (IsUndone self.old self.new) }
    {
        let checkpoint = self.lexer.checkpoint();
        let tokens = self.tokens.len();
        match self.re_lex_on(command, goal, &checkpoint) {
            Ok(()) => Ok(()),
            Err(error) => {
                self.go_back(checkpoint, tokens);
                Err(error)
            }
        }
    }

    /// A mark of what is live.
    pub fn mark(&self) -> SessionMark
        ensures { IsMarkOf self.now result }
    {
        SessionMark {
            checkpoint: self.lexer.checkpoint(),
            tokens: self.tokens.len(),
        }
    }

    /// Goes back to what was live at the mark.
    pub fn rewind(&mut self, mark: SessionMark)
        requires { CanRewind self.old.lexer mark.checkpoint }
        ensures { GoesToMark mark self.old self.new }
    {
        self.go_back(mark.checkpoint, mark.tokens);
        let last = self.lexer.last_token();
        self.tokens.replace_last(last);
    }
}
