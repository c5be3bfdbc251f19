//! A lexer that is driven step by step, with marks to which it may go back.

ghost use Rattle.std.specs.Prelude.{◌≡◌, ◌≤◌, ◌<◌, ◌+◌, ◌^◌, ◌↔◌, true, length, max, IfOk, OnOk, OnErr};
ghost use Rattle.std.specs.List.{AllByRecursion};
ghost use Rattle.js_lexer.specs.Lexer.{IsOnPlaces};
ghost use Rattle.js_session.specs.Effects.{effect_of, is_step};
ghost use Rattle.js_grammar.specs.Reads.{is_onward};
ghost use Rattle.js_session.specs.declared.command.Effect.TheVariants.{Reads, ReLexes};
ghost use Rattle.js_session.specs.Report.{LiesOnPlaces, IsSliceOnPlaces};
ghost use Rattle.js_session.specs.Session.{Begins, AddsRow, LieOnPlaces, MayResume, after_command, report_of, resumed};

use crate::command::{Command, Effect};
use crate::mark_list::MarkList;
use crate::read::RowReader;
use crate::report::Report;
use crate::row::Row;
use crate::steps::Steps;
use js_grammar::Goal;
use js_kind::{LexerConfig, Token};
use js_lexer::{Lexer, NewFault};
use js_text::SourceType;
use std::alloc::{AllocError, Global};
use std::marker::Model;
use std::sync::ledger::Ledger;

/// A token of usual code takes some nine bytes with its gap: room is made for a row every so many bytes, so that rows are
/// seldom copied while their list grows.
const BYTES_OF_A_ROW: usize = 8;

/// A session over a source text: its lexer, its rows, the live tokens, and the open marks, with places that are free
/// for more.
#[derive(Drop)]
pub struct Session<'a, C: LexerConfig + Drop> {
    reader: RowReader<'a, C>,
    marks: MarkList,
}

impl<'a, C: LexerConfig + Drop> Model for Session<'a, C> {
    ghost use Rattle.std.specs.Prelude.{reverse};
    ghost use Rattle.js_session.specs.Marks.{live_now, state_of, IsInOrder};
    ghost use Rattle.js_session.specs.Session.{SessionState};

    ghost Value = { SessionState };

    ghost view = { λ s. record {
      text = s.reader.lexer.text;
      source_type = s.reader.lexer.source_type;
      collects = s.reader.lexer.collects;
      rows = s.reader.rows;
      state = state_of (live_now s.reader) s.marks.items;
      spare = s.marks.free;
    } };

    ghost invariant = { λ s. IsInOrder s.reader (reverse s.marks.items) };
}

impl<'a, C: LexerConfig + Drop> Session<'a, C> {
    /// A session that has made its first step.
    pub fn begin<L: Ledger>(
        alloc: Global,
        text: &'a str,
        source_type: SourceType,
        config: C,
        steps: &mut Steps<L>,
    ) -> Result<Session<'a, C>, NewFault>
        ensures ok { IfOk result (Begins text.now source_type (C.collects config)) }
        ensures places { IfOk result LieOnPlaces }
        ensures overlong { (result ≡ Err NewFault.Overlong) ↔ (2 ^ 32 ≤ length text.now) }
        ensures ticks { OnOk result (steps.new ≡ steps.old + 1) }
        ensures ticks_at_least { OnErr result (steps.old ≤ steps.new) }
        ensures ticks_at_most { OnErr result (steps.new ≤ steps.old + 1) }
    {
        let lexer = match Lexer::new(alloc, text, source_type, config) {
            Ok(lexer) => lexer,
            Err(fault) => return Err(fault),
        };
        steps.tick();
        let mut reader = match RowReader::new(alloc, lexer, text.len() / BYTES_OF_A_ROW) {
            Ok(reader) => reader,
            Err(_) => return Err(NewFault::Memory),
        };
        match reader.add_row(None, Goal::First, false) {
            Ok(()) => Ok(Session {
                reader,
                marks: MarkList::new_in(alloc),
            }),
            Err(_) => Err(NewFault::Memory),
        }
    }

    /// A session that goes on behind a token of the text: it has no row, the token is the one that is live, and no mark
    /// is open. The counter stays.
    pub fn resume<L: Ledger>(
        alloc: Global,
        text: &'a str,
        source_type: SourceType,
        config: C,
        token: Token,
        steps: &mut Steps<L>,
    ) -> Result<Session<'a, C>, NewFault>
        requires { MayResume text.now token }
        ensures ok { IfOk result (λ s. s ≡ resumed text.now source_type (C.collects config) token) }
        ensures places { IfOk result LieOnPlaces }
        ensures overlong { (result ≡ Err NewFault.Overlong) ↔ (2 ^ 32 ≤ length text.now) }
        ensures ticks { steps.new ≡ steps.old }
    {
        let lexer = match Lexer::resume(alloc, text, source_type, config, token) {
            Ok(lexer) => lexer,
            Err(fault) => return Err(fault),
        };
        match RowReader::behind(alloc, lexer, token) {
            Ok(reader) => Ok(Session {
                reader,
                marks: MarkList::new_in(alloc),
            }),
            Err(_) => Err(NewFault::Memory),
        }
    }

    /// Adds the row of a reading, with its token live.
    fn step_on(&mut self, command: Command, goal: Goal) -> Result<(), AllocError>
        requires effect { effect_of command ≡ Reads goal }
        requires onward { is_onward goal ≡ true }
        requires later { goal ≡ Goal.First → ⊥ }
        ensures ok { OnOk result (AddsRow command self.old self.new) }
        ensures err { OnErr result (self.new ≡ self.old) }
        ensures places { LieOnPlaces self.new }
    {
        self.reader.add_row(Some(command), goal, false)
    }

    /// Adds the row of a reading, and changes nothing else.
    fn step_peek(&mut self) -> Result<(), AllocError>
        ensures ok { OnOk result (AddsRow Command.Peek self.old self.new) }
        ensures err { OnErr result (self.new ≡ self.old) }
        ensures places { LieOnPlaces self.new }
    {
        self.reader.add_row(Some(Command::Peek), Goal::Next, true)
    }

    /// Adds the row of a re-lex, with its token live in the place of the last one, if it is taken.
    fn step_again(&mut self, command: Command, goal: Goal) -> Result<(), AllocError>
        requires { effect_of command ≡ ReLexes goal }
        ensures ok { OnOk result (AddsRow command self.old self.new) }
        ensures err { OnErr result (self.new ≡ self.old) }
        ensures places { LieOnPlaces self.new }
    {
        self.reader.re_lex(Some(command), goal)
    }

    /// One step: adds one row.
    pub fn step<L: Ledger>(
        &mut self,
        command: Command,
        steps: &mut Steps<L>,
    ) -> Result<(), AllocError>
        requires { is_step command ≡ true }
        ensures ok { OnOk result (AddsRow command self.old self.new) }
        ensures err { OnErr result (self.new ≡ self.old) }
        ensures places { LieOnPlaces self.new }
        ensures ticks { OnOk result (steps.new ≡ steps.old + 1) }
        ensures ticks_at_least { OnErr result (steps.old ≤ steps.new) }
        ensures ticks_at_most { OnErr result (steps.new ≤ steps.old + 1) }
    {
        steps.tick();
        match command.effect() {
            Effect::Reads(goal) => self.step_on(command, goal),
            Effect::ReLexes(goal) => self.step_again(command, goal),
            Effect::Peeks(_) => self.step_peek(),
            Effect::Opens | Effect::Rewinds | Effect::Commits => unreachable!(),
        }
    }

    /// Makes at least `more` places for marks free: just those that are wanting, and changes nothing else. Where there
    /// is no memory for them, all is as before, the free places too.
    pub fn reserve_marks(&mut self, more: usize) -> Result<(), AllocError>
        ensures ok { OnOk result (more ≤ self.new.spare) }
        ensures keeps { self.old.spare ≤ self.new.spare }
        ensures exact { OnOk result (self.new.spare ≡ max self.old.spare more) }
        ensures rest { self.new ≡ record self.old { spare = self.new.spare } }
        ensures err { OnErr result (self.new ≡ self.old) }
    {
        self.marks.reserve(more)
    }

    /// Marks what is live, in a place that is free. It succeeds without memory.
    pub fn mark(&mut self)
        requires { 0 < self.old.spare }
        ensures { self.new ≡ after_command Command.Mark self.old }
    {
        let mark = self.reader.mark();
        self.marks.push_reserved(mark);
    }

    /// Goes back to the last open mark, and closes it. Its place is free then.
    pub fn rewind(&mut self)
        requires { 0 < length self.old.state.marks }
        ensures state { self.new ≡ after_command Command.Rewind self.old }
        ensures places { LieOnPlaces self.new }
    {
        if let Some(mark) = self.marks.pop() {
            self.reader.rewind(mark);
        }
    }

    /// Closes the last open mark. Its place is free then.
    pub fn commit(&mut self)
        requires { 0 < length self.old.state.marks }
        ensures { self.new ≡ after_command Command.Commit self.old }
    {
        self.marks.pop();
    }

    /// The rows so far: one for the first step and one for each step after it, with those that a rewind took back.
    pub fn rows(&self) -> &[Row]
        ensures rows { result.now ≡ self.now.rows }
        ensures places { AllByRecursion (LiesOnPlaces self.now.text) result.now }
    {
        self.reader.rows.as_slice()
    }

    /// How many marks are open.
    pub fn marks(&self) -> usize
        ensures { result ≡ length self.now.state.marks }
    {
        self.marks.len()
    }

    /// How many places for marks are free: so many marks may be opened before more are reserved. A mark that is closed
    /// frees its place, and no call gives up any.
    pub fn spare_marks(&self) -> usize
        ensures { result ≡ self.now.spare }
    {
        self.marks.free()
    }

    /// The report of the calls so far. A mark may still be open.
    pub fn finish(self) -> Report
        ensures report { result ≡ report_of self.entry }
        ensures rows_lie { AllByRecursion (LiesOnPlaces self.entry.text) result.rows }
        ensures tokens_lie { AllByRecursion (IsOnPlaces self.entry.text) result.tokens }
        // So the text of the report may be asked for.
        ensures slices { AllByRecursion (λ row. IsSliceOnPlaces self.entry.text row.value) result.rows }
    {
        let Session { reader, marks: _ } = self;
        let RowReader {
            lexer,
            alloc: _,
            rows,
            tokens,
            rooms,
        } = reader;
        let mut lexer = lexer;
        let collected = lexer.take_tokens();
        let found = rooms.take_findings(&mut lexer);
        Report::new(rows, tokens, collected, found)
    }
}
