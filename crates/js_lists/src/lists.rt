//! Lists of what is live of a source.

ghost use Rattle.std.specs.Prelude.{◌≡◌, ◌<◌, ◌⊎◌, length, true, List, [], slice_get, Some, Err};
ghost use Rattle.std.specs.Prelude.{IfOk, IfSome, OnOk, IfErr, IsOk};
ghost use Rattle.js_text.specs.declared.value.RowValue.{RowValue};
ghost use Rattle.js_grammar.specs.TokenText.{is_valued};
ghost use Rattle.js_session.specs.Faults.{Cause, HasMarks, IsReadable};
ghost use Rattle.js_session.specs.declared.fault.LexFault.{LexFault};
ghost use Rattle.js_choose.specs.Faults.{ChoiceCause};
ghost use Rattle.js_choose.specs.declared.fault.ChoiceFault.{ChoiceFault};
ghost use Rattle.js_lists.specs.Lists.{AddsRegex, AddsValue, HasTaken, IsTold, ListsOfChosen, ListsOfCommands};
ghost use Rattle.js_lists.specs.Taken.{Taken, value_handed};

use crate::chosen::read_chosen;
use crate::steps::read_steps;
use crate::take::{TakeTokens, TokenValue};
use js_choose::{ChoiceFault, ChooseGoals};
use js_kind::{Token, TokenList};
use js_lexer::{Findings, is_valued, text_span};
use js_session::{Command, LexFault, RegexInfo, RowValue};
use js_source::OffsetMap;
use js_text::{SourceType, Span};
use std::alloc::{AllocError, Global};

/// What is live of a source: its tokens, with values and facts of regular expressions by their indices, and what was
/// found.
#[derive(Drop)]
pub struct LiveLists {
    alloc: Global,
    pub tokens: TokenList,
    /// The values that kind and span of a token don't tell, by the token's index.
    pub values: OffsetMap<RowValue>,
    /// What is known of regular expressions, by the token's index.
    pub regexes: OffsetMap<RegexInfo>,
    pub found: Findings,
}

/// Whether the spans are the same.
fn is_same(first: Span, second: Span) -> bool
    ensures { result ≡ true → first ≡ second }
{
    if first.start != second.start {
        return false;
    }
    first.end == second.end
}

/// The stretch of the source that kind and span of a token tell.
fn told_text(token: &Token) -> Option<Span>
    requires { is_valued token.now.kind ≡ true }
    ensures { IfSome result (λ span. IsTold token.now (RowValue.Slice span)) }
{
    let span = text_span(token)?;
    if span.end < span.start {
        return None;
    }
    Some(span)
}

/// Whether kind and span of a token tell that its value is this stretch of the source.
fn is_text(token: &Token, span: Span) -> bool
    ensures { result ≡ true → IsTold token.now (RowValue.Slice span) }
{
    if !is_valued(token.kind()) {
        return false;
    }
    match told_text(token) {
        Some(text) => is_same(text, span),
        None => false,
    }
}

/// Whether kind and span of a token tell that it has this value.
fn is_told(token: &Token, value: &TokenValue<'_>) -> bool
    ensures { result ≡ true → IsTold token.now (value_handed value.now) }
{
    match value {
        TokenValue::Nothing => !is_valued(token.kind()),
        TokenValue::Slice(span) => is_text(token, *span),
        TokenValue::Units(_) | TokenValue::Bad => false,
    }
}

/// A value that is kept, as it is handed over.
fn handed(value: &RowValue) -> TokenValue<'_>
    ensures { value_handed result ≡ value.now }
{
    match value {
        RowValue::Nothing => TokenValue::Nothing,
        RowValue::Slice(span) => TokenValue::Slice(*span),
        RowValue::Units(text) => TokenValue::Units(text),
        RowValue::Bad => TokenValue::Bad,
    }
}

/// A value of its own.
fn kept(alloc: Global, value: TokenValue<'_>) -> Result<RowValue, AllocError>
    ensures { IfOk result (λ kept. kept ≡ value_handed value.entry) }
{
    match value {
        TokenValue::Nothing => Ok(RowValue::Nothing),
        TokenValue::Slice(span) => Ok(RowValue::Slice(span)),
        TokenValue::Units(text) => Ok(RowValue::Units(text.copy(alloc)?)),
        TokenValue::Bad => Ok(RowValue::Bad),
    }
}

/// The value that kind and span of a token tell.
fn told_value(token: &Token) -> TokenValue<'static>
    ensures { (value : RowValue) → IsTold token.now value → value_handed result ≡ value }
{
    if !is_valued(token.kind()) {
        return TokenValue::Nothing;
    }
    match text_span(token) {
        Some(span) => TokenValue::Slice(span),
        None => TokenValue::Nothing,
    }
}

impl LiveLists {
    /// Nothing is listed. It needs no memory yet.
    fn new_in(alloc: Global) -> LiveLists
        ensures { HasTaken result [] }
    {
        LiveLists {
            alloc,
            tokens: TokenList::new_in(alloc),
            values: OffsetMap::new_in(alloc),
            regexes: OffsetMap::new_in(alloc),
            found: Findings::new_in(alloc),
        }
    }

    /// The index of the next token. One of 2^32 or more finds no memory.
    fn next_index(&self) -> Result<u32, AllocError>
        ensures { IfOk result (λ index. index ≡ length self.now.tokens) }
    {
        match u32::try_from(self.tokens.len()) {
            Ok(index) => Ok(index),
            Err(_) => Err(AllocError),
        }
    }
}

impl LiveLists {
    /// Adds the value of the token with this index, where kind and span don't tell it.
    fn add_value(
        &mut self,
        index: u32,
        token: &Token,
        value: TokenValue<'_>,
    ) -> Result<(), AllocError>
        ensures values { OnOk result
            (AddsValue index token.now (value_handed value.entry) self.old.values self.new.values) }
        ensures tokens { self.new.tokens ≡ self.old.tokens }
        ensures regexes { self.new.regexes ≡ self.old.regexes }
    {
        if is_told(token, &value) {
            return Ok(());
        }
        let value = kept(self.alloc, value)?;
        self.values.insert(index, value)
    }

    /// Adds what is known as a regular expression of the token with this index, if it is one.
    fn add_regex(&mut self, index: u32, regex: Option<RegexInfo>) -> Result<(), AllocError>
        ensures regexes { OnOk result (AddsRegex index regex self.old.regexes self.new.regexes) }
        ensures tokens { self.new.tokens ≡ self.old.tokens }
        ensures values { self.new.values ≡ self.old.values }
    {
        match regex {
            Some(info) => self.regexes.insert(index, info),
            None => Ok(()),
        }
    }

    /// The value of the token with this index.
    pub fn value(&self, index: u32) -> TokenValue<'_>
        requires { index < length self.now.tokens }
        ensures { (taken : List Taken) (x : Taken) → HasTaken self.now taken → slice_get taken index ≡ Some x
            → value_handed result ≡ x.value }
    {
        match self.values.get(index) {
            Some(value) => handed(value),
            None => told_value(&self.tokens.as_slice()[index as usize]),
        }
    }

    /// What is known as a regular expression of the token with this index. None: it is none.
    pub fn regex(&self, index: u32) -> Option<RegexInfo>
        ensures { (taken : List Taken) (x : Taken) → HasTaken self.now taken → slice_get taken index ≡ Some x
            → result ≡ x.regex }
    {
        self.regexes.get(index).copied()
    }
}

impl TakeTokens for LiveLists {
    ghost use Rattle.std.specs.Prelude.{⊤};
    ghost use Rattle.js_lists.specs.Lists.{AddsFound, AddsTaken};

    ghost takes = { AddsTaken };

    ghost ends = { AddsFound };

    ghost breaks_off = { λ _ _. ⊤ };

    fn take(
        &mut self,
        token: &Token,
        value: TokenValue<'_>,
        regex: Option<RegexInfo>,
    ) -> Result<(), AllocError> {
        let index = self.next_index()?;
        self.add_value(index, token, value)?;
        self.add_regex(index, regex)?;
        self.tokens.push(*token)
    }

    fn end(&mut self, found: Findings) -> Result<(), AllocError> {
        self.found = found;
        Ok(())
    }
}

/// The lists of a source whose goals are chosen by the rule of a chooser: what is live of the report that a session
/// over the source gives. Each answer is that of `read_chosen`.
pub fn chosen_lists<G: ChooseGoals>(
    alloc: Global,
    source: &[u8],
    source_type: SourceType,
) -> Result<LiveLists, ChoiceFault>
    ensures lists { IfOk result (ListsOfChosen G.choice source.now source_type) }
    ensures ok { OnOk result (IsReadable source.now) }
    ensures cause { IfErr result (λ fault. (fault ≡ ChoiceFault.Memory) ⊎ ChoiceCause source.now fault) }
    ensures exact { (fault : ChoiceFault) → ChoiceCause source.now fault → result ≡ Err fault }
    ensures complete { IsReadable source.now → IsOk result ⊎ (result ≡ Err ChoiceFault.Memory) }
{
    let mut lists = LiveLists::new_in(alloc);
    match read_chosen::<G, LiveLists>(alloc, source, source_type, &mut lists) {
        Ok(()) => Ok(lists),
        Err(fault) => Err(fault),
    }
}

/// The lists of a source and a list of commands: what is live of the report that a session with these commands gives.
/// Each answer is that of `read_steps`.
pub fn session_lists(
    alloc: Global,
    source: &[u8],
    source_type: SourceType,
    commands: &[Command],
) -> Result<LiveLists, LexFault>
    ensures lists { IfOk result (ListsOfCommands source.now source_type commands.now) }
    ensures ok { OnOk result (IsReadable source.now × HasMarks commands.now) }
    ensures cause { IfErr result (λ fault. (fault ≡ LexFault.Memory) ⊎ Cause source.now commands.now fault) }
    ensures exact { (fault : LexFault) → Cause source.now commands.now fault
        → (result ≡ Err fault) ⊎ (result ≡ Err LexFault.Memory) }
    ensures complete { IsReadable source.now → HasMarks commands.now → IsOk result ⊎ (result ≡ Err LexFault.Memory) }
{
    let mut lists = LiveLists::new_in(alloc);
    match read_steps::<LiveLists>(alloc, source, source_type, commands, &mut lists) {
        Ok(()) => Ok(lists),
        Err(fault) => Err(fault),
    }
}
