//! Sources whose goals are chosen.

ghost use Rattle.std.specs.Prelude.{◌≡◌, ◌≤◌, ◌<◌, ◌^◌, ◌⊎◌, ℕ, false, List, length, None, Err};
ghost use Rattle.std.specs.Prelude.{OnOk, OnErr, IfErr, IsOk};
ghost use Rattle.std.specs.Str.{IsUtf8};
ghost use Rattle.js_grammar.specs.TokenText.{text_start, text_end};
ghost use Rattle.js_lexer.specs.Lexer.{fresh};
ghost use Rattle.js_session.specs.Faults.{IsReadable, SourceCause};
ghost use Rattle.js_session.specs.Effects.{effect_of};
ghost use Rattle.js_choose.specs.Faults.{ChoiceCause};
ghost use Rattle.js_choose.specs.declared.fault.ChoiceFault.{ChoiceFault};
ghost use Rattle.js_lists.specs.LiveLists.{TakesChosen};
ghost use Rattle.js_lists.specs.Taken.{BreaksOff, plain_taken};
ghost use Rattle.js_lists.specs.Drive.{Follows, HandsOver, IsHeld, MayFollow, TakesTokens};

use crate::config::DrivenLexerConfig;
use crate::hand::{hand_over, take_findings};
use crate::names::is_name;
use crate::step::{read_again, read_next, read_on};
use crate::take::{TakeTokens, TokenValue};
use crate::value::unescaped_value;
use js_choose::{ChoiceFault, ChooseGoals};
use js_grammar::Goal;
use js_kind::{LexerConfig, Token};
use js_lexer::Lexer;
use js_session::{Command, Effect, LastRead, LexFault, utf8_text};
use js_text::SourceType;
use std::alloc::{AllocError, Global};

/// Hands the last token over, with an escape, or as a regular expression.
fn hand_over_rare<C: LexerConfig + Drop, T: TakeTokens>(
    lexer: &Lexer<'_, C>,
    taker: &mut T,
    last: &mut LastRead,
) -> Result<(), AllocError>
    requires { IsHeld lexer.now.decoded last.old }
    ensures ok { OnOk result (HandsOver T.takes lexer.now.decoded last.old taker.old taker.new) }
    ensures forgets { OnOk result (last.new.regex ≡ None) }
    ensures err { OnErr result (T.breaks_off taker.old taker.new) }
{
    hand_over(lexer, taker, last)?;
    last.regex = None;
    Ok(())
}

/// Hands a token over that has no escape and is no regular expression. Each way is compiled apart, with what a taker does
/// then.
#[inline(always)]
fn hand_over_plain<T: TakeTokens>(taker: &mut T, token: &Token) -> Result<(), AllocError>
    requires { text_start token.now.kind token.now.start ≤ text_end token.now.kind token.now.end }
    ensures ok { OnOk result (T.takes taker.old (plain_taken token.now) taker.new) }
    ensures err { OnErr result (T.breaks_off taker.old taker.new) }
{
    if is_name(token) {
        return taker.take(token, TokenValue::Slice(token.span()), None);
    }
    match unescaped_value(token) {
        TokenValue::Nothing => taker.take(token, TokenValue::Nothing, None),
        value => taker.take(token, value, None),
    }
}

/// Hands the last token over, which is settled, and forgets what is known of it as a regular expression. Few have an
/// escape or are regular expressions: all others go a way of their own.
#[inline(always)]
fn hand_over_settled<C: LexerConfig + Drop, T: TakeTokens>(
    lexer: &Lexer<'_, C>,
    taker: &mut T,
    last: &mut LastRead,
) -> Result<(), AllocError>
    requires { IsHeld lexer.now.decoded last.old }
    ensures ok { OnOk result (HandsOver T.takes lexer.now.decoded last.old taker.old taker.new) }
    ensures forgets { OnOk result (last.new.regex ≡ None) }
    ensures err { OnErr result (T.breaks_off taker.old taker.new) }
{
    if last.token.escaped() {
        return hand_over_rare(lexer, taker, last);
    }
    match last.regex {
        None => hand_over_plain(taker, &last.token),
        Some(_) => hand_over_rare(lexer, taker, last),
    }
}

/// Follows a command that is chosen, and is not `Command::Next`: one that reads on settles the last token, which is handed
/// over first.
#[inline(never)]
fn follow_any<C: LexerConfig + Drop, G: ChooseGoals, T: TakeTokens>(
    lexer: &mut Lexer<'_, C>,
    chooser: &mut G,
    taker: &mut T,
    last: &mut LastRead,
    command: Command,
) -> Result<(), AllocError>
    requires other { command ≡ Command.Next → ⊥ }
    requires may { MayFollow (effect_of command) lexer.old }
    requires held { IsHeld lexer.old.decoded last.old }
    ensures ok { OnOk result (Follows T.takes G.is_told (effect_of command) last.old last.new lexer.old lexer.new
        chooser.old chooser.new taker.old taker.new) }
    ensures err { OnErr result (BreaksOff T.takes T.breaks_off taker.old taker.new) }
{
    match command.effect() {
        Effect::Reads(goal) => {
            hand_over(lexer, taker, last)?;
            *last = read_on(lexer, chooser, goal)?;
            Ok(())
        }
        Effect::ReLexes(goal) => {
            *last = read_again(lexer, chooser, goal)?;
            Ok(())
        }
        _ => unreachable!(),
    }
}

/// The same of any command; most steps read the next token, and that is compiled apart.
#[inline(always)]
fn follow<C: LexerConfig + Drop, G: ChooseGoals, T: TakeTokens>(
    lexer: &mut Lexer<'_, C>,
    chooser: &mut G,
    taker: &mut T,
    last: &mut LastRead,
    command: Command,
) -> Result<(), AllocError>
    requires may { MayFollow (effect_of command) lexer.old }
    requires held { IsHeld lexer.old.decoded last.old }
    ensures ok { OnOk result (Follows T.takes G.is_told (effect_of command) last.old last.new lexer.old lexer.new
        chooser.old chooser.new taker.old taker.new) }
    ensures err { OnErr result (BreaksOff T.takes T.breaks_off taker.old taker.new) }
{
    match command {
        Command::Next => {
            hand_over_settled(lexer, taker, last)?;
            read_next(lexer, chooser, last)
        }
        _ => follow_any(lexer, chooser, taker, last, command),
    }
}

/// Reads the tokens that are chosen, and hands each over once it is settled.
#[inline(always)]
fn read_tokens<C: LexerConfig + Drop, G: ChooseGoals, T: TakeTokens>(
    alloc: Global,
    text: &str,
    lexer: &mut Lexer<'_, C>,
    taker: &mut T,
) -> Result<(), AllocError>
    requires unread { lexer.old ≡ fresh text.now lexer.old.source_type false }
    requires utf8 { IsUtf8 text.now }
    requires short { length text.now < 2 ^ 32 }
    ensures ok { OnOk result (TakesTokens T.takes G.choice text.now lexer.old.source_type lexer.new.findings
        taker.old taker.new) }
    ensures err { OnErr result (BreaksOff T.takes T.breaks_off taker.old taker.new) }
{
    let mut chooser = G::new(alloc);
    let mut last = read_on(lexer, &mut chooser, Goal::First)?;
    while let Some(command) = chooser.command(text) {
        follow(lexer, &mut chooser, taker, &mut last, command)?;
    }
    hand_over(lexer, taker, &last)
}

/// Reads a text whose goals are chosen.
#[inline(never)]
fn read_text<G: ChooseGoals, T: TakeTokens>(
    alloc: Global,
    text: &str,
    source_type: SourceType,
    taker: &mut T,
) -> Result<(), AllocError>
    requires { length text.now < 2 ^ 32 }
    ensures ok { OnOk result (TakesChosen T.takes T.ends G.choice text.now source_type taker.old taker.new) }
    ensures err { OnErr result (BreaksOff T.takes T.breaks_off taker.old taker.new) }
{
    let config = DrivenLexerConfig::<G>::default();
    let mut lexer = match Lexer::new(alloc, text, source_type, config) {
        Ok(lexer) => lexer,
        Err(_) => return Err(AllocError),
    };
    read_tokens::<DrivenLexerConfig<G>, G, T>(alloc, text, &mut lexer, taker)?;
    let found = take_findings(alloc, &mut lexer)?;
    taker.end(found)
}

/// The fault of a source.
fn fault_of(fault: LexFault) -> ChoiceFault
    ensures { (source : List ℕ) → SourceCause source fault → ChoiceCause source result }
{
    match fault {
        LexFault::Overlong => ChoiceFault::Overlong,
        LexFault::NotUtf8(at) => ChoiceFault::NotUtf8(at),
        LexFault::NoMark(_) | LexFault::Memory => ChoiceFault::Memory,
    }
}

/// Reads a source whose goals are chosen by the rule of a chooser, and hands what is live of it to the taker: each
/// token once, in order, with its value, and then what was found. It is what is live of the report that a session over
/// the source gives.
///
/// A fault of the source is told before anything is taken. Where memory is lacking, some tokens may have been taken.
pub fn read_chosen<G: ChooseGoals, T: TakeTokens>(
    alloc: Global,
    source: &[u8],
    source_type: SourceType,
    taker: &mut T,
) -> Result<(), ChoiceFault>
    ensures taken { OnOk result
        (TakesChosen T.takes T.ends G.choice source.now source_type taker.old taker.new) }
    ensures ok { OnOk result (IsReadable source.now) }
    // Each fault comes for its cause alone, and where the source has one, it comes.
    ensures cause { IfErr result (λ fault. ((fault ≡ ChoiceFault.Memory)
        × BreaksOff T.takes T.breaks_off taker.old taker.new)
        ⊎ (ChoiceCause source.now fault × (taker.new ≡ taker.old))) }
    ensures exact { (fault : ChoiceFault) → ChoiceCause source.now fault → result ≡ Err fault }
    ensures complete { IsReadable source.now → IsOk result ⊎ (result ≡ Err ChoiceFault.Memory) }
{
    let text = match utf8_text(source) {
        Ok(text) => text,
        Err(fault) => return Err(fault_of(fault)),
    };
    match read_text::<G, T>(alloc, text, source_type, taker) {
        Ok(()) => Ok(()),
        Err(_) => Err(ChoiceFault::Memory),
    }
}
