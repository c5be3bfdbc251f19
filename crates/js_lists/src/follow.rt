//! A lexer that follows commands, one by one.

ghost use Rattle.std.specs.Prelude.{◌≡◌, ◌<◌, true, length, OnOk, OnErr};
ghost use Rattle.js_grammar.specs.Reads.{is_onward};
ghost use Rattle.js_lexer.specs.Lexer.{token_or_default};
ghost use Rattle.js_session.specs.Effects.{closes, effect_of};
ghost use Rattle.js_lists.specs.Steps.{AreHeld, FollowsCommand, LooksAhead, MayGoBack, ReadsAgain, ReadsOn};
ghost use Rattle.js_lists.specs.Taken.{BreaksOff};

use crate::pending::Pending;
use crate::step::read_any;
use crate::take::TakeTokens;
use js_grammar::Goal;
use js_kind::LexerConfig;
use js_lexer::Lexer;
use js_session::{Command, Effect, LastRead};
use std::alloc::AllocError;

/// Settles the last token, and reads the one behind it.
fn read_on<C: LexerConfig + Drop, T: TakeTokens>(
    lexer: &mut Lexer<'_, C>,
    taker: &mut T,
    pending: &mut Pending,
    goal: Goal,
) -> Result<(), AllocError>
    requires onward { is_onward goal ≡ true }
    requires later { goal ≡ Goal.First → ⊥ }
    requires held { AreHeld lexer.old.decoded pending.old }
    ensures ok { OnOk result (ReadsOn T.takes goal lexer.old lexer.new pending.old pending.new taker.old taker.new) }
    ensures err { OnErr result (BreaksOff T.takes T.breaks_off taker.old taker.new) }
{
    pending.settle(lexer, taker)?;
    let token = read_any(lexer, goal)?;
    pending.last = LastRead { token, regex: None };
    Ok(())
}

/// Reads the last token again, where it fits the goal.
fn read_again<C: LexerConfig + Drop>(
    lexer: &mut Lexer<'_, C>,
    pending: &mut Pending,
    goal: Goal,
) -> Result<(), AllocError>
    requires { lexer.old.place ≡ (token_or_default lexer.old.last).end }
    ensures { OnOk result (ReadsAgain goal lexer.old lexer.new pending.old pending.new) }
{
    let found = js_session::read_again(lexer, goal)?;
    match found {
        Some(last) => {
            pending.last = last;
            Ok(())
        }
        None => Ok(()),
    }
}

/// Reads the next token, and goes back before it.
fn peek<C: LexerConfig + Drop>(lexer: &mut Lexer<'_, C>) -> Result<(), AllocError>
    ensures { OnOk result (LooksAhead lexer.old lexer.new) }
{
    lexer.peek_token()?;
    Ok(())
}

/// Follows a command of any kind.
pub(crate) fn follow<C: LexerConfig + Drop, T: TakeTokens>(
    lexer: &mut Lexer<'_, C>,
    taker: &mut T,
    pending: &mut Pending,
    command: Command,
) -> Result<(), AllocError>
    requires behind { lexer.old.place ≡ (token_or_default lexer.old.last).end }
    requires mark { closes command ≡ true → 0 < length pending.old.marks }
    requires back { MayGoBack lexer.old pending.old.marks }
    requires held { AreHeld lexer.old.decoded pending.old }
    ensures ok { OnOk result (FollowsCommand T.takes (effect_of command) lexer.old lexer.new pending.old pending.new
        taker.old taker.new) }
    ensures err { OnErr result (BreaksOff T.takes T.breaks_off taker.old taker.new) }
{
    match command.effect() {
        Effect::Reads(goal) => read_on(lexer, taker, pending, goal),
        Effect::Peeks(_) => peek(lexer),
        Effect::ReLexes(goal) => read_again(lexer, pending, goal),
        Effect::Opens => pending.open(lexer),
        Effect::Rewinds => {
            pending.rewind(lexer);
            Ok(())
        }
        Effect::Commits => {
            pending.commit();
            Ok(())
        }
    }
}
