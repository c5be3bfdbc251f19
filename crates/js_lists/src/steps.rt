//! Sources that are read by a list of commands.

ghost use Rattle.std.specs.Prelude.{◌≡◌, ◌<◌, ◌^◌, ◌⊎◌, false, length, Err, OnOk, OnErr, IfErr, IsOk};
ghost use Rattle.std.specs.Str.{IsUtf8};
ghost use Rattle.js_lexer.specs.Lexer.{fresh};
ghost use Rattle.js_session.specs.Faults.{Cause, HasMarks, IsReadable};
ghost use Rattle.js_session.specs.declared.fault.LexFault.{LexFault};
ghost use Rattle.js_lists.specs.LiveLists.{TakesCommands};
ghost use Rattle.js_lists.specs.Steps.{TakesSteps};
ghost use Rattle.js_lists.specs.Taken.{BreaksOff};

use crate::follow::follow;
use crate::hand::take_findings;
use crate::pending::Pending;
use crate::take::TakeTokens;
use js_kind::{LexerConfig, NoTokensLexerConfig};
use js_lexer::Lexer;
use js_session::{Command, LexFault, checked_text};
use js_text::SourceType;
use std::alloc::{AllocError, Global};

/// Follows the commands, and hands over each token that is live behind them, once none of them can strike it out.
fn follow_each<C: LexerConfig + Drop, T: TakeTokens>(
    alloc: Global,
    lexer: &mut Lexer<'_, C>,
    commands: &[Command],
    taker: &mut T,
) -> Result<(), AllocError>
    requires unread { lexer.old ≡ fresh lexer.old.text lexer.old.source_type false }
    requires utf8 { IsUtf8 lexer.old.text }
    requires short { length lexer.old.text < 2 ^ 32 }
    requires marks { HasMarks commands.now }
    ensures ok { OnOk result (TakesSteps T.takes commands.now lexer.old.text lexer.old.source_type lexer.new.findings
        taker.old taker.new) }
    ensures err { OnErr result (BreaksOff T.takes T.breaks_off taker.old taker.new) }
{
    let token = lexer.first_token()?;
    let mut pending = Pending::behind(alloc, token);
    for command in commands {
        follow(lexer, taker, &mut pending, *command)?;
    }
    pending.hand_all(lexer, taker)
}

/// Reads a text by commands that close no mark too many.
fn read_text<T: TakeTokens>(
    alloc: Global,
    text: &str,
    source_type: SourceType,
    commands: &[Command],
    taker: &mut T,
) -> Result<(), AllocError>
    requires short { length text.now < 2 ^ 32 }
    requires marks { HasMarks commands.now }
    ensures ok { OnOk result (TakesCommands T.takes T.ends commands.now text.now source_type taker.old taker.new) }
    ensures err { OnErr result (BreaksOff T.takes T.breaks_off taker.old taker.new) }
{
    let mut lexer = match Lexer::new(alloc, text, source_type, NoTokensLexerConfig) {
        Ok(lexer) => lexer,
        Err(_) => return Err(AllocError),
    };
    follow_each(alloc, &mut lexer, commands, taker)?;
    let found = take_findings(alloc, &mut lexer)?;
    taker.end(found)
}

/// Reads a source by a list of commands, and hands what is live behind them to the taker: each token once, in order,
/// with its value, and then what was found. It is what is live of the report that a session with these commands gives.
///
/// A fault of the source or of the commands is told before anything is taken. Where memory is lacking, some tokens may
/// have been taken.
pub fn read_steps<T: TakeTokens>(
    alloc: Global,
    source: &[u8],
    source_type: SourceType,
    commands: &[Command],
    taker: &mut T,
) -> Result<(), LexFault>
    ensures taken { OnOk result
        (TakesCommands T.takes T.ends commands.now source.now source_type taker.old taker.new) }
    ensures ok { OnOk result (IsReadable source.now × HasMarks commands.now) }
    // Each fault comes for its cause alone, and where its cause is there, nothing but a lack of memory comes in its
    // place.
    ensures cause { IfErr result (λ fault. ((fault ≡ LexFault.Memory)
        × BreaksOff T.takes T.breaks_off taker.old taker.new)
        ⊎ (Cause source.now commands.now fault × (taker.new ≡ taker.old))) }
    ensures exact { (fault : LexFault) → Cause source.now commands.now fault
        → (result ≡ Err fault) ⊎ (result ≡ Err LexFault.Memory) }
    ensures complete { IsReadable source.now → HasMarks commands.now → IsOk result ⊎ (result ≡ Err LexFault.Memory) }
{
    let text = match checked_text(source, commands) {
        Ok(text) => text,
        Err(fault) => return Err(fault),
    };
    match read_text(alloc, text, source_type, commands, taker) {
        Ok(()) => Ok(()),
        Err(_) => Err(LexFault::Memory),
    }
}
