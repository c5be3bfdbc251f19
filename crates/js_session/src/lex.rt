//! Sessions over a source, from a list of commands to their report.

ghost use Rattle.std.specs.Prelude.{◌≡◌, ◌<◌, ◌^◌, ◌⊎◌, true, length, IfOk, OnOk, IfErr, IsOk};
ghost use Rattle.std.specs.List.{AllByRecursion};
ghost use Rattle.std.specs.Str.{IsUtf8};
ghost use Rattle.js_session.specs.Effects.{effect_of, opens_one, needed_before, marks_needed};
ghost use Rattle.js_session.specs.Faults.{IsReadable, HasMarks, Cause};
ghost use Rattle.js_session.specs.Report.{ReportOf, HasMark, IsSliceOnPlaces};
ghost use Rattle.js_session.specs.Session.{Begins, Follows, report_of};
ghost use Rattle.js_session.specs.declared.fault.LexFault.{LexFault};

use crate::command::{Command, Effect};
use crate::fault::{LexFault, checked_text};
use crate::report::Report;
use crate::session::Session;
use crate::steps::Steps;
use js_kind::{LexerConfig, RuntimeLexerConfig};
use js_text::SourceType;
use std::alloc::{AllocError, Global};
use std::marker::Brand;
use std::sync::ledger::{Blank, Ledger};

/// How many places for marks have to be free before a command, where so many have to be after it.
fn needed_before(command: Command, needed: usize) -> usize
    requires { needed < usize.MAX }
    ensures { result ≡ needed_before (effect_of command) needed }
{
    match command.effect() {
        Effect::Opens => needed + 1,
        Effect::Rewinds | Effect::Commits => needed.saturating_sub(1),
        _ => needed,
    }
}

/// How many places for marks have to be free before the commands.
fn marks_needed(commands: &[Command]) -> usize
    ensures { result ≡ marks_needed commands.now }
{
    let mut needed = 0;
    for index in (0..commands.len()).rev() {
        needed = needed_before(commands[index], needed);
    }
    needed
}

/// One command of any kind.
fn follow<C: LexerConfig + Drop, L: Ledger>(
    session: &mut Session<'_, C>,
    command: Command,
    steps: &mut Steps<L>,
) -> Result<(), AllocError>
    requires mark { HasMark command session.old.state }
    requires place { opens_one command ≡ true → 0 < session.old.spare }
    ensures { OnOk result (Follows command session.old session.new) }
{
    match command.effect() {
        Effect::Opens => {
            session.mark();
            Ok(())
        }
        Effect::Rewinds => {
            session.rewind();
            Ok(())
        }
        Effect::Commits => {
            session.commit();
            Ok(())
        }
        _ => session.step(command, steps),
    }
}

/// The commands of a list, one by one, behind the first step. Places for their marks are reserved before.
fn follow_each<C: LexerConfig + Drop, L: Ledger>(
    session: &mut Session<'_, C>,
    commands: &[Command],
    steps: &mut Steps<L>,
) -> Result<(), AllocError>
    requires utf8 { IsUtf8 session.old.text }
    requires short { length session.old.text < 2 ^ 32 }
    requires marks { HasMarks commands.now }
    requires begun { Begins session.old.text session.old.source_type session.old.collects session.old }
    ensures { OnOk result (ReportOf session.old.text session.old.source_type session.old.collects commands.now
        (report_of session.new)) }
{
    session.reserve_marks(marks_needed(commands))?;
    for command in commands {
        follow(session, *command, steps)?;
    }
    Ok(())
}

/// The report of a list of commands over a source, which are tested first, over a counter that nobody reads.
fn lex_uncounted<L: Ledger>(
    alloc: Global,
    source: &[u8],
    source_type: SourceType,
    tokens: bool,
    commands: &[Command],
    blank: Blank,
) -> Result<Report, LexFault>
    requires name { blank.name ≡ L.name }
    requires parts { blank.parts ≡ L.parts }
    requires some_part { 0 < L.parts }
    ensures report { IfOk result (ReportOf source.now source_type tokens commands.now) }
    ensures ok { OnOk result (IsReadable source.now × HasMarks commands.now) }
    ensures cause { IfErr result (λ fault. (fault ≡ LexFault.Memory) ⊎ Cause source.now commands.now fault) }
{
    let text = checked_text(source, commands)?;
    let config = RuntimeLexerConfig::new(tokens);
    let mut steps = Steps::<L>::new(blank);
    let mut session = match Session::begin(alloc, text, source_type, config, &mut steps) {
        Ok(session) => session,
        Err(_) => return Err(LexFault::Memory),
    };
    match follow_each(&mut session, commands, &mut steps) {
        Ok(()) => Ok(session.finish()),
        Err(_) => Err(LexFault::Memory),
    }
}

/// The report of a list of commands over a source. The source is tested first, and then the commands.
pub fn lex_session(
    alloc: Global,
    source: &[u8],
    source_type: SourceType,
    tokens: bool,
    commands: &[Command],
) -> Result<Report, LexFault>
    // A row for each step, each the reading of its goal from its place, and what is live after the commands.
    ensures report { IfOk result (ReportOf source.now source_type tokens commands.now) }
    ensures slices { IfOk result (λ r. AllByRecursion (λ row. IsSliceOnPlaces source.now row.value) r.rows) }
    ensures ok { OnOk result (IsReadable source.now × HasMarks commands.now) }
    // Each fault comes for its cause alone, and where its cause is there, nothing but a lack of memory comes in its
    // place.
    ensures cause { IfErr result (λ fault. (fault ≡ LexFault.Memory) ⊎ Cause source.now commands.now fault) }
    ensures exact { (fault : LexFault) → Cause source.now commands.now fault
        → (result ≡ Err fault) ⊎ (result ≡ Err LexFault.Memory) }
    ensures complete { IsReadable source.now → HasMarks commands.now → IsOk result ⊎ (result ≡ Err LexFault.Memory) }
{
    lex_uncounted::<Brand>(alloc, source, source_type, tokens, commands, Blank::new(1))
}
