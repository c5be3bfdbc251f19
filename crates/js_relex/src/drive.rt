//! Rows of a text, as a session gives them.

ghost use Rattle.std.specs.Prelude.{◌≡◌, ◌<◌, ◌≤◌, ◌+◌, ◌-◌, ◌^◌, ◌↔◌, ◌⊎◌, ◌++◌, ◌∷◌};
ghost use Rattle.std.specs.Prelude.{ℕ, Bool, [], List, true, false, length};
ghost use Rattle.std.specs.Prelude.{IfOk, OnOk, OnErr, IsTrue};
ghost use Rattle.std.specs.List.{list_all};
ghost use Rattle.js_text.specs.declared.source_type.SourceType.{SourceType};
ghost use Rattle.js_session.specs.Effects.{is_lasting};
ghost use Rattle.js_session.specs.Live.{State};
ghost use Rattle.js_session.specs.Report.{ReportOf};
ghost use Rattle.js_session.specs.Session.{MayResume, RunsFrom, state_behind};
ghost use Rattle.js_session.specs.declared.row.Row.{Row};
ghost use Rattle.js_relex.specs.Joined.{Joins};
ghost use Rattle.js_relex.specs.Joining.{BreaksBehind, BreaksEdited, ReadsEdited, ReadsUntil, StepsBroken, StepsUntil};

use crate::join::Joining;
use js_kind::{NoTokensLexerConfig, Token};
use js_session::{Command, Report, Row, RowList, Session, Steps};
use js_text::SourceType;
use std::alloc::{AllocError, Global};
use std::sync::ledger::Ledger;

/// Makes a step for each command.
fn step_each<L: Ledger>(
    session: &mut Session<'_, NoTokensLexerConfig>,
    commands: &[Command],
    steps: &mut Steps<L>,
) -> Result<(), AllocError>
    requires { list_all is_lasting commands.now ≡ true }
    ensures runs { OnOk result ((text : List ℕ) (t : SourceType) (collects : Bool) (start : State) (before : List Row)
        → RunsFrom text t collects start before [] session.old
        → RunsFrom text t collects start before commands.now session.new) }
    ensures ticks { OnOk result (steps.new ≡ steps.old + length commands.now) }
    ensures at_least { steps.old ≤ steps.new }
    ensures at_most { steps.new ≤ steps.old + length commands.now }
{
    for command in commands {
        session.step(*command, steps)?;
    }
    Ok(())
}

/// The report of the text from its start: a first row, and one for each command.
pub(crate) fn report_from_start<L: Ledger>(
    alloc: Global,
    text: &str,
    source_type: SourceType,
    commands: &[Command],
    steps: &mut Steps<L>,
) -> Result<Report, AllocError>
    requires short { length text.now < 2 ^ 32 }
    requires lasting { list_all is_lasting commands.now ≡ true }
    ensures report { IfOk result (ReportOf text.now source_type false commands.now) }
    ensures ticks { IfOk result (λ report. steps.new ≡ steps.old + length report.rows) }
    ensures at_least { steps.old ≤ steps.new }
    ensures at_most { steps.new ≤ steps.old + (length commands.now + 1) }
{
    let mut session = match Session::begin(alloc, text, source_type, NoTokensLexerConfig, steps) {
        Ok(session) => session,
        Err(_) => return Err(AllocError),
    };
    step_each(&mut session, commands, steps)?;
    Ok(session.finish())
}

/// Rows that were read, and whether the last of them joins the old ones.
pub(crate) struct ReadRows {
    pub(crate) rows: RowList,
    pub(crate) joined: bool,
}

/// Whether the last row of the session, behind which so many commands are left, joins an old one.
fn is_joined(session: &Session<'_, NoTokensLexerConfig>, joining: &Joining<'_>, left: usize) -> bool
    requires { left ≤ length joining.now.commands }
    ensures { (before : List Row) (row : Row) → session.now.rows ≡ before ++ row ∷ []
        → IsTrue result ↔ Joins joining.now (length joining.now.commands - left) row }
{
    match session.rows().last() {
        Some(row) => joining.is_joined_by(row, left),
        None => false,
    }
}

/// Makes a step for each of the commands, which are the last ones, up to the first whose row joins an old one: it tells
/// whether there is one.
fn step_until_joined<L: Ledger>(
    session: &mut Session<'_, NoTokensLexerConfig>,
    joining: &Joining<'_>,
    commands: &[Command],
    steps: &mut Steps<L>,
) -> Result<bool, AllocError>
    requires lasting { list_all is_lasting commands.now ≡ true }
    requires last { length commands.now ≤ length joining.now.commands }
    ensures ok { IfOk result (StepsUntil joining.now commands.now session.old session.new steps.old steps.new) }
    ensures err { OnErr result
        (StepsBroken joining.now commands.now session.old session.new steps.old steps.new) }
    ensures at_least { steps.old ≤ steps.new }
    ensures at_most { steps.new ≤ steps.old + length commands.now }
{
    let mut index = 0;
    while index < commands.len() {
        session.step(commands[index], steps)?;
        index += 1;
        if is_joined(session, joining, commands.len() - index) {
            return Ok(true);
        }
    }
    Ok(false)
}

/// The rows that the session read, and whether the last of them joins an old one.
fn read_rows(session: Session<'_, NoTokensLexerConfig>, joined: bool) -> ReadRows
    ensures { result ≡ record { rows = session.entry.rows; joined = joined } }
{
    let report = session.finish();
    ReadRows {
        rows: report.rows,
        joined,
    }
}

/// The rows of the text from behind the token: one for each of the commands, which are the last ones, up to the first
/// row that joins an old one.
pub(crate) fn rows_behind<L: Ledger>(
    alloc: Global,
    text: &str,
    source_type: SourceType,
    token: Token,
    joining: &Joining<'_>,
    commands: &[Command],
    steps: &mut Steps<L>,
) -> Result<ReadRows, AllocError>
    requires short { length text.now < 2 ^ 32 }
    requires resumes { MayResume text.now token }
    requires lasting { list_all is_lasting commands.now ≡ true }
    requires last { length commands.now ≤ length joining.now.commands }
    ensures rows { IfOk result (λ r.
        ReadsUntil text.now source_type (state_behind token) joining.now commands.now r.rows r.joined) }
    ensures ticks { IfOk result (λ r. steps.new ≡ steps.old + length r.rows) }
    ensures broken { OnErr result ((steps.new ≡ steps.old)
        ⊎ BreaksBehind text.now source_type (state_behind token) joining.now commands.now steps.old steps.new) }
    ensures at_least { steps.old ≤ steps.new }
    ensures at_most { steps.new ≤ steps.old + length commands.now }
{
    let mut session = match Session::resume(
        alloc,
        text,
        source_type,
        NoTokensLexerConfig,
        token,
        steps,
    ) {
        Ok(session) => session,
        Err(_) => return Err(AllocError),
    };
    let joined = step_until_joined(&mut session, joining, commands, steps)?;
    Ok(read_rows(session, joined))
}

/// The rows of the text from its start: the first one, and one for each command, up to the first that joins an old one.
pub(crate) fn rows_from_start<L: Ledger>(
    alloc: Global,
    text: &str,
    source_type: SourceType,
    joining: &Joining<'_>,
    steps: &mut Steps<L>,
) -> Result<ReadRows, AllocError>
    requires short { length text.now < 2 ^ 32 }
    requires lasting { list_all is_lasting joining.now.commands ≡ true }
    ensures rows { IfOk result (λ r. ReadsEdited text.now source_type joining.now 0 r.rows r.joined) }
    ensures ticks { IfOk result (λ r. steps.new ≡ steps.old + length r.rows) }
    ensures broken { OnErr result (BreaksEdited text.now source_type joining.now 0 steps.old steps.new) }
    ensures at_least { steps.old ≤ steps.new }
    ensures at_most { steps.new ≤ steps.old + (length joining.now.commands + 1) }
{
    let mut session = match Session::begin(alloc, text, source_type, NoTokensLexerConfig, steps) {
        Ok(session) => session,
        Err(_) => return Err(AllocError),
    };
    let commands = joining.commands();
    if is_joined(&session, joining, commands.len()) {
        return Ok(read_rows(session, true));
    }
    let joined = step_until_joined(&mut session, joining, commands, steps)?;
    Ok(read_rows(session, joined))
}
