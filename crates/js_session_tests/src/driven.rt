//! A session that is driven by hand: by the laws of sessions, what it reports is the report of its commands.

ghost use Rattle.std.specs.Prelude.{◌≡◌, ◌<◌, ◌^◌, ℕ, Bool, List, [], ◌∷◌, false, length, IfOk, OnOk};
ghost use Rattle.js_session.specs.Report.{ReportOf};
ghost use Rattle.js_session.specs.Session.{HasRun};

use js_kind::NoTokensLexerConfig;
use js_session::laws::{
    a_session_begins_with_no_command, a_session_reports_its_commands,
    each_call_is_one_command_more, reserving_marks_is_no_command,
};
use js_session::{Command, Report, Session, Steps};
use js_text::SourceType;
use std::alloc::{AllocError, Global};
use std::sync::ledger::Ledger;

/// Reads on behind a mark, goes back, and looks at what comes.
fn drive<L: Ledger>(
    session: &mut Session<'_, NoTokensLexerConfig>,
    steps: &mut Steps<L>,
) -> Result<(), AllocError>
    ensures { (text : List ℕ) (t : SourceType) (collects : Bool) → HasRun text t collects [] session.old
        → OnOk result (HasRun text t collects
        (Command.Mark ∷ Command.Next ∷ Command.Rewind ∷ Command.Peek ∷ []) session.new) }
{
    reserving_marks_is_no_command();
    each_call_is_one_command_more();
    session.reserve_marks(1)?;
    session.mark();
    session.step(Command::Next, steps)?;
    session.rewind();
    session.step(Command::Peek, steps)?;
    Ok(())
}

/// The report of a session that is driven so.
pub(crate) fn driven<L: Ledger>(
    alloc: Global,
    text: &str,
    steps: &mut Steps<L>,
) -> Result<Report, AllocError>
    requires { length text.now < 2 ^ 32 }
    ensures { IfOk result (ReportOf text.now SourceType.Module false
        (Command.Mark ∷ Command.Next ∷ Command.Rewind ∷ Command.Peek ∷ [])) }
{
    a_session_begins_with_no_command();
    a_session_reports_its_commands();
    let config = NoTokensLexerConfig;
    match Session::begin(alloc, text, SourceType::Module, config, steps) {
        Ok(session) => {
            let mut session = session;
            drive(&mut session, steps)?;
            Ok(session.finish())
        }
        Err(_) => Err(AllocError),
    }
}
