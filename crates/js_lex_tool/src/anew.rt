//! Sources that are written anew, with the same rows.

ghost use Rattle.std.specs.Prelude.{◌≡◌, ◌≤◌, ◌⊎◌, Some, None, false, length, IfOk, OnOk, IfErr};
ghost use Rattle.js_session.specs.Faults.{SourceCause};
ghost use Rattle.js_session.specs.Report.{ReportOf};
ghost use Rattle.js_rewrite.specs.Faults.{RewriteCause, first_bad};
ghost use Rattle.js_process.specs.Outside.{InTime};
ghost use Rattle.js_process.specs.Reads.{most_bytes};
ghost use Rattle.js_process.specs.Status.{CountsFault, number, HasPassed};
ghost use Rattle.js_process.specs.Status.Status.{OutOfMemory, WriteFailed, NoMark};
ghost use Rattle.js_process.specs.Writing.{Writes};
ghost use Rattle.js_lex_tool.specs.Anew.{KeepsRows, text_anew};
ghost use Rattle.js_lex_tool.specs.Run.{AnswersAnew, AreMeant, RunsAnew, status_anew};
ghost use Rattle.js_lex_tool.specs.Words.{MayRewrite};

use crate::tool::{
    Ran, ToolOutcome, outcome_behind, outcome_without_run, run_all, run_auto, status_of,
};
use crate::words::{Commands, Rewrite, Rewriting};
use js_process::status::{DIAGNOSED, MEMORY, NOT_UTF8, READ_FAILED, TOO_LONG, USAGE};
use js_process::write_all::write_status;
use js_process::{ByteIn, ByteOut, MOST_BYTES, ReadFault, read_to_end};
use js_rewrite::RewriteFault;
use js_session::{Command, CommandList, LexFault, Report};
use js_squeeze::{Squeezed, squeeze};
use js_strip::{Stripped, strip};
use js_text::{ByteList, SourceText, SourceType};
use std::alloc::Global;

/// The status for the fault of a source that is not written anew.
fn status_anew(fault: RewriteFault) -> u8
    ensures { result ≡ number (status_anew fault) }
{
    match fault {
        RewriteFault::Overlong => TOO_LONG,
        RewriteFault::NotUtf8(_) => NOT_UTF8,
        RewriteFault::BadCommand(_) => USAGE,
        RewriteFault::Diagnosed(_) => DIAGNOSED,
        RewriteFault::Memory => MEMORY,
    }
}

/// The commands that are meant over the source.
fn meant_commands(
    alloc: Global,
    source: &[u8],
    source_type: SourceType,
    commands: Commands,
) -> Result<CommandList, LexFault>
    requires { MayRewrite source_type commands }
    ensures meant { IfOk result (λ list. (report : Report) → ReportOf source.now source_type false list report
        → AreMeant commands source.now source_type false list report) }
    ensures allowed { IfOk result (λ list. first_bad source_type list ≡ None) }
    ensures cause { IfErr result (λ fault. (fault ≡ LexFault.Memory) ⊎ SourceCause source.now fault) }
{
    match commands {
        Commands::Listed(commands) => Ok(commands),
        Commands::All => match run_all(alloc, source, source_type, false) {
            Ok(ran) => Ok(ran.0),
            Err(fault) => Err(fault),
        },
        Commands::Auto => match run_auto(alloc, source, source_type, false) {
            Ok(ran) => Ok(ran.0),
            Err(fault) => Err(fault),
        },
    }
}

/// The source without its comments, and the report of the commands over the source.
fn make_stripped(
    alloc: Global,
    source: &[u8],
    source_type: SourceType,
    commands: &[Command],
) -> Result<(SourceText, Report), RewriteFault>
    ensures report { IfOk result (λ made. ReportOf source.now source_type false commands.now made.1) }
    ensures text { IfOk result (λ made. made.0 ≡ text_anew Rewrite.Strip source.now made.1) }
    ensures keeps { IfOk result (λ made. KeepsRows source.now source_type commands.now made.1 made.0) }
    ensures ok { OnOk result ((fault : RewriteFault) → ¬ (RewriteCause source.now source_type commands.now fault)) }
    ensures cause { IfErr result (λ fault. (fault ≡ RewriteFault.Memory)
        ⊎ RewriteCause source.now source_type commands.now fault) }
{
    match strip(alloc, source, source_type, commands) {
        Ok(Stripped { text, before, .. }) => Ok((text, before)),
        Err(fault) => Err(fault),
    }
}

/// The squeezed source, and the report of the commands over the source.
fn make_squeezed(
    alloc: Global,
    source: &[u8],
    source_type: SourceType,
    commands: &[Command],
) -> Result<(SourceText, Report), RewriteFault>
    ensures report { IfOk result (λ made. ReportOf source.now source_type false commands.now made.1) }
    ensures text { IfOk result (λ made. made.0 ≡ text_anew Rewrite.Squeeze source.now made.1) }
    ensures keeps { IfOk result (λ made. KeepsRows source.now source_type commands.now made.1 made.0) }
    ensures ok { OnOk result ((fault : RewriteFault) → ¬ (RewriteCause source.now source_type commands.now fault)) }
    ensures cause { IfErr result (λ fault. (fault ≡ RewriteFault.Memory)
        ⊎ RewriteCause source.now source_type commands.now fault) }
{
    match squeeze(alloc, source, source_type, commands) {
        Ok(Squeezed { text, before, .. }) => Ok((text, before)),
        Err(fault) => Err(fault),
    }
}

/// The text that is made of a source, and the report of the commands over the source.
fn make_anew(
    alloc: Global,
    rewrite: Rewrite,
    source: &[u8],
    source_type: SourceType,
    commands: &[Command],
) -> Result<(SourceText, Report), RewriteFault>
    ensures report { IfOk result (λ made. ReportOf source.now source_type false commands.now made.1) }
    ensures text { IfOk result (λ made. made.0 ≡ text_anew rewrite source.now made.1) }
    ensures keeps { IfOk result (λ made. KeepsRows source.now source_type commands.now made.1 made.0) }
    ensures ok { OnOk result ((fault : RewriteFault) → ¬ (RewriteCause source.now source_type commands.now fault)) }
    ensures cause { IfErr result (λ fault. (fault ≡ RewriteFault.Memory)
        ⊎ RewriteCause source.now source_type commands.now fault) }
{
    match rewrite {
        Rewrite::Strip => make_stripped(alloc, source, source_type, commands),
        Rewrite::Squeeze => make_squeezed(alloc, source, source_type, commands),
    }
}

/// Writes a text that was made of what ran.
fn write_made<O: ByteOut>(text: &str, ran: Ran, output: &mut O) -> ToolOutcome
    ensures outcome { (result ≡ record { status = number OutOfMemory; ran = None })
        ⊎ (HasPassed NoMark result.status × (result.ran ≡ Some ran)) }
    ensures text { Writes text.now (O.state output.old) (O.state output.new) result.status }
    ensures faults { CountsFault WriteFailed result.status (O.state output.old).faults (O.state output.new).faults }
    ensures in_time { InTime (O.state output.old).course (O.state output.new).course }
{
    let status = write_status(text, output);
    outcome_behind(status, ran)
}

/// Writes the bytes of an input anew.
fn answer_anew<O: ByteOut>(
    alloc: Global,
    rewriting: Rewriting,
    source: ByteList,
    output: &mut O,
) -> ToolOutcome
    requires few { length source ≤ most_bytes }
    requires allowed { MayRewrite rewriting.source_type rewriting.commands }
    ensures { AnswersAnew rewriting source (O.state output.old) (O.state output.new) result }
{
    let Rewriting {
        rewrite,
        source_type,
        commands,
    } = rewriting;
    let bytes = source.as_slice();
    let commands = match meant_commands(alloc, bytes, source_type, commands) {
        Ok(commands) => commands,
        Err(fault) => return outcome_without_run(status_of(fault)),
    };
    let (text, report) = match make_anew(alloc, rewrite, bytes, source_type, commands.as_slice()) {
        Ok(made) => made,
        Err(fault) => return outcome_without_run(status_anew(fault)),
    };
    let ran = Ran {
        source,
        source_type,
        tokens: false,
        commands,
        report,
    };
    write_made(text.as_str(), ran, output)
}

/// Reads an input to its end, and writes its bytes anew.
pub(crate) fn run_anew<I: ByteIn, O: ByteOut>(
    alloc: Global,
    rewriting: Rewriting,
    input: &mut I,
    output: &mut O,
) -> ToolOutcome
    requires { MayRewrite rewriting.source_type rewriting.commands }
    ensures { RunsAnew rewriting
        (I.state input.old) (I.state input.new) (O.state output.old) (O.state output.new) result }
{
    match read_to_end(alloc, input, MOST_BYTES) {
        Ok(source) => answer_anew(alloc, rewriting, source, output),
        Err(ReadFault::Failed) => outcome_without_run(READ_FAILED),
        Err(ReadFault::TooLong) => outcome_without_run(TOO_LONG),
        Err(ReadFault::Memory) => outcome_without_run(MEMORY),
    }
}
