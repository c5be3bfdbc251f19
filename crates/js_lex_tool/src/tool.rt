//! A run of the program: from words and bytes to a status and a text.

ghost use Rattle.std.specs.Prelude.{◌≡◌, ◌≢◌, ◌<◌, ◌≤◌, ◌⊎◌, ◌^◌, ℕ, [], ◌∷◌, length, string_bytes};
ghost use Rattle.std.specs.Prelude.{IfOk, OnOk, IfErr, Some};
ghost use Rattle.std.specs.List.{AllByRecursion};
ghost use Rattle.std.specs.Str.{IsUtf8};
ghost use Rattle.js_session.specs.Faults.{IsReadable, HasMarks, SourceCause, Cause};
ghost use Rattle.js_session.specs.Report.{IsSliceOnPlaces, ReportOf};
ghost use Rattle.js_process.specs.Memory.{sure_input, sure_output};
ghost use Rattle.js_process.specs.Outside.{InTime};
ghost use Rattle.js_process.specs.Reads.{most_bytes};
ghost use Rattle.js_process.specs.Status.{CountsFault, number, IsOneOf, HasPassed};
ghost use Rattle.js_process.specs.Status.Status.{Done, OutOfMemory, ReadFailed, WriteFailed, NoMark};
ghost use Rattle.js_process.specs.Writing.{Writes};
ghost use Rattle.js_lex_tool.specs.ReportText.{report_text_of};
ghost use Rattle.js_lex_tool.specs.Run.{status_of, Answers, RunsLine, RunsTool};
ghost use Rattle.js_lex_tool.specs.Run.{CanRun, AreMeant, RunsTask, listed_commands, lexes_lines};
ghost use Rattle.js_lex_tool.specs.Generated.{most_lines, generated, gen_summary, summary_of};
ghost use Rattle.js_lex_tool.specs.Words.{task_of, IsAllowed};

use crate::anew::run_anew;
use crate::generator::{gen_summary, generated};
use crate::report_out::write_report_text;
use crate::words::{CommandLine, Commands, Task, push_repeated, read_words};
use js_auto::{Auto, auto_session};
use js_process::status::{MEMORY, NO_MARK, NOT_UTF8, READ_FAILED, TOO_LONG, USAGE};
use js_process::write_all::write_status;
use js_process::{ByteIn, ByteOut, MOST_BYTES, ReadFault, SureIn, SureOut, read_to_end};
use js_session::{Command, CommandList, LexFault, Report, lex_all, lex_session};
use js_text::{ByteList, SourceType};
use std::alloc::{AllocError, Global};

/// What was run over, and what a session gave for it.
#[derive(Drop)]
pub struct Ran {
    /// All bytes of the input, or of the generated lines.
    pub source: ByteList,
    pub source_type: SourceType,
    /// Whether tokens are collected.
    pub tokens: bool,
    pub commands: CommandList,
    pub report: Report,
}

/// What a run came to.
#[derive(Drop)]
pub struct ToolOutcome {
    /// The exit status of the program.
    pub status: u8,
    /// What was run over. It is Some where the text was written, or the output failed.
    pub ran: Option<Ran>,
}

/// The outcome of a run that has no report.
pub(crate) fn outcome_without_run(status: u8) -> ToolOutcome
    ensures { result ≡ record { status = status; ran = None } }
{
    ToolOutcome { status, ran: None }
}

/// The outcome of a run that has a report.
fn outcome_of(status: u8, ran: Ran) -> ToolOutcome
    ensures { result ≡ record { status = status; ran = Some ran } }
{
    ToolOutcome {
        status,
        ran: Some(ran),
    }
}

/// The status for a fault of a session.
pub(crate) fn status_of(fault: LexFault) -> u8
    ensures { result ≡ number (status_of fault) }
{
    match fault {
        LexFault::Overlong => TOO_LONG,
        LexFault::NotUtf8(_) => NOT_UTF8,
        LexFault::NoMark(_) => NO_MARK,
        LexFault::Memory => MEMORY,
    }
}

/// The summary of what ran over so many generated lines.
fn summary_of(alloc: Global, lines: u32, ran: &Ran) -> Result<String, AllocError>
    requires { length ran.now.source < 2 ^ 32 }
    ensures { IfOk result (λ text. string_bytes text ≡ gen_summary lines (length ran.now.source) ran.now.report) }
{
    gen_summary(alloc, lines, ran.source.len() as u32, &ran.report)
}

/// The outcome of a run behind the writing of its text.
pub(crate) fn outcome_behind(status: u8, ran: Ran) -> ToolOutcome
    requires { (status ≡ number OutOfMemory) ⊎ HasPassed NoMark status }
    ensures outcome { (result ≡ record { status = number OutOfMemory; ran = None })
        ⊎ (HasPassed NoMark result.status × (result.ran ≡ Some ran)) }
    ensures status { result.status ≡ status }
{
    if status == MEMORY {
        outcome_without_run(MEMORY)
    } else {
        outcome_of(status, ran)
    }
}

/// Writes the text of what ran, and gives the status that this leads to.
fn report_status<O: ByteOut>(alloc: Global, ran: &Ran, output: &mut O) -> u8
    requires utf8 { IsUtf8 ran.now.source }
    requires slices { AllByRecursion (λ row. IsSliceOnPlaces ran.now.source row.value) ran.now.report.rows }
    ensures status { (result ≡ number OutOfMemory) ⊎ HasPassed NoMark result }
    ensures text { Writes (report_text_of ran.now.source ran.now.report)
        (O.state output.old) (O.state output.new) result }
    ensures faults { CountsFault WriteFailed result (O.state output.old).faults (O.state output.new).faults }
    ensures in_time { InTime (O.state output.old).course (O.state output.new).course }
{
    let source = unsafe { str::from_utf8_unchecked(ran.source.as_slice()) };
    write_report_text(alloc, source, &ran.report, output)
}

/// Writes the text of what ran.
fn write_report<O: ByteOut>(alloc: Global, ran: Ran, output: &mut O) -> ToolOutcome
    requires utf8 { IsUtf8 ran.source }
    requires slices { AllByRecursion (λ row. IsSliceOnPlaces ran.source row.value) ran.report.rows }
    ensures outcome { (result ≡ record { status = number OutOfMemory; ran = None })
        ⊎ (HasPassed NoMark result.status × (result.ran ≡ Some ran)) }
    ensures text { Writes (report_text_of ran.source ran.report)
        (O.state output.old) (O.state output.new) result.status }
    ensures faults { CountsFault WriteFailed result.status (O.state output.old).faults (O.state output.new).faults }
    ensures in_time { InTime (O.state output.old).course (O.state output.new).course }
{
    let status = report_status(alloc, &ran, output);
    outcome_behind(status, ran)
}

/// Writes the summary of what ran over so many generated lines, and gives the status that this leads to.
fn summary_status<O: ByteOut>(alloc: Global, lines: u32, ran: &Ran, output: &mut O) -> u8
    requires { length ran.now.source < 2 ^ 32 }
    ensures status { (result ≡ number OutOfMemory) ⊎ HasPassed NoMark result }
    ensures text { Writes (gen_summary lines (length ran.now.source) ran.now.report)
        (O.state output.old) (O.state output.new) result }
    ensures faults { CountsFault WriteFailed result (O.state output.old).faults (O.state output.new).faults }
    ensures in_time { InTime (O.state output.old).course (O.state output.new).course }
{
    match summary_of(alloc, lines, ran) {
        Ok(text) => write_status(text.as_str(), output),
        Err(_) => MEMORY,
    }
}

/// Writes the summary of what ran over so many generated lines.
fn write_summary<O: ByteOut>(alloc: Global, lines: u32, ran: Ran, output: &mut O) -> ToolOutcome
    requires { length ran.source < 2 ^ 32 }
    ensures outcome { (result ≡ record { status = number OutOfMemory; ran = None })
        ⊎ (HasPassed NoMark result.status × (result.ran ≡ Some ran)) }
    ensures text { Writes (gen_summary lines (length ran.source) ran.report)
        (O.state output.old) (O.state output.new) result.status }
    ensures faults { CountsFault WriteFailed result.status (O.state output.old).faults (O.state output.new).faults }
    ensures in_time { InTime (O.state output.old).course (O.state output.new).course }
{
    let status = summary_status(alloc, lines, &ran, output);
    outcome_behind(status, ran)
}

/// A session over the source with the listed commands: these, and its report.
fn run_listed(
    alloc: Global,
    source: &[u8],
    source_type: SourceType,
    tokens: bool,
    commands: CommandList,
) -> Result<(CommandList, Report), LexFault>
    ensures commands { IfOk result (λ ran. ran.0 ≡ commands) }
    ensures report { IfOk result (λ ran. ReportOf source.now source_type tokens ran.0 ran.1) }
    ensures slices { IfOk result (λ ran. AllByRecursion (λ row. IsSliceOnPlaces source.now row.value) ran.1.rows) }
    ensures ok { OnOk result (IsReadable source.now × HasMarks commands) }
    ensures cause { IfErr result (λ fault. (fault ≡ LexFault.Memory) ⊎ Cause source.now commands fault) }
{
    match lex_session(alloc, source, source_type, tokens, commands.as_slice()) {
        Ok(report) => Ok((commands, report)),
        Err(fault) => Err(fault),
    }
}

/// A session up to the end of the source: its commands, and its report.
pub(crate) fn run_all(
    alloc: Global,
    source: &[u8],
    source_type: SourceType,
    tokens: bool,
) -> Result<(CommandList, Report), LexFault>
    ensures commands { IfOk result (λ ran. AreMeant Commands.All source.now source_type tokens ran.0 ran.1) }
    ensures report { IfOk result (λ ran. ReportOf source.now source_type tokens ran.0 ran.1) }
    ensures slices { IfOk result (λ ran. AllByRecursion (λ row. IsSliceOnPlaces source.now row.value) ran.1.rows) }
    ensures ok { OnOk result (IsReadable source.now) }
    ensures cause { IfErr result (λ fault. (fault ≡ LexFault.Memory) ⊎ SourceCause source.now fault) }
{
    let (count, report) = match lex_all(alloc, source, source_type, tokens) {
        Ok(whole) => whole,
        Err(fault) => return Err(fault),
    };
    let mut commands = CommandList::new_in(alloc);
    match push_repeated(&mut commands, Command::Next, count as usize) {
        Ok(()) => Ok((commands, report)),
        Err(_) => Err(LexFault::Memory),
    }
}

/// A session whose goals are chosen by the tokens: its commands, and its report.
pub(crate) fn run_auto(
    alloc: Global,
    source: &[u8],
    source_type: SourceType,
    tokens: bool,
) -> Result<(CommandList, Report), LexFault>
    ensures commands { IfOk result (λ ran. AreMeant Commands.Auto source.now source_type tokens ran.0 ran.1) }
    ensures report { IfOk result (λ ran. ReportOf source.now source_type tokens ran.0 ran.1) }
    ensures slices { IfOk result (λ ran. AllByRecursion (λ row. IsSliceOnPlaces source.now row.value) ran.1.rows) }
    ensures ok { OnOk result (IsReadable source.now) }
    ensures cause { IfErr result (λ fault. (fault ≡ LexFault.Memory) ⊎ SourceCause source.now fault) }
{
    match auto_session(alloc, source, source_type, tokens) {
        Ok(Auto { commands, report }) => Ok((commands, report)),
        Err(fault) => Err(fault.as_lex_fault()),
    }
}

/// A session over the source as it is meant: its commands, and its report.
fn run_commands(
    alloc: Global,
    source: &[u8],
    source_type: SourceType,
    tokens: bool,
    commands: Commands,
) -> Result<(CommandList, Report), LexFault>
    ensures commands { IfOk result (λ ran. AreMeant commands source.now source_type tokens ran.0 ran.1) }
    ensures report { IfOk result (λ ran. ReportOf source.now source_type tokens ran.0 ran.1) }
    ensures slices { IfOk result (λ ran. AllByRecursion (λ row. IsSliceOnPlaces source.now row.value) ran.1.rows) }
    ensures ok { OnOk result (IsReadable source.now × HasMarks (listed_commands commands)) }
    ensures cause { IfErr result (λ fault.
        (fault ≡ LexFault.Memory) ⊎ Cause source.now (listed_commands commands) fault) }
{
    match commands {
        Commands::Listed(commands) => run_listed(alloc, source, source_type, tokens, commands),
        Commands::All => run_all(alloc, source, source_type, tokens),
        Commands::Auto => run_auto(alloc, source, source_type, tokens),
    }
}

/// Runs a session over the bytes of an input, and writes its report.
fn answer<O: ByteOut>(
    alloc: Global,
    line: CommandLine,
    source: ByteList,
    output: &mut O,
) -> ToolOutcome
    requires { length source ≤ most_bytes }
    ensures { Answers line source (report_text_of source) (O.state output.old) (O.state output.new) result }
{
    let CommandLine {
        source_type,
        tokens,
        commands,
    } = line;
    let (commands, report) = match run_commands(
        alloc,
        source.as_slice(),
        source_type,
        tokens,
        commands,
    ) {
        Ok(ran) => ran,
        Err(fault) => return outcome_without_run(status_of(fault)),
    };
    let ran = Ran {
        source,
        source_type,
        tokens,
        commands,
        report,
    };
    write_report(alloc, ran, output)
}

/// Reads an input to its end, and answers its bytes.
fn run_line<I: ByteIn, O: ByteOut>(
    alloc: Global,
    line: CommandLine,
    input: &mut I,
    output: &mut O,
) -> ToolOutcome
    ensures { RunsLine line (I.state input.old) (I.state input.new) (O.state output.old) (O.state output.new) result }
{
    match read_to_end(alloc, input, MOST_BYTES) {
        Ok(source) => answer(alloc, line, source, output),
        Err(ReadFault::Failed) => outcome_without_run(READ_FAILED),
        Err(ReadFault::TooLong) => outcome_without_run(TOO_LONG),
        Err(ReadFault::Memory) => outcome_without_run(MEMORY),
    }
}

/// The bytes of so many generated lines.
fn generated_bytes(alloc: Global, lines: u32) -> Result<ByteList, AllocError>
    requires some { 1 ≤ lines }
    requires few { lines ≤ most_lines }
    ensures source { IfOk result (λ source. source ≡ generated lines) }
    ensures utf8 { IfOk result IsUtf8 }
    ensures short { IfOk result (λ source. length source < 700000) }
{
    let text = generated(alloc, lines)?;
    ByteList::from_vec(alloc, text.into_bytes())
}

/// Runs a session over so many generated lines, and writes its summary.
fn run_generated<O: ByteOut>(alloc: Global, lines: u32, output: &mut O) -> ToolOutcome
    requires some { 1 ≤ lines }
    requires few { lines ≤ most_lines }
    ensures known { IsOneOf (OutOfMemory ∷ WriteFailed ∷ Done ∷ []) result.status }
    ensures answers { Answers lexes_lines (generated lines) (summary_of lines)
        (O.state output.old) (O.state output.new) result }
{
    let source = match generated_bytes(alloc, lines) {
        Ok(source) => source,
        Err(_) => return outcome_without_run(MEMORY),
    };
    let (commands, report) = match run_all(alloc, source.as_slice(), SourceType::Module, true) {
        Ok(ran) => ran,
        Err(fault) => return outcome_without_run(status_of(fault)),
    };
    let ran = Ran {
        source,
        source_type: SourceType::Module,
        tokens: true,
        commands,
        report,
    };
    write_summary(alloc, lines, ran, output)
}

/// Does what the words ask for.
fn run_task<I: ByteIn, O: ByteOut>(
    alloc: Global,
    task: Task,
    input: &mut I,
    output: &mut O,
) -> ToolOutcome
    requires { IsAllowed task }
    ensures run { RunsTask task
        (I.state input.old) (I.state input.new) (O.state output.old) (O.state output.new) result }
    ensures unread { (lines : ℕ) → task ≡ Task.Generate lines → input.new ≡ input.old }
{
    match task {
        Task::Lex(line) => run_line(alloc, line, input, output),
        Task::Generate(lines) => run_generated(alloc, lines, output),
        Task::WriteAnew(rewriting) => run_anew(alloc, rewriting, input, output),
    }
}

/// Runs the program: finds what the words ask for. With a command line it then reads the input to its end, and writes
/// the report of a session over it; with generated lines it reads nothing, and writes the summary of one over these; a
/// source that is to be written anew is read to its end, and a text with the same rows is written.
pub fn lex_tool_run<I: ByteIn, O: ByteOut>(
    alloc: Global,
    words: &Vec<String>,
    input: &mut I,
    output: &mut O,
) -> ToolOutcome
    ensures run { RunsTool (task_of words.now.items)
        (I.state input.old) (I.state input.new) (O.state output.old) (O.state output.new) result }
    // Where the words are not valid, nothing is read and nothing is written.
    ensures unread { task_of words.now.items ≡ None → (input.new ≡ input.old) × (output.new ≡ output.old) }
    // Where they ask for generated lines, nothing is read.
    ensures generated { (lines : ℕ) → task_of words.now.items ≡ Some (Task.Generate lines) → input.new ≡ input.old }
{
    match read_words(alloc, words) {
        Ok(Some(task)) => run_task(alloc, task, input, output),
        Ok(None) => outcome_without_run(USAGE),
        Err(_) => outcome_without_run(MEMORY),
    }
}

/// A run over an input and an output that never fail.
pub fn lex_tool_run_sure(
    alloc: Global,
    words: &Vec<String>,
    input: &mut SureIn<'_>,
    output: &mut SureOut,
) -> ToolOutcome
    ensures never { (result.status ≢ number ReadFailed) × (result.status ≢ number WriteFailed) }
    ensures complete { CanRun (task_of words.now.items) (Some input.old.left)
        → IsOneOf (Done ∷ OutOfMemory ∷ []) result.status }
    ensures run { RunsTool (task_of words.now.items)
        (sure_input input.old) (sure_input input.new) (sure_output output.old) (sure_output output.new) result }
{
    lex_tool_run(alloc, words, input, output)
}
