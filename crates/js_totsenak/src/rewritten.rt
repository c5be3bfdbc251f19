//! The commands `strip` and `squeeze`: sources that are written anew.

ghost use Rattle.std.specs.Prelude.{◌≡◌, ◌⊎◌, [], false, List, IfOk, IfErr, IsOk, OnOk};
ghost use Rattle.js_auto.specs.Auto.{ReportOfChosen};
ghost use Rattle.js_choose.specs.Faults.{ChoiceCause};
ghost use Rattle.js_choose.specs.declared.fault.ChoiceFault.{ChoiceFault};
ghost use Rattle.js_rewrite.specs.Faults.{RewriteCause};
ghost use Rattle.js_rewrite.specs.declared.fault.RewriteFault.{RewriteFault};
ghost use Rattle.js_session.specs.Faults.{IsReadable};
ghost use Rattle.js_session.specs.declared.command.Command.{Command};
ghost use Rattle.js_session.specs.declared.report.Report.{Report};
ghost use Rattle.js_totsenak.specs.Rewritten.{IsAnewWith, IsChosenAnew, IsFaultless, IsRewritten};

use crate::check::check_source;
use js_auto::{GoalChooser, auto_session};
use js_choose::ChoiceFault;
use js_rewrite::RewriteFault;
use js_session::Command;
use js_squeeze::squeeze;
use js_strip::strip;
use js_text::{SourceText, SourceType};
use std::alloc::{AllocError, Global};

/// How a source is written anew.
#[derive(Clone, Copy, PartialEq, Eq, Debug)]
pub enum Rewriting {
    /// Without its comments.
    Strip,
    /// Without its comments, and with no more white space than its tokens need.
    Squeeze,
}

/// What writing a source anew comes to.
#[derive(Drop)]
pub enum Rewritten {
    /// The text of the source, written anew. Its tokens are the same.
    Text(SourceText),
    /// The source is at fault, and is not written anew. It is what `check` tells of it.
    Refused(String),
}

/// The text of a source, written anew with these commands.
fn text_anew(
    alloc: Global,
    rewriting: Rewriting,
    source: &[u8],
    source_type: SourceType,
    commands: &[Command],
) -> Result<SourceText, RewriteFault>
    ensures anew { IfOk result (IsAnewWith rewriting source.now source_type commands.now) }
    ensures cause { IfErr result (λ fault. (fault ≡ RewriteFault.Memory)
        ⊎ RewriteCause source.now source_type commands.now fault) }
{
    match rewriting {
        Rewriting::Strip => match strip(alloc, source, source_type, commands) {
            Ok(stripped) => Ok(stripped.text),
            Err(fault) => Err(fault),
        },
        Rewriting::Squeeze => match squeeze(alloc, source, source_type, commands) {
            Ok(squeezed) => Ok(squeezed.text),
            Err(fault) => Err(fault),
        },
    }
}

/// The fault of a source without a diagnostic: nothing but memory is wanting.
fn lack_of_memory(fault: RewriteFault) -> AllocError
    requires { fault ≡ RewriteFault.Memory }
{
    match fault {
        RewriteFault::Memory => AllocError,
        RewriteFault::Overlong
        | RewriteFault::NotUtf8(_)
        | RewriteFault::BadCommand(_)
        | RewriteFault::Diagnosed(_) => unreachable!(),
    }
}

/// The text of a source without a diagnostic, written anew with the commands that are chosen for it.
fn chosen_text(
    alloc: Global,
    rewriting: Rewriting,
    source: &[u8],
    source_type: SourceType,
    commands: &[Command],
) -> Result<SourceText, AllocError>
    requires { IsFaultless source.now source_type commands.now }
    ensures { IfOk result (IsChosenAnew rewriting source.now source_type) }
{
    match text_anew(alloc, rewriting, source, source_type, commands) {
        Ok(text) => Ok(text),
        Err(fault) => Err(lack_of_memory(fault)),
    }
}

/// The text of a source without a diagnostic, written anew.
fn clean_text(
    alloc: Global,
    rewriting: Rewriting,
    source: &[u8],
    source_type: SourceType,
) -> Result<SourceText, AllocError>
    requires { (commands : List Command) (report : Report)
        → ReportOfChosen source.now source_type false commands report → report.diagnostics ≡ [] }
    ensures { IfOk result (IsChosenAnew rewriting source.now source_type) }
{
    match auto_session(alloc, source, source_type, false) {
        Ok(auto) => chosen_text(
            alloc,
            rewriting,
            source,
            source_type,
            auto.commands.as_slice(),
        ),
        Err(_) => Err(AllocError),
    }
}

/// A source with a name, written anew; or refused, where its report has a diagnostic. Its goals are chosen by its tokens
/// (`js_auto::GoalChooser`).
pub fn rewrite_source(
    alloc: Global,
    rewriting: Rewriting,
    name: &str,
    source: &[u8],
    source_type: SourceType,
) -> Result<Rewritten, ChoiceFault>
    ensures rewritten { IfOk result (IsRewritten rewriting name.now source.now source_type) }
    ensures ok { OnOk result (IsReadable source.now) }
    // Each fault comes for its cause alone, and where the source has one, it comes.
    ensures cause { IfErr result (λ fault. (fault ≡ ChoiceFault.Memory) ⊎ ChoiceCause source.now fault) }
    ensures exact { (fault : ChoiceFault) → ChoiceCause source.now fault → result ≡ Err fault }
    ensures complete { IsReadable source.now → IsOk result ⊎ (result ≡ Err ChoiceFault.Memory) }
{
    let told = check_source::<GoalChooser>(alloc, name, source, source_type)?;
    if told.is_faulty {
        return Ok(Rewritten::Refused(told.text));
    }
    match clean_text(alloc, rewriting, source, source_type) {
        Ok(text) => Ok(Rewritten::Text(text)),
        Err(_) => Err(ChoiceFault::Memory),
    }
}
