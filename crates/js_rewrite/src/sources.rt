//! Sources and commands that are tested, and their reports.

ghost use Rattle.std.specs.Prelude.{◌≡◌, ◌⊎◌, false, IfOk, OnOk, IfErr, None};
ghost use Rattle.js_session.specs.Faults.{IsReadable};
ghost use Rattle.js_session.specs.Report.{ReportOf};
ghost use Rattle.js_rewrite.specs.Faults.{RewriteCause, first_bad, first_diagnosed};
ghost use Rattle.js_rewrite.specs.declared.fault.RewriteFault.{RewriteFault};

use crate::commands::first_bad;
use crate::diagnosed::first_diagnosed;
use crate::fault::{RewriteFault, fault_of, lack_of_memory};
use js_session::{Command, Report, lex_session, utf8_text};
use js_text::SourceType;
use std::alloc::{AllocError, Global};

/// The source as a text, where it and the commands are ones to write anew.
pub fn check<'a>(
    source: &'a [u8],
    source_type: SourceType,
    commands: &[Command],
) -> Result<&'a str, RewriteFault>
    ensures text { IfOk result (λ text. text.now ≡ source.now) }
    ensures ok { OnOk result (IsReadable source.now × (first_bad source_type commands.now ≡ None)) }
    ensures cause { IfErr result (RewriteCause source.now source_type commands.now) }
{
    let text = match utf8_text(source) {
        Ok(text) => text,
        Err(fault) => return Err(fault_of(fault)),
    };
    match first_bad(source_type, commands) {
        Some(index) => Err(RewriteFault::BadCommand(index)),
        None => Ok(text),
    }
}

/// The report of a source that can be read, with commands that a source of the type is written anew with. Nothing but
/// memory can be wanting.
pub fn report_anew(
    alloc: Global,
    source: &[u8],
    source_type: SourceType,
    commands: &[Command],
) -> Result<Report, AllocError>
    requires readable { IsReadable source.now }
    requires commands { first_bad source_type commands.now ≡ None }
    ensures { IfOk result (ReportOf source.now source_type false commands.now) }
{
    match lex_session(alloc, source, source_type, false, commands) {
        Ok(report) => Ok(report),
        Err(fault) => Err(lack_of_memory(fault)),
    }
}

/// The report of a source and commands that were tested, where no row has a diagnostic.
pub fn clean_report(
    alloc: Global,
    source: &[u8],
    source_type: SourceType,
    commands: &[Command],
) -> Result<Report, RewriteFault>
    requires readable { IsReadable source.now }
    requires commands { first_bad source_type commands.now ≡ None }
    ensures report { IfOk result (ReportOf source.now source_type false commands.now) }
    ensures clean { IfOk result (λ report. first_diagnosed report.rows ≡ None) }
    ensures cause { IfErr result (λ fault. (fault ≡ RewriteFault.Memory)
        ⊎ RewriteCause source.now source_type commands.now fault) }
{
    let report = match report_anew(alloc, source, source_type, commands) {
        Ok(report) => report,
        Err(_) => return Err(RewriteFault::Memory),
    };
    match first_diagnosed(report.rows.as_slice()) {
        Some(index) => Err(RewriteFault::Diagnosed(index)),
        None => Ok(report),
    }
}
