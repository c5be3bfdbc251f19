//! Sources that are stripped.

ghost use Rattle.std.specs.Prelude.{◌≡◌, ◌<◌, ◌^◌, ◌⊎◌, false, length, Err, None, IfOk, OnOk, IfErr, IsOk};
ghost use Rattle.js_session.specs.Report.{ReportOf};
ghost use Rattle.js_rewrite.specs.Faults.{RewriteCause, first_bad};
ghost use Rattle.js_session.specs.SameRows.{SameRows};
ghost use Rattle.js_strip.specs.StripText.{StandInOrder, strip_text};
ghost use Rattle.js_rewrite.specs.declared.fault.RewriteFault.{RewriteFault};

use crate::without_comments::strip_text;
use js_rewrite::{RewriteFault, check, clean_report, report_anew};
use js_session::{Command, Report};
use js_text::{SourceText, SourceType};
use std::alloc::{AllocError, Global};

/// A source without its comments.
#[derive(Drop)]
pub struct Stripped {
    /// The source with one byte in the place of each comment: LF for one with a line end inside, a space for any other.
    pub text: SourceText,
    /// The report of the source, with no tokens collected.
    pub before: Report,
    /// The report of the text, with no tokens collected.
    pub after: Report,
}

/// A text without the comments of its report, and the report of what is left.
fn strip_text_of(
    alloc: Global,
    text: &str,
    source_type: SourceType,
    commands: &[Command],
    before: Report,
) -> Result<Stripped, AllocError>
    requires short { length (strip_text text.now before.comments) < 2 ^ 32 }
    requires commands { first_bad source_type commands.now ≡ None }
    requires comments { StandInOrder text.now 0 before.comments }
    ensures before { IfOk result (λ s. s.before ≡ before) }
    ensures text { IfOk result (λ s. s.text ≡ strip_text text.now before.comments) }
    ensures after { IfOk result (λ s. ReportOf s.text source_type false commands.now s.after) }
{
    let stripped = strip_text(alloc, text, before.comments.as_slice())?;
    let after = report_anew(alloc, stripped.as_str().as_bytes(), source_type, commands)?;
    Ok(Stripped {
        text: stripped,
        before,
        after,
    })
}

/// The same as `strip`, which says more of its faults.
fn strip_source(
    alloc: Global,
    source: &[u8],
    source_type: SourceType,
    commands: &[Command],
) -> Result<Stripped, RewriteFault>
    ensures before { IfOk result (λ s. ReportOf source.now source_type false commands.now s.before) }
    ensures text { IfOk result (λ s. s.text ≡ strip_text source.now s.before.comments) }
    ensures after { IfOk result (λ s. ReportOf s.text source_type false commands.now s.after) }
    ensures same { IfOk result (λ s. SameRows source.now s.before s.text s.after) }
    ensures ok { OnOk result ((fault : RewriteFault) → ¬ (RewriteCause source.now source_type commands.now fault)) }
    ensures cause { IfErr result (λ fault. (fault ≡ RewriteFault.Memory)
        ⊎ RewriteCause source.now source_type commands.now fault) }
{
    let text = match check(source, source_type, commands) {
        Ok(text) => text,
        Err(fault) => return Err(fault),
    };
    let before = match clean_report(alloc, source, source_type, commands) {
        Ok(report) => report,
        Err(fault) => return Err(fault),
    };
    // A comment is no shorter than what stands in its place, so what is left can be read as the text could.
    match strip_text_of(alloc, text, source_type, commands, before) {
        Ok(stripped) => Ok(stripped),
        Err(_) => Err(RewriteFault::Memory),
    }
}

/// The source without the comments of the report of a list of commands over it, and the report of the same commands
/// over what is left. The work grows with the source and its rows.
pub fn strip(
    alloc: Global,
    source: &[u8],
    source_type: SourceType,
    commands: &[Command],
) -> Result<Stripped, RewriteFault>
    ensures before { IfOk result (λ s. ReportOf source.now source_type false commands.now s.before) }
    // One byte stands in the place of each comment, and all else stays.
    ensures text { IfOk result (λ s. s.text ≡ strip_text source.now s.before.comments) }
    ensures after { IfOk result (λ s. ReportOf s.text source_type false commands.now s.after) }
    // The rows of the two have the same tokens, wherever these stand, and in the second are no diagnostic and no comment.
    ensures same { IfOk result (λ s. SameRows source.now s.before s.text s.after) }
    // Each fault comes for its cause alone, and where its cause is there, nothing but a lack of memory comes in its
    // place.
    ensures cause { IfErr result (λ fault. (fault ≡ RewriteFault.Memory)
        ⊎ RewriteCause source.now source_type commands.now fault) }
    ensures exact { (fault : RewriteFault) → RewriteCause source.now source_type commands.now fault
        → (result ≡ Err fault) ⊎ (result ≡ Err RewriteFault.Memory) }
    ensures complete { ((fault : RewriteFault) → ¬ (RewriteCause source.now source_type commands.now fault))
        → IsOk result ⊎ (result ≡ Err RewriteFault.Memory) }
{
    strip_source(alloc, source, source_type, commands)
}
