//! Sources that are squeezed.

ghost use Rattle.std.specs.Prelude.{◌≡◌, ◌<◌, ◌^◌, ◌⊎◌, false, length, Err, None, IfOk, OnOk, IfErr, IsOk};
ghost use Rattle.std.specs.List.{AllByRecursion};
ghost use Rattle.js_lexer.specs.Lexer.{IsOnPlaces};
ghost use Rattle.js_session.specs.Report.{ReportOf};
ghost use Rattle.js_session.specs.SameRows.{SameRows};
ghost use Rattle.js_rewrite.specs.Faults.{RewriteCause, first_bad};
ghost use Rattle.js_rewrite.specs.declared.fault.RewriteFault.{RewriteFault};
ghost use Rattle.js_squeeze.specs.SqueezeText.{squeeze_text};

use crate::squeezed_text::squeeze_text;
use js_rewrite::{RewriteFault, check, clean_report, report_anew};
use js_session::{Command, Report};
use js_text::{SourceText, SourceType};
use std::alloc::{AllocError, Global};

/// A source without comments, and with no more white space than its tokens need.
#[derive(Drop)]
pub struct Squeezed {
    /// The live tokens, in order, with a line end, a space or nothing before each, and the rest of the source.
    pub text: SourceText,
    /// The report of the source, with no tokens collected.
    pub before: Report,
    /// The report of the text, with no tokens collected.
    pub after: Report,
}

/// A source squeezed by its report, and the report of what is left.
fn squeeze_by(
    alloc: Global,
    source: &str,
    source_type: SourceType,
    commands: &[Command],
    before: Report,
) -> Result<Squeezed, AllocError>
    requires lie { AllByRecursion (IsOnPlaces source.now) before.tokens }
    requires commands { first_bad source_type commands.now ≡ None }
    requires short { length (squeeze_text source.now before) < 2 ^ 32 }
    ensures before { IfOk result (λ s. s.before ≡ before) }
    ensures text { IfOk result (λ s. s.text ≡ squeeze_text source.now before) }
    ensures after { IfOk result (λ s. ReportOf s.text source_type false commands.now s.after) }
{
    let text = squeeze_text(
        alloc,
        source,
        before.rows.as_slice(),
        before.tokens.as_slice(),
    )?;
    // A gap is no shorter than what stands in its place, so what is left can be read as the source could.
    let after = report_anew(alloc, text.as_str().as_bytes(), source_type, commands)?;
    Ok(Squeezed {
        text,
        before,
        after,
    })
}

/// The same as `squeeze`, which says more of its faults.
fn squeeze_source(
    alloc: Global,
    source: &[u8],
    source_type: SourceType,
    commands: &[Command],
) -> Result<Squeezed, RewriteFault>
    ensures before { IfOk result (λ s. ReportOf source.now source_type false commands.now s.before) }
    ensures text { IfOk result (λ s. s.text ≡ squeeze_text source.now s.before) }
    ensures after { IfOk result (λ s. ReportOf s.text source_type false commands.now s.after) }
    ensures same { IfOk result (λ s. SameRows source.now s.before s.text s.after) }
    ensures ok { OnOk result ((fault : RewriteFault) → ¬ (RewriteCause source.now source_type commands.now fault)) }
    ensures cause { IfErr result (λ fault. (fault ≡ RewriteFault.Memory)
        ⊎ RewriteCause source.now source_type commands.now fault) }
{
    let text = match check(source, source_type, commands) {
        Ok(text) => text,
        Err(fault) => return Err(fault),
    };
    let before = match clean_report(alloc, source, source_type, commands) {
        Ok(report) => report,
        Err(fault) => return Err(fault),
    };
    match squeeze_by(alloc, text, source_type, commands, before) {
        Ok(squeezed) => Ok(squeezed),
        Err(_) => Err(RewriteFault::Memory),
    }
}

/// The source without comments, and with the white space alone that the tokens of the report of a list of commands over
/// it need, and the report of the same commands over what is left. The work grows with the source and its rows.
pub fn squeeze(
    alloc: Global,
    source: &[u8],
    source_type: SourceType,
    commands: &[Command],
) -> Result<Squeezed, RewriteFault>
    ensures before { IfOk result (λ s. ReportOf source.now source_type false commands.now s.before) }
    // Between two tokens stands a line end where one stood, and a space only where they need one.
    ensures text { IfOk result (λ s. s.text ≡ squeeze_text source.now s.before) }
    ensures after { IfOk result (λ s. ReportOf s.text source_type false commands.now s.after) }
    // The rows of the two have the same tokens, wherever these stand, and in the second are no diagnostic and no comment.
    ensures same { IfOk result (λ s. SameRows source.now s.before s.text s.after) }
    // Each fault comes for its cause alone, and where its cause is there, nothing but a lack of memory comes in its
    // place.
    ensures cause { IfErr result (λ fault. (fault ≡ RewriteFault.Memory)
        ⊎ RewriteCause source.now source_type commands.now fault) }
    ensures exact { (fault : RewriteFault) → RewriteCause source.now source_type commands.now fault
        → (result ≡ Err fault) ⊎ (result ≡ Err RewriteFault.Memory) }
    ensures complete { ((fault : RewriteFault) → ¬ (RewriteCause source.now source_type commands.now fault))
        → IsOk result ⊎ (result ≡ Err RewriteFault.Memory) }
{
    squeeze_source(alloc, source, source_type, commands)
}
