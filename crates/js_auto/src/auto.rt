//! Sessions whose goals are chosen.

ghost use Rattle.std.specs.Prelude.{◌≡◌, ◌⊎◌, IfOk, OnOk, IfErr, IsOk};
ghost use Rattle.std.specs.List.{AllByRecursion};
ghost use Rattle.js_session.specs.Faults.{IsReadable};
ghost use Rattle.js_session.specs.Report.{IsSliceOnPlaces};
ghost use Rattle.js_choose.specs.declared.fault.ChoiceFault.{ChoiceFault as AutoFault};
ghost use Rattle.js_auto.specs.Auto.{AutoCause, ReportOfChosen};

use crate::chooser::GoalChooser;
use js_choose::{ChoiceFault as AutoFault, Chosen as Auto, choose_session};
use js_text::SourceType;
use std::alloc::Global;

/// The report of a session over a source whose goals are chosen, and the commands that were chosen: each by the tokens
/// that are live before it, up to the first `Kind::Eof`. There is one such list of commands for a source.
///
/// The choice is a rule of its own, and not that of a parser: a `/` behind a `)` or a `}` divides.
pub fn auto_session(
    alloc: Global,
    source: &[u8],
    source_type: SourceType,
    tokens: bool,
) -> Result<Auto, AutoFault>
    ensures report { IfOk result (λ auto. ReportOfChosen source.now source_type tokens auto.commands auto.report) }
    ensures slices { IfOk result (λ auto.
        AllByRecursion (λ row. IsSliceOnPlaces source.now row.value) auto.report.rows) }
    ensures ok { OnOk result (IsReadable source.now) }
    // Each fault comes for its cause alone, and where its cause is there, nothing but a lack of memory comes in its
    // place.
    ensures cause { IfErr result (λ fault. (fault ≡ AutoFault.Memory) ⊎ AutoCause source.now fault) }
    ensures exact { (fault : AutoFault) → AutoCause source.now fault
        → (result ≡ Err fault) ⊎ (result ≡ Err AutoFault.Memory) }
    ensures complete { IsReadable source.now → IsOk result ⊎ (result ≡ Err AutoFault.Memory) }
{
    choose_session::<GoalChooser>(alloc, source, source_type, tokens)
}
