//! Sessions with sources that have JSX, whose goals are chosen.

ghost use Rattle.std.specs.Prelude.{◌≡◌, ◌⊎◌, IfOk, OnOk, IfErr, IsOk};
ghost use Rattle.std.specs.List.{AllByRecursion};
ghost use Rattle.js_session.specs.Faults.{IsReadable};
ghost use Rattle.js_session.specs.Report.{IsSliceOnPlaces};
ghost use Rattle.js_choose.specs.declared.fault.ChoiceFault.{ChoiceFault as JsxFault};
ghost use Rattle.js_jsx.specs.Jsx.{JsxCause, ReportOfChosen};

use crate::chooser::JsxChooser;
use js_choose::{ChoiceFault as JsxFault, Chosen as Jsx, choose_session};
use js_text::SourceType;
use std::alloc::Global;

/// The report of a session over a source that may have JSX, whose goals are chosen, and the commands that were chosen:
/// each by the tokens that are live before it and the byte behind them, up to the end of the source. There is one such
/// list of commands for a source.
///
/// The choice is a rule of its own, and not that of a parser: a `/` behind a `)` or a `}` divides, and a `<` where an
/// operand may begin opens a tag.
pub fn jsx_session(
    alloc: Global,
    source: &[u8],
    source_type: SourceType,
    tokens: bool,
) -> Result<Jsx, JsxFault>
    ensures report { IfOk result (λ jsx. ReportOfChosen source.now source_type tokens jsx.commands jsx.report) }
    ensures slices { IfOk result (λ jsx.
        AllByRecursion (λ row. IsSliceOnPlaces source.now row.value) jsx.report.rows) }
    ensures ok { OnOk result (IsReadable source.now) }
    // Each fault comes for its cause alone, and where its cause is there, nothing but a lack of memory comes in its
    // place.
    ensures cause { IfErr result (λ fault. (fault ≡ JsxFault.Memory) ⊎ JsxCause source.now fault) }
    ensures exact { (fault : JsxFault) → JsxCause source.now fault
        → (result ≡ Err fault) ⊎ (result ≡ Err JsxFault.Memory) }
    ensures complete { IsReadable source.now → IsOk result ⊎ (result ≡ Err JsxFault.Memory) }
{
    choose_session::<JsxChooser>(alloc, source, source_type, tokens)
}
