//! The faults of a source, as a page has them.

ghost use Rattle.std.specs.Prelude.{◌≡◌, ◌++◌, IfOk, OnOk, map};
ghost use Rattle.js_html.specs.Faults.{AreInOrder, deferred_fault, diagnostic_fault, fault_of, fault_title};
ghost use Rattle.js_html.specs.Faults.{faults_of, stretch_of, warning_fault};
ghost use Rattle.js_totsenak.specs.Messages.{warning_message};

use js_lexer::Findings;
use js_page::Fault;
use js_text::{Diagnostic, SourceText, Span};
use js_totsenak::push_message;
use std::alloc::{AllocError, Global};

/// What is told of a warning: each is of a `>` in the text of JSX.
const WARNING: &str = "warning: a > in the text of JSX";

/// What a span is of. What is about the whole source stands at its start.
fn stretch_of(span: Option<Span>) -> Span
    ensures { result ≡ stretch_of span }
{
    match span {
        Some(span) => span,
        None => Span::empty(0),
    }
}

/// A fault of a stretch of the source.
fn fault(span: Span, title: SourceText) -> Fault
    ensures { result ≡ fault_of span title }
{
    Fault {
        start: span.start,
        end: span.end,
        title,
    }
}

/// What is told of a diagnostic, behind a label.
#[tactic(auto, unfolding(crate::specs::Faults::fault_title))]
fn title_of(alloc: Global, label: &str, diagnostic: &Diagnostic) -> Result<SourceText, AllocError>
    ensures { IfOk result (λ title. title ≡ fault_title label.now diagnostic.now) }
{
    let mut message = String::from_str(alloc, label)?;
    push_message(&mut message, diagnostic)?;
    let mut title = SourceText::new_in(alloc);
    title.push_str(message.as_str())?;
    Ok(title)
}

fn add_diagnostics(
    faults: &mut Vec<Fault>,
    alloc: Global,
    diagnostics: &[Diagnostic],
) -> Result<(), AllocError>
    ensures { OnOk result (faults.new.items ≡ faults.old.items ++ map diagnostic_fault diagnostics.now) }
{
    for diagnostic in diagnostics {
        let title = title_of(alloc, "", diagnostic)?;
        faults.push(fault(stretch_of(diagnostic.span()), title))?;
    }
    Ok(())
}

fn add_deferred(
    faults: &mut Vec<Fault>,
    alloc: Global,
    deferred: &[Diagnostic],
) -> Result<(), AllocError>
    ensures { OnOk result (faults.new.items ≡ faults.old.items ++ map deferred_fault deferred.now) }
{
    for diagnostic in deferred {
        let title = title_of(alloc, "warning: ", diagnostic)?;
        faults.push(fault(stretch_of(diagnostic.span()), title))?;
    }
    Ok(())
}

/// What is told of a warning.
fn warning_title(alloc: Global) -> Result<SourceText, AllocError>
    ensures { IfOk result (λ title. title ≡ warning_message) }
{
    let mut title = SourceText::new_in(alloc);
    title.push_str(WARNING)?;
    Ok(title)
}

fn add_warnings(faults: &mut Vec<Fault>, alloc: Global, warnings: &[Span]) -> Result<(), AllocError>
    ensures { OnOk result (faults.new.items ≡ faults.old.items ++ map warning_fault warnings.now) }
{
    for span in warnings {
        let title = warning_title(alloc)?;
        faults.push(fault(*span, title))?;
    }
    Ok(())
}

/// The faults of a source, list by list.
fn faults_of(alloc: Global, found: &Findings) -> Result<Vec<Fault>, AllocError>
    ensures { IfOk result (λ faults. faults.items ≡ faults_of found.now) }
{
    let mut faults = Vec::new(alloc);
    add_diagnostics(&mut faults, alloc, found.diagnostics.as_slice())?;
    add_deferred(&mut faults, alloc, found.deferred.as_slice())?;
    add_warnings(&mut faults, alloc, found.warnings.as_slice())?;
    Ok(faults)
}

/// Puts faults in order of place.
fn put_in_order(faults: &mut Vec<Fault>) -> Result<(), AllocError>
    ensures { OnOk result (AreInOrder faults.old.items faults.new.items) }
{
    faults.sort_by_key(|fault| fault.start)?;
    Ok(())
}

/// The faults of a source, in order of place.
pub(crate) fn placed_faults(alloc: Global, found: &Findings) -> Result<Vec<Fault>, AllocError>
    ensures { IfOk result (λ faults. AreInOrder (faults_of found.now) faults.items) }
{
    let mut faults = faults_of(alloc, found)?;
    put_in_order(&mut faults)?;
    Ok(faults)
}
