//! The command `check`: what is at fault in a source.

ghost use Rattle.std.specs.Prelude.{◌≡◌, ◌⊎◌, ◌++◌, ◌^◌, ◌<◌, codes, length, string_bytes, true};
ghost use Rattle.std.specs.Prelude.{IfOk, OnOk, IfErr, IsOk};
ghost use Rattle.std.specs.List.{flat_map};
ghost use Rattle.js_choose.specs.Faults.{ChoiceCause};
ghost use Rattle.js_choose.specs.declared.fault.ChoiceFault.{ChoiceFault};
ghost use Rattle.js_lines.specs.declared.line_ends.LineEnds.TheVariants.{EcmaScript};
ghost use Rattle.js_session.specs.Faults.{IsReadable};
ghost use Rattle.js_totsenak.specs.Check.{IsClean, check_text, excerpt_at, in_characters, labelled_text, message_at};
ghost use Rattle.js_totsenak.specs.Check.{place_text, warning_text};
ghost use Rattle.js_totsenak.specs.Checked.{IsChecked, Tells};
ghost use Rattle.js_totsenak.specs.Messages.{message_of};

use crate::excerpt::push_excerpt;
use crate::found::findings_of_source;
use crate::message::{WARNING, push_message};
use js_choose::{ChoiceFault, ChooseGoals};
use js_lexer::Findings;
use js_lines::{ColumnUnit, LineCursor, LineEnds, LineTable, Position};
use js_text::{Diagnostic, SourceType, Span};
use std::alloc::{AllocError, Global};
use std::fmt::Write;

/// Whether nothing is told of what was found.
fn is_clean(found: &Findings) -> bool
    ensures { result ≡ true → IsClean found.now }
{
    found.diagnostics.is_empty() && found.deferred.is_empty() && found.warnings.is_empty()
}

/// The start of a source, where the messages about all of it stand.
const TEXT_START: Position = Position { line: 0, column: 0 };

/// Appends a place behind a name.
#[tactic(auto, unfolding(crate::specs::Check::place_text))]
fn push_place(text: &mut String, position: Position) -> Result<(), AllocError>
    ensures { OnOk result (string_bytes text.new ≡ string_bytes text.old ++ place_text position) }
{
    let line = u64::from(position.line) + 1;
    let column = u64::from(position.column) + 1;
    write!(text, ":{line}:{column}: ")
}

/// At most so many bytes of a line are shown before a place, and at most as many from it on.
const MOST_SHOWN: u32 = 160;

/// Appends what stands around an offset on its line of a source, with a mark under it.
fn push_excerpt_at(text: &mut String, lines: &LineTable<'_>, offset: u32) -> Result<(), AllocError>
    requires { lines.now.ends ≡ EcmaScript }
    ensures { OnOk result (string_bytes text.new ≡ string_bytes text.old ++ excerpt_at lines.now.text offset) }
{
    let (before, behind) = lines.around(offset, MOST_SHOWN);
    push_excerpt(text, before, behind)
}

/// Tells places of a source, one behind the other.
pub(crate) fn places_of<'l, 't>(lines: &'l LineTable<'t>) -> LineCursor<'l, 't>
    ensures { result ≡ in_characters lines.now }
{
    LineCursor::new(lines, ColumnUnit::Characters)
}

/// Appends what a message begins with: a name, a place and what is told.
fn push_head(text: &mut String, name: &str, place: Position, told: &str) -> Result<(), AllocError>
    ensures { OnOk result (string_bytes text.new
        ≡ string_bytes text.old ++ (name.now ++ place_text place ++ told.now ++ codes "\n")) }
{
    text.push_str(name)?;
    push_place(text, place)?;
    text.push_str(told)?;
    text.push_str("\n")
}

/// Appends a message about a place, or about the whole source.
fn push_message_at(
    text: &mut String,
    name: &str,
    lines: &LineTable<'_>,
    places: &mut LineCursor<'_, '_>,
    told: &str,
    span: Option<Span>,
) -> Result<(), AllocError>
    requires ends { lines.now.ends ≡ EcmaScript }
    requires places { places.old ≡ in_characters lines.now }
    ensures text { OnOk result (string_bytes text.new
        ≡ string_bytes text.old ++ message_at name.now lines.now.text told.now span) }
    ensures places { places.new ≡ places.old }
{
    match span {
        None => push_head(text, name, TEXT_START, told),
        Some(span) => {
            let place = places.position(span.start);
            push_head(text, name, place, told)?;
            push_excerpt_at(text, lines, span.start)
        }
    }
}

/// What is told of a diagnostic.
pub(crate) fn told_of(
    alloc: Global,
    label: &str,
    diagnostic: &Diagnostic,
) -> Result<String, AllocError>
    ensures { IfOk result (λ told. string_bytes told ≡ label.now ++ message_of diagnostic.now) }
{
    let mut told = String::from_str(alloc, label)?;
    push_message(&mut told, diagnostic)?;
    Ok(told)
}

/// Appends a message for each diagnostic, behind a label.
fn push_faults(
    text: &mut String,
    alloc: Global,
    name: &str,
    lines: &LineTable<'_>,
    label: &str,
    diagnostics: &[Diagnostic],
) -> Result<(), AllocError>
    requires { lines.now.ends ≡ EcmaScript }
    ensures { OnOk result (string_bytes text.new
        ≡ string_bytes text.old ++ flat_map (labelled_text name.now lines.now.text label.now) diagnostics.now) }
{
    let mut places = places_of(lines);
    for diagnostic in diagnostics {
        let told = told_of(alloc, label, diagnostic)?;
        push_message_at(
            text,
            name,
            lines,
            &mut places,
            told.as_str(),
            diagnostic.span(),
        )?;
    }
    Ok(())
}

/// Appends a message for each warning.
fn push_warnings(
    text: &mut String,
    name: &str,
    lines: &LineTable<'_>,
    warnings: &[Span],
) -> Result<(), AllocError>
    requires { lines.now.ends ≡ EcmaScript }
    ensures { OnOk result (string_bytes text.new
        ≡ string_bytes text.old ++ flat_map (warning_text name.now lines.now.text) warnings.now) }
{
    let mut places = places_of(lines);
    for span in warnings {
        push_message_at(text, name, lines, &mut places, WARNING, Some(*span))?;
    }
    Ok(())
}

/// What is told of what was found in a source with this name: a message for each diagnostic, for each that counts in a
/// module alone, and for each warning.
pub fn check_text(
    alloc: Global,
    name: &str,
    source: &str,
    found: &Findings,
) -> Result<String, AllocError>
    requires { length source.now < 2 ^ 32 }
    ensures { IfOk result (λ text. string_bytes text ≡ check_text name.now source.now found.now) }
{
    let mut text = String::new(alloc);
    if is_clean(found) {
        return Ok(text);
    }
    let lines = LineTable::new(alloc, source, LineEnds::EcmaScript)?;
    push_faults(
        &mut text,
        alloc,
        name,
        &lines,
        "",
        found.diagnostics.as_slice(),
    )?;
    push_faults(
        &mut text,
        alloc,
        name,
        &lines,
        "warning: ",
        found.deferred.as_slice(),
    )?;
    push_warnings(&mut text, name, &lines, found.warnings.as_slice())?;
    Ok(text)
}

/// What is told of a source.
#[derive(Drop)]
pub struct Told {
    pub text: String,
    /// Whether the source is at fault, where that was asked.
    pub is_faulty: bool,
}

/// What is told of what was found in a source with this name, and whether there is a diagnostic.
fn told_of_findings(
    alloc: Global,
    name: &str,
    source: &str,
    found: &Findings,
) -> Result<Told, AllocError>
    requires { length source.now < 2 ^ 32 }
    ensures { IfOk result (λ told. Tells name.now source.now found.now (string_bytes told.text) told.is_faulty) }
{
    Ok(Told {
        text: check_text(alloc, name, source, found)?,
        is_faulty: !found.diagnostics.is_empty(),
    })
}

/// Checks a source with this name, whose goals are chosen by the rule of a chooser.
pub fn check_source<G: ChooseGoals>(
    alloc: Global,
    name: &str,
    source: &[u8],
    source_type: SourceType,
) -> Result<Told, ChoiceFault>
    ensures checked { IfOk result (λ told.
        IsChecked G.choice name.now source.now source_type (string_bytes told.text) told.is_faulty) }
    ensures ok { OnOk result (IsReadable source.now) }
    // Each fault comes for its cause alone, and where the source has one, it comes.
    ensures cause { IfErr result (λ fault. (fault ≡ ChoiceFault.Memory) ⊎ ChoiceCause source.now fault) }
    ensures exact { (fault : ChoiceFault) → ChoiceCause source.now fault → result ≡ Err fault }
    ensures complete { IsReadable source.now → IsOk result ⊎ (result ≡ Err ChoiceFault.Memory) }
{
    let found = findings_of_source::<G>(alloc, source, source_type)?;
    let text = unsafe { str::from_utf8_unchecked(source) };
    match told_of_findings(alloc, name, text, &found) {
        Ok(told) => Ok(told),
        Err(_) => Err(ChoiceFault::Memory),
    }
}
