//! The command `licences`, and the licences of sources that are written anew.

use crate::fault::Fault;
use crate::reading::read_source;
use crate::words::Sources;
use js_auto::GoalChooser;
use js_choose::ChoiceFault;
use js_jsx::JsxChooser;
use js_licences::{Licences, licences_json, licences_text};
use js_process::ByteOut;
use js_process::write_all::write_piece;
use js_text::SourceType;
use js_totsenak::{CLEAN, Format, Syntax};
use std::alloc::{AllocError, Global};

/// Adds the licences of a source.
pub(crate) fn add_source(
    licences: &mut Licences,
    name: &str,
    source: &[u8],
    syntax: Syntax,
    source_type: SourceType,
) -> Result<(), ChoiceFault> {
    match syntax {
        Syntax::JavaScript => licences.add::<GoalChooser>(name, source, source_type),
        Syntax::Jsx => licences.add::<JsxChooser>(name, source, source_type),
    }
}

/// Adds the licences of a file.
fn add_file(
    rt: &HostRuntime,
    sources: &Sources<'_>,
    name: &str,
    licences: &mut Licences,
) -> Result<(), Fault> {
    let (syntax, source_type) = sources.kind_of(name);
    let source = read_source(rt, name)?;
    Ok(add_source(licences, name, source.as_slice(), syntax, source_type)?)
}

/// What is told of licences.
pub(crate) fn told_licences(
    alloc: Global,
    format: Format,
    licences: &Licences,
) -> Result<String, AllocError> {
    match format {
        Format::Lines => licences_text(alloc, licences),
        Format::Json => licences_json(alloc, licences),
    }
}

/// Writes licences.
fn write_licences<O: ByteOut>(
    alloc: Global,
    format: Format,
    licences: &Licences,
    output: &mut O,
) -> Result<(), Fault> {
    let text = told_licences(alloc, format, licences)?;
    Ok(write_piece(output, text.as_str())?)
}

/// Writes the licences of all files, and gives the status: the highest of any.
pub(crate) fn collect<O: ByteOut>(
    rt: &HostRuntime,
    format: Format,
    sources: &Sources<'_>,
    output: &mut O,
) -> u8 {
    let mut licences = Licences::new(rt.alloc());
    let mut status = CLEAN;
    for name in sources.names {
        if let Err(fault) = add_file(rt, sources, name, &mut licences) {
            fault.tell(rt, name);
            status = status.max(fault.status());
            if fault.ends_run() {
                return status;
            }
        }
    }
    match write_licences(rt.alloc(), format, &licences, output) {
        Ok(()) => status,
        Err(fault) => {
            fault.tell(rt, "");
            status.max(fault.status())
        }
    }
}
