//! The commands `strip` and `squeeze`.

use crate::collecting::{add_source, told_licences};
use crate::fault::Fault;
use crate::reading::read_source;
use crate::replacing::write_file;
use crate::words::Sources;
use js_licences::Licences;
use js_process::ByteOut;
use js_process::write_all::write_piece;
use js_totsenak::{CLEAN, FAULTY, Format, Rewriting, Rewritten, RunFault, Syntax, rewrite_source};
use std::io::ErrorKind;

/// Where sources go that are written anew.
#[derive(Clone, Copy)]
pub(crate) enum Target<'w> {
    StandardOutput,
    /// The file of this name.
    File(&'w str),
    /// Each in the place of the file that it is of.
    InPlace,
}

/// What is asked of sources that are written anew.
#[derive(Clone, Copy)]
pub(crate) struct Anew<'w> {
    pub rewriting: Rewriting,
    pub target: Target<'w>,
    /// The file that the licences of the sources go to, if any.
    pub licences: Option<&'w str>,
}

/// Writes a text to a file, or tells that it can't be written.
fn write_whole(rt: &HostRuntime, name: &str, text: &str) -> Result<(), Fault> {
    match write_file(rt, name, text) {
        Ok(()) => Ok(()),
        Err(error) if error.kind() == ErrorKind::OutOfMemory => {
            Err(Fault::Untold(RunFault::Memory))
        }
        Err(_) => {
            // Nobody is left to tell where this fails.
            let _ = eprintln!(rt; "totsenak: {name}: cannot be written");
            Err(Fault::Unwritten)
        }
    }
}

/// Writes the text of a file to where it goes.
fn write_text<O: ByteOut>(
    rt: &HostRuntime,
    target: Target<'_>,
    name: &str,
    text: &str,
    output: &mut O,
) -> Result<(), Fault> {
    match target {
        Target::StandardOutput => Ok(write_piece(output, text)?),
        Target::File(target) => write_whole(rt, target, text),
        Target::InPlace => write_whole(rt, name, text),
    }
}

/// Writes a file anew, and answers whether it is faulty: then nothing is written of it, and it is told what is at fault.
fn rewrite_file<O: ByteOut>(
    rt: &HostRuntime,
    anew: &Anew<'_>,
    sources: &Sources<'_>,
    name: &str,
    licences: &mut Licences,
    output: &mut O,
) -> Result<bool, Fault> {
    let (syntax, source_type) = sources.kind_of(name);
    if syntax == Syntax::Jsx {
        return Err(Fault::Jsx);
    }
    let source = read_source(rt, name)?;
    let bytes = source.as_slice();
    match rewrite_source(rt.alloc(), anew.rewriting, name, bytes, source_type)? {
        Rewritten::Refused(told) => {
            // Nobody is left to tell where this fails.
            let _ = eprint!(rt; "{told}");
            Ok(true)
        }
        Rewritten::Text(text) => {
            if anew.licences.is_some() {
                add_source(licences, name, bytes, syntax, source_type)?;
            }
            write_text(rt, anew.target, name, text.as_str(), output)?;
            Ok(false)
        }
    }
}

/// Writes the licences to their file.
fn write_licences(rt: &HostRuntime, name: &str, licences: &Licences) -> Result<(), Fault> {
    let text = told_licences(rt.alloc(), Format::Lines, licences)?;
    write_whole(rt, name, text.as_str())
}

/// Writes each file anew, then the licences of those that were, and gives the status: the highest of any.
pub(crate) fn rewrite_each<O: ByteOut>(
    rt: &HostRuntime,
    anew: &Anew<'_>,
    sources: &Sources<'_>,
    output: &mut O,
) -> u8 {
    let mut licences = Licences::new(rt.alloc());
    let mut status = CLEAN;
    for name in sources.names {
        match rewrite_file(rt, anew, sources, name, &mut licences, output) {
            Ok(false) => {}
            Ok(true) => status = status.max(FAULTY),
            Err(fault) => {
                fault.tell(rt, name);
                status = status.max(fault.status());
                if fault.ends_run() {
                    return status;
                }
            }
        }
    }
    let Some(name) = anew.licences else {
        return status;
    };
    match write_licences(rt, name, &licences) {
        Ok(()) => status,
        Err(fault) => {
            fault.tell(rt, name);
            status.max(fault.status())
        }
    }
}
