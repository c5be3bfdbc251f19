//! The command `imports`.

use crate::fault::Fault;
use crate::reading::read_source;
use crate::words::Sources;
use js_imports_text::tell_imports;
use js_process::ByteOut;
use js_process::write_all::write_piece;
use js_totsenak::{CLEAN, Format};

/// What is asked of imports.
#[derive(Clone, Copy)]
pub(crate) struct ImportsAsked {
    pub format: Format,
    /// Whether calls of `require` count.
    pub counts_require: bool,
}

/// Writes what a file imports and exports.
fn tell_of_file<O: ByteOut>(
    rt: &HostRuntime,
    asked: ImportsAsked,
    sources: &Sources<'_>,
    name: &str,
    output: &mut O,
) -> Result<(), Fault> {
    let (syntax, source_type) = sources.kind_of(name);
    let source = read_source(rt, name)?;
    let text = tell_imports(
        rt.alloc(),
        asked.format,
        asked.counts_require,
        syntax,
        source.as_slice(),
        source_type,
    )?;
    Ok(write_piece(output, text.as_str())?)
}

/// Writes what each file imports and exports, and gives the status: the highest of any.
pub(crate) fn tell_imports_of_each<O: ByteOut>(
    rt: &HostRuntime,
    asked: ImportsAsked,
    sources: &Sources<'_>,
    output: &mut O,
) -> u8 {
    let mut status = CLEAN;
    for name in sources.names {
        if let Err(fault) = tell_of_file(rt, asked, sources, name, output) {
            fault.tell(rt, name);
            status = status.max(fault.status());
            if fault.ends_run() {
                return status;
            }
        }
    }
    status
}
