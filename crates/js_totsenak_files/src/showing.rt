//! The command `html`.

use crate::fault::Fault;
use crate::reading::read_source;
use crate::words::Sources;
use js_html::{Form, html_of_source};
use js_page::STYLE;
use js_process::ByteOut;
use js_process::write_all::write_piece;
use js_totsenak::CLEAN;

/// What is written of a source.
#[derive(Clone, Copy)]
pub(crate) enum Showing<'w> {
    /// Nothing of it: the style alone.
    Style,
    /// Its elements alone.
    Fragment,
    /// A page with a title: this one, or else the name of the file.
    Page(Option<&'w str>),
}

/// Writes a file in a form.
fn show_in_form<O: ByteOut>(
    rt: &HostRuntime,
    form: Form<'_>,
    sources: &Sources<'_>,
    name: &str,
    output: &mut O,
) -> Result<(), Fault> {
    let (syntax, source_type) = sources.kind_of(name);
    let source = read_source(rt, name)?;
    let text = html_of_source(rt.alloc(), form, syntax, source.as_slice(), source_type)?;
    Ok(write_piece(output, text.as_str())?)
}

/// Writes what is asked of a file.
fn show_file<O: ByteOut>(
    rt: &HostRuntime,
    showing: Showing<'_>,
    sources: &Sources<'_>,
    name: &str,
    output: &mut O,
) -> Result<(), Fault> {
    match showing {
        Showing::Style => Ok(write_piece(output, STYLE)?),
        Showing::Fragment => show_in_form(rt, Form::Fragment, sources, name, output),
        Showing::Page(title) => {
            let form = Form::Page(title.unwrap_or(name));
            show_in_form(rt, form, sources, name, output)
        }
    }
}

/// Writes what is asked of each file, and gives the status: the highest of any. The words name one.
pub(crate) fn show<O: ByteOut>(
    rt: &HostRuntime,
    showing: Showing<'_>,
    sources: &Sources<'_>,
    output: &mut O,
) -> u8 {
    let mut status = CLEAN;
    for name in sources.names {
        if let Err(fault) = show_file(rt, showing, sources, name, output) {
            fault.tell(rt, name);
            status = status.max(fault.status());
            if fault.ends_run() {
                return status;
            }
        }
    }
    status
}
