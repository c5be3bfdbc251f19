//! The commands that tell of each file by itself.

use crate::fault::Fault;
use crate::reading::{STANDARD_INPUT, open_source};
use crate::words::Sources;
use js_process::{ByteOut, StdIn};
use js_totsenak::{CLEAN, Command, RunFault, status_of, tell_of_input};

/// Writes what a command tells of a file, or of standard input, and answers whether it is faulty.
fn tell_of_file<O: ByteOut>(
    rt: &HostRuntime,
    command: Command,
    sources: &Sources<'_>,
    name: &str,
    output: &mut O,
) -> Result<bool, RunFault> {
    let alloc = rt.alloc();
    let (syntax, source_type) = sources.kind_of(name);
    if name == STANDARD_INPUT {
        let mut input = StdIn::new(rt.reader());
        return tell_of_input(
            alloc,
            command,
            syntax,
            name,
            source_type,
            &mut input,
            output,
        );
    }
    let mut input = StdIn::new(open_source(rt, name)?);
    tell_of_input(
        alloc,
        command,
        syntax,
        name,
        source_type,
        &mut input,
        output,
    )
}

/// Writes what a command tells of each file, and gives the status: the highest of any. A file that is not told of keeps
/// none of the others from it.
pub(crate) fn tell_of_each<O: ByteOut>(
    rt: &HostRuntime,
    command: Command,
    sources: &Sources<'_>,
    output: &mut O,
) -> u8 {
    let mut status = CLEAN;
    for name in sources.names {
        let answer = tell_of_file(rt, command, sources, name, output);
        status = status.max(status_of(answer));
        if let Err(fault) = answer {
            let fault = Fault::from(fault);
            fault.tell(rt, name);
            if fault.ends_run() {
                return status;
            }
        }
    }
    status
}
