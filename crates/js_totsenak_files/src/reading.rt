//! The sources that files and standard input hold.

use crate::fault::Fault;
use js_process::{ByteIn, StdIn, read_to_end};
use js_text::ByteList;
use js_totsenak::RunFault;
use std::alloc::Global;
use std::fs::{self, File};

/// The name of standard input.
pub(crate) const STANDARD_INPUT: &str = "-";

/// The most bytes that a source may have.
const MOST_BYTES: u32 = u32::MAX;

/// Opens the file of a name. One that is longer than any source is not read at all.
pub(crate) fn open_source(rt: &HostRuntime, name: &str) -> Result<File, RunFault> {
    let Ok(file) = fs::open(rt, name) else {
        return Err(RunFault::Unreadable);
    };
    match file.metadata() {
        Ok(metadata) if metadata.len() > u64::from(MOST_BYTES) => Err(RunFault::Overlong),
        Ok(_) => Ok(file),
        Err(_) => Err(RunFault::Unreadable),
    }
}

fn read_all<I: ByteIn>(alloc: Global, input: &mut I) -> Result<ByteList, Fault> {
    Ok(read_to_end(alloc, input, MOST_BYTES as usize)?)
}

/// The bytes of a file, or of standard input by its name.
pub(crate) fn read_source(rt: &HostRuntime, name: &str) -> Result<ByteList, Fault> {
    if name == STANDARD_INPUT {
        let mut input = StdIn::new(rt.reader());
        return read_all(rt.alloc(), &mut input);
    }
    let mut input = StdIn::new(open_source(rt, name)?);
    read_all(rt.alloc(), &mut input)
}
