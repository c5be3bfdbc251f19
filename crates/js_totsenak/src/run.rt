//! Telling of the bytes of an input.

ghost use Rattle.std.specs.Prelude.{◌≡◌, ◌<◌};
ghost use Rattle.js_totsenak.specs.Run.{TellsOfBytes, TellsOfInput, status_of};

use crate::command::{Command, tell};
use crate::syntax::Syntax;
use js_choose::ChoiceFault;
use js_process::write_all::{WriteFault, write_piece};
use js_process::{ByteIn, ByteOut, ReadFault, read_to_end};
use js_text::SourceType;
use std::alloc::Global;

/// Why a source was not told of.
#[derive(Clone, Copy, PartialEq, Eq, Debug)]
pub enum RunFault {
    /// It could not be read.
    Unreadable,
    /// It has more than `u32::MAX` bytes.
    Overlong,
    /// It is not UTF-8. Its longest beginning that is has so many bytes.
    NotUtf8(u32),
    Memory,
    /// What is told of it could not be written.
    Unwritable,
}

/// Writes what a command tells of the bytes of a source with a name, and answers whether it is faulty.
fn tell_of_bytes<O: ByteOut>(
    alloc: Global,
    command: Command,
    syntax: Syntax,
    name: &str,
    source: &[u8],
    source_type: SourceType,
    output: &mut O,
) -> Result<bool, RunFault>
    ensures { TellsOfBytes command syntax name.now source.now source_type (O.state output.old) (O.state output.new)
        result }
{
    let told = match tell(alloc, command, syntax, name, source, source_type) {
        Ok(told) => told,
        Err(ChoiceFault::Overlong) => return Err(RunFault::Overlong),
        Err(ChoiceFault::NotUtf8(at)) => return Err(RunFault::NotUtf8(at)),
        Err(ChoiceFault::Memory) => return Err(RunFault::Memory),
    };
    match write_piece(output, told.text.as_str()) {
        Ok(()) => Ok(told.is_faulty),
        Err(WriteFault::Memory) => Err(RunFault::Memory),
        Err(WriteFault::Failed) => Err(RunFault::Unwritable),
    }
}

/// Reads an input with a name to its end, writes what a command tells of its bytes, and answers whether the source is
/// faulty. The output is not flushed.
pub fn tell_of_input<I: ByteIn, O: ByteOut>(
    alloc: Global,
    command: Command,
    syntax: Syntax,
    name: &str,
    source_type: SourceType,
    input: &mut I,
    output: &mut O,
) -> Result<bool, RunFault>
    ensures { TellsOfInput command syntax name.now source_type (I.state input.old) (I.state input.new)
        (O.state output.old) (O.state output.new) result }
{
    match read_to_end(alloc, input, u32::MAX as usize) {
        Ok(source) => tell_of_bytes(
            alloc,
            command,
            syntax,
            name,
            source.as_slice(),
            source_type,
            output,
        ),
        Err(ReadFault::Failed) => Err(RunFault::Unreadable),
        Err(ReadFault::TooLong) => Err(RunFault::Overlong),
        Err(ReadFault::Memory) => Err(RunFault::Memory),
    }
}

/// No source is faulty.
pub const CLEAN: u8 = 0;
/// A source is faulty.
pub const FAULTY: u8 = 1;
/// A source was not told of, or the arguments are not valid.
pub const UNTOLD: u8 = 2;
/// There was too little memory.
pub const NO_MEMORY: u8 = 3;
/// The output could not be written.
pub const UNWRITABLE: u8 = 4;

/// The exit status that an answer leads to.
pub fn status_of(answer: Result<bool, RunFault>) -> u8
    ensures { result ≡ status_of answer }
{
    match answer {
        Ok(false) => CLEAN,
        Ok(true) => FAULTY,
        Err(RunFault::Unreadable | RunFault::Overlong | RunFault::NotUtf8(_)) => UNTOLD,
        Err(RunFault::Memory) => NO_MEMORY,
        Err(RunFault::Unwritable) => UNWRITABLE,
    }
}
