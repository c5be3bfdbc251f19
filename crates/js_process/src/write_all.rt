//! Writing a text to an output.

ghost use Rattle.std.specs.Prelude.{◌≡◌, ◌⊎◌, OnOk, OnErr, IsErrOf};
ghost use Rattle.std.specs.Io.KnownBytes.{Appends};
ghost use Rattle.js_process.specs.Outside.{Rises, WritesAll, WritesPrefix, StaysOpen, Closes, InTime};
ghost use Rattle.js_process.specs.Writing.{WritesUnflushed, Writes};
ghost use Rattle.js_process.specs.Status.{CountsFault, number, HasPassed};
ghost use Rattle.js_process.specs.Status.Status.{OutOfMemory, WriteFailed, NoMark};

use crate::outside::{ByteOut, FlushAnswer, OutAnswer};
use crate::status::{DONE, MEMORY, WRITE_FAILED};

/// Why a text was not written.
#[derive(Clone, Copy, PartialEq, Eq, Debug)]
pub enum WriteFault {
    Failed,
    Memory,
}

/// Writes all of a text. It is not flushed.
fn write_bytes<O: ByteOut>(output: &mut O, text: &[u8]) -> Result<(), WriteFault>
    ensures all { OnOk result (Appends (O.state output.old).written (O.state output.new).written text.now) }
    ensures prefix { OnErr result (WritesPrefix (O.state output.old) (O.state output.new) text.now) }
    ensures fault { IsErrOf result WriteFault.Failed → Rises (O.state output.old).faults (O.state output.new).faults }
    ensures no_fault { (¬ (IsErrOf result WriteFault.Failed))
        → (O.state output.new).faults ≡ (O.state output.old).faults }
    ensures stays_open { OnOk result (StaysOpen (O.state output.old).course (O.state output.new).course) }
    ensures closes { OnErr result (Closes (O.state output.old).course (O.state output.new).course) }
{
    let mut at = 0;
    while at < text.len() {
        match output.write(&text[at..]) {
            OutAnswer::Took(count) => at += count,
            OutAnswer::NoMemory => return Err(WriteFault::Memory),
            OutAnswer::Failed => return Err(WriteFault::Failed),
        }
    }
    Ok(())
}

/// Writes all of a piece of a text. It is not flushed.
pub fn write_piece<O: ByteOut>(output: &mut O, piece: &str) -> Result<(), WriteFault>
    ensures { WritesUnflushed piece.now (O.state output.old) (O.state output.new) result }
{
    write_bytes(output, piece.as_bytes())
}

/// Writes all of a text and flushes it.
pub fn write_all<O: ByteOut>(output: &mut O, text: &[u8]) -> Result<(), WriteFault>
    ensures all { OnOk result (WritesAll (O.state output.old) (O.state output.new) text.now) }
    ensures prefix { OnErr result (WritesPrefix (O.state output.old) (O.state output.new) text.now) }
    ensures fault { IsErrOf result WriteFault.Failed → Rises (O.state output.old).faults (O.state output.new).faults }
    ensures no_fault { (¬ (IsErrOf result WriteFault.Failed))
        → (O.state output.new).faults ≡ (O.state output.old).faults }
    // No call comes after one that has failed.
    ensures stays_open { OnOk result (StaysOpen (O.state output.old).course (O.state output.new).course) }
    ensures closes { OnErr result (Closes (O.state output.old).course (O.state output.new).course) }
{
    write_bytes(output, text)?;
    match output.flush() {
        FlushAnswer::Done => Ok(()),
        FlushAnswer::Failed => Err(WriteFault::Failed),
    }
}

/// Writes a text, and gives the status that this leads to.
pub fn write_status<O: ByteOut>(text: &str, output: &mut O) -> u8
    ensures status { (result ≡ number OutOfMemory) ⊎ HasPassed NoMark result }
    ensures text { Writes text.now (O.state output.old) (O.state output.new) result }
    ensures faults { CountsFault WriteFailed result (O.state output.old).faults (O.state output.new).faults }
    ensures in_time { InTime (O.state output.old).course (O.state output.new).course }
{
    match write_all(output, text.as_bytes()) {
        Ok(()) => DONE,
        Err(WriteFault::Memory) => MEMORY,
        Err(WriteFault::Failed) => WRITE_FAILED,
    }
}
