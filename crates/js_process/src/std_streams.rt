//! Standard input and standard output: readers and writers of the system as inputs and outputs.

ghost use Rattle.std.specs.Prelude.{◌≡◌, ◌≢◌, ◌<◌, length, None};
ghost use Rattle.std.specs.Io.KnownBytes.{Keeps};
ghost use Rattle.js_process.specs.Outside.{TakesAtMost, TakesBytes, CountsRead, GivesAtMost, GivesBytes, CountsWrite};
ghost use Rattle.js_process.specs.Outside.{CountsFlush, read_comes_to, write_comes_to, flush_comes_to};

use crate::outside::{ByteIn, ByteOut, FlushAnswer, InAnswer, OutAnswer};
use crate::system::{SystemIn, SystemOut};
use std::io;

/// What a read of the system comes to: no byte is the end.
fn read_answer(read: io::Result<usize>) -> InAnswer
    ensures { result ≡ read_comes_to read }
{
    match read {
        Ok(0) => InAnswer::End,
        Ok(count) => InAnswer::Took(count),
        Err(_) => InAnswer::Failed,
    }
}

/// What a write of the system comes to: a write that takes no byte fails, and so does one that finds no memory.
fn write_answer(written: io::Result<usize>) -> OutAnswer
    ensures { result ≡ write_comes_to written }
{
    match written {
        Ok(0) | Err(_) => OutAnswer::Failed,
        Ok(count) => OutAnswer::Took(count),
    }
}

/// What a flush of the system comes to.
fn flush_answer(flushed: io::Result<()>) -> FlushAnswer
    ensures { result ≡ flush_comes_to flushed }
{
    match flushed {
        Ok(()) => FlushAnswer::Done,
        Err(_) => FlushAnswer::Failed,
    }
}

/// A count of faults after a read.
fn faults_after_read(faults: u64, answer: InAnswer) -> u64
    ensures { CountsRead answer faults result }
{
    match answer {
        InAnswer::Took(_) | InAnswer::End => faults,
        InAnswer::Failed => faults.saturating_add(1),
    }
}

/// A count of faults after a write.
fn faults_after_write(faults: u64, answer: OutAnswer) -> u64
    ensures { CountsWrite answer faults result }
{
    match answer {
        OutAnswer::Took(_) | OutAnswer::NoMemory => faults,
        OutAnswer::Failed => faults.saturating_add(1),
    }
}

/// A count of faults after a flush.
fn faults_after_flush(faults: u64, answer: FlushAnswer) -> u64
    ensures { CountsFlush answer faults result }
{
    match answer {
        FlushAnswer::Done => faults,
        FlushAnswer::Failed => faults.saturating_add(1),
    }
}

/// A reader as an input. It counts the reads that fail, up to the end of a `u64`. It does not tell how far its calls
/// have come.
#[derive(Drop)]
pub struct StdIn<R: SystemIn + Drop> {
    reader: R,
    faults: u64,
}

impl<R: SystemIn + Drop> StdIn<R> {
    /// An input that has not failed yet.
    pub fn new(reader: R) -> StdIn<R>
        ensures reader { result.reader ≡ reader }
        ensures faults { result.faults ≡ 0 }
    {
        StdIn { reader, faults: 0 }
    }
}

impl<R: SystemIn + Drop> ByteIn for StdIn<R> {
    ghost state = { λ s. record { left = R.remaining s.reader; faults = s.faults; course = None } };

    ghost read_gives = { λ s room answer t. R.read_gives s.reader room answer t.reader };

    fn read(&mut self, buf: &mut [u8]) -> InAnswer
        requires { 0 < length buf.old }
        ensures bound { TakesAtMost result (length buf.old) }
        ensures bytes { TakesBytes result (R.remaining self.old.reader) (R.remaining self.new.reader) buf.new }
        ensures faults { CountsRead result self.old.faults self.new.faults }
        // It is one read of the reader.
        ensures once { R.read_gives self.old.reader (length buf.old) result self.new.reader }
    {
        let answer = read_answer(self.reader.read_once(buf));
        self.faults = faults_after_read(self.faults, answer);
        answer
    }
}

/// A writer as an output. It counts the writes and flushes that fail, up to the end of a `u64`. It does not tell what
/// was flushed, since a `Write` does not, nor how far its calls have come.
#[derive(Drop)]
pub struct StdOut<W: SystemOut + Drop> {
    writer: W,
    faults: u64,
}

impl<W: SystemOut + Drop> StdOut<W> {
    /// An output that has not failed yet.
    pub fn new(writer: W) -> StdOut<W>
        ensures writer { result.writer ≡ writer }
        ensures faults { result.faults ≡ 0 }
    {
        StdOut { writer, faults: 0 }
    }
}

impl<W: SystemOut + Drop> ByteOut for StdOut<W> {
    ghost state = { λ s.
        record { written = W.contents s.writer; flushed = None; faults = s.faults; course = None } };

    fn write(&mut self, bytes: &[u8]) -> OutAnswer
        requires { 0 < length bytes.now }
        ensures bound { GivesAtMost result (length bytes.now) }
        ensures bytes { GivesBytes result (W.contents self.old.writer) (W.contents self.new.writer) bytes.now }
        ensures faults { CountsWrite result self.old.faults self.new.faults }
        ensures memory { result ≢ OutAnswer.NoMemory }
        // It is one write of the writer.
        ensures once { W.write_gives self.old.writer bytes.now result self.new.writer }
    {
        let answer = write_answer(self.writer.write_once(bytes));
        self.faults = faults_after_write(self.faults, answer);
        answer
    }

    fn flush(&mut self) -> FlushAnswer
        ensures bytes { Keeps (W.contents self.old.writer) (W.contents self.new.writer) }
        ensures faults { CountsFlush result self.old.faults self.new.faults }
        // It is one flush of the writer.
        ensures once { W.flush_gives self.old.writer result self.new.writer }
    {
        let answer = flush_answer(self.writer.flush_once());
        self.faults = faults_after_flush(self.faults, answer);
        answer
    }
}
