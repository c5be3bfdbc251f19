//! Outputs in memory.

ghost use Rattle.std.specs.Prelude.{◌≡◌, ◌≤◌, ◌<◌, [], length, Some};
ghost use Rattle.std.specs.Io.KnownBytes.{Keeps};
ghost use Rattle.js_process.specs.Memory.{no_calls, after_call, IsWriteAnswer, IsSureWrite, after_write, flush_answer};
ghost use Rattle.js_process.specs.Memory.{after_flush, sure_output, memory_output, sink_after_call};
ghost use Rattle.js_process.specs.Outside.{GivesAtMost, GivesBytes, CountsWrite, Flushes, CountsFlush, MovesOn};
ghost use Rattle.js_process.specs.Outside.{is_last_write, is_last_flush};

use crate::calls::FailingCalls;
use crate::outside::{ByteOut, Course, FlushAnswer, OutAnswer};
use std::alloc::Global;
use std::marker::Model;

/// An output in memory that never fails. A write takes at most `piece` bytes.
#[derive(Drop)]
pub struct SureOut {
    bytes: Vec<u8>,
    flushed: usize,
    piece: usize,
    course: Course,
}

impl Model for SureOut {
    ghost use Rattle.std.specs.Prelude.{◌≤◌};
    ghost use Rattle.js_process.specs.Memory.{SureSink};

    ghost Value = { SureSink };

    ghost view = { λ s.
        record { written = s.bytes.items; flushed = s.flushed; piece = s.piece; course = s.course } };

    ghost invariant = { λ s. 1 ≤ s.piece };
}

impl SureOut {
    /// An empty output, in writes of at most `piece` bytes.
    pub fn new(alloc: Global, piece: usize) -> SureOut
        requires { 1 ≤ piece }
        ensures { result ≡ record { written = []; flushed = 0; piece = piece; course = Course.Open } }
    {
        SureOut {
            bytes: Vec::new(alloc),
            flushed: 0,
            piece,
            course: Course::Open,
        }
    }

    /// Counts one more call.
    fn count_call(&mut self, last: bool)
        ensures { self.new ≡ sink_after_call self.old last }
    {
        self.course = self.course.after(last);
    }

    /// The bytes that were written so far.
    pub fn written(&self) -> &[u8]
        ensures { result.now ≡ self.now.written }
    {
        self.bytes.as_slice()
    }

    /// How many of the bytes that were written were flushed.
    pub fn flushed(&self) -> usize
        ensures { result ≡ self.now.flushed }
    {
        self.flushed
    }
}

impl ByteOut for SureOut {
    ghost state = { sure_output };

    fn write(&mut self, bytes: &[u8]) -> OutAnswer
        requires { 0 < length bytes.now }
        ensures bound { GivesAtMost result (length bytes.now) }
        ensures bytes { GivesBytes result (Some self.old.written) (Some self.new.written) bytes.now }
        ensures faults { CountsWrite result 0 0 }
        ensures course { MovesOn (is_last_write result) (Some self.old.course) (Some self.new.course) }
        ensures answer { IsSureWrite self.old (length bytes.now) result }
        ensures after { self.new ≡ after_write self.old bytes.now result }
    {
        let count = self.piece.min(bytes.len());
        match self.bytes.extend_from_slice(&bytes[..count]) {
            Ok(()) => {
                self.count_call(false);
                OutAnswer::Took(count)
            }
            Err(_) => {
                self.count_call(true);
                OutAnswer::NoMemory
            }
        }
    }

    fn flush(&mut self) -> FlushAnswer
        ensures bytes { Keeps (Some self.old.written) (Some self.new.written) }
        ensures flushed { Flushes result (sure_output self.new) }
        ensures faults { CountsFlush result 0 0 }
        ensures course { MovesOn (is_last_flush result) (Some self.old.course) (Some self.new.course) }
        ensures answer { result ≡ FlushAnswer.Done }
        ensures after { self.new ≡ after_flush self.old result }
    {
        self.flushed = self.bytes.len();
        self.count_call(false);
        FlushAnswer::Done
    }
}

/// An output in memory. A write takes at most `piece` bytes. A write or flush fails where its number, from 0, is in a
/// list.
#[derive(Drop)]
pub struct MemoryOut<'b> {
    output: SureOut,
    calls: FailingCalls<'b>,
}

impl<'b> Model for MemoryOut<'b> {
    ghost use Rattle.js_process.specs.Memory.{MemorySink};

    ghost Value = { MemorySink };

    ghost view = { λ s. record { output = s.output; calls = s.calls } };
}

impl<'b> MemoryOut<'b> {
    /// An empty output, in writes of at most `piece` bytes. The writes and flushes whose numbers are in `failing` fail.
    pub fn new(alloc: Global, piece: usize, failing: &'b [u64]) -> MemoryOut<'b>
        requires { 1 ≤ piece }
        ensures output { result.output ≡ record { written = []; flushed = 0; piece = piece; course = Course.Open } }
        ensures calls { result.calls ≡ no_calls failing.now }
    {
        MemoryOut {
            output: SureOut::new(alloc, piece),
            calls: FailingCalls::new(failing),
        }
    }

    /// The bytes that were written so far.
    pub fn written(&self) -> &[u8]
        ensures { result.now ≡ self.now.output.written }
    {
        self.output.written()
    }

    /// How many of the bytes that were written were flushed.
    pub fn flushed(&self) -> usize
        ensures { result ≡ self.now.output.flushed }
    {
        self.output.flushed()
    }

    /// How many writes and flushes have failed.
    pub fn faults(&self) -> u64
        ensures { result ≡ self.now.calls.faults }
    {
        self.calls.faults()
    }
}

impl ByteOut for MemoryOut<'_> {
    ghost state = { memory_output };

    fn write(&mut self, bytes: &[u8]) -> OutAnswer
        requires { 0 < length bytes.now }
        ensures bound { GivesAtMost result (length bytes.now) }
        ensures bytes { GivesBytes result (Some self.old.output.written) (Some self.new.output.written) bytes.now }
        ensures faults { CountsWrite result self.old.calls.faults self.new.calls.faults }
        ensures course { MovesOn (is_last_write result) (Some self.old.output.course) (Some self.new.output.course) }
        ensures answer { IsWriteAnswer self.old (length bytes.now) result }
        ensures output { self.new.output ≡ after_write self.old.output bytes.now result }
        ensures calls { self.new.calls ≡ after_call self.old.calls }
    {
        if self.calls.count_call() {
            self.output.count_call(true);
            return OutAnswer::Failed;
        }
        self.output.write(bytes)
    }

    fn flush(&mut self) -> FlushAnswer
        ensures bytes { Keeps (Some self.old.output.written) (Some self.new.output.written) }
        ensures flushed { Flushes result (memory_output self.new) }
        ensures faults { CountsFlush result self.old.calls.faults self.new.calls.faults }
        ensures course { MovesOn (is_last_flush result) (Some self.old.output.course) (Some self.new.output.course) }
        ensures answer { result ≡ flush_answer self.old }
        ensures output { self.new.output ≡ after_flush self.old.output result }
        ensures calls { self.new.calls ≡ after_call self.old.calls }
    {
        if self.calls.count_call() {
            self.output.count_call(true);
            return FlushAnswer::Failed;
        }
        self.output.flush()
    }
}
