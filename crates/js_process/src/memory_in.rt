//! Inputs over bytes in memory.

ghost use Rattle.std.specs.Prelude.{◌≡◌, ◌≤◌, ◌<◌, length, take, Some, min};
ghost use Rattle.js_process.specs.Memory.{Gives, GivesSurely, memory_input, no_calls, source_after_call, sure_input};
ghost use Rattle.js_process.specs.Outside.{TakesAtMost, TakesBytes, CountsRead, MovesOn, is_last_read};

use crate::calls::FailingCalls;
use crate::outside::{ByteIn, Course, InAnswer};
use std::marker::Model;

/// An input over bytes in memory that never fails. A read gives at most `piece` bytes.
#[derive(Drop)]
pub struct SureIn<'b> {
    bytes: &'b [u8],
    piece: usize,
    course: Course,
}

impl<'b> Model for SureIn<'b> {
    ghost use Rattle.std.specs.Prelude.{◌≤◌};
    ghost use Rattle.js_process.specs.Memory.{SureSource};

    ghost Value = { SureSource };

    ghost view = { λ s. record { left = s.bytes.now; piece = s.piece; course = s.course } };

    ghost invariant = { λ s. 1 ≤ s.piece };
}

impl<'b> SureIn<'b> {
    /// An input of these bytes, in reads of at most `piece` bytes.
    pub fn new(bytes: &'b [u8], piece: usize) -> SureIn<'b>
        requires { 1 ≤ piece }
        ensures { result ≡ record { left = bytes.now; piece = piece; course = Course.Open } }
    {
        SureIn {
            bytes,
            piece,
            course: Course::Open,
        }
    }

    /// Counts one more call.
    fn count_call(&mut self, last: bool)
        ensures { self.new ≡ source_after_call self.old last }
    {
        self.course = self.course.after(last);
    }
}

/// Copies the first bytes into the buffer, and tells how many.
fn copy_front(bytes: &[u8], piece: usize, buf: &mut [u8]) -> usize
    ensures count { result ≡ min piece (min (length buf.new) (length bytes.now)) }
    ensures bytes { take result buf.new ≡ take result bytes.now }
{
    let count = piece.min(buf.len().min(bytes.len()));
    buf[..count].copy_from_slice(&bytes[..count]);
    count
}

impl ByteIn for SureIn<'_> {
    ghost state = { sure_input };

    ghost read_gives = { GivesSurely };

    fn read(&mut self, buf: &mut [u8]) -> InAnswer
        requires { 0 < length buf.old }
        ensures bound { TakesAtMost result (length buf.old) }
        ensures bytes { TakesBytes result (Some self.old.left) (Some self.new.left) buf.new }
        ensures faults { CountsRead result 0 0 }
        ensures course { MovesOn (is_last_read result) (Some self.old.course) (Some self.new.course) }
        ensures gives { GivesSurely self.old (length buf.old) result self.new }
    {
        if self.bytes.is_empty() {
            self.count_call(true);
            return InAnswer::End;
        }
        let count = copy_front(self.bytes, self.piece, buf);
        self.bytes = &self.bytes[count..];
        self.count_call(false);
        InAnswer::Took(count)
    }
}

/// An input over bytes in memory. A read gives at most `piece` bytes, and fails where its number, from 0, is in a list.
#[derive(Drop)]
pub struct MemoryIn<'b> {
    input: SureIn<'b>,
    calls: FailingCalls<'b>,
}

impl<'b> Model for MemoryIn<'b> {
    ghost use Rattle.js_process.specs.Memory.{MemorySource};

    ghost Value = { MemorySource };

    ghost view = { λ s. record { input = s.input; calls = s.calls } };
}

impl<'b> MemoryIn<'b> {
    /// An input of these bytes, in reads of at most `piece` bytes. The reads whose numbers are in `failing` fail.
    pub fn new(bytes: &'b [u8], piece: usize, failing: &'b [u64]) -> MemoryIn<'b>
        requires { 1 ≤ piece }
        ensures input { result.input ≡ record { left = bytes.now; piece = piece; course = Course.Open } }
        ensures calls { result.calls ≡ no_calls failing.now }
    {
        MemoryIn {
            input: SureIn::new(bytes, piece),
            calls: FailingCalls::new(failing),
        }
    }

    /// How many reads have failed.
    pub fn faults(&self) -> u64
        ensures { result ≡ self.now.calls.faults }
    {
        self.calls.faults()
    }
}

impl ByteIn for MemoryIn<'_> {
    ghost state = { memory_input };

    ghost read_gives = { Gives };

    fn read(&mut self, buf: &mut [u8]) -> InAnswer
        requires { 0 < length buf.old }
        ensures bound { TakesAtMost result (length buf.old) }
        ensures bytes { TakesBytes result (Some self.old.input.left) (Some self.new.input.left) buf.new }
        ensures faults { CountsRead result self.old.calls.faults self.new.calls.faults }
        ensures course { MovesOn (is_last_read result) (Some self.old.input.course) (Some self.new.input.course) }
        ensures gives { Gives self.old (length buf.old) result self.new }
    {
        if self.calls.count_call() {
            self.input.count_call(true);
            return InAnswer::Failed;
        }
        self.input.read(buf)
    }
}
