//! Where bytes come from and where they go.

ghost use Rattle.std.specs.Prelude.{◌≡◌, ◌<◌, ℕ, length, ⊤};
ghost use Rattle.std.specs.Io.KnownBytes.{Keeps};
ghost use Rattle.js_process.specs.Outside.{InputState, OutputState, TakesAtMost, TakesBytes, CountsRead, GivesAtMost};
ghost use Rattle.js_process.specs.Outside.{GivesBytes, CountsWrite, Flushes, CountsFlush, MovesOn, course_after};
ghost use Rattle.js_process.specs.Outside.{is_last_read, is_last_write, is_last_flush};
ghost use Rattle.js_process.specs.declared.outside.InAnswer.{InAnswer};

/// What a read answers: how many bytes it put at the buffer's front, that none is left, or that it failed.
#[derive(Clone, Copy, PartialEq, Eq, Debug)]
pub enum InAnswer {
    Took(usize),
    End,
    Failed,
}

/// What a write answers: how many of the bytes it took, that it found no memory, or that it failed.
#[derive(Clone, Copy, PartialEq, Eq, Debug)]
pub enum OutAnswer {
    Took(usize),
    NoMemory,
    Failed,
}

/// What a flush answers.
#[derive(Clone, Copy, PartialEq, Eq, Debug)]
pub enum FlushAnswer {
    Done,
    Failed,
}

/// How far the calls of an input or an output have come. No read may come after one that has found the end, and no call
/// after one that has failed.
#[derive(Clone, Copy, PartialEq, Eq, Debug)]
pub enum Course {
    /// A call may come.
    Open,
    /// None may come any more, and none has.
    Over,
    /// One has come all the same.
    Late,
}

impl Course {
    /// After one more call. `last`: none may come after it.
    pub fn after(self, last: bool) -> Course
        ensures { result ≡ course_after self last }
    {
        match self {
            Course::Open if last => Course::Over,
            Course::Open => Course::Open,
            Course::Over | Course::Late => Course::Late,
        }
    }
}

/// An input of bytes. It counts its calls that answer `Failed`, and no others.
pub trait ByteIn {
    ghost state: { Self → InputState };

    // The input before one call of `read`, the length of its buffer, its answer, and the input after it. What is generic
    // over the trait knows this of the calls that it makes, and of no others.
    ghost read_gives: { Self → ℕ → InAnswer → Self → Type 0 } = { λ _ _ _ _. ⊤ };

    /// Reads some bytes into a buffer that isn't empty. An answer other than `Took` leaves the bytes left as they were.
    fn read(&mut self, buf: &mut [u8]) -> InAnswer
        requires { 0 < length buf.old }
        ensures bound { TakesAtMost result (length buf.old) }
        ensures bytes { TakesBytes result (state self.old).left (state self.new).left buf.new }
        ensures faults { CountsRead result (state self.old).faults (state self.new).faults }
        ensures course { MovesOn (is_last_read result) (state self.old).course (state self.new).course }
        ensures gives { read_gives self.old (length buf.old) result self.new };
}

/// An output of bytes. It counts its calls that answer `Failed`, and no others.
pub trait ByteOut {
    ghost state: { Self → OutputState };

    /// Writes some of the bytes, of which there is at least one. An answer other than `Took` writes none.
    fn write(&mut self, bytes: &[u8]) -> OutAnswer
        requires { 0 < length bytes.now }
        ensures bound { GivesAtMost result (length bytes.now) }
        ensures bytes { GivesBytes result (state self.old).written (state self.new).written bytes.now }
        ensures faults { CountsWrite result (state self.old).faults (state self.new).faults }
        ensures course { MovesOn (is_last_write result) (state self.old).course (state self.new).course };

    /// Hands on what was written and may still be held back.
    fn flush(&mut self) -> FlushAnswer
        ensures bytes { Keeps (state self.old).written (state self.new).written }
        ensures flushed { Flushes result (state self.new) }
        ensures faults { CountsFlush result (state self.old).faults (state self.new).faults }
        ensures course { MovesOn (is_last_flush result) (state self.old).course (state self.new).course };
}
