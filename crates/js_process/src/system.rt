//! One call of a reader or a writer of the system.
//!
//! std tells of such a call which bytes it took or gave, and nothing of its errors. So each trait here has a relation
//! of its own between the reader or writer before one call, what the call was handed, what it came to, and the reader
//! or writer after it. What is generic over the trait knows the relation by that call alone: where it says that the
//! relation holds of its own answer, it has made one call, and hands on what that came to.

ghost use Rattle.std.specs.Prelude.{ℕ, List, length, ⊤};
ghost use Rattle.std.specs.Io.{ReadsAtMost, WritesAtMost};
ghost use Rattle.std.specs.Io.KnownBytes.{Keeps, ReadConsumes, WriteAppends};
ghost use Rattle.js_process.specs.Outside.{read_comes_to, write_comes_to, flush_comes_to};
ghost use Rattle.js_process.specs.declared.outside.InAnswer.{InAnswer};
ghost use Rattle.js_process.specs.declared.outside.OutAnswer.{OutAnswer};
ghost use Rattle.js_process.specs.declared.outside.FlushAnswer.{FlushAnswer};

use std::io::{self, Read, Write};

/// A reader.
pub trait SystemIn: Read {
    ghost read_gives: { Self → ℕ → InAnswer → Self → Type 0 };

    /// One call of `read`.
    fn read_once(&mut self, buf: &mut [u8]) -> io::Result<usize>
        ensures bound { ReadsAtMost result buf.new }
        ensures bytes { ReadConsumes (Self.remaining self.old) (Self.remaining self.new) result buf.new }
        ensures gives { read_gives self.old (length buf.old) (read_comes_to result) self.new };
}

impl<R: Read> SystemIn for R {
    ghost read_gives = { λ _ _ _ _. ⊤ };

    fn read_once(&mut self, buf: &mut [u8]) -> io::Result<usize> {
        self.read(buf)
    }
}

/// A writer.
pub trait SystemOut: Write {
    ghost write_gives: { Self → List ℕ → OutAnswer → Self → Type 0 };

    ghost flush_gives: { Self → FlushAnswer → Self → Type 0 };

    /// One call of `write`.
    fn write_once(&mut self, buf: &[u8]) -> io::Result<usize>
        ensures bound { WritesAtMost result buf.now }
        ensures bytes { WriteAppends (Self.contents self.old) (Self.contents self.new) result buf.now }
        ensures gives { write_gives self.old buf.now (write_comes_to result) self.new };

    /// One call of `flush`.
    fn flush_once(&mut self) -> io::Result<()>
        ensures bytes { Keeps (Self.contents self.old) (Self.contents self.new) }
        ensures gives { flush_gives self.old (flush_comes_to result) self.new };
}

impl<W: Write> SystemOut for W {
    ghost write_gives = { λ _ _ _ _. ⊤ };

    ghost flush_gives = { λ _ _ _. ⊤ };

    fn write_once(&mut self, buf: &[u8]) -> io::Result<usize> {
        self.write(buf)
    }

    fn flush_once(&mut self) -> io::Result<()> {
        self.flush()
    }
}
