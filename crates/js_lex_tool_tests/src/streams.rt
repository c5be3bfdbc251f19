//! Runs over readers and writers of the system's kind, which fail in mid-stream. That a reader or a writer is called as
//! std's trait says is told here, since std tells nothing of the errors of a call.

use crate::run::strings_of;
use js_lex_tool::status::{DONE, READ_FAILED, WRITE_FAILED};
use js_lex_tool::{StdIn, StdOut, lex_tool_run};
use std::alloc::{AllocError, Global};
use std::io::{self, Read, Write};
use std::test::Fail;

/// A reader that gives some bytes, two at a time, and then ends or fails.
#[derive(Drop)]
struct Source<'b> {
    left: &'b [u8],
    fails: bool,
}

impl Read for Source<'_> {
    fn read(&mut self, buf: &mut [u8]) -> io::Result<usize> {
        if self.left.is_empty() && self.fails {
            return Err(io::Error::from(io::ErrorKind::Other));
        }
        let count = buf.len().min(self.left.len()).min(2);
        buf[..count].copy_from_slice(&self.left[..count]);
        self.left = &self.left[count..];
        Ok(count)
    }
}

/// A writer that takes so many bytes and then none, and whose flush may fail.
#[derive(Drop)]
struct Sink {
    room: usize,
    fails: bool,
}

impl Write for Sink {
    fn write(&mut self, buf: &[u8]) -> io::Result<usize> {
        let count = buf.len().min(self.room);
        self.room -= count;
        Ok(count)
    }

    fn flush(&mut self) -> io::Result<()> {
        if self.fails {
            return Err(io::Error::from(io::ErrorKind::Other));
        }
        Ok(())
    }
}

/// Whether the reader fails behind its bytes, how many bytes the writer takes, whether its flush fails, and the status.
static CASES: [(bool, usize, bool, u8); 5] = [
    (false, 1000, false, DONE),
    (true, 1000, false, READ_FAILED),
    (false, 100, false, WRITE_FAILED),
    (false, 0, false, WRITE_FAILED),
    (false, 1000, true, WRITE_FAILED),
];

fn run_status(alloc: Global, source: Source<'_>, sink: Sink) -> Result<u8, AllocError> {
    let words = strings_of(alloc, "module no-tokens next*5")?;
    let (mut input, mut output) = (StdIn::new(source), StdOut::new(sink));
    Ok(lex_tool_run(alloc, &words, &mut input, &mut output).status)
}

#[test]
fn streams_that_fail(rt: HostRuntime) -> Result<(), Fail> {
    for &(read_fails, room, flush_fails, wanted) in &CASES {
        let source = Source {
            left: b"foo(a);",
            fails: read_fails,
        };
        let sink = Sink {
            room,
            fails: flush_fails,
        };
        assert_eq!(rt; run_status(rt.alloc(), source, sink)?, wanted, "{room}");
    }
    Ok(())
}
