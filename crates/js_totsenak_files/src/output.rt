//! Standard output, with what has become of it.

use std::io::{self, ErrorKind, Write};

/// What has become of an output.
#[derive(Clone, Copy)]
pub(crate) enum Outcome {
    /// It took all that was written.
    Fine,
    /// Its reader has gone.
    Unread,
    /// It failed.
    Failed,
}

/// What has become of an output that answers so.
fn outcome_of(error: &io::Error) -> Outcome {
    match error.kind() {
        ErrorKind::BrokenPipe => Outcome::Unread,
        _ => Outcome::Failed,
    }
}

/// A writer that keeps in mind what has become of it.
#[derive(Drop)]
pub(crate) struct WatchedWriter<W: Write + Drop> {
    writer: W,
    outcome: Outcome,
}

impl<W: Write + Drop> WatchedWriter<W> {
    pub(crate) fn new(writer: W) -> WatchedWriter<W> {
        WatchedWriter {
            writer,
            outcome: Outcome::Fine,
        }
    }

    pub(crate) fn outcome(&self) -> Outcome {
        self.outcome
    }
}

impl<W: Write + Drop> Write for WatchedWriter<W> {
    fn write(&mut self, buf: &[u8]) -> io::Result<usize> {
        let written = self.writer.write(buf);
        match &written {
            Ok(0) => self.outcome = Outcome::Failed,
            Ok(_) => {}
            Err(error) => self.outcome = outcome_of(error),
        }
        written
    }

    fn flush(&mut self) -> io::Result<()> {
        let flushed = self.writer.flush();
        if let Err(error) = &flushed {
            self.outcome = outcome_of(error);
        }
        flushed
    }
}
