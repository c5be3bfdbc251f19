//! Why `js_lex` stops before it is done, as it prints it.

ghost use Rattle.std.specs.Prelude.{◌≡◌, ◌==◌, find, option_map};
ghost use Rattle.std.specs.Process.{exit_status};
ghost use Rattle.js_process.specs.Status.{failures, number};
ghost use Rattle.js_lex_tool.specs.Stop.{status_of_stop};

use js_process::ByteOut;
use js_process::status::{
    DIAGNOSED, MEMORY, NO_ARGUMENTS, NO_MARK, NOT_UTF8, PROGRAM, READ_FAILED, TOO_LONG, USAGE,
    USAGE_LINE, WRITE_FAILED,
};
use js_process::write_all::write_piece;
use std::fmt::{self, Write};
use std::process::ExitCode;
use thiserror::Error;

/// Why `js_lex` stops before it is done. It is displayed as the line that the program prints, without its line end.
#[derive(Debug, Drop, Error)]
enum StopFault {
    #[error("{PROGRAM}: out of memory")]
    Memory,
    #[error("{PROGRAM}: {USAGE_LINE}")]
    Usage,
    #[error("{PROGRAM}: cannot read input")]
    ReadFailed,
    #[error("{PROGRAM}: cannot write output")]
    WriteFailed,
    #[error("{PROGRAM}: input is longer than 67108864 bytes")]
    TooLong,
    #[error("{PROGRAM}: input is not UTF-8")]
    NotUtf8,
    #[error("{PROGRAM}: rewind or commit without a mark")]
    NoMark,
    #[error("{PROGRAM}: source has diagnostics")]
    Diagnosed,
    #[error("{PROGRAM}: cannot read arguments")]
    NoArguments,
}

impl StopFault {
    /// The fault of a status. None: the program is done, or never stops with this status.
    fn of(status: u8) -> Option<StopFault>
        ensures { option_map status_of_stop result ≡ find (λ s. number s == status) failures }
    {
        match status {
            MEMORY => Some(StopFault::Memory),
            USAGE => Some(StopFault::Usage),
            READ_FAILED => Some(StopFault::ReadFailed),
            WRITE_FAILED => Some(StopFault::WriteFailed),
            TOO_LONG => Some(StopFault::TooLong),
            NOT_UTF8 => Some(StopFault::NotUtf8),
            NO_MARK => Some(StopFault::NoMark),
            DIAGNOSED => Some(StopFault::Diagnosed),
            NO_ARGUMENTS => Some(StopFault::NoArguments),
            _ => None,
        }
    }
}

/// An output as a place to print to. It asks for no memory, since there may be none.
#[derive(Drop)]
struct Printer<'o, O: ByteOut> {
    output: &'o mut O,
}

impl<O: ByteOut> Write for Printer<'_, O> {
    fn write_str(&mut self, text: &str) -> fmt::Result {
        match write_piece(self.output, text) {
            Ok(()) => Ok(()),
            Err(_) => Err(fmt::Error),
        }
    }
}

/// Prints a line.
fn print_line<O: ByteOut>(fault: &StopFault, output: &mut O) -> fmt::Result {
    let mut printer = Printer { output };
    writeln!(printer, "{fault}")
}

/// Prints why `js_lex` stops with a status, where it stops before it is done. No call of the output comes after one that
/// has failed.
fn print_stop<O: ByteOut>(status: u8, output: &mut O) {
    let Some(fault) = StopFault::of(status) else {
        return;
    };
    // Nobody is left to tell where this fails.
    if print_line(&fault, output).is_ok() {
        let _ = output.flush();
    }
}

/// Ends `js_lex` with a status: the status is its exit code, and the line that tells why it stops is printed to
/// `errors`. A derive makes that line, so no clause tells of it.
pub fn end_lex<E: ByteOut>(status: u8, errors: &mut E) -> ExitCode
    ensures { exit_status result ≡ status }
{
    print_stop(status, errors);
    ExitCode::from(status)
}
