//! How a program ends.

ghost use Rattle.std.specs.Prelude.{◌≡◌};
ghost use Rattle.std.specs.Process.{exit_status};
ghost use Rattle.js_process.specs.Exit.{Tells};
ghost use Rattle.js_process.specs.Status.{line_for};

use crate::outside::ByteOut;
use crate::status::line_for;
use std::process::ExitCode;

/// Ends a program of this name, whose usage is this, with a status: the status is its exit code, and its line is
/// written to `errors`.
pub fn end_program<E: ByteOut>(
    program: &'static str,
    usage: &'static str,
    status: u8,
    errors: &mut E,
) -> ExitCode
    ensures code { exit_status result ≡ status }
    ensures line { Tells (line_for program.now usage.now status) (E.state errors.old) (E.state errors.new) }
{
    if let Some(line) = line_for(program, usage, status) {
        // Nobody is left to tell where this fails.
        let _ = line.write_to(errors);
    }
    ExitCode::from(status)
}
