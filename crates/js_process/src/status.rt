//! The statuses of a run, and the line that the program prints for each.

ghost use Rattle.std.specs.Prelude.{◌≡◌, ◌++◌, Some, OnOk, OnErr, IsErrOf, codes, option_map};
ghost use Rattle.js_process.specs.Outside.{Rises, WritesAll, WritesPrefix, StaysOpen, Closes};
ghost use Rattle.js_process.specs.Status.{js_lex, js_lex_usage, line_for, reason_for};

use crate::outside::ByteOut;
use crate::write_all::{WriteFault, write_all};
use std::fmt;
use std::marker::Model;

/// The text was written and flushed.
pub const DONE: u8 = 0;
/// There was too little memory.
pub const MEMORY: u8 = 1;
/// The arguments are not valid.
pub const USAGE: u8 = 2;
/// The input could not be read.
pub const READ_FAILED: u8 = 3;
/// The output could not be written.
pub const WRITE_FAILED: u8 = 4;
/// The input has too many bytes.
pub const TOO_LONG: u8 = 5;
/// The input is not UTF-8.
pub const NOT_UTF8: u8 = 6;
/// A command closes a mark where none is open.
pub const NO_MARK: u8 = 7;
/// A row of a source that is to be written anew has a diagnostic.
pub const DIAGNOSED: u8 = 9;
/// The program was not given its arguments. No run comes to this.
pub const NO_ARGUMENTS: u8 = 10;

/// The name of `js_lex`.
pub const PROGRAM: &str = "js_lex";

/// What `js_lex` prints where its arguments are not valid.
pub const USAGE_LINE: &str = concat!(
    "usage: js_lex module|script|unambiguous tokens|no-tokens all|auto|COMMAND[*N].. or js_lex gen N",
    " or js_lex strip module|script|unambiguous all|COMMAND[*N]..",
    " or js_lex squeeze module|script|unambiguous all|COMMAND[*N]..",
);

/// The line that tells why a program stops before it is done, without its line end.
#[derive(Debug, Drop)]
pub struct StatusLine {
    program: &'static str,
    reason: &'static str,
}

impl Model for StatusLine {
    ghost use Rattle.std.specs.Prelude.{ℕ, List};
    ghost use Rattle.js_process.specs.Status.{line_of};

    ghost Value = { List ℕ };

    ghost view = { λ line. line_of line.program.now line.reason.now };
}

impl fmt::Display for StatusLine {
    ghost output = { λ line. Some line };

    fn fmt<W: fmt::Write>(&self, f: &mut fmt::Formatter<W>) -> fmt::Result {
        let program = self.program;
        let reason = self.reason;
        write!(f, "{program}: {reason}")
    }
}

/// Writes two texts, one behind the other.
#[tactic(auto, using(crate::proofs::Pieces::begins_with_more, crate::proofs::Pieces::begins_behind))]
fn write_both<E: ByteOut>(first: &str, second: &str, output: &mut E) -> Result<(), WriteFault>
    ensures all { OnOk result (WritesAll (E.state output.old) (E.state output.new) (first.now ++ second.now)) }
    ensures prefix { OnErr result (WritesPrefix (E.state output.old) (E.state output.new) (first.now ++ second.now)) }
    ensures fault { IsErrOf result WriteFault.Failed → Rises (E.state output.old).faults (E.state output.new).faults }
    ensures no_fault { (¬ (IsErrOf result WriteFault.Failed))
        → (E.state output.new).faults ≡ (E.state output.old).faults }
    ensures stays_open { OnOk result (StaysOpen (E.state output.old).course (E.state output.new).course) }
    ensures closes { OnErr result (Closes (E.state output.old).course (E.state output.new).course) }
{
    write_all(output, first.as_bytes())?;
    write_all(output, second.as_bytes())
}

impl StatusLine {
    /// Writes the line and its line end. It asks for no memory, since there may be none.
    pub fn write_to<E: ByteOut>(&self, output: &mut E) -> Result<(), WriteFault>
        ensures all { OnOk result (WritesAll (E.state output.old) (E.state output.new) (self.now ++ codes "\n")) }
        ensures prefix { OnErr result (WritesPrefix (E.state output.old) (E.state output.new)
            (self.now ++ codes "\n")) }
        ensures fault { IsErrOf result WriteFault.Failed
            → Rises (E.state output.old).faults (E.state output.new).faults }
        ensures no_fault { (¬ (IsErrOf result WriteFault.Failed))
            → (E.state output.new).faults ≡ (E.state output.old).faults }
        ensures closes { OnErr result (Closes (E.state output.old).course (E.state output.new).course) }
    {
        write_both(self.program, ": ", output)?;
        write_both(self.reason, "\n", output)
    }
}

/// Why a program with this usage stops with a status. None: it is done, or no program stops with this status.
fn reason(usage: &'static str, status: u8) -> Option<&'static str>
    ensures { option_map (λ text. text.now) result ≡ reason_for usage.now status }
{
    let reason = match status {
        MEMORY => "out of memory",
        USAGE => usage,
        READ_FAILED => "cannot read input",
        WRITE_FAILED => "cannot write output",
        TOO_LONG => "input is longer than 67108864 bytes",
        NOT_UTF8 => "input is not UTF-8",
        NO_MARK => "rewind or commit without a mark",
        DIAGNOSED => "source has diagnostics",
        NO_ARGUMENTS => "cannot read arguments",
        _ => return None,
    };
    Some(reason)
}

/// The line for a status of a program of this name, whose usage is this. None: the program is done, or no program stops
/// with this status.
pub fn line_for(program: &'static str, usage: &'static str, status: u8) -> Option<StatusLine>
    ensures { result ≡ line_for program.now usage.now status }
{
    let reason = reason(usage, status)?;
    Some(StatusLine { program, reason })
}

/// The line for a status of `js_lex`. None: the program is done, or never stops with this status.
pub fn status_line(status: u8) -> Option<StatusLine>
    ensures { result ≡ line_for js_lex js_lex_usage status }
{
    line_for(PROGRAM, USAGE_LINE, status)
}
