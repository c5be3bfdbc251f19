//! Why there is no report, and the tests for it.

ghost use Rattle.std.specs.Prelude.{◌≡◌, ◌+◌, ◌<◌, cond, true, IfOk, IfErr, IfSome, IfNone};
ghost use Rattle.std.specs.Prelude.{MatchOption};
ghost use Rattle.js_session.specs.Effects.{opens_one, closes};
ghost use Rattle.js_session.specs.Faults.{FirstWithoutMark, HasMarks, IsReadable, SourceCause, Cause};

use crate::command::{Command, Effect};

/// Why a session gives no report, in the order in which it is tested.
#[derive(Clone, Copy, PartialEq, Eq, Debug)]
pub enum LexFault {
    /// The source has more than `u32::MAX` bytes.
    Overlong,
    /// The source is not UTF-8. Its longest beginning that is has so many bytes.
    NotUtf8(u32),
    /// The command at this index, from 0, closes a mark where none is open.
    NoMark(usize),
    Memory,
}

/// How many marks are open after a command, where so many were before it. None where there is none to close.
fn marks_after(marks: usize, command: Command) -> Option<usize>
    requires { marks < usize.MAX }
    ensures none { IfNone result ((marks ≡ 0) × (closes command ≡ true)) }
    ensures some { IfSome result (λ n. n + cond (closes command) 1 0 ≡ marks + cond (opens_one command) 1 0) }
    ensures can_close { IfSome result (λ _. closes command ≡ true → 0 < marks) }
{
    match command.effect() {
        Effect::Opens => Some(marks + 1),
        Effect::Rewinds | Effect::Commits => marks.checked_sub(1),
        _ => Some(marks),
    }
}

/// The first command that closes a mark where none is open.
fn first_without_mark(commands: &[Command]) -> Option<usize>
    ensures { MatchOption result (HasMarks commands.now) (FirstWithoutMark commands.now) }
{
    let mut marks = 0;
    for index in 0..commands.len() {
        match marks_after(marks, commands[index]) {
            Some(now) => marks = now,
            None => return Some(index),
        }
    }
    None
}

/// The source as a text that can be read, or why it is none: `Overlong` or `NotUtf8`.
pub fn utf8_text(source: &[u8]) -> Result<&str, LexFault>
    ensures ok { IfOk result (λ text. (text.now ≡ source.now) × IsReadable source.now) }
    ensures err { IfErr result (SourceCause source.now) }
{
    if source.len() > u32::MAX as usize {
        return Err(LexFault::Overlong);
    }
    match str::from_utf8(source) {
        Ok(text) => Ok(text),
        Err(error) => Err(LexFault::NotUtf8(error.valid_up_to() as u32)),
    }
}

/// The source as a text, where nothing but a lack of memory can keep it from being read by the commands; else the first
/// fault, of the source and then of the commands.
pub fn checked_text<'a>(source: &'a [u8], commands: &[Command]) -> Result<&'a str, LexFault>
    ensures ok { IfOk result (λ text. (text.now ≡ source.now) × IsReadable source.now × HasMarks commands.now) }
    ensures err { IfErr result (Cause source.now commands.now) }
{
    let text = utf8_text(source)?;
    match first_without_mark(commands) {
        Some(index) => Err(LexFault::NoMark(index)),
        None => Ok(text),
    }
}
