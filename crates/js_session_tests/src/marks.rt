//! A session with more marks than a run's words would open.

use js_session::{Command, lex_session};
use js_text::SourceType;
use std::alloc::{AllocError, Global};
use std::test::Fail;

/// So many times a command, behind the commands that are there.
fn add_times(commands: &mut Vec<Command>, command: Command, times: u32) -> Result<(), AllocError> {
    for _ in 0..times {
        commands.push(command)?;
    }
    Ok(())
}

/// How many rows and how many live tokens a hundred `(` have.
fn counts(alloc: Global, commands: &[Command]) -> Option<(usize, usize)> {
    match lex_session(alloc, &[b'('; 100], SourceType::Script, false, commands) {
        Ok(report) => Some((report.rows.len(), report.tokens.len())),
        Err(_) => None,
    }
}

#[test]
fn many_marks(rt: HostRuntime) -> Result<(), Fail> {
    let mut commands = Vec::new(rt.alloc());
    add_times(&mut commands, Command::Next, 99)?;
    add_times(&mut commands, Command::Mark, 100_000)?;
    add_times(&mut commands, Command::Rewind, 100_000)?;
    assert_eq!(rt; counts(rt.alloc(), commands.as_slice()), Some((100, 100)));
    Ok(())
}
