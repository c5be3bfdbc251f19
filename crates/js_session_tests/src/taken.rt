//! Takers: what is handed to them, and one that fails.

ghost use Rattle.std.specs.Prelude.{⊤};

use js_auto::GoalChooser;
use js_kind::Token;
use js_lexer::Findings;
use js_lists::{TakeTokens, TokenValue, read_chosen, read_steps};
use js_session::{Command, LexFault, RegexInfo};
use js_text::SourceType;
use std::alloc::{AllocError, Global};

/// Counts what it is handed, and has no memory behind so many tokens.
#[derive(Drop)]
struct Counter {
    tokens: u32,
    most: u32,
    ends: u32,
}

impl TakeTokens for Counter {
    ghost takes = { λ _ _ _. ⊤ };

    ghost ends = { λ _ _ _. ⊤ };

    ghost breaks_off = { λ _ _. ⊤ };

    fn take(
        &mut self,
        _: &Token,
        _: TokenValue<'_>,
        _: Option<RegexInfo>,
    ) -> Result<(), AllocError> {
        if self.tokens == self.most {
            return Err(AllocError);
        }
        self.tokens = self.tokens.saturating_add(1);
        Ok(())
    }

    fn end(&mut self, _: Findings) -> Result<(), AllocError> {
        self.ends = self.ends.saturating_add(1);
        Ok(())
    }
}

/// Reads a source by commands; where there are none, its goals are chosen.
fn read(
    alloc: Global,
    source: &[u8],
    commands: &[Command],
    taker: &mut Counter,
) -> Result<(), LexFault> {
    let t = SourceType::Module;
    if !commands.is_empty() {
        return read_steps(alloc, source, t, commands, taker);
    }
    match read_chosen::<GoalChooser, Counter>(alloc, source, t, taker) {
        Ok(()) => Ok(()),
        Err(fault) => Err(fault.as_lex_fault()),
    }
}

/// A source, the commands that it is read by, and how many tokens find memory; what comes of it, how many tokens are
/// taken then, and how often the end.
static READINGS: [(&[u8], &[Command], u32, Result<(), LexFault>, u32, u32); 6] = [
    (b"`a${x=/b/g}c`", &[], 9, Ok(()), 6, 1),
    (b"`a${x=/b/g}c`", &[], 4, Err(LexFault::Memory), 4, 0),
    (
        b"a b",
        &[
            Command::Mark,
            Command::Next,
            Command::Rewind,
            Command::Peek,
            Command::Next,
        ],
        9,
        Ok(()),
        2,
        1,
    ),
    // A fault comes before anything is taken.
    (
        b"a b",
        &[Command::Next, Command::Commit],
        9,
        Err(LexFault::NoMark(1)),
        0,
        0,
    ),
    // A mark is closed twice: the first time it was open.
    (
        b"a b c",
        &[
            Command::Next,
            Command::Mark,
            Command::Next,
            Command::Commit,
            Command::Rewind,
        ],
        9,
        Err(LexFault::NoMark(4)),
        0,
        0,
    ),
    // What waits behind a mark finds no memory.
    (
        b"a b c",
        &[
            Command::Mark,
            Command::Next,
            Command::Next,
            Command::Commit,
            Command::Next,
        ],
        2,
        Err(LexFault::Memory),
        2,
        0,
    ),
];

#[test]
fn readings(rt: HostRuntime) {
    for &(source, commands, most, wanted, tokens, ends) in &READINGS {
        let mut taker = Counter {
            tokens: 0,
            most,
            ends: 0,
        };
        let answer = read(rt.alloc(), source, commands, &mut taker);
        assert_eq!(rt;
            (answer, taker.tokens, taker.ends),
            (wanted, tokens, ends),
            "{source:?}"
        );
    }
}
