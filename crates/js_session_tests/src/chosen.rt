//! Choosers that are told tokens, without a session.

use js_auto::GoalChooser;
use js_kind::{Kind, Token};
use js_session::Command;
use js_text::Span;
use std::alloc::{AllocError, Global};
use std::test::Fail;

const N: Command = Command::Next;

/// A token that a chooser is told, whether it stands in the place of the last one, and the command that comes next.
type Told = (Kind, bool, Option<Command>);

/// What a chooser is told of `` `${{}/b}` `` and of `x=/b/`.
static TOLD: [&[Told]; 2] = [
    &[
        (Kind::TemplateHead, false, Some(N)),
        (Kind::LCurly, false, Some(N)),
        (Kind::RCurly, false, Some(N)),
        (Kind::Slash, false, Some(N)),
        (Kind::Ident, false, Some(N)),
        (Kind::RCurly, false, Some(Command::TemplateTail)),
        (Kind::TemplateTail, true, Some(N)),
        (Kind::Eof, false, None),
    ],
    &[
        (Kind::Ident, false, Some(N)),
        (Kind::Eq, false, Some(N)),
        (Kind::Slash, false, Some(Command::Regex)),
        (Kind::RegExp, true, Some(N)),
        (Kind::Eof, false, None),
    ],
];

/// Tells a chooser a token of the kind, and gives the command that comes next.
fn tell(chooser: &mut GoalChooser, kind: Kind, again: bool) -> Result<Option<Command>, AllocError> {
    let token = Token::new(kind, Span::new(0, 1), false);
    if again {
        chooser.read_again(&token);
    } else {
        chooser.read(&token)?;
    }
    Ok(chooser.command())
}

/// Whether a chooser says what comes next behind each token.
fn chooses(alloc: Global, told: &[Told]) -> Result<bool, AllocError> {
    let mut chooser = GoalChooser::new(alloc);
    let mut right = chooser.command() == Some(N);
    for &(kind, again, command) in told {
        right = right && tell(&mut chooser, kind, again)? == command;
    }
    Ok(right)
}

#[test]
fn choosers_are_told(rt: HostRuntime) -> Result<(), Fail> {
    for told in &TOLD {
        assert!(rt; chooses(rt.alloc(), told)?);
    }
    Ok(())
}
