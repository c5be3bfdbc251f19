//! A chooser that is told tokens, without a session.

use js_jsx::JsxChooser;
use js_kind::{Kind, Token};
use js_session::Command;
use js_text::Span;
use std::alloc::{AllocError, Global};
use std::test::Fail;

/// A token that a chooser is told, with its end, whether it stands in the place of the last one, and the command that
/// comes next.
type Told = (Kind, u32, bool, Option<Command>);

/// A text, and what a chooser is told of it.
static TOLD: [(&str, &[Told]); 3] = [
    (
        "<a-b c='d'>e</a-b>",
        &[
            (Kind::LAngle, 1, false, Some(Command::Next)),
            (Kind::Ident, 2, false, Some(Command::JsxName)),
            (Kind::Ident, 4, true, Some(Command::Next)),
            (Kind::Ident, 6, false, Some(Command::Next)),
            (Kind::Eq, 7, false, Some(Command::JsxAttr)),
            (Kind::Str, 10, false, Some(Command::Next)),
            (Kind::RAngle, 11, false, Some(Command::JsxChild)),
            (Kind::JSXText, 12, false, Some(Command::JsxChild)),
            (Kind::LAngle, 13, false, Some(Command::Next)),
            (Kind::Slash, 14, false, Some(Command::Next)),
            (Kind::Ident, 15, false, Some(Command::JsxName)),
            (Kind::Ident, 17, true, Some(Command::Next)),
            (Kind::RAngle, 18, false, Some(Command::Next)),
            (Kind::Eof, 18, false, None),
        ],
    ),
    (
        "{<a>}/b/",
        &[
            (Kind::LCurly, 1, false, Some(Command::Next)),
            (Kind::LAngle, 2, false, Some(Command::Next)),
            (Kind::Ident, 3, false, Some(Command::Next)),
            (Kind::RAngle, 4, false, Some(Command::JsxChild)),
            (Kind::Eof, 4, false, Some(Command::Next)),
            (Kind::RCurly, 5, false, Some(Command::Next)),
            (Kind::Slash, 6, false, Some(Command::Next)),
        ],
    ),
    (
        "=/b/",
        &[
            (Kind::Eq, 1, false, Some(Command::Next)),
            (Kind::Slash, 2, false, Some(Command::Regex)),
            (Kind::RegExp, 4, true, Some(Command::Next)),
            (Kind::Eof, 4, false, None),
        ],
    ),
];

/// Tells a chooser a token of the kind that ends there.
fn tell(chooser: &mut JsxChooser, kind: Kind, end: u32, again: bool) -> Result<(), AllocError> {
    let token = Token::new(kind, Span::new(0, end), false);
    if again {
        chooser.read_again(&token);
        return Ok(());
    }
    chooser.read(&token)
}

/// Whether a chooser says what comes next behind each token.
fn chooses(alloc: Global, text: &str, told: &[Told]) -> Result<bool, AllocError> {
    let mut chooser = JsxChooser::new(alloc);
    let mut right = chooser.command(text) == Some(Command::Next);
    for (kind, end, again, command) in told {
        tell(&mut chooser, *kind, *end, *again)?;
        right = right && chooser.command(text) == *command;
    }
    Ok(right)
}

#[test]
fn chooser_without_a_session(rt: HostRuntime) -> Result<(), Fail> {
    for (text, told) in &TOLD {
        assert!(rt; chooses(rt.alloc(), text, told)?);
    }
    Ok(())
}
