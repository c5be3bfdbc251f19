//! Sessions that are driven by hand: at each configuration, by the laws of sessions, and from behind a token.

ghost use Rattle.std.specs.Prelude.{◌≡◌, ◌<◌};

use crate::driven::driven;
use js_grammar::is_re_lexed;
use js_kind::{
    Kind, LexerConfig, NoTokensLexerConfig, RuntimeLexerConfig, Token, TokensLexerConfig,
};
use js_session::{Command, Report, Session, Steps};
use js_text::{SourceType, Span};
use std::alloc::{AllocError, Global};
use std::marker::Brand;
use std::sync::ledger::{Blank, Ledger};
use std::test::Fail;

/// What is done with a session, and what it is to tell.
#[derive(Clone, Copy)]
enum Step {
    Next,
    /// A mark is opened, in a place that is reserved. How many places are free then.
    Mark(usize),
    /// The last mark is gone back to. How many places are free then.
    Rewind(usize),
    /// The last mark is closed. How many places are free then.
    Commit(usize),
}

/// Opens a mark, and gives how many places are free then.
fn mark<C: LexerConfig + Drop>(session: &mut Session<'_, C>) -> Result<usize, AllocError> {
    session.reserve_marks(1)?;
    session.mark();
    Ok(session.spare_marks())
}

/// Closes the last mark, if one is open, and gives how many places are free then.
fn close<C: LexerConfig + Drop>(session: &mut Session<'_, C>, goes_back: bool) -> Option<usize> {
    if session.marks() == 0 {
        return None;
    }
    if goes_back {
        session.rewind();
    } else {
        session.commit();
    }
    Some(session.spare_marks())
}

/// Takes a step, and gives whether the session tells what it is to tell.
fn take_step<L: Ledger, C: LexerConfig + Drop>(
    session: &mut Session<'_, C>,
    step: Step,
    steps: &mut Steps<L>,
) -> Result<bool, AllocError> {
    match step {
        Step::Next => {
            session.step(Command::Next, steps)?;
            Ok(true)
        }
        Step::Mark(free) => Ok(mark(session)? == free),
        Step::Rewind(free) => Ok(close(session, true) == Some(free)),
        Step::Commit(free) => Ok(close(session, false) == Some(free)),
    }
}

/// Takes steps up to the first that does not tell what it is to tell, and gives whether all do.
fn take_steps<L: Ledger, C: LexerConfig + Drop>(
    session: &mut Session<'_, C>,
    script: &[Step],
    steps: &mut Steps<L>,
) -> Result<bool, AllocError> {
    for step in script {
        if !take_step(session, *step, steps)? {
            return Ok(false);
        }
    }
    Ok(true)
}

/// The report of a session behind steps. None where one does not tell what it is to tell, or there was not enough
/// memory.
fn finished<L: Ledger, C: LexerConfig + Drop>(
    session: Session<'_, C>,
    script: &[Step],
    steps: &mut Steps<L>,
) -> Option<Report> {
    let mut session = session;
    match take_steps(&mut session, script, steps) {
        Ok(true) => Some(session.finish()),
        _ => None,
    }
}

/// The same of a session at the start of a text.
fn begun<L: Ledger, C: LexerConfig + Drop>(
    alloc: Global,
    text: &str,
    config: C,
    script: &[Step],
    steps: &mut Steps<L>,
) -> Option<Report> {
    match Session::begin(alloc, text, SourceType::Script, config, steps) {
        Ok(session) => finished(session, script, steps),
        Err(_) => None,
    }
}

/// The same of a session behind a name of one character. None too where the text does not begin with one.
fn resumed<L: Ledger>(
    alloc: Global,
    text: &str,
    script: &[Step],
    steps: &mut Steps<L>,
) -> Option<Report> {
    if !text.is_char_boundary(0) || !text.is_char_boundary(1) {
        return None;
    }
    let token = Token::new(Kind::Ident, Span { start: 0, end: 1 }, true);
    // A name is not read again, so no clause asks for its spelling.
    if is_re_lexed(token.kind()) {
        return None;
    }
    let t = SourceType::Script;
    match Session::resume(alloc, text, t, NoTokensLexerConfig, token, steps) {
        Ok(session) => finished(session, script, steps),
        Err(_) => None,
    }
}

/// Who drives a session over `a b`.
#[derive(Clone, Copy)]
enum Driver {
    /// Steps are taken from the start, where no tokens are collected.
    NoTokens(&'static [Step]),
    /// The same, where tokens are collected.
    Tokens(&'static [Step]),
    /// The same, where the configuration says so when the program runs.
    TokensAtRunTime(&'static [Step]),
    /// Steps are taken from behind the first token.
    Behind(&'static [Step]),
    /// A step is taken back and another is peeked at, as the laws of sessions tell it.
    Laws,
}

/// The report of a session that is driven so.
fn report<L: Ledger>(alloc: Global, driver: Driver, steps: &mut Steps<L>) -> Option<Report> {
    let text = "a b";
    match driver {
        Driver::NoTokens(script) => begun(alloc, text, NoTokensLexerConfig, script, steps),
        Driver::Tokens(script) => begun(alloc, text, TokensLexerConfig, script, steps),
        Driver::TokensAtRunTime(script) => {
            begun(alloc, text, RuntimeLexerConfig::new(true), script, steps)
        }
        Driver::Behind(script) => resumed(alloc, text, script, steps),
        Driver::Laws => driven(alloc, text, steps).ok(),
    }
}

const A: Span = Span { start: 0, end: 1 };

const B: Span = Span { start: 2, end: 3 };

/// A step that is taken back, and one that stays behind a mark that is closed.
const BACK_AND_ON: &[Step] = &[
    Step::Mark(0),
    Step::Next,
    Step::Rewind(1),
    Step::Mark(0),
    Step::Commit(1),
    Step::Next,
];

/// Who drives a session, how many rows it has then, and where its names stand that are live, and those collected.
struct Case {
    driver: Driver,
    rows: usize,
    tokens: &'static [Span],
    collected: &'static [Span],
}

static CASES: [Case; 5] = [
    Case {
        driver: Driver::NoTokens(BACK_AND_ON),
        rows: 3,
        tokens: &[A, B],
        collected: &[],
    },
    Case {
        driver: Driver::Tokens(BACK_AND_ON),
        rows: 3,
        tokens: &[A, B],
        collected: &[A, B],
    },
    Case {
        driver: Driver::TokensAtRunTime(BACK_AND_ON),
        rows: 3,
        tokens: &[A, B],
        collected: &[A, B],
    },
    Case {
        driver: Driver::Behind(&[Step::Next]),
        rows: 1,
        tokens: &[A, B],
        collected: &[],
    },
    Case {
        driver: Driver::Laws,
        rows: 3,
        tokens: &[A],
        collected: &[],
    },
];

fn are_names(tokens: &[Token], spans: &[Span]) -> bool {
    let mut same = tokens.len() == spans.len();
    for (token, span) in tokens.iter().zip(spans) {
        same = same && token.kind().is_same(Kind::Ident) && token.span() == *span;
    }
    same
}

/// Whether the case says what the report has.
fn is_report(case: &Case, report: &Report) -> bool {
    report.rows.len() == case.rows
        && are_names(report.tokens.as_slice(), case.tokens)
        && are_names(report.collected.as_slice(), case.collected)
}

/// Whether the case says what the report has, and what a copy of it has.
fn is_right(alloc: Global, case: &Case, report: &Report) -> Result<bool, AllocError> {
    let copy = report.copy(alloc)?;
    Ok(is_report(case, &copy) && is_report(case, report))
}

/// Whether a session that is driven so has the report that the case says.
fn play<L: Ledger>(alloc: Global, case: &Case, blank: Blank) -> Result<bool, AllocError>
    requires name { blank.name ≡ L.name }
    requires parts { blank.parts ≡ L.parts }
    requires some_part { 0 < L.parts }
{
    let mut steps = Steps::<L>::new(blank);
    match report(alloc, case.driver, &mut steps) {
        Some(report) => is_right(alloc, case, &report),
        None => Ok(false),
    }
}

#[test]
fn cases(rt: HostRuntime) -> Result<(), Fail> {
    for (index, case) in CASES.iter().enumerate() {
        assert!(rt;
            play::<Brand>(rt.alloc(), case, Blank::new(1))?,
            "case {index}"
        );
    }
    Ok(())
}
