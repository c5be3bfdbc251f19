//! Sessions whose goals are chosen.

ghost use Rattle.std.specs.Prelude.{◌≡◌, ◌<◌, ◌^◌, ◌⊎◌, List, [], ◌∷◌, ◌++◌, length, Some, IfOk, OnOk, IfErr, IsOk};
ghost use Rattle.std.specs.List.{AllByRecursion, last_or};
ghost use Rattle.std.specs.Str.{IsUtf8};
ghost use Rattle.js_kind.specs.TokenParts.{TokenParts};
ghost use Rattle.js_lexer.specs.Lexer.{IsOnPlaces};
ghost use Rattle.js_session.specs.Effects.{effect_of};
ghost use Rattle.js_session.specs.Faults.{IsReadable};
ghost use Rattle.js_session.specs.Report.{IsSliceOnPlaces};
ghost use Rattle.js_session.specs.Session.{AddsRow, Begins, report_of};
ghost use Rattle.js_session.specs.declared.row.Row.{Row};
ghost use Rattle.js_choose.specs.Faults.{ChoiceCause};
ghost use Rattle.js_choose.specs.Rules.{ReportBy, with_token};
ghost use Rattle.js_choose.specs.declared.fault.ChoiceFault.{ChoiceFault};

use crate::choose::ChooseGoals;
use crate::fault::{ChoiceFault, fault_of};
use js_kind::{LexerConfig, RuntimeLexerConfig, Token};
use js_session::{Command, CommandList, Effect, Report, Row, Session, Steps, utf8_text};
use js_text::SourceType;
use std::alloc::{AllocError, Global};
use std::marker::Brand;
use std::sync::ledger::{Blank, Ledger};

/// What a session gave whose goals were chosen.
#[derive(Drop)]
pub struct Chosen {
    /// The commands that were chosen, one for each step behind the first.
    pub commands: CommandList,
    /// The report of a session with these commands.
    pub report: Report,
}

/// The token of the last row.
fn last_token(rows: &[Row]) -> Token
    ensures { (before : List Row) (last : Row) → rows.now ≡ before ++ last ∷ [] → result ≡ last.token }
{
    match rows.last() {
        Some(row) => row.token,
        None => Token::default(),
    }
}

/// Takes notice of a token that a command read: of one more, or of one in the place of the last one. A command that
/// changes no token tells nothing.
fn tell<G: ChooseGoals>(chooser: &mut G, command: Command, token: &Token) -> Result<(), AllocError>
    ensures { (tokens : List TokenParts) → G.is_told chooser.old tokens
        → OnOk result (G.is_told chooser.new (with_token (effect_of command) tokens token.now)) }
{
    match command.effect() {
        Effect::Reads(_) => {
            chooser.pass()?;
            chooser.read_passed(token);
        }
        Effect::ReLexes(_) => chooser.read_again(token),
        Effect::Peeks(_) | Effect::Opens | Effect::Rewinds | Effect::Commits => {}
    }
    Ok(())
}

/// Makes the step that is chosen, and tells its token.
fn make_step<C: LexerConfig + Drop, G: ChooseGoals, L: Ledger>(
    session: &mut Session<'_, C>,
    chooser: &mut G,
    command: Command,
    steps: &mut Steps<L>,
) -> Result<(), AllocError>
    requires utf8 { IsUtf8 session.old.text }
    requires lies { (last : TokenParts) → last_or None session.old.state.now.tokens ≡ Some last
        → IsOnPlaces session.old.text last }
    requires told { G.is_told chooser.old session.old.state.now.tokens }
    requires chosen { G.choice session.old.text session.old.state.now.tokens ≡ Some command }
    ensures row { OnOk result (AddsRow command session.old session.new) }
    ensures told { OnOk result (G.is_told chooser.new session.new.state.now.tokens) }
{
    session.step(command, steps)?;
    let token = last_token(session.rows());
    tell(chooser, command, &token)
}

/// Makes the steps that are chosen behind the first one, up to the end of the text, and gives their commands.
fn choose_all<C: LexerConfig + Drop, G: ChooseGoals, L: Ledger>(
    alloc: Global,
    text: &str,
    session: &mut Session<'_, C>,
    steps: &mut Steps<L>,
) -> Result<CommandList, AllocError>
    requires text_is { session.old.text ≡ text.now }
    requires utf8 { IsUtf8 text.now }
    requires short { length text.now < 2 ^ 32 }
    requires begun { Begins session.old.text session.old.source_type session.old.collects session.old }
    ensures { IfOk result (λ commands. ReportBy G.choice text.now session.old.source_type session.old.collects
        commands (report_of session.new)) }
{
    let mut chooser = G::new(alloc);
    chooser.pass()?;
    chooser.read_passed(&last_token(session.rows()));
    let mut commands = CommandList::new_in(alloc);
    while let Some(command) = chooser.command(text) {
        make_step(session, &mut chooser, command, steps)?;
        commands.push(command)?;
    }
    Ok(commands)
}

/// The commands that are chosen for a source, which is tested first, and the report of a session with them, over a
/// counter that nobody reads.
fn choose_uncounted<G: ChooseGoals, L: Ledger>(
    alloc: Global,
    source: &[u8],
    source_type: SourceType,
    tokens: bool,
    blank: Blank,
) -> Result<Chosen, ChoiceFault>
    requires name { blank.name ≡ L.name }
    requires parts { blank.parts ≡ L.parts }
    requires some_part { 0 < L.parts }
    ensures report { IfOk result (λ chosen.
        ReportBy G.choice source.now source_type tokens chosen.commands chosen.report) }
    ensures ok { OnOk result (IsReadable source.now) }
    ensures cause { IfErr result (λ fault. (fault ≡ ChoiceFault.Memory) ⊎ ChoiceCause source.now fault) }
{
    let text = match utf8_text(source) {
        Ok(text) => text,
        Err(fault) => return Err(fault_of(fault)),
    };
    let config = RuntimeLexerConfig::new(tokens);
    let mut steps = Steps::<L>::new(blank);
    let mut session = match Session::begin(alloc, text, source_type, config, &mut steps) {
        Ok(session) => session,
        Err(_) => return Err(ChoiceFault::Memory),
    };
    match choose_all::<RuntimeLexerConfig, G, L>(alloc, text, &mut session, &mut steps) {
        Ok(commands) => Ok(Chosen {
            commands,
            report: session.finish(),
        }),
        Err(_) => Err(ChoiceFault::Memory),
    }
}

/// The report of a session over a source whose goals are chosen by the rule of a chooser, and the commands that were
/// chosen: each by the text and the tokens that are live before it, up to the end. There is one such list of commands
/// for a source.
pub fn choose_session<G: ChooseGoals>(
    alloc: Global,
    source: &[u8],
    source_type: SourceType,
    tokens: bool,
) -> Result<Chosen, ChoiceFault>
    ensures report { IfOk result (λ chosen.
        ReportBy G.choice source.now source_type tokens chosen.commands chosen.report) }
    ensures slices { IfOk result (λ chosen.
        AllByRecursion (λ row. IsSliceOnPlaces source.now row.value) chosen.report.rows) }
    ensures ok { OnOk result (IsReadable source.now) }
    // Each fault comes for its cause alone, and where its cause is there, nothing but a lack of memory comes in its
    // place.
    ensures cause { IfErr result (λ fault. (fault ≡ ChoiceFault.Memory) ⊎ ChoiceCause source.now fault) }
    ensures exact { (fault : ChoiceFault) → ChoiceCause source.now fault
        → (result ≡ Err fault) ⊎ (result ≡ Err ChoiceFault.Memory) }
    ensures complete { IsReadable source.now → IsOk result ⊎ (result ≡ Err ChoiceFault.Memory) }
{
    choose_uncounted::<G, Brand>(alloc, source, source_type, tokens, Blank::new(1))
}
