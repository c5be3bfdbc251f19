//! Rows of an edited text that no old row stands for.

ghost use Rattle.std.specs.Prelude.{◌≡◌, ◌≤◌, ◌<◌, ◌+◌, ◌^◌, ◌++◌, ◌∷◌, [], Bool, List, true, length, IfOk};
ghost use Rattle.js_text.specs.declared.source_type.SourceType.{SourceType};
ghost use Rattle.js_kind.specs.TokenParts.{TokenParts};
ghost use Rattle.js_kind.specs.declared.kind.Kind.TheVariants.{Eof};
ghost use Rattle.js_session.specs.Effects.{effect_of, is_lasting};
ghost use Rattle.js_session.specs.Session.{Begins, MayResume};
ghost use Rattle.js_session.specs.declared.row.Row.{Row};
ghost use Rattle.js_choose.specs.Rules.{with_token};
ghost use Rattle.js_document.specs.declared.gap.Entry.{Entry};
ghost use Rattle.js_document.specs.Gap.{rows_of};
ghost use Rattle.js_document.specs.Reading.{GoesOnFrom, ReadsBehind, ReadsFromStart, StepsChosen, states_of};
ghost use Rattle.js_document.specs.States.{IsLast, Settles};
ghost use Rattle.js_document.specs.Trie.{HasMore};

use crate::gap::Entry;
use crate::join::Joining;
use crate::keep::KeepGoals;
use crate::open::OpenTrie;
use js_kind::{NoTokensLexerConfig, Token};
use js_session::{Command, Effect, Row, RowList, Session, Steps};
use js_text::SourceType;
use std::alloc::{AllocError, Global};
use std::sync::ledger::Ledger;

/// Rows that were read, and how many old rows stand behind the one that the last of them joins. None: none joins.
#[derive(Drop)]
pub(crate) struct ReadRows<K> {
    pub(crate) rows: Vec<Entry<K>>,
    pub(crate) left: Option<usize>,
}

/// The token of the last row.
fn last_token(rows: &[Row]) -> Token
    ensures { (before : List Row) (last : Row) → rows.now ≡ before ++ last ∷ [] → result ≡ last.token }
{
    match rows.last() {
        Some(row) => row.token,
        None => Token::default(),
    }
}

/// What is known behind the row of a command.
fn state_behind<K: KeepGoals>(
    open: &mut OpenTrie,
    state: K,
    last: &Token,
    command: Command,
) -> Result<K, AllocError>
    requires lasting { is_lasting command ≡ true }
    requires known { (tokens : List TokenParts) × K.knows open.old state tokens × IsLast last.now tokens }
    ensures ok { (tokens : List TokenParts) (token : TokenParts) → K.knows open.old state tokens → IsLast last.now tokens
        → Settles (effect_of command) token
        → IfOk result (λ new. K.knows open.new new (with_token (effect_of command) tokens token)) }
    ensures more { HasMore open.old open.new }
{
    match command.effect() {
        Effect::Reads(_) => state.behind(open, last),
        _ => Ok(state.again()),
    }
}

/// Makes the steps that are chosen behind the last token, up to the first whose row joins an old one, and tells how many
/// old rows stand behind that. None: there is no such row, and the text was read to its end.
fn read_on<K: KeepGoals, L: Ledger>(
    session: &mut Session<'_, NoTokensLexerConfig>,
    text: &str,
    open: &mut OpenTrie,
    joining: &Joining<'_, K>,
    states: &mut Vec<K>,
    last: Token,
    state: K,
    steps: &mut Steps<L>,
) -> Result<Option<usize>, AllocError>
    requires goes { (front : List TokenParts) × GoesOnFrom {K = K} K.knows front open.old session.old text.now last state }
    requires fits { length text.now + joining.now.pad < 2 ^ 32 }
    ensures ok { (front : List TokenParts) → GoesOnFrom {K = K} K.knows front open.old session.old text.now last state
        → IfOk result (λ left. StepsChosen {K = K} K.choice K.knows K.alike front open.old open.new
        joining.now session.old session.new states.old.items states.new.items left steps.old steps.new) }
    ensures more { HasMore open.old open.new }
    ensures at_least { steps.old ≤ steps.new }
{
    let mut last = last;
    let mut state = state;
    while let Some(command) = state.command(open, text, &last) {
        session.step(command, steps)?;
        state = state_behind(open, state, &last, command)?;
        states.push(state)?;
        last = last_token(session.rows());
        if let Some(left) = joining.joined_by(open, &last, state) {
            return Ok(Some(left));
        }
    }
    Ok(None)
}

/// The rows, each with what is known behind it.
fn entries_of<K: Copy + Drop>(
    alloc: Global,
    rows: RowList,
    states: &[K],
) -> Result<Vec<Entry<K>>, AllocError>
    requires { length states.now ≡ length rows }
    ensures rows { IfOk result (λ entries. rows_of {K = K} entries.items ≡ rows) }
    ensures states { IfOk result (λ entries. states_of {K = K} entries.items ≡ states.now) }
{
    let mut entries = Vec::with_capacity(alloc, rows.len())?;
    let mut index = 0;
    for row in rows.into_vec() {
        entries.push(Entry {
            row,
            state: states[index],
        })?;
        index += 1;
    }
    Ok(entries)
}

/// The rows that the session read, each with what is known behind it.
fn entries_of_session<K: Copy + Drop>(
    alloc: Global,
    session: Session<'_, NoTokensLexerConfig>,
    states: Vec<K>,
) -> Result<Vec<Entry<K>>, AllocError>
    requires { length states.items ≡ length session.rows }
    ensures rows { IfOk result (λ entries. rows_of {K = K} entries.items ≡ session.entry.rows) }
    ensures states { IfOk result (λ entries. states_of {K = K} entries.items ≡ states.items) }
{
    entries_of(alloc, session.finish().rows, states.as_slice())
}

/// The rows of the text from behind a token, behind which this is known, up to the first that joins an old one.
pub(crate) fn rows_behind<K: KeepGoals, L: Ledger>(
    alloc: Global,
    text: &str,
    source_type: SourceType,
    open: &mut OpenTrie,
    joining: &Joining<'_, K>,
    last: Token,
    state: K,
    steps: &mut Steps<L>,
) -> Result<ReadRows<K>, AllocError>
    requires short { length text.now < 2 ^ 32 }
    requires resumes { MayResume text.now last }
    requires fits { length text.now + joining.now.pad < 2 ^ 32 }
    requires some_text { ¬ (last.kind ≡ Eof) → last.start < last.end }
    requires known { (tokens : List TokenParts) × K.knows open.old state tokens × IsLast last tokens }
    ensures rows { IfOk result (λ r. (tokens : List TokenParts) → K.knows open.old state tokens → IsLast last tokens
        → ReadsBehind {K = K} K.choice K.knows K.alike open.old open.new joining.now text.now source_type tokens
        r.rows.items r.left) }
    ensures ticks { IfOk result (λ r. steps.new ≡ steps.old + length r.rows.items) }
    ensures more { HasMore open.old open.new }
    ensures at_least { steps.old ≤ steps.new }
{
    let mut session = match Session::resume(
        alloc,
        text,
        source_type,
        NoTokensLexerConfig,
        last,
        steps,
    ) {
        Ok(session) => session,
        Err(_) => return Err(AllocError),
    };
    let mut states = Vec::new(alloc);
    let left = read_on(
        &mut session,
        text,
        open,
        joining,
        &mut states,
        last,
        state,
        steps,
    )?;
    let rows = entries_of_session(alloc, session, states)?;
    Ok(ReadRows { rows, left })
}

/// Tests whether the first row joins an old one, and makes the steps that are chosen behind it up to the first whose row
/// does, as `read_on` does.
fn read_from_first<K: KeepGoals, L: Ledger>(
    session: &mut Session<'_, NoTokensLexerConfig>,
    text: &str,
    open: &mut OpenTrie,
    joining: &Joining<'_, K>,
    states: &mut Vec<K>,
    steps: &mut Steps<L>,
) -> Result<Option<usize>, AllocError>
    requires begun { (t : SourceType) × (collects : Bool) × Begins text.now t collects session.old }
    requires fits { length text.now + joining.now.pad < 2 ^ 32 }
    requires none { states.old.items ≡ [] }
    ensures ok { IfOk result (λ left. (t : SourceType) (collects : Bool) (entries : List (Entry K))
        → Begins text.now t collects session.old → rows_of {K = K} entries ≡ session.new.rows
        → states_of {K = K} entries ≡ states.new.items → ReadsFromStart {K = K} K.choice K.knows K.alike open.old open.new
        joining.now text.now t entries left) }
    ensures states { IfOk result (λ left. length states.new.items ≡ length session.new.rows) }
    ensures ticks { IfOk result (λ left. steps.new + 1 ≡ steps.old + length session.new.rows) }
    ensures more { HasMore open.old open.new }
    ensures at_least { steps.old ≤ steps.new }
{
    let first = last_token(session.rows());
    let state = K::first();
    states.push(state)?;
    if let Some(left) = joining.joined_by(open, &first, state) {
        return Ok(Some(left));
    }
    read_on(session, text, open, joining, states, first, state, steps)
}

/// The rows of the text from its start, up to the first that joins an old one.
pub(crate) fn rows_from_start<K: KeepGoals, L: Ledger>(
    alloc: Global,
    text: &str,
    source_type: SourceType,
    open: &mut OpenTrie,
    joining: &Joining<'_, K>,
    steps: &mut Steps<L>,
) -> Result<ReadRows<K>, AllocError>
    requires short { length text.now < 2 ^ 32 }
    requires fits { length text.now + joining.now.pad < 2 ^ 32 }
    ensures rows { IfOk result (λ r. ReadsFromStart {K = K} K.choice K.knows K.alike open.old open.new joining.now
        text.now source_type r.rows.items r.left) }
    ensures ticks { IfOk result (λ r. steps.new ≡ steps.old + length r.rows.items) }
    ensures more { HasMore open.old open.new }
    ensures at_least { steps.old ≤ steps.new }
{
    let mut session = match Session::begin(alloc, text, source_type, NoTokensLexerConfig, steps) {
        Ok(session) => session,
        Err(_) => return Err(AllocError),
    };
    let mut states = Vec::new(alloc);
    let left = read_from_first(&mut session, text, open, joining, &mut states, steps)?;
    let rows = entries_of_session(alloc, session, states)?;
    Ok(ReadRows { rows, left })
}
