//! Sessions over a whole source.

ghost use Rattle.std.specs.Prelude.{◌≡◌, ◌≢◌, ◌<◌, ◌≤◌, ◌^◌, ◌⊎◌, ◌↔◌, ℕ, List, [], ◌∷◌, ◌++◌, length};
ghost use Rattle.std.specs.Prelude.{IfOk, OnOk, IfErr, IsOk, IsTrue};
ghost use Rattle.std.specs.List.{AllByRecursion};
ghost use Rattle.std.specs.Str.{IsUtf8};
ghost use Rattle.js_session.specs.Faults.{IsReadable, SourceCause};
ghost use Rattle.js_session.specs.Report.{IsSliceOnPlaces};
ghost use Rattle.js_session.specs.Session.{Begins, report_of};
ghost use Rattle.js_session.specs.WholeSource.{IsEof, ReportOfWhole};
ghost use Rattle.js_session.specs.declared.fault.LexFault.{LexFault};
ghost use Rattle.js_session.specs.declared.row.Row.{Row};

use crate::command::Command;
use crate::fault::{LexFault, utf8_text};
use crate::report::Report;
use crate::row::Row;
use crate::session::Session;
use crate::steps::Steps;
use js_kind::{Kind, LexerConfig, RuntimeLexerConfig};
use js_text::SourceType;
use std::alloc::{AllocError, Global};
use std::marker::Brand;
use std::sync::ledger::{Blank, Ledger};

/// Whether the last row is the end of the source.
fn ends_with_eof(rows: &[Row]) -> bool
    ensures { (before : List Row) (last : Row) → rows.now ≡ before ++ last ∷ [] → IsTrue result ↔ IsEof last }
{
    match rows.last() {
        Some(row) => row.token.kind().is_same(Kind::Eof),
        None => false,
    }
}

/// The steps to the end of the text behind the first one, and how many they are.
fn step_to_end<C: LexerConfig + Drop, L: Ledger>(
    session: &mut Session<'_, C>,
    steps: &mut Steps<L>,
) -> Result<u64, AllocError>
    requires utf8 { IsUtf8 session.old.text }
    requires short { length session.old.text < 2 ^ 32 }
    requires begun { Begins session.old.text session.old.source_type session.old.collects session.old }
    ensures report { IfOk result (λ count. ReportOfWhole session.old.text session.old.source_type session.old.collects
        count (report_of session.new)) }
    ensures few { IfOk result (λ count. count ≤ length session.old.text) }
{
    let mut count: u64 = 0;
    while !ends_with_eof(session.rows()) {
        session.step(Command::Next, steps)?;
        count += 1;
    }
    Ok(count)
}

/// How many steps lead to the end of a source, which is tested first, and the report of so many, over a counter that
/// nobody reads.
fn lex_all_uncounted<L: Ledger>(
    alloc: Global,
    source: &[u8],
    source_type: SourceType,
    tokens: bool,
    blank: Blank,
) -> Result<(u64, Report), LexFault>
    requires name { blank.name ≡ L.name }
    requires parts { blank.parts ≡ L.parts }
    requires some_part { 0 < L.parts }
    ensures report { IfOk result (λ whole. ReportOfWhole source.now source_type tokens whole.0 whole.1) }
    ensures few { IfOk result (λ whole. whole.0 ≤ length source.now) }
    ensures ok { OnOk result (IsReadable source.now) }
    ensures cause { IfErr result (λ fault. (fault ≡ LexFault.Memory) ⊎ SourceCause source.now fault) }
{
    let text = utf8_text(source)?;
    let config = RuntimeLexerConfig::new(tokens);
    let mut steps = Steps::<L>::new(blank);
    let mut session = match Session::begin(alloc, text, source_type, config, &mut steps) {
        Ok(session) => session,
        Err(_) => return Err(LexFault::Memory),
    };
    match step_to_end(&mut session, &mut steps) {
        Ok(count) => Ok((count, session.finish())),
        Err(_) => Err(LexFault::Memory),
    }
}

/// The least number of `Command::Next` after which the last row is `Kind::Eof`, and the report of so many. Each token
/// before the end takes a byte at least, so there are no more than the source has bytes.
///
/// Its faults are those of the source, which come as in `lex_session`: `Overlong`, `NotUtf8` and `Memory`.
pub fn lex_all(
    alloc: Global,
    source: &[u8],
    source_type: SourceType,
    tokens: bool,
) -> Result<(u64, Report), LexFault>
    ensures report { IfOk result (λ whole. ReportOfWhole source.now source_type tokens whole.0 whole.1) }
    ensures few { IfOk result (λ whole. whole.0 ≤ length source.now) }
    ensures slices { IfOk result (λ whole. AllByRecursion (λ row. IsSliceOnPlaces source.now row.value) whole.1.rows) }
    ensures ok { OnOk result (IsReadable source.now) }
    // Each fault comes for its cause alone, and where its cause is there, nothing but a lack of memory comes in its
    // place.
    ensures cause { IfErr result (λ fault. (fault ≡ LexFault.Memory) ⊎ SourceCause source.now fault) }
    ensures exact { (fault : LexFault) → SourceCause source.now fault
        → (result ≡ Err fault) ⊎ (result ≡ Err LexFault.Memory) }
    ensures complete { IsReadable source.now → IsOk result ⊎ (result ≡ Err LexFault.Memory) }
    // There is no list of commands that could close a mark too many.
    ensures no_mark { (index : ℕ) → result ≢ Err (LexFault.NoMark index) }
{
    lex_all_uncounted::<Brand>(alloc, source, source_type, tokens, Blank::new(1))
}
