//! Edits that are made one behind the other, and what is wrong of a document then.

ghost use Rattle.std.specs.Prelude.{◌≡◌, ◌<◌};
ghost use Rattle.std.specs.List.{AllByRecursion};
ghost use Rattle.js_session.specs.Report.{IsSliceOnPlaces};

use crate::case::{Case, Rule, first_case, first_edit};
use crate::change::is_change;
use crate::told::Told;
use js_auto::auto_session;
use js_document::{AutoState, Document, DocumentFault, Edit, JsxState, KeepGoals};
use js_jsx::jsx_session;
use js_kind::{Token, TokenList};
use js_lex_tool::report_text;
use js_session::{Report, Steps};
use js_text::SourceType;
use std::alloc::{AllocError, Global};
use std::marker::Brand;
use std::sync::ledger::{Blank, Ledger};

/// A rule of goals, and a session by it.
trait LexAnew: KeepGoals {
    /// The report of a session over a text, in words.
    fn report_anew(
        alloc: Global,
        text: &str,
        source_type: SourceType,
    ) -> Result<String, AllocError>;
}

impl LexAnew for AutoState {
    fn report_anew(
        alloc: Global,
        text: &str,
        source_type: SourceType,
    ) -> Result<String, AllocError> {
        match auto_session(alloc, text.as_bytes(), source_type, false) {
            Ok(auto) => report_text(alloc, text, &auto.report),
            // the text is UTF-8, and short enough
            Err(_) => Err(AllocError),
        }
    }
}

impl LexAnew for JsxState {
    fn report_anew(
        alloc: Global,
        text: &str,
        source_type: SourceType,
    ) -> Result<String, AllocError> {
        match jsx_session(alloc, text.as_bytes(), source_type, false) {
            Ok(jsx) => report_text(alloc, text, &jsx.report),
            // the text is UTF-8, and short enough
            Err(_) => Err(AllocError),
        }
    }
}

/// The live tokens.
fn tokens_of<K: LexAnew>(alloc: Global, document: &Document<K>) -> Result<TokenList, AllocError> {
    let mut tokens = TokenList::new_in(alloc);
    for token in document.tokens() {
        tokens.push(token)?;
    }
    Ok(tokens)
}

/// Whether the document gives the tokens of the report, and counts what it has.
fn has_tokens_of<K: LexAnew>(
    alloc: Global,
    document: &Document<K>,
    report: &Report,
) -> Result<bool, AllocError> {
    let tokens = tokens_of(alloc, document)?;
    Ok(
        tokens.as_slice() == report.tokens.as_slice()
            && tokens.len() == document.token_count()
            && report.rows.len() == document.row_count(),
    )
}

/// Whether the words are those of a session over the text of the document.
fn are_words_anew<K: LexAnew>(
    alloc: Global,
    document: &Document<K>,
    words: &str,
) -> Result<bool, AllocError> {
    let anew = K::report_anew(alloc, document.text(), document.source_type())?;
    Ok(words == anew.as_str())
}

/// Whether the report of the document, in words, is that of a session over its text.
fn is_made_anew<K: LexAnew>(
    alloc: Global,
    document: &Document<K>,
    report: &Report,
) -> Result<bool, AllocError>
    requires { AllByRecursion (λ row. IsSliceOnPlaces document.now.text row.value) report.now.rows }
{
    let words = report_text(alloc, document.text(), report)?;
    are_words_anew(alloc, document, words.as_str())
}

/// Whether the document has the report of a session over its text, and gives the tokens of that.
fn is_right<K: LexAnew>(alloc: Global, document: &Document<K>) -> Result<bool, AllocError> {
    let report = document.report(alloc)?;
    match is_made_anew(alloc, document, &report) {
        Ok(true) => has_tokens_of(alloc, document, &report),
        other => other,
    }
}

/// Whether the edit is one of the text.
fn is_edit(edit: &Edit<'_>, text: &str) -> bool {
    edit.start <= edit.end
        && text.is_char_boundary(edit.start as usize)
        && text.is_char_boundary(edit.end as usize)
}

/// Makes an edit. False: there is no document of it.
fn is_made<K: LexAnew, L: Ledger>(
    alloc: Global,
    document: &mut Document<K>,
    edit: &Edit<'_>,
    steps: &mut Steps<L>,
) -> Result<bool, AllocError> {
    match document.edit(alloc, edit, steps) {
        Ok(()) => Ok(true),
        Err(DocumentFault::Memory) => Err(AllocError),
        Err(DocumentFault::BadEdit | DocumentFault::Overlong) => Ok(false),
    }
}

/// Tells what the edit with this number, which was made of these tokens, changed.
fn tell_change<K: LexAnew>(
    alloc: Global,
    document: &Document<K>,
    number: u32,
    edit: &Edit<'_>,
    old: &[Token],
    told: &mut Told,
) -> Result<(), AllocError> {
    let change = document.changed();
    let new = tokens_of(alloc, document)?;
    if !is_change(&change, edit, old, new.as_slice()) {
        told.add(number, "another change")?;
    }
    told.add_change(number, &change)
}

/// Makes the edit with this number of a document that has these tokens, and tells what it changed, and what is wrong
/// then.
fn make_of<K: LexAnew, L: Ledger>(
    alloc: Global,
    document: &mut Document<K>,
    number: u32,
    edit: &Edit<'_>,
    old: &[Token],
    told: &mut Told,
    steps: &mut Steps<L>,
) -> Result<(), AllocError> {
    let may = is_edit(edit, document.text());
    let made = is_made(alloc, document, edit, steps)?;
    if made != may {
        told.add(number, "another answer")?;
    }
    if !is_right(alloc, document)? {
        told.add(number, "another report")?;
    }
    if made {
        tell_change(alloc, document, number, edit, old, told)?;
    }
    Ok(())
}

/// Makes the edit with this number, and tells what it changed, and what is wrong then.
fn make<K: LexAnew, L: Ledger>(
    alloc: Global,
    document: &mut Document<K>,
    number: u32,
    edit: &Edit<'_>,
    told: &mut Told,
    steps: &mut Steps<L>,
) -> Result<(), AllocError> {
    let old = tokens_of(alloc, document)?;
    make_of(alloc, document, number, edit, old.as_slice(), told, steps)
}

/// Makes so many edits, which the input begins with, and gives what stands behind them. None: one cannot be read, which
/// is told.
fn make_all<'t, K: LexAnew, L: Ledger>(
    alloc: Global,
    document: &mut Document<K>,
    count: u32,
    input: &'t str,
    told: &mut Told,
    steps: &mut Steps<L>,
) -> Result<Option<&'t str>, AllocError> {
    let mut left = input;
    for number in 0..count {
        match first_edit(left) {
            Ok((edit, rest)) => {
                make(alloc, document, number, &edit, told, steps)?;
                left = rest;
            }
            Err(fault) => {
                told.add(number, fault.name())?;
                return Ok(None);
            }
        }
    }
    Ok(Some(left))
}

/// Makes the edits of a case by a rule, and gives what stands behind them.
fn replay_by<'t, K: LexAnew, L: Ledger>(
    alloc: Global,
    case: &Case<'_>,
    input: &'t str,
    told: &mut Told,
    steps: &mut Steps<L>,
) -> Result<Option<&'t str>, AllocError> {
    match Document::<K>::new(alloc, case.text, case.source_type, steps) {
        Ok(mut document) => make_all(alloc, &mut document, case.edits, input, told, steps),
        // the text is short enough
        Err(_) => Err(AllocError),
    }
}

/// Makes the edits of a case, and gives what stands behind them.
fn replay<'t, L: Ledger>(
    alloc: Global,
    case: &Case<'_>,
    input: &'t str,
    told: &mut Told,
    steps: &mut Steps<L>,
) -> Result<Option<&'t str>, AllocError> {
    match case.rule {
        Rule::Auto => replay_by::<AutoState, L>(alloc, case, input, told, steps),
        Rule::Jsx => replay_by::<JsxState, L>(alloc, case, input, told, steps),
    }
}

/// Replays the first case of the input, and gives what stands behind it. None: it cannot be read, which is told.
fn replay_first<'t, L: Ledger>(
    alloc: Global,
    input: &'t str,
    told: &mut Told,
    steps: &mut Steps<L>,
) -> Result<Option<&'t str>, AllocError> {
    match first_case(input) {
        Ok((case, rest)) => replay(alloc, &case, rest, told, steps),
        Err(fault) => {
            told.add_case(fault.name())?;
            Ok(None)
        }
    }
}

/// Replays the cases of the input, up to one that cannot be read.
fn replay_each<L: Ledger>(
    alloc: Global,
    input: &str,
    told: &mut Told,
    steps: &mut Steps<L>,
) -> Result<(), AllocError> {
    let mut left = input;
    for case in 0..u64::MAX {
        told.begin_case(case);
        if left.is_empty() {
            break;
        }
        match replay_first(alloc, left, told, steps)? {
            Some(rest) => left = rest,
            None => break,
        }
    }
    told.end()
}

/// An input, in a struct of its own: no ledger can be picked for a call that is handed a `&str`.
#[derive(Clone, Copy)]
struct Cases<'t> {
    text: &'t str,
}

/// What is told of the cases.
fn replay_counted<L: Ledger>(
    alloc: Global,
    cases: &Cases<'_>,
    blank: Blank,
) -> Result<Told, AllocError>
    requires name { blank.name ≡ L.name }
    requires parts { blank.parts ≡ L.parts }
    requires some_part { 0 < L.parts }
{
    let mut steps = Steps::<L>::new(blank);
    let mut told = Told::new(alloc);
    replay_each(alloc, cases.text, &mut told, &mut steps)?;
    Ok(told)
}

/// What is told of the cases of an input, over a counter that nobody reads.
pub fn replay_all(alloc: Global, input: &str) -> Result<Told, AllocError> {
    replay_counted::<Brand>(alloc, &Cases { text: input }, Blank::new(1))
}
