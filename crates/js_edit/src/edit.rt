//! A run of the program: from words and bytes to a status and a text.

ghost use Rattle.std.specs.Prelude.{◌≡◌, ◌<◌, ◌⊎◌, ◌++◌, string_bytes, IfOk, IfErr, OnOk};
ghost use Rattle.js_process.specs.TextRun.{RunsMaker};
ghost use Rattle.js_relex.specs.declared.fault.RelexFault.{RelexFault};
ghost use Rattle.js_edit.specs.Run.{IsEditText, IsEdited, IsRefused, document_text, fault_line, joined_line};
ghost use Rattle.js_edit.specs.Words.{edit_words_of};

use crate::words::{EditLine, read_edit_words};
use js_lex_tool::report_text;
use js_process::{ByteIn, ByteOut, TextMaker, text_run};
use js_relex::{LexDoc, RelexFault, relex};
use js_session::Steps;
use std::alloc::{AllocError, Global};
use std::fmt::Write;
use std::marker::Brand;
use std::sync::ledger::{Blank, Ledger};

/// Adds the line that tells at which row a document joined the old one.
#[tactic(auto, unfolding(crate::specs::Run::joined_line))]
fn push_joined(text: &mut String, joined: Option<usize>) -> Result<(), AllocError>
    ensures { OnOk result (string_bytes text.new ≡ string_bytes text.old ++ joined_line joined) }
{
    match joined {
        Some(row) => writeln!(text, "joined {row}")?,
        None => text.push_str("joined none\n")?,
    }
    Ok(())
}

/// The text of a document: how many rows it kept, at which row it joined the old one, and its report.
#[tactic(auto, unfolding(crate::specs::Run::document_text))]
fn document_text(alloc: Global, document: &LexDoc) -> Result<String, AllocError>
    ensures { IfOk result (λ text. string_bytes text ≡ document_text document.now) }
{
    let kept = document.kept_rows();
    let mut text = String::new(alloc);
    writeln!(text, "kept {kept}")?;
    push_joined(&mut text, document.joined_row())?;
    let report = report_text(alloc, document.text(), document.report())?;
    text.push_str(report.as_str())?;
    Ok(text)
}

/// The line that tells why there is no document.
#[tactic(auto, unfolding(crate::specs::Run::fault_line))]
fn fault_text(alloc: Global, fault: RelexFault) -> Result<String, AllocError>
    ensures line { IfOk result (λ text. string_bytes text ≡ fault_line fault) }
    ensures told { IfOk result (λ text. ¬ (fault ≡ RelexFault.Memory)) }
{
    let mut text = String::new(alloc);
    match fault {
        RelexFault::BadEdit => text.push_str("BadEdit\n")?,
        RelexFault::Overlong => text.push_str("Overlong\n")?,
        RelexFault::BadCommand(index) => writeln!(text, "BadCommand({index})")?,
        RelexFault::Memory => return Err(AllocError),
    }
    Ok(text)
}

/// The document of the edited source, or why there is none.
fn edited<L: Ledger>(
    alloc: Global,
    line: &EditLine<'_>,
    source: &str,
    steps: &mut Steps<L>,
) -> Result<LexDoc, RelexFault>
    ensures ok { IfOk result (IsEdited line.now source.now) }
    ensures err { IfErr result (λ fault. (fault ≡ RelexFault.Memory) ⊎ IsRefused line.now source.now fault) }
{
    let old = match LexDoc::new(
        alloc,
        source,
        line.source_type,
        line.commands.as_slice(),
        steps,
    ) {
        Ok(old) => old,
        Err(fault) => return Err(fault),
    };
    relex(alloc, &old, &line.edit, line.new_commands.as_slice(), steps)
}

/// A source, in a struct of its own: no ledger can be picked for a call that is handed a `&str`.
#[derive(Clone, Copy)]
struct OldText<'s> {
    source: &'s str,
}

/// The text of a run over the source.
fn edit_text<L: Ledger>(
    alloc: Global,
    line: &EditLine<'_>,
    old: &OldText<'_>,
    blank: Blank,
) -> Result<String, AllocError>
    requires name { blank.name ≡ L.name }
    requires parts { blank.parts ≡ L.parts }
    requires some_part { 0 < L.parts }
    ensures { IfOk result (λ text. IsEditText line.now old.now.source.now (string_bytes text)) }
{
    let mut steps = Steps::<L>::new(blank);
    match edited(alloc, line, old.source, &mut steps) {
        Ok(document) => document_text(alloc, &document),
        Err(fault) => fault_text(alloc, fault),
    }
}

/// The same, over a counter that nobody reads.
fn edit_text_uncounted(
    alloc: Global,
    line: &EditLine<'_>,
    source: &str,
) -> Result<String, AllocError>
    ensures { IfOk result (λ text. IsEditText line.now source.now (string_bytes text)) }
{
    edit_text::<Brand>(alloc, line, &OldText { source }, Blank::new(1))
}

impl TextMaker for EditLine<'_> {
    ghost may_make = { IsEditText };

    fn text(&self, alloc: Global, source: &str) -> Result<String, AllocError> {
        edit_text_uncounted(alloc, self, source)
    }
}

/// Runs the program: reads what the words mean, then the input to its end, makes the document of the input and that of
/// the edit, and writes the second one. It gives the exit status.
pub fn edit_run<I: ByteIn, O: ByteOut>(
    alloc: Global,
    words: &Vec<String>,
    input: &mut I,
    output: &mut O,
) -> u8
    ensures { RunsMaker IsEditText (edit_words_of words.now.items)
        (I.state input.old) (I.state input.new) (O.state output.old) (O.state output.new) result }
{
    text_run(alloc, read_edit_words(alloc, words), input, output)
}
