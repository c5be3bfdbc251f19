//! What is told of a source.

ghost use Rattle.std.specs.Prelude.{◌≡◌, ◌⊎◌, false, IfOk, OnOk, IfErr, IsOk, string_bytes};
ghost use Rattle.js_choose.specs.Faults.{ChoiceCause};
ghost use Rattle.js_choose.specs.declared.fault.ChoiceFault.{ChoiceFault};
ghost use Rattle.js_session.specs.Faults.{IsReadable};
ghost use Rattle.js_totsenak.specs.Syntaxes.{rule_of};
ghost use Rattle.js_totsenak.specs.Told.{IsTold};

use crate::check::{Told, check_source};
use crate::item_lines::items_of_source;
use crate::syntax::Syntax;
use crate::tokens::tokens_of_source;
use crate::values::values_of_source;
use js_auto::GoalChooser;
use js_choose::{ChoiceFault, ChooseGoals};
use js_jsx::JsxChooser;
use js_text::SourceType;
use std::alloc::Global;

/// How tokens are told.
#[derive(Clone, Copy, PartialEq, Eq, Debug)]
pub enum Format {
    /// A line for each, for people.
    Lines,
    /// A line with an object of JSON for each, and for comments and diagnostics.
    Json,
}

/// What is asked of a source.
#[derive(Clone, Copy, PartialEq, Eq, Debug)]
pub enum Command {
    /// What is at fault in it.
    Check,
    /// Its tokens.
    Tokens(Format),
    /// Its strings and templates, decoded.
    Values,
}

/// What is told where no fault was asked for.
fn without_fault(text: Result<String, ChoiceFault>) -> Result<Told, ChoiceFault>
    ensures ok { IfOk result (λ told. (text ≡ Ok told.text) × (told.is_faulty ≡ false)) }
    ensures err { IfErr result (λ fault. text ≡ Err fault) }
{
    match text {
        Ok(text) => Ok(Told {
            text,
            is_faulty: false,
        }),
        Err(fault) => Err(fault),
    }
}

/// What a command tells of a source with this name, whose goals are chosen by the rule of a chooser.
fn tell_by<G: ChooseGoals>(
    alloc: Global,
    command: Command,
    name: &str,
    source: &[u8],
    source_type: SourceType,
) -> Result<Told, ChoiceFault>
    ensures told { IfOk result (λ told.
        IsTold G.choice command name.now source.now source_type (string_bytes told.text) told.is_faulty) }
    ensures ok { OnOk result (IsReadable source.now) }
    ensures cause { IfErr result (λ fault. (fault ≡ ChoiceFault.Memory) ⊎ ChoiceCause source.now fault) }
    ensures exact { (fault : ChoiceFault) → ChoiceCause source.now fault → result ≡ Err fault }
    ensures complete { IsReadable source.now → IsOk result ⊎ (result ≡ Err ChoiceFault.Memory) }
{
    match command {
        Command::Check => check_source::<G>(alloc, name, source, source_type),
        Command::Tokens(Format::Lines) => {
            without_fault(tokens_of_source::<G>(alloc, source, source_type))
        }
        Command::Tokens(Format::Json) => {
            without_fault(items_of_source::<G>(alloc, source, source_type))
        }
        Command::Values => without_fault(values_of_source::<G>(alloc, source, source_type)),
    }
}

/// What a command tells of a source with this name, whose goals are chosen by the rule for its syntax.
pub fn tell(
    alloc: Global,
    command: Command,
    syntax: Syntax,
    name: &str,
    source: &[u8],
    source_type: SourceType,
) -> Result<Told, ChoiceFault>
    ensures told { IfOk result (λ told.
        IsTold (rule_of syntax) command name.now source.now source_type (string_bytes told.text) told.is_faulty) }
    ensures ok { OnOk result (IsReadable source.now) }
    // Each fault comes for its cause alone, and where the source has one, it comes.
    ensures cause { IfErr result (λ fault. (fault ≡ ChoiceFault.Memory) ⊎ ChoiceCause source.now fault) }
    ensures exact { (fault : ChoiceFault) → ChoiceCause source.now fault → result ≡ Err fault }
    ensures complete { IsReadable source.now → IsOk result ⊎ (result ≡ Err ChoiceFault.Memory) }
{
    match syntax {
        Syntax::JavaScript => tell_by::<GoalChooser>(alloc, command, name, source, source_type),
        Syntax::Jsx => tell_by::<JsxChooser>(alloc, command, name, source, source_type),
    }
}
