//! What is told of the imports and exports of sources.

ghost use Rattle.std.specs.Prelude.{◌≡◌, ◌⊎◌, ◌^◌, ◌<◌, IfOk, OnOk, IfErr, IsOk, length, string_bytes};
ghost use Rattle.js_choose.specs.Faults.{ChoiceCause};
ghost use Rattle.js_choose.specs.declared.fault.ChoiceFault.{ChoiceFault};
ghost use Rattle.js_session.specs.Faults.{IsReadable};
ghost use Rattle.js_totsenak.specs.Syntaxes.{rule_of};
ghost use Rattle.js_imports_text.specs.Told.{TellsImports, told_text};

use crate::json::imports_json;
use crate::lines::imports_lines;
use js_auto::GoalChooser;
use js_choose::{ChoiceFault, ChooseGoals};
use js_imports::{Found, imports_of_source};
use js_jsx::JsxChooser;
use js_text::SourceType;
use js_totsenak::{Format, Syntax};
use std::alloc::{AllocError, Global};

/// What is found of a source, in a form.
fn found_text(
    alloc: Global,
    format: Format,
    source: &str,
    found: &[Found],
) -> Result<String, AllocError>
    requires { length source.now < 2 ^ 32 }
    ensures { IfOk result (λ text. string_bytes text ≡ told_text format source.now found.now) }
{
    match format {
        Format::Lines => imports_lines(alloc, source, found),
        Format::Json => imports_json(alloc, source, found),
    }
}

/// What is told of the imports and exports of a source whose goals are chosen by the rule of a chooser. Calls of `require`
/// count where it is said.
pub fn tell_imports_by<G: ChooseGoals>(
    alloc: Global,
    format: Format,
    counts_require: bool,
    source: &[u8],
    source_type: SourceType,
) -> Result<String, ChoiceFault>
    ensures told { IfOk result (λ text.
        TellsImports G.choice format counts_require source.now source_type (string_bytes text)) }
    ensures ok { OnOk result (IsReadable source.now) }
    ensures cause { IfErr result (λ fault. (fault ≡ ChoiceFault.Memory) ⊎ ChoiceCause source.now fault) }
    ensures exact { (fault : ChoiceFault) → ChoiceCause source.now fault → result ≡ Err fault }
    ensures complete { IsReadable source.now → IsOk result ⊎ (result ≡ Err ChoiceFault.Memory) }
{
    let found = imports_of_source::<G>(alloc, source, source_type, counts_require)?;
    let text = unsafe { str::from_utf8_unchecked(source) };
    match found_text(alloc, format, text, found.as_slice()) {
        Ok(told) => Ok(told),
        Err(_) => Err(ChoiceFault::Memory),
    }
}

/// What is told of the imports and exports of a source whose goals are chosen by the rule for its syntax.
pub fn tell_imports(
    alloc: Global,
    format: Format,
    counts_require: bool,
    syntax: Syntax,
    source: &[u8],
    source_type: SourceType,
) -> Result<String, ChoiceFault>
    ensures told { IfOk result (λ text.
        TellsImports (rule_of syntax) format counts_require source.now source_type (string_bytes text)) }
    ensures ok { OnOk result (IsReadable source.now) }
    // Each fault comes for its cause alone, and where the source has one, it comes.
    ensures cause { IfErr result (λ fault. (fault ≡ ChoiceFault.Memory) ⊎ ChoiceCause source.now fault) }
    ensures exact { (fault : ChoiceFault) → ChoiceCause source.now fault → result ≡ Err fault }
    ensures complete { IsReadable source.now → IsOk result ⊎ (result ≡ Err ChoiceFault.Memory) }
{
    match syntax {
        Syntax::JavaScript => {
            tell_imports_by::<GoalChooser>(alloc, format, counts_require, source, source_type)
        }
        Syntax::Jsx => {
            tell_imports_by::<JsxChooser>(alloc, format, counts_require, source, source_type)
        }
    }
}
