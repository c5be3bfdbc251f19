//! The command `values`: the strings and templates of a source, decoded, a line for each.

ghost use Rattle.std.specs.Prelude.{◌≡◌, ◌⊎◌, ◌++◌, ◌^◌, ◌<◌, OnOk, IfOk, IfErr, IsOk, List, Some, length, slice_get};
ghost use Rattle.std.specs.Prelude.{string_bytes};
ghost use Rattle.js_choose.specs.Faults.{ChoiceCause};
ghost use Rattle.js_choose.specs.declared.fault.ChoiceFault.{ChoiceFault};
ghost use Rattle.js_lists.specs.Lists.{HasTaken};
ghost use Rattle.js_lists.specs.Taken.{Taken, value_handed};
ghost use Rattle.js_session.specs.Faults.{IsReadable};
ghost use Rattle.js_totsenak.specs.Values.{HasValues, holds_text, text_line, value_line, values_text};

use crate::index::list_index;
use crate::value_json::{is_text, push_value_json};
use js_choose::{ChoiceFault, ChooseGoals};
use js_kind::{Kind, Token};
use js_lists::{LiveLists, TokenValue, chosen_lists};
use js_text::SourceType;
use std::alloc::{AllocError, Global};

/// Whether a token of the kind is a string or a part of a template.
#[tactic(auto, unfolding(crate::specs::Values::holds_text))]
fn holds_text(kind: Kind) -> bool
    ensures { result ≡ holds_text kind }
{
    match kind {
        Kind::Str => true,
        Kind::NoSubstitutionTemplate => true,
        Kind::TemplateHead => true,
        Kind::TemplateMiddle => true,
        Kind::TemplateTail => true,
        _ => false,
    }
}

/// Appends the line of a value, if it is a text.
fn push_text(text: &mut String, source: &str, value: TokenValue<'_>) -> Result<(), AllocError>
    requires { length source.now < 2 ^ 32 }
    ensures { OnOk result (string_bytes text.new
        ≡ string_bytes text.old ++ text_line source.now (value_handed value.entry)) }
{
    if !is_text(value) {
        return Ok(());
    }
    push_value_json(text, source, value)?;
    text.push_str("\n")
}

/// Appends the line of the value of the listed token with this index, if it is a string or a part of a template.
fn push_listed(
    text: &mut String,
    source: &str,
    lists: &LiveLists,
    index: usize,
    token: &Token,
) -> Result<(), AllocError>
    requires short { length source.now < 2 ^ 32 }
    requires listed { slice_get lists.now.tokens index ≡ Some token.now }
    ensures { OnOk result ((taken : List Taken) (x : Taken) → HasTaken lists.now taken
        → slice_get taken index ≡ Some x
        → string_bytes text.new ≡ string_bytes text.old ++ value_line source.now x) }
{
    if !holds_text(token.kind()) {
        return Ok(());
    }
    let index = list_index(index)?;
    push_text(text, source, lists.value(index))
}

/// The lines of the strings and templates among the tokens that are listed of a source.
pub fn values_text(alloc: Global, source: &str, lists: &LiveLists) -> Result<String, AllocError>
    requires { length source.now < 2 ^ 32 }
    ensures { IfOk result (λ text. (taken : List Taken) → HasTaken lists.now taken
        → string_bytes text ≡ values_text source.now taken) }
{
    let mut text = String::new(alloc);
    let tokens = lists.tokens.as_slice();
    for (index, token) in tokens.iter().enumerate() {
        push_listed(&mut text, source, lists, index, token)?;
    }
    Ok(text)
}

/// The lines of the strings and templates of a source whose goals are chosen by the rule of a chooser.
pub fn values_of_source<G: ChooseGoals>(
    alloc: Global,
    source: &[u8],
    source_type: SourceType,
) -> Result<String, ChoiceFault>
    ensures values { IfOk result (λ text. HasValues G.choice source.now source_type (string_bytes text)) }
    ensures ok { OnOk result (IsReadable source.now) }
    ensures cause { IfErr result (λ fault. (fault ≡ ChoiceFault.Memory) ⊎ ChoiceCause source.now fault) }
    ensures exact { (fault : ChoiceFault) → ChoiceCause source.now fault → result ≡ Err fault }
    ensures complete { IsReadable source.now → IsOk result ⊎ (result ≡ Err ChoiceFault.Memory) }
{
    let lists = chosen_lists::<G>(alloc, source, source_type)?;
    let text = unsafe { str::from_utf8_unchecked(source) };
    match values_text(alloc, text, &lists) {
        Ok(lines) => Ok(lines),
        Err(_) => Err(ChoiceFault::Memory),
    }
}
