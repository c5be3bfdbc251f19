//! The command `tokens` with JSON: the tokens, the comments and the diagnostics of a source, a line for each.

ghost use Rattle.std.specs.Prelude.{◌≡◌, ◌⊎◌, ◌++◌, ◌^◌, ◌<◌, OnOk, IfOk, IfErr, IsOk, List, Some, length, slice_get};
ghost use Rattle.std.specs.Prelude.{string_bytes};
ghost use Rattle.std.specs.List.{flat_map};
ghost use Rattle.js_choose.specs.Faults.{ChoiceCause};
ghost use Rattle.js_choose.specs.declared.fault.ChoiceFault.{ChoiceFault};
ghost use Rattle.js_lines.specs.declared.line_ends.LineEnds.TheVariants.{EcmaScript};
ghost use Rattle.js_lists.specs.Lists.{HasTaken};
ghost use Rattle.js_lists.specs.Taken.{Taken};
ghost use Rattle.js_session.specs.Faults.{IsReadable};
ghost use Rattle.js_totsenak.specs.Check.{in_characters};
ghost use Rattle.js_totsenak.specs.ItemJson.{item_json, token_or_nothing};
ghost use Rattle.js_totsenak.specs.ItemsText.{HasItems, IsItemsText};

use crate::check::places_of;
use crate::index::list_index;
use crate::item_json::{push_comment, push_diagnostic, push_token, push_warning};
use crate::items::{Item, Subject, placed_items};
use js_choose::{ChoiceFault, ChooseGoals};
use js_lines::{LineCursor, LineEnds, LineTable};
use js_lists::{LiveLists, chosen_lists};
use js_text::SourceType;
use std::alloc::{AllocError, Global};

/// Appends the object of the listed token with this index, if there is one.
fn push_listed(
    text: &mut String,
    source: &str,
    lists: &LiveLists,
    places: &mut LineCursor<'_, '_>,
    index: usize,
) -> Result<(), AllocError>
    requires short { length source.now < 2 ^ 32 }
    requires places { places.old ≡ in_characters (record { text = source.now; ends = EcmaScript }) }
    ensures text { OnOk result ((taken : List Taken) → HasTaken lists.now taken → string_bytes text.new
        ≡ string_bytes text.old ++ token_or_nothing source.now (slice_get taken index)) }
    ensures places { places.new ≡ places.old }
{
    let Some(token) = lists.tokens.as_slice().get(index) else {
        return Ok(());
    };
    let index = list_index(index)?;
    push_token(
        text,
        source,
        places,
        token,
        lists.value(index),
        lists.regex(index),
    )
}

/// Appends the object of an item.
fn push_item(
    text: &mut String,
    alloc: Global,
    source: &str,
    lists: &LiveLists,
    places: &mut LineCursor<'_, '_>,
    item: &Item,
) -> Result<(), AllocError>
    requires short { length source.now < 2 ^ 32 }
    requires places { places.old ≡ in_characters (record { text = source.now; ends = EcmaScript }) }
    ensures text { OnOk result ((taken : List Taken) → HasTaken lists.now taken → string_bytes text.new
        ≡ string_bytes text.old ++ item_json source.now taken item.now) }
    ensures places { places.new ≡ places.old }
{
    match &item.subject {
        Subject::Comment(comment) => push_comment(text, places, comment),
        Subject::Diagnostic(diagnostic) => push_diagnostic(
            text, alloc, places, "error", diagnostic,
        ),
        Subject::Deferred(diagnostic) => push_diagnostic(
            text, alloc, places, "warning", diagnostic,
        ),
        Subject::Warning(span) => push_warning(text, places, *span),
        Subject::Token(index) => push_listed(text, source, lists, places, *index),
    }
}

/// Appends the objects of items.
fn push_items(
    text: &mut String,
    alloc: Global,
    source: &str,
    lists: &LiveLists,
    places: &mut LineCursor<'_, '_>,
    items: &[Item],
) -> Result<(), AllocError>
    requires short { length source.now < 2 ^ 32 }
    requires places { places.old ≡ in_characters (record { text = source.now; ends = EcmaScript }) }
    ensures { OnOk result ((taken : List Taken) → HasTaken lists.now taken → string_bytes text.new
        ≡ string_bytes text.old ++ flat_map (item_json source.now taken) items.now) }
{
    for item in items {
        push_item(text, alloc, source, lists, places, item)?;
    }
    Ok(())
}

/// An object of JSON on a line of its own for each token, comment and diagnostic that is listed of a source, in order
/// of place.
pub fn items_text(alloc: Global, source: &str, lists: &LiveLists) -> Result<String, AllocError>
    requires { length source.now < 2 ^ 32 }
    ensures { IfOk result (λ text. (taken : List Taken) → HasTaken lists.now taken
        → IsItemsText source.now lists.now.found taken (string_bytes text)) }
{
    let mut text = String::new(alloc);
    let items = placed_items(alloc, lists)?;
    let lines = LineTable::new(alloc, source, LineEnds::EcmaScript)?;
    let mut places = places_of(&lines);
    push_items(&mut text, alloc, source, lists, &mut places, &items)?;
    Ok(text)
}

/// The objects of a source whose goals are chosen by the rule of a chooser.
pub fn items_of_source<G: ChooseGoals>(
    alloc: Global,
    source: &[u8],
    source_type: SourceType,
) -> Result<String, ChoiceFault>
    ensures items { IfOk result (λ text. HasItems G.choice source.now source_type (string_bytes text)) }
    ensures ok { OnOk result (IsReadable source.now) }
    ensures cause { IfErr result (λ fault. (fault ≡ ChoiceFault.Memory) ⊎ ChoiceCause source.now fault) }
    ensures exact { (fault : ChoiceFault) → ChoiceCause source.now fault → result ≡ Err fault }
    ensures complete { IsReadable source.now → IsOk result ⊎ (result ≡ Err ChoiceFault.Memory) }
{
    let lists = chosen_lists::<G>(alloc, source, source_type)?;
    let text = unsafe { str::from_utf8_unchecked(source) };
    match items_text(alloc, text, &lists) {
        Ok(lines) => Ok(lines),
        Err(_) => Err(ChoiceFault::Memory),
    }
}
