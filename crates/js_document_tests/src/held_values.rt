//! The values of a document behind an edit.

ghost use Rattle.std.specs.Prelude.{◌≡◌, ◌<◌};

use crate::values::{Value, is_value};
use js_document::Edit;
use js_document_c::{Goals, HeldDocument};
use js_lines::LineEnds;
use js_session::Steps;
use js_text::SourceType;
use std::alloc::Global;
use std::marker::Brand;
use std::sync::ledger::{Blank, Ledger};
use std::test::Fail;

/// An element, and a string with an escape, behind an edit of the text between the tags.
static VALUED: &str = "<a>b</a>; '\\x65'";

static TEXT_EDIT: Edit<'static> = Edit {
    start: 4,
    end: 4,
    text: "cd",
};

/// An offset, and the value of the token that has the byte there.
static VALUES: [(u32, Value); 6] = [
    (0, Value::None),
    (1, Value::Slice(1, 2)),
    (3, Value::None),
    (8, Value::Slice(8, 9)),
    (12, Value::Units(&[0x65])),
    (17, Value::Units(&[0x65])),
];

/// Offsets of bytes that belong to no token.
static GAPS: [u32; 2] = [11, 18];

/// The document of a text by a rule.
pub(crate) fn held<L: Ledger>(
    alloc: Global,
    text: &str,
    goals: Goals,
    blank: Blank,
) -> Option<HeldDocument>
    requires name { blank.name ≡ L.name }
    requires parts { blank.parts ≡ L.parts }
    requires some_part { 0 < L.parts }
{
    let mut steps = Steps::<L>::new(blank);
    let ends = LineEnds::LanguageServer;
    HeldDocument::new(alloc, text, SourceType::Module, goals, ends, &mut steps).ok()
}

/// Whether the token that has the byte at the offset has this value.
fn has_value(held: &HeldDocument, offset: u32, wanted: &Value) -> bool {
    match held.document().value_at(offset) {
        Some(value) => is_value(value, wanted),
        None => false,
    }
}

/// The document of the element behind the edit.
fn edited<L: Ledger>(alloc: Global, blank: Blank) -> Option<HeldDocument>
    requires name { blank.name ≡ L.name }
    requires parts { blank.parts ≡ L.parts }
    requires some_part { 0 < L.parts }
{
    let mut held = held::<L>(alloc, VALUED, Goals::Jsx, blank)?;
    held.edit(alloc, &TEXT_EDIT).ok()?;
    Some(held)
}

#[test]
fn values_behind_an_edit(rt: HostRuntime) -> Result<(), Fail> {
    let held = edited::<Brand>(rt.alloc(), Blank::new(1)).ok_or("no document")?;
    for (offset, wanted) in &VALUES {
        assert!(rt; has_value(&held, *offset, wanted));
    }
    for &offset in &GAPS {
        assert!(rt; held.document().value_at(offset).is_none());
    }
    Ok(())
}
