//! Documents behind edits.

ghost use Rattle.std.specs.Prelude.{◌≡◌, ◌<◌};

use js_document::{AutoState, Document, Edit, EditsFault};
use js_session::Steps;
use js_text::SourceType;
use std::alloc::Global;
use std::sync::ledger::{Blank, Ledger};

/// A text, and edits that are made of it one behind the other.
#[derive(Clone, Copy)]
pub(crate) struct Edits<'e> {
    pub(crate) text: &'static str,
    pub(crate) edits: &'e [Edit<'static>],
}

/// The document behind the edits, and what the first of them came to that could not be made. None: there was not enough
/// memory for the text.
pub(crate) fn make_edits<L: Ledger>(
    alloc: Global,
    edits: &Edits<'_>,
    blank: Blank,
) -> Option<(Document<AutoState>, Option<EditsFault>)>
    requires name { blank.name ≡ L.name }
    requires parts { blank.parts ≡ L.parts }
    requires some_part { 0 < L.parts }
{
    let mut steps = Steps::<L>::new(blank);
    let mut document = Document::new(alloc, edits.text, SourceType::Unambiguous, &mut steps).ok()?;
    let fault = document.edit_all(alloc, edits.edits, &mut steps).err();
    Some((document, fault))
}
