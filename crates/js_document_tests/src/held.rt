//! Documents with their lines behind edits, and the handle that holds one.

ghost use Rattle.std.specs.Prelude.{◌≡◌, ◌<◌};

use crate::held_values::held;
use js_document::Edit;
use js_document_c::{Goals, HeldDocument, JsDocument};
use js_lines::{ColumnUnit, Position};
use std::alloc::Global;
use std::marker::Brand;
use std::sync::ledger::{Blank, Ledger};
use std::test::Fail;

/// An edit, whether it can be made, and what is told then: the line of an offset, and its column in bytes and in UTF-16
/// units.
#[derive(Debug)]
struct Step {
    start: u32,
    end: u32,
    text: &'static str,
    is_made: bool,
    offset: u32,
    line: u32,
    bytes: u32,
    units: u32,
}

/// The text before the edits: three lines, with a character of four bytes and two units.
static TEXT: &str = "a\n😀b\r\nc";

static STEPS: [Step; 5] = [
    // Nothing is put in.
    Step {
        start: 0,
        end: 0,
        text: "",
        is_made: true,
        offset: 6,
        line: 1,
        bytes: 4,
        units: 2,
    },
    // A line end before a CR LF.
    Step {
        start: 7,
        end: 7,
        text: "\n",
        is_made: true,
        offset: 10,
        line: 3,
        bytes: 0,
        units: 0,
    },
    // The first line end goes.
    Step {
        start: 1,
        end: 2,
        text: "",
        is_made: true,
        offset: 5,
        line: 0,
        bytes: 5,
        units: 3,
    },
    // Within a character there is no edit, and all stays.
    Step {
        start: 2,
        end: 2,
        text: "x",
        is_made: false,
        offset: 9,
        line: 2,
        bytes: 0,
        units: 0,
    },
    // A comment that is opened has the lines in it.
    Step {
        start: 0,
        end: 1,
        text: "/*",
        is_made: true,
        offset: 10,
        line: 2,
        bytes: 0,
        units: 0,
    },
];

/// The column of an offset on a line, if it stands on that one.
fn column_on(alloc: Global, held: &mut HeldDocument, step: &Step, unit: ColumnUnit) -> Option<u32> {
    let position = held.position(alloc, step.offset, unit).ok()?;
    if position.line == step.line {
        Some(position.column)
    } else {
        None
    }
}

/// Whether the place that is told of an offset leads back to it.
fn leads_back(alloc: Global, held: &mut HeldDocument, step: &Step) -> bool {
    let place = Position {
        line: step.line,
        column: step.units,
    };
    held.offset(alloc, place, ColumnUnit::Utf16Units) == Ok(Some(step.offset))
}

/// Whether what is told behind a step is as it is written there.
fn is_told(alloc: Global, held: &mut HeldDocument, step: &Step) -> bool {
    let edit = Edit {
        start: step.start,
        end: step.end,
        text: step.text,
    };
    if held.edit(alloc, &edit).is_ok() != step.is_made {
        return false;
    }
    if column_on(alloc, held, step, ColumnUnit::Bytes) != Some(step.bytes) {
        return false;
    }
    if column_on(alloc, held, step, ColumnUnit::Utf16Units) != Some(step.units) {
        return false;
    }
    leads_back(alloc, held, step)
}

/// The document of the text in a handle.
fn handle<L: Ledger>(alloc: Global, blank: Blank) -> Option<JsDocument>
    requires name { blank.name ≡ L.name }
    requires parts { blank.parts ≡ L.parts }
    requires some_part { 0 < L.parts }
{
    let held = held::<L>(alloc, TEXT, Goals::Auto, blank)?;
    let boxed = Box::new(alloc, held).ok()?;
    let mut handle = JsDocument::none(alloc);
    handle.put(boxed);
    Some(handle)
}

/// The same of a document that is taken out of its handle and put back. None: it has none.
fn is_told_in(alloc: Global, handle: &mut JsDocument, step: &Step) -> Option<bool> {
    let mut held = handle.take(alloc)?;
    let is_told = is_told(alloc, &mut held, step);
    handle.put(held);
    Some(is_told)
}

/// The first step that is told otherwise, or how many there are.
fn first_wrong(alloc: Global, handle: &mut JsDocument) -> Option<usize> {
    for (index, step) in STEPS.iter().enumerate() {
        if !is_told_in(alloc, handle, step)? {
            return Some(index);
        }
    }
    Some(STEPS.len())
}

#[test]
fn lines_behind_edits(rt: HostRuntime) -> Result<(), Fail> {
    let mut handle = handle::<Brand>(rt.alloc(), Blank::new(1)).ok_or("no document")?;
    assert_eq!(rt; first_wrong(rt.alloc(), &mut handle), Some(5));
    Ok(())
}
