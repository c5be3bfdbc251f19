//! Edits of a text, and how long it may be.

ghost use Rattle.std.specs.Prelude.{◌↔◌, ◌<◌, ◌≤◌, ◌^◌, length, IsTrue};
ghost use Rattle.js_relex.specs.Documents.{IsEdit, edited};

use js_relex::Edit;

/// Whether the text has more than `u32::MAX` bytes.
pub(crate) fn is_overlong(text: &str) -> bool
    ensures { IsTrue result ↔ (2 ^ 32 ≤ length text.now) }
{
    text.len() > u32::MAX as usize
}

/// Whether the text has no more than `u32::MAX` bytes once the edit is made.
pub(crate) fn stays_short(edit: &Edit<'_>, text: &str) -> bool
    requires { IsEdit text.now edit.now.start edit.now.end }
    ensures { IsTrue result ↔ (length (edited text.now edit.now.start edit.now.end edit.now.text.now) < 2 ^ 32) }
{
    let kept = text.len() - (edit.end - edit.start) as usize;
    match kept.checked_add(edit.text.len()) {
        Some(length) => length <= u32::MAX as usize,
        None => false,
    }
}
