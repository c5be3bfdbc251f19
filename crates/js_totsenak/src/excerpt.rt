//! Lines of a source with a mark under a place.

ghost use Rattle.std.specs.Prelude.{◌≡◌, ◌++◌, OnOk, string_bytes, chars};
ghost use Rattle.js_totsenak.specs.Excerpt.{excerpt};

use crate::shown::{push_pad, push_shown};
use std::alloc::AllocError;

/// Appends what a line has before and behind a place, and a mark under the place.
#[tactic(auto, unfolding(crate::specs::Excerpt::excerpt))]
pub(crate) fn push_excerpt(text: &mut String, before: &str, behind: &str) -> Result<(), AllocError>
    ensures { OnOk result (string_bytes text.new
        ≡ string_bytes text.old ++ excerpt (chars before.now) (chars behind.now)) }
{
    push_shown(text, before)?;
    push_shown(text, behind)?;
    text.push_str("\n")?;
    push_pad(text, before)?;
    text.push_str("^\n")
}
