//! Members of objects of JSON.

ghost use Rattle.std.specs.Prelude.{◌≡◌, ◌++◌, OnOk, string_bytes, chars};
ghost use Rattle.js_totsenak.specs.Members.{flag_member, flag_text, member_head, null_member, number_member};
ghost use Rattle.js_totsenak.specs.Members.{object_head, text_member, word_member};

use crate::json::push_json_text;
use std::alloc::AllocError;
use std::fmt::Write;

/// Appends a piece of an object.
pub(crate) fn push_piece(text: &mut String, piece: &str) -> Result<(), AllocError>
    ensures { OnOk result (string_bytes text.new ≡ string_bytes text.old ++ piece.now) }
{
    text.push_str(piece)
}

/// Appends what an object of this type begins with.
#[tactic(auto, unfolding(crate::specs::Members::object_head))]
pub(crate) fn push_object_head(text: &mut String, object_type: &str) -> Result<(), AllocError>
    ensures { OnOk result (string_bytes text.new ≡ string_bytes text.old ++ object_head object_type.now) }
{
    text.push_str("{\"type\":\"")?;
    text.push_str(object_type)?;
    text.push_str("\"")
}

/// Appends what stands before the value of a member of this name.
#[tactic(auto, unfolding(crate::specs::Members::member_head))]
pub(crate) fn push_member_head(text: &mut String, name: &str) -> Result<(), AllocError>
    ensures { OnOk result (string_bytes text.new ≡ string_bytes text.old ++ member_head name.now) }
{
    text.push_str(",\"")?;
    text.push_str(name)?;
    text.push_str("\":")
}

/// Appends a word as the value of a member of this name.
#[tactic(auto, unfolding(crate::specs::Members::word_member))]
pub(crate) fn push_word(text: &mut String, name: &str, word: &str) -> Result<(), AllocError>
    ensures { OnOk result (string_bytes text.new ≡ string_bytes text.old ++ word_member name.now word.now) }
{
    push_member_head(text, name)?;
    text.push_str("\"")?;
    text.push_str(word)?;
    text.push_str("\"")
}

/// Appends characters as the value of a member of this name.
#[tactic(auto, unfolding(crate::specs::Members::text_member))]
pub(crate) fn push_text(text: &mut String, name: &str, characters: &str) -> Result<(), AllocError>
    ensures { OnOk result (string_bytes text.new
        ≡ string_bytes text.old ++ text_member name.now (chars characters.now)) }
{
    push_member_head(text, name)?;
    push_json_text(text, characters)
}

/// Appends a number as the value of a member of this name.
#[tactic(auto, unfolding(crate::specs::Members::number_member))]
pub(crate) fn push_number(text: &mut String, name: &str, number: u64) -> Result<(), AllocError>
    ensures { OnOk result (string_bytes text.new ≡ string_bytes text.old ++ number_member name.now number) }
{
    push_member_head(text, name)?;
    write!(text, "{number}")
}

fn flag_text(flag: bool) -> &'static str
    ensures { result.now ≡ flag_text flag }
{
    if flag { "true" } else { "false" }
}

/// Appends whether something holds as the value of a member of this name.
#[tactic(auto, unfolding(crate::specs::Members::flag_member))]
pub(crate) fn push_flag(text: &mut String, name: &str, flag: bool) -> Result<(), AllocError>
    ensures { OnOk result (string_bytes text.new ≡ string_bytes text.old ++ flag_member name.now flag) }
{
    push_member_head(text, name)?;
    text.push_str(flag_text(flag))
}

/// Appends `null` as the value of a member of this name.
#[tactic(auto, unfolding(crate::specs::Members::null_member))]
pub(crate) fn push_null(text: &mut String, name: &str) -> Result<(), AllocError>
    ensures { OnOk result (string_bytes text.new ≡ string_bytes text.old ++ null_member name.now) }
{
    push_member_head(text, name)?;
    text.push_str("null")
}
