//! Regular expressions as members of objects of JSON.

ghost use Rattle.std.specs.Prelude.{◌≡◌, ◌++◌, [], OnOk, codes, string_bytes, if◌then◌else◌};
ghost use Rattle.std.specs.List.{flat_map};
ghost use Rattle.js_totsenak.specs.RegexJson.{all_flags, flag_letter, flags_member, regex_members};

use crate::members::{push_flag, push_member_head, push_number};
use bitflags::Flags;
use js_text::{RegExpFlags, RegexInfo};
use std::alloc::AllocError;

fn push_if(text: &mut String, holds: bool, letter: &str) -> Result<(), AllocError>
    ensures { OnOk result (string_bytes text.new ≡ string_bytes text.old ++ (if holds then letter.now else [])) }
{
    if holds { text.push_str(letter) } else { Ok(()) }
}

/// Appends the letters of the flags up to `m`.
fn push_first_flags(text: &mut String, flags: RegExpFlags) -> Result<(), AllocError>
    ensures { OnOk result (string_bytes text.new
        ≡ string_bytes text.old ++ flat_map (flag_letter flags) (codes "dgim")) }
{
    push_if(text, flags.contains(RegExpFlags::D), "d")?;
    push_if(text, flags.contains(RegExpFlags::G), "g")?;
    push_if(text, flags.contains(RegExpFlags::I), "i")?;
    push_if(text, flags.contains(RegExpFlags::M), "m")
}

/// Appends the letters of the flags behind `m`.
fn push_last_flags(text: &mut String, flags: RegExpFlags) -> Result<(), AllocError>
    ensures { OnOk result (string_bytes text.new
        ≡ string_bytes text.old ++ flat_map (flag_letter flags) (codes "suvy")) }
{
    push_if(text, flags.contains(RegExpFlags::S), "s")?;
    push_if(text, flags.contains(RegExpFlags::U), "u")?;
    push_if(text, flags.contains(RegExpFlags::V), "v")?;
    push_if(text, flags.contains(RegExpFlags::Y), "y")
}

/// Appends the letters of the flags as a member.
#[tactic(auto, unfolding(crate::specs::RegexJson::flags_member))]
fn push_flags(text: &mut String, flags: RegExpFlags) -> Result<(), AllocError>
    ensures { OnOk result (string_bytes text.new ≡ string_bytes text.old ++ flags_member flags) }
{
    push_member_head(text, "flags")?;
    text.push_str("\"")?;
    push_first_flags(text, flags)?;
    push_last_flags(text, flags)?;
    text.push_str("\"")
}

/// Appends the flags, and whether one is unknown or stands twice.
#[tactic(auto, unfolding(crate::specs::RegexJson::all_flags))]
fn push_all_flags(text: &mut String, info: RegexInfo) -> Result<(), AllocError>
    ensures { OnOk result (string_bytes text.new ≡ string_bytes text.old ++ all_flags info) }
{
    push_flags(text, info.flags)?;
    push_flag(text, "flags_error", info.flags_error)
}

/// Appends what is known of a token as a regular expression, if it is one.
pub(crate) fn push_regex(text: &mut String, regex: Option<RegexInfo>) -> Result<(), AllocError>
    ensures { OnOk result (string_bytes text.new ≡ string_bytes text.old ++ regex_members regex) }
{
    match regex {
        None => Ok(()),
        Some(info) => {
            push_number(text, "pattern_end", u64::from(info.pattern_end))?;
            push_all_flags(text, info)
        }
    }
}
