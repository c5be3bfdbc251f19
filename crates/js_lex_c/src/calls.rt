//! The calls that fill lists.

ghost use Rattle.std.specs.Prelude.{◌≡◌, ◌⊎◌, ◌<◌, ◌≤◌, List, map};
ghost use Rattle.js_session.specs.Faults.{HasMarks, IsReadable};
ghost use Rattle.js_session.specs.declared.command.Command.{Command};
ghost use Rattle.js_lex_c.specs.Faults.{AutoFaultCause, StepsFaultCause, fault_number};
ghost use Rattle.js_lex_c.specs.Held.{StayInPlace, held, no_room};
ghost use Rattle.js_lex_c.specs.Lists.{Answers, AutoLists, JsxLists, StepLists, Ends};
ghost use Rattle.js_lex_c.specs.Numbers.{command_number, source_type_count};
ghost use Rattle.js_lex_c.specs.declared.fault.Fault.{Fault};

use crate::fault::Fault;
use crate::fill::{JsCounts, JsLists};
use crate::lex::{fill_auto, fill_steps};
use js_auto::GoalChooser;
use js_jsx::JsxChooser;
use std::alloc::Global;

/// Tells the caller how many items there are, or why there are none.
fn end(found: Result<JsCounts, Fault>, counts: &mut JsCounts) -> u32
    ensures { Ends found result counts.new }
{
    match found {
        Ok(found) => {
            *counts = found;
            0
        }
        Err(fault) => {
            *counts = JsCounts::of_fault(fault);
            fault.number()
        }
    }
}

/// Lexes a source whose goals are chosen, and fills the lists as far as there is room; `counts` says how many items
/// there are of each. `source_type` is 0 for a module, 1 for a script, and 2 where it is not settled. Room for one
/// token more than the source has bytes always suffices.
///
/// It answers 0; 1 without memory; 6 where the source is not UTF-8, whose longest beginning that is has
/// `counts.place` bytes; 11 where it has 2^32 bytes or more; 13 for another source type, and then nothing else. Behind
/// each but 0 and 1 the lists are as before. Behind 1 some tokens may stand at the beginning of their list, and units at
/// that of theirs, each within its room.
#[unsafe(no_mangle)]
pub extern "C" fn js_lex_auto(
    alloc: Global,
    source: &[u8],
    source_type: u32,
    out: &mut JsLists<'_>,
    counts: &mut JsCounts,
) -> u32
    ensures answer { Answers source_type (AutoLists source.now source_type) (AutoFaultCause source.now source_type)
        result (held out.old) (held out.new) counts.new }
    ensures places { StayInPlace out.old out.new }
    // The number of a source type is tested first, before memory is asked for.
    ensures unknown { source_type_count ≤ source_type → result ≡ 13 }
    // Where a fault has its cause, or nothing is at fault, nothing but a lack of memory comes in the place of what is
    // answered.
    ensures exact { (fault : Fault) → AutoFaultCause source.now source_type fault
        → (result ≡ fault_number fault) ⊎ (result ≡ 1) }
    ensures complete { IsReadable source.now → source_type < source_type_count → (result ≡ 0) ⊎ (result ≡ 1) }
{
    let found = fill_auto::<GoalChooser>(alloc, source, source_type, out);
    end(found, counts)
}

/// Lexes a source that may have JSX, whose goals are chosen by the rule for that, and fills the lists and answers as
/// `js_lex_auto` does. It may find more tokens than the source has bytes: a text among the children of an element that a
/// `}` breaks off ends with a `Kind::Eof` that has none.
#[unsafe(no_mangle)]
pub extern "C" fn js_lex_jsx(
    alloc: Global,
    source: &[u8],
    source_type: u32,
    out: &mut JsLists<'_>,
    counts: &mut JsCounts,
) -> u32
    ensures answer { Answers source_type (JsxLists source.now source_type) (AutoFaultCause source.now source_type)
        result (held out.old) (held out.new) counts.new }
    ensures places { StayInPlace out.old out.new }
    ensures unknown { source_type_count ≤ source_type → result ≡ 13 }
    ensures exact { (fault : Fault) → AutoFaultCause source.now source_type fault
        → (result ≡ fault_number fault) ⊎ (result ≡ 1) }
    ensures complete { IsReadable source.now → source_type < source_type_count → (result ≡ 0) ⊎ (result ≡ 1) }
{
    let found = fill_auto::<JsxChooser>(alloc, source, source_type, out);
    end(found, counts)
}

/// How many items `js_lex_auto` finds: it answers what that does with lists that have no room, and writes `counts`
/// alone.
#[unsafe(no_mangle)]
pub extern "C" fn js_lex_count(
    alloc: Global,
    source: &[u8],
    source_type: u32,
    counts: &mut JsCounts,
) -> u32
    ensures answer { Answers source_type (AutoLists source.now source_type) (AutoFaultCause source.now source_type)
        result no_room no_room counts.new }
    ensures unknown { source_type_count ≤ source_type → result ≡ 13 }
    ensures exact { (fault : Fault) → AutoFaultCause source.now source_type fault
        → (result ≡ fault_number fault) ⊎ (result ≡ 1) }
    ensures complete { IsReadable source.now → source_type < source_type_count → (result ≡ 0) ⊎ (result ≡ 1) }
{
    let mut out = JsLists {
        tokens: &mut [],
        units: &mut [],
        diagnostics: &mut [],
        deferred: &mut [],
        comments: &mut [],
        irregular: &mut [],
        warnings: &mut [],
    };
    js_lex_auto(alloc, source, source_type, &mut out, counts)
}

/// Lexes a source by commands, numbers in the order of `Command`, and fills the lists as `js_lex_auto` does.
///
/// It answers what that does, and besides 7 for a `Rewind` or `Commit` without a mark, and 12 for a number that is no
/// command, each at the index `counts.place`.
#[unsafe(no_mangle)]
pub extern "C" fn js_lex_steps(
    alloc: Global,
    source: &[u8],
    source_type: u32,
    commands: &[u8],
    out: &mut JsLists<'_>,
    counts: &mut JsCounts,
) -> u32
    ensures answer { Answers source_type (StepLists source.now source_type commands.now)
        (StepsFaultCause source.now source_type commands.now) result (held out.old) (held out.new) counts.new }
    ensures places { StayInPlace out.old out.new }
    ensures unknown { source_type_count ≤ source_type → result ≡ 13 }
    ensures exact { (fault : Fault) → StepsFaultCause source.now source_type commands.now fault
        → (result ≡ fault_number fault) ⊎ (result ≡ 1) }
    ensures complete { (list : List Command) → IsReadable source.now → source_type < source_type_count
        → map command_number list ≡ commands.now → HasMarks list → (result ≡ 0) ⊎ (result ≡ 1) }
{
    let found = fill_steps(alloc, source, source_type, commands, out);
    end(found, counts)
}
