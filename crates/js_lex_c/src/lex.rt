//! What is live of a source, put into the lists of a caller.

ghost use Rattle.std.specs.Prelude.{◌≡◌};
ghost use Rattle.js_session.specs.Faults.{Cause, SourceCause};
ghost use Rattle.js_lex_c.specs.Faults.{AutoFaultCause, StepsFaultCause};
ghost use Rattle.js_lex_c.specs.Filler.{token_counts};
ghost use Rattle.js_lex_c.specs.Held.{StayInPlace, held};
ghost use Rattle.js_lex_c.specs.Lists.{Fills, FillsOfNumber, ListsBy, ListsOfCommands, NumberedLists, StepLists};

use crate::fault::Fault;
use crate::fill::{JsCounts, JsLists};
use crate::filler::Filler;
use crate::number::{commands_of, source_type_of};
use js_choose::ChooseGoals;
use js_lists::{read_chosen, read_steps};
use js_session::{Command, LexFault};
use js_text::SourceType;
use std::alloc::Global;

/// Puts what is live of a source whose goals are chosen into lists into which nothing was put yet, and counts it.
fn put_chosen<G: ChooseGoals>(
    alloc: Global,
    source: &[u8],
    source_type: SourceType,
    filler: &mut Filler<'_, '_>,
) -> Result<JsCounts, LexFault>
    requires { filler.old.counts ≡ token_counts 0 0 }
    ensures fills { Fills (ListsBy G.choice source.now source_type) (SourceCause source.now)
        (held filler.old.out.now) (held filler.new.out.now) result }
    ensures places { StayInPlace filler.old.out.now filler.new.out.now }
    ensures same { filler.new.out.ghost_name ≡ filler.old.out.ghost_name }
{
    match read_chosen::<G, Filler<'_, '_>>(alloc, source, source_type, filler) {
        Ok(()) => Ok(filler.counts),
        Err(fault) => Err(fault.as_lex_fault()),
    }
}

/// The same with a source and commands.
fn put_followed(
    alloc: Global,
    source: &[u8],
    source_type: SourceType,
    commands: &[Command],
    filler: &mut Filler<'_, '_>,
) -> Result<JsCounts, LexFault>
    requires { filler.old.counts ≡ token_counts 0 0 }
    ensures fills { Fills (ListsOfCommands source.now source_type commands.now) (Cause source.now commands.now)
        (held filler.old.out.now) (held filler.new.out.now) result }
    ensures places { StayInPlace filler.old.out.now filler.new.out.now }
    ensures same { filler.new.out.ghost_name ≡ filler.old.out.ghost_name }
{
    match read_steps::<Filler<'_, '_>>(alloc, source, source_type, commands, filler) {
        Ok(()) => Ok(filler.counts),
        Err(fault) => Err(fault),
    }
}

/// Fills the lists with those of a source whose goals are chosen.
fn fill_chosen<G: ChooseGoals>(
    alloc: Global,
    source: &[u8],
    source_type: SourceType,
    out: &mut JsLists<'_>,
) -> Result<JsCounts, LexFault>
    ensures fills { Fills (ListsBy G.choice source.now source_type) (SourceCause source.now)
        (held out.old) (held out.new) result }
    ensures places { StayInPlace out.old out.new }
{
    let mut filler = Filler {
        out,
        counts: JsCounts::NONE,
    };
    put_chosen::<G>(alloc, source, source_type, &mut filler)
}

/// Fills the lists with those of a source and commands.
fn fill_followed(
    alloc: Global,
    source: &[u8],
    source_type: SourceType,
    commands: &[Command],
    out: &mut JsLists<'_>,
) -> Result<JsCounts, LexFault>
    ensures fills { Fills (ListsOfCommands source.now source_type commands.now) (Cause source.now commands.now)
        (held out.old) (held out.new) result }
    ensures places { StayInPlace out.old out.new }
{
    let mut filler = Filler {
        out,
        counts: JsCounts::NONE,
    };
    put_followed(alloc, source, source_type, commands, &mut filler)
}

/// Fills the lists with those of a source whose goals are chosen, with the number of its type.
pub(crate) fn fill_auto<G: ChooseGoals>(
    alloc: Global,
    source: &[u8],
    source_type: u32,
    out: &mut JsLists<'_>,
) -> Result<JsCounts, Fault>
    ensures fills { FillsOfNumber source_type (NumberedLists (ListsBy G.choice source.now) source_type)
        (AutoFaultCause source.now source_type) (held out.old) (held out.new) result }
    ensures places { StayInPlace out.old out.new }
{
    let known = match source_type_of(source_type) {
        Ok(known) => known,
        Err(fault) => return Err(fault),
    };
    match fill_chosen::<G>(alloc, source, known, out) {
        Ok(counts) => Ok(counts),
        Err(fault) => Err(Fault::Lex(fault)),
    }
}

/// Fills the lists with those of a source and commands, with the number of each.
pub(crate) fn fill_steps(
    alloc: Global,
    source: &[u8],
    source_type: u32,
    commands: &[u8],
    out: &mut JsLists<'_>,
) -> Result<JsCounts, Fault>
    ensures fills { FillsOfNumber source_type (StepLists source.now source_type commands.now)
        (StepsFaultCause source.now source_type commands.now) (held out.old) (held out.new) result }
    ensures places { StayInPlace out.old out.new }
{
    let known = match source_type_of(source_type) {
        Ok(known) => known,
        Err(fault) => return Err(fault),
    };
    let list = match commands_of(alloc, commands) {
        Ok(list) => list,
        Err(fault) => return Err(fault),
    };
    match fill_followed(alloc, source, known, list.as_slice(), out) {
        Ok(counts) => Ok(counts),
        Err(fault) => Err(Fault::Lex(fault)),
    }
}
