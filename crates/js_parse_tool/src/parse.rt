//! A parse, from its cursor to its text.

ghost use Rattle.std.specs.Prelude.{◌≡◌, ◌≤◌, ◌++◌, false, string_bytes, IfOk, IfErr, OnOk};
ghost use Rattle.std.specs.Option.{is_some};
ghost use Rattle.js_parse_tool.specs.Covered.{Cover, IsParseText, depth_line};
ghost use Rattle.js_parse_tool.specs.Depth.{IsBehind, most_depth};

use crate::cover::cover;
use crate::draw::drawn;
use crate::fault::ParseFault;
use crate::show::shown;
use crate::statement::{hashbang, statements};
use crate::tokens::{LEFT_OUT, Tokens, stop};
use crate::tree::Trees;
use std::alloc::{AllocError, Global};
use std::fmt::Write;

/// Stops the parser where the trees leave a token out of their source, unless it was stopped.
fn stop_if_not_covered(cursor: &mut Tokens<'_>, trees: &Trees<'_>) -> Result<(), AllocError>
    ensures { OnOk result (is_some cursor.new.fatal ≡ false → Cover trees.now.text 0 trees.now.roots) }
{
    if cover(trees.alloc(), trees.source(), trees.roots())? {
        return Ok(());
    }
    stop(cursor, LEFT_OUT);
    Ok(())
}

/// Parses a source to its end, or to a fatal error.
#[tactic(auto, using(crate::proofs::Depths::behind_sooner, crate::proofs::Depths::memory_anywhere))]
fn parse(cursor: &mut Tokens<'_>, trees: &mut Trees<'_>) -> Result<(), ParseFault>
    ensures covered { OnOk result (is_some cursor.new.fatal ≡ false → Cover trees.new.text 0 trees.new.roots) }
    ensures text { trees.new.text ≡ trees.old.text }
    ensures deep { IfErr result (IsBehind most_depth) }
{
    hashbang(cursor, trees)?;
    statements(cursor, trees)?;
    stop_if_not_covered(cursor, trees)?;
    Ok(())
}

/// Writes that expressions nest too deep at a place.
#[tactic(auto, unfolding(crate::specs::Covered::depth_line))]
fn push_depth(text: &mut String, at: u32) -> Result<(), AllocError>
    ensures { OnOk result (string_bytes text.new ≡ string_bytes text.old ++ depth_line at) }
{
    writeln!(text, "too deep at {at}")
}

/// The text of a source in which expressions nest too deep at a place.
#[tactic(auto, using(crate::proofs::Covering::depth_printed))]
fn too_deep(alloc: Global, source: &str, at: u32) -> Result<String, AllocError>
    requires { most_depth ≤ at }
    ensures { IfOk result (λ text. IsParseText source.now (string_bytes text)) }
{
    let _source = source;
    let mut text = String::new(alloc);
    push_depth(&mut text, at)?;
    Ok(text)
}

/// The text of the trees of a source, and of the errors that a cursor has.
#[tactic(auto, using(crate::proofs::Covering::trees_printed))]
fn trees_of(
    alloc: Global,
    source: &str,
    cursor: &Tokens<'_>,
    trees: &Trees<'_>,
) -> Result<String, AllocError>
    requires same { trees.now.text ≡ source.now }
    requires covered { is_some cursor.now.fatal ≡ false → Cover trees.now.text 0 trees.now.roots }
    ensures { IfOk result (λ text. IsParseText source.now (string_bytes text)) }
{
    let _source = source;
    let _kept = trees.nodes();
    let lines = drawn(alloc, trees)?;
    let text = shown(alloc, cursor, lines.as_slice())?;
    Ok(text)
}

/// The text of a parse at a cursor that has its first token.
pub(crate) fn parse_text(
    alloc: Global,
    cursor: &mut Tokens<'_>,
    source: &str,
) -> Result<String, AllocError>
    ensures { IfOk result (λ text. IsParseText source.now (string_bytes text)) }
{
    let mut trees = Trees::new(alloc, source);
    match parse(cursor, &mut trees) {
        Ok(()) => trees_of(alloc, source, cursor, &trees),
        Err(ParseFault::TooDeep { at }) => too_deep(alloc, source, at),
        Err(ParseFault::Memory) => Err(AllocError),
    }
}
