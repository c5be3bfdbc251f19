//! Expressions, by the strength of their operators.

ghost use Rattle.std.specs.Prelude.{◌≡◌, ◌+◌, ◌≤◌, ◌<◌, ◌≢◌, ◌^◌, IfOk, IfErr};
ghost use Rattle.js_parse_tool.specs.Depth.{IsBehind};

use crate::brackets::{Brackets, begins, end, goes_on};
use crate::fault::ParseFault;
use crate::operand::begin;
use crate::operator::go_on;
use crate::step::{ASSIGNMENT, Rest};
use crate::tokens::{Tokens, close};
use crate::tree::Trees;
use js_text::Span;

/// One level less to nest in, if any is left.
fn inner(cursor: &Tokens<'_>, depth: u32) -> Result<u32, ParseFault>
    ensures less { IfOk result (λ left. left + 1 ≡ depth) }
    ensures deep { IfErr result (IsBehind (cursor.now.token.start + depth)) }
    ensures short { cursor.now.token.start < 2 ^ 32 }
{
    let at = cursor.cur_start();
    match depth.checked_sub(1) {
        Some(depth) => Ok(depth),
        None => Err(ParseFault::TooDeep { at }),
    }
}

/// Parses expressions up to what closes them.
#[cycle(expressions)]
#[tactic(auto, using(crate::proofs::Depths::behind_sooner, crate::proofs::Depths::memory_anywhere))]
fn elements(
    cursor: &mut Tokens<'_>,
    trees: &mut Trees<'_>,
    depth: u32,
    brackets: Brackets,
    opening: Span,
) -> Result<(), ParseFault>
    ensures onward { cursor.old.token.start ≤ cursor.new.token.start }
    ensures text { trees.new.text ≡ trees.old.text }
    ensures deep { IfErr result (IsBehind (cursor.old.token.start + depth)) }
{
    if !begins(cursor, brackets) {
        return Ok(());
    }
    'elements: loop {
        expression(cursor, trees, depth, ASSIGNMENT)?;
        if !goes_on(cursor, brackets, opening)? {
            return Ok(());
        }
    }
}

/// Parses what is left of a node.
#[cycle(expressions)]
#[tactic(auto, using(crate::proofs::Depths::behind_sooner, crate::proofs::Depths::memory_anywhere))]
fn rest(
    cursor: &mut Tokens<'_>,
    trees: &mut Trees<'_>,
    depth: u32,
    rest: Rest,
) -> Result<(), ParseFault>
    ensures onward { cursor.old.token.start ≤ cursor.new.token.start }
    ensures text { trees.new.text ≡ trees.old.text }
    ensures deep { IfErr result (IsBehind (cursor.old.token.start + depth)) }
    ensures more { IfErr result (λ fault. rest ≢ Rest.Nothing) }
{
    match rest {
        Rest::Nothing => Ok(()),
        Rest::Expression(least) => expression(cursor, trees, depth, least),
        Rest::List(brackets, opening) => {
            elements(cursor, trees, depth, brackets, opening)?;
            end(cursor, brackets, opening)?;
            Ok(())
        }
    }
}

/// Parses an expression whose operators bind as strongly as `least`, or stronger. It may nest as deep as `depth`.
#[cycle(expressions)]
#[tactic(auto, using(crate::proofs::Depths::behind_sooner, crate::proofs::Depths::memory_anywhere))]
pub(crate) fn expression(
    cursor: &mut Tokens<'_>,
    trees: &mut Trees<'_>,
    depth: u32,
    least: u8,
) -> Result<(), ParseFault>
    ensures onward { cursor.old.token.start ≤ cursor.new.token.start }
    ensures short { cursor.old.token.start < 2 ^ 32 }
    ensures text { trees.new.text ≡ trees.old.text }
    ensures deep { IfErr result (IsBehind (cursor.old.token.start + depth)) }
{
    let depth = inner(cursor, depth)?;
    let (start, mark) = (cursor.cur_start(), trees.mark());
    let mut step = begin(cursor, trees, least)?;
    'steps: loop {
        rest(cursor, trees, depth, step.rest)?;
        close(cursor, trees, mark, step.node, start)?;
        match go_on(cursor, trees, start, least)? {
            Some(next) => step = next,
            None => return Ok(()),
        }
    }
}
