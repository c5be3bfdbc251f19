//! Statements: declarations and expressions, each with the semicolon that ends it.

ghost use Rattle.std.specs.Prelude.{◌≡◌, ◌≤◌, ◌<◌, ◌^◌, true, IfErr, OnOk};
ghost use Rattle.js_cursor.specs.Lists.{ends_at};
ghost use Rattle.js_parse_tool.specs.Depth.{IsBehind, most_depth};

use crate::expression::expression;
use crate::fault::ParseFault;
use crate::node::NodeKind;
use crate::step::ASSIGNMENT;
use crate::tokens::{NO_EXPRESSION, Tokens, close, name, stop};
use crate::tree::Trees;
use js_kind::Kind;
use std::alloc::AllocError;

/// How deep expressions may nest.
const MOST_DEPTH: u32 = 1000;

/// Takes the name that a declaration binds; any other token stops the parser.
fn bound_name(cursor: &mut Tokens<'_>, trees: &mut Trees<'_>) -> Result<(), AllocError>
    ensures onward { cursor.old.token.start ≤ cursor.new.token.start }
    ensures text { trees.new.text ≡ trees.old.text }
{
    if cursor.cur_kind().is_identifier() {
        return name(cursor, trees);
    }
    cursor.expect_without_advance(Kind::Ident);
    Ok(())
}

/// Parses the value of a name that is declared, if it has one.
#[tactic(auto, using(crate::proofs::Depths::behind_sooner, crate::proofs::Depths::memory_anywhere))]
fn initializer(cursor: &mut Tokens<'_>, trees: &mut Trees<'_>) -> Result<(), ParseFault>
    ensures onward { cursor.old.token.start ≤ cursor.new.token.start }
    ensures text { trees.new.text ≡ trees.old.text }
    ensures deep { IfErr result (IsBehind most_depth) }
{
    if !cursor.eat(Kind::Eq)? {
        return Ok(());
    }
    expression(cursor, trees, MOST_DEPTH, ASSIGNMENT)
}

/// Parses a name that is declared, with its value, if it has one.
#[tactic(auto, using(crate::proofs::Depths::behind_sooner, crate::proofs::Depths::memory_anywhere))]
fn declarator(cursor: &mut Tokens<'_>, trees: &mut Trees<'_>) -> Result<(), ParseFault>
    ensures onward { cursor.old.token.start ≤ cursor.new.token.start }
    ensures short { cursor.old.token.start < 2 ^ 32 }
    ensures text { trees.new.text ≡ trees.old.text }
    ensures deep { IfErr result (IsBehind most_depth) }
{
    let (start, mark) = (cursor.cur_start(), trees.mark());
    bound_name(cursor, trees)?;
    initializer(cursor, trees)?;
    close(cursor, trees, mark, NodeKind::Declarator, start)?;
    Ok(())
}

/// Parses names that are declared, with commas between them.
#[tactic(auto, using(crate::proofs::Depths::behind_sooner, crate::proofs::Depths::memory_anywhere))]
fn declarators(cursor: &mut Tokens<'_>, trees: &mut Trees<'_>) -> Result<(), ParseFault>
    ensures onward { cursor.old.token.start ≤ cursor.new.token.start }
    ensures text { trees.new.text ≡ trees.old.text }
    ensures deep { IfErr result (IsBehind most_depth) }
{
    declarator(cursor, trees)?;
    'declarators: while cursor.eat(Kind::Comma)? {
        declarator(cursor, trees)?;
    }
    Ok(())
}

/// Parses a declaration, or an expression, without its semicolon, and tells which.
#[tactic(auto, using(crate::proofs::Depths::behind_sooner, crate::proofs::Depths::memory_anywhere))]
fn without_semicolon(cursor: &mut Tokens<'_>, trees: &mut Trees<'_>) -> Result<NodeKind, ParseFault>
    ensures onward { cursor.old.token.start ≤ cursor.new.token.start }
    ensures text { trees.new.text ≡ trees.old.text }
    ensures deep { IfErr result (IsBehind most_depth) }
{
    match cursor.cur_kind() {
        Kind::Let | Kind::Const | Kind::Var => {
            cursor.bump_any()?;
            declarators(cursor, trees)?;
            Ok(NodeKind::Declaration)
        }
        _ => {
            expression(cursor, trees, MOST_DEPTH, ASSIGNMENT)?;
            Ok(NodeKind::Expression)
        }
    }
}

/// Goes past the semicolon of a statement, where that is not inserted (ECMA-262 12.10).
fn end_statement(cursor: &mut Tokens<'_>) -> Result<(), AllocError>
    ensures onward { cursor.old.token.start ≤ cursor.new.token.start }
{
    if cursor.has_fatal_error() {
        return Ok(());
    }
    cursor.asi()
}

/// Parses a statement, with its semicolon.
#[tactic(auto, using(crate::proofs::Depths::behind_sooner, crate::proofs::Depths::memory_anywhere))]
fn statement(cursor: &mut Tokens<'_>, trees: &mut Trees<'_>) -> Result<(), ParseFault>
    ensures onward { cursor.old.token.start ≤ cursor.new.token.start }
    ensures text { trees.new.text ≡ trees.old.text }
    ensures deep { IfErr result (IsBehind most_depth) }
{
    let (start, mark) = (cursor.cur_start(), trees.mark());
    let kind = without_semicolon(cursor, trees)?;
    end_statement(cursor)?;
    close(cursor, trees, mark, kind, start)?;
    Ok(())
}

/// Takes the comment that a source may begin with.
pub(crate) fn hashbang(cursor: &mut Tokens<'_>, trees: &mut Trees<'_>) -> Result<(), AllocError>
    ensures { trees.new.text ≡ trees.old.text }
{
    if !cursor.at(Kind::HashbangComment) {
        return Ok(());
    }
    let (start, mark) = (cursor.cur_start(), trees.mark());
    cursor.bump_any()?;
    close(cursor, trees, mark, NodeKind::Hashbang, start)
}

/// Parses statements up to the end of the source, or to a fatal error.
#[tactic(auto, using(crate::proofs::Stops::ends_when_stopped, crate::proofs::Stops::ends_where_it_stops))]
pub(crate) fn statements(cursor: &mut Tokens<'_>, trees: &mut Trees<'_>) -> Result<(), ParseFault>
    ensures ends { OnOk result (ends_at Kind.Eof cursor.new ≡ true) }
    ensures text { trees.new.text ≡ trees.old.text }
    ensures deep { IfErr result (IsBehind most_depth) }
{
    'statements: while cursor.normal_list_goes_on(Kind::Eof) {
        let start = cursor.cur_start();
        statement(cursor, trees)?;
        // what begins a statement is passed, or stops the parser
        if cursor.cur_start() <= start {
            stop(cursor, NO_EXPRESSION);
            return Ok(());
        }
    }
    Ok(())
}
