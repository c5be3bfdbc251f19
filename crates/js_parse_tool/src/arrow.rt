//! Arrow functions (ECMA-262 15.3), whose parameters are names.

ghost use Rattle.std.specs.Prelude.{◌≡◌, ◌≤◌, ◌≢◌, true, IfOk, OnOk};
ghost use Rattle.js_lexer.specs.Places.{KeepsPlaces};
ghost use Rattle.js_cursor.specs.Checkpoint.{GoesOnFrom};
ghost use Rattle.js_cursor.specs.Cursor.{StartsLater};
ghost use Rattle.js_parse_tool.specs.Arrow.{IsAtArrow};

use crate::tokens::{Tokens, name};
use crate::tree::Trees;
use js_cursor::laws::going_on_composes;
use js_cursor::{Cursor, CursorFault, Element, IsNextOnSameLine, ListStep, Predicate};
use js_kind::{Kind, LexerConfig};
use js_text::Span;
use std::alloc::{AllocError, Global};

/// A parameter: a name. Any other token stops the parser.
#[derive(Clone, Copy)]
struct Parameter;

impl<C: LexerConfig + Drop> Element<C, ()> for Parameter {
    ghost reads = { λ parameter before answer same after. GoesOnFrom before after };

    fn read(&mut self, cursor: &mut Cursor<'_, C>) -> Result<(), AllocError> {
        if cursor.cur_kind().is_identifier() {
            return cursor.bump_any();
        }
        cursor.expect(Kind::Ident)
    }
}

/// Goes past parameters in parentheses.
fn pass_parameters<C: LexerConfig + Drop>(
    cursor: &mut Cursor<'_, C>,
    alloc: Global,
) -> Result<(), CursorFault>
    ensures goes_on { GoesOnFrom cursor.old cursor.new }
    ensures places { KeepsPlaces cursor.old.lexer cursor.new.lexer }
{
    going_on_composes();
    let opening = cursor.cur_span();
    cursor.expect(Kind::LParen)?;
    cursor.parse_delimited_list(alloc, Kind::RParen, Kind::Comma, opening, Parameter)?;
    cursor.expect(Kind::RParen)?;
    Ok(())
}

/// Whether an arrow is current, on the line of the token before it, and no fatal error stands.
fn is_at_arrow<C: LexerConfig + Drop>(cursor: &Cursor<'_, C>) -> bool
    ensures { result ≡ true → IsAtArrow cursor.now }
{
    if cursor.has_fatal_error() {
        return false;
    }
    if cursor.cur_token().is_on_new_line() {
        return false;
    }
    cursor.at(Kind::Arrow)
}

/// Whether parameters in parentheses stand here, with an arrow behind them on their line.
#[derive(Clone, Copy)]
struct IsArrowHead(Global);

impl<C: LexerConfig + Drop> Predicate<C, Result<bool, AllocError>> for IsArrowHead {
    ghost gives = { λ head before answer after. IfOk answer (λ is_head. is_head ≡ true → IsAtArrow after) };

    fn test(&self, cursor: &mut Cursor<'_, C>) -> Result<bool, AllocError> {
        match pass_parameters(cursor, self.0) {
            Ok(()) => Ok(is_at_arrow(cursor)),
            Err(CursorFault::Stuck { .. }) => Ok(false),
            Err(CursorFault::Memory) => Err(AllocError),
        }
    }
}

/// Whether an arrow function stands here.
pub(crate) fn is_arrow(cursor: &mut Tokens<'_>, alloc: Global) -> Result<bool, AllocError>
    ensures begun { IfOk result (λ is_arrow. is_arrow ≡ true → cursor.old.token.kind ≢ Kind.Eof) }
    ensures stays { cursor.new.token ≡ cursor.old.token }
{
    if cursor.at(Kind::Eof) {
        return Ok(false);
    }
    if cursor.at(Kind::LParen) {
        return cursor.lookahead(IsArrowHead(alloc));
    }
    if cursor.cur_kind().is_identifier() {
        return cursor.lookahead(IsNextOnSameLine(Kind::Arrow));
    }
    Ok(false)
}

/// Parses names up to the `)` behind them.
fn names(cursor: &mut Tokens<'_>, trees: &mut Trees<'_>, opening: Span) -> Result<(), AllocError>
    ensures onward { cursor.old.token.start ≤ cursor.new.token.start }
    ensures text { trees.new.text ≡ trees.old.text }
{
    if !cursor.delimited_list_begins(Kind::RParen) {
        return Ok(());
    }
    'names: loop {
        name(cursor, trees)?;
        match cursor.delimited_list_goes_on(Kind::RParen, Kind::Comma, opening)? {
            ListStep::Element => {}
            ListStep::End(_) => return Ok(()),
        }
    }
}

/// Parses the parameters of an arrow function.
fn parameters(cursor: &mut Tokens<'_>, trees: &mut Trees<'_>) -> Result<(), AllocError>
    ensures onward { cursor.old.token.start ≤ cursor.new.token.start }
    ensures starts { OnOk result (StartsLater cursor.old cursor.new) }
    ensures text { trees.new.text ≡ trees.old.text }
{
    if !cursor.at(Kind::LParen) {
        return name(cursor, trees);
    }
    let opening = cursor.cur_span();
    cursor.bump_any()?;
    names(cursor, trees, opening)?;
    cursor.expect_closing(Kind::RParen, opening)
}

/// Goes past what an arrow function begins with: its parameters, and the arrow.
pub(crate) fn arrow_head(cursor: &mut Tokens<'_>, trees: &mut Trees<'_>) -> Result<(), AllocError>
    ensures onward { cursor.old.token.start ≤ cursor.new.token.start }
    ensures starts { OnOk result (StartsLater cursor.old cursor.new) }
    ensures text { trees.new.text ≡ trees.old.text }
{
    parameters(cursor, trees)?;
    cursor.expect(Kind::Arrow)
}
