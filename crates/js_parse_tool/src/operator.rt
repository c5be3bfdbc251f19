//! What stands behind operands: operators, members, indices and calls.

ghost use Rattle.std.specs.Prelude.{◌≡◌, ◌≤◌, ◌<◌, ◌^◌, ◌≢◌, IfOk, IfSome, OnOk};
ghost use Rattle.js_cursor.specs.Cursor.{StartsLater};

use crate::brackets::{Brackets, open};
use crate::node::NodeKind;
use crate::step::{ASSIGNMENT, MEMBER, Step};
use crate::tokens::{BAD_TARGET, Tokens};
use crate::tree::Trees;
use js_cursor::CursorDiagnostic;
use js_kind::Kind;
use std::alloc::AllocError;

/// What a token means behind an operand.
#[derive(Clone, Copy)]
enum Operator {
    Assignment,
    /// An operator between two operands, and how strongly it binds them.
    Binary(u8),
    Member,
    List(Brackets),
}

impl Operator {
    /// What a token of the kind means behind an operand (ECMA-262 13.3 to 13.15).
    fn of(kind: Kind) -> Option<Operator>
        ensures { IfSome result (λ operator. kind ≢ Kind.Eof) }
    {
        match kind {
            Kind::Eq => Some(Operator::Assignment),
            Kind::Pipe2 | Kind::Question2 => Some(Operator::Binary(1)),
            Kind::Amp2 => Some(Operator::Binary(2)),
            Kind::Eq2 | Kind::Neq | Kind::Eq3 | Kind::Neq2 => Some(Operator::Binary(3)),
            Kind::LAngle | Kind::LtEq | Kind::RAngle | Kind::GtEq => Some(Operator::Binary(4)),
            Kind::ShiftLeft | Kind::ShiftRight | Kind::ShiftRight3 => Some(Operator::Binary(5)),
            Kind::Plus | Kind::Minus => Some(Operator::Binary(6)),
            Kind::Star | Kind::Slash | Kind::Percent => Some(Operator::Binary(7)),
            Kind::Dot => Some(Operator::Member),
            Kind::LBrack => Some(Operator::List(Brackets::Index)),
            Kind::LParen => Some(Operator::List(Brackets::Call)),
            _ => None,
        }
    }

    /// How strongly it binds.
    fn binds(self) -> u8 {
        match self {
            Operator::Assignment => ASSIGNMENT,
            Operator::Binary(binds) => binds,
            Operator::Member | Operator::List(_) => MEMBER,
        }
    }
}

/// The operator that is current, if one is that binds as strongly as `least`, or stronger. A `>` comes alone, so what
/// it begins is read here. Under a fatal error there is none.
fn operator_at(cursor: &mut Tokens<'_>, least: u8) -> Option<Operator>
    ensures onward { cursor.old.token.start ≤ cursor.new.token.start }
    ensures operator { IfSome result (λ operator. cursor.new.token.kind ≢ Kind.Eof) }
{
    cursor.re_lex_right_angle();
    if cursor.has_fatal_error() {
        return None;
    }
    match Operator::of(cursor.cur_kind()) {
        Some(operator) if operator.binds() >= least => Some(operator),
        _ => None,
    }
}

/// Reports what stands before an `=`, from `start` on, where it cannot be assigned to (ECMA-262 13.15.1).
fn note_target(cursor: &mut Tokens<'_>, trees: &Trees<'_>, start: u32) -> Result<(), AllocError>
    ensures { cursor.new.token ≡ cursor.old.token }
{
    if let Some(NodeKind::Name | NodeKind::Member | NodeKind::Index) = trees.last_kind() {
        return Ok(());
    }
    match cursor.span_from(start) {
        Some(span) => cursor.error(CursorDiagnostic::Parser {
            code: BAD_TARGET,
            span,
        }),
        None => Ok(()),
    }
}

/// Goes past an `=`. What stands before it begins at `start`.
fn assign(cursor: &mut Tokens<'_>, trees: &Trees<'_>, start: u32) -> Result<Step, AllocError>
    ensures onward { cursor.old.token.start ≤ cursor.new.token.start }
    ensures starts { OnOk result (StartsLater cursor.old cursor.new) }
{
    note_target(cursor, trees, start)?;
    cursor.bump_any()?;
    Ok(Step::before(NodeKind::Assignment, ASSIGNMENT))
}

/// Goes past an operator between two operands. What is behind it binds stronger.
fn operate(cursor: &mut Tokens<'_>, binds: u8) -> Result<Step, AllocError>
    ensures onward { cursor.old.token.start ≤ cursor.new.token.start }
    ensures starts { OnOk result (StartsLater cursor.old cursor.new) }
{
    cursor.bump_any()?;
    Ok(Step::before(NodeKind::Binary, binds.saturating_add(1)))
}

/// Goes past the name of a member, which may be any word.
fn member_name(cursor: &mut Tokens<'_>) -> Result<(), AllocError>
    ensures onward { cursor.old.token.start ≤ cursor.new.token.start }
{
    if cursor.cur_kind().is_identifier_name() {
        return cursor.bump_any();
    }
    cursor.expect_without_advance(Kind::Ident);
    Ok(())
}

/// Goes past a `.` and the name of a member.
fn member(cursor: &mut Tokens<'_>) -> Result<Step, AllocError>
    ensures onward { cursor.old.token.start ≤ cursor.new.token.start }
    ensures starts { OnOk result (StartsLater cursor.old cursor.new) }
{
    cursor.bump_any()?;
    member_name(cursor)?;
    Ok(Step::whole(NodeKind::Member))
}

/// Goes past an operator. What stands before it begins at `start`.
fn pass(
    cursor: &mut Tokens<'_>,
    trees: &Trees<'_>,
    start: u32,
    operator: Operator,
) -> Result<Step, AllocError>
    ensures onward { cursor.old.token.start ≤ cursor.new.token.start }
    ensures starts { OnOk result (StartsLater cursor.old cursor.new) }
{
    match operator {
        Operator::Assignment => assign(cursor, trees, start),
        Operator::Binary(binds) => operate(cursor, binds),
        Operator::Member => member(cursor),
        Operator::List(brackets) => open(cursor, brackets),
    }
}

/// Goes past the operator that is current, if one is that binds as strongly as `least`, or stronger. What stands before
/// it begins at `start`.
pub(crate) fn go_on(
    cursor: &mut Tokens<'_>,
    trees: &Trees<'_>,
    start: u32,
    least: u8,
) -> Result<Option<Step>, AllocError>
    ensures onward { cursor.old.token.start ≤ cursor.new.token.start }
    ensures passes { IfOk result (λ next. IfSome next (λ step. cursor.old.token.start < cursor.new.token.start)) }
    ensures short { cursor.old.token.start < 2 ^ 32 }
{
    // A place is below 2 ^ 32, so a loop over such steps ends.
    let _place = cursor.cur_start();
    match operator_at(cursor, least) {
        Some(operator) => Ok(Some(pass(cursor, trees, start, operator)?)),
        None => Ok(None),
    }
}
