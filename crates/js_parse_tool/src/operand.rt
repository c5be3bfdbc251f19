//! What operands begin with.

ghost use Rattle.std.specs.Prelude.{◌≡◌, ◌≤◌, ◌<◌, ◌≢◌, IfOk};

use crate::arrow::{arrow_head, is_arrow};
use crate::brackets::{Brackets, open};
use crate::node::NodeKind;
use crate::step::{ASSIGNMENT, PREFIX, Rest, Step};
use crate::tokens::{NO_EXPRESSION, Tokens, stop};
use crate::tree::Trees;
use js_grammar::Goal;
use js_kind::Kind;
use std::alloc::AllocError;

/// What a token begins, where an operand is wanted.
#[derive(Clone, Copy)]
enum Operand {
    /// An operand of one token.
    Token(NodeKind),
    /// A regular expression, of which the token is the `/`, or more.
    RegularExpression,
    /// An operator before its operand.
    Prefix,
    List(Brackets),
    Missing,
}

/// What a token begins that is no name and no number.
fn begun_by(kind: Kind) -> Operand {
    match kind {
        Kind::Str | Kind::True | Kind::False | Kind::Null | Kind::This => {
            Operand::Token(NodeKind::Literal)
        }
        Kind::NoSubstitutionTemplate => Operand::Token(NodeKind::Template),
        Kind::Slash | Kind::SlashEq => Operand::RegularExpression,
        Kind::LBrack => Operand::List(Brackets::Array),
        Kind::LParen => Operand::List(Brackets::Parentheses),
        Kind::TemplateHead => Operand::List(Brackets::Template),
        _ => Operand::Missing,
    }
}

/// What a token begins that is not the end of the source.
fn begun_by_token(kind: Kind) -> Operand {
    if kind.is_unary_operator() {
        return Operand::Prefix;
    }
    if kind.is_number() {
        return Operand::Token(NodeKind::Literal);
    }
    if kind.is_identifier() {
        return Operand::Token(NodeKind::Name);
    }
    begun_by(kind)
}

/// What a token of the kind begins, where an operand is wanted.
fn operand_of(kind: Kind) -> Operand
    ensures { kind ≡ Kind.Eof → result ≡ Operand.Missing }
{
    match kind {
        Kind::Eof => Operand::Missing,
        _ => begun_by_token(kind),
    }
}

/// Goes past a regular expression, whose `/` is current. Under a fatal error there may be none.
fn regular_expression(cursor: &mut Tokens<'_>) -> Result<(), AllocError>
    ensures onward { cursor.old.token.start ≤ cursor.new.token.start }
{
    let begins = Goal::RegularExpression.reads_again(cursor.cur_kind());
    if begins && cursor.is_at_token_end() {
        cursor.read_regex()?;
    }
    cursor.bump_any()
}

/// Goes past what an operand begins with, that is no arrow function.
fn begin_operand(cursor: &mut Tokens<'_>) -> Result<Step, AllocError>
    ensures onward { cursor.old.token.start ≤ cursor.new.token.start }
    ensures passes { IfOk result (λ step. step.rest ≢ Rest.Nothing → cursor.old.token.start < cursor.new.token.start) }
{
    match operand_of(cursor.cur_kind()) {
        Operand::Token(node) => {
            cursor.bump_any()?;
            Ok(Step::whole(node))
        }
        Operand::RegularExpression => {
            regular_expression(cursor)?;
            Ok(Step::whole(NodeKind::RegularExpression))
        }
        Operand::Prefix => {
            cursor.bump_any()?;
            Ok(Step::before(NodeKind::Unary, PREFIX))
        }
        Operand::List(brackets) => open(cursor, brackets),
        Operand::Missing => {
            stop(cursor, NO_EXPRESSION);
            Ok(Step::whole(NodeKind::Missing))
        }
    }
}

/// Goes past what an expression begins with, whose operators bind as strongly as `least`, or stronger.
pub(crate) fn begin(
    cursor: &mut Tokens<'_>,
    trees: &mut Trees<'_>,
    least: u8,
) -> Result<Step, AllocError>
    ensures onward { cursor.old.token.start ≤ cursor.new.token.start }
    ensures passes { IfOk result (λ step. step.rest ≢ Rest.Nothing → cursor.old.token.start < cursor.new.token.start) }
    ensures text { trees.new.text ≡ trees.old.text }
{
    if least > ASSIGNMENT {
        return begin_operand(cursor);
    }
    if !is_arrow(cursor, trees.alloc())? {
        return begin_operand(cursor);
    }
    arrow_head(cursor, trees)?;
    Ok(Step::before(NodeKind::Arrow, ASSIGNMENT))
}
