//! Tokens with which an operand may end.

ghost use Rattle.std.specs.Prelude.{◌≡◌};
ghost use Rattle.js_choose.specs.Operands.{ends_only_jsx, ends_operand};

use js_kind::Kind;
use js_trivia::can_end_expression;

/// Whether an operand may end with the token, though not where JSX is told from operators.
#[tactic(auto, unfolding(crate::specs::Operands::ends_only_jsx))]
fn ends_only_jsx(kind: Kind) -> bool
    ensures { result ≡ ends_only_jsx kind }
{
    matches!(kind, Kind::RAngle | Kind::JSXText)
}

/// Whether an operand may end with a token of the kind: a `/` behind it divides.
pub fn ends_operand(kind: Kind) -> bool
    ensures { result ≡ ends_operand kind }
{
    can_end_expression(kind) && !ends_only_jsx(kind)
}
