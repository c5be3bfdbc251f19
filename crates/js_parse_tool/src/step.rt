//! The steps in which an expression is parsed.

ghost use Rattle.std.specs.Prelude.{◌≡◌};

use crate::brackets::Brackets;
use crate::node::NodeKind;
use js_text::Span;

/// How strongly an assignment and an arrow function bind: less than every other operator.
pub(crate) const ASSIGNMENT: u8 = 0;

/// How strongly an operator before its operand binds.
pub(crate) const PREFIX: u8 = 8;

/// How strongly what stands behind an operand binds: members, indices and calls.
pub(crate) const MEMBER: u8 = 9;

/// What is still to be parsed of a node whose first tokens were passed.
#[derive(Clone, Copy)]
pub(crate) enum Rest {
    Nothing,
    /// An expression whose operators bind as strongly as this, or stronger.
    Expression(u8),
    /// Expressions, and what closes them. The span is that of what opens them.
    List(Brackets, Span),
}

/// A step of an expression: the node that it makes of all that came before it, and what is still to be parsed of that.
#[derive(Clone, Copy)]
pub(crate) struct Step {
    pub node: NodeKind,
    pub rest: Rest,
}

impl Step {
    /// A step of which nothing is left.
    pub(crate) fn whole(node: NodeKind) -> Step
        ensures { result.rest ≡ Rest.Nothing }
    {
        Step {
            node,
            rest: Rest::Nothing,
        }
    }

    /// A step with an expression behind it, whose operators bind as strongly as `least`, or stronger.
    pub(crate) fn before(node: NodeKind, least: u8) -> Step {
        Step {
            node,
            rest: Rest::Expression(least),
        }
    }
}
