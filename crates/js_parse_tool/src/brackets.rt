//! What encloses lists of expressions.

ghost use Rattle.std.specs.Prelude.{◌≤◌, ◌<◌, ◌≢◌, IfOk, IsTrue, OnOk};
ghost use Rattle.js_cursor.specs.Cursor.{StartsLater};

use crate::node::NodeKind;
use crate::step::{Rest, Step};
use crate::tokens::Tokens;
use js_cursor::ListStep;
use js_kind::Kind;
use js_text::Span;
use std::alloc::AllocError;

/// What encloses a list of expressions. The substitutions of a template are one, with the middle parts of the template
/// between them.
#[derive(Clone, Copy)]
pub(crate) enum Brackets {
    Array,
    Parentheses,
    Template,
    Index,
    Call,
}

impl Brackets {
    /// What they make of the list, or of the operand before them and the list.
    fn node(self) -> NodeKind {
        match self {
            Brackets::Array => NodeKind::Array,
            Brackets::Parentheses => NodeKind::Parentheses,
            Brackets::Template => NodeKind::Template,
            Brackets::Index => NodeKind::Index,
            Brackets::Call => NodeKind::Call,
        }
    }

    /// What closes the list.
    fn close(self) -> Kind {
        match self {
            Brackets::Array | Brackets::Index => Kind::RBrack,
            Brackets::Parentheses | Brackets::Call => Kind::RParen,
            Brackets::Template => Kind::TemplateTail,
        }
    }

    /// What stands between two expressions.
    fn separator(self) -> Kind
        ensures { result ≢ Kind.Eof }
    {
        match self {
            Brackets::Template => Kind::TemplateMiddle,
            _ => Kind::Comma,
        }
    }
}

/// Goes past what opens a list.
pub(crate) fn open(cursor: &mut Tokens<'_>, brackets: Brackets) -> Result<Step, AllocError>
    ensures onward { cursor.old.token.start ≤ cursor.new.token.start }
    ensures starts { OnOk result (StartsLater cursor.old cursor.new) }
{
    let opening = cursor.cur_span();
    cursor.bump_any()?;
    Ok(Step {
        node: brackets.node(),
        rest: Rest::List(brackets, opening),
    })
}

/// Whether a list has a first expression.
pub(crate) fn begins(cursor: &Tokens<'_>, brackets: Brackets) -> bool {
    cursor.delimited_list_begins(brackets.close())
}

/// Reads the part of a template on, where a substitution ends.
fn read_part(cursor: &mut Tokens<'_>, brackets: Brackets) -> Result<(), AllocError>
    ensures onward { cursor.old.token.start ≤ cursor.new.token.start }
{
    match brackets {
        Brackets::Template => cursor.re_lex_template_substitution_tail(),
        _ => Ok(()),
    }
}

/// Whether another expression stands behind one: what separates the two was passed.
pub(crate) fn goes_on(
    cursor: &mut Tokens<'_>,
    brackets: Brackets,
    opening: Span,
) -> Result<bool, AllocError>
    ensures onward { cursor.old.token.start ≤ cursor.new.token.start }
    ensures passes { IfOk result (λ more. IsTrue more → cursor.old.token.start < cursor.new.token.start) }
{
    read_part(cursor, brackets)?;
    match cursor.delimited_list_goes_on(brackets.close(), brackets.separator(), opening)? {
        ListStep::Element => Ok(true),
        ListStep::End(_) => Ok(false),
    }
}

/// Goes past what closes a list.
pub(crate) fn end(
    cursor: &mut Tokens<'_>,
    brackets: Brackets,
    opening: Span,
) -> Result<(), AllocError>
    ensures onward { cursor.old.token.start ≤ cursor.new.token.start }
{
    cursor.expect_closing(brackets.close(), opening)
}
