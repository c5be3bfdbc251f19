//! What the kinds of the tokens around a gap say of its comments.

ghost use Rattle.std.specs.Prelude.{◌≡◌};
ghost use Rattle.js_grammar.specs.Attach.{takes_comments};
ghost use Rattle.js_grammar.specs.TokensAround.{is_eof, is_undetermined, is_end_of_expression, can_end_expression};
ghost use Rattle.js_grammar.specs.TokensAround.{continues_expression, keeps_line_comment_leading};

use js_kind::Kind;

/// Whether the kind is that of the end of the source.
#[tactic(auto, unfolding(js_grammar::specs::TokensAround::is_eof))]
fn is_eof(kind: Kind) -> bool
    ensures { result ≡ is_eof kind }
{
    matches!(kind, Kind::Eof)
}

/// Whether the kind is that of no token.
#[tactic(auto, unfolding(js_grammar::specs::TokensAround::is_undetermined))]
fn is_undetermined(kind: Kind) -> bool
    ensures { result ≡ is_undetermined kind }
{
    matches!(kind, Kind::Undetermined)
}

/// Whether an expression may end with the token, which is no identifier and no literal.
#[tactic(auto, unfolding(js_grammar::specs::TokensAround::is_end_of_expression))]
fn is_end_of_expression(kind: Kind) -> bool
    ensures { result ≡ is_end_of_expression kind }
{
    matches!(
        kind,
        Kind::PrivateIdentifier
            | Kind::This
            | Kind::Super
            | Kind::RParen
            | Kind::RBrack
            | Kind::RCurly
            | Kind::RAngle
            | Kind::Plus2
            | Kind::Minus2
            | Kind::NoSubstitutionTemplate
            | Kind::TemplateTail
            | Kind::JSXText
    )
}

/// Whether an expression may end with a token of the kind, as far as its comments go.
pub fn can_end_expression(kind: Kind) -> bool
    ensures { result ≡ can_end_expression kind }
{
    kind.is_identifier() || (kind.is_literal() || is_end_of_expression(kind))
}

/// Whether the token goes on with an expression.
fn continues_expression(kind: Kind) -> bool
    ensures { result ≡ continues_expression kind }
{
    kind.is_binary_operator() || (kind.is_logical_operator() || kind.is_assignment_operator())
}

/// Whether a line comment after the token belongs to what follows.
#[tactic(auto, unfolding(js_grammar::specs::TokensAround::keeps_line_comment_leading))]
#[inline(always)]
pub(crate) fn keeps_line_comment_leading(kind: Kind) -> bool
    ensures { result ≡ keeps_line_comment_leading kind }
{
    matches!(kind, Kind::Eq | Kind::LParen | Kind::Colon)
}

/// Whether the token before may take comments that stand before `token`.
pub(crate) fn takes_comments(previous: Kind, token: Kind) -> bool
    ensures { result ≡ takes_comments previous token }
{
    !is_undetermined(previous)
        && (is_eof(token) || (can_end_expression(previous) && continues_expression(token)))
}
