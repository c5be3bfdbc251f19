//! The nodes of a tree.

ghost use Rattle.std.specs.Prelude.{◌≡◌};
ghost use Rattle.js_parse_tool.specs.Shown.{kind_name};

use js_text::Span;

/// What a node is.
#[derive(Clone, Copy)]
pub(crate) enum NodeKind {
    /// The comment that a source may begin with (ECMA-262 12.5).
    Hashbang,
    Name,
    Literal,
    RegularExpression,
    Template,
    Array,
    Arrow,
    Parentheses,
    Unary,
    Binary,
    Assignment,
    Member,
    Index,
    Call,
    Declarator,
    Declaration,
    Expression,
    /// An operand that is wanted and does not stand there.
    Missing,
}

impl NodeKind {
    /// The name of the variant.
    pub(crate) fn name(self) -> &'static str
        ensures { result.now ≡ kind_name self }
    {
        match self {
            NodeKind::Hashbang => "Hashbang",
            NodeKind::Name => "Name",
            NodeKind::Literal => "Literal",
            NodeKind::RegularExpression => "RegularExpression",
            NodeKind::Template => "Template",
            NodeKind::Array => "Array",
            NodeKind::Arrow => "Arrow",
            NodeKind::Parentheses => "Parentheses",
            NodeKind::Unary => "Unary",
            NodeKind::Binary => "Binary",
            NodeKind::Assignment => "Assignment",
            NodeKind::Member => "Member",
            NodeKind::Index => "Index",
            NodeKind::Call => "Call",
            NodeKind::Declarator => "Declarator",
            NodeKind::Declaration => "Declaration",
            NodeKind::Expression => "Expression",
            NodeKind::Missing => "Missing",
        }
    }
}

/// A node: what it is, where it stands, in bytes, and how many children it has.
#[derive(Clone, Copy)]
pub(crate) struct Node {
    pub kind: NodeKind,
    pub span: Span,
    pub children: usize,
}
