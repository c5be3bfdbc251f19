//! What the choice of goals tells tokens apart by.

ghost use Rattle.std.specs.Prelude.{◌≡◌};
ghost use Rattle.js_jsx.specs.Classes.{class_of, is_bang, is_equal};

use js_kind::Kind;

/// What a token is to what is open.
#[derive(Clone, Copy)]
pub(crate) enum TokenClass {
    /// The end of the source, or of a text that a `}` ends.
    End,
    LeftAngle,
    RightAngle,
    LeftCurly,
    RightCurly,
    TemplateHead,
    TemplateMiddle,
    TemplateTail,
    /// A `/`.
    Slash,
    /// A `/=`.
    SlashEqual,
    Equal,
    Comma,
    Semicolon,
    /// A `)` or a `]`.
    RightBracket,
    /// The word `extends`.
    Extends,
    /// A `!`.
    Bang,
    Other,
}

/// The class of tokens of the kind.
#[tactic(auto, unfolding(crate::specs::Classes::class_of))]
pub(crate) fn class_of(kind: Kind) -> TokenClass
    ensures { result ≡ class_of kind }
{
    match kind {
        Kind::Eof => TokenClass::End,
        Kind::LAngle => TokenClass::LeftAngle,
        Kind::RAngle => TokenClass::RightAngle,
        Kind::LCurly => TokenClass::LeftCurly,
        Kind::RCurly => TokenClass::RightCurly,
        Kind::TemplateHead => TokenClass::TemplateHead,
        Kind::TemplateMiddle => TokenClass::TemplateMiddle,
        Kind::TemplateTail => TokenClass::TemplateTail,
        Kind::Slash => TokenClass::Slash,
        Kind::SlashEq => TokenClass::SlashEqual,
        Kind::Eq => TokenClass::Equal,
        Kind::Comma => TokenClass::Comma,
        Kind::Semicolon => TokenClass::Semicolon,
        Kind::RParen | Kind::RBrack => TokenClass::RightBracket,
        Kind::Extends => TokenClass::Extends,
        Kind::Bang => TokenClass::Bang,
        _ => TokenClass::Other,
    }
}

impl TokenClass {
    /// Whether it is that of `=`.
    pub fn is_equal(self) -> bool
        ensures { result ≡ is_equal self }
    {
        matches!(self, TokenClass::Equal)
    }

    /// Whether it is that of `!`.
    pub fn is_bang(self) -> bool
        ensures { result ≡ is_bang self }
    {
        matches!(self, TokenClass::Bang)
    }
}
