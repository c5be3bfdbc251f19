//! What tokens are to the rule by which imports and exports are found.

ghost use Rattle.std.specs.Prelude.{◌≡◌};
ghost use Rattle.js_imports.specs.Classes.{class_as_written, class_of, class_of_mark, class_of_name, is_label, is_name, is_plain, is_word};

use js_kind::Kind;

/// What a token is to the rule.
#[derive(Clone, Copy)]
pub(crate) enum TokenClass {
    /// Nothing that matters.
    Other,
    /// `.` or `?.`.
    Dot,
    Comma,
    Star,
    OpenParen,
    CloseParen,
    OpenBrace,
    CloseBrace,
    OpenSquare,
    /// The head of a template, up to `${`.
    OpenTemplate,
    /// `]`, or the tail of a template, from a `}` on.
    CloseOther,
    /// A string.
    Text,
    /// A name that is none of the words below.
    Name,
    Import,
    Export,
    Require,
    From,
    As,
    With,
    Assert,
    Default,
    /// `const`, `let` or `var`.
    Declares,
    Function,
    ClassWord,
    Async,
    Meta,
}

/// The class of a name of the kind that has no escape.
fn class_of_name(kind: Kind) -> TokenClass
    ensures { result ≡ class_of_name kind }
{
    match kind {
        Kind::Import => TokenClass::Import,
        Kind::Export => TokenClass::Export,
        Kind::Require => TokenClass::Require,
        Kind::From => TokenClass::From,
        Kind::As => TokenClass::As,
        Kind::With => TokenClass::With,
        Kind::Assert => TokenClass::Assert,
        Kind::Default => TokenClass::Default,
        Kind::Const => TokenClass::Declares,
        Kind::Let => TokenClass::Declares,
        Kind::Var => TokenClass::Declares,
        Kind::Function => TokenClass::Function,
        Kind::Class => TokenClass::ClassWord,
        Kind::Async => TokenClass::Async,
        Kind::Meta => TokenClass::Meta,
        _ => TokenClass::Name,
    }
}

/// The class of a token of the kind that is no name.
fn class_of_mark(kind: Kind) -> TokenClass
    ensures { result ≡ class_of_mark kind }
{
    match kind {
        Kind::Dot => TokenClass::Dot,
        Kind::QuestionDot => TokenClass::Dot,
        Kind::Comma => TokenClass::Comma,
        Kind::Star => TokenClass::Star,
        Kind::LParen => TokenClass::OpenParen,
        Kind::RParen => TokenClass::CloseParen,
        Kind::LCurly => TokenClass::OpenBrace,
        Kind::RCurly => TokenClass::CloseBrace,
        Kind::LBrack => TokenClass::OpenSquare,
        Kind::TemplateHead => TokenClass::OpenTemplate,
        Kind::RBrack => TokenClass::CloseOther,
        Kind::TemplateTail => TokenClass::CloseOther,
        Kind::Str => TokenClass::Text,
        _ => TokenClass::Other,
    }
}

/// The class of a token of the kind that has no escape.
#[inline(always)]
pub(crate) fn class_of(kind: Kind) -> TokenClass
    ensures { result ≡ class_of kind }
{
    if kind.is_identifier_name() {
        class_of_name(kind)
    } else {
        class_of_mark(kind)
    }
}

impl TokenClass {
    /// Whether it is that of one of the words that the rule knows.
    fn is_word(self) -> bool
        ensures { result ≡ is_word self }
    {
        match self {
            TokenClass::Import => true,
            TokenClass::Export => true,
            TokenClass::Require => true,
            TokenClass::From => true,
            TokenClass::As => true,
            TokenClass::With => true,
            TokenClass::Assert => true,
            TokenClass::Default => true,
            TokenClass::Declares => true,
            TokenClass::Function => true,
            TokenClass::ClassWord => true,
            TokenClass::Async => true,
            TokenClass::Meta => true,
            _ => false,
        }
    }

    /// Whether it is that of a name (ECMA-262 12.7, IdentifierName).
    pub(crate) fn is_name(self) -> bool
        ensures { result ≡ is_name self }
    {
        match self {
            TokenClass::Name => true,
            class => class.is_word(),
        }
    }

    /// Whether it is that of a name or of a string (ECMA-262 16.2.2, ModuleExportName).
    pub(crate) fn is_label(self) -> bool
        ensures { result ≡ is_label self }
    {
        match self {
            TokenClass::Text => true,
            class => class.is_name(),
        }
    }

    /// Whether a token of the class begins nothing and changes no bracket.
    pub(crate) fn is_plain(self) -> bool
        ensures { result ≡ is_plain self }
    {
        match self {
            TokenClass::Import => false,
            TokenClass::Export => false,
            TokenClass::Require => false,
            TokenClass::Dot => false,
            TokenClass::Comma => false,
            TokenClass::OpenParen => false,
            TokenClass::CloseParen => false,
            TokenClass::OpenBrace => false,
            TokenClass::CloseBrace => false,
            TokenClass::OpenSquare => false,
            TokenClass::OpenTemplate => false,
            TokenClass::CloseOther => false,
            _ => true,
        }
    }

    /// The class of a token, of which it is told whether it has an escape, whether it is the first on a line, and whether
    /// calls of `require` count.
    pub(crate) fn as_written(self, escaped: bool, first: bool, counts: bool) -> TokenClass
        ensures { result ≡ class_as_written escaped first counts self }
    {
        match self {
            class if escaped && class.is_word() => TokenClass::Name,
            TokenClass::Assert if first => TokenClass::Name,
            TokenClass::Require if !counts => TokenClass::Name,
            class => class,
        }
    }
}
