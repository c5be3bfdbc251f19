//! Kinds of tokens.

ghost use Rattle.std.specs.Prelude.{◌≡◌, ◌↔◌, IsTrue};
ghost use Rattle.std.specs.Int.{is_in_range};
ghost use Rattle.js_kind.specs.Kinds.{number, is_kind, is_name_kind, is_identifier_name, is_number_kind};
ghost use Rattle.js_kind.specs.Kinds.{is_reserved_keyword, is_identifier, is_literal, is_assignment_operator};
ghost use Rattle.js_kind.specs.Kinds.{is_binary_operator};
ghost use Rattle.js_kind.specs.Kinds.{is_logical_operator};
ghost use Rattle.js_kind.specs.Digits.{is_integer_kind, is_digit_of, radix_of};

use js_text::either;

/// What a token is.
#[derive(Clone, Copy, PartialEq, Eq, Debug)]
pub enum Kind {
    Eof,
    Undetermined,
    Skip,
    HashbangComment,
    Ident,
    // keywords
    Await,
    Break,
    Case,
    Catch,
    Class,
    Const,
    Continue,
    Debugger,
    Default,
    Delete,
    Do,
    Else,
    Enum,
    Export,
    Extends,
    Finally,
    For,
    Function,
    If,
    Import,
    In,
    Instanceof,
    New,
    Return,
    Super,
    Switch,
    This,
    Throw,
    Try,
    Typeof,
    Var,
    Void,
    While,
    With,
    // contextual words
    Async,
    From,
    Get,
    Meta,
    Of,
    Set,
    Target,
    Accessor,
    Source,
    Defer,
    // words of TypeScript
    Abstract,
    As,
    Asserts,
    Assert,
    Any,
    Boolean,
    Constructor,
    Declare,
    Infer,
    Intrinsic,
    Is,
    KeyOf,
    Module,
    Namespace,
    Never,
    Out,
    Readonly,
    Require,
    Number,
    Object,
    Satisfies,
    String,
    Symbol,
    TypeKw,
    Undefined,
    Unique,
    Using,
    Unknown,
    Global,
    BigInt,
    Override,
    // words that strict mode code reserves
    Implements,
    Interface,
    Let,
    Package,
    Private,
    Protected,
    Public,
    Static,
    Yield,
    // literals that are words
    True,
    False,
    Null,
    // punctuators
    Amp,
    Amp2,
    Amp2Eq,
    AmpEq,
    Bang,
    Caret,
    CaretEq,
    Colon,
    Comma,
    Dot,
    Dot3,
    Eq,
    Eq2,
    Eq3,
    GtEq,
    LAngle,
    LBrack,
    LCurly,
    LParen,
    LtEq,
    Minus,
    Minus2,
    MinusEq,
    Neq,
    Neq2,
    Percent,
    PercentEq,
    Pipe,
    Pipe2,
    Pipe2Eq,
    PipeEq,
    Plus,
    Plus2,
    PlusEq,
    Question,
    Question2,
    Question2Eq,
    QuestionDot,
    RAngle,
    RBrack,
    RCurly,
    RParen,
    Semicolon,
    ShiftLeft,
    ShiftLeftEq,
    ShiftRight,
    ShiftRight3,
    ShiftRight3Eq,
    ShiftRightEq,
    Slash,
    SlashEq,
    Star,
    Star2,
    Star2Eq,
    StarEq,
    Tilde,
    Arrow,
    // numbers
    Decimal,
    Float,
    Binary,
    Octal,
    Hex,
    PositiveExponential,
    NegativeExponential,
    DecimalBigInt,
    BinaryBigInt,
    OctalBigInt,
    HexBigInt,
    // other literals and tokens
    Str,
    RegExp,
    NoSubstitutionTemplate,
    TemplateHead,
    TemplateMiddle,
    TemplateTail,
    PrivateIdentifier,
    JSXText,
    At,
    PipeGt,
    MatchKw,
}

impl Default for Kind {
    ghost use Rattle.js_kind.specs.declared.kind.Kind.TheVariants.{Eof};

    ghost is_default = { λ kind. kind ≡ Eof };

    fn default() -> Kind {
        Kind::Eof
    }
}

impl Kind {
    /// The number of the kind, from 0 on.
    pub const fn number(self) -> u8
        ensures { result ≡ number self }
    {
        self as u8
    }

    /// Whether two kinds are the same.
    pub fn is_same(self, other: Kind) -> bool
        ensures { IsTrue result ↔ (self ≡ other) }
    {
        self.number() == other.number()
    }

    /// Whether it is this kind.
    pub(crate) const fn is_kind(self, other: Kind) -> bool
        ensures { result ≡ is_kind other self }
    {
        self.number() == other.number()
    }

    /// Whether the number of the kind is one of those from `first` to `last`.
    pub(crate) const fn is_between(self, first: Kind, last: Kind) -> bool
        ensures { result ≡ is_in_range (number first) (number last) (number self) }
    {
        first.number() <= self.number() && self.number() <= last.number()
    }

    /// Whether the text of the kind is a word, reserved or not.
    #[tactic(auto, using(crate::proofs::Classes::words_are_between))]
    pub const fn is_any_keyword(self) -> bool
        ensures { result ≡ is_name_kind self }
    {
        either(
            self.is_between(Kind::Await, Kind::Null),
            self.is_kind(Kind::MatchKw),
        )
    }

    /// Whether the tokens of the kind are names (ECMA-262 12.7, IdentifierName).
    #[tactic(auto, using(crate::proofs::Classes::names_are_between))]
    pub const fn is_identifier_name(self) -> bool
        ensures { result ≡ is_identifier_name self }
    {
        either(
            self.is_between(Kind::Ident, Kind::Null),
            self.is_kind(Kind::MatchKw),
        )
    }

    /// Whether the tokens of the kind are numbers (ECMA-262 12.9.3, NumericLiteral).
    #[tactic(auto, using(crate::proofs::Classes::numbers_are_between))]
    pub const fn is_number(self) -> bool
        ensures { result ≡ is_number_kind self }
    {
        self.is_between(Kind::Decimal, Kind::HexBigInt)
    }

    /// Whether the tokens of the kind are reserved words (ECMA-262 12.7.2, ReservedWord).
    #[tactic(auto, using(crate::proofs::Classes::reserved_words_are_between))]
    pub const fn is_reserved_keyword(self) -> bool
        ensures { result ≡ is_reserved_keyword self }
    {
        either(
            self.is_between(Kind::Await, Kind::With),
            self.is_between(Kind::Yield, Kind::Null),
        )
    }

    /// Whether the tokens of the kind are names that are not reserved (ECMA-262 13.1, Identifier).
    #[tactic(auto, unfolding(crate::specs::Kinds::is_identifier))]
    pub const fn is_identifier(self) -> bool
        ensures { result ≡ is_identifier self }
    {
        self.is_identifier_name() && !self.is_reserved_keyword()
    }

    /// Whether the tokens of the kind are literals (ECMA-262 13.2.3 and 13.2.7).
    #[tactic(auto, using(crate::proofs::Classes::literals_are_between))]
    pub const fn is_literal(self) -> bool
        ensures { result ≡ is_literal self }
    {
        either(
            self.is_between(Kind::True, Kind::Null),
            self.is_between(Kind::Decimal, Kind::RegExp),
        )
    }

    /// Whether the tokens of the kind are assignment operators (ECMA-262 13.15).
    #[tactic(auto, unfolding(crate::specs::Kinds::is_assignment_operator))]
    pub const fn is_assignment_operator(self) -> bool
        ensures { result ≡ is_assignment_operator self }
    {
        matches!(
            self,
            Kind::Eq
                | Kind::PlusEq
                | Kind::MinusEq
                | Kind::StarEq
                | Kind::SlashEq
                | Kind::PercentEq
                | Kind::ShiftLeftEq
                | Kind::ShiftRightEq
                | Kind::ShiftRight3Eq
                | Kind::Pipe2Eq
                | Kind::Amp2Eq
                | Kind::PipeEq
                | Kind::CaretEq
                | Kind::AmpEq
                | Kind::Question2Eq
                | Kind::Star2Eq
        )
    }

    /// Whether the tokens of the kind are binary operators (ECMA-262 13.6 to 13.12).
    #[tactic(auto, unfolding(crate::specs::Kinds::is_binary_operator))]
    pub const fn is_binary_operator(self) -> bool
        ensures { result ≡ is_binary_operator self }
    {
        matches!(
            self,
            Kind::Eq2
                | Kind::Neq
                | Kind::Eq3
                | Kind::Neq2
                | Kind::LAngle
                | Kind::LtEq
                | Kind::RAngle
                | Kind::GtEq
                | Kind::ShiftLeft
                | Kind::ShiftRight
                | Kind::ShiftRight3
                | Kind::Plus
                | Kind::Minus
                | Kind::Star
                | Kind::Slash
                | Kind::Percent
                | Kind::Pipe
                | Kind::Caret
                | Kind::Amp
                | Kind::In
                | Kind::Instanceof
                | Kind::Star2
                | Kind::PipeGt
        )
    }

    /// Whether the tokens of the kind are logical operators (ECMA-262 13.13).
    #[tactic(auto, unfolding(crate::specs::Kinds::is_logical_operator))]
    pub const fn is_logical_operator(self) -> bool
        ensures { result ≡ is_logical_operator self }
    {
        matches!(self, Kind::Pipe2 | Kind::Amp2 | Kind::Question2)
    }

    /// Whether the byte is a digit of numbers of the kind, which is `Decimal`, `Binary`, `Octal` or `Hex`.
    #[tactic(auto, unfolding(crate::specs::Digits::is_digit_of))]
    pub const fn matches_number_byte(self, b: u8) -> bool
        requires { IsTrue (is_integer_kind self) }
        ensures { result ≡ is_digit_of (radix_of self) b }
    {
        match self {
            Kind::Binary => b'0' <= b && b <= b'1',
            Kind::Octal => b'0' <= b && b <= b'7',
            Kind::Hex => b.is_ascii_hexdigit(),
            _ => b.is_ascii_digit(),
        }
    }
}
