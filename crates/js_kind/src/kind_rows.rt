//! The table of kinds, with their names and texts.

ghost use Rattle.std.specs.Prelude.{◌≡◌};
ghost use Rattle.js_kind.specs.Packed.{kind_at, kinds_by_number};
ghost use Rattle.js_kind.specs.Kinds.{ListsByNumber, HasEachRow, names_of, row_of};

use crate::kind::Kind;

/// Hands the table to a macro: each kind with its name and its text, in the order of their numbers.
macro_rules! with_kinds {
    ($list:ident) => {
        $list! {
            Eof "Eof" "EOF",
            Undetermined "Undetermined" "Unknown",
            Skip "Skip" "Skipped",
            HashbangComment "HashbangComment" "#!",
            Ident "Ident" "Identifier",
            // keywords
            Await "Await" "await",
            Break "Break" "break",
            Case "Case" "case",
            Catch "Catch" "catch",
            Class "Class" "class",
            Const "Const" "const",
            Continue "Continue" "continue",
            Debugger "Debugger" "debugger",
            Default "Default" "default",
            Delete "Delete" "delete",
            Do "Do" "do",
            Else "Else" "else",
            Enum "Enum" "enum",
            Export "Export" "export",
            Extends "Extends" "extends",
            Finally "Finally" "finally",
            For "For" "for",
            Function "Function" "function",
            If "If" "if",
            Import "Import" "import",
            In "In" "in",
            Instanceof "Instanceof" "instanceof",
            New "New" "new",
            Return "Return" "return",
            Super "Super" "super",
            Switch "Switch" "switch",
            This "This" "this",
            Throw "Throw" "throw",
            Try "Try" "try",
            Typeof "Typeof" "typeof",
            Var "Var" "var",
            Void "Void" "void",
            While "While" "while",
            With "With" "with",
            // contextual words
            Async "Async" "async",
            From "From" "from",
            Get "Get" "get",
            Meta "Meta" "meta",
            Of "Of" "of",
            Set "Set" "set",
            Target "Target" "target",
            Accessor "Accessor" "accessor",
            Source "Source" "source",
            Defer "Defer" "defer",
            // words of TypeScript
            Abstract "Abstract" "abstract",
            As "As" "as",
            Asserts "Asserts" "asserts",
            Assert "Assert" "assert",
            Any "Any" "any",
            Boolean "Boolean" "boolean",
            Constructor "Constructor" "constructor",
            Declare "Declare" "declare",
            Infer "Infer" "infer",
            Intrinsic "Intrinsic" "intrinsic",
            Is "Is" "is",
            KeyOf "KeyOf" "keyof",
            Module "Module" "module",
            Namespace "Namespace" "namespace",
            Never "Never" "never",
            Out "Out" "out",
            Readonly "Readonly" "readonly",
            Require "Require" "require",
            Number "Number" "number",
            Object "Object" "object",
            Satisfies "Satisfies" "satisfies",
            String "String" "string",
            Symbol "Symbol" "symbol",
            TypeKw "Type" "type",
            Undefined "Undefined" "undefined",
            Unique "Unique" "unique",
            Using "Using" "using",
            Unknown "Unknown" "unknown",
            Global "Global" "global",
            BigInt "BigInt" "bigint",
            Override "Override" "override",
            // words that strict mode code reserves
            Implements "Implements" "implements",
            Interface "Interface" "interface",
            Let "Let" "let",
            Package "Package" "package",
            Private "Private" "private",
            Protected "Protected" "protected",
            Public "Public" "public",
            Static "Static" "static",
            Yield "Yield" "yield",
            // literals that are words
            True "True" "true",
            False "False" "false",
            Null "Null" "null",
            // punctuators
            Amp "Amp" "&",
            Amp2 "Amp2" "&&",
            Amp2Eq "Amp2Eq" "&&=",
            AmpEq "AmpEq" "&=",
            Bang "Bang" "!",
            Caret "Caret" "^",
            CaretEq "CaretEq" "^=",
            Colon "Colon" ":",
            Comma "Comma" ",",
            Dot "Dot" ".",
            Dot3 "Dot3" "...",
            Eq "Eq" "=",
            Eq2 "Eq2" "==",
            Eq3 "Eq3" "===",
            GtEq "GtEq" ">=",
            LAngle "LAngle" "<",
            LBrack "LBrack" "[",
            LCurly "LCurly" "{",
            LParen "LParen" "(",
            LtEq "LtEq" "<=",
            Minus "Minus" "-",
            Minus2 "Minus2" "--",
            MinusEq "MinusEq" "-=",
            Neq "Neq" "!=",
            Neq2 "Neq2" "!==",
            Percent "Percent" "%",
            PercentEq "PercentEq" "%=",
            Pipe "Pipe" "|",
            Pipe2 "Pipe2" "||",
            Pipe2Eq "Pipe2Eq" "||=",
            PipeEq "PipeEq" "|=",
            Plus "Plus" "+",
            Plus2 "Plus2" "++",
            PlusEq "PlusEq" "+=",
            Question "Question" "?",
            Question2 "Question2" "??",
            Question2Eq "Question2Eq" "??=",
            QuestionDot "QuestionDot" "?.",
            RAngle "RAngle" ">",
            RBrack "RBrack" "]",
            RCurly "RCurly" "}",
            RParen "RParen" ")",
            Semicolon "Semicolon" ";",
            ShiftLeft "ShiftLeft" "<<",
            ShiftLeftEq "ShiftLeftEq" "<<=",
            ShiftRight "ShiftRight" ">>",
            ShiftRight3 "ShiftRight3" ">>>",
            ShiftRight3Eq "ShiftRight3Eq" ">>>=",
            ShiftRightEq "ShiftRightEq" ">>=",
            Slash "Slash" "/",
            SlashEq "SlashEq" "/=",
            Star "Star" "*",
            Star2 "Star2" "**",
            Star2Eq "Star2Eq" "**=",
            StarEq "StarEq" "*=",
            Tilde "Tilde" "~",
            Arrow "Arrow" "=>",
            // numbers
            Decimal "Decimal" "decimal",
            Float "Float" "float",
            Binary "Binary" "binary",
            Octal "Octal" "octal",
            Hex "Hex" "hex",
            PositiveExponential "PositiveExponential" "float",
            NegativeExponential "NegativeExponential" "float",
            DecimalBigInt "DecimalBigInt" "decimal bigint",
            BinaryBigInt "BinaryBigInt" "binary bigint",
            OctalBigInt "OctalBigInt" "octal bigint",
            HexBigInt "HexBigInt" "hex bigint",
            // other literals and tokens
            Str "Str" "string",
            RegExp "RegExp" "/regexp/",
            NoSubstitutionTemplate "NoSubstitutionTemplate" "${}",
            TemplateHead "TemplateHead" "${",
            TemplateMiddle "TemplateMiddle" "${expr}",
            TemplateTail "TemplateTail" "}",
            PrivateIdentifier "PrivateIdentifier" "#identifier",
            JSXText "JSXText" "jsx",
            At "At" "@",
            PipeGt "PipeGt" "|>",
            MatchKw "Match" "match",
        }
    };
}

macro_rules! kinds {
    ($($kind:ident $name:literal $text:literal,)*) => {
        [$(Kind::$kind,)*]
    };
}

/// All kinds in the order of their numbers, then `Eof` so many times that each byte has a place.
macro_rules! kinds_then_ends {
    ($($kind:ident $name:literal $text:literal,)*) => {
        [
            $(Kind::$kind,)*
            Kind::Eof, Kind::Eof, Kind::Eof, Kind::Eof, Kind::Eof, Kind::Eof, Kind::Eof, Kind::Eof,
            Kind::Eof, Kind::Eof, Kind::Eof, Kind::Eof, Kind::Eof, Kind::Eof, Kind::Eof, Kind::Eof,
            Kind::Eof, Kind::Eof, Kind::Eof, Kind::Eof, Kind::Eof, Kind::Eof, Kind::Eof, Kind::Eof,
            Kind::Eof, Kind::Eof, Kind::Eof, Kind::Eof, Kind::Eof, Kind::Eof, Kind::Eof, Kind::Eof,
            Kind::Eof, Kind::Eof, Kind::Eof, Kind::Eof, Kind::Eof, Kind::Eof, Kind::Eof, Kind::Eof,
            Kind::Eof, Kind::Eof, Kind::Eof, Kind::Eof, Kind::Eof, Kind::Eof, Kind::Eof, Kind::Eof,
            Kind::Eof, Kind::Eof, Kind::Eof, Kind::Eof, Kind::Eof, Kind::Eof, Kind::Eof, Kind::Eof,
            Kind::Eof, Kind::Eof, Kind::Eof, Kind::Eof, Kind::Eof, Kind::Eof, Kind::Eof, Kind::Eof,
            Kind::Eof, Kind::Eof, Kind::Eof, Kind::Eof, Kind::Eof, Kind::Eof, Kind::Eof, Kind::Eof,
            Kind::Eof, Kind::Eof, Kind::Eof, Kind::Eof, Kind::Eof, Kind::Eof, Kind::Eof, Kind::Eof,
            Kind::Eof, Kind::Eof, Kind::Eof, Kind::Eof, Kind::Eof, Kind::Eof, Kind::Eof, Kind::Eof,
            Kind::Eof, Kind::Eof, Kind::Eof, Kind::Eof, Kind::Eof, Kind::Eof, Kind::Eof, Kind::Eof,
        ]
    };
}

macro_rules! rows {
    ($($kind:ident $name:literal $text:literal,)*) => {
        [$(Row { name: $name, text: $text },)*]
    };
}

/// How many kinds there are.
const COUNT: usize = with_kinds!(kinds).len();

/// The name of a kind, and its text.
pub(crate) struct Row {
    pub(crate) name: &'static str,
    pub(crate) text: &'static str,
}

/// The names and texts of all kinds, in the order of their numbers.
static ROWS: [Row; COUNT] = with_kinds!(rows);

/// The table of names and texts.
fn rows() -> &'static [Row; COUNT]
    ensures { HasEachRow result.now }
{
    &ROWS
}

/// How many ends stand behind the kinds in the table of bytes.
const ENDS: usize = 96;

/// The kind of each byte, so that a look-up tests no bound.
static KINDS: [Kind; COUNT + ENDS] = with_kinds!(kinds_then_ends);

/// The table of the kinds of bytes.
#[inline(always)]
fn by_number() -> &'static [Kind; COUNT + ENDS]
    ensures { result.now ≡ kinds_by_number }
{
    &KINDS
}

impl Kind {
    /// The kind of a number, and `Eof` where it is that of none.
    pub(crate) fn from_number(number: u8) -> Kind
        ensures { result ≡ kind_at number }
    {
        by_number()[number as usize]
    }

    /// All kinds, in the order of their numbers.
    pub const VARIANTS: [Kind; 171] = with_kinds!(kinds);

    /// The name and the text of the kind.
    pub(crate) fn row(self) -> &'static Row
        ensures { row_of result.now ≡ names_of self }
    {
        &rows()[self.number() as usize]
    }
}

/// The array of kinds has each kind at the place of its number.
pub fn variants_by_number()
    ensures { ListsByNumber Kind.VARIANTS }
{}
