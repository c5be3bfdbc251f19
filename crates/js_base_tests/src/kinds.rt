//! The kinds of the original, their classes, and which texts are words.

use js_kind::Kind;

/// Kinds with their numbers, names and texts.
static NAMED: [(Kind, u8, &str, &str); 7] = [
    (Kind::Eof, 0, "Eof", "EOF"),
    (Kind::Ident, 4, "Ident", "Identifier"),
    (Kind::KeyOf, 60, "KeyOf", "keyof"),
    (Kind::TypeKw, 72, "Type", "type"),
    (Kind::Amp, 92, "Amp", "&"),
    (Kind::PipeGt, 169, "PipeGt", "|>"),
    (Kind::MatchKw, 170, "Match", "match"),
];

#[test]
fn names_and_texts(rt: HostRuntime) {
    for &(kind, number, name, text) in &NAMED {
        let told = (kind.number(), kind.name(), kind.to_str());
        assert_eq!(rt; told, (number, name, text));
    }
}

/// A class of kinds, by the call that tells it.
enum Class {
    EndOfSource,
    Word,
    IdentifierName,
    Number,
    ContextualWord,
    FutureReservedWord,
    StrictModeWord,
    /// A name where `yield` is one, and `await` is none.
    Reference,
    /// A label where `await` is a name, and `yield` is none.
    Label,
    Binding,
    BindingOrPrivateOrPattern,
    /// A name of TypeScript where `yield` and `await` are names.
    TypeScriptName,
    AfterLet,
    AfterAwaitOrYield,
    LiteralPropertyName,
    IdentifierOrWord,
    BinaryOperator,
    UnaryOperator,
    UpdateOperator,
    TemplateStart,
    Modifier,
}

fn is_of(class: &Class, kind: Kind) -> bool {
    match class {
        Class::EndOfSource => kind.is_eof(),
        Class::Word => kind.is_any_keyword(),
        Class::IdentifierName => kind.is_identifier_name(),
        Class::Number => kind.is_number(),
        Class::ContextualWord => kind.is_contextual_keyword(),
        Class::FutureReservedWord => kind.is_future_reserved_keyword(),
        Class::StrictModeWord => kind.is_strict_mode_contextual_keyword(),
        Class::Reference => kind.is_identifier_reference(false, true),
        Class::Label => kind.is_label_identifier(true, false),
        Class::Binding => kind.is_binding_identifier(),
        Class::BindingOrPrivateOrPattern => {
            kind.is_binding_identifier_or_private_identifier_or_pattern()
        }
        Class::TypeScriptName => kind.is_ts_identifier(false, false),
        Class::AfterLet => kind.is_after_let(),
        Class::AfterAwaitOrYield => kind.is_after_await_or_yield(),
        Class::LiteralPropertyName => kind.is_literal_property_name(),
        Class::IdentifierOrWord => kind.is_identifier_or_keyword(),
        Class::BinaryOperator => kind.is_binary_operator(),
        Class::UnaryOperator => kind.is_unary_operator(),
        Class::UpdateOperator => kind.is_update_operator(),
        Class::TemplateStart => kind.is_template_start_of_tagged_template(),
        Class::Modifier => kind.is_modifier_kind(),
    }
}

/// Classes, and from which number to which the kinds of them go.
static CLASSES: [(Class, &[(u8, u8)]); 21] = [
    (Class::EndOfSource, &[(0, 0)]),
    (Class::Word, &[(5, 91), (170, 170)]),
    (Class::IdentifierName, &[(4, 91), (170, 170)]),
    (Class::Number, &[(149, 159)]),
    (Class::ContextualWord, &[(39, 79), (170, 170)]),
    (Class::FutureReservedWord, &[(80, 81), (83, 87)]),
    (Class::StrictModeWord, &[(80, 87)]),
    (Class::Reference, &[(4, 4), (39, 88), (170, 170)]),
    (Class::Label, &[(4, 5), (39, 87), (170, 170)]),
    (Class::Binding, &[(4, 5), (39, 88), (170, 170)]),
    (
        Class::BindingOrPrivateOrPattern,
        &[(4, 5), (39, 88), (108, 109), (166, 166), (170, 170)],
    ),
    (Class::TypeScriptName, &[(4, 5), (88, 88)]),
    (
        Class::AfterLet,
        &[(4, 24), (27, 91), (108, 109), (170, 170)],
    ),
    (
        Class::AfterAwaitOrYield,
        &[(4, 24), (27, 91), (149, 161), (170, 170)],
    ),
    (
        Class::LiteralPropertyName,
        &[(4, 91), (149, 160), (170, 170)],
    ),
    (
        Class::IdentifierOrWord,
        &[(4, 91), (149, 160), (166, 166), (170, 170)],
    ),
    // `in`, `instanceof`, `&`, `^`, `==`, `===`, `>=`, `<`, `<=`, `-`, `!=`, `!==`, `%`, `|`, `+`, `>`, `<<`, `>>`,
    // `>>>`, `/`, `*`, `**` and `|>`.
    (
        Class::BinaryOperator,
        &[
            (25, 26),
            (92, 92),
            (97, 97),
            (104, 107),
            (111, 112),
            (115, 117),
            (119, 119),
            (123, 123),
            (130, 130),
            (135, 135),
            (137, 138),
            (141, 141),
            (143, 144),
            (169, 169),
        ],
    ),
    // `delete`, `typeof`, `void`, `!`, `-`, `+` and `~`.
    (
        Class::UnaryOperator,
        &[
            (14, 14),
            (34, 34),
            (36, 36),
            (96, 96),
            (112, 112),
            (123, 123),
            (147, 147),
        ],
    ),
    (Class::UpdateOperator, &[(113, 113), (124, 124)]),
    (Class::TemplateStart, &[(162, 163)]),
    // `const`, `default`, `export`, `in`, `async`, `accessor`, `abstract`, `declare`, `out`, `readonly`, `override`,
    // `private`, `protected`, `public` and `static`.
    (
        Class::Modifier,
        &[
            (10, 10),
            (13, 13),
            (18, 18),
            (25, 25),
            (39, 39),
            (46, 46),
            (49, 49),
            (56, 56),
            (64, 65),
            (79, 79),
            (84, 87),
        ],
    ),
];

/// Whether a number lies within one of the ranges.
fn lies_within(number: u8, ranges: &[(u8, u8)]) -> bool {
    for &(first, last) in ranges {
        if first <= number && number <= last {
            return true;
        }
    }
    false
}

#[test]
fn classes(rt: HostRuntime) {
    for (row, (class, ranges)) in CLASSES.iter().enumerate() {
        for kind in Kind::VARIANTS.iter() {
            let number = kind.number();
            let is_told = is_of(class, *kind) == lies_within(number, ranges);
            assert!(rt; is_told, "row {row}, kind {number}");
        }
    }
}

/// Texts with the kinds of names that they are.
static NAMES: [(&str, Kind); 20] = [
    ("match", Kind::MatchKw),
    ("matches", Kind::Ident),
    ("let", Kind::Let),
    ("type", Kind::TypeKw),
    ("this", Kind::This),
    ("instanceof", Kind::Instanceof),
    ("constructor", Kind::Constructor),
    ("", Kind::Ident),
    ("a", Kind::Ident),
    ("Await", Kind::Ident),
    ("LET", Kind::Ident),
    ("lets", Kind::Ident),
    ("le", Kind::Ident),
    ("typekw", Kind::Ident),
    ("instanceoff", Kind::Ident),
    ("constructos", Kind::Ident),
    ("interfacf", Kind::Ident),
    ("ident", Kind::Ident),
    ("eof", Kind::Ident),
    ("l\u{E9}t", Kind::Ident),
];

#[test]
fn kinds_of_names(rt: HostRuntime) {
    for &(text, kind) in &NAMES {
        assert_eq!(rt; Kind::match_keyword(text), kind, "{text}");
    }
}

/// Kinds of numbers, a byte, and whether it is a digit of such a number.
static DIGITS: [(Kind, u8, bool); 8] = [
    (Kind::Binary, b'1', true),
    (Kind::Binary, b'2', false),
    (Kind::Octal, b'7', true),
    (Kind::Octal, b'8', false),
    (Kind::Decimal, b'9', true),
    (Kind::Decimal, b'A', false),
    (Kind::Hex, b'F', true),
    (Kind::Hex, b'g', false),
];

#[test]
fn digits(rt: HostRuntime) {
    for &(kind, byte, is_digit) in &DIGITS {
        assert_eq!(rt; kind.matches_number_byte(byte), is_digit, "{byte}");
    }
}
