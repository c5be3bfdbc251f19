//! What a parser asks of the kind of a token at a place.

ghost use Rattle.std.specs.Prelude.{◌≡◌};
ghost use Rattle.js_kind.specs.Predicates.{is_eof, is_contextual_keyword};
ghost use Rattle.js_kind.specs.Predicates.{is_strict_mode_contextual_keyword};
ghost use Rattle.js_kind.specs.Predicates.{is_future_reserved_keyword, is_binding_identifier};
ghost use Rattle.js_kind.specs.Predicates.{is_identifier_reference, is_ts_identifier, is_after_let};
ghost use Rattle.js_kind.specs.Predicates.{is_after_await_or_yield, is_literal_property_name};
ghost use Rattle.js_kind.specs.Predicates.{is_identifier_or_keyword, is_unary_operator, is_update_operator};
ghost use Rattle.js_kind.specs.Predicates.{is_template_start_of_tagged_template, is_modifier_kind};
ghost use Rattle.js_kind.specs.Predicates.{is_binding_identifier_or_private_identifier_or_pattern};

use crate::kind::Kind;
use js_text::either;

impl Kind {
    /// Whether it is the end of the source.
    #[tactic(auto, unfolding(crate::specs::Predicates::is_eof))]
    pub const fn is_eof(self) -> bool
        ensures { result ≡ is_eof self }
    {
        self.is_kind(Kind::Eof)
    }

    /// Whether the text of the kind is a word with a meaning of its own at some places, in JavaScript or in TypeScript,
    /// that no code reserves.
    #[tactic(auto, using(crate::proofs::Classes::contextual_words_are_between))]
    pub const fn is_contextual_keyword(self) -> bool
        ensures { result ≡ is_contextual_keyword self }
    {
        either(
            self.is_between(Kind::Async, Kind::Override),
            self.is_kind(Kind::MatchKw),
        )
    }

    /// Whether the text of the kind is `let` or a word that strict mode code reserves, `yield` left out
    /// (ECMA-262 12.7.2).
    #[tactic(auto, unfolding(crate::specs::Predicates::is_strict_mode_contextual_keyword))]
    pub const fn is_strict_mode_contextual_keyword(self) -> bool
        ensures { result ≡ is_strict_mode_contextual_keyword self }
    {
        matches!(
            self,
            Kind::Let
                | Kind::Static
                | Kind::Implements
                | Kind::Interface
                | Kind::Package
                | Kind::Private
                | Kind::Protected
                | Kind::Public
        )
    }

    /// Whether the text of the kind is a word that strict mode code reserves, `let` and `yield` left out
    /// (ECMA-262 12.7.2).
    #[tactic(auto, unfolding(crate::specs::Predicates::is_future_reserved_keyword))]
    pub const fn is_future_reserved_keyword(self) -> bool
        ensures { result ≡ is_future_reserved_keyword self }
    {
        matches!(
            self,
            Kind::Static
                | Kind::Implements
                | Kind::Interface
                | Kind::Package
                | Kind::Private
                | Kind::Protected
                | Kind::Public
        )
    }

    /// Whether tokens of the kind are names where the grammar's parameters [Yield] and [Await] are set as given
    /// (ECMA-262 13.1, IdentifierReference).
    #[tactic(auto, unfolding(crate::specs::Predicates::is_identifier_reference))]
    pub const fn is_identifier_reference(self, has_yield: bool, has_await: bool) -> bool
        ensures { result ≡ is_identifier_reference has_yield has_await self }
    {
        self.is_identifier()
            || (self.is_kind(Kind::Yield) && !has_yield)
            || (self.is_kind(Kind::Await) && !has_await)
    }

    /// Whether tokens of the kind are labels where the grammar's parameters [Yield] and [Await] are set as given
    /// (ECMA-262 13.1, LabelIdentifier).
    pub const fn is_label_identifier(self, has_yield: bool, has_await: bool) -> bool
        ensures { result ≡ is_identifier_reference has_yield has_await self }
    {
        self.is_identifier_reference(has_yield, has_await)
    }

    /// Whether tokens of the kind may bind a name. `yield` and `await` do at some places (ECMA-262 13.1,
    /// BindingIdentifier).
    #[tactic(auto, unfolding(crate::specs::Predicates::is_binding_identifier))]
    pub const fn is_binding_identifier(self) -> bool
        ensures { result ≡ is_binding_identifier self }
    {
        self.is_identifier() || self.is_kind(Kind::Yield) || self.is_kind(Kind::Await)
    }

    /// Whether tokens of the kind are names where the grammar's parameters [Yield] and [Await] are set as given, and no
    /// words with a meaning of their own.
    #[tactic(auto, unfolding(crate::specs::Predicates::is_ts_identifier))]
    pub const fn is_ts_identifier(self, has_yield: bool, has_await: bool) -> bool
        ensures { result ≡ is_ts_identifier has_yield has_await self }
    {
        self.is_identifier_reference(has_yield, has_await)
            && !self.is_strict_mode_contextual_keyword()
            && !self.is_contextual_keyword()
    }

    /// Whether a token of the kind after `let` begins a binding, so that the `let` is no name (ECMA-262 14.3.1).
    #[tactic(auto, unfolding(crate::specs::Predicates::is_after_let))]
    pub const fn is_after_let(self) -> bool
        ensures { result ≡ is_after_let self }
    {
        let begins_pattern = either(self.is_kind(Kind::LCurly), self.is_kind(Kind::LBrack));
        either(begins_pattern, self.is_identifier_name())
            && !either(self.is_kind(Kind::In), self.is_kind(Kind::Instanceof))
    }

    /// Whether a token of the kind after `await` or `yield` begins an operand. Not all that may begin one are told:
    /// those are literals and names, and no binary operators.
    #[tactic(auto, unfolding(crate::specs::Predicates::is_after_await_or_yield))]
    pub const fn is_after_await_or_yield(self) -> bool
        ensures { result ≡ is_after_await_or_yield self }
    {
        either(self.is_literal(), self.is_identifier_name()) && !self.is_binary_operator()
    }

    /// Whether tokens of the kind are names of properties, computed ones left out (ECMA-262 13.2.5,
    /// LiteralPropertyName).
    #[tactic(auto, using(crate::proofs::Classes::property_names_by_parts))]
    pub const fn is_literal_property_name(self) -> bool
        ensures { result ≡ is_literal_property_name self }
    {
        either(
            self.is_identifier_name(),
            self.is_between(Kind::Decimal, Kind::Str),
        )
    }

    /// Whether tokens of the kind are names of properties, computed ones left out, or private names.
    #[tactic(auto, unfolding(crate::specs::Predicates::is_identifier_or_keyword))]
    pub const fn is_identifier_or_keyword(self) -> bool
        ensures { result ≡ is_identifier_or_keyword self }
    {
        either(
            self.is_literal_property_name(),
            self.is_kind(Kind::PrivateIdentifier),
        )
    }

    /// Whether the tokens of the kind are unary operators (ECMA-262 13.5).
    #[tactic(auto, unfolding(crate::specs::Predicates::is_unary_operator))]
    pub const fn is_unary_operator(self) -> bool
        ensures { result ≡ is_unary_operator self }
    {
        matches!(
            self,
            Kind::Minus
                | Kind::Plus
                | Kind::Bang
                | Kind::Tilde
                | Kind::Typeof
                | Kind::Void
                | Kind::Delete
        )
    }

    /// Whether the tokens of the kind are update operators (ECMA-262 13.4).
    #[tactic(auto, unfolding(crate::specs::Predicates::is_update_operator))]
    pub const fn is_update_operator(self) -> bool
        ensures { result ≡ is_update_operator self }
    {
        matches!(self, Kind::Plus2 | Kind::Minus2)
    }

    /// Whether a token of the kind begins the template of a tagged template (ECMA-262 13.3.11).
    #[tactic(auto, unfolding(crate::specs::Predicates::is_template_start_of_tagged_template))]
    pub const fn is_template_start_of_tagged_template(self) -> bool
        ensures { result ≡ is_template_start_of_tagged_template self }
    {
        matches!(self, Kind::NoSubstitutionTemplate | Kind::TemplateHead)
    }

    /// Whether tokens of the kind are modifiers of declarations and members, as TypeScript has them.
    #[tactic(auto, unfolding(crate::specs::Predicates::is_modifier_kind))]
    pub const fn is_modifier_kind(self) -> bool
        ensures { result ≡ is_modifier_kind self }
    {
        matches!(
            self,
            Kind::Abstract
                | Kind::Accessor
                | Kind::Async
                | Kind::Const
                | Kind::Declare
                | Kind::In
                | Kind::Out
                | Kind::Public
                | Kind::Private
                | Kind::Protected
                | Kind::Readonly
                | Kind::Static
                | Kind::Override
                | Kind::Default
                | Kind::Export
        )
    }

    /// Whether a token of the kind begins a binding, a name or a pattern, or is a private name.
    #[tactic(auto, unfolding(crate::specs::Predicates::is_binding_identifier_or_private_identifier_or_pattern))]
    pub const fn is_binding_identifier_or_private_identifier_or_pattern(self) -> bool
        ensures { result ≡ is_binding_identifier_or_private_identifier_or_pattern self }
    {
        self.is_kind(Kind::LCurly)
            || self.is_kind(Kind::LBrack)
            || self.is_kind(Kind::PrivateIdentifier)
            || self.is_binding_identifier()
    }
}
