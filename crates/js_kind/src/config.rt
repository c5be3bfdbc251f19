//! Configurations of a lexer.

ghost use Rattle.std.specs.Prelude.{◌≡◌, refl, Bool, true, false};
ghost use Rattle.std.proofs.lemmas.Bool.{both_ways};

use std::marker::Model;

/// Whether a lexer collects its tokens.
pub trait LexerConfig: Default {
    /// Whether all values of the type answer alike.
    const TOKENS_METHOD_IS_STATIC: bool;

    ghost TOKENS_METHOD_IS_STATIC: { Bool };

    ghost collects: { Self → Bool };

    /// Whether tokens are collected.
    fn tokens(&self) -> bool
        ensures { result ≡ collects self.now };

    ghost is_static: { TOKENS_METHOD_IS_STATIC ≡ true → (a b : Self) → collects a ≡ collects b };
}

/// No tokens are collected.
#[derive(Clone, Copy, Default)]
pub struct NoTokensLexerConfig;

impl LexerConfig for NoTokensLexerConfig {
    const TOKENS_METHOD_IS_STATIC: bool = true;

    ghost TOKENS_METHOD_IS_STATIC = { true };

    ghost collects = { λ _. false };

    ghost is_static = { λ _ a b. refl };

    fn tokens(&self) -> bool {
        false
    }
}

/// All tokens are collected.
#[derive(Clone, Copy, Default)]
pub struct TokensLexerConfig;

impl LexerConfig for TokensLexerConfig {
    const TOKENS_METHOD_IS_STATIC: bool = true;

    ghost TOKENS_METHOD_IS_STATIC = { true };

    ghost collects = { λ _. true };

    ghost is_static = { λ _ a b. refl };

    fn tokens(&self) -> bool {
        true
    }
}

/// The value decides whether tokens are collected.
#[derive(Clone, Copy)]
pub struct RuntimeLexerConfig {
    tokens: bool,
}

impl Model for RuntimeLexerConfig {
    ghost use Rattle.std.specs.Prelude.{Bool};

    ghost Value = { Bool };

    ghost view = { λ c. c.tokens };

    ghost inverse = { λ b. record { tokens = b } };
}

impl Default for RuntimeLexerConfig {
    ghost use Rattle.std.specs.Prelude.{false};

    ghost is_default = { λ config. config ≡ false };

    fn default() -> RuntimeLexerConfig {
        RuntimeLexerConfig::new(false)
    }
}

impl RuntimeLexerConfig {
    /// A configuration that collects tokens where `tokens` says so.
    pub fn new(tokens: bool) -> RuntimeLexerConfig
        ensures { result ≡ tokens }
    {
        RuntimeLexerConfig { tokens }
    }
}

impl LexerConfig for RuntimeLexerConfig {
    const TOKENS_METHOD_IS_STATIC: bool = false;

    ghost TOKENS_METHOD_IS_STATIC = { false };

    ghost collects = { λ c. c };

    ghost is_static = { λ e a b. absurd (both_ways false refl e) };

    fn tokens(&self) -> bool {
        self.tokens
    }
}

/// Which lexer a parser has.
pub trait ParserConfig: Default {
    type LexerConfig: LexerConfig;

    ghost collects: { Self → Bool };

    /// The configuration of the lexer, which collects tokens where that of the parser does.
    fn lexer_config(&self) -> Self::LexerConfig
        ensures { Self.LexerConfig.collects result ≡ collects self.now };
}

/// The parser's lexer collects no tokens.
#[derive(Clone, Copy, Default)]
pub struct NoTokensParserConfig;

impl ParserConfig for NoTokensParserConfig {
    type LexerConfig = NoTokensLexerConfig;

    ghost collects = { λ _. false };

    fn lexer_config(&self) -> NoTokensLexerConfig {
        NoTokensLexerConfig
    }
}

/// The parser's lexer collects all tokens.
#[derive(Clone, Copy, Default)]
pub struct TokensParserConfig;

impl ParserConfig for TokensParserConfig {
    type LexerConfig = TokensLexerConfig;

    ghost collects = { λ _. true };

    fn lexer_config(&self) -> TokensLexerConfig {
        TokensLexerConfig
    }
}

/// The value decides whether the parser's lexer collects tokens.
#[derive(Clone, Copy)]
pub struct RuntimeParserConfig {
    tokens: bool,
}

impl Model for RuntimeParserConfig {
    ghost use Rattle.std.specs.Prelude.{Bool};

    ghost Value = { Bool };

    ghost view = { λ c. c.tokens };

    ghost inverse = { λ b. record { tokens = b } };
}

impl Default for RuntimeParserConfig {
    ghost use Rattle.std.specs.Prelude.{false};

    ghost is_default = { λ config. config ≡ false };

    fn default() -> RuntimeParserConfig {
        RuntimeParserConfig::new(false)
    }
}

impl RuntimeParserConfig {
    /// A configuration whose lexer collects tokens where `tokens` says so.
    pub fn new(tokens: bool) -> RuntimeParserConfig
        ensures { result ≡ tokens }
    {
        RuntimeParserConfig { tokens }
    }
}

impl ParserConfig for RuntimeParserConfig {
    type LexerConfig = RuntimeLexerConfig;

    ghost collects = { λ c. c };

    fn lexer_config(&self) -> RuntimeLexerConfig {
        RuntimeLexerConfig::new(self.tokens)
    }
}
