//! The configuration of a lexer that is driven by the goals that are chosen.

ghost use Rattle.std.specs.Prelude.{refl, true, false};

use js_kind::LexerConfig;
use std::marker::PhantomData;

/// No tokens are collected. It is a type of its own for each kind of chooser, so that the readings by one rule are
/// compiled apart from those by another: what reads a token for one alone is part of its loop.
#[derive(Drop)]
pub(crate) struct DrivenLexerConfig<G> {
    of: PhantomData<G>,
}

impl<G> Default for DrivenLexerConfig<G> {
    fn default() -> DrivenLexerConfig<G> {
        DrivenLexerConfig { of: PhantomData }
    }
}

impl<G> LexerConfig for DrivenLexerConfig<G> {
    const TOKENS_METHOD_IS_STATIC: bool = true;

    ghost TOKENS_METHOD_IS_STATIC = { true };

    ghost collects = { λ _. false };

    ghost is_static = { λ _ a b. refl };

    fn tokens(&self) -> bool {
        false
    }
}
