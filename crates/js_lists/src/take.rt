//! Who receives what is live of a source.

ghost use Rattle.std.specs.Prelude.{OnOk, OnErr};
ghost use Rattle.js_grammar.specs.Outcome.{Findings as Found};
ghost use Rattle.js_lists.specs.Taken.{Taken, taken_as};

use js_kind::Token;
use js_lexer::Findings;
use js_text::{JSStr, RegexInfo, Span};
use std::alloc::AllocError;

/// The value of a token, as it is handed over: a decoded one is not copied.
#[derive(Clone, Copy, Drop)]
pub enum TokenValue<'v> {
    /// A token of a kind that has no value.
    Nothing,
    /// This stretch of the source, in bytes.
    Slice(Span),
    /// These UTF-16 units, since the spelling has escapes, or a CR in a template.
    Units(&'v JSStr),
    /// A part of a template with an escape that stands for nothing.
    Bad,
}

/// Takes what is live of a source: each token once, in order, when it is settled, and then what was found, once.
pub trait TakeTokens {
    /// A token was taken.
    ghost takes: { Self → Taken → Self → Type 0 };

    /// What was found was taken, behind all tokens.
    ghost ends: { Self → Found → Self → Type 0 };

    /// There was no memory to take a token, or what was found.
    ghost breaks_off: { Self → Self → Type 0 };

    /// Takes the next token, with its value, and with what is known of it as a regular expression if it is one.
    fn take(
        &mut self,
        token: &Token,
        value: TokenValue<'_>,
        regex: Option<RegexInfo>,
    ) -> Result<(), AllocError>
        ensures ok { OnOk result (takes self.old (taken_as token.now value.entry regex) self.new) }
        ensures err { OnErr result (breaks_off self.old self.new) };

    /// Takes what was found, behind the last token.
    fn end(&mut self, found: Findings) -> Result<(), AllocError>
        ensures ok { OnOk result (ends self.old found self.new) }
        ensures err { OnErr result (breaks_off self.old self.new) };
}
