//! The calls of a lexer by which a parser changes its lists: collected tokens, and what was reported.

ghost use Rattle.std.specs.Prelude.{◌≡◌, ◌↔◌, ◌-◌, ◌++◌, false, [], length, take, IsNone, option_to_list};
ghost use Rattle.js_text.specs.Lists.{with_last};
ghost use Rattle.js_lexer.specs.Lexer.{with_diagnostics};

use super::Lexer;
use js_kind::{LexerConfig, Token, TokenList};
use js_text::Diagnostic;

impl<C: LexerConfig + Drop> Lexer<'_, C> {
    /// Takes back what was reported last, if anything is left.
    pub fn pop_error(&mut self) -> Option<Diagnostic>
        ensures none { IsNone result ↔ (self.old.findings.diagnostics ≡ []) }
        ensures last { self.old.findings.diagnostics ≡ self.new.findings.diagnostics ++ option_to_list result }
        ensures after { self.new ≡ with_diagnostics self.new.findings.diagnostics self.old }
    {
        self.found.errors.pop()
    }

    /// Puts the token in the place of the last collected one; where none is collected, nothing changes.
    pub fn rewrite_last_collected_token(&mut self, token: Token)
        ensures { self.new ≡ record self.old { tokens = with_last self.old.tokens token } }
    {
        self.tokens.replace_last(token);
    }

    /// Puts these tokens in the place of the collected ones, with no place for more. A lexer that collects none is
    /// given none.
    pub fn set_tokens(&mut self, tokens: TokenList)
        requires { self.old.collects ≡ false → tokens ≡ [] }
        ensures { self.new ≡ record self.old { tokens = tokens; free = 0 } }
    {
        self.tokens = tokens.into_places();
    }

    /// Hands out the collected tokens but for the last one, which is the end of the source once all is read, and leaves
    /// none, and no place for more.
    pub fn finalize_tokens(&mut self) -> TokenList
        ensures tokens { result ≡ take (length self.old.tokens - 1) self.old.tokens }
        ensures after { self.new ≡ record self.old { tokens = []; free = 0 } }
    {
        let mut tokens = self.take_tokens();
        tokens.pop();
        tokens
    }
}
