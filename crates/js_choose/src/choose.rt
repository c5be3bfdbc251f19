//! Choosers: each is told the tokens of a text, one by one, and says which command comes next.

ghost use Rattle.std.specs.Prelude.{◌≡◌, ℕ, List, [], ◌∷◌, ◌++◌, Option, Some, OnOk, OnErr};
ghost use Rattle.js_text.specs.Lists.{with_last};
ghost use Rattle.js_kind.specs.TokenParts.{TokenParts};
ghost use Rattle.js_session.specs.declared.command.Command.{Command};
ghost use Rattle.js_choose.specs.Rules.{IsDue};

use js_kind::Token;
use js_session::Command;
use std::alloc::{AllocError, Global};

/// Chooses goals, as a lexer is driven: it is told each token of a text, and says which command comes next, by a rule.
pub trait ChooseGoals: Drop {
    /// The rule: the command that comes next, by a text and its tokens so far. None: no command follows.
    ghost choice: { List ℕ → List TokenParts → Option Command };

    /// It was told these tokens.
    ghost is_told: { Self → List TokenParts → Type 0 };

    /// It was told them, and has passed the last one.
    ghost has_passed: { Self → List TokenParts → Type 0 };

    /// A chooser that was told no token yet.
    fn new(alloc: Global) -> Self
        ensures { is_told result [] };

    /// Takes up what the last token does, if there is one, as the next one is to be read behind it: `read_passed` takes
    /// notice of that then. Where there is no memory for it, the chooser stays as it was.
    fn pass(&mut self) -> Result<(), AllocError>
        ensures ok { (tokens : List TokenParts) → is_told self.old tokens → OnOk result (has_passed self.new tokens) }
        ensures err { OnErr result (self.new ≡ self.old) };

    /// Takes notice of a token that was read behind the last one, which was passed. It succeeds without memory.
    fn read_passed(&mut self, token: &Token)
        ensures { (tokens : List TokenParts) → has_passed self.old tokens
            → is_told self.new (tokens ++ token.now ∷ []) };

    /// Takes notice of a token that was read again, in the place of the last one.
    fn read_again(&mut self, token: &Token)
        ensures { (tokens : List TokenParts) → is_told self.old tokens
            → is_told self.new (with_last tokens token.now) };

    /// The command that comes next in the text whose tokens it was told. None: no command follows.
    fn command(&self, text: &str) -> Option<Command>
        ensures { (tokens : List TokenParts) → is_told self.now tokens → result ≡ choice text.now tokens };

    /// Each command that is chosen may come behind the last token: one that reads on, but not behind the end of the
    /// source, or one that reads this token again.
    ghost is_rule: { (text : List ℕ) (tokens : List TokenParts) (command : Command)
        → choice text tokens ≡ Some command → IsDue text tokens command };
}
