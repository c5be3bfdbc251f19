//! What a chooser of goals knows behind a token.

ghost use Rattle.std.specs.Prelude.{◌≡◌, ◌↔◌, ℕ, false, List, [], ◌∷◌, ◌++◌, Option, IfOk, IsTrue};
ghost use Rattle.js_text.specs.Lists.{with_last};
ghost use Rattle.js_kind.specs.TokenParts.{TokenParts};
ghost use Rattle.js_grammar.specs.ReLexed.{is_re_lexed};
ghost use Rattle.js_session.specs.declared.command.Command.{Command};
ghost use Rattle.js_choose.specs.Rules.{IsRule};
ghost use Rattle.js_relex.specs.Joined.{at_start};
ghost use Rattle.js_document.specs.declared.open.Node.{Node};
ghost use Rattle.js_document.specs.States.{AlikeAgain, AlikeBehind, AlikeItself, ChoosesAlike, IsLast, KnowsAlike};
ghost use Rattle.js_document.specs.Trie.{HasMore};

use crate::open::OpenTrie;
use js_kind::Token;
use js_session::Command;
use std::alloc::AllocError;

/// What a chooser of goals knows of the tokens of a text so far, without the last one: a small value, with links to what
/// is open. So it is kept for each token, and a chooser may go on behind each of them.
pub trait KeepGoals: Copy + Drop {
    /// The rule: the command that comes next, by a text and its tokens so far. None: no command follows.
    ghost choice: { List ℕ → List TokenParts → Option Command };

    /// This is known of these tokens, where links lead to these nodes.
    ghost knows: { List Node → Self → List TokenParts → Type 0 };

    /// The same commands come next behind both lists of tokens, as long as the same tokens follow.
    ghost alike: { List TokenParts → List TokenParts → Type 0 };

    /// What is known of a first token.
    fn first() -> Self
        ensures { (nodes : List Node) (token : TokenParts) → knows nodes result (token ∷ []) };

    /// What is known where one token more was read behind the last one.
    fn behind(self, open: &mut OpenTrie, last: &Token) -> Result<Self, AllocError>
        requires { (tokens : List TokenParts) × knows open.old self tokens × IsLast last.now tokens }
        ensures ok { (tokens : List TokenParts) (token : TokenParts) → knows open.old self tokens → IsLast last.now tokens
            → IfOk result (λ new. knows open.new new (tokens ++ token ∷ [])) }
        ensures more { HasMore open.old open.new };

    /// What is known where another token was read in the place of the last one, which none reads again.
    fn again(self) -> Self
        ensures { (nodes : List Node) (tokens : List TokenParts) (token : TokenParts) → is_re_lexed token.kind ≡ false
            → knows nodes self tokens → knows nodes result (with_last tokens token) };

    /// The command that comes next in the text whose tokens these are. None: no command follows.
    fn command(self, open: &OpenTrie, text: &str, last: &Token) -> Option<Command>
        ensures { (tokens : List TokenParts) → knows open.now self tokens → IsLast last.now tokens
            → result ≡ choice text.now tokens };

    /// Whether the same commands come next behind both, where the last tokens are this one, wherever they stand.
    fn is_alike(self, other: Self, open: &OpenTrie, last: &Token) -> bool
        ensures { (tokens others : List TokenParts) (token : TokenParts) → knows open.now self tokens
            → knows open.now other others → IsLast last.now tokens → IsLast token others
            → at_start token ≡ at_start last.now → IsTrue result ↔ alike tokens others };

    /// Each command that is chosen may come behind the last token.
    ghost is_rule: { IsRule choice };

    /// What is known stays known where more is opened.
    ghost stays: { (old new : List Node) (state : Self) (tokens : List TokenParts) → HasMore old new
        → knows old state tokens → knows new state tokens };

    /// What is known of tokens is known of those that are like them.
    ghost knows_alike: { KnowsAlike {K = Self} knows alike };

    ghost chooses_alike: { ChoosesAlike choice alike };

    ghost alike_itself: { AlikeItself alike };

    ghost alike_behind: { AlikeBehind alike };

    ghost alike_again: { AlikeAgain alike };
}
