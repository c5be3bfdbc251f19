//! The choice of goals, token by token.

ghost use Rattle.std.specs.Prelude.{◌≡◌, List, [], ◌∷◌, ◌++◌, OnOk, OnErr, Some};
ghost use Rattle.std.specs.Prelude.{IfSome, true};
ghost use Rattle.js_text.specs.Lists.{with_last};
ghost use Rattle.js_kind.specs.Kinds.{is_one_of};
ghost use Rattle.js_kind.specs.TokenParts.{TokenParts};
ghost use Rattle.js_grammar.specs.ReLexed.{again_kinds};
ghost use Rattle.js_auto.specs.Choice.{begins_expression, choice, chooser_of};
ghost use Rattle.js_auto.specs.Braces.{is_in_substitution, open_behind};
ghost use Rattle.js_auto.specs.Choice.{choice_behind, chooser_behind};
ghost use Rattle.js_auto.specs.declared.brace.Brace.{Brace};

use crate::brace::OpenBraces;
use crate::notable::NotableKinds;
use js_choose::{ChooseGoals, ends_operand};
use js_grammar::Goal;
use js_kind::{Kind, Token};
use js_session::Command;
use std::alloc::{AllocError, Global};
use std::marker::Model;

/// Chooses goals, as a lexer is driven: it is told each token, and says which command comes next. A step costs the same
/// however many tokens came before.
///
/// It knows the grammar of tokens alone. A `/` divides behind a token with which an operand may end, `)` and `}` among
/// them, and begins a regular expression behind any other. A `}` ends the substitution of a template, if that is what
/// was opened last.
#[derive(Drop)]
pub struct GoalChooser {
    /// The braces that are open before the last token.
    braces: OpenBraces,
    kinds: NotableKinds,
    alloc: Global,
    /// The token before the last one, and the default one, of kind `Eof`, with which no operand ends, where there is
    /// none.
    before: Token,
    /// The last token, and the default one where there is none.
    last: Token,
    has_last: bool,
}

impl Model for GoalChooser {
    ghost use Rattle.std.specs.Prelude.{◌≡◌, false};
    ghost use Rattle.js_kind.specs.declared.kind.Kind.TheVariants.{Eof};
    ghost use Rattle.js_auto.specs.Choice.{Chooser, kept_last};

    ghost Value = { Chooser };

    ghost view = { λ c. record {
      stack = c.braces;
      before = c.before.kind;
      last = kept_last c.has_last c.last.kind;
    } };

    ghost invariant = { λ c. c.has_last ≡ false → c.last.kind ≡ Eof };
}

/// Whether a token of the kind begins a regular expression behind one of the kind before.
fn begins_expression(before: Kind, kind: Kind) -> bool
    ensures { result ≡ begins_expression before kind }
{
    Goal::RegularExpression.reads_again(kind) && !ends_operand(before)
}

/// The command behind a last token of the kind, where the one before is of that kind; it is told whether the last one
/// stands in the substitution of a template.
#[cold]
#[inline(never)]
fn command_behind(in_template: bool, before: Kind, last: Kind) -> Option<Command>
    ensures { (stack : List Brace) → in_template ≡ is_in_substitution stack
        → result ≡ choice_behind stack before (Some last) }
{
    if last.is_eof() {
        None
    } else if Goal::TemplateTail.reads_again(last) && in_template {
        Some(Command::TemplateTail)
    } else if begins_expression(before, last) {
        Some(Command::Regex)
    } else {
        Some(Command::Next)
    }
}

impl GoalChooser {
    /// A chooser that was told no token yet. It needs no memory yet.
    pub fn new(alloc: Global) -> GoalChooser
        ensures { result ≡ chooser_of [] }
    {
        GoalChooser {
            braces: OpenBraces::new(alloc),
            kinds: NotableKinds::new(),
            alloc,
            before: Token::default(),
            last: Token::default(),
            has_last: false,
        }
    }

    /// The kind of the last token, if there is one.
    #[inline(always)]
    fn last(&self) -> Option<Kind>
        ensures { result ≡ self.now.last }
    {
        if self.has_last {
            Some(self.last.kind())
        } else {
            None
        }
    }

    /// Takes up what the last token does to the braces, if there is one. They are handed over and taken back, so that
    /// what else is kept can stay in registers.
    #[inline(always)]
    fn pass_last(&mut self) -> Result<(), AllocError>
        ensures ok { OnOk result (self.new ≡ record self.old { stack = open_behind self.old.last self.old.stack }) }
        ensures err { OnErr result (self.new ≡ self.old) }
    {
        let before = std::mem::replace(&mut self.braces, OpenBraces::new(self.alloc));
        let (braces, passed) = before.behind(self.last());
        self.braces = braces;
        passed
    }

    /// Takes up what the last token does to the braces, if there is one, as the next one is to be read behind it:
    /// `read_passed` takes notice of that then. Where there is no memory for an open brace, the chooser stays as it
    /// was.
    #[inline(always)]
    pub fn pass(&mut self) -> Result<(), AllocError>
        ensures ok { (tokens : List TokenParts) → self.old ≡ chooser_of tokens
            → OnOk result (self.new ≡ chooser_behind tokens) }
        ensures err { OnErr result (self.new ≡ self.old) }
    {
        if self.kinds.is_notable(&self.last) {
            self.pass_last()?;
        }
        Ok(())
    }

    /// Takes notice of a token that was read behind the last one, which was passed. It succeeds without memory.
    #[inline(always)]
    pub fn read_passed(&mut self, token: &Token)
        ensures { (tokens : List TokenParts) → self.old ≡ chooser_behind tokens
            → self.new ≡ chooser_of (tokens ++ token.now ∷ []) }
    {
        self.before = self.last;
        self.last = *token;
        self.has_last = true;
    }

    /// Does both, where nothing comes between.
    #[inline(always)]
    pub fn read(&mut self, token: &Token) -> Result<(), AllocError>
        ensures ok { (tokens : List TokenParts) → self.old ≡ chooser_of tokens
            → OnOk result (self.new ≡ chooser_of (tokens ++ token.now ∷ [])) }
        ensures err { OnErr result (self.new ≡ self.old) }
    {
        self.pass()?;
        self.read_passed(token);
        Ok(())
    }

    /// Takes notice of a token that was read again, in the place of the last one.
    pub fn read_again(&mut self, token: &Token)
        ensures { (tokens : List TokenParts) → self.old ≡ chooser_of tokens
            → self.new ≡ chooser_of (with_last tokens token.now) }
    {
        if self.has_last {
            self.last = *token;
        }
    }

    /// The command that comes next: `Command::Regex` or `Command::TemplateTail` where the last token is to be read
    /// again, else `Command::Next`. None behind the end of the source.
    #[inline(always)]
    pub fn command(&self) -> Option<Command>
        ensures choice { (tokens : List TokenParts) → self.now ≡ chooser_of tokens → result ≡ choice tokens }
        // A token that is to be read again is of a kind that can be.
        ensures part { result ≡ Some Command.TemplateTail → self.now.last ≡ Some Kind.RCurly }
        ensures expression { result ≡ Some Command.Regex → IfSome self.now.last (λ kind.
            is_one_of (again_kinds Goal.RegularExpression) kind ≡ true) }
    {
        // Few tokens change what comes next.
        if !self.kinds.is_notable(&self.last) {
            return Some(Command::Next);
        }
        let Some(last) = self.last() else {
            return Some(Command::Next);
        };
        command_behind(self.braces.is_in_substitution(), self.before.kind(), last)
    }
}

impl ChooseGoals for GoalChooser {
    ghost use Rattle.js_auto.specs.Choice.{choice_in};
    ghost use Rattle.js_auto.specs.DueLemmas.{each_is_due};

    ghost choice = { choice_in };

    ghost is_told = { λ c tokens. c ≡ chooser_of tokens };

    ghost has_passed = { λ c tokens. c ≡ chooser_behind tokens };

    ghost is_rule = { each_is_due };

    fn new(alloc: Global) -> GoalChooser {
        GoalChooser::new(alloc)
    }

    #[inline(always)]
    fn pass(&mut self) -> Result<(), AllocError> {
        GoalChooser::pass(self)
    }

    #[inline(always)]
    fn read_passed(&mut self, token: &Token) {
        GoalChooser::read_passed(self, token);
    }

    fn read_again(&mut self, token: &Token) {
        GoalChooser::read_again(self, token);
    }

    #[inline(always)]
    fn command(&self, _: &str) -> Option<Command> {
        GoalChooser::command(self)
    }
}
