//! The choice of goals, token by token.

ghost use Rattle.std.specs.Prelude.{◌≡◌, ◌&&◌, List, [], ◌∷◌, ◌++◌, OnOk, OnErr};
ghost use Rattle.js_text.specs.Lists.{with_last};
ghost use Rattle.js_kind.specs.TokenParts.{TokenParts};
ghost use Rattle.js_jsx.specs.Choice.{choice, chooser_behind, chooser_of};
ghost use Rattle.js_jsx.specs.States.{behind_last};

use crate::idle::IdleKinds;
use crate::kept::KeptState;
use js_choose::ChooseGoals;
use js_kind::Token;
use js_session::Command;
use std::alloc::{AllocError, Global};
use std::marker::Model;
use std::mem;

/// Chooses goals in a text with JSX, as a lexer is driven: it is told each token, and says which command comes next. A
/// step costs the same however many tokens came before; where it ends many scopes, each costs no more than when it was
/// opened.
///
/// It knows the grammar of tokens alone. A `<` opens a tag where no operand may have ended, and what turns out to be
/// type parameters is given up at a `,`, a `=` or an `extends`. A `/` divides behind a token with which an operand may
/// end, `)` and `}` among them, and behind an element, and begins a regular expression behind any other.
#[derive(Drop)]
pub struct JsxChooser {
    /// What is kept of all tokens but the last one.
    state: KeptState,
    idle: IdleKinds,
    alloc: Global,
    /// The last token, and the default one where there is none.
    last: Token,
    has_last: bool,
}

impl Model for JsxChooser {
    ghost use Rattle.std.specs.Prelude.{◌≡◌, false};
    ghost use Rattle.js_kind.specs.declared.kind.Kind.TheVariants.{Eof};
    ghost use Rattle.js_jsx.specs.Choice.{Chooser, kept_last};

    ghost Value = { Chooser };

    ghost view = { λ c. record { state = c.state; last = kept_last c.has_last c.last } };

    ghost invariant = { λ c. c.has_last ≡ false → c.last.kind ≡ Eof };
}

/// Whether both are true, told by one test.
#[inline(always)]
fn both(first: bool, second: bool) -> bool
    ensures { result ≡ (first && second) }
{
    first & second
}

impl JsxChooser {
    /// A chooser that was told no token yet. It needs no memory yet.
    pub fn new(alloc: Global) -> JsxChooser
        ensures { result ≡ chooser_of [] }
    {
        JsxChooser {
            state: KeptState::new(alloc),
            idle: IdleKinds::new(),
            alloc,
            last: Token::default(),
            has_last: false,
        }
    }

    /// Takes up the last token, if there is one. What is kept is handed over and taken back, so that it can stay in
    /// registers.
    #[inline(always)]
    fn pass_last(&mut self) -> Result<(), AllocError>
        ensures ok { OnOk result (self.new ≡ record self.old { state = behind_last self.old.state self.old.last }) }
        ensures err { OnErr result (self.new ≡ self.old) }
    {
        if self.has_last {
            let before = mem::replace(&mut self.state, KeptState::new(self.alloc));
            let (state, passed) = before.behind(self.last);
            self.state = state;
            passed?;
        }
        Ok(())
    }

    /// Takes up the last token, if there is one, as the next one is to be read behind it: `read_passed` takes notice of
    /// that then. Where there is no memory for what it opens, the chooser stays as it was.
    #[inline(always)]
    pub fn pass(&mut self) -> Result<(), AllocError>
        ensures ok { (tokens : List TokenParts) → self.old ≡ chooser_of tokens
            → OnOk result (self.new ≡ chooser_behind tokens) }
        ensures err { OnErr result (self.new ≡ self.old) }
    {
        if both(self.state.is_plain(), self.idle.is_idle(&self.last)) {
            self.state.pass_idle(&self.last);
        } else {
            self.pass_last()?;
        }
        Ok(())
    }

    /// Takes notice of a token that was read behind the last one, which was passed. It succeeds without memory.
    #[inline(always)]
    pub fn read_passed(&mut self, token: &Token)
        ensures { (tokens : List TokenParts) → self.old ≡ chooser_behind tokens
            → self.new ≡ chooser_of (tokens ++ token.now ∷ []) }
    {
        self.last = *token;
        self.has_last = true;
    }

    /// Does both, where nothing comes between.
    #[inline(always)]
    pub fn read(&mut self, token: &Token) -> Result<(), AllocError>
        ensures ok { (tokens : List TokenParts) → self.old ≡ chooser_of tokens
            → OnOk result (self.new ≡ chooser_of (tokens ++ token.now ∷ [])) }
        ensures err { OnErr result (self.new ≡ self.old) }
    {
        self.pass()?;
        self.read_passed(token);
        Ok(())
    }

    /// Takes notice of a token that was read again, in the place of the last one.
    pub fn read_again(&mut self, token: &Token)
        ensures { (tokens : List TokenParts) → self.old ≡ chooser_of tokens
            → self.new ≡ chooser_of (with_last tokens token.now) }
    {
        if self.has_last {
            self.last = *token;
        }
    }

    /// The command that comes next in the text whose tokens it was told: `Command::Regex`, `Command::TemplateTail` or
    /// `Command::JsxName` where the last token is to be read again, else `Command::Next`, `Command::JsxChild` or
    /// `Command::JsxAttr`. None behind the end of the source.
    #[inline(always)]
    pub fn command(&self, text: &str) -> Option<Command>
        ensures { (tokens : List TokenParts) → self.now ≡ chooser_of tokens → result ≡ choice text.now tokens }
    {
        if both(self.state.is_plain(), self.idle.is_idle(&self.last)) {
            return Some(Command::Next);
        }
        if self.has_last {
            self.state.view().command(text, self.last)
        } else {
            Some(Command::Next)
        }
    }
}

impl ChooseGoals for JsxChooser {
    ghost use Rattle.js_jsx.specs.DueLemmas.{each_is_due};

    ghost choice = { choice };

    ghost is_told = { λ c tokens. c ≡ chooser_of tokens };

    ghost has_passed = { λ c tokens. c ≡ chooser_behind tokens };

    ghost is_rule = { each_is_due };

    fn new(alloc: Global) -> JsxChooser {
        JsxChooser::new(alloc)
    }

    #[inline(always)]
    fn pass(&mut self) -> Result<(), AllocError> {
        JsxChooser::pass(self)
    }

    #[inline(always)]
    fn read_passed(&mut self, token: &Token) {
        JsxChooser::read_passed(self, token);
    }

    fn read_again(&mut self, token: &Token) {
        JsxChooser::read_again(self, token);
    }

    #[inline(always)]
    fn command(&self, text: &str) -> Option<Command> {
        JsxChooser::command(self, text)
    }
}
