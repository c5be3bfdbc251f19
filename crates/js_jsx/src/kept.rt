//! What a chooser keeps of the tokens so far.

ghost use Rattle.std.specs.Prelude.{◌≡◌, true, OnErr, OnOk};
ghost use Rattle.js_jsx.specs.Classes.{class_of};
ghost use Rattle.js_jsx.specs.States.{behind, first_state, is_plain};

use crate::change::TagPlace;
use crate::class::{TokenClass, class_of};
use crate::open_scopes::{OpenScopes, ScopesView};
use crate::read_scopes::are_plain;
use crate::scope::Scope;
use crate::state::StateView;
use js_kind::Token;
use std::alloc::{AllocError, Global};
use std::marker::Model;

/// What is kept of the tokens so far.
#[derive(Drop)]
pub(crate) struct KeptState {
    scopes: OpenScopes,
    place: TagPlace,
    has_ended: bool,
    /// Whether idle tokens change nothing but what the last token is.
    is_plain: bool,
    /// The last token, and the default one, of kind `Eof`, where there is none.
    before: Token,
}

impl Model for KeptState {
    ghost use Rattle.std.specs.Prelude.{◌≡◌};
    ghost use Rattle.js_jsx.specs.States.{State, is_plain as is_plain_state};

    ghost Value = { State };

    ghost view = { λ s. record {
      scopes = s.scopes;
      place = s.place;
      has_ended = s.has_ended;
      before = s.before.kind;
    } };

    ghost invariant = { λ s. s.is_plain ≡ is_plain_state (record {
      scopes = s.scopes;
      place = s.place;
      has_ended = s.has_ended;
      before = s.before.kind;
    }) };
}

impl KeptState {
    /// What is kept of no tokens. It needs no memory yet.
    pub fn new(alloc: Global) -> KeptState
        ensures { result ≡ first_state }
    {
        KeptState {
            scopes: OpenScopes::new(alloc),
            place: TagPlace::Later,
            has_ended: false,
            is_plain: true,
            before: Token::default(),
        }
    }

    /// What is kept, to be asked.
    #[inline(always)]
    pub fn view(&self) -> StateView<ScopesView<'_>>
        ensures { result ≡ self.now }
    {
        StateView {
            scopes: self.scopes.view(),
            place: self.place,
            has_ended: self.has_ended,
            before: self.before.kind(),
        }
    }

    /// Whether idle tokens change nothing but what the last token is.
    #[inline(always)]
    pub fn is_plain(&self) -> bool
        ensures { result ≡ is_plain self.now }
    {
        self.is_plain
    }

    /// Takes up one token more of the class. Where there is no memory for what it opens, all stays as it was.
    fn pass_any(&mut self, class: TokenClass, token: &Token) -> Result<(), AllocError>
        requires { class_of token.now.kind ≡ class }
        ensures ok { OnOk result (self.new ≡ behind self.old token.now) }
        ensures err { OnErr result (self.new ≡ self.old) }
    {
        let step = self.view().step_of(class, token);
        self.scopes.carry_out(step.scopes)?;
        self.place = step.place;
        self.has_ended = step.has_ended;
        self.is_plain = are_plain(&self.scopes.view(), step.has_ended);
        self.before = *token;
        Ok(())
    }

    /// The same for a `{`, where idle tokens change nothing but what the last token is.
    fn pass_left_curly(&mut self, token: &Token) -> Result<(), AllocError>
        requires plain { is_plain self.old ≡ true }
        requires class { class_of token.now.kind ≡ TokenClass.LeftCurly }
        ensures ok { OnOk result (self.new ≡ behind self.old token.now) }
        ensures err { OnErr result (self.new ≡ self.old) }
    {
        self.scopes.push(Scope::Block)?;
        self.place = TagPlace::Later;
        self.before = *token;
        Ok(())
    }

    /// The same for a `}`.
    fn pass_right_curly(&mut self, token: &Token) -> Result<(), AllocError>
        requires plain { is_plain self.old ≡ true }
        requires class { class_of token.now.kind ≡ TokenClass.RightCurly }
        ensures ok { OnOk result (self.new ≡ behind self.old token.now) }
        ensures err { OnErr result (self.new ≡ self.old) }
    {
        self.scopes.close(TokenClass::RightCurly);
        self.is_plain = are_plain(&self.scopes.view(), self.has_ended);
        self.before = *token;
        Ok(())
    }

    /// Takes up one token more. Where there is no memory for what it opens, all stays as it was.
    fn pass(&mut self, token: &Token) -> Result<(), AllocError>
        ensures ok { OnOk result (self.new ≡ behind self.old token.now) }
        ensures err { OnErr result (self.new ≡ self.old) }
    {
        let class = class_of(token.kind());
        if self.is_plain() {
            match class {
                TokenClass::LeftCurly => self.pass_left_curly(token),
                TokenClass::RightCurly => self.pass_right_curly(token),
                _ => self.pass_any(class, token),
            }
        } else {
            self.pass_any(class, token)
        }
    }

    /// The same for an idle token, which changes nothing but what the last token is.
    #[inline(always)]
    pub fn pass_idle(&mut self, token: &Token)
        ensures { self.new ≡ record self.old { before = token.now.kind } }
    {
        self.before = *token;
    }

    /// What is kept behind one token more. Where there is no memory for what it opens, it is as before. It is handed
    /// over and given back, so that who keeps it need not lend its place.
    #[cold]
    #[inline(never)]
    pub fn behind(self, token: Token) -> (KeptState, Result<(), AllocError>)
        ensures ok { OnOk result.1 (result.0 ≡ behind self token) }
        ensures err { OnErr result.1 (result.0 ≡ self) }
    {
        let mut state = self;
        let passed = state.pass(&token);
        (state, passed)
    }
}
