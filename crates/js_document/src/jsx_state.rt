//! What the chooser of js_jsx knows behind a token.

ghost use Rattle.std.specs.Prelude.{◌≡◌, ◌↔◌, List, map, IsTrue};
ghost use Rattle.js_jsx.specs.States.{behind};
ghost use Rattle.js_jsx.specs.Steps.{after_step};
ghost use Rattle.js_jsx.specs.declared.scope.Scope.{Scope};
ghost use Rattle.js_document.specs.JsxStates.{SameBeside, with_scopes};
ghost use Rattle.js_document.specs.LinkedScopes.{scope_number};
ghost use Rattle.js_document.specs.Trie.{IsOpen};

use crate::keep::KeepGoals;
use crate::linked_scopes::{LinkedScopes, carry_out};
use crate::open::OpenTrie;
use js_jsx::{StateStep, StateView, TagPlace};
use js_kind::{Kind, Token};
use js_session::Command;
use std::alloc::AllocError;

/// What the rule of js_jsx knows of the tokens before the last one.
#[derive(Clone, Copy, Drop)]
pub struct JsxState {
    /// The scopes that are open.
    link: u32,
    /// Which of its own tokens comes next in what was opened last, if it is a tag.
    place: TagPlace,
    /// Whether an operand has ended though the token before the last one does not tell.
    has_ended: bool,
    /// The kind of the token before the last one, and `Eof` where there is none.
    before: Kind,
}

impl JsxState {
    /// What is kept, to be asked.
    fn view<'a>(self, open: &'a OpenTrie) -> StateView<LinkedScopes<'a>>
        ensures { (scopes : List Scope) → IsOpen open.now self.link (map scope_number scopes)
            → result ≡ with_scopes self scopes }
    {
        open.is_told(self.link);
        StateView {
            scopes: LinkedScopes::new(open, self.link),
            place: self.place,
            has_ended: self.has_ended,
            before: self.before,
        }
    }

    /// What a token changes.
    fn step(self, open: &OpenTrie, token: &Token) -> StateStep
        ensures { (scopes : List Scope) → IsOpen open.now self.link (map scope_number scopes)
            → after_step (with_scopes self scopes) result token.now.kind ≡ behind (with_scopes self scopes) token.now }
    {
        self.view(open).step(token)
    }

    /// Whether the same is kept beside the scopes.
    fn is_same_beside(self, other: JsxState) -> bool
        ensures { IsTrue result ↔ SameBeside self other }
    {
        if !self.place.is_same(other.place) {
            return false;
        }
        if self.has_ended != other.has_ended {
            return false;
        }
        self.before.is_same(other.before)
    }
}

impl KeepGoals for JsxState {
    ghost use Rattle.js_jsx.specs.Choice.{choice};
    ghost use Rattle.js_jsx.specs.DueLemmas.{each_is_due};
    ghost use Rattle.js_document.specs.JsxLaws.{jsx_again, jsx_alike, jsx_behind, jsx_itself, jsx_known, jsx_stays};
    ghost use Rattle.js_document.specs.JsxStates.{KnowsJsx, SameJsx};

    ghost choice = { choice };

    ghost knows = { KnowsJsx };

    ghost alike = { SameJsx };

    ghost is_rule = { each_is_due };

    ghost stays = { jsx_stays };

    ghost knows_alike = { jsx_known };

    ghost chooses_alike = { jsx_alike };

    ghost alike_itself = { jsx_itself };

    ghost alike_behind = { jsx_behind };

    ghost alike_again = { jsx_again };

    fn first() -> JsxState {
        JsxState {
            link: 0,
            place: TagPlace::Later,
            has_ended: false,
            before: Kind::Eof,
        }
    }

    fn behind(self, open: &mut OpenTrie, last: &Token) -> Result<JsxState, AllocError> {
        let step = self.step(open, last);
        let link = carry_out(open, self.link, step.scopes)?;
        Ok(JsxState {
            link,
            place: step.place,
            has_ended: step.has_ended,
            before: last.kind(),
        })
    }

    fn again(self) -> JsxState {
        self
    }

    fn command(self, open: &OpenTrie, text: &str, last: &Token) -> Option<Command> {
        self.view(open).command(text, *last)
    }

    fn is_alike(self, other: JsxState, open: &OpenTrie, last: &Token) -> bool {
        let _ = last;
        if !open.is_same(self.link, other.link) {
            return false;
        }
        self.is_same_beside(other)
    }
}
