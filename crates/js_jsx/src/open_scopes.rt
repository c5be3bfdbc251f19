//! The scopes that are open, in the order in which they were opened.

ghost use Rattle.std.specs.Prelude.{◌≡◌, ◌+◌, ◌<◌, ◌^◌, [], ◌∷◌, drop, slice_get, OnErr, OnOk, IfSome};
ghost use Rattle.js_jsx.specs.Changes.{closed};
ghost use Rattle.js_jsx.specs.Scopes.{braced, from_brace, last_brace, without_tags, without_types};
ghost use Rattle.js_jsx.specs.Steps.{scopes_after};

use crate::change::Change;
use crate::class::TokenClass;
use crate::read_scopes::{ReadScopes, ended};
use crate::scope::Scope;
use crate::stack::{Open, OpenStack, StackView};
use crate::step::ScopesChange;
use std::alloc::{AllocError, Global};
use std::marker::Model;

/// The scopes that are open; contracts see the one that was opened last first.
#[derive(Drop)]
pub(crate) struct OpenScopes {
    stack: OpenStack,
}

impl Model for OpenScopes {
    ghost use Rattle.std.specs.Prelude.{List};
    ghost use Rattle.js_jsx.specs.Stack.{IsCounted, scopes_of};
    ghost use Rattle.js_jsx.specs.declared.scope.Scope.{Scope};

    ghost Value = { List Scope };

    ghost view = { λ s. scopes_of s.stack };

    ghost invariant = { λ s. IsCounted s.stack };
}

/// The same, as it is asked.
#[derive(Drop)]
pub(crate) struct ScopesView<'a> {
    stack: StackView<'a>,
}

impl<'a> Model for ScopesView<'a> {
    ghost use Rattle.std.specs.Prelude.{List};
    ghost use Rattle.js_jsx.specs.Stack.{IsCounted, scopes_of};
    ghost use Rattle.js_jsx.specs.declared.scope.Scope.{Scope};

    ghost Value = { List Scope };

    ghost view = { λ s. scopes_of s.stack };

    ghost invariant = { λ s. IsCounted s.stack };
}

impl<'a> ScopesView<'a> {
    /// The scope that has so many above it, if there is one.
    fn at(&self, depth: usize) -> Option<Scope>
        ensures is { result ≡ slice_get self.now depth }
        ensures within { IfSome result (λ scope. depth + 1 < 2 ^ 64) }
    {
        match self.stack.at(depth) {
            Some(item) => Some(item.scope),
            None => None,
        }
    }

    /// How many scopes there are from the last open brace on.
    fn braced(&self) -> usize
        ensures { result ≡ braced self.now }
    {
        match self.stack.at(0) {
            Some(item) => {
                if item.scope.is_brace() {
                    self.stack.len()
                } else {
                    item.braced
                }
            }
            None => 0,
        }
    }

    /// How many scopes there are above the last open brace, or all of them where none is open.
    fn above_brace(&self) -> usize
        ensures { drop result self.now ≡ from_brace self.now }
    {
        self.stack.len().saturating_sub(self.braced())
    }

    /// The last open brace, if one is open.
    fn last_brace(&self) -> Option<Scope>
        ensures { result ≡ last_brace self.now }
    {
        self.at(self.above_brace())
    }

    /// How many tags were opened last.
    fn tags(&self) -> usize
        ensures { drop result self.now ≡ without_tags self.now }
    {
        let mut depth = 0;
        while let Some(scope) = self.at(depth) {
            if !scope.is_tag() {
                break;
            }
            depth += 1;
        }
        depth
    }

    /// How many tags, with the type arguments in them, were opened last.
    fn types(&self) -> usize
        ensures { drop result self.now ≡ without_types self.now }
    {
        let mut depth = 0;
        while let Some(scope) = self.at(depth) {
            if !scope.is_within_tag() {
                break;
            }
            depth += 1;
        }
        depth
    }
}

impl<'a> ReadScopes for ScopesView<'a> {
    ghost scopes = { λ s. s };

    fn at(&self, depth: usize) -> Option<Scope> {
        ScopesView::at(self, depth)
    }

    fn last_brace(&self) -> Option<Scope> {
        ScopesView::last_brace(self)
    }

    fn above_brace(&self) -> usize {
        ScopesView::above_brace(self)
    }

    fn tags(&self) -> usize {
        ScopesView::tags(self)
    }

    fn types(&self) -> usize {
        ScopesView::types(self)
    }
}

impl OpenScopes {
    /// None is open. It needs no memory yet.
    pub fn new(alloc: Global) -> OpenScopes
        ensures { result ≡ [] }
    {
        OpenScopes {
            stack: OpenStack::new(alloc),
        }
    }

    /// What is open, to be asked.
    #[inline(always)]
    pub fn view(&self) -> ScopesView<'_>
        ensures { result ≡ self.now }
    {
        ScopesView {
            stack: self.stack.view(),
        }
    }

    /// Opens one.
    pub fn push(&mut self, scope: Scope) -> Result<(), AllocError>
        ensures ok { OnOk result (self.new ≡ scope ∷ self.old) }
        ensures err { OnErr result (self.new ≡ self.old) }
    {
        let braced = self.view().braced();
        self.stack.push(Open { scope, braced })
    }

    /// Opens one in the place of the one that was opened last.
    fn replace_top(&mut self, scope: Scope) -> Result<(), AllocError>
        ensures ok { OnOk result (self.new ≡ scope ∷ drop 1 self.old) }
        ensures err { OnErr result (self.new ≡ self.old) }
    {
        match self.stack.view().at(0) {
            Some(top) => {
                self.stack.set_top(Open {
                    scope,
                    braced: top.braced,
                });
                Ok(())
            }
            None => self.push(scope),
        }
    }

    /// Ends so many scopes, the one that was opened last first.
    fn end(&mut self, count: usize)
        ensures { self.new ≡ drop count self.old }
    {
        self.stack.end(count);
    }

    /// Ends the scope that was opened last, if a token of the class closes it.
    pub fn close(&mut self, class: TokenClass)
        ensures { self.new ≡ closed class self.old }
    {
        let count = ended(&self.view(), Change::Stays, class);
        self.end(count);
    }

    /// Carries out what a token changes. Where there is no memory for a scope, all stay as they were.
    pub fn carry_out(&mut self, change: ScopesChange) -> Result<(), AllocError>
        ensures ok { OnOk result (self.new ≡ scopes_after change self.old) }
        ensures err { OnErr result (self.new ≡ self.old) }
    {
        match change {
            ScopesChange::Opens(scope) => self.push(scope),
            ScopesChange::Becomes(scope) => self.replace_top(scope),
            ScopesChange::Ends(count) => {
                self.end(count);
                Ok(())
            }
        }
    }
}
