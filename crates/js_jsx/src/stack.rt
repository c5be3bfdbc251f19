//! The stack of what is open.

ghost use Rattle.std.specs.Prelude.{◌≡◌, ◌+◌, ◌<◌, ◌^◌, [], ◌∷◌, drop, slice_get, length, OnErr, OnOk, IfSome};
ghost use Rattle.js_jsx.specs.Stack.{with_top};

use crate::scope::Scope;
use js_text::ItemList;
use std::alloc::{AllocError, Global};
use std::marker::Model;

/// A scope that is open.
#[derive(Clone, Copy)]
pub(crate) struct Open {
    pub scope: Scope,
    /// How many scopes stand from the last open brace below it on; 0 where none is open.
    pub braced: usize,
}

/// What is open, in the order in which it was opened; contracts see the last one first.
#[derive(Drop)]
pub(crate) struct OpenStack {
    items: ItemList<Open>,
}

impl Model for OpenStack {
    ghost use Rattle.std.specs.Prelude.{List, reverse};
    ghost use Rattle.js_jsx.specs.declared.stack.Open.{Open};

    ghost Value = { List Open };

    ghost view = { λ s. reverse s.items };
}

/// The same, as it is asked. It holds what is open and not the place where that is kept: who keeps it need not lend
/// that place, and can have it in registers.
#[derive(Drop)]
pub(crate) struct StackView<'a> {
    items: &'a [Open],
}

impl<'a> Model for StackView<'a> {
    ghost use Rattle.std.specs.Prelude.{List, reverse};
    ghost use Rattle.js_jsx.specs.declared.stack.Open.{Open};

    ghost Value = { List Open };

    ghost view = { λ s. reverse s.items.now };
}

impl<'a> StackView<'a> {
    /// How many are open.
    pub fn len(&self) -> usize
        ensures { result ≡ length self.now }
    {
        self.items.len()
    }

    /// The one with so many above it, if there is one.
    pub fn at(&self, depth: usize) -> Option<Open>
        ensures is { result ≡ slice_get self.now depth }
        ensures within { IfSome result (λ item. depth + 1 < 2 ^ 64) }
    {
        let items = self.items;
        if depth < items.len() {
            Some(items[items.len() - 1 - depth])
        } else {
            None
        }
    }
}

impl OpenStack {
    /// Nothing is open. It needs no memory yet.
    pub fn new(alloc: Global) -> OpenStack
        ensures { result ≡ [] }
    {
        OpenStack {
            items: ItemList::new_in(alloc),
        }
    }

    /// What is open, to be asked.
    #[inline(always)]
    pub fn view(&self) -> StackView<'_>
        ensures { result ≡ self.now }
    {
        StackView {
            items: self.items.as_slice(),
        }
    }

    /// Opens one.
    pub fn push(&mut self, item: Open) -> Result<(), AllocError>
        ensures ok { OnOk result (self.new ≡ item ∷ self.old) }
        ensures err { OnErr result (self.new ≡ self.old) }
    {
        self.items.push(item)
    }

    /// Puts another one in the place of the one that was opened last, if one is open.
    pub fn set_top(&mut self, item: Open)
        ensures { self.new ≡ with_top self.old item }
    {
        if let Some(mut items) = self.items.take_boxed() {
            if let Some(last) = items.as_slice().len().checked_sub(1) {
                items[last] = item;
            }
            self.items.put_boxed(items);
        }
    }

    /// Ends so many, the one that was opened last first; or all of them, where fewer are open.
    pub fn end(&mut self, count: usize)
        ensures { self.new ≡ drop count self.old }
    {
        let left = self.items.len().saturating_sub(count);
        self.items.truncate(left);
    }
}
