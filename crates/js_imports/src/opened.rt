//! Import calls and patterns that are open.

ghost use Rattle.std.specs.Prelude.{◌≡◌, ◌∷◌, [], drop, slice_get, OnOk, OnErr};

use js_text::ItemList;
use std::alloc::{AllocError, Global};
use std::marker::Model;

/// Which part of it stands open.
#[derive(Clone, Copy)]
pub(crate) enum OpenPart {
    /// The argument of an import call.
    Argument,
    /// What stands behind the argument of an import call.
    Options,
    /// A pattern whose names are exported.
    Pattern,
}

/// An import call or a pattern that is open.
#[derive(Clone, Copy)]
pub(crate) struct Open {
    pub part: OpenPart,
    /// Its index among what is found.
    pub index: usize,
    /// How many brackets are open around it.
    pub depth: u32,
}

/// The import calls and patterns that are open, in the order in which they were opened; contracts see the last one first.
#[derive(Drop)]
pub(crate) struct OpenStack {
    stack: ItemList<Open>,
}

impl Model for OpenStack {
    ghost use Rattle.std.specs.Prelude.{List, reverse};
    ghost use Rattle.js_imports.specs.declared.opened.Open.{Open};

    ghost Value = { List Open };

    ghost view = { λ o. reverse o.stack };
}

impl OpenStack {
    /// None is open. It needs no memory yet.
    pub(crate) fn new(alloc: Global) -> OpenStack
        ensures { result ≡ [] }
    {
        OpenStack {
            stack: ItemList::new_in(alloc),
        }
    }

    /// The one that was opened last, if one is open.
    pub(crate) fn last(&self) -> Option<Open>
        ensures { result ≡ slice_get self.now 0 }
    {
        self.stack.as_slice().last().copied()
    }

    /// Opens one.
    pub(crate) fn open(&mut self, one: Open) -> Result<(), AllocError>
        ensures ok { OnOk result (self.new ≡ one ∷ self.old) }
        ensures err { OnErr result (self.new ≡ self.old) }
    {
        self.stack.push(one)
    }

    /// Closes the one that was opened last, if one is open.
    pub(crate) fn close(&mut self)
        ensures { self.new ≡ drop 1 self.old }
    {
        self.stack.pop();
    }
}
