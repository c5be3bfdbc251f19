//! Braces, and what tokens do to those that are open.

ghost use Rattle.std.specs.Prelude.{◌≡◌, [], ◌∷◌, drop, OnErr, OnOk};
ghost use Rattle.js_auto.specs.Braces.{after_effect, effect_of, is_in_substitution, open_behind, without_block};

use js_kind::Kind;
use js_text::ItemList;
use std::alloc::{AllocError, Global};
use std::marker::Model;

/// What a brace opens.
#[derive(Clone, Copy)]
pub(crate) enum Brace {
    /// A block, an object or another thing between `{` and `}`.
    Block,
    /// A substitution in a template, between `${` and `}`.
    Template,
}

/// What a token does to the braces that are open.
#[derive(Clone, Copy)]
pub(crate) enum BraceEffect {
    /// Opens one.
    Opens(Brace),
    /// Closes the one that was opened last, if that is one of a block.
    ClosesBlock,
    /// Closes the one that was opened last.
    ClosesAny,
    Leaves,
}

/// What a token of the kind does to the braces that are open.
#[tactic(auto, unfolding(crate::specs::Braces::effect_of))]
pub(crate) fn effect_of(kind: Kind) -> BraceEffect
    ensures { result ≡ effect_of kind }
{
    match kind {
        Kind::LCurly => BraceEffect::Opens(Brace::Block),
        Kind::TemplateHead => BraceEffect::Opens(Brace::Template),
        Kind::RCurly => BraceEffect::ClosesBlock,
        Kind::TemplateTail => BraceEffect::ClosesAny,
        _ => BraceEffect::Leaves,
    }
}

/// The braces that are open, in the order in which they were opened; contracts see the last one first.
#[derive(Drop)]
pub(crate) struct OpenBraces {
    stack: ItemList<Brace>,
}

impl Model for OpenBraces {
    ghost use Rattle.std.specs.Prelude.{List, reverse};
    ghost use Rattle.js_auto.specs.declared.brace.Brace.{Brace};

    ghost Value = { List Brace };

    ghost view = { λ b. reverse b.stack };
}

impl OpenBraces {
    /// None is open. It needs no memory yet.
    pub fn new(alloc: Global) -> OpenBraces
        ensures { result ≡ [] }
    {
        OpenBraces {
            stack: ItemList::new_in(alloc),
        }
    }

    /// Whether the brace that was opened last is that of a substitution in a template.
    pub fn is_in_substitution(&self) -> bool
        ensures { result ≡ is_in_substitution self.now }
    {
        match self.stack.as_slice().last() {
            Some(Brace::Template) => true,
            _ => false,
        }
    }

    /// Closes the brace that was opened last, if one is open.
    fn close_any(&mut self)
        ensures { self.new ≡ drop 1 self.old }
    {
        self.stack.pop();
    }

    /// Closes the brace that was opened last, if it is one of a block.
    fn close_block(&mut self)
        ensures { self.new ≡ without_block self.old }
    {
        if !self.is_in_substitution() {
            self.close_any();
        }
    }

    /// Opens a brace.
    fn open(&mut self, brace: Brace) -> Result<(), AllocError>
        ensures ok { OnOk result (self.new ≡ brace ∷ self.old) }
        ensures err { OnErr result (self.new ≡ self.old) }
    {
        self.stack.push(brace)
    }

    /// Takes up what a token does to the braces.
    fn pass(&mut self, kind: Kind) -> Result<(), AllocError>
        ensures ok { OnOk result (self.new ≡ after_effect (effect_of kind) self.old) }
        ensures err { OnErr result (self.new ≡ self.old) }
    {
        match effect_of(kind) {
            BraceEffect::Opens(brace) => self.open(brace)?,
            BraceEffect::ClosesBlock => self.close_block(),
            BraceEffect::ClosesAny => self.close_any(),
            BraceEffect::Leaves => {}
        }
        Ok(())
    }

    /// The braces that are open behind a last token, if there is one. Where there is no memory for them, they are as
    /// before.
    #[cold]
    #[inline(never)]
    pub fn behind(self, last: Option<Kind>) -> (OpenBraces, Result<(), AllocError>)
        ensures ok { OnOk result.1 (result.0 ≡ open_behind last self) }
        ensures err { OnErr result.1 (result.0 ≡ self) }
    {
        let mut braces = self;
        let passed = match last {
            Some(kind) => braces.pass(kind),
            None => Ok(()),
        };
        (braces, passed)
    }
}
