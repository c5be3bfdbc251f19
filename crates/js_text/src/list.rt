//! Lists that contracts see as lists.

ghost use Rattle.std.specs.Prelude.{◌≡◌, ◌<◌, ◌↔◌, ◌==◌, List, [], ◌∷◌, ◌++◌, length, take, IsSome, IfOk, OnOk, OnErr};
ghost use Rattle.std.specs.Prelude.{option_to_list, MatchOption};

use crate::comment::Comment;
use crate::diagnostic::Diagnostic;
use crate::span::Span;
use js_boxed::OptionalBox;
use std::alloc::{AllocError, Global};
use std::marker::Model;
use std::mem;

/// A growing list. It keeps its allocator. It takes the room of a pointer where it stands, and no memory beside that
/// until an item is added.
#[derive(Drop)]
pub struct ItemList<T> {
    items: OptionalBox<Vec<T>>,
    alloc: Global,
}

/// A growing list of diagnostics.
pub type DiagnosticList = ItemList<Diagnostic>;

/// A growing list of spans.
pub type SpanList = ItemList<Span>;

/// A growing list of comments.
pub type CommentList = ItemList<Comment>;

/// A growing list of bytes.
pub type ByteList = ItemList<u8>;

impl<T> Model for ItemList<T> {
    ghost use Rattle.std.specs.Prelude.{List};
    ghost use Rattle.js_text.specs.Lists.{items_of};

    ghost Value = { List T };

    ghost view = { λ l. items_of l.items.value };
}

impl<T> ItemList<T> {
    /// A list of no items. It needs no memory yet.
    pub fn new_in(alloc: Global) -> ItemList<T>
        ensures { result ≡ [] }
    {
        ItemList {
            items: OptionalBox::none(alloc),
            alloc,
        }
    }

    /// Takes the boxed vector of the items out, and leaves an empty list; none where the list has never grown.
    pub fn take_boxed(&mut self) -> Option<Box<Vec<T>>>
        ensures items { MatchOption result (self.old ≡ []) (λ items. items.value.items ≡ self.old) }
        ensures after { self.new ≡ [] }
    {
        let none = OptionalBox::none(self.alloc);
        mem::replace(&mut self.items, none).into_box()
    }

    /// How many items there are.
    pub fn len(&self) -> usize
        ensures { result ≡ length self.now }
    {
        self.as_slice().len()
    }

    /// Whether there is no item.
    pub fn is_empty(&self) -> bool
        ensures { result ≡ (length self.now == 0) }
    {
        self.as_slice().is_empty()
    }

    /// The items, in the order in which they were added.
    pub fn as_slice(&self) -> &[T]
        ensures { result.now ≡ self.now }
    {
        match self.items.as_ref() {
            Some(items) => items.as_slice(),
            None => &[],
        }
    }
}

impl<T: Drop> ItemList<T> {
    /// Puts the items of a boxed vector in the place of those of the list.
    pub fn put_boxed(&mut self, items: Box<Vec<T>>)
        ensures { self.new ≡ items.value.items }
    {
        self.items = OptionalBox::some(items);
    }

    /// The list of the items of a vector.
    pub fn from_vec(alloc: Global, items: Vec<T>) -> Result<ItemList<T>, AllocError>
        ensures { IfOk result (λ list. list ≡ items.items) }
    {
        let items = Box::new(alloc, items)?;
        Ok(ItemList {
            items: OptionalBox::some(items),
            alloc,
        })
    }

    /// Adds an item at the end. Where there is no memory for it, the list stays as it was.
    pub fn push(&mut self, item: T) -> Result<(), AllocError>
        ensures ok { OnOk result (self.new ≡ self.old ++ item ∷ []) }
        ensures err { OnErr result (self.new ≡ self.old) }
    {
        let mut items = match self.take_boxed() {
            Some(items) => items,
            None => Box::new(self.alloc, Vec::new(self.alloc))?,
        };
        let pushed = items.push(item);
        self.put_boxed(items);
        Ok(pushed?)
    }

    /// Takes the last item, if there is one.
    pub fn pop(&mut self) -> Option<T>
        ensures found { IsSome result ↔ (0 < length self.old) }
        ensures items { self.old ≡ self.new ++ option_to_list result }
    {
        let mut items = self.take_boxed()?;
        let last = items.pop();
        self.put_boxed(items);
        last
    }

    /// Keeps the first `len` items; a shorter list stays as it is.
    pub fn truncate(&mut self, len: usize)
        ensures { self.new ≡ take len self.old }
    {
        if let Some(mut items) = self.take_boxed() {
            items.truncate(len);
            self.put_boxed(items);
        }
    }
}

impl<T: Copy + Drop> ItemList<T> {
    /// Adds copies of the items at the end. Where there is no memory for all of them, the list stays as it was.
    pub fn extend_from_slice(&mut self, items: &[T]) -> Result<(), AllocError>
        ensures ok { OnOk result (self.new ≡ self.old ++ items.now) }
        ensures err { OnErr result (self.new ≡ self.old) }
    {
        let mut held = match self.take_boxed() {
            Some(held) => held,
            None => Box::new(self.alloc, Vec::new(self.alloc))?,
        };
        let extended = held.extend_from_slice(items);
        self.put_boxed(held);
        extended
    }

    /// An equal list.
    pub fn copy(&self, alloc: Global) -> Result<ItemList<T>, AllocError>
        ensures { IfOk result (λ l. l ≡ self.now) }
    {
        ItemList::from_slice(alloc, self.as_slice())
    }

    /// A list of copies of the items.
    pub fn from_slice(alloc: Global, items: &[T]) -> Result<ItemList<T>, AllocError>
        ensures { IfOk result (λ l. l ≡ items.now) }
    {
        if items.is_empty() {
            return Ok(ItemList::new_in(alloc));
        }
        let copies = Vec::from_slice(alloc, items)?;
        ItemList::from_vec(alloc, copies)
    }
}
