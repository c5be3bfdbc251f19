//! The open marks of a session.

ghost use Rattle.std.specs.Prelude.{◌≡◌, ◌<◌, ◌≤◌, ◌+◌, ◌↔◌, [], ◌∷◌, ◌++◌, length, IsSome, OnOk, OnErr};
ghost use Rattle.std.specs.Prelude.{max, option_to_list};

use crate::mark::SessionMark;
use js_places::ReservedList;
use std::alloc::{AllocError, Global};
use std::marker::Model;

/// A list of marks with places behind it that are reserved: a mark takes one of them, and is added without memory too.
#[derive(Drop)]
pub(crate) struct MarkList {
    /// Each place that is in use holds a mark.
    places: ReservedList<Option<SessionMark>>,
}

impl Model for MarkList {
    ghost use Rattle.std.specs.List.{AllByRecursion};
    ghost use Rattle.std.specs.Prelude.{IsSome};
    ghost use Rattle.js_places.specs.Reserved.{Reserved};
    ghost use Rattle.js_session.specs.Marks.{marks_in};
    ghost use Rattle.js_session.specs.declared.mark.SessionMark.{SessionMark};

    ghost Value = { Reserved SessionMark };

    ghost view = { λ l. record { items = marks_in l.places.items; free = l.places.free } };

    ghost invariant = { λ l. AllByRecursion IsSome l.places.items };
}

impl MarkList {
    /// A list of no marks and no places. It needs no memory yet.
    pub fn new_in(alloc: Global) -> MarkList
        ensures items { result.items ≡ [] }
        ensures free { result.free ≡ 0 }
    {
        MarkList {
            places: ReservedList::new_in(alloc),
        }
    }

    /// How many marks there are.
    pub fn len(&self) -> usize
        ensures { result ≡ length self.now.items }
    {
        self.places.len()
    }

    /// How many places are free.
    pub fn free(&self) -> usize
        ensures { result ≡ self.now.free }
    {
        self.places.free()
    }

    /// Makes at least `more` places free. Where there is no memory for them, the list stays as it was.
    pub fn reserve(&mut self, more: usize) -> Result<(), AllocError>
        ensures items { self.new.items ≡ self.old.items }
        ensures ok { OnOk result (more ≤ self.new.free) }
        ensures free { self.old.free ≤ self.new.free }
        ensures exact { OnOk result (self.new.free ≡ max self.old.free more) }
        ensures err { OnErr result (self.new ≡ self.old) }
    {
        self.places.reserve(more)
    }

    /// Adds a mark at the end, in a free place.
    pub fn push_reserved(&mut self, mark: SessionMark)
        requires { 0 < self.old.free }
        ensures items { self.new.items ≡ self.old.items ++ mark ∷ [] }
        ensures free { self.new.free + 1 ≡ self.old.free }
    {
        self.places.push_reserved(Some(mark));
    }

    /// Takes the last mark, if there is one. Its place is free then.
    pub fn pop(&mut self) -> Option<SessionMark>
        ensures found { IsSome result ↔ (0 < length self.old.items) }
        ensures items { self.old.items ≡ self.new.items ++ option_to_list result }
        ensures free { self.new.free ≡ self.old.free + length (option_to_list result) }
    {
        let place = self.places.pop();
        place.flatten()
    }
}
