//! A box that may be missing, told by a null pointer.
ghost use Rattle.std.specs.Prelude.{◌≡◌};
ghost use Rattle.std.specs.Option.{MatchOption};
ghost use Rattle.std.specs.declared.option.Option.{Option};
ghost use Rattle.std.specs.declared.option.Option.TheVariants.{None, Some};
ghost use Rattle.js_boxed.specs.Memory.{maybe_owned, maybe_lent};

use crate::loose::Loose;
use std::alloc::Global;
use std::marker::Model;
use std::ptr;

/// A value in a box, or none. It takes the room of a pointer, which is null where there is no value.
pub struct OptionalBox<T> {
    at: *mut T,
    alloc: Global,
    pub ghost value: { Option T },
}

impl<T> Model for OptionalBox<T> {
    ghost also_owns = { λ o. maybe_owned o.alloc T.row o.at o.value };

    ghost also_shares = { λ o _ κ. maybe_lent T.row o.at o.value κ };
}

impl<T> OptionalBox<T> {
    /// No value. It takes no memory.
    pub fn none(alloc: Global) -> OptionalBox<T>
        ensures { result.value ≡ None }
    {
        OptionalBox {
            at: ptr::null_mut(),
            alloc,
        }
    }

    /// The value of the box.
    pub fn some(value: Box<T>) -> OptionalBox<T>
    where
        T: Drop,
        ensures { result.value ≡ Some value.value }
    {
        OptionalBox::of_loose(Loose::of(value))
    }

    /// Gives the box back, if there is one.
    pub fn into_box(self) -> Option<Box<T>>
        ensures { MatchOption result (self.value ≡ None) (λ b. self.value ≡ Some b.value) }
    {
        match self.into_loose() {
            Some(loose) => Some(loose.into_box()),
            None => None,
        }
    }

    fn of_loose(loose: Loose<T, Global>) -> OptionalBox<T>
        ensures { result.value ≡ Some loose.value }
    {
        let Loose { at, alloc } = loose;
        OptionalBox { at, alloc }
    }

    fn into_loose(self) -> Option<Loose<T, Global>>
        ensures { MatchOption result (self.value ≡ None) (λ l. self.value ≡ Some l.value) }
    {
        let OptionalBox { at, alloc } = self;
        if at.is_null() {
            None
        } else {
            Some(Loose { at, alloc })
        }
    }

    /// The value, if there is one.
    pub fn as_ref(&self) -> Option<&T>
        ensures { MatchOption result (self.now.value ≡ None) (λ r. self.now.value ≡ Some r.now) }
    {
        let at = self.at;
        if at.is_null() {
            None
        } else {
            Some(unsafe { &*at })
        }
    }
}

impl<T: Drop> Drop for OptionalBox<T> {
    fn drop(self) {
        if let Some(value) = self.into_box() {
            drop(value);
        }
    }
}
