//! The handle by which C holds a document.
ghost use Rattle.std.specs.Prelude.{◌≡◌};
ghost use Rattle.std.specs.Option.{MatchOption};
ghost use Rattle.std.specs.declared.option.Option.{Option};
ghost use Rattle.std.specs.declared.option.Option.TheVariants.{None, Some};
ghost use Rattle.js_document_c.specs.Handle.{handle_coded, handle_owns};
ghost use Rattle.js_document_c.specs.Held.{HeldState};

use crate::held::HeldDocument;
use js_boxed::Loose;
use std::alloc::Global;
use std::marker::Model;
use std::{mem, ptr};

/// A document, or none. It takes the room of a pointer, which is null where there is none, and of which C reads nothing.
#[repr(C)]
pub struct JsDocument {
    at: *mut u8,
    alloc: Global,
    pub ghost value: { Option HeldState } by { handle_coded },
}

impl Model for JsDocument {
    ghost also_owns = { λ d. handle_owns d.alloc d.at d.value };
}

impl JsDocument {
    /// No document. It takes no memory.
    pub fn none(alloc: Global) -> JsDocument
        ensures { result.value ≡ None }
    {
        JsDocument {
            at: ptr::null_mut(),
            alloc,
        }
    }

    /// The handle of a document.
    pub fn some(value: Box<HeldDocument>) -> JsDocument
        ensures { result.value ≡ Some value.value }
    {
        JsDocument::of_loose(Loose::of(value))
    }

    /// Gives the document back, if there is one.
    pub fn into_box(self) -> Option<Box<HeldDocument>>
        ensures { MatchOption result (self.value ≡ None) (λ b. self.value ≡ Some b.value) }
    {
        match self.into_loose() {
            Some(loose) => Some(loose.into_box()),
            None => None,
        }
    }

    fn of_loose(loose: Loose<HeldDocument, Global>) -> JsDocument
        ensures { result.value ≡ Some loose.value }
    {
        let Loose { at, alloc } = loose;
        JsDocument {
            at: at as *mut u8,
            alloc,
        }
    }

    fn into_loose(self) -> Option<Loose<HeldDocument, Global>>
        ensures { MatchOption result (self.value ≡ None) (λ l. self.value ≡ Some l.value) }
    {
        let JsDocument { at, alloc } = self;
        if at.is_null() {
            None
        } else {
            Some(Loose {
                at: at as *mut HeldDocument,
                alloc,
            })
        }
    }

    /// Takes the document out of the handle, if there is one.
    pub fn take(&mut self, alloc: Global) -> Option<Box<HeldDocument>>
        ensures document { MatchOption result (self.old.value ≡ None) (λ b. self.old.value ≡ Some b.value) }
        ensures none { self.new.value ≡ None }
    {
        mem::replace(self, JsDocument::none(alloc)).into_box()
    }

    /// Puts a document into the handle. One that was there is freed.
    pub fn put(&mut self, value: Box<HeldDocument>)
        ensures { self.new.value ≡ Some value.value }
    {
        drop(mem::replace(self, JsDocument::some(value)));
    }
}

impl Drop for JsDocument {
    fn drop(self) {
        if let Some(value) = self.into_box() {
            drop(value);
        }
    }
}
