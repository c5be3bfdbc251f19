//! Why a list was not read.

ghost use Rattle.std.specs.Prelude.{◌≡◌};

use std::alloc::AllocError;

/// Why a list was not read.
#[derive(Clone, Copy, PartialEq, Eq, Debug)]
pub enum CursorFault {
    /// A round of the list did not lead on, so the list would have no end. The offset, in bytes, is the start of the
    /// token that is current then.
    Stuck { at: u32 },
    Memory,
}

/// Why a list was not read whose elements have a fault of their own.
#[derive(Clone, Copy, PartialEq, Eq, Debug, Drop)]
pub enum ListFault<Fault> {
    /// A round of the list did not lead on, so the list would have no end. The offset, in bytes, is the start of the
    /// token that is current then.
    Stuck { at: u32 },
    /// There was no memory for a token between the elements, or for the place of an element that was read.
    Memory,
    /// An element was not read, for this.
    Element(Fault),
}

impl From<AllocError> for CursorFault {
    ghost use Rattle.js_cursor.specs.declared.fault.CursorFault.TheVariants.{Memory};

    ghost from_gives = { λ _ fault. fault ≡ Memory };

    fn from(_error: AllocError) -> CursorFault {
        CursorFault::Memory
    }
}

impl<Fault> From<AllocError> for ListFault<Fault> {
    ghost use Rattle.js_cursor.specs.declared.fault.ListFault.TheVariants.{Memory};

    ghost from_gives = { λ _ fault. fault ≡ Memory };

    fn from(_error: AllocError) -> ListFault<Fault> {
        ListFault::Memory
    }
}

impl From<ListFault<AllocError>> for CursorFault {
    ghost use Rattle.js_cursor.specs.Faults.{as_cursor_fault};

    ghost from_gives = { λ fault given. given ≡ as_cursor_fault fault };

    fn from(fault: ListFault<AllocError>) -> CursorFault {
        match fault {
            ListFault::Stuck { at } => CursorFault::Stuck { at },
            ListFault::Memory | ListFault::Element(_) => CursorFault::Memory,
        }
    }
}
