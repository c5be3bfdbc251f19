//! Indices of tokens.

ghost use Rattle.std.specs.Prelude.{◌≡◌, IfOk};

use std::alloc::AllocError;

/// An index as lists of tokens take it. Of one of 2^32 or more there is no memory.
pub(crate) fn list_index(index: usize) -> Result<u32, AllocError>
    ensures { IfOk result (λ in_lists. in_lists ≡ index) }
{
    match u32::try_from(index) {
        Ok(index) => Ok(index),
        Err(_) => Err(AllocError),
    }
}
