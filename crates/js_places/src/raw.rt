//! A block of memory, as a row of places that are empty or hold an item.
ghost use Rattle.std.specs.Prelude.{◌≡◌, ℕ, ◌<◌, ◌≤◌, take, replicate, false, IfOk, ⊤};
ghost use Rattle.std.specs.Vec.Ownership.{FitsInBlock};
ghost use Rattle.std.specs.Mem.Slots.{slots_items, slots_filled, slots_ptr, slots_len};
ghost use Rattle.std.specs.Mem.Slots.Ownership.{Filled};
ghost use denote.RawPtr.{Ptr, block_ptr, block_of, count_of};
ghost use Rattle.js_places.specs.Memory.{deed_owns};
ghost use Rattle.js_places.specs.Places.{IsEmptyFrom};

use core::slots::Slots;
use std::alloc::{AllocError, Allocator};
use std::marker::{Model, PhantomData};
use std::mem::{align_of, size_of};
use std::slice;

/// Where the row begins. It owns nothing.
pub struct Base<T> {
    ptr: *mut T,
    ghost here: { ptr ≡ block_ptr (block_of ptr) (count_of ptr) },
}

impl<T> Clone for Base<T> {
    ghost is_clone = { λ x y. y ≡ x };

    ghost is_infallible = { λ _. ⊤ };

    fn clone(&self) -> Result<Base<T>, AllocError> {
        Ok(*self)
    }
}

impl<T> Copy for Base<T> {}

/// The right to give the block of `len` places at `at` back to `alloc`. It takes no space.
pub struct Deed<T, A: Allocator> {
    mark: PhantomData<*const (T, A)>,
    ghost at: { Ptr },
    ghost len: { ℕ },
    ghost alloc: { A },
}

impl<T, A: Allocator> Model for Deed<T, A> {
    ghost also_owns = { λ d. deed_owns (A.dealloc_token d.alloc) T.row d.at d.len };
}

/// A row of no places, which needs no memory.
pub(crate) fn hollow<T, A: Allocator>(_alloc: &A) -> (Slots<T>, Base<T>, Deed<T, A>)
    ensures { (slots_len result.0 ≡ 0)
        × (result.1.ptr ≡ slots_ptr result.0)
        × (result.2.at ≡ slots_ptr result.0)
        × (result.2.len ≡ 0)
        × (result.2.alloc ≡ _alloc.now)
        × (slots_filled result.0 ≡ replicate 0 false) }
{
    let mut place = ();
    let ptr = &raw mut place as *mut T;
    let row = unsafe { Slots::from_raw_parts(ptr, 0) };
    (row, Base { ptr }, Deed { mark: PhantomData })
}

/// A block of `len` empty places.
pub(crate) fn allocate<T, A: Allocator>(
    alloc: &A,
    len: usize,
) -> Result<(Slots<T>, Base<T>, Deed<T, A>), AllocError>
    requires fits { (0 < len) × FitsInBlock T.row len × T }
    ensures { IfOk result (λ r.
        (slots_len r.0 ≡ len)
        × (r.1.ptr ≡ slots_ptr r.0)
        × (r.2.at ≡ slots_ptr r.0)
        × (r.2.len ≡ len)
        × (r.2.alloc ≡ alloc.now)
        × (slots_filled r.0 ≡ replicate len false)) }
{
    match alloc.allocate(len * size_of::<T>(), align_of::<T>()) {
        Ok(block) => {
            let ptr = block as *mut T;
            let row = unsafe { Slots::from_raw_parts(ptr, len) };
            Ok((row, Base { ptr }, Deed { mark: PhantomData }))
        }
        Err(error) => Err(error),
    }
}

/// Gives the block back. No place holds an item, since none would be dropped.
pub(crate) fn deallocate<T, A: Allocator>(alloc: &A, row: Slots<T>, deed: Deed<T, A>)
    requires { (deed.at ≡ slots_ptr row)
        × (deed.len ≡ slots_len row)
        × (deed.alloc ≡ alloc.now)
        × IsEmptyFrom (slots_filled row) 0 }
{
    let Deed { mark: _ } = deed;
    let (ptr, len) = unsafe { row.into_raw_parts() };
    if len != 0 {
        unsafe {
            alloc.deallocate(ptr as *mut u8, len * size_of::<T>(), align_of::<T>());
        }
    }
}

/// The items in the first `count` places.
pub(crate) fn view<T>(row: &Slots<T>, base: Base<T>, count: usize) -> &[T]
    requires { (base.ptr ≡ slots_ptr row.now) × (count ≤ slots_len row.now) × Filled (slots_filled row.now) 0 count }
    ensures { result.now ≡ take count (slots_items row.now) }
{
    unsafe { slice::from_raw_parts(base.ptr, count) }
}
