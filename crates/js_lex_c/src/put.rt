//! Items that are put into lists of a caller, as far as there is room.

ghost use Rattle.std.specs.Prelude.{◌≡◌, [], ◌∷◌};
ghost use Rattle.js_lex_c.specs.Filled.{PutsOn, filled};

/// Puts the items into the list as far as there is room.
pub(crate) fn fill<T: Copy>(room: &mut [T], items: &[T])
    ensures { room.new ≡ filled room.old items.now }
{
    if items.len() <= room.len() {
        room[..items.len()].copy_from_slice(items);
    } else {
        room.copy_from_slice(&items[..room.len()]);
    }
}

/// Puts an item at the place behind so many that the list was filled with, if there is room.
#[inline(always)]
pub(crate) fn put<T: Copy>(room: &mut [T], place: usize, item: T)
    ensures { PutsOn place (item ∷ []) room.old room.new }
{
    if place < room.len() {
        room[place] = item;
    }
}

/// Puts the items from the place on, as far as there is room.
pub(crate) fn put_all<T: Copy>(room: &mut [T], place: usize, items: &[T])
    ensures { PutsOn place items.now room.old room.new }
{
    if place < room.len() {
        fill(&mut room[place..], items);
    }
}
