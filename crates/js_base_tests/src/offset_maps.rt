//! Values by offsets.

use js_source::OffsetMap;
use std::alloc::{AllocError, Global};
use std::test::Fail;

/// Offsets with values, in rising order, but for one that stands before them and one that comes twice.
static ADDED: [(u32, char); 6] = [(3, 'a'), (7, 'b'), (20, 'c'), (5, 'd'), (7, 'e'), (5, 'f')];

/// What stands at each offset in the end.
static KEPT: [(u32, Option<char>); 6] = [
    (2, None),
    (3, Some('a')),
    (5, Some('f')),
    (7, Some('e')),
    (20, Some('c')),
    (21, None),
];

fn added(alloc: Global) -> Result<OffsetMap<char>, AllocError> {
    let mut map = OffsetMap::new_in(alloc);
    for &(offset, value) in &ADDED {
        map.insert(offset, value)?;
    }
    Ok(map)
}

#[test]
fn the_last_value_at_an_offset_is_kept(rt: HostRuntime) -> Result<(), Fail> {
    let map = added(rt.alloc())?;
    for &(offset, value) in &KEPT {
        assert_eq!(rt; map.get(offset).copied(), value, "at {offset}");
    }
    Ok(())
}
