//! Tables of bytes to search for.

use js_source::SafeByteMatchTable;

/// From which byte to which a table matches, and whether a search with it stops between characters alone.
static TABLES: [(u8, u8, bool); 8] = [
    (128, 128, false),
    (192, 255, true),
    (192, 247, true),
    (128, 246, false),
    (128, 247, true),
    (0, 127, true),
    (191, 191, false),
    (248, 255, true),
];

fn is_safe(first: u8, last: u8) -> bool {
    let mut entries = [false; 256];
    for b in first..=last {
        entries[b as usize] = true;
    }
    SafeByteMatchTable::new(entries).is_some()
}

#[test]
fn safe_tables(rt: HostRuntime) {
    for &(first, last, is_safe_table) in &TABLES {
        assert_eq!(rt;
            is_safe(first, last),
            is_safe_table,
            "from {first} to {last}"
        );
    }
}
