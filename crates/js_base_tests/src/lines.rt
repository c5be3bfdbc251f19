//! Lines and columns of a text with a line end of each kind, an emoji among them.

use js_lines::{ColumnUnit, LineEnds, LineTable, Position};
use std::alloc::AllocError;
use std::test::Fail;

/// `a` CR LF `b` U+2028, the emoji, `c` CR `d` LF: 15 bytes.
const TEXT: &str = "a\r\nb\u{2028}😀c\rd\n";

/// What ends a line, an offset, and the line and the columns in bytes, characters and UTF-16 units there.
static PLACES: [(LineEnds, u32, u32, [u32; 3]); 12] = [
    (LineEnds::EcmaScript, 0, 0, [0, 0, 0]),
    (LineEnds::EcmaScript, 2, 0, [2, 2, 2]),
    (LineEnds::EcmaScript, 3, 1, [0, 0, 0]),
    (LineEnds::EcmaScript, 7, 2, [0, 0, 0]),
    (LineEnds::EcmaScript, 9, 2, [0, 0, 0]),
    (LineEnds::EcmaScript, 11, 2, [4, 1, 2]),
    (LineEnds::EcmaScript, 13, 3, [0, 0, 0]),
    (LineEnds::EcmaScript, 99, 4, [0, 0, 0]),
    (LineEnds::LineFeeds, 13, 1, [10, 5, 6]),
    (LineEnds::LineFeeds, 15, 2, [0, 0, 0]),
    (LineEnds::LanguageServer, 12, 1, [9, 4, 5]),
    (LineEnds::LanguageServer, 13, 2, [0, 0, 0]),
];

/// What ends a line, the number of a line, its start and its text.
static LINES: [(LineEnds, u32, Option<(u32, &'static str)>); 9] = [
    (LineEnds::EcmaScript, 0, Some((0, "a"))),
    (LineEnds::EcmaScript, 1, Some((3, "b"))),
    (LineEnds::EcmaScript, 2, Some((7, "😀c"))),
    (LineEnds::EcmaScript, 3, Some((13, "d"))),
    (LineEnds::EcmaScript, 4, Some((15, ""))),
    (LineEnds::EcmaScript, 5, None),
    (LineEnds::LineFeeds, 0, Some((0, "a"))),
    (LineEnds::LineFeeds, 1, Some((3, "b\u{2028}😀c\rd"))),
    (LineEnds::LanguageServer, 1, Some((3, "b\u{2028}😀c"))),
];

/// A line, a column, and the offset there, by what ECMA-262 counts.
static OFFSETS: [(u32, u32, ColumnUnit, Option<u32>); 7] = [
    (0, 9, ColumnUnit::Bytes, Some(1)),
    (2, 1, ColumnUnit::Utf16Units, Some(7)),
    (2, 2, ColumnUnit::Utf16Units, Some(11)),
    (2, 1, ColumnUnit::Characters, Some(11)),
    (2, 3, ColumnUnit::Bytes, Some(7)),
    (2, 99, ColumnUnit::Characters, Some(12)),
    (5, 0, ColumnUnit::Characters, None),
];

/// The line of an offset and its three columns.
fn place(table: &LineTable<'_>, offset: u32) -> (u32, [u32; 3]) {
    let bytes = table.position(offset, ColumnUnit::Bytes);
    let characters = table.position(offset, ColumnUnit::Characters);
    let units = table.position(offset, ColumnUnit::Utf16Units);
    (bytes.line, [bytes.column, characters.column, units.column])
}

/// A line, by its start and its text.
fn line<'t>(table: &LineTable<'t>, number: u32) -> Option<(u32, &'t str)> {
    Some((table.line_start(number)?, table.line_text(number)?))
}

#[test]
fn offsets_have_lines_and_columns(rt: HostRuntime) -> Result<(), AllocError> {
    for (ends, offset, number, columns) in &PLACES {
        let table = LineTable::new(rt.alloc(), TEXT, *ends)?;
        assert_eq!(rt;
            place(&table, *offset),
            (*number, *columns),
            "{ends:?} {offset}"
        );
    }
    Ok(())
}

#[test]
fn lines_have_starts_and_texts(rt: HostRuntime) -> Result<(), AllocError> {
    for (ends, number, expected) in &LINES {
        let table = LineTable::new(rt.alloc(), TEXT, *ends)?;
        assert_eq!(rt; line(&table, *number), *expected, "{ends:?} {number}");
    }
    Ok(())
}

#[test]
fn columns_lead_back(rt: HostRuntime) -> Result<(), AllocError> {
    let table = LineTable::new(rt.alloc(), TEXT, LineEnds::EcmaScript)?;
    for (line, column, unit, offset) in &OFFSETS {
        let position = Position {
            line: *line,
            column: *column,
        };
        assert_eq!(rt;
            table.offset(position, *unit),
            *offset,
            "{line} {column} {unit:?}"
        );
    }
    Ok(())
}

#[test]
fn a_line_stands_around_an_offset(rt: HostRuntime) -> Result<(), Fail> {
    let table = LineTable::new(rt.alloc(), TEXT, LineEnds::EcmaScript)?;
    assert_eq!(rt; table.line_count(), 5);
    assert_eq!(rt; table.text().len(), 15);
    let around = table.locate(11);
    assert_eq!(rt; (around.line, around.before, around.behind), (2, "😀", "c"));
    Ok(())
}
