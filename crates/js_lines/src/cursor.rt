//! Places of a text, one behind the other.

ghost use Rattle.std.specs.Prelude.{◌≡◌};
ghost use Rattle.js_lines.specs.Lines.{position_of};

use crate::columns::{ColumnUnit, Position};
use crate::table::LineTable;
use std::marker::Model;

/// Tells the lines and columns of offsets, one behind the other: an offset on the line of the one before it costs what
/// stands between them, and any other what stands on its line.
#[derive(Drop)]
pub struct LineCursor<'l, 't> {
    lines: &'l LineTable<'t>,
    unit: ColumnUnit,
    /// The last offset, and its place.
    offset: u32,
    position: Position,
}

impl<'l, 't> Model for LineCursor<'l, 't> {
    ghost use Rattle.std.specs.Prelude.{◌≡◌};
    ghost use Rattle.js_lines.specs.Lines.{CursorOf, position_of};

    ghost Value = { CursorOf };

    ghost view = { λ c. record { lines = c.lines.now; unit = c.unit } };

    ghost invariant = { λ c. c.position ≡ position_of c.lines.now.ends c.unit c.lines.now.text c.offset };
}

impl<'l, 't> LineCursor<'l, 't> {
    /// A cursor at the start of a text.
    pub fn new(lines: &'l LineTable<'t>, unit: ColumnUnit) -> LineCursor<'l, 't>
        ensures { result ≡ record { lines = lines.now; unit = unit } }
    {
        LineCursor {
            lines,
            unit,
            offset: 0,
            position: lines.position(0, unit),
        }
    }

    /// The line and the column of an offset.
    pub fn position(&mut self, offset: u32) -> Position
        ensures position { result ≡ position_of self.old.lines.ends self.old.unit self.old.lines.text offset }
        ensures same { self.new ≡ self.old }
    {
        let position = self
            .lines
            .position_from(self.unit, self.offset, self.position, offset);
        self.offset = offset;
        self.position = position;
        position
    }
}
