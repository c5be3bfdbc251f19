//! The lines of a text that is edited.

ghost use Rattle.std.specs.Prelude.{◌≡◌, ℕ, ◌+◌, ◌<◌, ◌≤◌, ◌^◌, List, length, IfOk, IfSome, OnErr, OnOk};
ghost use Rattle.std.specs.Prelude.{option_map, slice_get, Some};
ghost use Rattle.std.specs.Str.{IsCharBoundary, chars};
ghost use Rattle.js_lines.specs.Lines.{back_at, front_at, last_line, line_from, line_of, lines_ended};
ghost use Rattle.js_lines.specs.Lines.{offset_of, position_of};
ghost use Rattle.js_edited_lines.specs.Edited.{AreLinesOf, IsEdited, lines_in};

use crate::content::without_end;
use crate::starts::Starts;
use js_lines::{ColumnUnit, LineEnds, LineTable, Position};
use std::alloc::{AllocError, Global};
use std::marker::Model;

/// The lines of a text that is edited again and again. The text is its owner's, who hands it to each call that reads
/// it. They take four bytes a line.
#[derive(Drop)]
pub struct EditedLines {
    ends: LineEnds,
    starts: Starts,
}

impl Model for EditedLines {
    ghost use Rattle.std.specs.Prelude.{◌<◌, length};
    ghost use Rattle.js_edited_lines.specs.Edited.{KeptLines};

    ghost Value = { KeptLines };

    ghost use Rattle.js_edited_lines.specs.Starts.{all_starts};

    ghost view = { λ l. record { ends = l.ends; bytes = l.starts.bytes; starts = all_starts l.starts } };

    ghost invariant = { λ l. 0 < length l.starts.before.items };
}

impl EditedLines {
    /// The lines of a text.
    pub fn new(alloc: Global, text: &str, ends: LineEnds) -> Result<EditedLines, AllocError>
        requires { length text.now < 2 ^ 32 }
        ensures ends { IfOk result (λ lines. lines.ends ≡ ends) }
        ensures lines { IfOk result (λ lines. AreLinesOf lines text.now) }
    {
        let table = LineTable::new(alloc, text, ends)?;
        let last = table.line_count() - 1;
        let mut starts = Starts::new(alloc, text.len() as u32)?;
        starts.before.reserve(last)?;
        starts.add(&table, 0, last as u32);
        Ok(EditedLines { ends, starts })
    }

    /// Tells of an edit that was made: in the text, `inserted` bytes stand where those from `start` to `end` stood
    /// before. Where there is no memory, the lines are as before the edit.
    ///
    /// The starts of lines between this edit and the last one move over the gap, and what was inserted is searched, with
    /// the character before it and the one behind it. The lines on which the edit began and ended are found by halves.
    /// Nothing else grows with the text.
    pub fn edit(
        &mut self,
        text: &str,
        start: u32,
        end: u32,
        inserted: u32,
    ) -> Result<(), AllocError>
        requires { IsEdited self.old text.now start end inserted }
        ensures ends { self.new.ends ≡ self.old.ends }
        ensures ok { OnOk result (AreLinesOf self.new text.now) }
        ensures err { OnErr result (self.new ≡ self.old) }
    {
        let from = text.floor_char_boundary((start as usize).saturating_sub(1));
        let to = (start + inserted) as usize;
        let until = text.ceil_char_boundary(to + 1);
        let alloc = *self.starts.before.allocator();
        let part = LineTable::new(alloc, &text[from..until], self.ends)?;
        let found = part.locate((to - from) as u32).line;
        let first = self.starts.line_at(from as u32) + 1;
        let past = self.starts.line_at(end) + 1;
        self.starts.cut(first, past, found as usize)?;
        self.starts.bytes = text.len() as u32;
        self.starts.add(&part, from as u32, found);
        Ok(())
    }

    /// How many lines there are: one more than line ends.
    pub fn line_count(&self) -> usize
        ensures { result ≡ length self.now.starts }
    {
        self.starts.len()
    }

    /// The offset at which a line begins, in bytes. None: there is no line of this number.
    pub fn line_start(&self, line: u32) -> Option<u32>
        ensures start { result ≡ slice_get self.now.starts line }
        ensures boundary { (text : List ℕ) → AreLinesOf self.now text → IfSome result (IsCharBoundary text) }
    {
        self.starts.get(line as usize)
    }

    /// The number of the line on which an offset stands, and what stands on it before the offset.
    fn front_of_line<'t>(&self, text: &'t str, offset: u32) -> (u32, &'t str)
        requires { AreLinesOf self.now text.now }
        ensures line { result.0 ≡ lines_ended self.now.ends (front_at text.now offset) (back_at text.now offset) }
        ensures before { chars result.1.now ≡ last_line self.now.ends (front_at text.now offset)
            (back_at text.now offset) }
        ensures within { length result.1.now ≤ length text.now }
    {
        let at = text.floor_char_boundary(offset as usize);
        let line = self.starts.line_at(at as u32);
        let start = self.starts.start_of(line) as usize;
        (line as u32, &text[start..at])
    }

    /// The line and the column of an offset. Within a character it is that character's start, behind the text its end.
    pub fn position(&self, text: &str, offset: u32, unit: ColumnUnit) -> Position
        requires { AreLinesOf self.now text.now }
        ensures { result ≡ position_of self.now.ends unit text.now offset }
    {
        let (line, before) = self.front_of_line(text, offset);
        Position {
            line,
            column: unit.length_of(before) as u32,
        }
    }

    /// What stands on a line that begins at a place, without its line end. A long line costs no more than a short one.
    fn content<'t>(&self, text: &'t str, line: u32, start: u32) -> &'t str
        requires lines { AreLinesOf self.now text.now }
        requires there { slice_get self.now.starts line ≡ Some start }
        ensures characters { chars result.now ≡ line_from (lines_in self.now text.now) start }
        ensures within { start + length result.now ≤ length text.now }
    {
        match self.starts.get(line as usize + 1) {
            Some(next) => without_end(&text[start as usize..next as usize]),
            None => &text[start as usize..],
        }
    }

    /// A line without its line end. None: there is no line of this number.
    pub fn line_text<'t>(&self, text: &'t str, line: u32) -> Option<&'t str>
        requires { AreLinesOf self.now text.now }
        ensures { option_map (λ found. chars found.now) result ≡ line_of (lines_in self.now text.now) line }
    {
        let start = self.line_start(line)?;
        Some(self.content(text, line, start))
    }

    /// The offset of a place, in bytes: behind the longest front of its line that is no longer than its column. None:
    /// there is no line of this number.
    pub fn offset(&self, text: &str, position: Position, unit: ColumnUnit) -> Option<u32>
        requires { AreLinesOf self.now text.now }
        ensures { result ≡ offset_of (lines_in self.now text.now) unit position }
    {
        let start = self.line_start(position.line)?;
        let line = self.content(text, position.line, start);
        Some(start + unit.bytes_within(line, position.column as usize))
    }
}
