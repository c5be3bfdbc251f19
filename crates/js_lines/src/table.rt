//! A table of the lines of a text.

ghost use Rattle.std.specs.Prelude.{◌≡◌, ℕ, ◌<◌, ◌≤◌, ◌^◌, ◌∷◌, ◌++◌, [], List, length, IfOk, IfNone, IfSome};
ghost use Rattle.std.specs.Prelude.{◌+◌, chars, option_map, slice_get};
ghost use Rattle.std.specs.Str.{IsCharBoundary};
ghost use Rattle.js_text.specs.Characters.{from_first, from_place};
ghost use Rattle.js_source.specs.Search.{four_bytes, matches_char};
ghost use Rattle.js_source.specs.Source.{rest, BeginsWith};
ghost use Rattle.js_lines.specs.Columns.{back_within, front_within, length_in};
ghost use Rattle.js_lines.specs.Lines.{back_at, front_at, last_line, line_content, line_of, line_starts};
ghost use Rattle.js_lines.specs.Lines.{lines_ended, offset_of, position_of, starts_from};
ghost use Rattle.js_lines.specs.declared.columns.ColumnUnit.TheVariants.{Bytes};

use crate::columns::{ColumnUnit, Position};
use crate::line_ends::LineEnds;
use js_source::{FourBytes, Source};
use std::alloc::{AllocError, Global};
use std::marker::Model;

/// The lines of a text, found by one pass over it. A table takes four bytes a line.
#[derive(Drop)]
pub struct LineTable<'t> {
    text: &'t str,
    ends: LineEnds,
    starts: Vec<u32>,
}

impl<'t> Model for LineTable<'t> {
    ghost use Rattle.js_lines.specs.Lines.{Lines, AreLineStarts};

    ghost Value = { Lines };

    ghost view = { λ t. record { text = t.text.now; ends = t.ends } };

    ghost invariant = { λ t. AreLineStarts t.ends t.text.now t.starts.items };
}

/// The first bytes of the characters that line ends are made of.
const LINE_END_BYTES: FourBytes = FourBytes {
    first: b'\n',
    second: b'\r',
    third: 0xE2,
    fourth: 0xE2,
};

/// The line that an offset stands on.
#[derive(Clone, Copy, Debug)]
pub struct Located<'t> {
    /// Its number, from 0.
    pub line: u32,
    /// What stands on it before the offset.
    pub before: &'t str,
    /// What stands on it from the offset on, without its line end.
    pub behind: &'t str,
}

/// Goes to the next character that may begin a line end, or to the end.
fn advance_to_match(source: &mut Source<'_>) -> Option<char>
    ensures text { source.new.text ≡ source.old.text }
    ensures rest { rest source.new ≡ from_first (matches_char (four_bytes LINE_END_BYTES)) (rest source.old) }
    ensures bytes { source.old.place + length_in Bytes (rest source.old)
        ≡ source.new.place + length_in Bytes (rest source.new) }
    ensures none { IfNone result (rest source.new ≡ []) }
    ensures some { IfSome result (λ c. BeginsWith c (rest source.new)) }
{
    source.advance_to_one_of(LINE_END_BYTES)?;
    source.peek_char()
}

/// Goes behind the next line end, if there is one, and tells where it stands then.
fn pass_line_end(source: &mut Source<'_>, ends: LineEnds) -> Option<u32>
    ensures text { source.new.text ≡ source.old.text }
    ensures none { IfNone result (starts_from ends source.old ≡ []) }
    ensures some { IfSome result (λ start. starts_from ends source.old ≡ start ∷ starts_from ends source.new) }
    ensures shorter { IfSome result (λ _. length (rest source.new) < length (rest source.old)) }
{
    while let Some(c) = advance_to_match(source) {
        source.pass_char(c);
        if ends.ends_behind(c, source) {
            return Some(source.offset());
        }
    }
    None
}

/// The places where the lines of a text begin.
fn find_line_starts(alloc: Global, text: &str, ends: LineEnds) -> Result<Vec<u32>, AllocError>
    requires { length text.now < 2 ^ 32 }
    ensures { IfOk result (λ starts. starts.items ≡ line_starts ends text.now) }
{
    let mut starts = vec![in alloc; 0]?;
    let mut source = Source::new(text);
    while let Some(start) = pass_line_end(&mut source, ends) {
        starts.push(start)?;
    }
    Ok(starts)
}

/// Goes to the next line end, or to the end of the text.
fn pass_content(source: &mut Source<'_>, ends: LineEnds)
    ensures text { source.new.text ≡ source.old.text }
    ensures content { rest source.old ≡ line_content ends (rest source.old) ++ rest source.new }
{
    while let Some(c) = advance_to_match(source) {
        let mut behind = source.here();
        behind.pass_char(c);
        if ends.begin_with(c, &behind) {
            return;
        }
        *source = behind;
    }
}

/// What stands in a text before the first line end.
fn content_of<'t>(text: &'t str, ends: LineEnds) -> &'t str
    requires { length text.now < 2 ^ 32 }
    ensures characters { chars result.now ≡ line_content ends (chars text.now) }
    ensures within { length result.now ≤ length text.now }
{
    let mut source = Source::new(text);
    pass_content(&mut source, ends);
    &text[..source.offset() as usize]
}

/// The start with a number, from 0.
fn start_at(starts: &[u32], line: u32) -> Option<u32>
    ensures { result ≡ slice_get starts.now line }
{
    starts.get(line as usize).copied()
}

impl<'t> LineTable<'t> {
    /// The lines of a text.
    pub fn new(alloc: Global, text: &'t str, ends: LineEnds) -> Result<LineTable<'t>, AllocError>
        requires { length text.now < 2 ^ 32 }
        ensures { IfOk result (λ t. t ≡ record { text = text.now; ends = ends }) }
    {
        let starts = find_line_starts(alloc, text, ends)?;
        Ok(LineTable { text, ends, starts })
    }

    /// The text whose lines these are.
    pub fn text(&self) -> &'t str
        ensures { result.now ≡ self.now.text }
    {
        self.text
    }

    /// How many lines there are: one more than line ends.
    pub fn line_count(&self) -> usize
        ensures { result ≡ length (line_starts self.now.ends self.now.text) }
    {
        self.starts.len()
    }

    /// The offset at which a line begins, in bytes. None: there is no line of this number.
    pub fn line_start(&self, line: u32) -> Option<u32>
        ensures start { result ≡ slice_get (line_starts self.now.ends self.now.text) line }
        ensures boundary { IfSome result (IsCharBoundary self.now.text) }
    {
        start_at(&self.starts, line)
    }

    /// The number of the line on which an offset between two characters stands.
    fn line_at(&self, offset: usize) -> usize
        requires { IsCharBoundary self.now.text offset }
        ensures { (xs ys : List ℕ) → chars self.now.text ≡ xs ++ ys → offset ≡ length_in Bytes xs
            → result ≡ lines_ended self.now.ends xs ys }
    {
        self.starts
            .partition_point(|start| *start as usize <= offset)
            - 1
    }

    /// What stands between an offset and the next line end.
    fn content_from(&self, offset: usize) -> &'t str
        requires { IsCharBoundary self.now.text offset }
        ensures characters { chars result.now ≡ line_content self.now.ends (from_place self.now.text offset) }
        ensures within { offset + length result.now ≤ length self.now.text }
        ensures short { length self.now.text < 2 ^ 32 }
    {
        content_of(&self.text[offset..], self.ends)
    }

    /// The number of the line on which an offset stands, what stands on it before the offset, and where the rest begins.
    fn front_of_line(&self, offset: u32) -> (u32, &'t str, usize)
        ensures line { result.0 ≡ lines_ended self.now.ends (front_at self.now.text offset)
            (back_at self.now.text offset) }
        ensures before { chars result.1.now ≡ last_line self.now.ends (front_at self.now.text offset)
            (back_at self.now.text offset) }
        ensures boundary { IsCharBoundary self.now.text result.2 }
        ensures behind { back_at self.now.text offset ≡ from_place self.now.text result.2 }
        ensures within { length result.1.now ≤ result.2 }
        ensures short { length self.now.text < 2 ^ 32 }
    {
        let at = self.text.floor_char_boundary(offset as usize);
        let line = self.line_at(at);
        let start = self.starts[line] as usize;
        (line as u32, &self.text[start..at], at)
    }

    /// The line on which an offset stands. Within a character it is that character's start, behind the text its end.
    pub fn locate(&self, offset: u32) -> Located<'t>
        ensures line { result.line ≡ lines_ended self.now.ends (front_at self.now.text offset)
            (back_at self.now.text offset) }
        ensures before { chars result.before.now ≡ last_line self.now.ends (front_at self.now.text offset)
            (back_at self.now.text offset) }
        ensures behind { chars result.behind.now ≡ line_content self.now.ends (back_at self.now.text offset) }
        ensures within { length result.before.now + length result.behind.now ≤ length self.now.text }
        ensures short { length self.now.text < 2 ^ 32 }
    {
        let (line, before, at) = self.front_of_line(offset);
        Located {
            line,
            before,
            behind: self.content_from(at),
        }
    }

    /// What stands on a line around an offset: at most so many bytes before it, and as many from it on. It costs no more
    /// than that, however long the line is.
    pub fn around(&self, offset: u32, most: u32) -> (&'t str, &'t str)
        ensures before { chars result.0.now ≡ back_within most (last_line self.now.ends
            (front_at self.now.text offset) (back_at self.now.text offset)) }
        ensures behind { chars result.1.now ≡ front_within Bytes most (line_content self.now.ends
            (back_at self.now.text offset)) }
    {
        let (_, before, at) = self.front_of_line(offset);
        let passed = ColumnUnit::Bytes
            .length_of(before)
            .saturating_sub(most as usize);
        let near = ColumnUnit::Bytes.split_at(before, passed).1;
        // One byte more tells whether a LF follows a CR.
        let rest = ColumnUnit::Bytes
            .split_at(&self.text[at..], most as usize + 1)
            .0;
        let content = content_of(rest, self.ends);
        (near, ColumnUnit::Bytes.split_at(content, most as usize).0)
    }

    /// The line and the column of an offset.
    pub fn position(&self, offset: u32, unit: ColumnUnit) -> Position
        ensures { result ≡ position_of self.now.ends unit self.now.text offset }
    {
        let located = self.locate(offset);
        Position {
            line: located.line,
            column: unit.length_of(located.before) as u32,
        }
    }

    /// The line and the column of an offset, from those of another one before it: on the same line this costs what stands
    /// between them.
    pub(crate) fn position_from(
        &self,
        unit: ColumnUnit,
        from: u32,
        known: Position,
        offset: u32,
    ) -> Position
        requires { known ≡ position_of self.now.ends unit self.now.text from }
        ensures { result ≡ position_of self.now.ends unit self.now.text offset }
    {
        let start = self.text.floor_char_boundary(from as usize);
        let end = self.text.floor_char_boundary(offset as usize);
        if start > end || self.line_at(end) != known.line as usize {
            return self.position(offset, unit);
        }
        Position {
            line: known.line,
            column: known.column + unit.length_of(&self.text[start..end]) as u32,
        }
    }

    /// A line without its line end. None: there is no line of this number.
    pub fn line_text(&self, line: u32) -> Option<&'t str>
        ensures { option_map (λ text. chars text.now) result ≡ line_of self.now line }
    {
        let start = self.line_start(line)?;
        Some(self.content_from(start as usize))
    }

    /// The offset of a place, in bytes: behind the longest front of its line that is no longer than its column. None:
    /// there is no line of this number.
    pub fn offset(&self, position: Position, unit: ColumnUnit) -> Option<u32>
        ensures { result ≡ offset_of self.now unit position }
    {
        let start = self.line_start(position.line)?;
        let line = self.content_from(start as usize);
        Some(start + unit.bytes_within(line, position.column as usize))
    }
}
