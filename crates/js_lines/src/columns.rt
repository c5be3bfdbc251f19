//! Columns, and the units in which they are counted.

ghost use Rattle.std.specs.Prelude.{◌≡◌, ◌+◌, ◌<◌, ◌≤◌, ◌^◌, length, chars};
ghost use Rattle.js_lines.specs.Columns.{behind_front, front_within, length_in, width_in};
ghost use Rattle.js_lines.specs.declared.columns.ColumnUnit.TheVariants.{Bytes};

use js_source::Source;

/// The unit in which columns are counted.
#[derive(Clone, Copy, PartialEq, Eq, Debug)]
pub enum ColumnUnit {
    /// Bytes of UTF-8.
    Bytes,
    /// Characters: code points.
    Characters,
    /// Units of UTF-16: a character from U+10000 on has two.
    Utf16Units,
}

/// A place of a text: its line, and its column in that line, both from 0.
#[derive(Clone, Copy, PartialEq, Eq, Debug)]
pub struct Position {
    pub line: u32,
    pub column: u32,
}

impl ColumnUnit {
    /// The length of a character.
    fn width_of(self, c: char) -> usize
        ensures { result ≡ width_in self c }
    {
        match self {
            ColumnUnit::Bytes => c.len_utf8(),
            ColumnUnit::Characters => 1,
            ColumnUnit::Utf16Units if c < '\u{10000}' => 1,
            ColumnUnit::Utf16Units => 2,
        }
    }

    /// The length of a text, character by character.
    fn sum_of_widths(self, text: &str) -> usize
        requires { length text.now < 2 ^ 32 }
        ensures { result ≡ length_in self (chars text.now) }
    {
        let mut source = Source::new(text);
        let mut length = 0;
        while let Some(c) = source.next_char() {
            length += self.width_of(c);
        }
        length
    }

    /// The length of a text.
    pub fn length_of(self, text: &str) -> usize
        requires { length text.now < 2 ^ 32 }
        ensures value { result ≡ length_in self (chars text.now) }
        ensures bound { result ≤ length text.now }
    {
        match self {
            ColumnUnit::Bytes => text.len(),
            ColumnUnit::Characters | ColumnUnit::Utf16Units => self.sum_of_widths(text),
        }
    }

    /// The bytes of the longest front of the text that is no longer than a column, character by character.
    fn bytes_up_to(self, text: &str, column: usize) -> u32
        requires { length text.now < 2 ^ 32 }
        ensures { result ≡ length_in Bytes (front_within self column (chars text.now)) }
    {
        let mut source = Source::new(text);
        let mut left = column;
        while let Some(c) = source.peek_char() {
            let width = self.width_of(c);
            if left < width {
                return source.offset();
            }
            left -= width;
            source.pass_char(c);
        }
        source.offset()
    }

    /// The bytes of the longest front of the text that is no longer than a column.
    pub fn bytes_within(self, text: &str, column: usize) -> u32
        requires { length text.now < 2 ^ 32 }
        ensures { result ≡ length_in Bytes (front_within self column (chars text.now)) }
    {
        match self {
            ColumnUnit::Bytes => text.floor_char_boundary(column) as u32,
            ColumnUnit::Characters | ColumnUnit::Utf16Units => self.bytes_up_to(text, column),
        }
    }

    /// The longest front of the text that is no longer than a column, and what is behind it.
    pub fn split_at(self, text: &str, column: usize) -> (&str, &str)
        requires { length text.now < 2 ^ 32 }
        ensures front { chars result.0.now ≡ front_within self column (chars text.now) }
        ensures behind { chars result.1.now ≡ behind_front self column (chars text.now) }
        ensures lengths { length result.0.now + length result.1.now ≡ length text.now }
    {
        text.split_at(self.bytes_within(text, column) as usize)
    }
}
