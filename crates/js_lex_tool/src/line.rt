//! Short lines of a report, which are written from their ends on.

ghost use Rattle.std.specs.Prelude.{◌≡◌, ◌+◌, ◌-◌, ◌≤◌, ◌++◌, [], OnOk, codes, drop, length, replicate, string_bytes};
ghost use Rattle.std.specs.Fmt.{decimal};
ghost use Rattle.std.specs.Str.{IsUtf8};
ghost use Rattle.js_kind.specs.Kinds.{kind_name};

use crate::names::Names;
use crate::numbers::{FirstDigits, LastDigits, put_number};
use crate::put::{put_before, put_end_of_16, put_end_of_32};
use js_kind::Token;
use std::alloc::AllocError;
use std::marker::Model;

/// A line has room for so many bytes.
const ROOM: usize = 192;

/// A line of no more bytes is copied as a block of so many.
const BLOCK: usize = 64;

/// A short line. It is written from its end: what is put into it comes before what it has. Behind its end stand zeros,
/// so that a block can be copied from its start.
#[derive(Drop)]
pub struct Line {
    bytes: [u8; ROOM + BLOCK],
    start: usize,
    names: Names,
    last_digits: LastDigits,
    place: FirstDigits,
    index: FirstDigits,
}

impl Model for Line {
    ghost use Rattle.std.specs.Prelude.{◌≡◌, ◌≤◌, ◌-◌, take, drop, replicate};
    ghost use Rattle.std.specs.Str.{IsUtf8};
    ghost use Rattle.js_lex_tool.specs.Line.{LineState};

    ghost Value = { LineState };

    ghost view = { λ l. record { text = take (192 - l.start) (drop l.start l.bytes); room = l.start } };

    ghost invariant = { λ l.
        (l.start ≤ 192) × IsUtf8 (take (192 - l.start) (drop l.start l.bytes)) × (drop 192 l.bytes ≡ replicate 64 0) };
}

impl Line {
    /// An empty line.
    pub fn new() -> Line
        ensures text { result.text ≡ [] }
        ensures room { result.room ≡ 192 }
    {
        Line {
            bytes: [0; ROOM + BLOCK],
            start: ROOM,
            names: Names::new(),
            last_digits: LastDigits::new(),
            place: FirstDigits::new(),
            index: FirstDigits::new(),
        }
    }

    /// Takes out all that is in it.
    #[inline(always)]
    pub fn clear(&mut self)
        ensures text { self.new.text ≡ [] }
        ensures room { self.new.room ≡ 192 }
    {
        self.start = ROOM;
    }

    /// Puts a text before what is in it.
    #[inline(always)]
    pub fn put_text(&mut self, text: &str)
        requires { length text.now ≤ self.old.room }
        ensures text { self.new.text ≡ text.now ++ self.old.text }
        ensures room { self.new.room + length text.now ≡ self.old.room }
    {
        self.start = put_before(&mut self.bytes, self.start, text.as_bytes());
    }

    /// Puts the last `len` of 16 bytes before what is in it.
    #[inline(always)]
    pub fn put_end(&mut self, room: &[u8], len: usize)
        requires width { length room.now ≡ 16 }
        requires fits { 16 ≤ self.old.room }
        requires within { len ≤ 16 }
        requires utf8 { IsUtf8 (drop (16 - len) room.now) }
        ensures text { self.new.text ≡ drop (16 - len) room.now ++ self.old.text }
        ensures room { self.new.room + len ≡ self.old.room }
    {
        self.start = put_end_of_16(&mut self.bytes, self.start, room, len);
    }

    /// Puts the name of the token's kind, and a blank, before what is in it.
    #[inline(always)]
    pub fn put_kind(&mut self, token: &Token)
        requires { 32 ≤ self.old.room }
        ensures text { self.new.text ≡ kind_name token.now.kind ++ codes " " ++ self.old.text }
        ensures room { self.old.room ≤ self.new.room + 24 }
    {
        let name = self.names.of(token);
        self.start = put_end_of_32(&mut self.bytes, self.start, &name.room, name.len);
    }

    /// Puts a place of the source before what is in it, in decimal.
    #[inline(always)]
    pub fn put_place(&mut self, place: u32)
        requires { 20 ≤ self.old.room }
        ensures text { self.new.text ≡ decimal place ++ self.old.text }
        ensures room { self.old.room ≤ self.new.room + 20 }
    {
        self.start = put_number(
            &mut self.place,
            &self.last_digits,
            &mut self.bytes,
            self.start,
            u64::from(place),
        );
    }

    /// Puts the index of a row before what is in it, in decimal.
    #[inline(always)]
    pub fn put_index(&mut self, index: usize)
        requires { 20 ≤ self.old.room }
        ensures text { self.new.text ≡ decimal index ++ self.old.text }
        ensures room { self.old.room ≤ self.new.room + 20 }
    {
        self.start = put_number(
            &mut self.index,
            &self.last_digits,
            &mut self.bytes,
            self.start,
            index as u64,
        );
    }

    /// What is in it.
    #[inline(always)]
    fn as_str(&self) -> &str
        ensures { result.now ≡ self.now.text }
    {
        unsafe { str::from_utf8_unchecked(&self.bytes[self.start..ROOM]) }
    }

    /// What is in it, and the zeros behind.
    #[inline(always)]
    fn with_zeros(&self) -> &str
        ensures { result.now ≡ self.now.text ++ replicate 64 0 }
    {
        unsafe { str::from_utf8_unchecked(&self.bytes[self.start..]) }
    }

    /// Appends what is in it to a text: if it is short, by a block of a width that is known, of which what is too much
    /// is taken away again.
    #[inline(always)]
    pub fn push_to(&self, text: &mut String) -> Result<(), AllocError>
        ensures { OnOk result (string_bytes text.new ≡ string_bytes text.old ++ self.now.text) }
    {
        let line = self.as_str();
        let whole = self.with_zeros();
        if line.len() > BLOCK || !whole.is_char_boundary(BLOCK) {
            return text.push_str(line);
        }
        let end = text.len() + line.len();
        text.push_str(&whole[..BLOCK])?;
        text.truncate(end);
        Ok(())
    }
}
