//! Where lines begin, in two lists around a gap.

ghost use Rattle.std.specs.Prelude.{◌≡◌, ℕ, ◌+◌, ◌^◌, ◌<◌, ◌≤◌, [], ◌∷◌, ◌++◌, length, map, take, drop};
ghost use Rattle.std.specs.Prelude.{IfOk, OnErr, OnOk, max, min, slice_get, slice_index, vec_len, vec_capacity};
ghost use Rattle.std.specs.Str.{chars};
ghost use Rattle.js_lines.specs.Lines.{line_starts, starts_behind};
ghost use Rattle.js_edited_lines.specs.Starts.{IsAmong, IsLastUpTo, all_starts, turned};

use js_lines::LineTable;
use std::alloc::{AllocError, Global};

/// Where the lines of a text begin, around a gap. The places before the gap are counted from the start of the text. The
/// others, the nearest last, are counted from its end, so that an edit in the gap touches none of them.
#[derive(Drop)]
pub(crate) struct Starts {
    pub(crate) before: Vec<u32>,
    pub(crate) behind: Vec<u32>,
    /// The length of the text.
    pub(crate) bytes: u32,
}

impl Starts {
    /// The first line alone.
    pub(crate) fn new(alloc: Global, bytes: u32) -> Result<Starts, AllocError>
        ensures { IfOk result (λ s. (s.before.items ≡ 0 ∷ []) × (s.behind.items ≡ []) × (s.bytes ≡ bytes)) }
    {
        Ok(Starts {
            before: vec![in alloc; 0]?,
            behind: Vec::new(alloc),
            bytes,
        })
    }

    /// How many lines there are.
    pub(crate) fn len(&self) -> usize
        ensures { result ≡ length (all_starts self.now) }
    {
        self.before.len() + self.behind.len()
    }

    /// The place where a line begins, from the end of the text, where the gap stands before it.
    fn start_behind(&self, line: usize) -> u32
        requires before { length self.now.before.items ≤ line }
        requires there { line < length (all_starts self.now) }
        ensures { result ≡ slice_index (all_starts self.now) line }
    {
        let place = self.behind[self.len() - 1 - line];
        self.bytes.saturating_sub(place)
    }

    /// The place where a line begins.
    pub(crate) fn start_of(&self, line: usize) -> u32
        requires { line < length (all_starts self.now) }
        ensures { result ≡ slice_index (all_starts self.now) line }
    {
        if line < self.before.len() {
            return self.before[line];
        }
        self.start_behind(line)
    }

    /// The place where a line begins, if there is that line.
    pub(crate) fn get(&self, line: usize) -> Option<u32>
        ensures { result ≡ slice_get (all_starts self.now) line }
    {
        if line < self.len() {
            return Some(self.start_of(line));
        }
        None
    }

    /// The half of some lines among which the one is on which a place stands.
    fn halved(&self, place: u32, line: usize, end: usize) -> (usize, usize)
        requires among { IsAmong (all_starts self.now) place line end }
        requires several { line + 1 < end }
        ensures among { IsAmong (all_starts self.now) place result.0 result.1 }
        ensures fewer { result.1 + line < result.0 + end }
    {
        let middle = line + (end - line) / 2;
        if self.start_of(middle) <= place {
            return (middle, end);
        }
        (line, middle)
    }

    /// The line on which a place stands, by halves.
    pub(crate) fn line_at(&self, place: u32) -> usize
        requires { 0 < length (all_starts self.now) }
        ensures { IsLastUpTo (all_starts self.now) place result }
    {
        let mut line = 0;
        let mut end = self.len();
        while end - line > 1 {
            let half = self.halved(place, line, end);
            line = half.0;
            end = half.1;
        }
        line
    }

    /// Moves starts behind the gap, until there are so many before it at most. Where there is no memory, fewer move.
    fn move_behind(&mut self, most: usize) -> Result<(), AllocError>
        requires { (k : ℕ) → k < length (all_starts self.old) → slice_index (all_starts self.old) k ≤ self.old.bytes }
        ensures starts { all_starts self.new ≡ all_starts self.old }
        ensures bytes { self.new.bytes ≡ self.old.bytes }
        ensures some { 0 < most → 0 < length self.old.before.items → 0 < length self.new.before.items }
        ensures ok { OnOk result (length self.new.before.items ≡ min most (length self.old.before.items)) }
    {
        while self.before.len() > most {
            let start = self.before[self.before.len() - 1];
            self.behind.push(self.bytes - start)?;
            self.before.take_last();
        }
        Ok(())
    }

    /// Moves starts before the gap, until there are so many at least. Where there is no memory, fewer move.
    fn move_before(&mut self, least: usize) -> Result<(), AllocError>
        requires { least ≤ length (all_starts self.old) }
        ensures starts { all_starts self.new ≡ all_starts self.old }
        ensures bytes { self.new.bytes ≡ self.old.bytes }
        ensures some { length self.old.before.items ≤ length self.new.before.items }
        ensures ok { OnOk result (length self.new.before.items ≡ max least (length self.old.before.items)) }
    {
        while self.before.len() < least {
            let place = self.behind[self.behind.len() - 1];
            self.before.push(self.bytes.saturating_sub(place))?;
            self.behind.take_last();
        }
        Ok(())
    }

    /// Leaves out the starts from one line up to another, in the gap, and makes room for others there.
    pub(crate) fn cut(&mut self, from: usize, to: usize, room: usize) -> Result<(), AllocError>
        requires ordered { (0 < from) × (from ≤ to) × (to ≤ length (all_starts self.old)) }
        requires some { 0 < length self.old.before.items }
        requires within { (k : ℕ) → k < length (all_starts self.old)
            → slice_index (all_starts self.old) k ≤ self.old.bytes }
        ensures bytes { self.new.bytes ≡ self.old.bytes }
        ensures some { 0 < length self.new.before.items }
        ensures before { OnOk result (self.new.before.items ≡ take from (all_starts self.old)) }
        ensures behind { OnOk result (turned self.new.bytes self.new.behind.items ≡ drop to (all_starts self.old)) }
        ensures room { OnOk result (vec_len self.new.before + room ≤ vec_capacity self.new.before) }
        ensures err { OnErr result (all_starts self.new ≡ all_starts self.old) }
    {
        let behind = self.len() - to;
        self.move_behind(to)?;
        self.move_before(from)?;
        self.before.reserve(room)?;
        self.before.truncate(from);
        self.behind.truncate(behind);
        Ok(())
    }

    /// Adds the starts of lines of a part of the text, but for the first, up to a line. The part begins at a place of
    /// the text.
    pub(crate) fn add(&mut self, part: &LineTable<'_>, place: u32, last: u32)
        requires room { vec_len self.old.before + last ≤ vec_capacity self.old.before }
        requires there { last ≤ length (starts_behind part.now.ends 0 (chars part.now.text)) }
        requires short { place + length part.now.text < 2 ^ 32 }
        ensures before { self.new.before.items ≡ self.old.before.items
            ++ map (λ start. place + start) (take last (starts_behind part.now.ends 0 (chars part.now.text))) }
        ensures others { (self.new.behind ≡ self.old.behind) × (self.new.bytes ≡ self.old.bytes) }
    {
        for line in 0..last {
            let start = begin_of(part, line + 1);
            self.before.push_reserved(place + start);
        }
    }
}

/// The place where a line begins that there is.
fn begin_of(lines: &LineTable<'_>, line: u32) -> u32
    requires { line < length (line_starts lines.now.ends lines.now.text) }
    ensures value { result ≡ slice_index (line_starts lines.now.ends lines.now.text) line }
    ensures within { result ≤ length lines.now.text }
{
    match lines.line_start(line) {
        Some(start) => start,
        None => 0,
    }
}
