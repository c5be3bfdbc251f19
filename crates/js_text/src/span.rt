//! Spans.

ghost use Rattle.std.specs.Prelude.{◌≡◌, ◌+◌, ◌^◌, ◌<◌, ◌≤◌};

/// A stretch of a source text, in bytes: from `start` up to `end`, without it.
#[derive(Clone, Copy, PartialEq, Eq, Debug)]
pub struct Span {
    pub start: u32,
    pub end: u32,
}

impl Span {
    /// The span from one offset up to another, in bytes.
    pub fn new(start: u32, end: u32) -> Span
        requires { start ≤ end }
        ensures { result ≡ record { start = start; end = end } }
    {
        Span { start, end }
    }

    /// The span of no bytes at an offset.
    pub fn empty(at: u32) -> Span
        ensures { result ≡ record { start = at; end = at } }
    {
        Span { start: at, end: at }
    }

    /// The span of so many bytes.
    pub fn sized(start: u32, len: u32) -> Span
        requires { start + len < 2 ^ 32 }
        ensures { result ≡ record { start = start; end = start + len } }
    {
        Span {
            start,
            end: start + len,
        }
    }
}
