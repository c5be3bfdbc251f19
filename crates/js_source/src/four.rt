//! Four bytes, and a search for them in blocks.

ghost use Rattle.std.specs.Prelude.{◌≡◌, ◌≢◌, ℕ, ◌+◌, ◌<◌, ◌≤◌, true, length, slice_get, slice_index};
ghost use Rattle.std.specs.Int.{bit_at};
ghost use Rattle.js_source.specs.Search.{four_bytes, is_one_of, FindsFirst, PassesOthers};

use crate::lanes::{LANES, either, equal_to, load, top_bits};

/// Four bytes to search for; a byte may stand among them twice.
#[derive(Clone, Copy, Debug)]
pub struct FourBytes {
    pub first: u8,
    pub second: u8,
    pub third: u8,
    pub fourth: u8,
}

impl FourBytes {
    /// Whether the byte is one of them.
    #[inline(always)]
    pub(crate) fn has(self, b: u8) -> bool
        ensures { result ≡ is_one_of self b }
    {
        b == self.first || b == self.second || b == self.third || b == self.fourth
    }

    /// Tells where in the block from a place on one of them stands, a bit for each byte.
    #[inline(always)]
    pub(crate) fn marks(self, bytes: &[u8], at: usize) -> u64
        requires { at + LANES ≤ length bytes.now }
        ensures marked { (k : ℕ) → k < LANES → is_one_of self (slice_index bytes.now (at + k)) ≡ true
            → bit_at result k ≡ 1 }
        ensures within { (k : ℕ) → bit_at result k ≡ 1 → k < LANES }
    {
        let lanes = load(bytes, at);
        let before = either(equal_to(lanes, self.first), equal_to(lanes, self.second));
        let behind = either(equal_to(lanes, self.third), equal_to(lanes, self.fourth));
        top_bits(either(before, behind))
    }

    /// Goes from a place past bytes that are none of them: up to the first that is, or to where less than a block is
    /// left.
    #[inline(always)]
    fn pass_others(self, bytes: &[u8], from: usize) -> usize
        requires { from ≤ length bytes.now }
        ensures { PassesOthers self bytes.now from result }
    {
        let mut at = from;
        while bytes.len() - at >= LANES {
            let marks = self.marks(bytes, at);
            if marks != 0 {
                return at + first_mark(marks);
            }
            at += LANES;
        }
        at
    }

    /// The place of the first of them from a place on, or the end, and the byte there.
    #[inline(always)]
    pub(crate) fn find(self, bytes: &[u8], from: usize) -> (usize, Option<u8>)
        requires { from ≤ length bytes.now }
        ensures first { FindsFirst (four_bytes self) bytes.now from result.0 }
        ensures byte { result.1 ≡ slice_get bytes.now result.0 }
    {
        let mut at = self.pass_others(bytes, from);
        while at < bytes.len() {
            let next = bytes[at];
            if self.has(next) {
                return (at, Some(next));
            }
            at += 1;
        }
        (at, None)
    }
}

/// The place of the lowest bit that is set.
#[inline(always)]
pub(crate) fn first_mark(marks: u64) -> usize
    requires { marks ≢ 0 }
    ensures set { bit_at marks result ≡ 1 }
    ensures below { (k : ℕ) → k < result → bit_at marks k ≡ 0 }
{
    marks.trailing_zeros() as usize
}
