//! Two bytes side by side, and a search for them in blocks.

ghost use Rattle.std.specs.Prelude.{◌≡◌, ℕ, ◌+◌, ◌<◌, ◌≤◌, length, IfNone, IfSome, MatchBool};
ghost use Rattle.std.specs.Int.{bit_at};
ghost use Rattle.js_source.specs.Pairs.{HasNoPair, IsPairAt, PassesPairs};

use crate::four::{FourBytes, first_mark};
use crate::lanes::{LANES, both, equal_to, load, top_bits};

/// Two bytes to search for, side by side.
#[derive(Clone, Copy, Debug)]
pub struct BytePair {
    pub first: u8,
    pub second: u8,
}

/// How far a search for a pair has come, and whether it has passed none of four other bytes.
#[derive(Clone, Copy)]
struct Passed {
    at: usize,
    is_clean: bool,
}

/// Where the lowest bit that is set stands in a block, or how many bytes a block has, where none is.
#[inline(always)]
fn first_mark_or_all(marks: u64) -> usize
    requires { (k : ℕ) → bit_at marks k ≡ 1 → k < LANES }
    ensures within { result ≤ LANES }
    ensures below { (k : ℕ) → k < result → bit_at marks k ≡ 0 }
{
    if marks == 0 {
        return LANES;
    }
    first_mark(marks)
}

/// Whether none of the lowest bits is set, so many of them.
#[inline(always)]
fn are_unset(marks: u64, count: usize) -> bool
    ensures { MatchBool result ((k : ℕ) → k < count → bit_at marks k ≡ 0) (Unit {0}) }
{
    if marks == 0 {
        return true;
    }
    first_mark(marks) >= count
}

impl BytePair {
    /// Whether the pair stands at a place.
    #[inline(always)]
    fn is_at(self, bytes: &[u8], at: usize) -> bool
        requires { at + 2 ≤ length bytes.now }
        ensures { MatchBool result (IsPairAt self bytes.now at) (IsPairAt self bytes.now at → ⊥) }
    {
        bytes[at] == self.first && bytes[at + 1] == self.second
    }

    /// Tells where in the block from a place on the pair begins, a bit for each byte.
    #[inline(always)]
    fn marks(self, bytes: &[u8], at: usize) -> u64
        requires { at + LANES < length bytes.now }
        ensures marked { (k : ℕ) → k < LANES → IsPairAt self bytes.now (at + k) → bit_at result k ≡ 1 }
        ensures within { (k : ℕ) → bit_at result k ≡ 1 → k < LANES }
    {
        let firsts = equal_to(load(bytes, at), self.first);
        let seconds = equal_to(load(bytes, at + 1), self.second);
        top_bits(both(firsts, seconds))
    }

    /// Goes from a place on up to the first pair, or to where no block is left.
    #[inline(always)]
    fn pass_blocks(self, bytes: &[u8], from: usize, four: FourBytes) -> Passed
        requires { from ≤ length bytes.now }
        ensures { PassesPairs self four bytes.now from result.at result.is_clean }
    {
        let mut at = from;
        let mut is_clean = true;
        while bytes.len() - at > LANES {
            let more = first_mark_or_all(self.marks(bytes, at));
            is_clean &= are_unset(four.marks(bytes, at), more);
            at += more;
            if more < LANES {
                return Passed { at, is_clean };
            }
        }
        Passed { at, is_clean }
    }

    /// The place of the first pair from a place on, if there is one, and whether none of the four bytes stands before
    /// it.
    #[inline(always)]
    pub(crate) fn find(self, bytes: &[u8], from: usize, four: FourBytes) -> Option<(usize, bool)>
        requires { from ≤ length bytes.now }
        ensures none { IfNone result (HasNoPair self bytes.now from) }
        ensures passes { IfSome result (λ found. PassesPairs self four bytes.now from found.0 found.1) }
        ensures here { IfSome result (λ found. IsPairAt self bytes.now found.0) }
    {
        let Passed {
            mut at,
            mut is_clean,
        } = self.pass_blocks(bytes, from, four);
        while bytes.len() - at >= 2 {
            if self.is_at(bytes, at) {
                return Some((at, is_clean));
            }
            is_clean &= !four.has(bytes[at]);
            at += 1;
        }
        None
    }
}
