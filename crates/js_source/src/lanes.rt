//! Blocks of bytes, lane by lane.

ghost use Rattle.std.specs.Prelude.{◌≡◌, ◌↔◌, ℕ, ◌+◌, ◌≤◌, ◌==◌, if◌then◌else◌, length, slice_index, bit_and, bit_or};
ghost use Rattle.std.specs.Int.{bit_at};
ghost use Rattle.memchr.specs.Lanes.{HasLanes};

use std::simd::prelude::*;

/// How many bytes a block has.
pub(crate) const LANES: usize = 32;

/// The block of bytes from a place on.
#[inline(always)]
pub(crate) fn load(bytes: &[u8], at: usize) -> u8x32
    requires { at + LANES ≤ length bytes.now }
    ensures { HasLanes result (λ k. slice_index bytes.now (at + k)) }
{
    u8x32::from_slice(&bytes[at..])
}

/// 255 where the lane is the byte, and else 0.
#[inline(always)]
pub(crate) fn equal_to(lanes: u8x32, byte: u8) -> u8x32
    ensures { HasLanes result (λ k. if slice_index lanes k == byte then 255 else 0) }
{
    lanes
        .simd_eq(u8x32::splat(byte))
        .select(u8x32::splat(255), u8x32::splat(0))
}

#[inline(always)]
pub(crate) fn either(a: u8x32, b: u8x32) -> u8x32
    ensures { HasLanes result (λ k. bit_or (slice_index a k) (slice_index b k)) }
{
    a | b
}

#[inline(always)]
pub(crate) fn both(a: u8x32, b: u8x32) -> u8x32
    ensures { HasLanes result (λ k. bit_and (slice_index a k) (slice_index b k)) }
{
    a & b
}

/// Bit k is the top bit of lane k.
#[inline(always)]
pub(crate) fn top_bits(lanes: u8x32) -> u64
    ensures { (k : ℕ) → (bit_at result k ≡ 1) ↔ (128 ≤ slice_index lanes k) }
{
    lanes.simd_ge(u8x32::splat(128)).to_bitmask()
}
