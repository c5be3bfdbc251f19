//! Pieces that are put before what stands from a place on. Where a piece is the end of a room of known width, the whole
//! room is copied, in a few instructions and by no call: what comes before the piece is written over later.

ghost use Rattle.std.specs.Prelude.{◌≡◌, ◌+◌, ◌-◌, ◌≤◌, ◌++◌, length, drop};

use std::simd::prelude::*;

/// Puts a piece before what stands from a place on, and gives the place where it begins.
#[inline(always)]
#[tactic(auto, using(crate::proofs::Lines::put_mid_before))]
pub(crate) fn put_before(bytes: &mut [u8], at: usize, piece: &[u8]) -> usize
    requires { (length piece.now ≤ at) × (at ≤ length bytes.old) }
    ensures start { result + length piece.now ≡ at }
    ensures written { drop result bytes.new ≡ piece.now ++ drop at bytes.old }
{
    let start = at - piece.len();
    bytes[start..at].copy_from_slice(piece);
    start
}

/// Puts the last `len` of four bytes before what stands from a place on, and gives the place where they begin.
#[inline(always)]
pub(crate) fn put_end_of_4(bytes: &mut [u8], at: usize, room: &[u8; 4], len: usize) -> usize
    requires fits { (4 ≤ at) × (at ≤ length bytes.old) }
    requires within { len ≤ 4 }
    ensures start { result + len ≡ at }
    ensures written { drop result bytes.new ≡ drop (4 - len) room.now ++ drop at bytes.old }
{
    u8x4::from_slice(room).copy_to_slice(&mut bytes[at - 4..at]);
    at - len
}

/// Puts the last `len` of 16 bytes before what stands from a place on, and gives the place where they begin.
#[inline(always)]
pub(crate) fn put_end_of_16(bytes: &mut [u8], at: usize, room: &[u8], len: usize) -> usize
    requires width { length room.now ≡ 16 }
    requires fits { (16 ≤ at) × (at ≤ length bytes.old) }
    requires within { len ≤ 16 }
    ensures start { result + len ≡ at }
    ensures written { drop result bytes.new ≡ drop (16 - len) room.now ++ drop at bytes.old }
{
    u8x16::from_slice(room).copy_to_slice(&mut bytes[at - 16..at]);
    at - len
}

/// Puts the last `len` of 32 bytes before what stands from a place on, and gives the place where they begin.
#[inline(always)]
pub(crate) fn put_end_of_32(bytes: &mut [u8], at: usize, room: &[u8; 32], len: usize) -> usize
    requires fits { (32 ≤ at) × (at ≤ length bytes.old) }
    requires within { len ≤ 32 }
    ensures start { result + len ≡ at }
    ensures written { drop result bytes.new ≡ drop (32 - len) room.now ++ drop at bytes.old }
{
    u8x32::from_slice(room).copy_to_slice(&mut bytes[at - 32..at]);
    at - len
}
