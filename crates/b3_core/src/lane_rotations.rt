// Vectors of eight words: their exclusive or, rotated.

ghost use Rattle.std.specs.Prelude.{◌≡◌, ℕ, ◌<◌, length, map};
ghost use Rattle.std.specs.Int.{w32, rotate_right};
ghost use Rattle.std.specs.Int.Bits.{bit_xor};
ghost use Rattle.std.specs.Simd.Lanes.{zip2};

use std::simd::prelude::*;

// Each lane rotated right by `r` bits.
#[inline(always)]
fn rotated8(x: u32x8, r: u32) -> u32x8
    requires some { 0 < r }
    requires below { r < 32 }
    requires wide { length x ≡ 8 }
    ensures { result ≡ map (λ n. rotate_right w32 n r) x }
{
    (x >> u32x8::splat(r)) | (x << u32x8::splat(32 - r))
}

// `x ^ y`, each lane rotated right by 16 bits. Its bytes move, for which the processor has one instruction. The
// exclusive or is of bytes too: where it is of words, LLVM moves the bytes of both.
#[inline(always)]
fn xor_rotated_by_16(x: u32x8, y: u32x8) -> u32x8
    requires x { length x ≡ 8 }
    requires y { length y ≡ 8 }
    ensures { result ≡ map (λ n. rotate_right w32 n 16) (zip2 bit_xor x y) }
{
    let bytes = x.to_le_bytes() ^ y.to_le_bytes();
    u32x8::from_le_bytes(bytes.swizzle::<32>([
        2, 3, 0, 1, 6, 7, 4, 5, 10, 11, 8, 9, 14, 15, 12, 13, 18, 19, 16, 17, 22, 23, 20, 21, 26,
        27, 24, 25, 30, 31, 28, 29,
    ]))
}

// The same by 8 bits.
#[inline(always)]
fn xor_rotated_by_8(x: u32x8, y: u32x8) -> u32x8
    requires x { length x ≡ 8 }
    requires y { length y ≡ 8 }
    ensures { result ≡ map (λ n. rotate_right w32 n 8) (zip2 bit_xor x y) }
{
    let bytes = x.to_le_bytes() ^ y.to_le_bytes();
    u32x8::from_le_bytes(bytes.swizzle::<32>([
        1, 2, 3, 0, 5, 6, 7, 4, 9, 10, 11, 8, 13, 14, 15, 12, 17, 18, 19, 16, 21, 22, 23, 20, 25,
        26, 27, 24, 29, 30, 31, 28,
    ]))
}

// `x ^ y`, each lane rotated right by `r` bits.
#[inline(always)]
pub(crate) fn xor_rotated8(x: u32x8, y: u32x8, r: u32) -> u32x8
    requires some { 0 < r }
    requires below { r < 32 }
    requires x { length x ≡ 8 }
    requires y { length y ≡ 8 }
    ensures { result ≡ map (λ n. rotate_right w32 n r) (zip2 bit_xor x y) }
{
    if r == 16 {
        xor_rotated_by_16(x, y)
    } else if r == 8 {
        xor_rotated_by_8(x, y)
    } else {
        rotated8(x ^ y, r)
    }
}
