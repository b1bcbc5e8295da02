// Words that are the same in all lanes.

ghost use Rattle.std.specs.Prelude.{◌≡◌, ℕ, ◌<◌};
ghost use Rattle.b3_core.specs.Lanes.{AreVectors, lane};

use std::simd::prelude::*;

// Eight words, each in all lanes.
#[inline(always)]
pub(crate) fn broadcast(words: &[u32; 8]) -> [u32x8; 8]
    ensures wide { AreVectors 8 result }
    ensures lanes { (j : ℕ) → j < 8 → lane j result ≡ words.now }
{
    [
        u32x8::splat(words[0]),
        u32x8::splat(words[1]),
        u32x8::splat(words[2]),
        u32x8::splat(words[3]),
        u32x8::splat(words[4]),
        u32x8::splat(words[5]),
        u32x8::splat(words[6]),
        u32x8::splat(words[7]),
    ]
}

// The words of a message, each in all lanes.
#[inline(always)]
pub(crate) fn broadcast_message(m: &[u32; 16]) -> [u32x8; 16]
    ensures wide { AreVectors 16 result }
    ensures lanes { (j : ℕ) → j < 8 → lane j result ≡ m.now }
{
    [
        u32x8::splat(m[0]),
        u32x8::splat(m[1]),
        u32x8::splat(m[2]),
        u32x8::splat(m[3]),
        u32x8::splat(m[4]),
        u32x8::splat(m[5]),
        u32x8::splat(m[6]),
        u32x8::splat(m[7]),
        u32x8::splat(m[8]),
        u32x8::splat(m[9]),
        u32x8::splat(m[10]),
        u32x8::splat(m[11]),
        u32x8::splat(m[12]),
        u32x8::splat(m[13]),
        u32x8::splat(m[14]),
        u32x8::splat(m[15]),
    ]
}
