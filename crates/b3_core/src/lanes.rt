// The compression function (BLAKE3 (2020), 2.2) on eight lanes at once: a vector holds one word of eight
// compressions. Each contract says of a lane what the definition says of one compression.

ghost use Rattle.std.specs.Prelude.{◌≡◌, ℕ, List, [], ◌++◌, ◌+◌, ◌*◌, ◌/◌, ◌%◌, ◌^◌, ◌<◌, ◌≤◌, length, map, take, drop};
ghost use Rattle.std.specs.Prelude.{slice_index, slice_index_or};
ghost use Rattle.b3_core.specs.Compression.{compress, half_g, initial_state, output_words, permuted, round, rounds};
ghost use Rattle.b3_core.specs.Lanes.{AreVectors, lane};

use crate::compression::INITIAL_VALUE;
use crate::lane_rotations::xor_rotated8;
use std::simd::prelude::*;

// One half of G on each lane, on the places `a`, `b`, `c` and `d` of the state.
#[inline(always)]
fn half_g8(v: &mut [u32x8; 16], a: usize, b: usize, c: usize, d: usize, x: u32x8, r: u32, s: u32)
    requires a { a < 16 }
    requires b { b < 16 }
    requires c { c < 16 }
    requires d { d < 16 }
    requires some { (0 < r) × (0 < s) }
    requires below { (r < 32) × (s < 32) }
    requires wide { AreVectors 16 v.old }
    requires x { length x ≡ 8 }
    ensures wide { AreVectors 16 v.new }
    ensures lanes { (j : ℕ) → j < 8 → lane j v.new ≡ half_g (lane j v.old) a b c d (slice_index x j) r s }
{
    v[a] = v[a] + v[b] + x;
    v[d] = xor_rotated8(v[d], v[a], r);
    v[c] = v[c] + v[d];
    v[b] = xor_rotated8(v[b], v[c], s);
}

// The four Gs on the columns go step by step together, then those on the diagonals: this leaves the
// processor more to do at once than one G after another.
#[inline(always)]
fn round8(v: &mut [u32x8; 16], m: &[u32x8; 16])
    requires wide { AreVectors 16 v.old }
    requires message { AreVectors 16 m.now }
    ensures wide { AreVectors 16 v.new }
    ensures lanes { (j : ℕ) → j < 8 → lane j v.new ≡ round (lane j v.old) (lane j m.now) }
{
    half_g8(v, 0, 4, 8, 12, m[0], 16, 12);
    half_g8(v, 1, 5, 9, 13, m[2], 16, 12);
    half_g8(v, 2, 6, 10, 14, m[4], 16, 12);
    half_g8(v, 3, 7, 11, 15, m[6], 16, 12);
    half_g8(v, 0, 4, 8, 12, m[1], 8, 7);
    half_g8(v, 1, 5, 9, 13, m[3], 8, 7);
    half_g8(v, 2, 6, 10, 14, m[5], 8, 7);
    half_g8(v, 3, 7, 11, 15, m[7], 8, 7);
    half_g8(v, 0, 5, 10, 15, m[8], 16, 12);
    half_g8(v, 1, 6, 11, 12, m[10], 16, 12);
    half_g8(v, 2, 7, 8, 13, m[12], 16, 12);
    half_g8(v, 3, 4, 9, 14, m[14], 16, 12);
    half_g8(v, 0, 5, 10, 15, m[9], 8, 7);
    half_g8(v, 1, 6, 11, 12, m[11], 8, 7);
    half_g8(v, 2, 7, 8, 13, m[13], 8, 7);
    half_g8(v, 3, 4, 9, 14, m[15], 8, 7);
}

// Renames the vectors, so it costs nothing once it is inlined.
#[inline(always)]
fn permuted8(m: &[u32x8; 16]) -> [u32x8; 16]
    requires wide { AreVectors 16 m.now }
    ensures wide { AreVectors 16 result }
    ensures lanes { (j : ℕ) → lane j result ≡ permuted (lane j m.now) }
{
    [
        m[2], m[6], m[3], m[10], m[7], m[0], m[4], m[13], m[1], m[11], m[12], m[5], m[9], m[14],
        m[15], m[8],
    ]
}

// Seven rounds, written out: a loop would move the message through memory for each permutation. Inlined, they keep the
// state in registers from the start of a compression to its output words: a call would copy sixteen vectors in and out.
#[inline(always)]
fn rounds8(v: [u32x8; 16], m: &[u32x8; 16]) -> [u32x8; 16]
    requires wide { AreVectors 16 v }
    requires message { AreVectors 16 m.now }
    ensures wide { AreVectors 16 result }
    ensures lanes { (j : ℕ) → j < 8 → lane j result ≡ rounds 7 (lane j v) (lane j m.now) }
{
    let mut v = v;
    round8(&mut v, m);
    let m = permuted8(m);
    round8(&mut v, &m);
    let m = permuted8(&m);
    round8(&mut v, &m);
    let m = permuted8(&m);
    round8(&mut v, &m);
    let m = permuted8(&m);
    round8(&mut v, &m);
    let m = permuted8(&m);
    round8(&mut v, &m);
    let m = permuted8(&m);
    round8(&mut v, &m);
    v
}

// The state after seven rounds of eight compressions, of the chaining values `h`, the messages `m`, the low and high
// words of the counters, one block length `b` and one set of flags `d`.
#[inline(always)]
pub(crate) fn final_states8(
    h: &[u32x8; 8],
    m: &[u32x8; 16],
    low: u32x8,
    high: u32x8,
    b: u32,
    d: u32,
) -> [u32x8; 16]
    requires h { AreVectors 8 h.now }
    requires message { AreVectors 16 m.now }
    requires low { length low ≡ 8 }
    requires high { length high ≡ 8 }
    ensures wide { AreVectors 16 result }
    ensures lanes { (j t : ℕ) → j < 8 → slice_index low j ≡ t % 2 ^ 32 → slice_index high j ≡ t / 2 ^ 32
        → lane j result ≡ rounds 7 (initial_state (lane j h.now) t b d) (lane j m.now) }
{
    let c0 = u32x8::splat(INITIAL_VALUE[0]);
    let c1 = u32x8::splat(INITIAL_VALUE[1]);
    let c2 = u32x8::splat(INITIAL_VALUE[2]);
    let c3 = u32x8::splat(INITIAL_VALUE[3]);
    let length = u32x8::splat(b);
    let flags = u32x8::splat(d);
    let initial_state = [
        h[0], h[1], h[2], h[3], h[4], h[5], h[6], h[7], c0, c1, c2, c3, low, high, length, flags,
    ];
    rounds8(initial_state, m)
}

// The first eight output words, which do not read the chaining values.
#[inline(always)]
pub(crate) fn first_words8(v: &[u32x8; 16]) -> [u32x8; 8]
    requires wide { AreVectors 16 v.now }
    ensures wide { AreVectors 8 result }
    ensures lanes { (j : ℕ) (h : List ℕ) → j < 8 → lane j result ≡ take 8 (output_words (lane j v.now) h) }
{
    [
        v[0] ^ v[8],
        v[1] ^ v[9],
        v[2] ^ v[10],
        v[3] ^ v[11],
        v[4] ^ v[12],
        v[5] ^ v[13],
        v[6] ^ v[14],
        v[7] ^ v[15],
    ]
}

// The last eight output words.
#[inline(always)]
pub(crate) fn last_words8(v: &[u32x8; 16], h: &[u32x8; 8]) -> [u32x8; 8]
    requires wide { AreVectors 16 v.now }
    requires h { AreVectors 8 h.now }
    ensures wide { AreVectors 8 result }
    ensures lanes { (j : ℕ) → j < 8 → lane j result ≡ drop 8 (output_words (lane j v.now) (lane j h.now)) }
{
    [
        v[8] ^ h[0],
        v[9] ^ h[1],
        v[10] ^ h[2],
        v[11] ^ h[3],
        v[12] ^ h[4],
        v[13] ^ h[5],
        v[14] ^ h[6],
        v[15] ^ h[7],
    ]
}

// The chaining values of eight compressions, of the chaining values `h`, the messages `m`, the low and
// high words of the counters, one block length `b` and one set of flags `d`.
#[inline(always)]
pub(crate) fn chainings8(
    h: &[u32x8; 8],
    m: &[u32x8; 16],
    low: u32x8,
    high: u32x8,
    b: u32,
    d: u32,
) -> [u32x8; 8]
    requires h { AreVectors 8 h.now }
    requires message { AreVectors 16 m.now }
    requires low { length low ≡ 8 }
    requires high { length high ≡ 8 }
    ensures wide { AreVectors 8 result }
    ensures lanes { (j t : ℕ) → j < 8 → slice_index low j ≡ t % 2 ^ 32 → slice_index high j ≡ t / 2 ^ 32
        → lane j result ≡ take 8 (compress (lane j h.now) (lane j m.now) t b d) }
{
    first_words8(&final_states8(h, m, low, high, b, d))
}

// What lane `j` holds.
#[inline(always)]
pub(crate) fn lane_words(v: &[u32x8; 8], j: usize) -> [u32; 8]
    requires in_range { j < 8 }
    requires wide { AreVectors 8 v.now }
    ensures { result ≡ lane j v.now }
{
    [
        v[0].to_array()[j],
        v[1].to_array()[j],
        v[2].to_array()[j],
        v[3].to_array()[j],
        v[4].to_array()[j],
        v[5].to_array()[j],
        v[6].to_array()[j],
        v[7].to_array()[j],
    ]
}

// What each lane holds.
#[inline(always)]
pub(crate) fn all_lanes(v: &[u32x8; 8]) -> [[u32; 8]; 8]
    requires { AreVectors 8 v.now }
    ensures { (j : ℕ) → j < 8 → slice_index_or result j [] ≡ lane j v.now }
{
    [
        lane_words(v, 0),
        lane_words(v, 1),
        lane_words(v, 2),
        lane_words(v, 3),
        lane_words(v, 4),
        lane_words(v, 5),
        lane_words(v, 6),
        lane_words(v, 7),
    ]
}

// Rows turned into columns: vector `j` of the result has what lane `j` holds. No word leaves its half of
// a vector before the last step.
#[inline(always)]
pub(crate) fn transposed8(v: &[u32x8; 8]) -> [u32x8; 8]
    requires { AreVectors 8 v.now }
    ensures wide { AreVectors 8 result }
    ensures lanes { (j : ℕ) → j < 8 → slice_index_or result j [] ≡ lane j v.now }
{
    let a0 = v[0].shuffle::<8>(v[1], [0, 8, 1, 9, 4, 12, 5, 13]);
    let a1 = v[0].shuffle::<8>(v[1], [2, 10, 3, 11, 6, 14, 7, 15]);
    let a2 = v[2].shuffle::<8>(v[3], [0, 8, 1, 9, 4, 12, 5, 13]);
    let a3 = v[2].shuffle::<8>(v[3], [2, 10, 3, 11, 6, 14, 7, 15]);
    let a4 = v[4].shuffle::<8>(v[5], [0, 8, 1, 9, 4, 12, 5, 13]);
    let a5 = v[4].shuffle::<8>(v[5], [2, 10, 3, 11, 6, 14, 7, 15]);
    let a6 = v[6].shuffle::<8>(v[7], [0, 8, 1, 9, 4, 12, 5, 13]);
    let a7 = v[6].shuffle::<8>(v[7], [2, 10, 3, 11, 6, 14, 7, 15]);
    let b0 = a0.shuffle::<8>(a2, [0, 1, 8, 9, 4, 5, 12, 13]);
    let b1 = a0.shuffle::<8>(a2, [2, 3, 10, 11, 6, 7, 14, 15]);
    let b2 = a1.shuffle::<8>(a3, [0, 1, 8, 9, 4, 5, 12, 13]);
    let b3 = a1.shuffle::<8>(a3, [2, 3, 10, 11, 6, 7, 14, 15]);
    let c0 = a4.shuffle::<8>(a6, [0, 1, 8, 9, 4, 5, 12, 13]);
    let c1 = a4.shuffle::<8>(a6, [2, 3, 10, 11, 6, 7, 14, 15]);
    let c2 = a5.shuffle::<8>(a7, [0, 1, 8, 9, 4, 5, 12, 13]);
    let c3 = a5.shuffle::<8>(a7, [2, 3, 10, 11, 6, 7, 14, 15]);
    [
        b0.shuffle::<8>(c0, [0, 1, 2, 3, 8, 9, 10, 11]),
        b1.shuffle::<8>(c1, [0, 1, 2, 3, 8, 9, 10, 11]),
        b2.shuffle::<8>(c2, [0, 1, 2, 3, 8, 9, 10, 11]),
        b3.shuffle::<8>(c3, [0, 1, 2, 3, 8, 9, 10, 11]),
        b0.shuffle::<8>(c0, [4, 5, 6, 7, 12, 13, 14, 15]),
        b1.shuffle::<8>(c1, [4, 5, 6, 7, 12, 13, 14, 15]),
        b2.shuffle::<8>(c2, [4, 5, 6, 7, 12, 13, 14, 15]),
        b3.shuffle::<8>(c3, [4, 5, 6, 7, 12, 13, 14, 15]),
    ]
}

// The words of two vectors, as one list.
#[inline(always)]
pub(crate) fn concatenated(front: u32x8, back: u32x8) -> [u32; 16]
    requires front { length front ≡ 8 }
    requires back { length back ≡ 8 }
    ensures { result ≡ front ++ back }
{
    let a = front.to_array();
    let b = back.to_array();
    [
        a[0], a[1], a[2], a[3], a[4], a[5], a[6], a[7], b[0], b[1], b[2], b[3], b[4], b[5], b[6],
        b[7],
    ]
}

// The low words of eight counters, and the high words.
#[inline(always)]
pub(crate) fn counters(t: &[u64; 8]) -> (u32x8, u32x8)
    ensures low { result.0 ≡ map (λ n. n % 2 ^ 32) t.now }
    ensures high { result.1 ≡ map (λ n. n / 2 ^ 32) t.now }
{
    let low = [
        (t[0] % (1 << 32)) as u32,
        (t[1] % (1 << 32)) as u32,
        (t[2] % (1 << 32)) as u32,
        (t[3] % (1 << 32)) as u32,
        (t[4] % (1 << 32)) as u32,
        (t[5] % (1 << 32)) as u32,
        (t[6] % (1 << 32)) as u32,
        (t[7] % (1 << 32)) as u32,
    ];
    let high = [
        (t[0] >> 32) as u32,
        (t[1] >> 32) as u32,
        (t[2] >> 32) as u32,
        (t[3] >> 32) as u32,
        (t[4] >> 32) as u32,
        (t[5] >> 32) as u32,
        (t[6] >> 32) as u32,
        (t[7] >> 32) as u32,
    ];
    (u32x8::from_array(low), u32x8::from_array(high))
}

// The low and the high words of eight counters that follow one another.
#[inline(always)]
pub(crate) fn counters_from(first: u64) -> (u32x8, u32x8)
    requires { first + 8 ≤ 2 ^ 64 }
    ensures low_wide { length result.0 ≡ 8 }
    ensures high_wide { length result.1 ≡ 8 }
    ensures low { (j : ℕ) → j < 8 → slice_index result.0 j ≡ (first + j) % 2 ^ 32 }
    ensures high { (j : ℕ) → j < 8 → slice_index result.1 j ≡ (first + j) / 2 ^ 32 }
{
    counters(&[
        first,
        first + 1,
        first + 2,
        first + 3,
        first + 4,
        first + 5,
        first + 6,
        first + 7,
    ])
}
