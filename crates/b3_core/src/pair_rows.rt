// The compression function (BLAKE3 (2020), 2.2) on the rows of two compressions at once: a vector holds a row of the one
// in its first half and the same row of the other in its second. Each contract says of half `p` what that of one
// compression says.

ghost use Rattle.std.specs.Prelude.{◌≡◌, ℕ, ◌+◌, ◌^◌, ◌<◌, ◌≤◌, length, take, drop};
ghost use Rattle.b3_core.specs.Words.{words_of};
ghost use Rattle.b3_core.specs.Compression.{compress, initial_state, permuted, round, rounds};
ghost use Rattle.b3_core.specs.Rows.{diagonalized, half_columns, message_of, row_words, undiagonalized};
ghost use Rattle.b3_core.specs.Pairs.{AreWide, AreWideRows, half, half_rows, half_chaining, of_half};

use crate::compression::INITIAL_VALUE;
use crate::lane_rotations::xor_rotated8;
use crate::leaves::BLOCK_LEN;
use crate::words::load4_pair;
use std::simd::prelude::*;

// Sixteen words of each, in their order: 0 to 3, 4 to 7, 8 to 11 and 12 to 15.
type WideRows = (u32x8, u32x8, u32x8, u32x8);

// A chaining value of each: words 0 to 3, and 4 to 7.
pub(crate) type PairChainings = (u32x8, u32x8);

// One half of G on each column of both.
#[inline(always)]
fn half_columns(v: WideRows, x: u32x8, r: u32, s: u32) -> WideRows
    requires some { (0 < r) × (0 < s) }
    requires below { (r < 32) × (s < 32) }
    requires rows { AreWideRows v }
    requires x { length x ≡ 8 }
    ensures rows { AreWideRows result }
    ensures words { (p : ℕ) → p < 2
        → row_words (half_rows p result) ≡ half_columns (row_words (half_rows p v)) (half p x) r s }
{
    let (a, b, c, d) = v;
    let a = a + b + x;
    let d = xor_rotated8(d, a, r);
    let c = c + d;
    let b = xor_rotated8(b, c, s);
    (a, b, c, d)
}

// The diagonals as columns; the second row stays, as in one compression.
#[inline(always)]
fn diagonalized(v: WideRows) -> WideRows
    requires { AreWideRows v }
    ensures rows { AreWideRows result }
    ensures words { (p : ℕ) → p < 2 → row_words (half_rows p result) ≡ diagonalized (row_words (half_rows p v)) }
{
    let (a, b, c, d) = v;
    (
        a.swizzle::<8>([3, 0, 1, 2, 7, 4, 5, 6]),
        b,
        c.swizzle::<8>([1, 2, 3, 0, 5, 6, 7, 4]),
        d.swizzle::<8>([2, 3, 0, 1, 6, 7, 4, 5]),
    )
}

// The columns as they were before `diagonalized`.
#[inline(always)]
fn undiagonalized(v: WideRows) -> WideRows
    requires { AreWideRows v }
    ensures rows { AreWideRows result }
    ensures words { (p : ℕ) → p < 2 → row_words (half_rows p result) ≡ undiagonalized (row_words (half_rows p v)) }
{
    let (a, b, c, d) = v;
    (
        a.swizzle::<8>([1, 2, 3, 0, 5, 6, 7, 4]),
        b,
        c.swizzle::<8>([3, 0, 1, 2, 7, 4, 5, 6]),
        d.swizzle::<8>([2, 3, 0, 1, 6, 7, 4, 5]),
    )
}

// The messages of two blocks, which begin at `offset` and at `next`, in the order in which a round takes their words.
#[inline(always)]
pub(crate) fn load_pair_rows(bytes: &[u8], offset: usize, next: usize) -> WideRows
    requires offset { offset + 64 ≤ length bytes.now }
    requires next { next + 64 ≤ length bytes.now }
    ensures rows { AreWideRows result }
    ensures words { (p : ℕ) → p < 2
        → message_of (row_words (half_rows p result)) ≡ words_of (take 64 (drop (of_half p offset next) bytes.now)) }
{
    let w0 = load4_pair(bytes, offset, next);
    let w1 = load4_pair(bytes, offset + 16, next + 16);
    let w2 = load4_pair(bytes, offset + 32, next + 32);
    let w3 = load4_pair(bytes, offset + 48, next + 48);
    (
        w0.shuffle::<8>(w1, [0, 2, 8, 10, 4, 6, 12, 14]),
        w0.shuffle::<8>(w1, [1, 3, 9, 11, 5, 7, 13, 15]),
        w2.shuffle::<8>(w3, [10, 0, 2, 8, 14, 4, 6, 12]),
        w2.shuffle::<8>(w3, [11, 1, 3, 9, 15, 5, 7, 13]),
    )
}

#[inline(always)]
fn round(v: WideRows, m: WideRows) -> WideRows
    requires rows { AreWideRows v }
    requires message { AreWideRows m }
    ensures rows { AreWideRows result }
    ensures words { (p : ℕ) → p < 2 → row_words (half_rows p result)
        ≡ round (row_words (half_rows p v)) (message_of (row_words (half_rows p m))) }
{
    let (first, second, third, last) = m;
    let v = half_columns(v, first, 16, 12);
    let v = half_columns(v, second, 8, 7);
    let v = diagonalized(v);
    let v = half_columns(v, third, 16, 12);
    let v = half_columns(v, last, 8, 7);
    undiagonalized(v)
}

// The permuted messages, arranged as they were.
#[inline(always)]
fn permuted(m: WideRows) -> WideRows
    requires { AreWideRows m }
    ensures rows { AreWideRows result }
    ensures words { (p : ℕ) → p < 2 → message_of (row_words (half_rows p result))
        ≡ permuted (message_of (row_words (half_rows p m))) }
{
    let (a, b, c, d) = m;
    (
        a.shuffle::<8>(b, [1, 9, 11, 2, 5, 13, 15, 6]),
        a.shuffle::<8>(c, [3, 10, 0, 0, 7, 14, 4, 4])
            .shuffle::<8>(d, [0, 1, 2, 11, 4, 5, 6, 15]),
        d.shuffle::<8>(b, [0, 8, 0, 1, 4, 12, 4, 5])
            .shuffle::<8>(c, [0, 1, 11, 3, 4, 5, 15, 7]),
        c.shuffle::<8>(d, [1, 10, 0, 0, 5, 14, 4, 4])
            .shuffle::<8>(b, [0, 1, 10, 3, 4, 5, 14, 7]),
    )
}

// Seven rounds, written out: the rows of the messages stay in registers. So long a function is inlined only where it has
// one caller, as this one and the next have.
#[inline(always)]
fn rounds(v: WideRows, m: WideRows) -> WideRows
    requires rows { AreWideRows v }
    requires message { AreWideRows m }
    ensures rows { AreWideRows result }
    ensures words { (p : ℕ) → p < 2 → row_words (half_rows p result)
        ≡ rounds 7 (row_words (half_rows p v)) (message_of (row_words (half_rows p m))) }
{
    let v = round(v, m);
    let m = permuted(m);
    let v = round(v, m);
    let m = permuted(m);
    let v = round(v, m);
    let m = permuted(m);
    let v = round(v, m);
    let m = permuted(m);
    let v = round(v, m);
    let m = permuted(m);
    let v = round(v, m);
    let m = permuted(m);
    round(v, m)
}

// The same of two pairs, by turns: a pair alone leaves the processor waiting for its last step.
#[inline(always)]
fn rounds_by_turns(v: WideRows, m: WideRows, w: WideRows, n: WideRows) -> (WideRows, WideRows)
    requires rows { AreWideRows v × AreWideRows w }
    requires messages { AreWideRows m × AreWideRows n }
    ensures rows { AreWideRows result.0 × AreWideRows result.1 }
    ensures first { (p : ℕ) → p < 2 → row_words (half_rows p result.0)
        ≡ rounds 7 (row_words (half_rows p v)) (message_of (row_words (half_rows p m))) }
    ensures second { (p : ℕ) → p < 2 → row_words (half_rows p result.1)
        ≡ rounds 7 (row_words (half_rows p w)) (message_of (row_words (half_rows p n))) }
{
    let v = round(v, m);
    let w = round(w, n);
    let m = permuted(m);
    let n = permuted(n);
    let v = round(v, m);
    let w = round(w, n);
    let m = permuted(m);
    let n = permuted(n);
    let v = round(v, m);
    let w = round(w, n);
    let m = permuted(m);
    let n = permuted(n);
    let v = round(v, m);
    let w = round(w, n);
    let m = permuted(m);
    let n = permuted(n);
    let v = round(v, m);
    let w = round(w, n);
    let m = permuted(m);
    let n = permuted(n);
    let v = round(v, m);
    let w = round(w, n);
    let m = permuted(m);
    let n = permuted(n);
    (round(v, m), round(w, n))
}

// The states before the first round of two whole blocks, of which half `p` has the counter `first + p`.
#[inline(always)]
fn initial_state(h: PairChainings, first: u64, d: u32) -> WideRows
    requires wide { AreWide h }
    requires first { first + 2 ≤ 2 ^ 64 }
    ensures rows { AreWideRows result }
    ensures words { (p : ℕ) → p < 2
        → row_words (half_rows p result) ≡ initial_state (half_chaining p h) (first + p) 64 d }
{
    let (front, back) = h;
    let iv = INITIAL_VALUE;
    let next = first + 1;
    (
        front,
        back,
        u32x8::from_array([iv[0], iv[1], iv[2], iv[3], iv[0], iv[1], iv[2], iv[3]]),
        u32x8::from_array([
            (first % (1 << 32)) as u32,
            (first >> 32) as u32,
            BLOCK_LEN as u32,
            d,
            (next % (1 << 32)) as u32,
            (next >> 32) as u32,
            BLOCK_LEN as u32,
            d,
        ]),
    )
}

// The chaining values that two whole blocks hand on, of which half `p` has the counter `first + p`.
#[inline(always)]
pub(crate) fn pair_chainings(h: PairChainings, m: WideRows, first: u64, d: u32) -> PairChainings
    requires wide { AreWide h }
    requires message { AreWideRows m }
    requires first { first + 2 ≤ 2 ^ 64 }
    ensures wide { AreWide result }
    ensures words { (p : ℕ) → p < 2 → half_chaining p result
        ≡ take 8 (compress (half_chaining p h) (message_of (row_words (half_rows p m))) (first + p) 64 d) }
{
    let v = initial_state(h, first, d);
    let (a, b, c, d) = rounds(v, m);
    (a ^ c, b ^ d)
}

// The same of two pairs: the second pair's counters are `first + 2` and `first + 3`.
#[inline(always)]
pub(crate) fn two_pair_chainings(
    front: PairChainings,
    m: WideRows,
    back: PairChainings,
    n: WideRows,
    first: u64,
    d: u32,
) -> (PairChainings, PairChainings)
    requires wide { AreWide front × AreWide back }
    requires messages { AreWideRows m × AreWideRows n }
    requires first { first + 4 ≤ 2 ^ 64 }
    ensures wide { AreWide result.0 × AreWide result.1 }
    ensures front { (p : ℕ) → p < 2 → half_chaining p result.0
        ≡ take 8 (compress (half_chaining p front) (message_of (row_words (half_rows p m))) (first + p) 64 d) }
    ensures back { (p : ℕ) → p < 2 → half_chaining p result.1
        ≡ take 8 (compress (half_chaining p back) (message_of (row_words (half_rows p n))) (first + 2 + p) 64 d) }
{
    let v = initial_state(front, first, d);
    let w = initial_state(back, first + 2, d);
    let ((a, b, c, d), (e, f, g, h)) = rounds_by_turns(v, m, w, n);
    ((a ^ c, b ^ d), (e ^ g, f ^ h))
}
