// The chaining values of up to eight full chunks (BLAKE3 (2020), 2.4), and of blocks of the chunk after them, by pairs for
// few and by lanes for more.

ghost use Rattle.std.specs.Prelude.{◌≡◌, ℕ, [], ◌+◌, ◌*◌, ◌^◌, ◌<◌, ◌≤◌, length, slice_index_or, take};
ghost use Rattle.b3_core.specs.Chunks.{chaining_value_at, chunk_at, chunk_node};
ghost use Rattle.b3_core.specs.Nodes.{chaining};

use crate::chunk_rows::chain_blocks;
use crate::lane_chunks::{chain_lanes_beside, chain_some_lanes};
use crate::lanes::all_lanes;
use crate::leaves::{BLOCK_LEN, CHUNK_LEN, chunk_node};
use crate::modes::Mode;
use crate::pair_chunks::{chain_four, chain_one_beside, chain_three_beside, chain_two};

// These lists, and then lists of no use.
#[inline(always)]
fn among_eight<const N: usize>(lists: &[[u32; 8]; N]) -> [[u32; 8]; 8]
    requires { N ≤ 8 }
    ensures { take N result ≡ lists.now }
{
    let mut eight = [[0; 8]; 8];
    eight[..N].copy_from_slice(lists);
    eight
}

/// The chaining values of the full chunks of `bytes`, of which there are one to eight, numbered from `first` on
/// (BLAKE3 (2020), 2.4): list `j` of the result is that of the 1,024 bytes from place 1,024 `j` on. The lists from
/// their number on are of no use, and bytes after the last full chunk are not read.
pub fn chain_chunks(mode: &Mode, first: u64, bytes: &[u8]) -> [[u32; 8]; 8]
    requires some { 1024 ≤ length bytes.now }
    requires few { length bytes.now < 9 * 1024 }
    requires first { first ≤ 2 ^ 54 }
    ensures { (j : ℕ) → 1024 * (j + 1) ≤ length bytes.now → slice_index_or result j []
        ≡ chaining (chunk_node mode.now (first + j) (chunk_at bytes.now j)) }
{
    match bytes.len() / CHUNK_LEN {
        1 => among_eight(&[chunk_node(mode, first, &bytes[..CHUNK_LEN]).chaining()]),
        2 => among_eight(&chain_two(mode, first, bytes)),
        n @ 3..=4 => among_eight(&chain_four(mode, first, bytes, n)),
        n => all_lanes(&chain_some_lanes(mode, first, bytes, n)),
    }
}

/// The chaining values of the `n` full chunks, one to seven, that `bytes` begins with, numbered from `first` on
/// (BLAKE3 (2020), 2.4), as [`chain_chunks`] gives them; and in list `n` that which reaches block `blocks` of the chunk after
/// them. The blocks before it are whole, 64 bytes each, and the chunk's last block is not among them: see
/// [`last_block_node`](crate::last_block_node). The lists from `n + 1` on are of no use, and bytes after the blocks are not
/// read.
pub fn chain_chunks_beside(
    mode: &Mode,
    first: u64,
    bytes: &[u8],
    n: usize,
    blocks: usize,
) -> [[u32; 8]; 8]
    requires some { 0 < n }
    requires room { n < 8 }
    requires blocks { blocks < 16 }
    requires bytes { 1024 * n + 64 * blocks ≤ length bytes.now }
    requires first { first ≤ 2 ^ 54 }
    ensures chunks { (j : ℕ) → j < n → slice_index_or result j []
        ≡ chaining (chunk_node mode.now (first + j) (chunk_at bytes.now j)) }
    ensures beside { slice_index_or result n []
        ≡ chaining_value_at mode.now (first + n) (chunk_at bytes.now n) blocks }
{
    match n {
        1 => among_eight(&chain_one_beside(mode, first, bytes, blocks)),
        3 => among_eight(&chain_three_beside(mode, first, bytes, blocks)),
        2 | 4 => chain_one_after_the_other(mode, first, bytes, n, blocks),
        _ => chain_lanes_beside(mode, first, bytes, n, blocks),
    }
}

// The same where no half of a pair is idle: the blocks come after the chunks.
fn chain_one_after_the_other(
    mode: &Mode,
    first: u64,
    bytes: &[u8],
    n: usize,
    blocks: usize,
) -> [[u32; 8]; 8]
    requires some { 0 < n }
    requires room { n < 8 }
    requires blocks { blocks < 16 }
    requires bytes { 1024 * n + 64 * blocks ≤ length bytes.now }
    requires first { first ≤ 2 ^ 54 }
    ensures chunks { (j : ℕ) → j < n → slice_index_or result j []
        ≡ chaining (chunk_node mode.now (first + j) (chunk_at bytes.now j)) }
    ensures beside { slice_index_or result n []
        ≡ chaining_value_at mode.now (first + n) (chunk_at bytes.now n) blocks }
{
    let (chunks, rest) = bytes.split_at(CHUNK_LEN * n);
    let mut lists = chain_chunks(mode, first, chunks);
    lists[n] = chain_blocks(
        mode,
        first + n as u64,
        0,
        &mode.key,
        &rest[..BLOCK_LEN * blocks],
    );
    lists
}
