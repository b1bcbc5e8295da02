// Chunks (BLAKE3 (2020), 2.4) on rows: blocks one after the other, with the chaining value kept in two vectors.

ghost use Rattle.std.specs.Prelude.{◌≡◌, ℕ, List, ◌+◌, ◌*◌, ◌/◌, ◌%◌, ◌≤◌, length, take, drop};
ghost use Rattle.b3_core.specs.Words.{words_of};
ghost use Rattle.b3_core.specs.Chunks.{chained_blocks, chaining_value_at};
ghost use Rattle.b3_core.specs.Rows.{AreRows, row_words};

use crate::compression::{Rows, arranged, chained, chaining_rows, chaining_words};
use crate::leaves::{BLOCK_LEN, block_flags};
use crate::modes::Mode;
use crate::words::load4;

// The sixteen words of the 64 bytes from this offset on, four in each row.
#[inline(always)]
fn load_rows(bytes: &[u8], offset: usize) -> Rows
    requires { offset + 64 ≤ length bytes.now }
    ensures rows { AreRows result }
    ensures words { row_words result ≡ words_of (take 64 (drop offset bytes.now)) }
{
    (
        load4(bytes, offset),
        load4(bytes, offset + 16),
        load4(bytes, offset + 32),
        load4(bytes, offset + 48),
    )
}

/// The chaining value that `h` becomes by whole blocks of the chunk with this number, of which the first is block
/// `index` (BLAKE3 (2020), 2.4): `h` is the one that reaches it. None of them takes CHUNK_END, so the chunk's last
/// block is not among them: that is [`last_block_node`](crate::last_block_node).
pub fn chain_blocks(mode: &Mode, number: u64, index: usize, h: &[u32; 8], blocks: &[u8]) -> [u32; 8]
    requires { length blocks.now % 64 ≡ 0 }
    ensures value { result ≡ chained_blocks mode.now number index h.now blocks.now (length blocks.now / 64) }

    // Of a chunk's own blocks it is the chaining value that reaches the block after them.
    ensures chunk { (chunk : List ℕ) → h.now ≡ chaining_value_at mode.now number chunk index
        → blocks.now ≡ take (length blocks.now) (drop (64 * index) chunk)
        → result ≡ chaining_value_at mode.now number chunk (index + length blocks.now / 64) }
{
    let mut value = *h;
    chain_onto(mode, number, index, &mut value, blocks);
    value
}

/// The same in place: `h` becomes that chaining value.
pub fn chain_onto(mode: &Mode, number: u64, index: usize, h: &mut [u32; 8], blocks: &[u8])
    requires { length blocks.now % 64 ≡ 0 }
    ensures value { h.new ≡ chained_blocks mode.now number index h.old blocks.now (length blocks.now / 64) }

    // Of a chunk's own blocks it is the chaining value that reaches the block after them.
    ensures chunk { (chunk : List ℕ) → h.old ≡ chaining_value_at mode.now number chunk index
        → blocks.now ≡ take (length blocks.now) (drop (64 * index) chunk)
        → h.new ≡ chaining_value_at mode.now number chunk (index + length blocks.now / 64) }
{
    let mut value = chaining_rows(h);
    let mut flags = block_flags(mode, index);
    for k in 0..blocks.len() / BLOCK_LEN {
        let m = arranged(load_rows(blocks, BLOCK_LEN * k));
        let next = chained(value, m, number, BLOCK_LEN as u32, flags);
        value = next;
        flags = mode.flag;
    }
    *h = chaining_words(value);
}
