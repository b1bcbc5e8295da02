// Blocks of a chunk chained together against one block at a time.

ghost use Rattle.std.specs.Prelude.{◌*◌, ◌+◌, ◌≤◌, length};

use super::asserts::{assert_same, assert_same_for};
use super::lanes::four_modes;
use super::vectors::{KEY, pattern};
use b3_core::{
    BLOCK_LEN, CHUNK_LEN, Mode, Node, block_node, chain_blocks, chunk_node, compress,
    last_block_node,
};
use std::process::Abort;

const NUMBER: u64 = 4_294_967_301;

fn first_half(out: &[u32; 16]) -> [u32; 8] {
    [
        out[0], out[1], out[2], out[3], out[4], out[5], out[6], out[7],
    ]
}

// The chaining value that `h` becomes by `count` whole blocks, one compression at a time.
fn chain_plain(mode: &Mode, index: usize, h: &[u32; 8], bytes: &[u8], count: usize) -> [u32; 8]
    requires blocks { 64 * count ≤ length bytes.now }
    requires index { index + count ≤ 1000 }
{
    let mut value = *h;
    for k in 0..count {
        let block = &bytes[BLOCK_LEN * k..BLOCK_LEN * k + BLOCK_LEN];
        let node = block_node(mode, NUMBER, index + k, &value, block);
        value = first_half(&compress(&node.h, &node.m, node.t, node.b, node.d));
    }
    value
}

// The node of a chunk, one compression at a time.
fn chunk_plain(mode: &Mode, bytes: &[u8]) -> Node
    requires { length bytes.now ≤ 1024 }
{
    let last = bytes.len().saturating_sub(1) / BLOCK_LEN;
    let h = chain_plain(mode, 0, &mode.key, bytes, last);
    last_block_node(mode, NUMBER, last, &h, &bytes[BLOCK_LEN * last..])
}

fn assert_same_chain(rt: &impl Abort, mode: &Mode, index: usize, bytes: &[u8], count: usize)
    requires blocks { 64 * count ≤ length bytes.now }
    requires index { index + count ≤ 1000 }
{
    let h = [9, 8, 7, 6, 5, 4, 3, 2];
    assert_same_for(
        rt,
        (count, index, mode.flag),
        chain_blocks(mode, NUMBER, index, &h, &bytes[..BLOCK_LEN * count]),
        chain_plain(mode, index, &h, bytes, count),
    );
}

// Also where the bytes begin at no multiple of a word.
#[test]
fn blocks_from_each_index_in_each_mode(rt: HostRuntime) {
    let bytes = pattern(&rt, 1030);
    for mode in four_modes() {
        for index in 0..16usize {
            for count in 0..17usize {
                let (_, rest) = bytes.split_at(index % 6);
                assert_same_chain(&rt, &mode, index, rest, count);
            }
        }
    }
}

// No index is too great: only block 0 differs from the others.
#[test]
fn blocks_from_the_greatest_index(rt: HostRuntime) {
    let bytes = pattern(&rt, 192);
    let mode = Mode::keyed(KEY);
    assert_same(
        &rt,
        chain_blocks(&mode, NUMBER, usize::MAX, &mode.key, &bytes),
        chain_plain(&mode, 1, &mode.key, &bytes, 3),
    );
}

#[test]
fn chunks_of_each_length_in_each_mode(rt: HostRuntime) {
    let bytes = pattern(&rt, CHUNK_LEN);
    for mode in four_modes() {
        for len in 0..CHUNK_LEN + 1 {
            let (chunk, _) = bytes.split_at(len);
            assert_same_for(
                &rt,
                (len, mode.flag),
                chunk_node(&mode, NUMBER, chunk),
                chunk_plain(&mode, chunk),
            );
        }
    }
}
