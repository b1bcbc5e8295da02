// The lanes against one compression, one chunk and one parent at a time.

ghost use Rattle.std.specs.Prelude.{◌≡◌, ◌+◌, ◌*◌, ◌^◌, ◌<◌, ◌≤◌, length};
ghost use Rattle.b3_core.specs.Tree.{IsTop, chunks, top};
ghost use Rattle.b3_core.specs.declared.nodes.Node.{Node};

use super::asserts::assert_same_for;
use super::vectors::{KEY, pattern};
use b3_core::{
    BLOCK_LEN, CHUNK_LEN, Mode, Node, chain_blocks, chain_chunks, chain_chunks_beside, chunk_node,
    chunks, compress, compress8, left, parent_node, top,
};
use std::process::Abort;

// The tree by chunks and parents one at a time, under the contract of `top`.
fn top_plain(mode: &Mode, first: u64, bytes: &[u8]) -> Node
    requires { first + chunks (length bytes.now) ≤ 2 ^ 54 }
    ensures value { result ≡ top mode.now first bytes.now }
    ensures tree { IsTop mode.now first bytes.now result }
    ensures only { (node : Node) → IsTop mode.now first bytes.now node → node ≡ result }
{
    if bytes.len() <= CHUNK_LEN {
        return chunk_node(mode, first, bytes);
    }
    let count = left(chunks(bytes.len() as u64));
    let (left_bytes, right_bytes) = bytes.split_at(CHUNK_LEN * count as usize);
    let left_node = top_plain(mode, first, left_bytes);
    let right_node = top_plain(mode, first + count, right_bytes);
    parent_node(mode, &left_node.chaining(), &right_node.chaining())
}

fn assert_same_top(rt: &impl Abort, mode: &Mode, first: u64, bytes: &[u8])
    requires len { length bytes.now < 2 ^ 20 }
    requires first { first ≤ 2 ^ 53 }
{
    assert_same_for(
        rt,
        (bytes.len(), first, mode.flag),
        top(mode, first, bytes),
        top_plain(mode, first, bytes),
    );
}

pub(super) fn four_modes() -> [Mode; 4] {
    [
        Mode::hash(),
        Mode::keyed(KEY),
        Mode::context(),
        Mode::material(KEY),
    ]
}

#[test]
fn tops_of_up_to_three_chunks_in_each_mode(rt: HostRuntime) {
    let bytes = pattern(&rt, 3000);
    for mode in four_modes() {
        for len in 0..3001usize {
            let (part, _) = bytes.split_at(len);
            assert_same_top(&rt, &mode, 5, part);
        }
    }
}

#[test]
fn tops_where_subtrees_begin_and_end_in_each_mode(rt: HostRuntime) {
    let bytes = pattern(&rt, 65537);
    for mode in four_modes() {
        for len in [
            8191usize, 8192, 8193, 9216, 9217, 16384, 16385, 65536, 65537,
        ] {
            let (part, _) = bytes.split_at(len);
            assert_same_top(&rt, &mode, 5, part);
        }
    }
}

#[test]
fn tops_around_whole_numbers_of_chunks(rt: HostRuntime) {
    let bytes = pattern(&rt, 70000);
    let mode = Mode::hash();
    for count in 1..69usize {
        for more in 0..3usize {
            let len = CHUNK_LEN * count + more - 1;
            let (part, _) = bytes.split_at(len);
            assert_same_top(&rt, &mode, 5, part);
        }
    }
}

// The last chunk's blocks but its last one are chained with the chunks before it.
#[test]
fn tops_around_whole_numbers_of_blocks(rt: HostRuntime) {
    let bytes = pattern(&rt, 9300);
    let mode = Mode::keyed(KEY);
    for blocks in 1..145usize {
        for more in 0..3usize {
            let len = BLOCK_LEN * blocks + more - 1;
            let (part, _) = bytes.split_at(len);
            assert_same_top(&rt, &mode, 5, part);
        }
    }
}

// One to eight full chunks together, with and without bytes of another after them, beside one chunk at a time: pairs
// and lanes take over from one another between these numbers.
#[test]
fn one_to_eight_chunks_in_each_mode(rt: HostRuntime) {
    let bytes = pattern(&rt, 9215);
    for mode in four_modes() {
        for first in [0, 5, FIRST] {
            for count in 1..9usize {
                for more in [0usize, 1, 1023] {
                    let (part, _) = bytes.split_at(CHUNK_LEN * count + more);
                    assert_chunks(&rt, &mode, first, part);
                }
            }
        }
    }
}

fn assert_chunks(rt: &impl Abort, mode: &Mode, first: u64, bytes: &[u8])
    requires some { 1024 ≤ length bytes.now }
    requires few { length bytes.now < 9 * 1024 }
    requires first { first ≤ 2 ^ 53 }
{
    let chainings = chain_chunks(mode, first, bytes);
    for j in 0..bytes.len() / CHUNK_LEN {
        let chunk = &bytes[CHUNK_LEN * j..CHUNK_LEN * j + CHUNK_LEN];
        assert_same_for(
            rt,
            (j, bytes.len(), first),
            chainings[j],
            chunk_node(mode, first + j as u64, chunk).chaining(),
        );
    }
}

// One to seven full chunks, and the blocks of another beside them, to no more than these and with a byte after them; also
// where the counters' low words wrap between the halves of a pair.
#[test]
fn blocks_beside_one_to_seven_chunks(rt: HostRuntime) {
    let bytes = pattern(&rt, 8300);
    for mode in four_modes() {
        for count in 1..8usize {
            for blocks in 0..16usize {
                let len = CHUNK_LEN * count + BLOCK_LEN * blocks;
                for more in [0usize, 1] {
                    let (part, _) = bytes.split_at(len + more);
                    assert_beside(&rt, &mode, FIRST, part, count, blocks);
                    assert_beside(&rt, &mode, FIRST + 3, part, count, blocks);
                }
            }
        }
    }
}

fn assert_beside(
    rt: &impl Abort,
    mode: &Mode,
    first: u64,
    bytes: &[u8],
    count: usize,
    blocks: usize,
)
    requires some { 0 < count }
    requires room { count < 8 }
    requires blocks { blocks < 16 }
    requires bytes { 1024 * count + 64 * blocks ≤ length bytes.now }
    requires first { first ≤ 2 ^ 53 }
{
    let lists = chain_chunks_beside(mode, first, bytes, count, blocks);
    for j in 0..count {
        let chunk = &bytes[CHUNK_LEN * j..CHUNK_LEN * j + CHUNK_LEN];
        assert_same_for(
            rt,
            (j, count, first, blocks),
            lists[j],
            chunk_node(mode, first + j as u64, chunk).chaining(),
        );
    }
    let (_, last) = bytes.split_at(CHUNK_LEN * count);
    assert_same_for(
        rt,
        (blocks, count, first),
        lists[count],
        chain_blocks(
            mode,
            first + count as u64,
            0,
            &mode.key,
            &last[..BLOCK_LEN * blocks],
        ),
    );
}

const FIRST: u64 = 4_294_967_292;

// The counters' low words wrap between lanes 3 and 4, and their high words rise there.
#[test]
fn tops_across_2_to_the_32(rt: HostRuntime) {
    let bytes = pattern(&rt, 65536);
    for len in [8192usize, 65536] {
        let (part, _) = bytes.split_at(len);
        assert_same_top(&rt, &Mode::keyed(KEY), FIRST, part);
    }
}

// Also where the counters' low words wrap, and up to the last counter.
#[test]
fn eight_output_blocks(rt: HostRuntime) {
    let node = chunk_node(&Mode::keyed(KEY), 3, b"abc");
    for first in [0, 1, FIRST, u64::MAX - 7] {
        let mut blocks = [0; 512];
        node.blocks8(first, &mut blocks);
        for j in 0..8usize {
            assert_same_for(
                &rt,
                (j, first),
                &blocks[64 * j..64 * j + 64],
                &node.block(first + j as u64)[..],
            );
        }
    }
}

#[test]
fn eight_compressions_of_one_block(rt: HostRuntime) {
    let mode = Mode::hash();
    let node = chunk_node(&mode, 0, b"abc");
    let numbers = [0, 1, 2, u64::MAX, 1 << 32, 5, 6, (1 << 32) - 1];
    let outputs = compress8(&[node.h; 8], &[node.m; 8], &numbers, node.b, node.d);
    for j in 0..8usize {
        assert_same_for(
            &rt,
            j,
            outputs[j],
            compress(&node.h, &node.m, numbers[j], node.b, node.d),
        );
    }
}
