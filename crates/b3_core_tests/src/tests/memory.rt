// No call takes memory.

use super::asserts::{assert_same, assert_that, assert_that_for};
use super::vectors::KEY;
use b3_core::{
    BLOCK_LEN, CHUNK_LEN, Mode, Node, Span, block_node, chain_blocks, chain_chunks,
    chain_chunks_beside, chain_onto, chain8, chunk_node, chunks, compress, compress8, is_subtree,
    last_block_node, left, parent_node, sibling, top,
};
use std::process::Abort;

// The nodes of chunks and of what stands over them.
fn chain_eight(rt: &impl Abort, mode: &Mode, eight: &[u8; 8192]) {
    let chunk = chunk_node(mode, 5, &eight[..CHUNK_LEN]);
    let words = compress(&chunk.h, &chunk.m, chunk.t, chunk.b, chunk.d);
    let all = compress8(
        &[chunk.h; 8],
        &[chunk.m; 8],
        &[chunk.t; 8],
        chunk.b,
        chunk.d,
    );
    assert_same(rt, all[7], words);
    let chainings = chain8(mode, 5, eight);
    assert_same(rt, chainings[0], chunk.chaining());
    assert_same(rt, chain_chunks(mode, 5, &eight[..3000])[1], chainings[1]);
    let beside = chain_chunks_beside(mode, 5, eight, 5, 1);
    assert_same(rt, beside[1], chainings[1]);
    let parent = parent_node(mode, &chainings[0], &chainings[1]);
    assert_same(rt, top(mode, 5, &eight[..2048]), parent);
    assert_same(rt, top(mode, 5, eight).d, 4 | 16);
    let mut blocks = [0; 512];
    parent.blocks8(0, &mut blocks);
    assert_same(rt, &blocks[64..128], &parent.block(1)[..]);
}

// The nodes of the first block of a chunk.
fn chain_block(rt: &impl Abort, mode: &Mode, block: &[u8; BLOCK_LEN]) {
    let open = block_node(mode, 5, 0, &mode.key, block);
    assert_same(
        rt,
        chain_blocks(mode, 5, 0, &mode.key, block),
        open.chaining(),
    );
    let mut value = mode.key;
    chain_onto(mode, 5, 0, &mut value, block);
    assert_same(rt, value, open.chaining());
    let last = last_block_node(mode, 5, 0, &mode.key, block);
    assert_same(
        rt,
        last,
        Node {
            d: 1 | 2 | 16,
            ..open
        },
    );
}

/// `make refused` refuses the first growth, here and in the next test: it is the one after the last call.
#[test]
fn nodes_take_no_memory(rt: HostRuntime) {
    let mode = Mode::keyed(KEY);
    chain_eight(&rt, &mode, &[7; 8192]);
    chain_block(&rt, &mode, &[7; BLOCK_LEN]);
    assert_that_for(
        &rt,
        "refused after the last call",
        String::from_str(rt.alloc(), "x").is_ok(),
    );
}

#[test]
fn trees_and_modes_take_no_memory(rt: HostRuntime) {
    let flags = [
        Mode::hash().flag,
        Mode::keyed(KEY).flag,
        Mode::context().flag,
        Mode::material(KEY).flag,
    ];
    assert_same(&rt, flags, [0, 16, 32, 64]);
    assert_same(&rt, (chunks(5_000), left(5)), (5, 4));
    let (four, one) = (Span { first: 0, count: 4 }, Span { first: 4, count: 1 });
    assert_that(&rt, is_subtree(5, one));
    assert_same(&rt, sibling(5, one), Some(four));
    assert_that_for(
        &rt,
        "refused after the last call",
        String::from_str(rt.alloc(), "x").is_ok(),
    );
}
