// Inputs of up to two chunks in pieces that end at and around the borders of blocks, against their compressions one
// block at a time.

ghost use Rattle.std.specs.Prelude.{◌≤◌, length};

use super::asserts::assert_same_for;
use super::{assert_digest, pattern, update};
use b3_core::{BLOCK_LEN, CHUNK_LEN, Mode, Node, block_node, last_block_node, parent_node};
use b3_hash::{Hasher, hash, keyed_hash};
use std::process::Abort;

// The node of a chunk, one block at a time.
fn chunk_plain(mode: &Mode, number: u64, bytes: &[u8]) -> Node
    requires { length bytes.now ≤ 1024 }
{
    let last = bytes.len().saturating_sub(1) / BLOCK_LEN;
    let mut h = mode.key;
    for k in 0..last {
        let block = &bytes[BLOCK_LEN * k..BLOCK_LEN * k + BLOCK_LEN];
        let next = block_node(mode, number, k, &h, block).chaining();
        h = next;
    }
    last_block_node(mode, number, last, &h, &bytes[BLOCK_LEN * last..])
}

// The digest of one or two chunks, one block at a time.
fn digest_plain(mode: &Mode, bytes: &[u8]) -> [u8; 32]
    requires { length bytes.now ≤ 2048 }
{
    let (first, second) = bytes.split_at(bytes.len().min(CHUNK_LEN));
    let mut root = chunk_plain(mode, 0, first);
    if !second.is_empty() {
        let left = root.chaining();
        root = parent_node(mode, &left, &chunk_plain(mode, 1, second).chaining());
    }
    let block = root.block(0);
    let mut digest = [0; 32];
    for i in 0..32usize {
        digest[i] = block[i];
    }
    digest
}

// The bytes have this digest in three pieces.
fn assert_pieces(rt: &impl Abort, bytes: &[u8], first: usize, second: usize, want: &[u8; 32])
    requires order { first ≤ second }
    requires within { second ≤ length bytes.now }
{
    let mut hasher = Hasher::new(Mode::hash());
    update(rt, &mut hasher, &bytes[..first]);
    update(rt, &mut hasher, &bytes[first..second]);
    update(rt, &mut hasher, &bytes[second..]);
    assert_digest(rt, &hasher, want, "in three pieces");
}

// Each length, and a first piece of each of these lengths, with the second piece of 1, 64, 65 or all further bytes.
fn assert_lengths(rt: &impl Abort, all: &[u8], from: usize, to: usize)
    requires order { from ≤ to }
    requires within { to ≤ 2048 }
    requires all { 2048 ≤ length all.now }
{
    for len in from..to {
        let (bytes, _) = all.split_at(len);
        let want = digest_plain(&Mode::hash(), bytes);
        assert_same_for(rt, len, hash(bytes), want);
        for first in [
            0usize, 1, 63, 64, 65, 127, 128, 129, 192, 511, 959, 960, 961, 1023, 1024, 1025,
        ] {
            let first = first.min(len);
            for more in [1usize, 64, 65, 2048] {
                let second = first + more.min(len - first);
                assert_pieces(rt, bytes, first, second, &want);
            }
        }
    }
}

#[test]
fn lengths_of_up_to_three_blocks(rt: HostRuntime) {
    let all = pattern(&rt, 2048);
    assert_lengths(&rt, &all, 0, 200);
}

#[test]
fn lengths_around_a_chunk(rt: HostRuntime) {
    let all = pattern(&rt, 2048);
    assert_lengths(&rt, &all, 955, 1100);
}

#[test]
fn lengths_around_two_chunks(rt: HostRuntime) {
    let all = pattern(&rt, 2048);
    assert_lengths(&rt, &all, 1980, 2048);
}

#[test]
fn keyed_hashes_of_up_to_two_chunks(rt: HostRuntime) {
    let all = pattern(&rt, 2048);
    let key = b"whats the Elvish word for friend";
    for len in 0..2049usize {
        let (bytes, _) = all.split_at(len);
        assert_same_for(
            &rt,
            len,
            keyed_hash(key, bytes),
            digest_plain(&Mode::keyed(key), bytes),
        );
    }
}
