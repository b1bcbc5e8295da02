// Windows: pushed, followed by bytes, and last.

ghost use Rattle.std.specs.Prelude.{◌≡◌, ◌≤◌, length};

use super::asserts::{assert_same, assert_same_for, assert_that};
use super::{assert_digest, assert_displayed, assert_tree, digest_of, pattern, update};
use b3_core::{Mode, parent_node, top};
use b3_hash::{Hasher, TooLong, WindowFault, hash};
use std::process::Abort;

// The digests of 2^24 bytes of the pattern, of one less and one more, by another implementation: the installed b3sum.
const DIGEST_OF_16_MIB_LESS_1: [u8; 32] = [
    0x39, 0x7e, 0x52, 0x4e, 0xbb, 0x06, 0x25, 0xe4, 0x32, 0x2c, 0x06, 0x50, 0x87, 0x80, 0xab, 0x35,
    0xdb, 0x71, 0x6b, 0x71, 0x64, 0x11, 0x48, 0x32, 0x7b, 0x61, 0xdc, 0x57, 0x39, 0x6e, 0x03, 0x5c,
];

const DIGEST_OF_16_MIB: [u8; 32] = [
    0x86, 0x9b, 0x12, 0x92, 0xc8, 0xbe, 0xd5, 0xbd, 0xb2, 0xe0, 0x07, 0x5e, 0x0c, 0x50, 0xcc, 0xf8,
    0xb2, 0x4b, 0x33, 0xa0, 0xf8, 0x10, 0x71, 0xc8, 0x62, 0x06, 0xbd, 0x8f, 0xdb, 0x26, 0x95, 0x79,
];

const DIGEST_OF_16_MIB_AND_1: [u8; 32] = [
    0x3a, 0x73, 0x4b, 0x24, 0xdf, 0x8a, 0x7d, 0x6c, 0x13, 0xf0, 0xa9, 0x80, 0xf0, 0x6b, 0x74, 0xc9,
    0xff, 0xe3, 0xea, 0x32, 0x7d, 0xd5, 0xa2, 0x3a, 0x3a, 0x10, 0x85, 0x33, 0xc1, 0x86, 0x84, 0xff,
];

// Pushes the bytes, which are 2^level chunks, as a window.
fn push(rt: &impl Abort, hasher: &mut Hasher, bytes: &[u8], level: u32)
    requires { length bytes.now ≤ 65536 }
{
    let first = hasher.len() / 1024;
    assert_that(rt, first < 1 << 30);
    let node = top(&Mode::hash(), first, bytes);
    assert_same(rt, hasher.push_window(node, level), Ok(()));
}

// Alone, and followed by one byte more: the root is then the parent of both.
#[test]
fn a_window_of_16_mebibytes(rt: HostRuntime) {
    let all = pattern(&rt, 16_777_217);
    let (window, byte) = all.split_at(16_777_216);
    let node = top(&Mode::hash(), 0, window);
    let mut hasher = Hasher::new(Mode::hash());
    assert_same(&rt, hasher.push_window(node, 14), Ok(()));
    assert_digest(&rt, &hasher, &DIGEST_OF_16_MIB, "the window");
    let len = hasher.len();
    assert_that(&rt, len % 1024 == 0);
    let byte_node = top(&Mode::hash(), 16_384, byte);
    let last = hasher.finish_with(byte_node);
    assert_same(&rt, digest_of(&rt, last), DIGEST_OF_16_MIB_AND_1);
    let parent = parent_node(&Mode::hash(), &node.chaining(), &byte_node.chaining());
    assert_same(&rt, top(&Mode::hash(), 0, &all), parent);
    update(&rt, &mut hasher, byte);
    assert_digest(&rt, &hasher, &DIGEST_OF_16_MIB_AND_1, "and then 1");
    assert_same(&rt, hash(&all), DIGEST_OF_16_MIB_AND_1);
}

// A window, and one byte less.
#[test]
fn hashes_of_16_mebibytes(rt: HostRuntime) {
    let window = pattern(&rt, 16_777_216);
    assert_same(&rt, hash(&window), DIGEST_OF_16_MIB);
    let (less, _) = window.split_at(16_777_215);
    assert_same(&rt, hash(less), DIGEST_OF_16_MIB_LESS_1);
}

#[test]
fn windows_up_to_the_greatest_length(rt: HostRuntime) {
    let node = top(&Mode::hash(), 0, &[]);
    let mut hasher = Hasher::new(Mode::hash());
    assert_same(
        &rt,
        hasher.push_window(node, 54),
        Err(WindowFault::Unaligned),
    );
    for level in (0..54u32).rev() {
        assert_same_for(&rt, level, hasher.push_window(node, level), Ok(()));
    }
    assert_same(&rt, hasher.len(), u64::MAX - 1023);
    assert_same(&rt, hasher.push_window(node, 0), Err(WindowFault::TooLong));
    assert_same(&rt, hasher.update(&[7; 1023]), Ok(()));
    assert_same(&rt, hasher.len(), u64::MAX);
    assert_same(&rt, hasher.update(&[7]), Err(TooLong));
    assert_same(&rt, hasher.len(), u64::MAX);
}

// Takes in `skip` bytes by an update, then the next 2^level chunks as a window.
fn update_then_push(rt: &impl Abort, hasher: &mut Hasher, all: &[u8], skip: usize, level: u32)
    requires len { length all.now ≤ 65536 }
    requires level { level ≤ 3 }
{
    let come = (hasher.len() as usize).min(all.len());
    let (_, rest) = all.split_at(come);
    let (bytes, rest) = rest.split_at(skip.min(rest.len()));
    update(rt, hasher, bytes);
    let (window, _) = rest.split_at((1024usize << level).min(rest.len()));
    push(rt, hasher, window, level);
}

// The bytes so far have the digest of their tree.
fn assert_so_far(rt: &impl Abort, hasher: &Hasher, all: &[u8])
    requires { length all.now ≤ 65536 }
{
    let come = (hasher.len() as usize).min(all.len());
    let (bytes, _) = all.split_at(come);
    assert_tree(rt, hasher, bytes, "so far");
}

#[test]
fn windows_among_bytes(rt: HostRuntime) {
    let all = pattern(&rt, 30_000);
    let mut hasher = Hasher::new(Mode::hash());
    for (skip, level) in [(0usize, 2u32), (0, 1), (2048, 3), (0, 0), (3072, 2), (0, 0)] {
        update_then_push(&rt, &mut hasher, &all, skip, level.min(3));
        assert_so_far(&rt, &hasher, &all);
    }
    let (_, rest) = all.split_at((hasher.len() as usize).min(30_000));
    update(&rt, &mut hasher, rest);
    assert_same(&rt, hasher.len(), 30_000);
    assert_so_far(&rt, &hasher, &all);
}

// The output of the hasher's 12,288 bytes and a last window of `last` bytes.
fn assert_finish_with(rt: &impl Abort, hasher: &Hasher, all: &[u8], last: usize)
    requires len { length all.now ≡ 16384 }
    requires last { last ≤ 4096 }
{
    let (_, rest) = all.split_at(12_288);
    let (window, _) = rest.split_at(last);
    let (whole, _) = all.split_at(12_288 + last);
    let len = hasher.len();
    assert_that(rt, len % 1024 == 0);
    let output = hasher.finish_with(top(&Mode::hash(), 12, window));
    assert_same_for(rt, last, digest_of(rt, output), hash(whole));
}

// Last windows of these lengths after the hasher's 12,288 bytes, which it still has then.
fn assert_last_windows(rt: &impl Abort, hasher: &Hasher, all: &[u8])
    requires { length all.now ≡ 16384 }
{
    for last in [1usize, 63, 64, 65, 1023, 1024, 1025, 2048, 3000, 4095, 4096] {
        assert_finish_with(rt, hasher, all, last.min(4096));
    }
    let (before, _) = all.split_at(12_288);
    assert_tree(rt, hasher, before, "which can go on");
}

#[test]
fn a_last_window(rt: HostRuntime) {
    let all = pattern(&rt, 16_384);
    let (before, _) = all.split_at(12_288);
    let mut pushed = Hasher::new(Mode::hash());
    for window in before.chunks(4096) {
        push(&rt, &mut pushed, window, 2);
    }
    assert_last_windows(&rt, &pushed, &all);
    let mut updated = Hasher::new(Mode::hash());
    update(&rt, &mut updated, before);
    assert_last_windows(&rt, &updated, &all);
}

#[test]
fn texts_of_the_refusals(rt: HostRuntime) {
    assert_displayed(
        &rt,
        &WindowFault::Unaligned,
        "the window is at no multiple of its length",
    );
    assert_displayed(
        &rt,
        &WindowFault::TooLong,
        "the input has 2^64 bytes or more",
    );
}
