//! A file that all workers read and hash at once, each at offsets of its own: a board over each region of it takes the
//! nodes of its spans.

ghost use Rattle.std.specs.Option.{option_map};
ghost use Rattle.std.specs.Prelude.{◌≡◌, ◌+◌, ◌*◌, ◌/◌, ◌^◌, ◌<◌, ◌≤◌, IfSome, IsSome, IsTrue, length};
ghost use Rattle.b3_devices.specs.Parts.{HasHashed, IsPartOf};
ghost use Rattle.b3_io.specs.Reading.{IsOutputOf};
ghost use Rattle.b3_devices.specs.declared.at_offsets.TheConstants.{LEN_LIMIT, REGION_LEN};
ghost use Rattle.b3_hash.specs.Hashers.{length_of};

use b3_board::{Gate, PIECE_LEN, Source, default_grain, hash_source};
use b3_core::{CHUNK_LEN, Mode, Node, chunks};
use b3_hash::{Hasher, Xof};
use b3_io::{Buffer, Limits, Pool, READ_LEN, Shelf};
use std::sync::Wait;
use std::thread::Threads;

/// How many chunks a piece has, which is what a worker reads at a time.
const PIECE_CHUNKS: u64 = (PIECE_LEN / CHUNK_LEN) as u64;

/// Spans are pieces or longer from where each worker gets so many pieces.
const PIECES_PER_WORKER: u64 = 4;

/// A region has 2^REGION_LEVEL chunks, as many as a board takes: the workers start once for each.
pub const REGION_LEVEL: u32 = 20;

/// How many bytes a region has.
pub const REGION_LEN: u64 = 1 << 30;

/// A file that is read at offsets has fewer bytes.
pub const LEN_LIMIT: u64 = 1 << 50;

/// What is left of the file that a shelf has begun, as a source for a board.
#[derive(Drop)]
struct Rest<'s, S> {
    shelf: &'s S,
}

impl<S: Shelf> Source for Rest<'_, S> {
    ghost told = { λ rest. option_map (λ _. S.left rest.shelf.now) (S.told rest.shelf.now) };

    ghost sure = { λ _ _. ⊥ };

    fn read_at(&self, offset: u64, buffer: &mut [u8]) -> Option<usize> {
        self.shelf.read_at(offset, buffer)
    }
}

/// The output of what is left of the file that is begun. Nothing where it is to be read in order: one worker hashes,
/// the file has no more than one span, it may take more reads than `limits` allow, it has not the length that it tells,
/// or some of it could not be read.
pub fn hash_at_offsets<R: Threads + Wait + Sync, G: Gate + Sync, S: Shelf + Send + Sync>(
    pool: &Pool<'_, R, G>,
    shelf: &S,
    mode: &Mode,
    limits: Limits,
    buffer: &mut Buffer,
) -> Option<Xof>
    ensures { IfSome result (λ output. IsOutputOf (S.told shelf.now) (S.left shelf.now) mode.now output) }
{
    let workers = pool.workers as usize;
    let len = shelf.len_hint();
    if workers < 2 || len >= LEN_LIMIT || !limits_allow(limits, len) {
        return None;
    }
    let grain = grain_of(len, workers);
    let span_len = grain * CHUNK_LEN as u64;
    if len <= span_len || !has_length(shelf, len) {
        return None;
    }
    // Two start for a short file; a further one is worth its start where there is a piece for it.
    let threads = workers.min((len / PIECE_LEN as u64).max(2) as usize);
    let Ok(front) = buffer.front(threads * PIECE_LEN.min(span_len as usize)) else {
        return None;
    };
    hash_regions(pool, shelf, mode, grain, len, front)
}

// Whether a file of so many bytes may be read in order: a read more finds its end.
fn limits_allow(limits: Limits, len: u64) -> bool {
    len.div_ceil(READ_LEN as u64) < limits.turns
}

// How many chunks the spans of a file of so many bytes have: as few as a board over a region takes, but those of a piece
// where each worker gets several of these.
fn grain_of(len: u64, workers: usize) -> u64
    requires { workers ≤ 64 }
    ensures { (0 < result) × (result ≤ 2 ^ 20) }
{
    let grain = default_grain(chunks(len.min(REGION_LEN)));
    if len / PIECE_LEN as u64 >= workers as u64 * PIECES_PER_WORKER {
        return grain.max(PIECE_CHUNKS);
    }
    grain
}

// Whether just so many bytes are left of the file: from the last of them on, one can be read.
fn has_length<S: Shelf>(shelf: &S, len: u64) -> bool
    requires { 0 < len }
    ensures { IsTrue result → IsSome (S.told shelf.now) → length (S.left shelf.now) ≡ len }
{
    let mut buffer = [0; 2];
    let Some(count) = shelf.read_at(len - 1, &mut buffer) else {
        return false;
    };
    count == 1
}

// The output of a file of so many bytes, region by region, in spans of `grain` chunks.
fn hash_regions<R: Threads + Wait + Sync, G: Gate + Sync, S: Shelf + Send + Sync>(
    pool: &Pool<'_, R, G>,
    shelf: &S,
    mode: &Mode,
    grain: u64,
    len: u64,
    buffer: &mut [u8],
) -> Option<Xof>
    requires most { len < LEN_LIMIT }
    requires whole { IsSome (S.told shelf.now) → length (S.left shelf.now) ≡ len }
    ensures { IfSome result (λ output. IsOutputOf (S.told shelf.now) (S.left shelf.now) mode.now output) }
{
    let mut hasher = Hasher::new(*mode);
    'regions: while len - hasher.len() >= REGION_LEN {
        let node = part_node(pool, shelf, mode, grain, hasher.len(), REGION_LEN, buffer)?;
        push_region(shelf, mode, &mut hasher, node);
    }
    hash_last_part(pool, shelf, mode, &hasher, grain, len, buffer)
}

// The node of so many bytes from `offset` on, which is the beginning of a chunk (BLAKE3 (2020), 2.1). The workers share
// its spans, and each reads into a part of the buffer. Nothing where some of them could not be read, or where there is
// no memory for their board.
fn part_node<R: Threads + Wait + Sync, G: Gate + Sync, S: Shelf + Send + Sync>(
    pool: &Pool<'_, R, G>,
    shelf: &S,
    mode: &Mode,
    grain: u64,
    offset: u64,
    len: u64,
    buffer: &mut [u8],
) -> Option<Node>
    requires most { offset + len < LEN_LIMIT }
    requires there { IsSome (S.told shelf.now) → offset + len ≤ length (S.left shelf.now) }
    ensures { IfSome result (λ node. IsPartOf (S.told shelf.now) (S.left shelf.now) mode.now offset len node) }
{
    let found = hash_source(
        pool.rt,
        pool.alloc,
        &Rest { shelf },
        offset,
        len,
        *mode,
        offset / CHUNK_LEN as u64,
        grain,
        pool.workers,
        buffer,
        pool.gate,
    );
    match found {
        Ok(Some(report)) => Some(report.root.node()),
        _ => None,
    }
}

// Pushes the next region.
fn push_region<S: Shelf>(shelf: &S, mode: &Mode, hasher: &mut Hasher, node: Node)
    requires hashed { HasHashed (S.told shelf.now) (S.left shelf.now) mode.now hasher.old }
    requires part { IsPartOf (S.told shelf.now) (S.left shelf.now) mode.now (length_of hasher.old) REGION_LEN node }
    requires few { length_of hasher.old < LEN_LIMIT }
    ensures hashed { HasHashed (S.told shelf.now) (S.left shelf.now) mode.now hasher.new }
    ensures len { length_of hasher.new ≡ length_of hasher.old + REGION_LEN }
{
    hasher.push_window(node, REGION_LEVEL).unwrap();
}

// The output, where less than a region is left.
fn hash_last_part<R: Threads + Wait + Sync, G: Gate + Sync, S: Shelf + Send + Sync>(
    pool: &Pool<'_, R, G>,
    shelf: &S,
    mode: &Mode,
    hasher: &Hasher,
    grain: u64,
    len: u64,
    buffer: &mut [u8],
) -> Option<Xof>
    requires hashed { HasHashed (S.told shelf.now) (S.left shelf.now) mode.now hasher.now }
    requires reached { length_of hasher.now ≤ len }
    requires last { len < length_of hasher.now + REGION_LEN }
    requires most { len < LEN_LIMIT }
    requires whole { IsSome (S.told shelf.now) → length (S.left shelf.now) ≡ len }
    ensures { IfSome result (λ output. IsOutputOf (S.told shelf.now) (S.left shelf.now) mode.now output) }
{
    let offset = hasher.len();
    if offset == len {
        return Some(hasher.finish());
    }
    let last = part_node(pool, shelf, mode, grain, offset, len - offset, buffer)?;
    Some(hasher.finish_with(last))
}
