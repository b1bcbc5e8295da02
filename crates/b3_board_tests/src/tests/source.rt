// Runs over sources, of which each worker reads the spans that it claims.

ghost use Rattle.std.specs.Prelude.{◌≡◌, ℕ, ◌+◌, ◌≤◌, List, drop, length, take, Some, None};

use super::asserts::{assert_same, assert_same_for, assert_that, assert_that_for};
use super::memory::last_growth;
use super::pattern;
use super::rendezvous::{AllAtOnce, Rendezvous, Yielding};
use super::workers::assert_report;
use b3_board::{BoardFault, Gate, OpenGate, PIECE_LEN, Report, Source, hash_source};
use b3_core::{CHUNK_LEN, Mode, chunks};
use std::alloc::Global;
use std::process::Abort;
use std::sync::Wait;
use std::sync::atomic::{AtomicU64, Ordering};
use std::test::Fail;
use std::thread::Threads;

// Copies bytes from a place on, as many as are there and the buffer takes, and gives their number.
fn read_bytes(bytes: &[u8], place: u64, buffer: &mut [u8]) -> usize
    ensures within { result ≤ length buffer.old }
    ensures bytes { take result buffer.new ≡ take result (drop place bytes.now) }
    ensures whole { place + length buffer.old ≤ length bytes.now → result ≡ length buffer.old }
{
    let rest = &bytes[bytes.len().min(place as usize)..];
    let count = rest.len().min(buffer.len());
    buffer[..count].copy_from_slice(&rest[..count]);
    count
}

// Bytes in memory that are told, and read for sure.
#[derive(Drop)]
struct Told<'a> {
    bytes: &'a [u8],
}

impl<'a> Source for Told<'a> {
    ghost told = { λ source. Some source.bytes.now };

    ghost sure = { λ source end. end ≤ length source.bytes.now };

    fn read_at(&self, offset: u64, buffer: &mut [u8]) -> Option<usize> {
        Some(read_bytes(self.bytes, offset, buffer))
    }
}

// What becomes of a read.
#[derive(Clone, Copy)]
enum Bad {
    Refused,
    Short,
}

// Bytes in memory of which nothing is told. Read `bad` of them is refused, or lacks its last byte. Each read waits
// until as many as are wanted run at once.
#[derive(Drop)]
struct Silent<'a> {
    bytes: &'a [u8],
    reads: AtomicU64,
    bad: u64,
    how: Bad,
    readers: Rendezvous,
}

impl<'a> Silent<'a> {
    // No read is bad.
    fn good(bytes: &'a [u8], wanted: u32) -> Silent<'a> {
        Silent {
            readers: Rendezvous::new(wanted),
            ..Silent::new(bytes, u64::MAX, Bad::Refused)
        }
    }

    fn new(bytes: &'a [u8], bad: u64, how: Bad) -> Silent<'a> {
        Silent {
            bytes,
            reads: AtomicU64::new(0),
            bad,
            how,
            readers: Rendezvous::new(0),
        }
    }
}

impl<'a> Source for Silent<'a> {
    ghost told = { λ source. None };

    ghost sure = { λ _ _. ⊥ };

    fn read_at(&self, offset: u64, buffer: &mut [u8]) -> Option<usize> {
        let count = read_bytes(self.bytes, offset, buffer);
        let read = self.reads.fetch_add(1, Ordering::SeqCst);
        self.readers.arrive(read);
        if read != self.bad {
            return Some(count);
        }
        match self.how {
            Bad::Refused => None,
            Bad::Short => Some(count.saturating_sub(1)),
        }
    }
}

// Hashes so many bytes of a source from a place on.
fn hash_part<R: Threads + Wait + Sync, S: Source + Sync, G: Gate + Sync>(
    rt: &R,
    alloc: Global,
    source: &S,
    place: u64,
    len: u64,
    grain: u64,
    workers: u32,
    buffer: &mut [u8],
    gate: &G,
) -> Result<Option<Report>, BoardFault>
    requires { (all : List ℕ) → S.told source.now ≡ Some all → place + len ≤ length all }
{
    let place = place.min(1 << 40);
    let len = len.min(1 << 40);
    let first = place / CHUNK_LEN as u64;
    let mode = Mode::hash();
    hash_source(
        rt, alloc, source, place, len, mode, first, grain, workers, buffer, gate,
    )
}

// The same of a source that tells nothing, in spans of two chunks.
fn read_part<R: Threads + Wait + Sync, G: Gate + Sync>(
    rt: &R,
    alloc: Global,
    source: &Silent,
    place: u64,
    len: u64,
    workers: u32,
    gate: &G,
) -> Result<Option<Report>, BoardFault> {
    let mut buffer = [0; 64 * 2048];
    hash_part(rt, alloc, source, place, len, 2, workers, &mut buffer, gate)
}

// The same, where memory is not refused.
fn find_part<R: Threads + Wait + Abort + Sync, G: Gate + Sync>(
    rt: &R,
    alloc: Global,
    source: &Silent,
    place: u64,
    len: u64,
    workers: u32,
    gate: &G,
) -> Option<Report> {
    read_part(rt, alloc, source, place, len, workers, gate).expect(rt, "an answer")
}

// The report of spans of two chunks.
fn assert_read(rt: &impl Abort, found: Option<Report>, bytes: &[u8], first: u64, workers: u32) {
    assert_that(rt, bytes.len() <= 1 << 30);
    let spans = chunks(bytes.len() as u64).div_ceil(2);
    let report = found.expect(rt, "a root");
    assert_report(rt, &report, bytes, first, spans as usize, workers);
}

// Reads the bytes that a source has from a place on, and compares the report.
fn assert_found<R: Threads + Wait + Abort + Sync, G: Gate + Sync>(
    rt: &R,
    alloc: Global,
    source: &Silent,
    place: u64,
    part: &[u8],
    workers: u32,
    gate: &G,
) {
    let len = part.len() as u64;
    let found = find_part(rt, alloc, source, place, len, workers, gate);
    assert_read(rt, found, part, place / 1024, workers);
}

// Reads a part of some bytes by 1, 2, 3, 4 and 64 workers.
fn assert_part<R: Threads + Wait + Abort + Sync, G: Gate + Sync>(
    rt: &R,
    alloc: Global,
    bytes: &[u8],
    place: usize,
    len: usize,
    gate: &G,
) {
    let part = bytes
        .get(place..place.saturating_add(len))
        .expect(rt, "a part");
    for workers in [1u32, 2, 3, 4, 64] {
        let source = Silent::good(bytes, 0);
        assert_found(rt, alloc, &source, place as u64, part, workers, gate);
    }
}

// Reads parts from a place on, of each length around spans.
fn assert_lengths<R: Threads + Wait + Abort + Sync, G: Gate + Sync>(
    rt: &R,
    alloc: Global,
    place: usize,
    gate: &G,
) {
    let input = pattern(rt, alloc, 21 * 1024);
    for len in [
        0usize, 1, 1023, 1024, 1025, 2047, 2048, 2049, 4095, 4096, 4097, 5127, 6143, 6144, 6145,
        8191, 8192, 8193, 10_239, 10_240, 10_241, 12_287, 12_288, 12_289,
    ] {
        assert_part(rt, alloc, input.as_slice(), place, len, gate);
    }
}

// The second of two regions: its chunks are numbered from its own first, and what stands after it is not read.
#[test]
fn each_length_of_a_region_after_another(rt: HostRuntime) {
    assert_lengths(&rt, rt.alloc(), 8 * 1024, &Yielding);
}

// Bytes that are not there are not made up.
#[test]
fn too_few_bytes(rt: HostRuntime) {
    let input = pattern(&rt, rt.alloc(), 9 * 1024);
    let source = Silent::good(input.as_slice(), 0);
    for len in [9 * 1024 + 1u64, 10 * 1024, 13 * 1024] {
        let found = find_part(&rt, rt.alloc(), &source, 0, len, 2, &OpenGate);
        assert_that_for(&rt, len, found.is_none());
    }
}

// Reads so many bytes in spans of `grain` chunks, by a buffer with this room.
fn read_with_room<R: Threads + Wait + Abort + Sync>(
    rt: &R,
    alloc: Global,
    source: &Silent,
    len: usize,
    grain: u64,
    workers: u32,
    room: usize,
) -> Option<Report> {
    let mut buffer = vec![in alloc; 0u8; room].expect(rt, "memory");
    let len = len as u64;
    hash_part(
        rt,
        alloc,
        source,
        0,
        len,
        grain,
        workers,
        &mut buffer,
        &OpenGate,
    )
    .expect(rt, "an answer")
}

// A buffer that is shorter than a span and than a piece takes none.
#[test]
fn too_short_a_buffer(rt: HostRuntime) {
    let input = pattern(&rt, rt.alloc(), MEBIBYTE);
    let source = Silent::good(input.as_slice(), 0);
    for (room, len, grain, is_taken) in [
        (2047, 9 * 1024, 2, false),
        (PIECE_LEN - 1, MEBIBYTE, 1024, false),
        (PIECE_LEN, MEBIBYTE, 1024, true),
    ] {
        let found = read_with_room(&rt, rt.alloc(), &source, len, grain, 1, room);
        assert_same_for(&rt, room, found.is_some(), is_taken);
    }
}

// No more workers run than the buffer has spans for: one here, of four.
#[test]
fn a_room_for_one_span(rt: HostRuntime) {
    let bytes = [7; 9000];
    let told = Told { bytes: &bytes };
    let mut buffer = [0; 4095];
    let found = hash_part(
        &rt,
        rt.alloc(),
        &told,
        0,
        9000,
        2,
        4,
        &mut buffer,
        &Yielding,
    )
    .expect(&rt, "an answer");
    let report = found.expect(&rt, "a root");
    assert_same(&rt, report.shares.as_slice(), [9u64, 0, 0, 0].as_slice());
    assert_read(&rt, Some(report), &bytes, 0, 4);
}

// Each span is read once, by a worker that then passes the gate: none is left to the call that started the workers.
#[test]
fn two_readers_a_thousand_times(rt: HostRuntime) {
    let input = pattern(&rt, rt.alloc(), 64 * 1024);
    let all = input.as_slice();
    for _ in 0..1000usize {
        let source = Silent::good(all, 0);
        let gate = AllAtOnce::new(2);
        assert_found(&rt, rt.alloc(), &source, 0, all, 2, &gate);
        assert_same(
            &rt,
            (source.reads.load(Ordering::SeqCst), gate.calls()),
            (32, 32),
        );
    }
}

// Reads five spans, the last of which has seven bytes of its second chunk.
fn read_five<R: Threads + Wait + Abort + Sync>(
    rt: &R,
    alloc: Global,
    bytes: &[u8],
    bad: u64,
    how: Bad,
    workers: u32,
) -> Option<Report> {
    let source = Silent::new(bytes, bad, how);
    find_part(rt, alloc, &source, 0, 9 * 1024 + 7, workers, &Yielding)
}

#[test]
fn each_read_fails(rt: HostRuntime) {
    let input = pattern(&rt, rt.alloc(), 9 * 1024 + 7);
    let all = input.as_slice();
    for how in [Bad::Refused, Bad::Short] {
        for bad in 0..5u64 {
            for workers in [1u32, 3] {
                let found = read_five(&rt, rt.alloc(), all, bad, how, workers);
                assert_that_for(&rt, bad, found.is_none());
            }
        }
        let found = read_five(&rt, rt.alloc(), all, 5, how, 3);
        assert_read(&rt, found, all, 0, 3);
    }
}

// As many workers read at once as were asked for.
fn assert_reads_at_once<R: Threads + Wait + Abort + Sync>(
    rt: &R,
    alloc: Global,
    part: &[u8],
    workers: u32,
) {
    let source = Silent::good(part, workers);
    assert_found(rt, alloc, &source, 0, part, workers, &OpenGate);
    assert_that_for(rt, workers, source.readers.is_complete());
}

// As many workers are behind the gate at once as were asked for, each with two chunks.
fn assert_gate_at_once<R: Threads + Wait + Abort + Sync>(
    rt: &R,
    alloc: Global,
    part: &[u8],
    workers: u32,
) {
    let source = Silent::good(part, 0);
    let gate = AllAtOnce::new(workers);
    let len = part.len() as u64;
    let found = find_part(rt, alloc, &source, 0, len, workers, &gate);
    assert_that_for(rt, workers, gate.workers.is_complete());
    let report = found.expect(rt, "a root");
    for share in report.shares.iter() {
        assert_same_for(rt, workers, *share, 2);
    }
    assert_read(rt, Some(report), part, 0, workers);
}

#[test]
fn workers_at_once_over_a_source(rt: HostRuntime) {
    let input = pattern(&rt, rt.alloc(), 64 * 2048);
    for workers in [2, 3, 4, 64u32] {
        let part = &input[..workers as usize * 2048];
        assert_reads_at_once(&rt, rt.alloc(), part, workers);
        assert_gate_at_once(&rt, rt.alloc(), part, workers);
    }
}

#[test]
fn refused_runs_over_a_source(rt: HostRuntime) {
    let bytes = [7; 4096];
    let source = Silent::good(&bytes, 0);
    for (len, grain, workers, fault) in [
        (4096u64, 2u64, 0u32, BoardFault::BadWorkers),
        (4096, 2, 65, BoardFault::BadWorkers),
        (4096, 3, 2, BoardFault::BadGrain),
        ((1 << 30) + 1, 1 << 20, 2, BoardFault::TooLarge),
        (1 << 30, 512, 2, BoardFault::TooManySpans),
    ] {
        let found = hash_part(
            &rt,
            rt.alloc(),
            &source,
            0,
            len,
            grain,
            workers,
            &mut [],
            &OpenGate,
        );
        assert_same(&rt, found.err(), Some(fault));
    }
}

// How many of two runs of four workers ended with an answer: one that meets want of memory is made again.
fn answers_of_two<R: Threads + Wait + Abort + Sync>(rt: &R, alloc: Global) -> u32 {
    let bytes = [7; 20 * 1024];
    let source = Silent::good(&bytes, 0);
    let mut answers = 0u32;
    for _ in 0..2usize {
        match read_part(rt, alloc, &source, 0, 20 * 1024, 4, &Yielding) {
            Ok(found) => {
                assert_read(rt, found, &bytes, 0, 4);
                answers = answers.wrapping_add(1);
            }
            Err(fault) => assert_same(rt, fault, BoardFault::Memory),
        }
    }
    answers
}

#[test]
fn refused_memory_of_a_source(rt: HostRuntime) -> Result<(), Fail> {
    assert_that(&rt, answers_of_two(&rt, rt.alloc()) > 0);
    assert_that_for(
        &rt,
        "refused after the last call",
        last_growth(rt.alloc()).is_ok(),
    );
    Ok(())
}

const MEBIBYTE: usize = 1 << 20;

// Reads so many bytes in spans of a mebibyte, of which a worker's part of the buffer takes a quarter: no more workers run
// than there are spans.
fn read_in_pieces<R: Threads + Wait + Abort + Sync>(
    rt: &R,
    alloc: Global,
    source: &Silent,
    len: usize,
    workers: u32,
) -> Option<Report> {
    let parts = len.div_ceil(MEBIBYTE).min(workers as usize);
    let room = PIECE_LEN.saturating_mul(parts);
    read_with_room(rt, alloc, source, len, 1024, workers, room)
}

// Reads all of a part in so many spans and reads.
fn assert_reads<R: Threads + Wait + Abort + Sync>(
    rt: &R,
    alloc: Global,
    part: &[u8],
    workers: u32,
    spans: usize,
    reads: u64,
) {
    let source = Silent::good(part, 0);
    let found = read_in_pieces(rt, alloc, &source, part.len(), workers);
    let report = found.expect(rt, "a root");
    assert_report(rt, &report, part, 0, spans, workers);
    assert_same_for(rt, part.len(), source.reads.load(Ordering::SeqCst), reads);
}

// The last span has a chunk, a piece, a piece and a byte, or a piece and two chunks.
#[test]
fn spans_of_several_pieces(rt: HostRuntime) {
    let input = pattern(&rt, rt.alloc(), 2 * MEBIBYTE + PIECE_LEN + 1025);
    for (len, spans, reads) in [
        (MEBIBYTE - 1, 1, 4),
        (MEBIBYTE, 1, 4),
        (MEBIBYTE + 1, 2, 5),
        (MEBIBYTE + PIECE_LEN, 2, 5),
        (MEBIBYTE + PIECE_LEN + 1, 2, 6),
        (2 * MEBIBYTE + PIECE_LEN + 1025, 3, 10u64),
    ] {
        for workers in [1u32, 2, 4] {
            let part = input.get(..len).expect(&rt, "a part");
            assert_reads(&rt, rt.alloc(), part, workers, spans, reads);
        }
    }
}

// One of six pieces is refused or short, whichever of its span it is.
#[test]
fn each_piece_fails(rt: HostRuntime) {
    let len = MEBIBYTE + PIECE_LEN + 1;
    let input = pattern(&rt, rt.alloc(), len);
    for how in [Bad::Refused, Bad::Short] {
        for bad in 0..7u64 {
            for workers in [1u32, 3] {
                let source = Silent::new(input.as_slice(), bad, how);
                let found = read_in_pieces(&rt, rt.alloc(), &source, len, workers);
                assert_same_for(&rt, bad, found.is_some(), bad == 6);
            }
        }
    }
}
