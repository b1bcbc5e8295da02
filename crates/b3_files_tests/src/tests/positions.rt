// Where standard input stands after its plain file was read at offsets.

ghost use Rattle.std.specs.Prelude.{◌<◌};

use super::asserts::{assert_same, assert_same_for, assert_that, assert_that_for};
use super::fakes::rest_from;
use super::files::counted;
use b3_check::Shelf;
use b3_files::{FileShelf, Input, MemoryDisk, MemoryFile, Stream};
use std::alloc::Global;
use std::io::{self, ErrorKind};
use std::process::Abort;
use std::sync::atomic::{AtomicBool, AtomicU64, Ordering};
use std::thread::{Threads, for_each_mut};

/// What befell an input.
#[derive(Drop)]
struct Moves {
    // how many bytes were read
    position: AtomicU64,
    calls: AtomicU64,
    // how many reads are let through before one that fails
    before_fault: u64,
    // whether the first read is held until it is let go
    is_held: AtomicBool,
    // how far the position had moved when it was let go
    position_then: AtomicU64,
}

impl Moves {
    fn failing_after(before_fault: u64) -> Moves {
        Moves {
            position: AtomicU64::new(0),
            calls: AtomicU64::new(0),
            before_fault,
            is_held: AtomicBool::new(false),
            position_then: AtomicU64::new(0),
        }
    }

    fn plain() -> Moves {
        Moves::failing_after(u64::MAX)
    }

    fn holding() -> Moves {
        Moves {
            is_held: AtomicBool::new(true),
            ..Moves::plain()
        }
    }

    // Waits until the first read is let go, though not for ever.
    fn hold(&self) {
        for _turn in 0..1u64 << 32 {
            if !self.is_held.load(Ordering::SeqCst) {
                return;
            }
        }
    }

    // Waits until the first read is held, though not for ever.
    fn await_first(&self) {
        for _turn in 0..1u64 << 32 {
            if self.calls.load(Ordering::SeqCst) > 0 {
                return;
            }
        }
    }

    fn let_go(&self) {
        self.position_then.store(self.position(), Ordering::SeqCst);
        self.is_held.store(false, Ordering::SeqCst);
    }

    fn position(&self) -> u64 {
        self.position.load(Ordering::SeqCst)
    }

    fn position_then(&self) -> u64 {
        self.position_then.load(Ordering::SeqCst)
    }
}

/// An input that is this file, and which gives other bytes and does not end: so a byte that is read of it twice counts
/// twice.
#[derive(Clone, Copy)]
struct Endless<'a> {
    file: &'a [u8],
    moves: &'a Moves,
}

impl Stream for Endless<'_> {
    ghost use Rattle.std.specs.Prelude.{false, []};

    ghost tells = { false };

    ghost content = { λ _. [] };

    ghost position = { λ _. 0 };

    fn read(&mut self, buffer: &mut [u8]) -> io::Result<usize> {
        let call = self.moves.calls.fetch_add(1, Ordering::SeqCst);
        if call == self.moves.before_fault {
            return Err(io::Error::from(ErrorKind::Other));
        }
        if call == 0 {
            self.moves.hold();
        }
        buffer.fill(0xff);
        let count = buffer.len();
        self.moves
            .position
            .fetch_add(count as u64, Ordering::SeqCst);
        Ok(count)
    }
}

impl<'a> Input for Endless<'a> {
    type File = MemoryFile<'a>;

    fn reopen(&self) -> Option<(MemoryFile<'a>, u64)> {
        Some((MemoryFile::new(self.file), 0))
    }
}

// How long a file is, and lengths of reads of it: of a few bytes, of more than the position moves by in one read, and of
// more than the file has.
const LEN: u64 = 250_000;

const LENS: [usize; 7] = [2, 65_535, 65_536, 65_537, 0, 200_000, 300_000];

// A buffer of so many bytes, each of them this one.
fn buffer_of(rt: &impl Abort, alloc: Global, len: usize, byte: u8) -> Vec<u8> {
    let mut buffer = Vec::new(alloc);
    buffer.resize(len, byte).expect(rt, "memory");
    buffer
}

// The file's bytes from this offset on are read, as far as there are some.
fn assert_filled<S: Shelf>(
    rt: &impl Abort,
    alloc: Global,
    shelf: &S,
    content: &[u8],
    offset: usize,
    len: usize,
) {
    let rest = rest_from(content, offset as u64);
    let wanted = &rest[..len.min(rest.len())];
    let mut buffer = buffer_of(rt, alloc, len, 0xfe);
    let given = shelf.read_at(offset as u64, buffer.as_mut_slice());
    assert_same_for(rt, (len, offset), given, Some(wanted.len()));
    assert_that_for(rt, (len, offset), buffer.as_slice().starts_with(wanted));
}

// A shelf whose input is this one, at its beginning.
fn begun<'a>(rt: &impl Abort, input: Endless<'a>) -> FileShelf<MemoryDisk<'a>, Endless<'a>> {
    let mut shelf = FileShelf::new(MemoryDisk::new(&[]), input);
    assert_that(rt, shelf.begin("-").is_ok());
    shelf
}

// Each of these reads at an offset moves the position by its length.
fn assert_moved_by_lens<S: Shelf>(
    rt: &impl Abort,
    alloc: Global,
    shelf: &S,
    file: &[u8],
    offset: usize,
    moves: &Moves,
) {
    let mut due = 0u64;
    for len in LENS {
        assert_filled(rt, alloc, shelf, file, offset, len);
        due = due.wrapping_add(len as u64);
        assert_same(rt, moves.position(), due);
    }
}

fn assert_moved_at(rt: &impl Abort, alloc: Global, file: &[u8], offset: usize) {
    let moves = Moves::plain();
    let input = Endless {
        file,
        moves: &moves,
    };
    assert_moved_by_lens(rt, alloc, &begun(rt, input), file, offset, &moves);
}

#[test]
fn each_read_moves_the_position_by_its_length(rt: HostRuntime) {
    let content = counted(&rt, LEN);
    for offset in [0, 1, 49_999, 184_463, 184_464, 184_465, 250_000] {
        assert_moved_at(&rt, rt.alloc(), content.as_slice(), offset);
    }
}

// What a read of a shelf's input gives.
fn given_by<S: Shelf>(rt: &impl Abort, alloc: Global, shelf: &S) -> Option<usize> {
    let mut buffer = buffer_of(rt, alloc, 200_000, 0);
    shelf.read_at(0, buffer.as_mut_slice())
}

// What that read gives, and how many reads of the input there were, where one of them fails after so many.
fn read_failing_after(
    rt: &impl Abort,
    alloc: Global,
    file: &[u8],
    before_fault: u64,
) -> (Option<usize>, u64) {
    let moves = Moves::failing_after(before_fault);
    let input = Endless {
        file,
        moves: &moves,
    };
    let given = given_by(rt, alloc, &begun(rt, input));
    (given, moves.calls.load(Ordering::SeqCst))
}

// How many reads of the input there are where none fails.
fn calls_without_a_fault(rt: &impl Abort, alloc: Global, file: &[u8]) -> u64 {
    let (given, calls) = read_failing_after(rt, alloc, file, u64::MAX);
    assert_that(rt, given == Some(200_000) && 1 <= calls && calls < 1_000);
    calls
}

fn assert_fails_after(rt: &impl Abort, alloc: Global, file: &[u8], before_fault: u64) {
    let (given, _calls) = read_failing_after(rt, alloc, file, before_fault);
    assert_same(rt, given, None);
}

#[test]
fn each_read_that_moves_the_position_fails(rt: HostRuntime) {
    let content = counted(&rt, LEN);
    for before_fault in 0..calls_without_a_fault(&rt, rt.alloc(), content.as_slice()) {
        assert_fails_after(&rt, rt.alloc(), content.as_slice(), before_fault);
    }
}

// How many bytes each of many workers reads, at an offset of its own.
const PART_LEN: usize = 70_000;

// How many there are: one of two threads reads half of them.
const PARTS: usize = 40;

// How many bytes these are.
const ALL_LEN: u64 = (PARTS * PART_LEN) as u64;

const LENS_OF_PARTS: [usize; PARTS] = [PART_LEN; PARTS];

// Reads the parts of a shelf's file by so many threads. Where the first read of the input is held, the second half of
// the parts is read then.
fn fill_parts<R: Threads + Sync, S: Shelf + Sync>(
    rt: &R,
    shelf: &S,
    parts: &mut [Vec<u8>],
    threads: usize,
    moves: &Moves,
)
    requires { 0 < threads }
{
    let is_held = moves.is_held.load(Ordering::SeqCst);
    let (half, last) = (parts.len() / 2, parts.len().saturating_sub(1));
    for_each_mut(
        rt,
        parts,
        threads,
        &|place, part: &mut Vec<u8>| {
            if is_held && place == half {
                moves.await_first();
            }
            let offset = (place as u64).wrapping_mul(PART_LEN as u64);
            let _given = shelf.read_at(offset, part.as_mut_slice());
            if is_held && place == last {
                moves.let_go();
            }
        },
    );
}

// So many zeros for each part.
fn parts_of(rt: &impl Abort, alloc: Global, lens: &[usize]) -> Vec<Vec<u8>> {
    let mut parts = Vec::new(alloc);
    for len in lens {
        let part = buffer_of(rt, alloc, *len, 0);
        parts.push(part).expect(rt, "memory");
    }
    parts
}

// Reads the parts of a shelf's file.
fn assert_parts<R: Threads + Abort + Sync, S: Shelf + Sync>(
    rt: &R,
    shelf: &S,
    content: &[u8],
    parts: &mut [Vec<u8>],
    threads: usize,
    moves: &Moves,
)
    requires { 0 < threads }
{
    fill_parts(rt, shelf, parts, threads, moves);
    for (part, wanted) in parts.iter().zip(content.chunks(PART_LEN)) {
        assert_that_for(rt, threads, wanted.starts_with(part.as_slice()));
    }
}

// Reads the parts of a file, which have these lengths.
fn read_parts<R: Threads + Abort + Sync>(
    rt: &R,
    alloc: Global,
    content: &[u8],
    lens: &[usize],
    threads: usize,
    moves: &Moves,
)
    requires { 0 < threads }
{
    let mut parts = parts_of(rt, alloc, lens);
    let input = Endless {
        file: content,
        moves,
    };
    let shelf = begun(rt, input);
    assert_parts(rt, &shelf, content, parts.as_mut_slice(), threads, moves);
}

// Each part is moved once, whoever moves it, and nothing is due when all have ended.
#[test]
fn many_threads_move_the_position_by_all_that_they_read(rt: HostRuntime) {
    let content = counted(&rt, ALL_LEN);
    for threads in [1, 2, 4, 8] {
        let moves = Moves::plain();
        read_parts(
            &rt,
            rt.alloc(),
            content.as_slice(),
            &LENS_OF_PARTS,
            threads,
            &moves,
        );
        assert_same_for(&rt, threads, moves.position(), ALL_LEN);
    }
}

// While a read of the input takes long, calls leave what they read to it, and later ones move the position themselves.
#[test]
fn no_call_waits_for_the_one_that_moves_the_position(rt: HostRuntime) {
    let content = counted(&rt, ALL_LEN);
    let moves = Moves::holding();
    read_parts(
        &rt,
        rt.alloc(),
        content.as_slice(),
        &LENS_OF_PARTS,
        2,
        &moves,
    );
    assert_that(&rt, !moves.is_held.load(Ordering::SeqCst));
    let position_then = moves.position_then();
    assert_that_for(
        &rt,
        position_then,
        0 < position_then && position_then < ALL_LEN / 2,
    );
    assert_same(&rt, moves.position(), ALL_LEN);
}

// Nothing is left to a call with a short buffer: what is read beside it is moved while it is held.
#[test]
fn a_short_read_moves_the_position_for_itself(rt: HostRuntime) {
    let content = counted(&rt, 2 * PART_LEN as u64);
    let moves = Moves::holding();
    read_parts(
        &rt,
        rt.alloc(),
        content.as_slice(),
        &[1, PART_LEN],
        2,
        &moves,
    );
    assert_same(&rt, moves.position_then(), PART_LEN as u64);
    assert_same(&rt, moves.position(), PART_LEN as u64 + 1);
}
