// A shelf of real files whose reads fail, give little, or are interrupted several times in a row.

use super::asserts::{assert_same, assert_that};
use super::fakes::{BUSY, FIFO, Reads, SharedInput, System};
use super::files::{DIGEST, EMPTY, FOUR, counted};
use super::inputs::{INPUT_AT_3, NOT_SHOWN, SHOWN};
use super::steps::Step::{Begin, HashWhole, Lacks, Read, ReadAt};
use super::steps::{Step, assert_files, assert_input};
use b3_check::{CannotRead, NoContent};
use b3_files::NamedFile;
use std::process::Abort;
use std::sync::atomic::AtomicU64;

const FILES: [NamedFile<'static>; 5] = [
    NamedFile {
        name: "a",
        content: b"four",
    },
    NamedFile {
        name: "b",
        content: b"other",
    },
    NamedFile {
        name: BUSY,
        content: b"told later",
    },
    NamedFile {
        name: "closed",
        content: b"not told",
    },
    NamedFile {
        name: "empty",
        content: b"",
    },
];

// What is asked of these files and of an input of the bytes "more", where reads of both meet with the same.
fn assert_both<'x>(
    rt: &'x impl Abort,
    of_files: Reads,
    of_input: &'x Reads,
    steps: &'x [Step<'x>],
) {
    let input = SharedInput {
        content: b"more",
        offset: &AtomicU64::new(0),
        reads: of_input,
    };
    assert_input(rt, &System::new(&FILES, of_files), input, NOT_SHOWN, steps);
}

// The first read fails; then nothing is begun.
#[test]
fn a_first_read_in_order_fails(rt: HostRuntime) {
    let steps = [
        Begin("a", Ok(())),
        Read(8, Err(CannotRead)),
        Read(8, Ok(b"")),
        Begin("-", Ok(())),
        Read(8, Err(CannotRead)),
        Read(8, Ok(b"")),
    ];
    assert_both(
        &rt,
        Reads::failing_after(0),
        &Reads::failing_after(0),
        &steps,
    );
}

// The read that would say that the file ends fails.
#[test]
fn a_last_read_in_order_fails(rt: HostRuntime) {
    let steps = [
        Begin("a", Ok(())),
        Read(8, Ok(b"four")),
        Read(8, Err(CannotRead)),
        Begin("-", Ok(())),
        Read(8, Ok(b"more")),
        Read(8, Err(CannotRead)),
    ];
    assert_both(
        &rt,
        Reads::whole_before_a_fault(),
        &Reads::whole_before_a_fault(),
        &steps,
    );
}

// What is read of a file of four bytes, at an offset and beside others, where a read fails after so many. Four reads give
// the four bytes. A fifth gives the end, which is known beside others, as the file tells it.
fn assert_fails_after(rt: &impl Abort, before_fault: u64) {
    let content = if before_fault > 4 {
        Some(b"four".as_slice())
    } else {
        None
    };
    let digest = if before_fault > 3 { Some(FOUR) } else { None };
    assert_files(
        rt,
        &System::new(&FILES, Reads::failing_after(before_fault)),
        &[Begin("a", Ok(())), ReadAt(0, content)],
    );
    assert_files(
        rt,
        &System::new(&FILES, Reads::failing_after(before_fault)),
        &[HashWhole("a", 4, digest)],
    );
}

#[test]
fn each_read_at_an_offset_fails(rt: HostRuntime) {
    for before_fault in 0..6 {
        assert_fails_after(&rt, before_fault);
    }
}

// What is read of an input at an offset, where reads of the file that is opened anew and of the input meet with these.
fn assert_input_read<'x>(rt: &'x impl Abort, of_files: Reads, of_input: &'x Reads, is_given: bool) {
    let content = if is_given {
        Some(b"3456789".as_slice())
    } else {
        None
    };
    let input = SharedInput {
        content: b"0123456789",
        offset: &AtomicU64::new(3),
        reads: of_input,
    };
    let steps = [Begin("-", Ok(())), ReadAt(0, content)];
    assert_input(
        rt,
        &System::new(&INPUT_AT_3, of_files),
        input,
        SHOWN,
        &steps,
    );
}

fn assert_input_fails_after(rt: &impl Abort, before_fault: u64, is_given: bool) {
    let reads = Reads::failing_after(before_fault);
    assert_input_read(rt, Reads::plain(), &reads, is_given);
}

// Eight reads of one byte give the seven bytes of the input and its end.
#[test]
fn each_read_of_an_input_at_an_offset_fails(rt: HostRuntime) {
    for before_fault in 0..8 {
        assert_input_fails_after(&rt, before_fault, false);
    }
    assert_input_fails_after(&rt, 8, true);
}

fn assert_reopened_fails_after(rt: &impl Abort, before_fault: u64, is_given: bool) {
    let mut reads = Reads::failing_after(before_fault);
    reads.most = 64;
    assert_input_read(rt, reads, &Reads::plain(), is_given);
}

// Two reads give the text of the position, and two the rest of the file and its end.
#[test]
fn each_read_of_an_input_that_is_opened_anew_fails(rt: HostRuntime) {
    assert_reopened_fails_after(&rt, 2, false);
    assert_reopened_fails_after(&rt, 3, false);
    assert_reopened_fails_after(&rt, 4, true);
}

// How often a read is interrupted in a row, and whether it is let through: a call is made a thousand times at most.
const INTERRUPTIONS: [(u32, bool); 4] = [(1, true), (300, true), (999, true), (1_000, false)];

#[test]
fn an_interrupted_read_in_order_is_made_again(rt: HostRuntime) {
    for (interruptions, is_given) in INTERRUPTIONS {
        let of_file = if is_given {
            Ok(b"four".as_slice())
        } else {
            Err(CannotRead)
        };
        let of_input = if is_given {
            Ok(b"more".as_slice())
        } else {
            Err(CannotRead)
        };
        let steps = [
            Begin("a", Ok(())),
            Read(8, of_file),
            Begin("-", Ok(())),
            Read(8, of_input),
        ];
        assert_both(
            &rt,
            Reads::interrupted(interruptions),
            &Reads::interrupted(interruptions),
            &steps,
        );
    }
}

// What is read of 1,025 bytes, at an offset and beside others, where each read is interrupted so often.
fn assert_interrupted<'x>(
    rt: &'x impl Abort,
    content: &'x [u8],
    interruptions: u32,
    is_given: bool,
) {
    let named = [NamedFile { name: "a", content }];
    assert_that(rt, content.len() == 1_025);
    let rest = if is_given {
        Some(&content[1_000..])
    } else {
        None
    };
    let digest = if is_given { Some(DIGEST) } else { None };
    assert_files(
        rt,
        &System::new(&named, Reads::interrupted(interruptions)),
        &[Begin("a", Ok(())), ReadAt(1_000, rest)],
    );
    assert_files(
        rt,
        &System::new(&named, Reads::interrupted(interruptions)),
        &[HashWhole("a", 1_025, digest)],
    );
}

#[test]
fn an_interrupted_read_at_an_offset_is_made_again(rt: HostRuntime) {
    let content = counted(&rt, 1_025);
    for (interruptions, is_given) in INTERRUPTIONS {
        assert_interrupted(&rt, content.as_slice(), interruptions, is_given);
    }
}

// Else a file could get the number of a closed standard input, and few descriptors would not do for many names.
#[test]
fn a_file_is_closed_before_the_next_is_opened(rt: HostRuntime) {
    let system = System::new(&FILES, Reads::plain());
    let steps = [
        Begin("a", Ok(())),
        Begin("b", Ok(())),
        Begin("-", Ok(())),
        Begin("a", Ok(())),
        Begin("missing", Err(NoContent::Missing)),
        Begin("b", Ok(())),
    ];
    assert_files(&rt, &system, &steps);
    assert_same(&rt, system.overlapping(), 0);
}

#[test]
fn a_file_that_may_not_be_read_is_not_missing(rt: HostRuntime) {
    let steps = [
        Begin("closed", Err(NoContent::CannotRead)),
        Begin("missing", Err(NoContent::Missing)),
        Lacks("closed", Some(NoContent::CannotRead)),
        Lacks("missing", Some(NoContent::Missing)),
        Lacks("a", None),
    ];
    assert_files(&rt, &System::new(&FILES, Reads::plain()), &steps);
}

// Other threads may hold what it lacks: so it is begun again in its turn.
#[test]
fn a_file_that_cannot_be_opened_for_now_is_not_given_up(rt: HostRuntime) {
    let steps = [
        HashWhole(BUSY, u64::MAX, None),
        Lacks(BUSY, None),
        Begin(BUSY, Err(NoContent::CannotRead)),
    ];
    assert_files(&rt, &System::new(&FILES, Reads::plain()), &steps);
}

// It would wait for a writer, where others have names to hash.
#[test]
fn a_fifo_is_not_opened_before_its_turn(rt: HostRuntime) {
    let steps = [HashWhole(FIFO, u64::MAX, None), Lacks(FIFO, None)];
    assert_files(&rt, &System::new(&FILES, Reads::plain()), &steps);
}

// It is hashed where one read gives no byte; that read may be interrupted, and may fail.
#[test]
fn an_empty_file_is_hashed_beside_others(rt: HostRuntime) {
    let rows = [
        (Reads::plain(), Some(EMPTY), 1),
        (Reads::interrupted(2), Some(EMPTY), 3),
        (Reads::failing_after(0), None, 1),
    ];
    for (reads, digest, calls) in rows {
        let system = System::new(&FILES, reads);
        assert_files(&rt, &system, &[HashWhole("empty", 0, digest)]);
        assert_same(&rt, system.reads.calls(), calls);
    }
}

// One that tells another length than it has, as those of `/proc` and one that was changed meanwhile, is read until a read
// gives none.
#[test]
fn a_file_that_tells_another_length_is_hashed_whole(rt: HostRuntime) {
    for (told, calls) in [(0, 2), (3, 2), (4, 1), (5, 2), (1 << 20, 2)] {
        let system = System::telling(&FILES, told);
        assert_files(&rt, &system, &[HashWhole("a", u64::MAX, Some(FOUR))]);
        assert_same(&rt, system.reads.calls(), calls);
    }
}

// The read of a folder that replaced a file after its name was asked fails. So does one at an offset of a FIFO, a socket or
// a terminal: none of them is waited for.
#[test]
fn a_file_that_was_replaced_is_not_hashed(rt: HostRuntime) {
    let system = System::replaced(&FILES);
    assert_files(&rt, &system, &[HashWhole("a", 8, None)]);
    assert_same(&rt, system.reads.calls(), 0);
}
