// The input of a shelf of real files.

use super::asserts::assert_same;
use super::fakes::{Reads, SharedInput, System};
use super::steps::Step::{Begin, LenHint, Read, ReadAt, Rest};
use super::steps::{Step, assert_input, assert_real};
use b3_check::NoContent;
use b3_files::{INPUT_PATHS, InputPaths, NamedFile};
use std::process::Abort;
use std::sync::atomic::{AtomicU64, Ordering};

#[test]
fn the_input_is_begun_once_and_gives_its_bytes(rt: HostRuntime) {
    assert_real(
        &rt,
        &[
            Read(8, Ok(b"")),
            Begin("a file that is not there", Err(NoContent::Missing)),
            Begin("-", Ok(())),
            Read(8, Ok(b"four")),
            Read(8, Ok(b"")),
            Begin("-", Err(NoContent::CannotRead)),
            Read(8, Ok(b"")),
        ],
    );
}

pub const NOT_SHOWN: InputPaths<'static> = InputPaths {
    file: "a file that is not there",
    position: "another",
};

pub const SHOWN: InputPaths<'static> = InputPaths {
    file: "input",
    position: "position",
};

// The paths by which `proc(5)` of Linux shows standard input, which is descriptor 0.
#[test]
fn the_input_is_looked_up_by_its_descriptor(rt: HostRuntime) {
    assert_same(&rt, INPUT_PATHS.file, "/proc/self/fd/0");
    assert_same(&rt, INPUT_PATHS.position, "/proc/self/fdinfo/0");
}

// What the system shows of an input that stands at the fourth byte of a file.
pub const INPUT_AT_3: [NamedFile<'static>; 2] = [
    NamedFile {
        name: "input",
        content: b"0123456789",
    },
    NamedFile {
        name: "position",
        content: b"pos:\t3\nflags:\t0100000\n",
    },
];

// What is asked of an input that stands there, and where it stands afterwards.
fn assert_input_at_3<'x>(rt: &'x impl Abort, steps: &'x [Step<'x>], end: u64) {
    let offset = AtomicU64::new(3);
    let input = SharedInput {
        content: b"0123456789",
        offset: &offset,
        reads: &Reads::plain(),
    };
    let system = System::new(&INPUT_AT_3, Reads::bytewise(1));
    assert_input(rt, &system, input, SHOWN, steps);
    assert_same(rt, offset.load(Ordering::SeqCst), end);
}

// An input that is a plain file is read at offsets from its position on, and is at its end afterwards.
#[test]
fn an_input_that_is_a_plain_file_is_read_at_offsets(rt: HostRuntime) {
    let begun = [
        Begin("-", Ok(())),
        LenHint(7),
        Read(2, Ok(b"34")),
        LenHint(5),
    ];
    assert_input_at_3(&rt, &begun, 5);
    let at_offsets = [
        Begin("-", Ok(())),
        Read(2, Ok(b"34")),
        ReadAt(2, Some(b"789")),
    ];
    assert_input_at_3(&rt, &at_offsets, 10);
    // What was read at offsets is read in order still.
    let in_order = [
        Begin("-", Ok(())),
        Read(2, Ok(b"34")),
        Rest(b"56789"),
        Read(1, Ok(b"5")),
        Rest(b"6789"),
        Begin("-", Err(NoContent::CannotRead)),
    ];
    assert_input_at_3(&rt, &in_order, 10);
}

// What is shown there is not the offset of a plain file: the input is read in order alone.
fn assert_in_order<'x>(
    rt: &'x impl Abort,
    name: &'x str,
    content: &'x [u8],
    other_name: &'x str,
    other: &'x [u8],
) {
    let shown = [
        NamedFile { name, content },
        NamedFile {
            name: other_name,
            content: other,
        },
    ];
    let input = SharedInput {
        content: b"five!",
        offset: &AtomicU64::new(0),
        reads: &Reads::plain(),
    };
    let system = System::new(&shown, Reads::plain());
    let steps = [
        Begin("-", Ok(())),
        LenHint(0),
        ReadAt(0, None),
        Read(8, Ok(b"five!")),
    ];
    assert_input(rt, &system, input, SHOWN, &steps);
}

#[test]
fn an_input_of_which_no_offset_is_known_is_read_in_order(rt: HostRuntime) {
    assert_in_order(&rt, "input", b"", "position", b"pos:\t0\n");
    assert_in_order(&rt, "input", b"four", "position", b"");
    assert_in_order(&rt, "input", b"four", "position", b"pos:\t\n");
    assert_in_order(&rt, "input", b"four", "position", b"offset:\t0\n");
    assert_in_order(&rt, "input", b"four", "another", b"pos:\t0\n");
    assert_in_order(&rt, "another", b"four", "position", b"pos:\t0\n");
}
