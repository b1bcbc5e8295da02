// The real input: a plain file is opened anew, and stands where it stood.

use super::asserts::{assert_same, assert_that};
use super::files::{opened_program, own_program};
use b3_files::{DiskFile, Input, InputPaths, RealInput};
use std::io;
use std::os::unix::fs::FileExt;
use std::process::Abort;
use std::rt::Files;

// The path by which the system shows something of an open file of this number.
fn shown(rt: &(impl AllocGlobal + Abort), folder: &str, number: u64) -> String {
    format!(in rt.alloc(); "/proc/self/{folder}/{number}").expect(rt, "memory")
}

// A file has this content.
fn assert_content<F: DiskFile>(rt: &impl Abort, file: &mut F, content: &[u8]) {
    let mut buffer = [0; 1_237];
    assert_same(rt, file.plain_len(), Some(content.len() as u64));
    assert_same(rt, file.read(&mut buffer).expect(rt, "a read"), 1_237);
    assert_that(rt, content.starts_with(&buffer));
}

// Whether the file at these paths stands 1,237 bytes on. It is opened anew then, and has this content.
fn is_reopened_by<R: Files + Abort>(rt: &R, content: &[u8], paths: InputPaths<'_>) -> bool
where
    R::File: FileExt,
{
    let Some((mut file, 1_237)) = RealInput::new(rt, b"".as_slice(), paths).reopen() else {
        return false;
    };
    assert_content(rt, &mut file, content);
    true
}

// The same of the open file of this number.
fn is_reopened<R: Files + AllocGlobal + Abort>(rt: &R, content: &[u8], number: u64) -> bool
where
    R::File: FileExt,
{
    let file = shown(rt, "fd", number);
    let position = shown(rt, "fdinfo", number);
    let paths = InputPaths {
        file: file.as_str(),
        position: position.as_str(),
    };
    is_reopened_by(rt, content, paths)
}

// How many of the open files are opened anew.
fn count_reopened<R: Files + AllocGlobal + Abort>(rt: &R, content: &[u8]) -> u64
where
    R::File: FileExt,
{
    let mut reopened = 0u64;
    for number in 3..64 {
        reopened = reopened.saturating_add(u64::from(is_reopened(rt, content, number)));
    }
    reopened
}

// Reads the first 1,237 bytes of a file.
fn read_first<F: io::Read>(rt: &impl Abort, file: &mut F) {
    let count = file.read(&mut [0; 1_237]).expect(rt, "a read");
    assert_same(rt, count, 1_237);
}

// The number of the file is not known, but no other stands at this offset.
#[test]
fn a_real_input_is_opened_anew_at_its_position(rt: HostRuntime) {
    let content = own_program(&rt);
    let mut opened = opened_program(&rt);
    read_first(&rt, &mut opened);
    assert_same(&rt, count_reopened(&rt, content.as_slice()), 1);
}

#[test]
fn a_device_is_no_file_to_open_anew(rt: HostRuntime) {
    let paths = InputPaths {
        file: "/dev/null",
        position: "/proc/self/fdinfo/0",
    };
    assert_that(
        &rt,
        RealInput::new(&rt, b"".as_slice(), paths)
            .reopen()
            .is_none(),
    );
}
