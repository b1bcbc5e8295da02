// Lines as they are written, and read back.

use super::asserts::{assert_same, assert_same_for};
use super::{assert_fault, assert_says, digest, line_of};
use b3_lines::{LineFault, read_line, shown_name, write_line, write_tagged};
use std::alloc::AllocGlobal;
use std::process::Abort;

/// Asserts that this line is `before`, the digits and `after`, of `len` bytes, and was written in one growth.
fn assert_written<R: AllocGlobal + Abort>(
    rt: &R,
    line: &Vec<u8>,
    before: &[u8],
    after: &[u8],
    len: usize,
) {
    let want = line_of(rt, before, after);
    assert_same(rt, line.as_slice(), want.as_slice());
    assert_exact(rt, line, len);
}

/// Asserts that a line has so many bytes, and no more room.
fn assert_exact(rt: &impl Abort, line: &Vec<u8>, len: usize) {
    assert_same(rt, line.len(), len);
    assert_same_for(rt, "one growth, of the exact length", line.capacity(), len);
}

/// Asserts that the plain line of this name is `before`, the digits and `after`, of `len` bytes.
fn assert_plain<R: AllocGlobal + Abort>(
    rt: &R,
    name: &str,
    before: &[u8],
    after: &[u8],
    len: usize,
) {
    let line = write_line(rt.alloc(), &digest(rt), name).expect(rt, "a line");
    assert_written(rt, &line, before, after, len);
}

/// Asserts that the tagged line of this name is `before`, the digits and a line feed, of `len` bytes, and reads back.
fn assert_tagged<R: AllocGlobal + Abort>(rt: &R, name: &str, before: &[u8], len: usize) {
    let line = write_tagged(rt.alloc(), &digest(rt), name).expect(rt, "a line");
    assert_written(rt, &line, before, b"\n", len);
    assert_shown(rt, &line[..line.len() - 1], name);
}

/// Asserts that this line says this name, shown as `shown_name` shows it.
fn assert_shown<R: AllocGlobal + Abort>(rt: &R, text: &[u8], name: &str) {
    let shown = shown_name(rt.alloc(), name).expect(rt, "a name");
    assert_read(rt, text, name, shown.as_str());
}

/// Asserts that this line says this name, shown so, and that each of the two was read in one growth.
fn assert_read<R: AllocGlobal + Abort>(rt: &R, text: &[u8], name: &str, shown: &str) {
    let line = read_line(rt.alloc(), text).expect(rt, "a line");
    assert_says(rt, &line, name, shown);
    assert_same_for(
        rt,
        "one growth each, of the exact length",
        (line.name.capacity(), line.shown.capacity()),
        (name.len(), shown.len()),
    );
}

#[test]
fn a_name_with_a_backslash_and_a_line_feed(rt: HostRuntime) {
    assert_plain(&rt, "a\\b\nc", b"\\", b"  a\\\\b\\nc\n", 75);
    let text = line_of(&rt, b"\\", b"  a\\\\b\\nc");
    assert_read(&rt, &text, "a\\b\nc", "\\a\\\\b\\nc");
}

#[test]
fn how_it_is_shown(rt: HostRuntime) {
    let shown = shown_name(rt.alloc(), "a\\b\nc").expect(&rt, "a name");
    assert_same(&rt, shown.as_str(), "\\a\\\\b\\nc");
    assert_same_for(&rt, "one growth, of the exact length", shown.capacity(), 8);
}

#[test]
fn lines_as_they_are_written(rt: HostRuntime) {
    assert_plain(&rt, "x\r", b"\\", b"  x\\r\n", 71);
    assert_plain(&rt, "-", b"", b"  -\n", 68);
    let no_digits = write_line(rt.alloc(), &[], "x").expect(&rt, "a line");
    assert_same(&rt, no_digits.as_slice(), b"  x\n".as_slice());
}

#[test]
fn tagged_lines_as_they_are_written(rt: HostRuntime) {
    assert_tagged(&rt, "-", b"BLAKE3 (-) = ", 78);
    assert_tagged(&rt, "a\\b", b"\\BLAKE3 (a\\\\b) = ", 82);
    assert_tagged(&rt, "a) = b", b"BLAKE3 (a) = b) = ", 83);
    assert_tagged(&rt, "x\r\n", b"\\BLAKE3 (x\\r\\n) = ", 83);
    let no_digits = write_tagged(rt.alloc(), &[], "x").expect(&rt, "a line");
    assert_same(&rt, no_digits.as_slice(), b"BLAKE3 (x) = \n".as_slice());
}

#[test]
fn names_that_no_line_shows(rt: HostRuntime) {
    let alloc = rt.alloc();
    let digest = digest(&rt);
    let rows = [
        ("", LineFault::NoName),
        ("a\u{FFFD}", LineFault::BadCharacter),
        ("\0", LineFault::BadCharacter),
        ("\\\n\0", LineFault::BadCharacter),
    ];
    for (name, fault) in rows {
        let plain = write_line(alloc, &digest, name).err();
        assert_fault(&rt, plain, fault, name.as_bytes());
        let tagged = write_tagged(alloc, &digest, name).err();
        assert_fault(&rt, tagged, fault, name.as_bytes());
    }
}
