// Check lines by examples. Helpers end the process where memory or a call fails, so that a test has one way on: at each
// other one all that is alive would be let go of, and each of these steps is proved.

mod asserts;
mod digits;
mod memory;
mod written;

use asserts::{assert_same, assert_same_for, assert_that};
use b3_lines::{Line, LineFault, Lines, first_piece, lines, read_line};
use hex::FromHex;
use std::alloc::{AllocGlobal, Global};
use std::process::Abort;

/// The digits of the BLAKE3 digest of no bytes.
const DIGITS: &str = "af1349b9f5f9a1a6a0404dea36dcc9499bcb25c9adc112b7cc9a93cae41f3262";

fn digest(rt: &impl Abort) -> [u8; 32] {
    <[u8; 32]>::from_hex(DIGITS).expect(rt, "64 digits")
}

/// The bytes of these parts, one after the other.
fn joined<R: AllocGlobal + Abort>(rt: &R, parts: &[&[u8]]) -> Vec<u8> {
    parts.concat(rt.alloc()).expect(rt, "memory")
}

/// The bytes of `before`, the digits and `after`, as a line.
fn line_of<R: AllocGlobal + Abort>(rt: &R, before: &[u8], after: &[u8]) -> Vec<u8> {
    joined(rt, &[before, DIGITS.as_bytes(), after])
}

/// Asserts that a line says the digest of no bytes and this name, shown so.
fn assert_says(rt: &impl Abort, line: &Line, name: &str, shown: &str) {
    assert_that(rt, line.digest == digest(rt));
    assert_same(rt, line.name.as_str(), name);
    assert_same(rt, line.shown.as_str(), shown);
}

/// Asserts that a line or a name is refused by this fault.
fn assert_fault(rt: &impl Abort, found: Option<LineFault>, fault: LineFault, at: &[u8]) {
    assert_same_for(rt, at, found, Some(fault));
}

fn assert_next(rt: &impl Abort, left: &mut Lines<'_>, place: Option<(usize, usize)>, text: &[u8]) {
    assert_same_for(rt, text, left.next(), place);
}

/// Asserts that the lines of a text are at these places, and that there is none after them, also when asked again.
fn assert_places(rt: &impl Abort, text: &[u8], places: &[(usize, usize)]) {
    let mut left = lines(text);
    for place in places {
        assert_next(rt, &mut left, Some(*place), text);
    }
    assert_next(rt, &mut left, None, text);
    assert_next(rt, &mut left, None, text);
}

#[test]
fn first_pieces(rt: HostRuntime) {
    let rows: [(&[u8], Option<(&[u8], &[u8])>); 6] = [
        (b"", None),
        (b"\0", Some((b"", b""))),
        (b"a", Some((b"a", b""))),
        (b"a\0", Some((b"a", b""))),
        (b"a\n\0b", Some((b"a\n", b"b"))),
        (b"\0\0", Some((b"", b"\0"))),
    ];
    for (text, parts) in &rows {
        assert_same_for(&rt, text, first_piece(text, 0), *parts);
    }
}

#[test]
fn places_of_lines(rt: HostRuntime) {
    assert_places(&rt, b"a\n\nb", &[(0, 1), (2, 2), (3, 4)]);
    assert_places(&rt, b"\n", &[(0, 0)]);
    assert_places(&rt, b"", &[]);
    assert_places(&rt, b"a", &[(0, 1)]);
    assert_places(&rt, b"a\n", &[(0, 1)]);
    assert_places(&rt, b"ab\r\n\n", &[(0, 3), (4, 4)]);
    assert_places(&rt, b"\n\n\r", &[(0, 0), (1, 1), (2, 3)]);
}

/// Asserts that a refusal has this number, and says this text in both ways.
fn assert_refusal<R: AllocGlobal + Abort>(rt: &R, fault: LineFault, number: u8, text: &str) {
    assert_same(rt, (fault as u8, fault.reason()), (number, text));
    let shown = fault.to_string(rt.alloc()).expect(rt, "memory");
    assert_same(rt, shown.as_str(), text);
}

#[test]
fn refusals_have_their_numbers_and_texts(rt: HostRuntime) {
    let rows = [
        (1, LineFault::Empty, "empty line"),
        (2, LineFault::NotText, "not text"),
        (3, LineFault::Short, "short line"),
        (4, LineFault::NotDigits, "bad digits"),
        (5, LineFault::NoSpaces, "missing spaces"),
        (6, LineFault::NoName, "no name"),
        (7, LineFault::BadEscape, "bad escape"),
        (8, LineFault::BadCharacter, "bad character"),
        (9, LineFault::Memory, "out of memory"),
    ];
    for (number, fault, text) in rows {
        assert_refusal(&rt, fault, number, text);
    }
}
