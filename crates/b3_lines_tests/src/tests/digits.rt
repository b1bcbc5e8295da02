// The digits of lines beside those of the crate `hex`, and the names that are searched once more.

use super::asserts::{assert_same, assert_same_for, assert_that, assert_that_for};
use super::{DIGITS, assert_fault, joined, line_of};
use b3_lines::{LineFault, holds_bad_character, read_line, write_line};
use hex::FromHex;
use std::alloc::AllocGlobal;
use std::process::Abort;

/// Asserts that a line with this byte in the place of one of its digits is read as `hex` reads its digits.
fn assert_digit<R: AllocGlobal + Abort>(rt: &R, place: usize, byte: u8) {
    let mut digits = joined(rt, &[DIGITS.as_bytes()]);
    if let Some(digit) = digits.get_mut(place) {
        *digit = byte;
    }
    let want = match <[u8; 32]>::from_hex(digits.as_slice()) {
        Ok(digest) => Ok(digest),
        Err(_) if byte >= 128 => Err(LineFault::NotText),
        Err(_) => Err(LineFault::NotDigits),
    };
    let text = joined(rt, &[&digits, b"  x"]);
    let found = read_line(rt.alloc(), &text).map(|line| line.digest);
    assert_that_for(rt, (byte, place), found == want);
}

/// The first byte is left out, which may be a mark.
#[test]
fn each_byte_as_a_digit(rt: HostRuntime) {
    for place in [1, 2, 30, 31, 32, 62, 63] {
        for byte in 0..=255u8 {
            assert_digit(&rt, place, byte);
        }
    }
}

/// Asserts that the line of these bytes is what `hex` gives, and a name.
fn assert_digits<R: AllocGlobal + Abort>(rt: &R, bytes: &[u8]) {
    let digits = hex::encode(rt.alloc(), bytes).expect(rt, "digits");
    let want = joined(rt, &[digits.as_bytes(), b"  x\n"]);
    let line = write_line(rt.alloc(), bytes, "x").expect(rt, "a line");
    assert_same(rt, line.as_slice(), want.as_slice());
}

#[test]
fn digits_of_every_length(rt: HostRuntime) {
    let mut bytes = [0u8; 256];
    for (i, byte) in bytes.iter_mut().enumerate() {
        *byte = i as u8;
    }
    for len in [1, 7, 8, 15, 16, 17, 31, 32, 33, 47, 63, 64, 65, 96, 256] {
        assert_digits(&rt, &bytes[..len]);
    }
}

/// Asserts whether a name of so many letters and this character is bad, alone and in a line.
fn assert_bad<R: AllocGlobal + Abort>(rt: &R, letters: usize, character: &str, bad: bool) {
    let front = vec![in rt.alloc(); b'a'; letters].expect(rt, "memory");
    let name = joined(rt, &[&front, character.as_bytes()]);
    assert_same_for(rt, (letters, character), holds_bad_character(&name), bad);
    let line = line_of(rt, b"", &joined(rt, &[b"  ", &name]));
    match read_line(rt.alloc(), &line) {
        Ok(_) => assert_that(rt, !bad),
        Err(fault) => assert_fault(rt, Some(fault), LineFault::BadCharacter, &line),
    }
}

#[test]
fn names_with_bytes_of_a_bad_character(rt: HostRuntime) {
    let rows = [
        ("\0", true),
        ("\u{FFFD}", true),
        ("\u{FF0C}\u{FFFD}", true),
        ("\u{FF0C}\0", true),
        ("\u{FF0C}", false),
        ("\u{FFFC}", false),
        ("\u{FFFF}x", false),
        ("\u{F000}", false),
        ("\u{1F7BD}", false),
        ("x", false),
    ];
    for letters in [0, 1, 30, 31, 32, 33, 63, 64, 127, 200] {
        for (character, bad) in rows {
            assert_bad(&rt, letters, character, bad);
        }
    }
}
