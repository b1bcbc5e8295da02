// What is answered where a growth is refused.

use super::asserts::{assert_same, assert_that, assert_that_for};
use super::{assert_says, digest};
use b3_lines::{
    LineFault, holds_bad_character, lines, read_line, shown_name, write_line, write_tagged,
};
use std::alloc::Global;
use std::process::Abort;
use std::test::Fail;

/// The plain line of this digest and the name `a`, a backslash, `b`, a line feed and `c`, and the tagged one.
const PLAIN_LINE: &[u8; 75] =
    b"\\af1349b9f5f9a1a6a0404dea36dcc9499bcb25c9adc112b7cc9a93cae41f3262  a\\\\b\\nc\n";

const TAGGED_LINE: &[u8; 85] =
    b"\\BLAKE3 (a\\\\b\\nc) = af1349b9f5f9a1a6a0404dea36dcc9499bcb25c9adc112b7cc9a93cae41f3262\n";

/// The answer of a call, which is asked again where a growth was refused.
macro_rules! answered {
    ($call:expr) => {
        match $call {
            Err(LineFault::Memory) => $call,
            answer => answer,
        }
    };
}

/// Asserts that a further growth is not refused: each before it was a call's.
fn assert_over(rt: &impl Abort, alloc: Global) {
    assert_that_for(
        rt,
        "refused after the last call",
        String::from_str(alloc, "x").is_ok(),
    );
}

/// Each growth is refused in turn by `make refused`, in this test and in those that are named like it.
#[test]
fn refused_memory_for_a_plain_line(rt: HostRuntime) -> Result<(), Fail> {
    let alloc = rt.alloc();
    let line = answered!(write_line(alloc, &digest(&rt), "a\\b\nc"))?;
    assert_same(&rt, line.as_slice(), PLAIN_LINE.as_slice());
    assert_over(&rt, alloc);
    Ok(())
}

#[test]
fn refused_memory_for_a_tagged_line(rt: HostRuntime) -> Result<(), Fail> {
    let alloc = rt.alloc();
    let line = answered!(write_tagged(alloc, &digest(&rt), "a\\b\nc"))?;
    assert_same(&rt, line.as_slice(), TAGGED_LINE.as_slice());
    assert_over(&rt, alloc);
    Ok(())
}

#[test]
fn refused_memory_for_a_line_that_is_read(rt: HostRuntime) -> Result<(), Fail> {
    let alloc = rt.alloc();
    assert_same(
        &rt,
        answered!(read_line(alloc, &PLAIN_LINE[..66])).err(),
        Some(LineFault::Short),
    );
    let line = answered!(read_line(alloc, &PLAIN_LINE[..74]))?;
    assert_says(&rt, &line, "a\\b\nc", "\\a\\\\b\\nc");
    assert_over(&rt, alloc);
    Ok(())
}

#[test]
fn refused_memory_for_a_tagged_line_that_is_read(rt: HostRuntime) -> Result<(), Fail> {
    let alloc = rt.alloc();
    let line = answered!(read_line(alloc, &TAGGED_LINE[..84]))?;
    assert_says(&rt, &line, "a\\b\nc", "\\a\\\\b\\nc");
    assert_over(&rt, alloc);
    Ok(())
}

#[test]
fn refused_memory_for_a_name_that_is_shown(rt: HostRuntime) -> Result<(), Fail> {
    let alloc = rt.alloc();
    let shown = answered!(shown_name(alloc, "a\\b\nc"))?;
    assert_same(&rt, shown.as_str(), "\\a\\\\b\\nc");
    assert_over(&rt, alloc);
    Ok(())
}

/// The lines of a text and all refusals take none: the first growth is the one after them.
#[test]
fn lines_and_refusals_take_no_memory(rt: HostRuntime) {
    let alloc = rt.alloc();
    let digest = digest(&rt);
    assert_same(&rt, lines(b"a\n\nb").count(), 3);
    assert_same(&rt, LineFault::Short.reason(), "short line");
    assert_that(&rt, holds_bad_character(b"\0"));
    for name in ["", "\0"] {
        assert_that(&rt, write_line(alloc, &digest, name).is_err());
        assert_that(&rt, write_tagged(alloc, &digest, name).is_err());
    }
    for line in ["", "\\", "BLAKE3 (", "\u{FFFD}"] {
        assert_that(&rt, read_line(alloc, line.as_bytes()).is_err());
    }
    assert_over(&rt, alloc);
}
