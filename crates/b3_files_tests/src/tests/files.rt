// The files of a shelf of real files.

use super::asserts::assert_that;
use super::fakes::{Reads, System, rest_from};
use super::steps::Step::{Begin, HashWhole, Lacks, LenHint, Read, ReadAt, Rest};
use super::steps::{assert_files, assert_real, digest_of};
use b3_check::{CannotRead, NoContent};
use b3_core::Mode;
use b3_files::NamedFile;
use b3_hash::Hasher;
use std::fs::File;
use std::io;
use std::process::Abort;
use std::rt::Files;

// The program that runs: a plain file of some length.
pub const OWN_PROGRAM: &str = "/proc/self/exe";

// The digest of the bytes "four", by the installed b3sum.
pub const FOUR: &[u8; 32] = b"\x37\x39\x20\x08\xa9\x49\xc4\x87\x9f\x19\x0a\x4c\xe5\x4e\x35\x47\
      \x82\xbc\x88\x56\x4a\x95\x34\xa8\x82\xb3\xd4\x24\x48\xf9\x61\x68";

// The file that is opened, or looked at, is the one that is named, to the character.
fn assert_opened<'x>(rt: &'x impl Abort, name: &'x str) {
    let named = [NamedFile {
        name,
        content: b"four",
    }];
    assert_files(
        rt,
        &System::new(&named, Reads::plain()),
        &[
            Begin(name, Ok(())),
            Begin("another", Err(NoContent::Missing)),
            HashWhole(name, u64::MAX, Some(FOUR)),
            HashWhole("another", u64::MAX, None),
        ],
    );
}

// So many of these characters, one after the other.
fn repeated(rt: &(impl AllocGlobal + Abort), characters: &str, times: usize) -> String {
    let mut text = String::new(rt.alloc());
    for _ in 0..times {
        text.push_str(characters).expect(rt, "memory");
    }
    text
}

const NAMES: [&str; 17] = [
    "a", " a", "a ", " a ", "\ta\n", "a\r", "a/", "./a", "a//b", "a/../b", "./-", "--", "-a",
    "--check", "\u{e9}", "a\\nb", " ",
];

#[test]
fn the_named_file_is_opened(rt: HostRuntime) {
    for name in NAMES {
        assert_opened(&rt, name);
    }
    assert_opened(&rt, repeated(&rt, "/a", 10_000).as_str());
}

#[test]
fn a_folder_is_no_file(rt: HostRuntime) {
    assert_real(&rt, &[Begin("/", Ok(())), Read(8, Err(CannotRead))]);
}

// What should be a folder on its way is a file; and a name that is too long is no missing one.
#[test]
fn a_name_below_a_file_is_missing(rt: HostRuntime) {
    let long = repeated(&rt, "x", 5_000);
    assert_real(
        &rt,
        &[
            Begin("/proc/self/exe/", Err(NoContent::Missing)),
            Begin("/proc/self/exe/x", Err(NoContent::Missing)),
            Begin(long.as_str(), Err(NoContent::CannotRead)),
        ],
    );
}

// The digest of "Linux" and a line feed, by another implementation.
const LINUX: &[u8; 32] = b"\xba\xe4\x64\xe7\x76\x5d\xa7\xf9\xb5\x34\x06\xd2\x4b\xce\x55\x1b\
    \x93\x2f\x9b\xe7\x5f\xb4\x85\xea\x31\x3a\x94\x00\xae\xff\x81\x83";

// It tells no byte, and has a line.
#[test]
fn a_real_file_that_tells_no_length(rt: HostRuntime) {
    assert_real(
        &rt,
        &[HashWhole("/proc/sys/kernel/ostype", u64::MAX, Some(LINUX))],
    );
}

#[test]
fn a_plain_file_alone_is_looked_at(rt: HostRuntime) {
    assert_real(
        &rt,
        &[
            HashWhole("-", u64::MAX, None),
            HashWhole("/", u64::MAX, None),
            HashWhole("/dev/null", u64::MAX, None),
            HashWhole("a file that is not there", u64::MAX, None),
            HashWhole(OWN_PROGRAM, 1_024, None),
        ],
    );
}

// Why names give no content. The input, what may wait, a file that can be read and a name that is too long give none.
#[test]
fn why_a_real_name_gives_no_content(rt: HostRuntime) {
    let long = repeated(&rt, "x", 5_000);
    assert_real(
        &rt,
        &[
            Lacks("-", None),
            Lacks("a file that is not there", Some(NoContent::Missing)),
            Lacks("/proc/self/exe/x", Some(NoContent::Missing)),
            Lacks("/", Some(NoContent::CannotRead)),
            Lacks("/dev/null", None),
            Lacks(OWN_PROGRAM, None),
            Lacks(long.as_str(), None),
        ],
    );
}

/// The program that runs, opened to be read in order.
pub fn opened_program<R: Files + Abort>(rt: &R) -> R::File {
    File::open(rt, OWN_PROGRAM).expect(rt, "the program that runs")
}

// Reads the next bytes of a file, and tells whether there are some.
fn read_piece<F: io::Read>(rt: &impl Abort, file: &mut F, content: &mut Vec<u8>) -> bool {
    let mut buffer = [0; 4_096];
    let count = file.read(&mut buffer).expect(rt, "a read");
    let piece = &buffer[..count.min(4_096)];
    content.extend_from_slice(piece).expect(rt, "memory");
    count > 0
}

// The bytes of the program that runs, read in order.
pub fn own_program<R: Files + AllocGlobal + Abort>(rt: &R) -> Vec<u8> {
    let mut file = opened_program(rt);
    let mut content = Vec::new(rt.alloc());
    for _ in 0..1_000_000u64 {
        if !read_piece(rt, &mut file, &mut content) {
            break;
        }
    }
    content
}

// A hasher of these bytes.
fn hasher_of(rt: &impl Abort, content: &[u8]) -> Hasher {
    let mut hasher = Hasher::new(Mode::hash());
    hasher.update(content).expect(rt, "a length below 2^64");
    hasher
}

#[test]
fn a_file_is_looked_at_piece_by_piece(rt: HostRuntime) {
    let hasher = hasher_of(&rt, own_program(&rt).as_slice());
    let len = hasher.len();
    assert_that(&rt, len > 100_000);
    assert_real(
        &rt,
        &[
            HashWhole(OWN_PROGRAM, len, Some(&digest_of(&hasher))),
            HashWhole(OWN_PROGRAM, len - 1, None),
        ],
    );
}

// A file gives at its offsets what it gives in order, and stays where it is.
#[test]
fn a_file_is_read_at_its_offsets(rt: HostRuntime) {
    let content = own_program(&rt);
    let content = content.as_slice();
    assert_that(&rt, content.len() > 16);
    assert_real(
        &rt,
        &[
            Begin(OWN_PROGRAM, Ok(())),
            Rest(content),
            Read(8, Ok(&content[..8])),
            Rest(&content[8..]),
            Read(8, Ok(&content[8..16])),
        ],
    );
}

#[test]
fn a_plain_file_alone_tells_its_length(rt: HostRuntime) {
    assert_real(
        &rt,
        &[
            LenHint(0),
            ReadAt(0, None),
            Begin("/dev/null", Ok(())),
            LenHint(0),
            Begin("/proc/self/stat", Ok(())),
            LenHint(0),
        ],
    );
}

// The digest of no bytes, by the official vectors.
pub const EMPTY: &[u8; 32] = b"\xaf\x13\x49\xb9\xf5\xf9\xa1\xa6\xa0\x40\x4d\xea\x36\xdc\xc9\x49\
      \x9b\xcb\x25\xc9\xad\xc1\x12\xb7\xcc\x9a\x93\xca\xe4\x1f\x32\x62";

// The digest of 1,025 bytes, 0 to 250 over and over, by the installed b3sum.
pub const DIGEST: &[u8; 32] = b"\xd0\x02\x78\xae\x47\xeb\x27\xb3\x4f\xae\xcf\x67\xb4\xfe\x26\x3f\
      \x82\xd5\x41\x29\x16\xc1\xff\xd9\x7c\x8c\xb7\xfb\x81\x4b\x84\x44";

// So many bytes: 0 to 250, over and over.
pub fn counted(rt: &(impl AllocGlobal + Abort), count: u64) -> Vec<u8> {
    let mut content = Vec::new(rt.alloc());
    for k in 0..count {
        content.push((k % 251) as u8).expect(rt, "memory");
    }
    content
}

// What is read of 1,025 bytes, of which each read gives one.
fn assert_bytewise<'x>(rt: &'x impl Abort, content: &'x [u8]) {
    let named = [NamedFile { name: "a", content }];
    assert_that(rt, content.len() == 1_025);
    assert_files(
        rt,
        &System::new(&named, Reads::bytewise(1)),
        &[
            HashWhole("a", 1_025, Some(DIGEST)),
            HashWhole("a", 1_024, None),
            Begin("a", Ok(())),
            Read(8, Ok(&content[..1])),
            LenHint(1_024),
            ReadAt(0, Some(rest_from(content, 1))),
            ReadAt(23, Some(rest_from(content, 24))),
            ReadAt(24, Some(rest_from(content, 25))),
            ReadAt(1_020, Some(rest_from(content, 1_021))),
            ReadAt(1_024, Some(b"")),
            ReadAt(1_025, Some(b"")),
        ],
    );
}

#[test]
fn a_read_at_an_offset_is_made_again_until_the_buffer_is_full(rt: HostRuntime) {
    assert_bytewise(&rt, counted(&rt, 1_025).as_slice());
}
