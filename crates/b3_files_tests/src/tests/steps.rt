// What a shelf is asked, one call after the other, and what it is to answer.

ghost use Rattle.std.specs.Prelude.{◌≡◌, ◌≤◌};

use super::asserts::{assert_same, assert_same_for, assert_that, assert_that_for};
use super::fakes::{FakeFiles, Reads, SharedInput, System};
use super::inputs::NOT_SHOWN;
use b3_check::{CannotRead, MemoryShelf, NoContent, Shelf};
use b3_core::Mode;
use b3_files::{Disk, FileShelf, Input, InputPaths, MemoryFile, RealDisk, RealInput};
use b3_hash::Hasher;
use std::alloc::Global;
use std::os::unix::fs::FileExt;
use std::process::Abort;
use std::rt::Files;
use std::sync::atomic::AtomicU64;

/// A call, and its answer.
#[derive(Clone, Copy)]
pub enum Step<'a> {
    /// So many names are asked for.
    Expect(u64),
    /// The file of this name is begun, or why it is not.
    Begin(&'a str, Result<(), NoContent>),
    /// What is read next into a buffer of so many bytes.
    Read(usize, Result<&'a [u8], CannotRead>),
    /// What stands from this offset on to the end, as far as the buffer takes it.
    ReadAt(u64, Option<&'a [u8]>),
    /// These bytes are left, at each offset.
    Rest(&'a [u8]),
    /// How many bytes are left, as far as that is known.
    LenHint(u64),
    /// The digest of a file of at most so many bytes that is hashed beside others.
    HashWhole(&'a str, u64, Option<&'a [u8; 32]>),
    /// Why a name gives no content, where that is soon known.
    Lacks(&'a str, Option<NoContent>),
}

/// The digest of what was hashed.
pub fn digest_of(hasher: &Hasher) -> [u8; 32] {
    let mut digest = [0; 32];
    let _filled = hasher.finish().fill(&mut digest);
    digest
}

// The digest of the file of this name, if it is hashed beside others.
fn digest_of_whole<S: Shelf>(shelf: &S, name: &str, max_len: u64) -> Option<[u8; 32]> {
    let mut buffer = [0; 1_000];
    let mut hasher = Hasher::new(Mode::hash());
    if !shelf.hash_whole(name, max_len, &mut buffer, &mut hasher) {
        return None;
    }
    Some(digest_of(&hasher))
}

// What a shelf gives at an offset is what stands from there on.
fn assert_read_at<S: Shelf>(rt: &impl Abort, shelf: &S, offset: u64, answer: Option<&[u8]>) {
    let mut buffer = [0; 1_000];
    let given = shelf.read_at(offset, &mut buffer);
    let Some(rest) = answer else {
        assert_same_for(rt, offset, given, None);
        return;
    };
    let wanted = &rest[..rest.len().min(1_000)];
    assert_same_for(rt, offset, given, Some(wanted.len()));
    assert_that_for(rt, offset, buffer.starts_with(wanted));
}

fn assert_rest_at<S: Shelf>(rt: &impl Abort, shelf: &S, rest: &[u8], offset: usize) {
    let start = offset.min(rest.len());
    assert_read_at(rt, shelf, offset as u64, Some(&rest[start..]));
}

// The same at many offsets, also around the end.
fn assert_rest<S: Shelf>(rt: &impl Abort, shelf: &S, rest: &[u8]) {
    assert_same(rt, shelf.len_hint(), rest.len() as u64);
    for k in 0..500usize {
        assert_rest_at(rt, shelf, rest, k);
        assert_rest_at(rt, shelf, rest, (rest.len() / 500).saturating_mul(k));
        assert_rest_at(rt, shelf, rest, rest.len().saturating_sub(k));
        assert_rest_at(rt, shelf, rest, rest.len().saturating_add(k));
    }
}

/// A shelf in memory with one file.
pub fn shelf_of(rt: &impl Abort, alloc: Global, name: &str, content: &[u8]) -> MemoryShelf
    ensures { ⟦<MemoryShelf as Shelf>⟧.failures result ≡ 0 }
{
    let mut shelf = MemoryShelf::new(alloc);
    shelf.put(name, content).expect(rt, "memory");
    shelf
}

/// A shelf, and how often it was asked for what may fail.
#[derive(Drop)]
pub struct Asked<S: Shelf> {
    shelf: S,
    calls: u64,
    ghost counted: { S.failures shelf ≤ calls },
}

impl<S: Shelf> Asked<S> {
    /// A shelf of which nothing was asked.
    pub fn new(shelf: S) -> Asked<S>
        requires { S.failures shelf ≡ 0 }
    {
        Asked { shelf, calls: 0 }
    }

    fn begin(&mut self, rt: &impl Abort, name: &str, answer: Result<(), NoContent>) {
        assert_that(rt, self.calls < 1_000);
        self.calls += 1;
        assert_same_for(rt, name, self.shelf.begin(name), answer);
    }

    fn read(&mut self, rt: &impl Abort, most: usize, answer: Result<&[u8], CannotRead>) {
        let mut buffer = [0; 8];
        assert_that(rt, 1 <= most && most <= 8 && self.calls < 1_000);
        self.calls += 1;
        let given = self.shelf.read(&mut buffer[..most]);
        let Ok(bytes) = answer else {
            assert_that(rt, given.is_err());
            return;
        };
        assert_same(rt, given, Ok(bytes.len()));
        assert_that(rt, buffer.starts_with(bytes));
    }

    /// Makes these calls.
    pub fn assert(&mut self, rt: &impl Abort, steps: &[Step<'_>]) {
        for step in steps {
            match *step {
                Step::Expect(count) => self.shelf.expect_names(count),
                Step::Begin(name, answer) => self.begin(rt, name, answer),
                Step::Read(most, answer) => self.read(rt, most, answer),
                Step::ReadAt(offset, answer) => assert_read_at(rt, &self.shelf, offset, answer),
                Step::Rest(rest) => assert_rest(rt, &self.shelf, rest),
                Step::LenHint(len) => assert_same(rt, self.shelf.len_hint(), len),
                Step::HashWhole(name, max_len, digest) => {
                    let given = digest_of_whole(&self.shelf, name, max_len);
                    assert_same_for(rt, name, given, digest.copied());
                }
                Step::Lacks(name, why) => assert_same_for(rt, name, self.shelf.lacks(name), why),
            }
        }
    }
}

/// Makes these calls of a shelf over this disk and this input.
pub fn assert_shelf<D: Disk + Drop, I: Input + Drop>(
    rt: &impl Abort,
    disk: D,
    input: I,
    steps: &[Step<'_>],
) {
    Asked::new(FileShelf::new(disk, input)).assert(rt, steps);
}

// The same, over the files of a file system beside an input that can be opened anew.
fn assert_beside_input<F: Files>(
    rt: &impl Abort,
    files: &F,
    input: SharedInput<'_>,
    paths: InputPaths<'_>,
    steps: &[Step<'_>],
)
where
    F::File: FileExt,
{
    let input = RealInput::new(files, input, paths);
    assert_shelf(rt, RealDisk::new(files), input, steps);
}

/// Makes these calls of a shelf of such files.
pub fn assert_files<'x>(rt: &'x impl Abort, system: &'x System<'x>, steps: &[Step<'_>]) {
    let input = SharedInput {
        content: b"",
        offset: &AtomicU64::new(0),
        reads: &Reads::plain(),
    };
    assert_input(rt, system, input, NOT_SHOWN, steps);
}

/// Makes these calls of a shelf of such files beside an input.
pub fn assert_input<'x>(
    rt: &'x impl Abort,
    system: &'x System<'x>,
    input: SharedInput<'x>,
    paths: InputPaths<'x>,
    steps: &[Step<'_>],
) {
    assert_beside_input(rt, &FakeFiles::new(rt, system), input, paths, steps);
}

/// Makes these calls of a shelf of real files, beside an input of four bytes.
pub fn assert_real<R: Abort + Files>(rt: &R, steps: &[Step<'_>])
where
    R::File: FileExt,
{
    assert_shelf(rt, RealDisk::new(rt), MemoryFile::new(b"four"), steps);
}
