ghost use Rattle.std.specs.Prelude.{◌≡◌, ◌≢◌, ◌↔◌, ◌+◌, ◌-◌, ◌^◌, ◌<◌, ◌≤◌, ◌&&◌, [], true, false, Some, None, Err, IsTrue, IsOk, OnOk, IfOk, IfErr, length, take, is_err, is_ok, if◌then◌else◌};
ghost use Rattle.std.specs.IoError.{error_kind};
ghost use Rattle.b3_io.specs.Contents.{Gives, StandsForContent, input_name};
ghost use Rattle.b3_io.specs.declared.shelf.NoContent.TheVariants.{Missing};
ghost use Rattle.b3_hash.specs.Hashers.{StandsFor, mode_of};
ghost use Rattle.b3_files.specs.Disks.{IsOfMissing, IsRefusedBy};
ghost use Rattle.b3_files.specs.Files.{contents_with, rest_of, told_if};
ghost use Rattle.b3_files.specs.Sources.{file_side, input_side, is_open, source_left, source_position, source_tells};

use crate::disk::{Disk, DiskFile, FileKind, Input};
use crate::retrying::fill_at;
use crate::source::Source;
use b3_hash::Hasher;
use b3_io::{CannotRead, INPUT_NAME, NoContent, Shelf};
use std::io::{self, ErrorKind};

/// The files of a disk, with an input under its name, which can be begun once.
#[derive(Drop)]
pub struct FileShelf<D: Disk, I: Input> {
    disk: D,
    // as it was before any of it was read
    input: I,
    is_input_taken: bool,
    source: Source<D::File, I, I::File>,
    // how many bytes were read of it
    consumed: u64,
    failures: u64,
    ghost at_consumed: { IsTrue D.File.tells → source_position D.File.position source consumed ≡ consumed },
    ghost in_step: { IsTrue I.tells → IsTrue I.File.tells
        → input_side I.content I.position I.File.content source consumed ≡ file_side I.File.content source consumed },
}

impl<D: Disk, I: Input> FileShelf<D, I> {
    /// A shelf with an input of which nothing was read.
    pub fn new(disk: D, input: I) -> FileShelf<D, I>
        ensures disk { result.disk ≡ disk }
        ensures input { result.input ≡ input }
        ensures free { result.is_input_taken ≡ false }
        ensures not_begun { is_open result.source ≡ false }
        ensures failures { result.failures ≡ 0 }
    {
        FileShelf {
            disk,
            input,
            is_input_taken: false,
            source: Source::Nothing,
            consumed: 0,
            failures: 0,
        }
    }
}

// Why a name that cannot be opened gives no content: it is missing where no such name is there, and where what
// should be a folder on its way is none.
fn no_content_for(error: &io::Error) -> NoContent
    ensures { (result ≡ Missing) ↔ IsOfMissing (error_kind error.now) }
{
    match error.kind() {
        ErrorKind::NotFound | ErrorKind::NotADirectory => NoContent::Missing,
        _ => NoContent::CannotRead,
    }
}

// The same, where it will be so later too. Other errors may pass: for want of descriptors, say, which other threads hold.
fn lasting_lack(error: &io::Error) -> Option<NoContent>
    ensures { (result ≡ Some Missing) ↔ IsOfMissing (error_kind error.now) }
{
    match error.kind() {
        ErrorKind::NotFound | ErrorKind::NotADirectory => Some(NoContent::Missing),
        ErrorKind::PermissionDenied => Some(NoContent::CannotRead),
        _ => None,
    }
}

// Has a file of at most so many bytes hashed, piece by piece, and answers whether it has. One that tells no byte may have
// some, as those of `/proc`: it is read until a read gives none. It is not inlined, so that the stack above the code on lanes
// does not depend on what this stands in.
#[inline(never)]
fn hash_file<F: DiskFile>(
    file: &F,
    len: u64,
    max_len: u64,
    buffer: &mut [u8],
    hasher: &mut Hasher,
) -> bool
    requires told { IsTrue F.tells → len ≡ length (F.content file.now) }
    requires buffer { 0 < length buffer.old }
    requires fresh { StandsFor hasher.old [] }
    ensures len { length buffer.new ≡ length buffer.old }
    ensures mode { mode_of hasher.new ≡ mode_of hasher.old }
    ensures stands { IsTrue result → StandsForContent None [] hasher.new }
    ensures content { IsTrue F.tells → IsTrue result → StandsFor hasher.new (F.content file.now) }
{
    let mut offset = 0u64;
    for _ in 0..=max_len / buffer.len() as u64 {
        let Some(count) = fill_at(file, offset, Some(len), buffer) else {
            return false;
        };
        let Ok(()) = hasher.update(&buffer[..count]) else {
            return false;
        };
        if count < buffer.len() {
            return true;
        }
        let Some(next) = offset.checked_add(count as u64) else {
            return false;
        };
        offset = next;
    }
    false
}

impl<D: Disk, I: Input> Shelf for FileShelf<D, I> {
    ghost failures = { λ shelf. shelf.failures };

    ghost told = { λ shelf. told_if (D.File.tells && I.tells && I.File.tells)
        (contents_with (D.contents shelf.disk) (rest_of I.content I.position shelf.input)) };

    ghost is_sure = { λ _. false };

    ghost is_begun = { λ shelf. is_open shelf.source };

    ghost left = { λ shelf.
        source_left D.File.content I.content I.position I.File.content shelf.source shelf.consumed };

    fn begin(&mut self, name: &str) -> Result<(), NoContent>
        requires { self.old.failures < 2 ^ 64 - 1 }
        ensures count { self.new.failures ≡ self.old.failures + (if is_err result then 1 else 0) }
        ensures begun { is_open self.new.source ≡ is_ok result }
        ensures content { IsTrue D.File.tells → IsTrue I.tells → IsTrue I.File.tells
            → OnOk result (contents_with (D.contents self.old.disk) (rest_of I.content I.position self.old.input)
            name.now
            ≡ Some (source_left D.File.content I.content I.position I.File.content self.new.source self.new.consumed)) }
        ensures missing { IsTrue D.File.tells → result ≡ Err Missing
            → contents_with (D.contents self.old.disk) (rest_of I.content I.position self.old.input) name.now ≡ None }
        ensures refused { name.now ≢ input_name → IfErr result (IsRefusedBy (D.fails_by self.old.disk name.now)) }

        // The input can be begun once, and is never missing; no other name takes it.
        ensures input { name.now ≡ input_name → (IsOk result ↔ (self.old.is_input_taken ≡ false)) }
        ensures input_there { name.now ≡ input_name → result ≢ Err Missing }
        ensures input_taken { name.now ≡ input_name → self.new.is_input_taken ≡ true }
        ensures other { name.now ≢ input_name → self.new.is_input_taken ≡ self.old.is_input_taken }
        ensures disk { self.new.disk ≡ self.old.disk }
        ensures unread { self.new.input ≡ self.old.input }
    {
        // The file before is closed first: its number may be the one that the input had.
        self.source.turn_to(Source::Nothing);
        self.consumed = 0;
        if name != INPUT_NAME {
            match self.disk.open(name) {
                Ok(file) => self.source.turn_to(Source::Opened(file)),
                Err(error) => {
                    self.failures += 1;
                    return Err(no_content_for(&error));
                }
            }
            return Ok(());
        }
        if self.is_input_taken {
            self.failures += 1;
            return Err(NoContent::CannotRead);
        }
        self.is_input_taken = true;
        self.source.turn_to(Source::of_input(self.input));
        Ok(())
    }

    fn read(&mut self, buffer: &mut [u8]) -> Result<usize, CannotRead>
        requires count { self.old.failures < 2 ^ 64 - 1 }
        requires buffer { 0 < length buffer.old }
        ensures count { self.new.failures ≡ self.old.failures + (if is_err result then 1 else 0) }
        ensures begun { is_open self.new.source ≡ (is_open self.old.source && is_ok result) }
        ensures within { IfOk result (λ n. n ≤ length buffer.old) }
        ensures bytes { IsTrue (source_tells D.File.tells I.tells I.File.tells self.old.source) → IfOk result (λ n.
            Gives (source_left D.File.content I.content I.position I.File.content self.old.source self.old.consumed)
            (take n buffer.new)
            (source_left D.File.content I.content I.position I.File.content self.new.source self.new.consumed)) }
        ensures not_begun { is_open self.old.source ≡ false → IfOk result (λ n. n ≡ 0) }
        ensures input_taken { self.new.is_input_taken ≡ self.old.is_input_taken }
        ensures disk { self.new.disk ≡ self.old.disk }
        ensures input { self.new.input ≡ self.old.input }
    {
        let Some(count) = self.source.read_on(&mut self.consumed, buffer) else {
            self.source.turn_to(Source::Nothing);
            self.failures += 1;
            return Err(CannotRead);
        };
        Ok(count)
    }

    // Of a plain file, and of no other. The name is asked first, since a FIFO would wait to be opened.
    fn hash_whole(&self, name: &str, max_len: u64, buffer: &mut [u8], hasher: &mut Hasher) -> bool {
        let Ok(FileKind::Plain(len)) = self.disk.kind(name) else {
            return false;
        };
        if name == INPUT_NAME || len > max_len {
            return false;
        }
        let Ok(file) = self.disk.open(name) else {
            return false;
        };
        hash_file(&file, len, max_len, buffer, hasher)
    }

    // A plain file alone is opened for it, as any other may wait for that. A folder opens, and its first read fails.
    fn lacks(&self, name: &str) -> Option<NoContent>
        ensures input { name.now ≡ input_name → result ≡ None }
        ensures missing { IsTrue D.File.tells → result ≡ Some Missing
            → contents_with (D.contents self.now.disk) (rest_of I.content I.position self.now.input) name.now ≡ None }
        ensures refused { result ≡ Some Missing → IsRefusedBy (D.fails_by self.now.disk name.now) Missing }
    {
        if name == INPUT_NAME {
            return None;
        }
        match self.disk.kind(name) {
            Ok(FileKind::Plain(_)) => lasting_lack(&self.disk.open(name).err()?),
            Ok(FileKind::Folder) => Some(NoContent::CannotRead),
            Ok(FileKind::Other) => None,
            Err(error) => lasting_lack(&error),
        }
    }

    fn count_failures(&mut self, count: u64) {
        self.failures += count;
    }

    // All who read hold the one file that is open: another file under its name changes nothing.
    fn read_at(&self, offset: u64, buffer: &mut [u8]) -> Option<usize> {
        self.source.fill_at(self.consumed, offset, buffer)
    }

    fn len_hint(&self) -> u64 {
        self.source.len().saturating_sub(self.consumed)
    }

    fn len_hint_of(&self, name: &str) -> u64 {
        if name == INPUT_NAME {
            return 0;
        }
        let Ok(FileKind::Plain(len)) = self.disk.kind(name) else {
            return 0;
        };
        len
    }
}
