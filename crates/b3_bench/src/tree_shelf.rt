//! A shelf of many files, each a part of the same bytes.

ghost use Rattle.std.specs.Prelude.{◌≡◌, ◌<◌, ◌≤◌, [], None, false, IsTrue, length};
ghost use Rattle.b3_hash.specs.Hashers.{StandsFor, mode_of};
ghost use Rattle.b3_io.specs.Contents.{StandsForContent};

use crate::names::number_of;
use crate::supply::part;
use b3_check::{CannotRead, NoContent, Shelf};
use b3_hash::Hasher;

/// The name of the list.
pub const LIST_NAME: &str = "SUMS";

/// Where the content of a file is.
#[derive(Clone, Copy)]
pub struct FileSpan {
    pub place: u64,
    pub len: u64,
}

/// Files, each of which has its number at the end of its name, and a list.
#[derive(Drop)]
pub struct TreeShelf<'a> {
    bytes: &'a [u8],
    files: &'a [FileSpan],
    list: &'a [u8],
    // what is left of the file that is begun
    is_begun: bool,
    rest: &'a [u8],
    failures: u64,
}

impl<'a> TreeShelf<'a> {
    /// The files at these places of the bytes.
    pub fn new(bytes: &'a [u8], files: &'a [FileSpan], list: &'a [u8]) -> TreeShelf<'a>
        ensures { ⟦<TreeShelf<'a> as Shelf>⟧.failures result ≡ 0 }
    {
        TreeShelf {
            bytes,
            files,
            list,
            is_begun: false,
            rest: &[],
            failures: 0,
        }
    }

    /// The content of a name.
    fn content_of(&self, name: &str) -> Option<&'a [u8]> {
        if name == LIST_NAME {
            return Some(self.list);
        }
        let file = self.files.get(number_of(name) as usize)?;
        Some(part(self.bytes, file.place, file.len))
    }
}

/// Copies the first bytes, as many as the buffer takes, and answers how many they are.
fn give(bytes: &[u8], buffer: &mut [u8]) -> usize
    ensures given { result ≤ length bytes.now }
    ensures within { result ≤ length buffer.old }
    ensures len { length buffer.new ≡ length buffer.old }
{
    let count = bytes.len().min(buffer.len());
    buffer[..count].copy_from_slice(&bytes[..count]);
    count
}

/// Has a content hashed, piece by piece, as one that is read from a file.
fn hash_content(content: &[u8], buffer: &mut [u8], hasher: &mut Hasher) -> bool
    requires buffer { 0 < length buffer.old }
    requires fresh { StandsFor hasher.old [] }
    ensures len { length buffer.new ≡ length buffer.old }
    ensures mode { mode_of hasher.new ≡ mode_of hasher.old }
    ensures stands { IsTrue result → StandsForContent None [] hasher.new }
{
    let mut rest = content;
    'pieces: for _ in 0..=content.len() / buffer.len() {
        let count = give(rest, buffer);
        let Ok(()) = hasher.update(&buffer[..count]) else {
            return false;
        };
        rest = &rest[count..];
    }
    rest.is_empty()
}

impl Shelf for TreeShelf<'_> {
    ghost failures = { λ shelf. shelf.failures };

    ghost told = { λ _. None };

    ghost is_sure = { λ _. false };

    ghost is_begun = { λ shelf. shelf.is_begun };

    ghost left = { λ _. [] };

    fn begin(&mut self, name: &str) -> Result<(), NoContent> {
        self.is_begun = false;
        self.rest = &[];
        let Some(content) = self.content_of(name) else {
            self.failures += 1;
            return Err(NoContent::Missing);
        };
        self.rest = content;
        self.is_begun = true;
        Ok(())
    }

    fn read(&mut self, buffer: &mut [u8]) -> Result<usize, CannotRead> {
        if !self.is_begun {
            return Ok(0);
        }
        let count = give(self.rest, buffer);
        let rest = self.rest.get(count..);
        self.rest = rest.unwrap_or(b"");
        Ok(count)
    }

    fn hash_whole(&self, name: &str, max_len: u64, buffer: &mut [u8], hasher: &mut Hasher) -> bool {
        match self.content_of(name) {
            Some(content) if !content.is_empty() && content.len() as u64 <= max_len => {
                hash_content(content, buffer, hasher)
            }
            _ => false,
        }
    }

    fn lacks(&self, name: &str) -> Option<NoContent> {
        match self.content_of(name) {
            Some(_) => None,
            None => Some(NoContent::Missing),
        }
    }

    fn count_failures(&mut self, count: u64) {
        self.failures += count;
    }

    fn len_hint(&self) -> u64 {
        self.rest.len() as u64
    }

    fn len_hint_of(&self, name: &str) -> u64 {
        match self.content_of(name) {
            Some(content) => content.len() as u64,
            None => 0,
        }
    }
}
