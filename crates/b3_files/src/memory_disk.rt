// A disk in memory, which tells its files.

ghost use Rattle.std.specs.Prelude.{◌≡◌};

use crate::disk::{Disk, DiskFile, FileKind, Input, Stream};
use crate::lookup::{copy_from, find};
use std::io::{self, ErrorKind};

/// A name and its content.
#[derive(Clone, Copy)]
pub struct NamedFile<'a> {
    pub name: &'a str,
    pub content: &'a [u8],
}

/// A file in memory, of which so many bytes were read. It may stand for standard input, too.
#[derive(Clone, Copy)]
pub struct MemoryFile<'a> {
    content: &'a [u8],
    offset: usize,
}

impl<'a> MemoryFile<'a> {
    /// The file of these bytes, at its beginning.
    pub fn new(content: &'a [u8]) -> MemoryFile<'a>
        ensures content { result.content.now ≡ content.now }
        ensures offset { result.offset ≡ 0 }
    {
        MemoryFile { content, offset: 0 }
    }
}

impl Stream for MemoryFile<'_> {
    ghost use Rattle.std.specs.Prelude.{true};

    ghost tells = { true };

    ghost content = { λ file. file.content.now };

    ghost position = { λ file. file.offset };

    fn read(&mut self, buffer: &mut [u8]) -> io::Result<usize> {
        let count = copy_from(self.content, self.offset, buffer);
        self.offset += count;
        Ok(count)
    }
}

impl DiskFile for MemoryFile<'_> {
    fn read_at(&self, offset: u64, buffer: &mut [u8]) -> io::Result<usize> {
        Ok(copy_from(self.content, offset as usize, buffer))
    }

    fn plain_len(&self) -> Option<u64> {
        Some(self.content.len() as u64)
    }
}

impl<'a> Input for MemoryFile<'a> {
    type File = MemoryFile<'a>;

    fn reopen(&self) -> Option<(MemoryFile<'a>, u64)> {
        Some((MemoryFile::new(self.content), self.offset as u64))
    }
}

/// Files in memory: where a name stands twice, its first file counts.
#[derive(Clone, Copy)]
pub struct MemoryDisk<'a> {
    files: &'a [NamedFile<'a>],
}

impl<'a> MemoryDisk<'a> {
    /// A disk of just these files.
    pub fn new(files: &'a [NamedFile<'a>]) -> MemoryDisk<'a>
        ensures { result.files.now ≡ files.now }
    {
        MemoryDisk { files }
    }
}

impl<'a> Disk for MemoryDisk<'a> {
    ghost use Rattle.b3_files.specs.MemoryDisks.{IsNotAmong, content_among};

    type File = MemoryFile<'a>;

    ghost contents = { λ disk. content_among disk.files.now };

    ghost fails_by = { λ disk name kind. IsNotAmong disk.files.now name kind };

    fn open(&self, name: &str) -> io::Result<MemoryFile<'a>> {
        match find(self.files, name) {
            Some(content) => Ok(MemoryFile::new(content)),
            None => Err(io::Error::from(ErrorKind::NotFound)),
        }
    }

    fn kind(&self, name: &str) -> io::Result<FileKind> {
        match find(self.files, name) {
            Some(content) => Ok(FileKind::Plain(content.len() as u64)),
            None => Err(io::Error::from(ErrorKind::NotFound)),
        }
    }
}
