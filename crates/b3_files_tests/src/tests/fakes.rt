// A file system in memory whose reads fail, give little or are interrupted, and which stops a test that changes a file.

ghost use Rattle.std.specs.Prelude.{◌≡◌, true, is_err};
ghost use Rattle.std.specs.Io.{ReadsAtMost};

use super::asserts::assert_that_for;
use b3_files::NamedFile;
use std::alloc::Allocator;
use std::fs::{FileTimes, Metadata, OpenFile, OpenOptions, Permissions};
use std::io::{self, ErrorKind, PipeReader, PipeWriter, Read, Seek, SeekFrom, Write};
use std::os::fd::BorrowedFd;
use std::os::unix::fs::FileExt;
use std::os::unix::net::SocketAddr;
use std::path::PathBuf;
use std::process::Abort;
use std::rt::Files;
use std::sync::atomic::{AtomicU64, Ordering};

/// What befalls the reads of a file system or of an input.
#[derive(Drop)]
pub struct Reads {
    /// How many bytes a read gives at most.
    pub most: usize,
    /// How often each read is interrupted before it is let through.
    pub interruptions: u32,
    /// How many reads are let through before one that fails.
    pub before_fault: u64,
    calls: AtomicU64,
}

impl Reads {
    /// Each read is let through, and gives what it is asked for.
    pub fn plain() -> Reads {
        Reads {
            most: usize::MAX,
            interruptions: 0,
            before_fault: u64::MAX,
            calls: AtomicU64::new(0),
        }
    }

    /// Each read gives one byte, and is interrupted so often before.
    pub fn bytewise(interruptions: u32) -> Reads {
        Reads {
            most: 1,
            interruptions,
            ..Reads::plain()
        }
    }

    /// Each read is interrupted so often before it gives what it is asked for.
    pub fn interrupted(interruptions: u32) -> Reads {
        Reads {
            interruptions,
            ..Reads::plain()
        }
    }

    /// A read after so many fails, and those before it and after it give one byte.
    pub fn failing_after(before_fault: u64) -> Reads {
        Reads {
            most: 1,
            before_fault,
            ..Reads::plain()
        }
    }

    /// The first read gives what it is asked for, and the second fails.
    pub fn whole_before_a_fault() -> Reads {
        Reads {
            before_fault: 1,
            ..Reads::plain()
        }
    }

    /// How many reads there were, those that were interrupted with them.
    pub fn calls(&self) -> u64 {
        self.calls.load(Ordering::SeqCst)
    }

    /// A read of what is left of a content.
    pub fn read(&self, rest: &[u8], buffer: &mut [u8]) -> io::Result<usize>
        ensures { ReadsAtMost result buffer.new }
    {
        let call = self.calls.fetch_add(1, Ordering::SeqCst);
        let calls_a_read = u64::from(self.interruptions) + 1;
        if call % calls_a_read < u64::from(self.interruptions) {
            return Err(io::Error::from(ErrorKind::Interrupted));
        }
        if call / calls_a_read == self.before_fault {
            return Err(io::Error::from(ErrorKind::Other));
        }
        let count = rest.len().min(buffer.len()).min(self.most);
        buffer[..count].copy_from_slice(&rest[..count]);
        Ok(count)
    }
}

/// What is left of a content from an offset on.
pub fn rest_from(content: &[u8], offset: u64) -> &[u8] {
    &content[(offset as usize).min(content.len())..]
}

/// A name that is no plain file and no folder, and that stops a test that opens it.
pub const FIFO: &str = "fifo";

/// A name that cannot be opened for now, as where too many files are open.
pub const BUSY: &str = "busy";

/// What the files of a file system have in common.
#[derive(Drop)]
pub struct System<'a> {
    pub files: &'a [NamedFile<'a>],
    /// The name that may not be read.
    pub closed: &'a str,
    /// Whether a folder stands under each name by the time that it is opened.
    pub is_replaced: bool,
    /// The length that each file tells, where that is not the one that it has.
    pub told: Option<u64>,
    pub reads: Reads,
    open: AtomicU64,
    overlapping: AtomicU64,
}

impl<'a> System<'a> {
    pub fn new(files: &'a [NamedFile<'a>], reads: Reads) -> System<'a> {
        System {
            files,
            closed: "closed",
            is_replaced: false,
            told: None,
            reads,
            open: AtomicU64::new(0),
            overlapping: AtomicU64::new(0),
        }
    }

    /// One in which a folder stands under each name by the time that it is opened.
    pub fn replaced(files: &'a [NamedFile<'a>]) -> System<'a> {
        System {
            is_replaced: true,
            ..System::new(files, Reads::plain())
        }
    }

    /// One in which each file tells this length.
    pub fn telling(files: &'a [NamedFile<'a>], len: u64) -> System<'a> {
        System {
            told: Some(len),
            ..System::new(files, Reads::plain())
        }
    }

    /// How many files were opened while another was.
    pub fn overlapping(&self) -> u64 {
        self.overlapping.load(Ordering::SeqCst)
    }

    // What a file of this content tells.
    fn metadata_of(&self, content: &[u8]) -> Metadata {
        Metadata::of_file(self.told.unwrap_or(content.len() as u64))
    }

    // The content of the file of this name, to the character.
    fn content(&self, name: &str) -> io::Result<&'a [u8]> {
        for file in self.files {
            if file.name == name {
                return Ok(file.content);
            }
        }
        Err(io::Error::from(ErrorKind::NotFound))
    }
}

// The program changes no file.
fn refuse<T>(rt: &impl Abort) -> io::Result<T>
    ensures { is_err result ≡ true }
{
    assert!(rt; false, "a call that changes a file");
    Err(io::Error::from(ErrorKind::Unsupported))
}

/// A file that is open.
pub struct FakeFile<'a, R: Abort> {
    rt: &'a R,
    system: &'a System<'a>,
    content: &'a [u8],
    offset: u64,
}

impl<R: Abort> Drop for FakeFile<'_, R> {
    fn drop(self) {
        let Self {
            rt: _,
            system,
            content: _,
            offset: _,
        } = self;
        system.open.fetch_sub(1, Ordering::SeqCst);
    }
}

impl<R: Abort> Read for FakeFile<'_, R> {
    fn read(&mut self, buf: &mut [u8]) -> io::Result<usize> {
        let count = self
            .system
            .reads
            .read(rest_from(self.content, self.offset), buf)?;
        self.offset = self.offset.saturating_add(count as u64);
        Ok(count)
    }
}

impl<R: Abort> Write for FakeFile<'_, R> {
    fn write(&mut self, _buf: &[u8]) -> io::Result<usize> {
        refuse(self.rt)
    }

    fn flush(&mut self) -> io::Result<()> {
        refuse(self.rt)
    }
}

impl<R: Abort> Seek for FakeFile<'_, R> {
    fn seek(&mut self, _pos: SeekFrom) -> io::Result<u64> {
        Err(io::Error::from(ErrorKind::Unsupported))
    }
}

impl<R: Abort> FileExt for FakeFile<'_, R> {
    fn read_at(&self, buf: &mut [u8], offset: u64) -> io::Result<usize> {
        if self.system.is_replaced {
            return Err(io::Error::from(ErrorKind::IsADirectory));
        }
        self.system.reads.read(rest_from(self.content, offset), buf)
    }

    fn write_at(&self, _buf: &[u8], _offset: u64) -> io::Result<usize> {
        refuse(self.rt)
    }
}

impl<R: Abort> OpenFile for FakeFile<'_, R> {
    fn metadata(&self) -> io::Result<Metadata> {
        Ok(if self.system.is_replaced {
            Metadata::of_dir()
        } else {
            self.system.metadata_of(self.content)
        })
    }

    fn set_len(&self, _size: u64) -> io::Result<()> {
        refuse(self.rt)
    }

    fn sync_all(&self) -> io::Result<()> {
        refuse(self.rt)
    }

    fn sync_data(&self) -> io::Result<()> {
        refuse(self.rt)
    }

    fn set_permissions(&self, _perm: Permissions) -> io::Result<()> {
        refuse(self.rt)
    }

    fn set_times(&self, _times: FileTimes) -> io::Result<()> {
        refuse(self.rt)
    }
}

/// A file system of a few files. A call that changes one, and one that opens a file for more than reading, stop the
/// test.
#[derive(Drop)]
pub struct FakeFiles<'a, R> {
    rt: &'a R,
    system: &'a System<'a>,
}

impl<'a, R> FakeFiles<'a, R> {
    pub fn new(rt: &'a R, system: &'a System<'a>) -> FakeFiles<'a, R> {
        FakeFiles { rt, system }
    }
}

impl<'a, R: Abort> Files for FakeFiles<'a, R> {
    type File = FakeFile<'a, R>;

    type Dir = FakeFile<'a, R>;

    fn open_file(&self, how: &OpenOptions, path: &str) -> io::Result<FakeFile<'a, R>> {
        assert_that_for(
            self.rt,
            path,
            how.asks_read()
                && !how.asks_write()
                && !how.asks_append()
                && !how.asks_truncate()
                && !how.asks_create()
                && !how.asks_create_new(),
        );
        assert_that_for(self.rt, "it would wait", path != FIFO);
        if path == self.system.closed {
            return Err(io::Error::from(ErrorKind::PermissionDenied));
        }
        if path == BUSY {
            return Err(io::Error::from(ErrorKind::Other));
        }
        let content = self.system.content(path)?;
        if self.system.open.fetch_add(1, Ordering::SeqCst) > 0 {
            self.system.overlapping.fetch_add(1, Ordering::SeqCst);
        }
        Ok(FakeFile {
            rt: self.rt,
            system: self.system,
            content,
            offset: 0,
        })
    }

    fn open_dir(&self, _path: &str) -> io::Result<FakeFile<'a, R>> {
        Err(io::Error::from(ErrorKind::Unsupported))
    }

    fn metadata(&self, path: &str) -> io::Result<Metadata> {
        if path == FIFO {
            return Ok(Metadata::of_symlink(0));
        }
        Ok(self.system.metadata_of(self.system.content(path)?))
    }

    fn symlink_metadata(&self, _path: &str) -> io::Result<Metadata> {
        Err(io::Error::from(ErrorKind::Unsupported))
    }

    fn copy(&self, _from: &str, _to: &str) -> io::Result<u64> {
        refuse(self.rt)
    }

    fn rename(&self, _from: &str, _to: &str) -> io::Result<()> {
        refuse(self.rt)
    }

    fn remove_file(&self, _path: &str) -> io::Result<()> {
        refuse(self.rt)
    }

    fn create_dir(&self, _path: &str) -> io::Result<()> {
        refuse(self.rt)
    }

    fn create_dir_with_mode(&self, _path: &str, _mode: u32) -> io::Result<()> {
        refuse(self.rt)
    }

    fn bind_unix(&self, _socket: BorrowedFd<'_>, _addr: &SocketAddr) -> io::Result<()> {
        refuse(self.rt)
    }

    fn remove_dir(&self, _path: &str) -> io::Result<()> {
        refuse(self.rt)
    }

    fn remove_dir_all<B: Allocator>(&self, _alloc: B, _path: &str) -> io::Result<()> {
        refuse(self.rt)
    }

    fn canonicalize<B: Allocator>(&self, _alloc: B, _path: &str) -> io::Result<PathBuf<B>> {
        Err(io::Error::from(ErrorKind::Unsupported))
    }

    fn read_link<B: Allocator>(&self, _alloc: B, _path: &str) -> io::Result<PathBuf<B>> {
        Err(io::Error::from(ErrorKind::Unsupported))
    }

    fn hard_link(&self, _original: &str, _link: &str) -> io::Result<()> {
        refuse(self.rt)
    }

    fn set_permissions(&self, _path: &str, _perm: Permissions) -> io::Result<()> {
        refuse(self.rt)
    }

    fn symlink(&self, _original: &str, _link: &str) -> io::Result<()> {
        refuse(self.rt)
    }

    fn pipe(&self) -> io::Result<(PipeReader, PipeWriter)> {
        refuse(self.rt)
    }

    fn chown(&self, _path: &str, _uid: Option<u32>, _gid: Option<u32>) -> io::Result<()> {
        refuse(self.rt)
    }

    fn lchown(&self, _path: &str, _uid: Option<u32>, _gid: Option<u32>) -> io::Result<()> {
        refuse(self.rt)
    }
}

/// An input of which each copy reads on where another ended.
#[derive(Clone, Copy)]
pub struct SharedInput<'a> {
    pub content: &'a [u8],
    pub offset: &'a AtomicU64,
    pub reads: &'a Reads,
}

impl Read for SharedInput<'_> {
    fn read(&mut self, buf: &mut [u8]) -> io::Result<usize> {
        let start = self.offset.load(Ordering::SeqCst);
        let count = self.reads.read(rest_from(self.content, start), buf)?;
        self.offset.fetch_add(count as u64, Ordering::SeqCst);
        Ok(count)
    }
}
