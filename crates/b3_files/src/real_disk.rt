// The files and the input of a system, as a disk and an input that tell nothing.
//
// No contract can say what a system's files hold, so no clause sees the bodies here: each only forwards, and the
// comment beside it says what it must do. Every other line of the crate is proved over any disk.

use crate::disk::{Disk, DiskFile, FileKind, Input, Stream};
use crate::retrying::fill;
use std::alloc::AllocError;
use std::fs::{File, OpenFile};
use std::io::{self, Read};
use std::os::unix::fs::FileExt;
use std::rt::Files;

/// An open file of a system.
#[derive(Drop)]
pub struct RealFile<T> {
    inner: T,
}

impl<T: Read> Stream for RealFile<T> {
    ghost use Rattle.std.specs.Prelude.{false, []};

    ghost tells = { false };

    ghost content = { λ _. [] };

    ghost position = { λ _. 0 };

    // One read of this file, from where it stands, into the front of this buffer.
    fn read(&mut self, buffer: &mut [u8]) -> io::Result<usize> {
        self.inner.read(buffer)
    }
}

impl<T: Read + FileExt + OpenFile> DiskFile for RealFile<T> {
    // One read of this file, at this offset and no other, which leaves the file where it stands.
    fn read_at(&self, offset: u64, buffer: &mut [u8]) -> io::Result<usize> {
        self.inner.read_at(buffer, offset)
    }

    // The length that the open file itself tells, of a plain file alone: not of a folder, a pipe or a device.
    fn plain_len(&self) -> Option<u64> {
        let metadata = self.inner.metadata().ok()?;
        metadata.is_file().then_some(metadata.len())
    }
}

/// The files of a system.
#[derive(Drop)]
pub struct RealDisk<'a, F> {
    files: &'a F,
}

impl<'a, F: Files> RealDisk<'a, F> {
    /// The disk on which these files are.
    pub fn new(files: &'a F) -> RealDisk<'a, F> {
        RealDisk { files }
    }
}

impl<F: Files> Disk for RealDisk<'_, F>
where
    F::File: FileExt,
{
    type File = RealFile<F::File>;

    ghost use Rattle.std.specs.Prelude.{⊤, None};

    ghost contents = { λ _ _. None };

    ghost fails_by = { λ _ _ _. ⊤ };

    // Opens the file of this name, to the character, for reading alone; the error is the system's.
    fn open(&self, name: &str) -> io::Result<RealFile<F::File>> {
        let inner = File::open(self.files, name)?;
        Ok(RealFile { inner })
    }

    // What this name tells of itself, behind its links; the error is the system's.
    fn kind(&self, name: &str) -> io::Result<FileKind> {
        let metadata = self.files.metadata(name)?;
        Ok(if metadata.is_file() {
            FileKind::Plain(metadata.len())
        } else if metadata.is_dir() {
            FileKind::Folder
        } else {
            FileKind::Other
        })
    }
}

/// Where a system shows what standard input is.
#[derive(Clone, Copy)]
pub struct InputPaths<'a> {
    /// The path by which its file is opened anew.
    pub file: &'a str,
    /// The path of a text whose first line is `pos:` and the offset of the byte that comes next.
    pub position: &'a str,
}

/// Where Linux shows it.
pub const INPUT_PATHS: InputPaths<'static> = InputPaths {
    file: "/proc/self/fd/0",
    position: "/proc/self/fdinfo/0",
};

/// The input of a system, which is shown at these paths.
#[derive(Drop)]
pub struct RealInput<'a, F, I> {
    files: &'a F,
    input: I,
    paths: InputPaths<'a>,
}

impl<'a, F: Files, I: Read + Copy> RealInput<'a, F, I> {
    /// An input, the disk on which its paths are, and these paths.
    pub fn new(files: &'a F, input: I, paths: InputPaths<'a>) -> RealInput<'a, F, I> {
        RealInput {
            files,
            input,
            paths,
        }
    }
}

impl<F, I: Copy> Clone for RealInput<'_, F, I> {
    fn clone(&self) -> Result<Self, AllocError> {
        Ok(RealInput {
            files: self.files,
            input: self.input,
            paths: self.paths,
        })
    }
}

impl<F, I: Copy> Copy for RealInput<'_, F, I> {}

impl<F: Files, I: Read> Stream for RealInput<'_, F, I> {
    ghost use Rattle.std.specs.Prelude.{false, []};

    ghost tells = { false };

    ghost content = { λ _. [] };

    ghost position = { λ _. 0 };

    // One read of the input, from where it stands, into the front of this buffer.
    fn read(&mut self, buffer: &mut [u8]) -> io::Result<usize> {
        self.input.read(buffer)
    }
}

impl<F: Files, I: Read + Copy> Input for RealInput<'_, F, I>
where
    F::File: FileExt,
{
    type File = RealFile<F::File>;

    // The file that the input is and the offset at which the input stands; none where it is no plain file, where it
    // tells no length, as those of `/proc` do, and where the offset is not shown.
    fn reopen(&self) -> Option<(RealFile<F::File>, u64)> {
        let disk = RealDisk::new(self.files);
        let Ok(FileKind::Plain(1..)) = disk.kind(self.paths.file) else {
            return None;
        };
        let start = next_offset(&mut disk.open(self.paths.position).ok()?)?;
        Some((disk.open(self.paths.file).ok()?, start))
    }
}

// The number behind `pos:` in the first line of a text.
fn next_offset<S: Stream>(text: &mut S) -> Option<u64> {
    let mut buffer = [0; 64];
    let count = fill(text, &mut buffer)?;
    let text = str::from_utf8(&buffer[..count]).ok()?;
    let (first, _others) = text.split_once('\n')?;
    first.strip_prefix("pos:")?.trim().parse().ok()
}
