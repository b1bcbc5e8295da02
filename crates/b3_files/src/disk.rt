//! Disks, their files, and what stands for standard input: what they give, and what they may tell of it.

ghost use Rattle.std.specs.Prelude.{◌≡◌, ℕ, ◌+◌, ◌<◌, Bool, IsTrue, List, length, drop, IfErr, IfOk, IfSome, Some, None};
ghost use Rattle.std.specs.Io.{ReadsAtMost};
ghost use Rattle.std.specs.IoError.{error_kind};
ghost use Rattle.std.specs.declared.io.ErrorKind.{ErrorKind};
ghost use Rattle.b3_io.specs.Contents.{Contents};
ghost use Rattle.b3_files.specs.Disks.{IsOfMissing, ReadsAt, TellsLen, count_of};

use std::io;

/// Bytes that are read in order. A type of streams may tell them, and then its reads give just these.
pub trait Stream {
    /// Whether streams of this type tell their bytes.
    ghost tells: { Bool };

    /// All bytes of the stream, from its beginning on.
    ghost content: { Self → List ℕ };

    /// How many of them stand before the byte that comes next.
    ghost position: { Self → ℕ };

    /// Gives the next bytes, at least one, or 0 at the end.
    fn read(&mut self, buffer: &mut [u8]) -> io::Result<usize>
        requires buffer { 0 < length buffer.old }
        ensures bound { ReadsAtMost result buffer.new }
        ensures bytes { IsTrue tells → ReadsAt (content self.old) (position self.old) result buffer.new }
        ensures position { IsTrue tells → position self.new ≡ position self.old + count_of result }
        ensures content { IsTrue tells → content self.new ≡ content self.old };
}

/// A file that is open, which is read at offsets too.
pub trait DiskFile: Stream {
    /// Gives bytes from `offset` on, at least one, or 0 at the end. The file stays where it is.
    fn read_at(&self, offset: u64, buffer: &mut [u8]) -> io::Result<usize>
        requires buffer { 0 < length buffer.old }
        ensures bound { ReadsAtMost result buffer.new }
        ensures bytes { IsTrue Self.tells → ReadsAt (Self.content self.now) offset result buffer.new };

    /// The length of a plain file, as it tells it: of which nothing is promised, but where files tell their bytes. None of
    /// any other.
    fn plain_len(&self) -> Option<u64>
        ensures { IsTrue Self.tells → IfSome result (λ len. len ≡ length (Self.content self.now)) };
}

/// What stands under a name.
#[derive(Clone, Copy, Debug, PartialEq, Eq)]
pub enum FileKind {
    /// A plain file, and the length that it tells, of which nothing is promised, but where files tell their bytes.
    Plain(u64),
    /// A folder.
    Folder,
    /// Anything else, as a FIFO, a terminal or a device: these may wait to be opened.
    Other,
}

/// Named files, which are opened for reading.
pub trait Disk {
    type File: DiskFile + Drop;

    /// The content of each name, where files tell theirs; nothing for a name that is not there.
    ghost contents: { Self → Contents };

    /// The errors by which a name may fail to be opened, or to tell its kind.
    ghost fails_by: { Self → List ℕ → ErrorKind → Type 0 };

    /// Opens the file of this name, at its beginning.
    fn open(&self, name: &str) -> io::Result<Self::File>
        ensures content { IsTrue Self.File.tells
            → IfOk result (λ file. contents self.now name.now ≡ Some (Self.File.content file)) }
        ensures beginning { IsTrue Self.File.tells → IfOk result (λ file. Self.File.position file ≡ 0) }
        ensures missing { IsTrue Self.File.tells
            → IfErr result (λ error. IsOfMissing (error_kind error) → contents self.now name.now ≡ None) }
        ensures error { IfErr result (λ error. fails_by self.now name.now (error_kind error)) };

    /// What stands under this name, behind its links. It is not opened, so that nothing is waited for.
    fn kind(&self, name: &str) -> io::Result<FileKind>
        ensures len { IsTrue Self.File.tells → (content : List ℕ) → contents self.now name.now ≡ Some content
            → IfOk result (λ kind. TellsLen kind (length content)) }
        ensures missing { IsTrue Self.File.tells
            → IfErr result (λ error. IsOfMissing (error_kind error) → contents self.now name.now ≡ None) }
        ensures error { IfErr result (λ error. fails_by self.now name.now (error_kind error)) };
}

/// A stream that stands for standard input. It may be a plain file, which can be opened anew.
///
/// It is `Copy` as a handle is: over a system, each copy reads on where another ended.
pub trait Input: Stream + Copy {
    type File: DiskFile + Drop;

    /// The plain file that the input is, opened anew, and the offset in it of the byte that the input gives next.
    fn reopen(&self) -> Option<(Self::File, u64)>
        ensures { IsTrue Self.tells → IsTrue Self.File.tells → IfSome result (λ found.
            drop found.1 (Self.File.content found.0) ≡ drop (Self.position self.now) (Self.content self.now)) };
}
