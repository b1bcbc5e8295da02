// Reads and writes that are made again where a signal interrupts them.

ghost use Rattle.std.specs.Prelude.{◌≡◌, ◌+◌, ◌<◌, ◌≤◌, IsTrue, length, take, drop, IfSome};
ghost use Rattle.std.specs.Io.{ReadsAtMost, WritesAtMost};
ghost use Rattle.std.specs.Io.KnownBytes.{WriteAppends};
ghost use Rattle.b3_files.specs.Disks.{ReadsAt, count_of};

use crate::disk::{DiskFile, Stream};
use std::io::{self, ErrorKind, Write};

/// How often an interrupted call is made at most.
const MAX_TRIES: u32 = 1_000;

/// Reads, as `Stream::read` does.
pub fn read_retrying<S: Stream>(stream: &mut S, buffer: &mut [u8]) -> io::Result<usize>
    requires buffer { 0 < length buffer.old }
    ensures bound { ReadsAtMost result buffer.new }
    ensures buffer { length buffer.new ≡ length buffer.old }
    ensures bytes { IsTrue S.tells → ReadsAt (S.content stream.old) (S.position stream.old) result buffer.new }
    ensures position { IsTrue S.tells → S.position stream.new ≡ S.position stream.old + count_of result }
    ensures content { IsTrue S.tells → S.content stream.new ≡ S.content stream.old }
{
    for _try in 1..MAX_TRIES {
        match stream.read(buffer) {
            Err(error) if error.kind() == ErrorKind::Interrupted => {}
            result => return result,
        }
    }
    stream.read(buffer)
}

/// Fills the buffer with a stream's next bytes, and answers how many there are: fewer than the buffer takes only where
/// it ends. Nothing where a read fails.
pub fn fill<S: Stream>(stream: &mut S, buffer: &mut [u8]) -> Option<usize>
    ensures len { length buffer.new ≡ length buffer.old }
    ensures within { IfSome result (λ n. n ≤ length buffer.old) }
{
    let mut filled = 0;
    while filled < buffer.len() {
        let count = read_retrying(stream, &mut buffer[filled..]).ok()?;
        if count == 0 {
            return Some(filled);
        }
        filled += count;
    }
    Some(filled)
}

/// Reads at an offset, as `DiskFile::read_at` does.
pub fn read_at_retrying<F: DiskFile>(file: &F, offset: u64, buffer: &mut [u8]) -> io::Result<usize>
    requires buffer { 0 < length buffer.old }
    ensures bound { ReadsAtMost result buffer.new }
    ensures buffer { length buffer.new ≡ length buffer.old }
    ensures bytes { IsTrue F.tells → ReadsAt (F.content file.now) offset result buffer.new }
{
    for _try in 1..MAX_TRIES {
        match file.read_at(offset, buffer) {
            Err(error) if error.kind() == ErrorKind::Interrupted => {}
            result => return result,
        }
    }
    file.read_at(offset, buffer)
}

/// Fills the buffer with a file's bytes from an offset on, and answers how many there are: fewer than the buffer takes
/// only where the file ends. Nothing where a read fails. Where it is told at which offset the file ends, reads that stop
/// there, though they could give more, show that it does; else one read more does, which gives no byte.
pub fn fill_at<F: DiskFile>(
    file: &F,
    offset: u64,
    end: Option<u64>,
    buffer: &mut [u8],
) -> Option<usize>
    requires end { IsTrue F.tells → IfSome end (λ end. end ≡ length (F.content file.now)) }
    ensures len { length buffer.new ≡ length buffer.old }
    ensures within { IfSome result (λ n. n ≤ length buffer.old) }
    ensures bytes { IsTrue F.tells
        → IfSome result (λ n. take n buffer.new ≡ take (length buffer.old) (drop offset (F.content file.now))) }
{
    let mut filled = 0;
    while filled < buffer.len() {
        let start = offset.checked_add(filled as u64)?;
        if filled > 0 && end == Some(start) {
            return Some(filled);
        }
        let Ok(count) = read_at_retrying(file, start, &mut buffer[filled..]) else {
            return None;
        };
        if count == 0 {
            return Some(filled);
        }
        filled += count;
    }
    Some(filled)
}

/// Writes, as `Write::write` does.
pub fn write_retrying<W: Write>(writer: &mut W, bytes: &[u8]) -> io::Result<usize>
    ensures bound { WritesAtMost result bytes.now }
    ensures bytes { WriteAppends (W.contents writer.old) (W.contents writer.new) result bytes.now }
{
    for _try in 1..MAX_TRIES {
        match writer.write(bytes) {
            Err(error) if error.kind() == ErrorKind::Interrupted => {}
            result => return result,
        }
    }
    writer.write(bytes)
}
