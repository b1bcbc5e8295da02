// Standard input that is a plain file, which workers read at offsets.

ghost use Rattle.std.specs.Prelude.{◌≡◌, ◌+◌, ◌<◌, ◌≤◌, true, IsTrue, length, take, IfSome};
ghost use Rattle.b3_io.specs.Contents.{Gives};
ghost use Rattle.b3_files.specs.Sources.{file_rest, input_rest};

use crate::disk::{DiskFile, Input, Stream};
use crate::retrying::{fill_at, read_at_retrying, read_retrying};
use std::sync::atomic::{AtomicBool, AtomicU64, Ordering};

// The position moves through so many bytes of a buffer, which stay in the inner cache of a core.
const FRONT_LEN: usize = 1 << 16;

// Where so many bytes are due, a call moves the position for itself: the one that moves it may wait for a processor.
const MOST_DUE: u64 = 1 << 20;

/// The plain file that an input is, opened anew, and the input.
///
/// The input tells none of its bytes at an offset, so these are the file's. Its position moves by reads alone, so
/// it is read as far as the file is. The system lets in one such read at a time: so that calls need not wait for one
/// another, one of them reads for all, while little is due.
#[derive(Drop)]
pub struct InputFile<I, P> {
    pub input: I,
    pub file: P,
    // the offset at which the input was
    pub start: u64,
    // whether some of it was read at an offset, so that the input stands elsewhere
    pub is_ahead: AtomicBool,
    // how many bytes the position is still to move: while it is not 0, a call moves it, or one failed to
    pub due: AtomicU64,
    // whether the input gave all that was read in order
    pub is_in_step: bool,
}

impl<I: Input<File = P>, P: DiskFile> InputFile<I, P> {
    /// The input and its file, which stands at this offset.
    pub fn new(input: I, file: P, start: u64) -> InputFile<I, P>
        ensures input { result.input ≡ input }
        ensures file { result.file ≡ file }
        ensures start { result.start ≡ start }
        ensures in_step { result.is_in_step ≡ true }
    {
        InputFile {
            input,
            file,
            start,
            is_ahead: AtomicBool::new(false),
            due: AtomicU64::new(0),
            is_in_step: true,
        }
    }

    /// How many bytes the file has from the input's first on, where it tells its length.
    pub fn len(&self) -> u64 {
        self.file
            .plain_len()
            .unwrap_or(0)
            .saturating_sub(self.start)
    }

    /// Fills the buffer with the file's bytes from an offset on, counted from the input's first. Nothing where a read
    /// fails.
    pub fn fill_at(&self, offset: u64, buffer: &mut [u8]) -> Option<usize>
        ensures len { length buffer.new ≡ length buffer.old }
        ensures within { IfSome result (λ n. n ≤ length buffer.old) }
        ensures bytes { IsTrue P.tells → IfSome result (λ n.
            take n buffer.new ≡ take (length buffer.old) (file_rest P.content self.now offset)) }
    {
        if buffer.is_empty() {
            return Some(0);
        }
        self.is_ahead.store(true, Ordering::SeqCst);
        let start = self.start.checked_add(offset)?;
        let len = buffer.len();
        let seam = len.min(FRONT_LEN);
        let (front, back) = buffer.split_at_mut(seam);
        // The position moves through pages that this or another call has just read.
        let in_back = fill_at(&self.file, start.checked_add(seam as u64)?, None, back)?;
        self.move_on(len as u64, front)?;
        let in_front = fill_at(&self.file, start, None, front)?;
        if in_front < seam {
            return Some(in_front);
        }
        Some(seam + in_back)
    }

    // Moves the position on by so many bytes, at least one, or leaves them to the call that moves it. A call with a
    // short buffer moves it for itself alone: through that it would take long for all. Nothing where a read fails.
    fn move_on(&self, count: u64, buffer: &mut [u8]) -> Option<()>
        requires buffer { 0 < length buffer.old }
        ensures len { length buffer.new ≡ length buffer.old }
    {
        if buffer.len() < FRONT_LEN || self.due.load(Ordering::SeqCst) >= MOST_DUE {
            return pass_over(self.input, count, buffer);
        }
        if self.due.fetch_add(count, Ordering::SeqCst) > 0 {
            return Some(());
        }
        let mut left = count;
        for _round in 0..u64::MAX {
            pass_over(self.input, left, buffer)?;
            let due = self.due.fetch_sub(left, Ordering::SeqCst);
            if due <= left {
                return Some(());
            }
            left = due - left;
        }
        None
    }

    /// The next bytes, where so many were given.
    pub fn read(&mut self, consumed: u64, buffer: &mut [u8]) -> Option<usize>
        requires buffer { 0 < length buffer.old }
        requires in_step { IsTrue I.tells → IsTrue P.tells
            → input_rest I.content I.position P.content self.old consumed ≡ file_rest P.content self.old consumed }
        ensures within { IfSome result (λ n. n ≤ length buffer.old) }
        ensures bytes { IsTrue I.tells → IsTrue P.tells → IfSome result (λ n.
            Gives (file_rest P.content self.old consumed) (take n buffer.new)
            (file_rest P.content self.new (consumed + n))) }
        ensures in_step { IsTrue I.tells → IsTrue P.tells → IfSome result (λ n.
            input_rest I.content I.position P.content self.new (consumed + n)
            ≡ file_rest P.content self.new (consumed + n)) }
    {
        let Ok(count) = read_retrying(&mut self.input, buffer) else {
            return None;
        };
        if self.is_in_step && !self.is_ahead.load(Ordering::SeqCst) {
            return Some(count);
        }
        self.is_in_step = false;
        read_at_retrying(&self.file, self.start.checked_add(consumed)?, buffer).ok()
    }
}

// Reads so many bytes, or all that are left, through a buffer.
fn pass_over<S: Stream + Copy>(stream: S, count: u64, buffer: &mut [u8]) -> Option<()>
    requires buffer { 0 < length buffer.old }
    ensures len { length buffer.new ≡ length buffer.old }
{
    let mut stream = stream;
    let mut left = count;
    while left > 0 {
        let most = left.min(buffer.len() as u64) as usize;
        let passed = read_retrying(&mut stream, &mut buffer[..most]).ok()?;
        if passed == 0 {
            return Some(());
        }
        left -= passed as u64;
    }
    Some(())
}
