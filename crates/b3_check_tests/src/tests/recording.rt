// Devices that give and take pieces of any length, and of which one call fails.

ghost use Rattle.std.specs.Prelude.{◌≡◌, ◌<◌, ◌≤◌, [], false, None, Some, is_some, length};

use b3_check::{CannotRead, NoContent, Shelf, Sink, SinkFailed};
use std::alloc::Global;

/// Gives the first of these bytes, as many as the buffer takes and at most so many, and answers how many they are.
pub fn give(bytes: &[u8], most: usize, buffer: &mut [u8]) -> usize
    ensures within { result ≤ length buffer.old }
    ensures len { length buffer.new ≡ length buffer.old }
{
    let count = bytes.len().min(buffer.len()).min(most);
    buffer[..count].copy_from_slice(&bytes[..count]);
    count
}

/// Files that are given in pieces. Once, after so many calls, a call fails.
#[derive(Drop)]
pub struct PieceFiles<'f> {
    files: &'f [(&'f str, &'f [u8])],
    most: usize,
    calls_before: u64,
    rest: &'f [u8],
    is_begun: bool,
    failures: u64,
}

impl<'f> PieceFiles<'f> {
    pub fn new(files: &'f [(&'f str, &'f [u8])], most: usize, calls_before: u64) -> PieceFiles<'f>
        ensures { ⟦<PieceFiles<'f> as Shelf>⟧.failures result ≡ 0 }
    {
        PieceFiles {
            files,
            most,
            calls_before,
            rest: b"",
            is_begun: false,
            failures: 0,
        }
    }
}

/// Whether this is the call that fails, and how many calls come before that.
pub fn is_at_fault(calls_before: &mut u64) -> bool {
    let is_this = *calls_before == 0;
    *calls_before = calls_before.wrapping_sub(1);
    is_this
}

// The content of the file of this name.
fn content_of<'f>(files: &'f [(&'f str, &'f [u8])], name: &str) -> Option<&'f [u8]> {
    for (file, content) in files {
        if *file == name {
            return Some(*content);
        }
    }
    None
}

impl Shelf for PieceFiles<'_> {
    ghost failures = { λ shelf. shelf.failures };

    ghost told = { λ _. None };

    ghost is_sure = { λ _. false };

    ghost is_begun = { λ shelf. shelf.is_begun };

    ghost left = { λ _. [] };

    fn begin(&mut self, name: &str) -> Result<(), NoContent> {
        let is_fault = is_at_fault(&mut self.calls_before);
        let found = content_of(self.files, name);
        self.is_begun = !is_fault && found.is_some();
        self.rest = found.unwrap_or(b"");
        if self.is_begun {
            return Ok(());
        }
        self.failures += 1;
        if !is_fault {
            return Err(NoContent::Missing);
        }
        Err(NoContent::CannotRead)
    }

    fn read(&mut self, buffer: &mut [u8]) -> Result<usize, CannotRead> {
        if !self.is_begun {
            return Ok(0);
        }
        if is_at_fault(&mut self.calls_before) {
            self.is_begun = false;
            self.failures += 1;
            return Err(CannotRead);
        }
        let count = give(self.rest, self.most, buffer);
        self.rest = self.rest.get(count..).unwrap_or(b"");
        Ok(count)
    }

    fn count_failures(&mut self, count: u64) {
        self.failures += count;
    }
}

/// Takes pieces of one length at most. Once, after so many writes, a write fails.
#[derive(Drop)]
pub struct PieceSink {
    pub bytes: Vec<u8>,
    most: usize,
    writes_before: u64,
    failures: u64,
    ghost some: { 0 < most },
}

impl PieceSink {
    pub fn new(alloc: Global, most: usize, writes_before: u64) -> PieceSink
        requires { 0 < most }
        ensures { ⟦<PieceSink as Sink>⟧.failures result ≡ 0 }
    {
        PieceSink {
            bytes: Vec::new(alloc),
            most,
            writes_before,
            failures: 0,
        }
    }
}

impl Sink for PieceSink {
    ghost failures = { λ sink. sink.failures };

    ghost held = { λ sink. Some sink.bytes.items };

    fn write(&mut self, bytes: &[u8]) -> Result<usize, SinkFailed> {
        let count = bytes.len().min(self.most);
        let is_fault = is_at_fault(&mut self.writes_before);
        if is_fault || self.bytes.extend_from_slice(&bytes[..count]).is_err() {
            self.failures += 1;
            return Err(SinkFailed);
        }
        Ok(count)
    }
}
