//! A shelf that counts what is read, round any other.

ghost use Rattle.std.specs.Prelude.{◌≡◌};

use b3_hash::Hasher;
use b3_io::{CannotRead, NoContent, Shelf};
use b3_progress::Progress;
use std::alloc::Global;
use std::io::Write;
use std::rt::Clock;

/// The clock is read after each file of so many bytes or more.
const LONG_LEN: u64 = 1 << 16;

/// It is read after one in so many shorter files.
const SHORT_FILES: u64 = 16;

/// Gives what the shelf within gives, and counts it.
#[derive(Drop)]
pub struct CountingShelf<'p, S, C, W> {
    inner: S,
    // where lines are shown, the name that was begun last, and how many bytes were read of those before it
    name: String,
    bytes_before: u64,
    progress: &'p Progress<C, W>,
}

impl<'p, S: Shelf, C: Clock, W: Write> CountingShelf<'p, S, C, W> {
    /// A shelf that counts from now on what the one within gives.
    pub fn new(alloc: Global, inner: S, progress: &'p Progress<C, W>) -> CountingShelf<'p, S, C, W>
        ensures { result.inner ≡ inner }
    {
        CountingShelf {
            inner,
            name: String::new(alloc),
            bytes_before: 0,
            progress,
        }
    }

    // Counts bytes that were read at offsets, of which the shelf within does not say how many are left.
    fn add_at_offset(&self, count: u64) {
        self.progress.add_bytes(count);
        if self.progress.is_due() {
            let done = self
                .progress
                .begun_bytes()
                .saturating_sub(self.bytes_before);
            let left = self.inner.len_hint().saturating_sub(done);
            self.progress.show(self.name.as_str(), Some(left));
        }
    }

    // Counts bytes that were read in order.
    fn add_in_order(&self, count: u64) {
        self.progress.add_bytes(count);
        if self.progress.is_due() {
            let left = self.inner.len_hint();
            self.progress.show(self.name.as_str(), Some(left));
        }
    }

    // Counts a name that is done before its turn. The clock is not read after each short file, as that would take time.
    fn add_whole(&self, name: &str, len: u64) {
        let before = self.progress.add_whole(len);
        let is_time_read = len >= LONG_LEN || before % SHORT_FILES == 0;
        if is_time_read && self.progress.is_due() {
            self.progress.show(name, None);
        }
    }
}

// It has no clause of its own: those of the trait hold of it as they hold of the shelf within.
impl<S: Shelf, C: Clock, W: Write> Shelf for CountingShelf<'_, S, C, W> {
    ghost failures = { λ shelf. S.failures shelf.inner };

    ghost told = { λ shelf. S.told shelf.inner };

    ghost is_sure = { λ shelf. S.is_sure shelf.inner };

    ghost is_begun = { λ shelf. S.is_begun shelf.inner };

    ghost left = { λ shelf. S.left shelf.inner };

    fn begin(&mut self, name: &str) -> Result<(), NoContent> {
        let begun = self.inner.begin(name);
        if self.progress.is_shown() {
            set_text(&mut self.name, name);
            self.bytes_before = self.progress.begin_name();
            if self.progress.has_waiting() {
                self.progress.end_wait(self.inner.len_hint_of(name));
            }
        }
        begun
    }

    fn read(&mut self, buffer: &mut [u8]) -> Result<usize, CannotRead> {
        let count = self.inner.read(buffer)?;
        if self.progress.is_shown() && count > 0 {
            self.add_in_order(count as u64);
        }
        Ok(count)
    }

    fn hash_whole(&self, name: &str, max_len: u64, buffer: &mut [u8], hasher: &mut Hasher) -> bool {
        let is_hashed = self.inner.hash_whole(name, max_len, buffer, hasher);
        if is_hashed && self.progress.is_shown() {
            self.add_whole(name, hasher.len());
        }
        is_hashed
    }

    // Asked after a name was not hashed: one of which it is not known why gives its content in its turn.
    fn lacks(&self, name: &str) -> Option<NoContent> {
        let lacking = self.inner.lacks(name);
        if self.progress.is_shown() {
            match lacking {
                Some(_) => self.add_whole(name, 0),
                None => self.progress.add_waiting(self.inner.len_hint_of(name)),
            }
        }
        lacking
    }

    fn count_failures(&mut self, count: u64) {
        self.inner.count_failures(count);
    }

    fn read_at(&self, offset: u64, buffer: &mut [u8]) -> Option<usize> {
        let count = self.inner.read_at(offset, buffer)?;
        if self.progress.is_shown() {
            self.add_at_offset(count as u64);
        }
        Some(count)
    }

    fn len_hint(&self) -> u64 {
        self.inner.len_hint()
    }

    fn len_hint_of(&self, name: &str) -> u64 {
        self.inner.len_hint_of(name)
    }

    fn counts_names(&self) -> bool {
        self.progress.is_shown()
    }

    fn expect_names(&self, count: u64) {
        self.progress.expect_names(count);
    }
}

// Without memory for it, the text is empty.
fn set_text(text: &mut String, new: &str) {
    text.clear();
    let _ = text.push_str(new);
}
