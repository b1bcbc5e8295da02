// Files that fail once, and one that has no end.

ghost use Rattle.std.specs.Prelude.{◌≡◌, ◌+◌, [], false, None, Some, if◌then◌else◌};
ghost use Rattle.b3_io.specs.MemoryShelves.{shelf_contents, shelf_left};

use crate::tests::recording::is_at_fault;
use b3_check::{CannotRead, MemoryShelf, NoContent, Shelf};

/// Files in memory, which are told, and of which one call fails, after so many.
#[derive(Drop)]
pub struct FailingShelf {
    files: MemoryShelf,
    calls_before: u64,
    is_begun: bool,
    faults: u64,
}

impl FailingShelf {
    pub fn new(files: MemoryShelf, calls_before: u64) -> FailingShelf
        ensures { ⟦<FailingShelf as Shelf>⟧.failures result ≡ ⟦<MemoryShelf as Shelf>⟧.failures files }
    {
        FailingShelf {
            files,
            calls_before,
            is_begun: false,
            faults: 0,
        }
    }
}

impl Shelf for FailingShelf {
    ghost failures = { λ shelf. ⟦<MemoryShelf as Shelf>⟧.failures shelf.files + shelf.faults };

    ghost told = { λ shelf. Some (shelf_contents shelf.files) };

    ghost is_sure = { λ _. false };

    ghost is_begun = { λ shelf. shelf.is_begun };

    ghost left = { λ shelf. if shelf.is_begun then shelf_left shelf.files else [] };

    fn begin(&mut self, name: &str) -> Result<(), NoContent> {
        self.is_begun = false;
        if is_at_fault(&mut self.calls_before) {
            self.faults += 1;
            return Err(NoContent::CannotRead);
        }
        self.files.begin(name)?;
        self.is_begun = true;
        Ok(())
    }

    fn read(&mut self, buffer: &mut [u8]) -> Result<usize, CannotRead> {
        if !self.is_begun {
            return Ok(0);
        }
        if is_at_fault(&mut self.calls_before) {
            self.is_begun = false;
            self.faults += 1;
            return Err(CannotRead);
        }
        self.files.read(buffer)
    }

    fn count_failures(&mut self, count: u64) {
        self.faults += count;
    }
}

/// A file of any name, which gives a byte a read for ever.
#[derive(Drop)]
pub struct EndlessFile {
    is_begun: bool,
    failures: u64,
}

impl EndlessFile {
    pub fn new() -> EndlessFile
        ensures { ⟦<EndlessFile as Shelf>⟧.failures result ≡ 0 }
    {
        EndlessFile {
            is_begun: false,
            failures: 0,
        }
    }
}

impl Shelf for EndlessFile {
    ghost failures = { λ shelf. shelf.failures };

    ghost told = { λ _. None };

    ghost is_sure = { λ _. false };

    ghost is_begun = { λ shelf. shelf.is_begun };

    ghost left = { λ _. [] };

    fn begin(&mut self, _name: &str) -> Result<(), NoContent> {
        self.is_begun = true;
        Ok(())
    }

    fn read(&mut self, buffer: &mut [u8]) -> Result<usize, CannotRead> {
        if !self.is_begun {
            return Ok(0);
        }
        buffer[0] = b'x';
        Ok(1)
    }

    fn count_failures(&mut self, count: u64) {
        self.failures += count;
    }
}
