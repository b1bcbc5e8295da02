ghost use Rattle.std.specs.Prelude.{◌≡◌, ◌+◌, ℕ, false, true, List, Some, None, OnOk, OnErr, IfSome, IfNone};

use crate::shelf::{CannotRead, NoContent, Shelf};
use b3_hash::Hasher;
use std::alloc::{AllocError, Global};

/// A name and its content.
#[derive(Drop)]
struct StoredFile {
    name: String,
    content: Vec<u8>,
}

/// A shelf in memory: a map from names to bytes. A name that it has not is missing; it fails nowhere
/// else.
#[derive(Drop)]
pub struct MemoryShelf {
    alloc: Global,
    files: Vec<StoredFile>,
    // which file is begun, and how many of its bytes were given
    begun: Option<usize>,
    consumed: usize,
    failures: u64,
}

impl MemoryShelf {
    ghost use Rattle.b3_io.specs.MemoryShelves.{IsFirstAt, Puts, shelf_contents, shelf_is_begun};

    /// A shelf with no file.
    pub fn new(alloc: Global) -> MemoryShelf
        ensures empty { (name : List ℕ) → shelf_contents result name ≡ None }
        ensures not_begun { shelf_is_begun result ≡ false }
        ensures failures { ⟦<MemoryShelf as Shelf>⟧.failures result ≡ 0 }
    {
        MemoryShelf {
            alloc,
            files: Vec::new(alloc),
            begun: None,
            consumed: 0,
            failures: 0,
        }
    }

    /// Adds a name with its content, or replaces the content of one. No file is begun afterwards.
    pub fn put(&mut self, name: &str, bytes: &[u8]) -> Result<(), AllocError>
        ensures ok { OnOk result (Puts (shelf_contents self.old) (shelf_contents self.new) name.now bytes.now) }
        ensures err { OnErr result (shelf_contents self.new ≡ shelf_contents self.old) }
        ensures not_begun { shelf_is_begun self.new ≡ false }
        ensures count { ⟦<MemoryShelf as Shelf>⟧.failures self.new ≡ ⟦<MemoryShelf as Shelf>⟧.failures self.old }
    {
        self.begun = None;
        let content = Vec::from_slice(self.alloc, bytes)?;
        match self.index_of(name) {
            Some(k) => {
                let file = &mut self.files[k];
                file.content = content;
            }
            None => {
                let name = String::from_str(self.alloc, name)?;
                self.files.push(StoredFile { name, content })?;
            }
        }
        Ok(())
    }

    // The index of the first file of this name.
    fn index_of(&self, name: &str) -> Option<usize>
        ensures found { IfSome result (λ k. IsFirstAt self.now.files.items name.now k) }
        ensures absent { IfNone result (shelf_contents self.now name.now ≡ None) }
    {
        for (k, file) in self.files.iter().enumerate() {
            if file.name.as_str() == name {
                return Some(k);
            }
        }
        None
    }
}

impl Shelf for MemoryShelf {
    ghost use Rattle.b3_io.specs.MemoryShelves.{shelf_contents, shelf_is_begun, shelf_left};

    ghost failures = { λ shelf. shelf.failures };

    ghost told = { λ shelf. Some (shelf_contents shelf) };

    ghost is_sure = { λ _. true };

    ghost is_begun = { shelf_is_begun };

    ghost left = { shelf_left };

    fn begin(&mut self, name: &str) -> Result<(), NoContent> {
        self.begun = self.index_of(name);
        self.consumed = 0;
        match self.begun {
            Some(_) => Ok(()),
            None => {
                self.failures += 1;
                Err(NoContent::Missing)
            }
        }
    }

    fn read(&mut self, buffer: &mut [u8]) -> Result<usize, CannotRead> {
        let Some(k) = self.begun else {
            return Ok(0);
        };
        let Some(file) = self.files.get(k) else {
            return Ok(0);
        };
        let rest = &file.content[self.consumed.min(file.content.len())..];
        let count = rest.len().min(buffer.len());
        buffer[..count].copy_from_slice(&rest[..count]);
        self.consumed += count;
        Ok(count)
    }

    fn hash_whole(
        &self,
        name: &str,
        max_len: u64,
        _buffer: &mut [u8],
        hasher: &mut Hasher,
    ) -> bool {
        let Some(k) = self.index_of(name) else {
            return false;
        };
        let content = self.files[k].content.as_slice();
        content.len() as u64 <= max_len && hasher.update(content).is_ok()
    }

    fn lacks(&self, name: &str) -> Option<NoContent> {
        match self.index_of(name) {
            Some(_) => None,
            None => Some(NoContent::Missing),
        }
    }

    fn count_failures(&mut self, count: u64) {
        self.failures += count;
    }

    fn read_at(&self, offset: u64, buffer: &mut [u8]) -> Option<usize> {
        let k = self.begun?;
        let file = self.files.get(k)?;
        let start = self.consumed.checked_add(offset as usize)?;
        if start > file.content.len() {
            return None;
        }
        let rest = &file.content[start..];
        let count = rest.len().min(buffer.len());
        let (front, _) = rest.split_at(count);
        buffer[..count].copy_from_slice(front);
        Some(count)
    }

    fn len_hint(&self) -> u64 {
        let Some(k) = self.begun else {
            return 0;
        };
        match self.files.get(k) {
            Some(file) => file.content.len().saturating_sub(self.consumed) as u64,
            None => 0,
        }
    }
}
