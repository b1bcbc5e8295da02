//! Files in memory.

ghost use Rattle.std.specs.Prelude.{◌≡◌, ℕ, List, IfOk, map, string_bytes};
ghost use Rattle.b3_io.specs.MemoryShelves.{shelf_contents};
ghost use Rattle.b3_laws.specs.Files.{content_of};

use b3_check::{MemoryShelf, Shelf};
use std::alloc::{AllocError, Global};

/// A file: its name and its content.
#[derive(Debug, Drop)]
pub struct File {
    /// The name.
    pub name: String,
    /// The content.
    pub content: Vec<u8>,
}

/// A shelf with these files. Of two of one name it has the first.
pub(crate) fn shelf_of(alloc: Global, files: &[File]) -> Result<MemoryShelf, AllocError>
    ensures contents { IfOk result (λ shelf. (name : List ℕ) → shelf_contents shelf name ≡ content_of files.now name) }
    ensures fresh { IfOk result (λ shelf. ⟦<MemoryShelf as Shelf>⟧.failures shelf ≡ 0) }
{
    let mut shelf = MemoryShelf::new(alloc);
    for i in (0..files.len()).rev() {
        let file = &files[i];
        shelf.put(file.name.as_str(), file.content.as_slice())?;
    }
    Ok(shelf)
}

/// The names of these files.
pub(crate) fn names_of(alloc: Global, files: &[File]) -> Result<Vec<String>, AllocError>
    ensures { IfOk result (λ names. map string_bytes names.items ≡ map (λ file. string_bytes file.name) files.now) }
{
    let mut names = Vec::new(alloc);
    for file in files {
        names.push(file.name.clone()?)?;
    }
    Ok(names)
}
