// Names and offsets in memory.

ghost use Rattle.std.specs.Prelude.{◌≡◌, ◌+◌, ◌-◌, ◌≤◌, min, length, take, drop};
ghost use Rattle.std.specs.Option.{option_map};
ghost use Rattle.b3_files.specs.MemoryDisks.{content_among};

use crate::memory_disk::NamedFile;

// The content of the first file of a name.
pub fn find<'a>(files: &[NamedFile<'a>], name: &str) -> Option<&'a [u8]>
    ensures { option_map (λ found. found.now) result ≡ content_among files.now name.now }
{
    match files {
        [] => None,
        [first, others @ ..] => {
            if first.name == name {
                return Some(first.content);
            }
            find(others, name)
        }
    }
}

// Copies what stands from an offset on into the buffer, as far as it takes it, and answers how many bytes that are.
pub fn copy_from(content: &[u8], offset: usize, buffer: &mut [u8]) -> usize
    ensures count { result ≡ min (length content.now - offset) (length buffer.old) }
    ensures bytes { take result buffer.new ≡ take result (drop offset content.now) }
{
    let rest = &content[offset.min(content.len())..];
    let count = rest.len().min(buffer.len());
    let (front, _) = rest.split_at(count);
    buffer[..count].copy_from_slice(front);
    count
}
