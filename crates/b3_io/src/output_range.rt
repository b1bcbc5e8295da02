//! Which bytes of the output of a content are wanted.

ghost use Rattle.std.specs.Prelude.{◌≡◌, ◌+◌, ◌-◌, ◌^◌, ◌≤◌, length};
ghost use Rattle.b3_core.specs.Output.{output_bytes};

use b3_core::Mode;
use b3_hash::Xof;

/// Which bytes of which output of a content are wanted.
#[derive(Clone, Copy)]
pub struct OutputRange {
    /// The mode of the hash.
    pub mode: Mode,
    /// The first byte of the output that is wanted.
    pub seek: u64,
    /// How many bytes of it are wanted.
    pub length: u32,
}

impl OutputRange {
    /// Fills a digest with the bytes that are wanted of the output of a content (BLAKE3 (2020), 2.6).
    pub fn fill(&self, mut reader: Xof, digest: &mut [u8])
        requires in_output { self.now.seek + self.now.length ≤ 2 ^ 64 - 1 }
        requires len { length digest.old ≡ self.now.length }
        ensures { digest.new ≡ output_bytes reader.node self.now.seek self.now.length }
    {
        reader.seek(self.seek);
        reader.fill(digest).unwrap();
    }
}
