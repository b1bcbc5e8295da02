// Where the bytes of spans come from when they do not lie in memory.

ghost use Rattle.std.specs.Prelude.{◌≡◌, ℕ, ◌+◌, ◌≤◌, List, take, drop, length, Option, Some, IfSome};

/// Bytes that are read at any offset, by many threads at a time.
///
/// A source may tell its bytes, and then gives just these, though a read may give fewer than there are. One that tells
/// nothing, as a file, is known by what it gave. A source may besides be sure of its bytes before some offset: no read
/// of them fails or is short.
pub trait Source {
    /// The bytes, where the source tells them.
    ghost told: { Self → Option (List ℕ) };

    /// That each read of bytes that end before an offset gives all of them.
    ghost sure: { Self → ℕ → Type 0 };

    /// Puts the bytes from `offset` on into the front of the buffer, as many as it takes or fewer, and gives their
    /// number; none where they cannot be read.
    fn read_at(&self, offset: u64, buffer: &mut [u8]) -> Option<usize>
        ensures within { IfSome result (λ n. n ≤ length buffer.old) }
        ensures bytes { (all : List ℕ) → told self.now ≡ Some all
            → IfSome result (λ n. take n buffer.new ≡ take n (drop offset all)) }
        ensures whole { (end : ℕ) → sure self.now end → offset + length buffer.old ≤ end
            → result ≡ Some (length buffer.old) };
}
