ghost use Rattle.std.specs.Prelude.{◌≡◌, ℕ, ◌+◌, ◌-◌, ◌^◌, ◌<◌, ◌≤◌, ◌&&◌, Bool, false, IsTrue, List, [], take, length, Option, IsSome, IsOk, OnOk, IfOk, IfErr, IfSome, drop, is_ok, is_err, if◌then◌else◌};
ghost use Rattle.b3_io.specs.Contents.{Contents, Gives, HasContent, StandsForContent, LacksContent};
ghost use Rattle.b3_hash.specs.Hashers.{StandsFor, mode_of};

use b3_hash::Hasher;

/// The name that stands for standard input. A key is read from it.
pub const INPUT_NAME: &str = "-";

/// Why a name gives no content.
#[derive(Clone, Copy, Debug, PartialEq, Eq)]
pub enum NoContent {
    /// No such name is there.
    Missing,
    /// It cannot be read.
    CannotRead,
}

/// The rest of a file cannot be read.
#[derive(Clone, Copy, Debug, PartialEq, Eq)]
pub struct CannotRead;

/// Named files, of which one at a time is read from its beginning to its end.
///
/// A shelf counts its failures. It may tell its contents, and then gives just these, and says of no name
/// that is there that it is missing; and it may tell besides that it fails at a name that is not there and
/// nowhere else.
pub trait Shelf {
    /// How many calls have failed.
    ghost failures: { Self → ℕ };

    /// The content of each name, where the shelf tells it.
    ghost told: { Self → Option Contents };

    /// Whether only a name that is not there fails.
    ghost is_sure: { Self → Bool };

    /// Whether a file is begun, and no call has failed since.
    ghost is_begun: { Self → Bool };

    /// What is left of the file that is begun, where the shelf tells its contents.
    ghost left: { Self → List ℕ };

    /// Puts the shelf at the beginning of the file of this name.
    fn begin(&mut self, name: &str) -> Result<(), NoContent>
        requires { failures self.old < 2 ^ 64 - 1 }
        ensures count { failures self.new ≡ failures self.old + (if is_err result then 1 else 0) }
        ensures begun { is_begun self.new ≡ is_ok result }
        ensures content { OnOk result (HasContent (told self.old) name.now (left self.new)) }
        ensures why { IfErr result (LacksContent (told self.old) (is_sure self.old) name.now) }
        ensures told { told self.new ≡ told self.old }
        ensures still_sure { is_sure self.new ≡ is_sure self.old };

    /// Gives the next bytes of the file: how many of them are in `buffer`, at least one, or 0 at the
    /// file's end. Where no file is begun it gives none.
    fn read(&mut self, buffer: &mut [u8]) -> Result<usize, CannotRead>
        requires count { failures self.old < 2 ^ 64 - 1 }
        requires buffer { 0 < length buffer.old }
        ensures count { failures self.new ≡ failures self.old + (if is_err result then 1 else 0) }
        ensures begun { is_begun self.new ≡ (is_begun self.old && is_ok result) }
        ensures within { IfOk result (λ n. n ≤ length buffer.old) }
        ensures bytes { IsSome (told self.old)
            → IfOk result (λ n. Gives (left self.old) (take n buffer.new) (left self.new)) }
        ensures not_begun { is_begun self.old ≡ false → IfOk result (λ n. n ≡ 0) }
        ensures sure { IsTrue (is_sure self.old) → IsOk result }
        ensures told { told self.new ≡ told self.old }
        ensures still_sure { is_sure self.new ≡ is_sure self.old };

    /// Has the whole content of a name hashed by `_hasher`, through `_buffer`, and answers whether it has: there is a
    /// plain file of this name, of at most `_max_len` bytes, which is soon read. It changes nothing, so that many
    /// threads may ask at once.
    fn hash_whole(
        &self,
        _name: &str,
        _max_len: u64,
        _buffer: &mut [u8],
        _hasher: &mut Hasher,
    ) -> bool
        requires buffer { 0 < length _buffer.old }
        requires fresh { StandsFor _hasher.old [] }
        ensures len { length _buffer.new ≡ length _buffer.old }
        ensures mode { mode_of _hasher.new ≡ mode_of _hasher.old }
        ensures content { IsTrue result → StandsForContent (told self.now) _name.now _hasher.new }
    {
        false
    }

    /// Why a name gives no content, where that is soon known without waiting for anything. It changes nothing, so that
    /// many threads may ask at once.
    fn lacks(&self, _name: &str) -> Option<NoContent>
        ensures { IfSome result (LacksContent (told self.now) (is_sure self.now) _name.now) }
    {
        None
    }

    /// Counts as failures so many names of which `lacks` said why.
    fn count_failures(&mut self, count: u64)
        requires { failures self.old + count < 2 ^ 64 }
        ensures count { failures self.new ≡ failures self.old + count }
        ensures told { told self.new ≡ told self.old }
        ensures still_sure { is_sure self.new ≡ is_sure self.old };

    /// Fills the buffer with what is left of the file, from `offset` on, as far as there is any, and answers how
    /// many bytes that are; nothing where it cannot. The file stays where it is.
    fn read_at(&self, _offset: u64, _buffer: &mut [u8]) -> Option<usize>
        ensures len { length _buffer.new ≡ length _buffer.old }
        ensures within { IfSome result (λ n. n ≤ length _buffer.old) }
        ensures bytes { IsSome (told self.now)
            → IfSome result (λ n. take n _buffer.new ≡ take (length _buffer.old) (drop _offset (left self.now))) }
    {
        None
    }

    /// How many bytes are left of the file, of which nothing is promised, or 0 where that is not known.
    fn len_hint(&self) -> u64 {
        0
    }

    /// How many bytes the file of a name has, of which nothing is promised, or 0 where that is not known.
    fn len_hint_of(&self, _name: &str) -> u64 {
        0
    }

    /// Whether the shelf wants to know how many names it is asked for.
    fn counts_names(&self) -> bool {
        false
    }

    /// So many names are asked for from now on, at most.
    fn expect_names(&self, _count: u64) {}
}
