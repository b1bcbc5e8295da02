// Files whose names say what they are.

ghost use Rattle.std.specs.Prelude.{◌≡◌, [], None, false};

use crate::tests::recording::give;
use crate::tests::rendezvous::Rendezvous;
use b3_check::{CannotRead, NoContent, Shelf};
use b3_hash::Hasher;
use std::alloc::Global;
use std::sync::atomic::{AtomicU64, Ordering};

/// How files are given.
#[derive(Clone, Copy, Debug, PartialEq, Eq)]
pub enum Access {
    /// In order alone.
    InOrder,
    /// At places too.
    AtPlaces,
    /// Whole too, beside one another, where they are short. It is soon known which are missing.
    Beside,
}

/// A name is a letter and a number of bytes, which are 0 to 250, over and over: `g` is a file that is given as the
/// access says, `f` fails at its second read, and `m` is not there. The name `l` has the list.
#[derive(Drop)]
pub struct LetteredFiles<'a> {
    // as many of those bytes as a read gives, and 250 more
    kept: &'a [u8],
    list: &'a [u8],
    access: Access,
    /// How many bytes a read gives at most.
    pub most: usize,
    /// How long a file says that it is, where that is not so.
    pub hint: Option<u64>,
    /// How long the list says that it is, or 0.
    pub list_hint: u64,
    /// For how many bytes a read asked at most.
    pub asked: usize,
    /// How many calls for bytes at a place come before one that is at fault, and how many bytes that one gives, if any.
    pub calls_before: u64,
    pub given: Option<usize>,
    /// Where threads that ask at once wait for one another.
    pub readers: Rendezvous,
    calls: AtomicU64,
    max_len: AtomicU64,
    // the file that is begun: whether it is the list, its bytes, their number, its place, and the reads before one that
    // fails
    is_begun: bool,
    is_list: bool,
    bytes: &'a [u8],
    len: u64,
    place: u64,
    reads_before: u64,
    failures: u64,
    // the names that were begun, each with a line feed
    begun: Vec<u8>,
}

impl<'a> LetteredFiles<'a> {
    pub fn new(alloc: Global, kept: &'a [u8], list: &'a [u8], access: Access) -> LetteredFiles<'a>
        ensures { ⟦<LetteredFiles<'a> as Shelf>⟧.failures result ≡ 0 }
    {
        LetteredFiles {
            kept,
            list,
            access,
            most: usize::MAX,
            hint: None,
            list_hint: 0,
            asked: 0,
            calls_before: u64::MAX,
            given: None,
            readers: Rendezvous::new(0),
            calls: AtomicU64::new(0),
            max_len: AtomicU64::new(0),
            is_begun: false,
            is_list: false,
            bytes: &[],
            len: 0,
            place: 0,
            reads_before: u64::MAX,
            failures: 0,
            begun: Vec::new(alloc),
        }
    }

    pub fn begun(&self) -> &[u8] {
        self.begun.as_slice()
    }

    pub fn failures(&self) -> u64 {
        self.failures
    }

    /// How long a content might have been that was last asked for as a whole.
    pub fn max_len(&self) -> u64 {
        self.max_len.load(Ordering::SeqCst)
    }

    // Whether the name was kept among those that were begun.
    fn is_kept(&mut self, name: &str) -> bool
        ensures failures { self.new.failures ≡ self.old.failures }
        ensures begun { self.new.is_begun ≡ self.old.is_begun }
    {
        self.begun.extend_from_slice(name.as_bytes()).is_ok() && self.begun.push(b'\n').is_ok()
    }
}

// The bytes of a list or of any other file of so many, from a place on and as far as they are kept.
fn bytes_from<'a>(bytes: &'a [u8], is_list: bool, len: u64, place: u64) -> &'a [u8] {
    let first = if is_list { place } else { place % 251 };
    let left = len.saturating_sub(place);
    let found = bytes.get(first as usize..);
    let rest = found.unwrap_or(b"");
    let part = rest.get(..left as usize);
    part.unwrap_or(rest)
}

/// The number in a name.
pub fn number_in(name: &str) -> u64 {
    let mut number = 0u64;
    for byte in name.as_bytes() {
        if byte.is_ascii_digit() {
            let digit = byte.saturating_sub(b'0');
            number = number.saturating_mul(10).saturating_add(digit as u64);
        }
    }
    number
}

impl Shelf for LetteredFiles<'_> {
    ghost failures = { λ shelf. shelf.failures };

    ghost told = { λ _. None };

    ghost is_sure = { λ _. false };

    ghost is_begun = { λ shelf. shelf.is_begun };

    ghost left = { λ _. [] };

    fn begin(&mut self, name: &str) -> Result<(), NoContent> {
        self.is_begun = false;
        if !self.is_kept(name) || name.starts_with("m") {
            self.failures += 1;
            return Err(NoContent::Missing);
        }
        self.reads_before = if name.starts_with("f") { 1 } else { u64::MAX };
        self.is_list = name == "l";
        self.bytes = self.kept;
        self.len = number_in(name);
        if self.is_list {
            self.bytes = self.list;
            self.len = self.list.len() as u64;
        }
        self.place = 0;
        self.is_begun = true;
        Ok(())
    }

    fn read(&mut self, buffer: &mut [u8]) -> Result<usize, CannotRead> {
        if !self.is_begun {
            return Ok(0);
        }
        if self.reads_before == 0 {
            self.is_begun = false;
            self.failures += 1;
            return Err(CannotRead);
        }
        self.reads_before -= 1;
        self.asked = self.asked.max(buffer.len());
        let place = self.place;
        let rest = bytes_from(self.bytes, self.is_list, self.len, place);
        let count = give(rest, self.most, buffer);
        self.place = place.saturating_add(count as u64);
        Ok(count)
    }

    fn hash_whole(
        &self,
        name: &str,
        max_len: u64,
        _buffer: &mut [u8],
        hasher: &mut Hasher,
    ) -> bool {
        if self.access != Access::Beside || !name.starts_with("g") {
            return false;
        }
        self.max_len.store(max_len, Ordering::SeqCst);
        self.readers
            .arrive(self.calls.fetch_add(1, Ordering::SeqCst));
        let len = number_in(name);
        match self.kept.get(..len as usize) {
            Some(content) if len <= max_len => hasher.update(content).is_ok(),
            _ => false,
        }
    }

    fn lacks(&self, name: &str) -> Option<NoContent> {
        if self.access == Access::Beside && name.starts_with("m") {
            return Some(NoContent::Missing);
        }
        None
    }

    fn count_failures(&mut self, count: u64) {
        self.failures += count;
    }

    // Two bytes are asked for to see where the file ends.
    fn read_at(&self, place: u64, buffer: &mut [u8]) -> Option<usize> {
        let call = self.calls.fetch_add(1, Ordering::SeqCst);
        if buffer.len() > 2 {
            self.readers.arrive(call);
        }
        let most = if call == self.calls_before {
            self.given?
        } else {
            usize::MAX
        };
        let rest = bytes_from(self.bytes, self.is_list, self.len, place);
        Some(give(rest, most, buffer))
    }

    fn len_hint(&self) -> u64 {
        match self.hint {
            _ if self.is_list => self.list_hint,
            _ if self.access == Access::InOrder => 0,
            Some(hint) => hint,
            None => self.len,
        }
    }
}
