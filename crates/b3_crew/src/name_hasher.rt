//! What one worker needs to hash whole contents, name after name, beside the others.

ghost use Rattle.std.specs.Prelude.{◌≡◌, ◌+◌, ◌-◌, ◌^◌, ◌<◌, ◌≤◌, IfSome, OnOk, vec_len};
ghost use Rattle.b3_crew.specs.Crews.{HasOutput, SaysAnswer, SaysContent};
ghost use Rattle.b3_io.specs.Tasks.{IsFit, name_asked, request_report};

use crate::crew_run::Site;
use crate::entry::{Entry, Finding};
use crate::run_input::RunInput;
use b3_core::Mode;
use b3_hash::{Hasher, Xof};
use b3_io::{AnyItem, Item, Message, OutputRange, Request, Shelf};
use b3_threads::PIECE_LEN;
use std::alloc::{AllocError, Global};
use std::sync::Wait;

/// How many bytes a buffer has at first.
const FIRST_BUFFER_LEN: usize = 1 << 14;

/// Hashes whole contents, one after the other: a buffer for a piece of a content, and one for a digest.
#[derive(Drop)]
pub struct NameHasher {
    alloc: Global,
    buffer: Vec<u8>,
    digest: Vec<u8>,
    hashed: u64,
}

impl NameHasher {
    /// It takes memory when it first comes to a name.
    pub fn new(alloc: Global) -> NameHasher {
        NameHasher {
            alloc,
            buffer: Vec::new(alloc),
            digest: Vec::new(alloc),
            hashed: 0,
        }
    }

    /// How many bytes it has hashed, or the greatest number.
    pub fn hashed(&self) -> u64 {
        self.hashed
    }

    /// Finds what is to be said of an item: where the content of its name is soon read and not too long, or it is soon
    /// known why there is none. Else the item needs its turn.
    pub fn find<R: Wait, S: Shelf, I: AnyItem, L: RunInput>(
        &mut self,
        site: &Site<'_, R, S, I, L>,
        entry: &Entry<I, L>,
    ) {
        if let Item::Ask(request) = entry.item() {
            let finding = self.finding_for(site.shelf, &site.range, request, site.max_len);
            entry.put(site.rt, finding);
        }
    }

    // What is to be said of a name.
    fn finding_for<S: Shelf>(
        &mut self,
        shelf: &S,
        range: &OutputRange,
        request: &Request<'_>,
        max_len: u64,
    ) -> Option<Finding>
        requires in_output { range.now.seek + range.now.length ≤ 2 ^ 64 - 1 }
        requires fit { IsFit range.now.length request.now }
        ensures { IfSome result (λ finding. SaysAnswer (S.told shelf.now) (S.is_sure shelf.now) range.now
            (name_asked request.now) (request_report request.now) finding.message finding.failures) }
    {
        if let Some(message) = self.message_of(shelf, range, request, max_len) {
            return Some(Finding {
                message,
                failures: 0,
            });
        }
        let why = shelf.lacks(request.name())?;
        match request.message(self.alloc, Err(why)) {
            Ok(message) => Some(Finding {
                message,
                failures: 1,
            }),
            Err(_) => None,
        }
    }

    // What is to be said of a name whose content is soon read and not too long.
    fn message_of<S: Shelf>(
        &mut self,
        shelf: &S,
        range: &OutputRange,
        request: &Request<'_>,
        max_len: u64,
    ) -> Option<Message>
        requires in_output { range.now.seek + range.now.length ≤ 2 ^ 64 - 1 }
        requires fit { IsFit range.now.length request.now }
        ensures { IfSome result (SaysContent (S.told shelf.now) range.now (name_asked request.now)
            (request_report request.now)) }
    {
        let output = self.output_of(shelf, &range.mode, request.name(), max_len)?;
        self.digest.resize(range.length as usize, 0).ok()?;
        range.fill(output, self.digest.as_mut_slice());
        request.message(self.alloc, Ok(self.digest.as_slice())).ok()
    }

    // The output of the whole content of a name, if it is soon read and not too long. It is not inlined: by its frame helpers
    // have the vectors of the code on lanes at multiples of 32 bytes.
    #[inline(never)]
    fn output_of<S: Shelf>(
        &mut self,
        shelf: &S,
        mode: &Mode,
        name: &str,
        max_len: u64,
    ) -> Option<Xof>
        ensures { IfSome result (HasOutput (S.told shelf.now) mode.now name.now) }
    {
        if self.buffer.is_empty() {
            self.grow().ok()?;
        }
        let mut hasher = Hasher::new(*mode);
        if !shelf.hash_whole(name, max_len, self.buffer.as_mut_slice(), &mut hasher) {
            return None;
        }
        self.hashed = self.hashed.saturating_add(hasher.len());
        if hasher.len() >= self.buffer.len() as u64 {
            self.grow().ok()?;
        }
        Some(hasher.finish())
    }

    // A buffer of four times as many bytes, up to a piece.
    fn grow(&mut self) -> Result<(), AllocError>
        ensures { OnOk result (0 < vec_len self.new.buffer) }
    {
        let len = self.buffer.len().saturating_mul(4);
        self.buffer
            .resize(len.clamp(FIRST_BUFFER_LEN, PIECE_LEN), 0)
    }
}

/// So many of them.
pub fn name_hashers(alloc: Global, count: usize) -> Result<Vec<NameHasher>, AllocError> {
    let mut name_hashers = Vec::with_capacity(alloc, count)?;
    for _ in 0..count {
        name_hashers.push(NameHasher::new(alloc))?;
    }
    Ok(name_hashers)
}
