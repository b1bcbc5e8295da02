//! A name hashed: from the beginning of its file to its digest.

ghost use Rattle.std.specs.Prelude.{◌≡◌, ◌+◌, ◌-◌, ◌^◌, ◌<◌, ◌≤◌, length, false, IfOk, IfErr, MatchOption, vec_len};
ghost use Rattle.b3_core.specs.Output.{output_bytes};
ghost use Rattle.b3_io.specs.Faults.{is_write_fault};
ghost use Rattle.b3_io.specs.Reading.{IsDigestOf, IsFaultOfRest, IsOutputOf, IsReadingFault, found_if, is_unread, unread_count};
ghost use Rattle.b3_io.specs.Scripts.Kind.{Hashed};

use crate::at_offsets::hash_at_offsets;
use b3_board::Gate;
use b3_core::Mode;
use b3_hash::Xof;
use b3_io::{Buffer, Limits, NoContent, OutputRange, Pool, RunFault, Shelf, hash_in_order};
use std::alloc::{AllocError, Global};
use std::sync::Wait;
use std::thread::Threads;

/// Hashes names, one after the other. A file is read at offsets by all workers, or in order: no content is kept.
#[derive(Drop)]
pub struct Digester {
    range: OutputRange,
    buffer: Buffer,
    digest: Vec<u8>,
    ghost in_output: { range.seek + range.length ≤ 2 ^ 64 - 1 },
    ghost digest_len: { vec_len digest ≡ range.length },
}

impl Digester {
    /// A digester for this range. It takes the memory for what is read in order here.
    pub fn new(alloc: Global, range: OutputRange) -> Result<Digester, AllocError>
        requires { range.seek + range.length ≤ 2 ^ 64 - 1 }
        ensures { IfOk result (λ digester. digester.range ≡ range) }
    {
        Ok(Digester {
            range,
            buffer: Buffer::new(alloc)?,
            digest: vec![in alloc; 0; range.length as usize]?,
        })
    }

    /// Which bytes of the output of each name are wanted.
    pub fn range(&self) -> OutputRange
        ensures range { result ≡ self.now.range }
        ensures in_output { result.seek + result.length ≤ 2 ^ 64 - 1 }
    {
        self.range
    }

    /// The digest of the name that was hashed last.
    pub fn digest(&self) -> &[u8]
        ensures bytes { result.now ≡ self.now.digest.items }
        ensures len { length result.now ≡ self.now.range.length }
    {
        self.digest.as_slice()
    }

    /// Hashes the content of a name (BLAKE3 (2020), 2.6), and answers whether it can be read, or why not. A run
    /// fault comes where the content has not ended after as many reads as `limits` allow.
    pub fn hash_name<R: Threads + Wait + Sync, G: Gate + Sync, S: Shelf + Send + Sync>(
        &mut self,
        pool: &Pool<'_, R, G>,
        shelf: &mut S,
        name: &str,
        limits: Limits,
    ) -> Result<Result<(), NoContent>, RunFault>
        requires count { S.failures shelf.old < 2 ^ 64 - 1 }
        requires some_turns { 0 < limits.turns }
        requires turns { limits.turns ≤ 2 ^ 40 }
        ensures digest { IfOk result (λ whole. IsDigestOf (S.told shelf.old) (S.is_sure shelf.old)
            name.now self.old.range (found_if whole self.new.digest.items)) }
        ensures fault { IfErr result (λ fault. IsReadingFault fault (S.told shelf.old) limits Hashed name.now) }
        ensures no_sink { is_write_fault result ≡ false }
        ensures count { S.failures shelf.new ≡ S.failures shelf.old + unread_count result }
        ensures told { S.told shelf.new ≡ S.told shelf.old }
        ensures still_sure { S.is_sure shelf.new ≡ S.is_sure shelf.old }
        ensures range { self.new.range ≡ self.old.range }
    {
        if let Err(why) = shelf.begin(name) {
            return Ok(Err(why));
        }
        let Some(output) = self.hash_rest(pool, shelf, limits)? else {
            return Ok(Err(NoContent::CannotRead));
        };
        self.take_digest(output);
        Ok(Ok(()))
    }

    // Hashes what is left of the file that is begun, and answers its output, or nothing where it cannot be
    // read. What is not read at offsets is read from its beginning, in order.
    fn hash_rest<R: Threads + Wait + Sync, G: Gate + Sync, S: Shelf + Send + Sync>(
        &mut self,
        pool: &Pool<'_, R, G>,
        shelf: &mut S,
        limits: Limits,
    ) -> Result<Option<Xof>, RunFault>
        requires count { S.failures shelf.old < 2 ^ 64 - 1 }
        requires some_turns { 0 < limits.turns }
        requires turns { limits.turns ≤ 2 ^ 40 }
        ensures whole { IfOk result (λ read. MatchOption read (S.is_sure shelf.old ≡ false)
            (λ output. IsOutputOf (S.told shelf.old) (S.left shelf.old) self.old.range.mode output)) }
        ensures fault { IfErr result (λ fault.
            IsFaultOfRest fault (S.told shelf.old) limits Hashed (S.left shelf.old)) }
        ensures no_sink { is_write_fault result ≡ false }
        ensures count { S.failures shelf.new ≡ S.failures shelf.old + is_unread result }
        ensures told { S.told shelf.new ≡ S.told shelf.old }
        ensures still_sure { S.is_sure shelf.new ≡ S.is_sure shelf.old }
        ensures range { self.new.range ≡ self.old.range }
    {
        let mode = self.range.mode;
        if let Some(output) = hash_at_offsets(pool, &*shelf, &mode, limits, &mut self.buffer) {
            return Ok(Some(output));
        }
        let buffer = self.buffer.for_reads(shelf.len_hint())?;
        hash_in_order(shelf, &mode, limits.turns, buffer)
    }

    // Takes the digest from the output of a content.
    fn take_digest(&mut self, output: Xof)
        ensures digest { self.new.digest.items ≡ output_bytes output.node self.old.range.seek self.old.range.length }
        ensures range { self.new.range ≡ self.old.range }
    {
        self.range.fill(output, self.digest.as_mut_slice());
    }
}
