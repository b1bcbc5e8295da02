//! A list of check lines, as it is read.

ghost use Rattle.std.specs.Prelude.{◌≡◌, ◌-◌, ◌+◌, ◌^◌, ◌<◌, ◌≤◌, [], false, IsSome, IfOk, IfErr, MatchResult, OnOk, length, vec_len};
ghost use Rattle.b3_io.specs.Faults.{is_write_fault};
ghost use Rattle.b3_io.specs.Reading.{IsFaultOfRest, IsReadingFault, found_if, unread_count};
ghost use Rattle.b3_io.specs.Scripts.{AgreesWith};
ghost use Rattle.b3_io.specs.Scripts.Kind.{Listed};
ghost use Rattle.b3_io.specs.declared.shelf.NoContent.TheVariants.{CannotRead};

use crate::buffer::Buffer;
use crate::fault::RunFault;
use crate::in_order::fill;
use crate::options::Limits;
use crate::shelf::{NoContent, Shelf};
use std::alloc::{AllocError, Global};

/// Reads lists whole, one after the other, over the same memory.
#[derive(Drop)]
pub struct ListReader {
    buffer: Buffer,
    text: Vec<u8>,
}

impl ListReader {
    /// A reader that has read nothing. It takes the memory for its reads here.
    pub fn new(alloc: Global) -> Result<ListReader, AllocError> {
        Ok(ListReader {
            buffer: Buffer::new(alloc)?,
            text: Vec::new(alloc),
        })
    }

    /// The text of the list that was read last.
    pub fn text(&self) -> &[u8]
        ensures { result.now ≡ self.now.text.items }
    {
        self.text.as_slice()
    }

    /// Reads the list of this name, and answers whether it can be read, or why not. A run fault comes where
    /// it has more bytes than `limits` allow, or has not ended after as many reads.
    pub fn read<S: Shelf>(
        &mut self,
        shelf: &mut S,
        name: &str,
        limits: Limits,
    ) -> Result<Result<(), NoContent>, RunFault>
        requires count { S.failures shelf.old < 2 ^ 64 - 1 }
        requires turns { 0 < limits.turns }
        ensures answer { IfOk result (λ whole. AgreesWith (S.told shelf.old) (S.is_sure shelf.old) Listed name.now
            (found_if whole self.new.text.items)) }
        ensures fault { IfErr result (λ fault. IsReadingFault fault (S.told shelf.old) limits Listed name.now) }
        ensures no_sink { is_write_fault result ≡ false }
        ensures largest { OnOk result (vec_len self.new.text ≤ limits.largest) }
        ensures count { S.failures shelf.new ≡ S.failures shelf.old + unread_count result }
        ensures told { S.told shelf.new ≡ S.told shelf.old }
        ensures still_sure { S.is_sure shelf.new ≡ S.is_sure shelf.old }
    {
        self.text.clear();
        if let Err(why) = shelf.begin(name) {
            return Ok(Err(why));
        }
        let buffer = self.buffer.for_reads(shelf.len_hint())?;
        read_text(shelf, buffer, &mut self.text, limits)
    }
}

// Reads what is left of the list that is begun.
fn read_text<S: Shelf>(
    shelf: &mut S,
    buffer: &mut [u8],
    text: &mut Vec<u8>,
    limits: Limits,
) -> Result<Result<(), NoContent>, RunFault>
    requires count { S.failures shelf.old < 2 ^ 64 - 1 }
    requires turns { 0 < limits.turns }
    requires buffer { 0 < length buffer.old }
    requires empty { text.old.items ≡ [] }
    ensures read { IfOk result (λ read. MatchResult read
        (λ _. IsSome (S.told shelf.old) → S.left shelf.old ≡ text.new.items)
        (λ why. (why ≡ CannotRead) × (S.is_sure shelf.old ≡ false))) }
    ensures fault { IfErr result (λ fault. IsFaultOfRest fault (S.told shelf.old) limits Listed (S.left shelf.old)) }
    ensures no_sink { is_write_fault result ≡ false }
    ensures largest { OnOk result (vec_len text.new ≤ limits.largest) }
    ensures count { S.failures shelf.new ≡ S.failures shelf.old + unread_count result }
    ensures told { S.told shelf.new ≡ S.told shelf.old }
    ensures still_sure { S.is_sure shelf.new ≡ S.is_sure shelf.old }
{
    let mut turns = limits.turns;
    'fills: loop {
        let left = limits.largest - text.len() as u64;
        // One byte over the bound shows that the list is too long, so that no more is asked for.
        let len = left.saturating_add(1).min(buffer.len() as u64) as usize;
        let front = &mut buffer[..len];
        let Some(count) = fill(shelf, front, &mut turns)? else {
            return Ok(Err(NoContent::CannotRead));
        };
        if count as u64 > left {
            return Err(RunFault::EndlessInput);
        }
        text.extend_from_slice(&front[..count])?;
        if count < len {
            return Ok(Ok(()));
        }
    }
}
