//! A file that is read from where it is begun to its end.

ghost use Rattle.std.specs.Prelude.{◌≡◌, ◌≢◌, ◌+◌, ◌-◌, ◌^◌, ◌<◌, ◌≤◌, ◌++◌, [], Ok, None, false, IsTrue, IsSome, IsOk, IfOk, IfErr, IfSome, MatchOption, OnErr, length, take, is_err, if◌then◌else◌};
ghost use Rattle.b3_io.specs.Faults.{is_write_fault};
ghost use Rattle.b3_io.specs.Reading.{IsFaultOfRest, IsFilled, IsOutputOf, is_unread};
ghost use Rattle.b3_io.specs.Scripts.Kind.{Hashed};
ghost use Rattle.b3_io.specs.declared.buffer.TheConstants.{READ_LEN};
ghost use Rattle.b3_io.specs.declared.fault.RunFault.TheVariants.{EndlessInput};

use crate::fault::RunFault;
use crate::shelf::{CannotRead, Shelf};
use b3_core::Mode;
use b3_hash::{Hasher, Xof};

/// Reads the next bytes of the file, until the buffer is full or the file ends, and answers how many they are: only
/// where it ends they are fewer than the buffer takes. Nothing where a read fails. Takes each read from `turns`; a run
/// fault comes where the file has not ended after the last of them.
pub fn fill<S: Shelf>(
    shelf: &mut S,
    buffer: &mut [u8],
    turns: &mut u64,
) -> Result<Option<usize>, RunFault>
    requires buffer { 0 < length buffer.old }
    requires turns { 0 < turns.old }
    requires count { S.failures shelf.old < 2 ^ 64 - 1 }
    ensures filled { IfOk result (λ found. IfSome found (λ n.
        IsFilled (S.told shelf.old) (S.left shelf.old) (S.left shelf.new) buffer.new turns.old turns.new n)) }
    ensures fault { IfErr result (λ fault. fault ≡ EndlessInput) }
    ensures endless { OnErr result (IsSome (S.told shelf.old) → turns.old ≤ length (S.left shelf.old)) }
    ensures few_turns { OnErr result (turns.old ≤ length buffer.old) }
    ensures sure { IsTrue (S.is_sure shelf.old) → result ≢ Ok None }
    ensures count { S.failures shelf.new ≡ S.failures shelf.old + is_unread result }
    ensures told { S.told shelf.new ≡ S.told shelf.old }
    ensures still_sure { S.is_sure shelf.new ≡ S.is_sure shelf.old }
{
    let mut filled = 0;
    'reads: while filled < buffer.len() {
        *turns -= 1;
        let Ok(count) = read_after(shelf, buffer, filled) else {
            return Ok(None);
        };
        if count == 0 {
            return Ok(Some(filled));
        }
        filled += count;
        if *turns == 0 {
            return Err(RunFault::EndlessInput);
        }
    }
    Ok(Some(filled))
}

// One read into the buffer after its first `filled` bytes.
fn read_after<S: Shelf>(
    shelf: &mut S,
    buffer: &mut [u8],
    filled: usize,
) -> Result<usize, CannotRead>
    requires not_full { filled < length buffer.old }
    requires count { S.failures shelf.old < 2 ^ 64 - 1 }
    ensures within { IfOk result (λ n. filled + n ≤ length buffer.old) }
    ensures bytes { IsSome (S.told shelf.old) → IfOk result (λ n.
        take filled buffer.old ++ S.left shelf.old ≡ take (filled + n) buffer.new ++ S.left shelf.new) }
    ensures end { IsSome (S.told shelf.old) → IfOk result (λ n. n ≡ 0 → S.left shelf.new ≡ []) }
    ensures sure { IsTrue (S.is_sure shelf.old) → IsOk result }
    ensures count { S.failures shelf.new ≡ S.failures shelf.old + (if is_err result then 1 else 0) }
    ensures told { S.told shelf.new ≡ S.told shelf.old }
    ensures still_sure { S.is_sure shelf.new ≡ S.is_sure shelf.old }
{
    let count = shelf.read(&mut buffer[filled..])?;
    Ok(count)
}

/// The output of what is left of the file, which goes through the buffer. Nothing where it cannot be read. A run fault
/// comes where the file has not ended after so many reads.
pub fn hash_in_order<S: Shelf>(
    shelf: &mut S,
    mode: &Mode,
    turns: u64,
    buffer: &mut [u8],
) -> Result<Option<Xof>, RunFault>
    requires buffer { 0 < length buffer.old }
    requires most { length buffer.old ≤ READ_LEN }
    requires some_turns { 0 < turns }
    requires turns { turns ≤ 2 ^ 40 }
    requires count { S.failures shelf.old < 2 ^ 64 - 1 }
    ensures whole { IfOk result (λ read. MatchOption read (S.is_sure shelf.old ≡ false)
        (λ output. IsOutputOf (S.told shelf.old) (S.left shelf.old) mode.now output)) }
    ensures fault { IfErr result (λ fault. fault ≡ EndlessInput) }
    ensures endless { OnErr result (IsSome (S.told shelf.old) → turns ≤ length (S.left shelf.old)) }
    ensures count { S.failures shelf.new ≡ S.failures shelf.old + is_unread result }
    ensures told { S.told shelf.new ≡ S.told shelf.old }
    ensures still_sure { S.is_sure shelf.new ≡ S.is_sure shelf.old }
{
    let mut hasher = Hasher::new(*mode);
    let mut left = turns;
    'fills: loop {
        let Some(count) = fill(shelf, buffer, &mut left)? else {
            return Ok(None);
        };
        hasher.update(&buffer[..count]).unwrap();
        if count < buffer.len() {
            return Ok(Some(hasher.finish()));
        }
    }
}
