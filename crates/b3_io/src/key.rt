//! The key of a keyed hash, as it is read.

ghost use Rattle.std.specs.Prelude.{◌≡◌, ◌≢◌, ◌+◌, ◌-◌, ◌^◌, ◌<◌, ◌≤◌, ◌++◌, [], take, length, false, IsTrue, IsSome, IsOk, IfOk, IfErr, MatchOption, is_err, is_none, if◌then◌else◌};
ghost use Rattle.b3_core.specs.Modes.{keyed_mode};
ghost use Rattle.b3_io.specs.Contents.{input_name};
ghost use Rattle.b3_io.specs.Reading.{key_answer, key_bytes};
ghost use Rattle.b3_io.specs.Scripts.{AgreesWith};
ghost use Rattle.b3_io.specs.Scripts.Kind.{Key};
ghost use Rattle.b3_io.specs.declared.fault.RunFault.TheVariants.{BadKey};

use crate::fault::RunFault;
use crate::in_order::fill;
use crate::shelf::{INPUT_NAME, NoContent, Shelf};
use b3_core::Mode;

/// How many bytes a key has.
const KEY_LEN: usize = 32;

/// How many bytes of a key are read: one more than it may have.
const KEY_BUFFER_LEN: usize = KEY_LEN + 1;

/// What was read of a key: all of it, or its first 33 bytes.
#[derive(Clone, Copy)]
pub struct KeyRead {
    buffer: [u8; KEY_BUFFER_LEN],
    len: usize,
}

impl KeyRead {
    /// Reads the key, or answers why it cannot be read. Each read asks for what is missing.
    pub fn read<S: Shelf>(shelf: &mut S) -> Result<KeyRead, NoContent>
        requires { S.failures shelf.old < 2 ^ 64 - 1 }
        ensures answer { AgreesWith (S.told shelf.old) (S.is_sure shelf.old) Key input_name (key_answer result) }
        ensures count { S.failures shelf.new ≡ S.failures shelf.old + (if is_err result then 1 else 0) }
        ensures told { S.told shelf.new ≡ S.told shelf.old }
        ensures still_sure { S.is_sure shelf.new ≡ S.is_sure shelf.old }
    {
        shelf.begin(INPUT_NAME)?;
        read_key(shelf).ok_or(NoContent::CannotRead)
    }

    /// The mode of the key, which is to be 32 bytes.
    pub fn mode(&self) -> Result<Mode, RunFault>
        ensures ok { IfOk result (λ mode. (length (key_bytes self.now) ≡ 32)
            × (mode ≡ keyed_mode (key_bytes self.now))) }
        ensures err { IfErr result (λ fault. (length (key_bytes self.now) ≢ 32) × (fault ≡ BadKey)) }
    {
        if self.len != KEY_LEN {
            return Err(RunFault::BadKey);
        }
        let mut key = [0; KEY_LEN];
        key.copy_from_slice(&self.buffer[..KEY_LEN]);
        Ok(Mode::keyed(&key))
    }
}

// Reads the key from the file that is begun.
fn read_key<S: Shelf>(shelf: &mut S) -> Option<KeyRead>
    requires { S.failures shelf.old < 2 ^ 64 - 1 }
    ensures answer { MatchOption result (S.is_sure shelf.old ≡ false)
        (λ key. IsSome (S.told shelf.old) → take 33 (S.left shelf.old) ≡ key_bytes key) }
    ensures count { S.failures shelf.new ≡ S.failures shelf.old + (if is_none result then 1 else 0) }
    ensures told { S.told shelf.new ≡ S.told shelf.old }
    ensures still_sure { S.is_sure shelf.new ≡ S.is_sure shelf.old }
{
    let mut buffer = [0; KEY_BUFFER_LEN];
    // Each read but the last gives a byte.
    let mut turns = KEY_BUFFER_LEN as u64 + 1;
    match fill(shelf, &mut buffer, &mut turns) {
        Ok(Some(len)) => Some(KeyRead { buffer, len }),
        Ok(None) => None,
        Err(_) => unreachable!(),
    }
}
