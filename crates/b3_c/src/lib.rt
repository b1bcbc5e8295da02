//! BLAKE3 for C programs: the calls of `include/blake3.h`, each with a clause.
//!
//! An export does its work by one call of `calls`, whose clauses are plain, and only steps through the pointer to the
//! hasher. The caller owes what `requires*` says: memory of a hasher that nobody else uses during the call, and that an
//! init call was the first on it. Nothing checks that of a C program.
#![tactic(auto)]

ghost use Rattle.std.specs.Borrow.{full_share, sem};
ghost use Rattle.std.specs.Ptr.{lies_at, room_at};
ghost use Rattle.b3_c.specs.Calls.{IsAppended, IsNew, IsOutput};
ghost use Rattle.b3_core.specs.Modes.{hash_mode, keyed_mode};
ghost use Rattle.b3_hash.specs.Derivation.{derived_mode};
ghost use Rattle.b3_hash.specs.Hashers.{HasherState, mode_of};
ghost use Rattle.b3_hash.specs.contracts.Hasher.{the_row as HasherRow};

mod calls;
#[cfg(test)]
mod tests;

use crate::calls::{
    append, deriving_hasher, keyed_hasher, plain_hasher, read, read_from, start_over,
};
use b3_hash::Hasher;

/// The memory that C lends for a hasher: `blake3_hasher` of the header.
#[repr(C)]
#[derive(Drop)]
pub struct Storage {
    words: [u64; 253],
}

const _: () = prove!(size_of::<Hasher>() == size_of::<Storage>());

const _: () = prove!(align_of::<Hasher>() == align_of::<Storage>());

/// Makes a hasher of an input of which no bytes have come, in memory that may hold anything.
#[unsafe(no_mangle)]
pub unsafe extern "C" fn blake3_hasher_init(hasher: *mut Storage)
    requires* room { sem 𝓛 (room_at HasherRow hasher) }
    ensures* made { ∃ₛ (λ (made : HasherState). sem 𝓛 (lies_at HasherRow full_share hasher made)
        ∗ ⌜ IsNew hash_mode made ⌝) }
{
    std::ptr::write(hasher as *mut Hasher, plain_hasher());
}

/// The same, for a hash that is keyed by 32 bytes.
#[unsafe(no_mangle)]
pub unsafe extern "C" fn blake3_hasher_init_keyed(hasher: *mut Storage, key: &[u8; 32])
    requires* room { sem 𝓛 (room_at HasherRow hasher) }
    ensures* made { ∃ₛ (λ (made : HasherState). sem 𝓛 (lies_at HasherRow full_share hasher made)
        ∗ ⌜ IsNew (keyed_mode key.now) made ⌝) }
{
    std::ptr::write(hasher as *mut Hasher, keyed_hasher(key));
}

/// The same, for material of which a key is derived under these bytes as the context.
#[unsafe(no_mangle)]
pub unsafe extern "C" fn blake3_hasher_init_derive_key_raw(hasher: *mut Storage, context: &[u8])
    requires* room { sem 𝓛 (room_at HasherRow hasher) }
    ensures* made { ∃ₛ (λ (made : HasherState). sem 𝓛 (lies_at HasherRow full_share hasher made)
        ∗ ⌜ IsNew (derived_mode context.now) made ⌝) }
{
    std::ptr::write(hasher as *mut Hasher, deriving_hasher(context));
}

/// Takes in the next bytes of the input; none where the input would then have 2^64 bytes or more.
#[unsafe(no_mangle)]
pub unsafe extern "C" fn blake3_hasher_update(hasher: *mut Storage, input: &[u8])
    ghost before: { HasherState }
    requires* hasher { sem 𝓛 (lies_at HasherRow full_share hasher before) }
    ensures* appended { ∃ₛ (λ (after : HasherState). sem 𝓛 (lies_at HasherRow full_share hasher after)
        ∗ ⌜ IsAppended before input.now after ⌝) }
{
    append(&mut *(hasher as *mut Hasher), input);
}

/// Starts over, with an input in the same mode of which no bytes have come.
#[unsafe(no_mangle)]
pub unsafe extern "C" fn blake3_hasher_reset(hasher: *mut Storage)
    ghost before: { HasherState }
    requires* hasher { sem 𝓛 (lies_at HasherRow full_share hasher before) }
    ensures* new { ∃ₛ (λ (after : HasherState). sem 𝓛 (lies_at HasherRow full_share hasher after)
        ∗ ⌜ IsNew (mode_of before) after ⌝) }
{
    start_over(&mut *(hasher as *mut Hasher));
}

/// Writes the first bytes of the output of the input so far. The hasher stays as it is, and can go on.
#[unsafe(no_mangle)]
pub unsafe extern "C" fn blake3_hasher_finalize(hasher: *const Storage, out: &mut [u8])
    ghost state: { HasherState }
    requires* hasher { sem 𝓛 (lies_at HasherRow full_share hasher state) }
    ensures* unchanged { sem 𝓛 (lies_at HasherRow full_share hasher state) }
    ensures output { IsOutput state 0 out.old out.new }
{
    read(&*(hasher as *const Hasher), out);
}

/// The same from the output's byte `seek` on; nothing where the last byte would be past place 2^64 - 2.
#[unsafe(no_mangle)]
pub unsafe extern "C" fn blake3_hasher_finalize_seek(
    hasher: *const Storage,
    seek: u64,
    out: &mut [u8],
)
    ghost state: { HasherState }
    requires* hasher { sem 𝓛 (lies_at HasherRow full_share hasher state) }
    ensures* unchanged { sem 𝓛 (lies_at HasherRow full_share hasher state) }
    ensures output { IsOutput state seek out.old out.new }
{
    read_from(&*(hasher as *const Hasher), seek, out);
}
