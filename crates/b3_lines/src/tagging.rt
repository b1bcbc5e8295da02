//! Tagged lines written.

ghost use Rattle.std.specs.Prelude.{◌≡◌, ◌↔◌, ◌⊎◌, ◌++◌, ◌∷◌, [], List, ℕ, length, IsTrue, IfOk, IfErr, IsErrOf};
ghost use Rattle.b3_lines.specs.Lines.{lines_of};
ghost use Rattle.b3_lines.specs.Names.{holds_bad_character};
ghost use Rattle.b3_lines.specs.Reading.{ReadsTagged};
ghost use Rattle.b3_lines.specs.Writing.{shown, tagged, tagged_text};

use crate::fault::LineFault;
use crate::names::push_name;
use crate::writing::{begin_line, push_digits};
use std::alloc::Global;

/// How many bytes a tagged line has beside its mark, its digits and its name.
const TAGGED_LEN: usize = 13;

/// The tagged line of a digest and a name, with its line feed: `BLAKE3 (`, the name, `) = ` and the
/// digits.
///
/// Refused as `write_line` refuses.
pub fn write_tagged(alloc: Global, digest: &[u8], name: &str) -> Result<Vec<u8>, LineFault>
    ensures written { IfOk result (λ line. line.items ≡ tagged digest.now name.now) }
    ensures no_name { IsErrOf result LineFault.NoName ↔ (name.now ≡ []) }
    ensures bad_character { IsErrOf result LineFault.BadCharacter ↔
        IsTrue (holds_bad_character name.now) }
    ensures no_other { IfErr result (λ fault. (fault ≡ LineFault.NoName)
        ⊎ (fault ≡ LineFault.BadCharacter) ⊎ (fault ≡ LineFault.Memory)) }

    // Without its line feed, the line of a digest of 32 bytes reads to that digest, that name and
    // its shown form, and to nothing else, as `read_line` says.
    ensures read_back { length digest.now ≡ 32 → IfOk result (λ line. (written : List ℕ)
        × (line.items ≡ written ++ 10 ∷ [])
        × ReadsTagged written digest.now name.now (shown name.now)) }

    // It is one line: its only line feed ends it.
    ensures one_line { IfOk result (λ line. lines_of line.items ≡ tagged_text digest.now name.now ∷ []) }
{
    let mut line = begin_line(alloc, digest, name, TAGGED_LEN)?;
    let marked = !line.is_empty();
    line.extend_from_slice(b"BLAKE3 (")?;
    push_name(&mut line, name.as_bytes(), marked)?;
    line.extend_from_slice(b") = ")?;
    push_digits(&mut line, digest)?;
    line.push(b'\n')?;
    Ok(line)
}
