//! Plain lines written, and what is shown of a name.

ghost use Rattle.std.specs.Prelude.{◌≡◌, ◌↔◌, ◌⊎◌, ◌+◌, ◌*◌, ◌^◌, ◌<◌, ◌==◌, ◌++◌, ◌∷◌, [], List, ℕ, length, IsTrue, if◌then◌else◌, OnOk, IfOk, IfErr, IsErrOf};
ghost use Rattle.std.specs.String.{string_bytes};
ghost use Rattle.hex.specs.Hex.{encode_lower};
ghost use Rattle.b3_lines.specs.Lines.{lines_of};
ghost use Rattle.b3_lines.specs.Names.{holds_bad_character};
ghost use Rattle.b3_lines.specs.Reading.{Reads};
ghost use Rattle.b3_lines.specs.Writing.{mark, plain, plain_text, shown};

use crate::digits::write_digits;
use crate::fault::LineFault;
use crate::names::{count_to_escape, holds_bad_character, push_escaped, push_name};
use std::alloc::{AllocError, Global};

/// How many bytes a plain line has beside its mark, its digits and its name.
const PLAIN_LEN: usize = 3;

/// The plain line of a digest and a name, with its line feed.
///
/// Refused as `NoName` where the name is empty, as `BadCharacter` where it holds NUL or U+FFFD,
/// and as `Memory` where there is no room for the line.
pub fn write_line(alloc: Global, digest: &[u8], name: &str) -> Result<Vec<u8>, LineFault>
    ensures written { IfOk result (λ line. line.items ≡ plain digest.now name.now) }
    ensures no_name { IsErrOf result LineFault.NoName ↔ (name.now ≡ []) }
    ensures bad_character { IsErrOf result LineFault.BadCharacter ↔
        IsTrue (holds_bad_character name.now) }
    ensures no_other { IfErr result (λ fault. (fault ≡ LineFault.NoName)
        ⊎ (fault ≡ LineFault.BadCharacter) ⊎ (fault ≡ LineFault.Memory)) }

    // Without its line feed, the line of a digest of 32 bytes reads to that digest, that name and
    // its shown form, and to nothing else, as `read_line` says.
    ensures read_back { length digest.now ≡ 32 → IfOk result (λ line. (written : List ℕ)
        × (line.items ≡ written ++ 10 ∷ [])
        × Reads written digest.now name.now (shown name.now)) }

    // It is one line: its only line feed ends it.
    ensures one_line { IfOk result (λ line. lines_of line.items ≡ plain_text digest.now name.now ∷ []) }
{
    let mut line = begin_line(alloc, digest, name, PLAIN_LEN)?;
    let marked = !line.is_empty();
    push_digits(&mut line, digest)?;
    line.extend_from_slice(b"  ")?;
    push_name(&mut line, name.as_bytes(), marked)?;
    line.push(b'\n')?;
    Ok(line)
}

/// The mark of a name that a line can hold, with room for its whole line: for the mark, the digits, the
/// name and `around` bytes beside them. Refused as `write_line` refuses.
pub(crate) fn begin_line(
    alloc: Global,
    digest: &[u8],
    name: &str,
    around: usize,
) -> Result<Vec<u8>, LineFault>
    ensures begun { IfOk result (λ line. line.items ≡ mark name.now) }
    ensures no_name { IsErrOf result LineFault.NoName ↔ (name.now ≡ []) }
    ensures bad_character { IsErrOf result LineFault.BadCharacter ↔
        IsTrue (holds_bad_character name.now) }
    ensures no_other { IfErr result (λ fault. (fault ≡ LineFault.NoName)
        ⊎ (fault ≡ LineFault.BadCharacter) ⊎ (fault ≡ LineFault.Memory)) }
{
    if name.is_empty() {
        return Err(LineFault::NoName);
    }
    let name = name.as_bytes();
    if holds_bad_character(name) {
        return Err(LineFault::BadCharacter);
    }
    let escapes = count_to_escape(name);
    let mut line = Vec::with_capacity(alloc, line_length(digest, name, escapes, around))?;
    push_mark(&mut line, escapes != 0)?;
    Ok(line)
}

/// Appends the mark of a marked name.
fn push_mark(line: &mut Vec<u8>, marked: bool) -> Result<(), AllocError>
    ensures { OnOk result (line.new.items ≡ line.old.items ++ (if marked then 92 ∷ [] else [])) }
{
    if marked {
        line.push(b'\\')?;
    }
    Ok(())
}

/// The length of a line, for the number of characters that are escaped in its name and the number of
/// bytes beside its mark, its digits and its name.
fn line_length(digest: &[u8], name: &[u8], escapes: usize, around: usize) -> usize
    ensures { let mark = if escapes == 0 then 0 else 1 in
        let whole = 2 * length digest.now + length name.now + escapes + mark + around in
        whole < 2 ^ 64 → result ≡ whole }
{
    let mark = usize::from(escapes != 0);
    let digits = digest.len().saturating_mul(2);
    let name = name.len().saturating_add(escapes);
    digits
        .saturating_add(name)
        .saturating_add(mark)
        .saturating_add(around)
}

/// Appends the digits of a digest, in lower case.
pub(crate) fn push_digits(line: &mut Vec<u8>, digest: &[u8]) -> Result<(), AllocError>
    ensures { OnOk result (line.new.items ≡ line.old.items ++ encode_lower digest.now) }
{
    let mut digits = [0u8; 64];
    for piece in digest.chunks(32) {
        let room = &mut digits[..2 * piece.len()];
        write_digits(piece, room);
        line.extend_from_slice(room)?;
    }
    Ok(())
}

/// The shown form of a name: the name itself, or a backslash and the escaped name where a
/// character of it is escaped. Refused as `Memory` alone, where there is no room for it.
pub fn shown_name(alloc: Global, name: &str) -> Result<String, LineFault>
    ensures shown { IfOk result (λ text. string_bytes text ≡ shown name.now) }
    ensures refused { IfErr result (λ fault. fault ≡ LineFault.Memory) }
{
    let escapes = count_to_escape(name.as_bytes());
    if escapes == 0 {
        return Ok(String::from_str(alloc, name)?);
    }
    let mut text = Vec::with_capacity(alloc, name.len().saturating_add(escapes).saturating_add(1))?;
    text.push(b'\\')?;
    push_escaped(&mut text, name.as_bytes())?;
    Ok(String::from_utf8(text).unwrap())
}
