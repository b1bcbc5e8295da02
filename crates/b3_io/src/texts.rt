//! Texts that a name or a number stands in.

ghost use Rattle.std.specs.Prelude.{◌≡◌, IfOk};
ghost use Rattle.std.specs.String.{string_bytes};
ghost use Rattle.b3_io.specs.Checks.{line_reason, mismatches, warning};
ghost use Rattle.b3_io.specs.Sums.{complaint, not_text};

use crate::prefixed;
use b3_lines::{LineFault, shown_name};
use std::alloc::{AllocError, Global};

/// What is said of a name that fails for this reason, with a line feed.
pub fn complaint(alloc: Global, name: &str, why: &str) -> Result<Vec<u8>, AllocError>
    ensures { IfOk result (λ line. line.items ≡ complaint name.now why.now) }
{
    let shown = match shown_name(alloc, name) {
        Ok(shown) => shown,
        Err(LineFault::Memory) => return Err(AllocError),
        Err(_) => unreachable!(),
    };
    let mut text = Vec::new(alloc);
    text.extend_from_slice(prefixed!("").as_bytes())?;
    text.extend_from_slice(shown.as_bytes())?;
    text.extend_from_slice(b": ")?;
    text.extend_from_slice(why.as_bytes())?;
    text.extend_from_slice(b"\n")?;
    Ok(text)
}

/// Why the line of this number is refused.
pub fn line_reason(alloc: Global, number: u64, reason: &str) -> Result<String, AllocError>
    ensures { IfOk result (λ text. string_bytes text ≡ line_reason number reason.now) }
{
    let number = number.to_string(alloc)?;
    let mut text = String::new(alloc);
    text.push_str("line ")?;
    text.push_str(number.as_str())?;
    text.push_str(": ")?;
    text.push_str(reason)?;
    Ok(text)
}

/// Why the name of this number in a list of names has no line.
pub fn not_text(alloc: Global, number: u64) -> Result<String, AllocError>
    ensures { IfOk result (λ text. string_bytes text ≡ not_text number) }
{
    let number = number.to_string(alloc)?;
    let mut text = String::new(alloc);
    text.push_str("name ")?;
    text.push_str(number.as_str())?;
    text.push_str(" is not text")?;
    Ok(text)
}

/// What is said where so many names and lines failed.
pub fn warning(alloc: Global, failed: u64) -> Result<Vec<u8>, AllocError>
    ensures { IfOk result (λ text. text.items ≡ warning failed) }
{
    let mut text = Vec::new(alloc);
    if failed == 0 {
        return Ok(text);
    }
    let count = failed.to_string(alloc)?;
    text.extend_from_slice(prefixed!("WARNING: ").as_bytes())?;
    text.extend_from_slice(count.as_bytes())?;
    text.extend_from_slice(mismatches(failed).as_bytes())?;
    text.extend_from_slice(b"\n")?;
    Ok(text)
}

// The words after the number of names and lines that failed.
fn mismatches(failed: u64) -> &'static str
    ensures { result.now ≡ mismatches failed }
{
    if failed == 1 {
        " computed checksum did NOT match"
    } else {
        " computed checksums did NOT match"
    }
}
