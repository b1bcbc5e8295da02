//! The arguments of a call.

ghost use Rattle.std.specs.Prelude.{◌≤◌, IfOk, IfSome, vec_len};

use std::alloc::{AllocError, Global};
use std::env::FillError;
use std::io::{self, ErrorKind};
use std::rt::Env;

/// How many bytes the buffer has before there is an argument that is longer.
const FIRST_BUFFER_LEN: usize = 256;

/// The arguments of a call, each in a buffer of its own length: those of `env::args` have 256 bytes and more, which
/// is far more than a name takes.
pub fn arguments<R: Env>(rt: &R, alloc: Global) -> io::Result<Vec<String>> {
    let mut buffer = vec![in alloc; 0; FIRST_BUFFER_LEN]?;
    let mut arguments = Vec::new(alloc);
    for i in 0..usize::MAX {
        let Some(len) = read(rt, i, &mut buffer)? else {
            break;
        };
        arguments.push(text(alloc, &buffer[..len])?)?;
    }
    Ok(arguments)
}

// Reads an argument into the buffer, which grows until it takes it, and answers its length; nothing after the last one.
fn read<R: Env>(rt: &R, i: usize, buffer: &mut Vec<u8>) -> Result<Option<usize>, AllocError>
    ensures { IfOk result (λ found. IfSome found (λ len. len ≤ vec_len buffer.new)) }
{
    for _ in 0..usize::BITS {
        match rt.arg(i, buffer.as_mut_slice()) {
            Ok(len) => return Ok(Some(len)),
            Err(FillError::NotPresent) => return Ok(None),
            Err(FillError::TooLong) => buffer.resize(buffer.len().saturating_mul(2), 0)?,
        }
    }
    Err(AllocError)
}

// A text of these bytes, which is refused where they are none.
fn text(alloc: Global, bytes: &[u8]) -> io::Result<String> {
    match str::from_utf8(bytes) {
        Ok(text) => Ok(String::from_str(alloc, text)?),
        Err(_) => Err(io::Error::from(ErrorKind::InvalidData)),
    }
}
