//! Names of files, as those in a tree of documents.

use crate::random::Random;
use std::alloc::{AllocError, Global};

/// What the names are made of.
const WORDS: [&str; 16] = [
    "lib",
    "python",
    "README",
    "changelog",
    "man",
    "locale",
    "LC_MESSAGES",
    "gz",
    "copyright",
    "examples",
    "de",
    "icons",
    "48x",
    "scalable",
    "html",
    "Módulo",
];

/// How many words a name has at most.
const MAX_WORDS: u64 = 8;

/// The name of the file of a number, whose digits come last. One in so many names has a character that is escaped.
pub fn name_of(
    alloc: Global,
    random: &mut Random,
    number: u64,
    escaped_in: u64,
) -> Result<String, AllocError> {
    let mut name = String::from_str(alloc, "usr/share/doc/")?;
    for _ in 0..random.between(1, MAX_WORDS) {
        name.push_str(WORDS[random.below(16) as usize])?;
        name.push(if random.below(2) == 0 { '/' } else { '-' })?;
    }
    if random.word() % escaped_in.max(1) == 0 {
        name.push(if random.below(2) == 0 { '\\' } else { '\n' })?;
    }
    write!(name, "/{number}")?;
    Ok(name)
}

/// The number at the end of a name.
pub fn number_of(name: &str) -> u64 {
    let mut number = 0u64;
    let mut unit = 1u64;
    for byte in name.as_bytes().iter().rev() {
        if !byte.is_ascii_digit() {
            break;
        }
        let digit = byte.wrapping_sub(b'0') as u64;
        number = number.wrapping_add(digit.wrapping_mul(unit));
        unit = unit.wrapping_mul(10);
    }
    number
}
