//! Check lines: written into texts, some of them broken, and read back.

ghost use Rattle.std.specs.Prelude.{◌^◌, ◌<◌};

use crate::names::name_of;
use crate::random::Random;
use crate::results::Results;
use crate::supply::Supply;
use b3_lines::{LineFault, lines, read_line, write_line, write_tagged};
use std::alloc::{AllocError, Global};

/// How many lines a text has at most.
const MAX_LINES: u64 = 2_000;

/// How many names there are, which come again and again beside other digests.
const NAMES: u64 = 1_024;

/// One in so many names has a character that is escaped.
const ESCAPED_IN: u64 = 20;

/// Writes and reads so many lines.
pub fn run_lines(
    alloc: Global,
    size: u64,
    random: &mut Random,
    supply: &mut Supply<'_>,
    results: &mut Results,
) -> Result<(), LineFault> {
    let names = names(alloc, random)?;
    let mut text = Vec::new(alloc);
    let mut found = Vec::new(alloc);
    for first in (0..size).step_by(MAX_LINES as usize) {
        text.clear();
        for _ in 0..MAX_LINES.min(size.saturating_sub(first)) {
            add_line(alloc, &mut text, names.as_slice(), random, supply)?;
        }
        found.clear();
        add_found(alloc, text.as_slice(), &mut found)?;
        results.add_folded(found.as_slice());
    }
    Ok(())
}

/// The names.
fn names(alloc: Global, random: &mut Random) -> Result<Vec<String>, AllocError> {
    let mut names = Vec::new(alloc);
    for number in 0..NAMES {
        names.push(name_of(alloc, random, number, ESCAPED_IN)?)?;
    }
    Ok(names)
}

/// Appends a line of some name to the text.
fn add_line(
    alloc: Global,
    text: &mut Vec<u8>,
    names: &[String],
    random: &mut Random,
    supply: &mut Supply<'_>,
) -> Result<(), LineFault> {
    let dice = random.word();
    let Some(name) = names.get((dice % NAMES) as usize) else {
        return Ok(());
    };
    let digest = supply.take(32);
    let mut line = if (dice >> 10) % 4 == 0 {
        write_tagged(alloc, digest, name.as_str())?
    } else {
        write_line(alloc, digest, name.as_str())?
    };
    if (dice >> 12) % 100 == 0 {
        break_line(&mut line, random)?;
    }
    if (dice >> 20) % 16 == 0 {
        line.pop();
        line.extend_from_slice(b"\r\n")?;
    }
    text.extend_from_slice(line.as_slice())?;
    Ok(())
}

/// Cuts a line short, or puts another character in the place of a digit.
fn break_line(line: &mut Vec<u8>, random: &mut Random) -> Result<(), AllocError> {
    let place = random.below(100) as usize;
    if random.below(2) == 0 {
        line.truncate(place);
        line.push(b'\n')?;
        return Ok(());
    }
    if let Some(byte) = line.get_mut(place) {
        *byte = b'g';
    }
    Ok(())
}

/// Reads the lines of a text, and appends what they say, or the numbers of the faults. What is shown of a name is
/// appended where it is another text.
fn add_found(alloc: Global, text: &[u8], found: &mut Vec<u8>) -> Result<(), AllocError> {
    for (start, end) in lines(text) {
        let line = text.get(start..end);
        match read_line(alloc, line.unwrap_or(b"")) {
            Ok(line) => {
                found.extend_from_slice(&line.digest)?;
                found.extend_from_slice(line.name.as_bytes())?;
                if line.shown.len() != line.name.len() {
                    found.extend_from_slice(line.shown.as_bytes())?;
                }
            }
            Err(fault) => found.push(fault as u8)?,
        }
    }
    Ok(())
}
