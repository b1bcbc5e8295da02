//! How far a run is, as one line of text.

ghost use Rattle.std.specs.Prelude.{◌≤◌, IfOk, string_bytes};
ghost use Rattle.b3_progress.specs.Columns.{columns_of};

use std::alloc::{AllocError, Global};
use unicode_width::UnicodeWidthStr;

/// How many columns a line takes at most: one less than terminals have, so that the cursor stays on it.
const MAX_COLUMNS: usize = 79;

/// What was done of a run, and what is known to be done.
#[derive(Clone, Copy)]
pub struct Counts {
    /// How many bytes were read.
    pub bytes: u64,
    /// How many bytes the files have whose lengths are known.
    pub known_bytes: u64,
    /// How many names are done.
    pub names: u64,
    /// How many names there are whose lengths are known.
    pub known_names: u64,
    /// How many names there are.
    pub all_names: u64,
    /// How many milliseconds this took.
    pub millis: u64,
}

impl Counts {
    // How many bytes there are: the mean of the lengths that are known stands for each one that is not.
    fn total(&self) -> u64 {
        let mean = self.known_bytes / self.known_names.max(1);
        let unknown = self.all_names.saturating_sub(self.known_names);
        self.known_bytes
            .saturating_add(mean.saturating_mul(unknown))
    }

    // How many bytes were read in a second.
    fn rate(&self) -> u64 {
        self.bytes.saturating_mul(1_000) / self.millis.max(1)
    }
}

/// The line for these counts and the name in hand, of which there is as much of its end as the line takes.
pub fn progress_line(alloc: Global, counts: &Counts, name: &str) -> Result<String, AllocError>
    ensures { IfOk result (λ line. columns_of (string_bytes line) ≤ 79) }
{
    let text = counts_text(alloc, counts)?;
    let columns = MAX_COLUMNS.saturating_sub(text.as_str().width());
    let end = last_columns(alloc, name, columns)?;
    first_columns(alloc, format!(in alloc; "{text}{end}")?.as_str())
}

// As much of the beginning of a text as a line takes.
fn first_columns(alloc: Global, text: &str) -> Result<String, AllocError>
    ensures { IfOk result (λ front. columns_of (string_bytes front) ≤ 79) }
{
    let mut front = String::new(alloc);
    for character in text.chars() {
        let longer = format!(in alloc; "{front}{character}")?;
        if longer.as_str().width() > MAX_COLUMNS {
            break;
        }
        front = longer;
    }
    Ok(front)
}

// As much of the end of a name as so many columns take. A question mark stands for each control character, which would
// move the cursor.
fn last_columns(alloc: Global, name: &str, columns: usize) -> Result<String, AllocError> {
    let mut end = String::new(alloc);
    for character in name.chars().rev().take(columns) {
        let shown = if character.is_control() {
            '?'
        } else {
            character
        };
        let longer = format!(in alloc; "{shown}{end}")?;
        if longer.as_str().width() > columns {
            break;
        }
        end = longer;
    }
    Ok(end)
}

// What stands before the name. Of bytes whose number is not known, as those of a pipe, it says neither how many there
// are nor how long they take.
fn counts_text(alloc: Global, counts: &Counts) -> Result<String, AllocError> {
    let (names, all_names) = (counts.names, counts.all_names);
    let (total, rate) = (counts.total(), counts.rate());
    let done = bytes_text(alloc, counts.bytes)?;
    let speed = bytes_text(alloc, rate)?;
    if total <= counts.bytes {
        return format!(in alloc; "{done}, {speed}/s, {names} of {all_names}: ");
    }
    let about = if counts.known_names < all_names {
        "~"
    } else {
        ""
    };
    let percent = counts.bytes.saturating_mul(100) / total;
    let left = time_text(alloc, (total - counts.bytes) / rate.max(1))?;
    let total = bytes_text(alloc, total)?;
    format!(in alloc;
        "{done} of {about}{total}, {percent}%, {speed}/s, {left} left, {names} of {all_names}: "
    )
}

// So many bytes, in the greatest unit of which there is one, to a tenth.
fn bytes_text(alloc: Global, bytes: u64) -> Result<String, AllocError> {
    if bytes < 1_024 {
        return format!(in alloc; "{bytes} B");
    }
    let (mut whole, mut tenths, mut unit) = (bytes, 0, "B");
    for greater in ["KiB", "MiB", "GiB", "TiB", "PiB", "EiB"] {
        if whole < 1_024 {
            break;
        }
        tenths = whole % 1_024 * 10 / 1_024;
        whole /= 1_024;
        unit = greater;
    }
    format!(in alloc; "{whole}.{tenths} {unit}")
}

// So many seconds, as minutes and seconds, after the hours if there are any.
fn time_text(alloc: Global, seconds: u64) -> Result<String, AllocError> {
    let (hours, minutes, seconds) = (seconds / 3_600, seconds / 60 % 60, seconds % 60);
    if hours > 0 {
        return format!(in alloc; "{hours}:{minutes:02}:{seconds:02}");
    }
    format!(in alloc; "{minutes}:{seconds:02}")
}
