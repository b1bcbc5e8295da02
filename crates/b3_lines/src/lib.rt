//! Check lines: a digest in hex digits and the name that it belongs to, written, read, and read
//! back.
//!
//! A plain line is the 64 lower-case digits of a digest, two spaces and the name; a tagged one is
//! `BLAKE3 (`, the name, `) = ` and the digits. A name that holds a backslash, a line feed or a
//! carriage return has them escaped, and its line is marked by a backslash in front. A line that is
//! read may have digits of either case and a carriage return at its very end, and is refused by name
//! where it is anything else.
#![tactic(auto)]

mod digits;
mod fault;
mod line_ranges;
mod names;
mod reading;
mod tagging;
mod writing;

pub use fault::LineFault;
pub use line_ranges::{Lines, first_piece};
pub use names::holds_bad_character;
pub use reading::{Line, lines, read_line};
pub use tagging::write_tagged;
pub use writing::{shown_name, write_line};
