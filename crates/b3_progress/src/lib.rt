//! The line of progress: what was done of a run, counted by any thread, and the terminal on which a line says so.
#![tactic(auto)]

mod progress;
mod progress_text;

pub use progress::{Progress, Terminal};
pub use progress_text::{Counts, progress_line};
