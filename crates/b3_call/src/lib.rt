//! A call of the program, from its arguments to its status: what its words ask for is done over a shelf and two outputs.
#![tactic(auto)]

mod call;
mod jobs;
mod lists;
mod run;

pub use call::{Called, StandardError, StandardOutput, call_with, run_call};
pub use run::run_words;
