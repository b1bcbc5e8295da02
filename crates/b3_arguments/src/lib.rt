//! The arguments of a call: `clap` reads the words in them.
#![tactic(auto)]

mod command;
mod environment;
mod words;

pub use environment::arguments;
pub use words::read_words;
